//! Connects and connection sets, and the parts of a flat model before its connection sets are made equations.
use crate::{FlatAssert, FlatEquation, FlatVar};
use mo_syntax::{InstancePath, List, Place, Text};

/// The connects of a class in the order of its equations, and the flow leaves of all its connectors.
#[derive(Drop)]
pub struct Connects {
    pub list: List<Connect>,
    /// Each flow leaf by the number of its variable, ascending, with the place of its declaration.
    pub flows: List<(u32, Place)>,
}

/// A `connect(left, right)`.
#[derive(Drop)]
pub struct Connect {
    pub place: Place,
    pub left: End,
    pub right: End,
}

/// An end of a connect.
#[derive(Drop)]
pub struct End {
    pub place: Place,
    pub side: Side,
    pub dims: List<u32>,
    /// For each element, the last index fastest, its leaves. Empty where the side is `Neither`.
    pub elements: List<List<EndLeaf>>,
}

/// How a connector lies to the class that holds the connect (Modelica Language Specification 3.5, section 9.1.2).
#[derive(Clone, Copy, Debug, PartialEq)]
pub enum Side {
    Inside,
    Outside,
    Neither,
}

/// A leaf of a connector.
#[derive(Drop)]
pub struct EndLeaf {
    /// Its name below the connector.
    pub below: InstancePath,
    pub flow: bool,
    /// The number of its variable, from 1.
    pub variable: u32,
    /// Where it is declared.
    pub place: Place,
}

/// A connection set. Each member is the number of a variable, and whether its connector is outside.
#[derive(Drop)]
pub struct FaceSet {
    pub flow: bool,
    /// That of the declaration of its first leaf.
    pub place: Place,
    pub members: List<(u32, bool)>,
}

/// The parts of a flat model without the equations of connection sets, and the connects.
#[derive(Drop)]
pub struct Expanded {
    pub name: Text,
    pub place: Place,
    pub vars: List<FlatVar>,
    pub first: List<FlatEquation>,
    pub first_asserts: List<FlatAssert>,
    pub equations: List<FlatEquation>,
    pub asserts: List<FlatAssert>,
    pub connects: Connects,
}
