//! The flat model's parts: variables, equations and asserts.
use crate::FlatExpr;
use mo_syntax::{Kind, List, Place, Role, Text};

/// A scalar variable of the flat model. Its number is its place among the model's variables, from 1.
#[derive(Drop)]
pub struct FlatVar {
    /// The instance path, with dots and indices as `a.b[1,2].c`.
    pub name: Text,
    pub kind: Kind,
    /// The printed name of the kind: `Real`, or the path of an enumeration's class.
    pub kind_text: Text,
    pub role: Role,
    /// The given attributes by their number, from 0, in this order: quantity, unit, displayUnit, min, max, start, fixed,
    /// nominal, unbounded, stateSelect (Modelica Language Specification 3.5, section 4.8).
    pub attributes: List<(u8, FlatExpr)>,
    pub binding: Option<FlatExpr>,
    /// Where it is declared.
    pub place: Place,
}

/// An equation between two numeric scalars.
#[derive(Drop)]
pub struct FlatEquation {
    pub left: FlatExpr,
    pub right: FlatExpr,
    /// That of the equation as written, of the expression of a binding, or, for a connection set, of the declaration of
    /// its first leaf.
    pub place: Place,
}

/// A call of `assert`.
#[derive(Drop)]
pub struct FlatAssert {
    pub condition: FlatExpr,
    pub message: FlatExpr,
    pub level: Option<FlatExpr>,
}

/// A class as one list of scalar variables and equations.
#[derive(Drop)]
pub struct FlatModel {
    /// The path of the class, with dots.
    pub name: Text,
    pub place: Place,
    pub vars: List<FlatVar>,
    /// The initial equations.
    pub first: List<FlatEquation>,
    /// The asserts of initial equation sections.
    pub first_asserts: List<FlatAssert>,
    pub equations: List<FlatEquation>,
    pub asserts: List<FlatAssert>,
}
