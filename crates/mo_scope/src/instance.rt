//! Instances (Modelica Language Specification 3.5, sections 4.4, 4.8 and 5.6.2).
use crate::scopes::Scopes;
use crate::source::ScopeAt;
use mo_syntax::{Expr, FrameId, InstancePath, Kind, List, Place, Role};

/// An expression that is chosen for an attribute or a binding.
#[derive(Drop)]
pub struct Chosen<'t> {
    pub value: &'t Expr,
    /// The scope that it is looked up in.
    pub scope: ScopeAt,
    /// The indices at which its value is still to be taken.
    pub pending: List<u32>,
}

/// A component of a predefined type or an enumeration.
#[derive(Drop)]
pub struct Leaf<'t> {
    pub kind: Kind,
    pub role: Role,
    /// The attributes that are given, in their order, each by its number among those of Real: quantity 0, unit 1,
    /// displayUnit 2, min 3, max 4, start 5, fixed 6, nominal 7, unbounded 8, stateSelect 9.
    pub attributes: List<(u8, Chosen<'t>)>,
    pub binding: Option<Chosen<'t>>,
}

/// The asked class, a component, or an element of an array of components.
#[derive(Drop)]
pub struct Instance<'t> {
    /// The frame that it is entered as.
    pub frame: FrameId,
    /// The names and indices that lead to it, none to the asked class.
    pub path: InstancePath,
    /// Where its name is declared.
    pub place: Place,
    /// The dimensions of the component that it is an element of.
    pub dims: List<u32>,
    /// None for an instance that is no leaf.
    pub leaf: Option<Leaf<'t>>,
}

/// The asked class, then its components, each before its parts, and the frames that they are entered as.
#[derive(Drop)]
pub struct InstanceTree<'t> {
    pub scopes: Scopes<'t>,
    pub instances: List<Instance<'t>>,
}
