//! What is held while a tree of instances is expanded.
use crate::flat::Flat;
use crate::leaves::Leaves;
use mo_eval::{Bound, Element, Reader, Resolved};
use mo_scope::Member;
use mo_syntax::{Expr, FrameId, List, Place};
use mo_values::layers::Layered;

/// What replaces an element of a constant where so many references were left.
#[derive(Drop)]
pub(crate) struct KeptConstant<'t> {
    pub element: Element<'t>,
    pub left: u64,
    pub flat: Flat,
}

/// What is resolved of an expression for the flat model, with its layers, and what replaces its variables where elements
/// asked of them. It breaks no rule of kinds, dimensions and subscripts.
#[derive(Drop)]
pub(crate) struct Resolution<'t> {
    pub resolved: Resolved<'t>,
    pub layers: Layered,
    pub replaced: Vec<Option<Flat>>,
}

/// The binding of a component, resolved with all references left, which is the same for all its elements.
#[derive(Drop)]
pub(crate) struct ArrayBinding<'t> {
    pub member: Member<'t>,
    pub resolution: Resolution<'t>,
}

/// What binds a component, resolved for its value with all references left, which is the same for all its elements.
#[derive(Drop)]
pub(crate) struct ValueBinding<'t> {
    pub member: Member<'t>,
    pub bound: Bound<'t>,
}

/// An expression of a frame, outside of loops, resolved with all references left.
#[derive(Drop)]
pub(crate) struct SharedExpression<'t> {
    pub frame: FrameId,
    pub value: &'t Expr,
    pub resolution: Resolution<'t>,
}

/// The reader of values, what replaces constants, the last bindings of arrays, the last expressions that elements share, the tables of
/// the leaves, and how many turns of loops were taken.
#[derive(Drop)]
pub(crate) struct Desk<'i, 't> {
    pub reader: Reader<'t>,
    pub constants: List<KeptConstant<'t>>,
    /// None while an element is made of it.
    pub binding: Option<ArrayBinding<'t>>,
    /// The last one that was read for its value; None while an element is read by it.
    pub read: Option<ValueBinding<'t>>,
    /// Without the one that an element is made of.
    pub shared: Vec<SharedExpression<'t>>,
    pub leaves: Leaves<'i, 't>,
    /// Where the name of the asked class stands.
    pub asked: Place,
    pub turns: u32,
}
