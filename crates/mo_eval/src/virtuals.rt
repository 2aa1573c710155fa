//! What the variables of a resolved expression stand for.
use mo_flat::ArrayExpr;
use mo_scope::Member;
use mo_syntax::{Kind, List, Place};

/// An element of a component.
#[derive(Drop)]
pub struct Element<'t> {
    /// Its declaration, with the frame that it stands in.
    pub member: Member<'t>,
    pub index: List<u32>,
    /// The kind of its type; Real for a component that is no leaf.
    pub kind: Kind,
    /// Where the reference to it stands.
    pub place: Place,
    /// Whether a declaration found by the names of the reference makes it constant.
    pub constant: bool,
}

/// What a variable of a resolved expression stands for.
#[derive(Drop)]
pub enum Virtual<'t> {
    Component(Element<'t>),
    /// A call of `div`, `mod` or `rem` by its number; the variables of its operands stand before it.
    Division {
        place: Place,
        function: u16,
        left: ArrayExpr,
        right: ArrayExpr,
    },
}

/// A resolved expression, whose variable k stands for virtual variable k - 1.
#[derive(Drop)]
pub struct Resolved<'t> {
    pub expression: ArrayExpr,
    pub virtuals: List<Virtual<'t>>,
}

/// The two sides of an equation, resolved over one list of variables, the left one first.
#[derive(Drop)]
pub struct Sides<'t> {
    pub left: ArrayExpr,
    pub right: ArrayExpr,
    pub virtuals: List<Virtual<'t>>,
}
