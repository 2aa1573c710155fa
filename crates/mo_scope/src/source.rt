//! Sources: what modifies a class, held by reference into the class tree.
use mo_syntax::{Argument, Expr, FrameId, Item, List, Place, Text};

/// A text's frame with the iteration variables around it, the innermost first.
#[derive(Drop)]
pub struct ScopeAt {
    pub frame: FrameId,
    pub iters: List<(Text, i64)>,
}

/// A modifier list, and the value behind it if there is one.
#[derive(Clone, Copy)]
pub struct Modifiers<'t> {
    pub list: &'t [Argument],
    pub value: Option<&'t Expr>,
}

/// What modifies a class.
#[derive(Clone, Copy)]
pub enum Given<'t> {
    Listed(Modifiers<'t>),
    /// An argument of which so many names were passed, at least one.
    Argued {
        argument: &'t Argument,
        passed: usize,
    },
    /// The elements with `redeclare` among the items of a class.
    Replacing(&'t [Item]),
}

/// The list that a source is a part of: where it stands, and the names that were passed since.
#[derive(Drop)]
pub struct Listing<'t> {
    pub place: Place,
    pub passed: List<&'t Text>,
}

/// Whether a list holds the own modifiers of a declaration, or those of its constraining clause: of the declaration whose
/// name stands there.
#[derive(Clone, Copy)]
pub enum Origin {
    Elsewhere,
    OwnOf(Place),
    ConstraintOf(Place),
}

/// What modifies a class, with the scope where it was written.
#[derive(Drop)]
pub struct Source<'t> {
    pub given: Given<'t>,
    pub scope: ScopeAt,
    /// The indices at which its values are still to be taken.
    pub pending: List<u32>,
    pub listing: Listing<'t>,
    /// Whether a `final` stood before a name that was passed.
    pub last: bool,
    /// Whether it has passed through a component.
    pub outside: bool,
    pub origin: Origin,
}

/// The expression that the first source which speaks of a path gives for it.
#[derive(Clone, Copy)]
pub struct Picked<'a> {
    pub value: &'a Expr,
    pub scope: &'a ScopeAt,
    pub pending: &'a [u32],
}
