//! What names find, and what elements are entered as.
use mo_scope::{Declares, Member, Redeclaration, Source};
use mo_syntax::{ClassId, FrameId, List, Place};

/// What a name finds.
#[derive(Clone, Copy)]
pub enum Found<'t> {
    /// A component, with the frame among whose elements it was found.
    Component(FrameId, Member<'t>),
    /// A class as the frame that it is entered as, and whether its element is replaceable.
    Class(FrameId, bool),
    /// A literal of an enumeration, by its place among the literals, from 0.
    Literal(ClassId, u32),
    /// An iteration variable with its value.
    Iteration(i64),
    /// A predefined function, by its code.
    Function(u16),
    Time,
}

/// What a name reaches among the elements of a frame.
#[derive(Clone, Copy)]
pub enum Reached<'t> {
    Element(Member<'t>),
    /// A literal of the enumeration that the class of the frame ends at.
    Other(Found<'t>),
    Absent,
}

/// An element of a frame, entered at an index.
#[derive(Drop)]
pub struct Child<'t> {
    pub declares: Declares<'t>,
    /// The redeclaration that wins, None where there is none.
    pub redeclared: Option<Redeclaration<'t>>,
    /// The class of its type as it was found; of a class, the frame that it is entered as.
    pub class: FrameId,
    /// What modifies it, outermost first.
    pub sources: List<Source<'t>>,
}

/// What a name finds, and whether it is an element of the frame that the text stands in.
#[derive(Clone, Copy)]
pub struct Met<'t> {
    pub found: Found<'t>,
    pub near: bool,
}

/// A class that a name finds, and whether its element is replaceable.
#[derive(Clone, Copy)]
pub struct Classed {
    pub frame: FrameId,
    pub replaceable: bool,
}

/// How the elements of frames are asked: how many classes may still have their bases found, the classes whose bases are being
/// found, the place that asks, and how deep the calls stand.
#[derive(Clone, Copy)]
pub struct Ask<'a> {
    pub left: usize,
    pub busy: &'a [u32],
    pub place: Place,
    /// One for each class whose bases are being found, and more where a name is looked up on the way; 0 from outside. Only
    /// want of memory depends on it.
    pub depth: u32,
}
