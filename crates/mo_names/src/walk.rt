//! The elements of frames with the base frames on the way to them.
use mo_scope::{Member, Names};
use mo_syntax::{FrameId, List};

/// An element with the base frames on the way to the frame whose class declares it, the innermost first.
#[derive(Drop)]
pub struct Inherited<'t> {
    pub member: Member<'t>,
    pub through: List<FrameId>,
}

/// The elements of a frame in their order; its base frames, each once with those on the way to it, the innermost first, in the
/// order of extends clauses and in that of sections, where the bases of a base come before it; and the frame at the end of its
/// bases, where that is a predefined type or an enumeration.
#[derive(Drop)]
pub struct Walk<'t> {
    pub members: List<Inherited<'t>>,
    /// Each begins with a base frame and goes outwards.
    pub bases: List<List<FrameId>>,
    pub sections: List<List<FrameId>>,
    pub leaf: Option<FrameId>,
    /// The names of the elements. They are held apart, since walks inside one another stand on the stack.
    pub names: Box<Names<'t>>,
}
