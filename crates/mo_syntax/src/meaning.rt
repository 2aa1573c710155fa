//! Numbers and kinds that the meaning of classes is told in.
use crate::list::List;
use crate::text::Text;

/// The number of a class: from 0 to 5 `Real`, `Integer`, `Boolean`, `String`, `StateSelect` and `AssertionLevel`, then the
/// class definitions of the files in the order of files and bytes, those in modifiers included.
#[derive(Clone, Copy, Debug, PartialEq, Eq)]
pub struct ClassId(pub u32);

/// The number of a frame, from 0 in the order in which frames are entered.
#[derive(Clone, Copy, Debug, PartialEq, Eq)]
pub struct FrameId(pub u32);

/// The names that lead to an instance, each with its indices, which are numbered from 1.
#[derive(Debug, Drop)]
pub struct InstancePath(pub List<(Text, List<u32>)>);

/// The kind of a scalar expression.
#[derive(Clone, Copy, Debug, PartialEq, Eq)]
pub enum Kind {
    Real,
    /// Integer.
    Whole,
    /// Boolean.
    Truth,
    /// String.
    Str,
    Enumeration(ClassId),
}

/// What a variable is in the flat model.
#[derive(Clone, Copy, Debug, PartialEq, Eq)]
pub enum Role {
    Unknown,
    /// A variable that is given from outside, by `input`.
    Given,
    Parameter,
    Constant,
}
