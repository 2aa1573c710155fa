//! The kinds of lists of flat expressions.
ghost use Rattle.std.specs.Prelude.{◌≡◌, ◌∷◌, [], ◌++◌, None, option_map};
ghost use Rattle.mo_flat.specs.Sound.{common_kind as common_of, number_kind as number_of, is_enumeration as is_enumeration_kind, is_numeric as is_numeric_kind, is_string as is_string_kind, is_truth as is_truth_kind, is_whole as is_whole_kind};
ghost use Rattle.mo_sound.specs.SoundKinds.{AreSummed, PartKinds, kind_seen};

/// The kind of a flat expression. It does not keep the class of an enumeration literal, so all enumerations are one kind.
#[derive(Clone, Copy, Debug, PartialEq, Eq)]
pub(crate) enum ValueKind {
    Real,
    /// Integer.
    Whole,
    /// Boolean.
    Truth,
    /// String.
    Str,
    Enumeration,
}

/// What holds of all kinds of a list; one that is none is of no kind.
#[derive(Clone, Copy)]
pub(crate) struct Kinds {
    pub numeric: bool,
    pub whole: bool,
    pub truth: bool,
    pub string: bool,
    pub enumeration: bool,
}

pub(crate) fn is_numeric(kind: Option<ValueKind>) -> bool
    ensures { result ≡ is_numeric_kind (option_map kind_seen kind) }
{
    match kind {
        Some(ValueKind::Real) | Some(ValueKind::Whole) => true,
        Some(ValueKind::Truth) | Some(ValueKind::Str) | Some(ValueKind::Enumeration) => false,
        None => false,
    }
}

pub(crate) fn is_whole(kind: Option<ValueKind>) -> bool
    ensures { result ≡ is_whole_kind (option_map kind_seen kind) }
{
    match kind {
        Some(ValueKind::Whole) => true,
        Some(ValueKind::Real) | Some(ValueKind::Truth) => false,
        Some(ValueKind::Str) | Some(ValueKind::Enumeration) => false,
        None => false,
    }
}

pub(crate) fn is_truth(kind: Option<ValueKind>) -> bool
    ensures { result ≡ is_truth_kind (option_map kind_seen kind) }
{
    match kind {
        Some(ValueKind::Truth) => true,
        Some(ValueKind::Real) | Some(ValueKind::Whole) => false,
        Some(ValueKind::Str) | Some(ValueKind::Enumeration) => false,
        None => false,
    }
}

fn is_string(kind: Option<ValueKind>) -> bool
    ensures { result ≡ is_string_kind (option_map kind_seen kind) }
{
    match kind {
        Some(ValueKind::Str) => true,
        Some(ValueKind::Real) | Some(ValueKind::Whole) => false,
        Some(ValueKind::Truth) | Some(ValueKind::Enumeration) => false,
        None => false,
    }
}

fn is_enumeration(kind: Option<ValueKind>) -> bool
    ensures { result ≡ is_enumeration_kind (option_map kind_seen kind) }
{
    match kind {
        Some(ValueKind::Enumeration) => true,
        Some(ValueKind::Real) | Some(ValueKind::Whole) => false,
        Some(ValueKind::Truth) | Some(ValueKind::Str) => false,
        None => false,
    }
}

impl Kinds {
    /// Of no kinds all holds.
    pub fn none() -> Kinds
        ensures { AreSummed result [] }
    {
        Kinds {
            numeric: true,
            whole: true,
            truth: true,
            string: true,
            enumeration: true,
        }
    }

    /// Those with one kind more.
    pub fn with(self, kind: Option<ValueKind>) -> Kinds
        ensures { (all : PartKinds) → AreSummed self all → AreSummed result (all ++ option_map kind_seen kind ∷ []) }
    {
        Kinds {
            numeric: self.numeric && is_numeric(kind),
            whole: self.whole && is_whole(kind),
            truth: self.truth && is_truth(kind),
            string: self.string && is_string(kind),
            enumeration: self.enumeration && is_enumeration(kind),
        }
    }

    /// Integer where all are Integers, Real where all are numbers.
    pub fn number(self) -> Option<ValueKind>
        ensures { (all : PartKinds) → AreSummed self all → option_map kind_seen result ≡ number_of all }
    {
        if self.whole {
            return Some(ValueKind::Whole);
        }
        if self.numeric {
            Some(ValueKind::Real)
        } else {
            None
        }
    }

    /// The one kind of several values, an Integer being accepted where a Real is wanted.
    pub fn common(self) -> Option<ValueKind>
        ensures { (all : PartKinds) → AreSummed self all → option_map kind_seen result ≡ common_of all }
    {
        if self.numeric {
            return self.number();
        }
        if self.truth {
            return Some(ValueKind::Truth);
        }
        if self.string {
            return Some(ValueKind::Str);
        }
        if self.enumeration {
            Some(ValueKind::Enumeration)
        } else {
            None
        }
    }
}
