//! The forms of lines, as tables of fields.

/// What may stand behind a word.
#[derive(Clone, Copy, Debug, PartialEq, Eq)]
pub enum Kind {
    Nothing,
    /// A number of 32 bits.
    Number,
    /// The name of an unknown, or of a class.
    Name,
    /// A name in derivatives.
    Derivative,
}

/// A word, and the kind of what stands behind it.
#[derive(Clone, Copy, Debug)]
pub struct Field {
    pub word: &'static str,
    pub kind: Kind,
}

macro_rules! fields {
    ($($word:literal $kind:ident),* $(,)?) => {
        [$(Field { word: $word, kind: Kind::$kind }),*]
    };
}

pub(crate) const REPORT: [Field; 1] = fields!["report " Name];

pub(crate) const EQUATIONS: [Field; 2] = fields!["equations " Number, " unknowns " Number];

pub(crate) const DEFICIT: [Field; 3] =
    fields!["deficit " Number, " equations " Number, " unknowns" Nothing];

pub(crate) const IN: [Field; 1] = fields!["in " Number];

pub(crate) const MENTIONS: [Field; 1] = fields!["mentions " Name];

pub(crate) const EQUATION: [Field; 4] =
    fields!["equation " Number, " c " Number, " pairs " Name, " order " Number];

pub(crate) const UNKNOWN: [Field; 2] = fields!["unknown " Name, " d " Number];

pub(crate) const UNDETERMINED: [Field; 1] = fields!["undetermined " Name];

pub(crate) const REASON: [Field; 2] = fields!["reason " Number, " from " Number];

pub(crate) const DUMMY: [Field; 3] =
    fields!["dummy " Derivative, " stage " Number, " equation " Number];

pub(crate) const STATE: [Field; 1] = fields!["state " Derivative];

pub(crate) const INDEX: [Field; 1] = fields!["index " Number];

pub(crate) const FREEDOM: [Field; 1] = fields!["freedom " Number];
