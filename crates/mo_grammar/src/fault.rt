//! Why no production goes on with a token.
ghost use Rattle.std.specs.Prelude.{◌≡◌};
ghost use Rattle.mo_grammar.specs.Faults.{rule_of};

use mo_syntax::{Rule, rules};

/// Why a token cannot stand where it stands.
#[derive(Clone, Copy, Debug, PartialEq, Eq)]
pub enum Fault {
    /// No production goes on with it, whatever the limits of nesting and the names behind `end` are.
    Misplaced,
    /// It would go on if the names behind `end` were free.
    Misnamed,
    /// It opens a construct or a class past the limit of nesting.
    TooDeep,
}

impl Fault {
    /// The rule that is broken: 6 for a misplaced token, 7 for another name behind `end`, 8 for nesting that is too
    /// deep.
    pub fn rule(self) -> Rule
        ensures { result ≡ rule_of self }
    {
        match self {
            Fault::Misplaced => Rule::new(rules::IMPOSSIBLE_TOKEN),
            Fault::Misnamed => Rule::new(rules::END_NAME_DIFFERS),
            Fault::TooDeep => Rule::new(rules::NESTING_TOO_DEEP),
        }
    }
}
