//! Places in files, rules and refusals.
ghost use Rattle.std.specs.Prelude.{◌≡◌, ◌≤◌};

use std::alloc::{AllocError, AllocFailed};
use std::error::Error;
use std::fmt;
use std::marker::Model;

/// A byte of a file.
#[derive(Clone, Copy, Debug, PartialEq, Eq)]
pub struct Place {
    /// The number of the file, from 1 in the order of the command line; 0 is the command line itself.
    pub file: u32,
    /// The number of bytes before the place, from the start of the file.
    pub byte: u32,
}

/// A rule that a set of files may break, by its printed number from 1 to 46.
#[derive(Clone, Copy, Debug, PartialEq, Eq)]
pub struct Rule(u8);

impl Model for Rule {
    ghost use Rattle.std.specs.Prelude.{ℕ, ◌≤◌};
    ghost use Rattle.std.specs.Coded.{coded_ℕ};

    ghost Value = { ℕ };

    ghost coded = { coded_ℕ };

    ghost view = { λ r. r.0 };

    ghost invariant = { λ r. (1 ≤ r.0) × (r.0 ≤ 46) };

    ghost inverse = { λ n. record { 0 = n } };
}

impl Rule {
    /// The rule of that number.
    pub fn new(number: u8) -> Rule
        requires low { 1 ≤ number }
        requires high { number ≤ 46 }
        ensures { result ≡ number }
    {
        Rule(number)
    }

    /// The rule's number, as it is printed: from 1 to 46.
    pub fn number(&self) -> u8
        ensures is { result ≡ self.now }
        ensures low { 1 ≤ result }
        ensures high { result ≤ 46 }
    {
        self.0
    }
}

/// A broken rule and where it is broken.
#[derive(Clone, Copy, Debug, PartialEq, Eq)]
pub struct Broken {
    pub rule: Rule,
    pub place: Place,
}

/// Memory was refused.
#[derive(Clone, Copy, Debug, PartialEq, Eq)]
pub struct NoMemory;

impl fmt::Display for NoMemory {
    fn fmt<W: fmt::Write>(&self, f: &mut fmt::Formatter<W>) -> fmt::Result {
        write!(f, "out of memory")
    }
}

impl Error for NoMemory {}

impl From<AllocError> for NoMemory {
    fn from(_refused: AllocError) -> NoMemory {
        NoMemory
    }
}

impl<T: Drop> From<AllocFailed<T>> for NoMemory {
    fn from(_refused: AllocFailed<T>) -> NoMemory {
        NoMemory
    }
}

/// Why a call gives no value: a rule is broken, or memory was refused.
#[derive(Clone, Copy, Debug, PartialEq, Eq)]
pub enum Stop {
    Broken(Broken),
    NoMemory,
}

impl fmt::Display for Stop {
    fn fmt<W: fmt::Write>(&self, f: &mut fmt::Formatter<W>) -> fmt::Result {
        match self {
            Stop::Broken(broken) => write!(
                f,
                "rule {} is broken at byte {} of file {}",
                broken.rule.number(),
                broken.place.byte,
                broken.place.file
            ),
            Stop::NoMemory => write!(f, "out of memory"),
        }
    }
}

impl Error for Stop {}

impl From<NoMemory> for Stop {
    ghost use Rattle.mo_syntax.specs.declared.place.Stop.TheVariants.{NoMemory as no_memory};
    ghost use Rattle.std.specs.Prelude.{◌≡◌};

    ghost from_gives = { λ _ s. s ≡ no_memory };

    fn from(_refused: NoMemory) -> Stop {
        Stop::NoMemory
    }
}

impl From<AllocError> for Stop {
    ghost use Rattle.mo_syntax.specs.declared.place.Stop.TheVariants.{NoMemory as no_memory};
    ghost use Rattle.std.specs.Prelude.{◌≡◌};

    ghost from_gives = { λ _ s. s ≡ no_memory };

    fn from(_refused: AllocError) -> Stop {
        Stop::NoMemory
    }
}

impl<T: Drop> From<AllocFailed<T>> for Stop {
    ghost use Rattle.mo_syntax.specs.declared.place.Stop.TheVariants.{NoMemory as no_memory};
    ghost use Rattle.std.specs.Prelude.{◌≡◌};

    ghost from_gives = { λ _ s. s ≡ no_memory };

    fn from(_refused: AllocFailed<T>) -> Stop {
        Stop::NoMemory
    }
}
