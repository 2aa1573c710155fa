//! What a walk is given and what it answers.
use crate::value::Scalar;
use mo_syntax::{Broken, NoMemory};

/// What is read of a virtual variable: its value, or none where it is undecided, or the rule that reading it breaks. None where it
/// is not read yet.
pub type Told = Option<Result<Option<Scalar>, Broken>>;

/// Why a walk gives no value.
#[derive(Clone, Copy, Debug, PartialEq, Eq)]
pub enum Halt {
    Broken(Broken),
    NoMemory,
    /// The variable of that number has to be read first.
    Unread(u32),
}

impl From<NoMemory> for Halt {
    ghost use Rattle.mo_values.specs.declared.halt.Halt.TheVariants.{NoMemory as no_memory};
    ghost use Rattle.std.specs.Prelude.{◌≡◌};

    ghost from_gives = { λ _ s. s ≡ no_memory };

    fn from(_refused: NoMemory) -> Halt {
        Halt::NoMemory
    }
}
