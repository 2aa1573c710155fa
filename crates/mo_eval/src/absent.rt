//! Why the elements of a reference are not found: what an expression refuses, removes an end of a connect.
ghost use Rattle.std.specs.Prelude.{◌≡◌};
ghost use Rattle.mo_eval.specs.steps.Absence.{Breaks, as_stopped};

use mo_syntax::{NoMemory, Place, Stop, broken, rules};
use std::alloc::AllocError;

/// Why the elements of a reference are not found.
#[derive(Clone, Copy, Debug, PartialEq, Eq)]
pub(crate) enum Absent {
    /// Its condition removes the component of that identifier.
    Removed(Place),
    Stopped(Stop),
}

impl From<Stop> for Absent {
    ghost use Rattle.mo_eval.specs.declared.absent.Absent.TheVariants.{Stopped};
    ghost use Rattle.std.specs.Prelude.{◌≡◌};

    ghost from_gives = { λ stop absent. absent ≡ Stopped stop };

    fn from(stop: Stop) -> Absent {
        Absent::Stopped(stop)
    }
}

impl From<NoMemory> for Absent {
    ghost use Rattle.mo_syntax.specs.declared.place.Stop.TheVariants.{NoMemory as no_memory};
    ghost use Rattle.mo_eval.specs.declared.absent.Absent.TheVariants.{Stopped};
    ghost use Rattle.std.specs.Prelude.{◌≡◌};

    ghost from_gives = { λ _ absent. absent ≡ Stopped no_memory };

    fn from(_refused: NoMemory) -> Absent {
        Absent::Stopped(Stop::NoMemory)
    }
}

impl From<AllocError> for Absent {
    ghost use Rattle.mo_syntax.specs.declared.place.Stop.TheVariants.{NoMemory as no_memory};
    ghost use Rattle.mo_eval.specs.declared.absent.Absent.TheVariants.{Stopped};
    ghost use Rattle.std.specs.Prelude.{◌≡◌};

    ghost from_gives = { λ _ absent. absent ≡ Stopped no_memory };

    fn from(_refused: AllocError) -> Absent {
        Absent::Stopped(Stop::NoMemory)
    }
}

/// An answer in an expression, where a component that is removed breaks rule 12 at its identifier.
pub(crate) fn or_broken<T: Drop>(answer: Result<T, Absent>) -> Result<T, Stop>
    ensures { result ≡ as_stopped Breaks answer }
{
    match answer {
        Ok(value) => Ok(value),
        Err(Absent::Removed(place)) => Err(Stop::Broken(broken(rules::NAME_NOT_FOUND, place))),
        Err(Absent::Stopped(stop)) => Err(stop),
    }
}
