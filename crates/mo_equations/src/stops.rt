//! Answers that lack memory at most, handed on where rules may be broken too.

ghost use Rattle.std.specs.Prelude.{◌≡◌, IfErr, IfOk, Ok};
ghost use Rattle.mo_syntax.specs.declared.place.Stop.TheVariants.{NoMemory as no_memory};

use mo_syntax::{NoMemory, Stop};

/// The answer as it is.
pub(crate) fn or_stop<T: Drop>(made: Result<T, NoMemory>) -> Result<T, Stop>
    ensures value { IfOk result (λ value. made ≡ Ok value) }
    ensures error { IfErr result (λ stop. stop ≡ no_memory) }
{
    match made {
        Ok(value) => Ok(value),
        Err(_) => Err(Stop::NoMemory),
    }
}
