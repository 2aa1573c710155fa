//! Refusals: the one way to say that a rule is broken at a place.
ghost use Rattle.std.specs.Prelude.{◌≡◌, ◌≤◌};
ghost use Rattle.mo_syntax.specs.declared.place.Stop.TheVariants.{Broken as broken_by};
ghost use Rattle.mo_syntax.specs.Outcome.{breach};

use crate::place::{Broken, Place, Rule, Stop};

/// The rule of that number is broken at the place. The numbers have names in `rules`.
pub fn broken(rule: u8, place: Place) -> Broken
    requires low { 1 ≤ rule }
    requires high { rule ≤ 46 }
    ensures { result ≡ breach rule place }
{
    Broken {
        rule: Rule::new(rule),
        place,
    }
}

/// The rule of that number is broken at the place, as the answer of a call that stops there.
pub fn stop(rule: u8, place: Place) -> Stop
    requires low { 1 ≤ rule }
    requires high { rule ≤ 46 }
    ensures { result ≡ broken_by (breach rule place) }
{
    Stop::Broken(broken(rule, place))
}
