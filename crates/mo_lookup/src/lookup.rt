//! What simple names find.
#![tactic(auto, using(mo_names::proofs::Later::later))]

ghost use Rattle.std.specs.Prelude.{IfOk};
ghost use Rattle.mo_scope.specs.Names.{constant_unless, found as found_of, taken as taken_found};
ghost use Rattle.mo_scope.specs.Outcome.{Gives};
ghost use Rattle.mo_scope.specs.Worlds.{Grows, IsFrame, table_in};
ghost use Rattle.mo_scope.specs.Sights.{scope_at};
ghost use Rattle.mo_names.specs.Sights.{IsFound, found_at};
ghost use Rattle.mo_names.specs.Calls.{first_found_at, first_declared_at};

use crate::free::first_at;
use crate::outer::stands_for;
use mo_names::Found;
use mo_scope::{ScopeAt, Scopes, is_constant};
use mo_syntax::{Place, Stop, Text, rules, stop};
use std::alloc::Global;

/// Asks that a component which is not near is a constant.
fn constant_or_near(s: &Scopes, near: bool, found: &Found, place: Place) -> Result<(), Stop>
    ensures { Gives (λ _. found_at s.now found.now) result (constant_unless near place (found_at s.now found.now)) }
{
    match found {
        Found::Component(_, member) => {
            if near || is_constant(&member.declares) {
                Ok(())
            } else {
                Err(stop(rules::NOT_A_CONSTANT, place))
            }
        }
        Found::Class(_, _)
        | Found::Literal(_, _)
        | Found::Iteration(_)
        | Found::Function(_)
        | Found::Time => Ok(()),
    }
}

/// What was found, asked for a constant and then for the inner component.
pub(crate) fn taken<'t>(
    alloc: Global,
    s: &mut Scopes<'t>,
    near: bool,
    found: &Found<'t>,
    place: Place,
) -> Result<Found<'t>, Stop>
    requires { IsFound s.old found.now }
    ensures grows { Grows s.old s.new }
    ensures value { Gives (found_at s.new) result (taken_found (table_in s.old) near place (found_at s.old found.now)) }
    ensures stand { IfOk result (IsFound s.new) }
{
    constant_or_near(s, near, found, place)?;
    stands_for(alloc, s, found, place)
}

/// What a simple name in an expression finds in a scope, where it stands at that place: among the iteration variables, then
/// outwards from frame to frame. A component of an enclosing frame is a constant, and one that is declared `outer` stands for
/// the inner one. Breaks 12 to 19, 24, 34 and 45.
pub fn find<'t>(
    alloc: Global,
    s: &mut Scopes<'t>,
    at: &ScopeAt,
    name: &Text,
    place: Place,
) -> Result<Found<'t>, Stop>
    requires { IsFrame s.old at.now.frame.0 }
    ensures grows { Grows s.old s.new }
    ensures value { Gives (found_at s.new) result (found_of (table_in s.old) (scope_at s.old at.now) name.now place) }
    ensures stand { IfOk result (IsFound s.new) }
{
    find_first(alloc, s, at, false, name, place)
}

/// What the first identifier of a name in an expression finds in a scope; behind a leading dot it is found at the top.
pub fn find_first<'t>(
    alloc: Global,
    s: &mut Scopes<'t>,
    at: &ScopeAt,
    top: bool,
    name: &Text,
    place: Place,
) -> Result<Found<'t>, Stop>
    requires { IsFrame s.old at.now.frame.0 }
    ensures grows { Grows s.old s.new }
    ensures value { Gives (found_at s.new) result (first_found_at s.old top at.now name.now place) }
    ensures stand { IfOk result (IsFound s.new) }
{
    match first_at(alloc, s, at, top, name, place) {
        Ok(met) => taken(alloc, s, met.near, &met.found, place),
        Err(stop) => Err(stop),
    }
}

/// What the first identifier of a name finds as it is declared: a component need be no constant, and one that is declared
/// `outer` stands for itself. Breaks what `find_first` breaks, but for 15 and 45.
pub fn find_declared<'t>(
    alloc: Global,
    s: &mut Scopes<'t>,
    at: &ScopeAt,
    top: bool,
    name: &Text,
    place: Place,
) -> Result<Found<'t>, Stop>
    requires { IsFrame s.old at.now.frame.0 }
    ensures grows { Grows s.old s.new }
    ensures value { Gives (found_at s.new) result (first_declared_at s.old top at.now name.now place) }
    ensures stand { IfOk result (IsFound s.new) }
{
    match first_at(alloc, s, at, top, name, place) {
        Ok(met) => Ok(met.found),
        Err(stop) => Err(stop),
    }
}
