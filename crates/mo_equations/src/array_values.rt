//! The bindings of arrays that are read for their values, each resolved once for all elements of its array.
#![tactic(auto, using(crate::proofs::Staying::staying))]

ghost use Rattle.std.specs.Prelude.{◌≡◌, Ok, IfOk, IfSome};
ghost use Rattle.mo_typing.specs.Outcome.{Gives};
ghost use Rattle.mo_scope.specs.Sights.{scope_at};
ghost use Rattle.mo_scope.specs.Worlds.{IsFrame, frames_of, table_in};
ghost use Rattle.mo_syntax.specs.Outcome.{IfBroken};
ghost use Rattle.mo_eval.specs.InScope.{resolved_for_value_in_scope};
ghost use Rattle.mo_eval.specs.Keeping.{bound_seen};
ghost use Rattle.mo_eval.specs.Values.{most_references};
ghost use Rattle.mo_equations.specs.steps.Arrays.{IsChosenBy, IsElementOf, IsValueBinding};
ghost use Rattle.mo_equations.specs.steps.Desks.{IsDesk, Stays};
ghost use Rattle.mo_equations.specs.steps.Layers.{HasRule, fit_of, wanted_of};
ghost use Rattle.mo_equations.specs.steps.Ranges.{known_so};

use crate::arrays::{component_of, is_element};
use crate::desk::{Desk, ValueBinding};
use crate::layers::layered_bound;
use crate::standing::Asked;
use crate::values::known_at;
use mo_eval::{Bound, MOST_REFERENCES, Scalar};
use mo_scope::{Instance, Scopes};
use mo_syntax::Stop;
use mo_values::layers::layers_of;
use std::alloc::Global;

/// What binds the array that an instance is an element of, taken out where it is held.
fn taken<'i, 't>(
    s: &Scopes<'t>,
    desk: &mut Desk<'i, 't>,
    instance: &Instance<'t>,
) -> Option<ValueBinding<'t>>
    requires { IsDesk s.now desk.old }
    ensures stays { Stays s.now s.now desk.old desk.new }
    ensures binding { IfSome result (IsValueBinding s.now) }
    ensures element { IfSome result (λ binding. IsElementOf s.now binding.member instance.now.frame.0) }
{
    let Some(read) = &desk.read else {
        return None;
    };
    if !is_element(s, &read.member, instance) {
        return None;
    }
    desk.read.take()
}

/// What binds the array that an instance is an element of, resolved for its value; None where the array is not known.
fn value_binding<'i, 't>(
    alloc: Global,
    s: &mut Scopes<'t>,
    desk: &mut Desk<'i, 't>,
    asked: &Asked,
    instance: &Instance<'t>,
) -> Result<Option<ValueBinding<'t>>, Stop>
    requires frame { IsFrame s.old asked.now.at.now.frame.0 }
    requires instance { IsFrame s.old instance.now.frame.0 }
    requires chosen { IsChosenBy s.old instance.now.frame.0 asked.now }
    requires desk { IsDesk s.old desk.old }
    ensures stays { Stays s.old s.new desk.old desk.new }
    ensures binding { IfOk result (λ found. IfSome found (IsValueBinding s.new)) }
    ensures is { IfOk result (λ found. IfSome found (λ binding. resolved_for_value_in_scope s.old most_references asked.now.at.now asked.now.value.now ≡ Ok (bound_seen (frames_of s.new) binding.bound))) }
    ensures refused { IfBroken result (λ broken. resolved_for_value_in_scope s.old most_references asked.now.at.now asked.now.value.now ≡ Err broken) }
{
    if let Some(binding) = taken(s, desk, instance) {
        return Ok(Some(binding));
    }
    let Some(member) = component_of(s, instance) else {
        return Ok(None);
    };
    let resolved = desk
        .reader
        .resolved_for_value(s, asked.at, MOST_REFERENCES, asked.value)?;
    let layers = layers_of(alloc, &resolved.expression)?;
    let bound = Bound { resolved, layers };
    Ok(Some(ValueBinding { member, bound }))
}

/// What is known of an element by what binds its array, which is held for the next element.
fn known_by<'i, 't>(
    alloc: Global,
    s: &mut Scopes<'t>,
    desk: &mut Desk<'i, 't>,
    asked: &Asked,
    binding: ValueBinding<'t>,
) -> Result<Option<Scalar>, Stop>
    requires rule { HasRule asked.now.layers.fit }
    requires binding { IsValueBinding s.old binding }
    requires is { resolved_for_value_in_scope s.old most_references asked.now.at.now asked.now.value.now ≡ Ok (bound_seen (frames_of s.old) binding.bound) }
    requires desk { IsDesk s.old desk.old }
    ensures stays { Stays s.old s.new desk.old desk.new }
    ensures exact { Gives result (known_so (table_in s.old) (wanted_of asked.now.layers.want asked.now.layers.place) (fit_of asked.now.layers.fit asked.now.layers.place) (scope_at s.old asked.now.at.now) asked.now.value.now asked.now.index.now) }
{
    layered_bound(alloc, &asked.layers, &binding.bound)?;
    let known = desk
        .reader
        .known_of_binding(s, MOST_REFERENCES, &binding.bound, asked.index)?;
    desk.read = Some(binding);
    Ok(known)
}

/// What is known of an expression as `known_at` gives it; where it binds an element of an array that is known, it is resolved once for
/// all elements of the array. `NoMemory` is the only other answer.
pub(crate) fn known_of_element<'i, 't>(
    alloc: Global,
    s: &mut Scopes<'t>,
    desk: &mut Desk<'i, 't>,
    asked: &Asked,
    instance: &Instance<'t>,
) -> Result<Option<Scalar>, Stop>
    requires frame { IsFrame s.old asked.now.at.now.frame.0 }
    requires instance { IsFrame s.old instance.now.frame.0 }
    requires rule { HasRule asked.now.layers.fit }
    requires chosen { IsChosenBy s.old instance.now.frame.0 asked.now }
    requires desk { IsDesk s.old desk.old }
    ensures stays { Stays s.old s.new desk.old desk.new }
    ensures exact { Gives result (known_so (table_in s.old) (wanted_of asked.now.layers.want asked.now.layers.place) (fit_of asked.now.layers.fit asked.now.layers.place) (scope_at s.old asked.now.at.now) asked.now.value.now asked.now.index.now) }
{
    let found = value_binding(alloc, s, desk, asked, instance)?;
    match found {
        Some(binding) => known_by(alloc, s, desk, asked, binding),
        None => known_at(alloc, s, desk, asked),
    }
}
