//! The bindings of arrays, each resolved once for all elements of its array.
#![tactic(auto, using(crate::proofs::Staying::staying))]

ghost use Rattle.std.specs.Prelude.{◌≡◌, Ok, Err, IfOk, IfSome, IsTrue};
ghost use Rattle.mo_scope.specs.Names.{component_entered};
ghost use Rattle.mo_scope.specs.Sights.{member_at, scope_at};
ghost use Rattle.mo_scope.specs.Worlds.{IsFrame, frame_at, table_in};
ghost use Rattle.mo_names.specs.Sights.{IsMember};
ghost use Rattle.mo_syntax.specs.Outcome.{IfBroken};
ghost use Rattle.mo_eval.specs.InScope.{resolved_in_scope};
ghost use Rattle.mo_eval.specs.Seen.{resolved_at};
ghost use Rattle.mo_eval.specs.Values.{most_references};
ghost use Rattle.mo_equations.specs.Replacing.{flat_at as flat_of_expression};
ghost use Rattle.mo_equations.specs.steps.Arrays.{IsArrayBinding, IsChosenBy, IsElementOf};
ghost use Rattle.mo_equations.specs.steps.Desks.{IsDesk, Stays};
ghost use Rattle.mo_equations.specs.steps.Standing.{replacing_in};
ghost use Rattle.mo_equations.specs.steps.Flats.{Answers, IsFlat};
ghost use Rattle.mo_equations.specs.steps.Layers.{HasRule, fit_of, wanted_of};

use crate::desk::{ArrayBinding, Desk};
use crate::flat::Flat;
use crate::resolutions::{flat_of_resolution, resolution_of};
use crate::standing::{Asked, flat_at};
use mo_scope::{Instance, Member, Scopes};
use mo_syntax::{FrameId, Stop};
use std::alloc::Global;

/// Whether an instance is an element of an array.
pub(crate) fn is_in_array(instance: &Instance) -> bool {
    match instance.path.0.as_slice() {
        [.., last] => !last.1.is_empty(),
        [] => false,
    }
}

/// Whether a frame is known to be the one that an element of a component is entered as.
fn is_entered_as<'t>(s: &Scopes<'t>, member: &Member<'t>, index: &[u32], frame: FrameId) -> bool
    requires { IsMember s.now member.now }
    ensures { IsTrue result → component_entered (table_in s.now) (member_at s.now member.now) index.now ≡ Ok (frame_at s.now frame.0) }
{
    match s.entered_component(member, index) {
        Some(entered) => entered.0 == frame.0,
        None => false,
    }
}

/// Whether an instance is known to be an element of a component.
pub(crate) fn is_element<'t>(s: &Scopes<'t>, member: &Member<'t>, instance: &Instance<'t>) -> bool
    requires { IsMember s.now member.now }
    ensures { IsTrue result → IsElementOf s.now member.now instance.now.frame.0 }
{
    match instance.path.0.as_slice() {
        [.., last] => is_entered_as(s, member, last.1.as_slice(), instance.frame),
        [] => false,
    }
}

/// The component that a frame declares with the last name of an instance's path.
fn component_in<'t>(s: &Scopes<'t>, home: FrameId, instance: &Instance<'t>) -> Option<Member<'t>>
    requires { IsFrame s.now home.0 }
    ensures { IfSome result (IsMember s.now) }
{
    match instance.path.0.as_slice() {
        [.., last] => s.own_member(home, &last.0),
        [] => None,
    }
}

/// The component that an instance is an element of, None where that is not known.
pub(crate) fn component_of<'t>(s: &Scopes<'t>, instance: &Instance<'t>) -> Option<Member<'t>>
    requires { IsFrame s.now instance.now.frame.0 }
    ensures { IfSome result (λ member. IsElementOf s.now member instance.now.frame.0) }
{
    let Some(home) = s.owner(instance.frame) else {
        return None;
    };
    let Some(member) = component_in(s, home, instance) else {
        return None;
    };
    if is_element(s, &member, instance) {
        Some(member)
    } else {
        None
    }
}

/// The binding of the array that an instance is an element of, taken out where it is kept.
fn taken<'i, 't>(
    s: &Scopes<'t>,
    desk: &mut Desk<'i, 't>,
    instance: &Instance<'t>,
) -> Option<ArrayBinding<'t>>
    requires { IsDesk s.now desk.old }
    ensures stays { Stays s.now s.now desk.old desk.new }
    ensures binding { IfSome result (IsArrayBinding s.now desk.new.leaves) }
    ensures element { IfSome result (λ binding. IsElementOf s.now binding.member instance.now.frame.0) }
{
    let Some(kept) = &desk.binding else {
        return None;
    };
    if !is_element(s, &kept.member, instance) {
        return None;
    }
    desk.binding.take()
}

/// The binding of an array of which an instance is an element, resolved; None where it breaks a rule of kinds, dimensions or subscripts.
fn resolved_for<'i, 't>(
    alloc: Global,
    s: &mut Scopes<'t>,
    desk: &mut Desk<'i, 't>,
    asked: &Asked,
    member: Member<'t>,
    _instance: &Instance<'t>,
) -> Result<Option<ArrayBinding<'t>>, Stop>
    requires frame { IsFrame s.old asked.now.at.now.frame.0 }
    requires instance { IsFrame s.old _instance.now.frame.0 }
    requires left { asked.now.left ≡ most_references }
    requires chosen { IsChosenBy s.old _instance.now.frame.0 asked.now }
    requires element { IsElementOf s.old member _instance.now.frame.0 }
    requires desk { IsDesk s.old desk.old }
    ensures stays { Stays s.old s.new desk.old desk.new }
    ensures binding { IfOk result (λ found. IfSome found (IsArrayBinding s.new desk.new.leaves)) }
    ensures is { IfOk result (λ found. IfSome found (λ binding. resolved_in_scope s.old asked.now.left asked.now.at.now asked.now.value.now ≡ Ok (resolved_at s.new binding.resolution.resolved))) }
    ensures refused { IfBroken result (λ broken. resolved_in_scope s.old asked.now.left asked.now.at.now asked.now.value.now ≡ Err broken) }
{
    let found = resolution_of(alloc, s, desk, asked)?;
    match found {
        Some(resolution) => Ok(Some(ArrayBinding { member, resolution })),
        None => Ok(None),
    }
}

/// The binding of the array that an instance is an element of, resolved; None where the array is not known, or where the binding breaks
/// a rule of kinds, dimensions or subscripts.
fn array_binding<'i, 't>(
    alloc: Global,
    s: &mut Scopes<'t>,
    desk: &mut Desk<'i, 't>,
    asked: &Asked,
    instance: &Instance<'t>,
) -> Result<Option<ArrayBinding<'t>>, Stop>
    requires frame { IsFrame s.old asked.now.at.now.frame.0 }
    requires instance { IsFrame s.old instance.now.frame.0 }
    requires left { asked.now.left ≡ most_references }
    requires chosen { IsChosenBy s.old instance.now.frame.0 asked.now }
    requires desk { IsDesk s.old desk.old }
    ensures stays { Stays s.old s.new desk.old desk.new }
    ensures binding { IfOk result (λ found. IfSome found (IsArrayBinding s.new desk.new.leaves)) }
    ensures is { IfOk result (λ found. IfSome found (λ binding. resolved_in_scope s.old asked.now.left asked.now.at.now asked.now.value.now ≡ Ok (resolved_at s.new binding.resolution.resolved))) }
    ensures refused { IfBroken result (λ broken. resolved_in_scope s.old asked.now.left asked.now.at.now asked.now.value.now ≡ Err broken) }
{
    if let Some(binding) = taken(s, desk, instance) {
        return Ok(Some(binding));
    }
    match component_of(s, instance) {
        Some(member) => resolved_for(alloc, s, desk, asked, member, instance),
        None => Ok(None),
    }
}

/// The expression of an element of an array whose binding is resolved; the binding is kept for the next element.
fn flat_by<'i, 't>(
    alloc: Global,
    s: &mut Scopes<'t>,
    desk: &mut Desk<'i, 't>,
    asked: &Asked,
    mut binding: ArrayBinding<'t>,
) -> Result<Flat, Stop>
    requires rule { HasRule asked.now.layers.fit }
    requires left { asked.now.left ≡ most_references }
    requires binding { IsArrayBinding s.old desk.old.leaves binding }
    requires is { resolved_in_scope s.old asked.now.left asked.now.at.now asked.now.value.now ≡ Ok (resolved_at s.old binding.resolution.resolved) }
    requires desk { IsDesk s.old desk.old }
    ensures stays { Stays s.old s.new desk.old desk.new }
    ensures exact { Answers IsFlat result (flat_of_expression (table_in s.old) asked.now.left (replacing_in s.old desk.old.leaves asked.now.left) (wanted_of asked.now.layers.want asked.now.layers.place) (fit_of asked.now.layers.fit asked.now.layers.place) (scope_at s.old asked.now.at.now) asked.now.value.now asked.now.index.now) }
{
    let flat = flat_of_resolution(alloc, s, desk, asked, &mut binding.resolution)?;
    desk.binding = Some(binding);
    Ok(flat)
}

/// The expression of an element as `flat_at` gives it; where it is one of an array that is known, its binding is resolved once for all
/// elements of the array. `NoMemory` is the only other answer.
pub(crate) fn flat_of_element<'i, 't>(
    alloc: Global,
    s: &mut Scopes<'t>,
    desk: &mut Desk<'i, 't>,
    asked: &Asked,
    instance: &Instance<'t>,
) -> Result<Flat, Stop>
    requires frame { IsFrame s.old asked.now.at.now.frame.0 }
    requires instance { IsFrame s.old instance.now.frame.0 }
    requires left { asked.now.left ≡ most_references }
    requires rule { HasRule asked.now.layers.fit }
    requires chosen { IsChosenBy s.old instance.now.frame.0 asked.now }
    requires desk { IsDesk s.old desk.old }
    ensures stays { Stays s.old s.new desk.old desk.new }
    ensures exact { Answers IsFlat result (flat_of_expression (table_in s.old) asked.now.left (replacing_in s.old desk.old.leaves asked.now.left) (wanted_of asked.now.layers.want asked.now.layers.place) (fit_of asked.now.layers.fit asked.now.layers.place) (scope_at s.old asked.now.at.now) asked.now.value.now asked.now.index.now) }
{
    let found = array_binding(alloc, s, desk, asked, instance)?;
    match found {
        Some(binding) => flat_by(alloc, s, desk, asked, binding),
        None => flat_at(alloc, s, desk, asked),
    }
}
