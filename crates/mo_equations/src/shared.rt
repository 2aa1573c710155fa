//! Expressions that elements of arrays share, as those of a modifier of an array of components, each resolved once.
#![tactic(auto, using(crate::proofs::Staying::staying))]

ghost use Rattle.std.specs.Prelude.{◌≡◌, [], Ok, Err, IfOk, IfSome, IsTrue};
ghost use Rattle.mo_scope.specs.Places.{Every};
ghost use Rattle.mo_scope.specs.Sights.{scope_at};
ghost use Rattle.mo_scope.specs.Worlds.{World, IsFrame, table_in};
ghost use Rattle.mo_syntax.specs.Outcome.{IfBroken};
ghost use Rattle.mo_eval.specs.InScope.{resolved_in_scope};
ghost use Rattle.mo_eval.specs.Seen.{resolved_at};
ghost use Rattle.mo_eval.specs.Values.{most_references};
ghost use Rattle.mo_equations.specs.declared.leaves.Leaves.{Leaves as LeavesSeen};
ghost use Rattle.mo_equations.specs.Replacing.{flat_at as flat_of_expression};
ghost use Rattle.mo_equations.specs.steps.Desks.{IsDesk, Stays};
ghost use Rattle.mo_equations.specs.steps.Standing.{replacing_in};
ghost use Rattle.mo_equations.specs.steps.Flats.{Answers, IsFlat};
ghost use Rattle.mo_equations.specs.steps.Layers.{HasRule, fit_of, wanted_of};
ghost use Rattle.mo_equations.specs.steps.Sharing.{IsShared, IsSharedAt, IsSharedBy};

use crate::arrays::is_in_array;
use crate::desk::{Desk, SharedExpression};
use crate::flat::Flat;
use crate::resolutions::{flat_of_resolution, resolution_of};
use crate::standing::{Asked, flat_at};
use mo_same::{is_same, is_short};
use mo_scope::{Chosen, Instance, Scopes};
use mo_syntax::{Expr, NoMemory, Stop};
use std::alloc::Global;

/// How many are held at most: with one more, those before it are given up.
const MOST_SHARED: usize = 64;

/// Whether what is chosen for an element may be so for others, too, and is told again.
pub(crate) fn may_share(chosen: &Chosen) -> bool {
    !chosen.pending.is_empty() && is_same(chosen.value, chosen.value)
}

/// Whether the binding of an instance is resolved once for all that share it: that of an element of an array only where it is soon compared, since
/// it is known by its array.
pub(crate) fn shares_binding(instance: &Instance, chosen: &Chosen) -> bool {
    if is_in_array(instance) && !is_short(chosen.value) {
        return false;
    }
    may_share(chosen)
}

fn is_shared_by<'t>(shared: &SharedExpression<'t>, asked: &Asked) -> bool
    ensures { IsTrue result → IsSharedBy shared.now asked.now }
{
    if shared.frame != asked.at.frame || !asked.at.iters.is_empty() {
        return false;
    }
    is_same(shared.value, asked.value)
}

/// Where an expression is held, None where it is not.
fn shared_place<'i, 't>(desk: &Desk<'i, 't>, asked: &Asked) -> Option<usize>
    ensures { IfSome result (IsSharedAt desk.now.shared.items asked.now) }
{
    for place in 0..desk.shared.len() {
        if is_shared_by(&desk.shared[place], asked) {
            return Some(place);
        }
    }
    None
}

/// An expression that is held, taken out.
fn taken<'i, 't>(
    s: &Scopes<'t>,
    desk: &mut Desk<'i, 't>,
    asked: &Asked,
) -> Option<SharedExpression<'t>>
    requires { IsDesk s.now desk.old }
    ensures stays { Stays s.now s.now desk.old desk.new }
    ensures shared { IfSome result (IsShared s.now desk.new.leaves) }
    ensures by { IfSome result (λ shared. IsSharedBy shared asked.now) }
{
    let Some(place) = shared_place(desk, asked) else {
        return None;
    };
    Some(desk.shared.remove(place))
}

/// Leaves room for one more.
fn make_room<'t>(shared: &mut Vec<SharedExpression<'t>>)
    ensures { (world : World) → (leaves : LeavesSeen) → Every (IsShared world leaves) shared.old.items → Every (IsShared world leaves) shared.new.items }
{
    if shared.len() >= MOST_SHARED {
        shared.clear();
    }
}

/// Holds an expression for the next element.
fn hold<'i, 't>(
    s: &Scopes<'t>,
    desk: &mut Desk<'i, 't>,
    shared: SharedExpression<'t>,
) -> Result<(), NoMemory>
    requires desk { IsDesk s.now desk.old }
    requires shared { IsShared s.now desk.old.leaves shared }
    ensures { Stays s.now s.now desk.old desk.new }
{
    make_room(&mut desk.shared);
    desk.shared.push(shared)?;
    Ok(())
}

/// An expression outside of loops, resolved; None where it breaks a rule of kinds, dimensions or subscripts.
fn shared_for<'i, 't>(
    alloc: Global,
    s: &mut Scopes<'t>,
    desk: &mut Desk<'i, 't>,
    asked: &Asked,
    value: &'t Expr,
) -> Result<Option<SharedExpression<'t>>, Stop>
    requires frame { IsFrame s.old asked.now.at.now.frame.0 }
    requires left { asked.now.left ≡ most_references }
    requires outside { asked.now.at.now.iters ≡ [] }
    requires value { value.now ≡ asked.now.value.now }
    requires desk { IsDesk s.old desk.old }
    ensures stays { Stays s.old s.new desk.old desk.new }
    ensures shared { IfOk result (λ found. IfSome found (IsShared s.new desk.new.leaves)) }
    ensures is { IfOk result (λ found. IfSome found (λ shared. resolved_in_scope s.old asked.now.left asked.now.at.now asked.now.value.now ≡ Ok (resolved_at s.new shared.resolution.resolved))) }
    ensures refused { IfBroken result (λ broken. resolved_in_scope s.old asked.now.left asked.now.at.now asked.now.value.now ≡ Err broken) }
{
    if let Some(shared) = taken(s, desk, asked) {
        return Ok(Some(shared));
    }
    let found = resolution_of(alloc, s, desk, asked)?;
    match found {
        Some(resolution) => Ok(Some(SharedExpression {
            frame: asked.at.frame,
            value,
            resolution,
        })),
        None => Ok(None),
    }
}

/// The element of an expression that is resolved, which is held for the next element.
fn flat_by<'i, 't>(
    alloc: Global,
    s: &mut Scopes<'t>,
    desk: &mut Desk<'i, 't>,
    asked: &Asked,
    mut shared: SharedExpression<'t>,
) -> Result<Flat, Stop>
    requires rule { HasRule asked.now.layers.fit }
    requires left { asked.now.left ≡ most_references }
    requires shared { IsShared s.old desk.old.leaves shared }
    requires is { resolved_in_scope s.old asked.now.left asked.now.at.now asked.now.value.now ≡ Ok (resolved_at s.old shared.resolution.resolved) }
    requires desk { IsDesk s.old desk.old }
    ensures stays { Stays s.old s.new desk.old desk.new }
    ensures exact { Answers IsFlat result (flat_of_expression (table_in s.old) asked.now.left (replacing_in s.old desk.old.leaves asked.now.left) (wanted_of asked.now.layers.want asked.now.layers.place) (fit_of asked.now.layers.fit asked.now.layers.place) (scope_at s.old asked.now.at.now) asked.now.value.now asked.now.index.now) }
{
    let flat = flat_of_resolution(alloc, s, desk, asked, &mut shared.resolution)?;
    hold(s, desk, shared)?;
    Ok(flat)
}

/// The expression of an element as `flat_at` gives it: what is asked of is resolved once for all elements that share it. `NoMemory` is
/// the only other answer.
pub(crate) fn flat_of_shared<'i, 't>(
    alloc: Global,
    s: &mut Scopes<'t>,
    desk: &mut Desk<'i, 't>,
    asked: &Asked,
    value: &'t Expr,
) -> Result<Flat, Stop>
    requires frame { IsFrame s.old asked.now.at.now.frame.0 }
    requires left { asked.now.left ≡ most_references }
    requires value { value.now ≡ asked.now.value.now }
    requires rule { HasRule asked.now.layers.fit }
    requires desk { IsDesk s.old desk.old }
    ensures stays { Stays s.old s.new desk.old desk.new }
    ensures exact { Answers IsFlat result (flat_of_expression (table_in s.old) asked.now.left (replacing_in s.old desk.old.leaves asked.now.left) (wanted_of asked.now.layers.want asked.now.layers.place) (fit_of asked.now.layers.fit asked.now.layers.place) (scope_at s.old asked.now.at.now) asked.now.value.now asked.now.index.now) }
{
    if !asked.at.iters.is_empty() {
        return flat_at(alloc, s, desk, asked);
    }
    let found = shared_for(alloc, s, desk, asked, value)?;
    match found {
        Some(shared) => flat_by(alloc, s, desk, asked, shared),
        None => flat_at(alloc, s, desk, asked),
    }
}
