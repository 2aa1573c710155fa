//! What is read of components: their conditions, their dimensions and the values of their bindings (Modelica Language Specification
//! 3.5, sections 4.4.2, 4.4.4, 4.8, 7.2.5 and 10.1).
ghost use Rattle.std.specs.Prelude.{◌≡◌, [], IfOk, Ok, Some};
ghost use Rattle.mo_scope.specs.Outcome.{Gives as GivesSeen};
ghost use Rattle.mo_scope.specs.Sights.{picked_in, member_at};
ghost use Rattle.mo_scope.specs.Worlds.{Grows, IsFrame, frames_of, table_in, scope_in};
ghost use Rattle.mo_names.specs.Sights.{IsMember};
ghost use Rattle.mo_typing.specs.Outcome.{Gives};
ghost use Rattle.mo_eval.specs.Keeping.{AreLayers, IsBinding, IsKept, bound_seen};
ghost use Rattle.mo_eval.specs.Components.{binding_of, condition_in, value_in};
ghost use Rattle.mo_eval.specs.Values.{reading, resolved_for_value, there_of, value_of_element};
ghost use Rattle.mo_eval.specs.Seen.{AreThere, element_at};
ghost use Rattle.mo_eval.specs.steps.Sites.{elements_in};
ghost use Rattle.mo_eval.specs.steps.Asking.{bound_in, unbound};

use crate::alone::{alone, truth_of};
use crate::kept::{keep_binding, keep_there, take_binding, there_kept};
use crate::layers::{fits, part_of_bound, with_layers};
use crate::reader::{Bound, Reader};
use crate::resolve::Site;
use crate::variables::{is_replaced, known_in};
use crate::virtuals::Element;
use mo_lookup::child_of_member;
use mo_scope::{Member, Picked, ScopeAt, Scopes, Sort, pick_here};
use mo_syntax::{Broken, Expr, FrameId, Kind, List, Place, Stop, broken, rules};
use mo_values::layers::{answer, must_be_truth};
use mo_values::{Context, Scalar, if_it_has};

/// Whether a condition holds that stands in a class with this frame, where so many references may still be read.
#[cycle(resolving)]
fn condition_in<'t>(
    reader: &mut Reader<'t>,
    s: &mut Scopes<'t>,
    left: u64,
    home: FrameId,
    e: &Expr,
) -> Result<bool, Stop>
    requires frame { IsFrame s.old home.0 }
    requires kept { IsKept s.old reader.old }
    ensures grows { Grows s.old s.new }
    ensures kept { IsKept s.new reader.new }
    ensures exact { Gives result (condition_in (table_in s.old) (reading (table_in s.old) left) (scope_in (frames_of s.old) home.0 []) e.now) }
{
    let at = ScopeAt {
        frame: home,
        iters: List::new(reader.alloc),
    };
    let site = Site {
        at: &at,
        left,
        room: u64::MAX,
        context: Context::for_value(),
    };
    let resolved = alone(reader, s, &site, e)?;
    let known = truth_of(
        reader,
        s,
        left,
        rules::CONDITION_NOT_BOOLEAN,
        e.place,
        &resolved,
    )?;
    answer(must_be_truth(e.place, known))
}

/// Whether a component is there, where so many references may still be read.
#[cycle(resolving)]
pub(crate) fn is_there<'t>(
    reader: &mut Reader<'t>,
    s: &mut Scopes<'t>,
    left: u64,
    member: &Member<'t>,
) -> Result<bool, Stop>
    requires member { IsMember s.old member.now }
    requires kept { IsKept s.old reader.old }
    ensures grows { Grows s.old s.new }
    ensures kept { IsKept s.new reader.new }
    ensures exact { Gives result (there_of (table_in s.old) left (member_at s.old member.now)) }
{
    match member.declares.sort {
        Sort::Class { .. } => Ok(true),
        Sort::Component(component) => match &component.condition {
            None => Ok(true),
            Some(e) => {
                if let Some(there) = there_kept(reader, left, member) {
                    return Ok(there);
                }
                let there = condition_in(reader, s, left, member.home, e)?;
                keep_there(reader, left, member, there)?;
                Ok(there)
            }
        },
    }
}

/// What a binding has at its pending indices: it is of the wanted kind, and fits.
#[cycle(resolving)]
fn bound_value<'t>(
    reader: &mut Reader<'t>,
    s: &mut Scopes<'t>,
    left: u64,
    want: Kind,
    place: Place,
    pending: &[u32],
    bound: &Bound<'t>,
) -> Result<Option<Scalar>, Stop>
    requires there { AreThere s.old bound.now.resolved.virtuals }
    requires layers { AreLayers bound.now }
    requires kept { IsKept s.old reader.old }
    ensures grows { Grows s.old s.new }
    ensures kept { IsKept s.new reader.new }
    ensures exact { Gives result (bound_in (elements_in s.old left) want place pending.now (bound_seen (frames_of s.old) bound.now)) }
{
    fits(reader.alloc, want, place, pending, bound)?;
    let (e, index) = part_of_bound(&*bound, &*pending);
    let virtuals = bound.resolved.virtuals.as_slice();
    known_in(reader, s, left, e, index, virtuals)
}

/// The binding of an element, resolved.
#[cycle(resolving)]
fn resolved_binding<'t>(
    reader: &mut Reader<'t>,
    s: &mut Scopes<'t>,
    left: u64,
    element: &Element<'t>,
    picked: &Picked,
) -> Result<Bound<'t>, Stop>
    requires frame { IsFrame s.old picked.now.scope.now.frame.0 }
    requires member { IsMember s.old element.now.member }
    requires picked { binding_of (table_in s.old) (member_at s.old element.now.member) element.now.index ≡ Ok (Some (picked_in (frames_of s.old) picked.now)) }
    requires kept { IsKept s.old reader.old }
    ensures grows { Grows s.old s.new }
    ensures kept { IsKept s.new reader.new }
    ensures binding { IfOk result (IsBinding s.new left element.now.member) }
    ensures exact { GivesSeen (bound_seen (frames_of s.new)) result (resolved_for_value (table_in s.old) left (picked_in (frames_of s.old) picked.now).scope picked.now.value.now) }
{
    if let Some(bound) = take_binding(reader, left, &element.member) {
        return Ok(bound);
    }
    let site = Site {
        at: picked.scope,
        left,
        room: u64::MAX,
        context: Context::for_value(),
    };
    let resolved = alone(reader, s, &site, picked.value)?;
    Ok(Bound {
        resolved,
        layers: None,
    })
}

/// The value of the binding of an element.
#[cycle(resolving)]
fn value_in<'t>(
    reader: &mut Reader<'t>,
    s: &mut Scopes<'t>,
    left: u64,
    element: &Element<'t>,
    picked: &Picked,
) -> Result<Option<Scalar>, Stop>
    requires frame { IsFrame s.old picked.now.scope.now.frame.0 }
    requires member { IsMember s.old element.now.member }
    requires picked { binding_of (table_in s.old) (member_at s.old element.now.member) element.now.index ≡ Ok (Some (picked_in (frames_of s.old) picked.now)) }
    requires kept { IsKept s.old reader.old }
    ensures grows { Grows s.old s.new }
    ensures kept { IsKept s.new reader.new }
    ensures exact { Gives result (value_in (table_in s.old) (reading (table_in s.old) left) element.now.kind (picked_in (frames_of s.old) picked.now)) }
{
    let found = resolved_binding(reader, s, left, element, picked)?;
    let bound = with_layers(reader.alloc, found)?;
    let kind = element.kind;
    let place = picked.value.place;
    let known = bound_value(reader, s, left, kind, place, picked.pending, &bound)?;
    keep_binding(reader, left, element, bound)?;
    Ok(if_it_has(kind, known))
}

/// What an element without a binding has.
fn unbound<'t>(s: &Scopes<'t>, element: &Element<'t>) -> Result<Option<Scalar>, Broken>
    requires member { IsMember s.now element.now.member }
    ensures { result ≡ unbound (element_at s.now element.now) }
{
    if is_replaced(s, element) {
        Err(broken(rules::NO_VALUE, element.place))
    } else {
        Ok(None)
    }
}

/// What the binding of an element gives, where so many references may still be read. Without a binding it is undecided; a constant
/// that is replaced breaks rule 28 at the reference.
#[cycle(resolving)]
pub(crate) fn element_value<'t>(
    reader: &mut Reader<'t>,
    s: &mut Scopes<'t>,
    left: u64,
    element: &Element<'t>,
) -> Result<Option<Scalar>, Stop>
    requires member { IsMember s.old element.now.member }
    requires kept { IsKept s.old reader.old }
    ensures grows { Grows s.old s.new }
    ensures kept { IsKept s.new reader.new }
    ensures exact { Gives result (value_of_element (table_in s.old) left (element_at s.old element.now)) }
{
    let child = child_of_member(reader.alloc, s, &element.member, element.index.as_slice())?;
    match pick_here(child.sources.as_slice()) {
        None => answer(unbound(s, element)),
        Some(picked) => value_in(reader, s, left, element, &picked),
    }
}
