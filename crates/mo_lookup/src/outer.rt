//! Components that are declared `outer` (Modelica Language Specification 3.5, section 5.4).
#![tactic(auto, using(mo_names::proofs::Later::later))]

ghost use Rattle.std.specs.Prelude.{◌≡◌, find, map, option_map, IfOk, IfSome, Ok};
ghost use Rattle.mo_scope.specs.Frames.{is_same_element as is_one_element};
ghost use Rattle.mo_scope.specs.Lookup.{Component as found_component};
ghost use Rattle.mo_scope.specs.Names.{elements_of, is_inner_for, stands_for as stood_for};
ghost use Rattle.mo_scope.specs.Outcome.{Gives};
ghost use Rattle.mo_scope.specs.Places.{Every};
ghost use Rattle.mo_scope.specs.Worlds.{AreHomes, Grows, IsFrame, frame_at, frames_of, member_in, table_in};
ghost use Rattle.mo_scope.specs.Sights.{member_at};
ghost use Rattle.mo_names.specs.Children.{IsComponent, component_seen, first_inner, inner_in_frame};
ghost use Rattle.mo_names.specs.Sights.{IsFound, IsInherited, IsMember, inherited_seen, found_at};
ghost use Rattle.mo_names.specs.Calls.{inner_component_at};

use crate::free::elements_kept_at;
use mo_names::{Found, Inherited};
use mo_scope::{Member, MemberTable, Scopes, is_class, is_same_path};
use mo_syntax::{FrameId, Place, Stop, rules, stop};
use std::alloc::Global;

/// Whether two elements are one declaration in one instance.
fn is_same_element(s: &Scopes, a: &Member, b: &Member) -> bool
    requires a { IsFrame s.now a.now.home.0 }
    requires b { IsFrame s.now b.now.home.0 }
    ensures { result ≡ is_one_element (member_at s.now a.now) (member_at s.now b.now) }
{
    if s.class_of(a.home).0 != s.class_of(b.home).0 {
        return false;
    }
    if a.item != b.item {
        return false;
    }
    is_same_path(s.path(a.home), s.path(b.home))
}

/// Whether an element is the inner one for an outer component: another component of its name that is declared `inner`.
fn is_inner(s: &Scopes, outer: &Member, member: &Member) -> bool
    requires outer { IsFrame s.now outer.now.home.0 }
    requires member { IsFrame s.now member.now.home.0 }
    ensures { result ≡ is_inner_for (member_at s.now outer.now) (member_at s.now member.now) }
{
    if !member.name.equals(outer.name) {
        return false;
    }
    if !member.declares.flags.inner {
        return false;
    }
    if is_class(&member.declares) {
        return false;
    }
    !is_same_element(s, member, outer)
}

/// The first of some elements that is the inner one for an outer component.
fn inner_among<'t>(
    s: &Scopes<'t>,
    outer: &Member<'t>,
    members: &[Inherited<'t>],
) -> Option<Member<'t>>
    requires outer { IsMember s.now outer.now }
    requires members { Every (IsInherited s.now) members.now }
    ensures is { option_map (member_at s.now) result ≡ first_inner (member_at s.now outer.now) (map (inherited_seen (frames_of s.now)) members.now) }
    ensures exists { IfSome result (IsMember s.now) }
{
    for inherited in members {
        if is_inner(s, outer, &inherited.member) {
            return Some(inherited.member);
        }
    }
    None
}

/// The first of some elements, without the base frames on the way to them, that is the inner one for an outer component.
fn inner_of_all<'t>(
    s: &Scopes<'t>,
    outer: &Member<'t>,
    members: &[Member<'t>],
) -> Option<Member<'t>>
    requires outer { IsMember s.now outer.now }
    requires members { Every (IsMember s.now) members.now }
    ensures is { option_map (member_at s.now) result ≡ find (is_inner_for (member_at s.now outer.now)) (map (member_at s.now) members.now) }
    ensures exists { IfSome result (IsMember s.now) }
{
    for member in members {
        if is_inner(s, outer, member) {
            return Some(*member);
        }
    }
    None
}

/// The inner component in a table of the elements of a frame: most often it is the first element of its name, found by its key.
fn inner_in_table<'t>(
    s: &Scopes<'t>,
    outer: &Member<'t>,
    frame: FrameId,
    table: &MemberTable<'t>,
) -> Option<Member<'t>>
    requires outer { IsMember s.now outer.now }
    requires elements { elements_of (table_in s.now) (frame_at s.now frame.0) ≡ Ok (map (member_in (frames_of s.now)) table.now) }
    requires homes { AreHomes s.now table.now }
    ensures is { option_map (member_at s.now) result ≡ find (is_inner_for (member_at s.now outer.now)) (map (member_in (frames_of s.now)) table.now) }
    ensures exists { IfSome result (IsMember s.now) }
{
    match table.find(outer.name) {
        Some(first) => {
            if is_inner(s, outer, first) {
                Some(*first)
            } else {
                inner_of_all(s, outer, table.members())
            }
        }
        None => None,
    }
}

/// The inner component among the elements of a frame by the table that is kept, None where none is kept.
fn inner_kept<'t>(s: &Scopes<'t>, outer: &Member<'t>, owner: FrameId) -> Option<Option<Member<'t>>>
    requires outer { IsMember s.now outer.now }
    requires owner { IsFrame s.now owner.0 }
    ensures is { IfSome result (λ inner. (place : Place) → inner_in_frame (table_in s.now) place (member_at s.now outer.now) (frame_at s.now owner.0) ≡ Ok (option_map (member_at s.now) inner)) }
    ensures exists { IfSome result (λ inner. IfSome inner (IsMember s.now)) }
{
    match s.table(owner) {
        Some(table) => Some(inner_in_table(s, outer, owner, table)),
        None => None,
    }
}

/// The inner component among the elements of a frame.
fn inner_in<'t>(
    alloc: Global,
    s: &mut Scopes<'t>,
    outer: &Member<'t>,
    owner: FrameId,
    place: Place,
) -> Result<Option<Member<'t>>, Stop>
    requires outer { IsMember s.old outer.now }
    requires owner { IsFrame s.old owner.0 }
    ensures grows { Grows s.old s.new }
    ensures value { Gives (option_map (member_at s.new)) result (inner_in_frame (table_in s.old) place (member_at s.old outer.now) (frame_at s.old owner.0)) }
    ensures stand { IfOk result (λ member. IfSome member (IsMember s.new)) }
{
    if let Some(inner) = inner_kept(s, outer, owner) {
        return Ok(inner);
    }
    let walk = elements_kept_at(alloc, s, owner, place)?;
    Ok(inner_among(s, outer, walk.members.as_slice()))
}

/// The component that an outer one stands for, with the frame among whose elements it is: the first one of its name that is
/// declared `inner` among the elements of the owners of the frame that declares it. None breaks rule 45 at the outer one; an
/// owner whose bases are not found breaks 18 at this place.
pub fn inner_of<'t>(
    alloc: Global,
    s: &mut Scopes<'t>,
    outer: &Member<'t>,
    place: Place,
) -> Result<(FrameId, Member<'t>), Stop>
    requires { IsMember s.old outer.now }
    ensures grows { Grows s.old s.new }
    ensures value { Gives (component_seen (frames_of s.new)) result (inner_component_at s.old place outer.now) }
    ensures stand { IfOk result (IsComponent s.new) }
{
    let mut frame = outer.home;
    while let Some(owner) = s.owner(frame) {
        match inner_in(alloc, s, outer, owner, place) {
            Ok(Some(member)) => return Ok((owner, member)),
            Ok(None) => frame = owner,
            Err(stop) => return Err(stop),
        }
    }
    Err(stop(rules::NO_INNER, outer.declares.place))
}

/// What a name at that place finds, where a component that is declared `outer` stands for the inner one.
pub fn stands_for<'t>(
    alloc: Global,
    s: &mut Scopes<'t>,
    found: &Found<'t>,
    place: Place,
) -> Result<Found<'t>, Stop>
    requires { IsFound s.old found.now }
    ensures grows { Grows s.old s.new }
    ensures value { Gives (found_at s.new) result (stood_for (table_in s.old) place (found_at s.old found.now)) }
    ensures stand { IfOk result (IsFound s.new) }
{
    match found {
        Found::Component(frame, member) => component_for(alloc, s, *frame, member, place),
        Found::Class(_, _)
        | Found::Literal(_, _)
        | Found::Iteration(_)
        | Found::Function(_)
        | Found::Time => Ok(*found),
    }
}

/// The component that one among the elements of a frame stands for.
fn component_for<'t>(
    alloc: Global,
    s: &mut Scopes<'t>,
    frame: FrameId,
    member: &Member<'t>,
    place: Place,
) -> Result<Found<'t>, Stop>
    requires frame { IsFrame s.old frame.0 }
    requires member { IsMember s.old member.now }
    ensures grows { Grows s.old s.new }
    ensures value { Gives (found_at s.new) result (stood_for (table_in s.old) place (found_component (frame_at s.old frame.0) (member_at s.old member.now))) }
    ensures stand { IfOk result (IsFound s.new) }
{
    if !member.declares.flags.outer {
        return Ok(Found::Component(frame, *member));
    }
    match inner_of(alloc, s, member, place) {
        Ok((owner, inner)) => Ok(Found::Component(owner, inner)),
        Err(stop) => Err(stop),
    }
}
