//! What names of several identifiers find.
#![tactic(auto, using(mo_names::proofs::Later::later))]

ghost use Rattle.std.specs.Prelude.{drop, IfOk};
ghost use Rattle.mo_scope.specs.Names.{behind_component as component_behind, behind_found as one_behind, found_behind as all_behind, found_reference as reference_found};
ghost use Rattle.mo_scope.specs.Outcome.{Gives};
ghost use Rattle.mo_scope.specs.Worlds.{Grows, IsFrame, frame_at, table_in};
ghost use Rattle.mo_scope.specs.Sights.{scope_at, member_at};
ghost use Rattle.mo_names.specs.Children.{class_next, component_next, found_in_component, reached_in_component};
ghost use Rattle.mo_names.specs.Sights.{IsFound, IsMember, found_at};
ghost use Rattle.mo_names.specs.Calls.{next_found_at, found_path_at};

use crate::entering::enter_component;
use crate::free::{behind_class_at, class_named_at, find_element};
use crate::lookup::{find_first, taken};
use crate::outer::stands_for;
use mo_names::{Found, Reached};
use mo_scope::{Member, ScopeAt, Scopes, is_class};
use mo_syntax::{FrameId, Part, Place, Reference, Stop, Text, rules, stop};
use std::alloc::Global;

/// A part of a component.
fn part_of_component<'t>(
    alloc: Global,
    s: &mut Scopes<'t>,
    frame: FrameId,
    part: &Member<'t>,
    place: Place,
) -> Result<Found<'t>, Stop>
    requires frame { IsFrame s.old frame.0 }
    requires part { IsMember s.old part.now }
    ensures grows { Grows s.old s.new }
    ensures value { Gives (found_at s.new) result (found_in_component (table_in s.old) place (frame_at s.old frame.0) (member_at s.old part.now)) }
    ensures stand { IfOk result (IsFound s.new) }
{
    if is_class(&part.declares) {
        return Err(stop(rules::WRONG_KIND_OF_NAME, place));
    }
    if part.hidden {
        return Err(stop(rules::PROTECTED_ELEMENT, place));
    }
    stands_for(alloc, s, &Found::Component(frame, *part), place)
}

/// What a name finds in the frame of a component.
fn find_in_component<'t>(
    alloc: Global,
    s: &mut Scopes<'t>,
    frame: FrameId,
    name: &Text,
    place: Place,
) -> Result<Found<'t>, Stop>
    requires { IsFrame s.old frame.0 }
    ensures grows { Grows s.old s.new }
    ensures value { Gives (found_at s.new) result (reached_in_component (table_in s.old) place (frame_at s.old frame.0) name.now) }
    ensures stand { IfOk result (IsFound s.new) }
{
    match find_element(alloc, s, frame, name, place) {
        Ok(Reached::Element(part)) => part_of_component(alloc, s, frame, &part, place),
        Ok(Reached::Other(_)) => Err(stop(rules::NAME_NOT_FOUND, place)),
        Ok(Reached::Absent) => Err(stop(rules::NAME_NOT_FOUND, place)),
        Err(stop) => Err(stop),
    }
}

/// What an identifier finds in a component, which is entered.
fn find_entered<'t>(
    alloc: Global,
    s: &mut Scopes<'t>,
    member: &Member<'t>,
    name: &Text,
    place: Place,
) -> Result<Found<'t>, Stop>
    requires { IsMember s.old member.now }
    ensures grows { Grows s.old s.new }
    ensures value { Gives (found_at s.new) result (component_next (table_in s.old) place (member_at s.old member.now) name.now) }
    ensures stand { IfOk result (IsFound s.new) }
{
    let frame = enter_component(alloc, s, member, &[])?;
    find_in_component(alloc, s, frame, name, place)
}

/// What an identifier finds behind a component.
#[tactic(auto, using(mo_names::proofs::Later::later, crate::proofs::Paths::behind_gives))]
fn find_behind_component<'t>(
    alloc: Global,
    s: &mut Scopes<'t>,
    member: &Member<'t>,
    name: &Text,
    place: Place,
) -> Result<Found<'t>, Stop>
    requires { IsMember s.old member.now }
    ensures grows { Grows s.old s.new }
    ensures value { Gives (found_at s.new) result (component_behind (table_in s.old) place (member_at s.old member.now) name.now) }
    ensures stand { IfOk result (IsFound s.new) }
{
    find_entered(alloc, s, member, name, place)
}

/// What an identifier of an expression finds behind a class.
fn find_behind_class<'t>(
    alloc: Global,
    s: &mut Scopes<'t>,
    frame: FrameId,
    name: &Text,
    place: Place,
) -> Result<Found<'t>, Stop>
    requires { IsFrame s.old frame.0 }
    ensures grows { Grows s.old s.new }
    ensures value { Gives (found_at s.new) result (class_next (table_in s.old) (frame_at s.old frame.0) name.now place) }
    ensures stand { IfOk result (IsFound s.new) }
{
    match behind_class_at(alloc, s, frame, name, place) {
        Ok(found) => taken(alloc, s, false, &found, place),
        Err(stop) => Err(stop),
    }
}

/// What an identifier of an expression finds behind a dot. Behind a class stands an element of it, of which a component is a
/// constant; behind a component one of its components. Behind all else nothing is found.
pub fn find_behind<'t>(
    alloc: Global,
    s: &mut Scopes<'t>,
    found: &Found<'t>,
    name: &Text,
    place: Place,
) -> Result<Found<'t>, Stop>
    requires { IsFound s.old found.now }
    ensures grows { Grows s.old s.new }
    ensures value { Gives (found_at s.new) result (next_found_at s.old found.now name.now place) }
    ensures stand { IfOk result (IsFound s.new) }
{
    match found {
        Found::Component(_, member) => find_behind_component(alloc, s, member, name, place),
        Found::Class(frame, _) => find_behind_class(alloc, s, *frame, name, place),
        Found::Literal(_, _) | Found::Iteration(_) | Found::Function(_) | Found::Time => {
            Err(stop(rules::NAME_NOT_FOUND, place))
        }
    }
}

/// What one more identifier of a name finds.
#[tactic(auto, using(mo_names::proofs::Later::later, crate::proofs::Paths::next_gives))]
fn find_next<'t>(
    alloc: Global,
    s: &mut Scopes<'t>,
    found: &Found<'t>,
    part: &Part,
) -> Result<Found<'t>, Stop>
    requires { IsFound s.old found.now }
    ensures grows { Grows s.old s.new }
    ensures value { Gives (found_at s.new) result (one_behind (table_in s.old) (found_at s.old found.now) part.now) }
    ensures stand { IfOk result (IsFound s.new) }
{
    find_behind(alloc, s, found, &part.name, part.place)
}

/// What the identifiers behind the first one find.
fn find_all_behind<'t>(
    alloc: Global,
    s: &mut Scopes<'t>,
    first: Found<'t>,
    parts: &[Part],
) -> Result<Found<'t>, Stop>
    requires { IsFound s.old first }
    ensures grows { Grows s.old s.new }
    ensures value { Gives (found_at s.new) result (all_behind (table_in s.old) (found_at s.old first.entry) (drop 1 parts.now)) }
    ensures stand { IfOk result (IsFound s.new) }
{
    let mut found = first;
    for at in 1..parts.len() {
        match find_next(alloc, s, &found, &parts[at]) {
            Ok(next) => found = next,
            Err(stop) => return Err(stop),
        }
    }
    Ok(found)
}

/// What a name in an expression finds in a scope.
fn find_reference<'t>(
    alloc: Global,
    s: &mut Scopes<'t>,
    at: &ScopeAt,
    top: bool,
    parts: &[Part],
) -> Result<Found<'t>, Stop>
    requires { IsFrame s.old at.now.frame.0 }
    ensures grows { Grows s.old s.new }
    ensures value { Gives (found_at s.new) result (reference_found (table_in s.old) (scope_at s.old at.now) (record { top = top; parts = parts.now })) }
    ensures stand { IfOk result (IsFound s.new) }
{
    match parts {
        [part, ..] => {
            let first = find_first(alloc, s, at, top, &part.name, part.place)?;
            find_all_behind(alloc, s, first, parts)
        }
        [] => Err(stop(rules::NAME_NOT_FOUND, Place { file: 0, byte: 0 })),
    }
}

/// What a name finds in a scope: the name of a type, a base or a constraining class where a class is wanted, else a name in an
/// expression, whose subscripts do not count. Breaks 12 to 19, 24, 34 and 45, at the identifier that breaks it.
pub fn find_path<'t>(
    alloc: Global,
    s: &mut Scopes<'t>,
    at: &ScopeAt,
    path: &Reference,
    class_wanted: bool,
) -> Result<Found<'t>, Stop>
    requires { IsFrame s.old at.now.frame.0 }
    ensures grows { Grows s.old s.new }
    ensures value { Gives (found_at s.new) result (found_path_at s.old at.now path.now class_wanted) }
    ensures stand { IfOk result (IsFound s.new) }
{
    if class_wanted {
        let class = class_named_at(alloc, s, at, path)?;
        return Ok(Found::Class(class.frame, class.replaceable));
    }
    find_reference(alloc, s, at, path.top, path.parts.as_slice())
}
