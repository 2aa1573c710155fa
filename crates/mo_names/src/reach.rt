//! What is found among elements that are known.
ghost use Rattle.std.specs.Prelude.{◌≡◌, List as Seq, map, option_copied, option_map, IfOk, IfSome, Some, None, Ok};
ghost use Rattle.std.specs.List.{list_all};
ghost use Rattle.mo_scope.specs.Frames.{Frame};
ghost use Rattle.mo_scope.specs.Lookup.{Found as FoundSeen, Reached as ReachedSeen, and_also as joined_found, class_wanted as wanted_class, classed as wanted_classed, contains, counts_in_package, first_at_top as first_found, is_closed as is_closed_frame, iteration as iteration_value, named, or_absent, predefined as found_predefined, reached_in as reached_among, reached_own as own_reached};
ghost use Rattle.mo_scope.specs.Outcome.{Gives};
ghost use Rattle.mo_scope.specs.Places.{Every};
ghost use Rattle.mo_scope.specs.Worlds.{Grows, IsFrame, frame_at, frames_of, table_in};
ghost use Rattle.mo_scope.specs.Sights.{member_at};
ghost use Rattle.mo_names.specs.Sights.{IsFound, IsInherited, IsMember, IsReached, IsWalk, classed_seen, inherited_seen, reached_seen, found_at, walk_at, member_of};
ghost use Rattle.mo_names.specs.steps.Lookup.{element_behind, element_met as element_found, open_element as open_found, reached_behind as found_behind, reached_by_star as found_by_star, shown as shown_reached};
ghost use Rattle.mo_syntax.specs.Outcome.{Outcome, and_then};

use crate::class_element::met;
use crate::found::{Classed, Found, Reached};
use crate::literals::literal;
use crate::own::own_named;
use crate::same::is_same;
use crate::top::{at_top, predefined};
use crate::walk::{Inherited, Walk};
use mo_scope::{Member, Scopes, is_class, is_open};
use mo_syntax::{ClassId, FrameId, NoMemory, Place, Stop, Text, rules, stop};
use std::alloc::Global;

/// Whether the bases of a class are being found.
pub fn is_busy(busy: &[u32], class: ClassId) -> bool
    ensures { result ≡ contains busy.now class.0 }
{
    busy.iter().any(|other| *other == class.0)
}

/// The first element of that name.
fn member_named<'t>(s: &Scopes<'t>, members: &[Inherited<'t>], name: &Text) -> Option<Member<'t>>
    requires { Every (IsInherited s.now) members.now }
    ensures is { option_map (member_of (frames_of s.now)) result ≡ named name.now (map (λ inherited. inherited.member) (map (inherited_seen (frames_of s.now)) members.now)) }
    ensures exists { IfSome result (IsMember s.now) }
{
    for inherited in members {
        if inherited.member.name.equals(name) {
            return Some(inherited.member);
        }
    }
    None
}

/// What a name reaches among the elements of a frame.
pub(crate) fn reached_in<'t>(
    s: &Scopes<'t>,
    walk: &Walk<'t>,
    name: &Text,
) -> Result<Reached<'t>, NoMemory>
    requires { IsWalk s.now walk.now }
    ensures is { IfOk result (λ reached. reached_seen (frames_of s.now) reached ≡ reached_among (table_in s.now) (walk_at s.now walk.now) name.now) }
    ensures stand { IfOk result (IsReached s.now) }
{
    if let Some(member) = member_named(s, walk.members.as_slice(), name) {
        return Ok(Reached::Element(member));
    }
    match literal(s, walk.leaf, name)? {
        Some(found) => Ok(Reached::Other(found)),
        None => Ok(Reached::Absent),
    }
}

/// What a name reaches among the own elements of a frame.
pub(crate) fn reached_own<'t>(s: &Scopes<'t>, frame: FrameId, name: &Text) -> Reached<'t>
    requires { IsFrame s.now frame.0 }
    ensures is { Ok (reached_seen (frames_of s.now) result) ≡ own_reached (table_in s.now) (frame_at s.now frame.0) name.now }
    ensures stand { IsReached s.now result }
{
    match own_named(s, frame, name) {
        Some(member) => Reached::Element(member),
        None => Reached::Absent,
    }
}

/// Whether all these elements may stand in a package.
pub(crate) fn are_all_open(members: &[Inherited]) -> bool
    ensures { (frames : Seq Frame) → result ≡ list_all counts_in_package (map (λ inherited. inherited.member) (map (inherited_seen frames) members.now)) }
{
    for inherited in members {
        if !is_open(&inherited.member.declares) {
            return false;
        }
    }
    true
}

/// A public element, entered.
fn open_element<'t>(
    alloc: Global,
    s: &mut Scopes<'t>,
    place: Place,
    frame: FrameId,
    member: &Member<'t>,
) -> Result<Found<'t>, Stop>
    requires frame { IsFrame s.old frame.0 }
    requires member { IsMember s.old member.now }
    ensures grows { Grows s.old s.new }
    ensures value { Gives (found_at s.new) result (open_found (table_in s.old) place (frame_at s.old frame.0) (member_at s.old member.now)) }
    ensures stand { IfOk result (IsFound s.new) }
{
    if member.hidden {
        return Err(stop(rules::PROTECTED_ELEMENT, place));
    }
    met(alloc, s, frame, member)
}

/// An element behind a class, where it counts.
pub(crate) fn behind_element<'t>(
    alloc: Global,
    s: &mut Scopes<'t>,
    place: Place,
    component: Option<Place>,
    frame: FrameId,
    member: &Member<'t>,
) -> Result<Found<'t>, Stop>
    requires frame { IsFrame s.old frame.0 }
    requires member { IsMember s.old member.now }
    ensures grows { Grows s.old s.new }
    ensures value { Gives (found_at s.new) result (element_behind (table_in s.old) place component (frame_at s.old frame.0) (member_at s.old member.now)) }
    ensures stand { IfOk result (IsFound s.new) }
{
    match component {
        Some(wrong) => {
            if !is_class(&member.declares) {
                return Err(stop(rules::WRONG_KIND_OF_NAME, wrong));
            }
            open_element(alloc, s, place, frame, member)
        }
        None => open_element(alloc, s, place, frame, member),
    }
}

/// What stands behind a class, of what was reached there and counts.
pub(crate) fn behind_reached<'t>(
    alloc: Global,
    s: &mut Scopes<'t>,
    place: Place,
    component: Option<Place>,
    frame: FrameId,
    reached: &Reached<'t>,
) -> Result<Found<'t>, Stop>
    requires frame { IsFrame s.old frame.0 }
    requires reached { IsReached s.old reached.now }
    ensures grows { Grows s.old s.new }
    ensures value { Gives (found_at s.new) result (found_behind (table_in s.old) place component (frame_at s.old frame.0) (reached_seen (frames_of s.old) reached.now)) }
    ensures stand { IfOk result (IsFound s.new) }
{
    match reached {
        Reached::Element(member) => behind_element(alloc, s, place, component, frame, member),
        Reached::Other(found) => Ok(*found),
        Reached::Absent => Err(stop(rules::NAME_NOT_FOUND, place)),
    }
}

/// What was found, as one that may be absent.
fn some_given<'t>(
    _s: &Scopes<'t>,
    found: &Result<Found<'t>, Stop>,
) -> Result<Option<Found<'t>>, Stop>
    requires { IfOk found.now (IsFound _s.now) }
    ensures value { (told : Outcome FoundSeen) → Gives (found_at _s.now) found.now told → Gives (option_map (found_at _s.now)) result (and_then told (λ found. Ok (Some found))) }
    ensures stand { IfOk result (λ found. IfSome found (IsFound _s.now)) }
{
    match found {
        Ok(found) => Ok(Some(*found)),
        Err(stop) => Err(*stop),
    }
}

/// What is reached through `.*`: a protected element is not there.
pub(crate) fn shown<'t>(
    _s: &Scopes<'t>,
    any: &Result<Reached<'t>, Stop>,
) -> Result<Reached<'t>, Stop>
    requires { IfOk any.now (IsReached _s.now) }
    ensures value { (told : Outcome ReachedSeen) → Gives (reached_seen (frames_of _s.now)) any.now told → Gives (reached_seen (frames_of _s.now)) result (and_then told shown_reached) }
    ensures stand { IfOk result (IsReached _s.now) }
{
    match any {
        Ok(Reached::Element(member)) => {
            if member.hidden {
                return Ok(Reached::Absent);
            }
            Ok(Reached::Element(*member))
        }
        Ok(Reached::Other(found)) => Ok(Reached::Other(*found)),
        Ok(Reached::Absent) => Ok(Reached::Absent),
        Err(stop) => Err(*stop),
    }
}

/// What a name finds through `.*`, of what was reached there and counts.
pub(crate) fn star_reached<'t>(
    alloc: Global,
    s: &mut Scopes<'t>,
    frame: FrameId,
    reached: &Reached<'t>,
) -> Result<Option<Found<'t>>, Stop>
    requires frame { IsFrame s.old frame.0 }
    requires reached { IsReached s.old reached.now }
    ensures grows { Grows s.old s.new }
    ensures value { Gives (option_map (found_at s.new)) result (found_by_star (table_in s.old) (frame_at s.old frame.0) (reached_seen (frames_of s.old) reached.now)) }
    ensures stand { IfOk result (λ found. IfSome found (IsFound s.new)) }
{
    match reached {
        Reached::Element(member) => {
            let found = met(alloc, s, frame, member);
            some_given(s, &found)
        }
        Reached::Other(found) => Ok(Some(*found)),
        Reached::Absent => Ok(None),
    }
}

/// An element that is reached, entered.
pub(crate) fn element_met<'t>(
    alloc: Global,
    s: &mut Scopes<'t>,
    frame: FrameId,
    reached: &Reached<'t>,
) -> Result<Option<Found<'t>>, Stop>
    requires frame { IsFrame s.old frame.0 }
    requires reached { IsReached s.old reached.now }
    ensures grows { Grows s.old s.new }
    ensures value { Gives (option_map (found_at s.new)) result (element_found (table_in s.old) (frame_at s.old frame.0) (reached_seen (frames_of s.old) reached.now)) }
    ensures stand { IfOk result (λ found. IfSome found (IsFound s.new)) }
{
    match reached {
        Reached::Element(member) => {
            let found = met(alloc, s, frame, member);
            some_given(s, &found)
        }
        Reached::Other(_) => Ok(None),
        Reached::Absent => Ok(None),
    }
}

/// The frame of the class that was found.
pub(crate) fn class_wanted(s: &Scopes, place: Place, found: &Found) -> Result<FrameId, Stop>
    requires { IsFound s.now found.now }
    ensures value { Gives (λ frame. frame_at s.now frame.0) result (wanted_class place (found_at s.now found.now)) }
    ensures stand { IfOk result (λ frame. IsFrame s.now frame.0) }
{
    match found {
        Found::Class(frame, _) => Ok(*frame),
        Found::Component(_, _)
        | Found::Literal(_, _)
        | Found::Iteration(_)
        | Found::Function(_)
        | Found::Time => Err(stop(rules::WRONG_KIND_OF_NAME, place)),
    }
}

/// The class that was found, and whether its element is replaceable.
pub(crate) fn classed(s: &Scopes, place: Place, found: &Found) -> Result<Classed, Stop>
    requires { IsFound s.now found.now }
    ensures value { Gives (classed_seen (frames_of s.now)) result (wanted_classed place (found_at s.now found.now)) }
    ensures stand { IfOk result (λ class. IsFrame s.now class.frame.0) }
{
    match found {
        Found::Class(frame, replaceable) => Ok(Classed {
            frame: *frame,
            replaceable: *replaceable,
        }),
        Found::Component(_, _)
        | Found::Literal(_, _)
        | Found::Iteration(_)
        | Found::Function(_)
        | Found::Time => Err(stop(rules::WRONG_KIND_OF_NAME, place)),
    }
}

/// What a name finds at the top.
pub(crate) fn first_at_top<'t>(
    alloc: Global,
    s: &mut Scopes<'t>,
    place: Place,
    name: &Text,
) -> Result<Found<'t>, Stop>
    ensures grows { Grows s.old s.new }
    ensures value { Gives (found_at s.new) result (first_found (table_in s.old) place name.now) }
    ensures stand { IfOk result (IsFound s.new) }
{
    match at_top(alloc, s, name)? {
        Some(found) => Ok(found),
        None => Err(stop(rules::NAME_NOT_FOUND, place)),
    }
}

/// What a name finds behind an encapsulated class.
pub(crate) fn first_predefined<'t>(
    alloc: Global,
    s: &mut Scopes<'t>,
    place: Place,
    name: &Text,
) -> Result<Found<'t>, Stop>
    ensures grows { Grows s.old s.new }
    ensures value { Gives (found_at s.new) result (or_absent place (found_predefined name.now)) }
    ensures stand { IfOk result (IsFound s.new) }
{
    match predefined(alloc, s, name)? {
        Some(found) => Ok(found),
        None => Err(stop(rules::NAME_NOT_FOUND, place)),
    }
}

/// Two elements found for one name.
pub(crate) fn and_also<'t>(
    s: &Scopes<'t>,
    ask: Place,
    so_far: &Option<Found<'t>>,
    found: &Option<Found<'t>>,
) -> Result<Option<Found<'t>>, Stop>
    requires so_far { IfSome so_far.now (IsFound s.now) }
    requires found { IfSome found.now (IsFound s.now) }
    ensures value { Gives (option_map (found_at s.now)) result (joined_found ask (option_map (found_at s.now) so_far.now) (option_map (found_at s.now) found.now)) }
    ensures stand { IfOk result (λ found. IfSome found (IsFound s.now)) }
{
    match (so_far, found) {
        (None, _) => Ok(*found),
        (Some(_), None) => Ok(*so_far),
        (Some(first), Some(other)) => {
            if is_same(s, first, other) {
                Ok(*so_far)
            } else {
                Err(stop(rules::IMPORTED_TWICE, ask))
            }
        }
    }
}

/// The value of the innermost iteration variable of that name.
fn iteration_at<'a>(iterations: &'a [(Text, i64)], name: &Text) -> Option<&'a i64>
    ensures { option_copied result ≡ iteration_value iterations.now name.now }
{
    for variable in iterations {
        if variable.0.equals(name) {
            return Some(&variable.1);
        }
    }
    None
}

/// The value of the innermost iteration variable of that name.
pub(crate) fn iteration(iterations: &[(Text, i64)], name: &Text) -> Option<i64>
    ensures { result ≡ iteration_value iterations.now name.now }
{
    iteration_at(iterations, name).copied()
}

/// Whether the class of a frame is encapsulated.
pub fn is_closed(s: &Scopes, frame: FrameId) -> bool
    requires { IsFrame s.now frame.0 }
    ensures { result ≡ is_closed_frame (table_in s.now) (frame_at s.now frame.0) }
{
    match s.row(s.class_of(frame)) {
        Some(row) => row.class.flags.encapsulated,
        None => false,
    }
}
