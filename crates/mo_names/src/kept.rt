//! The tables that are kept of the elements of frames.
ghost use Rattle.std.specs.Prelude.{◌≡◌, map, true, false, IfOk, IfSome, None, Ok};
ghost use Rattle.mo_syntax.specs.declared.place.Place.{Place as PlaceAt};
ghost use Rattle.mo_scope.specs.Frames.{class_of};
ghost use Rattle.mo_scope.specs.Lookup.{asking_of, contains, is_package as is_package_frame, named, own_members, reached as reached_of, walked as walked_of};
ghost use Rattle.mo_scope.specs.Names.{elements_of};
ghost use Rattle.mo_scope.specs.Outcome.{Gives};
ghost use Rattle.mo_scope.specs.Places.{Every};
ghost use Rattle.mo_scope.specs.Sights.{member_seen};
ghost use Rattle.mo_scope.specs.Worlds.{AreHomes, Grows, IsFrame, frame_at, frames_of, member_in, table_in};
ghost use Rattle.mo_names.specs.Sights.{IsMember, IsReached, IsWalk, asks, reached_seen, walk_at, member_of};

use crate::found::{Ask, Reached};
use crate::own::own_named;
use crate::reach::is_busy;
use crate::walk::{Inherited, Walk};
use mo_scope::{Member, MemberTable, Scopes};
use mo_syntax::{FrameId, List, NoMemory, Stop, Text};
use std::alloc::Global;

/// Whether no class is having its bases found.
fn is_free(s: &Scopes, ask: &Ask) -> bool
    ensures { result ≡ true → asks (table_in s.now) ask.now ≡ asking_of (table_in s.now) }
{
    if ask.left < 6 {
        return false;
    }
    if ask.left - 6 != s.class_count() {
        return false;
    }
    ask.busy.is_empty()
}

/// Whether a frame has the elements that it has where no class is having its bases found: none is, or its class is none of those that are
/// and has no extends clause.
fn is_unhindered(s: &Scopes, ask: &Ask, frame: FrameId) -> bool
    requires { IsFrame s.now frame.0 }
    ensures same { result ≡ true → (place : PlaceAt) → (asks (table_in s.now) ask.now).elements place (frame_at s.now frame.0) ≡ (asking_of (table_in s.now)).elements place (frame_at s.now frame.0) }
    ensures idle { result ≡ true → contains ask.now.busy.now (class_of (frame_at s.now frame.0)) ≡ false }
{
    if is_free(s, ask) {
        return true;
    }
    if ask.left == 0 {
        return false;
    }
    if is_busy(ask.busy, s.class_of(frame)) {
        return false;
    }
    !s.has_base(frame)
}

/// The table of a frame, where one is kept and lists what is asked for.
fn kept<'a, 't>(s: &'a Scopes<'t>, ask: &Ask, frame: FrameId) -> Option<&'a MemberTable<'t>>
    requires { IsFrame s.now frame.0 }
    ensures same { IfSome result (λ _. (place : PlaceAt) → (asks (table_in s.now) ask.now).elements place (frame_at s.now frame.0) ≡ (asking_of (table_in s.now)).elements place (frame_at s.now frame.0)) }
    ensures idle { IfSome result (λ _. contains ask.now.busy.now (class_of (frame_at s.now frame.0)) ≡ false) }
    ensures elements { IfSome result (λ table. elements_of (table_in s.now) (frame_at s.now frame.0) ≡ Ok (map (member_in (frames_of s.now)) table.now)) }
    ensures homes { IfSome result (λ table. AreHomes s.now table.now) }
{
    match s.table(frame) {
        Some(table) => {
            if is_unhindered(s, ask, frame) {
                Some(table)
            } else {
                None
            }
        }
        None => None,
    }
}

/// What a name reaches among the elements of a frame, where their table is kept, lists what is asked for and is not empty; where the table
/// is empty, there may be literals.
pub(crate) fn kept_reached<'t>(
    s: &Scopes<'t>,
    ask: &Ask,
    frame: FrameId,
    name: &Text,
) -> Option<Reached<'t>>
    requires { IsFrame s.now frame.0 }
    ensures is { IfSome result (λ reached. reached_of (table_in s.now) (asks (table_in s.now) ask.now) ask.now.place (frame_at s.now frame.0) name.now ≡ Ok (reached_seen (frames_of s.now) reached)) }
    ensures exists { IfSome result (IsReached s.now) }
{
    let Some(table) = kept(s, ask, frame) else {
        return None;
    };
    if table.members().is_empty() {
        return None;
    }
    match table.find(name) {
        Some(member) => Some(Reached::Element(*member)),
        None => Some(Reached::Absent),
    }
}

/// What a name reaches among the elements of a frame, where its bases need not be found for it: where they were, or where the
/// class declares an element of that name itself.
pub(crate) fn reached_at_hand<'t>(
    s: &Scopes<'t>,
    ask: &Ask,
    frame: FrameId,
    name: &Text,
) -> Option<Result<Reached<'t>, Stop>>
    requires { IsFrame s.now frame.0 }
    ensures is { IfSome result (λ any. Gives (reached_seen (frames_of s.now)) any (reached_of (table_in s.now) (asks (table_in s.now) ask.now) ask.now.place (frame_at s.now frame.0) name.now)) }
    ensures stand { IfSome result (λ any. IfOk any (IsReached s.now)) }
    ensures inherited { result ≡ None → named name.now (own_members (table_in s.now) (frame_at s.now frame.0)) ≡ None }
{
    if let Some(known) = kept_reached(s, ask, frame, name) {
        return Some(Ok(known));
    }
    match own_named(s, frame, name) {
        Some(member) => Some(Ok(Reached::Element(member))),
        None => None,
    }
}

/// Whether the class of a frame declares nothing but classes and constants, where its table is kept and lists what is asked for.
pub(crate) fn kept_package(s: &Scopes, ask: &Ask, frame: FrameId) -> Option<bool>
    requires { IsFrame s.now frame.0 }
    ensures { IfSome result (λ all. is_package_frame (table_in s.now) (asks (table_in s.now) ask.now) ask.now.place (frame_at s.now frame.0) ≡ Ok all) }
{
    match kept(s, ask, frame) {
        Some(table) => Some(table.is_open()),
        None => None,
    }
}

/// The elements that are held, without the base frames on the way to them.
pub fn members_held<'t>(alloc: Global, held: &[Inherited<'t>]) -> Result<List<Member<'t>>, NoMemory>
    ensures { IfOk result (λ made. made ≡ map (λ inherited. inherited.member) held.now) }
{
    let mut made = List::new(alloc);
    for inherited in held {
        made.push(inherited.member)?;
    }
    Ok(made)
}

/// The table of some elements.
fn table_of<'t>(alloc: Global, members: &[Member<'t>]) -> Result<MemberTable<'t>, NoMemory>
    ensures { IfOk result (λ made. made ≡ map member_seen members.now) }
{
    let mut made = MemberTable::new(alloc);
    for member in members {
        made.push(*member)?;
    }
    Ok(made)
}

/// Keeps the elements of a frame.
pub fn elements_kept<'t>(
    alloc: Global,
    s: &mut Scopes<'t>,
    frame: FrameId,
    members: &[Member<'t>],
) -> Result<(), NoMemory>
    requires frame { IsFrame s.old frame.0 }
    requires elements { elements_of (table_in s.old) (frame_at s.old frame.0) ≡ Ok (map (member_of (frames_of s.old)) members.now) }
    requires members { Every (IsMember s.old) members.now }
    ensures grows { Grows s.old s.new }
{
    let table = table_of(alloc, members)?;
    s.keep(alloc, frame, table)
}

/// Keeps the elements of a frame that a walk has found, where these are those that it has where no class is having its bases found, and none
/// are kept.
pub fn walk_kept<'t>(
    alloc: Global,
    s: &mut Scopes<'t>,
    ask: &Ask,
    frame: FrameId,
    walk: &Walk<'t>,
) -> Result<(), NoMemory>
    requires frame { IsFrame s.old frame.0 }
    requires is { walked_of (table_in s.old) ask.now.left ask.now.busy.now ask.now.place (frame_at s.old frame.0) ≡ Ok (walk_at s.old walk.now) }
    requires stands { IsWalk s.old walk.now }
    ensures grows { Grows s.old s.new }
{
    if s.table(frame).is_some() {
        return Ok(());
    }
    if !is_unhindered(s, ask, frame) {
        return Ok(());
    }
    let members = members_held(alloc, walk.members.as_slice())?;
    elements_kept(alloc, s, frame, members.as_slice())
}

/// The elements of a frame that a walk has found, which are kept.
fn kept_walk<'t>(
    alloc: Global,
    s: &mut Scopes<'t>,
    ask: &Ask,
    frame: FrameId,
    walk: Walk<'t>,
) -> Result<Walk<'t>, Stop>
    requires frame { IsFrame s.old frame.0 }
    requires is { walked_of (table_in s.old) ask.now.left ask.now.busy.now ask.now.place (frame_at s.old frame.0) ≡ Ok (walk_at s.old walk) }
    requires stands { IsWalk s.old walk }
    ensures grows { Grows s.old s.new }
    ensures value { Gives (walk_at s.new) result (walked_of (table_in s.old) ask.now.left ask.now.busy.now ask.now.place (frame_at s.old frame.0)) }
    ensures stand { IfOk result (IsWalk s.new) }
{
    walk_kept(alloc, s, ask, frame, &walk)?;
    Ok(walk)
}

/// The same of the answer of a walk.
pub(crate) fn walk_given<'t>(
    alloc: Global,
    s: &mut Scopes<'t>,
    ask: &Ask,
    frame: FrameId,
    walk: Result<Walk<'t>, Stop>,
) -> Result<Walk<'t>, Stop>
    requires frame { IsFrame s.old frame.0 }
    requires is { Gives (walk_at s.old) walk (walked_of (table_in s.old) ask.now.left ask.now.busy.now ask.now.place (frame_at s.old frame.0)) }
    requires stands { IfOk walk (IsWalk s.old) }
    ensures grows { Grows s.old s.new }
    ensures value { Gives (walk_at s.new) result (walked_of (table_in s.old) ask.now.left ask.now.busy.now ask.now.place (frame_at s.old frame.0)) }
    ensures stand { IfOk result (IsWalk s.new) }
{
    match walk {
        Ok(walk) => kept_walk(alloc, s, ask, frame, walk),
        Err(stop) => Err(stop),
    }
}
