//! Lookup where no class is having its bases found.
#![tactic(auto, using(mo_names::proofs::Later::later))]

ghost use Rattle.std.specs.Prelude.{◌≡◌, false, None, IfOk, IfSome};
ghost use Rattle.mo_scope.specs.Lookup.{asking_of, behind_class as found_behind_class, class_named as named_class, reached as reached_of};
ghost use Rattle.mo_scope.specs.Outcome.{Gives};
ghost use Rattle.mo_scope.specs.Rows.{number_of_classes};
ghost use Rattle.mo_scope.specs.Worlds.{Grows, IsFrame, frame_at, frames_of, table_in};
ghost use Rattle.mo_scope.specs.Sights.{scope_at};
ghost use Rattle.mo_names.specs.Calls.{reached_in};
ghost use Rattle.mo_names.specs.Past.{first_met};
ghost use Rattle.mo_names.specs.Sights.{IsFound, IsReached, IsWalk, classed_seen, met_seen, reached_seen, found_at, walk_at};

use crate::ahead::{keep_ahead, keep_for_name};
use crate::settled::walked_once;
use mo_names::{
    Ask, Classed, Found, Met, Reached, Walk, behind_class, class_named, found_first, reached,
    walk_kept, walked,
};
use mo_scope::{ScopeAt, Scopes};
use mo_syntax::{FrameId, NoMemory, Part as Identifier, Place, Reference, Stop, Text};
use std::alloc::Global;

/// How many classes there are, the predefined types among them.
pub(crate) fn class_count(s: &Scopes) -> Result<usize, NoMemory>
    ensures { IfOk result (λ count. count ≡ number_of_classes (table_in s.now)) }
{
    s.class_count().checked_add(6).ok_or(NoMemory)
}

/// The elements of a frame, asked for at a place, found by a walk.
fn elements_by_walk<'t>(
    alloc: Global,
    s: &mut Scopes<'t>,
    frame: FrameId,
    place: Place,
) -> Result<Walk<'t>, Stop>
    requires { IsFrame s.old frame.0 }
    ensures grows { Grows s.old s.new }
    ensures value { Gives (walk_at s.new) result ((asking_of (table_in s.old)).elements place (frame_at s.old frame.0)) }
    ensures stand { IfOk result (IsWalk s.new) }
{
    let ask = Ask {
        left: class_count(s)?,
        busy: &[],
        place,
        depth: s.depth(),
    };
    walked(alloc, s, &ask, frame)
}

/// The elements of a frame, asked for at a place. Where each frame on the way can be walked once, it is.
pub(crate) fn elements_at<'t>(
    alloc: Global,
    s: &mut Scopes<'t>,
    frame: FrameId,
    place: Place,
) -> Result<Walk<'t>, Stop>
    requires { IsFrame s.old frame.0 }
    ensures grows { Grows s.old s.new }
    ensures value { Gives (walk_at s.new) result ((asking_of (table_in s.old)).elements place (frame_at s.old frame.0)) }
    ensures stand { IfOk result (IsWalk s.new) }
{
    match walked_once(alloc, s, frame)? {
        Some(walk) => Ok(walk),
        None => elements_by_walk(alloc, s, frame, place),
    }
}

/// The elements of a frame, asked for at a place, where rule 18 is broken if it is; they are kept, if none are. Breaks what `walk_of`
/// breaks.
pub fn elements_kept_at<'t>(
    alloc: Global,
    s: &mut Scopes<'t>,
    frame: FrameId,
    place: Place,
) -> Result<Walk<'t>, Stop>
    requires { IsFrame s.old frame.0 }
    ensures grows { Grows s.old s.new }
    ensures value { Gives (walk_at s.new) result ((asking_of (table_in s.old)).elements place (frame_at s.old frame.0)) }
    ensures stand { IfOk result (IsWalk s.new) }
{
    let walk = elements_at(alloc, s, frame, place)?;
    let ask = Ask {
        left: class_count(s)?,
        busy: &[],
        place,
        depth: s.depth(),
    };
    walk_kept(alloc, s, &ask, frame, &walk)?;
    Ok(walk)
}

/// What a name reaches among the elements of a frame, found by a lookup.
fn reached_by_lookup<'t>(
    alloc: Global,
    s: &mut Scopes<'t>,
    frame: FrameId,
    name: &Text,
    place: Place,
) -> Result<Reached<'t>, Stop>
    requires { IsFrame s.old frame.0 }
    ensures grows { Grows s.old s.new }
    ensures value { Gives (reached_seen (frames_of s.new)) result (reached_of (table_in s.old) (asking_of (table_in s.old)) place (frame_at s.old frame.0) name.now) }
    ensures stand { IfOk result (IsReached s.new) }
{
    let ask = Ask {
        left: class_count(s)?,
        busy: &[],
        place,
        depth: s.depth(),
    };
    reached(alloc, s, &ask, frame, name)
}

/// What a name reaches among the elements of a frame: the own ones come first, and its bases are found only where none of them
/// has the name. Where rule 18 is broken, it is at this place.
pub fn find_element<'t>(
    alloc: Global,
    s: &mut Scopes<'t>,
    frame: FrameId,
    name: &Text,
    place: Place,
) -> Result<Reached<'t>, Stop>
    requires { IsFrame s.old frame.0 }
    ensures grows { Grows s.old s.new }
    ensures value { Gives (reached_seen (frames_of s.new)) result (reached_in s.old place frame.0 name.now) }
    ensures stand { IfOk result (IsReached s.new) }
{
    keep_ahead(alloc, s, frame, name)?;
    reached_by_lookup(alloc, s, frame, name, place)
}

/// What stands behind a class, found by a lookup.
fn behind_by_lookup<'t>(
    alloc: Global,
    s: &mut Scopes<'t>,
    frame: FrameId,
    name: &Text,
    place: Place,
) -> Result<Found<'t>, Stop>
    requires { IsFrame s.old frame.0 }
    ensures grows { Grows s.old s.new }
    ensures value { Gives (found_at s.new) result (found_behind_class (table_in s.old) (asking_of (table_in s.old)) place place None (frame_at s.old frame.0) name.now) }
    ensures stand { IfOk result (IsFound s.new) }
{
    let ask = Ask {
        left: class_count(s)?,
        busy: &[],
        place,
        depth: s.depth(),
    };
    behind_class(alloc, s, &ask, place, None, frame, name)
}

/// What a name behind a dot finds in a class, as it is declared there. Breaks 12, 17, 18 and 19 at this place, and 12 to 14, 16 to 19, 24
/// and 34 at the names of bases.
pub fn behind_class_at<'t>(
    alloc: Global,
    s: &mut Scopes<'t>,
    frame: FrameId,
    name: &Text,
    place: Place,
) -> Result<Found<'t>, Stop>
    requires { IsFrame s.old frame.0 }
    ensures grows { Grows s.old s.new }
    ensures value { Gives (found_at s.new) result (found_behind_class (table_in s.old) (asking_of (table_in s.old)) place place None (frame_at s.old frame.0) name.now) }
    ensures stand { IfOk result (IsFound s.new) }
{
    keep_ahead(alloc, s, frame, name)?;
    behind_by_lookup(alloc, s, frame, name, place)
}

/// What the first identifier of a name finds by a lookup.
fn first_by_lookup<'t>(
    alloc: Global,
    s: &mut Scopes<'t>,
    at: &ScopeAt,
    top: bool,
    name: &Text,
    place: Place,
) -> Result<Met<'t>, Stop>
    requires { IsFrame s.old at.now.frame.0 }
    ensures grows { Grows s.old s.new }
    ensures value { Gives (met_seen (frames_of s.new)) result (first_met (table_in s.old) (asking_of (table_in s.old)) false top (scope_at s.old at.now) place name.now) }
    ensures stand { IfOk result (λ met. IsFound s.new met.found) }
{
    let ask = Ask {
        left: class_count(s)?,
        busy: &[],
        place,
        depth: s.depth(),
    };
    found_first(alloc, s, &ask, false, top, at, name)
}

/// What the first identifier of a name finds, as it is declared; a leading dot starts at the top. Breaks 12 to 14, 16 to 19, 24 and 34.
pub fn first_at<'t>(
    alloc: Global,
    s: &mut Scopes<'t>,
    at: &ScopeAt,
    top: bool,
    name: &Text,
    place: Place,
) -> Result<Met<'t>, Stop>
    requires { IsFrame s.old at.now.frame.0 }
    ensures grows { Grows s.old s.new }
    ensures value { Gives (met_seen (frames_of s.new)) result (first_met (table_in s.old) (asking_of (table_in s.old)) false top (scope_at s.old at.now) place name.now) }
    ensures stand { IfOk result (λ met. IsFound s.new met.found) }
{
    keep_for_name(alloc, s, top, at.frame, name)?;
    first_by_lookup(alloc, s, at, top, name, place)
}

/// The class that the first identifier of a name finds, None where it finds no class.
fn class_found_first(
    alloc: Global,
    s: &mut Scopes,
    at: &ScopeAt,
    top: bool,
    part: &Identifier,
) -> Option<FrameId>
    requires { IsFrame s.old at.now.frame.0 }
    ensures grows { Grows s.old s.new }
    ensures stand { IfSome result (λ class. IsFrame s.new class.0) }
{
    match first_at(alloc, s, at, top, &part.name, part.place) {
        Ok(
            Met {
                found: Found::Class(class, _),
                ..
            },
        ) => Some(class),
        _ => None,
    }
}

/// The class that one more identifier finds, None where it finds no class.
fn class_found_behind(
    alloc: Global,
    s: &mut Scopes,
    frame: FrameId,
    part: &Identifier,
) -> Option<FrameId>
    requires { IsFrame s.old frame.0 }
    ensures grows { Grows s.old s.new }
    ensures stand { IfSome result (λ class. IsFrame s.new class.0) }
{
    match behind_class_at(alloc, s, frame, &part.name, part.place) {
        Ok(Found::Class(class, _)) => Some(class),
        _ => None,
    }
}

/// Keeps elements before further identifiers are looked up, each in the class that the one before it finds.
fn keep_behind(alloc: Global, s: &mut Scopes, first: FrameId, parts: &[Identifier])
    requires { IsFrame s.old first.0 }
    ensures { Grows s.old s.new }
{
    let mut frame = first;
    for part in parts {
        match class_found_behind(alloc, s, frame, part) {
            Some(class) => frame = class,
            None => return,
        }
    }
}

/// Keeps elements before the identifiers of the name of a class are looked up in a scope, so that no base on the way is walked twice.
fn keep_for_class(
    alloc: Global,
    s: &mut Scopes,
    at: &ScopeAt,
    reference: &Reference,
) -> Result<(), NoMemory>
    requires { IsFrame s.old at.now.frame.0 }
    ensures { Grows s.old s.new }
{
    let parts = reference.parts.as_slice();
    if parts.is_empty() {
        return Ok(());
    }
    let first = &parts[0];
    if parts.len() == 1 {
        return keep_for_name(alloc, s, reference.top, at.frame, &first.name);
    }
    if let Some(class) = class_found_first(alloc, s, at, reference.top, first) {
        keep_behind(alloc, s, class, &parts[1..]);
    }
    Ok(())
}

/// The class that the name of a type or a constraining class finds by a lookup.
fn class_by_lookup(
    alloc: Global,
    s: &mut Scopes,
    at: &ScopeAt,
    reference: &Reference,
) -> Result<Classed, Stop>
    requires { IsFrame s.old at.now.frame.0 }
    ensures grows { Grows s.old s.new }
    ensures value { Gives (classed_seen (frames_of s.new)) result (named_class (table_in s.old) (asking_of (table_in s.old)) false (scope_at s.old at.now) reference.now) }
    ensures stand { IfOk result (λ class. IsFrame s.new class.frame.0) }
{
    let ask = Ask {
        left: class_count(s)?,
        busy: &[],
        place: Place { file: 0, byte: 0 },
        depth: s.depth(),
    };
    class_named(alloc, s, &ask, false, at, reference)
}

/// The class that the name of a type or a constraining class finds in a scope. Breaks 12 to 14, 16 to 19, 24 and 34, at the identifier
/// that breaks it or at the name of a base.
pub fn class_named_at(
    alloc: Global,
    s: &mut Scopes,
    at: &ScopeAt,
    reference: &Reference,
) -> Result<Classed, Stop>
    requires { IsFrame s.old at.now.frame.0 }
    ensures grows { Grows s.old s.new }
    ensures value { Gives (classed_seen (frames_of s.new)) result (named_class (table_in s.old) (asking_of (table_in s.old)) false (scope_at s.old at.now) reference.now) }
    ensures stand { IfOk result (λ class. IsFrame s.new class.frame.0) }
{
    keep_for_class(alloc, s, at, reference)?;
    class_by_lookup(alloc, s, at, reference)
}
