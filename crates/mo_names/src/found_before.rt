//! The classes that names were found to be, kept.
ghost use Rattle.std.specs.Prelude.{◌≡◌, false, IfOk, IfSome, Some, Ok};
ghost use Rattle.mo_scope.specs.KeptClasses.{FindsClass};
ghost use Rattle.mo_scope.specs.Lookup.{behind_class as found_behind_class, found_from as found_outwards};
ghost use Rattle.mo_scope.specs.Outcome.{Gives};
ghost use Rattle.mo_scope.specs.Worlds.{Grows, IsFrame, frame_at, frames_of, table_in};
ghost use Rattle.mo_names.specs.Sights.{IsFound, asks, found_at, met_seen};

use crate::found::{Ask, Found, Met};
use mo_scope::{AskedName, Scopes};
use mo_syntax::{FrameId, NoMemory, Stop, Text};
use std::alloc::Global;

/// The class that a name was found to be before, behind a class or outwards from a frame.
fn class_before(
    s: &Scopes,
    ask: &Ask,
    behind: bool,
    frame: FrameId,
    name: &Text,
) -> Option<(FrameId, bool)>
    ensures is { IfSome result (λ class. FindsClass s.now behind ask.now.left ask.now.busy.now frame.0 ask.now.place name.now class.0.0 class.1) }
    ensures exists { IfSome result (λ class. IsFrame s.now class.0.0) }
{
    s.found_class(&AskedName {
        behind,
        frame,
        name,
        place: ask.place,
        left: ask.left,
        busy: ask.busy,
    })
}

/// What a name was found to be before outwards from a frame.
pub(crate) fn found_before_outwards<'t>(
    s: &Scopes<'t>,
    ask: &Ask,
    frame: FrameId,
    name: &Text,
) -> Option<Met<'t>>
    ensures is { IfSome result (λ met. found_outwards (table_in s.now) (asks (table_in s.now) ask.now) false false (frame_at s.now frame.0) ask.now.place name.now ≡ Ok (met_seen (frames_of s.now) met)) }
    ensures stand { IfSome result (λ met. IsFound s.now met.found) }
{
    match class_before(s, ask, false, frame, name) {
        Some(class) => Some(Met {
            found: Found::Class(class.0, class.1),
            near: false,
        }),
        None => None,
    }
}

/// What a name was found to be before behind a class.
pub(crate) fn found_before_behind<'t>(
    s: &Scopes<'t>,
    ask: &Ask,
    frame: FrameId,
    name: &Text,
) -> Option<Found<'t>>
    ensures is { IfSome result (λ found. found_behind_class (table_in s.now) (asks (table_in s.now) ask.now) ask.now.place ask.now.place (Some ask.now.place) (frame_at s.now frame.0) name.now ≡ Ok (found_at s.now found)) }
    ensures stand { IfSome result (IsFound s.now) }
{
    match class_before(s, ask, true, frame, name) {
        Some(class) => Some(Found::Class(class.0, class.1)),
        None => None,
    }
}

/// Keeps the class that a name finds.
fn keep_class(
    alloc: Global,
    s: &mut Scopes,
    ask: &Ask,
    behind: bool,
    frame: FrameId,
    name: &Text,
    class: (FrameId, bool),
) -> Result<(), NoMemory>
    requires frame { IsFrame s.old frame.0 }
    requires class { IsFrame s.old class.0.0 }
    requires finds { FindsClass s.old behind ask.now.left ask.now.busy.now frame.0 ask.now.place name.now class.0.0 class.1 }
    ensures { s.new ≡ s.old }
{
    let asked = AskedName {
        behind,
        frame,
        name,
        place: ask.place,
        left: ask.left,
        busy: ask.busy,
    };
    s.keep_class(alloc, &asked, class.0, class.1)
}

/// Keeps what a name finds outwards from a frame, if it is a class.
fn keep_outwards(
    alloc: Global,
    s: &mut Scopes,
    ask: &Ask,
    frame: FrameId,
    name: &Text,
    met: &Met,
) -> Result<(), NoMemory>
    requires frame { IsFrame s.old frame.0 }
    requires is { found_outwards (table_in s.old) (asks (table_in s.old) ask.now) false false (frame_at s.old frame.0) ask.now.place name.now ≡ Ok (met_seen (frames_of s.old) met.now) }
    requires stands { IsFound s.old met.now.found }
    ensures { s.new ≡ s.old }
{
    match met {
        Met {
            found: Found::Class(class, replaceable),
            near: false,
        } => keep_class(alloc, s, ask, false, frame, name, (*class, *replaceable)),
        _ => Ok(()),
    }
}

/// Keeps what a name finds behind a class, if it is a class.
fn keep_behind(
    alloc: Global,
    s: &mut Scopes,
    ask: &Ask,
    frame: FrameId,
    name: &Text,
    found: &Found,
) -> Result<(), NoMemory>
    requires frame { IsFrame s.old frame.0 }
    requires is { found_behind_class (table_in s.old) (asks (table_in s.old) ask.now) ask.now.place ask.now.place (Some ask.now.place) (frame_at s.old frame.0) name.now ≡ Ok (found_at s.old found.now) }
    requires stands { IsFound s.old found.now }
    ensures { s.new ≡ s.old }
{
    match found {
        Found::Class(class, replaceable) => {
            keep_class(alloc, s, ask, true, frame, name, (*class, *replaceable))
        }
        _ => Ok(()),
    }
}

/// What a name finds outwards from a frame, which is kept.
pub(crate) fn kept_outwards<'t>(
    alloc: Global,
    s: &mut Scopes<'t>,
    ask: &Ask,
    frame: FrameId,
    name: &Text,
    met: &Result<Met<'t>, Stop>,
) -> Result<Met<'t>, Stop>
    requires frame { IsFrame s.old frame.0 }
    requires is { Gives (met_seen (frames_of s.old)) met.now (found_outwards (table_in s.old) (asks (table_in s.old) ask.now) false false (frame_at s.old frame.0) ask.now.place name.now) }
    requires stands { IfOk met.now (λ met. IsFound s.old met.found) }
    ensures grows { Grows s.old s.new }
    ensures value { Gives (met_seen (frames_of s.new)) result (found_outwards (table_in s.old) (asks (table_in s.old) ask.now) false false (frame_at s.old frame.0) ask.now.place name.now) }
    ensures stand { IfOk result (λ met. IsFound s.new met.found) }
{
    match met {
        Ok(met) => {
            keep_outwards(alloc, s, ask, frame, name, met)?;
            Ok(*met)
        }
        Err(stop) => Err(*stop),
    }
}

/// What a name finds behind a class, which is kept.
pub(crate) fn kept_behind<'t>(
    alloc: Global,
    s: &mut Scopes<'t>,
    ask: &Ask,
    frame: FrameId,
    name: &Text,
    found: &Result<Found<'t>, Stop>,
) -> Result<Found<'t>, Stop>
    requires frame { IsFrame s.old frame.0 }
    requires is { Gives (found_at s.old) found.now (found_behind_class (table_in s.old) (asks (table_in s.old) ask.now) ask.now.place ask.now.place (Some ask.now.place) (frame_at s.old frame.0) name.now) }
    requires stands { IfOk found.now (IsFound s.old) }
    ensures grows { Grows s.old s.new }
    ensures value { Gives (found_at s.new) result (found_behind_class (table_in s.old) (asks (table_in s.old) ask.now) ask.now.place ask.now.place (Some ask.now.place) (frame_at s.old frame.0) name.now) }
    ensures stand { IfOk result (IsFound s.new) }
{
    match found {
        Ok(found) => {
            keep_behind(alloc, s, ask, frame, name, found)?;
            Ok(*found)
        }
        Err(stop) => Err(*stop),
    }
}
