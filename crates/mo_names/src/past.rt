//! What is past a frame.
ghost use Rattle.std.specs.Prelude.{Option, option_map, IfOk, IfSome};
ghost use Rattle.mo_scope.specs.Lookup.{Found as FoundSeen, Met as MetSeen};
ghost use Rattle.mo_scope.specs.Outcome.{Gives};
ghost use Rattle.mo_scope.specs.Worlds.{Grows, IsFrame, frame_at, frames_of, table_in};
ghost use Rattle.mo_names.specs.Past.{GivesNext, IsNext, IsPast, Past as PastSeen, found_past, next_of, or_past, past as what_is_past, past_seen};
ghost use Rattle.mo_names.specs.Sights.{IsFound, met_seen, found_at};
ghost use Rattle.mo_syntax.specs.Outcome.{Outcome, and_then};

use crate::found::{Found, Met};
use crate::reach::{first_at_top, first_predefined, is_closed};
use mo_scope::Scopes;
use mo_syntax::{FrameId, Place, Stop, Text};
use std::alloc::Global;

/// What is past a frame: what a name finds there, or the frame around it.
#[derive(Clone, Copy)]
pub(crate) enum Past<'t> {
    Found(Found<'t>),
    Around(FrameId),
}

/// Where the walk outwards goes from a frame: it ends with what is met, or goes on in the frame around it.
#[derive(Clone, Copy)]
pub(crate) enum Next<'t> {
    Ends(Result<Met<'t>, Stop>),
    Around(FrameId),
}

/// What was found, as what is past a frame.
fn past_given<'t>(_s: &Scopes<'t>, found: &Result<Found<'t>, Stop>) -> Result<Past<'t>, Stop>
    requires { IfOk found.now (IsFound _s.now) }
    ensures value { (told : Outcome FoundSeen) → Gives (found_at _s.now) found.now told → Gives (past_seen (frames_of _s.now)) result (found_past told) }
    ensures stand { IfOk result (IsPast _s.now) }
{
    match found {
        Ok(found) => Ok(Past::Found(*found)),
        Err(stop) => Err(*stop),
    }
}

/// What a name finds past a frame: behind an encapsulated class predefined names alone, at the top what stands there, and
/// else the frame around it.
pub(crate) fn past_frame<'t>(
    alloc: Global,
    s: &mut Scopes<'t>,
    place: Place,
    frame: FrameId,
    name: &Text,
) -> Result<Past<'t>, Stop>
    requires { IsFrame s.old frame.0 }
    ensures grows { Grows s.old s.new }
    ensures value { Gives (past_seen (frames_of s.new)) result (what_is_past (table_in s.old) place (frame_at s.old frame.0) name.now) }
    ensures stand { IfOk result (IsPast s.new) }
{
    if is_closed(s, frame) {
        let found = first_predefined(alloc, s, place, name);
        return past_given(s, &found);
    }
    match s.outer(frame) {
        Some(outer) => Ok(Past::Around(outer)),
        None => {
            let found = first_at_top(alloc, s, place, name);
            past_given(s, &found)
        }
    }
}

/// What is past a frame, as where the walk goes on.
fn next_given<'t>(_s: &Scopes<'t>, past: &Result<Past<'t>, Stop>) -> Next<'t>
    requires { IfOk past.now (IsPast _s.now) }
    ensures value { (told : Outcome PastSeen) → Gives (past_seen (frames_of _s.now)) past.now told → GivesNext (frames_of _s.now) result (and_then told next_of) }
    ensures stand { IsNext _s.now result }
{
    match past {
        Ok(Past::Found(found)) => Next::Ends(Ok(Met {
            found: *found,
            near: false,
        })),
        Ok(Past::Around(outer)) => Next::Around(*outer),
        Err(stop) => Next::Ends(Err(*stop)),
    }
}

/// Where the walk outwards goes from a frame in which a name met this.
pub(crate) fn next_past<'t>(
    alloc: Global,
    s: &mut Scopes<'t>,
    place: Place,
    frame: FrameId,
    name: &Text,
    here: &Result<Option<Met<'t>>, Stop>,
) -> Next<'t>
    requires frame { IsFrame s.old frame.0 }
    requires here { IfOk here.now (λ here. IfSome here (λ met. IsFound s.old met.found)) }
    ensures grows { Grows s.old s.new }
    ensures value { (told : Outcome (Option MetSeen)) → Gives (option_map (met_seen (frames_of s.old))) here.now told → GivesNext (frames_of s.new) result (and_then told (or_past (what_is_past (table_in s.old) place (frame_at s.old frame.0) name.now))) }
    ensures stand { IsNext s.new result }
{
    match here {
        Ok(Some(met)) => Next::Ends(Ok(*met)),
        Ok(None) => {
            let past = past_frame(alloc, s, place, frame, name);
            next_given(s, &past)
        }
        Err(stop) => Next::Ends(Err(*stop)),
    }
}
