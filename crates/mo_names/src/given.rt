//! What comes of the answer of a lookup. Each takes the answer as it is given, a broken rule too, and hands that on.
ghost use Rattle.std.specs.Prelude.{◌≡◌, Option, map, option_map, IfOk, IfSome, Ok};
ghost use Rattle.std.specs.List.{list_all};
ghost use Rattle.mo_scope.specs.Lookup.{Found as FoundSeen, Met as MetSeen, Reached as ReachedSeen, Walked, and_also as joined_found, class_wanted as wanted_class, classed as wanted_classed, counts_in_package, first_at_top as first_found, met_far, reached_in as reached_among, reached_own as own_reached};
ghost use Rattle.mo_scope.specs.Outcome.{Gives};
ghost use Rattle.mo_scope.specs.Worlds.{Grows, IsFrame, frame_at, frames_of, table_in};
ghost use Rattle.mo_names.specs.Sights.{IsFound, IsReached, IsWalk, classed_seen, met_seen, reached_seen, found_at, walk_at};
ghost use Rattle.mo_names.specs.steps.Lookup.{all_met, element_met as element_found, reached_behind, reached_by_star};
ghost use Rattle.mo_syntax.specs.Outcome.{Outcome, and_then};

use crate::found::{Classed, Found, Met, Reached};
use crate::reach::{
    and_also, are_all_open, behind_reached, class_wanted, classed, element_met, first_at_top,
    reached_in, reached_own, star_reached,
};
use crate::walk::Walk;
use mo_scope::Scopes;
use mo_syntax::{FrameId, NoMemory, Place, Stop, Text};
use std::alloc::Global;

/// The frame of the class that was found.
pub(crate) fn class_given<'t>(
    s: &Scopes<'t>,
    place: Place,
    found: &Result<Found<'t>, Stop>,
) -> Result<FrameId, Stop>
    requires { IfOk found.now (IsFound s.now) }
    ensures value { (told : Outcome FoundSeen) → Gives (found_at s.now) found.now told → Gives (λ frame. frame_at s.now frame.0) result (and_then told (wanted_class place)) }
    ensures stand { IfOk result (λ frame. IsFrame s.now frame.0) }
{
    match found {
        Ok(found) => class_wanted(s, place, found),
        Err(stop) => Err(*stop),
    }
}

/// The class that was found, and whether its element is replaceable.
pub(crate) fn classed_given<'t>(
    s: &Scopes<'t>,
    place: Place,
    found: &Result<Found<'t>, Stop>,
) -> Result<Classed, Stop>
    requires { IfOk found.now (IsFound s.now) }
    ensures value { (told : Outcome FoundSeen) → Gives (found_at s.now) found.now told → Gives (classed_seen (frames_of s.now)) result (and_then told (wanted_classed place)) }
    ensures stand { IfOk result (λ class. IsFrame s.now class.frame.0) }
{
    match found {
        Ok(found) => classed(s, place, found),
        Err(stop) => Err(*stop),
    }
}

/// The same of what was met.
pub(crate) fn classed_met<'t>(
    s: &Scopes<'t>,
    place: Place,
    met: &Result<Met<'t>, Stop>,
) -> Result<Classed, Stop>
    requires { IfOk met.now (λ met. IsFound s.now met.found) }
    ensures value { (told : Outcome MetSeen) → Gives (met_seen (frames_of s.now)) met.now told → Gives (classed_seen (frames_of s.now)) result (and_then told (λ met. wanted_classed place met.found)) }
    ensures stand { IfOk result (λ class. IsFrame s.now class.frame.0) }
{
    match met {
        Ok(met) => classed(s, place, &met.found),
        Err(stop) => Err(*stop),
    }
}

/// What stands behind a class, of what was reached there and counts.
pub(crate) fn behind_given<'t>(
    alloc: Global,
    s: &mut Scopes<'t>,
    place: Place,
    component: Option<Place>,
    frame: FrameId,
    any: &Result<Reached<'t>, Stop>,
) -> Result<Found<'t>, Stop>
    requires frame { IsFrame s.old frame.0 }
    requires any { IfOk any.now (IsReached s.old) }
    ensures grows { Grows s.old s.new }
    ensures value { (told : Outcome ReachedSeen) → Gives (reached_seen (frames_of s.old)) any.now told → Gives (found_at s.new) result (and_then told (reached_behind (table_in s.old) place component (frame_at s.old frame.0))) }
    ensures stand { IfOk result (IsFound s.new) }
{
    match any {
        Ok(reached) => behind_reached(alloc, s, place, component, frame, reached),
        Err(stop) => Err(*stop),
    }
}

/// What a name finds through `.*`, of what was reached there and counts.
pub(crate) fn star_given<'t>(
    alloc: Global,
    s: &mut Scopes<'t>,
    frame: FrameId,
    any: &Result<Reached<'t>, Stop>,
) -> Result<Option<Found<'t>>, Stop>
    requires frame { IsFrame s.old frame.0 }
    requires any { IfOk any.now (IsReached s.old) }
    ensures grows { Grows s.old s.new }
    ensures value { (told : Outcome ReachedSeen) → Gives (reached_seen (frames_of s.old)) any.now told → Gives (option_map (found_at s.new)) result (and_then told (reached_by_star (table_in s.old) (frame_at s.old frame.0))) }
    ensures stand { IfOk result (λ found. IfSome found (IsFound s.new)) }
{
    match any {
        Ok(reached) => star_reached(alloc, s, frame, reached),
        Err(stop) => Err(*stop),
    }
}

/// An element that is reached, entered.
pub(crate) fn element_given<'t>(
    alloc: Global,
    s: &mut Scopes<'t>,
    frame: FrameId,
    any: &Result<Reached<'t>, Stop>,
) -> Result<Option<Found<'t>>, Stop>
    requires frame { IsFrame s.old frame.0 }
    requires any { IfOk any.now (IsReached s.old) }
    ensures grows { Grows s.old s.new }
    ensures value { (told : Outcome ReachedSeen) → Gives (reached_seen (frames_of s.old)) any.now told → Gives (option_map (found_at s.new)) result (and_then told (element_found (table_in s.old) (frame_at s.old frame.0))) }
    ensures stand { IfOk result (λ found. IfSome found (IsFound s.new)) }
{
    match any {
        Ok(reached) => element_met(alloc, s, frame, reached),
        Err(stop) => Err(*stop),
    }
}

/// An element that the class of a frame declares itself, entered.
pub(crate) fn own_met<'t>(
    alloc: Global,
    s: &mut Scopes<'t>,
    frame: FrameId,
    name: &Text,
) -> Result<Option<Found<'t>>, Stop>
    requires { IsFrame s.old frame.0 }
    ensures grows { Grows s.old s.new }
    ensures value { Gives (option_map (found_at s.new)) result (and_then (own_reached (table_in s.old) (frame_at s.old frame.0) name.now) (element_found (table_in s.old) (frame_at s.old frame.0))) }
    ensures stand { IfOk result (λ found. IfSome found (IsFound s.new)) }
{
    let own = reached_own(s, frame, name);
    element_met(alloc, s, frame, &own)
}

/// What was found, as what is met.
pub(crate) fn met_given<'t>(
    _s: &Scopes<'t>,
    near: bool,
    found: &Result<Option<Found<'t>>, Stop>,
) -> Result<Option<Met<'t>>, Stop>
    requires { IfOk found.now (λ found. IfSome found (IsFound _s.now)) }
    ensures value { (told : Outcome (Option FoundSeen)) → Gives (option_map (found_at _s.now)) found.now told → Gives (option_map (met_seen (frames_of _s.now))) result (and_then told (all_met near)) }
    ensures stand { IfOk result (λ met. IfSome met (λ met. IsFound _s.now met.found)) }
{
    match found {
        Ok(Some(found)) => Ok(Some(Met {
            found: *found,
            near,
        })),
        Ok(None) => Ok(None),
        Err(stop) => Err(*stop),
    }
}

/// What was found, as what is met far away.
fn far_given<'t>(_s: &Scopes<'t>, found: &Result<Found<'t>, Stop>) -> Result<Met<'t>, Stop>
    requires { IfOk found.now (IsFound _s.now) }
    ensures value { (told : Outcome FoundSeen) → Gives (found_at _s.now) found.now told → Gives (met_seen (frames_of _s.now)) result (met_far told) }
    ensures stand { IfOk result (λ met. IsFound _s.now met.found) }
{
    match found {
        Ok(found) => Ok(Met {
            found: *found,
            near: false,
        }),
        Err(stop) => Err(*stop),
    }
}

/// What is met at the top.
pub(crate) fn met_at_top<'t>(
    alloc: Global,
    s: &mut Scopes<'t>,
    place: Place,
    name: &Text,
) -> Result<Met<'t>, Stop>
    ensures grows { Grows s.old s.new }
    ensures value { Gives (met_seen (frames_of s.new)) result (met_far (first_found (table_in s.old) place name.now)) }
    ensures stand { IfOk result (λ met. IsFound s.new met.found) }
{
    let found = first_at_top(alloc, s, place, name);
    far_given(s, &found)
}

/// Two elements found for one name.
pub(crate) fn also_given<'t>(
    s: &Scopes<'t>,
    ask: Place,
    so_far: &Option<Found<'t>>,
    found: &Result<Option<Found<'t>>, Stop>,
) -> Result<Option<Found<'t>>, Stop>
    requires so_far { IfSome so_far.now (IsFound s.now) }
    requires found { IfOk found.now (λ found. IfSome found (IsFound s.now)) }
    ensures value { (told : Outcome (Option FoundSeen)) → Gives (option_map (found_at s.now)) found.now told → Gives (option_map (found_at s.now)) result (and_then told (joined_found ask (option_map (found_at s.now) so_far.now))) }
    ensures stand { IfOk result (λ found. IfSome found (IsFound s.now)) }
{
    match found {
        Ok(found) => and_also(s, ask, so_far, found),
        Err(stop) => Err(*stop),
    }
}

/// What was reached; want of memory stops.
fn or_stopped<'t>(
    _s: &Scopes<'t>,
    reached: &Result<Reached<'t>, NoMemory>,
) -> Result<Reached<'t>, Stop>
    requires { IfOk reached.now (IsReached _s.now) }
    ensures value { (told : ReachedSeen) → IfOk reached.now (λ reached. reached_seen (frames_of _s.now) reached ≡ told) → Gives (reached_seen (frames_of _s.now)) result (Ok told) }
    ensures stand { IfOk result (IsReached _s.now) }
{
    match reached {
        Ok(reached) => Ok(*reached),
        Err(NoMemory) => Err(Stop::NoMemory),
    }
}

/// What a name reaches among the elements that were found of a frame.
pub(crate) fn reached_given<'t>(
    s: &Scopes<'t>,
    walk: Result<Walk<'t>, Stop>,
    name: &Text,
) -> Result<Reached<'t>, Stop>
    requires { IfOk walk (IsWalk s.now) }
    ensures value { (told : Outcome Walked) → Gives (walk_at s.now) walk.entry told → Gives (reached_seen (frames_of s.now)) result (and_then told (λ walked. Ok (reached_among (table_in s.now) walked name.now))) }
    ensures stand { IfOk result (IsReached s.now) }
{
    match walk {
        Ok(walk) => {
            let reached = reached_in(s, &walk, name);
            or_stopped(s, &reached)
        }
        Err(stop) => Err(stop),
    }
}

/// Whether all elements that were found of a frame may stand in a package.
pub(crate) fn are_open_given<'t>(
    _s: &Scopes<'t>,
    walk: Result<Walk<'t>, Stop>,
) -> Result<bool, Stop>
    ensures { (told : Outcome Walked) → Gives (walk_at _s.now) walk.entry told → Gives (λ all. all) result (and_then told (λ walked. Ok (list_all counts_in_package (map (λ inherited. inherited.member) walked.members)))) }
{
    match walk {
        Ok(walk) => Ok(are_all_open(walk.members.as_slice())),
        Err(stop) => Err(stop),
    }
}
