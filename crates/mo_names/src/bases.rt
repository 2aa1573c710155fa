//! Names of classes and bases: the second half of the circle.
#![tactic(auto, using(crate::proofs::Later::later))]

ghost use Rattle.std.specs.Prelude.{◌≡◌, ◌<◌, true, false, drop, IfOk, Some};
ghost use Rattle.mo_scope.specs.Lookup.{base_class as class_of_base, behind_class as found_behind_class, class_behind as classes_behind, class_named as named_class, found_from as found_outwards, walked_class as class_walked};
ghost use Rattle.mo_scope.specs.Outcome.{Gives};
ghost use Rattle.mo_scope.specs.Rows.{Base_of, number_of_classes};
ghost use Rattle.mo_scope.specs.Sights.{clause_seen, part_seen, scope_at};
ghost use Rattle.mo_scope.specs.Worlds.{Grows, IsFrame, frame_at, frames_of, table_in, row_of_frame};
ghost use Rattle.mo_names.specs.Sights.{IsFound, IsWalk, asks, classed_seen, found_at, met_seen, walk_at};
ghost use Rattle.mo_names.specs.steps.Parts.{parts_of};
ghost use Rattle.mo_names.specs.Past.{first_met};
ghost use Rattle.mo_names.specs.steps.Bases.{IsOwnPart, PartExists, StandsAt, base_walked as walked_base, base_with_elements, first_of_parts, part_walked as walked_part, parts_walked as walked_parts_from};
ghost use Rattle.mo_names.specs.steps.Lookup.{base_at, class_step as classed_step, first_class as classed_first, next_item};

use crate::circle::{behind_class, found_in, walked};
use crate::depth::depth_of_lookup;
use crate::found::{Ask, Classed, Found, Met};
use crate::found_before::{found_before_behind, found_before_outwards, kept_behind, kept_outwards};
use crate::given::{classed_given, classed_met, met_at_top};
use crate::join::with_base;
use crate::own_walk::own_walked;
use crate::parts::{NumberedClause, NumberedPart, part_at, part_count};
use crate::past::{Next, next_past};
use crate::reach::iteration;
use crate::start::{base_entered, last_place, started, walk_checked};
use crate::walk::Walk;
use mo_scope::{Clause, Part, ScopeAt, Scopes};
use mo_syntax::{FrameId, List, Part as Identifier, Place, Reference, Stop, Text, rules, stop};
use std::alloc::Global;

/// The walk outwards: a frame, each enclosing frame, and the top. It ends behind an encapsulated class.
#[cycle(names)]
fn found_from<'t>(
    alloc: Global,
    s: &mut Scopes<'t>,
    ask: &Ask,
    first: FrameId,
    name: &Text,
) -> Result<Met<'t>, Stop>
    requires { IsFrame s.old first.0 }
    ensures grows { Grows s.old s.new }
    ensures value { Gives (met_seen (frames_of s.new)) result (found_outwards (table_in s.old) (asks (table_in s.old) ask.now) false false (frame_at s.old first.0) ask.now.place name.now) }
    ensures stand { IfOk result (λ met. IsFound s.new met.found) }
{
    let mut frame = first;
    loop {
        let here = found_in(alloc, s, ask, false, false, frame, name);
        match next_past(alloc, s, ask.place, frame, name, &here) {
            Next::Ends(met) => return met,
            Next::Around(outer) => frame = outer,
        }
    }
}

/// The same, from what was kept of it.
#[cycle(names)]
fn found_around<'t>(
    alloc: Global,
    s: &mut Scopes<'t>,
    ask: &Ask,
    frame: FrameId,
    name: &Text,
) -> Result<Met<'t>, Stop>
    requires { IsFrame s.old frame.0 }
    ensures grows { Grows s.old s.new }
    ensures value { Gives (met_seen (frames_of s.new)) result (found_outwards (table_in s.old) (asks (table_in s.old) ask.now) false false (frame_at s.old frame.0) ask.now.place name.now) }
    ensures stand { IfOk result (λ met. IsFound s.new met.found) }
{
    match found_before_outwards(s, ask, frame, name) {
        Some(met) => Ok(met),
        None => {
            let met = found_from(alloc, s, ask, frame, name);
            kept_outwards(alloc, s, ask, frame, name, &met)
        }
    }
}

/// What a name finds: in the frame of the text, or else outwards from it.
#[cycle(names)]
fn found_near<'t>(
    alloc: Global,
    s: &mut Scopes<'t>,
    ask: &Ask,
    bare: bool,
    frame: FrameId,
    name: &Text,
) -> Result<Met<'t>, Stop>
    requires { IsFrame s.old frame.0 }
    ensures grows { Grows s.old s.new }
    ensures value { Gives (met_seen (frames_of s.new)) result (found_outwards (table_in s.old) (asks (table_in s.old) ask.now) bare true (frame_at s.old frame.0) ask.now.place name.now) }
    ensures stand { IfOk result (λ met. IsFound s.new met.found) }
{
    let here = found_in(alloc, s, ask, bare, true, frame, name);
    match next_past(alloc, s, ask.place, frame, name, &here) {
        Next::Ends(met) => met,
        Next::Around(outer) => found_around(alloc, s, ask, outer, name),
    }
}

/// The first identifier of a name; a leading dot starts at the top.
#[cycle(names)]
pub fn found_first<'t>(
    alloc: Global,
    s: &mut Scopes<'t>,
    ask: &Ask,
    bare: bool,
    top: bool,
    scope: &ScopeAt,
    name: &Text,
) -> Result<Met<'t>, Stop>
    requires { IsFrame s.old scope.now.frame.0 }
    ensures grows { Grows s.old s.new }
    ensures value { Gives (met_seen (frames_of s.new)) result (first_met (table_in s.old) (asks (table_in s.old) ask.now) bare top (scope_at s.old scope.now) ask.now.place name.now) }
    ensures stand { IfOk result (λ met. IsFound s.new met.found) }
{
    if top {
        return met_at_top(alloc, s, ask.place, name);
    }
    match iteration(scope.iters.as_slice(), name) {
        Some(value) => Ok(Met {
            found: Found::Iteration(value),
            near: true,
        }),
        None => found_near(alloc, s, ask, bare, scope.frame, name),
    }
}

/// The class that an identifier finds as the first of a name.
#[cycle(names)]
fn first_class(
    alloc: Global,
    s: &mut Scopes,
    ask: &Ask,
    bare: bool,
    top: bool,
    scope: &ScopeAt,
    part: &Identifier,
) -> Result<Classed, Stop>
    requires { IsFrame s.old scope.now.frame.0 }
    ensures grows { Grows s.old s.new }
    ensures value { Gives (classed_seen (frames_of s.new)) result (classed_first (table_in s.old) (asks (table_in s.old) ask.now) bare top (scope_at s.old scope.now) part.now) }
    ensures stand { IfOk result (λ class. IsFrame s.new class.frame.0) }
{
    let here = Ask {
        left: ask.left,
        busy: ask.busy,
        place: part.place,
        depth: ask.depth,
    };
    let met = found_first(alloc, s, &here, bare, top, scope, &part.name);
    classed_met(s, part.place, &met)
}

/// The class that the first identifier of a name finds.
#[cycle(names)]
fn class_first(
    alloc: Global,
    s: &mut Scopes,
    ask: &Ask,
    bare: bool,
    scope: &ScopeAt,
    reference: &Reference,
) -> Result<Classed, Stop>
    requires { IsFrame s.old scope.now.frame.0 }
    ensures grows { Grows s.old s.new }
    ensures value { Gives (classed_seen (frames_of s.new)) result (first_of_parts (table_in s.old) (asks (table_in s.old) ask.now) bare reference.now.top (scope_at s.old scope.now) reference.now.parts) }
    ensures stand { IfOk result (λ class. IsFrame s.new class.frame.0) }
{
    match reference.parts.get(0) {
        Some(part) => first_class(alloc, s, ask, bare, reference.top, scope, part),
        None => Err(stop(rules::NAME_NOT_FOUND, Place { file: 0, byte: 0 })),
    }
}

/// The identifiers behind the first.
fn behind_first(parts: &[Identifier]) -> &[Identifier]
    ensures { result.now ≡ drop 1 parts.now }
{
    if parts.is_empty() {
        return parts;
    }
    &parts[1..]
}

/// What one more identifier finds behind a class, from what was kept of it.
#[cycle(names)]
fn found_behind<'t>(
    alloc: Global,
    s: &mut Scopes<'t>,
    ask: &Ask,
    frame: FrameId,
    name: &Text,
) -> Result<Found<'t>, Stop>
    requires { IsFrame s.old frame.0 }
    ensures grows { Grows s.old s.new }
    ensures value { Gives (found_at s.new) result (found_behind_class (table_in s.old) (asks (table_in s.old) ask.now) ask.now.place ask.now.place (Some ask.now.place) (frame_at s.old frame.0) name.now) }
    ensures stand { IfOk result (IsFound s.new) }
{
    match found_before_behind(s, ask, frame, name) {
        Some(found) => Ok(found),
        None => {
            let found = behind_class(alloc, s, ask, ask.place, Some(ask.place), frame, name);
            kept_behind(alloc, s, ask, frame, name, &found)
        }
    }
}

/// The class that one more identifier finds.
#[cycle(names)]
fn class_step(
    alloc: Global,
    s: &mut Scopes,
    ask: &Ask,
    class: Classed,
    part: &Identifier,
) -> Result<Classed, Stop>
    requires { IsFrame s.old class.frame.0 }
    ensures grows { Grows s.old s.new }
    ensures value { Gives (classed_seen (frames_of s.new)) result (classed_step (table_in s.old) (asks (table_in s.old) ask.now) (classed_seen (frames_of s.old) class) part.now) }
    ensures stand { IfOk result (λ class. IsFrame s.new class.frame.0) }
{
    let here = Ask {
        left: ask.left,
        busy: ask.busy,
        place: part.place,
        depth: ask.depth,
    };
    let found = found_behind(alloc, s, &here, class.frame, &part.name);
    classed_given(s, part.place, &found)
}

/// The class that further identifiers find.
#[cycle(names)]
fn class_behind(
    alloc: Global,
    s: &mut Scopes,
    ask: &Ask,
    first: Classed,
    parts: &[Identifier],
) -> Result<Classed, Stop>
    requires { IsFrame s.old first.frame.0 }
    ensures grows { Grows s.old s.new }
    ensures value { Gives (classed_seen (frames_of s.new)) result (classes_behind (table_in s.old) (asks (table_in s.old) ask.now) (classed_seen (frames_of s.old) first) parts.now) }
    ensures stand { IfOk result (λ class. IsFrame s.new class.frame.0) }
{
    let mut class = first;
    for part in parts {
        class = class_step(alloc, s, ask, class, part)?;
    }
    Ok(class)
}

/// The class that the name of a type, a base or a constraining class finds.
#[cycle(names)]
pub fn class_named(
    alloc: Global,
    s: &mut Scopes,
    ask: &Ask,
    bare: bool,
    scope: &ScopeAt,
    reference: &Reference,
) -> Result<Classed, Stop>
    requires { IsFrame s.old scope.now.frame.0 }
    ensures grows { Grows s.old s.new }
    ensures value { Gives (classed_seen (frames_of s.new)) result (named_class (table_in s.old) (asks (table_in s.old) ask.now) bare (scope_at s.old scope.now) reference.now) }
    ensures stand { IfOk result (λ class. IsFrame s.new class.frame.0) }
{
    let first = class_first(alloc, s, ask, bare, scope, reference)?;
    let parts = behind_first(reference.parts.as_slice());
    class_behind(alloc, s, ask, first, parts)
}

/// The class of a base. Its name is looked up without the inherited elements of the class itself.
#[cycle(names)]
fn base_class(
    alloc: Global,
    s: &mut Scopes,
    ask: &Ask,
    frame: FrameId,
    clause: &Clause,
) -> Result<FrameId, Stop>
    requires { IsFrame s.old frame.0 }
    ensures grows { Grows s.old s.new }
    ensures value { Gives (λ class. frame_at s.new class.0) result (class_of_base (table_in s.old) (asks (table_in s.old) ask.now) (frame_at s.old frame.0) (clause_seen clause.now)) }
    ensures stand { IfOk result (λ class. IsFrame s.new class.0) }
{
    let scope = ScopeAt {
        frame,
        iters: List::new(alloc),
    };
    let here = Ask {
        left: ask.left,
        busy: ask.busy,
        place: ask.place,
        depth: depth_of_lookup(ask.depth),
    };
    let class = class_named(alloc, s, &here, true, &scope, clause.base)?;
    if class.replaceable {
        return Err(stop(
            rules::WRONG_REPLACEABLE,
            last_place(clause.base.parts.as_slice()),
        ));
    }
    Ok(class.frame)
}

/// The base frame of an extends clause.
#[cycle(names)]
pub fn base_found<'t>(
    alloc: Global,
    s: &mut Scopes<'t>,
    ask: &Ask,
    frame: FrameId,
    clause: &NumberedClause<'t>,
) -> Result<FrameId, Stop>
    requires frame { IsFrame s.old frame.0 }
    requires clause { StandsAt (row_of_frame s.old frame.0) clause.now.at (Base_of (clause_seen clause.now.clause)) }
    ensures grows { Grows s.old s.new }
    ensures value { Gives (λ base. frame_at s.new base.0) result (base_at (table_in s.old) (asks (table_in s.old) ask.now) (frame_at s.old frame.0) (row_of_frame s.old frame.0) (clause_seen clause.now.clause)) }
    ensures stand { IfOk result (λ base. IsFrame s.new base.0) }
{
    if s.row(s.class_of(frame)).is_none() {
        return Ok(frame);
    }
    let class = base_class(alloc, s, ask, frame, &clause.clause)?;
    Ok(base_entered(alloc, s, frame, clause, class)?)
}

/// The elements of the base of an extends clause, with that base.
#[cycle(names)]
fn base_elements<'t>(
    alloc: Global,
    s: &mut Scopes<'t>,
    ask: &Ask,
    frame: FrameId,
    clause: &NumberedClause<'t>,
) -> Result<(FrameId, Walk<'t>), Stop>
    requires frame { IsFrame s.old frame.0 }
    requires clause { StandsAt (row_of_frame s.old frame.0) clause.now.at (Base_of (clause_seen clause.now.clause)) }
    ensures grows { Grows s.old s.new }
    ensures value { Gives (λ base. (frame_at s.new base.0.0, walk_at s.new base.1)) result (base_with_elements (table_in s.old) (asks (table_in s.old) ask.now) (frame_at s.old frame.0) (row_of_frame s.old frame.0) (clause_seen clause.now.clause)) }
    ensures stand { IfOk result (λ base. IsFrame s.new base.0.0 × IsWalk s.new base.1) }
{
    let base = base_found(alloc, s, ask, frame, clause)?;
    let here = Ask {
        left: ask.left,
        busy: ask.busy,
        place: last_place(clause.clause.base.parts.as_slice()),
        depth: ask.depth,
    };
    Ok((base, walked(alloc, s, &here, base)?))
}

/// The elements of the base of an extends clause, put behind those before.
#[cycle(names)]
fn base_walked<'t>(
    alloc: Global,
    s: &mut Scopes<'t>,
    ask: &Ask,
    frame: FrameId,
    clause: &NumberedClause<'t>,
    so_far: &mut Walk<'t>,
) -> Result<(), Stop>
    requires frame { IsFrame s.old frame.0 }
    requires clause { StandsAt (row_of_frame s.old frame.0) clause.now.at (Base_of (clause_seen clause.now.clause)) }
    requires so_far { IsWalk s.old so_far.old }
    ensures grows { Grows s.old s.new }
    ensures value { Gives (λ _. walk_at s.new so_far.new) result (walked_base (table_in s.old) (asks (table_in s.old) ask.now) (frame_at s.old frame.0) (row_of_frame s.old frame.0) (clause_seen clause.now.clause) (walk_at s.old so_far.old)) }
    ensures stand { IfOk result (λ _. IsWalk s.new so_far.new) }
{
    let (base, walk) = base_elements(alloc, s, ask, frame, clause)?;
    with_base(alloc, s, clause.clause.hidden, base, walk, so_far)
}

/// One part of the class of a frame, put behind those before. The answer is how many elements of its own the class has up to
/// there.
#[cycle(names)]
fn part_walked<'t>(
    alloc: Global,
    s: &mut Scopes<'t>,
    ask: &Ask,
    frame: FrameId,
    item: u32,
    part: &NumberedPart<'t>,
    so_far: &mut Walk<'t>,
) -> Result<u32, Stop>
    requires frame { IsFrame s.old frame.0 }
    requires so_far { IsWalk s.old so_far.old }
    requires part { PartExists (number_of_classes (table_in s.old)) (part_seen part.now.part) }
    requires own { IsOwnPart (table_in s.old) (frame_at s.old frame.0) item (part_seen part.now.part) }
    requires placed { StandsAt (row_of_frame s.old frame.0) part.now.at (part_seen part.now.part) }
    ensures grows { Grows s.old s.new }
    ensures value { Gives (λ _. walk_at s.new so_far.new) result (walked_part (table_in s.old) (asks (table_in s.old) ask.now) (frame_at s.old frame.0) (row_of_frame s.old frame.0) item (part_seen part.now.part) (walk_at s.old so_far.old)) }
    ensures item { IfOk result (λ next. next ≡ next_item (part_seen part.now.part) item) }
    ensures stand { IfOk result (λ _. IsWalk s.new so_far.new) }
{
    match &part.part {
        Part::Element(declares) => {
            own_walked(alloc, s, frame, item, declares, so_far)?;
            item.checked_add(1).ok_or(Stop::NoMemory)
        }
        Part::Base(clause) => {
            let clause = NumberedClause {
                at: part.at,
                clause: *clause,
            };
            base_walked(alloc, s, ask, frame, &clause, so_far)?;
            Ok(item)
        }
    }
}

/// The parts of the class of a frame, put behind what its elements begin with.
#[cycle(names)]
fn walked_parts<'t>(
    alloc: Global,
    s: &mut Scopes<'t>,
    ask: &Ask,
    frame: FrameId,
    so_far: &mut Walk<'t>,
) -> Result<(), Stop>
    requires frame { IsFrame s.old frame.0 }
    requires so_far { IsWalk s.old so_far.old }
    ensures grows { Grows s.old s.new }
    ensures value { Gives (λ _. walk_at s.new so_far.new) result (walked_parts_from (table_in s.old) (asks (table_in s.old) ask.now) (frame_at s.old frame.0) (row_of_frame s.old frame.0) 0 (parts_of (row_of_frame s.old frame.0)) (walk_at s.old so_far.old)) }
    ensures stand { IfOk result (λ _. IsWalk s.new so_far.new) }
{
    let class = s.class_of(frame);
    let mut item = 0u32;
    for at in 0..part_count(s, class) {
        let part = part_at(s, class, at);
        item = part_walked(alloc, s, ask, frame, item, &part, so_far)?;
    }
    Ok(())
}

/// The elements of the class of a frame whose bases are being found.
#[cycle(names)]
pub(crate) fn walked_class<'t>(
    alloc: Global,
    s: &mut Scopes<'t>,
    ask: &Ask,
    frame: FrameId,
) -> Result<Walk<'t>, Stop>
    requires { IsFrame s.old frame.0 }
    ensures grows { Grows s.old s.new }
    ensures value { Gives (walk_at s.new) result (class_walked (table_in s.old) (asks (table_in s.old) ask.now) (frame_at s.old frame.0) (row_of_frame s.old frame.0)) }
    ensures stand { IfOk result (IsWalk s.new) }
{
    let mut walk = started(alloc, s, frame)?;
    let done = walked_parts(alloc, s, ask, frame, &mut walk);
    walk_checked(s, done, walk)
}
