//! The frames whose sections instances have, and what the sections of their classes give.
#![tactic(auto, using(crate::proofs::Staying::staying))]

ghost use Rattle.std.specs.Prelude.{◌≡◌, ◌++◌, [], List as Seq, flat_map, option_copied, option_map, Ok, Err, IfOk, OnOk};
ghost use Rattle.mo_syntax.specs.Outcome.{IfBroken};
ghost use Rattle.mo_syntax.specs.declared.meaning.FrameId.{FrameId as FrameNumber};
ghost use Rattle.mo_scope.specs.Places.{Every};
ghost use Rattle.mo_scope.specs.Frames.{class_of};
ghost use Rattle.mo_scope.specs.Trees.{IsInstance, instances_in};
ghost use Rattle.mo_scope.specs.Worlds.{Grows, IsFrame, frame_at, frames_of, table_in, row_of_frame};
ghost use Rattle.mo_equations.specs.Expansion.{Parts as PartsOf, made_placed, sections_at};
ghost use Rattle.mo_equations.specs.Sections.{frames_of as frames_with_sections};
ghost use Rattle.mo_equations.specs.Gathering.{Made as Gathered, turn_each};
ghost use Rattle.mo_equations.specs.steps.Desks.{Goes, IsDesk};
ghost use Rattle.mo_equations.specs.steps.Standing.{tree_in};
ghost use Rattle.mo_equations.specs.steps.Makings.{IsMade};
ghost use Rattle.mo_equations.specs.steps.Placing.{AreFrames, AreParts, GivesParts, PutsParts, frames_of_instances, frames_seen, item_placed, last_frames, part_of_section, placed_in_class, section_placed, sections_with};

use crate::desk::Desk;
use crate::forms::{Site, made_section};
use crate::made::Made;
use mo_lookup::walk_of;
use mo_scope::{Instance, ScopeAt, Scopes};
use mo_syntax::{Body, ClassDef, Equation, FrameId, Item, List, NoMemory, Stop, rules, stop};
use std::alloc::Global;

/// What comes of initial sections, and of the others with all connects.
#[derive(Drop)]
pub(crate) struct Parts {
    pub initial: Made,
    pub usual: Made,
}

/// A class whose sections an instance has, with the frame that it is entered as.
#[derive(Clone, Copy)]
pub(crate) struct Placed<'c> {
    pub frame: FrameId,
    pub class: &'c ClassDef,
}

impl Parts {
    /// Nothing.
    pub fn new(alloc: Global) -> Parts
        ensures { AreParts result [] }
    {
        Parts {
            initial: Made::new(alloc),
            usual: Made::new(alloc),
        }
    }

    /// Puts what comes of a section at the end: of an initial one apart, but for its connects.
    fn append(&mut self, alloc: Global, initial: bool, made: Made) -> Result<(), NoMemory>
        ensures { OnOk result ((parts : Seq PartsOf) (one : Gathered) → AreParts self.old parts → IsMade made one → AreParts self.new (parts ++ part_of_section initial one)) }
    {
        if !initial {
            return self.usual.append(alloc, made);
        }
        let Made {
            count,
            nodes,
            equations,
            asserts,
            connects,
        } = made;
        self.usual.connects.append(connects)?;
        let apart = Made {
            count,
            nodes,
            equations,
            asserts,
            connects: List::new(alloc),
        };
        self.initial.append(alloc, apart)
    }
}

/// Puts the last frame on the way to each base at the end.
fn put_bases(bases: &[List<FrameId>], frames: &mut List<FrameId>) -> Result<(), NoMemory>
    ensures { OnOk result (frames.new ≡ frames.old ++ last_frames bases.now) }
{
    for through in bases {
        match through.get(0) {
            Some(frame) => frames.push(*frame)?,
            None => return Err(NoMemory),
        }
    }
    Ok(())
}

/// Puts the frames whose sections an instance has at the end: its bases, each behind its own bases, then its class.
fn put_frames<'t>(
    alloc: Global,
    s: &mut Scopes<'t>,
    frame: FrameId,
    frames: &mut List<FrameId>,
) -> Result<(), Stop>
    requires frame { IsFrame s.old frame.0 }
    requires before { AreFrames s.old frames.old }
    ensures grows { Grows s.old s.new }
    ensures exist { OnOk result (AreFrames s.new frames.new) }
    ensures refused { IfBroken result (λ broken. frames_with_sections (table_in s.old) (frame_at s.old frame.0) ≡ Err broken) }
    ensures exact { OnOk result ((more : Seq FrameNumber) × (frames.new ≡ frames.old ++ more) × (frames_with_sections (table_in s.old) (frame_at s.old frame.0) ≡ Ok (frames_seen (frames_of s.new) more))) }
{
    let walk = walk_of(alloc, s, frame)?;
    put_bases(walk.sections.as_slice(), frames)?;
    Ok(frames.push(frame)?)
}

/// The frames whose sections all instances have.
pub(crate) fn frames_of_all<'t>(
    alloc: Global,
    s: &mut Scopes<'t>,
    instances: &[Instance<'t>],
) -> Result<List<FrameId>, Stop>
    requires { Every (IsInstance s.old) instances.now }
    ensures grows { Grows s.old s.new }
    ensures exist { IfOk result (AreFrames s.new) }
    ensures refused { IfBroken result (λ broken. frames_of_instances (table_in s.old) (instances_in s.old instances.now) ≡ Err broken) }
    ensures exact { IfOk result (λ frames. frames_of_instances (table_in s.old) (instances_in s.old instances.now) ≡ Ok (frames_seen (frames_of s.new) frames)) }
{
    let mut frames = List::new(alloc);
    for instance in instances {
        put_frames(alloc, s, instance.frame, &mut frames)?;
    }
    Ok(frames)
}

/// The class of a frame, None where it is a predefined type.
fn class_at<'t>(s: &Scopes<'t>, frame: FrameId) -> Option<&'t ClassDef>
    requires { IsFrame s.now frame.0 }
    ensures { option_copied result ≡ option_map (λ row. row.class) (row_of_frame s.now frame.0) }
{
    match s.row(s.class_of(frame)) {
        Some(row) => Some(row.class),
        None => None,
    }
}

/// Puts what comes of a section of equations at the end.
fn put_equations<'i, 't>(
    alloc: Global,
    s: &mut Scopes<'t>,
    desk: &mut Desk<'i, 't>,
    placed: &Placed,
    initial: bool,
    equations: &[Equation],
    parts: &mut Parts,
) -> Result<(), Stop>
    requires frame { IsFrame s.old placed.now.frame.0 }
    requires desk { IsDesk s.old desk.old }
    ensures goes { Goes s.old s.new desk.old desk.new }
    ensures exact { PutsParts result parts.old parts.new desk.new (turn_each (made_placed (tree_in s.old desk.old.leaves)) (section_placed (frames_of s.old) placed.now initial equations.now) desk.old.turns) }
{
    let at = ScopeAt {
        frame: placed.frame,
        iters: List::new(alloc),
    };
    let site = Site {
        at: &at,
        undecided: false,
    };
    let made = made_section(alloc, s, desk, &site, equations)?;
    Ok(parts.append(alloc, initial, made)?)
}

/// Puts what comes of the item of a class at the end. A section that is left out breaks rule 34 at the name of the class.
fn put_item<'i, 't>(
    alloc: Global,
    s: &mut Scopes<'t>,
    desk: &mut Desk<'i, 't>,
    placed: &Placed,
    item: &Item,
    parts: &mut Parts,
) -> Result<(), Stop>
    requires frame { IsFrame s.old placed.now.frame.0 }
    requires desk { IsDesk s.old desk.old }
    ensures goes { Goes s.old s.new desk.old desk.new }
    ensures exact { PutsParts result parts.old parts.new desk.new (turn_each (made_placed (tree_in s.old desk.old.leaves)) (item_placed (frames_of s.old) placed.now item.now) desk.old.turns) }
{
    match item {
        Item::Equations(initial, equations) => {
            let equations = equations.as_slice();
            put_equations(alloc, s, desk, placed, *initial, equations, parts)
        }
        Item::Algorithm(_, _) => Err(stop(rules::OUTSIDE_PROFILE, placed.class.place)),
        Item::Import(_) | Item::Extends(_) | Item::Member(_) => Ok(()),
    }
}

/// Puts what comes of the items of a class at the end.
fn put_items<'i, 't>(
    alloc: Global,
    s: &mut Scopes<'t>,
    desk: &mut Desk<'i, 't>,
    placed: &Placed,
    items: &[Item],
    parts: &mut Parts,
) -> Result<(), Stop>
    requires frame { IsFrame s.old placed.now.frame.0 }
    requires desk { IsDesk s.old desk.old }
    ensures goes { Goes s.old s.new desk.old desk.new }
    ensures exact { PutsParts result parts.old parts.new desk.new (turn_each (made_placed (tree_in s.old desk.old.leaves)) (flat_map (item_placed (frames_of s.old) placed.now) items.now) desk.old.turns) }
{
    for item in items {
        put_item(alloc, s, desk, placed, item, parts)?;
    }
    Ok(())
}

/// Puts what comes of the sections of a class at the end, an external clause behind them.
fn put_class<'i, 't>(
    alloc: Global,
    s: &mut Scopes<'t>,
    desk: &mut Desk<'i, 't>,
    placed: &Placed,
    parts: &mut Parts,
) -> Result<(), Stop>
    requires frame { IsFrame s.old placed.now.frame.0 }
    requires desk { IsDesk s.old desk.old }
    ensures goes { Goes s.old s.new desk.old desk.new }
    ensures exact { PutsParts result parts.old parts.new desk.new (turn_each (made_placed (tree_in s.old desk.old.leaves)) (placed_in_class (frames_of s.old) placed.now) desk.old.turns) }
{
    match &placed.class.body {
        Body::Long {
            extending: _,
            items,
            external,
        } => {
            put_items(alloc, s, desk, placed, items.as_slice(), parts)?;
            if *external {
                return Err(stop(rules::OUTSIDE_PROFILE, placed.class.place));
            }
            Ok(())
        }
        Body::Short {
            causal: _,
            base: _,
            subs: _,
            mods: _,
        } => Ok(()),
        Body::Enumeration(_) => Ok(()),
        Body::Der(_, _) => Ok(()),
    }
}

/// Puts what comes of the sections of the class of a frame at the end.
fn put_frame<'i, 't>(
    alloc: Global,
    s: &mut Scopes<'t>,
    desk: &mut Desk<'i, 't>,
    frame: FrameId,
    parts: &mut Parts,
) -> Result<(), Stop>
    requires frame { IsFrame s.old frame.0 }
    requires desk { IsDesk s.old desk.old }
    ensures goes { Goes s.old s.new desk.old desk.new }
    ensures exact { PutsParts result parts.old parts.new desk.new (turn_each (made_placed (tree_in s.old desk.old.leaves)) (sections_with s.old frame) desk.old.turns) }
{
    match class_at(s, frame) {
        Some(class) => {
            let placed = Placed { frame, class };
            put_class(alloc, s, desk, &placed, parts)
        }
        None => Ok(()),
    }
}

/// What comes of all sections of these frames.
pub(crate) fn all_sections<'i, 't>(
    alloc: Global,
    s: &mut Scopes<'t>,
    desk: &mut Desk<'i, 't>,
    frames: &[FrameId],
) -> Result<Parts, Stop>
    requires frames { AreFrames s.old frames.now }
    requires desk { IsDesk s.old desk.old }
    ensures goes { Goes s.old s.new desk.old desk.new }
    ensures exact { GivesParts result desk.new (turn_each (made_placed (tree_in s.old desk.old.leaves)) (flat_map (sections_at (table_in s.old)) (frames_seen (frames_of s.old) frames.now)) desk.old.turns) }
{
    let mut parts = Parts::new(alloc);
    for frame in frames {
        put_frame(alloc, s, desk, *frame, &mut parts)?;
    }
    Ok(parts)
}
