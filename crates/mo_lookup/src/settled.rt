//! Elements of frames that are the same whichever classes are having their bases found: the names of bases are found without
//! asking for the elements of any class. Each frame is walked once, however many ways lead to it.
#![tactic(auto, using(mo_names::proofs::Later::later, crate::proofs::Settling::settling))]

ghost use Rattle.std.specs.Prelude.{◌≡◌, ◌||◌, ◌≤◌, ◌<◌, ◌+◌, [], ℕ, true, false, length, is_some, IfOk, IfSome, Ok, None, Some, slice_get};
ghost use Rattle.mo_syntax.specs.declared.place.Place.{Place as PlaceAt};
ghost use Rattle.mo_scope.specs.Frames.{class_of, sources_of};
ghost use Rattle.mo_scope.specs.Lookup.{asking_of, contains, walked_class as class_walked, with_member as joined_member, asking_at};
ghost use Rattle.mo_scope.specs.Own.{own_declared};
ghost use Rattle.mo_scope.specs.Rows.{Base_of, class_number, number_of_classes};
ghost use Rattle.mo_scope.specs.Sights.{clause_seen, declares_seen, part_seen};
ghost use Rattle.mo_scope.specs.Worlds.{Grows, IsFrame, frame_at, table_in, row_of_frame};
ghost use Rattle.mo_names.specs.steps.Bases.{IsOwnPart, PartExists, StandsAt, base_walked as walked_base, part_walked as walked_part, parts_walked as walked_parts_from};
ghost use Rattle.mo_names.specs.steps.Parts.{parts_of};
ghost use Rattle.mo_lookup.specs.steps.Settled.{AreSettled, ClassOwned, IsFurther, IsJoined, IsSettled, ToldFree, ToldOwned};
ghost use Rattle.mo_names.specs.Sights.{IsWalk, walk_at};
ghost use Rattle.mo_names.specs.steps.Twins.{BeginsElsewhere, owned_walk, unowned};
ghost use Rattle.mo_names.specs.steps.Lookup.{base_at, next_item, own_inherited, started as walk_started};

use crate::copying::elements_copied;
use crate::owning::walk_owned;
use mo_names::{
    Added, Ask, NumberedClause, NumberedPart, Walk, base_found, is_busy, is_unowned, leaf_checked,
    looked_up_class, own_named, own_walked, part_at, part_count, started, with_elements,
    without_names,
};
use mo_scope::{Clause, Declares, Part, Scopes};
use mo_syntax::{ClassId, FrameId, List, NoMemory, Place, Reference, Stop, rules, stop};
use std::alloc::Global;

/// How many classes may stand one behind another on the way to a base: past it the elements are found by a walk alone.
const MOST_BASES: usize = 100;

/// How many frames may be kept meanwhile: past it likewise.
const MOST_FRAMES: usize = 1_000;

/// The elements of a frame. They are the same whichever classes are having their bases found, as long as these are not and so
/// many may.
#[derive(Drop)]
pub(crate) struct Settled<'t> {
    pub frame: FrameId,
    pub classes: List<u32>,
    pub deep: usize,
    /// Whether frames that differ from it in path and owner alone have the same, but for their base frames' paths and owners.
    pub alike: bool,
    pub elements: Added<'t>,
}

/// A walk that is being made, with the number of own elements in it. What it has is the same as long as these classes are not
/// having their bases found and so many may.
#[derive(Drop)]
pub(crate) struct Settling<'t> {
    pub walk: Walk<'t>,
    pub item: u32,
    pub classes: List<u32>,
    pub deep: usize,
    /// Whether the same is told of frames that differ from this one in path and owner alone.
    pub alike: bool,
}

/// Not known so. No rule is broken by it.
fn unknown() -> Stop {
    stop(rules::BASE_CLASS_CYCLE, Place { file: 0, byte: 0 })
}

/// What is known of a frame.
fn settled_of<'a, 't>(
    s: &Scopes<'t>,
    known: &'a [Settled<'t>],
    frame: FrameId,
) -> Option<&'a Settled<'t>>
    requires { AreSettled s.now known.now }
    ensures same { IfSome result (λ one. one.now.frame.0 ≡ frame.0) }
    ensures is { IfSome result (λ one. IsSettled s.now one.now) }
{
    for one in known {
        if one.frame.0 == frame.0 {
            return Some(one);
        }
    }
    None
}

/// Puts classes behind others, but for those that stand there.
#[tactic(auto, using(crate::proofs::Settling::unions))]
fn add_classes(classes: &mut List<u32>, more: &[u32]) -> Result<(), NoMemory>
    ensures { IfOk result (λ _. (class : ℕ) → contains classes.new class ≡ (contains classes.old class || contains more.now class)) }
{
    for class in more {
        if !is_busy(classes.as_slice(), ClassId(*class)) {
            classes.push(*class)?;
        }
    }
    Ok(())
}

fn are_both(a: bool, b: bool) -> bool
    ensures first { result ≡ true → a ≡ true }
    ensures second { result ≡ true → b ≡ true }
{
    if a { b } else { false }
}

fn greater(a: usize, b: usize) -> usize
    ensures first { a ≤ result }
    ensures second { b ≤ result }
{
    if a < b { b } else { a }
}

/// The elements of a base by what is known of it, put behind those before.
#[tactic(auto, using(crate::proofs::Settling::joining))]
fn settled_joined<'t>(
    alloc: Global,
    s: &Scopes<'t>,
    hidden: bool,
    base: FrameId,
    one: &Settled<'t>,
    so_far: &mut Settling<'t>,
) -> Result<(), Stop>
    requires same { one.now.frame.0 ≡ base.0 }
    requires one { IsSettled s.now one.now }
    requires so_far { IsWalk s.now so_far.old.walk }
    ensures joined { IfOk result (λ _. IsJoined s.now hidden (frame_at s.now base.0) so_far.old so_far.new) }
    ensures further { IfOk result (λ _. IsFurther so_far.old so_far.new) }
    ensures item { IfOk result (λ _. so_far.new.item ≡ so_far.old.item) }
    ensures stand { IfOk result (λ _. IsWalk s.now so_far.new.walk) }
{
    let elements = elements_copied(alloc, &one.elements)?;
    with_elements(alloc, s, hidden, base, elements, &mut so_far.walk)?;
    add_classes(&mut so_far.classes, one.classes.as_slice())?;
    so_far.deep = greater(so_far.deep, one.deep);
    so_far.alike = are_both(so_far.alike, one.alike);
    Ok(())
}

/// The elements of a base, if they are known, put behind those before.
fn base_joined<'t>(
    alloc: Global,
    s: &Scopes<'t>,
    hidden: bool,
    base: FrameId,
    known: &[Settled<'t>],
    so_far: &mut Settling<'t>,
) -> Result<(), Stop>
    requires known { AreSettled s.now known.now }
    requires so_far { IsWalk s.now so_far.old.walk }
    ensures joined { IfOk result (λ _. IsJoined s.now hidden (frame_at s.now base.0) so_far.old so_far.new) }
    ensures further { IfOk result (λ _. IsFurther so_far.old so_far.new) }
    ensures item { IfOk result (λ _. so_far.new.item ≡ so_far.old.item) }
    ensures stand { IfOk result (λ _. IsWalk s.now so_far.new.walk) }
{
    match settled_of(s, known, base) {
        Some(one) => settled_joined(alloc, s, hidden, base, one, so_far),
        None => Err(unknown()),
    }
}

/// The base frame of an extends clause, where its name is found without asking for the elements of any class.
fn base_named<'t>(
    alloc: Global,
    s: &mut Scopes<'t>,
    frame: FrameId,
    clause: &NumberedClause<'t>,
) -> Result<FrameId, Stop>
    requires frame { IsFrame s.old frame.0 }
    requires clause { StandsAt (row_of_frame s.old frame.0) clause.now.at (Base_of (clause_seen clause.now.clause)) }
    ensures grows { Grows s.old s.new }
    ensures value { IfOk result (λ base. base_at (table_in s.old) (asking_at (table_in s.old) 0 []) (frame_at s.old frame.0) (row_of_frame s.old frame.0) (clause_seen clause.now.clause) ≡ Ok (frame_at s.new base.0)) }
    ensures stand { IfOk result (λ base. IsFrame s.new base.0) }
{
    let ask = Ask {
        left: 0,
        busy: &[],
        place: Place { file: 0, byte: 0 },
        depth: s.depth(),
    };
    base_found(alloc, s, &ask, frame, clause)
}

/// Whether the name begins elsewhere than among the own elements of a frame.
fn begins_elsewhere(s: &Scopes, frame: FrameId, name: &Reference) -> bool
    requires { IsFrame s.now frame.0 }
    ensures { result ≡ true → BeginsElsewhere (table_in s.now) (frame_at s.now frame.0) name.now.top name.now.parts }
{
    if name.top {
        return true;
    }
    match name.parts.get(0) {
        Some(part) => own_named(s, frame, &part.name).is_none(),
        None => true,
    }
}

/// Whether the base of a frame is that of each frame like it, but for its path and owner: nothing is added to its sources, and
/// its name begins elsewhere.
fn is_base_alike(s: &Scopes, frame: FrameId, clause: &Clause, base: FrameId) -> bool
    requires frame { IsFrame s.now frame.0 }
    requires base { IsFrame s.now base.0 }
    ensures row { result ≡ true → is_some (row_of_frame s.now frame.0) ≡ true }
    ensures unowned { result ≡ true → unowned (frame_at s.now base.0) ≡ frame_at s.now base.0 }
    ensures sources { result ≡ true → length (sources_of (frame_at s.now base.0)) ≡ length (sources_of (frame_at s.now frame.0)) }
    ensures elsewhere { result ≡ true → BeginsElsewhere (table_in s.now) (frame_at s.now frame.0) (clause_seen clause.now).base.top (clause_seen clause.now).base.parts }
{
    if s.row(s.class_of(frame)).is_none() {
        return false;
    }
    if !is_unowned(s, base) {
        return false;
    }
    if s.sources(base).len() != s.sources(frame).len() {
        return false;
    }
    begins_elsewhere(s, frame, clause.base)
}

/// The elements of the base of an extends clause, put behind those before.
#[cycle(settled)]
fn base_settled<'t>(
    alloc: Global,
    s: &mut Scopes<'t>,
    left: usize,
    frame: FrameId,
    clause: &NumberedClause<'t>,
    known: &mut List<Settled<'t>>,
    so_far: &mut Settling<'t>,
) -> Result<(), Stop>
    requires frame { IsFrame s.old frame.0 }
    requires clause { StandsAt (row_of_frame s.old frame.0) clause.now.at (Base_of (clause_seen clause.now.clause)) }
    requires known { AreSettled s.old known.old }
    requires so_far { IsWalk s.old so_far.old.walk }
    ensures grows { Grows s.old s.new }
    ensures known { IfOk result (λ _. AreSettled s.new known.new) }
    ensures told { IfOk result (λ _. ToldFree (table_in s.old) so_far.new.classes so_far.new.deep (λ asking. walked_base (table_in s.old) asking (frame_at s.old frame.0) (row_of_frame s.old frame.0) (clause_seen clause.now.clause) (walk_at s.old so_far.old.walk)) (walk_at s.new so_far.new.walk)) }
    ensures owned { IfOk result (λ _. so_far.new.alike ≡ true → ToldOwned (table_in s.old) so_far.new.classes so_far.new.deep (frame_at s.old frame.0) (λ asking owned walk. walked_base (table_in s.old) asking owned (row_of_frame s.old frame.0) (clause_seen clause.now.clause) walk) (walk_at s.old so_far.old.walk) (walk_at s.new so_far.new.walk)) }
    ensures further { IfOk result (λ _. IsFurther so_far.old so_far.new) }
    ensures item { IfOk result (λ _. so_far.new.item ≡ so_far.old.item) }
    ensures stand { IfOk result (λ _. IsWalk s.new so_far.new.walk) }
{
    let base = base_named(alloc, s, frame, clause)?;
    settle(alloc, s, left, base, known)?;
    base_joined(
        alloc,
        s,
        clause.clause.hidden,
        base,
        known.as_slice(),
        so_far,
    )?;
    let alike = is_base_alike(s, frame, &clause.clause, base);
    so_far.alike = are_both(so_far.alike, alike);
    Ok(())
}

/// One more own element, put behind those before.
fn own_settled<'t>(
    alloc: Global,
    s: &Scopes<'t>,
    frame: FrameId,
    declares: &Declares<'t>,
    so_far: &mut Settling<'t>,
) -> Result<(), Stop>
    requires frame { IsFrame s.now frame.0 }
    requires class { class_number (declares_seen declares.now) < number_of_classes (table_in s.now) }
    requires own { slice_get (own_declared (table_in s.now) (frame_at s.now frame.0)) so_far.old.item ≡ Some (declares_seen declares.now) }
    requires so_far { IsWalk s.now so_far.old.walk }
    ensures joined { IfOk result (λ _. joined_member (own_inherited (frame_at s.now frame.0) so_far.old.item (declares_seen declares.now)) (walk_at s.now so_far.old.walk) ≡ Ok (walk_at s.now so_far.new.walk)) }
    ensures further { IfOk result (λ _. IsFurther so_far.old so_far.new) }
    ensures item { IfOk result (λ _. so_far.new.item ≡ so_far.old.item + 1) }
    ensures stand { IfOk result (λ _. IsWalk s.now so_far.new.walk) }
{
    own_walked(alloc, s, frame, so_far.item, declares, &mut so_far.walk)?;
    so_far.item = so_far.item.checked_add(1).ok_or(Stop::NoMemory)?;
    Ok(())
}

/// One part of the class of a frame, put behind those before.
#[cycle(settled)]
fn part_settled<'t>(
    alloc: Global,
    s: &mut Scopes<'t>,
    left: usize,
    frame: FrameId,
    part: &NumberedPart<'t>,
    known: &mut List<Settled<'t>>,
    so_far: &mut Settling<'t>,
) -> Result<(), Stop>
    requires frame { IsFrame s.old frame.0 }
    requires known { AreSettled s.old known.old }
    requires so_far { IsWalk s.old so_far.old.walk }
    requires part { PartExists (number_of_classes (table_in s.old)) (part_seen part.now.part) }
    requires own { IsOwnPart (table_in s.old) (frame_at s.old frame.0) so_far.old.item (part_seen part.now.part) }
    requires placed { StandsAt (row_of_frame s.old frame.0) part.now.at (part_seen part.now.part) }
    ensures grows { Grows s.old s.new }
    ensures known { IfOk result (λ _. AreSettled s.new known.new) }
    ensures told { IfOk result (λ _. ToldFree (table_in s.old) so_far.new.classes so_far.new.deep (λ asking. walked_part (table_in s.old) asking (frame_at s.old frame.0) (row_of_frame s.old frame.0) so_far.old.item (part_seen part.now.part) (walk_at s.old so_far.old.walk)) (walk_at s.new so_far.new.walk)) }
    ensures owned { IfOk result (λ _. so_far.new.alike ≡ true → ToldOwned (table_in s.old) so_far.new.classes so_far.new.deep (frame_at s.old frame.0) (λ asking owned walk. walked_part (table_in s.old) asking owned (row_of_frame s.old frame.0) so_far.old.item (part_seen part.now.part) walk) (walk_at s.old so_far.old.walk) (walk_at s.new so_far.new.walk)) }
    ensures further { IfOk result (λ _. IsFurther so_far.old so_far.new) }
    ensures item { IfOk result (λ _. so_far.new.item ≡ next_item (part_seen part.now.part) so_far.old.item) }
    ensures stand { IfOk result (λ _. IsWalk s.new so_far.new.walk) }
{
    match &part.part {
        Part::Element(declares) => {
            own_settled(alloc, s, frame, declares, so_far)?;
            Ok(())
        }
        Part::Base(clause) => {
            let clause = NumberedClause {
                at: part.at,
                clause: *clause,
            };
            base_settled(alloc, s, left, frame, &clause, known, so_far)?;
            Ok(())
        }
    }
}

/// The parts of the class of a frame, put behind what its elements begin with.
#[cycle(settled)]
fn parts_settled<'t>(
    alloc: Global,
    s: &mut Scopes<'t>,
    left: usize,
    frame: FrameId,
    known: &mut List<Settled<'t>>,
    so_far: &mut Settling<'t>,
) -> Result<(), Stop>
    requires frame { IsFrame s.old frame.0 }
    requires known { AreSettled s.old known.old }
    requires so_far { IsWalk s.old so_far.old.walk }
    requires none { so_far.old.item ≡ 0 }
    ensures grows { Grows s.old s.new }
    ensures known { IfOk result (λ _. AreSettled s.new known.new) }
    ensures told { IfOk result (λ _. ToldFree (table_in s.old) so_far.new.classes so_far.new.deep (λ asking. walked_parts_from (table_in s.old) asking (frame_at s.old frame.0) (row_of_frame s.old frame.0) 0 (parts_of (row_of_frame s.old frame.0)) (walk_at s.old so_far.old.walk)) (walk_at s.new so_far.new.walk)) }
    ensures owned { IfOk result (λ _. so_far.new.alike ≡ true → ToldOwned (table_in s.old) so_far.new.classes so_far.new.deep (frame_at s.old frame.0) (λ asking owned walk. walked_parts_from (table_in s.old) asking owned (row_of_frame s.old frame.0) 0 (parts_of (row_of_frame s.old frame.0)) walk) (walk_at s.old so_far.old.walk) (walk_at s.new so_far.new.walk)) }
    ensures alike { IfOk result (λ _. so_far.new.alike ≡ true → so_far.old.alike ≡ true) }
    ensures stand { IfOk result (λ _. IsWalk s.new so_far.new.walk) }
{
    let class = s.class_of(frame);
    for at in 0..part_count(s, class) {
        let part = part_at(s, class, at);
        part_settled(alloc, s, left, frame, &part, known, so_far)?;
    }
    Ok(())
}

/// What the elements of a frame begin with.
fn begun<'t>(alloc: Global, s: &Scopes<'t>, frame: FrameId) -> Result<Settling<'t>, Stop>
    requires { IsFrame s.now frame.0 }
    ensures value { IfOk result (λ made. walk_started (frame_at s.now frame.0) (row_of_frame s.now frame.0) ≡ Ok (walk_at s.now made.walk)) }
    ensures none { IfOk result (λ made. made.item ≡ 0) }
    ensures leaf { IfOk result (λ made. made.alike ≡ true → (walk_at s.now made.walk).leaf ≡ None) }
    ensures stand { IfOk result (λ made. IsWalk s.now made.walk) }
{
    let walk = started(alloc, s, frame)?;
    let alike = walk.leaf.is_none();
    Ok(Settling {
        walk,
        item: 0,
        classes: List::new(alloc),
        deep: 0,
        alike,
    })
}

/// The elements of the class of a frame whose bases are being found.
#[cycle(settled)]
fn class_settled<'t>(
    alloc: Global,
    s: &mut Scopes<'t>,
    left: usize,
    frame: FrameId,
    known: &mut List<Settled<'t>>,
) -> Result<Settling<'t>, Stop>
    requires frame { IsFrame s.old frame.0 }
    requires known { AreSettled s.old known.old }
    ensures grows { Grows s.old s.new }
    ensures known { IfOk result (λ _. AreSettled s.new known.new) }
    ensures told { IfOk result (λ made. ToldFree (table_in s.old) made.classes made.deep (λ asking. class_walked (table_in s.old) asking (frame_at s.old frame.0) (row_of_frame s.old frame.0)) (walk_at s.new made.walk)) }
    ensures owned { IfOk result (λ made. made.alike ≡ true → ClassOwned (table_in s.old) made.classes made.deep (frame_at s.old frame.0) (walk_at s.new made.walk)) }
    ensures stand { IfOk result (λ made. IsWalk s.new made.walk) }
{
    let mut made = begun(alloc, s, frame)?;
    parts_settled(alloc, s, left, frame, known, &mut made)?;
    leaf_checked(s, &made.walk)?;
    Ok(made)
}

/// Keeps what was found for a frame, if its class does not depend on itself.
fn put_settled<'t>(
    s: &Scopes<'t>,
    frame: FrameId,
    made: Settling<'t>,
    known: &mut List<Settled<'t>>,
) -> Result<(), Stop>
    requires frame { IsFrame s.now frame.0 }
    requires made { IsWalk s.now made.walk }
    requires told { ToldFree (table_in s.now) made.classes made.deep (λ asking. class_walked (table_in s.now) asking (frame_at s.now frame.0) (row_of_frame s.now frame.0)) (walk_at s.now made.walk) }
    requires owned { made.alike ≡ true → ClassOwned (table_in s.now) made.classes made.deep (frame_at s.now frame.0) (walk_at s.now made.walk) }
    requires known { AreSettled s.now known.old }
    ensures { IfOk result (λ _. AreSettled s.now known.new) }
{
    let Settling {
        walk,
        item: _,
        mut classes,
        deep,
        alike,
    } = made;
    let class = s.class_of(frame);
    if is_busy(classes.as_slice(), class) {
        return Err(unknown());
    }
    let deeper = deep.checked_add(1).ok_or(Stop::NoMemory)?;
    classes.push(class.0)?;
    known.push(Settled {
        frame,
        classes,
        deep: deeper,
        alike,
        elements: without_names(walk),
    })?;
    Ok(())
}

/// Finds the elements of a frame, if they are not known.
#[cycle(settled)]
fn settle<'t>(
    alloc: Global,
    s: &mut Scopes<'t>,
    left: usize,
    frame: FrameId,
    known: &mut List<Settled<'t>>,
) -> Result<(), Stop>
    requires frame { IsFrame s.old frame.0 }
    requires known { AreSettled s.old known.old }
    ensures grows { Grows s.old s.new }
    ensures known { IfOk result (λ _. AreSettled s.new known.new) }
{
    if left == 0 {
        return Err(unknown());
    }
    if known.len() >= MOST_FRAMES {
        return Err(unknown());
    }
    if settled_of(s, known.as_slice(), frame).is_some() {
        return Ok(());
    }
    let made = class_settled(alloc, s, left - 1, frame, known)?;
    put_settled(s, frame, made, known)
}

/// The walk, if it is that of the frame where no class is having its bases found.
fn walk_if_free<'t>(s: &Scopes<'t>, frame: FrameId, made: Settling<'t>) -> Option<Walk<'t>>
    requires frame { IsFrame s.now frame.0 }
    requires told { ToldFree (table_in s.now) made.classes made.deep (λ asking. class_walked (table_in s.now) asking (frame_at s.now frame.0) (row_of_frame s.now frame.0)) (walk_at s.now made.walk) }
    requires stand { IsWalk s.now made.walk }
    ensures is { IfSome result (λ walk. (place : PlaceAt) → (asking_of (table_in s.now)).elements place (frame_at s.now frame.0) ≡ Ok (walk_at s.now walk)) }
    ensures stand { IfSome result (IsWalk s.now) }
{
    if is_busy(made.classes.as_slice(), s.class_of(frame)) {
        return None;
    }
    if made.deep > s.class_count() {
        return None;
    }
    Some(made.walk)
}

/// The elements of a frame without path and owner where no class is having its bases found, each frame on the way walked once;
/// None where they may depend on that.
#[tactic(auto, using(mo_names::proofs::Later::later, crate::proofs::Settling::freely))]
fn settled_walk<'t>(
    alloc: Global,
    s: &mut Scopes<'t>,
    frame: FrameId,
) -> Result<Option<Walk<'t>>, NoMemory>
    requires { IsFrame s.old frame.0 }
    ensures grows { Grows s.old s.new }
    ensures is { IfOk result (λ walk. IfSome walk (λ walk. (place : PlaceAt) → (asking_of (table_in s.old)).elements place (frame_at s.old frame.0) ≡ Ok (walk_at s.new walk))) }
    ensures stand { IfOk result (λ walk. IfSome walk (IsWalk s.new)) }
{
    let mut known = List::new(alloc);
    match class_settled(alloc, s, MOST_BASES, frame, &mut known) {
        Ok(made) => Ok(walk_if_free(s, frame, made)),
        Err(Stop::NoMemory) => Err(NoMemory),
        Err(Stop::Broken(_)) => Ok(None),
    }
}

/// Whether what was gathered of the class of a frame is so where no class is having its bases found.
fn is_so_freely(s: &Scopes, frame: FrameId, made: &Settling) -> bool
    requires { IsFrame s.now frame.0 }
    ensures alike { result ≡ true → made.now.alike ≡ true }
    ensures other { result ≡ true → contains made.now.classes (class_of (frame_at s.now frame.0)) ≡ false }
    ensures less { result ≡ true → 6 + made.now.deep ≤ number_of_classes (table_in s.now) }
{
    if !made.alike {
        return false;
    }
    if is_busy(made.classes.as_slice(), s.class_of(frame)) {
        return false;
    }
    made.deep <= s.class_count()
}

/// The walk as that of a frame, if it is so where no class is having its bases found.
#[tactic(auto, using(mo_names::proofs::Later::later, crate::proofs::Settling::freely))]
fn owned_if_free<'t>(
    alloc: Global,
    s: &mut Scopes<'t>,
    frame: FrameId,
    made: Settling<'t>,
) -> Result<Option<Walk<'t>>, NoMemory>
    requires frame { IsFrame s.old frame.0 }
    requires told { made.alike ≡ true → ToldFree (table_in s.old) made.classes made.deep (λ asking. class_walked (table_in s.old) asking (frame_at s.old frame.0) (row_of_frame s.old frame.0)) (owned_walk (frame_at s.old frame.0) (walk_at s.old made.walk)) }
    requires stand { IsWalk s.old made.walk }
    ensures grows { Grows s.old s.new }
    ensures is { IfOk result (λ walk. IfSome walk (λ walk. (place : PlaceAt) → (asking_of (table_in s.old)).elements place (frame_at s.old frame.0) ≡ Ok (walk_at s.new walk))) }
    ensures stand { IfOk result (λ walk. IfSome walk (IsWalk s.new)) }
{
    if !is_so_freely(s, frame, &made) {
        return Ok(None);
    }
    match walk_owned(alloc, s, frame, made.walk) {
        Ok(walk) => Ok(Some(walk)),
        Err(Stop::NoMemory) => Err(NoMemory),
        Err(Stop::Broken(_)) => Ok(None),
    }
}

/// The elements of a frame without sources where no class is having its bases found, by those of the frame that differs from it
/// in path and owner alone; None where they may differ in more.
#[tactic(auto, using(mo_names::proofs::Later::later, crate::proofs::Settling::freely))]
fn owned_settled<'t>(
    alloc: Global,
    s: &mut Scopes<'t>,
    frame: FrameId,
) -> Result<Option<Walk<'t>>, NoMemory>
    requires { IsFrame s.old frame.0 }
    ensures grows { Grows s.old s.new }
    ensures is { IfOk result (λ walk. IfSome walk (λ walk. (place : PlaceAt) → (asking_of (table_in s.old)).elements place (frame_at s.old frame.0) ≡ Ok (walk_at s.new walk))) }
    ensures stand { IfOk result (λ walk. IfSome walk (IsWalk s.new)) }
{
    if !s.sources(frame).is_empty() {
        return Ok(None);
    }
    let class = s.class_of(frame);
    let outer = s.outer(frame);
    let twin = looked_up_class(alloc, s, class, outer)?;
    let mut known = List::new(alloc);
    match class_settled(alloc, s, MOST_BASES, twin, &mut known) {
        Ok(made) => owned_if_free(alloc, s, frame, made),
        Err(Stop::NoMemory) => Err(NoMemory),
        Err(Stop::Broken(_)) => Ok(None),
    }
}

/// The elements of a frame where no class is having its bases found, each frame on the way walked once; None where that cannot
/// be told.
#[tactic(auto, using(mo_names::proofs::Later::later, crate::proofs::Settling::freely))]
pub(crate) fn walked_once<'t>(
    alloc: Global,
    s: &mut Scopes<'t>,
    frame: FrameId,
) -> Result<Option<Walk<'t>>, NoMemory>
    requires { IsFrame s.old frame.0 }
    ensures grows { Grows s.old s.new }
    ensures is { IfOk result (λ walk. IfSome walk (λ walk. (place : PlaceAt) → (asking_of (table_in s.old)).elements place (frame_at s.old frame.0) ≡ Ok (walk_at s.new walk))) }
    ensures stand { IfOk result (λ walk. IfSome walk (IsWalk s.new)) }
{
    if is_unowned(s, frame) {
        settled_walk(alloc, s, frame)
    } else {
        owned_settled(alloc, s, frame)
    }
}
