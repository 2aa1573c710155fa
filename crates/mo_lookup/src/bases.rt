//! The bases of the class of a frame.
#![tactic(auto, using(mo_names::proofs::Later::later))]

ghost use Rattle.std.specs.Prelude.{◌≡◌, ◌<◌, ◌∷◌, [], Ok, Some, length, map, option_map, slice_get, IfOk, IfSome};
ghost use Rattle.mo_scope.specs.Names.{base_frame_of, clauses_of, walk_of as walk_of_frame};
ghost use Rattle.mo_scope.specs.Outcome.{Gives};
ghost use Rattle.mo_scope.specs.Rows.{Clause, clauses_in};
ghost use Rattle.mo_scope.specs.Sights.{part_seen};
ghost use Rattle.mo_scope.specs.Sizes.{is_leaf as is_leaf_walk};
ghost use Rattle.mo_scope.specs.Worlds.{Grows, IsFrame, frame_at, table_in};
ghost use Rattle.mo_lookup.specs.steps.Leaves.{base_if_leaf as leaf_if_leaf};
ghost use Rattle.mo_lookup.specs.Bases.{IsLeafBase, first_base_at};

use crate::element_list::{base_of, walk_of};
use mo_scope::{Part, Scopes};
use mo_syntax::{FrameId, NoMemory, Stop};
use std::alloc::Global;

/// 1 for an extends clause, 0 for an element.
fn base_in(part: &Part) -> u32
    ensures { result ≡ length (clauses_in (part_seen part.now ∷ [])) }
{
    match part {
        Part::Element(_) => 0,
        Part::Base(_) => 1,
    }
}

/// How many of some parts are extends clauses.
fn base_count(parts: &[Part]) -> Result<u32, NoMemory>
    ensures { IfOk result (λ count. count ≡ length (clauses_in (map part_seen parts.now))) }
{
    let mut count = 0u32;
    for part in parts {
        count = count.checked_add(base_in(part)).ok_or(NoMemory)?;
    }
    Ok(count)
}

/// How many extends clauses the class of a frame has.
fn clause_count(s: &Scopes, frame: FrameId) -> Result<u32, NoMemory>
    requires { IsFrame s.now frame.0 }
    ensures { IfOk result (λ count. count ≡ length (clauses_of (table_in s.now) (frame_at s.now frame.0))) }
{
    match s.row(s.class_of(frame)) {
        Some(row) => base_count(row.parts.as_slice()),
        None => Ok(0),
    }
}

/// Whether a frame is one of a leaf type; where its elements break a rule it is none.
pub fn is_leaf<'t>(alloc: Global, s: &mut Scopes<'t>, frame: FrameId) -> Result<bool, NoMemory>
    requires { IsFrame s.old frame.0 }
    ensures grows { Grows s.old s.new }
    ensures value { IfOk result (λ is. is ≡ is_leaf_walk (walk_of_frame (table_in s.old) (frame_at s.old frame.0))) }
{
    match walk_of(alloc, s, frame) {
        Ok(walk) => Ok(walk.leaf.is_some()),
        Err(Stop::Broken(_)) => Ok(false),
        Err(Stop::NoMemory) => Err(NoMemory),
    }
}

/// The base, if it is of leaf type.
fn base_if_leaf<'t>(
    alloc: Global,
    s: &mut Scopes<'t>,
    base: FrameId,
) -> Result<Option<FrameId>, NoMemory>
    requires { IsFrame s.old base.0 }
    ensures grows { Grows s.old s.new }
    ensures value { IfOk result (λ found. option_map (λ frame. frame_at s.new frame.0) found ≡ leaf_if_leaf (table_in s.old) (Ok (frame_at s.old base.0))) }
    ensures stand { IfOk result (λ found. IfSome found (λ frame. IsFrame s.new frame.0)) }
{
    if is_leaf(alloc, s, base)? {
        Ok(Some(base))
    } else {
        Ok(None)
    }
}

/// The base of an extends clause, if it is of leaf type.
fn leaf_of_clause<'t>(
    alloc: Global,
    s: &mut Scopes<'t>,
    frame: FrameId,
    clause: u32,
) -> Result<Option<FrameId>, NoMemory>
    requires frame { IsFrame s.old frame.0 }
    requires clause { clause < length (clauses_of (table_in s.old) (frame_at s.old frame.0)) }
    ensures grows { Grows s.old s.new }
    ensures value { IfOk result (λ found. (extends : Clause) → slice_get (clauses_of (table_in s.old) (frame_at s.old frame.0)) clause ≡ Some extends → option_map (λ frame. frame_at s.new frame.0) found ≡ leaf_if_leaf (table_in s.old) (base_frame_of (table_in s.old) (frame_at s.old frame.0) extends)) }
    ensures stand { IfOk result (λ found. IfSome found (λ frame. IsFrame s.new frame.0)) }
{
    match base_of(alloc, s, frame, clause) {
        Ok(base) => base_if_leaf(alloc, s, base),
        Err(Stop::Broken(_)) => Ok(None),
        Err(Stop::NoMemory) => Err(NoMemory),
    }
}

/// The first base of leaf type.
pub fn leaf_base<'t>(
    alloc: Global,
    s: &mut Scopes<'t>,
    frame: FrameId,
) -> Result<Option<FrameId>, NoMemory>
    requires { IsFrame s.old frame.0 }
    ensures grows { Grows s.old s.new }
    ensures value { IfOk result (IsLeafBase s.old s.new frame.0) }
    ensures stand { IfOk result (λ found. IfSome found (λ frame. IsFrame s.new frame.0)) }
{
    for clause in 0..clause_count(s, frame)? {
        if let Some(base) = leaf_of_clause(alloc, s, frame, clause)? {
            return Ok(Some(base));
        }
    }
    Ok(None)
}

/// The base of the first extends clause, the frame itself where there is none.
pub fn first_base<'t>(alloc: Global, s: &mut Scopes<'t>, frame: FrameId) -> Result<FrameId, Stop>
    requires { IsFrame s.old frame.0 }
    ensures grows { Grows s.old s.new }
    ensures value { Gives (λ base. frame_at s.new base.0) result (first_base_at s.old frame.0) }
    ensures stand { IfOk result (λ base. IsFrame s.new base.0) }
{
    if clause_count(s, frame)? == 0 {
        return Ok(frame);
    }
    base_of(alloc, s, frame, 0)
}
