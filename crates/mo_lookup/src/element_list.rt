//! The elements of frames and their bases.
#![tactic(auto, using(mo_names::proofs::Later::later))]

ghost use Rattle.std.specs.Prelude.{◌≡◌, ◌<◌, Some, length, map, option_map, slice_get, IfOk, IfSome};
ghost use Rattle.mo_scope.specs.Names.{base_frame_of, clauses_of, walk_of as walk_of_frame};
ghost use Rattle.mo_scope.specs.Outcome.{Gives};
ghost use Rattle.mo_scope.specs.Places.{Every};
ghost use Rattle.mo_scope.specs.Rows.{Base_of, clauses_in};
ghost use Rattle.mo_scope.specs.Sights.{clause_seen, part_seen};
ghost use Rattle.mo_scope.specs.Worlds.{Grows, IsFrame, frame_at, frames_of, row_of_frame, table_in};
ghost use Rattle.mo_names.specs.Sights.{IsMember, IsWalk, member_of, walk_at};
ghost use Rattle.mo_names.specs.steps.Bases.{StandsAt};
ghost use Rattle.mo_names.specs.Calls.{GivesBase, elements_of_frame};

use crate::free::{class_count, elements_at};
use mo_names::{Ask, NumberedClause, Walk, base_found, elements_kept, members_held};
use mo_scope::{Member, Part, Scopes, copied};
use mo_syntax::{FrameId, List, NoMemory, Place, Stop};
use std::alloc::Global;

/// The elements of a frame with the base frames on the way to them. A broken rule is the first one that the inheritance of its
/// class breaks.
pub fn walk_of<'t>(alloc: Global, s: &mut Scopes<'t>, frame: FrameId) -> Result<Walk<'t>, Stop>
    requires { IsFrame s.old frame.0 }
    ensures grows { Grows s.old s.new }
    ensures value { Gives (walk_at s.new) result (walk_of_frame (table_in s.old) (frame_at s.old frame.0)) }
    ensures stand { IfOk result (IsWalk s.new) }
{
    elements_at(alloc, s, frame, Place { file: 0, byte: 0 })
}

/// The elements of a frame, found by a walk.
fn elements_found<'t>(
    alloc: Global,
    s: &mut Scopes<'t>,
    frame: FrameId,
) -> Result<List<Member<'t>>, Stop>
    requires { IsFrame s.old frame.0 }
    ensures grows { Grows s.old s.new }
    ensures value { Gives (map (member_of (frames_of s.new))) result (elements_of_frame s.old frame.0) }
    ensures stand { IfOk result (Every (IsMember s.new)) }
{
    let walk = walk_of(alloc, s, frame)?;
    let members = members_held(alloc, walk.members.as_slice())?;
    Ok(members)
}

/// The elements of a frame by the table that is kept, None where none is.
#[tactic(auto, using(mo_names::proofs::Later::later, mo_names::proofs::Listing::listing))]
fn elements_by_table<'t>(
    alloc: Global,
    s: &Scopes<'t>,
    frame: FrameId,
) -> Result<Option<List<Member<'t>>>, NoMemory>
    requires { IsFrame s.now frame.0 }
    ensures are { IfOk result (λ kept. IfSome kept (λ members. elements_of_frame s.now frame.0 ≡ Ok (map (member_of (frames_of s.now)) members))) }
    ensures stand { IfOk result (λ kept. IfSome kept (Every (IsMember s.now))) }
{
    match s.table(frame) {
        Some(table) => {
            let members = copied(alloc, table.members())?;
            Ok(Some(members))
        }
        None => Ok(None),
    }
}

/// The elements of a frame in their order, inherited and own. The first time they are found and kept; after that they are those
/// of the table that is kept. A broken rule is the first one that the inheritance of its class breaks.
#[tactic(auto, using(mo_names::proofs::Later::later, mo_names::proofs::Listing::listing))]
pub fn elements<'t>(
    alloc: Global,
    s: &mut Scopes<'t>,
    frame: FrameId,
) -> Result<List<Member<'t>>, Stop>
    requires { IsFrame s.old frame.0 }
    ensures grows { Grows s.old s.new }
    ensures value { Gives (map (member_of (frames_of s.new))) result (elements_of_frame s.old frame.0) }
    ensures stand { IfOk result (Every (IsMember s.new)) }
{
    if let Some(members) = elements_by_table(alloc, s, frame)? {
        return Ok(members);
    }
    let members = elements_found(alloc, s, frame)?;
    elements_kept(alloc, s, frame, members.as_slice())?;
    Ok(members)
}

/// The extends clause among some parts with so many before it.
fn clause_among<'t>(parts: &[Part<'t>], clause: u32) -> Option<NumberedClause<'t>>
    ensures is { option_map (λ found. clause_seen found.clause) result ≡ slice_get (clauses_in (map part_seen parts.now)) clause }
    ensures stands { IfSome result (λ found. slice_get (map part_seen parts.now) found.at ≡ Some (Base_of (clause_seen found.clause))) }
{
    let mut left = clause;
    for at in 0..parts.len() {
        if let Part::Base(found) = parts[at] {
            if left == 0 {
                return Some(NumberedClause { at, clause: found });
            }
            left -= 1;
        }
    }
    None
}

/// The extends clause of a frame's class with so many before it.
fn clause_at<'t>(s: &Scopes<'t>, frame: FrameId, clause: u32) -> Option<NumberedClause<'t>>
    requires { IsFrame s.now frame.0 }
    ensures is { option_map (λ found. clause_seen found.clause) result ≡ slice_get (clauses_of (table_in s.now) (frame_at s.now frame.0)) clause }
    ensures stands { IfSome result (λ found. StandsAt (row_of_frame s.now frame.0) found.at (Base_of (clause_seen found.clause))) }
{
    match s.row(s.class_of(frame)) {
        Some(row) => clause_among(row.parts.as_slice(), clause),
        None => None,
    }
}

/// The base frame of an extends clause of a frame's class.
fn base_at<'t>(
    alloc: Global,
    s: &mut Scopes<'t>,
    frame: FrameId,
    clause: &NumberedClause<'t>,
) -> Result<FrameId, Stop>
    requires frame { IsFrame s.old frame.0 }
    requires clause { StandsAt (row_of_frame s.old frame.0) clause.now.at (Base_of (clause_seen clause.now.clause)) }
    ensures grows { Grows s.old s.new }
    ensures value { Gives (λ base. frame_at s.new base.0) result (base_frame_of (table_in s.old) (frame_at s.old frame.0) (clause_seen clause.now.clause)) }
    ensures stand { IfOk result (λ base. IsFrame s.new base.0) }
{
    let busy = [s.class_of(frame).0];
    let ask = Ask {
        left: class_count(s)?,
        busy: &busy,
        place: Place { file: 0, byte: 0 },
        depth: s.depth(),
    };
    base_found(alloc, s, &ask, frame, clause)
}

/// The base frame of the extends clause of a frame's class with so many before it. A broken rule is one that its name breaks.
pub fn base_of(alloc: Global, s: &mut Scopes, frame: FrameId, clause: u32) -> Result<FrameId, Stop>
    requires frame { IsFrame s.old frame.0 }
    requires clause { clause < length (clauses_of (table_in s.old) (frame_at s.old frame.0)) }
    ensures grows { Grows s.old s.new }
    ensures value { GivesBase s.old s.new frame.0 clause result }
    ensures stand { IfOk result (λ base. IsFrame s.new base.0) }
{
    match clause_at(s, frame, clause) {
        Some(found) => base_at(alloc, s, frame, &found),
        None => unreachable!(),
    }
}
