//! Elements that are kept before a name is looked up among them, so that each base frame on the way is walked once.
#![tactic(auto, using(mo_names::proofs::Later::later))]

ghost use Rattle.std.specs.Prelude.{◌≡◌, Ok};
ghost use Rattle.mo_syntax.specs.declared.place.Place.{Place as PlaceAt};
ghost use Rattle.mo_scope.specs.Lookup.{asking_of};
ghost use Rattle.mo_scope.specs.Worlds.{Grows, IsFrame, frame_at, table_in};
ghost use Rattle.mo_names.specs.Sights.{IsWalk, walk_at};

use crate::free::class_count;
use crate::settled::walked_once;
use mo_names::{Ask, Walk, is_closed, own_named, walk_kept};
use mo_scope::Scopes;
use mo_syntax::{FrameId, NoMemory, Place, Text};
use std::alloc::Global;

/// How many frames around a frame are looked at.
const MOST_AROUND: usize = 100;

/// Keeps the elements that a walk has found.
fn keep_walk<'t>(
    alloc: Global,
    s: &mut Scopes<'t>,
    frame: FrameId,
    walk: &Walk<'t>,
) -> Result<(), NoMemory>
    requires frame { IsFrame s.old frame.0 }
    requires is { (place : PlaceAt) → (asking_of (table_in s.old)).elements place (frame_at s.old frame.0) ≡ Ok (walk_at s.old walk.now) }
    requires stands { IsWalk s.old walk.now }
    ensures { Grows s.old s.new }
{
    let ask = Ask {
        left: class_count(s)?,
        busy: &[],
        place: Place { file: 0, byte: 0 },
        depth: s.depth(),
    };
    walk_kept(alloc, s, &ask, frame, walk)
}

/// Keeps the elements of a frame, if they can be found by walking each frame on the way once.
fn keep_once(alloc: Global, s: &mut Scopes, frame: FrameId) -> Result<(), NoMemory>
    requires { IsFrame s.old frame.0 }
    ensures { Grows s.old s.new }
{
    match walked_once(alloc, s, frame)? {
        Some(walk) => keep_walk(alloc, s, frame, &walk),
        None => Ok(()),
    }
}

/// Whether a name may be an inherited element of a frame whose elements are not kept.
fn may_be_inherited(s: &Scopes, frame: FrameId, name: &Text) -> bool
    requires { IsFrame s.now frame.0 }
{
    if s.table(frame).is_some() {
        return false;
    }
    if !s.has_base(frame) {
        return false;
    }
    own_named(s, frame, name).is_none()
}

/// Keeps the elements of a frame before a name is looked up among them, where they are asked for.
pub(crate) fn keep_ahead(
    alloc: Global,
    s: &mut Scopes,
    frame: FrameId,
    name: &Text,
) -> Result<(), NoMemory>
    requires { IsFrame s.old frame.0 }
    ensures { Grows s.old s.new }
{
    if may_be_inherited(s, frame, name) {
        keep_once(alloc, s, frame)?;
    }
    Ok(())
}

/// Whether a name is known to be an element of a frame, or is not looked up further outwards than in it.
fn ends_at(s: &Scopes, frame: FrameId, name: &Text) -> bool
    requires { IsFrame s.now frame.0 }
{
    if is_closed(s, frame) {
        return true;
    }
    match s.table(frame) {
        Some(table) => table.find(name).is_some(),
        None => own_named(s, frame, name).is_some(),
    }
}

/// The same for a frame and those around it, as far as the name is looked up outwards.
fn keep_outwards(alloc: Global, s: &mut Scopes, first: FrameId, name: &Text) -> Result<(), NoMemory>
    requires { IsFrame s.old first.0 }
    ensures { Grows s.old s.new }
{
    let mut frame = first;
    for _around in 0..MOST_AROUND {
        keep_ahead(alloc, s, frame, name)?;
        if ends_at(s, frame, name) {
            return Ok(());
        }
        match s.outer(frame) {
            Some(outer) => frame = outer,
            None => return Ok(()),
        }
    }
    Ok(())
}

/// The same for the first identifier of a name, which starts at the top behind a leading dot.
pub(crate) fn keep_for_name(
    alloc: Global,
    s: &mut Scopes,
    top: bool,
    frame: FrameId,
    name: &Text,
) -> Result<(), NoMemory>
    requires { IsFrame s.old frame.0 }
    ensures { Grows s.old s.new }
{
    if top {
        return Ok(());
    }
    keep_outwards(alloc, s, frame, name)
}
