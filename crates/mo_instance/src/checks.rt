//! The checks of a frame that is instantiated, and of its bases, in their order (Modelica Language Specification 3.5, sections
//! 4.6, 5.4, 7.1 to 7.3).
#![tactic(auto, using(crate::proofs::Later::later))]

ghost use Rattle.std.specs.Prelude.{◌≡◌, ◌<◌, None, Ok, Some, drop, length, map, option_copied, slice_get, true, unwrap_or, IfOk};
ghost use Rattle.mo_scope.specs.Arguments.{second_pass as pass_second};
ghost use Rattle.mo_scope.specs.Frames.{sources_of};
ghost use Rattle.mo_scope.specs.Names.{walk_of as elements_of_frame};
ghost use Rattle.mo_scope.specs.Outcome.{Gives};
ghost use Rattle.mo_scope.specs.Places.{Every};
ghost use Rattle.mo_scope.specs.Redeclarations.{each_checked};
ghost use Rattle.mo_scope.specs.Worlds.{Grows, IsFrame, frame_at, frames_of, table_in};
ghost use Rattle.mo_names.specs.Sights.{IsBase, IsWalk, frames_through, walk_at};
ghost use Rattle.mo_instance.specs.Checks.{base_passed as base_has_passed, frame_checked as frame_is_checked, frame_passed as frame_has_passed, partial_base as base_if_partial, type_checked as type_is_checked};
ghost use Rattle.mo_instance.specs.steps.Checks.{frame_passes, through_passed as through_has_passed};
ghost use Rattle.mo_instance.specs.steps.FirstPass.{is_replaced_by};
ghost use Rattle.mo_instance.specs.steps.Walks.{IsWalkOrNone, walk_or_none};

use crate::first_pass::first_pass;
use crate::profile::{in_profile, is_partial_short, replaces_inherited, whole_class};
use mo_lookup::{first_base, walk_of};
use mo_mods::merge;
use mo_names::Walk;
use mo_redeclare::check_redeclared;
use mo_scope::Scopes;
use mo_syntax::{FrameId, List, Place, Stop};
use std::alloc::Global;

/// Asks what the arguments of a frame break one against the other: rules 21, 22 and 23.
fn second_pass(alloc: Global, s: &Scopes, frame: FrameId) -> Result<(), Stop>
    requires { IsFrame s.now frame.0 }
    ensures { Gives (λ _. tt) result (pass_second (table_in s.now) (sources_of (frame_at s.now frame.0))) }
{
    let _merged = merge(s, alloc, frame)?;
    Ok(())
}

/// The checks of a frame that has these elements; the first pass takes the sources behind so many.
fn passes<'t>(
    alloc: Global,
    s: &mut Scopes<'t>,
    frame: FrameId,
    replaced: Option<&Walk<'t>>,
    walk: &Walk<'t>,
    passed: usize,
) -> Result<(), Stop>
    requires frame { IsFrame s.old frame.0 }
    requires replaced { IsWalkOrNone s.old (option_copied replaced) }
    requires walk { IsWalk s.old walk.now }
    requires elements { elements_of_frame (table_in s.old) (frame_at s.old frame.0) ≡ Ok (walk_at s.old walk.now) }
    ensures grows { Grows s.old s.new }
    ensures value { Gives (λ _. tt) result (frame_passes (table_in s.old) (is_replaced_by (walk_or_none (frames_of s.old) (option_copied replaced.entry))) (drop passed (sources_of (frame_at s.old frame.0))) (frame_at s.old frame.0) (walk_at s.old walk.now)) }
{
    in_profile(s, frame)?;
    first_pass(alloc, s, frame, replaced, walk, passed)?;
    second_pass(alloc, s, frame)?;
    check_redeclared(alloc, s, frame, walk)?;
    replaces_inherited(s, frame)
}

/// The elements of a frame, all checks of it being made; the first pass takes the sources behind so many.
fn frame_passed<'t>(
    alloc: Global,
    s: &mut Scopes<'t>,
    frame: FrameId,
    replaced: Option<&Walk<'t>>,
    passed: usize,
) -> Result<Walk<'t>, Stop>
    requires frame { IsFrame s.old frame.0 }
    requires replaced { IsWalkOrNone s.old (option_copied replaced) }
    ensures grows { Grows s.old s.new }
    ensures value { Gives (walk_at s.new) result (frame_has_passed (table_in s.old) (is_replaced_by (walk_or_none (frames_of s.old) (option_copied replaced.entry))) (drop passed (sources_of (frame_at s.old frame.0))) (frame_at s.old frame.0)) }
    ensures stand { IfOk result (IsWalk s.new) }
    ensures elements { IfOk result (λ walk. elements_of_frame (table_in s.new) (frame_at s.new frame.0) ≡ Ok (walk_at s.new walk)) }
{
    let walk = walk_of(alloc, s, frame)?;
    passes(alloc, s, frame, replaced, &walk, passed)?;
    Ok(walk)
}

/// The checks of a base of a frame that has these elements.
fn base_passed<'t>(
    alloc: Global,
    s: &mut Scopes<'t>,
    frame: FrameId,
    walk: &Walk<'t>,
    base: FrameId,
) -> Result<(), Stop>
    requires frame { IsFrame s.old frame.0 }
    requires walk { IsWalk s.old walk.now }
    requires elements { elements_of_frame (table_in s.old) (frame_at s.old frame.0) ≡ Ok (walk_at s.old walk.now) }
    requires base { IsFrame s.old base.0 }
    ensures grows { Grows s.old s.new }
    ensures value { Gives (λ _. tt) result (base_has_passed (table_in s.old) (frame_at s.old frame.0) (frame_at s.old base.0)) }
{
    let passed = s.sources(frame).len();
    frame_passed(alloc, s, base, Some(walk), passed)?;
    Ok(())
}

/// The checks of a base of a frame, whose elements are found.
fn far_base_passed(alloc: Global, s: &mut Scopes, frame: FrameId, base: FrameId) -> Result<(), Stop>
    requires frame { IsFrame s.old frame.0 }
    requires base { IsFrame s.old base.0 }
    ensures grows { Grows s.old s.new }
    ensures value { Gives (λ _. tt) result (base_has_passed (table_in s.old) (frame_at s.old frame.0) (frame_at s.old base.0)) }
{
    let walk = walk_of(alloc, s, frame)?;
    base_passed(alloc, s, frame, &walk, base)
}

/// The frame that a base is a base of: the one before it on the way from that frame.
fn frame_before(frame: FrameId, through: &List<FrameId>) -> FrameId
    ensures { result ≡ unwrap_or (slice_get through.now 1) frame }
{
    match through.get(1) {
        Some(outer) => *outer,
        None => frame,
    }
}

/// The base at the end of a way.
fn base_at_end(through: &List<FrameId>) -> FrameId
    requires { 0 < length through.now }
    ensures { Some result ≡ slice_get through.now 0 }
{
    match through.get(0) {
        Some(base) => *base,
        None => unreachable!(),
    }
}

/// Whether a way leads through no other base.
fn is_nearest(through: &List<FrameId>) -> bool
    ensures { result ≡ true → slice_get through.now 1 ≡ None }
{
    through.get(1).is_none()
}

/// The checks of a base of a frame that has these elements, given with the base frames on the way to it, the innermost first.
fn through_passed<'t>(
    alloc: Global,
    s: &mut Scopes<'t>,
    frame: FrameId,
    walk: &Walk<'t>,
    through: &List<FrameId>,
) -> Result<(), Stop>
    requires frame { IsFrame s.old frame.0 }
    requires walk { IsWalk s.old walk.now }
    requires elements { elements_of_frame (table_in s.old) (frame_at s.old frame.0) ≡ Ok (walk_at s.old walk.now) }
    requires through { IsBase s.old through.now }
    ensures grows { Grows s.old s.new }
    ensures value { Gives (λ _. tt) result (through_has_passed (table_in s.old) (frame_at s.old frame.0) (frames_through (frames_of s.old) through.now)) }
{
    let base = base_at_end(through);
    if is_nearest(through) {
        return base_passed(alloc, s, frame, walk, base);
    }
    let outer = frame_before(frame, through);
    far_base_passed(alloc, s, outer, base)
}

/// The checks of the bases of a frame that has these elements, one after another.
fn bases_passed<'t>(
    alloc: Global,
    s: &mut Scopes<'t>,
    frame: FrameId,
    walk: &Walk<'t>,
    bases: &[List<FrameId>],
) -> Result<(), Stop>
    requires frame { IsFrame s.old frame.0 }
    requires walk { IsWalk s.old walk.now }
    requires elements { elements_of_frame (table_in s.old) (frame_at s.old frame.0) ≡ Ok (walk_at s.old walk.now) }
    requires bases { Every (IsBase s.old) bases.now }
    ensures grows { Grows s.old s.new }
    ensures value { Gives (λ _. tt) result (each_checked (through_has_passed (table_in s.old) (frame_at s.old frame.0)) (map (frames_through (frames_of s.old)) bases.now)) }
{
    for through in bases {
        through_passed(alloc, s, frame, walk, through)?;
    }
    Ok(())
}

/// The elements of a frame, all checks of it and of its bases being made. Rule 26 stands at the place.
pub(crate) fn frame_checked<'t>(
    alloc: Global,
    s: &mut Scopes<'t>,
    place: Place,
    frame: FrameId,
) -> Result<Walk<'t>, Stop>
    requires { IsFrame s.old frame.0 }
    ensures grows { Grows s.old s.new }
    ensures value { Gives (walk_at s.new) result (frame_is_checked (table_in s.old) place (frame_at s.old frame.0)) }
    ensures stand { IfOk result (IsWalk s.new) }
{
    whole_class(s, place, frame)?;
    let walk = frame_passed(alloc, s, frame, None, 0)?;
    bases_passed(alloc, s, frame, &walk, walk.bases.as_slice())?;
    Ok(walk)
}

/// Asks for the base of a partial short class.
fn partial_base(alloc: Global, s: &mut Scopes, frame: FrameId) -> Result<(), Stop>
    requires { IsFrame s.old frame.0 }
    ensures grows { Grows s.old s.new }
    ensures value { Gives (λ _. tt) result (base_if_partial (table_in s.old) (frame_at s.old frame.0)) }
{
    if !is_partial_short(s, frame) {
        return Ok(());
    }
    match first_base(alloc, s, frame) {
        Ok(_) => Ok(()),
        Err(stop) => Err(stop),
    }
}

/// The elements of a frame of a component, all checks being made: of a partial short class the name of its base is asked first, since the
/// dimensions of the type are looked for there. Rule 26 stands at the place.
pub(crate) fn type_checked<'t>(
    alloc: Global,
    s: &mut Scopes<'t>,
    place: Place,
    frame: FrameId,
) -> Result<Walk<'t>, Stop>
    requires { IsFrame s.old frame.0 }
    ensures grows { Grows s.old s.new }
    ensures value { Gives (walk_at s.new) result (type_is_checked (table_in s.old) place (frame_at s.old frame.0)) }
    ensures stand { IfOk result (IsWalk s.new) }
{
    partial_base(alloc, s, frame)?;
    frame_checked(alloc, s, place, frame)
}
