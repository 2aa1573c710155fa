//! Components with their counterparts, entered.
#![tactic(auto, using(crate::proofs::Later::later))]

ghost use Rattle.std.specs.Prelude.{◌≡◌, [], IfOk};
ghost use Rattle.mo_scope.specs.Names.{component_frame};
ghost use Rattle.mo_scope.specs.Outcome.{Gives};
ghost use Rattle.mo_scope.specs.Worlds.{Grows, IsFrame, frame_at, table_in};
ghost use Rattle.mo_scope.specs.Sights.{member_at};
ghost use Rattle.mo_names.specs.Children.{IsChild, child_at};
ghost use Rattle.mo_names.specs.Sights.{IsMember};
ghost use Rattle.mo_redeclare.specs.steps.Comparing.{children_of as both_children, entered_alike as both_alike, entered_if_alike as both_if_alike, entered_matching as both_matching, frames_entered};

use crate::dims::same_counts;
use crate::prefix::{prefix_of, same_prefixes};
use mo_lookup::{child_of_member, enter_child};
use mo_names::Child;
use mo_scope::{Member, Scopes};
use mo_syntax::{FrameId, NoMemory, Place, Stop, rules, stop};
use std::alloc::Global;

/// Two components, entered.
fn children_of<'t>(
    alloc: Global,
    s: &mut Scopes<'t>,
    new: &Member<'t>,
    wanted: &Member<'t>,
) -> Result<(Child<'t>, Child<'t>), Stop>
    requires new { IsMember s.old new.now }
    requires wanted { IsMember s.old wanted.now }
    ensures grows { Grows s.old s.new }
    ensures value { Gives (λ children. (child_at s.new children.0, child_at s.new children.1)) result (both_children (table_in s.old) (member_at s.old new.now) (member_at s.old wanted.now)) }
    ensures stand { IfOk result (λ children. IsChild s.new children.0 × IsChild s.new children.1) }
{
    let child = child_of_member(alloc, s, new, &[])?;
    let other = child_of_member(alloc, s, wanted, &[])?;
    Ok((child, other))
}

/// The frames of two components.
fn enter_both<'t>(
    alloc: Global,
    s: &mut Scopes<'t>,
    new: (&Member<'t>, Child<'t>),
    wanted: (&Member<'t>, Child<'t>),
) -> Result<(FrameId, FrameId), NoMemory>
    requires new { IsMember s.old new.0.now × IsChild s.old new.1 }
    requires wanted { IsMember s.old wanted.0.now × IsChild s.old wanted.1 }
    ensures grows { Grows s.old s.new }
    ensures new { IfOk result (λ frames. frame_at s.new frames.0.0 ≡ component_frame (member_at s.old new.entry.0.now) [] (child_at s.old new.entry.1)) }
    ensures wanted { IfOk result (λ frames. frame_at s.new frames.1.0 ≡ component_frame (member_at s.old wanted.entry.0.now) [] (child_at s.old wanted.entry.1)) }
    ensures stand { IfOk result (λ frames. IsFrame s.new frames.0.0 × IsFrame s.new frames.1.0) }
{
    let (member, child) = new;
    let (other, other_child) = wanted;
    let frame = enter_child(alloc, s, member, &[], child)?;
    let other_frame = enter_child(alloc, s, other, &[], other_child)?;
    Ok((frame, other_frame))
}

/// The frames of two components.
fn both_entered<'t>(
    alloc: Global,
    s: &mut Scopes<'t>,
    new: (&Member<'t>, Child<'t>),
    wanted: (&Member<'t>, Child<'t>),
) -> Result<(FrameId, FrameId), Stop>
    requires new { IsMember s.old new.0.now × IsChild s.old new.1 }
    requires wanted { IsMember s.old wanted.0.now × IsChild s.old wanted.1 }
    ensures grows { Grows s.old s.new }
    ensures value { Gives (λ frames. (frame_at s.new frames.0.0, frame_at s.new frames.1.0)) result (frames_entered (component_frame (member_at s.old new.entry.0.now) [] (child_at s.old new.entry.1)) (component_frame (member_at s.old wanted.entry.0.now) [] (child_at s.old wanted.entry.1))) }
    ensures stand { IfOk result (λ frames. IsFrame s.new frames.0.0 × IsFrame s.new frames.1.0) }
{
    Ok(enter_both(alloc, s, new, wanted)?)
}

/// The frames of two components that were entered, where they have as many dimensions.
fn entered_if_alike<'t>(
    alloc: Global,
    s: &mut Scopes<'t>,
    place: Place,
    new: (&Member<'t>, Child<'t>),
    wanted: (&Member<'t>, Child<'t>),
) -> Result<(FrameId, FrameId), Stop>
    requires new { IsMember s.old new.0.now × IsChild s.old new.1 }
    requires wanted { IsMember s.old wanted.0.now × IsChild s.old wanted.1 }
    ensures grows { Grows s.old s.new }
    ensures value { Gives (λ frames. (frame_at s.new frames.0.0, frame_at s.new frames.1.0)) result (both_if_alike (table_in s.old) place (member_at s.old new.entry.0.now) (child_at s.old new.entry.1) (member_at s.old wanted.entry.0.now) (child_at s.old wanted.entry.1)) }
    ensures stand { IfOk result (λ frames. IsFrame s.new frames.0.0 × IsFrame s.new frames.1.0) }
{
    let same = same_counts(alloc, s, (new.0, &new.1), (wanted.0, &wanted.1))?;
    if same {
        return both_entered(alloc, s, new, wanted);
    }
    Err(stop(rules::NOT_COMPATIBLE, place))
}

/// The frames of a component and its counterpart, where they have as many dimensions.
fn entered_alike<'t>(
    alloc: Global,
    s: &mut Scopes<'t>,
    place: Place,
    new: &Member<'t>,
    wanted: &Member<'t>,
) -> Result<(FrameId, FrameId), Stop>
    requires new { IsMember s.old new.now }
    requires wanted { IsMember s.old wanted.now }
    ensures grows { Grows s.old s.new }
    ensures value { Gives (λ frames. (frame_at s.new frames.0.0, frame_at s.new frames.1.0)) result (both_alike (table_in s.old) place (member_at s.old new.now) (member_at s.old wanted.now)) }
    ensures stand { IfOk result (λ frames. IsFrame s.new frames.0.0 × IsFrame s.new frames.1.0) }
{
    let (child, other) = children_of(alloc, s, new, wanted)?;
    entered_if_alike(alloc, s, place, (new, child), (wanted, other))
}

/// The frames of a component and its counterpart, where their prefixes and numbers of dimensions are the same.
pub(crate) fn entered_matching<'t>(
    alloc: Global,
    s: &mut Scopes<'t>,
    place: Place,
    new: &Member<'t>,
    wanted: &Member<'t>,
) -> Result<(FrameId, FrameId), Stop>
    requires new { IsMember s.old new.now }
    requires wanted { IsMember s.old wanted.now }
    ensures grows { Grows s.old s.new }
    ensures value { Gives (λ frames. (frame_at s.new frames.0.0, frame_at s.new frames.1.0)) result (both_matching (table_in s.old) place (member_at s.old new.now) (member_at s.old wanted.now)) }
    ensures stand { IfOk result (λ frames. IsFrame s.new frames.0.0 × IsFrame s.new frames.1.0) }
{
    let prefix = prefix_of(alloc, s, new)?;
    let other = prefix_of(alloc, s, wanted)?;
    if !same_prefixes(prefix, other) {
        return Err(stop(rules::NOT_COMPATIBLE, place));
    }
    entered_alike(alloc, s, place, new, wanted)
}
