//! One element of a component: its frame with all checks, and the instance (Modelica Language Specification 3.5, sections 4.4,
//! 7.2 and 10.1).
#![tactic(auto, using(crate::proofs::Later::later))]

ghost use Rattle.std.specs.Prelude.{◌≡◌, List as Seq, option_map, IfOk};
ghost use Rattle.mo_scope.specs.Frames.{Frame};
ghost use Rattle.mo_scope.specs.Lookup.{last_place as place_of_last};
ghost use Rattle.mo_scope.specs.Outcome.{Gives};
ghost use Rattle.mo_scope.specs.Sights.{declares_seen, redeclaration_in, member_at};
ghost use Rattle.mo_scope.specs.Worlds.{Grows, IsFrame, frame_at, frames_of, table_in};
ghost use Rattle.mo_names.specs.Sights.{IsMember, IsWalk, member_of, walk_at};
ghost use Rattle.mo_eval.specs.FrameBindings.{IsBoundAs};
ghost use Rattle.mo_instance.specs.Elements.{class_place as place_of_class, instance_of as instance_for, place_of_type as type_place};
ghost use Rattle.mo_scope.specs.Trees.{IsLeaf, instance_in, leaf_in};
ghost use Rattle.mo_instance.specs.steps.Sights.{IsEntered, around_seen};
ghost use Rattle.mo_instance.specs.steps.Instances.{element_frame as frame_of_element, element_in_frame as made_in_frame, element_made as made_of_element, instance_at as instance_made, room_among};
ghost use Rattle.std.specs.Prelude.{IfSome};

use crate::checks::type_checked;
use crate::leaf::leaf_of;
use crate::paths::path_of;
use crate::prefixes::Around;
use mo_lookup::{child_of_member, enter_own_child};
use mo_names::Walk;
use mo_scope::{Declares, Instance, Leaf, Member, Redeclaration, Scopes, component_of, copied};
use mo_syntax::{FrameId, NoMemory, Part, Place, Stop, both, rules, stop};
use std::alloc::Global;

/// How many components a class may have: one more breaks rule 41.
const MOST_INSTANCES: usize = 400000;

/// The place of the last identifier of a name.
fn last_place(parts: &[Part]) -> Place
    ensures { result ≡ place_of_last parts.now }
{
    match parts {
        [.., last] => last.place,
        [] => Place { file: 0, byte: 0 },
    }
}

/// Where the type of a component is named.
fn place_of_type(declares: &Declares) -> Place
    ensures { result ≡ type_place (declares_seen declares.now) }
{
    match component_of(declares) {
        Some(component) => last_place(component.base.parts.as_slice()),
        None => declares.place,
    }
}

/// Where the class of a component is named: in the redeclaration that wins, or in the declaration.
fn class_place(member: &Member, redeclared: &Option<Redeclaration>) -> Place
    ensures { (frames : Seq Frame) → result ≡ place_of_class (member_of frames member.now) (option_map (redeclaration_in frames) redeclared.now) }
{
    match redeclared {
        Some(redeclaration) => place_of_type(&redeclaration.declares),
        None => place_of_type(&member.declares),
    }
}

/// Breaks rule 41 where so many instances stand before one more component.
fn room_for_one(asked: Place, count: usize) -> Result<(), Stop>
    ensures { Gives (λ _. tt) result (room_among asked count) }
{
    if MOST_INSTANCES < count {
        return Err(stop(rules::FLAT_MODEL_TOO_LARGE, asked));
    }
    Ok(())
}

/// The frame of an element, and where its class is named.
fn element_frame<'t>(
    alloc: Global,
    s: &mut Scopes<'t>,
    member: &Member<'t>,
    index: &[u32],
) -> Result<(Place, FrameId), Stop>
    requires { IsMember s.old member.now }
    ensures grows { Grows s.old s.new }
    ensures value { Gives (λ at. (at.0, frame_at s.new at.1.0)) result (frame_of_element (table_in s.old) (member_at s.old member.now) index.now) }
    ensures stand { IfOk result (λ at. IsFrame s.new at.1.0) }
{
    let child = child_of_member(alloc, s, member, index)?;
    let place = class_place(member, &child.redeclared);
    let frame = enter_own_child(alloc, s, member, index, child)?;
    Ok((place, frame))
}

/// An instance of an element with that frame.
fn instance_of<'t>(
    alloc: Global,
    s: &Scopes<'t>,
    member: &Member<'t>,
    dims: &[u32],
    frame: FrameId,
    leaf: Option<Leaf<'t>>,
) -> Result<Instance<'t>, NoMemory>
    requires { IsFrame s.now frame.0 }
    ensures is { IfOk result (λ made. instance_in (frames_of s.now) made ≡ instance_for (member_at s.now member.now) dims.now (frame_at s.now frame.0) (option_map (leaf_in (frames_of s.now)) leaf.entry)) }
    ensures exists { IfSome leaf.entry (IsLeaf s.now) → IfSome leaf.entry (IsBoundAs s.now frame.0) → IfOk result (IsEntered s.now) }
{
    // The class exists.
    let _class = s.class_of(frame);
    let copies = both(path_of(alloc, s, frame), copied(alloc, dims))?;
    let (path, dims) = copies;
    Ok(Instance {
        frame,
        path,
        place: member.declares.place,
        dims,
        leaf,
    })
}

/// An element with that frame, which has these elements.
fn instance_at<'t>(
    alloc: Global,
    s: &Scopes<'t>,
    around: &Around,
    member: &Member<'t>,
    dims: &[u32],
    frame: FrameId,
    walk: &Walk<'t>,
) -> Result<Instance<'t>, Stop>
    requires frame { IsFrame s.now frame.0 }
    requires walk { IsWalk s.now walk.now }
    ensures value { Gives (instance_in (frames_of s.now)) result (instance_made (table_in s.now) (around_seen around.now) (member_at s.now member.now) dims.now (frame_at s.now frame.0) (walk_at s.now walk.now)) }
    ensures stand { IfOk result (IsEntered s.now) }
{
    let leaf = leaf_of(alloc, s, around, member, frame, walk)?;
    Ok(instance_of(alloc, s, member, dims, frame, leaf)?)
}

/// An element with that frame, whose class is named there: all checks of the frame, then what it is as a leaf.
fn element_in_frame<'t>(
    alloc: Global,
    s: &mut Scopes<'t>,
    around: &Around,
    member: &Member<'t>,
    dims: &[u32],
    place: Place,
    frame: FrameId,
) -> Result<(Instance<'t>, Walk<'t>), Stop>
    requires member { IsMember s.old member.now }
    requires frame { IsFrame s.old frame.0 }
    ensures grows { Grows s.old s.new }
    ensures value { Gives (λ made. (instance_in (frames_of s.new) made.0, walk_at s.new made.1)) result (made_in_frame (table_in s.old) (around_seen around.now) (member_at s.old member.now) dims.now place (frame_at s.old frame.0)) }
    ensures stand { IfOk result (λ made. IsEntered s.new made.0 × IsWalk s.new made.1) }
{
    let walk = type_checked(alloc, s, place, frame)?;
    let instance = instance_at(alloc, s, around, member, dims, frame, &walk)?;
    Ok((instance, walk))
}

/// An element of a component with what its frame has, where so many instances stand before it. Rule 41 is broken at the name of
/// the asked class where these are too many.
pub(crate) fn element_made<'t>(
    alloc: Global,
    s: &mut Scopes<'t>,
    around: &Around,
    member: &Member<'t>,
    dims: &[u32],
    index: &[u32],
    count: usize,
) -> Result<(Instance<'t>, Walk<'t>), Stop>
    requires { IsMember s.old member.now }
    ensures grows { Grows s.old s.new }
    ensures value { Gives (λ made. (instance_in (frames_of s.new) made.0, walk_at s.new made.1)) result (made_of_element (table_in s.old) (around_seen around.now) (member_at s.old member.now) dims.now index.now count) }
    ensures stand { IfOk result (λ made. IsEntered s.new made.0 × IsWalk s.new made.1) }
{
    room_for_one(around.asked, count)?;
    let at = element_frame(alloc, s, member, index)?;
    element_in_frame(alloc, s, around, member, dims, at.0, at.1)
}
