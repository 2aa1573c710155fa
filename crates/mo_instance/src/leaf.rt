//! What a component is as a leaf: its kind, its role, its attributes and its binding (Modelica Language Specification 3.5, section
//! 4.8). Values are those of the modifiers of a frame, merged into one table.
ghost use Rattle.std.specs.Prelude.{◌≡◌, ◌&&◌, ◌∷◌, ◌++◌, [], List as Seq, not, map, option_map, IfOk, IfSome, OnOk};
ghost use Rattle.mo_flat.specs.Text.{attribute_name};
ghost use Rattle.mo_scope.specs.Sights.{member_at};
ghost use Rattle.mo_scope.specs.Frames.{Frame, sources_of};
ghost use Rattle.mo_scope.specs.Outcome.{Gives};
ghost use Rattle.mo_scope.specs.Parts.{picked};
ghost use Rattle.mo_scope.specs.Places.{Every};
ghost use Rattle.mo_scope.specs.Worlds.{IsFrame, World, frame_at, frames_of, table_in};
ghost use Rattle.mo_names.specs.Sights.{IsWalk, walk_at};
ghost use Rattle.mo_mods.specs.Merged.{StandsFor, binding};
ghost use Rattle.mo_mods.specs.Scopes.{ScopesExist};
ghost use Rattle.mo_mods.specs.Sights.{merged_in, value_in};
ghost use Rattle.mo_eval.specs.FrameBindings.{IsBoundAs};
ghost use Rattle.mo_instance.specs.Attributes.{attribute_as, chosen_attributes as attributes_chosen};
ghost use Rattle.mo_instance.specs.Elements.{is_free as vary_is_free, is_real as kind_is_real, leaf_by as leaf_decided, leaf_made as leaf_for, leaf_of as leaf_of_frame, no_leaf as leaf_of_none};
ghost use Rattle.mo_scope.specs.Trees.{IsChosen, IsLeaf, attribute_in, chosen_in, leaf_in};
ghost use Rattle.mo_instance.specs.steps.Sights.{around_seen};

use crate::attributes::{attributes_of, kind_of_leaf};
use crate::prefixes::{Around, is_free, role_of};
use mo_flat::name_of_attribute;
use mo_mods::{MergedEnv, MergedValue, merged_sources};
use mo_names::Walk;
use mo_scope::{Chosen, Leaf, Member, Scopes, copied, copied_scope};
use mo_syntax::{FrameId, Kind, List, NoMemory, Stop, Vary, both, rules, stop};
use std::alloc::Global;

/// A value of a table as a chosen expression.
fn chosen<'t>(alloc: Global, value: &MergedValue<'t>) -> Result<Chosen<'t>, NoMemory>
    ensures is { IfOk result (λ made. (frames : Seq Frame) → chosen_in frames made ≡ (value_in frames value.now).picked) }
    ensures scope { IfOk result (λ made. made.scope.frame ≡ value.now.scope.frame) }
{
    let parts = both(
        copied_scope(alloc, &value.scope),
        copied(alloc, value.pending.as_slice()),
    )?;
    let (scope, pending) = parts;
    Ok(Chosen {
        value: value.value,
        scope,
        pending,
    })
}

/// The value for what a table is of.
fn chosen_here<'t>(alloc: Global, env: &MergedEnv<'t>) -> Result<Option<Chosen<'t>>, NoMemory>
    ensures { IfOk result (λ made. (frames : Seq Frame) → option_map (chosen_in frames) made ≡ binding (merged_in frames env.now) []) }
{
    match &env.value {
        Some(value) => {
            let made = chosen(alloc, value)?;
            Ok(Some(made))
        }
        None => Ok(None),
    }
}

/// The value for an attribute.
fn chosen_attribute<'t>(
    alloc: Global,
    env: &MergedEnv<'t>,
    attribute: u8,
) -> Result<Option<Chosen<'t>>, NoMemory>
    ensures { IfOk result (λ made. (frames : Seq Frame) → option_map (chosen_in frames) made ≡ binding (merged_in frames env.now) (attribute_name attribute ∷ [])) }
{
    match env.table_named(name_of_attribute(attribute)) {
        Some(below) => chosen_here(alloc, below),
        None => Ok(None),
    }
}

/// Puts an attribute, if a value is given for it.
fn put_attribute<'t>(
    alloc: Global,
    env: &MergedEnv<'t>,
    attribute: u8,
    made: &mut List<(u8, Chosen<'t>)>,
) -> Result<(), NoMemory>
    ensures are { OnOk result ((frames : Seq Frame) → map (attribute_in frames) made.new ≡ map (attribute_in frames) made.old ++ attribute_as attribute (binding (merged_in frames env.now) (attribute_name attribute ∷ []))) }
    ensures exist { OnOk result ((world : World) → ScopesExist world env.now → Every (λ one. IsChosen world one.1) made.old → Every (λ one. IsChosen world one.1) made.new) }
{
    let found = chosen_attribute(alloc, env, attribute)?;
    match found {
        Some(chosen) => made.push((attribute, chosen)),
        None => Ok(()),
    }
}

/// The table of the sources of a frame.
fn table_of<'t>(alloc: Global, s: &Scopes<'t>, frame: FrameId) -> Result<MergedEnv<'t>, NoMemory>
    requires { IsFrame s.now frame.0 }
    ensures stands { IfOk result (λ made. StandsFor (table_in s.now) (merged_in (frames_of s.now) made) (sources_of (frame_at s.now frame.0))) }
    ensures exist { IfOk result (λ made. ScopesExist s.now made) }
{
    let sources = s.sources(frame).as_slice();
    merged_sources(s, alloc, sources)
}

/// The attributes that are given for a frame of that leaf type, in their order.
fn chosen_attributes<'t>(
    alloc: Global,
    s: &Scopes<'t>,
    leaf: FrameId,
) -> Result<List<(u8, Chosen<'t>)>, NoMemory>
    requires { IsFrame s.now leaf.0 }
    ensures are { IfOk result (λ made. map (attribute_in (frames_of s.now)) made ≡ attributes_chosen (table_in s.now) (frame_at s.now leaf.0)) }
    ensures exist { IfOk result (λ made. Every (λ one. IsChosen s.now one.1) made) }
{
    let env = table_of(alloc, s, leaf)?;
    let mut made = List::new(alloc);
    let attributes = attributes_of(kind_of_leaf(s, leaf));
    for attribute in attributes {
        put_attribute(alloc, &env, *attribute, &mut made)?;
    }
    Ok(made)
}

/// The binding of a frame, None where it has none.
fn binding_of<'t>(
    alloc: Global,
    s: &Scopes<'t>,
    frame: FrameId,
) -> Result<Option<Chosen<'t>>, NoMemory>
    requires { IsFrame s.now frame.0 }
    ensures is { IfOk result (λ made. option_map (chosen_in (frames_of s.now)) made ≡ picked (table_in s.now) (sources_of (frame_at s.now frame.0)) []) }
    ensures exists { IfOk result (λ made. IfSome made (IsChosen s.now)) }
{
    let env = table_of(alloc, s, frame)?;
    chosen_here(alloc, &env)
}

fn is_real(kind: Kind) -> bool
    ensures { result ≡ kind_is_real kind }
{
    match kind {
        Kind::Real => true,
        Kind::Whole => false,
        Kind::Truth => false,
        Kind::Str => false,
        Kind::Enumeration(_) => false,
    }
}

/// A leaf whose bases end at a frame.
fn leaf_made<'t>(
    alloc: Global,
    s: &Scopes<'t>,
    around: &Around,
    frame: FrameId,
    leaf: FrameId,
) -> Result<Leaf<'t>, NoMemory>
    requires frame { IsFrame s.now frame.0 }
    requires leaf { IsFrame s.now leaf.0 }
    ensures is { IfOk result (λ made. leaf_in (frames_of s.now) made ≡ leaf_for (table_in s.now) (around_seen around.now) (frame_at s.now frame.0) (frame_at s.now leaf.0)) }
    ensures exists { IfOk result (IsLeaf s.now) }
    ensures bound { IfOk result (IsBoundAs s.now frame.0) }
{
    let parts = both(
        chosen_attributes(alloc, s, leaf),
        binding_of(alloc, s, frame),
    )?;
    let (attributes, binding) = parts;
    Ok(Leaf {
        kind: kind_of_leaf(s, leaf),
        role: role_of(around.vary, around.given),
        attributes,
        binding,
    })
}

/// Whether a leaf of that variability may not have that kind.
fn is_left_out(vary: Vary, kind: Kind) -> bool
    ensures { result ≡ (vary_is_free vary && not (kind_is_real kind)) }
{
    is_free(vary) && !is_real(kind)
}

/// A leaf whose bases end at a frame, unless it is a variable of another kind than Real.
fn leaf_by<'t>(
    alloc: Global,
    s: &Scopes<'t>,
    around: &Around,
    member: &Member<'t>,
    frame: FrameId,
    leaf: FrameId,
) -> Result<Option<Leaf<'t>>, Stop>
    requires frame { IsFrame s.now frame.0 }
    requires leaf { IsFrame s.now leaf.0 }
    ensures value { Gives (option_map (leaf_in (frames_of s.now))) result (leaf_decided (table_in s.now) (around_seen around.now) (member_at s.now member.now) (frame_at s.now frame.0) (frame_at s.now leaf.0)) }
    ensures stand { IfOk result (λ made. IfSome made (IsLeaf s.now)) }
    ensures bound { IfOk result (λ made. IfSome made (IsBoundAs s.now frame.0)) }
{
    let kind = kind_of_leaf(s, leaf);
    if is_left_out(around.vary, kind) {
        return Err(stop(rules::OUTSIDE_PROFILE, member.declares.place));
    }
    let made = leaf_made(alloc, s, around, frame, leaf)?;
    Ok(Some(made))
}

/// A component that is no leaf: it has no binding.
fn no_leaf<'t>(alloc: Global, s: &Scopes<'t>, frame: FrameId) -> Result<Option<Leaf<'t>>, Stop>
    requires { IsFrame s.now frame.0 }
    ensures value { Gives (option_map (leaf_in (frames_of s.now))) result (leaf_of_none (picked (table_in s.now) (sources_of (frame_at s.now frame.0)) [])) }
    ensures stand { IfOk result (λ made. IfSome made (IsLeaf s.now)) }
    ensures bound { IfOk result (λ made. IfSome made (IsBoundAs s.now frame.0)) }
{
    let found = binding_of(alloc, s, frame)?;
    match found {
        Some(binding) => Err(stop(rules::OUTSIDE_PROFILE, binding.value.place)),
        None => Ok(None),
    }
}

/// What a component with that frame is as a leaf, None where it is none. Rule 34 is broken at the name of a variable that is no
/// Real, and at the binding of a component that is no leaf.
pub(crate) fn leaf_of<'t>(
    alloc: Global,
    s: &Scopes<'t>,
    around: &Around,
    member: &Member<'t>,
    frame: FrameId,
    walk: &Walk<'t>,
) -> Result<Option<Leaf<'t>>, Stop>
    requires frame { IsFrame s.now frame.0 }
    requires walk { IsWalk s.now walk.now }
    ensures value { Gives (option_map (leaf_in (frames_of s.now))) result (leaf_of_frame (table_in s.now) (around_seen around.now) (member_at s.now member.now) (frame_at s.now frame.0) (walk_at s.now walk.now)) }
    ensures stand { IfOk result (λ made. IfSome made (IsLeaf s.now)) }
    ensures bound { IfOk result (λ made. IfSome made (IsBoundAs s.now frame.0)) }
{
    match walk.leaf {
        Some(leaf) => leaf_by(alloc, s, around, member, frame, leaf),
        None => no_leaf(alloc, s, frame),
    }
}
