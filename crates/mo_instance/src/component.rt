//! What one component is asked for (Modelica Language Specification 3.5, sections 4.4 and 10.1).
#![tactic(auto, using(crate::proofs::Later::later))]

ghost use Rattle.std.specs.Prelude.{◌≡◌, ◌||◌, if◌then◌else◌, IfOk, OnOk};
ghost use Rattle.mo_scope.specs.Sights.{member_at};
ghost use Rattle.mo_scope.specs.Outcome.{Gives};
ghost use Rattle.mo_scope.specs.Rows.{number_of_classes};
ghost use Rattle.mo_scope.specs.Worlds.{Grows, IsFrame, frame_at, table_in};
ghost use Rattle.mo_names.specs.Sights.{IsMember};
ghost use Rattle.mo_eval.specs.Keeping.{IsKept};
ghost use Rattle.mo_instance.specs.Elements.{around_parts as around_below};
ghost use Rattle.mo_instance.specs.Prefixes.{input_from, is_input as causal_is_input};
ghost use Rattle.mo_instance.specs.steps.Sights.{around_seen};
ghost use Rattle.mo_instance.specs.steps.Instances.{component_asked as asked_of_component, component_class as class_of_component, is_entered as enters};

use crate::given::is_given;
use crate::outer::outer_checked;
use crate::prefixes::{Around, in_profile, joined_vary};
use mo_eval::Reader;
use mo_lookup::child_of_member;
use mo_redeclare::prefix_of;
use mo_scope::{Member, Scopes, is_class};
use mo_syntax::{Causal, FrameId, List, NoMemory, Stop};
use std::alloc::Global;

/// The class of the type of a component, whose prefixes are not left out.
fn component_class<'t>(
    alloc: Global,
    s: &mut Scopes<'t>,
    member: &Member<'t>,
) -> Result<FrameId, Stop>
    requires { IsMember s.old member.now }
    ensures grows { Grows s.old s.new }
    ensures value { Gives (λ class. frame_at s.new class.0) result (class_of_component (table_in s.old) (member_at s.old member.now)) }
    ensures stand { IfOk result (λ class. IsFrame s.new class.0) }
{
    let prefix = prefix_of(alloc, s, member)?;
    in_profile(member.declares.place, prefix)?;
    let child = child_of_member(alloc, s, member, &[])?;
    Ok(child.class)
}

/// Whether what is below a component is given, whose causality is that and whose type was found as that frame.
fn given_below<'t>(
    alloc: Global,
    s: &mut Scopes<'t>,
    around: &Around,
    causal: Causal,
    class: FrameId,
) -> Result<bool, NoMemory>
    requires { IsFrame s.old class.0 }
    ensures grows { Grows s.old s.new }
    ensures value { IfOk result (λ is. is ≡ (if around.now.outermost then causal_is_input causal || input_from (table_in s.old) (number_of_classes (table_in s.old)) (frame_at s.old class.0) else around.now.given)) }
{
    if around.outermost {
        return is_given(alloc, s, causal, class);
    }
    Ok(around.given)
}

/// What holds below a component, whose type was found as that frame.
fn around_parts<'t>(
    alloc: Global,
    s: &mut Scopes<'t>,
    around: &Around,
    member: &Member<'t>,
    class: FrameId,
) -> Result<Around, NoMemory>
    requires member { IsMember s.old member.now }
    requires class { IsFrame s.old class.0 }
    ensures grows { Grows s.old s.new }
    ensures value { IfOk result (λ made. around_seen made ≡ around_below (table_in s.old) (around_seen around.now) (member_at s.old member.now) (frame_at s.old class.0)) }
{
    let prefix = prefix_of(alloc, s, member)?;
    let given = given_below(alloc, s, around, prefix.causal, class)?;
    Ok(Around {
        asked: around.asked,
        outermost: false,
        vary: joined_vary(around.vary, prefix.vary),
        given,
    })
}

/// Asks a component for its prefixes, its type and its dimensions. Answers what holds of its parts, and its dimensions.
pub(crate) fn component_asked<'t>(
    alloc: Global,
    s: &mut Scopes<'t>,
    reader: &mut Reader<'t>,
    around: &Around,
    member: &Member<'t>,
) -> Result<(Around, List<u32>), Stop>
    requires member { IsMember s.old member.now }
    requires kept { IsKept s.old reader.old }
    ensures grows { Grows s.old s.new }
    ensures kept { OnOk result (IsKept s.new reader.new) }
    ensures value { Gives (λ asked. (around_seen asked.0, asked.1)) result (asked_of_component (table_in s.old) (around_seen around.now) (member_at s.old member.now)) }
{
    let class = component_class(alloc, s, member)?;
    let dims = reader.dims(s, member)?;
    let below = around_parts(alloc, s, around, member, class)?;
    Ok((below, dims))
}

/// Whether an element is a component that is entered: no class, no outer component, and not removed by its condition.
pub(crate) fn is_entered<'t>(
    alloc: Global,
    s: &mut Scopes<'t>,
    reader: &mut Reader<'t>,
    member: &Member<'t>,
) -> Result<bool, Stop>
    requires member { IsMember s.old member.now }
    requires kept { IsKept s.old reader.old }
    ensures grows { Grows s.old s.new }
    ensures kept { OnOk result (IsKept s.new reader.new) }
    ensures value { Gives (λ is. is) result (enters (table_in s.old) (member_at s.old member.now)) }
{
    if is_class(&member.declares) {
        return Ok(false);
    }
    let outer = member.declares.flags.outer;
    if outer {
        outer_checked(alloc, s, member)?;
        return Ok(false);
    }
    reader.is_there(s, member)
}
