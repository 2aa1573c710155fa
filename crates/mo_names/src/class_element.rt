//! Elements that are classes, entered.
ghost use Rattle.std.specs.Prelude.{◌≡◌, ◌<◌, Some, None, IfOk};
ghost use Rattle.mo_scope.specs.Frames.{looked_up};
ghost use Rattle.mo_scope.specs.Lookup.{entered, met as found_element};
ghost use Rattle.mo_scope.specs.Outcome.{Gives};
ghost use Rattle.mo_scope.specs.Parts.{class_sources};
ghost use Rattle.mo_scope.specs.Rows.{class_number as number_of_class, number_of_classes};
ghost use Rattle.mo_scope.specs.Sights.{declares_seen, redeclaration_at, member_at};
ghost use Rattle.mo_scope.specs.Worlds.{Grows, IsFrame, frame_at, table_in};
ghost use Rattle.mo_names.specs.Sights.{IsFound, IsMember, found_at};
ghost use Rattle.mo_names.specs.steps.Parts.{entered_by_redeclaration};

use crate::found::Found;
use crate::top::looked_up_class;
use mo_scope::{Declares, Member, Redeclaration, Scopes, Sort, is_class};
use mo_syntax::{ClassId, FrameId, NoMemory, Stop, rules, stop};
use std::alloc::Global;

/// The number of the class that is declared, 0 where a component is.
fn class_number(declares: &Declares) -> ClassId
    ensures { result.0 ≡ number_of_class (declares_seen declares.now) }
{
    match declares.sort {
        Sort::Class {
            number,
            encapsulated: _,
        } => ClassId(number),
        Sort::Component(_) => ClassId(0),
    }
}

/// An element entered as a class, with that frame around it.
fn entered_as<'t>(
    alloc: Global,
    s: &mut Scopes<'t>,
    member: &Member<'t>,
    class: ClassId,
    outer: FrameId,
) -> Result<FrameId, NoMemory>
    requires member { IsMember s.old member.now }
    requires class { class.0 < number_of_classes (table_in s.old) }
    requires outer { IsFrame s.old outer.0 }
    ensures grows { Grows s.old s.new }
    ensures is { IfOk result (λ frame. frame_at s.new frame.0 ≡ looked_up class.0 (class_sources (table_in s.old) (member_at s.old member.now)) (frame_at s.old outer.0)) }
    ensures exists { IfOk result (λ frame. IsFrame s.new frame.0) }
{
    let sources = s.class_sources(alloc, member)?;
    if sources.is_empty() {
        return looked_up_class(alloc, s, class, Some(outer));
    }
    s.enter(alloc, class, sources, Some(outer), None, None)
}

/// An element entered as the class that a redeclaration gives.
fn entered_redeclared<'t>(
    alloc: Global,
    s: &mut Scopes<'t>,
    member: &Member<'t>,
    redeclaration: &Redeclaration<'t>,
) -> Result<FrameId, Stop>
    requires member { IsMember s.old member.now }
    requires class { number_of_class (declares_seen redeclaration.now.declares) < number_of_classes (table_in s.old) }
    requires outer { IsFrame s.old redeclaration.now.source.scope.frame.0 }
    ensures grows { Grows s.old s.new }
    ensures value { Gives (λ frame. frame_at s.new frame.0) result (entered_by_redeclaration (table_in s.old) (member_at s.old member.now) (redeclaration_at s.old redeclaration.now)) }
    ensures stand { IfOk result (λ frame. IsFrame s.new frame.0) }
{
    if !is_class(&redeclaration.declares) {
        return Err(stop(rules::WRONG_KIND_OF_NAME, redeclaration.place));
    }
    Ok(entered_as(
        alloc,
        s,
        member,
        class_number(&redeclaration.declares),
        redeclaration.source.scope.frame,
    )?)
}

/// The frame of an element that is a class: the outermost source that redeclares it decides. Breaks 13 where that declares a component.
pub fn entered_class<'t>(
    alloc: Global,
    s: &mut Scopes<'t>,
    member: &Member<'t>,
) -> Result<FrameId, Stop>
    requires { IsMember s.old member.now }
    ensures grows { Grows s.old s.new }
    ensures value { Gives (λ frame. frame_at s.new frame.0) result (entered (table_in s.old) (member_at s.old member.now)) }
    ensures stand { IfOk result (λ frame. IsFrame s.new frame.0) }
{
    match s.redeclared(alloc, member.home, member.name, &[])? {
        Some(redeclaration) => entered_redeclared(alloc, s, member, &redeclaration),
        None => Ok(entered_as(
            alloc,
            s,
            member,
            class_number(&member.declares),
            member.home,
        )?),
    }
}

/// What an element among those of a frame is.
pub(crate) fn met<'t>(
    alloc: Global,
    s: &mut Scopes<'t>,
    frame: FrameId,
    member: &Member<'t>,
) -> Result<Found<'t>, Stop>
    requires frame { IsFrame s.old frame.0 }
    requires member { IsMember s.old member.now }
    ensures grows { Grows s.old s.new }
    ensures value { Gives (found_at s.new) result (found_element (table_in s.old) (frame_at s.old frame.0) (member_at s.old member.now)) }
    ensures stand { IfOk result (IsFound s.new) }
{
    if is_class(&member.declares) {
        let class = entered_class(alloc, s, member)?;
        Ok(Found::Class(class, member.declares.flags.replaceable))
    } else {
        Ok(Found::Component(frame, *member))
    }
}
