//! The two classes of a redeclaration: the new one, and the one that it is to be compatible with (Modelica Language
//! Specification 3.5, section 7.3).
#![tactic(auto, using(crate::proofs::Later::later))]

ghost use Rattle.std.specs.Prelude.{◌≡◌, ◌<◌, ◌∷◌, [], false, List as Seq, map, IfOk};
ghost use Rattle.mo_scope.specs.Frames.{Frame, looked_up};
ghost use Rattle.mo_scope.specs.Outcome.{Gives};
ghost use Rattle.mo_scope.specs.Parts.{is_nothing as holds_nothing, with_list as source_with_list};
ghost use Rattle.mo_scope.specs.Places.{Every};
ghost use Rattle.mo_scope.specs.Redeclarations.{constraining_class as class_constraining, declared_class as class_declared, new_class as class_new};
ghost use Rattle.mo_scope.specs.Rows.{number_of_classes};
ghost use Rattle.mo_scope.specs.Sights.{modifiers_seen, source_seen, source_at, redeclaration_at, member_at};
ghost use Rattle.mo_scope.specs.Worlds.{Grows, IsFrame, frame_at, source_in, sources_in, table_in};
ghost use Rattle.mo_names.specs.Sights.{IsMember};
ghost use Rattle.mo_redeclare.specs.steps.Sights.{IsRedeclaration};

use crate::names::{class_at, class_at_home};
use mo_scope::{
    Given, Listing, Member, Modifiers, Redeclaration, Scopes, Sort, Source, copied, copied_scope,
    is_nothing,
};
use mo_syntax::{ClassId, FrameId, List, NoMemory, Stop, both};
use std::alloc::Global;

/// The source with a modifier list in its place. It has not passed through a component yet.
fn listed_source<'t>(
    alloc: Global,
    source: &Source<'t>,
    modifiers: Modifiers<'t>,
) -> Result<Source<'t>, NoMemory>
    requires { holds_nothing (modifiers_seen modifiers) ≡ false }
    ensures is { IfOk result (λ made. (frames : Seq Frame) → source_in frames (source_seen made) ∷ [] ≡ source_with_list (source_in frames (source_seen source.now)) (modifiers_seen modifiers.entry)) }
    ensures scope { IfOk result (λ made. made.scope.frame ≡ source.now.scope.frame) }
{
    let (pending, passed) = both(
        copied(alloc, source.pending.as_slice()),
        copied(alloc, source.listing.passed.as_slice()),
    )?;
    let scope = copied_scope(alloc, &source.scope)?;
    Ok(Source {
        given: Given::Listed(modifiers),
        scope,
        pending,
        listing: Listing {
            place: source.listing.place,
            passed,
        },
        last: source.last,
        outside: false,
        origin: source.origin,
    })
}

/// The source with a modifier list in its place, no source where that is empty.
fn with_list<'t>(
    alloc: Global,
    source: &Source<'t>,
    modifiers: Modifiers<'t>,
) -> Result<List<Source<'t>>, NoMemory>
    ensures are { IfOk result (λ made. (frames : Seq Frame) → sources_in frames (map source_seen made) ≡ source_with_list (source_in frames (source_seen source.now)) (modifiers_seen modifiers.entry)) }
    ensures scopes { IfOk result (λ made. Every (λ one. one.scope.frame ≡ source.now.scope.frame) made) }
{
    let mut made = List::new(alloc);
    if !is_nothing(&modifiers) {
        made.push(listed_source(alloc, source, modifiers)?)?;
    }
    Ok(made)
}

/// The class that a redeclaration declares, with its modifiers, if it has any.
fn class_with_list<'t>(
    alloc: Global,
    s: &mut Scopes<'t>,
    class: ClassId,
    redeclaration: &Redeclaration<'t>,
) -> Result<FrameId, NoMemory>
    requires class { class.0 < number_of_classes (table_in s.old) }
    requires scope { IsFrame s.old redeclaration.now.source.scope.frame.0 }
    ensures grows { Grows s.old s.new }
    ensures is { IfOk result (λ frame. frame_at s.new frame.0 ≡ looked_up class.0 (source_with_list (source_at s.old redeclaration.now.source) (modifiers_seen redeclaration.now.declares.own)) (frame_at s.old redeclaration.now.source.scope.frame.0)) }
    ensures exists { IfOk result (λ frame. IsFrame s.new frame.0) }
{
    let sources = with_list(alloc, &redeclaration.source, redeclaration.declares.own)?;
    let around = redeclaration.source.scope.frame;
    s.enter(alloc, class, sources, Some(around), None, None)
}

/// The new class of a redeclaration.
pub(crate) fn new_class<'t>(
    alloc: Global,
    s: &mut Scopes<'t>,
    redeclaration: &Redeclaration<'t>,
) -> Result<FrameId, Stop>
    requires { IsRedeclaration s.old redeclaration.now }
    ensures grows { Grows s.old s.new }
    ensures value { Gives (λ class. frame_at s.new class.0) result (class_new (table_in s.old) (redeclaration_at s.old redeclaration.now)) }
    ensures stand { IfOk result (λ class. IsFrame s.new class.0) }
{
    match redeclaration.declares.sort {
        Sort::Class {
            number,
            encapsulated: _,
        } => Ok(class_with_list(alloc, s, ClassId(number), redeclaration)?),
        Sort::Component(component) => {
            class_at(alloc, s, &redeclaration.source.scope, &component.base)
        }
    }
}

/// The frame of a class that is only looked up, of which the frame around it is known.
fn looked_up_class<'t>(
    alloc: Global,
    s: &mut Scopes<'t>,
    class: ClassId,
    outer: FrameId,
) -> Result<FrameId, NoMemory>
    requires class { class.0 < number_of_classes (table_in s.old) }
    requires outer { IsFrame s.old outer.0 }
    ensures grows { Grows s.old s.new }
    ensures is { IfOk result (λ frame. frame_at s.new frame.0 ≡ looked_up class.0 [] (frame_at s.old outer.0)) }
    ensures exists { IfOk result (λ frame. IsFrame s.new frame.0) }
{
    match s.entered(class, Some(outer)) {
        Some(frame) => Ok(frame),
        None => s.enter(alloc, class, List::new(alloc), Some(outer), None, None),
    }
}

/// The class that is declared of an element.
fn declared_class<'t>(
    alloc: Global,
    s: &mut Scopes<'t>,
    member: &Member<'t>,
) -> Result<FrameId, Stop>
    requires { IsMember s.old member.now }
    ensures grows { Grows s.old s.new }
    ensures value { Gives (λ class. frame_at s.new class.0) result (class_declared (table_in s.old) (member_at s.old member.now)) }
    ensures stand { IfOk result (λ class. IsFrame s.new class.0) }
{
    match member.declares.sort {
        Sort::Class {
            number,
            encapsulated: _,
        } => Ok(looked_up_class(alloc, s, ClassId(number), member.home)?),
        Sort::Component(component) => class_at_home(alloc, s, member, &component.base),
    }
}

/// The class that a redeclaration of an element is to be compatible with: that of its constraining clause, else the declared
/// one.
pub(crate) fn constraining_class<'t>(
    alloc: Global,
    s: &mut Scopes<'t>,
    member: &Member<'t>,
) -> Result<FrameId, Stop>
    requires { IsMember s.old member.now }
    ensures grows { Grows s.old s.new }
    ensures value { Gives (λ class. frame_at s.new class.0) result (class_constraining (table_in s.old) (member_at s.old member.now)) }
    ensures stand { IfOk result (λ class. IsFrame s.new class.0) }
{
    match member.declares.limit {
        Some(limit) => class_at_home(alloc, s, member, limit.class),
        None => declared_class(alloc, s, member),
    }
}
