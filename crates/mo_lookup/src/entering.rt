//! Children of frames: their elements, entered at an index (Modelica Language Specification 3.5, sections 7.2 and 7.3).
#![tactic(auto, using(mo_names::proofs::Later::later))]

ghost use Rattle.std.specs.Prelude.{◌≡◌, option_copied, option_map, IfOk, IfSome, Ok, Some};
ghost use Rattle.mo_scope.specs.Entries.{names_of as path_names};
ghost use Rattle.mo_scope.specs.Names.{path_below as indexed_below};
ghost use Rattle.mo_scope.specs.Outcome.{Gives};
ghost use Rattle.mo_scope.specs.Rows.{component_of};
ghost use Rattle.mo_scope.specs.Sights.{declares_seen, redeclaration_at, member_at};
ghost use Rattle.mo_scope.specs.Worlds.{Grows, IsFrame, frame_at, table_in};
ghost use Rattle.mo_scope.specs.Calls.{HasScope};
ghost use Rattle.mo_names.specs.Children.{IsChild, class_child as child_of_class, component_child as child_of_component, type_by, type_declared, type_redeclared, child_at};
ghost use Rattle.mo_names.specs.Sights.{IsMember};
ghost use Rattle.mo_names.specs.Calls.{element_child_at, named_child_at, IsComponentFrame, component_entered_at};

use crate::free::{class_named_at, find_element};
use mo_names::{Child, Reached, entered_class, name_copied, names_copied};
use mo_scope::{Declares, Member, Redeclaration, ScopeAt, Scopes, Sort};
use mo_syntax::{
    Component, FrameId, InstancePath, List, NoMemory, Place, Stop, Text, pushed, rules, stop,
};
use std::alloc::Global;

/// The component that is declared, None where a class is.
fn component_declared<'t>(declares: &Declares<'t>) -> Option<&'t Component>
    ensures { option_copied result ≡ component_of (declares_seen declares.now) }
{
    match declares.sort {
        Sort::Class {
            number: _,
            encapsulated: _,
        } => None,
        Sort::Component(component) => Some(component),
    }
}

/// The class of the type that a redeclaration gives, looked up in the scope of its source.
fn type_in_redeclaration<'t>(
    alloc: Global,
    s: &mut Scopes<'t>,
    redeclaration: &Redeclaration<'t>,
) -> Result<FrameId, Stop>
    requires { IsFrame s.old redeclaration.now.source.scope.frame.0 }
    ensures grows { Grows s.old s.new }
    ensures value { Gives (λ class. frame_at s.new class.0) result (type_redeclared (table_in s.old) (redeclaration_at s.old redeclaration.now)) }
    ensures stand { IfOk result (λ class. IsFrame s.new class.0) }
{
    match component_declared(&redeclaration.declares) {
        Some(component) => {
            let class = class_named_at(alloc, s, &redeclaration.source.scope, &component.base)?;
            Ok(class.frame)
        }
        None => Err(stop(rules::WRONG_KIND_OF_NAME, redeclaration.place)),
    }
}

/// The class of the type that a component declares, looked up in the frame whose class declares it.
fn type_in_declaration<'t>(
    alloc: Global,
    s: &mut Scopes<'t>,
    member: &Member<'t>,
    component: &Component,
) -> Result<FrameId, Stop>
    requires { IsFrame s.old member.now.home.0 }
    ensures grows { Grows s.old s.new }
    ensures value { Gives (λ class. frame_at s.new class.0) result (type_declared (table_in s.old) (member_at s.old member.now) component.now) }
    ensures stand { IfOk result (λ class. IsFrame s.new class.0) }
{
    let scope = ScopeAt {
        frame: member.home,
        iters: List::new(alloc),
    };
    let class = class_named_at(alloc, s, &scope, &component.base)?;
    Ok(class.frame)
}

/// The class of the type of a component: by the redeclaration that wins, or by its declaration.
fn type_of<'t>(
    alloc: Global,
    s: &mut Scopes<'t>,
    member: &Member<'t>,
    component: &Component,
    wins: &Option<Redeclaration<'t>>,
) -> Result<FrameId, Stop>
    requires member { IsFrame s.old member.now.home.0 }
    requires wins { IfSome wins.now (HasScope s.old) }
    ensures grows { Grows s.old s.new }
    ensures value { Gives (λ class. frame_at s.new class.0) result (type_by (table_in s.old) (member_at s.old member.now) component.now (option_map (redeclaration_at s.old) wins.now)) }
    ensures stand { IfOk result (λ class. IsFrame s.new class.0) }
{
    match wins {
        Some(redeclaration) => type_in_redeclaration(alloc, s, redeclaration),
        None => type_in_declaration(alloc, s, member, component),
    }
}

/// A component, entered at an index.
fn component_child<'t>(
    alloc: Global,
    s: &mut Scopes<'t>,
    member: &Member<'t>,
    index: &[u32],
    component: &Component,
) -> Result<Child<'t>, Stop>
    requires { IsMember s.old member.now }
    ensures grows { Grows s.old s.new }
    ensures value { Gives (child_at s.new) result (child_of_component (table_in s.old) (member_at s.old member.now) index.now component.now) }
    ensures stand { IfOk result (IsChild s.new) }
{
    let wins = s.redeclared(alloc, member.home, member.name, index)?;
    let class = type_of(alloc, s, member, component, &wins)?;
    let sources = s.component_sources(alloc, member, index, class)?;
    Ok(Child {
        declares: member.declares,
        redeclared: wins,
        class,
        sources,
    })
}

/// A class, entered at an index.
fn class_child<'t>(
    alloc: Global,
    s: &mut Scopes<'t>,
    member: &Member<'t>,
    index: &[u32],
) -> Result<Child<'t>, Stop>
    requires { IsMember s.old member.now }
    ensures grows { Grows s.old s.new }
    ensures value { Gives (child_at s.new) result (child_of_class (table_in s.old) (member_at s.old member.now) index.now) }
    ensures stand { IfOk result (IsChild s.new) }
{
    let class = entered_class(alloc, s, member)?;
    let wins = s.redeclared(alloc, member.home, member.name, index)?;
    let sources = s.class_sources(alloc, member)?;
    Ok(Child {
        declares: member.declares,
        redeclared: wins,
        class,
        sources,
    })
}

/// An element of a frame, entered at an index, which is empty where it is no element of an array: by the redeclaration that
/// wins, or by its declaration. Breaks 12 to 19, 24 and 34 at the name of its type, and 13 at a redeclaration of the other sort.
pub fn child_of_member<'t>(
    alloc: Global,
    s: &mut Scopes<'t>,
    member: &Member<'t>,
    index: &[u32],
) -> Result<Child<'t>, Stop>
    requires { IsMember s.old member.now }
    ensures grows { Grows s.old s.new }
    ensures value { Gives (child_at s.new) result (element_child_at s.old member.now index.now) }
    ensures stand { IfOk result (IsChild s.new) }
{
    match component_declared(&member.declares) {
        Some(component) => component_child(alloc, s, member, index, component),
        None => class_child(alloc, s, member, index),
    }
}

/// The element of that name of a frame, entered at an index. Rule 12 is broken at no place where the frame has none.
pub fn child<'t>(
    alloc: Global,
    s: &mut Scopes<'t>,
    frame: FrameId,
    name: &Text,
    index: &[u32],
) -> Result<Child<'t>, Stop>
    requires { IsFrame s.old frame.0 }
    ensures grows { Grows s.old s.new }
    ensures value { Gives (child_at s.new) result (named_child_at s.old frame.0 name.now index.now) }
    ensures stand { IfOk result (IsChild s.new) }
{
    let nowhere = Place { file: 0, byte: 0 };
    match find_element(alloc, s, frame, name, nowhere) {
        Ok(Reached::Element(member)) => child_of_member(alloc, s, &member, index),
        Ok(Reached::Other(_)) => Err(stop(rules::NAME_NOT_FOUND, nowhere)),
        Ok(Reached::Absent) => Err(stop(rules::NAME_NOT_FOUND, nowhere)),
        Err(stop) => Err(stop),
    }
}

/// The path of a component with that name, entered at an index, below an instance path.
fn path_below(
    alloc: Global,
    path: Option<&InstancePath>,
    name: &Text,
    index: &[u32],
) -> Result<Option<InstancePath>, NoMemory>
    ensures { IfOk result (λ made. option_map path_names made ≡ indexed_below (option_map (λ path. path.now.0) path.entry) name.now index.now) }
{
    match path {
        Some(path) => {
            let mut names = names_copied(alloc, path.0.as_slice())?;
            pushed(&mut names, name_copied(alloc, name, index))?;
            Ok(Some(InstancePath(names)))
        }
        None => Ok(None),
    }
}

/// The frame of a component that was entered at an index as this child. Its owner is the frame whose class declares it.
pub fn enter_child<'t>(
    alloc: Global,
    s: &mut Scopes<'t>,
    member: &Member<'t>,
    index: &[u32],
    child: Child<'t>,
) -> Result<FrameId, NoMemory>
    requires member { IsMember s.old member.now }
    requires child { IsChild s.old child }
    ensures grows { Grows s.old s.new }
    ensures is { IfOk result (IsComponentFrame s.old s.new member.now index.now child.entry) }
    ensures exists { IfOk result (λ frame. IsFrame s.new frame.0) }
{
    let at = path_below(alloc, s.path(member.home), member.name, index)?;
    let number = s.class_of(child.class);
    let outer = s.outer(child.class);
    s.enter(alloc, number, child.sources, outer, at, Some(member.home))
}

/// The frame of a component that was entered at an index as its own child, kept for who enters it again.
pub fn enter_own_child<'t>(
    alloc: Global,
    s: &mut Scopes<'t>,
    member: &Member<'t>,
    index: &[u32],
    child: Child<'t>,
) -> Result<FrameId, NoMemory>
    requires member { IsMember s.old member.now }
    requires child { IsChild s.old child }
    requires own { element_child_at s.old member.now index.now ≡ Ok (child_at s.old child) }
    ensures grows { Grows s.old s.new }
    ensures is { IfOk result (IsComponentFrame s.old s.new member.now index.now child.entry) }
    ensures exists { IfOk result (λ frame. IsFrame s.new frame.0) }
{
    let frame = enter_child(alloc, s, member, index, child)?;
    s.keep_component(alloc, member, index, frame)?;
    Ok(frame)
}

/// The frame of a component that was not kept, entered at an index.
fn enter_component_anew<'t>(
    alloc: Global,
    s: &mut Scopes<'t>,
    member: &Member<'t>,
    index: &[u32],
) -> Result<FrameId, Stop>
    requires { IsMember s.old member.now }
    ensures grows { Grows s.old s.new }
    ensures value { Gives (λ frame. frame_at s.new frame.0) result (component_entered_at s.old member.now index.now) }
    ensures stand { IfOk result (λ frame. IsFrame s.new frame.0) }
{
    let child = child_of_member(alloc, s, member, index)?;
    Ok(enter_own_child(alloc, s, member, index, child)?)
}

/// The frame of a component, entered at an index. Breaks what `child_of_member` breaks.
pub fn enter_component<'t>(
    alloc: Global,
    s: &mut Scopes<'t>,
    member: &Member<'t>,
    index: &[u32],
) -> Result<FrameId, Stop>
    requires { IsMember s.old member.now }
    ensures grows { Grows s.old s.new }
    ensures value { Gives (λ frame. frame_at s.new frame.0) result (component_entered_at s.old member.now index.now) }
    ensures stand { IfOk result (λ frame. IsFrame s.new frame.0) }
{
    match s.entered_component(member, index) {
        Some(frame) => Ok(frame),
        None => enter_component_anew(alloc, s, member, index),
    }
}
