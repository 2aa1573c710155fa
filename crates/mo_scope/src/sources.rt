//! The sources of elements and bases, and the redeclarations of elements (Modelica Language Specification 3.5, sections 7.2
//! and 7.3).
ghost use Rattle.std.specs.Prelude.{◌≡◌, ◌++◌, ◌∷◌, [], List as Seq, Option, true, if◌then◌else◌, is_some, flat_map, map, option_map, IfOk, IfSome, OnOk};
ghost use Rattle.std.specs.Option.{option_to_list};
ghost use Rattle.mo_scope.specs.Frames.{Frame};
ghost use Rattle.mo_scope.specs.Parts.{Redeclaration as RedeclarationOf, Saying as SayingOf, clause_source as source_of_clause, constraint_source, declared_sources, first_of, own_source, redeclarations_in, replacing_source as source_replacing, sources_said, through_component as passed_through_component, without_value as source_without_value};
ghost use Rattle.mo_scope.specs.Rows.{is_class as declares_class};
ghost use Rattle.mo_scope.specs.Sights.{clause_seen, constraint_seen, declares_seen, member_seen, redeclaration_in, row_seen, saying_in, source_seen};
ghost use Rattle.mo_scope.specs.Worlds.{AreFrames, IsFrame, frame_in, member_in, source_in, sources_in};
ghost use Rattle.mo_scope.specs.Calls.{HasScope, HaveScopes, IsWinningRedeclaration, AreRedeclarations, ArePartsFor, AreElementSources, AreClassSources, AreComponentSources, AreBaseSources};

use crate::copies::extend_sources;
use crate::row::{Clause, Declares, Member, Row};
use crate::saying::{Asked, Redeclaration, Saying};
use crate::scopes::Scopes;
use crate::sort::is_class;
use crate::source::{Origin, Source};
use crate::written::{
    brought, clause_source, put, replacing_source, with_list, without_value, written,
};
use mo_syntax::{FrameId, List, NoMemory, Text};
use std::alloc::Global;

/// The first of some items, None where there is none.
fn first<T: Drop>(items: List<T>) -> Option<T>
    ensures { result ≡ first_of items }
{
    let mut rest = items.into_vec().into_iter();
    rest.next()
}

/// The redeclaration that a saying is, None where it modifies.
fn redeclaration_of(saying: Saying<'_>) -> Option<Redeclaration<'_>>
    ensures { (frames : Seq Frame) → map (redeclaration_in frames) (option_to_list result) ≡ redeclarations_in (saying_in frames saying.entry ∷ []) }
{
    match saying {
        Saying::Modifies(_) => None,
        Saying::Redeclares(redeclaration) => Some(redeclaration),
    }
}

/// The redeclarations among sayings.
fn redeclarations_among<'t>(
    alloc: Global,
    sayings: List<Saying<'t>>,
) -> Result<List<Redeclaration<'t>>, NoMemory>
    ensures { IfOk result (λ made. (frames : Seq Frame) → map (redeclaration_in frames) made ≡ redeclarations_in (map (saying_in frames) sayings.entry)) }
{
    let mut made = List::new(alloc);
    for saying in sayings.into_vec() {
        put(&mut made, redeclaration_of(saying))?;
    }
    Ok(made)
}

/// Whether an element is redeclared.
fn is_redeclared(sayings: &[Saying<'_>]) -> bool
    ensures { (frames : Seq Frame) → result ≡ is_some (first_of (redeclarations_in (map (saying_in frames) sayings.now))) }
{
    for saying in sayings {
        match saying {
            Saying::Modifies(_) => {}
            Saying::Redeclares(_) => return true,
        }
    }
    false
}

/// The source that a saying is, None where a redeclaration brings an empty list. Behind a redeclaration none wins.
fn source_said<'t>(saying: Saying<'t>, wins: &mut bool) -> Option<Source<'t>>
    ensures { (frames : Seq Frame) → (more : Seq SayingOf) → sources_in frames (map source_seen (option_to_list result)) ++ sources_said wins.new more ≡ sources_said wins.old (saying_in frames saying.entry ∷ more) }
{
    match saying {
        Saying::Modifies(source) => Some(source),
        Saying::Redeclares(redeclaration) => {
            let modifiers = brought(*wins, &redeclaration.declares);
            *wins = false;
            with_list(redeclaration.source, modifiers)
        }
    }
}

/// The sources that sayings are, of which the first that redeclares wins.
fn all_sources_said<'t>(
    alloc: Global,
    sayings: List<Saying<'t>>,
) -> Result<List<Source<'t>>, NoMemory>
    ensures { IfOk result (λ made. (frames : Seq Frame) → sources_in frames (map source_seen made) ≡ sources_said true (map (saying_in frames) sayings.entry)) }
{
    let mut made = List::new(alloc);
    let mut wins = true;
    for saying in sayings.into_vec() {
        put(&mut made, source_said(saying, &mut wins))?;
    }
    Ok(made)
}

/// Whether the own modifiers of a declaration are left out: of a class, which come with its base, and where it is redeclared
/// those beside a constraining clause.
fn leaves_own(declares: &Declares<'_>, replaced: bool) -> bool
    ensures { result ≡ (if replaced then is_some declares.now.limit else declares_class (declares_seen declares.now)) }
{
    if replaced {
        declares.limit.is_some()
    } else {
        is_class(declares)
    }
}

/// The own modifiers of a declaration as a source, None where they are left out or empty.
fn own_written<'t>(
    alloc: Global,
    member: &Member<'t>,
    index: &[u32],
    replaced: bool,
) -> Result<Option<Source<'t>>, NoMemory>
    ensures { IfOk result (λ made. (frames : Seq Frame) → sources_in frames (map source_seen (option_to_list made)) ≡ (if (if replaced then is_some member.now.declares.limit else declares_class (declares_seen member.now.declares)) then [] else own_source (member_in frames (member_seen member.now)) index.now)) }
{
    if leaves_own(&member.declares, replaced) {
        return Ok(None);
    }
    let origin = Origin::OwnOf(member.declares.place);
    written(alloc, member.home, index, origin, member.declares.own)
}

/// The modifiers of the constraining clause of a declaration as a source, None where there are none.
fn constraint_written<'t>(
    alloc: Global,
    member: &Member<'t>,
    index: &[u32],
) -> Result<Option<Source<'t>>, NoMemory>
    ensures { IfOk result (λ made. (frames : Seq Frame) → sources_in frames (map source_seen (option_to_list made)) ≡ flat_map (constraint_source (member_in frames (member_seen member.now)) index.now) (option_to_list (option_map constraint_seen member.now.declares.limit))) }
{
    match member.declares.limit {
        Some(limit) => {
            let origin = Origin::ConstraintOf(member.declares.place);
            written(alloc, member.home, index, origin, limit.modifiers)
        }
        None => Ok(None),
    }
}

/// Adds what the declaration of an element adds.
fn extend_declared<'t>(
    alloc: Global,
    made: &mut List<Source<'t>>,
    member: &Member<'t>,
    index: &[u32],
    replaced: bool,
) -> Result<(), NoMemory>
    ensures { OnOk result ((frames : Seq Frame) → (wins : Option RedeclarationOf) → is_some wins ≡ replaced → sources_in frames (map source_seen made.new) ≡ sources_in frames (map source_seen made.old) ++ declared_sources (member_in frames (member_seen member.now)) index.now wins) }
{
    let own = own_written(alloc, member, index, replaced)?;
    put(made, own)?;
    let constraint = constraint_written(alloc, member, index)?;
    put(made, constraint)
}

/// Adds what inheritance adds to the sources of a frame for a base, but for those with which its class was found.
fn extend_inherited<'t>(
    alloc: Global,
    made: &mut List<Source<'t>>,
    frame: FrameId,
    row: &Row<'t>,
    clause: &Clause<'t>,
) -> Result<(), NoMemory>
    ensures { OnOk result ((frames : Seq Frame) → sources_in frames (map source_seen made.new) ≡ sources_in frames (map source_seen made.old) ++ (source_replacing (frame_in frames frame.0) (row_seen row.now) ++ source_of_clause (frame_in frames frame.0) (row_seen row.now) (clause_seen clause.now))) }
{
    put(made, replacing_source(alloc, frame, row))?;
    let source = clause_source(alloc, frame, row, clause)?;
    put(made, source)
}

/// A source that has passed through a component.
fn through_component(source: Source<'_>) -> Source<'_>
    ensures { (frames : Seq Frame) → source_in frames (source_seen result) ≡ passed_through_component (source_in frames (source_seen source.entry)) }
{
    Source {
        given: source.given,
        scope: source.scope,
        pending: source.pending,
        listing: source.listing,
        last: source.last,
        outside: true,
        origin: source.origin,
    }
}

/// Sources that have passed through a component.
fn all_through_component<'t>(
    alloc: Global,
    sources: List<Source<'t>>,
) -> Result<List<Source<'t>>, NoMemory>
    ensures { IfOk result (λ made. (frames : Seq Frame) → sources_in frames (map source_seen made) ≡ map passed_through_component (sources_in frames (map source_seen sources.entry))) }
{
    let mut made = List::new(alloc);
    for source in sources.into_vec() {
        made.push(through_component(source))?;
    }
    Ok(made)
}

/// Sources without their values for what they modify.
fn all_without_value<'t>(
    alloc: Global,
    sources: List<Source<'t>>,
) -> Result<List<Source<'t>>, NoMemory>
    ensures { IfOk result (λ made. (frames : Seq Frame) → sources_in frames (map source_seen made) ≡ map source_without_value (sources_in frames (map source_seen sources.entry))) }
{
    let mut made = List::new(alloc);
    for source in sources.into_vec() {
        made.push(without_value(source))?;
    }
    Ok(made)
}

impl<'t> Scopes<'t> {
    /// The redeclaration of an element that wins, entered at an index: that of the outermost source that redeclares it.
    pub fn redeclared(
        &self,
        alloc: Global,
        frame: FrameId,
        name: &Text,
        index: &[u32],
    ) -> Result<Option<Redeclaration<'t>>, NoMemory>
        requires { IsFrame self.now frame.0 }
        ensures is { IfOk result (IsWinningRedeclaration self.now frame.0 name.now index.now) }
        ensures exists { IfOk result (λ found. IfSome found (HasScope self.now)) }
    {
        let found = self.redeclarations(alloc, frame, name, index)?;
        Ok(first(found))
    }

    /// The redeclarations of an element, entered at an index, the outermost first.
    pub fn redeclarations(
        &self,
        alloc: Global,
        frame: FrameId,
        name: &Text,
        index: &[u32],
    ) -> Result<List<Redeclaration<'t>>, NoMemory>
        requires { IsFrame self.now frame.0 }
        ensures are { IfOk result (AreRedeclarations self.now frame.0 name.now index.now) }
        ensures exist { IfOk result (HaveScopes self.now) }
    {
        let asked = Asked { name, index };
        let sayings = self.sayings(alloc, self.sources_by_name(frame), &asked)?;
        redeclarations_among(alloc, sayings)
    }

    /// The parts of a frame's sources for an element, entered at an index, with the modifiers of its redeclarations.
    pub fn child_sources(
        &self,
        alloc: Global,
        frame: FrameId,
        name: &Text,
        index: &[u32],
    ) -> Result<List<Source<'t>>, NoMemory>
        requires { IsFrame self.now frame.0 }
        ensures are { IfOk result (ArePartsFor self.now frame.0 name.now index.now) }
        ensures exist { IfOk result (λ made. AreFrames self.now (map source_seen made)) }
    {
        let asked = Asked { name, index };
        let sayings = self.sayings(alloc, self.sources_by_name(frame), &asked)?;
        all_sources_said(alloc, sayings)
    }

    /// The sources of an element, entered at an index: the parts of its frame's sources, and what its declaration adds.
    pub fn element_sources(
        &self,
        alloc: Global,
        member: &Member<'t>,
        index: &[u32],
    ) -> Result<List<Source<'t>>, NoMemory>
        requires { IsFrame self.now member.now.home.0 }
        ensures are { IfOk result (AreElementSources self.now member.now index.now) }
        ensures exist { IfOk result (λ made. AreFrames self.now (map source_seen made)) }
    {
        let asked = Asked {
            name: member.name,
            index,
        };
        let sayings = self.sayings(alloc, self.sources_by_name(member.home), &asked)?;
        let replaced = is_redeclared(sayings.as_slice());
        let mut made = all_sources_said(alloc, sayings)?;
        extend_declared(alloc, &mut made, member, index, replaced)?;
        Ok(made)
    }

    /// The sources of a class that is an element: a value for the class itself is dropped.
    pub fn class_sources(
        &self,
        alloc: Global,
        member: &Member<'t>,
    ) -> Result<List<Source<'t>>, NoMemory>
        requires { IsFrame self.now member.now.home.0 }
        ensures are { IfOk result (AreClassSources self.now member.now) }
        ensures exist { IfOk result (λ made. AreFrames self.now (map source_seen made)) }
    {
        let made = self.element_sources(alloc, member, &[])?;
        all_without_value(alloc, made)
    }

    /// The sources of a component, entered at an index: those of the element, which have passed through it, then those with
    /// which the class of its type was found.
    pub fn component_sources(
        &self,
        alloc: Global,
        member: &Member<'t>,
        index: &[u32],
        class: FrameId,
    ) -> Result<List<Source<'t>>, NoMemory>
        requires home { IsFrame self.now member.now.home.0 }
        requires class { IsFrame self.now class.0 }
        ensures are { IfOk result (AreComponentSources self.now member.now index.now class.0) }
        ensures exist { IfOk result (λ made. AreFrames self.now (map source_seen made)) }
    {
        let made = self.element_sources(alloc, member, index)?;
        let mut passed = all_through_component(alloc, made)?;
        extend_sources(alloc, &mut passed, self.sources(class).as_slice())?;
        Ok(passed)
    }

    /// The sources of a base of a frame, whose class was found as that frame: the frame's own, what its class adds, then those
    /// with which the class of the base was found.
    pub fn base_sources(
        &self,
        alloc: Global,
        frame: FrameId,
        row: &Row<'t>,
        clause: &Clause<'t>,
        base: FrameId,
    ) -> Result<List<Source<'t>>, NoMemory>
        requires frame { IsFrame self.now frame.0 }
        requires base { IsFrame self.now base.0 }
        ensures are { IfOk result (AreBaseSources self.now frame.0 row.now clause.now base.0) }
        ensures exist { IfOk result (λ made. AreFrames self.now (map source_seen made)) }
    {
        let mut made = List::new(alloc);
        extend_sources(alloc, &mut made, self.sources(frame).as_slice())?;
        extend_inherited(alloc, &mut made, frame, row, clause)?;
        extend_sources(alloc, &mut made, self.sources(base).as_slice())?;
        Ok(made)
    }
}
