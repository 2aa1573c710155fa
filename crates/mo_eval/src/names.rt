//! What the names of references find (Modelica Language Specification 3.5, sections 4.4.5 and 5.3).
#![tactic(auto, using(mo_names::proofs::Later::later))]

ghost use Rattle.std.specs.Prelude.{◌≡◌, ◌∷◌, [], IfOk, OnOk, List as Seq, Ok, map};
ghost use Rattle.mo_syntax.specs.declared.expr.PartOf.{PartOf as PartTree};
ghost use Rattle.mo_syntax.specs.declared.expr.Expr.{Expr as Tree};
ghost use Rattle.mo_scope.specs.Sights.{member_at};
ghost use Rattle.mo_scope.specs.Frames.{Frame};
ghost use Rattle.mo_scope.specs.Outcome.{Gives as GivesSeen};
ghost use Rattle.mo_scope.specs.Worlds.{World, Grows, IsFrame, frames_of, table_in};
ghost use Rattle.mo_names.specs.Sights.{IsFound, IsMember, found_in, found_at};
ghost use Rattle.mo_typing.specs.Outcome.{Gives};
ghost use Rattle.mo_eval.specs.Contexts.{Part as PartOf};
ghost use Rattle.mo_eval.specs.References.{Named as NamedTree, counted_subscripts, named, named_before, named_from, named_last};
ghost use Rattle.mo_eval.specs.steps.Sites.{part_in, scope_of};
ghost use Rattle.mo_eval.specs.steps.Parts.{as_identifier, as_reference};
ghost use Rattle.mo_eval.specs.steps.Measuring.{GoesOn};
ghost use Rattle.mo_eval.specs.steps.Naming.{AreNames, IsReferred, counted_in, named_behind, named_on, referred_seen, names_seen};

use crate::resolve::Site;
use crate::sizes::count_of_dims;
use mo_lookup::{find_behind, find_first};
use mo_names::Found;
use mo_scope::{Member, Scopes};
use mo_syntax::{List, NoMemory, Part, Place, Reference, Stop, broken, rules};
use std::alloc::Global;

/// A component that a reference names, with its identifier.
#[derive(Clone, Copy)]
pub(crate) struct Name<'a, 't> {
    pub(crate) member: Member<'t>,
    pub(crate) part: &'a Part,
}

/// What the identifiers of a reference find.
#[derive(Drop)]
pub(crate) enum Referred<'a, 't> {
    /// A component behind a class or at the front, with the components behind it.
    Components(List<Name<'a, 't>>),
    /// What else the last identifier finds, at its place.
    Other(Found<'t>, Place),
}

/// What the latest identifier found.
#[derive(Clone, Copy)]
struct Latest<'a, 't> {
    found: Found<'t>,
    part: &'a Part,
}

/// Asks that a component has as many dimensions as its identifier has subscripts.
fn counted_in<'t>(
    alloc: Global,
    s: &mut Scopes<'t>,
    member: &Member<'t>,
    part: &Part,
) -> Result<(), Stop>
    requires member { IsMember s.old member.now }
    ensures grows { Grows s.old s.new }
    ensures exact { Gives result (counted_in (table_in s.old) (member_at s.old member.now) part.now) }
{
    let n = count_of_dims(alloc, s, member)?;
    if n == part.subs.len() {
        Ok(())
    } else {
        Err(Stop::Broken(broken(rules::WRONG_TYPE, part.place)))
    }
}

/// Asks, where an identifier has subscripts, whether it found a component with as many dimensions.
fn counted<'t>(alloc: Global, s: &mut Scopes<'t>, at: &Latest<'_, 't>) -> Result<(), Stop>
    requires found { IsFound s.old at.now.found }
    ensures grows { Grows s.old s.new }
    ensures exact { (f : Tree → PartOf) → Gives result (counted_subscripts (table_in s.old) (found_at s.old at.now.found) (as_identifier f at.now.part.now)) }
{
    let part = at.part;
    if part.subs.is_empty() {
        return Ok(());
    }
    match at.found {
        Found::Component(_, member) => counted_in(alloc, s, &member, part),
        Found::Class(_, _) => Err(Stop::Broken(broken(rules::WRONG_TYPE, part.place))),
        Found::Literal(_, _) => Err(Stop::Broken(broken(rules::WRONG_TYPE, part.place))),
        Found::Iteration(_) => Err(Stop::Broken(broken(rules::WRONG_TYPE, part.place))),
        Found::Function(_) => Err(Stop::Broken(broken(rules::WRONG_TYPE, part.place))),
        Found::Time => Err(Stop::Broken(broken(rules::WRONG_TYPE, part.place))),
    }
}

/// Puts a component that was found at the end of the names.
fn put<'a, 't>(names: &mut List<Name<'a, 't>>, at: &Latest<'a, 't>) -> Result<(), NoMemory>
    ensures there { (world : World) → IsFound world at.now.found → AreNames world names.old → OnOk result (AreNames world names.new) }
    ensures exact { OnOk result ((f : Tree → PartOf) (frames : Seq Frame) (named : NamedTree) → named_behind (names_seen f frames names.new) named ≡ named_behind (names_seen f frames names.old) (named_before (found_in frames at.now.found) (as_identifier f at.now.part.now) named)) }
{
    match at.found {
        Found::Component(_, member) => {
            names.push(Name {
                member,
                part: at.part,
            })?;
            Ok(())
        }
        Found::Class(_, _) => Ok(()),
        Found::Literal(_, _) => Ok(()),
        Found::Iteration(_) => Ok(()),
        Found::Function(_) => Ok(()),
        Found::Time => Ok(()),
    }
}

/// What the next identifier finds, the one before it being put to the names.
fn step<'a, 't>(
    alloc: Global,
    s: &mut Scopes<'t>,
    names: &mut List<Name<'a, 't>>,
    at: &Latest<'a, 't>,
    next: &'a Part,
) -> Result<Latest<'a, 't>, Stop>
    requires found { IsFound s.old at.now.found }
    requires names { AreNames s.old names.old }
    ensures grows { Grows s.old s.new }
    ensures found { IfOk result (λ at. IsFound s.new at.found) }
    ensures names { OnOk result (AreNames s.new names.new) }
    ensures part { IfOk result (λ at. at.part.now ≡ next.now) }
    ensures exact { (f : Tree → PartOf) (others : Seq (PartTree PartOf)) → GoesOn result (named_on (table_in s.old) (names_seen f (frames_of s.old) names.old) (found_at s.old at.now.found) (as_identifier f at.now.part.now) (as_identifier f next.now ∷ others)) (λ at. named_on (table_in s.old) (names_seen f (frames_of s.new) names.new) (found_at s.new at.found) (as_identifier f at.part.now) others) }
{
    counted(alloc, s, at)?;
    put(names, at)?;
    match find_behind(alloc, s, &at.found, &next.name, next.place) {
        Ok(found) => Ok(Latest { found, part: next }),
        Err(stop) => Err(stop),
    }
}

/// What a reference names by its last identifier and the components before.
fn last_named<'a, 't>(
    names: List<Name<'a, 't>>,
    at: &Latest<'a, 't>,
) -> Result<Referred<'a, 't>, Stop>
    ensures there { (world : World) → IsFound world at.now.found → AreNames world names.entry → IfOk result (IsReferred world) }
    ensures exact { (f : Tree → PartOf) (frames : Seq Frame) → GivesSeen (referred_seen f frames) result (Ok (named_behind (names_seen f frames names.entry) (named_last (found_in frames at.now.found) (as_identifier f at.now.part.now)))) }
{
    let mut names = names;
    let part = at.part;
    match at.found {
        Found::Component(_, member) => {
            names.push(Name { member, part })?;
            Ok(Referred::Components(names))
        }
        Found::Class(_, _) => Ok(Referred::Other(at.found, part.place)),
        Found::Literal(_, _) => Ok(Referred::Other(at.found, part.place)),
        Found::Iteration(_) => Ok(Referred::Other(at.found, part.place)),
        Found::Function(_) => Ok(Referred::Other(at.found, part.place)),
        Found::Time => Ok(Referred::Other(at.found, part.place)),
    }
}

/// What a reference names by its last identifier, which is counted first, and the components before.
fn last_counted<'a, 't>(
    alloc: Global,
    s: &mut Scopes<'t>,
    names: List<Name<'a, 't>>,
    at: &Latest<'a, 't>,
) -> Result<Referred<'a, 't>, Stop>
    requires found { IsFound s.old at.now.found }
    requires names { AreNames s.old names }
    ensures grows { Grows s.old s.new }
    ensures there { IfOk result (IsReferred s.new) }
    ensures exact { (f : Tree → PartOf) → GivesSeen (referred_seen f (frames_of s.new)) result (named_on (table_in s.old) (names_seen f (frames_of s.old) names.entry) (found_at s.old at.now.found) (as_identifier f at.now.part.now) []) }
{
    match counted(alloc, s, at) {
        Ok(()) => last_named(names, at),
        Err(stop) => Err(stop),
    }
}

/// What identifiers find behind what the first one found.
fn parts_behind<'a, 't>(
    alloc: Global,
    s: &mut Scopes<'t>,
    first: &Latest<'a, 't>,
    others: &'a [Part],
) -> Result<Referred<'a, 't>, Stop>
    requires found { IsFound s.old first.now.found }
    ensures grows { Grows s.old s.new }
    ensures there { IfOk result (IsReferred s.new) }
    ensures exact { (f : Tree → PartOf) → GivesSeen (referred_seen f (frames_of s.new)) result (named_from (table_in s.old) (found_at s.old first.now.found) (as_identifier f first.now.part.now) (map (as_identifier f) others.now)) }
{
    let mut names = List::new(alloc);
    let mut at = *first;
    for next in others {
        match step(alloc, s, &mut names, &at, next) {
            Ok(latest) => at = latest,
            Err(stop) => return Err(stop),
        }
    }
    last_counted(alloc, s, names, &at)
}

/// What identifiers find, each behind those before.
fn named_parts<'a, 't>(
    alloc: Global,
    s: &mut Scopes<'t>,
    site: &Site,
    top: bool,
    part: &'a Part,
    others: &'a [Part],
) -> Result<Referred<'a, 't>, Stop>
    requires frame { IsFrame s.old site.now.at.now.frame.0 }
    ensures grows { Grows s.old s.new }
    ensures there { IfOk result (IsReferred s.new) }
    ensures exact { GivesSeen (referred_seen (part_in s.old site.now) (frames_of s.new)) result (named (table_in s.old) (scope_of s.old site.now) (record { top = top; parts = as_identifier (part_in s.old site.now) part.now ∷ map (as_identifier (part_in s.old site.now)) others.now })) }
{
    match find_first(alloc, s, site.at, top, &part.name, part.place) {
        Ok(found) => parts_behind(alloc, s, &Latest { found, part }, others),
        Err(stop) => Err(stop),
    }
}

/// What the identifiers of a reference find, each behind those before. Where one has subscripts, it is a component with as many
/// dimensions.
pub(crate) fn named<'a, 't>(
    alloc: Global,
    s: &mut Scopes<'t>,
    site: &Site,
    reference: &'a Reference,
) -> Result<Referred<'a, 't>, Stop>
    requires frame { IsFrame s.old site.now.at.now.frame.0 }
    ensures grows { Grows s.old s.new }
    ensures there { IfOk result (IsReferred s.new) }
    ensures exact { GivesSeen (referred_seen (part_in s.old site.now) (frames_of s.new)) result (named (table_in s.old) (scope_of s.old site.now) (as_reference (part_in s.old site.now) reference.now)) }
{
    match reference.parts.as_slice() {
        [] => Err(Stop::Broken(broken(rules::NAME_NOT_FOUND, Place { file: 0, byte: 0 }))),
        [part, others @ ..] => named_parts(alloc, s, site, reference.top, part, others),
    }
}
