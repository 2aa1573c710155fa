//! What the identifiers of a reference select, along the first element (Modelica Language Specification 3.5, section 10.5).
#![tactic(auto, using(mo_names::proofs::Later::later))]

ghost use Rattle.std.specs.Prelude.{◌≡◌, ◌<◌, Some, option_map, replicate, IfOk, IfSome};
ghost use Rattle.mo_syntax.specs.declared.expr.Expr.{Expr as Tree};
ghost use Rattle.mo_scope.specs.Sights.{member_at};
ghost use Rattle.mo_scope.specs.Outcome.{Gives as GivesSeen};
ghost use Rattle.mo_scope.specs.Worlds.{Grows, IsFrame, frame_at, frames_of, table_in};
ghost use Rattle.mo_names.specs.Sights.{IsMember};
ghost use Rattle.mo_typing.specs.Outcome.{Gives};
ghost use Rattle.mo_eval.specs.Keeping.{IsKept};
ghost use Rattle.mo_eval.specs.Contexts.{Part as PartOf};
ghost use Rattle.mo_eval.specs.References.{component_behind, dims_at, selection_at, selections, there};
ghost use Rattle.mo_eval.specs.steps.Sites.{part_in, elements_in};
ghost use Rattle.mo_eval.specs.steps.Absence.{Removal, as_stopped};
ghost use Rattle.mo_eval.specs.steps.Naming.{AreNames, name_seen, names_seen};
ghost use Rattle.mo_eval.specs.steps.Parts.{as_identifier};
ghost use Rattle.mo_eval.specs.steps.Selecting.{component_in, component_standing, member_behind, next_behind, next_selected, reading_in, selection_seen, selections_seen, dims_there};

use crate::absent::Absent;
use crate::components::is_there;
use crate::dimensions::dims;
use crate::names::Name;
use crate::reader::Reader;
use crate::resolve::Site;
use crate::sizes::count_of_dims;
use crate::subscripts::read_subscripts;
use mo_flat::Subscript;
use mo_lookup::{enter_component, find_element, stands_for};
use mo_names::{Found, Reached};
use mo_scope::{Member, Scopes};
use mo_syntax::{FrameId, List, NoMemory, Part, Place, Stop, Text, broken, rules};
use mo_values::layers::answer;
use mo_values::selecting::{selected, within};
use std::alloc::Global;

/// An identifier with the dimensions of its component and the subscripts.
#[derive(Drop)]
pub(crate) struct Selection<'a> {
    pub(crate) name: &'a Text,
    pub(crate) place: Place,
    pub(crate) dims: List<u32>,
    pub(crate) subs: List<Subscript>,
}

/// Asks that a component is there, at its identifier.
#[cycle(resolving)]
pub(crate) fn there<'t>(
    reader: &mut Reader<'t>,
    s: &mut Scopes<'t>,
    deeper: u64,
    place: Place,
    member: &Member<'t>,
) -> Result<(), Absent>
    requires member { IsMember s.old member.now }
    requires kept { IsKept s.old reader.old }
    ensures grows { Grows s.old s.new }
    ensures kept { IsKept s.new reader.new }
    ensures exact { (asking : Removal) → Gives (as_stopped asking result) (there (reading_in asking s.old deeper) place (member_at s.old member.now)) }
{
    let there = is_there(reader, s, deeper, member)?;
    if !there {
        return Err(Absent::Removed(place));
    }
    Ok(())
}

/// The dimensions of a component that is there.
#[cycle(resolving)]
pub(crate) fn dims_there<'t>(
    reader: &mut Reader<'t>,
    s: &mut Scopes<'t>,
    deeper: u64,
    place: Place,
    member: &Member<'t>,
) -> Result<List<u32>, Absent>
    requires member { IsMember s.old member.now }
    requires kept { IsKept s.old reader.old }
    ensures grows { Grows s.old s.new }
    ensures kept { IsKept s.new reader.new }
    ensures exact { (asking : Removal) → Gives (as_stopped asking result) (dims_there (reading_in asking s.old deeper) place (member_at s.old member.now)) }
{
    there(reader, s, deeper, place, member)?;
    Ok(dims(reader, s, deeper, member)?)
}

/// So many dimensions of size 0.
fn nothings(alloc: Global, n: usize) -> Result<List<u32>, NoMemory>
    ensures { IfOk result (λ made. made ≡ replicate n 0) }
{
    let mut made = List::new(alloc);
    for _k in 0..n {
        made.push(0)?;
    }
    Ok(made)
}

/// The dimensions of the first element that is selected; where none is, as many of size 0.
#[cycle(resolving)]
fn dims_at<'t>(
    reader: &mut Reader<'t>,
    s: &mut Scopes<'t>,
    deeper: u64,
    member: &Option<Member<'t>>,
    name: &Name<'_, 't>,
) -> Result<List<u32>, Absent>
    requires member { IfSome member.now (IsMember s.old) }
    requires name { IsMember s.old name.now.member }
    requires kept { IsKept s.old reader.old }
    ensures grows { Grows s.old s.new }
    ensures kept { IsKept s.new reader.new }
    ensures exact { (asking : Removal) (f : Tree → PartOf) → Gives (as_stopped asking result) (dims_at (table_in s.old) (reading_in asking s.old deeper) (option_map (member_at s.old) member.now) (name_seen f (frames_of s.old) name.now)) }
{
    match member {
        Some(member) => dims_there(reader, s, deeper, name.part.place, member),
        None => {
            let n = count_of_dims(reader.alloc, s, &name.member)?;
            Ok(nothings(reader.alloc, n)?)
        }
    }
}

/// What an identifier selects.
#[cycle(resolving)]
fn selection_at<'a, 't>(
    reader: &mut Reader<'t>,
    s: &mut Scopes<'t>,
    site: &Site,
    deeper: u64,
    member: &Option<Member<'t>>,
    name: &Name<'a, 't>,
) -> Result<Selection<'a>, Absent>
    requires depth { deeper < site.now.left }
    requires frame { IsFrame s.old site.now.at.now.frame.0 }
    requires member { IfSome member.now (IsMember s.old) }
    requires name { IsMember s.old name.now.member }
    requires kept { IsKept s.old reader.old }
    ensures grows { Grows s.old s.new }
    ensures kept { IsKept s.new reader.new }
    ensures exact { (asking : Removal) → GivesSeen selection_seen (as_stopped asking result) (selection_at (table_in s.old) (reading_in asking s.old deeper) (elements_in s.old site.now.left) (option_map (member_at s.old) member.now) (name_seen (part_in s.old site.now) (frames_of s.old) name.now)) }
{
    let part = name.part;
    let dims = dims_at(reader, s, deeper, member, name)?;
    let subs = read_subscripts(reader, s, site, dims.as_slice(), part.subs.as_slice())?;
    Ok(Selection {
        name: &part.name,
        place: part.place,
        dims,
        subs,
    })
}

/// The component that one among the elements of a frame stands for.
fn standing<'t>(
    alloc: Global,
    s: &mut Scopes<'t>,
    place: Place,
    frame: FrameId,
    part: &Member<'t>,
) -> Result<Member<'t>, Stop>
    requires frame { IsFrame s.old frame.0 }
    requires part { IsMember s.old part.now }
    ensures grows { Grows s.old s.new }
    ensures there { IfOk result (IsMember s.new) }
    ensures exact { GivesSeen (member_at s.new) result (component_standing (table_in s.old) place (frame_at s.old frame.0) (member_at s.old part.now)) }
{
    match stands_for(alloc, s, &Found::Component(frame, *part), place) {
        Ok(Found::Component(_, member)) => Ok(member),
        Ok(Found::Class(_, _)) => Err(Stop::Broken(broken(rules::NAME_NOT_FOUND, place))),
        Ok(Found::Literal(_, _)) => Err(Stop::Broken(broken(rules::NAME_NOT_FOUND, place))),
        Ok(Found::Iteration(_)) => Err(Stop::Broken(broken(rules::NAME_NOT_FOUND, place))),
        Ok(Found::Function(_)) => Err(Stop::Broken(broken(rules::NAME_NOT_FOUND, place))),
        Ok(Found::Time) => Err(Stop::Broken(broken(rules::NAME_NOT_FOUND, place))),
        Err(stop) => Err(stop),
    }
}

/// The component of that name in the frame of a component.
fn component_in<'t>(
    alloc: Global,
    s: &mut Scopes<'t>,
    place: Place,
    frame: FrameId,
    name: &Text,
) -> Result<Member<'t>, Stop>
    requires frame { IsFrame s.old frame.0 }
    ensures grows { Grows s.old s.new }
    ensures there { IfOk result (IsMember s.new) }
    ensures exact { GivesSeen (member_at s.new) result (component_in (table_in s.old) place (frame_at s.old frame.0) name.now) }
{
    match find_element(alloc, s, frame, name, place) {
        Ok(Reached::Element(part)) => standing(alloc, s, place, frame, &part),
        Ok(Reached::Other(_)) => Err(Stop::Broken(broken(rules::NAME_NOT_FOUND, place))),
        Ok(Reached::Absent) => Err(Stop::Broken(broken(rules::NAME_NOT_FOUND, place))),
        Err(stop) => Err(stop),
    }
}

/// The component of that name in an element of a component.
pub(crate) fn component_behind<'t>(
    alloc: Global,
    s: &mut Scopes<'t>,
    place: Place,
    member: &Member<'t>,
    index: &[u32],
    name: &Text,
) -> Result<Member<'t>, Stop>
    requires member { IsMember s.old member.now }
    ensures grows { Grows s.old s.new }
    ensures there { IfOk result (IsMember s.new) }
    ensures exact { GivesSeen (member_at s.new) result (component_behind (table_in s.old) place (member_at s.old member.now) index.now name.now) }
{
    let frame = enter_component(alloc, s, member, index)?;
    component_in(alloc, s, place, frame, name)
}

/// The next component in the first element that is selected, none where none is.
fn next_selected<'t>(
    alloc: Global,
    s: &mut Scopes<'t>,
    member: &Member<'t>,
    selection: &Selection,
    next: &Part,
) -> Result<Option<Member<'t>>, Stop>
    requires member { IsMember s.old member.now }
    ensures grows { Grows s.old s.new }
    ensures there { IfOk result (λ behind. IfSome behind (IsMember s.new)) }
    ensures exact { (f : Tree → PartOf) → GivesSeen (option_map (member_at s.new)) result (next_selected (table_in s.old) (member_at s.old member.now) (selection_seen selection.now) (as_identifier f next.now)) }
{
    let indices = selected(alloc, selection.dims.as_slice(), selection.subs.as_slice())?;
    let Some(index) = indices.get(0) else {
        return Ok(None);
    };
    let behind = component_behind(alloc, s, next.place, member, index.as_slice(), &next.name)?;
    Ok(Some(behind))
}

/// The next component, if the one before is there; a subscript outside its dimension breaks rule 32 before.
fn next_behind<'t>(
    alloc: Global,
    s: &mut Scopes<'t>,
    member: &Option<Member<'t>>,
    selection: &Selection,
    next: &Part,
) -> Result<Option<Member<'t>>, Stop>
    requires member { IfSome member.now (IsMember s.old) }
    ensures grows { Grows s.old s.new }
    ensures there { IfOk result (λ behind. IfSome behind (IsMember s.new)) }
    ensures exact { (f : Tree → PartOf) → GivesSeen (option_map (member_at s.new)) result (next_behind (table_in s.old) (option_map (member_at s.old) member.now) (selection_seen selection.now) (as_identifier f next.now)) }
{
    answer(within(selection.dims.as_slice(), selection.subs.as_slice()))?;
    match member {
        None => Ok(None),
        Some(member) => next_selected(alloc, s, member, selection, next),
    }
}

/// The next component in the first element that is selected, if there is one more identifier.
fn member_behind<'t>(
    alloc: Global,
    s: &mut Scopes<'t>,
    member: &Option<Member<'t>>,
    selection: &Selection,
    names: &[Name<'_, 't>],
) -> Result<Option<Member<'t>>, Stop>
    requires member { IfSome member.now (IsMember s.old) }
    ensures grows { Grows s.old s.new }
    ensures there { IfOk result (λ behind. IfSome behind (IsMember s.new)) }
    ensures exact { (f : Tree → PartOf) → GivesSeen (option_map (member_at s.new)) result (member_behind (table_in s.old) (option_map (member_at s.old) member.now) (selection_seen selection.now) (names_seen f (frames_of s.old) names.now)) }
{
    match names {
        [] => Ok(None),
        [next, ..] => next_behind(alloc, s, member, selection, next.part),
    }
}

/// What the identifiers of a reference select, along the first element of each.
#[cycle(resolving)]
pub(crate) fn selections<'a, 't>(
    reader: &mut Reader<'t>,
    s: &mut Scopes<'t>,
    site: &Site,
    deeper: u64,
    first: Member<'t>,
    names: &[Name<'a, 't>],
) -> Result<List<Selection<'a>>, Absent>
    requires depth { deeper < site.now.left }
    requires frame { IsFrame s.old site.now.at.now.frame.0 }
    requires first { IsMember s.old first }
    requires names { AreNames s.old names.now }
    requires kept { IsKept s.old reader.old }
    ensures grows { Grows s.old s.new }
    ensures kept { IsKept s.new reader.new }
    ensures exact { (asking : Removal) → GivesSeen selections_seen (as_stopped asking result) (selections (table_in s.old) (reading_in asking s.old deeper) (elements_in s.old site.now.left) (Some (member_at s.old first.entry)) (names_seen (part_in s.old site.now) (frames_of s.old) names.now)) }
{
    let mut made = List::new(reader.alloc);
    let mut member = Some(first);
    for i in 0..names.len() {
        let selection = selection_at(reader, s, site, deeper, &member, &names[i])?;
        member = member_behind(reader.alloc, s, &member, &selection, &names[i + 1..])?;
        made.push(selection)?;
    }
    Ok(made)
}
