//! All elements that a reference selects (Modelica Language Specification 3.5, section 10.5).
#![tactic(auto, using(mo_names::proofs::Later::later))]

ghost use Rattle.std.specs.Prelude.{◌≡◌, ◌≤◌, ◌++◌, length, map, Ok, IfOk, OnOk};
ghost use Rattle.mo_scope.specs.Sights.{member_at};
ghost use Rattle.mo_scope.specs.Outcome.{Gives as GivesSeen};
ghost use Rattle.mo_scope.specs.Places.{Every};
ghost use Rattle.mo_scope.specs.Worlds.{Grows, frames_of, table_in};
ghost use Rattle.mo_names.specs.Sights.{IsMember};
ghost use Rattle.mo_typing.specs.Dims.{are_equal};
ghost use Rattle.mo_typing.specs.Outcome.{Gives};
ghost use Rattle.mo_eval.specs.Keeping.{IsKept};
ghost use Rattle.mo_eval.specs.References.{agrees, elements_below};
ghost use Rattle.mo_values.specs.Selected.{selected};
ghost use Rattle.mo_eval.specs.steps.Absence.{Removal, as_stopped};
ghost use Rattle.mo_eval.specs.steps.Selecting.{each_below, elements_more, elements_seen, reading_in, selection_seen, selections_seen};

use crate::absent::Absent;
use crate::reader::Reader;
use crate::selections::{Selection, component_behind, dims_there};
use mo_scope::{Member, Scopes, copied};
use mo_syntax::{List, NoMemory, Place, Stop, broken, rules};
use mo_values::selecting::selected;
use std::alloc::Global;

/// An element by the declaration of its component, in its frame, and its index.
pub(crate) type At<'t> = (Member<'t>, List<u32>);

fn are_equal(a: &[u32], b: &[u32]) -> bool
    ensures { result ≡ are_equal a.now b.now }
{
    a == b
}

/// Asks that an element which is selected is there and has the dimensions of the first one.
#[cycle(resolving)]
fn agrees<'t>(
    reader: &mut Reader<'t>,
    s: &mut Scopes<'t>,
    deeper: u64,
    place: Place,
    selection: &Selection,
    member: &Member<'t>,
) -> Result<(), Absent>
    requires member { IsMember s.old member.now }
    requires kept { IsKept s.old reader.old }
    ensures grows { Grows s.old s.new }
    ensures kept { IsKept s.new reader.new }
    ensures exact { (asking : Removal) → Gives (as_stopped asking result) (agrees (reading_in asking s.old deeper) place (selection_seen selection.now) (member_at s.old member.now)) }
{
    let dims = dims_there(reader, s, deeper, selection.place, member)?;
    if are_equal(dims.as_slice(), selection.dims.as_slice()) {
        Ok(())
    } else {
        Err(Absent::Stopped(Stop::Broken(broken(rules::WRONG_SIZE, place))))
    }
}

/// Puts the elements of a component with these indices at the end.
fn put_elements<'t>(
    alloc: Global,
    made: &mut List<At<'t>>,
    member: &Member<'t>,
    indices: &[List<u32>],
) -> Result<(), NoMemory>
    ensures { OnOk result (made.new ≡ made.old ++ map (λ index. (member.now, index)) indices.now) }
{
    for index in indices {
        let index = copied(alloc, index.as_slice())?;
        made.push((*member, index))?;
    }
    Ok(())
}

/// The indices that the subscripts of an identifier select.
fn indices_of(alloc: Global, selection: &Selection) -> Result<List<List<u32>>, Stop>
    ensures told { Gives result (Ok (selected selection.now.dims selection.now.subs)) }
    ensures value { IfOk result (λ indices. indices ≡ selected selection.now.dims selection.now.subs) }
{
    let indices = selected(alloc, selection.dims.as_slice(), selection.subs.as_slice())?;
    Ok(indices)
}

/// Puts the elements that are selected below a component at the end.
#[cycle(resolving)]
pub(crate) fn below<'t>(
    reader: &mut Reader<'t>,
    s: &mut Scopes<'t>,
    deeper: u64,
    place: Place,
    member: &Member<'t>,
    chosen: &[Selection],
    made: &mut List<At<'t>>,
) -> Result<(), Absent>
    requires member { IsMember s.old member.now }
    requires there { Every (λ element. IsMember s.old element.0) made.old }
    requires few { length chosen.now ≤ 1000 }
    requires kept { IsKept s.old reader.old }
    ensures grows { Grows s.old s.new }
    ensures kept { IsKept s.new reader.new }
    ensures there { OnOk result (Every (λ element. IsMember s.new element.0) made.new) }
    ensures exact { (asking : Removal) → GivesSeen (λ _. elements_seen (frames_of s.new) made.new) (as_stopped asking result) (elements_more (elements_seen (frames_of s.old) made.old) (elements_below (table_in s.old) (reading_in asking s.old deeper) place (member_at s.old member.now) (selections_seen chosen.now))) }
{
    let [selection, others @ ..] = chosen else {
        return Ok(());
    };
    agrees(reader, s, deeper, place, selection, member)?;
    let indices = indices_of(reader.alloc, selection)?;
    below_each(
        reader,
        s,
        deeper,
        place,
        (member, indices.as_slice()),
        others,
        made,
    )
}

/// Puts the elements that are selected behind these indices of a component at the end.
#[cycle(resolving)]
fn below_each<'t>(
    reader: &mut Reader<'t>,
    s: &mut Scopes<'t>,
    deeper: u64,
    place: Place,
    at: (&Member<'t>, &[List<u32>]),
    chosen: &[Selection],
    made: &mut List<At<'t>>,
) -> Result<(), Absent>
    requires member { IsMember s.old at.0.now }
    requires there { Every (λ element. IsMember s.old element.0) made.old }
    requires few { length chosen.now ≤ 1000 }
    requires kept { IsKept s.old reader.old }
    ensures grows { Grows s.old s.new }
    ensures kept { IsKept s.new reader.new }
    ensures there { OnOk result (Every (λ element. IsMember s.new element.0) made.new) }
    ensures exact { (asking : Removal) → GivesSeen (λ _. elements_seen (frames_of s.new) made.new) (as_stopped asking result) (elements_more (elements_seen (frames_of s.old) made.old) (each_below (table_in s.old) (reading_in asking s.old deeper) place (member_at s.old at.entry.0.now) (selections_seen chosen.now) at.entry.1.now)) }
{
    let (member, indices) = at;
    let [next, ..] = chosen else {
        return Ok(put_elements(reader.alloc, made, member, indices)?);
    };
    for index in indices {
        let part = component_behind(
            reader.alloc,
            s,
            next.place,
            member,
            index.as_slice(),
            next.name,
        )?;
        below(reader, s, deeper, place, &part, chosen, made)?;
    }
    Ok(())
}
