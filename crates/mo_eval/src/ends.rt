//! What the ends of connects name and select (Modelica Language Specification 3.5, sections 9.1 and 9.3).
#![tactic(auto, using(mo_names::proofs::Later::later))]

ghost use Rattle.std.specs.Prelude.{◌≡◌, ◌<◌, Ok, Some, IfOk, length, List as Seq};
ghost use Rattle.mo_scope.specs.Frames.{Frame};
ghost use Rattle.mo_scope.specs.Outcome.{Gives as GivesSeen};
ghost use Rattle.mo_scope.specs.Worlds.{World, Grows, IsFrame, frames_of, table_in};
ghost use Rattle.mo_eval.specs.Ends.{Selected as SelectedFrom, IsEnded, ended_by, ended_in, ended_of, ended_seen, first_identifier, unless_removed, ended_at};
ghost use Rattle.mo_eval.specs.Keeping.{IsKept};
ghost use Rattle.mo_eval.specs.References.{Components};
ghost use Rattle.mo_eval.specs.steps.Sites.{part_in, scope_of};
ghost use Rattle.mo_eval.specs.Values.{most_references};
ghost use Rattle.mo_eval.specs.steps.Absence.{Removes, as_stopped};
ghost use Rattle.mo_eval.specs.steps.Ending.{AreSelected, selected_by, selected_seen};
ghost use Rattle.mo_eval.specs.steps.Naming.{AreNames, names_seen};
ghost use Rattle.mo_syntax.specs.Outcome.{Outcome, and_then};

use crate::absent::Absent;
use crate::names::{Name, Referred, named};
use crate::reader::Reader;
use crate::references::{elements_selected, handed_in};
use crate::resolve::Site;
use crate::selections::selections;
use mo_flat::Subscript;
use mo_scope::{Member, Scopes};
use mo_syntax::{List, Place, Reference, Stop};

/// What an end of a connect names.
#[derive(Drop)]
pub enum Ended<'t> {
    /// A component that its condition removes.
    Removed,
    /// No component.
    Other,
    Selected(Selected<'t>),
}

/// What the components of an end hand in: dimensions, subscripts, none where all of these lie inside, and the elements that are
/// selected, each by the declaration of its component, in its frame, and its index.
#[derive(Drop)]
pub struct Selected<'t> {
    pub dims: List<u32>,
    pub subs: List<Subscript>,
    pub elements: List<(Member<'t>, List<u32>)>,
}

/// The place of a name is that of its first identifier.
fn place_of(reference: &Reference) -> Place
    ensures { result ≡ first_identifier reference.now.parts }
{
    match reference.parts.as_slice() {
        [] => Place { file: 0, byte: 0 },
        [part, ..] => part.place,
    }
}

/// What the components of an end select, or the one among them that is removed.
fn selected_elements<'t>(
    reader: &mut Reader<'t>,
    s: &mut Scopes<'t>,
    site: &Site,
    place: Place,
    names: &[Name<'_, 't>],
) -> Result<Selected<'t>, Absent>
    requires some { 0 < length names.now }
    requires left { site.now.left ≡ most_references }
    requires frame { IsFrame s.old site.now.at.now.frame.0 }
    requires names { AreNames s.old names.now }
    requires kept { IsKept s.old reader.old }
    ensures grows { Grows s.old s.new }
    ensures kept { IsKept s.new reader.new }
    ensures there { IfOk result (AreSelected s.new) }
    ensures exact { GivesSeen (selected_seen (frames_of s.new)) (as_stopped Removes result) (selected_by (table_in s.old) place (names_seen (part_in s.old site.now) (frames_of s.old) names.now)) }
{
    let deeper = site.left - 1;
    let first = names[0].member;
    let chosen = selections(reader, s, site, deeper, first, names)?;
    let elements = elements_selected(reader, s, deeper, place, &first, chosen.as_slice())?;
    let (dims, subs) = handed_in(reader.alloc, chosen)?;
    Ok(Selected {
        dims,
        subs,
        elements,
    })
}

/// An end that names a component which is removed is removed.
fn or_removed<'t>(answer: Result<Selected<'t>, Absent>) -> Result<Ended<'t>, Stop>
    ensures there { (world : World) → IfOk answer.entry (AreSelected world) → IfOk result (IsEnded world) }
    ensures exact { (frames : Seq Frame) (told : Outcome SelectedFrom) → GivesSeen (selected_seen frames) (as_stopped Removes answer.entry) (and_then told (λ selected. Ok (ended_by (Some selected)))) → GivesSeen (ended_seen frames) result (and_then (unless_removed told) (λ selected. Ok (ended_by selected))) }
{
    match answer {
        Ok(selected) => Ok(Ended::Selected(selected)),
        Err(Absent::Removed(_)) => Ok(Ended::Removed),
        Err(Absent::Stopped(Stop::NoMemory)) => Err(Stop::NoMemory),
        Err(Absent::Stopped(Stop::Broken(broken))) => {
            // A rule has a number from 1 on.
            let _number = broken.rule.number();
            Err(Stop::Broken(broken))
        }
    }
}

/// What an end selects whose identifiers find these components.
fn with_components<'t>(
    reader: &mut Reader<'t>,
    s: &mut Scopes<'t>,
    site: &Site,
    place: Place,
    names: &[Name<'_, 't>],
) -> Result<Ended<'t>, Stop>
    requires left { site.now.left ≡ most_references }
    requires frame { IsFrame s.old site.now.at.now.frame.0 }
    requires names { AreNames s.old names.now }
    requires kept { IsKept s.old reader.old }
    ensures grows { Grows s.old s.new }
    ensures kept { IsKept s.new reader.new }
    ensures there { IfOk result (IsEnded s.new) }
    ensures exact { GivesSeen (ended_at s.new) result (ended_in (table_in s.old) place (Components (names_seen (part_in s.old site.now) (frames_of s.old) names.now))) }
{
    if names.is_empty() {
        return Ok(Ended::Other);
    }
    or_removed(selected_elements(reader, s, site, place, names))
}

/// What an end names, and the elements that it selects.
pub(crate) fn end_named<'t>(
    reader: &mut Reader<'t>,
    s: &mut Scopes<'t>,
    site: &Site,
    reference: &Reference,
) -> Result<Ended<'t>, Stop>
    requires left { site.now.left ≡ most_references }
    requires frame { IsFrame s.old site.now.at.now.frame.0 }
    requires kept { IsKept s.old reader.old }
    ensures grows { Grows s.old s.new }
    ensures kept { IsKept s.new reader.new }
    ensures there { IfOk result (IsEnded s.new) }
    ensures exact { GivesSeen (ended_at s.new) result (ended_of (table_in s.old) (scope_of s.old site.now) reference.now) }
{
    let place = place_of(reference);
    let names = named(reader.alloc, s, site, reference)?;
    match names {
        Referred::Components(names) => { with_components(reader, s, site, place, names.as_slice()) }
        Referred::Other(_, _) => Ok(Ended::Other),
    }
}
