//! Lookup of the names of classes, and inheritance: each needs the other.
#![tactic(auto, using(crate::proofs::Later::later))]

ghost use Rattle.std.specs.Prelude.{◌≡◌, ◌+◌, ◌<◌, ◌∷◌, drop, length, map, option_map, IfOk, IfSome, Some, None};
ghost use Rattle.mo_scope.specs.Lookup.{Reached as ReachedSeen, behind_class as found_behind_class, counted as counted_member, found_element as element_found, found_in as found_in_frame, found_by_import as found_by_clause, found_by_star as found_by_its_star, import_behind as names_behind, imported as found_imported, imported_package as package_imported, is_package as is_package_frame, reached as reached_of, through_star as found_through_star, walked as walked_of};
ghost use Rattle.mo_scope.specs.Outcome.{Gives};
ghost use Rattle.mo_scope.specs.Worlds.{Grows, IsFrame, frame_at, frames_of, table_in, row_of_frame};
ghost use Rattle.mo_scope.specs.Sights.{member_at};
ghost use Rattle.mo_names.specs.Sights.{IsFound, IsMember, IsReached, IsWalk, asks, met_seen, reached_seen, walk_at, found_at};
ghost use Rattle.mo_names.specs.steps.Parts.{imports_of};
ghost use Rattle.mo_names.specs.steps.Lookup.{also_found, counted_reached as reached_counted, before_dot as place_before, found_by as found_by_kind, found_by_all, found_by_names_or_stars, imports_met, import_step as found_step, package_at_top as top_package, package_behind as packages_behind, package_step as stepped_package};
ghost use Rattle.mo_syntax.specs.Outcome.{Outcome, and_then};

use crate::bases::walked_class;
use crate::depth::depth_inside;
use crate::found::{Ask, Found, Met, Reached};
use crate::given::{
    also_given, are_open_given, behind_given, class_given, element_given, met_given, own_met,
    reached_given, star_given,
};
use crate::importing::{import_at, import_count, imported_names};
use crate::kept::{kept_package, reached_at_hand, walk_given};
use crate::own::are_own_open;
use crate::reach::{class_wanted, first_at_top, is_busy, shown};
use crate::start::busy_with;
use crate::walk::Walk;
use mo_scope::{Member, Scopes, is_encapsulated};
use mo_syntax::{FrameId, Import, NoMemory, Place, Stop, Text, rules, stop};
use std::alloc::Global;

/// The elements of a frame. A class whose bases are being found breaks rule 18 where they are asked for again.
#[cycle(names)]
pub fn walked<'t>(
    alloc: Global,
    s: &mut Scopes<'t>,
    ask: &Ask,
    frame: FrameId,
) -> Result<Walk<'t>, Stop>
    requires { IsFrame s.old frame.0 }
    ensures grows { Grows s.old s.new }
    ensures value { Gives (walk_at s.new) result (walked_of (table_in s.old) ask.now.left ask.now.busy.now ask.now.place (frame_at s.old frame.0)) }
    ensures stand { IfOk result (IsWalk s.new) }
{
    let class = s.class_of(frame);
    if ask.left == 0 {
        return Err(stop(rules::BASE_CLASS_CYCLE, ask.place));
    }
    if is_busy(ask.busy, class) {
        return Err(stop(rules::BASE_CLASS_CYCLE, ask.place));
    }
    let depth = depth_inside(ask.depth)?;
    let busy = busy_with(alloc, ask.busy, class.0)?;
    let inner = Ask {
        left: ask.left - 1,
        busy: busy.as_slice(),
        place: ask.place,
        depth,
    };
    walked_class(alloc, s, &inner, frame)
}

/// The elements of a frame, which are kept where they are those that it has where no class is having its bases found.
#[cycle(names)]
pub(crate) fn walked_and_kept<'t>(
    alloc: Global,
    s: &mut Scopes<'t>,
    ask: &Ask,
    frame: FrameId,
) -> Result<Walk<'t>, Stop>
    requires { IsFrame s.old frame.0 }
    ensures grows { Grows s.old s.new }
    ensures value { Gives (walk_at s.new) result (walked_of (table_in s.old) ask.now.left ask.now.busy.now ask.now.place (frame_at s.old frame.0)) }
    ensures stand { IfOk result (IsWalk s.new) }
{
    let walk = walked(alloc, s, ask, frame);
    walk_given(alloc, s, ask, frame, walk)
}

/// What a name reaches: among the elements of a frame the own ones come first, and its bases are found only where none of them
/// has the name.
#[cycle(names)]
pub fn reached<'t>(
    alloc: Global,
    s: &mut Scopes<'t>,
    ask: &Ask,
    frame: FrameId,
    name: &Text,
) -> Result<Reached<'t>, Stop>
    requires { IsFrame s.old frame.0 }
    ensures grows { Grows s.old s.new }
    ensures value { Gives (reached_seen (frames_of s.new)) result (reached_of (table_in s.old) (asks (table_in s.old) ask.now) ask.now.place (frame_at s.old frame.0) name.now) }
    ensures stand { IfOk result (IsReached s.new) }
{
    match reached_at_hand(s, ask, frame, name) {
        Some(any) => any,
        None => {
            let walk = walked_and_kept(alloc, s, ask, frame);
            reached_given(s, walk, name)
        }
    }
}

/// Whether the class of a frame declares nothing but classes and constants.
#[cycle(names)]
fn is_package(alloc: Global, s: &mut Scopes, ask: &Ask, frame: FrameId) -> Result<bool, Stop>
    requires { IsFrame s.old frame.0 }
    ensures grows { Grows s.old s.new }
    ensures value { Gives (λ all. all) result (is_package_frame (table_in s.old) (asks (table_in s.old) ask.now) ask.now.place (frame_at s.old frame.0)) }
{
    if let Some(all) = kept_package(s, ask, frame) {
        return Ok(all);
    }
    if is_busy(ask.busy, s.class_of(frame)) {
        return Ok(are_own_open(s, frame));
    }
    let walk = walked_and_kept(alloc, s, ask, frame);
    are_open_given(s, walk)
}

/// Asks that an element counts behind a class: in a class that is no package only encapsulated elements do.
#[cycle(names)]
fn counted<'t>(
    alloc: Global,
    s: &mut Scopes<'t>,
    ask: &Ask,
    place: Place,
    frame: FrameId,
    member: &Member<'t>,
) -> Result<(), Stop>
    requires frame { IsFrame s.old frame.0 }
    requires member { IsMember s.old member.now }
    ensures grows { Grows s.old s.new }
    ensures value { Gives (λ _. member_at s.old member.now) result (counted_member (table_in s.old) (asks (table_in s.old) ask.now) ask.now.place place (frame_at s.old frame.0) (member_at s.old member.now)) }
{
    if is_package(alloc, s, ask, frame)? {
        return Ok(());
    }
    if is_encapsulated(&member.declares) {
        return Ok(());
    }
    Err(stop(rules::NOT_A_PACKAGE, place))
}

/// What was reached in a frame, if it counts behind a class.
#[cycle(names)]
fn counted_given<'t>(
    alloc: Global,
    s: &mut Scopes<'t>,
    ask: &Ask,
    place: Place,
    frame: FrameId,
    any: &Result<Reached<'t>, Stop>,
) -> Result<Reached<'t>, Stop>
    requires frame { IsFrame s.old frame.0 }
    requires any { IfOk any.now (IsReached s.old) }
    ensures grows { Grows s.old s.new }
    ensures value { (told : Outcome ReachedSeen) → Gives (reached_seen (frames_of s.old)) any.now told → Gives (reached_seen (frames_of s.new)) result (and_then told (reached_counted (table_in s.old) (asks (table_in s.old) ask.now) ask.now.place place (frame_at s.old frame.0))) }
    ensures stand { IfOk result (IsReached s.new) }
{
    match any {
        Ok(Reached::Element(member)) => {
            counted(alloc, s, ask, place, frame, member)?;
            Ok(Reached::Element(*member))
        }
        Ok(Reached::Other(found)) => Ok(Reached::Other(*found)),
        Ok(Reached::Absent) => Ok(Reached::Absent),
        Err(stop) => Err(*stop),
    }
}

/// What stands behind a class.
#[cycle(names)]
pub fn behind_class<'t>(
    alloc: Global,
    s: &mut Scopes<'t>,
    ask: &Ask,
    place: Place,
    component: Option<Place>,
    frame: FrameId,
    name: &Text,
) -> Result<Found<'t>, Stop>
    requires { IsFrame s.old frame.0 }
    ensures grows { Grows s.old s.new }
    ensures value { Gives (found_at s.new) result (found_behind_class (table_in s.old) (asks (table_in s.old) ask.now) ask.now.place place component (frame_at s.old frame.0) name.now) }
    ensures stand { IfOk result (IsFound s.new) }
{
    let any = reached(alloc, s, ask, frame, name);
    let counts = counted_given(alloc, s, ask, place, frame, &any);
    behind_given(alloc, s, place, component, frame, &counts)
}

/// One name of an import.
#[cycle(names)]
fn import_step<'t>(
    alloc: Global,
    s: &mut Scopes<'t>,
    ask: &Ask,
    place: Place,
    before: Option<Place>,
    found: &Found<'t>,
    name: &Text,
) -> Result<Found<'t>, Stop>
    requires { IsFound s.old found.now }
    ensures grows { Grows s.old s.new }
    ensures value { Gives (found_at s.new) result (found_step (table_in s.old) (asks (table_in s.old) ask.now) ask.now.place place before (found_at s.old found.now) name.now) }
    ensures stand { IfOk result (IsFound s.new) }
{
    let frame = class_wanted(s, place, found)?;
    behind_class(alloc, s, ask, place, before, frame, name)
}

/// The place at which what is found before a dot of an import is no class, where the name with so many before it is not the
/// last.
fn before_dot(names: &[&Text], at: usize, place: Place) -> Option<Place>
    requires { at < length names.now }
    ensures { result ≡ place_before place (drop (at + 1) (map (λ name. name.now) names.now)) }
{
    if at + 1 == names.len() {
        None
    } else {
        Some(place)
    }
}

/// What further names of an import find.
#[cycle(names)]
fn import_behind<'t>(
    alloc: Global,
    s: &mut Scopes<'t>,
    ask: &Ask,
    place: Place,
    first: Found<'t>,
    names: &[&Text],
) -> Result<Found<'t>, Stop>
    requires { IsFound s.old first }
    ensures grows { Grows s.old s.new }
    ensures value { Gives (found_at s.new) result (names_behind (table_in s.old) (asks (table_in s.old) ask.now) ask.now.place place (found_at s.old first.entry) (map (λ name. name.now) names.now)) }
    ensures stand { IfOk result (IsFound s.new) }
{
    let mut found = first;
    for at in 0..names.len() {
        let before = before_dot(names, at, place);
        match import_step(alloc, s, ask, place, before, &found, names[at]) {
            Ok(next) => found = next,
            Err(stop) => return Err(stop),
        }
    }
    Ok(found)
}

/// What a path of an import finds.
#[cycle(names)]
fn imported<'t>(
    alloc: Global,
    s: &mut Scopes<'t>,
    ask: &Ask,
    place: Place,
    names: &[&Text],
) -> Result<Found<'t>, Stop>
    ensures grows { Grows s.old s.new }
    ensures value { Gives (found_at s.new) result (found_imported (table_in s.old) (asks (table_in s.old) ask.now) ask.now.place place (map (λ name. name.now) names.now)) }
    ensures stand { IfOk result (IsFound s.new) }
{
    match names {
        [name, rest @ ..] => match first_at_top(alloc, s, place, name) {
            Ok(first) => import_behind(alloc, s, ask, place, first, rest),
            Err(stop) => Err(stop),
        },
        [] => Err(stop(rules::NAME_NOT_FOUND, place)),
    }
}

/// One name before `.*`.
#[cycle(names)]
fn package_step(
    alloc: Global,
    s: &mut Scopes,
    ask: &Ask,
    place: Place,
    frame: FrameId,
    name: &Text,
) -> Result<FrameId, Stop>
    requires { IsFrame s.old frame.0 }
    ensures grows { Grows s.old s.new }
    ensures value { Gives (λ frame. frame_at s.new frame.0) result (stepped_package (table_in s.old) (asks (table_in s.old) ask.now) ask.now.place place (frame_at s.old frame.0) name.now) }
    ensures stand { IfOk result (λ frame. IsFrame s.new frame.0) }
{
    let found = behind_class(alloc, s, ask, place, Some(place), frame, name);
    class_given(s, place, &found)
}

/// The package that further names before `.*` find.
#[cycle(names)]
fn package_behind(
    alloc: Global,
    s: &mut Scopes,
    ask: &Ask,
    place: Place,
    first: FrameId,
    names: &[Text],
) -> Result<FrameId, Stop>
    requires { IsFrame s.old first.0 }
    ensures grows { Grows s.old s.new }
    ensures value { Gives (λ frame. frame_at s.new frame.0) result (packages_behind (table_in s.old) (asks (table_in s.old) ask.now) ask.now.place place (frame_at s.old first.0) names.now) }
    ensures stand { IfOk result (λ frame. IsFrame s.new frame.0) }
{
    let mut frame = first;
    for name in names {
        frame = package_step(alloc, s, ask, place, frame, name)?;
    }
    Ok(frame)
}

/// The class that the first identifier of an import finds.
fn package_at_top(alloc: Global, s: &mut Scopes, place: Place, name: &Text) -> Result<FrameId, Stop>
    ensures grows { Grows s.old s.new }
    ensures value { Gives (λ frame. frame_at s.new frame.0) result (top_package (table_in s.old) place name.now) }
    ensures stand { IfOk result (λ frame. IsFrame s.new frame.0) }
{
    let found = first_at_top(alloc, s, place, name);
    class_given(s, place, &found)
}

/// The package before `.*`, of a first name and those behind it.
#[cycle(names)]
fn package_named(
    alloc: Global,
    s: &mut Scopes,
    ask: &Ask,
    place: Place,
    name: &Text,
    names: &[Text],
) -> Result<FrameId, Stop>
    ensures grows { Grows s.old s.new }
    ensures value { Gives (λ frame. frame_at s.new frame.0) result (package_imported (table_in s.old) (asks (table_in s.old) ask.now) ask.now.place place (name.now ∷ names.now)) }
    ensures stand { IfOk result (λ frame. IsFrame s.new frame.0) }
{
    let first = package_at_top(alloc, s, place, name)?;
    package_behind(alloc, s, ask, place, first, names)
}

/// The package before `.*`.
#[cycle(names)]
fn imported_package(
    alloc: Global,
    s: &mut Scopes,
    ask: &Ask,
    place: Place,
    names: &[Text],
) -> Result<FrameId, Stop>
    ensures grows { Grows s.old s.new }
    ensures value { Gives (λ frame. frame_at s.new frame.0) result (package_imported (table_in s.old) (asks (table_in s.old) ask.now) ask.now.place place names.now) }
    ensures stand { IfOk result (λ frame. IsFrame s.new frame.0) }
{
    match names {
        [name, rest @ ..] => package_named(alloc, s, ask, place, name, rest),
        [] => Err(stop(rules::NAME_NOT_FOUND, place)),
    }
}

/// What a name finds through `.*` of a package.
#[cycle(names)]
fn through_star<'t>(
    alloc: Global,
    s: &mut Scopes<'t>,
    ask: &Ask,
    place: Place,
    frame: FrameId,
    name: &Text,
) -> Result<Option<Found<'t>>, Stop>
    requires { IsFrame s.old frame.0 }
    ensures grows { Grows s.old s.new }
    ensures value { Gives (option_map (found_at s.new)) result (found_through_star (table_in s.old) (asks (table_in s.old) ask.now) ask.now.place place (frame_at s.old frame.0) name.now) }
    ensures stand { IfOk result (λ found. IfSome found (IsFound s.new)) }
{
    let any = reached(alloc, s, ask, frame, name);
    let public = shown(s, &any);
    let counts = counted_given(alloc, s, ask, place, frame, &public);
    star_given(alloc, s, frame, &counts)
}

/// What a qualified or renaming import finds for a name.
#[cycle(names)]
fn found_by_import<'a, 't>(
    alloc: Global,
    s: &mut Scopes<'t>,
    ask: &Ask,
    clause: &'a Import,
    name: &'a Text,
) -> Result<Option<Found<'t>>, Stop>
    ensures grows { Grows s.old s.new }
    ensures value { Gives (option_map (found_at s.new)) result (found_by_clause (table_in s.old) (asks (table_in s.old) ask.now) ask.now.place name.now clause.now) }
    ensures stand { IfOk result (λ found. IfSome found (IsFound s.new)) }
{
    match imported_names(alloc, clause, name) {
        Ok(Some((names, place))) => match imported(alloc, s, ask, place, names.as_slice()) {
            Ok(found) => Ok(Some(found)),
            Err(stop) => Err(stop),
        },
        Ok(None) => Ok(None),
        Err(NoMemory) => Err(Stop::NoMemory),
    }
}

/// What an import clause finds for a name by its star.
#[cycle(names)]
fn found_by_star<'t>(
    alloc: Global,
    s: &mut Scopes<'t>,
    ask: &Ask,
    clause: &Import,
    name: &Text,
) -> Result<Option<Found<'t>>, Stop>
    ensures grows { Grows s.old s.new }
    ensures value { Gives (option_map (found_at s.new)) result (found_by_its_star (table_in s.old) (asks (table_in s.old) ask.now) ask.now.place name.now clause.now) }
    ensures stand { IfOk result (λ found. IfSome found (IsFound s.new)) }
{
    match clause {
        Import::All(path, place) => {
            let frame = imported_package(alloc, s, ask, *place, path.0.as_slice())?;
            through_star(alloc, s, ask, *place, frame, name)
        }
        Import::Renamed(_, _, _) => Ok(None),
        Import::Named(_, _) => Ok(None),
        Import::Group(_, _, _) => Ok(None),
    }
}

/// What an import clause finds for a name, by its names or by its star.
#[cycle(names)]
fn found_by<'t>(
    alloc: Global,
    s: &mut Scopes<'t>,
    ask: &Ask,
    star: bool,
    clause: &Import,
    name: &Text,
) -> Result<Option<Found<'t>>, Stop>
    ensures grows { Grows s.old s.new }
    ensures value { Gives (option_map (found_at s.new)) result (found_by_kind (table_in s.old) (asks (table_in s.old) ask.now) ask.now.place star name.now clause.now) }
    ensures stand { IfOk result (λ found. IfSome found (IsFound s.new)) }
{
    if star {
        found_by_star(alloc, s, ask, clause, name)
    } else {
        found_by_import(alloc, s, ask, clause, name)
    }
}

/// What one more import clause finds.
#[cycle(names)]
fn also_by<'t>(
    alloc: Global,
    s: &mut Scopes<'t>,
    ask: &Ask,
    star: bool,
    so_far: Option<Found<'t>>,
    clause: &Import,
    name: &Text,
) -> Result<Option<Found<'t>>, Stop>
    requires { IfSome so_far (IsFound s.old) }
    ensures grows { Grows s.old s.new }
    ensures value { Gives (option_map (found_at s.new)) result (also_found (table_in s.old) (asks (table_in s.old) ask.now) ask.now.place star name.now (option_map (found_at s.old) so_far.entry) clause.now) }
    ensures stand { IfOk result (λ found. IfSome found (IsFound s.new)) }
{
    let found = found_by(alloc, s, ask, star, clause, name);
    also_given(s, ask.place, &so_far, &found)
}

/// What the import clauses of a class find for a name, by their names or by their stars.
#[cycle(names)]
fn found_by_each<'t>(
    alloc: Global,
    s: &mut Scopes<'t>,
    ask: &Ask,
    star: bool,
    frame: FrameId,
    name: &Text,
) -> Result<Option<Found<'t>>, Stop>
    requires { IsFrame s.old frame.0 }
    ensures grows { Grows s.old s.new }
    ensures value { Gives (option_map (found_at s.new)) result (found_by_all (table_in s.old) (asks (table_in s.old) ask.now) ask.now.place star name.now None (imports_of (row_of_frame s.old frame.0))) }
    ensures stand { IfOk result (λ found. IfSome found (IsFound s.new)) }
{
    let class = s.class_of(frame);
    let mut found = None;
    for at in 0..import_count(s, class) {
        let clause = import_at(s, class, at);
        match also_by(alloc, s, ask, star, found, clause, name) {
            Ok(next) => found = next,
            Err(stop) => return Err(stop),
        }
    }
    Ok(found)
}

/// What the imports of a class find for a name: by their names, then through their stars.
#[cycle(names)]
fn found_by_imports<'t>(
    alloc: Global,
    s: &mut Scopes<'t>,
    ask: &Ask,
    frame: FrameId,
    name: &Text,
) -> Result<Option<Found<'t>>, Stop>
    requires { IsFrame s.old frame.0 }
    ensures grows { Grows s.old s.new }
    ensures value { Gives (option_map (found_at s.new)) result (found_by_names_or_stars (table_in s.old) (asks (table_in s.old) ask.now) ask.now.place name.now (imports_of (row_of_frame s.old frame.0))) }
    ensures stand { IfOk result (λ found. IfSome found (IsFound s.new)) }
{
    match found_by_each(alloc, s, ask, false, frame, name) {
        Ok(Some(found)) => Ok(Some(found)),
        Ok(None) => found_by_each(alloc, s, ask, true, frame, name),
        Err(stop) => Err(stop),
    }
}

/// What a name finds among the elements of one frame; where it is bare, without the inherited ones.
#[cycle(names)]
fn found_element<'t>(
    alloc: Global,
    s: &mut Scopes<'t>,
    ask: &Ask,
    bare: bool,
    frame: FrameId,
    name: &Text,
) -> Result<Option<Found<'t>>, Stop>
    requires { IsFrame s.old frame.0 }
    ensures grows { Grows s.old s.new }
    ensures value { Gives (option_map (found_at s.new)) result (element_found (table_in s.old) (asks (table_in s.old) ask.now) bare (frame_at s.old frame.0) ask.now.place name.now) }
    ensures stand { IfOk result (λ found. IfSome found (IsFound s.new)) }
{
    if bare {
        return own_met(alloc, s, frame, name);
    }
    let any = reached(alloc, s, ask, frame, name);
    element_given(alloc, s, frame, &any)
}

/// What a name finds in one frame through the imports of its class.
#[cycle(names)]
fn met_by_imports<'t>(
    alloc: Global,
    s: &mut Scopes<'t>,
    ask: &Ask,
    frame: FrameId,
    name: &Text,
) -> Result<Option<Met<'t>>, Stop>
    requires { IsFrame s.old frame.0 }
    ensures grows { Grows s.old s.new }
    ensures value { Gives (option_map (met_seen (frames_of s.new))) result (imports_met (table_in s.old) (asks (table_in s.old) ask.now) ask.now.place name.now (imports_of (row_of_frame s.old frame.0))) }
    ensures stand { IfOk result (λ met. IfSome met (λ met. IsFound s.new met.found)) }
{
    let found = found_by_imports(alloc, s, ask, frame, name);
    met_given(s, false, &found)
}

/// What a name finds in one frame: elements, then imports.
#[cycle(names)]
pub(crate) fn found_in<'t>(
    alloc: Global,
    s: &mut Scopes<'t>,
    ask: &Ask,
    bare: bool,
    near: bool,
    frame: FrameId,
    name: &Text,
) -> Result<Option<Met<'t>>, Stop>
    requires { IsFrame s.old frame.0 }
    ensures grows { Grows s.old s.new }
    ensures value { Gives (option_map (met_seen (frames_of s.new))) result (found_in_frame (table_in s.old) (asks (table_in s.old) ask.now) bare near (frame_at s.old frame.0) ask.now.place name.now) }
    ensures stand { IfOk result (λ met. IfSome met (λ met. IsFound s.new met.found)) }
{
    match found_element(alloc, s, ask, bare, frame, name) {
        Ok(Some(found)) => Ok(Some(Met { found, near })),
        Ok(None) => met_by_imports(alloc, s, ask, frame, name),
        Err(stop) => Err(stop),
    }
}
