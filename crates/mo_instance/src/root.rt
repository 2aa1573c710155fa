//! The frame of the asked class, with the frames around it (Modelica Language Specification 3.5, section 5.3).
#![tactic(auto, using(crate::proofs::Later::later))]

ghost use Rattle.std.specs.Prelude.{◌≡◌, ◌<◌, ◌+◌, [], find, option_map, slice_get, IfOk, IfSome, None, Some, if◌then◌else◌};
ghost use Rattle.mo_scope.specs.Entries.{number_of};
ghost use Rattle.mo_scope.specs.Frames.{Top};
ghost use Rattle.mo_scope.specs.Rows.{Row as RowOf, number_of_classes, row_at};
ghost use Rattle.mo_scope.specs.Sights.{row_seen, frame_at_or_top};
ghost use Rattle.mo_scope.specs.Worlds.{Grows, IsFrame, IsFrameOrNone, frame_at, table_in};
ghost use Rattle.mo_instance.specs.Instances.{enclosing, inside, is_placed as places, root_frame as frame_of_root};
ghost use Rattle.mo_instance.specs.steps.Roots.{names_seen, path_of_home, row_if};

use mo_mods::is_path;
use mo_scope::{Home, Row, Scopes, copied};
use mo_syntax::{ClassId, FrameId, InstancePath, List, NoMemory, Text};
use std::alloc::Global;

/// Whether a class has that name, and is placed under that path.
fn is_placed(row: &Row, before: &[&Text], name: &Text) -> bool
    ensures { result ≡ places (names_seen before.now) name.now (row_seen row.now) }
{
    if row.class.name.as_str() != name.as_str() {
        return false;
    }
    match &row.home {
        Home::Under(path) => is_path(before, path.as_slice()),
        Home::Inside(_) => false,
        Home::Apart => false,
    }
}

/// The number of the class with so many others before it: the predefined types have the first six.
fn number_of_place(at: usize) -> Result<u32, NoMemory>
    ensures { IfOk result (λ number. number ≡ at + 6) }
{
    let number = at.checked_add(6).ok_or(NoMemory)?;
    if number > 4294967295 {
        return Err(NoMemory);
    }
    Ok(number as u32)
}

/// A class, if it has that name and is placed under that path.
fn class_if_placed(row: &Row, class: ClassId, before: &[&Text], name: &Text) -> Option<ClassId>
    ensures { result ≡ (if places (names_seen before.now) name.now (row_seen row.now) then Some class else None) }
{
    if is_placed(row, before, name) {
        return Some(class);
    }
    None
}

/// The class with so many others before it, if it has that name and is placed under that path.
fn placed_at(
    s: &Scopes,
    at: usize,
    before: &[&Text],
    name: &Text,
) -> Result<Option<ClassId>, NoMemory>
    requires { 6 + at < number_of_classes (table_in s.now) }
    ensures is { IfOk result (λ found. option_map (λ class. class.0) found ≡ option_map (λ row. row.number) (row_if (places (names_seen before.now) name.now) (slice_get (table_in s.now) at))) }
    ensures exists { IfOk result (λ found. IfSome found (λ class. class.0 < number_of_classes (table_in s.now))) }
{
    let number = number_of_place(at)?;
    let class = ClassId(number);
    match s.row(class) {
        Some(row) => Ok(class_if_placed(row, class, before, name)),
        None => Ok(None),
    }
}

/// The class with that name that is placed under that path, None where there is none.
fn placed_class(s: &Scopes, before: &[&Text], name: &Text) -> Result<Option<ClassId>, NoMemory>
    ensures is { IfOk result (λ found. option_map (λ class. class.0) found ≡ option_map (λ row. row.number) (find (places (names_seen before.now) name.now) (table_in s.now))) }
    ensures exists { IfOk result (λ found. IfSome found (λ class. class.0 < number_of_classes (table_in s.now))) }
{
    for at in 0..s.class_count() {
        let found = placed_at(s, at, before, name)?;
        match found {
            Some(class) => return Ok(Some(class)),
            None => {}
        }
    }
    Ok(None)
}

/// The frame of the class with that name that is placed under that path, looked up in an outer one, or that outer one where there is
/// no such class.
fn inside_frame(
    alloc: Global,
    s: &mut Scopes,
    outer: Option<FrameId>,
    before: &[&Text],
    name: &Text,
) -> Result<Option<FrameId>, NoMemory>
    requires { IsFrameOrNone s.old (option_map number_of outer) }
    ensures grows { Grows s.old s.new }
    ensures is { IfOk result (λ made. frame_at_or_top s.new made ≡ inside (frame_at_or_top s.old outer) (find (places (names_seen before.now) name.now) (table_in s.old))) }
    ensures exists { IfOk result (λ made. IsFrameOrNone s.new (option_map number_of made)) }
{
    let found = placed_class(s, before, name)?;
    match found {
        Some(class) => {
            let frame = s.enter(alloc, class, List::new(alloc), outer, None, None)?;
            Ok(Some(frame))
        }
        None => Ok(outer),
    }
}

/// The frames around a class that is placed under a path.
fn enclosing_frame(
    alloc: Global,
    s: &mut Scopes,
    path: &[&Text],
) -> Result<Option<FrameId>, NoMemory>
    ensures grows { Grows s.old s.new }
    ensures is { IfOk result (λ outer. frame_at_or_top s.new outer ≡ enclosing (table_in s.old) Top [] (names_seen path.now)) }
    ensures exists { IfOk result (λ outer. IsFrameOrNone s.new (option_map number_of outer)) }
{
    let mut outer = None;
    for at in 0..path.len() {
        let name = path[at];
        outer = inside_frame(alloc, s, outer, &path[..at], name)?;
    }
    Ok(outer)
}

/// The names under which a class is placed, none where it is placed under no path.
fn path_around<'a, 't>(row: &'a Row<'t>) -> &'a [&'t Text]
    ensures { names_seen result.now ≡ path_of_home (row_seen row.now).home }
{
    match &row.home {
        Home::Under(path) => path.as_slice(),
        Home::Inside(_) => &[],
        Home::Apart => &[],
    }
}

/// The names under which a class is placed.
fn path_of_class<'t>(
    alloc: Global,
    s: &Scopes<'t>,
    class: ClassId,
) -> Result<List<&'t Text>, NoMemory>
    ensures { IfOk result (λ made. (row : RowOf) → row_at (table_in s.now) class.0 ≡ Some row → names_seen made ≡ path_of_home row.home) }
{
    match s.row(class) {
        Some(row) => copied(alloc, path_around(row)),
        None => Ok(List::new(alloc)),
    }
}

/// The frame of the asked class.
pub(crate) fn root_frame(alloc: Global, s: &mut Scopes, class: ClassId) -> Result<FrameId, NoMemory>
    requires { class.0 < number_of_classes (table_in s.old) }
    ensures grows { Grows s.old s.new }
    ensures is { IfOk result (λ frame. (row : RowOf) → row_at (table_in s.old) class.0 ≡ Some row → frame_at s.new frame.0 ≡ frame_of_root (table_in s.old) row) }
    ensures exists { IfOk result (λ frame. IsFrame s.new frame.0) }
{
    let path = path_of_class(alloc, s, class)?;
    let outer = enclosing_frame(alloc, s, path.as_slice())?;
    let at = InstancePath(List::new(alloc));
    s.enter(alloc, class, List::new(alloc), outer, Some(at), None)
}
