//! Import clauses (Modelica Language Specification 3.5, section 13.2.1).
ghost use Rattle.std.specs.Prelude.{◌≡◌, ◌<◌, ◌∷◌, ◌++◌, [], length, map, option_map, slice_get, IfOk, Some};
ghost use Rattle.std.specs.List.{list_any};
ghost use Rattle.std.specs.Str.{bytes_eq};
ghost use Rattle.mo_scope.specs.Lookup.{imported_as, last_name};
ghost use Rattle.mo_scope.specs.Rows.{row_at};
ghost use Rattle.mo_scope.specs.Worlds.{table_in};
ghost use Rattle.mo_names.specs.steps.Parts.{imports_of};

use mo_scope::Scopes;
use mo_syntax::{ClassId, Import, List, NoMemory, Place, Text};
use std::alloc::Global;

/// How many import clauses a class has.
pub(crate) fn import_count(s: &Scopes, class: ClassId) -> usize
    ensures { result ≡ length (imports_of (row_at (table_in s.now) class.0)) }
{
    match s.row(class) {
        Some(row) => row.imports.len(),
        None => 0,
    }
}

/// The import clause of a class with so many before it.
pub(crate) fn import_at<'t>(s: &Scopes<'t>, class: ClassId, at: usize) -> &'t Import
    requires { at < length (imports_of (row_at (table_in s.now) class.0)) }
    ensures { slice_get (imports_of (row_at (table_in s.now) class.0)) at ≡ Some result.now }
{
    match s.row(class) {
        Some(row) => row.imports.as_slice()[at],
        None => unreachable!(),
    }
}

/// Whether a name is among others.
fn is_listed(names: &[Text], name: &Text) -> bool
    ensures { result ≡ list_any (λ other. bytes_eq other name.now) names.now }
{
    for other in names {
        if other.equals(name) {
            return true;
        }
    }
    false
}

/// Whether the last of some names is that one; that of none is empty.
fn is_last(names: &[Text], name: &Text) -> bool
    ensures { result ≡ bytes_eq (last_name names.now) name.now }
{
    match names {
        [.., last] => last.equals(name),
        [] => name.as_str().is_empty(),
    }
}

/// The names of a path, by reference.
fn names_of<'a>(alloc: Global, names: &'a [Text]) -> Result<List<&'a Text>, NoMemory>
    ensures { IfOk result (λ made. map (λ name. name.now) made ≡ names.now) }
{
    let mut made = List::new(alloc);
    for name in names {
        made.push(name)?;
    }
    Ok(made)
}

/// The names of a path with one behind them.
fn names_with<'a>(
    alloc: Global,
    names: &'a [Text],
    name: &'a Text,
) -> Result<List<&'a Text>, NoMemory>
    ensures { IfOk result (λ made. map (λ name. name.now) made ≡ names.now ++ name.now ∷ []) }
{
    let mut made = names_of(alloc, names)?;
    made.push(name)?;
    Ok(made)
}

/// The path that a qualified or renaming import gives for a name, with the place of its first identifier.
pub(crate) fn imported_names<'a>(
    alloc: Global,
    clause: &'a Import,
    name: &'a Text,
) -> Result<Option<(List<&'a Text>, Place)>, NoMemory>
    ensures { IfOk result (λ found. option_map (λ path. (map (λ name. name.now) path.0, path.1)) found ≡ imported_as name.now clause.now) }
{
    match clause {
        Import::Renamed(alias, path, place) => {
            if !alias.equals(name) {
                return Ok(None);
            }
            Ok(Some((names_of(alloc, path.0.as_slice())?, *place)))
        }
        Import::Named(path, place) => {
            if !is_last(path.0.as_slice(), name) {
                return Ok(None);
            }
            Ok(Some((names_of(alloc, path.0.as_slice())?, *place)))
        }
        Import::Group(path, names, place) => {
            if !is_listed(names.as_slice(), name) {
                return Ok(None);
            }
            Ok(Some((names_with(alloc, path.0.as_slice(), name)?, *place)))
        }
        Import::All(_, _) => Ok(None),
    }
}
