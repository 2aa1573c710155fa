//! The texts of literals (Modelica Language Specification 3.5, section 4.8.5).
ghost use Rattle.std.specs.Prelude.{◌≡◌, ◌++◌, codes, map, string_bytes, slice_get, IfOk, OnOk, []};
ghost use Rattle.mo_scope.specs.Sights.{home_seen};
ghost use Rattle.mo_typing.specs.Indices.{or_else};
ghost use Rattle.mo_scope.specs.Lookup.{literals_at, type_names};
ghost use Rattle.mo_scope.specs.Worlds.{table_in};
ghost use Rattle.mo_eval.specs.Resolving.{dotted, literal_text, path_of_class};
ghost use Rattle.mo_eval.specs.steps.Spelling.{home_path, with_dots};

use mo_names::{literal_name, type_name};
use mo_scope::{Home, Scopes};
use mo_syntax::{ClassId, NoMemory, Text};
use std::alloc::Global;

/// Puts a name with a dot behind it at the end.
fn put_name(text: &mut String, name: &str) -> Result<(), NoMemory>
    ensures { OnOk result (string_bytes text.new ≡ string_bytes text.old ++ (name.now ++ codes ".")) }
{
    text.push_str(name)?;
    text.push_str(".")?;
    Ok(())
}

/// Puts names, each with a dot behind it, at the end.
fn put_names(text: &mut String, names: &[&Text]) -> Result<(), NoMemory>
    ensures { OnOk result (string_bytes text.new ≡ string_bytes text.old ++ with_dots (map (λ name. name.now) names.now)) }
{
    for name in names {
        put_name(text, name.as_str())?;
    }
    Ok(())
}

/// Puts the path of a class in which another one stands at the end.
fn put_home(text: &mut String, home: &Home) -> Result<(), NoMemory>
    ensures { OnOk result (string_bytes text.new ≡ string_bytes text.old ++ with_dots (home_path (home_seen home.now))) }
{
    match home {
        Home::Under(path) => put_names(text, path.as_slice()),
        Home::Inside(_) => Ok(()),
        Home::Apart => Ok(()),
    }
}

/// The name of a predefined type.
fn predefined_name(class: ClassId) -> &'static str
    ensures { result.now ≡ or_else (slice_get type_names class.0) [] }
{
    match type_name(class) {
        Some(name) => name,
        None => "",
    }
}

/// The name of a literal.
fn name_of<'t>(s: &Scopes<'t>, class: ClassId, n: u32) -> &'t str
    ensures { result.now ≡ or_else (slice_get (literals_at (table_in s.now) class.0) n) [] }
{
    match literal_name(s, class, n) {
        Some(name) => name,
        None => "",
    }
}

/// Puts the path of a class at the end; of one without a path its name alone.
fn put_class(text: &mut String, s: &Scopes, class: ClassId) -> Result<(), NoMemory>
    ensures { OnOk result (string_bytes text.new ≡ string_bytes text.old ++ with_dots (path_of_class (table_in s.now) class.0)) }
{
    match s.row(class) {
        Some(row) => {
            put_home(text, &row.home)?;
            put_name(text, row.class.name.as_str())
        }
        None => put_name(text, predefined_name(class)),
    }
}

/// A literal as it is printed: the path of its enumeration, and its name. `NoMemory` is the only other answer.
pub fn literal_text(alloc: Global, s: &Scopes, class: ClassId, n: u32) -> Result<Text, NoMemory>
    ensures { IfOk result (λ text. text ≡ literal_text (table_in s.now) class.0 n) }
{
    let mut text = String::new(alloc);
    put_class(&mut text, s, class)?;
    text.push_str(name_of(s, class, n))?;
    Ok(Text::from_string(text))
}

/// Puts the path of a class with dots at the end; of one without a path its name alone.
fn put_path(text: &mut String, s: &Scopes, class: ClassId) -> Result<(), NoMemory>
    ensures { OnOk result (string_bytes text.new ≡ string_bytes text.old ++ dotted (path_of_class (table_in s.now) class.0)) }
{
    match s.row(class) {
        Some(row) => {
            put_home(text, &row.home)?;
            text.push_str(row.class.name.as_str())?;
            Ok(())
        }
        None => {
            text.push_str(predefined_name(class))?;
            Ok(())
        }
    }
}

/// The path of a class with dots; of one without a path its name alone. `NoMemory` is the only other answer.
pub fn class_text(alloc: Global, s: &Scopes, class: ClassId) -> Result<Text, NoMemory>
    ensures { IfOk result (λ text. text ≡ dotted (path_of_class (table_in s.now) class.0)) }
{
    let mut text = String::new(alloc);
    put_path(&mut text, s, class)?;
    Ok(Text::from_string(text))
}
