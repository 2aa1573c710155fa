//! The classes at the top by name.
ghost use Rattle.std.specs.Prelude.{◌≡◌, ◌&&◌, None, List as Seq, ℕ, find, map, option_map, IfOk, OnOk, if◌then◌else◌, Some};
ghost use Rattle.std.specs.Str.{bytes_eq};
ghost use Rattle.mo_scope.specs.Held.{top_held};
ghost use Rattle.mo_scope.specs.Rows.{top_classes, is_top_class};
ghost use Rattle.mo_scope.specs.Sights.{row_seen};

use crate::row::{Home, Row};
use mo_syntax::{ClassId, NoMemory, Text};
use std::alloc::Global;
use std::collections::HashMap;

/// The numbers of the classes at the top by name.
#[derive(Drop)]
pub(crate) struct Tops<'t> {
    numbers: HashMap<&'t str, u32>,
}

/// Whether a class stands at the top.
fn is_top(row: &Row) -> bool
    ensures { result ≡ is_top_class (row_seen row.now) }
{
    if !row.outermost {
        return false;
    }
    match &row.home {
        Home::Under(path) => path.is_empty(),
        Home::Inside(_) => false,
        Home::Apart => false,
    }
}

impl<'t> Tops<'t> {
    /// No class is at the top.
    fn new(alloc: Global) -> Tops<'t>
        ensures { (name : Seq ℕ) → top_held result name ≡ None }
    {
        Tops {
            numbers: HashMap::new(alloc),
        }
    }

    /// Puts a class in the place of what has its name, if it stands at the top.
    fn put(&mut self, row: &Row<'t>) -> Result<(), NoMemory>
        ensures { OnOk result ((name : Seq ℕ) → top_held self.new name ≡ (if is_top_class (row_seen row.now) && bytes_eq row.now.class.now.name name then Some row.now.number else top_held self.old name)) }
    {
        if is_top(row) {
            self.numbers.insert(row.class.name.as_str(), row.number)?;
        }
        Ok(())
    }

    /// The class at the top with that name.
    pub fn class(&self, name: &Text) -> Option<ClassId>
        ensures { option_map (λ class. class.0) result ≡ top_held self.now name.now }
    {
        match self.numbers.get(name.as_str()) {
            Some(number) => Some(ClassId(*number)),
            None => None,
        }
    }
}

/// The classes at the top: where two have one name, the first.
pub(crate) fn tops_of<'t>(alloc: Global, rows: &[Row<'t>]) -> Result<Tops<'t>, NoMemory>
    ensures { IfOk result (λ tops. (name : Seq ℕ) → top_held tops name ≡ option_map (λ row. row.number) (find (λ row. bytes_eq row.class.name name) (top_classes (map row_seen rows.now)))) }
{
    let mut tops = Tops::new(alloc);
    for at in (0..rows.len()).rev() {
        tops.put(&rows[at])?;
    }
    Ok(tops)
}
