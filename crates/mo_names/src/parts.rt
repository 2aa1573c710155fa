//! The parts of classes, one after another.
ghost use Rattle.std.specs.Prelude.{◌≡◌, ◌<◌, Some, length, slice_get};
ghost use Rattle.mo_scope.specs.Rows.{number_of_classes, row_at};
ghost use Rattle.mo_scope.specs.Sights.{part_seen};
ghost use Rattle.mo_scope.specs.Worlds.{table_in};
ghost use Rattle.mo_names.specs.steps.Bases.{PartExists};
ghost use Rattle.mo_names.specs.steps.Parts.{parts_of};

use mo_scope::{Clause, Part, Scopes};
use mo_syntax::ClassId;

/// A part of a class, with its place among the parts.
#[derive(Clone, Copy)]
pub struct NumberedPart<'t> {
    pub at: usize,
    pub part: Part<'t>,
}

/// An extends clause, with its place among the parts of its class.
#[derive(Clone, Copy)]
pub struct NumberedClause<'t> {
    pub at: usize,
    pub clause: Clause<'t>,
}

/// How many parts a class has, none where it is predefined.
pub fn part_count(s: &Scopes, class: ClassId) -> usize
    ensures { result ≡ length (parts_of (row_at (table_in s.now) class.0)) }
{
    match s.row(class) {
        Some(row) => row.parts.len(),
        None => 0,
    }
}

/// The part of a class with so many before it.
pub fn part_at<'t>(s: &Scopes<'t>, class: ClassId, at: usize) -> NumberedPart<'t>
    requires { at < length (parts_of (row_at (table_in s.now) class.0)) }
    ensures at { result.at ≡ at }
    ensures is { slice_get (parts_of (row_at (table_in s.now) class.0)) at ≡ Some (part_seen result.part) }
    ensures exists { PartExists (number_of_classes (table_in s.now)) (part_seen result.part) }
{
    match s.row(class) {
        Some(row) => NumberedPart {
            at,
            part: row.parts.as_slice()[at],
        },
        None => unreachable!(),
    }
}
