//! Which classes have extends clauses.
ghost use Rattle.std.specs.Prelude.{◌≡◌, map, IfOk};
ghost use Rattle.std.specs.List.{list_any};
ghost use Rattle.mo_scope.specs.Extending.{is_clause, is_extending_row};
ghost use Rattle.mo_scope.specs.Sights.{part_seen, row_seen};

use crate::row::{Part, Row};
use mo_syntax::{List, NoMemory};
use std::alloc::Global;

/// Whether an extends clause is among some parts.
fn has_clause(parts: &[Part]) -> bool
    ensures { result ≡ list_any is_clause (map part_seen parts.now) }
{
    for part in parts {
        if let Part::Base(_) = part {
            return true;
        }
    }
    false
}

/// Whether each class has an extends clause.
pub(crate) fn extending_of(alloc: Global, rows: &[Row]) -> Result<List<bool>, NoMemory>
    ensures { IfOk result (λ extending. extending ≡ map (λ row. is_extending_row (row_seen row)) rows.now) }
{
    let mut extending = List::new(alloc);
    for row in rows {
        extending.push(has_clause(row.parts.as_slice()))?;
    }
    Ok(extending)
}
