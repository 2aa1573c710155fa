//! Making an incidence from given rows.
ghost use Rattle.std.specs.Prelude.{◌≡◌, ◌<◌, ◌≤◌, ◌↔◌, IsTrue, IfOk, OnOk};
ghost use Rattle.mo_incidence.specs.Signature.{IsSound};
ghost use Rattle.mo_incidence.specs.steps.Given.{given, IsRow};

use crate::table::Incidence;
use std::alloc::{AllocError, AllocFailed, Global};

/// Why given rows make no incidence.
#[derive(Clone, Copy, Debug, PartialEq, Eq)]
pub enum RowsError {
    /// Some unknown is out of range or does not ascend in its row, or a limit is passed.
    Unsound,
    /// No memory was left.
    NoMemory,
}

impl From<AllocError> for RowsError {
    ghost use Rattle.std.specs.Prelude.{◌≡◌};
    ghost use Rattle.mo_incidence.specs.declared.builder.RowsError.{RowsError};
    ghost use Rattle.mo_incidence.specs.declared.builder.RowsError.TheVariants.{NoMemory};

    ghost from_gives = { λ _ r. r ≡ NoMemory };

    fn from(_error: AllocError) -> Self {
        RowsError::NoMemory
    }
}

impl<T: Drop> From<AllocFailed<T>> for RowsError {
    ghost use Rattle.std.specs.Prelude.{◌≡◌};
    ghost use Rattle.mo_incidence.specs.declared.builder.RowsError.{RowsError};
    ghost use Rattle.mo_incidence.specs.declared.builder.RowsError.TheVariants.{NoMemory};

    ghost from_gives = { λ _ r. r ≡ NoMemory };

    fn from(_failed: AllocFailed<T>) -> Self {
        RowsError::NoMemory
    }
}

const MOST_EQUATIONS: usize = 50_000;

const MOST_UNKNOWNS: u32 = 50_000;

const MOST_ENTRIES: usize = 1_000_000;

const ORDERS: u32 = 65_536;

fn is_next(unknowns: u32, before: u32, entry: (u32, u32)) -> bool
    ensures { IsTrue result ↔ ((before < entry.0) × (entry.0 ≤ unknowns) × (entry.1 < 65536)) }
{
    before < entry.0 && entry.0 <= unknowns && entry.1 < ORDERS
}

fn is_row(unknowns: u32, row: &[(u32, u32)]) -> bool
    ensures { IsTrue result ↔ IsRow unknowns row.now }
{
    let mut before = 0;
    for entry in row {
        if !is_next(unknowns, before, *entry) {
            return false;
        }
        before = entry.0;
    }
    true
}

impl Incidence {
    /// The incidence of these rows, each a list of unknowns with orders; unknowns are numbered from 1.
    /// `Unsound` exactly where an unknown is out of range or does not ascend in its row, an order is 65,536 or more, or there are
    /// more than 50,000 equations, 50,000 unknowns or 1,000,000 entries.
    pub fn from_rows(
        alloc: Global,
        unknowns: u32,
        rows: &[Vec<(u32, u32)>],
    ) -> Result<Incidence, RowsError>
        ensures ok { IfOk result (λ incidence. incidence ≡ given unknowns rows.now) }
        ensures sound { OnOk result (IsSound (given unknowns rows.now)) }
        ensures unsound { result ≡ Err RowsError.Unsound → IsSound (given unknowns rows.now) → ⊥ }
    {
        if rows.len() > MOST_EQUATIONS {
            return Err(RowsError::Unsound);
        }
        if unknowns > MOST_UNKNOWNS {
            return Err(RowsError::Unsound);
        }
        let mut starts: Vec<u32> = Vec::new(alloc);
        let mut flat: Vec<(u32, u32)> = Vec::new(alloc);
        starts.push(0)?;
        for row in rows {
            if !is_row(unknowns, row) {
                return Err(RowsError::Unsound);
            }
            if row.len() > MOST_ENTRIES - flat.len() {
                return Err(RowsError::Unsound);
            }
            flat.extend_from_slice(row)?;
            starts.push(flat.len() as u32)?;
        }
        Ok(Incidence {
            unknowns,
            starts,
            flat,
        })
    }
}
