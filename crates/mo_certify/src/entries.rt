//! The entry of an unknown in a row, found by halves.
ghost use Rattle.std.specs.Prelude.{◌≡◌, ℕ, ◌+◌, ◌-◌, ◌<◌, ◌≤◌, IfSome, IfNone};
ghost use Rattle.mo_incidence.specs.Signature.{equations, row_len, unknown_at};

use mo_incidence::Incidence;

/// How many entries stand before that of an unknown, if it stands in the row. Takes logarithmic time.
pub(crate) fn find_entry(inc: &Incidence, row: u32, unknown: u32) -> Option<u32>
    requires row { (0 < row) × (row ≤ equations inc.now) }
    ensures some { IfSome result (λ k. (k < row_len inc.now (row - 1)) × (unknown_at inc.now (row - 1) k ≡ unknown)) }
    ensures only { IfSome result (λ k. (n : ℕ) → n < row_len inc.now (row - 1) → unknown_at inc.now (row - 1) n ≡ unknown → n ≡ k) }
    ensures none { IfNone result ((n : ℕ) → n < row_len inc.now (row - 1) → unknown_at inc.now (row - 1) n ≡ unknown → ⊥) }
{
    let _equations = inc.equations();
    let mut low = 0;
    let mut high = inc.row_len(row);
    while low < high {
        let middle = low + (high - low) / 2;
        let found = inc.entry(row, middle).0;
        if found == unknown {
            return Some(middle);
        }
        if found < unknown {
            low = middle + 1;
            continue;
        }
        high = middle;
    }
    None
}
