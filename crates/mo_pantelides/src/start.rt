//! The offsets to begin with: the greatest order of each unknown.
ghost use Rattle.std.specs.Prelude.{◌≡◌, ℕ, ◌+◌, ◌-◌, ◌<◌, ◌≤◌, length, slice_index};
ghost use Rattle.mo_incidence.specs.Signature.{equations, row_len, unknown_at, order_at, entries};
ghost use Rattle.mo_incidence.specs.Offsets.{BoundsOrders, by_number};

use mo_incidence::Counted;
use mo_match::clear;
use mo_ports::Steps;

/// Raises the offset of each unknown of an equation to its order there.
fn raise_row<L>(inc: &Counted<L>, d: &mut [u32], row: u32, steps: &mut Steps<L>)
    requires row { row < equations inc.now }
    requires sizes { length d.old ≡ inc.now.unknowns }
    ensures row { (k : ℕ) → k < row_len inc.now row → order_at inc.now row k ≤ slice_index d.new (unknown_at inc.now row k - 1) }
    ensures more { (u : ℕ) → slice_index d.old u ≤ slice_index d.new u }
    ensures least { (h : ℕ → ℕ) → BoundsOrders inc.now h → ((u : ℕ) → u < inc.now.unknowns → slice_index d.old u ≤ h (u + 1)) → (u : ℕ) → u < inc.now.unknowns → slice_index d.new u ≤ h (u + 1) }
    ensures cost { steps.new ≤ steps.old + row_len inc.now row }
{
    let _equations = inc.equations();
    for k in 0..inc.row_len(row + 1) {
        let (unknown, order) = inc.entry(row + 1, k, steps);
        let place = unknown as usize - 1;
        d[place] = d[place].max(order);
    }
}

/// Writes for each unknown the greatest order at which it stands, or 0.
pub(crate) fn greatest_orders<L>(inc: &Counted<L>, d: &mut [u32], steps: &mut Steps<L>)
    requires sizes { length d.old ≡ inc.now.unknowns }
    ensures bounds { BoundsOrders inc.now (by_number d.new) }
    ensures least { (h : ℕ → ℕ) → BoundsOrders inc.now h → (u : ℕ) → u < inc.now.unknowns → slice_index d.new u ≤ h (u + 1) }
    ensures cost { steps.new ≤ steps.old + entries inc.now }
{
    clear(d);
    for row in 0..inc.equations() {
        raise_row(inc, d, row, steps);
    }
}
