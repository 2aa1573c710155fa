//! Whether listed offsets and pairs are admissible.
ghost use Rattle.std.specs.Prelude.{◌≡◌, ℕ, ◌+◌, ◌-◌, ◌<◌, ◌≤◌, IsTrue, IfOk, length, slice_index, true, false};
ghost use Rattle.std.proofs.Common.{suc};
ghost use Rattle.mo_incidence.specs.Signature.{equations, row_len, unknown_at, order_at};
ghost use Rattle.mo_incidence.specs.Offsets.{Fits, IsTight, IsAdmissible, by_place, by_number, c_of, d_of};
ghost use Rattle.mo_certify.specs.Offsets.{AreOffsets, AreHeldOffsets, Decides};

use crate::entries::find_entry;
use crate::marks::mark_all;
use mo_incidence::{Incidence, Offsets};
use mo_syntax::NoMemory;
use std::alloc::Global;

/// Whether the order of an entry makes up the difference of the offsets, at this unknown.
fn meets(entry: (u32, u32), unknown: u32, offset: u32, highest: u32) -> bool
    ensures yes { result ≡ true → (entry.0 ≡ unknown) × (highest ≡ offset + entry.1) }
    ensures no { result ≡ false → entry.0 ≡ unknown → highest ≡ offset + entry.1 → ⊥ }
{
    entry.0 == unknown && u64::from(highest) == u64::from(offset) + u64::from(entry.1)
}

/// Whether no entry of a row passes the difference of the offsets.
fn row_fits(inc: &Incidence, row: u32, offset: u32, d: &[u32]) -> bool
    requires row { (0 < row) × (row ≤ equations inc.now) }
    requires sizes { length d.now ≡ inc.now.unknowns }
    ensures yes { result ≡ true → (k : ℕ) → k < row_len inc.now (row - 1) → offset + order_at inc.now (row - 1) k ≤ slice_index d.now (unknown_at inc.now (row - 1) k - 1) }
    ensures no { result ≡ false → (k : ℕ) × (k < row_len inc.now (row - 1)) × (slice_index d.now (unknown_at inc.now (row - 1) k - 1) < offset + order_at inc.now (row - 1) k) }
{
    for k in 0..inc.row_len(row) {
        let (unknown, order) = inc.entry(row, k);
        let highest = d[unknown as usize - 1];
        if u64::from(highest) < u64::from(offset) + u64::from(order) {
            return false;
        }
    }
    true
}

/// Whether some entry of a row at an unknown makes up the difference of the offsets.
pub(crate) fn row_is_tight(inc: &Incidence, row: u32, offset: u32, d: &[u32], unknown: u32) -> bool
    requires row { (0 < row) × (row ≤ equations inc.now) }
    requires sizes { length d.now ≡ inc.now.unknowns }
    ensures yes { result ≡ true → (k : ℕ) × (k < row_len inc.now (row - 1)) × (unknown_at inc.now (row - 1) k ≡ unknown) × (slice_index d.now (unknown_at inc.now (row - 1) k - 1) ≡ offset + order_at inc.now (row - 1) k) }
    ensures no { result ≡ false → (k : ℕ) → k < row_len inc.now (row - 1) → unknown_at inc.now (row - 1) k ≡ unknown → slice_index d.now (unknown_at inc.now (row - 1) k - 1) ≡ offset + order_at inc.now (row - 1) k → ⊥ }
{
    match find_entry(inc, row, unknown) {
        None => false,
        Some(k) => {
            let entry = inc.entry(row, k);
            meets(entry, unknown, offset, d[entry.0 as usize - 1])
        }
    }
}

/// Whether all rows fit, and each is tight at its unknown.
fn rows_hold(inc: &Incidence, c: &[u32], d: &[u32], pairs: &[u32]) -> bool
    requires sizes { (length c.now ≡ equations inc.now) × (length d.now ≡ inc.now.unknowns) × (length pairs.now ≡ equations inc.now) }
    ensures fits { result ≡ true → Fits inc.now (by_place c.now) (by_number d.now) }
    ensures tight { result ≡ true → (i : ℕ) → i < equations inc.now → IsTight inc.now (by_place c.now) (by_number d.now) i (slice_index pairs.now i) }
    ensures no { result ≡ false → AreOffsets inc.now c.now d.now pairs.now → ⊥ }
{
    let equations = inc.equations();
    for i in 0..equations {
        if !row_fits(inc, i + 1, c[i as usize], d) {
            return false;
        }
        if !row_is_tight(inc, i + 1, c[i as usize], d, pairs[i as usize]) {
            return false;
        }
    }
    true
}

/// The check, with marks for unknowns that are all 0.
fn admissible(inc: &Incidence, c: &[u32], d: &[u32], pairs: &[u32], used: &mut [u32]) -> bool
    requires size { length used.old ≡ suc inc.now.unknowns }
    requires clear { (x : ℕ) → slice_index used.old x ≡ 0 }
    ensures yes { result ≡ true → AreOffsets inc.now c.now d.now pairs.now }
    ensures no { result ≡ false → AreOffsets inc.now c.now d.now pairs.now → ⊥ }
{
    let equations = inc.equations() as usize;
    if c.len() != equations {
        return false;
    }
    if d.len() != inc.unknowns() as usize {
        return false;
    }
    if pairs.len() != equations {
        return false;
    }
    if !mark_all(pairs, used) {
        return false;
    }
    rows_hold(inc, c, d, pairs)
}

/// Whether the listed offsets and pairs are admissible: their lengths fit, no entry passes the difference of the offsets, and the
/// pairs are an assignment of all equations with equality at each of its entries. It accepts any lists.
/// `NoMemory` is the only other answer.
pub fn offsets_hold(alloc: Global, inc: &Incidence, offsets: &Offsets) -> Result<bool, NoMemory>
    ensures exact { Decides result (AreHeldOffsets inc.now offsets.now) }
    ensures admissible { IfOk result (λ yes. IsTrue yes → IsAdmissible inc.now (c_of offsets.now) (d_of offsets.now)) }
{
    let mut used = vec![in alloc; 0; inc.unknowns() as usize + 1]?;
    Ok(admissible(inc, &offsets.c, &offsets.d, &offsets.pairs, &mut used))
}
