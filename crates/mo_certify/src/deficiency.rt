//! Whether listed equations mention fewer unknowns than they are.
ghost use Rattle.std.specs.Prelude.{◌≡◌, ◌≢◌, ℕ, ◌+◌, ◌-◌, ◌<◌, ◌≤◌, ◌⊎◌, IsTrue, IfOk, length, slice_index, true, false};
ghost use Rattle.std.proofs.Common.{suc};
ghost use Rattle.mo_incidence.specs.Signature.{equations, row_len, unknown_at};
ghost use Rattle.mo_incidence.specs.Assignment.{Mentions, CanCoverAll};
ghost use Rattle.mo_certify.specs.Offsets.{Decides};
ghost use Rattle.mo_certify.specs.Deficiency.{AreDistinctBelow, IsMentionedBy, IsDeficiency};

use crate::marks::{are_marked, mark_all};
use mo_incidence::{Deficit, Incidence};
use mo_syntax::NoMemory;
use std::alloc::Global;

/// Marks in `seen` the unknowns of an equation, up to one without a mark in `listed`.
fn see_row(inc: &Incidence, row: u32, listed: &[u32], seen: &mut [u32]) -> bool
    requires row { (0 < row) × (row ≤ equations inc.now) }
    requires sizes { (length listed.now ≡ suc inc.now.unknowns) × (length seen.old ≡ suc inc.now.unknowns) }
    ensures yes { result ≡ true → (k : ℕ) → k < row_len inc.now (row - 1) → (slice_index listed.now (unknown_at inc.now (row - 1) k) ≢ 0) × (slice_index seen.new (unknown_at inc.now (row - 1) k) ≢ 0) }
    ensures no { result ≡ false → (k : ℕ) × (k < row_len inc.now (row - 1)) × (slice_index listed.now (unknown_at inc.now (row - 1) k) ≡ 0) }
    ensures kept { (j : ℕ) → slice_index seen.old j ≢ 0 → slice_index seen.new j ≢ 0 }
    ensures only { (j : ℕ) → slice_index seen.new j ≢ 0 → (slice_index seen.old j ≢ 0) ⊎ Mentions inc.now (row - 1) j }
{
    for k in 0..inc.row_len(row) {
        let unknown = inc.entry(row, k).0 as usize;
        if listed[unknown] == 0 {
            return false;
        }
        seen[unknown] = 1;
    }
    true
}

/// Marks in `seen` the unknowns of the listed equations, up to one without a mark in `listed`.
fn see_rows(inc: &Incidence, rows: &[u32], listed: &[u32], seen: &mut [u32]) -> bool
    requires rows { AreDistinctBelow rows.now (suc (equations inc.now)) }
    requires sizes { (length listed.now ≡ suc inc.now.unknowns) × (length seen.old ≡ suc inc.now.unknowns) }
    requires clear { (j : ℕ) → slice_index seen.old j ≡ 0 }
    ensures listed { result ≡ true → (j : ℕ) → IsMentionedBy inc.now rows.now j → slice_index listed.now j ≢ 0 }
    ensures seen { result ≡ true → (j : ℕ) → IsMentionedBy inc.now rows.now j → slice_index seen.new j ≢ 0 }
    ensures no { result ≡ false → (j : ℕ) × IsMentionedBy inc.now rows.now j × (slice_index listed.now j ≡ 0) }
    ensures only { (j : ℕ) → slice_index seen.new j ≢ 0 → IsMentionedBy inc.now rows.now j }
{
    for row in rows {
        if !see_row(inc, *row, listed, seen) {
            return false;
        }
    }
    true
}

/// Whether the listed equations are distinct and known, and the listed unknowns are those that they mention, each once, and fewer.
/// A yes implies that no assignment covers all equations. It accepts any lists. `NoMemory` is the only other answer.
pub fn deficit_holds(alloc: Global, inc: &Incidence, deficit: &Deficit) -> Result<bool, NoMemory>
    ensures exact { Decides result (IsDeficiency inc.now deficit.now.equations.items deficit.now.unknowns.items) }
    ensures singular { IfOk result (λ yes. IsTrue yes → CanCoverAll inc.now → ⊥) }
{
    let mut rows = vec![in alloc; 0; inc.equations() as usize + 1]?;
    let mut listed = vec![in alloc; 0; inc.unknowns() as usize + 1]?;
    let mut seen = vec![in alloc; 0; inc.unknowns() as usize + 1]?;
    Ok(holds(
        inc,
        &deficit.equations,
        &deficit.unknowns,
        &mut rows,
        &mut listed,
        &mut seen,
    ))
}

/// The check, with marks for equations and unknowns that are all 0.
fn holds(
    inc: &Incidence,
    deficient: &[u32],
    mentioned: &[u32],
    rows: &mut [u32],
    listed: &mut [u32],
    seen: &mut [u32],
) -> bool
    requires sizes { (length rows.old ≡ suc (equations inc.now)) × (length listed.old ≡ suc inc.now.unknowns) × (length seen.old ≡ suc inc.now.unknowns) }
    requires clear_rows { (x : ℕ) → slice_index rows.old x ≡ 0 }
    requires clear_listed { (x : ℕ) → slice_index listed.old x ≡ 0 }
    requires clear_seen { (x : ℕ) → slice_index seen.old x ≡ 0 }
    ensures yes { result ≡ true → IsDeficiency inc.now deficient.now mentioned.now }
    ensures no { result ≡ false → IsDeficiency inc.now deficient.now mentioned.now → ⊥ }
{
    if mentioned.len() >= deficient.len() {
        return false;
    }
    if !mark_all(deficient, rows) {
        return false;
    }
    if !mark_all(mentioned, listed) {
        return false;
    }
    if !see_rows(inc, deficient, listed, seen) {
        return false;
    }
    are_marked(mentioned, seen)
}
