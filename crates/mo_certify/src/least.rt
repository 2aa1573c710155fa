//! Whether listed reasons show listed offsets to be least.
ghost use Rattle.std.specs.Prelude.{◌≡◌, ◌≢◌, ℕ, ◌+◌, ◌-◌, ◌<◌, ◌≤◌, ◌⊎◌, IsTrue, IfOk, length, slice_index, true, false};
ghost use Rattle.std.proofs.Common.{suc};
ghost use Rattle.mo_incidence.specs.Signature.{equations};
ghost use Rattle.mo_incidence.specs.Offsets.{IsLeast, by_place, c_of, d_of};
ghost use Rattle.mo_certify.specs.Offsets.{AreOffsets, Decides};
ghost use Rattle.mo_certify.specs.Reasons.{first_reason, named, LeadsToZero, IsReasonAt, AreReasonsBy, AreShownLeast, AreHeldLeast};

use crate::admissible::{offsets_hold, row_is_tight};
use mo_incidence::{Incidence, Offsets, Reason};
use mo_syntax::NoMemory;
use std::alloc::Global;

/// Writes at each number of an equation the number that its first listed reason gives.
fn first_reasons(why: &[Reason], from: &mut [u32])
    requires clear { (x : ℕ) → slice_index from.old x ≡ 0 }
    ensures size { length from.new ≡ length from.old }
    ensures first { (x : ℕ) → x < length from.new → slice_index from.new x ≡ first_reason why.now x }
{
    let mut left = why.len();
    // from the last to the first, so that the first one stays
    'each: while left > 0 {
        left -= 1;
        let reason = why[left];
        let equation = reason.equation as usize;
        if equation < from.len() {
            from[equation] = reason.from;
        }
    }
}

/// Whether equation `from` is another one than `row` and tight at this unknown.
fn is_reason(inc: &Incidence, c: &[u32], d: &[u32], row: u32, from: u32, unknown: u32) -> bool
    requires sizes { (length c.now ≡ equations inc.now) × (length d.now ≡ inc.now.unknowns) }
    ensures yes { result ≡ true → IsReasonAt inc.now c.now d.now row from unknown }
    ensures no { result ≡ false → IsReasonAt inc.now c.now d.now row from unknown → ⊥ }
{
    if from == 0 {
        return false;
    }
    if from > inc.equations() {
        return false;
    }
    if from == row {
        return false;
    }
    row_is_tight(inc, from, c[from as usize - 1], d, unknown)
}

/// Whether the reason of each equation with an offset above 0 is one.
fn are_reasons(inc: &Incidence, c: &[u32], d: &[u32], pairs: &[u32], from: &[u32]) -> bool
    requires sizes { (length c.now ≡ equations inc.now) × (length d.now ≡ inc.now.unknowns) × (length pairs.now ≡ equations inc.now) }
    requires size { length from.now ≡ suc (equations inc.now) }
    ensures yes { result ≡ true → AreReasonsBy inc.now c.now d.now pairs.now from.now (equations inc.now) }
    ensures no { result ≡ false → (i : ℕ) × (i < equations inc.now) × (slice_index c.now i ≢ 0) × (IsReasonAt inc.now c.now d.now (i + 1) (slice_index from.now (i + 1)) (slice_index pairs.now i) → ⊥) }
{
    for i in 0..inc.equations() {
        let place = i as usize;
        if c[place] != 0 {
            if !is_reason(inc, c, d, i + 1, from[place + 1], pairs[place]) {
                return false;
            }
        }
    }
    true
}

/// Whether an equation with this offset is passed for the first time on the way to an offset of 0.
fn is_new(offset: u32, mark: u32) -> bool
    ensures yes { result ≡ true → (offset ≢ 0) × (mark ≡ 0) }
    ensures no { result ≡ false → (offset ≡ 0) ⊎ ((offset ≢ 0) × (mark ≢ 0)) }
{
    offset != 0 && mark == 0
}

/// Whether following reasons from the equation at place `start` ends at an offset of 0. All on the way get the mark
/// `start + 1`; what has an earlier mark is known to end there.
fn leads_to_zero(c: &[u32], from: &[u32], marks: &mut [u32], start: u32) -> bool
    requires start { start < length c.now }
    requires few { length c.now ≤ 50000 }
    requires sizes { (length from.now ≡ suc (length c.now)) × (length marks.old ≡ length c.now) }
    requires known { (i : ℕ) → i < length c.now → slice_index c.now i ≢ 0 → (0 < slice_index from.now (i + 1)) × (slice_index from.now (i + 1) ≤ length c.now) }
    requires settled { (i : ℕ) → slice_index marks.old i ≢ 0 → LeadsToZero (by_place c.now) (named from.now) i }
    requires low { (i : ℕ) → slice_index marks.old i ≤ start }
    ensures size { length marks.new ≡ length marks.old }
    ensures low { (i : ℕ) → slice_index marks.new i ≤ start + 1 }
    ensures yes { result ≡ true → LeadsToZero (by_place c.now) (named from.now) start }
    ensures settled { result ≡ true → (i : ℕ) → slice_index marks.new i ≢ 0 → LeadsToZero (by_place c.now) (named from.now) i }
    ensures no { result ≡ false → LeadsToZero (by_place c.now) (named from.now) start → ⊥ }
{
    let mark = start + 1;
    let mut place = start as usize;
    'follow: while is_new(c[place], marks[place]) {
        marks[place] = mark;
        place = from[place + 1] as usize - 1;
    }
    if c[place] == 0 {
        return true;
    }
    if marks[place] == mark {
        return false;
    }
    true
}

/// Whether following reasons from each equation ends at an offset of 0. The marks are 0 before.
fn all_lead_to_zero(c: &[u32], from: &[u32], marks: &mut [u32]) -> bool
    requires few { length c.now ≤ 50000 }
    requires sizes { (length from.now ≡ suc (length c.now)) × (length marks.old ≡ length c.now) }
    requires known { (i : ℕ) → i < length c.now → slice_index c.now i ≢ 0 → (0 < slice_index from.now (i + 1)) × (slice_index from.now (i + 1) ≤ length c.now) }
    requires clear { (i : ℕ) → slice_index marks.old i ≡ 0 }
    ensures yes { result ≡ true → (i : ℕ) → i < length c.now → LeadsToZero (by_place c.now) (named from.now) i }
    ensures no { result ≡ false → (i : ℕ) × (i < length c.now) × (LeadsToZero (by_place c.now) (named from.now) i → ⊥) }
{
    for start in 0..c.len() {
        if !leads_to_zero(c, from, marks, start as u32) {
            return false;
        }
    }
    true
}

/// The check of reasons for admissible offsets of a square system, with numbers of reasons and marks that are all 0.
fn show_least(
    inc: &Incidence,
    c: &[u32],
    d: &[u32],
    pairs: &[u32],
    why: &[Reason],
    from: &mut [u32],
    marks: &mut [u32],
) -> bool
    requires square { (equations inc.now ≡ inc.now.unknowns) × (equations inc.now ≤ 50000) }
    requires offsets { AreOffsets inc.now c.now d.now pairs.now }
    requires sizes { (length from.old ≡ suc (equations inc.now)) × (length marks.old ≡ equations inc.now) }
    requires clear_from { (x : ℕ) → slice_index from.old x ≡ 0 }
    requires clear_marks { (i : ℕ) → slice_index marks.old i ≡ 0 }
    ensures yes { result ≡ true → AreShownLeast inc.now c.now d.now pairs.now why.now }
    ensures no { result ≡ false → AreShownLeast inc.now c.now d.now pairs.now why.now → ⊥ }
{
    first_reasons(why, from);
    if !are_reasons(inc, c, d, pairs, from) {
        return false;
    }
    all_lead_to_zero(c, from, marks)
}

/// Whether the listed reasons show the listed offsets to be least: the offsets and pairs are admissible, the system is
/// square, the first listed reason of each equation with an offset above 0 is another equation that is tight at its
/// unknown, and following first reasons ends at an offset of 0. A yes implies by itself that no admissible offsets are
/// anywhere smaller (J. D. Pryce, A simple structural analysis method for DAEs, BIT 41, 2001). It accepts any lists.
/// `NoMemory` is the only other answer.
pub fn least_holds(
    alloc: Global,
    inc: &Incidence,
    offsets: &Offsets,
    why: &[Reason],
) -> Result<bool, NoMemory>
    ensures exact { Decides result (AreHeldLeast inc.now offsets.now why.now) }
    ensures least { IfOk result (λ yes. IsTrue yes → IsLeast inc.now (c_of offsets.now) (d_of offsets.now)) }
{
    if !offsets_hold(alloc, inc, offsets)? {
        return Ok(false);
    }
    if inc.equations() != inc.unknowns() {
        return Ok(false);
    }
    let mut from = vec![in alloc; 0; inc.equations() as usize + 1]?;
    let mut marks = vec![in alloc; 0; inc.equations() as usize]?;
    Ok(show_least(
        inc,
        &offsets.c,
        &offsets.d,
        &offsets.pairs,
        why,
        &mut from,
        &mut marks,
    ))
}
