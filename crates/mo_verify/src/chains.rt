//! From which equations chains of reasons lead to an offset of 0.
ghost use Rattle.std.specs.Prelude.{◌≡◌, ℕ, ◌+◌, ◌-◌, ◌<◌, true, false, IfOk, OnOk, IfSome, IfNone, length, slice_index};
ghost use Rattle.std.proofs.Common.{suc, get_or};
ghost use Rattle.mo_incidence.specs.Signature.{equations, row_len};
ghost use Rattle.mo_incidence.specs.Offsets.{by_place, by_number};
ghost use Rattle.mo_incidence.specs.steps.Needing.{AreOwners};
ghost use Rattle.mo_incidence.specs.Reasons.{LeadsTo};
ghost use Rattle.mo_verify.specs.Faults.{IsChained, AreChainedTo};
ghost use Rattle.mo_verify.specs.Finding.{printed_in, HaveSizes, HasNoFault, IsUnchained, IsNotLeast, IsMarkedTo, Marks, unmarked};

use crate::seen::Seen;
use crate::verdict::Verdict;
use mo_incidence::Incidence;
use mo_syntax::NoMemory;
use std::alloc::Global;

/// The place of the equation for which the entry makes its own equation, at place k, a candidate.
fn led_by(inc: &Incidence, claims: &Seen, owner: &[u32], k: u32, n: u32) -> Option<u32>
    requires entry { (k < equations inc.now) × (n < row_len inc.now k) }
    requires sizes { HaveSizes inc.now (printed_in claims.now) }
    requires owners { (length owner.now ≡ suc inc.now.unknowns) × AreOwners (equations inc.now) (by_place claims.now.pairs.now) owner.now }
    ensures some { IfSome result (λ i. (i < equations inc.now) × LeadsTo inc.now (by_place claims.now.c.now) (by_number claims.now.d.now) (by_place claims.now.pairs.now) k n i) }
    ensures only { IfSome result (λ i. (x : ℕ) → x < equations inc.now → LeadsTo inc.now (by_place claims.now.c.now) (by_number claims.now.d.now) (by_place claims.now.pairs.now) k n x → x ≡ i) }
    ensures none { IfNone result ((x : ℕ) → x < equations inc.now → LeadsTo inc.now (by_place claims.now.c.now) (by_number claims.now.d.now) (by_place claims.now.pairs.now) k n x → ⊥) }
{
    let (unknown, order) = inc.entry(k + 1, n);
    let highest = claims.d[unknown as usize - 1];
    if u64::from(highest) != u64::from(claims.c[k as usize]) + u64::from(order) {
        return None;
    }
    let holder = owner[unknown as usize];
    if holder == 0 {
        return None;
    }
    if holder == k + 1 {
        return None;
    }
    Some(holder - 1)
}

/// Marks the equation at this place and puts it into the queue, if there is one and it has no mark yet.
fn mark(marks: &mut [bool], queue: &mut Vec<u32>, place: Option<u32>) -> Result<(), NoMemory>
    requires { IfSome place (λ i. i < length marks.old) }
    ensures { OnOk result (Marks marks.old queue.old.items place marks.new queue.new.items) }
{
    let Some(place) = place else {
        return Ok(());
    };
    if marks[place as usize] {
        return Ok(());
    }
    queue.push(place)?;
    marks[place as usize] = true;
    Ok(())
}

/// Marks the equations of which the one at place k is a reason, and puts those without a mark before into the queue.
fn mark_row(
    inc: &Incidence,
    claims: &Seen,
    owner: &[u32],
    k: u32,
    marks: &mut [bool],
    queue: &mut Vec<u32>,
    _head: usize,
) -> Result<(), NoMemory>
    requires sizes { HaveSizes inc.now (printed_in claims.now) }
    requires owners { (length owner.now ≡ suc inc.now.unknowns) × AreOwners (equations inc.now) (by_place claims.now.pairs.now) owner.now }
    requires marked { IsMarkedTo inc.now (printed_in claims.now) marks.old queue.old.items _head (equations inc.now) }
    requires head { (_head < length queue.old.items) × (get_or queue.old.items _head 0 ≡ k) }
    ensures marked { OnOk result (IsMarkedTo inc.now (printed_in claims.now) marks.new queue.new.items (_head + 1) (equations inc.now)) }
    ensures count { OnOk result (unmarked marks.new + length queue.new.items ≡ unmarked marks.old + length queue.old.items) }
{
    for n in 0..inc.row_len(k + 1) {
        let led = led_by(inc, claims, owner, k, n);
        mark(marks, queue, led)?;
    }
    Ok(())
}

/// The equations with an offset of 0, marked. All marks are off before.
fn start(
    alloc: Global,
    inc: &Incidence,
    claims: &Seen,
    marks: &mut [bool],
) -> Result<Vec<u32>, NoMemory>
    requires sizes { HaveSizes inc.now (printed_in claims.now) }
    requires size { length marks.old ≡ equations inc.now }
    requires clear { (i : ℕ) → get_or marks.old i false ≡ false }
    ensures { IfOk result (λ queue. IsMarkedTo inc.now (printed_in claims.now) marks.new queue.items 0 (equations inc.now)) }
{
    let mut queue = Vec::new(alloc);
    for i in 0..inc.equations() {
        if claims.c[i as usize] != 0 {
            continue;
        }
        queue.push(i)?;
        marks[i as usize] = true;
    }
    Ok(queue)
}

/// Writes for each unknown the number of its equation. All numbers are 0 before.
fn note_owners(inc: &Incidence, claims: &Seen, owner: &mut [u32])
    requires sizes { HaveSizes inc.now (printed_in claims.now) }
    requires right { HasNoFault inc.now (printed_in claims.now) }
    requires size { length owner.old ≡ suc inc.now.unknowns }
    requires clear { (j : ℕ) → slice_index owner.old j ≡ 0 }
    ensures size { length owner.new ≡ suc inc.now.unknowns }
    ensures owners { AreOwners (equations inc.now) (by_place claims.now.pairs.now) owner.new }
{
    for i in 0..inc.equations() {
        owner[claims.pairs[i as usize] as usize] = i + 1;
    }
}

/// Marks the equations from which a chain of reasons leads to one with an offset of 0. All marks are off before.
fn mark_chained(
    alloc: Global,
    inc: &Incidence,
    claims: &Seen,
    owner: &[u32],
    marks: &mut [bool],
) -> Result<(), NoMemory>
    requires sizes { HaveSizes inc.now (printed_in claims.now) }
    requires owners { (length owner.now ≡ suc inc.now.unknowns) × AreOwners (equations inc.now) (by_place claims.now.pairs.now) owner.now }
    requires size { length marks.old ≡ equations inc.now }
    requires clear { (i : ℕ) → get_or marks.old i false ≡ false }
    ensures size { OnOk result (length marks.new ≡ equations inc.now) }
    ensures yes { OnOk result ((i : ℕ) → get_or marks.new i false ≡ true → IsChained inc.now (printed_in claims.now) i) }
    ensures no { OnOk result ((i : ℕ) → i < equations inc.now → get_or marks.new i false ≡ false → IsChained inc.now (printed_in claims.now) i → ⊥) }
{
    let mut queue = start(alloc, inc, claims, marks)?;
    let mut head = 0;
    'heads: while head < queue.len() {
        let k = queue[head];
        mark_row(inc, claims, owner, k, marks, &mut queue, head)?;
        head += 1;
    }
    Ok(())
}

/// The verdict on the first equation without a mark, where the marked ones are those from which a chain leads to an offset of 0.
fn first_unmarked(_inc: &Incidence, claims: &Seen, marks: &[bool]) -> Option<Verdict>
    requires sizes { HaveSizes _inc.now (printed_in claims.now) }
    requires size { length marks.now ≡ equations _inc.now }
    requires yes { (i : ℕ) → get_or marks.now i false ≡ true → IsChained _inc.now (printed_in claims.now) i }
    requires no { (i : ℕ) → i < equations _inc.now → get_or marks.now i false ≡ false → IsChained _inc.now (printed_in claims.now) i → ⊥ }
    ensures some { IfSome result (IsUnchained _inc.now (printed_in claims.now)) }
    ensures none { IfNone result (AreChainedTo _inc.now (printed_in claims.now) (equations _inc.now)) }
{
    let _equations = _inc.equations();
    for i in 0..marks.len() {
        if !marks[i] {
            let printed = claims.c[i];
            return Some(Verdict::NotLeast {
                equation: i as u32 + 1,
                printed,
                smaller: printed - 1,
            });
        }
    }
    None
}

/// The verdict on the first equation from which no chain of reasons leads to an offset of 0.
pub(crate) fn unchained(
    alloc: Global,
    inc: &Incidence,
    claims: &Seen,
) -> Result<Option<Verdict>, NoMemory>
    requires sizes { HaveSizes inc.now (printed_in claims.now) }
    requires right { HasNoFault inc.now (printed_in claims.now) }
    requires square { equations inc.now ≡ inc.now.unknowns }
    ensures some { IfOk result (λ r. IfSome r (IsNotLeast inc.now (printed_in claims.now))) }
    ensures none { IfOk result (λ r. IfNone r (AreChainedTo inc.now (printed_in claims.now) (equations inc.now))) }
{
    let mut owner = vec![in alloc; 0; inc.unknowns() as usize + 1]?;
    note_owners(inc, claims, &mut owner);
    let mut marks = vec![in alloc; false; inc.equations() as usize]?;
    mark_chained(alloc, inc, claims, &owner, &mut marks)?;
    Ok(first_unmarked(inc, claims, &marks))
}
