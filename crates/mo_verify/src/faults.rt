//! What can be wrong with printed orders, offsets and pairs.
ghost use Rattle.std.specs.Prelude.{◌≡◌, ℕ, ◌+◌, ◌-◌, ◌<◌, ◌≤◌, true, false, Some, IfOk, IfSome, IfNone, length, slice_index};
ghost use Rattle.std.proofs.Common.{suc};
ghost use Rattle.mo_incidence.specs.Signature.{equations, row_len, unknown_at, order_at};
ghost use Rattle.mo_verify.specs.Faults.{IsSigma, HaveOrders, FitTo, MeetTo, AreApartTo};
ghost use Rattle.mo_verify.specs.Finding.{printed_in, HaveSizes, IsOrderFault, IsLowFault, IsLooseFault, IsTwiceFault, IsFirstFault, HasNoFault};

use crate::seen::Seen;
use crate::verdict::Verdict;
use mo_incidence::Incidence;
use mo_syntax::NoMemory;
use std::alloc::Global;

/// The order at which an unknown stands in an equation, None where it does not. Takes time that is linear in the row.
fn sigma(inc: &Incidence, row: u32, unknown: u32) -> Option<u32>
    requires row { (0 < row) × (row ≤ equations inc.now) }
    ensures { IsSigma inc.now (row - 1) unknown result }
{
    for k in 0..inc.row_len(row) {
        let (found, order) = inc.entry(row, k);
        if found == unknown {
            return Some(order);
        }
    }
    None
}

/// Whether the order that was found is another one than the printed one, or none was found.
fn differs(found: Option<u32>, printed: u32) -> bool
    ensures yes { result ≡ true → found ≡ Some printed → ⊥ }
    ensures no { result ≡ false → found ≡ Some printed }
{
    match found {
        Some(order) => order != printed,
        None => true,
    }
}

/// The first equation whose pair has another order than the printed one.
fn wrong_order(inc: &Incidence, claims: &Seen) -> Option<Verdict>
    requires sizes { HaveSizes inc.now (printed_in claims.now) }
    ensures some { IfSome result (IsOrderFault inc.now (printed_in claims.now)) }
    ensures none { IfNone result (HaveOrders inc.now (printed_in claims.now) (equations inc.now)) }
{
    for i in 0..inc.equations() {
        let unknown = claims.pairs[i as usize];
        let printed = claims.orders[i as usize];
        let found = sigma(inc, i + 1, unknown);
        if differs(found, printed) {
            return Some(Verdict::Order {
                equation: i + 1,
                unknown,
                printed,
                found,
            });
        }
    }
    None
}

/// The first entry of an equation that passes the difference of the offsets.
fn low_in_row(inc: &Incidence, row: u32, c: u32, d: &[u32]) -> Option<u32>
    requires row { (0 < row) × (row ≤ equations inc.now) }
    requires sizes { length d.now ≡ inc.now.unknowns }
    ensures some { IfSome result (λ k. (k < row_len inc.now (row - 1)) × (slice_index d.now (unknown_at inc.now (row - 1) k - 1) < order_at inc.now (row - 1) k + c)) }
    ensures first { IfSome result (λ k. (e : ℕ) → e < k → slice_index d.now (unknown_at inc.now (row - 1) e - 1) < order_at inc.now (row - 1) e + c → ⊥) }
    ensures none { IfNone result ((e : ℕ) → e < row_len inc.now (row - 1) → slice_index d.now (unknown_at inc.now (row - 1) e - 1) < order_at inc.now (row - 1) e + c → ⊥) }
{
    for k in 0..inc.row_len(row) {
        let (unknown, order) = inc.entry(row, k);
        if u64::from(d[unknown as usize - 1]) < u64::from(order) + u64::from(c) {
            return Some(k);
        }
    }
    None
}

/// The first entry, by equations, then unknowns, that passes the difference of the offsets.
fn low_entry(inc: &Incidence, claims: &Seen) -> Option<Verdict>
    requires sizes { HaveSizes inc.now (printed_in claims.now) }
    ensures some { IfSome result (IsLowFault inc.now (printed_in claims.now)) }
    ensures none { IfNone result (FitTo inc.now (printed_in claims.now) (equations inc.now) 0) }
{
    let d = claims.d;
    for i in 0..inc.equations() {
        let c = claims.c[i as usize];
        if let Some(k) = low_in_row(inc, i + 1, c, d) {
            let (unknown, order) = inc.entry(i + 1, k);
            return Some(Verdict::Low {
                equation: i + 1,
                unknown,
                order,
                c,
                d: d[unknown as usize - 1],
            });
        }
    }
    None
}

/// The first equation whose pair does not make up the difference of the offsets.
fn loose_pair(inc: &Incidence, claims: &Seen) -> Option<Verdict>
    requires sizes { HaveSizes inc.now (printed_in claims.now) }
    ensures some { IfSome result (IsLooseFault inc.now (printed_in claims.now)) }
    ensures none { IfNone result (MeetTo (printed_in claims.now) (equations inc.now)) }
{
    for i in 0..inc.equations() {
        let unknown = claims.pairs[i as usize];
        let order = claims.orders[i as usize];
        let c = claims.c[i as usize];
        let d = claims.d[unknown as usize - 1];
        if u64::from(order) + u64::from(c) < u64::from(d) {
            return Some(Verdict::Loose {
                equation: i + 1,
                unknown,
                order,
                c,
                d,
            });
        }
    }
    None
}

/// The first equation that is paired with the unknown of one before it, with numbers of equations that are all 0.
fn shared(inc: &Incidence, claims: &Seen, owner: &mut [u32]) -> Option<Verdict>
    requires sizes { HaveSizes inc.now (printed_in claims.now) }
    requires size { length owner.old ≡ suc inc.now.unknowns }
    requires clear { (j : ℕ) → slice_index owner.old j ≡ 0 }
    ensures some { IfSome result (IsTwiceFault inc.now (printed_in claims.now)) }
    ensures none { IfNone result (AreApartTo (printed_in claims.now) (equations inc.now)) }
{
    for i in 0..inc.equations() {
        let unknown = claims.pairs[i as usize];
        let first = owner[unknown as usize];
        if first != 0 {
            return Some(Verdict::Twice {
                first,
                second: i + 1,
                unknown,
            });
        }
        owner[unknown as usize] = i + 1;
    }
    None
}

/// The first equation that is paired with the unknown of one before it.
fn shared_unknown(
    alloc: Global,
    inc: &Incidence,
    claims: &Seen,
) -> Result<Option<Verdict>, NoMemory>
    requires sizes { HaveSizes inc.now (printed_in claims.now) }
    ensures some { IfOk result (λ r. IfSome r (IsTwiceFault inc.now (printed_in claims.now))) }
    ensures none { IfOk result (λ r. IfNone r (AreApartTo (printed_in claims.now) (equations inc.now))) }
{
    let mut owner = vec![in alloc; 0; inc.unknowns() as usize + 1]?;
    Ok(shared(inc, claims, &mut owner))
}

/// The first of these faults, in this order.
pub(crate) fn first_fault(
    alloc: Global,
    inc: &Incidence,
    claims: &Seen,
) -> Result<Option<Verdict>, NoMemory>
    requires sizes { HaveSizes inc.now (printed_in claims.now) }
    ensures some { IfOk result (λ r. IfSome r (IsFirstFault inc.now (printed_in claims.now))) }
    ensures none { IfOk result (λ r. IfNone r (HasNoFault inc.now (printed_in claims.now))) }
{
    if let Some(verdict) = wrong_order(inc, claims) {
        return Ok(Some(verdict));
    }
    if let Some(verdict) = low_entry(inc, claims) {
        return Ok(Some(verdict));
    }
    if let Some(verdict) = loose_pair(inc, claims) {
        return Ok(Some(verdict));
    }
    shared_unknown(alloc, inc, claims)
}
