//! Which equations of a stage are tight at which candidates, as rows of incidences.
ghost use Rattle.std.specs.Prelude.{◌≡◌, ◌≢◌, ℕ, ◌+◌, ◌-◌, ◌<◌, ◌≤◌, ◌++◌, ◌∷◌, [], length, vec_len, slice_index, IfSome, IfNone, IfOk, OnOk};
ghost use Rattle.std.proofs.Common.{get_or, suc};
ghost use Rattle.mo_incidence.specs.Signature.{equations, row_len, unknown_at, order_at};
ghost use Rattle.mo_incidence.specs.Offsets.{by_place, by_number};
ghost use Rattle.mo_incidence.specs.steps.Needing.{AreOwners};
ghost use Rattle.mo_select.specs.steps.Ties.{entries_in, HasTies, IsOpenRow, AreOpenRows};

use mo_incidence::Incidence;
use mo_syntax::NoMemory;
use std::alloc::Global;

/// The equations of a stage, which are still to be differentiated, by their places, and the offsets.
#[derive(Clone, Copy)]
pub(crate) struct Remaining<'a> {
    pub c: &'a [u32],
    pub d: &'a [u32],
    pub active: &'a [u32],
}

/// The unknown of an entry of the equation at place i, if the entry is tight.
fn tight_unknown(inc: &Incidence, c: &[u32], d: &[u32], i: u32, k: u32) -> Option<u32>
    requires entry { (i < equations inc.now) × (k < row_len inc.now i) }
    requires sizes { (length c.now ≡ equations inc.now) × (length d.now ≡ inc.now.unknowns) }
    ensures unknown { IfSome result (λ u. u ≡ unknown_at inc.now i k) }
    ensures known { IfSome result (λ u. (0 < u) × (u ≤ inc.now.unknowns)) }
    ensures tight { IfSome result (λ _. by_number d.now (unknown_at inc.now i k) ≡ by_place c.now i + order_at inc.now i k) }
    ensures none { IfNone result (by_number d.now (unknown_at inc.now i k) ≢ by_place c.now i + order_at inc.now i k) }
{
    let _equations = inc.equations();
    let (unknown, order) = inc.entry(i + 1, k);
    if u64::from(d[unknown as usize - 1]) != u64::from(c[i as usize]) + u64::from(order) {
        return None;
    }
    Some(unknown)
}

/// So many empty rows.
fn empty_rows(alloc: Global, count: usize) -> Result<Vec<Vec<(u32, u32)>>, NoMemory>
    ensures count { IfOk result (λ rows. length (entries_in rows.items) ≡ count) }
    ensures empty { IfOk result (λ rows. (t : ℕ) → get_or (entries_in rows.items) t [] ≡ []) }
{
    let mut rows = Vec::new(alloc);
    for _t in 0..count {
        rows.push(Vec::new(alloc))?;
    }
    Ok(rows)
}

/// Puts a number at the end of one of the rows.
fn put(rows: &mut Vec<Vec<(u32, u32)>>, t: usize, number: u32) -> Result<(), NoMemory>
    requires { t < vec_len rows.old }
    ensures count { OnOk result (length (entries_in rows.new.items) ≡ length (entries_in rows.old.items)) }
    ensures more { OnOk result (get_or (entries_in rows.new.items) t [] ≡ get_or (entries_in rows.old.items) t [] ++ (number, 0) ∷ []) }
    ensures others { OnOk result ((u : ℕ) → u ≢ t → get_or (entries_in rows.new.items) u [] ≡ get_or (entries_in rows.old.items) u []) }
{
    rows[t].push((number, 0))?;
    Ok(())
}

/// Puts the equation at place e of the list into the rows of the candidates at which it is tight.
fn tie(
    inc: &Incidence,
    remaining: &Remaining,
    _order: &[u32],
    rank: &[usize],
    e: usize,
    rows: &mut Vec<Vec<(u32, u32)>>,
) -> Result<(), NoMemory>
    requires sizes { (length remaining.now.c.now ≡ equations inc.now) × (length remaining.now.d.now ≡ inc.now.unknowns) × (length rank.now ≡ suc inc.now.unknowns) }
    requires active { (e : ℕ) → e < length remaining.now.active.now → slice_index remaining.now.active.now e < equations inc.now }
    requires few { length remaining.now.active.now ≤ 50000 }
    requires e { e < length remaining.now.active.now }
    requires ranks { AreOwners (length _order.now) (by_place _order.now) rank.now }
    requires ties { HasTies inc.now (by_place remaining.now.c.now) (by_number remaining.now.d.now) remaining.now.active.now _order.now (entries_in rows.old.items) e 0 }
    ensures { OnOk result (HasTies inc.now (by_place remaining.now.c.now) (by_number remaining.now.d.now) remaining.now.active.now _order.now (entries_in rows.new.items) (e + 1) 0) }
{
    let _equations = inc.equations();
    let i = remaining.active[e];
    for k in 0..inc.row_len(i + 1) {
        let unknown = match tight_unknown(inc, remaining.c, remaining.d, i, k) {
            None => continue,
            Some(unknown) => unknown,
        };
        let place = rank[unknown as usize];
        if place == 0 {
            continue;
        }
        put(rows, place - 1, e as u32 + 1)?;
    }
    Ok(())
}

/// For each candidate the listed equations that are tight at it, by their places in the list from 1.
pub(crate) fn ties(
    alloc: Global,
    inc: &Incidence,
    remaining: &Remaining,
    order: &[u32],
    rank: &[usize],
) -> Result<Vec<Vec<(u32, u32)>>, NoMemory>
    requires sizes { (length remaining.now.c.now ≡ equations inc.now) × (length remaining.now.d.now ≡ inc.now.unknowns) × (length rank.now ≡ suc inc.now.unknowns) }
    requires active { (e : ℕ) → e < length remaining.now.active.now → slice_index remaining.now.active.now e < equations inc.now }
    requires few { length remaining.now.active.now ≤ 50000 }
    requires ranks { AreOwners (length order.now) (by_place order.now) rank.now }
    ensures { IfOk result (λ rows. HasTies inc.now (by_place remaining.now.c.now) (by_number remaining.now.d.now) remaining.now.active.now order.now (entries_in rows.items) (length remaining.now.active.now) 0) }
{
    let mut rows = empty_rows(alloc, order.len())?;
    for e in 0..remaining.active.len() {
        tie(inc, remaining, order, rank, e, &mut rows)?;
    }
    Ok(rows)
}

/// The candidates among the first `end` of the order at which the equation at place i is tight.
fn open_row(
    alloc: Global,
    inc: &Incidence,
    c: &[u32],
    d: &[u32],
    rank: &[usize],
    end: usize,
    i: u32,
) -> Result<Vec<(u32, u32)>, NoMemory>
    requires sizes { (length c.now ≡ equations inc.now) × (length d.now ≡ inc.now.unknowns) × (length rank.now ≡ suc inc.now.unknowns) }
    requires row { i < equations inc.now }
    ensures { IfOk result (λ row. IsOpenRow inc.now (by_place c.now) (by_number d.now) rank.now end i (row_len inc.now i) row.items) }
{
    let _equations = inc.equations();
    let mut row = Vec::new(alloc);
    for k in 0..inc.row_len(i + 1) {
        let unknown = match tight_unknown(inc, c, d, i, k) {
            None => continue,
            Some(unknown) => unknown,
        };
        let place = rank[unknown as usize];
        if place == 0 || place > end {
            continue;
        }
        row.push((unknown, 0))?;
    }
    Ok(row)
}

/// For each listed equation the candidates among the first `end` of the order at which it is tight.
pub(crate) fn open_rows(
    alloc: Global,
    inc: &Incidence,
    remaining: &Remaining,
    rank: &[usize],
    end: usize,
) -> Result<Vec<Vec<(u32, u32)>>, NoMemory>
    requires sizes { (length remaining.now.c.now ≡ equations inc.now) × (length remaining.now.d.now ≡ inc.now.unknowns) × (length rank.now ≡ suc inc.now.unknowns) }
    requires active { (e : ℕ) → e < length remaining.now.active.now → slice_index remaining.now.active.now e < equations inc.now }
    ensures count { IfOk result (λ rows. length (entries_in rows.items) ≡ length remaining.now.active.now) }
    ensures rows { IfOk result (λ rows. AreOpenRows inc.now (by_place remaining.now.c.now) (by_number remaining.now.d.now) remaining.now.active.now rank.now end (entries_in rows.items)) }
{
    let mut rows = Vec::new(alloc);
    for place in remaining.active {
        let row = open_row(alloc, inc, remaining.c, remaining.d, rank, end, *place)?;
        rows.push(row)?;
    }
    Ok(rows)
}
