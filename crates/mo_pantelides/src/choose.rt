//! The reason of each equation that is differentiated.
ghost use Rattle.std.specs.Prelude.{◌≡◌, ◌≢◌, ℕ, ◌+◌, ◌-◌, ◌<◌, ◌≤◌, length, slice_index, vec_len, [], ◌∷◌, ◌++◌};
ghost use Rattle.std.proofs.Common.{suc};
ghost use Rattle.std.specs.Vec.{vec_capacity};
ghost use Rattle.mo_incidence.specs.Signature.{equations, row_len};
ghost use Rattle.mo_incidence.specs.Assignment.{CoversAll, Mentions};
ghost use Rattle.mo_incidence.specs.Offsets.{ArePaired, AreSized, HasPairs, HasSizes, IsLeast, by_number, by_place, c_of, d_of, pairs_of};
ghost use Rattle.mo_match.specs.Searching.{IsMatching};
ghost use Rattle.mo_match.specs.Results.{IsMadeFor};
ghost use Rattle.mo_incidence.specs.Reasons.{listed_reasons, AreReasonsOf};
ghost use Rattle.mo_pantelides.specs.Finding.{AreReasonsIn};
ghost use Rattle.mo_pantelides.specs.steps.Ranks.{IsChosenTo, Considers};

use crate::ranks::{Paired, find_ranks, led_by};
use mo_incidence::{Incidence, Offsets, Reason};
use mo_match::{Work, clear, note_owners};

/// Takes the equation at place k for another one, if it has a lower rank than the one taken before.
fn consider(mark: &[u32], best: &mut [u32], k: u32, equation: u32)
    requires sizes { (k < length mark.now) × (equation < length best.old) × (length mark.now ≤ 50000) }
    requires best { slice_index best.old equation ≤ length mark.now }
    ensures { Considers mark.now best.old k equation best.new }
{
    let old = best[equation as usize] as usize;
    if old == 0 {
        best[equation as usize] = k + 1;
        return;
    }
    if mark[k as usize] < mark[old - 1] {
        best[equation as usize] = k + 1;
        return;
    }
}

/// Looks at one entry of the equation at place k.
fn choose_entry(inc: &Incidence, paired: &Paired, mark: &[u32], best: &mut [u32], k: u32, n: u32)
    requires k { k < equations inc.now }
    requires n { n < row_len inc.now k }
    requires sizes { (length paired.now.c.now ≡ equations inc.now) × (length paired.now.d.now ≡ inc.now.unknowns) × (length mark.now ≡ equations inc.now) × (equations inc.now ≤ 50000) }
    requires matching { IsMatching (Mentions inc.now) (equations inc.now) inc.now.unknowns paired.now.pairs.now paired.now.owner.now }
    requires all { CoversAll inc.now (by_place paired.now.pairs.now) }
    requires chosen { IsChosenTo inc.now (by_place paired.now.c.now) (by_number paired.now.d.now) (by_place paired.now.pairs.now) mark.now best.old k n }
    ensures { IsChosenTo inc.now (by_place paired.now.c.now) (by_number paired.now.d.now) (by_place paired.now.pairs.now) mark.now best.new k (n + 1) }
{
    match led_by(inc, paired, k, n) {
        None => {}
        Some(equation) => consider(mark, best, k, equation),
    }
}

/// Looks at the entries of the equation at place k.
fn choose_row(inc: &Incidence, paired: &Paired, mark: &[u32], best: &mut [u32], k: u32)
    requires k { k < equations inc.now }
    requires sizes { (length paired.now.c.now ≡ equations inc.now) × (length paired.now.d.now ≡ inc.now.unknowns) × (length mark.now ≡ equations inc.now) × (equations inc.now ≤ 50000) }
    requires matching { IsMatching (Mentions inc.now) (equations inc.now) inc.now.unknowns paired.now.pairs.now paired.now.owner.now }
    requires all { CoversAll inc.now (by_place paired.now.pairs.now) }
    requires chosen { IsChosenTo inc.now (by_place paired.now.c.now) (by_number paired.now.d.now) (by_place paired.now.pairs.now) mark.now best.old k 0 }
    ensures { IsChosenTo inc.now (by_place paired.now.c.now) (by_number paired.now.d.now) (by_place paired.now.pairs.now) mark.now best.new (k + 1) 0 }
{
    for n in 0..inc.row_len(k + 1) {
        choose_entry(inc, paired, mark, best, k, n);
    }
}

/// Writes for each equation one more than the place of its best candidate, or 0.
fn choose_all(inc: &Incidence, paired: &Paired, mark: &[u32], best: &mut [u32])
    requires sizes { (length paired.now.c.now ≡ equations inc.now) × (length paired.now.d.now ≡ inc.now.unknowns) × (length mark.now ≡ equations inc.now) × (length best.old ≡ equations inc.now) }
    requires matching { IsMatching (Mentions inc.now) (equations inc.now) inc.now.unknowns paired.now.pairs.now paired.now.owner.now }
    requires all { CoversAll inc.now (by_place paired.now.pairs.now) }
    ensures { IsChosenTo inc.now (by_place paired.now.c.now) (by_number paired.now.d.now) (by_place paired.now.pairs.now) mark.now best.new (equations inc.now) 0 }
{
    clear(best);
    for k in 0..inc.equations() {
        choose_row(inc, paired, mark, best, k);
    }
}

/// Puts a reason at the end of a list that has room for it.
fn put_reason(list: &mut Vec<Reason>, reason: Reason)
    requires { vec_len list.old < vec_capacity list.old }
    ensures items { list.new.items ≡ list.old.items ++ reason ∷ [] }
    ensures room { vec_capacity list.old ≤ vec_capacity list.new }
{
    let _ = list.push(reason);
}

/// Lists the reasons of the equations with an offset above 0.
fn list_reasons(c: &[u32], best: &[u32], list: &mut Vec<Reason>)
    requires sizes { (length best.now ≡ length c.now) × (length c.now ≤ 50000) }
    requires room { length c.now ≤ vec_capacity list.old }
    requires best { (i : ℕ) → i < length c.now → slice_index c.now i ≢ 0 → slice_index best.now i ≢ 0 }
    ensures items { list.new.items ≡ listed_reasons (by_place c.now) (λ i. slice_index best.now i - 1) (length c.now) }
    ensures room { vec_capacity list.old ≤ vec_capacity list.new }
{
    list.clear();
    for i in 0..c.len() {
        if c[i] == 0 {
            continue;
        }
        let equation = i as u32 + 1;
        put_reason(
            list,
            Reason {
                equation,
                from: best[i],
            },
        );
    }
}

/// Lists the reasons, with room for the searches.
fn find_reasons(
    inc: &Incidence,
    offsets: &Offsets,
    owner: &mut [u32],
    queue: &mut [u32],
    mark: &mut [u32],
    best: &mut [u32],
    list: &mut Vec<Reason>,
)
    requires sizes { HasSizes inc.now offsets.now }
    requires room { (length owner.old ≡ suc inc.now.unknowns) × (length queue.old ≡ equations inc.now) × (length mark.old ≡ equations inc.now) × (length best.old ≡ equations inc.now) × (equations inc.now ≤ vec_capacity list.old) }
    requires least { IsLeast inc.now (c_of offsets.now) (d_of offsets.now) }
    requires tight { HasPairs inc.now offsets.now }
    requires all { CoversAll inc.now (pairs_of offsets.now) }
    ensures reasons { AreReasonsOf inc.now (c_of offsets.now) (d_of offsets.now) (pairs_of offsets.now) list.new.items }
    ensures room { vec_capacity list.old ≤ vec_capacity list.new }
{
    let _equations = inc.equations();
    note_owners(inc, &offsets.pairs, owner);
    let paired = Paired {
        c: &offsets.c,
        d: &offsets.d,
        pairs: &offsets.pairs,
        owner,
    };
    find_ranks(inc, &paired, queue, mark);
    choose_all(inc, &paired, mark, best);
    list_reasons(paired.c, best, list);
}

/// Finds why equations have to be differentiated: for each with an offset above 0 another one that is tight at its unknown, of
/// least rank and then of least number. The rank is how many reasons lead to an equation with an offset of 0, so following reasons
/// ends there. They are left in the work space, by equations, ascending. The work space has to hold the least offsets.
/// It takes no memory.
pub fn reasons(inc: &Incidence, work: &mut Work)
    requires made { IsMadeFor inc.now work.old }
    requires lengths { AreSized inc.now work.old.c work.old.d work.old.pairs }
    requires least { IsLeast inc.now (by_place work.old.c) (by_number work.old.d) }
    requires pairs { ArePaired inc.now (by_place work.old.c) (by_number work.old.d) (by_place work.old.pairs) }
    requires all { CoversAll inc.now (by_place work.old.pairs) }
    ensures reasons { AreReasonsIn inc.now work.old work.new.reasons }
    ensures rest { work.new ≡ record work.old { reasons = work.new.reasons } }
{
    find_reasons(
        inc,
        &work.offsets,
        &mut work.matching.owner,
        &mut work.search.queue,
        &mut work.search.mark,
        &mut work.search.parent,
        &mut work.reasons,
    );
}
