//! How many reasons lead from each equation to one that is not differentiated.
ghost use Rattle.std.specs.Prelude.{◌≡◌, ◌≢◌, ℕ, ◌+◌, ◌-◌, ◌<◌, ◌≤◌, length, slice_index, IfSome, IfNone};
ghost use Rattle.mo_incidence.specs.Signature.{equations, row_len};
ghost use Rattle.mo_incidence.specs.Assignment.{Mentions, Assigns, CoversAll};
ghost use Rattle.mo_incidence.specs.Offsets.{IsTight, IsLeast, by_place, by_number};
ghost use Rattle.mo_match.specs.Searching.{IsMatching};
ghost use Rattle.mo_incidence.specs.Reasons.{LeadsTo, IsRank};
ghost use Rattle.mo_pantelides.specs.steps.Ranks.{IsRanking, IsNear, RanksOn, IsStarting};

use mo_incidence::Incidence;
use mo_match::clear;

/// Offsets with the pairs of equations and unknowns, by the equations and by the unknowns.
#[derive(Clone, Copy)]
pub(crate) struct Paired<'a> {
    pub c: &'a [u32],
    pub d: &'a [u32],
    /// For each equation the number of its unknown.
    pub pairs: &'a [u32],
    /// For each unknown, from 1 on, the number of its equation, or 0.
    pub owner: &'a [u32],
}

/// The place of the equation for which the entry makes its own equation, at place k, a candidate.
pub(crate) fn led_by(inc: &Incidence, paired: &Paired, k: u32, n: u32) -> Option<u32>
    requires k { k < equations inc.now }
    requires n { n < row_len inc.now k }
    requires sizes { (length paired.now.c.now ≡ equations inc.now) × (length paired.now.d.now ≡ inc.now.unknowns) }
    requires matching { IsMatching (Mentions inc.now) (equations inc.now) inc.now.unknowns paired.now.pairs.now paired.now.owner.now }
    requires all { CoversAll inc.now (by_place paired.now.pairs.now) }
    ensures some { IfSome result (λ i. (i < equations inc.now) × LeadsTo inc.now (by_place paired.now.c.now) (by_number paired.now.d.now) (by_place paired.now.pairs.now) k n i) }
    ensures only { IfSome result (λ i. (x : ℕ) → x < equations inc.now → LeadsTo inc.now (by_place paired.now.c.now) (by_number paired.now.d.now) (by_place paired.now.pairs.now) k n x → x ≡ i) }
    ensures none { IfNone result ((x : ℕ) → x < equations inc.now → LeadsTo inc.now (by_place paired.now.c.now) (by_number paired.now.d.now) (by_place paired.now.pairs.now) k n x → ⊥) }
{
    let _equations = inc.equations();
    let (unknown, order) = inc.entry(k + 1, n);
    if u64::from(paired.d[unknown as usize - 1])
        != u64::from(paired.c[k as usize]) + u64::from(order)
    {
        return None;
    }
    let holder = paired.owner[unknown as usize];
    if holder == 0 {
        return None;
    }
    if holder == k + 1 {
        return None;
    }
    Some(holder - 1)
}

/// Puts the equation for which an entry of the one at the head is a candidate at the end of the queue, if it has no mark yet.
fn rank_entry(
    inc: &Incidence,
    paired: &Paired,
    queue: &mut [u32],
    mark: &mut [u32],
    head: usize,
    tail: usize,
    n: u32,
) -> usize
    requires sizes { (length paired.now.c.now ≡ equations inc.now) × (length paired.now.d.now ≡ inc.now.unknowns) × (equations inc.now ≤ 50000) }
    requires matching { IsMatching (Mentions inc.now) (equations inc.now) inc.now.unknowns paired.now.pairs.now paired.now.owner.now }
    requires all { CoversAll inc.now (by_place paired.now.pairs.now) }
    requires ranking { IsRanking inc.now (by_place paired.now.c.now) (by_number paired.now.d.now) (by_place paired.now.pairs.now) queue.old mark.old tail }
    requires near { IsNear queue.old mark.old head tail }
    requires head { head < tail }
    requires n { n < row_len inc.now (slice_index queue.old head) }
    ensures ranking { IsRanking inc.now (by_place paired.now.c.now) (by_number paired.now.d.now) (by_place paired.now.pairs.now) queue.new mark.new result }
    ensures near { IsNear queue.new mark.new head result }
    ensures on { RanksOn queue.old mark.old queue.new mark.new tail result }
    ensures done { (x : ℕ) → x < equations inc.now → LeadsTo inc.now (by_place paired.now.c.now) (by_number paired.now.d.now) (by_place paired.now.pairs.now) (slice_index queue.old head) n x → slice_index mark.new x ≢ 0 }
{
    let k = queue[head];
    match led_by(inc, paired, k, n) {
        None => tail,
        Some(equation) => {
            if mark[equation as usize] != 0 {
                return tail;
            }
            queue[tail] = equation;
            mark[equation as usize] = mark[k as usize] + 1;
            tail + 1
        }
    }
}

/// Puts the equations for which the one at the head of the queue is a candidate at the end of the queue, if they have no marks yet.
fn rank_row(
    inc: &Incidence,
    paired: &Paired,
    queue: &mut [u32],
    mark: &mut [u32],
    head: usize,
    end: usize,
) -> usize
    requires sizes { (length paired.now.c.now ≡ equations inc.now) × (length paired.now.d.now ≡ inc.now.unknowns) × (equations inc.now ≤ 50000) }
    requires matching { IsMatching (Mentions inc.now) (equations inc.now) inc.now.unknowns paired.now.pairs.now paired.now.owner.now }
    requires all { CoversAll inc.now (by_place paired.now.pairs.now) }
    requires ranking { IsRanking inc.now (by_place paired.now.c.now) (by_number paired.now.d.now) (by_place paired.now.pairs.now) queue.old mark.old end }
    requires near { IsNear queue.old mark.old head end }
    requires head { head < end }
    ensures ranking { IsRanking inc.now (by_place paired.now.c.now) (by_number paired.now.d.now) (by_place paired.now.pairs.now) queue.new mark.new result }
    ensures near { IsNear queue.new mark.new head result }
    ensures on { RanksOn queue.old mark.old queue.new mark.new end result }
    ensures done { (x n : ℕ) → x < equations inc.now → n < row_len inc.now (slice_index queue.old head) → LeadsTo inc.now (by_place paired.now.c.now) (by_number paired.now.d.now) (by_place paired.now.pairs.now) (slice_index queue.old head) n x → slice_index mark.new x ≢ 0 }
{
    let row = queue[head] + 1;
    let mut tail = end;
    for n in 0..inc.row_len(row) {
        tail = rank_entry(inc, paired, queue, mark, head, tail, n);
    }
    tail
}

/// Puts the equations with an offset of 0 into the queue.
fn start_ranks(
    inc: &Incidence,
    c: &[u32],
    _d: &[u32],
    _pairs: &[u32],
    queue: &mut [u32],
    mark: &mut [u32],
) -> usize
    requires sizes { (length c.now ≡ equations inc.now) × (length queue.old ≡ equations inc.now) × (length mark.old ≡ equations inc.now) }
    ensures { IsStarting inc.now (by_place c.now) (by_number _d.now) (by_place _pairs.now) queue.new mark.new result (equations inc.now) }
{
    clear(mark);
    let mut tail = 0;
    for i in 0..inc.equations() {
        if c[i as usize] != 0 {
            continue;
        }
        queue[tail] = i;
        mark[i as usize] = 1;
        tail += 1;
    }
    tail
}

/// Writes for each equation one more than its rank.
pub(crate) fn find_ranks(inc: &Incidence, paired: &Paired, queue: &mut [u32], mark: &mut [u32])
    requires sizes { (length paired.now.c.now ≡ equations inc.now) × (length paired.now.d.now ≡ inc.now.unknowns) × (length queue.old ≡ equations inc.now) × (length mark.old ≡ equations inc.now) }
    requires least { IsLeast inc.now (by_place paired.now.c.now) (by_number paired.now.d.now) }
    requires tight { Assigns (IsTight inc.now (by_place paired.now.c.now) (by_number paired.now.d.now)) (equations inc.now) (by_place paired.now.pairs.now) }
    requires all { CoversAll inc.now (by_place paired.now.pairs.now) }
    requires matching { IsMatching (Mentions inc.now) (equations inc.now) inc.now.unknowns paired.now.pairs.now paired.now.owner.now }
    ensures ranked { (i : ℕ) → i < equations inc.now → (slice_index mark.new i ≢ 0) × IsRank inc.now (by_place paired.now.c.now) (by_number paired.now.d.now) (by_place paired.now.pairs.now) i (slice_index mark.new i - 1) }
{
    let _equations = inc.equations();
    let mut tail = start_ranks(inc, paired.c, paired.d, paired.pairs, queue, mark);
    let mut head = 0;
    while head < tail {
        tail = rank_row(inc, paired, queue, mark, head, tail);
        head += 1;
    }
}
