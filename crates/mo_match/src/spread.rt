//! The unknowns that some assignment of all equations leaves out.
ghost use Rattle.std.specs.Prelude.{◌≡◌, ◌≢◌, ℕ, ◌+◌, ◌-◌, ◌<◌, ◌≤◌, length, slice_index};
ghost use Rattle.std.proofs.Common.{suc};
ghost use Rattle.mo_incidence.specs.Signature.{equations, entries};
ghost use Rattle.mo_incidence.specs.Assignment.{Mentions, IsAssignment, CoversAll, IsUndetermined, ListsWhere};
ghost use Rattle.mo_incidence.specs.Offsets.{by_place};
ghost use Rattle.mo_match.specs.Searching.{IsMatching};
ghost use Rattle.mo_match.specs.steps.Threads.{AreThreaded};
ghost use Rattle.mo_match.specs.steps.Spreading.{IsSpread, Spreads, AreFreeMarked, IsSpreadFrom, Marks};
ghost use Rattle.mo_match.specs.Results.{IsMadeFor};

use crate::largest::clear;
use crate::lists::list_unknowns;
use crate::threads::thread;
use crate::work::Work;
use mo_incidence::Incidence;

/// An assignment, by the equations and by the unknowns.
#[derive(Clone, Copy)]
struct Held<'a> {
    /// For each equation the number of its unknown, or 0.
    pub pairs: &'a [u32],
    /// For each unknown, from 1 on, the number of its equation, or 0.
    pub owner: &'a [u32],
}

/// An assignment of all equations, by the equations and by the unknowns, with the entries threaded by their unknowns.
#[derive(Clone, Copy)]
struct Threaded<'a> {
    pub pairs: &'a [u32],
    pub owner: &'a [u32],
    /// For each unknown, from 1 on, one more than the place of its last entry, or 0.
    pub last: &'a [u32],
    /// For each entry one more than the place of the entry before it with the same unknown, or 0.
    pub before: &'a [u32],
    /// For each entry the place of its equation.
    pub row_of: &'a [u32],
}

/// Writes for each unknown the number of the equation that has it, or 0.
pub fn note_owners(inc: &Incidence, pairs: &[u32], owner: &mut [u32])
    requires assigned { IsAssignment inc.now (by_place pairs.now) }
    requires all { CoversAll inc.now (by_place pairs.now) }
    requires sizes { (length pairs.now ≡ equations inc.now) × (length owner.old ≡ suc inc.now.unknowns) }
    ensures { IsMatching (Mentions inc.now) (equations inc.now) inc.now.unknowns pairs.now owner.new }
{
    let _equations = inc.equations();
    clear(owner);
    for i in 0..pairs.len() {
        owner[pairs[i] as usize] = i as u32 + 1;
    }
}

/// Puts an unknown at the end of the order, if it has no mark, and gives the order's new end.
fn mark_unknown(reached: &mut [u32], order: &mut [u32], unknown: u32, tail: usize) -> usize
    requires known { unknown < length reached.old }
    requires room { slice_index reached.old unknown ≡ 0 → tail < length order.old }
    requires small { length order.old ≤ 50000 }
    ensures { Marks reached.old order.old tail unknown reached.new order.new result }
{
    if reached[unknown as usize] != 0 {
        return tail;
    }
    reached[unknown as usize] = 1;
    order[tail] = unknown;
    tail + 1
}

/// Marks the unknowns that no equation has.
fn mark_free(inc: &Incidence, owner: &[u32], reached: &mut [u32], order: &mut [u32]) -> usize
    requires sizes { (length owner.now ≡ suc inc.now.unknowns) × (length reached.old ≡ suc inc.now.unknowns) × (length order.old ≡ inc.now.unknowns) }
    ensures spread { IsSpread inc.now owner.now reached.new order.new result }
    ensures free { AreFreeMarked inc.now owner.now reached.new (suc inc.now.unknowns) }
{
    let _equations = inc.equations();
    clear(reached);
    let mut tail = 0;
    for j in 1..inc.unknowns() + 1 {
        if owner[j as usize] != 0 {
            continue;
        }
        tail = mark_unknown(reached, order, j, tail);
    }
    tail
}

/// Marks the unknowns of the equations that mention the unknown at the head of the order.
fn spread_from(
    inc: &Incidence,
    threaded: &Threaded,
    reached: &mut [u32],
    order: &mut [u32],
    head: usize,
    end: usize,
) -> usize
    requires all { CoversAll inc.now (by_place threaded.now.pairs.now) }
    requires matching { IsMatching (Mentions inc.now) (equations inc.now) inc.now.unknowns threaded.now.pairs.now threaded.now.owner.now }
    requires threads { AreThreaded inc.now threaded.now.last.now threaded.now.before.now threaded.now.row_of.now }
    requires spread { IsSpread inc.now threaded.now.owner.now reached.old order.old end }
    requires head { head < end }
    ensures spread { IsSpread inc.now threaded.now.owner.now reached.new order.new result }
    ensures spreads { Spreads reached.old order.old reached.new order.new end result }
    ensures from { IsSpreadFrom inc.now threaded.now.pairs.now reached.new (slice_index order.old head) }
{
    let _equations = inc.equations();
    let mut tail = end;
    let mut cursor = threaded.last[order[head] as usize] as usize;
    while cursor > 0 {
        let equation = threaded.row_of[cursor - 1] as usize;
        tail = mark_unknown(reached, order, threaded.pairs[equation], tail);
        cursor = threaded.before[cursor - 1] as usize;
    }
    tail
}

/// Marks exactly the undetermined unknowns. Every equation has an unknown.
fn find_loose(
    inc: &Incidence,
    held: &Held,
    last: &mut [u32],
    before: &mut [u32],
    row_of: &mut [u32],
    reached: &mut [u32],
    order: &mut [u32],
)
    requires all { CoversAll inc.now (by_place held.now.pairs.now) }
    requires matching { IsMatching (Mentions inc.now) (equations inc.now) inc.now.unknowns held.now.pairs.now held.now.owner.now }
    requires room { (length last.old ≡ suc inc.now.unknowns) × (length before.old ≡ entries inc.now) × (length row_of.old ≡ entries inc.now) }
    requires room_search { (length reached.old ≡ suc inc.now.unknowns) × (length order.old ≡ inc.now.unknowns) }
    ensures marked { (j : ℕ) → slice_index reached.new j ≢ 0 → IsUndetermined inc.now j }
    ensures all { (j : ℕ) → 0 < j → j ≤ inc.now.unknowns → IsUndetermined inc.now j → slice_index reached.new j ≢ 0 }
{
    let _equations = inc.equations();
    thread(inc, last, before, row_of);
    let mut tail = mark_free(inc, held.owner, reached, order);
    let threaded = Threaded {
        pairs: held.pairs,
        owner: held.owner,
        last,
        before,
        row_of,
    };
    let mut head = 0;
    while head < tail {
        tail = spread_from(inc, &threaded, reached, order, head, tail);
        head += 1;
    }
}

/// Finds the undetermined unknowns: those that some assignment of all equations leaves out. They are left in the work space, which
/// has to hold an assignment of all equations. It takes no memory.
pub fn undetermined(inc: &Incidence, work: &mut Work)
    requires made { IsMadeFor inc.now work.old }
    requires assigned { IsAssignment inc.now (by_place work.old.assignment) }
    requires all { CoversAll inc.now (by_place work.old.assignment) }
    ensures loose { ListsWhere (IsUndetermined inc.now) inc.now.unknowns work.new.loose }
    ensures rest { work.new ≡ record work.old { loose = work.new.loose } }
{
    let _equations = inc.equations();
    note_owners(inc, &work.matching.pairs, &mut work.matching.owner);
    let held = Held {
        pairs: &work.matching.pairs,
        owner: &work.matching.owner,
    };
    find_loose(
        inc,
        &held,
        &mut work.last,
        &mut work.before,
        &mut work.row_of,
        &mut work.reached,
        &mut work.order,
    );
    list_unknowns(&work.reached, &mut work.loose);
}
