//! The least offsets.
ghost use Rattle.std.specs.Prelude.{◌≡◌, ◌≢◌, ℕ, ◌+◌, ◌-◌, ◌*◌, ◌<◌, ◌≤◌, length, slice_index};
ghost use Rattle.std.proofs.Common.{suc};
ghost use Rattle.std.specs.Vec.{vec_capacity};
ghost use Rattle.mo_incidence.specs.Signature.{equations, entries, IsSound};
ghost use Rattle.mo_incidence.specs.Assignment.{IsAssignment, CoversAll, CanCoverAll};
ghost use Rattle.mo_incidence.specs.Offsets.{ArePaired, AreSized, BoundsOrders, HasPairs, HasSizes, IsLeast, by_number, by_place, c_of, d_of, pairs_of, sum_unknowns};
ghost use Rattle.mo_incidence.specs.Transversal.{IsLeastSequence};
ghost use Rattle.mo_match.specs.Searching.{tight_of};
ghost use Rattle.mo_match.specs.Trees.{HasRoomFor, HasTree, IsClosedTo, MatchesBy};
ghost use Rattle.mo_match.specs.Results.{IsMadeFor};
ghost use Rattle.mo_pantelides.specs.Finding.{GainsOffsets, most_reads};
ghost use Rattle.mo_pantelides.specs.steps.Fixing.{AreOpen};
ghost use Rattle.mo_pantelides.specs.steps.Raising.{AreRising, gap};

use crate::raise::raise;
use crate::seek::Priced;
use crate::start::greatest_orders;
use crate::transversal::fix_all;
use mo_incidence::{Counted, Offsets};
use mo_match::{Graph, Matching, Search, Work, clear, put};
use mo_ports::Steps;

/// Gives an equation an unknown at which it is tight, or closes the equations that it reaches; the result is how many these are.
fn extend_tight<L>(
    inc: &Counted<L>,
    c: &[u32],
    d: &[u32],
    matching: &mut Matching,
    search: &mut Search,
    root: usize,
    steps: &mut Steps<L>,
) -> usize
    requires sizes { (length c.now ≡ equations inc.now) × (length d.now ≡ inc.now.unknowns) }
    requires matching { MatchesBy (tight_of inc.now c.now d.now) matching.old }
    requires tree { HasTree (tight_of inc.now c.now d.now) matching.old.pairs.items search.old 0 0 }
    requires root { (root < equations inc.now) × (slice_index matching.old.pairs.items root ≡ 0) }
    ensures matching { MatchesBy (tight_of inc.now c.now d.now) matching.new }
    ensures closed { IsClosedTo (tight_of inc.now c.now d.now) matching.new.owner.items search.new result }
    ensures gained { result ≡ 0 → slice_index matching.new.pairs.items root ≢ 0 }
    ensures failed { result ≢ 0 → (0 < result) × (slice_index search.new.queue.items 0 ≡ root) × (slice_index matching.new.pairs.items root ≡ 0) }
    ensures tree { HasTree (tight_of inc.now c.now d.now) matching.new.pairs.items search.new 0 result }
    ensures kept { (x : ℕ) → slice_index matching.old.pairs.items x ≢ 0 → slice_index matching.new.pairs.items x ≢ 0 }
    ensures cost { steps.new ≤ steps.old + entries inc.now }
{
    let _equations = inc.equations();
    let graph = Graph::of_tight(inc, c, d);
    graph.extend(matching, search, 0, root, steps)
}

/// Raises offsets until the equation at a place can have an unknown at which it is tight, and gives it one.
fn settle<L>(
    inc: &Counted<L>,
    c: &mut [u32],
    d: &mut [u32],
    matching: &mut Matching,
    search: &mut Search,
    root: usize,
    steps: &mut Steps<L>,
)
    requires sound { IsSound inc.now }
    requires can { CanCoverAll inc.now }
    requires sizes { (length c.old ≡ equations inc.now) × (length d.old ≡ inc.now.unknowns) }
    requires rising { AreRising inc.now c.old d.old }
    requires matching { MatchesBy (tight_of inc.now c.old d.old) matching.old }
    requires tree { HasTree (tight_of inc.now c.old d.old) matching.old.pairs.items search.old 0 0 }
    requires root { (root < equations inc.now) × (slice_index matching.old.pairs.items root ≡ 0) }
    ensures rising { AreRising inc.now c.new d.new }
    ensures matching { MatchesBy (tight_of inc.now c.new d.new) matching.new }
    ensures tree { HasTree (tight_of inc.now c.new d.new) matching.new.pairs.items search.new 0 0 }
    ensures gained { slice_index matching.new.pairs.items root ≢ 0 }
    ensures kept { (x : ℕ) → slice_index matching.old.pairs.items x ≢ 0 → slice_index matching.new.pairs.items x ≢ 0 }
    ensures cost { steps.new + gap (equations inc.now) inc.now.unknowns c.new d.new * entries inc.now ≤ steps.old + entries inc.now + gap (equations inc.now) inc.now.unknowns c.old d.old * entries inc.now }
{
    'again: loop {
        let tail = extend_tight(inc, c, d, matching, search, root, steps);
        if tail == 0 {
            return;
        }
        raise(inc, c, d, matching, search, tail);
    }
}

/// Finds the least offsets, with an unknown for each equation at which it is tight.
fn find_offsets<L>(
    inc: &Counted<L>,
    c: &mut [u32],
    d: &mut [u32],
    matching: &mut Matching,
    search: &mut Search,
    steps: &mut Steps<L>,
)
    requires can { CanCoverAll inc.now }
    requires sizes { (length c.old ≡ equations inc.now) × (length d.old ≡ inc.now.unknowns) }
    requires room { (length matching.old.pairs.items ≡ equations inc.now) × (length matching.old.owner.items ≡ suc inc.now.unknowns) }
    requires room_search { HasRoomFor (equations inc.now) search.old }
    ensures least { IsLeast inc.now (by_place c.new) (by_number d.new) }
    ensures open { AreOpen inc.now c.new }
    ensures matching { MatchesBy (tight_of inc.now c.new d.new) matching.new }
    ensures tree { HasTree (tight_of inc.now c.new d.new) matching.new.pairs.items search.new 0 0 }
    ensures all { CoversAll inc.now (by_place matching.new.pairs.items) }
    ensures cost { (h : ℕ → ℕ) → BoundsOrders inc.now h → steps.new ≤ steps.old + (equations inc.now + sum_unknowns inc.now h + 1) * entries inc.now }
{
    let equations = inc.equations() as usize;
    clear(c);
    greatest_orders(inc, d, steps);
    matching.clear();
    search.clear();
    for root in 0..equations {
        if matching.unknown_of(root) != 0 {
            continue;
        }
        settle(inc, c, d, matching, search, root, steps);
    }
}

/// Finds the least offsets, and the least transversal, which also becomes the assignment. `left` is room for the unknowns' offsets.
fn find_all<L>(
    inc: &Counted<L>,
    offsets: &mut Offsets,
    left: &mut [u32],
    matching: &mut Matching,
    search: &mut Search,
    steps: &mut Steps<L>,
)
    requires can { CanCoverAll inc.now }
    requires sizes { HasSizes inc.now offsets.old × (length left.old ≡ inc.now.unknowns) }
    requires room { (length matching.old.pairs.items ≡ equations inc.now) × (length matching.old.owner.items ≡ suc inc.now.unknowns) }
    requires room_search { HasRoomFor (equations inc.now) search.old }
    ensures least { IsLeast inc.now (c_of offsets.new) (d_of offsets.new) }
    ensures tight { HasPairs inc.now offsets.new }
    ensures all { CoversAll inc.now (pairs_of offsets.new) }
    ensures sequence { IsLeastSequence inc.now (c_of offsets.new) (d_of offsets.new) (pairs_of offsets.new) }
    ensures pairs { matching.new.pairs.items ≡ offsets.new.pairs.items }
    ensures sizes { HasSizes inc.now offsets.new }
    ensures room { length matching.new.owner.items ≡ suc inc.now.unknowns }
    ensures room_search { HasRoomFor (equations inc.now) search.new }
    ensures cost { (h : ℕ → ℕ) → BoundsOrders inc.now h → steps.new ≤ steps.old + most_reads inc.now h }
{
    find_offsets(inc, &mut offsets.c, &mut offsets.d, matching, search, steps);
    let priced = Priced {
        c: &offsets.c,
        d: &offsets.d,
    };
    fix_all(
        inc,
        &priced,
        left,
        &mut offsets.pairs,
        matching,
        search,
        steps,
    );
    matching.pairs.copy_from_slice(&offsets.pairs);
}

/// Makes a list of so many zeros, where there is room.
fn fill(list: &mut Vec<u32>, count: u32)
    requires { count ≤ vec_capacity list.old }
    ensures count { length list.new.items ≡ count }
    ensures room { vec_capacity list.old ≤ vec_capacity list.new }
{
    list.clear();
    for _i in 0..count {
        put(list, 0);
    }
}

/// Finds the least offsets (Pryce 2001): the least numbers c of equations and d of unknowns with `d - c` at least the order of each
/// entry, and equal to it at an assignment of all equations. They are left in the work space with their pairs: of all such assignments
/// the one whose sequence of unknown numbers, by equations, is lexicographically least. It also becomes the work's assignment. The work
/// space has to hold an assignment of all equations.
/// With m equations, e entries and D the sum over the unknowns of their greatest orders it reads at most (2m + D + 1)*e entries.
/// It takes no memory.
pub fn offsets<L>(inc: &Counted<L>, work: &mut Work, steps: &mut Steps<L>)
    requires made { IsMadeFor inc.now work.old }
    requires assigned { IsAssignment inc.now (by_place work.old.assignment) }
    requires all { CoversAll inc.now (by_place work.old.assignment) }
    ensures least { IsLeast inc.now (by_place work.new.c) (by_number work.new.d) }
    ensures pairs { ArePaired inc.now (by_place work.new.c) (by_number work.new.d) (by_place work.new.pairs) }
    ensures all { CoversAll inc.now (by_place work.new.pairs) }
    ensures lengths { AreSized inc.now work.new.c work.new.d work.new.pairs }
    ensures assignment { work.new.assignment ≡ work.new.pairs }
    ensures rest { GainsOffsets work.old work.new }
    ensures sequence { IsLeastSequence inc.now (by_place work.new.c) (by_number work.new.d) (by_place work.new.pairs) }
    ensures cost { (h : ℕ → ℕ) → BoundsOrders inc.now h → steps.new ≤ steps.old + most_reads inc.now h }
{
    let (equations, unknowns) = (work.equations, work.unknowns);
    fill(&mut work.offsets.c, equations);
    fill(&mut work.offsets.d, unknowns);
    fill(&mut work.offsets.pairs, equations);
    find_all(
        inc,
        &mut work.offsets,
        &mut work.order,
        &mut work.matching,
        &mut work.search,
        steps,
    );
}
