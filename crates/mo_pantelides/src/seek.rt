//! The search for the least unknown that an equation can have: depth first, with a queue and no recursion. On its way it fixes equations
//! that have only one unknown left.
ghost use Rattle.std.specs.Prelude.{◌≡◌, ◌≢◌, ℕ, ◌+◌, ◌-◌, ◌<◌, ◌≤◌, ◌⊎◌, length, slice_index, slice_set, IfSome, IfNone};
ghost use Rattle.std.proofs.Common.{suc};
ghost use Rattle.mo_incidence.specs.Signature.{equations, row_len, entries};
ghost use Rattle.mo_match.specs.Searching.{IsFree, tight_of};
ghost use Rattle.mo_match.specs.Trees.{HasTree, ReachesBy};
ghost use Rattle.mo_pantelides.specs.steps.Fixing.{AreOpen, FixesBy, IsSameFixing};
ghost use Rattle.mo_pantelides.specs.steps.Seeking.{FindsBy, IsTurn, SeeksBy, looked};

use mo_incidence::Counted;
use mo_match::{Graph, Matching, Search};
use mo_ports::Steps;

/// What stands in place of the offset of an unknown that is fixed: no entry is tight there.
const TAKEN: u32 = u32::MAX;

/// Where a search stands. The equations in the queue before `head`, but for the first, have been looked at whole. Those from `loose` on
/// stand in a row, each reached from the one before it, and lead to no other equation.
#[derive(Clone, Copy)]
struct Front {
    head: usize,
    loose: usize,
    tail: usize,
}

/// Offsets of equations and unknowns.
#[derive(Clone, Copy)]
pub(crate) struct Priced<'a> {
    pub(crate) c: &'a [u32],
    pub(crate) d: &'a [u32],
}

/// The equations that are fixed.
#[derive(Drop)]
pub(crate) struct Fixing<'a> {
    /// The offsets of the unknowns that are not fixed yet.
    pub(crate) left: &'a mut [u32],
    /// For each equation its unknown, if that is fixed, or 0.
    pub(crate) fixed: &'a mut [u32],
}

/// Where a search looks: at entry k of the equation at a place of the queue, or past its last one.
#[derive(Clone, Copy)]
struct Spot {
    /// The equation that the search began from.
    root: usize,
    at: Front,
    place: usize,
    k: u32,
}

/// Where a search ended: the equation at a place of the queue may have a free unknown.
#[derive(Clone, Copy)]
pub(crate) struct Found {
    pub(crate) place: usize,
    pub(crate) unknown: u32,
    pub(crate) tail: usize,
}

/// Gives an equation its unknown for good.
pub(crate) fn take(fixing: &mut Fixing, matching: &mut Matching, equation: usize)
    requires equation { (equation < length matching.old.pairs.items) × (equation < length fixing.old.fixed.now) }
    requires known { (slice_index matching.old.pairs.items equation < length matching.old.owner.items) × (slice_index matching.old.pairs.items equation ≢ 0) × (slice_index matching.old.pairs.items equation ≤ length fixing.old.left.now) }
    ensures pairs { matching.new.pairs.items ≡ slice_set matching.old.pairs.items equation 0 }
    ensures owner { matching.new.owner.items ≡ slice_set matching.old.owner.items (slice_index matching.old.pairs.items equation) 0 }
    ensures left { fixing.new.left.now ≡ slice_set fixing.old.left.now (slice_index matching.old.pairs.items equation - 1) 4294967295 }
    ensures fixed { fixing.new.fixed.now ≡ slice_set fixing.old.fixed.now equation (slice_index matching.old.pairs.items equation) }
    ensures same { IsSameFixing fixing.old fixing.new }
{
    let unknown = matching.release(equation);
    fixing.left[unknown as usize - 1] = TAKEN;
    fixing.fixed[equation] = unknown;
}

/// The place of the queue whose equation is looked at next.
fn turn(at: Front) -> usize
    ensures { IsTurn at.head at.loose at.tail result }
{
    if at.loose < at.tail {
        at.tail - 1
    } else if at.head < at.tail {
        at.head
    } else {
        0
    }
}

/// Puts the equation at place x at the end of the queue and of the row, if it has no mark. Else none in the row can stay there.
fn meet(search: &mut Search, x: u32, place: usize, at: Front) -> Front
    requires x { x < length search.old.mark.items }
    requires room { slice_index search.old.mark.items x ≡ 0 → (at.tail < length search.old.queue.items) × (at.tail < length search.old.parent.items) }
    requires small { (length search.old.mark.items ≤ 50000) × (length search.old.queue.items ≤ 50000) }
    requires place { place < at.tail }
    ensures reaches { ReachesBy search.old at.tail x place search.new result.tail }
    ensures head { result.head ≡ at.head }
    ensures loose { slice_index search.old.mark.items x ≢ 0 → result.loose ≡ at.tail }
    ensures row { slice_index search.old.mark.items x ≡ 0 → result.loose ≡ at.loose }
{
    let Front { head, loose, tail } = at;
    let end = search.reach(x as usize, place, tail);
    if end == tail {
        return Front {
            head,
            loose: tail,
            tail,
        };
    }
    Front {
        head,
        loose,
        tail: end,
    }
}

/// Looks at one entry of the equation at a place of the queue: gives where the search stands then, and the entry's unknown if no
/// equation has it.
fn look<L>(
    inc: &Counted<L>,
    priced: &Priced,
    fixing: &Fixing,
    matching: &Matching,
    search: &mut Search,
    spot: Spot,
    steps: &mut Steps<L>,
) -> (Front, Option<u32>)
    requires sizes { (length priced.now.c.now ≡ equations inc.now) × (length fixing.now.left.now ≡ inc.now.unknowns) }
    requires root { spot.root < equations inc.now }
    requires open { AreOpen inc.now priced.now.c.now }
    requires seeking { SeeksBy inc.now priced.now fixing.now matching.now search.old spot.root spot.at.head spot.at.loose spot.at.tail }
    requires place { IsTurn spot.at.head spot.at.loose spot.at.tail spot.place }
    requires k { slice_index search.old.mark.items (slice_index search.old.queue.items spot.place) ≡ spot.k + 1 }
    requires entry { spot.k < row_len inc.now (slice_index search.old.queue.items spot.place) }
    ensures on { IfNone result.1 (SeeksBy inc.now priced.now fixing.now matching.now search.new spot.root result.0.head result.0.loose result.0.tail) }
    ensures found { IfSome result.1 (λ j. FindsBy inc.now priced.now fixing.now matching.now search.new spot.root spot.place j result.0.tail) }
    ensures more { (result.0.tail ≤ spot.at.tail + 1) × (result.0.head ≡ spot.at.head) }
    ensures looked { looked inc.now fixing.now.fixed.now search.new.mark.items ≡ looked inc.now fixing.now.fixed.now search.old.mark.items + 1 }
    ensures cost { steps.new ≡ steps.old + 1 }
{
    let _equations = inc.equations();
    let Spot { at, place, k, .. } = spot;
    let equation = search.at(place);
    search.set_mark(equation as usize, k + 2);
    let graph = Graph::of_tight(inc, priced.c, fixing.left);
    let unknown = match graph.usable(equation + 1, k, steps) {
        None => return (at, None),
        Some(unknown) => unknown,
    };
    let holder = matching.holder_of(unknown);
    if holder == 0 {
        return (at, Some(unknown));
    }
    if holder == equation + 1 {
        return (at, None);
    }
    let next = meet(search, holder - 1, place, at);
    (next, None)
}

/// Is done with the equation at a place of the queue. The last one in a row has only one unknown left, and is fixed.
fn finish<L>(
    inc: &Counted<L>,
    _priced: &Priced,
    fixing: &mut Fixing,
    matching: &mut Matching,
    search: &mut Search,
    spot: Spot,
) -> Front
    requires root { spot.root < equations inc.now }
    requires open { AreOpen inc.now _priced.now.c.now }
    requires seeking { SeeksBy inc.now _priced.now fixing.old matching.old search.old spot.root spot.at.head spot.at.loose spot.at.tail }
    requires place { IsTurn spot.at.head spot.at.loose spot.at.tail spot.place }
    requires whole { slice_index search.old.mark.items (slice_index search.old.queue.items spot.place) ≡ suc (row_len inc.now (slice_index search.old.queue.items spot.place)) }
    ensures on { SeeksBy inc.now _priced.now fixing.new matching.new search.new spot.root result.head result.loose result.tail }
    ensures less { ((suc result.tail ≡ spot.at.tail) × (result.head ≡ spot.at.head)) ⊎ ((result.tail ≡ spot.at.tail) × (result.head ≡ suc spot.at.head)) }
    ensures looked { looked inc.now fixing.new.fixed.now search.new.mark.items ≡ looked inc.now fixing.old.fixed.now search.old.mark.items }
    ensures same { IsSameFixing fixing.old fixing.new }
{
    let _equations = inc.equations();
    let Front { head, loose, tail } = spot.at;
    if loose < tail {
        let equation = search.at(spot.place) as usize;
        take(fixing, matching, equation);
        search.set_mark(equation, 0);
        return Front {
            head,
            loose,
            tail: tail - 1,
        };
    }
    Front {
        head: head + 1,
        loose,
        tail,
    }
}

/// Searches from an equation without unknown, entry by entry, for the least one that it can have: what an entry leads to is searched to
/// its end before the next entry is looked at.
pub(crate) fn seek<L>(
    inc: &Counted<L>,
    priced: &Priced,
    fixing: &mut Fixing,
    matching: &mut Matching,
    search: &mut Search,
    root: usize,
    steps: &mut Steps<L>,
) -> Found
    requires sizes { length priced.now.c.now ≡ equations inc.now }
    requires root { (root < equations inc.now) × (slice_index matching.old.pairs.items root ≡ 0) × (slice_index fixing.old.fixed.now root ≡ 0) }
    requires open { AreOpen inc.now priced.now.c.now }
    requires fixed { FixesBy inc.now priced.now fixing.old matching.old root root }
    requires tree { HasTree (tight_of inc.now priced.now.c.now fixing.old.left.now) matching.old.pairs.items search.old 0 0 }
    requires spare { (j : ℕ) × IsFree (tight_of inc.now priced.now.c.now fixing.old.left.now) matching.old.owner.items root j }
    ensures found { FindsBy inc.now priced.now fixing.new matching.new search.new root result.place result.unknown result.tail }
    ensures same { IsSameFixing fixing.old fixing.new }
    ensures cost { steps.new ≤ steps.old + entries inc.now }
{
    let _equations = inc.equations();
    search.begin(0, root);
    let mut at = Front {
        head: 1,
        loose: 1,
        tail: 1,
    };
    'on: loop {
        let place = turn(at);
        let equation = search.at(place);
        let k = search.mark_of(equation as usize) - 1;
        let spot = Spot { root, at, place, k };
        if k == inc.row_len(equation + 1) {
            at = finish(inc, priced, fixing, matching, search, spot);
            continue;
        }
        let (next, free) = look(inc, priced, fixing, matching, search, spot, steps);
        match free {
            Some(unknown) => return Found {
                place,
                unknown,
                tail: next.tail,
            },
            None => at = next,
        }
    }
}
