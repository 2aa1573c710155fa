//! The least transversal: equation after equation gets the least unknown with which all others can still have one.
ghost use Rattle.std.specs.Prelude.{◌≡◌, ◌≢◌, ℕ, ◌+◌, ◌*◌, ◌<◌, ◌≤◌, length, slice_index};
ghost use Rattle.std.proofs.Common.{suc};
ghost use Rattle.mo_incidence.specs.Signature.{equations, entries};
ghost use Rattle.mo_incidence.specs.Assignment.{CoversAll};
ghost use Rattle.mo_incidence.specs.Offsets.{ArePaired, by_number, by_place};
ghost use Rattle.mo_incidence.specs.Transversal.{IsLeastSequence};
ghost use Rattle.mo_match.specs.Searching.{tight_of};
ghost use Rattle.mo_match.specs.Trees.{HasRoomFor, HasTree, MatchesBy};
ghost use Rattle.mo_pantelides.specs.steps.Fixing.{AreOpen, FixesBy, IsRival, IsSameFixing};
ghost use Rattle.mo_pantelides.specs.steps.Seeking.{FindsBy};

use crate::seek::{Fixing, Found, Priced, seek, take};
use mo_incidence::Counted;
use mo_match::{Free, Graph, Matching, Search, clear};
use mo_ports::Steps;

/// Gives the root what the search has found for it, by handing unknowns on: the least one that it can have.
fn hand_to_root<L>(
    inc: &Counted<L>,
    priced: &Priced,
    fixing: &Fixing,
    matching: &mut Matching,
    search: &Search,
    root: usize,
    found: Found,
)
    requires size { length priced.now.c.now ≡ equations inc.now }
    requires open { AreOpen inc.now priced.now.c.now }
    requires root { root < equations inc.now }
    requires found { FindsBy inc.now priced.now fixing.now matching.old search.now root found.place found.unknown found.tail }
    ensures fixed { FixesBy inc.now priced.now fixing.now matching.new root (equations inc.now) }
    ensures gained { slice_index matching.new.pairs.items root ≢ 0 }
    ensures least { (q : ℕ → ℕ) → IsRival inc.now priced.now.c.now priced.now.d.now fixing.now.fixed.now root q → slice_index matching.new.pairs.items root ≤ q root }
{
    let _equations = inc.equations();
    let Found {
        place,
        unknown,
        tail,
    } = found;
    let graph = Graph::of_tight(inc, priced.c, fixing.left);
    graph.hand_on(matching, search, 0, tail, Free { place, unknown });
}

/// Fixes one equation more, and others that have only one unknown left.
fn fix<L>(
    inc: &Counted<L>,
    priced: &Priced,
    fixing: &mut Fixing,
    matching: &mut Matching,
    search: &mut Search,
    root: usize,
    steps: &mut Steps<L>,
)
    requires size { length priced.now.c.now ≡ equations inc.now }
    requires open { AreOpen inc.now priced.now.c.now }
    requires fixed { FixesBy inc.now priced.now fixing.old matching.old root (equations inc.now) }
    requires tree { HasTree (tight_of inc.now priced.now.c.now fixing.old.left.now) matching.old.pairs.items search.old 0 0 }
    requires root { (root < equations inc.now) × (slice_index fixing.old.fixed.now root ≡ 0) }
    ensures fixed { FixesBy inc.now priced.now fixing.new matching.new (root + 1) (equations inc.now) }
    ensures tree { HasTree (tight_of inc.now priced.now.c.now fixing.new.left.now) matching.new.pairs.items search.new 0 0 }
    ensures same { IsSameFixing fixing.old fixing.new }
    ensures cost { steps.new ≤ steps.old + entries inc.now }
{
    let _equations = inc.equations();
    matching.release(root);
    let found = seek(inc, priced, fixing, matching, search, root, steps);
    hand_to_root(inc, priced, fixing, matching, search, root, found);
    search.unmark(0, found.tail);
    take(fixing, matching, root);
}

/// Fixes all equations, each at the least unknown that it can have by tight entries while those before keep theirs. `left` is room for
/// the offsets of unknowns that are not fixed yet.
pub(crate) fn fix_all<L>(
    inc: &Counted<L>,
    priced: &Priced,
    left: &mut [u32],
    fixed: &mut [u32],
    matching: &mut Matching,
    search: &mut Search,
    steps: &mut Steps<L>,
)
    requires sizes { (length priced.now.c.now ≡ equations inc.now) × (length priced.now.d.now ≡ inc.now.unknowns) × (length left.old ≡ inc.now.unknowns) × (length fixed.old ≡ equations inc.now) }
    requires open { AreOpen inc.now priced.now.c.now }
    requires matching { MatchesBy (tight_of inc.now priced.now.c.now priced.now.d.now) matching.old }
    requires all { CoversAll inc.now (by_place matching.old.pairs.items) }
    requires tree { HasTree (tight_of inc.now priced.now.c.now priced.now.d.now) matching.old.pairs.items search.old 0 0 }
    ensures tight { ArePaired inc.now (by_place priced.now.c.now) (by_number priced.now.d.now) (by_place fixed.new) }
    ensures all { CoversAll inc.now (by_place fixed.new) }
    ensures least { IsLeastSequence inc.now (by_place priced.now.c.now) (by_number priced.now.d.now) (by_place fixed.new) }
    ensures room { (length matching.new.pairs.items ≡ equations inc.now) × (length matching.new.owner.items ≡ suc inc.now.unknowns) }
    ensures room_search { HasRoomFor (equations inc.now) search.new }
    ensures cost { steps.new ≤ steps.old + equations inc.now * entries inc.now }
{
    let equations = inc.equations() as usize;
    left.copy_from_slice(priced.d);
    clear(fixed);
    let mut fixing = Fixing { left, fixed };
    for root in 0..equations {
        if fixing.fixed[root] != 0 {
            continue;
        }
        fix(inc, priced, &mut fixing, matching, search, root, steps);
    }
}
