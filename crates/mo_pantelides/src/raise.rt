//! The equations that a search in vain has reached are differentiated.
ghost use Rattle.std.specs.Prelude.{◌≡◌, ◌≢◌, ℕ, ◌+◌, ◌-◌, ◌^◌, ◌<◌, ◌≤◌, length, slice_index, slice_set};
ghost use Rattle.mo_incidence.specs.Signature.{equations};
ghost use Rattle.mo_match.specs.Searching.{tight_of};
ghost use Rattle.mo_match.specs.Trees.{HasTree, MatchesBy};
ghost use Rattle.mo_pantelides.specs.steps.Raising.{AreRaised};

use mo_incidence::Counted;
use mo_match::{Matching, Search};

/// Raises the offset of an unknown by one; 0 is no unknown.
fn raise_unknown(d: &mut [u32], unknown: usize)
    requires known { unknown ≤ length d.old }
    requires room { unknown ≢ 0 → slice_index d.old (unknown - 1) + 1 < 2 ^ 32 }
    ensures some { unknown ≢ 0 → d.new ≡ slice_set d.old (unknown - 1) (slice_index d.old (unknown - 1) + 1) }
    ensures none { unknown ≡ 0 → d.new ≡ d.old }
{
    if unknown == 0 {
        return;
    }
    d[unknown - 1] += 1;
}

/// Raises the offsets of the equations that a search in vain has reached, and of their unknowns, by one, and takes the marks back.
pub(crate) fn raise<L>(
    inc: &Counted<L>,
    c: &mut [u32],
    d: &mut [u32],
    matching: &Matching,
    search: &mut Search,
    tail: usize,
)
    requires sizes { (length c.old ≡ equations inc.now) × (length d.old ≡ inc.now.unknowns) }
    requires matching { MatchesBy (tight_of inc.now c.old d.old) matching.now }
    requires tree { HasTree (tight_of inc.now c.old d.old) matching.now.pairs.items search.old 0 tail }
    requires room_c { (i : ℕ) → i < equations inc.now → slice_index c.old i + 1 < 2 ^ 32 }
    requires room_d { (u : ℕ) → u < inc.now.unknowns → slice_index d.old u + 1 < 2 ^ 32 }
    ensures raised { AreRaised (equations inc.now) inc.now.unknowns matching.now.owner.items search.old.mark.items c.old d.old c.new d.new }
    ensures cleared { (i : ℕ) → slice_index search.new.mark.items i ≡ 0 }
    ensures kept { (search.new.queue ≡ search.old.queue) × (search.new.parent ≡ search.old.parent) }
    ensures size { length search.new.mark.items ≡ length search.old.mark.items }
{
    let _equations = inc.equations();
    for t in 0..tail {
        let equation = search.at(t) as usize;
        let unknown = matching.unknown_of(equation) as usize;
        search.set_mark(equation, 0);
        c[equation] += 1;
        raise_unknown(d, unknown);
    }
}
