//! A largest assignment.
ghost use Rattle.std.specs.Prelude.{◌≡◌, ℕ, ◌+◌, ◌-◌, ◌*◌, ◌<◌, ◌≤◌, length, slice_index};
ghost use Rattle.std.proofs.Common.{suc};
ghost use Rattle.mo_incidence.specs.Signature.{equations, entries, IsSound};
ghost use Rattle.mo_incidence.specs.Assignment.{CoversAll, IsLargest, IsDeficit};
ghost use Rattle.mo_incidence.specs.Offsets.{by_place};
ghost use Rattle.mo_match.specs.Searching.{IsAssignedTo};
ghost use Rattle.mo_match.specs.Trees.{HasRoomFor};
ghost use Rattle.mo_match.specs.Results.{IsMadeFor, IsReassigned};
ghost use Rattle.mo_match.specs.Answer.{covered, left_out};

use crate::graph::Graph;
use crate::lists::{count_missing, list_marked, list_reached};
use crate::matching::Matching;
use crate::search::Search;
use crate::work::{Assigned, Work};
use mo_incidence::Counted;
use mo_ports::Steps;

/// Writes 0 to each place.
pub fn clear(list: &mut [u32])
    ensures { (i : ℕ) → slice_index list.new i ≡ 0 }
{
    for number in list.iter_mut() {
        *number = 0;
    }
}

impl<'a, L> Graph<'a, L> {
    /// Gives each equation in turn an unknown, if it can have one. The result is the end of the closed front of the queue.
    fn assign_pairs(
        &self,
        matching: &mut Matching,
        search: &mut Search,
        steps: &mut Steps<L>,
    ) -> usize
        requires sound { IsSound self.now.signature }
        requires room { (length matching.old.pairs.items ≡ equations self.now.signature) × (length matching.old.owner.items ≡ suc self.now.signature.unknowns) }
        requires room_search { HasRoomFor (equations self.now.signature) search.old }
        ensures done { IsAssignedTo self.now matching.new.pairs.items matching.new.owner.items search.new.queue.items search.new.parent.items search.new.mark.items result (equations self.now.signature) }
        ensures cost { steps.new ≤ steps.old + equations self.now.signature * entries self.now.signature }
    {
        matching.clear();
        search.clear();
        let mut base = 0;
        for root in 0..matching.pairs.len() {
            if matching.unknown_of(root) != 0 {
                continue;
            }
            if search.mark_of(root) != 0 {
                continue;
            }
            base = self.extend(matching, search, base, root, steps);
        }
        base
    }
}

/// Finds a largest assignment, one that no assignment covers more equations than, and the deficit: the equations that some largest
/// assignment leaves out, with the unknowns that they mention (Pantelides 1988). Both are left in the work space.
/// `Missing(k)` exactly where the assignment leaves k > 0 equations out; the deficit then has k more equations than unknowns.
/// With m equations and e entries it reads at most m times e entries. It takes no memory.
pub fn assign<L>(inc: &Counted<L>, work: &mut Work, steps: &mut Steps<L>) -> Assigned
    requires { IsMadeFor inc.now work.old }
    ensures largest { IsLargest inc.now (by_place work.new.assignment) }
    ensures length { length work.new.assignment ≡ equations inc.now }
    ensures missing { covered inc.now work.new.assignment + left_out result ≡ equations inc.now }
    ensures all { result ≡ Assigned.All → CoversAll inc.now (by_place work.new.assignment) }
    ensures some { (k : ℕ) → result ≡ Assigned.Missing k → 0 < k }
    ensures deficit { IsDeficit inc.now work.new.deficient work.new.mentioned (left_out result) }
    ensures rest { IsReassigned work.old work.new }
    ensures cost { steps.new ≤ steps.old + equations inc.now * entries inc.now }
{
    let _equations = inc.equations();
    let graph = Graph::of_entries(inc);
    graph.assign_pairs(&mut work.matching, &mut work.search, steps);
    list_marked(&work.search.mark, &mut work.deficit.equations);
    list_reached(
        &work.matching.owner,
        &work.search.mark,
        &mut work.deficit.unknowns,
    );
    match count_missing(&work.matching.pairs) {
        0 => Assigned::All,
        missing => Assigned::Missing(missing),
    }
}
