//! One equation more gets an unknown, or is shown to be left out.
ghost use Rattle.std.specs.Prelude.{◌≡◌, ◌≢◌, ◌+◌, ◌-◌, ◌<◌, ◌≤◌, slice_index, IfSome, IfNone};
ghost use Rattle.mo_incidence.specs.Signature.{equations, entries, IsSound};
ghost use Rattle.mo_match.specs.Searching.{CanBegin, KeepMarks};
ghost use Rattle.mo_match.specs.Trees.{AreKeptBefore, Gains, HasTree, IsBareBut, IsBareElsewhere, IsClosedTo, IsFreeIn, IsHandedOn, MatchesBy, StayAssigned};

use crate::graph::Graph;
use crate::matching::Matching;
use crate::search::Search;
use mo_ports::Steps;

/// An equation at a place of the queue may have an unknown that no equation has.
#[derive(Clone, Copy)]
pub struct Free {
    /// The place of the queue.
    pub place: usize,
    /// The unknown's number.
    pub unknown: u32,
}

/// Where a search ended.
#[derive(Drop)]
pub(crate) struct Outcome {
    pub(crate) tail: usize,
    pub(crate) free: Option<Free>,
}

impl<'a, L> Graph<'a, L> {
    /// Searches from an equation without unknown, behind the closed front of the queue, for an unknown that no equation has.
    fn search(
        &self,
        matching: &Matching,
        search: &mut Search,
        base: usize,
        root: usize,
        steps: &mut Steps<L>,
    ) -> Outcome
        requires sound { IsSound self.now.signature }
        requires matching { MatchesBy self.now matching.now }
        requires tree { HasTree self.now matching.now.pairs.items search.old base base }
        requires closed { IsClosedTo self.now matching.now.owner.items search.old base }
        requires root { CanBegin self.now matching.now.pairs.items search.old.mark.items root }
        ensures tree { HasTree self.now matching.now.pairs.items search.new base result.tail }
        ensures grows { Gains search.old search.new base result.tail }
        ensures first { (base < result.tail) × (slice_index search.new.queue.items base ≡ root) }
        ensures found { IfSome result.free (λ f. (base ≤ f.place) × (f.place < result.tail) × IsFreeIn self.now matching.now search.new f) }
        ensures failed { IfNone result.free (IsClosedTo self.now matching.now.owner.items search.new result.tail) }
        ensures cost { steps.new ≤ steps.old + entries self.now.signature }
    {
        search.begin(base, root);
        let mut tail = base + 1;
        let mut head = base;
        while head < tail {
            let (grown, free) = self.scan_row(matching, search, base, head, tail, steps);
            tail = grown;
            match free {
                Some(unknown) => {
                    let place = head;
                    return Outcome {
                        tail,
                        free: Some(Free { place, unknown }),
                    };
                }
                None => head += 1,
            }
        }
        Outcome { tail, free: None }
    }

    /// Gives the equation at a place of the queue a free unknown, its old one to the equation from which it was reached, and so on
    /// back to the root, which stands at place `base`.
    pub fn hand_on(
        &self,
        matching: &mut Matching,
        search: &Search,
        base: usize,
        tail: usize,
        free: Free,
    )
        requires matching { MatchesBy self.now matching.old }
        requires tree { HasTree self.now matching.old.pairs.items search.now base tail }
        requires start { (base ≤ free.place) × (free.place < tail) }
        requires bare { slice_index matching.old.pairs.items (slice_index search.now.queue.items base) ≡ 0 }
        requires free { IsFreeIn self.now matching.old search.now free }
        requires few { equations self.now.signature ≤ 50000 }
        ensures matching { MatchesBy self.now matching.new }
        ensures kept { StayAssigned matching.old.pairs.items matching.new.pairs.items }
        ensures root { slice_index matching.new.pairs.items (slice_index search.now.queue.items base) ≢ 0 }
        ensures handed { IsHandedOn matching.old.pairs.items matching.new.pairs.items search.now base tail free }
        ensures bare { IsBareBut matching.old.pairs.items matching.new.pairs.items search.now base }
        ensures dead { AreKeptBefore matching.old.pairs.items matching.new.pairs.items search.now base }
    {
        let mut place = free.place;
        let mut unknown = free.unknown;
        'back: loop {
            let equation = search.at(place);
            let old = matching.unknown_of(equation as usize);
            matching.give(equation, unknown);
            if old == 0 {
                return;
            }
            unknown = old;
            place = search.parent_of(place) as usize;
        }
    }

    /// Gives an equation without unknown one, by handing unknowns on, or closes the equations that it reaches: then these together
    /// mention only unknowns of their own. The result is the end of the closed front of the queue.
    pub fn extend(
        &self,
        matching: &mut Matching,
        search: &mut Search,
        base: usize,
        root: usize,
        steps: &mut Steps<L>,
    ) -> usize
        requires sound { IsSound self.now.signature }
        requires matching { MatchesBy self.now matching.old }
        requires tree { HasTree self.now matching.old.pairs.items search.old base base }
        requires closed { IsClosedTo self.now matching.old.owner.items search.old base }
        requires root { CanBegin self.now matching.old.pairs.items search.old.mark.items root }
        ensures matching { MatchesBy self.now matching.new }
        ensures tree { HasTree self.now matching.new.pairs.items search.new base result }
        ensures closed { IsClosedTo self.now matching.new.owner.items search.new result }
        ensures gained { result ≡ base → slice_index matching.new.pairs.items root ≢ 0 }
        ensures first { result ≢ base → (base < result) × (slice_index search.new.queue.items base ≡ root) }
        ensures failed { result ≢ base → matching.new ≡ matching.old }
        ensures kept { StayAssigned matching.old.pairs.items matching.new.pairs.items }
        ensures bare { IsBareElsewhere matching.old.pairs.items matching.new.pairs.items root }
        ensures marked { KeepMarks self.now search.old.mark.items search.new.mark.items }
        ensures cost { steps.new ≤ steps.old + entries self.now.signature }
    {
        let outcome = self.search(matching, search, base, root, steps);
        match outcome.free {
            None => outcome.tail,
            Some(free) => {
                self.hand_on(matching, search, base, outcome.tail, free);
                search.unmark(base, outcome.tail);
                base
            }
        }
    }
}
