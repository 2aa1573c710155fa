//! The search for an unknown that an equation can still have: breadth first along the bipartite graph, with a queue and no recursion.
ghost use Rattle.std.specs.Prelude.{◌≡◌, ℕ, ◌+◌, ◌-◌, ◌<◌, ◌≤◌, length, slice_index, slice_set, IfNone, IfOk, IfSome};
ghost use Rattle.mo_incidence.specs.Signature.{row_len, IsSound};
ghost use Rattle.mo_match.specs.Searching.{IsFree, IsPassed, IsSearched};
ghost use Rattle.mo_match.specs.Trees.{Gains, HasRoomAt, HasRoomFor, HasTree, IsUnmarkedTo, MatchesBy, ReachesBy};

use crate::graph::Graph;
use crate::largest::clear;
use crate::matching::Matching;
use mo_ports::Steps;
use mo_syntax::NoMemory;
use std::alloc::Global;

/// The lists of a search.
#[derive(Drop)]
pub struct Search {
    /// Places of equations, as the search reaches them.
    pub queue: Vec<u32>,
    /// For each place of the queue the one from which its equation was reached.
    pub parent: Vec<u32>,
    /// For each equation, whether the search has reached it.
    pub mark: Vec<u32>,
}

/// An entry that a search looks at: the one at place k of the equation at the head of the queue.
#[derive(Clone, Copy)]
struct Spot {
    base: usize,
    head: usize,
    tail: usize,
    k: u32,
}

impl Search {
    /// Lists for so many equations. `NoMemory` is the only other answer.
    pub fn new(alloc: Global, equations: u32) -> Result<Search, NoMemory>
        ensures { IfOk result (HasRoomFor equations) }
    {
        let queue = vec![in alloc; 0; equations as usize]?;
        let parent = vec![in alloc; 0; equations as usize]?;
        let mark = vec![in alloc; 0; equations as usize]?;
        Ok(Search {
            queue,
            parent,
            mark,
        })
    }

    /// The equation at a place of the queue.
    pub fn at(&self, place: usize) -> u32
        requires { place < length self.now.queue.items }
        ensures { result ≡ slice_index self.now.queue.items place }
    {
        self.queue[place]
    }

    /// The place of the queue from which the equation at a place was reached.
    pub fn parent_of(&self, place: usize) -> u32
        requires { place < length self.now.parent.items }
        ensures { result ≡ slice_index self.now.parent.items place }
    {
        self.parent[place]
    }

    /// The mark of an equation.
    pub fn mark_of(&self, equation: usize) -> u32
        requires { equation < length self.now.mark.items }
        ensures { result ≡ slice_index self.now.mark.items equation }
    {
        self.mark[equation]
    }

    /// Marks an equation.
    pub fn set_mark(&mut self, equation: usize, mark: u32)
        requires { equation < length self.old.mark.items }
        ensures mark { self.new.mark.items ≡ slice_set self.old.mark.items equation mark }
        ensures kept { (self.new.queue ≡ self.old.queue) × (self.new.parent ≡ self.old.parent) }
    {
        self.mark[equation] = mark;
    }

    /// Puts the equation that a search begins from at a place of the queue.
    pub fn begin(&mut self, base: usize, root: usize)
        requires base { (base < length self.old.queue.items) × (base < length self.old.parent.items) × (base < 50000) }
        requires root { (root < length self.old.mark.items) × (root < 50000) }
        ensures queue { self.new.queue.items ≡ slice_set self.old.queue.items base root }
        ensures parent { self.new.parent.items ≡ slice_set self.old.parent.items base base }
        ensures mark { self.new.mark.items ≡ slice_set self.old.mark.items root 1 }
    {
        self.queue[base] = root as u32;
        self.parent[base] = base as u32;
        self.mark[root] = 1;
    }

    /// Puts the equation at place x at the end of the queue, if it has no mark, and gives the queue's new end.
    pub fn reach(&mut self, x: usize, head: usize, tail: usize) -> usize
        requires x { x < length self.old.mark.items }
        requires room { slice_index self.old.mark.items x ≡ 0 → HasRoomAt self.old tail }
        requires small { (length self.old.mark.items ≤ 50000) × (length self.old.queue.items ≤ 50000) }
        requires head { head < tail }
        ensures { ReachesBy self.old tail x head self.new result }
    {
        if self.mark[x] != 0 {
            return tail;
        }
        self.queue[tail] = x as u32;
        self.parent[tail] = head as u32;
        self.mark[x] = 1;
        tail + 1
    }

    /// Takes the marks of the equations from place `base` of the queue back.
    pub fn unmark(&mut self, base: usize, tail: usize)
        requires order { base ≤ tail }
        requires room { tail ≤ length self.old.queue.items }
        requires in_range { (t : ℕ) → t < tail → slice_index self.old.queue.items t < length self.old.mark.items }
        ensures unmarked { IsUnmarkedTo self.old.queue.items self.old.mark.items self.new.mark.items base tail }
        ensures kept { (self.new.queue ≡ self.old.queue) × (self.new.parent ≡ self.old.parent) }
        ensures size { length self.new.mark.items ≡ length self.old.mark.items }
    {
        for t in base..tail {
            let equation = self.at(t) as usize;
            self.mark[equation] = 0;
        }
    }

    /// Takes all marks back.
    pub fn clear(&mut self)
        ensures mark { (i : ℕ) → slice_index self.new.mark.items i ≡ 0 }
        ensures size { length self.new.mark.items ≡ length self.old.mark.items }
        ensures kept { (self.new.queue ≡ self.old.queue) × (self.new.parent ≡ self.old.parent) }
    {
        clear(&mut self.mark);
    }
}

impl<'a, L> Graph<'a, L> {
    /// Looks at one entry of the equation at the head of the queue: gives the queue's new end, and the entry's unknown if no
    /// equation has it.
    fn visit(
        &self,
        matching: &Matching,
        search: &mut Search,
        spot: Spot,
        steps: &mut Steps<L>,
    ) -> (usize, Option<u32>)
        requires sound { IsSound self.now.signature }
        requires matching { MatchesBy self.now matching.now }
        requires tree { HasTree self.now matching.now.pairs.items search.old spot.base spot.tail }
        requires head { (spot.base ≤ spot.head) × (spot.head < spot.tail) }
        requires k { spot.k < row_len self.now.signature (slice_index search.old.queue.items spot.head) }
        ensures tree { HasTree self.now matching.now.pairs.items search.new spot.base result.0 }
        ensures grows { Gains search.old search.new spot.tail result.0 }
        ensures free { IfSome result.1 (IsFree self.now matching.now.owner.items (slice_index search.old.queue.items spot.head)) }
        ensures passed { IfNone result.1 (IsPassed self.now matching.now.owner.items search.new.mark.items (slice_index search.old.queue.items spot.head) spot.k) }
        ensures cost { steps.new ≡ steps.old + 1 }
    {
        let Spot { head, tail, .. } = spot;
        let equation = search.at(head);
        let Some(unknown) = self.usable(equation + 1, spot.k, steps) else {
            return (tail, None);
        };
        let holder = matching.holder_of(unknown) as usize;
        if holder == 0 {
            return (tail, Some(unknown));
        }
        let grown = search.reach(holder - 1, head, tail);
        (grown, None)
    }

    /// Looks at the entries of the equation at the head of the queue, up to one whose unknown no equation has.
    pub(crate) fn scan_row(
        &self,
        matching: &Matching,
        search: &mut Search,
        base: usize,
        head: usize,
        end: usize,
        steps: &mut Steps<L>,
    ) -> (usize, Option<u32>)
        requires sound { IsSound self.now.signature }
        requires matching { MatchesBy self.now matching.now }
        requires tree { HasTree self.now matching.now.pairs.items search.old base end }
        requires head { (base ≤ head) × (head < end) }
        ensures tree { HasTree self.now matching.now.pairs.items search.new base result.0 }
        ensures grows { Gains search.old search.new end result.0 }
        ensures free { IfSome result.1 (IsFree self.now matching.now.owner.items (slice_index search.old.queue.items head)) }
        ensures searched { IfNone result.1 (IsSearched self.now matching.now.owner.items search.new.mark.items (slice_index search.old.queue.items head) (row_len self.now.signature (slice_index search.old.queue.items head))) }
        ensures cost { steps.new ≤ steps.old + row_len self.now.signature (slice_index search.old.queue.items head) }
    {
        let equation = search.at(head);
        let mut tail = end;
        for k in 0..self.row_len(equation + 1) {
            let spot = Spot {
                base,
                head,
                tail,
                k,
            };
            let (grown, free) = self.visit(matching, search, spot, steps);
            tail = grown;
            match free {
                Some(unknown) => return (tail, Some(unknown)),
                None => {}
            }
        }
        (tail, None)
    }
}
