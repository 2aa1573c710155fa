//! Classes of vertices that chains lead to from each other (S. R. Kosaraju; M. Sharir, A strong-connectivity algorithm and its
//! applications in data flow analysis, Comput. Math. Appl. 7, 1981).
ghost use Rattle.std.specs.Prelude.{◌≡◌, ℕ, ◌+◌, ◌-◌, ◌<◌, ◌≤◌, length, slice_index};
ghost use Rattle.mo_graph.specs.Edges.{IsGraph, AreThreaded};
ghost use Rattle.mo_graph.specs.steps.Finishing.{IsFinished};
ghost use Rattle.mo_graph.specs.steps.Gathering.{IsGathered, AreClasses};

use crate::threads::Incoming;

/// The order in which a search by depth finishes vertices, and how many it has.
#[derive(Clone, Copy)]
pub(crate) struct Finished<'a> {
    pub order: &'a [u32],
    pub count: usize,
}

/// A class while it is gathered.
#[derive(Clone, Copy)]
struct Turn {
    /// Where it begins in the queue.
    pub base: usize,
    pub number: u32,
    /// The place in the order of the vertex that it is gathered from.
    pub place: usize,
}

/// Gives the number to the vertices without one from which an edge leads to the head of the queue, and puts them at its end.
fn gather_row(
    edges: &Incoming,
    _finished: &Finished,
    class: &mut [u32],
    queue: &mut [u32],
    turn: &Turn,
    head: usize,
    end: usize,
) -> usize
    requires graph { IsGraph (length class.old) edges.now.sources.now edges.now.targets.now }
    requires threads { AreThreaded edges.now.targets.now edges.now.last.now edges.now.before.now }
    requires size { length edges.now.last.now ≡ length class.old }
    requires finished { IsFinished (length class.old) edges.now.sources.now edges.now.targets.now _finished.now.order.now _finished.now.count }
    requires gathered { IsGathered (length class.old) edges.now.sources.now edges.now.targets.now _finished.now.order.now _finished.now.count class.old queue.old turn.now.base head end turn.now.number turn.now.place }
    requires head { head < end }
    ensures gathered { IsGathered (length class.new) edges.now.sources.now edges.now.targets.now _finished.now.order.now _finished.now.count class.new queue.new turn.now.base (head + 1) result turn.now.number turn.now.place }
    ensures more { end ≤ result }
{
    let mut tail = end;
    let mut cursor = edges.last[queue[head] as usize] as usize;
    while cursor > 0 {
        let source = edges.sources[cursor - 1];
        cursor = edges.before[cursor - 1] as usize;
        if class[source as usize] != 0 {
            continue;
        }
        class[source as usize] = turn.number;
        queue[tail] = source;
        tail += 1;
    }
    tail
}

/// Gathers the class of the vertex at a place of the order, and gives the end of the queue.
fn gather_from(
    edges: &Incoming,
    finished: &Finished,
    class: &mut [u32],
    queue: &mut [u32],
    turn: &Turn,
) -> usize
    requires graph { IsGraph (length class.old) edges.now.sources.now edges.now.targets.now }
    requires threads { AreThreaded edges.now.targets.now edges.now.last.now edges.now.before.now }
    requires size { length edges.now.last.now ≡ length class.old }
    requires finished { IsFinished (length class.old) edges.now.sources.now edges.now.targets.now finished.now.order.now finished.now.count }
    requires gathered { IsGathered (length class.old) edges.now.sources.now edges.now.targets.now finished.now.order.now finished.now.count class.old queue.old turn.now.base turn.now.base turn.now.base turn.now.number (turn.now.place + 1) }
    requires place { (turn.now.place < finished.now.count) × (slice_index class.old (slice_index finished.now.order.now turn.now.place) ≡ 0) }
    ensures { IsGathered (length class.new) edges.now.sources.now edges.now.targets.now finished.now.order.now finished.now.count class.new queue.new result result result (turn.now.number + 1) turn.now.place }
{
    let base = turn.base;
    let root = finished.order[turn.place];
    class[root as usize] = turn.number;
    queue[base] = root;
    let mut head = base;
    let mut tail = base + 1;
    while head < tail {
        tail = gather_row(edges, finished, class, queue, turn, head, tail);
        head += 1;
    }
    tail
}

/// Gives each vertex the number of its class, from 1. All numbers are 0 before. Numbers don't fall along edges.
pub(crate) fn gather(edges: &Incoming, finished: &Finished, class: &mut [u32], queue: &mut [u32])
    requires graph { IsGraph (length class.old) edges.now.sources.now edges.now.targets.now }
    requires threads { AreThreaded edges.now.targets.now edges.now.last.now edges.now.before.now }
    requires sizes { (length edges.now.last.now ≡ length class.old) × (length queue.old ≡ length class.old) }
    requires finished { IsFinished (length class.old) edges.now.sources.now edges.now.targets.now finished.now.order.now finished.now.count }
    requires clear { (v : ℕ) → slice_index class.old v ≡ 0 }
    ensures { AreClasses (length class.old) edges.now.sources.now edges.now.targets.now class.new }
{
    let mut tail = 0;
    let mut number = 1;
    let mut left = finished.count;
    while left > 0 {
        left -= 1;
        if class[finished.order[left] as usize] != 0 {
            continue;
        }
        let turn = Turn {
            base: tail,
            number,
            place: left,
        };
        tail = gather_from(edges, finished, class, queue, &turn);
        number += 1;
    }
}
