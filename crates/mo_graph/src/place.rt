//! Vertices placed one after another, each after those that it leads to, the least first (A. B. Kahn, Topological sorting of large
//! networks, Comm. ACM 5, 1962). Of the vertices, those count that are their own leaders.
ghost use Rattle.std.specs.Prelude.{◌≡◌, ℕ, ◌+◌, ◌-◌, ◌<◌, ◌≤◌, length, slice_index, IfOk, OnOk};
ghost use Rattle.mo_graph.specs.Edges.{IsGraph, AreThreaded};
ghost use Rattle.mo_graph.specs.steps.Placing.{waiting, leads_away, Has, HasReady, IsLed, HasRanks, Places, AreOrdered};

use crate::threads::Incoming;
use mo_syntax::NoMemory;
use std::alloc::Global;
use std::collections::BTreeSet;

/// Vertices while they are placed, each of them its own leader.
#[derive(Clone, Copy)]
struct Placing<'a> {
    pub leader: &'a [u32],
    pub order: &'a [u32],
    /// For each vertex one more than its place in the order, or 0.
    pub placed: &'a [u32],
    /// How many have been placed.
    pub count: usize,
}

/// Counts for each vertex the edges to other vertices. All counts are 0 before.
fn count_waits(sources: &[u32], targets: &[u32], waits: &mut [u32])
    requires graph { IsGraph (length waits.old) sources.now targets.now }
    requires clear { (b : ℕ) → slice_index waits.old b ≡ 0 }
    ensures { (b : ℕ) → b < length waits.new → slice_index waits.new b ≡ waiting sources.now (leads_away sources.now targets.now) (length sources.now) b }
{
    for x in 0..sources.len() {
        let source = sources[x];
        if source == targets[x] {
            continue;
        }
        waits[source as usize] += 1;
    }
}

/// The vertices that lead to no other vertex.
fn start_ready(alloc: Global, leader: &[u32], waits: &[u32]) -> Result<BTreeSet<u32>, NoMemory>
    requires sizes { (length waits.now ≡ length leader.now) × (length leader.now ≤ 50000) }
    ensures { IfOk result (HasReady leader.now waits.now (length leader.now)) }
{
    let mut ready = BTreeSet::new(alloc);
    for v in 0..leader.len() {
        if leader[v] as usize != v {
            continue;
        }
        if waits[v] != 0 {
            continue;
        }
        ready.insert(v as u32)?;
    }
    Ok(ready)
}

/// Takes the edges to the vertex that was placed last from what their sources wait for, and makes those ready that wait for no more.
fn wake(
    edges: &Incoming,
    _placing: &Placing,
    waits: &mut [u32],
    ready: &mut BTreeSet<u32>,
    awake: u32,
) -> Result<(), NoMemory>
    requires graph { IsGraph (length waits.old) edges.now.sources.now edges.now.targets.now }
    requires threads { AreThreaded edges.now.targets.now edges.now.last.now edges.now.before.now }
    requires size { length edges.now.last.now ≡ length waits.old }
    requires led { IsLed edges.now.sources.now edges.now.targets.now _placing.now.leader.now }
    requires places { Places (length waits.old) edges.now.sources.now edges.now.targets.now _placing.now.leader.now _placing.now.order.now _placing.now.placed.now waits.old _placing.now.count (Has ready.old) awake (slice_index edges.now.last.now awake) }
    requires awake { (awake < length waits.old) × (slice_index _placing.now.placed.now awake ≡ _placing.now.count) × (0 < _placing.now.count) }
    ensures { OnOk result (Places (length waits.new) edges.now.sources.now edges.now.targets.now _placing.now.leader.now _placing.now.order.now _placing.now.placed.now waits.new _placing.now.count (Has ready.new) awake 0) }
{
    let mut cursor = edges.last[awake as usize] as usize;
    while cursor > 0 {
        let source = edges.sources[cursor - 1];
        cursor = edges.before[cursor - 1] as usize;
        if source == awake {
            continue;
        }
        waits[source as usize] -= 1;
        if waits[source as usize] != 0 {
            continue;
        }
        ready.insert(source)?;
    }
    Ok(())
}

/// Places all vertices, and gives how many there are. Nothing has been placed before, and the counts are 0.
pub(crate) fn place_all(
    alloc: Global,
    edges: &Incoming,
    leader: &[u32],
    order: &mut [u32],
    placed: &mut [u32],
    waits: &mut [u32],
) -> Result<usize, NoMemory>
    requires graph { IsGraph (length placed.old) edges.now.sources.now edges.now.targets.now }
    requires threads { AreThreaded edges.now.targets.now edges.now.last.now edges.now.before.now }
    requires sizes { (length edges.now.last.now ≡ length placed.old) × (length leader.now ≡ length placed.old) × (length order.old ≡ length placed.old) × (length waits.old ≡ length placed.old) }
    requires led { IsLed edges.now.sources.now edges.now.targets.now leader.now }
    requires ranks { HasRanks (length placed.old) edges.now.sources.now edges.now.targets.now }
    requires clear_placed { (v : ℕ) → slice_index placed.old v ≡ 0 }
    requires clear_waits { (v : ℕ) → slice_index waits.old v ≡ 0 }
    ensures { IfOk result (λ count. AreOrdered (length placed.old) edges.now.sources.now edges.now.targets.now leader.now order.new placed.new count) }
{
    count_waits(edges.sources, edges.targets, waits);
    let mut ready = start_ready(alloc, leader, waits)?;
    let mut count = 0;
    while let Some(vertex) = ready.pop_first() {
        order[count] = vertex;
        count += 1;
        placed[vertex as usize] = count as u32;
        let placing = Placing {
            leader,
            order,
            placed,
            count,
        };
        wake(edges, &placing, waits, &mut ready, vertex)?;
    }
    Ok(count)
}
