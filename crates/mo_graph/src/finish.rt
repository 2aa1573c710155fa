//! The order in which a search by depth finishes vertices.
ghost use Rattle.std.specs.Prelude.{◌≡◌, ◌≢◌, ℕ, ◌+◌, ◌-◌, ◌<◌, length, slice_index};
ghost use Rattle.mo_graph.specs.Edges.{IsGraph, AreThreaded, HasThreads};
ghost use Rattle.mo_graph.specs.steps.Finishing.{Walks, IsFinished};

use crate::threads::Outgoing;

/// Finishes the vertices without a mark to which chains lead from the root, and gives how many are finished then. An edge to a vertex
/// without a mark is looked at again once that is finished.
fn finish_from(
    edges: &Outgoing,
    path: &mut [u32],
    mark: &mut [u32],
    cursor: &mut [u32],
    order: &mut [u32],
    root: u32,
    finished: usize,
) -> usize
    requires graph { IsGraph (length mark.old) edges.now.sources.now edges.now.targets.now }
    requires threads { HasThreads edges.now.sources.now edges.now.before.now }
    requires walk { Walks (length mark.old) edges.now.sources.now edges.now.targets.now path.old mark.old cursor.old order.old 0 finished }
    requires root { (root < length mark.old) × (slice_index mark.old root ≡ 0) }
    ensures walk { Walks (length mark.new) edges.now.sources.now edges.now.targets.now path.new mark.new cursor.new order.new 0 result }
    ensures root { slice_index mark.new root ≢ 0 }
    ensures kept { (v : ℕ) → slice_index mark.old v ≢ 0 → slice_index mark.new v ≢ 0 }
{
    path[0] = root;
    mark[root as usize] = 1;
    let mut top = 1;
    let mut count = finished;
    while top > 0 {
        let vertex = path[top - 1];
        let next = cursor[vertex as usize] as usize;
        if next == 0 {
            order[count] = vertex;
            count += 1;
            top -= 1;
            continue;
        }
        let target = edges.targets[next - 1];
        if mark[target as usize] == 0 {
            path[top] = target;
            mark[target as usize] = 1;
            top += 1;
            continue;
        }
        cursor[vertex as usize] = edges.before[next - 1];
    }
    count
}

/// Finishes all vertices. The cursors lead to the last edge of each vertex, and the marks are all 0.
pub(crate) fn finish_order(
    edges: &Outgoing,
    path: &mut [u32],
    mark: &mut [u32],
    cursor: &mut [u32],
    order: &mut [u32],
) -> usize
    requires graph { IsGraph (length mark.old) edges.now.sources.now edges.now.targets.now }
    requires threads { AreThreaded edges.now.sources.now cursor.old edges.now.before.now }
    requires sizes { (length path.old ≡ length mark.old) × (length cursor.old ≡ length mark.old) × (length order.old ≡ length mark.old) }
    requires clear { (v : ℕ) → slice_index mark.old v ≡ 0 }
    ensures { IsFinished (length mark.old) edges.now.sources.now edges.now.targets.now order.new result }
{
    let mut count = 0;
    for root in 0..mark.len() {
        if mark[root] != 0 {
            continue;
        }
        count = finish_from(edges, path, mark, cursor, order, root as u32, count);
    }
    count
}
