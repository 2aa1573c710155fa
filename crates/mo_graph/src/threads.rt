//! The edges of a graph, threaded by one of their ends: each vertex leads to its last edge, and each edge to the one before it.
ghost use Rattle.std.specs.Prelude.{◌≡◌, ℕ, ◌+◌, ◌<◌, ◌≤◌, length, slice_index};
ghost use Rattle.mo_graph.specs.Edges.{AreThreaded};

/// The edges of a graph, with threads through those that lead to the same vertex.
#[derive(Clone, Copy)]
pub(crate) struct Incoming<'a> {
    pub sources: &'a [u32],
    pub targets: &'a [u32],
    /// For each vertex one more than the place of the last edge to it, or 0.
    pub last: &'a [u32],
    /// For each edge one more than the place of the edge before it to the same vertex, or 0.
    pub before: &'a [u32],
}

/// The edges of a graph, with threads through those from the same vertex.
#[derive(Clone, Copy)]
pub(crate) struct Outgoing<'a> {
    pub sources: &'a [u32],
    pub targets: &'a [u32],
    /// For each edge one more than the place of the edge before it from the same vertex, or 0.
    pub before: &'a [u32],
}

/// Threads the edges with these keys. The lists that it fills hold one more than places, or 0.
pub(crate) fn thread(keys: &[u32], last: &mut [u32], before: &mut [u32])
    requires known { (x : ℕ) → x < length keys.now → slice_index keys.now x < length last.old }
    requires clear { (v : ℕ) → slice_index last.old v ≡ 0 }
    requires sizes { (length before.old ≡ length keys.now) × (length keys.now ≤ 1000000) }
    ensures threaded { AreThreaded keys.now last.new before.new }
{
    for x in 0..keys.len() {
        let key = keys[x] as usize;
        before[x] = last[key];
        last[key] = x as u32 + 1;
    }
}
