//! The least vertex of each class.
ghost use Rattle.std.specs.Prelude.{◌≡◌, ℕ, ◌+◌, ◌-◌, ◌<◌, ◌≤◌, length, slice_index};
ghost use Rattle.mo_graph.specs.Edges.{AreLeaders, AreReplaced};

/// Writes for each vertex the least one of its class. All numbers of `first` are 0 before.
pub(crate) fn find_leaders(class: &[u32], first: &mut [u32], leader: &mut [u32])
    requires known { (i : ℕ) → i < length class.now → slice_index class.now i < length first.old }
    requires clear { (q : ℕ) → slice_index first.old q ≡ 0 }
    requires size { length leader.old ≡ length class.now }
    requires few { length class.now ≤ 50000 }
    ensures { AreLeaders class.now leader.new }
{
    for i in 0..class.len() {
        let number = class[i] as usize;
        if first[number] != 0 {
            leader[i] = first[number] - 1;
            continue;
        }
        first[number] = i as u32 + 1;
        leader[i] = i as u32;
    }
}

/// Replaces each vertex of a list by its leader.
pub(crate) fn replace(list: &mut [u32], leader: &[u32])
    requires { (x : ℕ) → x < length list.old → slice_index list.old x < length leader.now }
    ensures { AreReplaced leader.now list.old list.new }
{
    for x in 0..list.len() {
        list[x] = leader[list[x] as usize];
    }
}
