//! Trees of joined numbers in one list: for each number one of its tree that is not greater. The root of a tree is its least
//! number. A search for a root halves its path, so that many joins take little more than linear time.
ghost use Rattle.std.specs.Prelude.{◌≡◌, ℕ, ◌<◌, ◌≤◌, length, slice_index};
ghost use Rattle.mo_connect.specs.steps.Forest.{IsForest, Climbs, IsConstant, Shortens, Unites, IsFlatBelow};

/// The root of a number's tree.
fn root(parent: &mut [usize], from: usize) -> usize
    requires forest { IsForest parent.old }
    requires known { from < length parent.old }
    ensures shortens { Shortens parent.old parent.new }
    ensures climbs { Climbs parent.old from result }
    ensures same { (f : ℕ → ℕ) → IsConstant parent.new f → f from ≡ f result }
    ensures root { slice_index parent.new result ≡ result }
    ensures known { result ≤ from }
{
    let mut at = from;
    'climb: while parent[at] != at {
        let next = parent[parent[at]];
        parent[at] = next;
        at = next;
    }
    at
}

/// Makes one tree of those of two numbers.
pub(crate) fn unite(parent: &mut [usize], left: usize, right: usize)
    requires forest { IsForest parent.old }
    requires left { left < length parent.old }
    requires right { right < length parent.old }
    ensures { Unites left right parent.old parent.new }
{
    let low = root(parent, left);
    let high = root(parent, right);
    if low <= high {
        parent[high] = low;
    } else {
        parent[low] = high;
    }
}

/// Gives each number its root.
pub(crate) fn flatten(parent: &mut [usize])
    requires { IsForest parent.old }
    ensures shortens { Shortens parent.old parent.new }
    ensures flat { IsFlatBelow (length parent.new) parent.new }
{
    for i in 0..parent.len() {
        parent[i] = parent[parent[i]];
    }
}
