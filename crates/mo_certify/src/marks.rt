//! Marks for the numbers of a list.
ghost use Rattle.std.specs.Prelude.{◌≡◌, ◌≢◌, ℕ, ◌-◌, length, slice_index, true, false};
ghost use Rattle.mo_certify.specs.Deficiency.{AreDistinctBelow, IsListed};

/// Marks the numbers of a list, if they are from 1 up to below the number of marks and no two are the same.
pub(crate) fn mark_all(list: &[u32], mark: &mut [u32]) -> bool
    requires { (x : ℕ) → slice_index mark.old x ≡ 0 }
    ensures yes { result ≡ true → AreDistinctBelow list.now (length mark.old) }
    ensures no { result ≡ false → AreDistinctBelow list.now (length mark.old) → ⊥ }
    ensures marked { result ≡ true → (x : ℕ) → IsListed list.now x → slice_index mark.new x ≢ 0 }
    ensures only { result ≡ true → (x : ℕ) → slice_index mark.new x ≢ 0 → IsListed list.now x }
{
    for number in list {
        let place = *number as usize;
        if place == 0 {
            return false;
        }
        if place >= mark.len() {
            return false;
        }
        if mark[place] != 0 {
            return false;
        }
        mark[place] = 1;
    }
    true
}

/// Whether all numbers of a list are marked.
pub(crate) fn are_marked(list: &[u32], mark: &[u32]) -> bool
    requires { AreDistinctBelow list.now (length mark.now) }
    ensures yes { result ≡ true → (x : ℕ) → IsListed list.now x → slice_index mark.now x ≢ 0 }
    ensures no { result ≡ false → (x : ℕ) × IsListed list.now x × (slice_index mark.now x ≡ 0) }
{
    for number in list {
        if mark[*number as usize] == 0 {
            return false;
        }
    }
    true
}
