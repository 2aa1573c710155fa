//! Ascending lists of numbers, put where there is room for them.
ghost use Rattle.std.specs.Prelude.{◌≡◌, ◌≢◌, ℕ, ◌+◌, ◌-◌, ◌<◌, ◌≤◌, ◌++◌, ◌∷◌, [], length, slice_index, vec_len, true, false};
ghost use Rattle.std.specs.Vec.{vec_capacity};
ghost use Rattle.std.proofs.Common.{suc};
ghost use Rattle.mo_incidence.specs.Counting.{count_below};
ghost use Rattle.mo_incidence.specs.Offsets.{by_place};
ghost use Rattle.mo_match.specs.steps.Lists.{numbers_where, reached};

/// Puts a number at the end of a list that has room for it.
pub fn put(list: &mut Vec<u32>, number: u32)
    requires { vec_len list.old < vec_capacity list.old }
    ensures items { list.new.items ≡ list.old.items ++ number ∷ [] }
    ensures room { vec_capacity list.old ≤ vec_capacity list.new }
{
    let _ = list.push(number);
}

/// Lists the numbers of the equations with a mark.
pub(crate) fn list_marked(mark: &[u32], list: &mut Vec<u32>)
    requires room { length mark.now ≤ vec_capacity list.old }
    requires few { length mark.now ≤ 50000 }
    ensures items { list.new.items ≡ numbers_where (by_place mark.now) (length mark.now) }
    ensures room { vec_capacity list.old ≤ vec_capacity list.new }
{
    list.clear();
    for i in 0..mark.len() {
        if mark[i] != 0 {
            put(list, i as u32 + 1);
        }
    }
}

/// Whether an unknown has an equation with a mark.
fn is_reached(owner: &[u32], mark: &[u32], unknown: usize) -> bool
    requires known { unknown < length owner.now }
    requires owners { slice_index owner.now unknown ≤ length mark.now }
    ensures yes { result ≡ true → reached owner.now mark.now unknown ≢ 0 }
    ensures no { result ≡ false → reached owner.now mark.now unknown ≡ 0 }
{
    let holder = owner[unknown] as usize;
    if holder == 0 {
        return false;
    }
    mark[holder - 1] != 0
}

/// Lists the unknowns of the equations with a mark.
pub(crate) fn list_reached(owner: &[u32], mark: &[u32], list: &mut Vec<u32>)
    requires room { length owner.now ≤ suc (vec_capacity list.old) }
    requires few { length owner.now ≤ 50001 }
    requires some { 0 < length owner.now }
    requires owners { (j : ℕ) → j < length owner.now → 0 < j → slice_index owner.now j ≤ length mark.now }
    ensures items { list.new.items ≡ numbers_where (λ u. reached owner.now mark.now (u + 1)) (length owner.now - 1) }
    ensures room { vec_capacity list.old ≤ vec_capacity list.new }
{
    list.clear();
    for u in 0..owner.len() - 1 {
        if is_reached(owner, mark, u + 1) {
            put(list, u as u32 + 1);
        }
    }
}

/// Lists the unknowns with a mark. The marks of unknowns begin at place 1.
pub(crate) fn list_unknowns(mark: &[u32], list: &mut Vec<u32>)
    requires room { length mark.now ≤ suc (vec_capacity list.old) }
    requires few { length mark.now ≤ 50001 }
    requires some { 0 < length mark.now }
    ensures items { list.new.items ≡ numbers_where (λ u. slice_index mark.now (u + 1)) (length mark.now - 1) }
    ensures room { vec_capacity list.old ≤ vec_capacity list.new }
{
    list.clear();
    for u in 0..mark.len() - 1 {
        if mark[u + 1] != 0 {
            put(list, u as u32 + 1);
        }
    }
}

/// How many equations have no unknown.
pub(crate) fn count_missing(pairs: &[u32]) -> u32
    requires { length pairs.now ≤ 50000 }
    ensures { count_below (by_place pairs.now) (length pairs.now) + result ≡ length pairs.now }
{
    let mut missing = 0;
    for unknown in pairs {
        if *unknown == 0 {
            missing += 1;
        }
    }
    missing
}
