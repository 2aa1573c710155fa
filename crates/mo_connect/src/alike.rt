//! Whether connectors have corresponding leaves.
ghost use Rattle.std.specs.Prelude.{◌≡◌, ℕ, ◌<◌, ◌↔◌, IsTrue, List, length, slice_index_or, MatchOption};
ghost use Rattle.mo_flat.specs.declared.connect.EndLeaf as leaves;
ghost use Rattle.mo_connect.specs.Alike.{Corresponds, HavePartners, AreAlike, AllAlike};

use mo_flat::EndLeaf;
use mo_syntax::{InstancePath, List, Text};

fn is_same_step(left: &(Text, List<u32>), right: &(Text, List<u32>)) -> bool
    ensures { IsTrue result ↔ (left.now ≡ right.now) }
{
    left.0.equals(&right.0) && left.1.as_slice() == right.1.as_slice()
}

fn are_same_steps(left: &[(Text, List<u32>)], right: &[(Text, List<u32>)]) -> bool
    ensures { IsTrue result ↔ (left.now ≡ right.now) }
{
    if left.len() != right.len() {
        return false;
    }
    for (k, step) in left.iter().enumerate() {
        if !is_same_step(step, &right[k]) {
            return false;
        }
    }
    true
}

fn is_same_path(left: &InstancePath, right: &InstancePath) -> bool
    ensures { IsTrue result ↔ (left.now ≡ right.now) }
{
    are_same_steps(left.0.as_slice(), right.0.as_slice())
}

fn corresponds(left: &EndLeaf, right: &EndLeaf) -> bool
    ensures { IsTrue result ↔ Corresponds left.now right.now }
{
    left.flow == right.flow && is_same_path(&left.below, &right.below)
}

/// The place of a leaf that corresponds to the given one. It is looked for at the guessed place first.
pub(crate) fn partner(leaf: &EndLeaf, others: &[EndLeaf], guess: usize) -> Option<usize>
    ensures { MatchOption result ((k : ℕ) (d : leaves.EndLeaf) → k < length others.now → Corresponds leaf.now (slice_index_or others.now k d) → ⊥) (λ k. (k < length others.now) × ((d : leaves.EndLeaf) → Corresponds leaf.now (slice_index_or others.now k d))) }
{
    if guess < others.len() && corresponds(leaf, &others[guess]) {
        return Some(guess);
    }
    for (k, other) in others.iter().enumerate() {
        if corresponds(leaf, other) {
            return Some(k);
        }
    }
    None
}

fn have_partners(leaves: &[EndLeaf], others: &[EndLeaf]) -> bool
    ensures { IsTrue result ↔ HavePartners leaves.now others.now }
{
    for (i, leaf) in leaves.iter().enumerate() {
        match partner(leaf, others, i) {
            None => return false,
            Some(_) => {}
        }
    }
    true
}

fn are_alike(left: &[EndLeaf], right: &[EndLeaf]) -> bool
    ensures { IsTrue result ↔ AreAlike left.now right.now }
{
    have_partners(left, right) && have_partners(right, left)
}

/// Whether the connector at that place, if there is one, has corresponding leaves.
fn is_alike_at(left: &[EndLeaf], rights: &[List<EndLeaf>], k: usize) -> bool
    ensures { IsTrue result ↔ ((d : List leaves.EndLeaf) → k < length rights.now → AreAlike left.now (slice_index_or rights.now k d)) }
{
    if k >= rights.len() {
        return true;
    }
    are_alike(left, rights[k].as_slice())
}

/// Whether the connectors at the same places have corresponding leaves.
pub(crate) fn all_alike(lefts: &[List<EndLeaf>], rights: &[List<EndLeaf>]) -> bool
    ensures { IsTrue result ↔ AllAlike lefts.now rights.now }
{
    for (k, left) in lefts.iter().enumerate() {
        if !is_alike_at(left.as_slice(), rights, k) {
            return false;
        }
    }
    true
}
