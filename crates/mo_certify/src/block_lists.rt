//! Whether listed blocks are the irreducible blocks in order.
ghost use Rattle.std.specs.Prelude.{◌≡◌, true, false};
ghost use Rattle.mo_incidence.specs.Blocks.{numbers_in};
ghost use Rattle.mo_certify.specs.Offsets.{AreRightBlocks, Decides};

use crate::admissible::offsets_hold;
use mo_graph::in_order;
use mo_incidence::{Blocks, Incidence, Offsets, needs};
use mo_syntax::NoMemory;
use std::alloc::Global;

/// Whether two lists have the same numbers.
fn same_numbers(left: &[u32], right: &[u32]) -> bool
    ensures yes { result ≡ true → left.now ≡ right.now }
    ensures no { result ≡ false → left.now ≡ right.now → ⊥ }
{
    if left.len() != right.len() {
        return false;
    }
    for k in 0..left.len() {
        if left[k] != right[k] {
            return false;
        }
    }
    true
}

/// Whether two lists have the same lists.
fn same_lists(left: &[Vec<u32>], right: &[Vec<u32>]) -> bool
    ensures yes { result ≡ true → numbers_in left.now ≡ numbers_in right.now }
    ensures no { result ≡ false → numbers_in left.now ≡ numbers_in right.now → ⊥ }
{
    if left.len() != right.len() {
        return false;
    }
    for b in 0..left.len() {
        if !same_numbers(&left[b], &right[b]) {
            return false;
        }
    }
    true
}

/// Whether the listed offsets and pairs are admissible, the system is square, and the lists are its irreducible blocks in order of
/// dependence. It accepts any lists, and finds the blocks itself. `NoMemory` is the only other answer.
pub fn blocks_hold(
    alloc: Global,
    inc: &Incidence,
    offsets: &Offsets,
    listed: &Blocks,
) -> Result<bool, NoMemory>
    ensures exact { Decides result (AreRightBlocks inc.now offsets.now (numbers_in listed.now.0.items)) }
{
    if !offsets_hold(alloc, inc, offsets)? {
        return Ok(false);
    }
    if inc.equations() != inc.unknowns() {
        return Ok(false);
    }
    let edges = needs(alloc, inc, offsets)?;
    let found = in_order(alloc, edges, inc.equations() as usize)?;
    Ok(same_lists(&found, &listed.0))
}
