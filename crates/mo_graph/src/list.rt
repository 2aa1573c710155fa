//! The blocks as lists.
ghost use Rattle.std.specs.Prelude.{◌≡◌, ◌≢◌, ℕ, ◌+◌, ◌-◌, ◌<◌, ◌≤◌, ◌++◌, ◌∷◌, [], length, vec_len, slice_index, IfOk, OnOk};
ghost use Rattle.std.proofs.Common.{get_or, suc};
ghost use Rattle.mo_graph.specs.Order.{numbers_in};
ghost use Rattle.mo_graph.specs.steps.Listing.{members};

use mo_syntax::NoMemory;
use std::alloc::Global;

/// So many empty lists.
fn empty_lists(alloc: Global, count: usize) -> Result<Vec<Vec<u32>>, NoMemory>
    ensures count { IfOk result (λ lists. length (numbers_in lists.items) ≡ count) }
    ensures empty { IfOk result (λ lists. (b : ℕ) → get_or (numbers_in lists.items) b [] ≡ []) }
{
    let mut lists = Vec::new(alloc);
    for _b in 0..count {
        lists.push(Vec::new(alloc))?;
    }
    Ok(lists)
}

/// Puts a number at the end of one of the lists.
fn put(lists: &mut Vec<Vec<u32>>, b: usize, number: u32) -> Result<(), NoMemory>
    requires { b < vec_len lists.old }
    ensures count { OnOk result (length (numbers_in lists.new.items) ≡ length (numbers_in lists.old.items)) }
    ensures more { OnOk result (get_or (numbers_in lists.new.items) b [] ≡ get_or (numbers_in lists.old.items) b [] ++ number ∷ []) }
    ensures others { OnOk result ((k : ℕ) → k ≢ b → get_or (numbers_in lists.new.items) k [] ≡ get_or (numbers_in lists.old.items) k []) }
{
    lists[b].push(number)?;
    Ok(())
}

/// Lists the vertices, from 1, by the places of their leaders, which are from 1 too.
pub(crate) fn list_blocks(
    alloc: Global,
    leader: &[u32],
    placed: &[u32],
    count: usize,
) -> Result<Vec<Vec<u32>>, NoMemory>
    requires sizes { (length placed.now ≡ length leader.now) × (length leader.now ≤ 50000) }
    requires led { (i : ℕ) → i < length leader.now → slice_index leader.now i < length leader.now }
    requires placed { (i : ℕ) → i < length leader.now → (0 < slice_index placed.now (slice_index leader.now i)) × (slice_index placed.now (slice_index leader.now i) ≤ count) }
    ensures count { IfOk result (λ lists. length (numbers_in lists.items) ≡ count) }
    ensures members { IfOk result (λ lists. (b : ℕ) → b < count → get_or (numbers_in lists.items) b [] ≡ members (λ i. slice_index placed.now (slice_index leader.now i)) (suc b) (length leader.now)) }
{
    let mut lists = empty_lists(alloc, count)?;
    for i in 0..leader.len() {
        let place = placed[leader[i] as usize] as usize;
        put(&mut lists, place - 1, i as u32 + 1)?;
    }
    Ok(lists)
}
