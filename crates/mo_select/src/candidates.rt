//! The candidates and equations of a stage, in the order in which they are taken.
ghost use Rattle.std.specs.Prelude.{◌≡◌, ℕ, ◌+◌, ◌-◌, ◌<◌, ◌≤◌, ◌++◌, length, slice_index, IfOk, OnOk};
ghost use Rattle.std.proofs.Common.{get_or, suc};
ghost use Rattle.mo_incidence.specs.Offsets.{by_place, by_number};
ghost use Rattle.mo_incidence.specs.Dummies.{differentiated};
ghost use Rattle.mo_incidence.specs.steps.Needing.{AreOwners};
ghost use Rattle.mo_blocks.specs.Stages.{kept};
ghost use Rattle.mo_select.specs.Selection.{numbers_to, of_level, below_level, levels};

use mo_syntax::NoMemory;
use std::alloc::Global;

/// How many levels there are.
pub(crate) const LEVELS: u32 = 5;

/// The numbers from 1 on.
pub(crate) fn numbers(alloc: Global, count: u32) -> Result<Vec<u32>, NoMemory>
    requires { count ≤ 50000 }
    ensures { IfOk result (λ numbers. numbers.items ≡ numbers_to count) }
{
    let mut numbers = Vec::new(alloc);
    for before in 0..count {
        numbers.push(before + 1)?;
    }
    Ok(numbers)
}

/// The first m places.
pub(crate) fn places(alloc: Global, m: u32) -> Result<Vec<u32>, NoMemory>
    ensures { (c : ℕ → ℕ) → IfOk result (λ places. places.items ≡ differentiated c 0 m) }
{
    let mut places = Vec::new(alloc);
    for i in 0..m {
        places.push(i)?;
    }
    Ok(places)
}

/// Of the listed equations, those that are differentiated more than `done` times.
pub(crate) fn keep(
    alloc: Global,
    c: &[u32],
    places: &[u32],
    done: u32,
) -> Result<Vec<u32>, NoMemory>
    requires { (k : ℕ) → k < length places.now → slice_index places.now k < length c.now }
    ensures { IfOk result (λ found. found.items ≡ kept (by_place c.now) (done + 1) places.now) }
{
    let mut found = Vec::new(alloc);
    for place in places {
        if c[*place as usize] <= done {
            continue;
        }
        found.push(*place)?;
    }
    Ok(found)
}

/// What a list says of an unknown, by its number, and 0 where it says nothing.
fn at_number(list: &[u32], unknown: u32) -> u32
    ensures { result ≡ by_number list.now unknown }
{
    let place = (unknown as usize).saturating_sub(1);
    if place < list.len() { list[place] } else { 0 }
}

/// Puts the candidates of one level at the end of the order.
fn put_level(
    level: &[u32],
    candidates: &[u32],
    wanted: u32,
    order: &mut Vec<u32>,
) -> Result<(), NoMemory>
    ensures { OnOk result (order.new.items ≡ order.old.items ++ of_level (by_number level.now) wanted candidates.now) }
{
    for candidate in candidates {
        if at_number(level, *candidate) != wanted {
            continue;
        }
        order.push(*candidate)?;
    }
    Ok(())
}

/// The candidates by level, then number, and for each level how many there are up to it.
#[tactic(auto, unfolding(crate::specs::Selection::levels))]
pub(crate) fn in_order(
    alloc: Global,
    level: &[u32],
    candidates: &[u32],
) -> Result<(Vec<u32>, Vec<usize>), NoMemory>
    ensures order { IfOk result (λ r. r.0.items ≡ below_level (by_number level.now) levels candidates.now) }
    ensures count { IfOk result (λ r. length r.1.items ≡ levels) }
    ensures ends { IfOk result (λ r. (n : ℕ) → n < levels → get_or r.1.items n 0 ≡ length (below_level (by_number level.now) (suc n) candidates.now)) }
{
    let mut order = Vec::new(alloc);
    let mut ends = Vec::new(alloc);
    for wanted in 0..LEVELS {
        put_level(level, candidates, wanted, &mut order)?;
        ends.push(order.len())?;
    }
    Ok((order, ends))
}

/// Writes for each candidate one more than its place in the order. All ranks are 0 before.
pub(crate) fn note_ranks(order: &[u32], rank: &mut [usize])
    requires known { (t : ℕ) → t < length order.now → slice_index order.now t < length rank.old }
    requires apart { (t u : ℕ) → t < length order.now → u < length order.now → slice_index order.now t ≡ slice_index order.now u → t ≡ u }
    requires clear { (j : ℕ) → slice_index rank.old j ≡ 0 }
    ensures { AreOwners (length order.now) (by_place order.now) rank.new }
{
    for place in 0..order.len() {
        rank[order[place] as usize] = place + 1;
    }
}

/// Writes 0 for each candidate.
pub(crate) fn forget_ranks(order: &[u32], rank: &mut [usize])
    requires known { (t : ℕ) → t < length order.now → slice_index order.now t < length rank.old }
    requires ranked { AreOwners (length order.now) (by_place order.now) rank.old }
    ensures { (j : ℕ) → slice_index rank.new j ≡ 0 }
{
    for candidate in order {
        rank[*candidate as usize] = 0;
    }
}
