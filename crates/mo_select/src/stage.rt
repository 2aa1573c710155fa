//! One stage: the chosen unknowns with their equations, and the evidence of each level.
ghost use Rattle.std.specs.Prelude.{◌≡◌, ℕ, ◌+◌, ◌-◌, ◌<◌, ◌≤◌, length, take, map, slice_index, IfOk};
ghost use Rattle.std.proofs.Common.{get_or, suc};
ghost use Rattle.mo_incidence.specs.Counting.{count_below};
ghost use Rattle.mo_incidence.specs.Signature.{equations};
ghost use Rattle.mo_incidence.specs.Offsets.{by_place, by_number};
ghost use Rattle.mo_incidence.specs.steps.Needing.{AreOwners};
ghost use Rattle.mo_select.specs.Selection.{chosen_of};
ghost use Rattle.mo_select.specs.steps.Staging.{taken, IsGreedyChoice, IsLeft, IsOpened, AreEvidence, IsMade};

use crate::grow::greedy;
use crate::selection::Stage;
use crate::ties::{Remaining, open_rows, ties};
use mo_incidence::{Counted, Incidence};
use mo_match::{Work, assign};
use mo_ports::Steps;
use mo_syntax::{List, NoMemory, both};
use std::alloc::Global;

/// For each candidate of the order the place in the list, from 1, of the equation that it gets, or 0.
fn pairs_of(
    alloc: Global,
    inc: &Incidence,
    remaining: &Remaining,
    order: &[u32],
    rank: &[usize],
) -> Result<Vec<u32>, NoMemory>
    requires sizes { (length remaining.now.c.now ≡ equations inc.now) × (length remaining.now.d.now ≡ inc.now.unknowns) × (length rank.now ≡ suc inc.now.unknowns) }
    requires active { (e : ℕ) → e < length remaining.now.active.now → slice_index remaining.now.active.now e < equations inc.now }
    requires few { length remaining.now.active.now ≤ 50000 }
    requires ranks { AreOwners (length order.now) (by_place order.now) rank.now }
    ensures { IfOk result (λ pairs. IsGreedyChoice inc.now (by_place remaining.now.c.now) (by_number remaining.now.d.now) remaining.now.active.now order.now pairs.items) }
{
    let rows = ties(alloc, inc, remaining, order, rank)?;
    let Ok(tied) = Incidence::from_rows(alloc, remaining.active.len() as u32, &rows) else {
        return Err(NoMemory);
    };
    let pairs = greedy(alloc, &tied)?;
    Ok(pairs)
}

/// The place in the list, from 1, of the equation that an unknown gets, or 0.
fn number_of(rank: &[usize], pairs: &[u32], unknown: u32) -> u32
    requires known { unknown < length rank.now }
    requires rank { slice_index rank.now unknown ≤ length pairs.now }
    ensures { result ≡ taken rank.now pairs.now unknown }
{
    let place = rank[unknown as usize];
    if place == 0 {
        return 0;
    }
    pairs[place - 1]
}

/// The candidates that get an equation, with its number.
fn chosen_among(
    alloc: Global,
    candidates: &[u32],
    rank: &[usize],
    pairs: &[u32],
    active: &[u32],
) -> Result<List<(u32, u32)>, NoMemory>
    requires known { (k : ℕ) → k < length candidates.now → slice_index candidates.now k < length rank.now }
    requires ranks { (j : ℕ) → slice_index rank.now j ≤ length pairs.now }
    requires numbers { (t : ℕ) → slice_index pairs.now t ≤ length active.now }
    requires places { (e : ℕ) → e < length active.now → slice_index active.now e < 50000 }
    ensures { IfOk result (λ chosen. chosen ≡ chosen_of active.now (taken rank.now pairs.now) candidates.now) }
{
    let mut chosen = List::new(alloc);
    for candidate in candidates {
        let number = number_of(rank, pairs, *candidate);
        if number == 0 {
            continue;
        }
        let equation = active[number as usize - 1] + 1;
        chosen.push((*candidate, equation))?;
    }
    Ok(chosen)
}

/// How many of the first candidates get an equation.
fn count_first(pairs: &[u32], end: usize) -> u32
    requires { (end ≤ length pairs.now) × (length pairs.now ≤ 50000) }
    ensures { result ≡ count_below (by_place pairs.now) end }
{
    let mut count = 0;
    for t in 0..end {
        if pairs[t] != 0 {
            count += 1;
        }
    }
    count
}

/// The numbers of equations by their places in a list from 1.
fn numbers_at(alloc: Global, places: &[u32], active: &[u32]) -> Result<List<u32>, NoMemory>
    requires known { (k : ℕ) → k < length places.now → (0 < slice_index places.now k) × (slice_index places.now k ≤ length active.now) }
    requires small { (e : ℕ) → e < length active.now → slice_index active.now e < 50000 }
    ensures { IfOk result (λ numbers. numbers ≡ map (λ x. suc (get_or active.now (x - 1) 0)) places.now) }
{
    let mut numbers = List::new(alloc);
    for place in places {
        let equation = active[*place as usize - 1] + 1;
        numbers.push(equation)?;
    }
    Ok(numbers)
}

/// The listed equations with the candidates among the first `end` of the order at which they are tight.
fn opened(
    alloc: Global,
    inc: &Incidence,
    remaining: &Remaining,
    rank: &[usize],
    end: usize,
) -> Result<Incidence, NoMemory>
    requires sizes { (length remaining.now.c.now ≡ equations inc.now) × (length remaining.now.d.now ≡ inc.now.unknowns) × (length rank.now ≡ suc inc.now.unknowns) }
    requires active { (e : ℕ) → e < length remaining.now.active.now → slice_index remaining.now.active.now e < equations inc.now }
    ensures { IfOk result (IsOpened inc.now (by_place remaining.now.c.now) (by_number remaining.now.d.now) remaining.now.active.now rank.now end) }
{
    let rows = open_rows(alloc, inc, remaining, rank, end)?;
    match Incidence::from_rows(alloc, inc.unknowns(), &rows) {
        Ok(opened) => Ok(opened),
        Err(_) => Err(NoMemory),
    }
}

/// The numbers of the listed equations that some largest assignment of the first candidates of the order leaves out.
fn left_out(
    alloc: Global,
    inc: &Incidence,
    remaining: &Remaining,
    _order: &[u32],
    rank: &[usize],
    end: usize,
) -> Result<List<u32>, NoMemory>
    requires sizes { (length remaining.now.c.now ≡ equations inc.now) × (length remaining.now.d.now ≡ inc.now.unknowns) × (length rank.now ≡ suc inc.now.unknowns) }
    requires active { (e : ℕ) → e < length remaining.now.active.now → slice_index remaining.now.active.now e < equations inc.now }
    requires ranks { AreOwners (length _order.now) (by_place _order.now) rank.now }
    requires end { end ≤ length _order.now }
    ensures { IfOk result (λ without. IsLeft inc.now (by_place remaining.now.c.now) (by_number remaining.now.d.now) remaining.now.active.now (take end _order.now) without) }
{
    let _equations = inc.equations();
    let opened = opened(alloc, inc, remaining, rank, end)?;
    let mut work = Work::new(
        alloc,
        opened.equations(),
        opened.unknowns(),
        opened.entries(),
    )?;
    let mut steps = Steps::new(());
    let counted = Counted::new(&opened, &steps);
    let _assigned = assign(&counted, &mut work, &mut steps);
    numbers_at(alloc, work.deficit().equations.as_slice(), remaining.active)
}

/// For each level how many candidates of it or below get an equation, and the equations that they can leave out.
fn evidence(
    alloc: Global,
    inc: &Incidence,
    remaining: &Remaining,
    order: &[u32],
    ends: &[usize],
    rank: &[usize],
    pairs: &[u32],
) -> Result<(List<u32>, List<List<u32>>), NoMemory>
    requires sizes { (length remaining.now.c.now ≡ equations inc.now) × (length remaining.now.d.now ≡ inc.now.unknowns) × (length rank.now ≡ suc inc.now.unknowns) }
    requires active { (e : ℕ) → e < length remaining.now.active.now → slice_index remaining.now.active.now e < equations inc.now }
    requires ranks { AreOwners (length order.now) (by_place order.now) rank.now }
    requires ends { (n : ℕ) → n < length ends.now → slice_index ends.now n ≤ length order.now }
    requires pairs { (length pairs.now ≡ length order.now) × (length pairs.now ≤ 50000) }
    ensures { IfOk result (λ r. AreEvidence inc.now (by_place remaining.now.c.now) (by_number remaining.now.d.now) remaining.now.active.now order.now ends.now pairs.now (length ends.now) r.0 r.1) }
{
    let mut counts = List::new(alloc);
    let mut without = List::new(alloc);
    for end in ends {
        let left = left_out(alloc, inc, remaining, order, rank, *end)?;
        without.push(left)?;
        counts.push(count_first(pairs, *end))?;
    }
    Ok((counts, without))
}

/// A stage with these equations, the order of its candidates, and their ranks.
pub(crate) fn ranked_stage(
    alloc: Global,
    inc: &Incidence,
    remaining: &Remaining,
    candidates: &[u32],
    order: &[u32],
    ends: &[usize],
    rank: &[usize],
) -> Result<Stage, NoMemory>
    requires sizes { (length remaining.now.c.now ≡ equations inc.now) × (length remaining.now.d.now ≡ inc.now.unknowns) × (length rank.now ≡ suc inc.now.unknowns) }
    requires active { (e : ℕ) → e < length remaining.now.active.now → slice_index remaining.now.active.now e < equations inc.now }
    requires few { (length remaining.now.active.now ≤ 50000) × (equations inc.now ≤ 50000) }
    requires candidates { (k : ℕ) → k < length candidates.now → slice_index candidates.now k ≤ inc.now.unknowns }
    requires ranks { AreOwners (length order.now) (by_place order.now) rank.now }
    requires ends { (n : ℕ) → n < length ends.now → slice_index ends.now n ≤ length order.now }
    ensures { IfOk result (IsMade inc.now (by_place remaining.now.c.now) (by_number remaining.now.d.now) remaining.now.active.now candidates.now order.now ends.now rank.now) }
{
    let pairs = pairs_of(alloc, inc, remaining, order, rank)?;
    let (chosen, (counts, without)) = both(
        chosen_among(alloc, candidates, rank, &pairs, remaining.active),
        evidence(alloc, inc, remaining, order, ends, rank, &pairs),
    )?;
    Ok(Stage {
        chosen,
        counts,
        without,
    })
}
