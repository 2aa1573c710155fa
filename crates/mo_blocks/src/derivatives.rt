//! Dummy derivatives, and the states that are left.
ghost use Rattle.std.specs.Prelude.{◌≡◌, ℕ, ◌+◌, ◌-◌, ◌<◌, ◌≤◌, ◌++◌, length, map, slice_index, IfOk, OnOk};
ghost use Rattle.mo_incidence.specs.Signature.{equations};
ghost use Rattle.mo_incidence.specs.Assignment.{Assigns, CoversAll};
ghost use Rattle.mo_incidence.specs.Offsets.{HasFreedom, HasPairs, HasSizes, IsTight, by_number, by_place, c_of, differentiations, pairs_of};
ghost use Rattle.mo_incidence.specs.Dummies.{differentiated, dummies_by, dummies_of, dummy, states_by};
ghost use Rattle.mo_blocks.specs.Stages.{AreFollowed, AreHighest, HaveOwnBy, derivatives_below, derivatives_to, kept};

use mo_incidence::{Dummies, Incidence, Offsets};
use mo_syntax::NoMemory;
use std::alloc::Global;

/// The first m places.
fn all_places(alloc: Global, m: usize) -> Result<Vec<u32>, NoMemory>
    requires { m ≤ 50000 }
    ensures { (c : ℕ → ℕ) → IfOk result (λ places. places.items ≡ differentiated c 0 m) }
{
    let mut places = Vec::new(alloc);
    for i in 0..m {
        places.push(i as u32)?;
    }
    Ok(places)
}

/// Of the listed equations, those that are differentiated more than `done` times.
fn keep(alloc: Global, c: &[u32], places: &[u32], done: u32) -> Result<Vec<u32>, NoMemory>
    requires { (k : ℕ) → k < length places.now → slice_index places.now k < length c.now }
    ensures { IfOk result (λ found. found.items ≡ kept (by_place c.now) (done + 1) places.now) }
{
    let mut found = Vec::new(alloc);
    for place in places {
        if c[*place as usize] <= done {
            continue;
        }
        found.push(*place)?;
    }
    Ok(found)
}

/// Makes the dummies of the listed equations at a stage.
fn choose_stage(
    places: &[u32],
    d: &[u32],
    pairs: &[u32],
    stage: u32,
    chosen: &mut Vec<(u32, u32, u32, u32)>,
) -> Result<(), NoMemory>
    requires known { (k : ℕ) → k < length places.now → (slice_index places.now k < length pairs.now) × (slice_index places.now k < 50000) }
    requires pairs { (i : ℕ) → i < length pairs.now → (0 < slice_index pairs.now i) × (slice_index pairs.now i ≤ length d.now) }
    requires stage { (k : ℕ) → k < length places.now → stage ≤ by_number d.now (slice_index pairs.now (slice_index places.now k)) }
    requires some { 0 < stage }
    ensures { OnOk result (chosen.new.items ≡ chosen.old.items ++ map (dummy (by_number d.now) (by_place pairs.now) stage) places.now) }
{
    for place in places {
        let unknown = pairs[*place as usize];
        let order = d[unknown as usize - 1] - stage + 1;
        chosen.push((unknown, order, stage, *place + 1))?;
    }
    Ok(())
}

/// The dummies of all stages.
fn choose(
    alloc: Global,
    inc: &Incidence,
    c: &[u32],
    d: &[u32],
    pairs: &[u32],
) -> Result<Vec<(u32, u32, u32, u32)>, NoMemory>
    requires lengths { (length c.now ≡ equations inc.now) × (length d.now ≡ inc.now.unknowns) × (length pairs.now ≡ equations inc.now) }
    requires tight { Assigns (IsTight inc.now (by_place c.now) (by_number d.now)) (equations inc.now) (by_place pairs.now) }
    requires all { CoversAll inc.now (by_place pairs.now) }
    ensures { IfOk result (λ chosen. chosen.items ≡ dummies_of (by_place c.now) (by_number d.now) (by_place pairs.now) (equations inc.now)) }
{
    let mut chosen = Vec::new(alloc);
    let places = all_places(alloc, inc.equations() as usize)?;
    let mut active = keep(alloc, c, &places, 0)?;
    let mut done = 0;
    while !active.is_empty() {
        done += 1;
        choose_stage(&active, d, pairs, done, &mut chosen)?;
        active = keep(alloc, c, &active, done)?;
    }
    Ok(chosen)
}

/// Writes for each unknown how often its equation is differentiated.
fn note_depths(inc: &Incidence, c: &[u32], _d: &[u32], pairs: &[u32], depth: &mut [u32])
    requires lengths { (length c.now ≡ equations inc.now) × (length pairs.now ≡ equations inc.now) × (length depth.old ≡ inc.now.unknowns) }
    requires tight { Assigns (IsTight inc.now (by_place c.now) (by_number _d.now)) (equations inc.now) (by_place pairs.now) }
    requires all { CoversAll inc.now (by_place pairs.now) }
    ensures { (i : ℕ) → i < equations inc.now → by_number depth.new (slice_index pairs.now i) ≡ slice_index c.now i }
{
    let _equations = inc.equations();
    for i in 0..pairs.len() {
        depth[pairs[i] as usize - 1] = c[i];
    }
}

/// Lists the first derivatives of an unknown.
fn list_derivatives(unknown: u32, count: u32, states: &mut Vec<(u32, u32)>) -> Result<(), NoMemory>
    ensures { OnOk result (states.new.items ≡ states.old.items ++ derivatives_below unknown count) }
{
    for k in 0..count {
        states.push((unknown, k))?;
    }
    Ok(())
}

/// Lists the derivatives of each unknown that are below its order in d by more than its depth.
fn list_states(alloc: Global, d: &[u32], depth: &[u32]) -> Result<Vec<(u32, u32)>, NoMemory>
    requires sizes { (length depth.now ≡ length d.now) × (length d.now ≤ 50000) }
    requires low { (u : ℕ) → u < length d.now → slice_index depth.now u ≤ slice_index d.now u }
    ensures { IfOk result (λ states. states.items ≡ derivatives_to (λ u. slice_index d.now u - slice_index depth.now u) (length d.now)) }
{
    let mut states = Vec::new(alloc);
    for u in 0..d.len() {
        list_derivatives(u as u32 + 1, d[u] - depth[u], &mut states)?;
    }
    Ok(states)
}

/// The dummy derivatives of a square system, by stage, then equation, and its states, by unknown, then order. At stage s each equation
/// that is differentiated at least s times makes derivative d - s + 1 of its unknown a dummy; a state is a derivative of an unknown below
/// its order in d whose next derivative is no dummy. The offsets have to fit the incidence, with pairs that are an assignment of all
/// equations by tight entries. `NoMemory` is the only other answer.
pub fn dummies(alloc: Global, inc: &Incidence, offsets: &Offsets) -> Result<Dummies, NoMemory>
    requires square { equations inc.now ≡ inc.now.unknowns }
    requires lengths { HasSizes inc.now offsets.now }
    requires tight { HasPairs inc.now offsets.now }
    requires all { CoversAll inc.now (pairs_of offsets.now) }
    ensures chosen { IfOk result (λ found. found.chosen.items ≡ dummies_by inc.now offsets.now) }
    ensures states { IfOk result (λ found. found.states.items ≡ states_by inc.now offsets.now) }
    ensures own { IfOk result (λ found. HaveOwnBy inc.now offsets.now found.chosen.items) }
    ensures highest { IfOk result (λ found. AreHighest inc.now (c_of offsets.now) found.chosen.items) }
    ensures followed { IfOk result (λ found. AreFollowed found.chosen.items) }
    ensures dummies_count { IfOk result (λ found. length found.chosen.items ≡ differentiations inc.now offsets.now) }
    ensures states_count { IfOk result (λ found. HasFreedom inc.now offsets.now (length found.states.items)) }
{
    let _equations = inc.equations();
    let chosen = choose(alloc, inc, &offsets.c, &offsets.d, &offsets.pairs)?;
    let mut depth = vec![in alloc; 0; inc.unknowns() as usize]?;
    note_depths(inc, &offsets.c, &offsets.d, &offsets.pairs, &mut depth);
    let states = list_states(alloc, &offsets.d, &depth)?;
    Ok(Dummies { chosen, states })
}
