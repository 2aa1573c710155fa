//! The states that the chosen dummies leave.
ghost use Rattle.std.specs.Prelude.{◌≡◌, ℕ, ◌+◌, ◌-◌, ◌<◌, ◌≤◌, ◌++◌, Contains, length, slice_index, IfOk, OnOk};
ghost use Rattle.std.proofs.Common.{get_or};
ghost use Rattle.mo_blocks.specs.Stages.{derivatives_below, derivatives_to};
ghost use Rattle.mo_incidence.specs.Offsets.{by_number};
ghost use Rattle.mo_incidence.specs.Dummies.{states_to};
ghost use Rattle.mo_select.specs.Selection.{no_stage, AreNested, dummies_from};
ghost use Rattle.mo_select.specs.steps.Depths.{unknowns_in, IsNoted, AreDepths, HasDepths};

use crate::selection::Stage;
use mo_syntax::{List, NoMemory};
use std::alloc::Global;

/// Writes the number of a stage for each unknown that is chosen there.
fn note_stage(chosen: &[(u32, u32)], stage: usize, depth: &mut [usize])
    requires { (j : ℕ) → Contains (unknowns_in chosen.now) j → (0 < j) × (j ≤ length depth.old) }
    ensures { IsNoted chosen.now stage depth.old depth.new }
{
    for pair in chosen {
        let unknown = pair.0 as usize;
        depth[unknown - 1] = stage;
    }
}

/// Writes for each unknown the number of the last stage at which it is chosen, or 0. All numbers are 0 before.
fn note_stages(stages: &[Stage], depth: &mut [usize])
    requires known { (k j : ℕ) → k < length stages.now → Contains (unknowns_in (get_or stages.now k no_stage).chosen) j → (0 < j) × (j ≤ length depth.old) }
    requires nested { AreNested stages.now }
    requires clear { (u : ℕ) → slice_index depth.old u ≡ 0 }
    ensures { AreDepths stages.now (length depth.old) (length stages.now) depth.new }
{
    for k in 0..stages.len() {
        note_stage(stages[k].chosen.as_slice(), k + 1, depth);
    }
}

/// Lists the first derivatives of an unknown.
fn list_derivatives(unknown: u32, count: u32, states: &mut List<(u32, u32)>) -> Result<(), NoMemory>
    ensures { OnOk result (states.new ≡ states.old ++ derivatives_below unknown count) }
{
    for k in 0..count {
        states.push((unknown, k))?;
    }
    Ok(())
}

/// Lists the derivatives of each unknown that are below its order in d by more than its depth.
fn list_states(alloc: Global, d: &[u32], depth: &[usize]) -> Result<List<(u32, u32)>, NoMemory>
    requires sizes { (length depth.now ≡ length d.now) × (length d.now ≤ 50000) }
    requires low { (u : ℕ) → u < length d.now → slice_index depth.now u ≤ slice_index d.now u }
    ensures { IfOk result (λ states. states ≡ derivatives_to (λ u. slice_index d.now u - slice_index depth.now u) (length d.now)) }
{
    let mut states = List::new(alloc);
    for u in 0..d.len() {
        list_derivatives(u as u32 + 1, d[u] - depth[u] as u32, &mut states)?;
    }
    Ok(states)
}

/// The states that these stages leave.
pub(crate) fn states(
    alloc: Global,
    d: &[u32],
    stages: &[Stage],
) -> Result<List<(u32, u32)>, NoMemory>
    requires few { length d.now ≤ 50000 }
    requires known { (k j : ℕ) → k < length stages.now → Contains (unknowns_in (get_or stages.now k no_stage).chosen) j → (0 < j) × (j ≤ length d.now) × (k < slice_index d.now (j - 1)) }
    requires nested { AreNested stages.now }
    ensures states { IfOk result (λ states. states ≡ states_to (dummies_from (by_number d.now) 1 stages.now) (by_number d.now) (length d.now)) }
    ensures depths { IfOk result (λ _. HasDepths stages.now (length d.now)) }
{
    let mut depth = vec![in alloc; 0usize; d.len()]?;
    note_stages(stages, &mut depth);
    let states = list_states(alloc, d, &depth)?;
    Ok(states)
}
