//! The selection of a model, stage after stage.
ghost use Rattle.std.specs.Prelude.{◌≡◌, ℕ, ◌+◌, ◌<◌, ◌≤◌, length, map, slice_index, IfOk, OnOk};
ghost use Rattle.std.proofs.Common.{suc};
ghost use Rattle.mo_incidence.specs.Signature.{equations};
ghost use Rattle.mo_incidence.specs.Assignment.{Assigns, CoversAll};
ghost use Rattle.mo_incidence.specs.Offsets.{HasFreedom, HasPairs, HasSizes, IsTight, by_number, by_place, c_of, d_of, differentiations, pairs_of};
ghost use Rattle.mo_incidence.specs.Dummies.{differentiated, states_to};
ghost use Rattle.mo_select.specs.Levels.{level_of};
ghost use Rattle.mo_select.specs.Selection.{levels, IsStage, AreStages, AreNested, dummies_in};
ghost use Rattle.mo_select.specs.steps.Staging.{AreUnknowns, CanAssign, IsNextStage, AreWhole};

use crate::candidates::{forget_ranks, in_order, keep, note_ranks, numbers, places};
use crate::levels::levels_of;
use crate::selection::{Selection, Stage};
use crate::stage::ranked_stage;
use crate::states::states;
use crate::ties::Remaining;
use mo_flat::FlatModel;
use mo_incidence::{Incidence, Offsets};
use mo_syntax::{List, NoMemory, both};
use std::alloc::Global;

/// The unknowns of a list of pairs.
fn unknowns_of(alloc: Global, chosen: &[(u32, u32)]) -> Result<Vec<u32>, NoMemory>
    ensures { IfOk result (λ unknowns. unknowns.items ≡ map (λ x. x.0) chosen.now) }
{
    let mut unknowns = Vec::new(alloc);
    for pair in chosen {
        unknowns.push(pair.0)?;
    }
    Ok(unknowns)
}

/// The stage with these equations and candidates. All ranks are 0 before and after.
fn stage(
    alloc: Global,
    inc: &Incidence,
    remaining: &Remaining,
    level: &[u32],
    candidates: &[u32],
    rank: &mut [usize],
) -> Result<Stage, NoMemory>
    requires sizes { (length remaining.now.c.now ≡ equations inc.now) × (length remaining.now.d.now ≡ inc.now.unknowns) × (length rank.old ≡ suc inc.now.unknowns) }
    requires low { (j : ℕ) → by_number level.now j < levels }
    requires active { (e : ℕ) → e < length remaining.now.active.now → slice_index remaining.now.active.now e < equations inc.now }
    requires few { length remaining.now.active.now ≤ 50000 }
    requires unknowns { AreUnknowns inc.now.unknowns candidates.now }
    requires can { CanAssign inc.now (by_place remaining.now.c.now) (by_number remaining.now.d.now) remaining.now.active.now candidates.now }
    requires clear { (j : ℕ) → slice_index rank.old j ≡ 0 }
    ensures stage { IfOk result (IsStage inc.now (by_place remaining.now.c.now) (by_number remaining.now.d.now) (by_number level.now) remaining.now.active.now candidates.now) }
    ensures clear { OnOk result ((j : ℕ) → slice_index rank.new j ≡ 0) }
{
    let _equations = inc.equations();
    let (order, ends) = in_order(alloc, level, candidates)?;
    note_ranks(&order, rank);
    let made = ranked_stage(alloc, inc, remaining, candidates, &order, &ends, rank)?;
    forget_ranks(&order, rank);
    Ok(made)
}

/// Makes the next stage with these equations, and puts its unknowns in the place of the candidates. All ranks are 0 before and after.
fn next_stage(
    alloc: Global,
    inc: &Incidence,
    remaining: &Remaining,
    level: &[u32],
    candidates: &mut Vec<u32>,
    rank: &mut [usize],
    stages: &mut List<Stage>,
) -> Result<(), NoMemory>
    requires sizes { (length remaining.now.c.now ≡ equations inc.now) × (length remaining.now.d.now ≡ inc.now.unknowns) × (length rank.old ≡ suc inc.now.unknowns) }
    requires low { (j : ℕ) → by_number level.now j < levels }
    requires active { (e : ℕ) → e < length remaining.now.active.now → slice_index remaining.now.active.now e < equations inc.now }
    requires few { length remaining.now.active.now ≤ 50000 }
    requires unknowns { AreUnknowns inc.now.unknowns candidates.old.items }
    requires can { CanAssign inc.now (by_place remaining.now.c.now) (by_number remaining.now.d.now) remaining.now.active.now candidates.old.items }
    requires clear { (j : ℕ) → slice_index rank.old j ≡ 0 }
    ensures stage { OnOk result (IsNextStage inc.now (by_place remaining.now.c.now) (by_number remaining.now.d.now) (by_number level.now) remaining.now.active.now candidates.old.items stages.old candidates.new.items stages.new) }
    ensures clear { OnOk result ((j : ℕ) → slice_index rank.new j ≡ 0) }
{
    let made = stage(alloc, inc, remaining, level, candidates, rank)?;
    *candidates = unknowns_of(alloc, made.chosen.as_slice())?;
    stages.push(made)?;
    Ok(())
}

/// The places of the equations that are differentiated.
fn first_active(alloc: Global, c: &[u32], m: u32) -> Result<Vec<u32>, NoMemory>
    requires { m ≡ length c.now }
    ensures { IfOk result (λ active. active.items ≡ differentiated (by_place c.now) 1 m) }
{
    let all = places(alloc, m)?;
    keep(alloc, c, &all, 0)
}

/// All stages. All ranks are 0 before.
fn stages(
    alloc: Global,
    inc: &Incidence,
    c: &[u32],
    d: &[u32],
    _pairs: &[u32],
    level: &[u32],
    rank: &mut [usize],
) -> Result<List<Stage>, NoMemory>
    requires sizes { (length c.now ≡ equations inc.now) × (length d.now ≡ inc.now.unknowns) × (length rank.old ≡ suc inc.now.unknowns) }
    requires low { (j : ℕ) → by_number level.now j < levels }
    requires tight { Assigns (IsTight inc.now (by_place c.now) (by_number d.now)) (equations inc.now) (by_place _pairs.now) }
    requires all { CoversAll inc.now (by_place _pairs.now) }
    requires clear { (j : ℕ) → slice_index rank.old j ≡ 0 }
    ensures { IfOk result (AreWhole inc.now (by_place c.now) (by_number d.now) (by_number level.now)) }
{
    let _equations = inc.equations();
    let (mut candidates, mut active) = both(
        numbers(alloc, inc.unknowns()),
        first_active(alloc, c, inc.equations()),
    )?;
    let mut stages = List::new(alloc);
    let mut done = 0;
    'on: while !active.is_empty() {
        let remaining = Remaining {
            c,
            d,
            active: &active,
        };
        next_stage(
            alloc,
            inc,
            &remaining,
            level,
            &mut candidates,
            rank,
            &mut stages,
        )?;
        done += 1;
        active = keep(alloc, c, &active, done)?;
    }
    Ok(stages)
}

/// Chooses the dummy derivatives of a system by the attribute stateSelect of its unknowns, stage after stage, and lists the states that they
/// leave (S. E. Mattsson and G. Söderlind, Index reduction in differential-algebraic equations using dummy derivatives, SIAM J. Sci. Comput.
/// 14, 1993). At each stage the chosen candidates are those that have, in every prefix of the candidates by level and then number, as many
/// members as any to which equations of the stage can be assigned by tight entries. The incidence has to be that of the model, with offsets
/// whose pairs are an assignment of all equations by tight entries; where it has more unknowns than the model, these have level 0.
/// `NoMemory` is the only other answer.
pub fn select(
    alloc: Global,
    m: &FlatModel,
    inc: &Incidence,
    off: &Offsets,
) -> Result<Selection, NoMemory>
    requires lengths { HasSizes inc.now off.now }
    requires tight { HasPairs inc.now off.now }
    requires all { CoversAll inc.now (pairs_of off.now) }
    ensures stages { IfOk result (λ s. AreStages inc.now (c_of off.now) (d_of off.now) (level_of m.now) s.stages) }
    ensures nested { IfOk result (λ s. AreNested s.stages) }
    ensures states { IfOk result (λ s. s.states ≡ states_to (dummies_in off.now s) (d_of off.now) inc.now.unknowns) }
    ensures dummies_count { IfOk result (λ s. length (dummies_in off.now s) ≡ differentiations inc.now off.now) }
    ensures states_count { IfOk result (λ s. HasFreedom inc.now off.now (length s.states)) }
{
    let _equations = inc.equations();
    let level = levels_of(alloc, m.vars.as_slice())?;
    let mut rank = vec![in alloc; 0usize; inc.unknowns() as usize + 1]?;
    let stages = stages(alloc, inc, &off.c, &off.d, &off.pairs, &level, &mut rank)?;
    let states = states(alloc, &off.d, stages.as_slice())?;
    Ok(Selection { stages, states })
}
