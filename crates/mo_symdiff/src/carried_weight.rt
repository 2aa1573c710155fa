//! How much an expression weighs once its derivatives are carried out, found without carrying out those that stand under no other.
ghost use Rattle.std.specs.Prelude.{◌≡◌, ◌+◌, IfOk, sum_by};
ghost use Rattle.mo_flat.specs.declared.expr.FlatExpr.TheVariants.{Der};
ghost use Rattle.mo_symdiff.specs.Carried.{carried};
ghost use Rattle.mo_symdiff.specs.Weights.{capped, node_weight, weigh};

use crate::carry::carried;
use crate::sizes::size_of;
use crate::weights::{Measure, add, name_weight, node_weight, text_weight};
use mo_flat::{FlatExpr, FlatVar};
use mo_syntax::NoMemory;
use std::alloc::Global;

/// The weight of an expression once its derivatives are carried out. `NoMemory` is the only other answer.
#[cycle(carried_weight)]
pub(crate) fn carried_weight(
    alloc: Global,
    vars: &[FlatVar],
    measure: Measure,
    e: &FlatExpr,
) -> Result<u64, NoMemory>
    ensures { IfOk result (λ weight. weight ≡ capped (weigh vars.now measure (carried vars.now e.now))) }
{
    match e {
        FlatExpr::Whole(_) => Ok(node_weight(measure)),
        FlatExpr::Decimal(text) => Ok(text_weight(measure, text)),
        FlatExpr::Str(text) => Ok(text_weight(measure, text)),
        FlatExpr::Truth(_) => Ok(node_weight(measure)),
        FlatExpr::Literal(text) => Ok(text_weight(measure, text)),
        FlatExpr::Time => Ok(node_weight(measure)),
        FlatExpr::Var(variable, order) => Ok(name_weight(vars, measure, *variable, *order)),
        FlatExpr::Der(inner) => der_weight(alloc, vars, measure, inner.get()),
        FlatExpr::Sum(terms) => signed_weight(alloc, vars, measure, terms.as_slice()),
        FlatExpr::Product(factors) => signed_weight(alloc, vars, measure, factors.as_slice()),
        FlatExpr::Power(base, exponent) => {
            pair_weight(alloc, vars, measure, base.get(), exponent.get())
        }
        FlatExpr::Call(_, args) => list_weight(alloc, vars, measure, args.as_slice()),
        FlatExpr::Relation(_, left, right) => {
            pair_weight(alloc, vars, measure, left.get(), right.get())
        }
        FlatExpr::Not(inner) => inner_weight(alloc, vars, measure, inner.get()),
        FlatExpr::All(parts) => list_weight(alloc, vars, measure, parts.as_slice()),
        FlatExpr::Any(parts) => list_weight(alloc, vars, measure, parts.as_slice()),
        FlatExpr::If(branches, other) => {
            choice_weight(alloc, vars, measure, branches.as_slice(), other.get())
        }
    }
}

/// The derivative of what is carried out.
fn der_weight(
    alloc: Global,
    vars: &[FlatVar],
    measure: Measure,
    inner: &FlatExpr,
) -> Result<u64, NoMemory>
    ensures { IfOk result (λ weight. weight ≡ capped (weigh vars.now measure (carried vars.now (Der inner.now)))) }
{
    let inner = carried(alloc, vars, inner)?;
    Ok(size_of(vars, measure, &inner).slope)
}

/// A node around one part.
#[cycle(carried_weight)]
fn inner_weight(
    alloc: Global,
    vars: &[FlatVar],
    measure: Measure,
    inner: &FlatExpr,
) -> Result<u64, NoMemory>
    ensures { IfOk result (λ weight. weight ≡ capped (node_weight measure + weigh vars.now measure (carried vars.now inner.now))) }
{
    let inner = carried_weight(alloc, vars, measure, inner)?;
    Ok(add(node_weight(measure), inner))
}

/// A node around two parts.
#[cycle(carried_weight)]
fn pair_weight(
    alloc: Global,
    vars: &[FlatVar],
    measure: Measure,
    left: &FlatExpr,
    right: &FlatExpr,
) -> Result<u64, NoMemory>
    ensures { IfOk result (λ weight. weight ≡ capped (node_weight measure + (weigh vars.now measure (carried vars.now left.now) + weigh vars.now measure (carried vars.now right.now)))) }
{
    let left = carried_weight(alloc, vars, measure, left)?;
    let right = carried_weight(alloc, vars, measure, right)?;
    Ok(add(node_weight(measure), add(left, right)))
}

/// A node around these parts.
#[cycle(carried_weight)]
fn list_weight(
    alloc: Global,
    vars: &[FlatVar],
    measure: Measure,
    parts: &[FlatExpr],
) -> Result<u64, NoMemory>
    ensures { IfOk result (λ weight. weight ≡ capped (node_weight measure + sum_by (λ part. weigh vars.now measure (carried vars.now part)) parts.now)) }
{
    let mut all = node_weight(measure);
    for part in parts {
        let one = carried_weight(alloc, vars, measure, part)?;
        all = add(all, one);
    }
    Ok(all)
}

/// A node around these terms or factors.
#[cycle(carried_weight)]
fn signed_weight(
    alloc: Global,
    vars: &[FlatVar],
    measure: Measure,
    terms: &[(bool, FlatExpr)],
) -> Result<u64, NoMemory>
    ensures { IfOk result (λ weight. weight ≡ capped (node_weight measure + sum_by (λ term. weigh vars.now measure (carried vars.now term.1)) terms.now)) }
{
    let mut all = node_weight(measure);
    for term in terms {
        let one = carried_weight(alloc, vars, measure, &term.1)?;
        all = add(all, one);
    }
    Ok(all)
}

/// A node around these branches.
#[cycle(carried_weight)]
fn branches_weight(
    alloc: Global,
    vars: &[FlatVar],
    measure: Measure,
    branches: &[(FlatExpr, FlatExpr)],
) -> Result<u64, NoMemory>
    ensures { IfOk result (λ weight. weight ≡ capped (node_weight measure + sum_by (λ branch. weigh vars.now measure (carried vars.now branch.0) + weigh vars.now measure (carried vars.now branch.1)) branches.now)) }
{
    let mut all = node_weight(measure);
    for branch in branches {
        let condition = carried_weight(alloc, vars, measure, &branch.0)?;
        let value = carried_weight(alloc, vars, measure, &branch.1)?;
        all = add(all, add(condition, value));
    }
    Ok(all)
}

/// A node around these branches and the value where no condition holds.
#[cycle(carried_weight)]
fn choice_weight(
    alloc: Global,
    vars: &[FlatVar],
    measure: Measure,
    branches: &[(FlatExpr, FlatExpr)],
    other: &FlatExpr,
) -> Result<u64, NoMemory>
    ensures { IfOk result (λ weight. weight ≡ capped ((node_weight measure + sum_by (λ branch. weigh vars.now measure (carried vars.now branch.0) + weigh vars.now measure (carried vars.now branch.1)) branches.now) + weigh vars.now measure (carried vars.now other.now))) }
{
    let branches = branches_weight(alloc, vars, measure, branches)?;
    let other = carried_weight(alloc, vars, measure, other)?;
    Ok(add(branches, other))
}
