//! Expressions with their derivatives carried out.
ghost use Rattle.std.specs.Prelude.{◌≡◌, ◌≤◌, ◌↔◌, true, IfOk, map};
ghost use Rattle.mo_flat.specs.declared.expr.FlatExpr.TheVariants.{Der, If, Power, Relation};
ghost use Rattle.mo_symdiff.specs.Carried.{carried};
ghost use Rattle.mo_symdiff.specs.declared.weights.Measure.TheVariants.{Literals, Nodes};
ghost use Rattle.mo_symdiff.specs.Derivative.{derived};
ghost use Rattle.mo_symdiff.specs.Weights.{weigh};

use crate::derive::derived;
use crate::sizes::size_of;
use crate::weights::Measure;
use mo_flat::{FlatExpr, FlatVar};
use mo_syntax::{Boxed, List, NoMemory, RelOp, both, in_box, pushed};
use std::alloc::Global;

/// More nodes than the derivatives of a reduced model within its limits have.
const MOST_NODES: u64 = 14_000_000;

/// More bytes of literals than the lines of a reduced model within its limits have.
const MOST_BYTES: u64 = 896_000_000;

/// Whether the derivative of an expression is small enough to be built.
fn fits(vars: &[FlatVar], e: &FlatExpr) -> bool
    ensures { (result ≡ true) ↔ ((weigh vars.now Nodes (derived vars.now e.now) ≤ 14000000) × (weigh vars.now Literals (derived vars.now e.now) ≤ 896000000)) }
{
    size_of(vars, Measure::Nodes, e).slope <= MOST_NODES
        && size_of(vars, Measure::Literals, e).slope <= MOST_BYTES
}

/// The derivative of an expression, where it is not too large to be built.
pub(crate) fn slope_within(
    alloc: Global,
    vars: &[FlatVar],
    e: &FlatExpr,
) -> Result<FlatExpr, NoMemory>
    ensures { IfOk result (λ made. made ≡ derived vars.now e.now) }
{
    if !fits(vars, e) {
        return Err(NoMemory);
    }
    derived(alloc, vars, e)
}

/// The derivative of an expression after the derivatives in it are carried out.
pub(crate) fn carried_slope(
    alloc: Global,
    vars: &[FlatVar],
    e: &FlatExpr,
) -> Result<FlatExpr, NoMemory>
    ensures { IfOk result (λ made. made ≡ derived vars.now (carried vars.now e.now)) }
{
    let e = carried(alloc, vars, e)?;
    slope_within(alloc, vars, &e)
}

/// An expression with each derivative in it carried out, the innermost first. `NoMemory` is the only other answer.
#[cycle(carried)]
pub(crate) fn carried(alloc: Global, vars: &[FlatVar], e: &FlatExpr) -> Result<FlatExpr, NoMemory>
    ensures { IfOk result (λ made. made ≡ carried vars.now e.now) }
{
    match e {
        FlatExpr::Whole(_) => e.copy(alloc),
        FlatExpr::Decimal(_) => e.copy(alloc),
        FlatExpr::Str(_) => e.copy(alloc),
        FlatExpr::Truth(_) => e.copy(alloc),
        FlatExpr::Literal(_) => e.copy(alloc),
        FlatExpr::Time => e.copy(alloc),
        FlatExpr::Var(_, _) => e.copy(alloc),
        FlatExpr::Der(inner) => carried_der(alloc, vars, inner.get()),
        FlatExpr::Sum(terms) => Ok(FlatExpr::Sum(carried_signed(alloc, vars, terms.as_slice())?)),
        FlatExpr::Product(factors) => {
            Ok(FlatExpr::Product(carried_signed(alloc, vars, factors.as_slice())?))
        }
        FlatExpr::Power(base, exponent) => {
            carried_power(alloc, vars, base.get(), exponent.get())
        }
        FlatExpr::Call(function, args) => {
            Ok(FlatExpr::Call(*function, carried_list(alloc, vars, args.as_slice())?))
        }
        FlatExpr::Relation(op, left, right) => {
            carried_relation(alloc, vars, *op, left.get(), right.get())
        }
        FlatExpr::Not(inner) => Ok(FlatExpr::Not(carried_box(alloc, vars, inner.get())?)),
        FlatExpr::All(parts) => Ok(FlatExpr::All(carried_list(alloc, vars, parts.as_slice())?)),
        FlatExpr::Any(parts) => Ok(FlatExpr::Any(carried_list(alloc, vars, parts.as_slice())?)),
        FlatExpr::If(branches, other) => {
            carried_choice(alloc, vars, branches.as_slice(), other.get())
        }
    }
}

#[cycle(carried)]
fn carried_box(alloc: Global, vars: &[FlatVar], e: &FlatExpr) -> Result<Boxed<FlatExpr>, NoMemory>
    ensures { IfOk result (λ made. made ≡ carried vars.now e.now) }
{
    in_box(alloc, carried(alloc, vars, e))
}

#[cycle(carried)]
fn carried_boxes(
    alloc: Global,
    vars: &[FlatVar],
    left: &FlatExpr,
    right: &FlatExpr,
) -> Result<(Boxed<FlatExpr>, Boxed<FlatExpr>), NoMemory>
    ensures { IfOk result (λ made. (made.0 ≡ carried vars.now left.now) × (made.1 ≡ carried vars.now right.now)) }
{
    both(
        carried_box(alloc, vars, left),
        carried_box(alloc, vars, right),
    )
}

#[cycle(carried)]
fn carried_der(alloc: Global, vars: &[FlatVar], inner: &FlatExpr) -> Result<FlatExpr, NoMemory>
    ensures { IfOk result (λ made. made ≡ carried vars.now (Der inner.now)) }
{
    let inner = carried(alloc, vars, inner)?;
    slope_within(alloc, vars, &inner)
}

#[cycle(carried)]
fn carried_power(
    alloc: Global,
    vars: &[FlatVar],
    base: &FlatExpr,
    exponent: &FlatExpr,
) -> Result<FlatExpr, NoMemory>
    ensures { IfOk result (λ made. made ≡ carried vars.now (Power base.now exponent.now)) }
{
    let (base, exponent) = carried_boxes(alloc, vars, base, exponent)?;
    Ok(FlatExpr::Power(base, exponent))
}

#[cycle(carried)]
fn carried_relation(
    alloc: Global,
    vars: &[FlatVar],
    op: RelOp,
    left: &FlatExpr,
    right: &FlatExpr,
) -> Result<FlatExpr, NoMemory>
    ensures { IfOk result (λ made. made ≡ carried vars.now (Relation op left.now right.now)) }
{
    let (left, right) = carried_boxes(alloc, vars, left, right)?;
    Ok(FlatExpr::Relation(op, left, right))
}

#[cycle(carried)]
fn carried_choice(
    alloc: Global,
    vars: &[FlatVar],
    branches: &[(FlatExpr, FlatExpr)],
    other: &FlatExpr,
) -> Result<FlatExpr, NoMemory>
    ensures { IfOk result (λ made. made ≡ carried vars.now (If branches.now other.now)) }
{
    let branches = carried_branches(alloc, vars, branches);
    let (branches, other) = both(branches, carried_box(alloc, vars, other))?;
    Ok(FlatExpr::If(branches, other))
}

#[cycle(carried)]
fn carried_signed(
    alloc: Global,
    vars: &[FlatVar],
    terms: &[(bool, FlatExpr)],
) -> Result<List<(bool, FlatExpr)>, NoMemory>
    ensures { IfOk result (λ made. made ≡ map (λ term. (term.0, carried vars.now term.1)) terms.now) }
{
    let mut made = List::new(alloc);
    for term in terms {
        pushed(&mut made, both(Ok(term.0), carried(alloc, vars, &term.1)))?;
    }
    Ok(made)
}

#[cycle(carried)]
fn carried_list(
    alloc: Global,
    vars: &[FlatVar],
    parts: &[FlatExpr],
) -> Result<List<FlatExpr>, NoMemory>
    ensures { IfOk result (λ made. made ≡ map (carried vars.now) parts.now) }
{
    let mut made = List::new(alloc);
    for part in parts {
        pushed(&mut made, carried(alloc, vars, part))?;
    }
    Ok(made)
}

#[cycle(carried)]
fn carried_branches(
    alloc: Global,
    vars: &[FlatVar],
    branches: &[(FlatExpr, FlatExpr)],
) -> Result<List<(FlatExpr, FlatExpr)>, NoMemory>
    ensures { IfOk result (λ made. made ≡ map (λ branch. (carried vars.now branch.0, carried vars.now branch.1)) branches.now) }
{
    let mut made = List::new(alloc);
    for branch in branches {
        let condition = carried(alloc, vars, &branch.0);
        pushed(&mut made, both(condition, carried(alloc, vars, &branch.1)))?;
    }
    Ok(made)
}
