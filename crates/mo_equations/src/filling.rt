//! Expressions whose variables are replaced.
ghost use Rattle.std.specs.Prelude.{◌≡◌, IfOk};
ghost use Rattle.mo_flat.specs.declared.expr.FlatExpr.TheVariants as flat;
ghost use Rattle.mo_syntax.specs.Outcome.{and_then};
ghost use Rattle.mo_typing.specs.Outcome.{each};
ghost use Rattle.mo_equations.specs.Replacing.{with_variables};
ghost use Rattle.mo_equations.specs.steps.Filling.{branch_with, built_at, signed_with};

use crate::flat::Flat;
use mo_flat::FlatExpr;
use mo_syntax::{Boxed, List, NoMemory, both};
use std::alloc::Global;

/// A copy of what replaces a variable, which is built.
fn replacing(alloc: Global, replaced: &[Option<Flat>], n: u32) -> Result<FlatExpr, NoMemory>
    ensures { IfOk result (λ made. built_at replaced.now n ≡ Ok made) }
{
    match replaced.get(n.saturating_sub(1) as usize) {
        Some(Some(flat)) => match &flat.built {
            Some(e) => e.copy(alloc),
            None => Err(NoMemory),
        },
        Some(None) => Err(NoMemory),
        None => Err(NoMemory),
    }
}

/// A copy of an expression in which each variable is replaced. `NoMemory` is the only other answer, also where what replaces one
/// is not built.
#[cycle(filling)]
pub(crate) fn filled(
    alloc: Global,
    replaced: &[Option<Flat>],
    e: &FlatExpr,
) -> Result<FlatExpr, NoMemory>
    ensures { IfOk result (λ made. with_variables (built_at replaced.now) e.now ≡ Ok made) }
{
    match e {
        FlatExpr::Whole(n) => Ok(FlatExpr::Whole(*n)),
        FlatExpr::Decimal(text) => Ok(FlatExpr::Decimal(text.copy(alloc)?)),
        FlatExpr::Str(text) => Ok(FlatExpr::Str(text.copy(alloc)?)),
        FlatExpr::Truth(b) => Ok(FlatExpr::Truth(*b)),
        FlatExpr::Literal(text) => Ok(FlatExpr::Literal(text.copy(alloc)?)),
        FlatExpr::Time => Ok(FlatExpr::Time),
        FlatExpr::Var(n, _) => replacing(alloc, replaced, *n),
        FlatExpr::Der(inner) => Ok(FlatExpr::Der(filled_box(alloc, replaced, inner.get())?)),
        FlatExpr::Sum(terms) => Ok(FlatExpr::Sum(filled_signed(
            alloc,
            replaced,
            terms.as_slice(),
        )?)),
        FlatExpr::Product(factors) => Ok(FlatExpr::Product(filled_signed(
            alloc,
            replaced,
            factors.as_slice(),
        )?)),
        FlatExpr::Power(base, exponent) => {
            let (a, b) = filled_boxes(alloc, replaced, base.get(), exponent.get())?;
            Ok(FlatExpr::Power(a, b))
        }
        FlatExpr::Call(function, args) => Ok(FlatExpr::Call(
            *function,
            filled_list(alloc, replaced, args.as_slice())?,
        )),
        FlatExpr::Relation(op, left, right) => {
            let (a, b) = filled_boxes(alloc, replaced, left.get(), right.get())?;
            Ok(FlatExpr::Relation(*op, a, b))
        }
        FlatExpr::Not(inner) => Ok(FlatExpr::Not(filled_box(alloc, replaced, inner.get())?)),
        FlatExpr::All(parts) => Ok(FlatExpr::All(filled_list(alloc, replaced, parts.as_slice())?)),
        FlatExpr::Any(parts) => Ok(FlatExpr::Any(filled_list(alloc, replaced, parts.as_slice())?)),
        FlatExpr::If(branches, other) => {
            filled_choice(alloc, replaced, branches.as_slice(), other.get())
        }
    }
}

#[cycle(filling)]
fn filled_box(
    alloc: Global,
    replaced: &[Option<Flat>],
    e: &FlatExpr,
) -> Result<Boxed<FlatExpr>, NoMemory>
    ensures { IfOk result (λ made. with_variables (built_at replaced.now) e.now ≡ Ok made) }
{
    Boxed::new(alloc, filled(alloc, replaced, e)?)
}

#[cycle(filling)]
fn filled_boxes(
    alloc: Global,
    replaced: &[Option<Flat>],
    a: &FlatExpr,
    b: &FlatExpr,
) -> Result<(Boxed<FlatExpr>, Boxed<FlatExpr>), NoMemory>
    ensures { IfOk result (λ made. (with_variables (built_at replaced.now) a.now ≡ Ok made.0) × (with_variables (built_at replaced.now) b.now ≡ Ok made.1)) }
{
    both(
        filled_box(alloc, replaced, a),
        filled_box(alloc, replaced, b),
    )
}

#[cycle(filling)]
fn filled_term(
    alloc: Global,
    replaced: &[Option<Flat>],
    term: &(bool, FlatExpr),
) -> Result<(bool, FlatExpr), NoMemory>
    ensures { IfOk result (λ made. signed_with (built_at replaced.now) term.now ≡ Ok made) }
{
    Ok((term.0, filled(alloc, replaced, &term.1)?))
}

#[cycle(filling)]
fn filled_signed(
    alloc: Global,
    replaced: &[Option<Flat>],
    terms: &[(bool, FlatExpr)],
) -> Result<List<(bool, FlatExpr)>, NoMemory>
    ensures { IfOk result (λ made. each (signed_with (built_at replaced.now)) terms.now ≡ Ok made) }
{
    let mut made = List::new(alloc);
    for term in terms {
        made.push(filled_term(alloc, replaced, term)?)?;
    }
    Ok(made)
}

#[cycle(filling)]
fn filled_list(
    alloc: Global,
    replaced: &[Option<Flat>],
    parts: &[FlatExpr],
) -> Result<List<FlatExpr>, NoMemory>
    ensures { IfOk result (λ made. each (with_variables (built_at replaced.now)) parts.now ≡ Ok made) }
{
    let mut made = List::new(alloc);
    for part in parts {
        made.push(filled(alloc, replaced, part)?)?;
    }
    Ok(made)
}

#[cycle(filling)]
fn filled_branch(
    alloc: Global,
    replaced: &[Option<Flat>],
    branch: &(FlatExpr, FlatExpr),
) -> Result<(FlatExpr, FlatExpr), NoMemory>
    ensures { IfOk result (λ made. branch_with (built_at replaced.now) branch.now ≡ Ok made) }
{
    both(
        filled(alloc, replaced, &branch.0),
        filled(alloc, replaced, &branch.1),
    )
}

#[cycle(filling)]
fn filled_branches(
    alloc: Global,
    replaced: &[Option<Flat>],
    branches: &[(FlatExpr, FlatExpr)],
) -> Result<List<(FlatExpr, FlatExpr)>, NoMemory>
    ensures { IfOk result (λ made. each (branch_with (built_at replaced.now)) branches.now ≡ Ok made) }
{
    let mut made = List::new(alloc);
    for branch in branches {
        made.push(filled_branch(alloc, replaced, branch)?)?;
    }
    Ok(made)
}

#[cycle(filling)]
fn filled_choice(
    alloc: Global,
    replaced: &[Option<Flat>],
    branches: &[(FlatExpr, FlatExpr)],
    other: &FlatExpr,
) -> Result<FlatExpr, NoMemory>
    ensures { IfOk result (λ made. and_then (each (branch_with (built_at replaced.now)) branches.now) (λ branches. and_then (with_variables (built_at replaced.now) other.now) (λ other. Ok (flat.If branches other))) ≡ Ok made) }
{
    let (made, value) = both(
        filled_branches(alloc, replaced, branches),
        filled_box(alloc, replaced, other),
    )?;
    Ok(FlatExpr::If(made, value))
}
