//! The variables of an expression, and what it weighs where each of them has a weight.
ghost use Rattle.std.specs.Prelude.{◌≡◌, ◌+◌, ◌++◌, flat_map, sum_by, IfOk, OnOk};
ghost use Rattle.mo_equations.specs.steps.Counting.{variables_in, weight as weight_by, weight_at};
ghost use Rattle.mo_equations.specs.steps.Flats.{capped};

use crate::flat::Flat;
use mo_flat::FlatExpr;
use mo_syntax::{List, NoMemory};
use std::alloc::Global;

/// The numbers of the variables of an expression from left to right, each as often as it stands there.
pub(crate) fn variables_of(alloc: Global, e: &FlatExpr) -> Result<List<u32>, NoMemory>
    ensures { IfOk result (λ numbers. numbers ≡ variables_in e.now) }
{
    let mut numbers = List::new(alloc);
    put(&mut numbers, e)?;
    Ok(numbers)
}

/// Puts the numbers of an expression's variables at the end.
#[cycle(variables)]
fn put(numbers: &mut List<u32>, e: &FlatExpr) -> Result<(), NoMemory>
    ensures { OnOk result (numbers.new ≡ numbers.old ++ variables_in e.now) }
{
    match e {
        FlatExpr::Whole(_) | FlatExpr::Decimal(_) | FlatExpr::Str(_) => Ok(()),
        FlatExpr::Truth(_) | FlatExpr::Literal(_) | FlatExpr::Time => Ok(()),
        FlatExpr::Var(n, _) => numbers.push(*n),
        FlatExpr::Der(inner) => put(numbers, inner.get()),
        FlatExpr::Sum(terms) => put_signed(numbers, terms.as_slice()),
        FlatExpr::Product(factors) => put_signed(numbers, factors.as_slice()),
        FlatExpr::Power(base, exponent) => put_two(numbers, base.get(), exponent.get()),
        FlatExpr::Call(_, args) => put_list(numbers, args.as_slice()),
        FlatExpr::Relation(_, left, right) => put_two(numbers, left.get(), right.get()),
        FlatExpr::Not(inner) => put(numbers, inner.get()),
        FlatExpr::All(parts) => put_list(numbers, parts.as_slice()),
        FlatExpr::Any(parts) => put_list(numbers, parts.as_slice()),
        FlatExpr::If(branches, other) => put_choice(numbers, branches.as_slice(), other.get()),
    }
}

#[cycle(variables)]
fn put_two(numbers: &mut List<u32>, a: &FlatExpr, b: &FlatExpr) -> Result<(), NoMemory>
    ensures { OnOk result (numbers.new ≡ numbers.old ++ (variables_in a.now ++ variables_in b.now)) }
{
    put(numbers, a)?;
    put(numbers, b)
}

#[cycle(variables)]
fn put_signed(numbers: &mut List<u32>, terms: &[(bool, FlatExpr)]) -> Result<(), NoMemory>
    ensures { OnOk result (numbers.new ≡ numbers.old ++ flat_map (λ term. variables_in term.1) terms.now) }
{
    for term in terms {
        put(numbers, &term.1)?;
    }
    Ok(())
}

#[cycle(variables)]
fn put_list(numbers: &mut List<u32>, parts: &[FlatExpr]) -> Result<(), NoMemory>
    ensures { OnOk result (numbers.new ≡ numbers.old ++ flat_map variables_in parts.now) }
{
    for part in parts {
        put(numbers, part)?;
    }
    Ok(())
}

#[cycle(variables)]
fn put_branches(numbers: &mut List<u32>, branches: &[(FlatExpr, FlatExpr)]) -> Result<(), NoMemory>
    ensures { OnOk result (numbers.new ≡ numbers.old ++ flat_map (λ branch. variables_in branch.0 ++ variables_in branch.1) branches.now) }
{
    for branch in branches {
        put_two(numbers, &branch.0, &branch.1)?;
    }
    Ok(())
}

#[cycle(variables)]
fn put_choice(
    numbers: &mut List<u32>,
    branches: &[(FlatExpr, FlatExpr)],
    other: &FlatExpr,
) -> Result<(), NoMemory>
    ensures { OnOk result (numbers.new ≡ numbers.old ++ (flat_map (λ branch. variables_in branch.0 ++ variables_in branch.1) branches.now ++ variables_in other.now)) }
{
    put_branches(numbers, branches)?;
    put(numbers, other)
}

/// What a variable weighs: the nodes of what replaces it, nothing where nothing does.
fn weight_of(replaced: &[Option<Flat>], n: u32) -> u64
    ensures { result ≡ weight_at replaced.now n }
{
    match replaced.get(n.saturating_sub(1) as usize) {
        Some(Some(flat)) => flat.nodes,
        Some(None) => 0,
        None => 0,
    }
}

/// How many nodes an expression has once its variables are replaced, the greatest `u64` where that passes 64 bits.
#[cycle(weighing)]
pub(crate) fn weight(replaced: &[Option<Flat>], e: &FlatExpr) -> u64
    ensures { result ≡ capped (weight_by (weight_at replaced.now) e.now) }
{
    match e {
        FlatExpr::Whole(_) | FlatExpr::Decimal(_) | FlatExpr::Str(_) => 1,
        FlatExpr::Truth(_) | FlatExpr::Literal(_) | FlatExpr::Time => 1,
        FlatExpr::Var(n, _) => weight_of(replaced, *n),
        FlatExpr::Der(inner) => weight(replaced, inner.get()).saturating_add(1),
        FlatExpr::Sum(terms) => weight_signed(replaced, terms.as_slice()).saturating_add(1),
        FlatExpr::Product(factors) => weight_signed(replaced, factors.as_slice()).saturating_add(1),
        FlatExpr::Power(base, exponent) => weight(replaced, base.get())
            .saturating_add(weight(replaced, exponent.get()))
            .saturating_add(1),
        FlatExpr::Call(_, args) => weight_list(replaced, args.as_slice()).saturating_add(1),
        FlatExpr::Relation(_, left, right) => weight(replaced, left.get())
            .saturating_add(weight(replaced, right.get()))
            .saturating_add(1),
        FlatExpr::Not(inner) => weight(replaced, inner.get()).saturating_add(1),
        FlatExpr::All(parts) => weight_list(replaced, parts.as_slice()).saturating_add(1),
        FlatExpr::Any(parts) => weight_list(replaced, parts.as_slice()).saturating_add(1),
        FlatExpr::If(branches, other) => weight_branches(replaced, branches.as_slice())
            .saturating_add(weight(replaced, other.get()))
            .saturating_add(1),
    }
}

#[cycle(weighing)]
fn weight_signed(replaced: &[Option<Flat>], terms: &[(bool, FlatExpr)]) -> u64
    ensures { result ≡ capped (sum_by (λ term. weight_by (weight_at replaced.now) term.1) terms.now) }
{
    let mut all: u64 = 0;
    for term in terms {
        all = all.saturating_add(weight(replaced, &term.1));
    }
    all
}

#[cycle(weighing)]
fn weight_list(replaced: &[Option<Flat>], parts: &[FlatExpr]) -> u64
    ensures { result ≡ capped (sum_by (weight_by (weight_at replaced.now)) parts.now) }
{
    let mut all: u64 = 0;
    for part in parts {
        all = all.saturating_add(weight(replaced, part));
    }
    all
}

#[cycle(weighing)]
fn weight_branches(replaced: &[Option<Flat>], branches: &[(FlatExpr, FlatExpr)]) -> u64
    ensures { result ≡ capped (sum_by (λ branch. weight_by (weight_at replaced.now) branch.0 + weight_by (weight_at replaced.now) branch.1) branches.now) }
{
    let mut all: u64 = 0;
    for branch in branches {
        all = all
            .saturating_add(weight(replaced, &branch.0))
            .saturating_add(weight(replaced, &branch.1));
    }
    all
}
