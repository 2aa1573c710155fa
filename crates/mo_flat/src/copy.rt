//! Copies of flat expressions and of what holds them.
ghost use Rattle.std.specs.Prelude.{◌≡◌, IfOk};
ghost use Rattle.mo_flat.specs.declared.expr.FlatExpr.TheVariants.{If};

use crate::{FlatAssert, FlatEquation, FlatExpr};
use mo_syntax::{Boxed, List, NoMemory, both};
use std::alloc::Global;

impl FlatExpr {
    /// A copy. `NoMemory` is the only other answer.
    pub fn copy(&self, alloc: Global) -> Result<FlatExpr, NoMemory>
        ensures { IfOk result (λ copy. copy ≡ self.now) }
    {
        copied(alloc, self)
    }
}

impl FlatEquation {
    /// A copy. `NoMemory` is the only other answer.
    pub fn copy(&self, alloc: Global) -> Result<FlatEquation, NoMemory>
        ensures { IfOk result (λ copy. copy ≡ self.now) }
    {
        let (left, right) = both(copied(alloc, &self.left), copied(alloc, &self.right))?;
        Ok(FlatEquation {
            left,
            right,
            place: self.place,
        })
    }
}

impl FlatAssert {
    /// A copy. `NoMemory` is the only other answer.
    pub fn copy(&self, alloc: Global) -> Result<FlatAssert, NoMemory>
        ensures { IfOk result (λ copy. copy ≡ self.now) }
    {
        let level = copied_level(alloc, &self.level);
        let sides = both(copied(alloc, &self.condition), copied(alloc, &self.message));
        let ((condition, message), level) = both(sides, level)?;
        Ok(FlatAssert {
            condition,
            message,
            level,
        })
    }
}

fn copied_level(alloc: Global, level: &Option<FlatExpr>) -> Result<Option<FlatExpr>, NoMemory>
    ensures { IfOk result (λ copy. copy ≡ level.now) }
{
    match level {
        None => Ok(None),
        Some(e) => Ok(Some(copied(alloc, e)?)),
    }
}

#[cycle(copied)]
fn copied(alloc: Global, e: &FlatExpr) -> Result<FlatExpr, NoMemory>
    ensures { IfOk result (λ copy. copy ≡ e.now) }
{
    match e {
        FlatExpr::Whole(n) => Ok(FlatExpr::Whole(*n)),
        FlatExpr::Decimal(text) => Ok(FlatExpr::Decimal(text.copy(alloc)?)),
        FlatExpr::Str(text) => Ok(FlatExpr::Str(text.copy(alloc)?)),
        FlatExpr::Truth(b) => Ok(FlatExpr::Truth(*b)),
        FlatExpr::Literal(text) => Ok(FlatExpr::Literal(text.copy(alloc)?)),
        FlatExpr::Time => Ok(FlatExpr::Time),
        FlatExpr::Var(variable, order) => Ok(FlatExpr::Var(*variable, *order)),
        FlatExpr::Der(inner) => Ok(FlatExpr::Der(copied_box(alloc, inner.get())?)),
        FlatExpr::Sum(terms) => Ok(FlatExpr::Sum(copied_signed(alloc, terms.as_slice())?)),
        FlatExpr::Product(factors) => {
            Ok(FlatExpr::Product(copied_signed(alloc, factors.as_slice())?))
        }
        FlatExpr::Power(base, exponent) => {
            let (a, b) = copied_boxes(alloc, base.get(), exponent.get())?;
            Ok(FlatExpr::Power(a, b))
        }
        FlatExpr::Call(function, args) => {
            Ok(FlatExpr::Call(*function, copied_list(alloc, args.as_slice())?))
        }
        FlatExpr::Relation(op, left, right) => {
            let (a, b) = copied_boxes(alloc, left.get(), right.get())?;
            Ok(FlatExpr::Relation(*op, a, b))
        }
        FlatExpr::Not(inner) => Ok(FlatExpr::Not(copied_box(alloc, inner.get())?)),
        FlatExpr::All(parts) => Ok(FlatExpr::All(copied_list(alloc, parts.as_slice())?)),
        FlatExpr::Any(parts) => Ok(FlatExpr::Any(copied_list(alloc, parts.as_slice())?)),
        FlatExpr::If(branches, other) => copied_choice(alloc, branches.as_slice(), other.get()),
    }
}

#[cycle(copied)]
fn copied_box(alloc: Global, e: &FlatExpr) -> Result<Boxed<FlatExpr>, NoMemory>
    ensures { IfOk result (λ copy. copy ≡ e.now) }
{
    Boxed::new(alloc, copied(alloc, e)?)
}

#[cycle(copied)]
fn copied_boxes(
    alloc: Global,
    a: &FlatExpr,
    b: &FlatExpr,
) -> Result<(Boxed<FlatExpr>, Boxed<FlatExpr>), NoMemory>
    ensures { IfOk result (λ copies. (copies.0 ≡ a.now) × (copies.1 ≡ b.now)) }
{
    both(copied_box(alloc, a), copied_box(alloc, b))
}

#[cycle(copied)]
fn copied_choice(
    alloc: Global,
    branches: &[(FlatExpr, FlatExpr)],
    other: &FlatExpr,
) -> Result<FlatExpr, NoMemory>
    ensures { IfOk result (λ copy. copy ≡ If branches.now other.now) }
{
    let (made, value) = both(copied_branches(alloc, branches), copied_box(alloc, other))?;
    Ok(FlatExpr::If(made, value))
}

#[cycle(copied)]
fn copied_signed(
    alloc: Global,
    terms: &[(bool, FlatExpr)],
) -> Result<List<(bool, FlatExpr)>, NoMemory>
    ensures { IfOk result (λ copy. copy ≡ terms.now) }
{
    let mut made = List::new(alloc);
    for term in terms {
        made.push((term.0, copied(alloc, &term.1)?))?;
    }
    Ok(made)
}

#[cycle(copied)]
fn copied_list(alloc: Global, parts: &[FlatExpr]) -> Result<List<FlatExpr>, NoMemory>
    ensures { IfOk result (λ copy. copy ≡ parts.now) }
{
    let mut made = List::new(alloc);
    for part in parts {
        made.push(copied(alloc, part)?)?;
    }
    Ok(made)
}

#[cycle(copied)]
fn copied_branches(
    alloc: Global,
    branches: &[(FlatExpr, FlatExpr)],
) -> Result<List<(FlatExpr, FlatExpr)>, NoMemory>
    ensures { IfOk result (λ copy. copy ≡ branches.now) }
{
    let mut made = List::new(alloc);
    for branch in branches {
        made.push(both(copied(alloc, &branch.0), copied(alloc, &branch.1))?)?;
    }
    Ok(made)
}
