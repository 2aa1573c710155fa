//! The trees that the rows of the table of derivatives are made of.
ghost use Rattle.std.specs.Prelude.{◌≡◌, ◌<◌, ◌++◌, length, [], ◌∷◌, true, false, IfOk, OnOk};
ghost use Rattle.mo_flat.specs.declared.expr.FlatExpr.{FlatExpr};
ghost use Rattle.mo_flat.specs.declared.expr.FlatExpr.TheVariants.{If, Relation, Sum};
ghost use Rattle.mo_symdiff.specs.Derivative.{applied, chosen, minus, negated, over, plus, raised, squared, sum_of, times};

use mo_flat::FlatExpr;
use mo_syntax::{Boxed, List, NoMemory, RelOp, both, pair, pushed, single, triple};
use std::alloc::Global;

/// `a*b`
pub(crate) fn product(alloc: Global, a: FlatExpr, b: FlatExpr) -> Result<FlatExpr, NoMemory>
    ensures { IfOk result (λ made. made ≡ times (a ∷ b ∷ [])) }
{
    Ok(FlatExpr::Product(pair(alloc, (false, a), (false, b))?))
}

/// `a*b*c`
pub(crate) fn product_of_three(
    alloc: Global,
    a: FlatExpr,
    b: FlatExpr,
    c: FlatExpr,
) -> Result<FlatExpr, NoMemory>
    ensures { IfOk result (λ made. made ≡ times (a ∷ b ∷ c ∷ [])) }
{
    Ok(FlatExpr::Product(triple(alloc, (false, a), (false, b), (false, c))?))
}

/// `a/b`
pub(crate) fn quotient(alloc: Global, a: FlatExpr, b: FlatExpr) -> Result<FlatExpr, NoMemory>
    ensures { IfOk result (λ made. made ≡ over a b) }
{
    Ok(FlatExpr::Product(pair(alloc, (false, a), (true, b))?))
}

/// `a^b`
pub(crate) fn power(alloc: Global, a: FlatExpr, b: FlatExpr) -> Result<FlatExpr, NoMemory>
    ensures { IfOk result (λ made. made ≡ raised a b) }
{
    let (base, exponent) = both(Boxed::new(alloc, a), Boxed::new(alloc, b))?;
    Ok(FlatExpr::Power(base, exponent))
}

/// `a^2`
pub(crate) fn square(alloc: Global, a: FlatExpr) -> Result<FlatExpr, NoMemory>
    ensures { IfOk result (λ made. made ≡ squared a) }
{
    power(alloc, a, FlatExpr::Whole(2))
}

/// `a + b`
pub(crate) fn sum(alloc: Global, a: FlatExpr, b: FlatExpr) -> Result<FlatExpr, NoMemory>
    ensures { IfOk result (λ made. made ≡ plus a b) }
{
    Ok(FlatExpr::Sum(pair(alloc, (false, a), (false, b))?))
}

/// `a - b`
pub(crate) fn difference(alloc: Global, a: FlatExpr, b: FlatExpr) -> Result<FlatExpr, NoMemory>
    ensures { IfOk result (λ made. made ≡ minus a b) }
{
    Ok(FlatExpr::Sum(pair(alloc, (false, a), (true, b))?))
}

/// `-a`
pub(crate) fn negation(alloc: Global, a: FlatExpr) -> Result<FlatExpr, NoMemory>
    ensures { IfOk result (λ made. made ≡ negated a) }
{
    Ok(FlatExpr::Sum(single(alloc, (true, a))?))
}

/// A function of one argument.
pub(crate) fn call(alloc: Global, function: u16, a: FlatExpr) -> Result<FlatExpr, NoMemory>
    ensures { IfOk result (λ made. made ≡ applied function a) }
{
    Ok(FlatExpr::Call(function, single(alloc, a)?))
}

/// `a op b`
fn relation(alloc: Global, op: RelOp, a: FlatExpr, b: FlatExpr) -> Result<FlatExpr, NoMemory>
    ensures { IfOk result (λ made. made ≡ Relation op a b) }
{
    let (left, right) = both(Boxed::new(alloc, a), Boxed::new(alloc, b))?;
    Ok(FlatExpr::Relation(op, left, right))
}

/// The branch `a op b then u`
fn branch(
    alloc: Global,
    op: RelOp,
    a: FlatExpr,
    b: FlatExpr,
    u: FlatExpr,
) -> Result<List<(FlatExpr, FlatExpr)>, NoMemory>
    ensures { IfOk result (λ made. made ≡ (Relation op a b, u) ∷ []) }
{
    let (condition, value) = both(relation(alloc, op, a, b), Ok(u))?;
    single(alloc, (condition, value))
}

/// `if a op b then u else v`
pub(crate) fn choice(
    alloc: Global,
    op: RelOp,
    a: FlatExpr,
    b: FlatExpr,
    u: FlatExpr,
    v: FlatExpr,
) -> Result<FlatExpr, NoMemory>
    ensures { IfOk result (λ made. made ≡ chosen op a b u v) }
{
    let (branches, other) = both(branch(alloc, op, a, b, u), Boxed::new(alloc, v))?;
    Ok(FlatExpr::If(branches, other))
}

/// An if-expression with these branches.
pub(crate) fn choice_of(
    alloc: Global,
    branches: List<(FlatExpr, FlatExpr)>,
    other: FlatExpr,
) -> Result<FlatExpr, NoMemory>
    ensures { IfOk result (λ made. made ≡ If branches other) }
{
    let (branches, other) = both(Ok(branches), Boxed::new(alloc, other))?;
    Ok(FlatExpr::If(branches, other))
}

/// Whether there is one term, which is not subtracted.
fn is_one_positive(terms: &[(bool, FlatExpr)]) -> bool
    ensures yes { result ≡ true → (only : FlatExpr) × (terms.now ≡ (false, only) ∷ []) }
    ensures other { result ≡ false → sum_of terms.now ≡ Sum terms.now }
{
    match terms {
        [(false, _)] => true,
        _ => false,
    }
}

/// Takes off the last element.
pub(crate) fn last_of<T: Drop>(items: &mut List<T>) -> T
    requires { 0 < length items.old }
    ensures { items.old ≡ items.new ++ result ∷ [] }
{
    match items.pop() {
        Some(last) => last,
        None => unreachable!(),
    }
}

/// The sum of these terms; one positive term stands alone.
pub(crate) fn chain(terms: List<(bool, FlatExpr)>) -> FlatExpr
    ensures { result ≡ sum_of terms }
{
    let mut terms = terms;
    if is_one_positive(terms.as_slice()) {
        let (_, only) = last_of(&mut terms);
        return only;
    }
    FlatExpr::Sum(terms)
}

/// Puts copies of factors at the end.
pub(crate) fn copy_factors(
    alloc: Global,
    made: &mut List<(bool, FlatExpr)>,
    factors: &[(bool, FlatExpr)],
) -> Result<(), NoMemory>
    ensures { OnOk result (made.new ≡ made.old ++ factors.now) }
{
    for factor in factors {
        pushed(made, both(Ok(factor.0), factor.1.copy(alloc)))?;
    }
    Ok(())
}
