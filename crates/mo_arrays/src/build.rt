//! Scalar expressions built of others.
ghost use Rattle.std.specs.Prelude.{◌≡◌, ◌≢◌, ◌<◌, ◌++◌, ◌∷◌, [], length, true, false, IfOk};
ghost use Rattle.mo_flat.specs.declared.expr.FlatExpr.{FlatExpr};
ghost use Rattle.mo_flat.specs.declared.expr.FlatExpr.TheVariants.{Product, Sum};
ghost use Rattle.mo_arrays.specs.Elements.{sum_of, product_of, plain};

use mo_flat::FlatExpr;
use mo_syntax::{List, NoMemory, pair};
use std::alloc::Global;

/// Whether there is one term or factor, which is not subtracted or divided by.
fn is_one_plain(terms: &[(bool, FlatExpr)]) -> bool
    ensures yes { result ≡ true → (only : FlatExpr) × (terms.now ≡ (false, only) ∷ []) }
    ensures sum { result ≡ false → terms.now ≢ [] → sum_of terms.now ≡ Sum terms.now }
    ensures product { result ≡ false → terms.now ≢ [] → product_of terms.now ≡ Product terms.now }
{
    match terms {
        [(false, _)] => true,
        _ => false,
    }
}

/// Takes off the last element.
fn last_of<T: Drop>(items: &mut List<T>) -> T
    requires { 0 < length items.old }
    ensures { items.old ≡ items.new ++ result ∷ [] }
{
    match items.pop() {
        Some(last) => last,
        None => unreachable!(),
    }
}

/// The sum of these terms: no terms are 0, one positive term stands alone.
pub(crate) fn sum_of(terms: List<(bool, FlatExpr)>) -> FlatExpr
    ensures { result ≡ sum_of terms }
{
    let mut terms = terms;
    if terms.is_empty() {
        return FlatExpr::Whole(0);
    }
    if is_one_plain(terms.as_slice()) {
        let (_, only) = last_of(&mut terms);
        return only;
    }
    FlatExpr::Sum(terms)
}

/// The product of these factors: no factors are 1, one multiplied factor stands alone.
pub(crate) fn product_of(factors: List<(bool, FlatExpr)>) -> FlatExpr
    ensures { result ≡ product_of factors }
{
    let mut factors = factors;
    if factors.is_empty() {
        return FlatExpr::Whole(1);
    }
    if is_one_plain(factors.as_slice()) {
        let (_, only) = last_of(&mut factors);
        return only;
    }
    FlatExpr::Product(factors)
}

/// `a*b`
pub(crate) fn product(alloc: Global, a: FlatExpr, b: FlatExpr) -> Result<FlatExpr, NoMemory>
    ensures { IfOk result (λ made. made ≡ Product (plain a ∷ plain b ∷ [])) }
{
    Ok(FlatExpr::Product(pair(alloc, (false, a), (false, b))?))
}

/// `a - b`
pub(crate) fn difference(alloc: Global, a: FlatExpr, b: FlatExpr) -> Result<FlatExpr, NoMemory>
    ensures { IfOk result (λ made. made ≡ Sum (plain a ∷ (true, b) ∷ [])) }
{
    Ok(FlatExpr::Sum(pair(alloc, (false, a), (true, b))?))
}
