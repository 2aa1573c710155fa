//! How often variables are differentiated.
ghost use Rattle.std.specs.Prelude.{◌≡◌, ◌+◌, ◌&&◌, min, nat_lt};
ghost use Rattle.std.specs.List.{list_all};
ghost use Rattle.mo_sound.specs.SoundKinds.{orders_at};

use mo_flat::FlatExpr;

/// The least order that a variable of a model may not have, with the derivatives around it.
const LIMIT: u32 = 65_535;

/// Whether an order stays below the limit inside so many derivatives.
fn is_low(order: u32, around: u32) -> bool
    ensures { result ≡ nat_lt (order + around) 65535 }
{
    order < LIMIT && around < LIMIT - order
}

/// One derivative more; past the limit they need not be told apart.
fn one_more(around: u32) -> u32
    ensures { result ≡ min (around + 1) 65535 }
{
    if around < LIMIT { around + 1 } else { LIMIT }
}

/// Whether the order of each variable, with the derivatives around it, stays below the limit.
#[cycle(orders)]
pub(crate) fn orders_fit(e: &FlatExpr, around: u32) -> bool
    ensures { result ≡ orders_at e.now around }
{
    match e {
        FlatExpr::Whole(_) | FlatExpr::Decimal(_) | FlatExpr::Str(_) => true,
        FlatExpr::Truth(_) | FlatExpr::Literal(_) | FlatExpr::Time => true,
        FlatExpr::Var(_, order) => is_low(*order, around),
        FlatExpr::Der(inner) => orders_fit(inner.get(), one_more(around)),
        FlatExpr::Sum(terms) => orders_of_signed_fit(terms.as_slice(), around),
        FlatExpr::Product(factors) => orders_of_signed_fit(factors.as_slice(), around),
        FlatExpr::Power(base, exponent) => {
            orders_fit(base.get(), around) && orders_fit(exponent.get(), around)
        }
        FlatExpr::Call(_, args) => orders_of_all_fit(args.as_slice(), around),
        FlatExpr::Relation(_, left, right) => {
            orders_fit(left.get(), around) && orders_fit(right.get(), around)
        }
        FlatExpr::Not(inner) => orders_fit(inner.get(), around),
        FlatExpr::All(parts) => orders_of_all_fit(parts.as_slice(), around),
        FlatExpr::Any(parts) => orders_of_all_fit(parts.as_slice(), around),
        FlatExpr::If(branches, other) => {
            orders_of_branches_fit(branches.as_slice(), around) && orders_fit(other.get(), around)
        }
    }
}

#[cycle(orders)]
fn orders_of_signed_fit(terms: &[(bool, FlatExpr)], around: u32) -> bool
    ensures { result ≡ list_all (λ term. orders_at term.1 around) terms.now }
{
    for term in terms {
        if !orders_fit(&term.1, around) {
            return false;
        }
    }
    true
}

#[cycle(orders)]
fn orders_of_all_fit(parts: &[FlatExpr], around: u32) -> bool
    ensures { result ≡ list_all (λ part. orders_at part around) parts.now }
{
    for part in parts {
        if !orders_fit(part, around) {
            return false;
        }
    }
    true
}

#[cycle(orders)]
fn orders_of_branches_fit(branches: &[(FlatExpr, FlatExpr)], around: u32) -> bool
    ensures { result ≡ list_all (λ branch. orders_at branch.0 around && orders_at branch.1 around) branches.now }
{
    for branch in branches {
        let holds = orders_fit(&branch.0, around) && orders_fit(&branch.1, around);
        if !holds {
            return false;
        }
    }
    true
}
