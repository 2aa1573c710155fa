//! Whether the derivatives in an expression can be carried out: none is one of a given variable.
ghost use Rattle.std.specs.Prelude.{◌≡◌, ◌&&◌};
ghost use Rattle.std.specs.List.{list_all};
ghost use Rattle.mo_flat.specs.declared.expr.FlatExpr.TheVariants.{Der, If};
ghost use Rattle.mo_symdiff.specs.Carried.{carries, differentiates};

use crate::still::holds_given;
use mo_flat::{FlatExpr, FlatVar};

/// Whether an expression may be differentiated.
pub(crate) fn differentiates(vars: &[FlatVar], e: &FlatExpr) -> bool
    ensures { result ≡ differentiates vars.now e.now }
{
    carries(vars, e) && !holds_given(vars, e)
}

#[cycle(carries)]
pub(crate) fn carries(vars: &[FlatVar], e: &FlatExpr) -> bool
    ensures { result ≡ carries vars.now e.now }
{
    match e {
        FlatExpr::Whole(_) => true,
        FlatExpr::Decimal(_) => true,
        FlatExpr::Str(_) => true,
        FlatExpr::Truth(_) => true,
        FlatExpr::Literal(_) => true,
        FlatExpr::Time => true,
        FlatExpr::Var(_, _) => true,
        FlatExpr::Der(inner) => derivative_carries(vars, inner.get()),
        FlatExpr::Sum(terms) => all_signed_carry(vars, terms.as_slice()),
        FlatExpr::Product(factors) => all_signed_carry(vars, factors.as_slice()),
        FlatExpr::Power(base, exponent) => both_carry(vars, base.get(), exponent.get()),
        FlatExpr::Call(_, args) => all_carry(vars, args.as_slice()),
        FlatExpr::Relation(_, left, right) => both_carry(vars, left.get(), right.get()),
        FlatExpr::Not(inner) => carries(vars, inner.get()),
        FlatExpr::All(parts) => all_carry(vars, parts.as_slice()),
        FlatExpr::Any(parts) => all_carry(vars, parts.as_slice()),
        FlatExpr::If(branches, other) => choice_carries(vars, branches.as_slice(), other.get()),
    }
}

#[cycle(carries)]
fn derivative_carries(vars: &[FlatVar], inner: &FlatExpr) -> bool
    ensures { result ≡ carries vars.now (Der inner.now) }
{
    carries(vars, inner) && !holds_given(vars, inner)
}

#[cycle(carries)]
fn both_carry(vars: &[FlatVar], left: &FlatExpr, right: &FlatExpr) -> bool
    ensures { result ≡ (carries vars.now left.now && carries vars.now right.now) }
{
    carries(vars, left) && carries(vars, right)
}

#[cycle(carries)]
fn all_carry(vars: &[FlatVar], parts: &[FlatExpr]) -> bool
    ensures { result ≡ list_all (carries vars.now) parts.now }
{
    for part in parts {
        if !carries(vars, part) {
            return false;
        }
    }
    true
}

#[cycle(carries)]
fn all_signed_carry(vars: &[FlatVar], terms: &[(bool, FlatExpr)]) -> bool
    ensures { result ≡ list_all (λ term. carries vars.now term.1) terms.now }
{
    for term in terms {
        if !carries(vars, &term.1) {
            return false;
        }
    }
    true
}

#[cycle(carries)]
fn choice_carries(vars: &[FlatVar], branches: &[(FlatExpr, FlatExpr)], other: &FlatExpr) -> bool
    ensures { result ≡ carries vars.now (If branches.now other.now) }
{
    all_branches_carry(vars, branches) && carries(vars, other)
}

#[cycle(carries)]
fn all_branches_carry(vars: &[FlatVar], branches: &[(FlatExpr, FlatExpr)]) -> bool
    ensures { result ≡ list_all (λ branch. carries vars.now branch.0 && carries vars.now branch.1) branches.now }
{
    for branch in branches {
        if !both_carry(vars, &branch.0, &branch.1) {
            return false;
        }
    }
    true
}
