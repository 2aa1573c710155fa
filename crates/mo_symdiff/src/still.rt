//! What an expression depends on, conditions of if-expressions left aside.
ghost use Rattle.std.specs.Prelude.{◌≡◌, ◌||◌};
ghost use Rattle.std.specs.List.{list_all, list_any};
ghost use Rattle.mo_flat.specs.Roles.{is_given, is_unknown};
ghost use Rattle.mo_symdiff.specs.Still.{has_given, is_still};

use mo_flat::{FlatExpr, FlatVar, role_of};
use mo_syntax::Role;

/// Whether a variable is an unknown or a given one.
pub(crate) fn moves(vars: &[FlatVar], variable: u32) -> bool
    ensures { result ≡ (is_unknown vars.now variable || is_given vars.now variable) }
{
    match role_of(vars, variable) {
        Some(Role::Unknown) | Some(Role::Given) => true,
        Some(Role::Parameter) | Some(Role::Constant) | None => false,
    }
}

/// Whether a variable is given.
fn comes_from_outside(vars: &[FlatVar], variable: u32) -> bool
    ensures { result ≡ is_given vars.now variable }
{
    match role_of(vars, variable) {
        Some(Role::Given) => true,
        Some(Role::Unknown) | Some(Role::Parameter) | Some(Role::Constant) | None => false,
    }
}

/// Whether no unknown, no given variable and not the time stands in an expression, conditions of if-expressions left
/// aside.
pub fn is_still(vars: &[FlatVar], e: &FlatExpr) -> bool
    ensures { result ≡ is_still vars.now e.now }
{
    stays(vars, e)
}

/// Whether a given variable stands in an expression, conditions of if-expressions left aside.
pub fn holds_given(vars: &[FlatVar], e: &FlatExpr) -> bool
    ensures { result ≡ has_given vars.now e.now }
{
    given(vars, e)
}

#[cycle(still)]
fn stays(vars: &[FlatVar], e: &FlatExpr) -> bool
    ensures { result ≡ is_still vars.now e.now }
{
    match e {
        FlatExpr::Whole(_) | FlatExpr::Decimal(_) | FlatExpr::Str(_) => true,
        FlatExpr::Truth(_) | FlatExpr::Literal(_) => true,
        FlatExpr::Time => false,
        FlatExpr::Var(variable, _) => !moves(vars, *variable),
        FlatExpr::Der(inner) => stays(vars, inner.get()),
        FlatExpr::Sum(terms) => all_signed_stay(vars, terms.as_slice()),
        FlatExpr::Product(factors) => all_signed_stay(vars, factors.as_slice()),
        FlatExpr::Power(base, exponent) => stays(vars, base.get()) && stays(vars, exponent.get()),
        FlatExpr::Call(_, args) => all_stay(vars, args.as_slice()),
        FlatExpr::Relation(_, left, right) => stays(vars, left.get()) && stays(vars, right.get()),
        FlatExpr::Not(inner) => stays(vars, inner.get()),
        FlatExpr::All(parts) => all_stay(vars, parts.as_slice()),
        FlatExpr::Any(parts) => all_stay(vars, parts.as_slice()),
        FlatExpr::If(branches, other) => {
            all_values_stay(vars, branches.as_slice()) && stays(vars, other.get())
        }
    }
}

#[cycle(still)]
fn all_stay(vars: &[FlatVar], parts: &[FlatExpr]) -> bool
    ensures { result ≡ list_all (is_still vars.now) parts.now }
{
    for part in parts {
        if !stays(vars, part) {
            return false;
        }
    }
    true
}

#[cycle(still)]
fn all_signed_stay(vars: &[FlatVar], terms: &[(bool, FlatExpr)]) -> bool
    ensures { result ≡ list_all (λ term. is_still vars.now term.1) terms.now }
{
    for term in terms {
        if !stays(vars, &term.1) {
            return false;
        }
    }
    true
}

#[cycle(still)]
fn all_values_stay(vars: &[FlatVar], branches: &[(FlatExpr, FlatExpr)]) -> bool
    ensures { result ≡ list_all (λ branch. is_still vars.now branch.1) branches.now }
{
    for branch in branches {
        if !stays(vars, &branch.1) {
            return false;
        }
    }
    true
}

#[cycle(given)]
fn given(vars: &[FlatVar], e: &FlatExpr) -> bool
    ensures { result ≡ has_given vars.now e.now }
{
    match e {
        FlatExpr::Whole(_) | FlatExpr::Decimal(_) | FlatExpr::Str(_) => false,
        FlatExpr::Truth(_) | FlatExpr::Literal(_) => false,
        FlatExpr::Time => false,
        FlatExpr::Var(variable, _) => comes_from_outside(vars, *variable),
        FlatExpr::Der(inner) => given(vars, inner.get()),
        FlatExpr::Sum(terms) => some_signed_given(vars, terms.as_slice()),
        FlatExpr::Product(factors) => some_signed_given(vars, factors.as_slice()),
        FlatExpr::Power(base, exponent) => given(vars, base.get()) || given(vars, exponent.get()),
        FlatExpr::Call(_, args) => some_given(vars, args.as_slice()),
        FlatExpr::Relation(_, left, right) => given(vars, left.get()) || given(vars, right.get()),
        FlatExpr::Not(inner) => given(vars, inner.get()),
        FlatExpr::All(parts) => some_given(vars, parts.as_slice()),
        FlatExpr::Any(parts) => some_given(vars, parts.as_slice()),
        FlatExpr::If(branches, other) => {
            some_value_given(vars, branches.as_slice()) || given(vars, other.get())
        }
    }
}

#[cycle(given)]
fn some_given(vars: &[FlatVar], parts: &[FlatExpr]) -> bool
    ensures { result ≡ list_any (has_given vars.now) parts.now }
{
    for part in parts {
        if given(vars, part) {
            return true;
        }
    }
    false
}

#[cycle(given)]
fn some_signed_given(vars: &[FlatVar], terms: &[(bool, FlatExpr)]) -> bool
    ensures { result ≡ list_any (λ term. has_given vars.now term.1) terms.now }
{
    for term in terms {
        if given(vars, &term.1) {
            return true;
        }
    }
    false
}

#[cycle(given)]
fn some_value_given(vars: &[FlatVar], branches: &[(FlatExpr, FlatExpr)]) -> bool
    ensures { result ≡ list_any (λ branch. has_given vars.now branch.1) branches.now }
{
    for branch in branches {
        if given(vars, &branch.1) {
            return true;
        }
    }
    false
}
