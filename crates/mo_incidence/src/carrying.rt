//! Whether the derivatives of an equation can be carried out, found without carrying them out.
ghost use Rattle.std.specs.Prelude.{◌≡◌, ◌&&◌, false};
ghost use Rattle.std.specs.List.{list_all};
ghost use Rattle.mo_flat.specs.Roles.{is_given};
ghost use Rattle.mo_symdiff.specs.Carried.{carries};
ghost use Rattle.mo_symdiff.specs.Orders.{apart_in};
ghost use Rattle.mo_incidence.specs.Model.{first_uncarried};

use mo_flat::{FlatEquation, FlatExpr, FlatVar, role_of};
use mo_syntax::{Place, Role};

/// The place of the first equation in which a given variable would be differentiated.
pub(crate) fn first_uncarried(vars: &[FlatVar], equations: &[FlatEquation]) -> Option<Place>
    ensures { result ≡ first_uncarried vars.now equations.now }
{
    for equation in equations {
        if !can_carry_both(vars, equation) {
            return Some(equation.place);
        }
    }
    None
}

fn can_carry_both(vars: &[FlatVar], equation: &FlatEquation) -> bool
    ensures { result ≡ (carries vars.now equation.now.left && carries vars.now equation.now.right) }
{
    can_carry(vars, &equation.left) && can_carry(vars, &equation.right)
}

fn can_carry(vars: &[FlatVar], e: &FlatExpr) -> bool
    ensures { result ≡ carries vars.now e.now }
{
    apart(vars, e, false)
}

/// Whether a variable is given.
fn comes_from_outside(vars: &[FlatVar], variable: u32) -> bool
    ensures { result ≡ is_given vars.now variable }
{
    match role_of(vars, variable) {
        Some(Role::Given) => true,
        Some(Role::Unknown) | Some(Role::Parameter) | Some(Role::Constant) | None => false,
    }
}

/// Whether no given variable stands under a derivative, where `around` says whether the expression itself does.
#[cycle(apart)]
fn apart(vars: &[FlatVar], e: &FlatExpr, around: bool) -> bool
    ensures { result ≡ apart_in vars.now e.now around }
{
    match e {
        FlatExpr::Whole(_) | FlatExpr::Decimal(_) | FlatExpr::Str(_) => true,
        FlatExpr::Truth(_) | FlatExpr::Literal(_) | FlatExpr::Time => true,
        FlatExpr::Var(variable, _) => !(around && comes_from_outside(vars, *variable)),
        FlatExpr::Der(inner) => apart(vars, inner.get(), true),
        FlatExpr::Sum(terms) => signed_apart(vars, terms.as_slice(), around),
        FlatExpr::Product(factors) => signed_apart(vars, factors.as_slice(), around),
        FlatExpr::Power(base, exponent) => {
            apart(vars, base.get(), around) && apart(vars, exponent.get(), around)
        }
        FlatExpr::Call(_, args) => all_apart(vars, args.as_slice(), around),
        FlatExpr::Relation(_, left, right) => {
            apart(vars, left.get(), around) && apart(vars, right.get(), around)
        }
        FlatExpr::Not(inner) => apart(vars, inner.get(), around),
        FlatExpr::All(parts) => all_apart(vars, parts.as_slice(), around),
        FlatExpr::Any(parts) => all_apart(vars, parts.as_slice(), around),
        FlatExpr::If(branches, other) => {
            branches_apart(vars, branches.as_slice(), around) && apart(vars, other.get(), around)
        }
    }
}

#[cycle(apart)]
fn all_apart(vars: &[FlatVar], parts: &[FlatExpr], around: bool) -> bool
    ensures { result ≡ list_all (λ part. apart_in vars.now part around) parts.now }
{
    for part in parts {
        if !apart(vars, part, around) {
            return false;
        }
    }
    true
}

#[cycle(apart)]
fn signed_apart(vars: &[FlatVar], terms: &[(bool, FlatExpr)], around: bool) -> bool
    ensures { result ≡ list_all (λ term. apart_in vars.now term.1 around) terms.now }
{
    for term in terms {
        if !apart(vars, &term.1, around) {
            return false;
        }
    }
    true
}

#[cycle(apart)]
fn branches_apart(vars: &[FlatVar], branches: &[(FlatExpr, FlatExpr)], around: bool) -> bool
    ensures { result ≡ list_all (λ branch. apart_in vars.now branch.0 false && apart_in vars.now branch.1 around) branches.now }
{
    for branch in branches {
        if !(apart(vars, &branch.0, false) && apart(vars, &branch.1, around)) {
            return false;
        }
    }
    true
}
