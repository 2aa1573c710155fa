//! Numbers of variables, counts of arguments, and lists that are not empty.
ghost use Rattle.std.specs.Prelude.{◌≡◌, ◌&&◌, length, nat_le};
ghost use Rattle.std.specs.List.{list_all};
ghost use Rattle.mo_flat.specs.Sound.{begins_multiplied as begins_multiplied_in, is_among, is_nonempty, is_shaped as is_shaped_in, takes as takes_so};

use mo_flat::{FlatExpr, FlatVar};
use mo_tables::functions::{
    ABS, ACOS, ASIN, ATAN, ATAN2, COS, COSH, EXP, LOG, LOG10, MAX, MIN, NO_EVENT, SIN, SINH, SQRT,
    TAN, TANH,
};

/// The functions of one argument.
const ONE_ARGUMENT: [u16; 15] = [
    ABS, ACOS, ASIN, ATAN, COS, COSH, EXP, LOG, LOG10, NO_EVENT, SIN, SINH, SQRT, TAN, TANH,
];

/// The functions of two arguments.
const TWO_ARGUMENTS: [u16; 3] = [ATAN2, MAX, MIN];

/// Whether a function is one of some.
pub(crate) fn is_one_of(functions: &[u16], function: u16) -> bool
    ensures { result ≡ is_among functions.now function }
{
    for other in functions {
        if *other == function {
            return true;
        }
    }
    false
}

/// Whether a function takes so many arguments.
fn takes(function: u16, count: usize) -> bool
    ensures { result ≡ takes_so function count }
{
    if is_one_of(&ONE_ARGUMENT, function) && count == 1 {
        return true;
    }
    is_one_of(&TWO_ARGUMENTS, function) && count == 2
}

/// Whether a number is that of one of the variables.
fn is_variable(vars: &[FlatVar], n: u32) -> bool
    ensures { result ≡ (nat_le 1 n && nat_le n (length vars.now)) }
{
    1 <= n && n as usize <= vars.len()
}

/// Whether a list has an element.
fn has_some<T>(list: &[T]) -> bool
    ensures { result ≡ is_nonempty list.now }
{
    match list {
        [] => false,
        [_, ..] => true,
    }
}

/// Whether a product begins with a factor that is multiplied.
fn begins_multiplied(factors: &[(bool, FlatExpr)]) -> bool
    ensures { result ≡ begins_multiplied_in factors.now }
{
    match factors {
        [] => false,
        [first, ..] => !first.0,
    }
}

/// Whether the numbers of an expression are those of variables, its functions have their numbers of arguments, its lists are not empty,
/// and its products begin with a factor that is multiplied.
#[cycle(shapes)]
pub(crate) fn is_shaped(vars: &[FlatVar], e: &FlatExpr) -> bool
    ensures { result ≡ is_shaped_in vars.now e.now }
{
    match e {
        FlatExpr::Whole(_) | FlatExpr::Decimal(_) | FlatExpr::Str(_) => true,
        FlatExpr::Truth(_) | FlatExpr::Literal(_) | FlatExpr::Time => true,
        FlatExpr::Var(n, _) => is_variable(vars, *n),
        FlatExpr::Der(inner) => is_shaped(vars, inner.get()),
        FlatExpr::Sum(terms) => has_some(terms.as_slice())
            && are_signed_shaped(vars, terms.as_slice()),
        FlatExpr::Product(factors) => {
            begins_multiplied(factors.as_slice()) && are_signed_shaped(vars, factors.as_slice())
        }
        FlatExpr::Power(base, exponent) => {
            is_shaped(vars, base.get()) && is_shaped(vars, exponent.get())
        }
        FlatExpr::Call(function, args) => {
            takes(*function, args.len()) && are_shaped(vars, args.as_slice())
        }
        FlatExpr::Relation(_, left, right) => {
            is_shaped(vars, left.get()) && is_shaped(vars, right.get())
        }
        FlatExpr::Not(inner) => is_shaped(vars, inner.get()),
        FlatExpr::All(parts) => has_some(parts.as_slice()) && are_shaped(vars, parts.as_slice()),
        FlatExpr::Any(parts) => has_some(parts.as_slice()) && are_shaped(vars, parts.as_slice()),
        FlatExpr::If(branches, other) => {
            has_some(branches.as_slice())
                && are_branches_shaped(vars, branches.as_slice())
                && is_shaped(vars, other.get())
        }
    }
}

#[cycle(shapes)]
fn are_signed_shaped(vars: &[FlatVar], terms: &[(bool, FlatExpr)]) -> bool
    ensures { result ≡ list_all (λ term. is_shaped_in vars.now term.1) terms.now }
{
    for term in terms {
        if !is_shaped(vars, &term.1) {
            return false;
        }
    }
    true
}

#[cycle(shapes)]
fn are_shaped(vars: &[FlatVar], parts: &[FlatExpr]) -> bool
    ensures { result ≡ list_all (is_shaped_in vars.now) parts.now }
{
    for part in parts {
        if !is_shaped(vars, part) {
            return false;
        }
    }
    true
}

#[cycle(shapes)]
fn are_branches_shaped(vars: &[FlatVar], branches: &[(FlatExpr, FlatExpr)]) -> bool
    ensures { result ≡ list_all (λ branch. is_shaped_in vars.now branch.0 && is_shaped_in vars.now branch.1) branches.now }
{
    for branch in branches {
        let holds = is_shaped(vars, &branch.0) && is_shaped(vars, &branch.1);
        if !holds {
            return false;
        }
    }
    true
}
