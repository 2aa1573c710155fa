//! The bytes of expressions.
ghost use Rattle.std.specs.Prelude.{◌≡◌, ◌++◌, codes, map};
ghost use Rattle.mo_flat.specs.Text.{branches_text, chain_text, expr_text, factors_text, function_name, operand, printed, terms_text};
ghost use Rattle.mo_text_size.specs.Bytes.{bytes};

use crate::pieces::{
    add, level, mark_of_relation, of_branch_mark, of_factor_mark, of_function, of_separator,
    of_str, of_term_mark, of_variable, of_whole,
};
use mo_flat::{FlatExpr, FlatVar};

/// An expression without parentheses around it.
#[cycle(bytes)]
pub(crate) fn of_expr(vars: &[FlatVar], e: &FlatExpr) -> u64
    ensures { result ≡ bytes (expr_text vars.now e.now) }
{
    match e {
        FlatExpr::Whole(n) => of_whole(*n),
        FlatExpr::Decimal(text) => of_str(text.as_str()),
        FlatExpr::Str(text) => of_str(text.as_str()),
        FlatExpr::Truth(true) => 4,
        FlatExpr::Truth(false) => 5,
        FlatExpr::Literal(text) => of_str(text.as_str()),
        FlatExpr::Time => 4,
        FlatExpr::Var(variable, order) => of_variable(vars, *variable, *order),
        FlatExpr::Der(inner) => of_operand(vars, inner.get(), 0).saturating_add(5),
        FlatExpr::Sum(terms) => of_terms(vars, terms.as_slice()),
        FlatExpr::Product(factors) => of_factors(vars, factors.as_slice()),
        FlatExpr::Power(base, exponent) => of_pair(vars, base.get(), "^", exponent.get(), 8),
        FlatExpr::Call(function, args) => of_call(vars, *function, args.as_slice()),
        FlatExpr::Relation(op, left, right) => {
            of_pair(vars, left.get(), mark_of_relation(*op), right.get(), 5)
        }
        FlatExpr::Not(inner) => of_operand(vars, inner.get(), 4).saturating_add(4),
        FlatExpr::All(parts) => of_chain(vars, parts.as_slice(), " and ", 3),
        FlatExpr::Any(parts) => of_chain(vars, parts.as_slice(), " or ", 2),
        FlatExpr::If(branches, other) => of_choice(vars, branches.as_slice(), other.get()),
    }
}

/// An operand, in parentheses where it binds more loosely than is wanted.
#[cycle(bytes)]
pub(crate) fn of_operand(vars: &[FlatVar], e: &FlatExpr, wanted: u8) -> u64
    ensures { result ≡ bytes (operand wanted (printed vars.now e.now)) }
{
    let inside = of_expr(vars, e);
    if level(e) < wanted {
        inside.saturating_add(2)
    } else {
        inside
    }
}

#[cycle(bytes)]
fn of_pair(vars: &[FlatVar], left: &FlatExpr, mark: &str, right: &FlatExpr, wanted: u8) -> u64
    ensures { result ≡ bytes (operand wanted (printed vars.now left.now) ++ mark.now ++ operand wanted (printed vars.now right.now)) }
{
    let left = add(of_operand(vars, left, wanted), of_str(mark));
    add(left, of_operand(vars, right, wanted))
}

#[cycle(bytes)]
fn of_call(vars: &[FlatVar], function: u16, args: &[FlatExpr]) -> u64
    ensures { result ≡ bytes (function_name function ++ codes "(" ++ chain_text (codes ", ") 0 (map (printed vars.now) args.now) ++ codes ")") }
{
    let args = of_chain(vars, args, ", ", 0);
    of_function(function).saturating_add(2).saturating_add(args)
}

#[cycle(bytes)]
fn of_choice(vars: &[FlatVar], branches: &[(FlatExpr, FlatExpr)], other: &FlatExpr) -> u64
    ensures { result ≡ bytes (branches_text (map (λ branch. (printed vars.now branch.0, printed vars.now branch.1)) branches.now) ++ codes " else " ++ operand 0 (printed vars.now other.now)) }
{
    let branches = of_branches(vars, branches);
    branches
        .saturating_add(6)
        .saturating_add(of_operand(vars, other, 0))
}

#[cycle(bytes)]
fn of_terms(vars: &[FlatVar], terms: &[(bool, FlatExpr)]) -> u64
    ensures { result ≡ bytes (terms_text (map (λ term. (term.0, printed vars.now term.1)) terms.now)) }
{
    let mut all = 0u64;
    let mut first = true;
    for term in terms {
        let one = add(of_term_mark(first, term.0), of_operand(vars, &term.1, 6));
        all = all.saturating_add(one);
        first = false;
    }
    all
}

#[cycle(bytes)]
fn of_factors(vars: &[FlatVar], factors: &[(bool, FlatExpr)]) -> u64
    ensures { result ≡ bytes (factors_text (map (λ factor. (factor.0, printed vars.now factor.1)) factors.now)) }
{
    let mut all = 0u64;
    let mut first = true;
    for factor in factors {
        let one = add(
            of_factor_mark(first, factor.0),
            of_operand(vars, &factor.1, 7),
        );
        all = all.saturating_add(one);
        first = false;
    }
    all
}

#[cycle(bytes)]
fn of_chain(vars: &[FlatVar], parts: &[FlatExpr], mark: &str, wanted: u8) -> u64
    ensures { result ≡ bytes (chain_text mark.now wanted (map (printed vars.now) parts.now)) }
{
    let mut all = 0u64;
    let mut first = true;
    for part in parts {
        let one = add(of_separator(first, mark), of_operand(vars, part, wanted));
        all = all.saturating_add(one);
        first = false;
    }
    all
}

#[cycle(bytes)]
fn of_branches(vars: &[FlatVar], branches: &[(FlatExpr, FlatExpr)]) -> u64
    ensures { result ≡ bytes (branches_text (map (λ branch. (printed vars.now branch.0, printed vars.now branch.1)) branches.now)) }
{
    let mut all = 0u64;
    let mut first = true;
    for branch in branches {
        let condition = add(of_branch_mark(first), of_operand(vars, &branch.0, 0));
        let one = add(
            add(condition, of_str(" then ")),
            of_operand(vars, &branch.1, 0),
        );
        all = all.saturating_add(one);
        first = false;
    }
    all
}
