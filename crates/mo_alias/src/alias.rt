//! Alias equations.
ghost use Rattle.std.specs.Prelude.{◌≡◌, length, get_or, IfOk};
ghost use Rattle.std.specs.Option.{option_map};
ghost use Rattle.mo_flat.specs.declared.expr.FlatExpr.{out-FlatExpr};
ghost use Rattle.mo_flat.specs.Roles.{unknown_numbers};
ghost use Rattle.mo_alias.specs.Recognized.{alias_of, aliases_in, is_zero_node, pair_of, positive, said_by, sign_product, signed_node, two_terms, unknown_in, with_sign};

use crate::numbers::numbers_among;
use mo_flat::{FlatEquation, FlatExpr, FlatModel};
use mo_syntax::NoMemory;
use std::alloc::Global;

/// What an alias equation says: that the left unknown is the right one, or minus it.
#[derive(Clone, Copy, Debug)]
pub(crate) struct Alias {
    pub left: u32,
    pub right: u32,
    pub minus: bool,
}

/// The product of two signs, each true where it is a minus.
pub(crate) fn sign_product(a: bool, b: bool) -> bool
    ensures { result ≡ sign_product a b }
{
    if a { !b } else { b }
}

/// The number among the unknowns of a variable.
fn number_of(numbers: &[u32], variable: u32) -> Option<u32>
    ensures { result ≡ positive (get_or numbers.now variable 0) }
{
    match numbers.get(variable as usize) {
        None => None,
        Some(number) => { if *number == 0 { None } else { Some(*number) } }
    }
}

/// The unknown that an expression is, at order 0.
fn unknown_in(numbers: &[u32], e: &FlatExpr) -> Option<u32>
    ensures { result ≡ unknown_in numbers.now e.now }
{
    match e {
        FlatExpr::Var(variable, order) => {
            if *order == 0 {
                number_of(numbers, *variable)
            } else {
                None
            }
        }
        _ => None,
    }
}

/// A term's unknown with its sign.
fn signed_term(numbers: &[u32], minus: bool, e: &FlatExpr) -> Option<(bool, u32)>
    ensures { result ≡ with_sign minus (unknown_in numbers.now e.now) }
{
    match unknown_in(numbers, e) {
        None => None,
        Some(unknown) => Some((minus, unknown)),
    }
}

/// The unknown that a side is, with or without a minus.
fn signed_unknown(numbers: &[u32], e: &FlatExpr) -> Option<(bool, u32)>
    ensures { result ≡ signed_node numbers.now (out-FlatExpr e.now) }
{
    match e {
        FlatExpr::Sum(terms) => match terms.as_slice() {
            [(minus, term)] => signed_term(numbers, *minus, term),
            _ => None,
        },
        _ => signed_term(numbers, false, e),
    }
}

/// Both, where both are there.
fn pair_of(a: Option<(bool, u32)>, b: Option<(bool, u32)>) -> Option<((bool, u32), (bool, u32))>
    ensures { result ≡ pair_of a b }
{
    match (a, b) {
        (Some(a), Some(b)) => Some((a, b)),
        _ => None,
    }
}

/// The unknowns of a sum of two terms, with their signs.
fn two_terms(numbers: &[u32], e: &FlatExpr) -> Option<((bool, u32), (bool, u32))>
    ensures { result ≡ two_terms numbers.now (out-FlatExpr e.now) }
{
    match e {
        FlatExpr::Sum(terms) => match terms.as_slice() {
            [(minus, e), (other, f)] => pair_of(
                signed_term(numbers, *minus, e),
                signed_term(numbers, *other, f),
            ),
            _ => None,
        },
        _ => None,
    }
}

/// Whether an expression is the Integer literal 0.
fn is_zero(e: &FlatExpr) -> bool
    ensures { result ≡ is_zero_node (out-FlatExpr e.now) }
{
    match e {
        FlatExpr::Whole(n) => *n == 0,
        _ => false,
    }
}

/// That the first is the second, or minus it where `opposite`.
fn said_of(pair: Option<((bool, u32), (bool, u32))>, opposite: bool) -> Option<Alias>
    ensures { result ≡ option_map (said_by opposite) pair }
{
    match pair {
        None => None,
        Some((a, b)) => Some(Alias {
            left: a.1,
            right: b.1,
            minus: sign_product(opposite, sign_product(a.0, b.0)),
        }),
    }
}

/// What an equation says of two unknowns, if it is an alias equation.
fn alias_of(numbers: &[u32], q: &FlatEquation) -> Option<Alias>
    ensures { result ≡ alias_of numbers.now q.now }
{
    if is_zero(&q.left) {
        return said_of(two_terms(numbers, &q.right), true);
    }
    if is_zero(&q.right) {
        return said_of(two_terms(numbers, &q.left), true);
    }
    let left = signed_unknown(numbers, &q.left);
    said_of(pair_of(left, signed_unknown(numbers, &q.right)), false)
}

/// What each equation of a model says, in flat order, and how many unknowns the model has.
pub(crate) fn aliases_in(
    alloc: Global,
    m: &FlatModel,
) -> Result<(Vec<Option<Alias>>, u32), NoMemory>
    ensures said { IfOk result (λ r. r.0.items ≡ aliases_in m.now) }
    ensures count { IfOk result (λ r. r.1 ≡ length (unknown_numbers m.now.vars)) }
{
    let (numbers, count) = numbers_among(alloc, m.vars.as_slice())?;
    let mut said = Vec::new(alloc);
    for q in m.equations.as_slice() {
        said.push(alias_of(&numbers, q))?;
    }
    Ok((said, count))
}
