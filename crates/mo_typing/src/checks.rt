//! Subscripts that lie outside their dimensions.
ghost use Rattle.std.specs.Prelude.{◌≡◌, IfOk, Ok, Err};
ghost use Rattle.std.specs.List.{list_all};
ghost use Rattle.std.specs.Option.{option_map};
ghost use Rattle.mo_syntax.specs.Outcome.{IfBroken};
ghost use Rattle.mo_typing.specs.Outcome.{Gives};
ghost use Rattle.mo_typing.specs.Shape.{shape_of};
ghost use Rattle.mo_typing.specs.Subscripts.{subscripts_of, subscripts_of_node, is_within, within, subscript, subscripts, both, every, of_option, size_number, part_of};

use crate::shapes::{Signed, shape};
use mo_flat::{ArrayExpr, ArrayNode, Subscript};
use mo_syntax::{Broken, Place, Stop, broken, rules};
use std::alloc::Global;

/// Whether a subscript lies in its dimension, from 1 to the size.
pub fn is_within(size: usize, n: i64) -> bool
    ensures { result ≡ is_within size n }
{
    if n < 0 {
        return false;
    }
    let number = n as u64;
    1 <= number && number <= size as u64
}

fn are_within(size: usize, numbers: &[i64]) -> bool
    ensures { result ≡ list_all (is_within size) numbers.now }
{
    for n in numbers {
        if !is_within(size, *n) {
            return false;
        }
    }
    true
}

fn within(place: Place, b: bool) -> Result<(), Broken>
    ensures { result ≡ within place b }
{
    if b {
        Ok(())
    } else {
        Err(broken(rules::SUBSCRIPT_OUTSIDE, place))
    }
}

fn subscript(size: u32, s: &Subscript) -> Result<(), Broken>
    ensures { result ≡ subscript size s.now }
{
    match s {
        Subscript::All => Ok(()),
        Subscript::One(place, n) => within(*place, is_within(size as usize, *n)),
        Subscript::Many(place, numbers) => {
            within(*place, are_within(size as usize, numbers.as_slice()))
        }
    }
}

/// The first subscript of a variable that lies outside.
fn of_variable(dims: &[u32], subs: &[Subscript]) -> Result<(), Broken>
    ensures { result ≡ subscripts dims.now subs.now }
{
    match dims {
        [] => Ok(()),
        [n, more @ ..] => match subs {
            [] => Ok(()),
            [s, rest @ ..] => {
                subscript(*n, s)?;
                of_variable(more, rest)
            }
        },
    }
}

fn answer(told: Result<(), Broken>) -> Result<(), Stop>
    ensures { Gives result told }
{
    match told {
        Ok(()) => Ok(()),
        Err(broken) => Err(Stop::Broken(broken)),
    }
}

/// Asks the subscripts of an expression in the order of its text: rule 32 at the first one that lies outside its dimension, and
/// at an `i` in `size(A, i)` that is no dimension of A. `NoMemory` is the only other answer.
pub fn subscripts(alloc: Global, e: &ArrayExpr) -> Result<(), Stop>
    ensures ok { IfOk result (λ _. subscripts_of e.now ≡ Ok tt) }
    ensures refused { IfBroken result (λ broken. subscripts_of e.now ≡ Err broken) }
{
    in_expression(alloc, e)
}

#[cycle(subscripts)]
fn in_expression(alloc: Global, e: &ArrayExpr) -> Result<(), Stop>
    ensures { Gives result (subscripts_of e.now) }
{
    subscripts_of_node(alloc, e.node.get())
}

#[cycle(subscripts)]
fn subscripts_of_node(alloc: Global, node: &ArrayNode) -> Result<(), Stop>
    ensures { Gives result (subscripts_of_node node.now) }
{
    match node {
        ArrayNode::Whole(_) => Ok(()),
        ArrayNode::Decimal(_) => Ok(()),
        ArrayNode::Str(_) => Ok(()),
        ArrayNode::Truth(_) => Ok(()),
        ArrayNode::Literal(_, _, _) => Ok(()),
        ArrayNode::Time => Ok(()),
        ArrayNode::Vars {
            vars: _,
            kind: _,
            dims,
            subs,
        } => answer(of_variable(dims.as_slice(), subs.as_slice())),
        ArrayNode::Sum(terms) => in_terms(alloc, terms.as_slice()),
        ArrayNode::Product(factors) => in_terms(alloc, factors.as_slice()),
        ArrayNode::Power(base, _, exponent) => in_both(alloc, base, exponent),
        ArrayNode::Relation(_, left, right) => in_both(alloc, left, right),
        ArrayNode::Not(inner) => in_expression(alloc, inner),
        ArrayNode::All(parts) => in_parts(alloc, parts.as_slice()),
        ArrayNode::Any(parts) => in_parts(alloc, parts.as_slice()),
        ArrayNode::If(branches, other) => in_choice(alloc, branches.as_slice(), other),
        ArrayNode::Call(_, args) => in_parts(alloc, args.as_slice()),
        ArrayNode::Der(inner) => in_expression(alloc, inner),
        ArrayNode::Array(parts) => in_parts(alloc, parts.as_slice()),
        ArrayNode::Range(_, _, _) => Ok(()),
        ArrayNode::Size(inner, at) => in_size(alloc, inner, at),
        ArrayNode::Sized(_, part, _) => in_option(alloc, part),
    }
}

#[cycle(subscripts)]
fn in_both(alloc: Global, left: &ArrayExpr, right: &ArrayExpr) -> Result<(), Stop>
    ensures { Gives result (both (subscripts_of left.now) (subscripts_of right.now)) }
{
    in_expression(alloc, left)?;
    in_expression(alloc, right)
}

#[cycle(subscripts)]
fn in_terms(alloc: Global, terms: &[Signed]) -> Result<(), Stop>
    ensures { Gives result (every (λ term. subscripts_of term.2) terms.now) }
{
    for term in terms {
        in_expression(alloc, &term.2)?;
    }
    Ok(())
}

#[cycle(subscripts)]
fn in_parts(alloc: Global, parts: &[ArrayExpr]) -> Result<(), Stop>
    ensures { Gives result (every subscripts_of parts.now) }
{
    for part in parts {
        in_expression(alloc, part)?;
    }
    Ok(())
}

#[cycle(subscripts)]
fn in_branches(alloc: Global, branches: &[(ArrayExpr, ArrayExpr)]) -> Result<(), Stop>
    ensures { Gives result (every (λ branch. both (subscripts_of branch.0) (subscripts_of branch.1)) branches.now) }
{
    for branch in branches {
        in_both(alloc, &branch.0, &branch.1)?;
    }
    Ok(())
}

#[cycle(subscripts)]
fn in_choice(
    alloc: Global,
    branches: &[(ArrayExpr, ArrayExpr)],
    other: &ArrayExpr,
) -> Result<(), Stop>
    ensures { Gives result (both (every (λ branch. both (subscripts_of branch.0) (subscripts_of branch.1)) branches.now) (subscripts_of other.now)) }
{
    in_branches(alloc, branches)?;
    in_expression(alloc, other)
}

#[cycle(subscripts)]
fn in_size(alloc: Global, inner: &ArrayExpr, at: &Option<(Place, i64)>) -> Result<(), Stop>
    ensures { Gives result (both (subscripts_of inner.now) (size_number (shape_of inner.now) at.now)) }
{
    in_expression(alloc, inner)?;
    let dims = shape(alloc, inner)?;
    match at {
        None => Ok(()),
        Some((place, n)) => answer(within(*place, is_within(dims.len(), *n))),
    }
}

#[cycle(subscripts)]
fn in_option(alloc: Global, part: &Option<ArrayExpr>) -> Result<(), Stop>
    ensures { Gives result (of_option (option_map part_of part.now)) }
{
    match part {
        None => Ok(()),
        Some(e) => in_expression(alloc, e),
    }
}
