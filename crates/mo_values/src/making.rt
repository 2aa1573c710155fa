//! Nodes that are made of resolved parts.
ghost use Rattle.std.specs.Prelude.{◌≡◌, IfOk, Ok, Err};
ghost use Rattle.std.specs.List.{list_all};
ghost use Rattle.mo_flat.specs.declared.array.ArrayExpr.{roll-ArrayExpr};
ghost use Rattle.mo_typing.specs.Outcome.{Gives};
ghost use Rattle.mo_typing.specs.Dims.{dims_of};
ghost use Rattle.mo_values.specs.Made.{is_joined, is_string_sum, sum_of, is_matrix, power_of, range_of, chosen, made_end, takes, derivative_of, known_number};

use crate::context::Context;
use crate::value::Scalar;
use mo_flat::{ArrayExpr, ArrayNode};
use mo_syntax::{Boxed, Broken, Kind, List, NoMemory, Place, Stop, broken, rules};
use mo_tables::functions;
use mo_typing::shapes::Signed;
use mo_typing::{dims_of, kind_of};
use std::alloc::Global;

/// A node at its place. `NoMemory` is the only other answer.
pub fn placed(alloc: Global, place: Place, node: ArrayNode) -> Result<ArrayExpr, NoMemory>
    ensures { IfOk result (λ made. made ≡ roll-ArrayExpr (record { place = place; node = node })) }
{
    let node = Boxed::new(alloc, node)?;
    Ok(ArrayExpr { place, node })
}

/// Whether a term is a String that is joined by `+`.
fn is_joined(term: &Signed) -> bool
    ensures { result ≡ is_joined term.now }
{
    if term.0 || term.1 {
        return false;
    }
    match kind_of(&term.2) {
        Ok(Kind::Str) => true,
        Ok(Kind::Real) => false,
        Ok(Kind::Whole) => false,
        Ok(Kind::Truth) => false,
        Ok(Kind::Enumeration(_)) => false,
        Err(_) => false,
    }
}

fn are_joined(terms: &[Signed]) -> bool
    ensures { result ≡ list_all is_joined terms.now }
{
    for term in terms {
        if !is_joined(term) {
            return false;
        }
    }
    true
}

fn is_string_sum(terms: &[Signed]) -> bool
    ensures { result ≡ is_string_sum terms.now }
{
    match terms {
        [] => false,
        [_] => false,
        [_, _, ..] => are_joined(terms),
    }
}

/// A sum; Strings that are joined are left out.
pub fn sum_of(place: Place, terms: List<Signed>) -> Result<ArrayNode, Broken>
    ensures { result ≡ sum_of place terms }
{
    if is_string_sum(terms.as_slice()) {
        Err(broken(rules::OUTSIDE_PROFILE, place))
    } else {
        Ok(ArrayNode::Sum(terms))
    }
}

/// Whether an expression has two dimensions.
fn is_matrix(alloc: Global, e: &ArrayExpr) -> Result<bool, NoMemory>
    ensures { IfOk result (λ matrix. matrix ≡ is_matrix (dims_of e.now)) }
{
    match dims_of(alloc, e) {
        Ok(dims) => match dims.as_slice() {
            [] => Ok(false),
            [_] => Ok(false),
            [_, _] => Ok(true),
            [_, _, _, ..] => Ok(false),
        },
        Err(Stop::Broken(_)) => Ok(false),
        Err(Stop::NoMemory) => Err(NoMemory),
    }
}

/// A power; that of a matrix is left out.
pub fn power_of(
    alloc: Global,
    place: Place,
    base: ArrayExpr,
    dotted: bool,
    exponent: ArrayExpr,
) -> Result<ArrayNode, Stop>
    ensures { Gives result (power_of place base dotted exponent) }
{
    if !dotted && is_matrix(alloc, &base)? {
        return Err(Stop::Broken(broken(rules::OUTSIDE_PROFILE, place)));
    }
    Ok(ArrayNode::Power(base, dotted, exponent))
}

/// A range whose ends and step have values.
pub fn range_of(
    place: Place,
    first: Option<Scalar>,
    step: Option<Scalar>,
    last: Option<Scalar>,
) -> Result<ArrayNode, Broken>
    ensures { result ≡ range_of place first step last }
{
    if let Some(Scalar::Whole(a)) = first {
        if let Some(Scalar::Whole(b)) = step {
            if let Some(Scalar::Whole(c)) = last {
                return Ok(ArrayNode::Range(a, b, c));
            }
        }
    }
    Err(broken(rules::NO_VALUE, place))
}

/// An if-expression by the branches that are left: where none is, what its last branch is. `NoMemory` is the only other answer.
pub fn chosen(
    alloc: Global,
    place: Place,
    branches: List<(ArrayExpr, ArrayExpr)>,
    other: ArrayExpr,
) -> Result<ArrayExpr, NoMemory>
    ensures { IfOk result (λ made. made ≡ chosen place (branches, other)) }
{
    if branches.is_empty() {
        return Ok(other);
    }
    placed(alloc, place, ArrayNode::If(branches, other))
}

/// `end`.
pub fn made_end(context: Context, place: Place) -> Result<ArrayNode, Broken>
    ensures { result ≡ made_end context place }
{
    match context.last {
        None => Err(broken(rules::OUTSIDE_PROFILE, place)),
        Some(size) => Ok(ArrayNode::Whole(i64::from(size))),
    }
}

/// `der`.
pub fn derivative_of(place: Place, arguments: List<ArrayExpr>) -> Result<ArrayNode, Broken>
    ensures { result ≡ derivative_of place arguments }
{
    let mut arguments = arguments;
    if arguments.len() != 1 {
        return Err(broken(rules::WRONG_TYPE, place));
    }
    match arguments.pop() {
        None => Err(broken(rules::WRONG_TYPE, place)),
        Some(only) => Ok(ArrayNode::Der(only)),
    }
}

/// Whether `identity`, `zeros` or `ones` takes so many sizes.
pub fn takes(function: u16, count: usize) -> bool
    ensures { result ≡ takes function count }
{
    if function == functions::IDENTITY {
        count == 1
    } else {
        0 < count
    }
}

/// The value of `div`, `mod` or `rem` in the flat model.
pub fn known_number(place: Place, known: Option<Scalar>) -> Result<ArrayNode, Broken>
    ensures { result ≡ known_number place known }
{
    match known {
        Some(Scalar::Whole(n)) => Ok(ArrayNode::Whole(n)),
        Some(Scalar::Truth(_)) => Err(broken(rules::OUTSIDE_PROFILE, place)),
        Some(Scalar::Literal(_, _)) => Err(broken(rules::OUTSIDE_PROFILE, place)),
        None => Err(broken(rules::OUTSIDE_PROFILE, place)),
    }
}
