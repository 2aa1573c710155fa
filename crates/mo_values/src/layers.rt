//! The layers behind resolving: what is asked of the kind, the dimensions and the subscripts of a resolved expression.
ghost use Rattle.std.specs.Prelude.{◌≡◌, ◌≤◌, None, Ok, IfOk, IfSome};
ghost use Rattle.mo_syntax.specs.declared.rules.TheConstants.{WRONG_TYPE};
ghost use Rattle.mo_typing.specs.Outcome.{Gives};
ghost use Rattle.mo_typing.specs.Kinds.{accepts};
ghost use Rattle.mo_typing.specs.Indices.{is_index};
ghost use Rattle.mo_values.specs.Asked.{IsLayered, BreaksLayers, only_whole, only_truth, only_scalar, scalar_or_vector, any_kind, layered, must_be_whole, must_be_truth, fitted};

use crate::value::Scalar;
use mo_flat::ArrayExpr;
use mo_syntax::{Broken, Kind, List, NoMemory, Place, Stop, broken, rules};
use mo_typing::shapes::is_scalar;
use mo_typing::{accepts, dims_of, kind_of, subscripts};
use std::alloc::Global;

/// An outcome as an answer.
pub fn answer<T: Drop>(told: Result<T, Broken>) -> Result<T, Stop>
    ensures { Gives result told }
{
    match told {
        Ok(value) => Ok(value),
        Err(broken) => Err(Stop::Broken(broken)),
    }
}

fn only_whole(place: Place, kind: Kind) -> Result<(), Broken>
    ensures { result ≡ only_whole place kind }
{
    match kind {
        Kind::Whole => Ok(()),
        Kind::Real => Err(broken(rules::WRONG_TYPE, place)),
        Kind::Truth => Err(broken(rules::WRONG_TYPE, place)),
        Kind::Str => Err(broken(rules::WRONG_TYPE, place)),
        Kind::Enumeration(_) => Err(broken(rules::WRONG_TYPE, place)),
    }
}

/// A Boolean, or the rule of that number at the place.
pub fn only_truth(rule: u8, place: Place, kind: Kind) -> Result<(), Broken>
    requires low { 1 ≤ rule }
    requires high { rule ≤ 46 }
    ensures { result ≡ only_truth rule place kind }
{
    match kind {
        Kind::Truth => Ok(()),
        Kind::Real => Err(broken(rule, place)),
        Kind::Whole => Err(broken(rule, place)),
        Kind::Str => Err(broken(rule, place)),
        Kind::Enumeration(_) => Err(broken(rule, place)),
    }
}

/// The dimensions of a scalar, or the rule of that number at the place.
pub fn only_scalar(rule: u8, place: Place, dims: &[u32]) -> Result<(), Broken>
    requires low { 1 ≤ rule }
    requires high { rule ≤ 46 }
    ensures { result ≡ only_scalar rule place dims.now }
{
    if is_scalar(dims) {
        Ok(())
    } else {
        Err(broken(rule, place))
    }
}

/// Whether the dimensions are those of a scalar or a vector.
fn scalar_or_vector(place: Place, dims: List<u32>) -> Result<List<u32>, Broken>
    ensures { result ≡ scalar_or_vector place dims }
{
    match dims.as_slice() {
        [] => Ok(dims),
        [_] => Ok(dims),
        [_, _, ..] => Err(broken(rules::WRONG_TYPE, place)),
    }
}

/// Asks a scalar Integer: a size, an end of a range, the number of a dimension.
pub fn whole_scalar(alloc: Global, place: Place, e: &ArrayExpr) -> Result<(), Stop>
    ensures { Gives result (layered (only_whole place) (only_scalar WRONG_TYPE place) e.now) }
{
    let kind = answer(kind_of(e))?;
    answer(only_whole(place, kind))?;
    let dims = dims_of(alloc, e)?;
    answer(only_scalar(rules::WRONG_TYPE, place, dims.as_slice()))?;
    subscripts(alloc, e)
}

/// Asks a scalar Boolean; the rule is that of its place.
pub fn truth_scalar(alloc: Global, rule: u8, place: Place, e: &ArrayExpr) -> Result<(), Stop>
    requires low { 1 ≤ rule }
    requires high { rule ≤ 46 }
    ensures { Gives result (layered (only_truth rule place) (only_scalar rule place) e.now) }
{
    let kind = answer(kind_of(e))?;
    answer(only_truth(rule, place, kind))?;
    let dims = dims_of(alloc, e)?;
    answer(only_scalar(rule, place, dims.as_slice()))?;
    subscripts(alloc, e)
}

/// Asks a scalar or a vector of Integers, and gives its dimensions.
pub fn whole_vector(alloc: Global, place: Place, e: &ArrayExpr) -> Result<List<u32>, Stop>
    ensures { Gives result (layered (only_whole place) (scalar_or_vector place) e.now) }
{
    let kind = answer(kind_of(e))?;
    answer(only_whole(place, kind))?;
    let dims = dims_of(alloc, e)?;
    let fitted = answer(scalar_or_vector(place, dims))?;
    subscripts(alloc, e)?;
    Ok(fitted)
}

/// Asks an expression of any kind and any dimensions, and gives these.
pub fn sizes(alloc: Global, e: &ArrayExpr) -> Result<List<u32>, Stop>
    ensures { Gives result (layered any_kind (λ dims. Ok dims) e.now) }
{
    answer(kind_of(e))?;
    let dims = dims_of(alloc, e)?;
    subscripts(alloc, e)?;
    Ok(dims)
}

/// The layers of a resolved expression that breaks no rule of kinds, dimensions and subscripts: its kind and its dimensions.
#[derive(Drop)]
pub struct Layered {
    pub kind: Kind,
    pub dims: List<u32>,
}

/// The layers of an expression, None where it breaks a rule of kinds, dimensions or subscripts. `NoMemory` is the only other answer.
pub fn layers_of(alloc: Global, e: &ArrayExpr) -> Result<Option<Layered>, NoMemory>
    ensures layers { IfOk result (λ found. IfSome found (IsLayered e.now)) }
    ensures broken { result ≡ Ok None → BreaksLayers e.now }
{
    let Ok(kind) = kind_of(e) else {
        return Ok(None);
    };
    let dims = match dims_of(alloc, e) {
        Ok(dims) => dims,
        Err(Stop::Broken(_)) => return Ok(None),
        Err(Stop::NoMemory) => return Err(NoMemory),
    };
    match subscripts(alloc, e) {
        Ok(()) => Ok(Some(Layered { kind, dims })),
        Err(Stop::Broken(_)) => Ok(None),
        Err(Stop::NoMemory) => Err(NoMemory),
    }
}

/// Whether an index has one number for each dimension, from 1 to its size.
pub fn is_index(dims: &[u32], index: &[u32]) -> bool
    ensures { result ≡ is_index dims.now index.now }
{
    match dims {
        [] => index.is_empty(),
        [n, more @ ..] => match index {
            [] => false,
            [k, rest @ ..] => 1 <= *k && *k <= *n && is_index(more, rest),
        },
    }
}

/// Whether indices that are pending for an expression of these dimensions fit them: a scalar breaks rule 23 at that place, another number
/// of dimensions rule 33, an index outside rule 31.
pub fn fitted(place: Place, index: &[u32], dims: &[u32]) -> Result<(), Broken>
    ensures { result ≡ fitted place index.now dims.now }
{
    if dims.is_empty() {
        return if index.is_empty() {
            Ok(())
        } else {
            Err(broken(rules::WRONG_EACH, place))
        };
    }
    if index.len() != dims.len() {
        return Err(broken(rules::WRONG_TYPE, place));
    }
    if is_index(dims, index) {
        Ok(())
    } else {
        Err(broken(rules::WRONG_SIZE, place))
    }
}

/// Asks an expression of any kind that fits its pending indices.
pub fn fitting(alloc: Global, place: Place, index: &[u32], e: &ArrayExpr) -> Result<(), Stop>
    ensures { Gives result (layered any_kind (fitted place index.now) e.now) }
{
    answer(kind_of(e))?;
    let dims = dims_of(alloc, e)?;
    answer(fitted(place, index, dims.as_slice()))?;
    subscripts(alloc, e)
}

/// Asks a binding of the wanted kind that fits its pending indices.
pub fn binding(
    alloc: Global,
    want: Kind,
    place: Place,
    index: &[u32],
    e: &ArrayExpr,
) -> Result<(), Stop>
    ensures { Gives result (layered (λ got. accepts want got place) (fitted place index.now) e.now) }
{
    let got = answer(kind_of(e))?;
    answer(accepts(want, got, place))?;
    let dims = dims_of(alloc, e)?;
    answer(fitted(place, index, dims.as_slice()))?;
    subscripts(alloc, e)
}

/// The number of a scalar that has to have a value.
pub fn must_be_whole(place: Place, known: Option<Scalar>) -> Result<i64, Broken>
    ensures { result ≡ must_be_whole place known }
{
    match known {
        Some(Scalar::Whole(n)) => Ok(n),
        Some(Scalar::Truth(_)) => Err(broken(rules::NO_VALUE, place)),
        Some(Scalar::Literal(_, _)) => Err(broken(rules::NO_VALUE, place)),
        None => Err(broken(rules::NO_VALUE, place)),
    }
}

/// The value of a condition that has to have one.
pub fn must_be_truth(place: Place, known: Option<Scalar>) -> Result<bool, Broken>
    ensures { result ≡ must_be_truth place known }
{
    match known {
        Some(Scalar::Truth(b)) => Ok(b),
        Some(Scalar::Whole(_)) => Err(broken(rules::NO_VALUE, place)),
        Some(Scalar::Literal(_, _)) => Err(broken(rules::NO_VALUE, place)),
        None => Err(broken(rules::NO_VALUE, place)),
    }
}
