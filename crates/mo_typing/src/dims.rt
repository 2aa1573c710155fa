//! The dimensions of an array expression.
ghost use Rattle.std.specs.Prelude.{◌≡◌, map, fold, IfOk, Ok, None};
ghost use Rattle.std.specs.Option.{option_map};
ghost use Rattle.mo_syntax.specs.Outcome.{and_then, IfBroken};
ghost use Rattle.mo_typing.specs.Outcome.{Gives};
ghost use Rattle.mo_typing.specs.Dims.{dims_of, dims_of_node, part_of, dims_of_all, operands_of, condition, dims_of_branches, chain, added, multiplied, with_alike, alike, array, choice, both, raised, related, scalar, scalars, call, range, size_dims, filling, sized, signed_parts, branch_parts};

use crate::extents::{
    call_of_one, call_of_two, count, filled, headed, range, size_dims, sizes_of, subscripted,
};
use crate::operands::{
    chained, raised, related, scalar, with_alike, with_factor, with_scalar, with_term,
};
use crate::shapes::is_scalar;
use mo_flat::{ArrayExpr, ArrayNode};
use mo_syntax::{Broken, List, NoMemory, Place, Stop, broken, rules};
use std::alloc::Global;

/// How many vectors and matrices a product may have: its elements are two calls deeper for each of them.
const MOST_ARRAYS: u32 = 48;

/// The dimensions of an expression, the first one first, or the first rule that they break: 33 where another number of
/// dimensions is wanted, 31 where the sizes differ, at a range with step 0 or more than 4,294,967,295 numbers, and at a size
/// that is negative or above that number. Operands come before their operation, and left before right. `NoMemory` is the only
/// other answer.
pub fn dims_of(alloc: Global, e: &ArrayExpr) -> Result<List<u32>, Stop>
    ensures ok { IfOk result (λ dims. dims_of e.now ≡ Ok dims) }
    ensures refused { IfBroken result (λ broken. dims_of e.now ≡ Err broken) }
{
    dims(alloc, e)
}

/// An outcome as an answer.
fn answer(told: Result<List<u32>, Broken>) -> Result<List<u32>, Stop>
    ensures { Gives result told }
{
    match told {
        Ok(dims) => Ok(dims),
        Err(broken) => Err(Stop::Broken(broken)),
    }
}

#[cycle(dims)]
fn dims(alloc: Global, e: &ArrayExpr) -> Result<List<u32>, Stop>
    ensures { Gives result (dims_of e.now) }
{
    dims_of_node(alloc, e.node.get(), e.place)
}

#[cycle(dims)]
fn dims_of_node(alloc: Global, node: &ArrayNode, place: Place) -> Result<List<u32>, Stop>
    ensures { Gives result (dims_of_node node.now place) }
{
    match node {
        ArrayNode::Whole(_) => Ok(List::new(alloc)),
        ArrayNode::Decimal(_) => Ok(List::new(alloc)),
        ArrayNode::Str(_) => Ok(List::new(alloc)),
        ArrayNode::Truth(_) => Ok(List::new(alloc)),
        ArrayNode::Literal(_, _, _) => Ok(List::new(alloc)),
        ArrayNode::Time => Ok(List::new(alloc)),
        ArrayNode::Vars {
            vars: _,
            kind: _,
            dims,
            subs,
        } => Ok(subscripted(alloc, subs.as_slice(), dims.as_slice())?),
        ArrayNode::Sum(terms) => of_terms(alloc, terms.as_slice(), place),
        ArrayNode::Product(factors) => of_factors(alloc, factors.as_slice(), place),
        ArrayNode::Power(base, dotted, exponent) => {
            of_power(alloc, base, *dotted, exponent, place)
        }
        ArrayNode::Relation(_, left, right) => of_relation(alloc, left, right, place),
        ArrayNode::Not(inner) => of_negation(alloc, inner, place),
        ArrayNode::All(parts) => of_scalars(alloc, parts.as_slice(), place),
        ArrayNode::Any(parts) => of_scalars(alloc, parts.as_slice(), place),
        ArrayNode::If(branches, other) => of_choice(alloc, branches.as_slice(), other, place),
        ArrayNode::Call(function, args) => of_call(alloc, *function, args.as_slice(), place),
        ArrayNode::Der(inner) => dims(alloc, inner),
        ArrayNode::Array(parts) => of_array(alloc, parts.as_slice(), place),
        ArrayNode::Range(first, step, last) => of_range(alloc, *first, *step, *last, place),
        ArrayNode::Size(inner, at) => of_size(alloc, inner, at),
        ArrayNode::Sized(function, part, sizes) => {
            of_sized(alloc, *function, part, sizes.as_slice(), place)
        }
    }
}

#[cycle(dims)]
fn of_terms(
    alloc: Global,
    terms: &[(bool, bool, ArrayExpr)],
    place: Place,
) -> Result<List<u32>, Stop>
    ensures { Gives result (and_then (operands_of (signed_parts terms.now)) (chain (added place))) }
{
    let mut all = Ok(None);
    for term in terms {
        let shape = dims(alloc, &term.2)?;
        all = with_term(place, all, (term.0, term.1, shape));
    }
    answer(chained(alloc, all))
}

/// How many factors of a product are arrays that are not multiplied element by element, with one more factor of these dimensions.
fn with_array(arrays: u32, dotted: bool, dims: &[u32]) -> Result<u32, NoMemory> {
    if dotted || is_scalar(dims) {
        return Ok(arrays);
    }
    if arrays >= MOST_ARRAYS {
        return Err(NoMemory);
    }
    Ok(arrays + 1)
}

#[cycle(dims)]
fn of_factors(
    alloc: Global,
    factors: &[(bool, bool, ArrayExpr)],
    place: Place,
) -> Result<List<u32>, Stop>
    ensures { Gives result (and_then (operands_of (signed_parts factors.now)) (chain (multiplied place))) }
{
    let mut all = Ok(None);
    let mut arrays = 0;
    for factor in factors {
        let shape = dims(alloc, &factor.2)?;
        arrays = with_array(arrays, factor.1, shape.as_slice())?;
        all = with_factor(alloc, place, all, (factor.0, factor.1, shape))?;
    }
    answer(chained(alloc, all))
}

#[cycle(dims)]
fn of_power(
    alloc: Global,
    base: &ArrayExpr,
    dotted: bool,
    exponent: &ArrayExpr,
    place: Place,
) -> Result<List<u32>, Stop>
    ensures { Gives result (both (part_of base.now) (part_of exponent.now) (raised place dotted)) }
{
    let a = dims(alloc, base)?;
    let b = dims(alloc, exponent)?;
    answer(raised(alloc, place, dotted, a, b))
}

#[cycle(dims)]
fn of_relation(
    alloc: Global,
    left: &ArrayExpr,
    right: &ArrayExpr,
    place: Place,
) -> Result<List<u32>, Stop>
    ensures { Gives result (both (part_of left.now) (part_of right.now) (related place)) }
{
    let a = dims(alloc, left)?;
    let b = dims(alloc, right)?;
    answer(related(alloc, place, a, b))
}

#[cycle(dims)]
fn of_negation(alloc: Global, inner: &ArrayExpr, place: Place) -> Result<List<u32>, Stop>
    ensures { Gives result (and_then (dims_of inner.now) (scalar place)) }
{
    let shape = dims(alloc, inner)?;
    answer(scalar(alloc, place, shape))
}

#[cycle(dims)]
fn of_scalars(alloc: Global, parts: &[ArrayExpr], place: Place) -> Result<List<u32>, Stop>
    ensures { Gives result (and_then (dims_of_all (map part_of parts.now)) (scalars place)) }
{
    let mut all = Ok(List::new(alloc));
    for part in parts {
        let shape = dims(alloc, part)?;
        all = with_scalar(alloc, place, all, shape);
    }
    answer(all)
}

#[cycle(dims)]
fn of_condition(alloc: Global, e: &ArrayExpr) -> Result<List<u32>, Stop>
    ensures { Gives result (condition (part_of e.now)) }
{
    let shape = dims(alloc, e)?;
    answer(scalar(alloc, e.place, shape))
}

#[cycle(dims)]
fn of_branches(
    alloc: Global,
    branches: &[(ArrayExpr, ArrayExpr)],
    place: Place,
) -> Result<Result<Option<List<u32>>, Broken>, Stop>
    ensures { Gives result (and_then (dims_of_branches (branch_parts branches.now)) (λ all. Ok (fold (with_alike place) (Ok None) all))) }
{
    let mut all = Ok(None);
    for branch in branches {
        of_condition(alloc, &branch.0)?;
        let shape = dims(alloc, &branch.1)?;
        all = with_alike(place, all, shape);
    }
    Ok(all)
}

#[cycle(dims)]
fn of_choice(
    alloc: Global,
    branches: &[(ArrayExpr, ArrayExpr)],
    other: &ArrayExpr,
    place: Place,
) -> Result<List<u32>, Stop>
    ensures { Gives result (choice (branch_parts branches.now) (part_of other.now) place) }
{
    let all = of_branches(alloc, branches, place)?;
    let shape = dims(alloc, other)?;
    answer(chained(alloc, with_alike(place, all, shape)))
}

#[cycle(dims)]
fn of_elements(alloc: Global, parts: &[ArrayExpr], place: Place) -> Result<List<u32>, Stop>
    ensures { Gives result (and_then (dims_of_all (map part_of parts.now)) (alike place)) }
{
    let mut all = Ok(None);
    for part in parts {
        let shape = dims(alloc, part)?;
        all = with_alike(place, all, shape);
    }
    answer(chained(alloc, all))
}

#[cycle(dims)]
fn of_array(alloc: Global, parts: &[ArrayExpr], place: Place) -> Result<List<u32>, Stop>
    ensures { Gives result (array (map part_of parts.now) place) }
{
    let shape = of_elements(alloc, parts, place)?;
    Ok(headed(alloc, count(parts.len())?, shape)?)
}

#[cycle(dims)]
fn have_dims(alloc: Global, parts: &[ArrayExpr]) -> Result<(), Stop>
    ensures { Gives result (and_then (dims_of_all (map part_of parts.now)) (λ _. Ok tt)) }
{
    for part in parts {
        dims(alloc, part)?;
    }
    Ok(())
}

#[cycle(dims)]
fn of_call(
    alloc: Global,
    function: u16,
    args: &[ArrayExpr],
    place: Place,
) -> Result<List<u32>, Stop>
    ensures { Gives result (and_then (dims_of_all (map part_of args.now)) (call place function)) }
{
    match args {
        [] => Err(Stop::Broken(broken(rules::WRONG_TYPE, place))),
        [only] => {
            let shape = dims(alloc, only)?;
            answer(call_of_one(alloc, place, function, shape)?)
        }
        [first, second] => {
            let a = dims(alloc, first)?;
            let b = dims(alloc, second)?;
            answer(call_of_two(alloc, place, function, a, b)?)
        }
        [_, _, _, ..] => {
            have_dims(alloc, args)?;
            Err(Stop::Broken(broken(rules::WRONG_TYPE, place)))
        }
    }
}

fn of_range(
    alloc: Global,
    first: i64,
    step: i64,
    last: i64,
    place: Place,
) -> Result<List<u32>, Stop>
    ensures { Gives result (range place first step last) }
{
    answer(range(alloc, place, first, step, last)?)
}

#[cycle(dims)]
fn of_size(alloc: Global, inner: &ArrayExpr, at: &Option<(Place, i64)>) -> Result<List<u32>, Stop>
    ensures { Gives result (and_then (dims_of inner.now) (λ dims. Ok (size_dims at.now dims))) }
{
    let shape = dims(alloc, inner)?;
    Ok(size_dims(alloc, at, shape.as_slice())?)
}

#[cycle(dims)]
fn of_filling(alloc: Global, part: &Option<ArrayExpr>) -> Result<List<u32>, Stop>
    ensures { Gives result (filling (option_map part_of part.now)) }
{
    match part {
        None => Ok(List::new(alloc)),
        Some(e) => dims(alloc, e),
    }
}

#[cycle(dims)]
fn of_sized(
    alloc: Global,
    function: u16,
    part: &Option<ArrayExpr>,
    sizes: &[(Place, i64)],
    place: Place,
) -> Result<List<u32>, Stop>
    ensures { Gives result (sized function (option_map part_of part.now) sizes.now place) }
{
    let filling = of_filling(alloc, part)?;
    let made = sizes_of(alloc, sizes)?;
    answer(filled(alloc, place, function, filling, made)?)
}
