//! The dimensions of expressions whose dimensions break no rule, read off the operands that decide them.
ghost use Rattle.std.specs.Prelude.{◌≡◌, ◌-◌, ◌++◌, ◌∷◌, [], map, fold, length, IfOk, None};
ghost use Rattle.mo_typing.specs.Dims.{is_scalar, behind, shaped, size_dims};
ghost use Rattle.mo_typing.specs.Shape.{operand, power_shape, front, shape_of, shape_of_node, or_scalar, added, multiplied, is_matrix_factor, product_dims, call_shape, size_of, range_shape, swapped, first};

use crate::extents::{range, shaped, subscripted};
use mo_flat::{ArrayExpr, ArrayNode};
use mo_syntax::{List, NoMemory, Place};
use mo_tables::functions;
use std::alloc::Global;

/// An operand of a chain: whether it is subtracted or divided by, whether its operator has a dot, and the operand.
pub type Signed = (bool, bool, ArrayExpr);

/// Whether there are no dimensions.
pub fn is_scalar(dims: &[u32]) -> bool
    ensures { result ≡ is_scalar dims.now }
{
    dims.is_empty()
}

/// Dimensions, or the numbers of an index, behind others. `NoMemory` is the only other answer.
pub fn joined_lists(alloc: Global, a: &[u32], b: &[u32]) -> Result<List<u32>, NoMemory>
    ensures { IfOk result (λ made. made ≡ a.now ++ b.now) }
{
    let mut made = List::new(alloc);
    for n in a {
        made.push(*n)?;
    }
    for n in b {
        made.push(*n)?;
    }
    Ok(made)
}

fn front(dims: &[u32]) -> &[u32]
    ensures { result.now ≡ front dims.now }
{
    if dims.is_empty() {
        return dims;
    }
    &dims[..dims.len() - 1]
}

fn behind(dims: &[u32]) -> &[u32]
    ensures { result.now ≡ behind dims.now }
{
    match dims {
        [] => dims,
        [_, more @ ..] => more,
    }
}

/// The dimensions of a product of matrices or vectors: the rows of the left, the columns of the right. `NoMemory` is the only other
/// answer.
pub fn product_dims(alloc: Global, a: &[u32], b: &[u32]) -> Result<List<u32>, NoMemory>
    ensures { IfOk result (λ made. made ≡ product_dims a.now b.now) }
{
    joined_lists(alloc, front(a), behind(b))
}

/// Whether a factor multiplies the chain so far as a matrix or a vector.
pub fn is_matrix_factor(so_far: &Option<List<u32>>, factor: &(bool, bool, List<u32>)) -> bool
    ensures { result ≡ is_matrix_factor so_far.now factor.now }
{
    match so_far {
        None => false,
        Some(dims) => {
            !(factor.1 || is_scalar(dims.as_slice()) || is_scalar(factor.2.as_slice()))
        }
    }
}

/// The dimensions of a chain of factors with one more. `NoMemory` is the only other answer.
pub fn multiplied(
    alloc: Global,
    so_far: Option<List<u32>>,
    factor: (bool, bool, List<u32>),
) -> Result<Option<List<u32>>, NoMemory>
    ensures { IfOk result (λ made. made ≡ multiplied so_far factor) }
{
    let matrix = is_matrix_factor(&so_far, &factor);
    match so_far {
        None => Ok(Some(factor.2)),
        Some(dims) => {
            if matrix {
                Ok(Some(product_dims(alloc, dims.as_slice(), factor.2.as_slice())?))
            } else if is_scalar(dims.as_slice()) {
                Ok(Some(factor.2))
            } else {
                Ok(Some(dims))
            }
        }
    }
}

/// The dimensions of a chain; none of a chain without operands.
pub fn or_scalar(alloc: Global, dims: Option<List<u32>>) -> List<u32>
    ensures { result ≡ or_scalar dims }
{
    match dims {
        None => List::new(alloc),
        Some(dims) => dims,
    }
}

/// The first two dimensions, or numbers of an index, exchanged. `NoMemory` is the only other answer.
pub fn swapped(alloc: Global, dims: &[u32]) -> Result<List<u32>, NoMemory>
    ensures { IfOk result (λ made. made ≡ swapped dims.now) }
{
    match dims {
        [] => Ok(List::new(alloc)),
        [_] => joined_lists(alloc, dims, &[]),
        [n, m, more @ ..] => {
            let mut made = List::new(alloc);
            made.push(*m)?;
            made.push(*n)?;
            made.append(joined_lists(alloc, more, &[])?)?;
            Ok(made)
        }
    }
}

/// A size that breaks no rule; one past 32 bits is answered by want of memory.
pub fn size_of(n: i64) -> Result<u32, NoMemory>
    ensures { IfOk result (λ m. m ≡ size_of n) }
{
    if n < 0 {
        return Ok(0);
    }
    if n > 4294967295 {
        return Err(NoMemory);
    }
    Ok(n as u32)
}

fn sizes_of(alloc: Global, sizes: &[(Place, i64)]) -> Result<List<u32>, NoMemory>
    ensures { IfOk result (λ made. made ≡ map (λ n. size_of n.1) sizes.now) }
{
    let mut made = List::new(alloc);
    for n in sizes {
        made.push(size_of(n.1)?)?;
    }
    Ok(made)
}

fn range_shape(alloc: Global, first: i64, step: i64, last: i64) -> Result<List<u32>, NoMemory>
    ensures { IfOk result (λ made. made ≡ range_shape first step last) }
{
    if step == 0 {
        return Ok(List::new(alloc));
    }
    let place = Place { file: 0, byte: 0 };
    match range(alloc, place, first, step, last)? {
        Ok(dims) => Ok(dims),
        Err(_) => Err(NoMemory),
    }
}

fn list_of_one(alloc: Global, n: usize) -> Result<List<u32>, NoMemory>
    ensures { IfOk result (λ made. made ≡ n ∷ []) }
{
    if n > 4294967295 {
        return Err(NoMemory);
    }
    let mut made = List::new(alloc);
    made.push(n as u32)?;
    Ok(made)
}

/// The dimensions of an expression whose dimensions break no rule. One past 32 bits is answered by want of memory, and `NoMemory` is
/// the only other answer.
#[cycle(shape)]
pub fn shape(alloc: Global, e: &ArrayExpr) -> Result<List<u32>, NoMemory>
    ensures { IfOk result (λ dims. dims ≡ shape_of e.now) }
{
    shape_of_node(alloc, e.node.get())
}

#[cycle(shape)]
fn shape_of_node(alloc: Global, node: &ArrayNode) -> Result<List<u32>, NoMemory>
    ensures { IfOk result (λ dims. dims ≡ shape_of_node node.now) }
{
    match node {
        ArrayNode::Whole(_) => Ok(List::new(alloc)),
        ArrayNode::Decimal(_) => Ok(List::new(alloc)),
        ArrayNode::Str(_) => Ok(List::new(alloc)),
        ArrayNode::Truth(_) => Ok(List::new(alloc)),
        ArrayNode::Literal(_, _, _) => Ok(List::new(alloc)),
        ArrayNode::Time => Ok(List::new(alloc)),
        ArrayNode::Vars {
            vars: _,
            kind: _,
            dims,
            subs,
        } => subscripted(alloc, subs.as_slice(), dims.as_slice()),
        ArrayNode::Sum(terms) => of_terms(alloc, terms.as_slice()),
        ArrayNode::Product(factors) => of_factors(alloc, factors.as_slice()),
        ArrayNode::Power(base, dotted, exponent) => of_power(alloc, base, *dotted, exponent),
        ArrayNode::Relation(_, _, _) => Ok(List::new(alloc)),
        ArrayNode::Not(_) => Ok(List::new(alloc)),
        ArrayNode::All(_) => Ok(List::new(alloc)),
        ArrayNode::Any(_) => Ok(List::new(alloc)),
        ArrayNode::If(_, other) => shape(alloc, other),
        ArrayNode::Call(function, args) => of_call(alloc, *function, args.as_slice()),
        ArrayNode::Der(inner) => shape(alloc, inner),
        ArrayNode::Array(parts) => of_array(alloc, parts.as_slice()),
        ArrayNode::Range(first, step, last) => range_shape(alloc, *first, *step, *last),
        ArrayNode::Size(inner, at) => of_size(alloc, inner, at),
        ArrayNode::Sized(function, _, sizes) => {
            shaped(*function, sizes_of(alloc, sizes.as_slice())?)
        }
    }
}

#[cycle(shape)]
fn with_term(
    alloc: Global,
    so_far: Option<List<u32>>,
    term: &Signed,
) -> Result<Option<List<u32>>, NoMemory>
    ensures { IfOk result (λ made. made ≡ added so_far (operand term.now)) }
{
    match so_far {
        None => Ok(Some(shape(alloc, &term.2)?)),
        Some(dims) => {
            if term.1 && is_scalar(dims.as_slice()) {
                Ok(Some(shape(alloc, &term.2)?))
            } else {
                Ok(Some(dims))
            }
        }
    }
}

#[cycle(shape)]
fn of_terms(alloc: Global, terms: &[Signed]) -> Result<List<u32>, NoMemory>
    ensures { IfOk result (λ dims. dims ≡ or_scalar (fold added None (map operand terms.now))) }
{
    let mut all = None;
    for term in terms {
        all = with_term(alloc, all, term)?;
    }
    Ok(or_scalar(alloc, all))
}

/// The dimensions of a chain of factors with one more, which are asked of it. `NoMemory` is the only other answer.
#[cycle(shape)]
pub fn with_factor(
    alloc: Global,
    so_far: Option<List<u32>>,
    factor: &Signed,
) -> Result<Option<List<u32>>, NoMemory>
    ensures { IfOk result (λ made. made ≡ multiplied so_far (operand factor.now)) }
{
    let dims = shape(alloc, &factor.2)?;
    multiplied(alloc, so_far, (factor.0, factor.1, dims))
}

#[cycle(shape)]
fn of_factors(alloc: Global, factors: &[Signed]) -> Result<List<u32>, NoMemory>
    ensures { IfOk result (λ dims. dims ≡ or_scalar (fold multiplied None (map operand factors.now))) }
{
    let mut all = None;
    for factor in factors {
        all = with_factor(alloc, all, factor)?;
    }
    Ok(or_scalar(alloc, all))
}

#[cycle(shape)]
fn of_power(
    alloc: Global,
    base: &ArrayExpr,
    dotted: bool,
    exponent: &ArrayExpr,
) -> Result<List<u32>, NoMemory>
    ensures { IfOk result (λ dims. dims ≡ power_shape dotted (shape_of base.now) (shape_of exponent.now)) }
{
    let dims = shape(alloc, base)?;
    if dotted && is_scalar(dims.as_slice()) {
        return shape(alloc, exponent);
    }
    Ok(dims)
}

#[cycle(shape)]
fn of_first(alloc: Global, parts: &[ArrayExpr]) -> Result<List<u32>, NoMemory>
    ensures { IfOk result (λ dims. dims ≡ first (map shape_of parts.now)) }
{
    match parts {
        [] => Ok(List::new(alloc)),
        [part, ..] => shape(alloc, part),
    }
}

#[cycle(shape)]
fn of_call(alloc: Global, function: u16, args: &[ArrayExpr]) -> Result<List<u32>, NoMemory>
    ensures { IfOk result (λ dims. dims ≡ call_shape function (map shape_of args.now)) }
{
    match function {
        functions::NDIMS | functions::PRODUCT | functions::SUM => Ok(List::new(alloc)),
        functions::TRANSPOSE => swapped(alloc, of_first(alloc, args)?.as_slice()),
        functions::CROSS => list_of_one(alloc, 3),
        _ => of_first(alloc, args),
    }
}

#[cycle(shape)]
fn of_array(alloc: Global, parts: &[ArrayExpr]) -> Result<List<u32>, NoMemory>
    ensures { IfOk result (λ dims. dims ≡ length parts.now ∷ first (map shape_of parts.now)) }
{
    let mut made = list_of_one(alloc, parts.len())?;
    made.append(of_first(alloc, parts)?)?;
    Ok(made)
}

#[cycle(shape)]
fn of_size(
    alloc: Global,
    inner: &ArrayExpr,
    at: &Option<(Place, i64)>,
) -> Result<List<u32>, NoMemory>
    ensures { IfOk result (λ dims. dims ≡ size_dims at.now (shape_of inner.now)) }
{
    match at {
        Some(_) => Ok(List::new(alloc)),
        None => list_of_one(alloc, shape(alloc, inner)?.len()),
    }
}
