//! Dimensions of operations by those of their operands, or the rule that these break at the place of the operation: 33 where another
//! number of dimensions is wanted, 31 where the sizes differ.
ghost use Rattle.std.specs.Prelude.{◌≡◌, [], ◌∷◌, IfOk};
ghost use Rattle.mo_typing.specs.Dims.{is_scalar, are_equal, matched, spread, inner_matched, matrix_product, times, added, multiplied, with_operand, settled, with_alike, scalar, with_scalar, raised, related};

use mo_syntax::{Broken, List, NoMemory, Place, broken, rules};
use std::alloc::Global;

/// An operand of a chain: whether it is subtracted or divided by, whether its operator has a dot, and its dimensions.
pub type Operand = (bool, bool, List<u32>);

fn is_scalar(dims: &[u32]) -> bool
    ensures { result ≡ is_scalar dims.now }
{
    dims.is_empty()
}

fn are_equal(a: &[u32], b: &[u32]) -> bool
    ensures { result ≡ are_equal a.now b.now }
{
    a == b
}

/// The dimensions of two operands or sides whose dimensions must be equal: rule 33 at `place` where they are not as many, 31 where
/// their sizes differ. Takes no memory.
pub fn matched(place: Place, a: List<u32>, b: List<u32>) -> Result<List<u32>, Broken>
    ensures { result ≡ matched place a b }
{
    if a.len() != b.len() {
        return Err(broken(rules::WRONG_TYPE, place));
    }
    if !are_equal(a.as_slice(), b.as_slice()) {
        return Err(broken(rules::WRONG_SIZE, place));
    }
    Ok(a)
}

/// The same, where a dotted operator takes a scalar beside an array too. Takes no memory.
pub fn spread(place: Place, dotted: bool, a: List<u32>, b: List<u32>) -> Result<List<u32>, Broken>
    ensures { result ≡ spread place dotted a b }
{
    if dotted && is_scalar(b.as_slice()) {
        return Ok(a);
    }
    if dotted && is_scalar(a.as_slice()) {
        return Ok(b);
    }
    matched(place, a, b)
}

pub(crate) fn list_of_one(alloc: Global, n: u32) -> Result<List<u32>, NoMemory>
    ensures { IfOk result (λ made. made ≡ n ∷ []) }
{
    let mut made = List::new(alloc);
    made.push(n)?;
    Ok(made)
}

pub(crate) fn list_of_two(alloc: Global, n: u32, m: u32) -> Result<List<u32>, NoMemory>
    ensures { IfOk result (λ made. made ≡ n ∷ m ∷ []) }
{
    let mut made = List::new(alloc);
    made.push(n)?;
    made.push(m)?;
    Ok(made)
}

fn inner_matched(place: Place, n: u32, m: u32, dims: List<u32>) -> Result<List<u32>, Broken>
    ensures { result ≡ inner_matched place n m dims }
{
    if n == m {
        Ok(dims)
    } else {
        Err(broken(rules::WRONG_SIZE, place))
    }
}

/// A vector times a vector or a matrix.
fn vector_product(
    alloc: Global,
    place: Place,
    n: u32,
    b: &[u32],
) -> Result<Result<List<u32>, Broken>, NoMemory>
    ensures { IfOk result (λ told. told ≡ matrix_product place (n ∷ []) b.now) }
{
    match b {
        [] => Ok(Err(broken(rules::WRONG_TYPE, place))),
        [m] => Ok(inner_matched(place, n, *m, List::new(alloc))),
        [m, q] => Ok(inner_matched(place, n, *m, list_of_one(alloc, *q)?)),
        [_, _, _, ..] => Ok(Err(broken(rules::WRONG_TYPE, place))),
    }
}

/// A matrix times a vector or a matrix.
fn rows_product(
    alloc: Global,
    place: Place,
    p: u32,
    n: u32,
    b: &[u32],
) -> Result<Result<List<u32>, Broken>, NoMemory>
    ensures { IfOk result (λ told. told ≡ matrix_product place (p ∷ n ∷ []) b.now) }
{
    match b {
        [] => Ok(Err(broken(rules::WRONG_TYPE, place))),
        [m] => Ok(inner_matched(place, n, *m, list_of_one(alloc, p)?)),
        [m, q] => Ok(inner_matched(place, n, *m, list_of_two(alloc, p, *q)?)),
        [_, _, _, ..] => Ok(Err(broken(rules::WRONG_TYPE, place))),
    }
}

/// Vectors and matrices multiplied.
fn matrix_product(
    alloc: Global,
    place: Place,
    a: &[u32],
    b: &[u32],
) -> Result<Result<List<u32>, Broken>, NoMemory>
    ensures { IfOk result (λ told. told ≡ matrix_product place a.now b.now) }
{
    match a {
        [] => Ok(Err(broken(rules::WRONG_TYPE, place))),
        [n] => vector_product(alloc, place, *n, b),
        [p, n] => rows_product(alloc, place, *p, *n, b),
        [_, _, _, ..] => Ok(Err(broken(rules::WRONG_TYPE, place))),
    }
}

/// `*`, `/`, `.*` or `./`. `NoMemory` is the only other answer.
pub fn times(
    alloc: Global,
    place: Place,
    divide: bool,
    dotted: bool,
    a: List<u32>,
    b: List<u32>,
) -> Result<Result<List<u32>, Broken>, NoMemory>
    ensures { IfOk result (λ told. told ≡ times place divide dotted a b) }
{
    if dotted {
        return Ok(spread(place, dotted, a, b));
    }
    if is_scalar(b.as_slice()) {
        return Ok(Ok(a));
    }
    if divide {
        return Ok(Err(broken(rules::WRONG_TYPE, place)));
    }
    if is_scalar(a.as_slice()) {
        return Ok(Ok(b));
    }
    matrix_product(alloc, place, a.as_slice(), b.as_slice())
}

/// A sum so far with one more term. Takes no memory.
pub fn added(place: Place, so_far: Option<List<u32>>, term: Operand) -> Result<List<u32>, Broken>
    ensures { result ≡ added place so_far term }
{
    match so_far {
        None => Ok(term.2),
        Some(dims) => spread(place, term.1, dims, term.2),
    }
}

/// A product so far with one more factor. `NoMemory` is the only other answer.
pub fn multiplied(
    alloc: Global,
    place: Place,
    so_far: Option<List<u32>>,
    factor: Operand,
) -> Result<Result<List<u32>, Broken>, NoMemory>
    ensures { IfOk result (λ told. told ≡ multiplied place so_far factor) }
{
    match so_far {
        None => Ok(Ok(factor.2)),
        Some(dims) => times(alloc, place, factor.0, factor.1, dims, factor.2),
    }
}

/// A sum with one more term.
pub fn with_term(
    place: Place,
    so_far: Result<Option<List<u32>>, Broken>,
    term: Operand,
) -> Result<Option<List<u32>>, Broken>
    ensures { result ≡ with_operand (added place) so_far term }
{
    let dims = so_far?;
    Ok(Some(added(place, dims, term)?))
}

/// The elements of an array, or the values of an if-expression, with one more.
pub fn with_alike(
    place: Place,
    so_far: Result<Option<List<u32>>, Broken>,
    dims: List<u32>,
) -> Result<Option<List<u32>>, Broken>
    ensures { result ≡ with_alike place so_far dims }
{
    with_term(place, so_far, (false, false, dims))
}

/// A product with one more factor.
pub fn with_factor(
    alloc: Global,
    place: Place,
    so_far: Result<Option<List<u32>>, Broken>,
    factor: Operand,
) -> Result<Result<Option<List<u32>>, Broken>, NoMemory>
    ensures { IfOk result (λ told. told ≡ with_operand (multiplied place) so_far factor) }
{
    match so_far {
        Err(broken) => Ok(Err(broken)),
        Ok(dims) => match multiplied(alloc, place, dims, factor)? {
            Err(broken) => Ok(Err(broken)),
            Ok(dims) => Ok(Ok(Some(dims))),
        },
    }
}

/// The dimensions of a whole chain.
pub fn chained(
    alloc: Global,
    so_far: Result<Option<List<u32>>, Broken>,
) -> Result<List<u32>, Broken>
    ensures { result ≡ settled so_far }
{
    match so_far? {
        None => Ok(List::new(alloc)),
        Some(dims) => Ok(dims),
    }
}

/// What must be a scalar.
pub fn scalar(alloc: Global, place: Place, dims: List<u32>) -> Result<List<u32>, Broken>
    ensures { result ≡ scalar place dims }
{
    if is_scalar(dims.as_slice()) {
        Ok(List::new(alloc))
    } else {
        Err(broken(rules::WRONG_TYPE, place))
    }
}

/// One more operand that must be a scalar.
pub fn with_scalar(
    alloc: Global,
    place: Place,
    so_far: Result<List<u32>, Broken>,
    dims: List<u32>,
) -> Result<List<u32>, Broken>
    ensures { result ≡ with_scalar place so_far dims }
{
    so_far?;
    scalar(alloc, place, dims)
}

/// Two operands that must be scalars.
pub fn related(alloc: Global, place: Place, a: List<u32>, b: List<u32>) -> Result<List<u32>, Broken>
    ensures { result ≡ related place a b }
{
    scalar(alloc, place, a)?;
    scalar(alloc, place, b)
}

/// A power.
pub fn raised(
    alloc: Global,
    place: Place,
    dotted: bool,
    a: List<u32>,
    b: List<u32>,
) -> Result<List<u32>, Broken>
    ensures { result ≡ raised place dotted a b }
{
    if dotted {
        spread(place, true, a, b)
    } else {
        related(alloc, place, a, b)
    }
}
