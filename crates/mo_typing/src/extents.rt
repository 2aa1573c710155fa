//! Dimensions that functions, subscripts, ranges and sizes give. Each call answers want of memory where there is none.
ghost use Rattle.std.specs.Prelude.{◌≡◌, ◌∷◌, [], ◌++◌, drop, IfOk, OnOk};
ghost use Rattle.mo_typing.specs.Outcome.{Gives};
ghost use Rattle.mo_typing.specs.Dims.{transposed, crossed, call_of_one, call_of_two, kept, subscripted, is_past, range, size, sizes_of, shaped, filled, size_dims};

use crate::agree::takes_sizes;
use crate::operands::{list_of_one, related, scalar};
use mo_flat::Subscript;
use mo_syntax::{Broken, List, NoMemory, Place, Stop, broken, rules};
use mo_tables::functions;
use std::alloc::Global;

pub(crate) fn copied(alloc: Global, dims: &[u32]) -> Result<List<u32>, NoMemory>
    ensures { IfOk result (λ made. made ≡ dims.now) }
{
    let mut made = List::new(alloc);
    for n in dims {
        made.push(*n)?;
    }
    Ok(made)
}

/// A count of elements as a dimension; a dimension past 32 bits is answered by want of memory.
pub(crate) fn count(n: usize) -> Result<u32, NoMemory>
    ensures { IfOk result (λ m. m ≡ n) }
{
    if n > 4294967295 {
        return Err(NoMemory);
    }
    Ok(n as u32)
}

/// One more dimension, the first one.
pub(crate) fn headed(alloc: Global, n: u32, dims: List<u32>) -> Result<List<u32>, NoMemory>
    ensures { IfOk result (λ made. made ≡ n ∷ dims) }
{
    let mut made = list_of_one(alloc, n)?;
    made.append(dims)?;
    Ok(made)
}

fn transposed(
    alloc: Global,
    place: Place,
    dims: &[u32],
) -> Result<Result<List<u32>, Broken>, NoMemory>
    ensures { IfOk result (λ told. told ≡ transposed place dims.now) }
{
    match dims {
        [] => Ok(Err(broken(rules::WRONG_TYPE, place))),
        [_] => Ok(Err(broken(rules::WRONG_TYPE, place))),
        [n, m, more @ ..] => {
            let rest = copied(alloc, more)?;
            Ok(Ok(headed(alloc, *m, headed(alloc, *n, rest)?)?))
        }
    }
}

fn crossed_with(
    alloc: Global,
    place: Place,
    n: u32,
    b: &[u32],
) -> Result<Result<List<u32>, Broken>, NoMemory>
    ensures { IfOk result (λ told. told ≡ crossed place (n ∷ []) b.now) }
{
    match b {
        [] => Ok(Err(broken(rules::WRONG_TYPE, place))),
        [m] => {
            if n == 3 && *m == 3 {
                Ok(Ok(list_of_one(alloc, 3)?))
            } else {
                Ok(Err(broken(rules::WRONG_SIZE, place)))
            }
        }
        [_, _, ..] => Ok(Err(broken(rules::WRONG_TYPE, place))),
    }
}

fn crossed(
    alloc: Global,
    place: Place,
    a: &[u32],
    b: &[u32],
) -> Result<Result<List<u32>, Broken>, NoMemory>
    ensures { IfOk result (λ told. told ≡ crossed place a.now b.now) }
{
    match a {
        [] => Ok(Err(broken(rules::WRONG_TYPE, place))),
        [n] => crossed_with(alloc, place, *n, b),
        [_, _, ..] => Ok(Err(broken(rules::WRONG_TYPE, place))),
    }
}

/// A call with one argument; rule 33 where the function takes another number of arguments or of dimensions.
pub fn call_of_one(
    alloc: Global,
    place: Place,
    function: u16,
    dims: List<u32>,
) -> Result<Result<List<u32>, Broken>, NoMemory>
    ensures { IfOk result (λ told. told ≡ call_of_one place function dims) }
{
    match function {
        functions::NDIMS | functions::PRODUCT | functions::SUM => Ok(Ok(List::new(alloc))),
        functions::TRANSPOSE => transposed(alloc, place, dims.as_slice()),
        functions::ATAN2 | functions::CROSS | functions::MAX | functions::MIN => {
            Ok(Err(broken(rules::WRONG_TYPE, place)))
        }
        _ => Ok(Ok(dims)),
    }
}

/// A call with two arguments; rule 33 where the function takes another number of arguments or of dimensions, 31 at `cross` of
/// vectors of another size than 3.
pub fn call_of_two(
    alloc: Global,
    place: Place,
    function: u16,
    a: List<u32>,
    b: List<u32>,
) -> Result<Result<List<u32>, Broken>, NoMemory>
    ensures { IfOk result (λ told. told ≡ call_of_two place function a b) }
{
    match function {
        functions::CROSS => crossed(alloc, place, a.as_slice(), b.as_slice()),
        functions::ATAN2 | functions::MAX | functions::MIN => Ok(related(alloc, place, a, b)),
        _ => Ok(Err(broken(rules::WRONG_TYPE, place))),
    }
}

/// Puts what the subscript at place k leaves of a dimension at the end.
fn push_kept(made: &mut List<u32>, subs: &[Subscript], k: usize, n: u32) -> Result<(), NoMemory>
    ensures { OnOk result (made.new ≡ made.old ++ kept (drop k subs.now) n) }
{
    if k >= subs.len() {
        made.push(n)?;
        return Ok(());
    }
    match &subs[k] {
        Subscript::All => {
            made.push(n)?;
            Ok(())
        }
        Subscript::One(_, _) => Ok(()),
        Subscript::Many(_, indices) => {
            made.push(count(indices.len())?)?;
            Ok(())
        }
    }
}

/// What subscripts leave of dimensions, one subscript for each or none at all. `NoMemory` is the only other answer.
pub fn subscripted(alloc: Global, subs: &[Subscript], dims: &[u32]) -> Result<List<u32>, NoMemory>
    ensures { IfOk result (λ made. made ≡ subscripted subs.now dims.now) }
{
    let mut made = List::new(alloc);
    for (k, n) in dims.iter().enumerate() {
        push_kept(&mut made, subs, k, *n)?;
    }
    Ok(made)
}

fn is_past(first: i64, step: i64, last: i64) -> bool
    ensures { result ≡ is_past first step last }
{
    if 0 < step { last < first } else { first < last }
}

/// The dimensions of a range: how many numbers there are from the first one to the last one by a step. Rule 31 at `place` where the
/// step is 0 or there are more than 4,294,967,295 numbers.
pub fn range(
    alloc: Global,
    place: Place,
    first: i64,
    step: i64,
    last: i64,
) -> Result<Result<List<u32>, Broken>, NoMemory>
    ensures { IfOk result (λ told. told ≡ range place first step last) }
{
    if step == 0 {
        return Ok(Err(broken(rules::WRONG_SIZE, place)));
    }
    if is_past(first, step, last) {
        return Ok(Ok(list_of_one(alloc, 0)?));
    }
    let steps = last.abs_diff(first) / step.unsigned_abs();
    if steps >= 4294967295 {
        return Ok(Err(broken(rules::WRONG_SIZE, place)));
    }
    Ok(Ok(list_of_one(alloc, steps as u32 + 1)?))
}

/// A size that is given as an argument.
fn size(n: &(Place, i64)) -> Result<u32, Broken>
    ensures { result ≡ size n.now }
{
    if n.1 < 0 || n.1 > 4294967295 {
        return Err(broken(rules::WRONG_SIZE, n.0));
    }
    Ok(n.1 as u32)
}

/// How many sizes a call may have: the elements of an array are gone through a call for each dimension.
const MOST_SIZES: usize = 256;

/// All sizes that are given as arguments: rule 31 at the first one that is negative or above 4,294,967,295.
pub fn sizes_of(alloc: Global, sizes: &[(Place, i64)]) -> Result<List<u32>, Stop>
    ensures { Gives result (sizes_of sizes.now) }
{
    if sizes.len() > MOST_SIZES {
        return Err(Stop::NoMemory);
    }
    let mut made = List::new(alloc);
    for n in sizes {
        match size(n) {
            Err(broken) => return Err(Stop::Broken(broken)),
            Ok(m) => made.push(m)?,
        }
    }
    Ok(made)
}

/// The dimensions that a function of sizes gives: `identity` is square. `NoMemory` is the only other answer.
pub fn shaped(function: u16, dims: List<u32>) -> Result<List<u32>, NoMemory>
    ensures { IfOk result (λ made. made ≡ shaped function dims) }
{
    let mut made = dims;
    if function != functions::IDENTITY {
        return Ok(made);
    }
    match made.as_slice() {
        [n] => {
            let n = *n;
            made.push(n)?;
            Ok(made)
        }
        [] => Ok(made),
        [_, _, ..] => Ok(made),
    }
}

/// `fill`, `zeros`, `ones` or `identity` with these sizes.
pub fn filled(
    alloc: Global,
    place: Place,
    function: u16,
    filling: List<u32>,
    sizes: List<u32>,
) -> Result<Result<List<u32>, Broken>, NoMemory>
    ensures { IfOk result (λ told. told ≡ filled place function filling sizes) }
{
    if !takes_sizes(function, sizes.len()) {
        return Ok(Err(broken(rules::WRONG_TYPE, place)));
    }
    match scalar(alloc, place, filling) {
        Err(broken) => Ok(Err(broken)),
        Ok(_) => Ok(Ok(shaped(function, sizes)?)),
    }
}

/// `size(A)` or `size(A, i)`.
pub fn size_dims(
    alloc: Global,
    at: &Option<(Place, i64)>,
    dims: &[u32],
) -> Result<List<u32>, NoMemory>
    ensures { IfOk result (λ made. made ≡ size_dims at.now dims.now) }
{
    match at {
        None => list_of_one(alloc, count(dims.len())?),
        Some(_) => Ok(List::new(alloc)),
    }
}
