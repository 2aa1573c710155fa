//! Indices of array expressions, and the elements that they mean. Indices count from 1.
ghost use Rattle.std.specs.Prelude.{◌≡◌, ◌-◌, ◌++◌, IfOk, OnOk, length, take, drop, nat_eq};
ghost use Rattle.std.specs.List.{list_any};
ghost use Rattle.mo_typing.specs.Shape.{or_scalar};
ghost use Rattle.mo_typing.specs.Indices.{own, first_number, located, offset, variable_at, number_at, range_element, is_diagonal};

use crate::shapes::{is_scalar, joined_lists, size_of};
use mo_flat::Subscript;
use mo_syntax::{List, NoMemory};
use std::alloc::Global;

fn is_none(size: u32) -> bool
    ensures { result ≡ nat_eq size 0 }
{
    size == 0
}

/// Whether one of these dimensions is 0, so that there is no index, however large the others are.
pub fn has_none(dims: &[u32]) -> bool
    ensures { result ≡ list_any (λ n. nat_eq n 0) dims.now }
{
    for size in dims {
        if is_none(*size) {
            return true;
        }
    }
    false
}

/// The first number of an index; 0 where it has none.
pub fn first_number(index: &[u32]) -> u32
    ensures { result ≡ first_number index.now }
{
    match index {
        [] => 0,
        [k, ..] => *k,
    }
}

/// Whether both numbers of an index of a matrix are the same.
pub fn is_diagonal(index: &[u32]) -> bool
    ensures { result ≡ is_diagonal index.now }
{
    match index {
        [i, j] => i == j,
        [] => false,
        [_] => false,
        [_, _, _, ..] => false,
    }
}

/// How many numbers of an index of a product of these dimensions are those of its left operand; none of no dimensions.
pub fn rows_of(dims: &Option<List<u32>>) -> usize
    ensures { result ≡ length (or_scalar dims.now) - 1 }
{
    match dims {
        None => 0,
        Some(dims) => dims.len().saturating_sub(1),
    }
}

/// The first n numbers of an index.
pub fn first_of(index: &[u32], n: usize) -> &[u32]
    ensures { result.now ≡ take n index.now }
{
    if n >= index.len() {
        return index;
    }
    &index[..n]
}

/// The numbers of an index behind the first n.
pub fn rest_of(index: &[u32], n: usize) -> &[u32]
    ensures { result.now ≡ drop n index.now }
{
    if n >= index.len() {
        return &[];
    }
    &index[n..]
}

/// The index of an operand of these dimensions beside an array: none for a scalar.
pub fn owned<'a>(dims: &Option<List<u32>>, index: &'a [u32]) -> &'a [u32]
    ensures { result.now ≡ own (or_scalar dims.now) index.now }
{
    match dims {
        None => &[],
        Some(dims) => {
            if is_scalar(dims.as_slice()) {
                &[]
            } else {
                index
            }
        }
    }
}

/// The number of a range from `first` by `step` at an index; one past 64 bits is answered by want of memory. So many steps may leave 64
/// bits where the number does not.
pub fn range_element(first: i64, step: i64, index: &[u32]) -> Result<i64, NoMemory>
    ensures { IfOk result (λ n. n ≡ range_element first step index.now) }
{
    let steps = i128::from(first_number(index).saturating_sub(1));
    let Some(way) = steps.checked_mul(i128::from(step)) else {
        return Err(NoMemory);
    };
    let Some(number) = i128::from(first).checked_add(way) else {
        return Err(NoMemory);
    };
    match i64::try_from(number) {
        Err(_) => Err(NoMemory),
        Ok(n) => Ok(n),
    }
}

/// The number at place k, from 1; 0 where there is none, and one past 32 bits is answered by want of memory.
pub fn number_at(numbers: &[i64], k: u32) -> Result<u32, NoMemory>
    ensures { IfOk result (λ n. n ≡ number_at numbers.now k) }
{
    match numbers.get(k.saturating_sub(1) as usize) {
        None => Ok(0),
        Some(n) => size_of(*n),
    }
}

/// Puts the index of the variable's element that an index of the subscripted array means at the end.
fn push_located(
    alloc: Global,
    made: &mut List<u32>,
    subs: &[Subscript],
    index: &[u32],
) -> Result<(), NoMemory>
    ensures { OnOk result (made.new ≡ made.old ++ located subs.now index.now) }
{
    match subs {
        [] => {
            made.append(joined_lists(alloc, index, &[])?)?;
            Ok(())
        }
        [Subscript::One(_, n), more @ ..] => {
            made.push(size_of(*n)?)?;
            push_located(alloc, made, more, index)
        }
        [Subscript::All, more @ ..] => match index {
            [] => Ok(()),
            [k, rest @ ..] => {
                made.push(*k)?;
                push_located(alloc, made, more, rest)
            }
        },
        [Subscript::Many(_, numbers), more @ ..] => match index {
            [] => Ok(()),
            [k, rest @ ..] => {
                made.push(number_at(numbers.as_slice(), *k)?)?;
                push_located(alloc, made, more, rest)
            }
        },
    }
}

/// The index of the variable's element that an index of the subscripted array means. `NoMemory` is the only other answer.
pub fn located(alloc: Global, subs: &[Subscript], index: &[u32]) -> Result<List<u32>, NoMemory>
    ensures { IfOk result (λ made. made ≡ located subs.now index.now) }
{
    let mut made = List::new(alloc);
    push_located(alloc, &mut made, subs, index)?;
    Ok(made)
}

/// How many elements stand before that of an index, in rows of `before` that stand before; a number past 64 bits is answered by
/// want of memory.
pub fn offset(before: usize, dims: &[u32], index: &[u32]) -> Result<usize, NoMemory>
    ensures { IfOk result (λ n. n ≡ offset before dims.now index.now) }
{
    match dims {
        [] => Ok(before),
        [n, more @ ..] => match index {
            [] => Ok(before),
            [k, rest @ ..] => {
                let Some(rows) = before.checked_mul(*n as usize) else {
                    return Err(NoMemory);
                };
                let Some(next) = rows.checked_add(k.saturating_sub(1) as usize) else {
                    return Err(NoMemory);
                };
                offset(next, more, rest)
            }
        },
    }
}

/// The number of the variable at an index of an array whose elements have these numbers; 0 where there is none.
pub fn variable_at(vars: &[u32], dims: &[u32], index: &[u32]) -> Result<u32, NoMemory>
    ensures { IfOk result (λ n. n ≡ variable_at vars.now dims.now index.now) }
{
    match vars.get(offset(0, dims, index)?) {
        None => Ok(0),
        Some(v) => Ok(*v),
    }
}
