//! What the subscripts of a reference select.
ghost use Rattle.std.specs.Prelude.{◌≡◌, ◌∷◌, ◌++◌, [], map, flat_map, IfOk, OnOk, is_ok, true};
ghost use Rattle.mo_typing.specs.Indices.{numbers_to};
ghost use Rattle.mo_typing.specs.Shape.{size_of};
ghost use Rattle.mo_typing.specs.Subscripts.{subscript, subscripts, is_within};
ghost use Rattle.std.specs.List.{list_all};
ghost use Rattle.mo_values.specs.Selected.{selected_numbers, selected, emptied};

use mo_flat::Subscript;
use mo_syntax::{Broken, List, NoMemory, broken, rules};
use mo_typing::is_within;
use mo_typing::shapes::size_of;
use std::alloc::Global;

/// The numbers from 1 to n.
fn numbers_to(alloc: Global, n: u32) -> Result<List<u32>, NoMemory>
    ensures { IfOk result (λ made. made ≡ numbers_to n) }
{
    let mut made = List::new(alloc);
    for k in 0..n {
        made.push(k + 1)?;
    }
    Ok(made)
}

fn sizes_of(alloc: Global, numbers: &[i64]) -> Result<List<u32>, NoMemory>
    ensures { IfOk result (λ made. made ≡ map size_of numbers.now) }
{
    let mut made = List::new(alloc);
    for n in numbers {
        made.push(size_of(*n)?)?;
    }
    Ok(made)
}

/// The numbers that a subscript selects in a dimension of that size.
fn selected_numbers(alloc: Global, size: u32, sub: &Subscript) -> Result<List<u32>, NoMemory>
    ensures { IfOk result (λ made. made ≡ selected_numbers size sub.now) }
{
    match sub {
        Subscript::All => numbers_to(alloc, size),
        Subscript::One(_, n) => {
            let mut made = List::new(alloc);
            made.push(size_of(*n)?)?;
            Ok(made)
        }
        Subscript::Many(_, numbers) => sizes_of(alloc, numbers.as_slice()),
    }
}

/// An index behind a number.
fn behind(alloc: Global, k: u32, index: &[u32]) -> Result<List<u32>, NoMemory>
    ensures { IfOk result (λ made. made ≡ k ∷ index.now) }
{
    let mut made = List::new(alloc);
    made.push(k)?;
    for n in index {
        made.push(*n)?;
    }
    Ok(made)
}

/// Puts the indices behind a number at the end.
fn push_behind(
    alloc: Global,
    made: &mut List<List<u32>>,
    k: u32,
    indices: &[List<u32>],
) -> Result<(), NoMemory>
    ensures { OnOk result (made.new ≡ made.old ++ map (λ index. k ∷ index) indices.now) }
{
    for index in indices {
        made.push(behind(alloc, k, index.as_slice())?)?;
    }
    Ok(())
}

/// The indices behind each of these numbers.
fn behind_each(
    alloc: Global,
    numbers: &[u32],
    indices: &[List<u32>],
) -> Result<List<List<u32>>, NoMemory>
    ensures { IfOk result (λ made. made ≡ flat_map (λ k. map (λ index. k ∷ index) indices.now) numbers.now) }
{
    let mut made = List::new(alloc);
    for k in numbers {
        push_behind(alloc, &mut made, *k, indices)?;
    }
    Ok(made)
}

/// Whether a subscript selects no number in a dimension of that size.
fn is_without_numbers(size: u32, sub: &Subscript) -> bool
    ensures { result ≡ true → selected_numbers size sub.now ≡ [] }
{
    match sub {
        Subscript::All => size == 0,
        Subscript::One(_, _) => false,
        Subscript::Many(_, numbers) => numbers.is_empty(),
    }
}

/// Whether one of the subscripts selects nothing, however large the other dimensions are.
#[cycle(nothing)]
fn is_nothing(dims: &[u32], subs: &[Subscript]) -> bool
    ensures { result ≡ true → selected dims.now subs.now ≡ [] }
{
    match dims {
        [] => false,
        [n, more @ ..] => match subs {
            [] => true,
            [sub, others @ ..] => is_without_numbers(*n, sub) || is_nothing(more, others),
        },
    }
}

/// The indices that subscripts select, where each dimension is gone through.
#[cycle(listed)]
fn listed(alloc: Global, dims: &[u32], subs: &[Subscript]) -> Result<List<List<u32>>, NoMemory>
    ensures { IfOk result (λ made. made ≡ selected dims.now subs.now) }
{
    match dims {
        [] => {
            let mut made = List::new(alloc);
            made.push(List::new(alloc))?;
            Ok(made)
        }
        [n, more @ ..] => match subs {
            [] => Ok(List::new(alloc)),
            [sub, others @ ..] => {
                let numbers = selected_numbers(alloc, *n, sub)?;
                let indices = listed(alloc, more, others)?;
                behind_each(alloc, numbers.as_slice(), indices.as_slice())
            }
        },
    }
}

/// The indices that subscripts select, the last one fastest. `NoMemory` is the only other answer.
pub fn selected(
    alloc: Global,
    dims: &[u32],
    subs: &[Subscript],
) -> Result<List<List<u32>>, NoMemory>
    ensures { IfOk result (λ made. made ≡ selected dims.now subs.now) }
{
    if is_nothing(dims, subs) {
        return Ok(List::new(alloc));
    }
    listed(alloc, dims, subs)
}

fn are_within(size: u32, numbers: &[i64]) -> bool
    ensures { result ≡ list_all (is_within size) numbers.now }
{
    for n in numbers {
        if !is_within(size as usize, *n) {
            return false;
        }
    }
    true
}

/// Whether a subscript lies within a dimension of that size.
fn is_inside(size: u32, sub: &Subscript) -> bool
    ensures { result ≡ is_ok (subscript size sub.now) }
{
    match sub {
        Subscript::All => true,
        Subscript::One(_, n) => is_within(size as usize, *n),
        Subscript::Many(_, numbers) => are_within(size, numbers.as_slice()),
    }
}

/// Whether all subscripts lie within their dimensions.
#[cycle(inside)]
pub fn are_inside(dims: &[u32], subs: &[Subscript]) -> bool
    ensures { result ≡ is_ok (subscripts dims.now subs.now) }
{
    match dims {
        [] => true,
        [n, more @ ..] => match subs {
            [] => true,
            [sub, others @ ..] => is_inside(*n, sub) && are_inside(more, others),
        },
    }
}

/// Asks that a subscript lies within a dimension of that size.
fn subscript_within(size: u32, sub: &Subscript) -> Result<(), Broken>
    ensures { result ≡ subscript size sub.now }
{
    if is_inside(size, sub) {
        return Ok(());
    }
    match sub {
        Subscript::All => Ok(()),
        Subscript::One(place, _) => Err(broken(rules::SUBSCRIPT_OUTSIDE, *place)),
        Subscript::Many(place, _) => Err(broken(rules::SUBSCRIPT_OUTSIDE, *place)),
    }
}

/// Asks that all subscripts lie within their dimensions: rule 32 at the first one that does not.
#[cycle(within)]
pub fn within(dims: &[u32], subs: &[Subscript]) -> Result<(), Broken>
    ensures { result ≡ subscripts dims.now subs.now }
{
    match dims {
        [] => Ok(()),
        [n, more @ ..] => match subs {
            [] => Ok(()),
            [sub, others @ ..] => {
                subscript_within(*n, sub)?;
                within(more, others)
            }
        },
    }
}

/// Puts dimensions at the end, those without elements whose subscript lies outside.
#[cycle(emptied)]
fn push_emptied(
    alloc: Global,
    made: &mut List<u32>,
    dims: &[u32],
    subs: &[Subscript],
) -> Result<(), NoMemory>
    ensures { OnOk result (made.new ≡ made.old ++ emptied dims.now subs.now) }
{
    match dims {
        [] => Ok(()),
        [n, more @ ..] => match subs {
            [] => {
                made.push(*n)?;
                push_emptied(alloc, made, more, &[])
            }
            [sub, others @ ..] => {
                made.push(if is_inside(*n, sub) { *n } else { 0 })?;
                push_emptied(alloc, made, more, others)
            }
        },
    }
}

/// The dimensions, where one whose subscript lies outside has no elements. `NoMemory` is the only other answer.
pub fn emptied(alloc: Global, dims: &[u32], subs: &[Subscript]) -> Result<List<u32>, NoMemory>
    ensures { IfOk result (λ made. made ≡ emptied dims.now subs.now) }
{
    let mut made = List::new(alloc);
    push_emptied(alloc, &mut made, dims, subs)?;
    Ok(made)
}
