//! The scalar equations of an equation between array expressions.
ghost use Rattle.std.specs.Prelude.{◌≡◌, ◌++◌, ◌∷◌, map, IfOk, Ok, Err};
ghost use Rattle.mo_syntax.specs.Outcome.{IfBroken};
ghost use Rattle.mo_typing.specs.Outcome.{Gives};
ghost use Rattle.mo_typing.specs.Kinds.{is_number};
ghost use Rattle.mo_typing.specs.Indices.{indices};
ghost use Rattle.mo_arrays.specs.Elements.{element_of};
ghost use Rattle.mo_typing.specs.Subscripts.{subscripts_of, both};
ghost use Rattle.mo_arrays.specs.Equations.{are_one, sides, kinds_of_sides, dims_of_sides, checked_sides, equation, equations_of};

use crate::elements::element_at;
use mo_flat::{ArrayExpr, FlatEquation, FlatExpr};
use mo_syntax::{Broken, Kind, List, NoMemory, Place, Stop, both, broken, rules};
use mo_typing::agree::is_number;
use mo_typing::indexing::has_none;
use mo_typing::shapes::joined_lists;
use mo_typing::{dims_of, kind_of, matched, subscripts};
use std::alloc::Global;

/// The element of an expression at an index, which counts from 1 and lies in its dimensions. Rule 32 at the first subscript of
/// the expression, in the order of its text, that lies outside its dimension. `NoMemory` is the only other answer.
pub fn element(alloc: Global, e: &ArrayExpr, index: &[u32]) -> Result<FlatExpr, Stop>
    ensures ok { IfOk result (λ made. (subscripts_of e.now ≡ Ok tt) × (made ≡ element_of e.now index.now)) }
    ensures refused { IfBroken result (λ broken. subscripts_of e.now ≡ Err broken) }
{
    subscripts(alloc, e)?;
    Ok(element_at(alloc, e, index)?)
}

/// The dimensions of both sides of an equation at `place`, which say how many scalar equations it makes. First the kinds are asked:
/// what `kind_of` breaks, the left side before the right one; rule 34 at the equation where both sides are Boolean, both String or both
/// of one enumeration; rule 33 where other kinds than numbers differ. Then the dimensions: what `dims_of` breaks; rule 33 at another
/// number of them, 31 at other sizes. Then rule 32 at a subscript that lies outside. No equation is made. `NoMemory` is the only other
/// answer.
pub fn checked_sides(
    alloc: Global,
    left: &ArrayExpr,
    right: &ArrayExpr,
    place: Place,
) -> Result<List<u32>, Stop>
    ensures ok { IfOk result (λ dims. checked_sides left.now right.now place ≡ Ok dims) }
    ensures refused { IfBroken result (λ broken. checked_sides left.now right.now place ≡ Err broken) }
{
    checked(alloc, left, right, place)
}

/// The scalar equations of an equation at `place`, one for each element of its sides, the last index fastest; it breaks what
/// `checked_sides` breaks. `NoMemory` is the only other answer.
pub fn scalar_equations(
    alloc: Global,
    left: &ArrayExpr,
    right: &ArrayExpr,
    place: Place,
) -> Result<List<FlatEquation>, Stop>
    ensures ok { IfOk result (λ made. equations_of left.now right.now place ≡ Ok made) }
    ensures refused { IfBroken result (λ broken. equations_of left.now right.now place ≡ Err broken) }
{
    equations(alloc, left, right, place)
}

/// Whether both are the same kind other than a number.
fn are_one(left: Kind, right: Kind) -> bool
    ensures { result ≡ are_one left right }
{
    match (left, right) {
        (Kind::Truth, Kind::Truth) => true,
        (Kind::Str, Kind::Str) => true,
        (Kind::Enumeration(c), Kind::Enumeration(d)) => c.0 == d.0,
        _ => false,
    }
}

fn sides(place: Place, left: Kind, right: Kind) -> Result<(), Broken>
    ensures { result ≡ sides place left right }
{
    if are_one(left, right) {
        return Err(broken(rules::OUTSIDE_PROFILE, place));
    }
    if is_number(left) && is_number(right) {
        return Ok(());
    }
    Err(broken(rules::WRONG_TYPE, place))
}

fn kinds_of_sides(left: &ArrayExpr, right: &ArrayExpr, place: Place) -> Result<(), Broken>
    ensures { result ≡ kinds_of_sides left.now right.now place }
{
    let a = kind_of(left)?;
    let b = kind_of(right)?;
    sides(place, a, b)
}

fn dims_of_sides(
    alloc: Global,
    left: &ArrayExpr,
    right: &ArrayExpr,
    place: Place,
) -> Result<List<u32>, Stop>
    ensures { Gives result (dims_of_sides left.now right.now place) }
{
    let a = dims_of(alloc, left)?;
    let b = dims_of(alloc, right)?;
    match matched(place, a, b) {
        Ok(dims) => Ok(dims),
        Err(broken) => Err(Stop::Broken(broken)),
    }
}

fn subscripts_of_sides(alloc: Global, left: &ArrayExpr, right: &ArrayExpr) -> Result<(), Stop>
    ensures { Gives result (both (subscripts_of left.now) (subscripts_of right.now)) }
{
    subscripts(alloc, left)?;
    subscripts(alloc, right)
}

fn equation_at(
    alloc: Global,
    left: &ArrayExpr,
    right: &ArrayExpr,
    place: Place,
    index: &[u32],
) -> Result<FlatEquation, NoMemory>
    ensures { IfOk result (λ made. made ≡ equation left.now right.now place index.now) }
{
    let (left, right) = both(
        element_at(alloc, left, index),
        element_at(alloc, right, index),
    )?;
    Ok(FlatEquation { left, right, place })
}

/// The equations of the elements whose indices begin so.
#[cycle(rows)]
fn equations_below(
    alloc: Global,
    left: &ArrayExpr,
    right: &ArrayExpr,
    place: Place,
    begun: &[u32],
    dims: &[u32],
) -> Result<List<FlatEquation>, NoMemory>
    ensures { IfOk result (λ made. made ≡ map (λ index. equation left.now right.now place (begun.now ++ index)) (indices dims.now)) }
{
    match dims {
        [] => {
            let mut made = List::new(alloc);
            made.push(equation_at(alloc, left, right, place, begun)?)?;
            Ok(made)
        }
        [n, more @ ..] => equations_of_rows(alloc, left, right, place, begun, *n, more),
    }
}

/// The same, n rows of them.
#[cycle(rows)]
fn equations_of_rows(
    alloc: Global,
    left: &ArrayExpr,
    right: &ArrayExpr,
    place: Place,
    begun: &[u32],
    n: u32,
    more: &[u32],
) -> Result<List<FlatEquation>, NoMemory>
    ensures { IfOk result (λ made. made ≡ map (λ index. equation left.now right.now place (begun.now ++ index)) (indices (n ∷ more.now))) }
{
    let mut made = List::new(alloc);
    if has_none(more) {
        return Ok(made);
    }
    for k in 0..n {
        let index = joined_lists(alloc, begun, &[k + 1])?;
        made.append(equations_below(alloc, left, right, place, index.as_slice(), more)?)?;
    }
    Ok(made)
}

fn checked(
    alloc: Global,
    left: &ArrayExpr,
    right: &ArrayExpr,
    place: Place,
) -> Result<List<u32>, Stop>
    ensures { Gives result (checked_sides left.now right.now place) }
{
    match kinds_of_sides(left, right, place) {
        Ok(()) => {}
        Err(broken) => return Err(Stop::Broken(broken)),
    }
    let dims = dims_of_sides(alloc, left, right, place)?;
    subscripts_of_sides(alloc, left, right)?;
    Ok(dims)
}

fn equations(
    alloc: Global,
    left: &ArrayExpr,
    right: &ArrayExpr,
    place: Place,
) -> Result<List<FlatEquation>, Stop>
    ensures { Gives result (equations_of left.now right.now place) }
{
    let dims = checked(alloc, left, right, place)?;
    Ok(equations_below(alloc, left, right, place, &[], dims.as_slice())?)
}
