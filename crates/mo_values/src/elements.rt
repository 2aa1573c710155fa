//! Elements that are known by indices, sizes and numbers alone.
ghost use Rattle.std.specs.Prelude.{◌≡◌, ℕ, Ok};
ghost use Rattle.mo_syntax.specs.Outcome.{Outcome};
ghost use Rattle.mo_typing.specs.Shape.{shape_of};
ghost use Rattle.mo_typing.specs.Kinds.{kind_of};
ghost use Rattle.mo_typing.specs.Indices.{own, located, range_element, variable_at};
ghost use Rattle.mo_values.specs.declared.value.Reckoned.{Reckoned};
ghost use Rattle.mo_values.specs.declared.value.Reckoned.TheVariants.{Is};
ghost use Rattle.mo_values.specs.declared.value.Scalar.TheVariants.{Whole};
ghost use Rattle.mo_values.specs.Scalars.{Known, of_known};
ghost use Rattle.mo_values.specs.Walk.{read_as, number, size_at, size_element, constant, kind_or_real};
ghost use Rattle.mo_values.specs.Told.{Reads, AreRead, Tells};
ghost use Rattle.mo_values.specs.steps.Chains.{decides, is_truth, chain_end};

use crate::answers::{Answer, Given, answer, reckon};
use crate::halt::{Halt, Told};
use crate::relations::truth_eq;
use crate::value::{Reckoned, Scalar};
use mo_flat::{ArrayExpr, Subscript};
use mo_syntax::{Kind, Place};
use mo_tables::functions;
use mo_typing::indexing::{first_number, is_diagonal, located, range_element, variable_at};
use mo_typing::kind_of;
use mo_typing::shapes::{is_scalar, shape, size_of};
use std::alloc::Global;

/// The kind of an expression that breaks no rule of kinds.
pub(crate) fn kind_or_real(e: &ArrayExpr) -> Kind
    ensures { result ≡ kind_or_real (kind_of e.now) }
{
    match kind_of(e) {
        Ok(kind) => kind,
        Err(_) => Kind::Real,
    }
}

/// The index of an operand of these dimensions beside an array: none for a scalar.
pub(crate) fn own<'a>(dims: &[u32], index: &'a [u32]) -> &'a [u32]
    ensures { result.now ≡ own dims.now index.now }
{
    if is_scalar(dims) { &[] } else { index }
}

/// What a variable has, by what is read.
fn told(read: &[Told], number: u32) -> Answer
    ensures { (variable : ℕ → Outcome Known) → AreRead read.now variable → Tells read.now result (variable number) }
{
    match read.get(number.saturating_sub(1) as usize) {
        None => Ok(None),
        Some(None) => Err(Halt::Unread(number)),
        Some(Some(outcome)) => answer(*outcome),
    }
}

/// The element of a variable.
pub(crate) fn variable(
    alloc: Global,
    vars: &[u32],
    dims: &[u32],
    subs: &[Subscript],
    index: &[u32],
    read: &[Told],
) -> Given
    ensures { (variable : ℕ → Outcome Known) → AreRead read.now variable → Tells read.now result (read_as of_known (variable (variable_at vars.now dims.now (located subs.now index.now)))) }
{
    let place = located(alloc, subs, index)?;
    let number = variable_at(vars, dims, place.as_slice())?;
    reckon(told(read, number))
}

pub(crate) fn number(n: i64) -> Reckoned
    ensures { result ≡ Is (Whole n) }
{
    Reckoned::Is(Scalar::Whole(n))
}

/// A number of a range; one past 64 bits is answered by want of memory.
pub(crate) fn of_range(first: i64, step: i64, index: &[u32]) -> Given
    ensures { (read : Reads) → Tells read result (Ok (Is (Whole (range_element first step index.now)))) }
{
    Ok(number(range_element(first, step, index)?))
}

fn size_at(dims: &[u32], k: u32) -> Reckoned
    ensures { result ≡ size_at dims.now k }
{
    match dims.get(k.saturating_sub(1) as usize) {
        None => number(0),
        Some(n) => number(i64::from(*n)),
    }
}

/// An element of `size(A)`, or `size(A, i)`.
pub(crate) fn of_size(
    alloc: Global,
    inner: &ArrayExpr,
    at: &Option<(Place, i64)>,
    index: &[u32],
) -> Given
    ensures { (read : Reads) → Tells read result (Ok (size_element (shape_of inner.now) at.now index.now)) }
{
    let dims = shape(alloc, inner)?;
    match at {
        None => Ok(size_at(dims.as_slice(), first_number(index))),
        Some((_, n)) => Ok(size_at(dims.as_slice(), size_of(*n)?)),
    }
}

/// What `zeros`, `ones` and `identity` hold.
pub(crate) fn constant(function: u16, index: &[u32]) -> Reckoned
    ensures { result ≡ constant function index.now }
{
    if function == functions::ONES {
        return number(1);
    }
    if function == functions::IDENTITY && is_diagonal(index) {
        return number(1);
    }
    number(0)
}

/// Whether an operand decides a chain of `and` or `or`.
pub(crate) fn decides(deciding: bool, known: Option<Scalar>) -> bool
    ensures { result ≡ decides deciding known }
{
    match known {
        Some(Scalar::Truth(b)) => truth_eq(b, deciding),
        Some(Scalar::Whole(_)) => false,
        Some(Scalar::Literal(_, _)) => false,
        None => false,
    }
}

/// Whether an operand of a chain of `and` or `or` has a value.
pub(crate) fn is_truth(known: Option<Scalar>) -> bool
    ensures { result ≡ is_truth known }
{
    match known {
        Some(Scalar::Truth(_)) => true,
        Some(Scalar::Whole(_)) => false,
        Some(Scalar::Literal(_, _)) => false,
        None => false,
    }
}

/// A chain of `and` or `or` that no operand decides.
pub(crate) fn chain_end(undecided: bool, deciding: bool) -> Option<Scalar>
    ensures { result ≡ chain_end undecided deciding }
{
    if undecided {
        None
    } else {
        Some(Scalar::Truth(!deciding))
    }
}
