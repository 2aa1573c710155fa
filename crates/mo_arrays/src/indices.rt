//! Elements that are known by indices, sizes and numbers alone.
ghost use Rattle.std.specs.Prelude.{◌≡◌, ◌≤◌, IfOk};
ghost use Rattle.mo_flat.specs.declared.expr.FlatExpr.TheVariants.{Whole};
ghost use Rattle.mo_typing.specs.Shape.{shape_of};
ghost use Rattle.mo_typing.specs.Indices.{range_element};
ghost use Rattle.mo_arrays.specs.Elements.{size_at, size_element, constant, variable};
ghost use Rattle.mo_arrays.specs.steps.Parts.{behind_last};

use mo_flat::{ArrayExpr, FlatExpr};
use mo_syntax::{NoMemory, Place};
use mo_tables::functions;
use mo_typing::indexing::{first_number, is_diagonal, range_element, variable_at};
use mo_typing::shapes::{shape, size_of};
use std::alloc::Global;

/// The element of a variable.
pub(crate) fn variable(vars: &[u32], dims: &[u32], index: &[u32]) -> Result<FlatExpr, NoMemory>
    ensures { IfOk result (λ made. made ≡ variable vars.now dims.now index.now) }
{
    Ok(FlatExpr::Var(variable_at(vars, dims, index)?, 0))
}

/// A number of a range; one past 64 bits is answered by want of memory.
pub(crate) fn of_range(first: i64, step: i64, index: &[u32]) -> Result<FlatExpr, NoMemory>
    ensures { IfOk result (λ made. made ≡ Whole (range_element first step index.now)) }
{
    Ok(FlatExpr::Whole(range_element(first, step, index)?))
}

pub(crate) fn size_at(dims: &[u32], k: u32) -> FlatExpr
    ensures { result ≡ size_at dims.now k }
{
    match dims.get(k.saturating_sub(1) as usize) {
        None => FlatExpr::Whole(0),
        Some(n) => FlatExpr::Whole(i64::from(*n)),
    }
}

pub(crate) fn of_size(
    alloc: Global,
    inner: &ArrayExpr,
    at: &Option<(Place, i64)>,
    index: &[u32],
) -> Result<FlatExpr, NoMemory>
    ensures { IfOk result (λ made. made ≡ size_element (shape_of inner.now) at.now index.now) }
{
    let dims = shape(alloc, inner)?;
    match at {
        None => Ok(size_at(dims.as_slice(), first_number(index))),
        Some((_, n)) => Ok(size_at(dims.as_slice(), size_of(*n)?)),
    }
}

pub(crate) fn constant(function: u16, index: &[u32]) -> FlatExpr
    ensures { result ≡ constant function index.now }
{
    if function == functions::ONES {
        return FlatExpr::Whole(1);
    }
    if function == functions::IDENTITY && is_diagonal(index) {
        return FlatExpr::Whole(1);
    }
    FlatExpr::Whole(0)
}

/// The place behind the last matrix factor.
pub(crate) fn behind_last(last: Option<usize>, n: usize) -> usize
    requires { behind_last last ≤ n }
    ensures { result ≡ behind_last last }
{
    match last {
        None => 0,
        Some(m) => m + 1,
    }
}
