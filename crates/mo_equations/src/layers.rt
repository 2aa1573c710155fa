//! The layers behind resolving, with what is wanted of the kind and of the dimensions.
ghost use Rattle.std.specs.Prelude.{◌≡◌};
ghost use Rattle.mo_flat.specs.declared.array.ArrayExpr.{ArrayExpr as Resolved};
ghost use Rattle.mo_typing.specs.Outcome.{Gives};
ghost use Rattle.mo_values.specs.Asked.{IsLayered, layered as layered_by, only_whole as only_whole_by};
ghost use Rattle.mo_eval.specs.Keeping.{AreLayers};
ghost use Rattle.mo_equations.specs.Equations.{vector_size as size_of_vector};
ghost use Rattle.mo_equations.specs.Variables.{are_among as stand_among, fits_along as fit_along};
ghost use Rattle.mo_equations.specs.steps.Layers.{HasRule, fit_of, wanted_of};

use mo_eval::{Bound, fitted};
use mo_flat::ArrayExpr;
use mo_syntax::{Broken, Kind, Place, Stop, broken, rules};
use mo_typing::{accepts, dims_of, kind_of, subscripts};
use mo_values::layers::{Layered, answer, only_scalar, only_truth};
use std::alloc::Global;

/// The kind that is wanted.
#[derive(Clone, Copy)]
pub(crate) enum Want {
    /// One that may stand where this kind is wanted.
    Accepted(Kind),
    /// Boolean; another one breaks rule 40.
    Condition,
}

/// The dimensions that are wanted.
#[derive(Clone, Copy)]
pub(crate) enum Fit<'a> {
    /// A scalar; others break the rule of that number.
    Scalar(u8),
    /// The sizes of the components whose indices are pending, among the indices of a path and the sizes that these range over.
    Along {
        pending: &'a [u32],
        indices: &'a [u32],
        sizes: &'a [u32],
    },
    /// Those in which these pending indices lie.
    Pending(&'a [u32]),
}

/// What is wanted of an expression, and where that stands.
#[derive(Clone, Copy)]
pub(crate) struct Layers<'a> {
    pub want: Want,
    pub fit: Fit<'a>,
    pub place: Place,
}

fn wanted(want: Want, place: Place, got: Kind) -> Result<(), Broken>
    ensures { result ≡ wanted_of want place got }
{
    match want {
        Want::Accepted(kind) => accepts(kind, got, place),
        Want::Condition => only_truth(rules::CONDITION_NOT_BOOLEAN, place, got),
    }
}

/// Whether these indices, each with a size, stand in their order among those of a path, each with the size that it ranges over.
fn are_among(pending: &[u32], dims: &[u32], indices: &[u32], sizes: &[u32]) -> bool
    ensures { result ≡ stand_among pending.now dims.now indices.now sizes.now }
{
    match pending {
        [] => true,
        [index, more @ ..] => match dims {
            [] => false,
            [n, rest @ ..] => match indices {
                [] => false,
                [other, indices @ ..] => match sizes {
                    [] => false,
                    [m, sizes @ ..] => {
                        if *index == *other && *n == *m {
                            are_among(more, rest, indices, sizes)
                        } else {
                            are_among(pending, dims, indices, sizes)
                        }
                    }
                },
            },
        },
    }
}

/// Whether an expression has the sizes of the components whose indices are pending.
fn fits_along(
    place: Place,
    pending: &[u32],
    indices: &[u32],
    sizes: &[u32],
    dims: &[u32],
) -> Result<(), Broken>
    ensures { result ≡ fit_along place pending.now indices.now sizes.now dims.now }
{
    if dims.is_empty() {
        return if pending.is_empty() {
            Ok(())
        } else {
            Err(broken(rules::WRONG_EACH, place))
        };
    }
    if pending.len() != dims.len() {
        return Err(broken(rules::WRONG_TYPE, place));
    }
    if are_among(pending, dims, indices, sizes) {
        Ok(())
    } else {
        Err(broken(rules::WRONG_SIZE, place))
    }
}

fn fits(fit: Fit, place: Place, dims: &[u32]) -> Result<(), Broken>
    requires { HasRule fit }
    ensures { result ≡ fit_of fit.entry place dims.now }
{
    match fit {
        Fit::Scalar(rule) => only_scalar(rule, place, dims),
        Fit::Along {
            pending,
            indices,
            sizes,
        } => fits_along(place, pending, indices, sizes, dims),
        Fit::Pending(index) => fitted(place, index, dims),
    }
}

/// Asks the kind, the dimensions and the subscripts of a resolved expression, with what is wanted of them.
pub(crate) fn layered(alloc: Global, layers: &Layers, e: &ArrayExpr) -> Result<(), Stop>
    requires { HasRule layers.now.fit }
    ensures { Gives result (layered_by (wanted_of layers.now.want layers.now.place) (fit_of layers.now.fit layers.now.place) e.now) }
{
    let kind = answer(kind_of(e))?;
    answer(wanted(layers.want, layers.place, kind))?;
    let dims = dims_of(alloc, e)?;
    answer(fits(layers.fit, layers.place, dims.as_slice()))?;
    subscripts(alloc, e)
}

/// The same of an expression whose layers are known.
pub(crate) fn layered_so(layers: &Layers, known: &Layered) -> Result<(), Broken>
    requires { HasRule layers.now.fit }
    ensures { (e : Resolved) → IsLayered e known.now → result ≡ layered_by (wanted_of layers.now.want layers.now.place) (fit_of layers.now.fit layers.now.place) e }
{
    wanted(layers.want, layers.place, known.kind)?;
    fits(layers.fit, layers.place, known.dims.as_slice())
}

/// The same of what binds a component, by its layers where they are known.
pub(crate) fn layered_bound<'t>(
    alloc: Global,
    layers: &Layers,
    bound: &Bound<'t>,
) -> Result<(), Stop>
    requires rule { HasRule layers.now.fit }
    requires layers { AreLayers bound.now }
    ensures { Gives result (layered_by (wanted_of layers.now.want layers.now.place) (fit_of layers.now.fit layers.now.place) bound.now.resolved.expression) }
{
    match &bound.layers {
        Some(known) => answer(layered_so(layers, known)),
        None => layered(alloc, layers, &bound.resolved.expression),
    }
}

fn only_whole(place: Place, kind: Kind) -> Result<(), Broken>
    ensures { result ≡ only_whole_by place kind }
{
    match kind {
        Kind::Whole => Ok(()),
        Kind::Real => Err(broken(rules::WRONG_TYPE, place)),
        Kind::Truth => Err(broken(rules::WRONG_TYPE, place)),
        Kind::Str => Err(broken(rules::WRONG_TYPE, place)),
        Kind::Enumeration(_) => Err(broken(rules::WRONG_TYPE, place)),
    }
}

fn vector_size(place: Place, dims: &[u32]) -> Result<u32, Broken>
    ensures { result ≡ size_of_vector place dims.now }
{
    match dims {
        [] => Err(broken(rules::WRONG_TYPE, place)),
        [n] => Ok(*n),
        [_, _, ..] => Err(broken(rules::WRONG_TYPE, place)),
    }
}

/// Asks a vector of Integers, and gives its size.
pub(crate) fn range_size(alloc: Global, place: Place, e: &ArrayExpr) -> Result<u32, Stop>
    ensures { Gives result (layered_by (only_whole_by place) (size_of_vector place) e.now) }
{
    let kind = answer(kind_of(e))?;
    answer(only_whole(place, kind))?;
    let dims = dims_of(alloc, e)?;
    let size = answer(vector_size(place, dims.as_slice()))?;
    subscripts(alloc, e)?;
    Ok(size)
}
