//! The layers of a binding, which are asked once for all elements of its component.
ghost use Rattle.std.specs.Prelude.{◌≡◌, ℕ, IfOk};
ghost use Rattle.mo_syntax.specs.Outcome.{Outcome};
ghost use Rattle.mo_typing.specs.Outcome.{Gives};
ghost use Rattle.mo_typing.specs.Kinds.{accepts};
ghost use Rattle.mo_values.specs.Asked.{fitted, layered};
ghost use Rattle.mo_values.specs.Scalars.{Known};
ghost use Rattle.mo_values.specs.Walk.{known_by};
ghost use Rattle.mo_eval.specs.Keeping.{AreLayers};
ghost use Rattle.mo_eval.specs.steps.Asking.{fits_layers};

use crate::reader::Bound;
use mo_flat::ArrayExpr;
use mo_syntax::{Broken, Kind, NoMemory, Place, Stop};
use mo_typing::accepts;
use mo_values::layers::{Layered, answer, binding, fitted, layers_of};
use mo_values::part_at;
use std::alloc::Global;

/// Whether a binding with these layers is of the wanted kind and fits its pending indices.
fn fits_layers(want: Kind, place: Place, index: &[u32], layers: &Layered) -> Result<(), Broken>
    ensures { result ≡ fits_layers want place index.now layers.now }
{
    accepts(want, layers.kind, place)?;
    fitted(place, index, layers.dims.as_slice())
}

/// A binding with its layers, which are asked once for all elements.
pub(crate) fn with_layers<'t>(alloc: Global, bound: Bound<'t>) -> Result<Bound<'t>, NoMemory>
    requires { AreLayers bound }
    ensures resolved { IfOk result (λ made. made.resolved ≡ bound.entry.resolved) }
    ensures layers { IfOk result AreLayers }
{
    if bound.layers.is_some() {
        return Ok(bound);
    }
    let layers = layers_of(alloc, &bound.resolved.expression)?;
    Ok(Bound {
        resolved: bound.resolved,
        layers,
    })
}

/// Asks a binding of the wanted kind that fits its pending indices.
pub(crate) fn fits<'t>(
    alloc: Global,
    want: Kind,
    place: Place,
    index: &[u32],
    bound: &Bound<'t>,
) -> Result<(), Stop>
    requires { AreLayers bound.now }
    ensures { Gives result (layered (λ got. accepts want got place) (fitted place index.now) bound.now.resolved.expression) }
{
    match &bound.layers {
        None => binding(alloc, want, place, index, &bound.resolved.expression),
        Some(layers) => answer(fits_layers(want, place, index, layers)),
    }
}

/// The expression that has an element of a binding, and the index in it.
pub(crate) fn part_of_bound<'a, 't>(
    bound: &'a Bound<'t>,
    pending: &'a [u32],
) -> (&'a ArrayExpr, &'a [u32])
    requires { AreLayers bound.now }
    ensures { (variable : ℕ → Outcome Known) → known_by variable result.0.now result.1.now ≡ known_by variable bound.now.resolved.expression pending.now }
{
    let e = &bound.resolved.expression;
    match &bound.layers {
        None => (e, pending),
        Some(layers) => part_at(e, layers.kind, pending),
    }
}
