//! What replaces the variables of an expression, and the expression in which they are replaced.
ghost use Rattle.std.specs.Prelude.{◌≡◌, ℕ, ◌<◌, IsTrue, Ok, Err, IfOk, OnOk, length, slice_set};
ghost use Rattle.mo_flat.specs.declared.expr.FlatExpr.{FlatExpr as Expression};
ghost use Rattle.mo_equations.specs.Replacing.{with_variables};
ghost use Rattle.mo_equations.specs.steps.Flats.{Answers, IsFlat};
ghost use Rattle.mo_equations.specs.steps.Standing.{AreAsked, AreReplaced, IsPlaceAsked, unasked};
ghost use Rattle.mo_syntax.specs.Outcome.{IfBroken, Outcome};

use crate::counting::weight;
use crate::filling::filled;
use crate::flat::{Flat, is_past};
use crate::stops::or_stop;
use mo_flat::FlatExpr;
use mo_syntax::{NoMemory, Stop};
use std::alloc::Global;

/// What replaces so many variables before any of them is asked.
pub(crate) fn unreplaced(alloc: Global, count: usize) -> Result<Vec<Option<Flat>>, NoMemory>
    ensures { IfOk result (λ made. made.items ≡ unasked count) }
{
    let mut made = Vec::new(alloc);
    for _k in 0..count {
        made.push(None)?;
    }
    Ok(made)
}

/// An expression of which all variables are replaced.
pub(crate) fn put_together(
    alloc: Global,
    e: &FlatExpr,
    replaced: &[Option<Flat>],
) -> Result<Flat, NoMemory>
    ensures { IfOk result (λ flat. (replace : ℕ → Outcome Expression) → AreReplaced replace replaced.now → AreAsked replaced.now e.now → (made : Expression) × (with_variables replace e.now ≡ Ok made) × IsFlat flat made) }
{
    let nodes = weight(replaced, e);
    if is_past(nodes) {
        return Ok(Flat { nodes, built: None });
    }
    let built = filled(alloc, replaced, e)?;
    Ok(Flat {
        nodes,
        built: Some(built),
    })
}

/// An expression of which all variables are replaced, where what replaces them was found.
pub(crate) fn put_asked(
    alloc: Global,
    asked: Result<(), Stop>,
    e: &FlatExpr,
    replaced: &[Option<Flat>],
) -> Result<Flat, Stop>
    ensures { (replace : ℕ → Outcome Expression) → IfBroken asked (λ broken. with_variables replace e.now ≡ Err broken) → OnOk asked (AreReplaced replace replaced.now) → IfOk asked (λ _. AreAsked replaced.now e.now) → Answers IsFlat result (with_variables replace e.now) }
{
    match asked {
        Ok(()) => or_stop(put_together(alloc, e, replaced)),
        Err(stop) => Err(stop),
    }
}

/// Whether the variable at a place was asked.
pub(crate) fn is_asked(replaced: &[Option<Flat>], place: usize) -> bool
    ensures { IsTrue result → IsPlaceAsked replaced.now place }
{
    match replaced.get(place) {
        Some(flat) => flat.is_some(),
        None => false,
    }
}

/// Puts down what replaces the variable at a place.
pub(crate) fn put_replaced(
    replaced: &mut Vec<Option<Flat>>,
    place: usize,
    flat: Flat,
) -> Result<(), NoMemory>
    ensures within { OnOk result (place < length replaced.old.items) }
    ensures put { OnOk result (replaced.new.items ≡ slice_set replaced.old.items place (Some flat)) }
{
    if place >= replaced.len() {
        return Err(NoMemory);
    }
    replaced[place] = Some(flat);
    Ok(())
}
