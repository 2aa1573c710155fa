//! The derivative of an expression, and an expression with its derivatives carried out.
ghost use Rattle.std.specs.Prelude.{◌≡◌, IfOk, true, false};
ghost use Rattle.mo_symdiff.specs.Carried.{carried, carries, differentiates};
ghost use Rattle.mo_symdiff.specs.Derivative.{derived};
ghost use Rattle.mo_symdiff.specs.Refusal.{of_given};
ghost use Rattle.mo_syntax.specs.Outcome.{IfBroken};

use crate::carries::{carries, differentiates};
use crate::carry::{carried, carried_slope};
use mo_flat::{FlatExpr, FlatModel};
use mo_syntax::{Broken, Place, Stop, rules};
use std::alloc::Global;

/// The refusal of a derivative of a given variable.
pub(crate) fn broken(place: Place) -> Broken
    ensures { result ≡ of_given place }
{
    mo_syntax::broken(rules::DERIVATIVE_OF_INPUT, place)
}

/// The derivative of an expression with respect to time, after the derivatives in it are carried out. Rule 43 at `place`
/// exactly where a given variable stands in it or in what a derivative in it is of, conditions of if-expressions left aside.
/// `NoMemory` is the only other answer; it comes too where a derivative on the way is larger than any reduced model may be.
pub fn derivative(
    alloc: Global,
    m: &FlatModel,
    e: &FlatExpr,
    place: Place,
) -> Result<FlatExpr, Stop>
    ensures derived { IfOk result (λ made. made ≡ derived m.now.vars (carried m.now.vars e.now)) }
    ensures differentiates { IfOk result (λ _. differentiates m.now.vars e.now ≡ true) }
    ensures refused { IfBroken result (λ b. (b ≡ of_given place) × (differentiates m.now.vars e.now ≡ false)) }
{
    let vars = m.vars.as_slice();
    if !differentiates(vars, e) {
        return Err(Stop::Broken(broken(place)));
    }
    Ok(carried_slope(alloc, vars, e)?)
}

/// An expression with each derivative in it carried out, the innermost first. Rule 43 at `place` exactly where a given
/// variable stands in what a derivative in it is of, conditions of if-expressions left aside. `NoMemory` is the only other
/// answer; it comes too where a derivative on the way is larger than any reduced model may be.
pub fn expand_der(
    alloc: Global,
    m: &FlatModel,
    e: &FlatExpr,
    place: Place,
) -> Result<FlatExpr, Stop>
    ensures carried { IfOk result (λ made. made ≡ carried m.now.vars e.now) }
    ensures carries { IfOk result (λ _. carries m.now.vars e.now ≡ true) }
    ensures refused { IfBroken result (λ broken. (broken ≡ of_given place) × (carries m.now.vars e.now ≡ false)) }
{
    let vars = m.vars.as_slice();
    if !carries(vars, e) {
        return Err(Stop::Broken(broken(place)));
    }
    Ok(carried(alloc, vars, e)?)
}
