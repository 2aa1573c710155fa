//! What is asked of the operands of `div`, `mod` and `rem`.
ghost use Rattle.std.specs.Prelude.{◌≡◌, ◌&&◌, ◌∷◌, [], false, MatchOption, Ok};
ghost use Rattle.std.specs.List.{list_all};
ghost use Rattle.mo_syntax.specs.Outcome.{and_then};
ghost use Rattle.mo_typing.specs.Outcome.{each, Gives};
ghost use Rattle.mo_typing.specs.Dims.{scalars};
ghost use Rattle.mo_typing.specs.Kinds.{kind_of};
ghost use Rattle.mo_values.specs.Asked.{checked_operands, is_whole};
ghost use Rattle.mo_values.specs.steps.Operands.{are_two, checked_two};

use crate::layers::answer;
use mo_flat::ArrayExpr;
use mo_syntax::{Broken, Kind, Place, Stop, broken, rules};
use mo_typing::shapes::is_scalar;
use mo_typing::{dims_of, kind_of, subscripts};
use std::alloc::Global;

fn is_whole(kind: Kind) -> bool
    ensures { result ≡ is_whole kind }
{
    match kind {
        Kind::Whole => true,
        Kind::Real => false,
        Kind::Truth => false,
        Kind::Str => false,
        Kind::Enumeration(_) => false,
    }
}

fn also(a: bool, b: bool) -> bool
    ensures { result ≡ (a && b) }
{
    a && b
}

/// Whether all are Integers.
fn are_whole(operands: &[ArrayExpr]) -> Result<bool, Broken>
    ensures { result ≡ and_then (each kind_of operands.now) (λ kinds. Ok (list_all is_whole kinds)) }
{
    let mut whole = true;
    for operand in operands {
        let kind = kind_of(operand)?;
        whole = also(whole, is_whole(kind));
    }
    Ok(whole)
}

/// The two operands, None where there are fewer or more.
pub fn two_operands(operands: &[ArrayExpr]) -> Option<(&ArrayExpr, &ArrayExpr)>
    ensures { MatchOption result (are_two operands.now ≡ false) (λ both. operands.now ≡ both.0.now ∷ both.1.now ∷ []) }
{
    match operands {
        [] => None,
        [_] => None,
        [a, b] => Some((a, b)),
        [_, _, _, ..] => None,
    }
}

fn two_scalars(place: Place, a: &[u32], b: &[u32]) -> Result<(), Broken>
    ensures { result ≡ and_then (scalars place (a.now ∷ b.now ∷ [])) (λ _. Ok tt) }
{
    if !is_scalar(a) {
        return Err(broken(rules::WRONG_TYPE, place));
    }
    if !is_scalar(b) {
        return Err(broken(rules::WRONG_TYPE, place));
    }
    Ok(())
}

/// Asks the dimensions and the subscripts of two operands: they are scalars.
fn checked_two(alloc: Global, place: Place, a: &ArrayExpr, b: &ArrayExpr) -> Result<(), Stop>
    ensures { Gives result (checked_two place a.now b.now) }
{
    let m = dims_of(alloc, a)?;
    let n = dims_of(alloc, b)?;
    answer(two_scalars(place, m.as_slice(), n.as_slice()))?;
    subscripts(alloc, a)?;
    subscripts(alloc, b)
}

/// Asks the kinds, the dimensions and the subscripts of operands: they are two scalar Integers.
pub fn checked_operands(alloc: Global, place: Place, operands: &[ArrayExpr]) -> Result<(), Stop>
    ensures { Gives result (checked_operands place operands.now) }
{
    let whole = answer(are_whole(operands))?;
    let Some((a, b)) = two_operands(operands) else {
        return Err(Stop::Broken(broken(rules::WRONG_TYPE, place)));
    };
    if !whole {
        return Err(Stop::Broken(broken(rules::WRONG_TYPE, place)));
    }
    checked_two(alloc, place, a, b)
}
