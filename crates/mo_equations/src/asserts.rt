//! Asserts, which are kept as they are.
#![tactic(auto, using(crate::proofs::Staying::staying))]

ghost use Rattle.std.specs.Prelude.{◌≡◌, Option, option_copied, option_map, IfOk};
ghost use Rattle.mo_syntax.specs.Outcome.{Outcome, and_then};
ghost use Rattle.mo_flat.specs.declared.expr.FlatExpr.{FlatExpr as Expression};
ghost use Rattle.mo_scope.specs.Sights.{scope_at};
ghost use Rattle.mo_scope.specs.Worlds.{IsFrame};
ghost use Rattle.mo_equations.specs.Asserts.{assert_of as assert_by, flat_argument as argument_of, is_assert as is_assert_named, plain_values, values_of as values_of_arguments};
ghost use Rattle.mo_equations.specs.steps.Asserts.{GivesAssert, IsRest, assert_with_level, level_of, made_with, rest_of, values_seen};
ghost use Rattle.mo_equations.specs.steps.Desks.{IsDesk, Stays};
ghost use Rattle.mo_equations.specs.steps.Standing.{tree_in};
ghost use Rattle.mo_equations.specs.steps.Flats.{Answers, IsFlat};
ghost use Rattle.mo_equations.specs.steps.Makings.{IsFlatOption, IsMade};

use crate::desk::Desk;
use crate::flat::Flat;
use crate::layers::{Fit, Layers, Want};
use crate::made::{Made, one_assert};
use crate::standing::{Asked, flat_at};
use crate::stops::or_stop;
use mo_eval::MOST_REFERENCES;
use mo_scope::{ScopeAt, Scopes};
use mo_syntax::{
    Arg, Args, ClassId, Expr, Kind, List, NoMemory, Place, Reference, Stop, both, rules, stop,
};
use std::alloc::Global;

/// Whether a call is an assert, by its name alone.
pub(crate) fn is_assert(called: &Reference) -> bool
    ensures { result ≡ is_assert_named called.now }
{
    if called.top {
        return false;
    }
    match called.parts.as_slice() {
        [part] => part.name.as_str() == "assert" && part.subs.is_empty(),
        [] => false,
        [_, _, ..] => false,
    }
}

/// The expressions of arguments, None where one is a function.
fn values_of<'a>(alloc: Global, arguments: &'a [Arg]) -> Result<Option<List<&'a Expr>>, NoMemory>
    ensures { IfOk result (λ values. option_map values_seen values ≡ values_of_arguments arguments.now) }
{
    let mut values = List::new(alloc);
    for argument in arguments {
        match argument {
            Arg::Value(e) => values.push(e)?,
            Arg::Partial(_, _) => return Ok(None),
        }
    }
    Ok(Some(values))
}

/// The arguments of a call, None where one has a name, is a function or is iterated.
fn plain<'a>(alloc: Global, arguments: &'a Args) -> Result<Option<List<&'a Expr>>, NoMemory>
    ensures { IfOk result (λ values. option_map values_seen values ≡ plain_values arguments.now) }
{
    if !arguments.named.is_empty() {
        return Ok(None);
    }
    if !arguments.iters.is_empty() {
        return Ok(None);
    }
    values_of(alloc, arguments.plain.as_slice())
}

/// An argument of an assert: a scalar of a kind.
fn flat_argument<'x, 'i, 't>(
    alloc: Global,
    s: &mut Scopes<'t>,
    desk: &mut Desk<'i, 't>,
    at: &'x ScopeAt,
    kind: Kind,
    e: &'x Expr,
) -> Result<Flat, Stop>
    requires frame { IsFrame s.old at.now.frame.0 }
    requires desk { IsDesk s.old desk.old }
    ensures stays { Stays s.old s.new desk.old desk.new }
    ensures exact { Answers IsFlat result (argument_of (tree_in s.old desk.old.leaves) (scope_at s.old at.now) kind e.now) }
{
    let asked = Asked {
        left: MOST_REFERENCES,
        at,
        value: e,
        index: &[],
        layers: Layers {
            want: Want::Accepted(kind),
            fit: Fit::Scalar(rules::WRONG_TYPE),
            place: e.place,
        },
    };
    flat_at(alloc, s, desk, &asked)
}

/// The assertion level of an assert, None where it has none.
fn flat_level<'i, 't>(
    alloc: Global,
    s: &mut Scopes<'t>,
    desk: &mut Desk<'i, 't>,
    at: &ScopeAt,
    level: Option<&Expr>,
) -> Result<Option<Flat>, Stop>
    requires frame { IsFrame s.old at.now.frame.0 }
    requires desk { IsDesk s.old desk.old }
    ensures stays { Stays s.old s.new desk.old desk.new }
    ensures exact { Answers IsFlatOption result (level_of (tree_in s.old desk.old.leaves) (scope_at s.old at.now) (option_copied level.entry)) }
{
    match level {
        Some(e) => {
            let kind = Kind::Enumeration(ClassId(5));
            let flat = flat_argument(alloc, s, desk, at, kind, e)?;
            Ok(Some(flat))
        }
        None => Ok(None),
    }
}

/// The message of an assert, then its level.
fn message_and_level<'i, 't>(
    alloc: Global,
    s: &mut Scopes<'t>,
    desk: &mut Desk<'i, 't>,
    at: &ScopeAt,
    message: &Expr,
    level: Option<&Expr>,
) -> Result<(Flat, Option<Flat>), Stop>
    requires frame { IsFrame s.old at.now.frame.0 }
    requires desk { IsDesk s.old desk.old }
    ensures stays { Stays s.old s.new desk.old desk.new }
    ensures exact { Answers IsRest result (rest_of (tree_in s.old desk.old.leaves) (scope_at s.old at.now) message.now (option_copied level.entry)) }
{
    let message = flat_argument(alloc, s, desk, at, Kind::Str, message)?;
    let level = flat_level(alloc, s, desk, at, level);
    both(Ok(message), level)
}

/// The assert of a condition and what stands behind it.
fn with_rest(
    alloc: Global,
    condition: Flat,
    rest: Result<(Flat, Option<Flat>), Stop>,
) -> Result<Made, Stop>
    ensures { (c : Expression) (told : Outcome (Expression × Option Expression)) → IsFlat condition c → Answers IsRest rest told → Answers IsMade result (and_then told (made_with c)) }
{
    match rest {
        Ok(rest) => or_stop(one_assert(alloc, condition, rest.0, rest.1)),
        Err(stop) => Err(stop),
    }
}

/// An assert with these arguments.
fn assert_with<'i, 't>(
    alloc: Global,
    s: &mut Scopes<'t>,
    desk: &mut Desk<'i, 't>,
    at: &ScopeAt,
    condition: &Expr,
    message: &Expr,
    level: Option<&Expr>,
) -> Result<Made, Stop>
    requires frame { IsFrame s.old at.now.frame.0 }
    requires desk { IsDesk s.old desk.old }
    ensures stays { Stays s.old s.new desk.old desk.new }
    ensures exact { GivesAssert result (assert_with_level (tree_in s.old desk.old.leaves) (scope_at s.old at.now) condition.now message.now (option_copied level.entry)) }
{
    let condition = flat_argument(alloc, s, desk, at, Kind::Truth, condition)?;
    let rest = message_and_level(alloc, s, desk, at, message, level);
    with_rest(alloc, condition, rest)
}

/// An assert; with another number of arguments, or with one that has a name, rule 34 at the call.
pub(crate) fn assert_of<'i, 't>(
    alloc: Global,
    s: &mut Scopes<'t>,
    desk: &mut Desk<'i, 't>,
    at: &ScopeAt,
    place: Place,
    arguments: &Args,
) -> Result<Made, Stop>
    requires frame { IsFrame s.old at.now.frame.0 }
    requires desk { IsDesk s.old desk.old }
    ensures stays { Stays s.old s.new desk.old desk.new }
    ensures exact { GivesAssert result (assert_by (tree_in s.old desk.old.leaves) (scope_at s.old at.now) place (plain_values arguments.now)) }
{
    let Some(values) = plain(alloc, arguments)? else {
        return Err(stop(rules::OUTSIDE_PROFILE, place));
    };
    match values.as_slice() {
        [condition, message] => { assert_with(alloc, s, desk, at, *condition, *message, None) }
        [condition, message, level] => {
            assert_with(alloc, s, desk, at, *condition, *message, Some(*level))
        }
        [] => Err(stop(rules::OUTSIDE_PROFILE, place)),
        [_] => Err(stop(rules::OUTSIDE_PROFILE, place)),
        [_, _, _, _, ..] => Err(stop(rules::OUTSIDE_PROFILE, place)),
    }
}
