//! The equations of a section, form by form.
#![tactic(auto, using(crate::proofs::Staying::staying))]

ghost use Rattle.std.specs.Prelude.{◌≡◌, ◌+◌, ◌<◌, ◌≤◌, ◌∷◌, [], IfErr, IfOk, OnOk};
ghost use Rattle.mo_scope.specs.Sights.{scope_at};
ghost use Rattle.mo_scope.specs.Worlds.{IsFrame, frames_of};
ghost use Rattle.mo_syntax.specs.Outcome.{IfBroken, breach};
ghost use Rattle.mo_syntax.specs.declared.rules.TheConstants.{FLAT_MODEL_TOO_LARGE};
ghost use Rattle.mo_typing.specs.Outcome.{Gives};
ghost use Rattle.mo_equations.specs.Equations.{condition_known as known_of_condition, flat_condition as flat_of_condition, made_call, made_connect, made_kind, made_loop};
ghost use Rattle.mo_equations.specs.Gathering.{made_connects, most_turns};
ghost use Rattle.mo_equations.specs.steps.Desks.{Goes, IsDesk, Stays};
ghost use Rattle.mo_equations.specs.steps.Standing.{tree_in};
ghost use Rattle.mo_equations.specs.steps.Flats.{Answers, IsFlat};
ghost use Rattle.mo_equations.specs.steps.Makings.{IsMade};
ghost use Rattle.mo_equations.specs.steps.Ranges.{numbers_seen};
ghost use Rattle.mo_equations.specs.steps.Turns.{GivesBranch, GivesChoice, GivesMade, all_made_at, choice_at, made_turns, site_in, undecided_at};

use crate::asserts::{assert_of, is_assert};
use crate::desk::Desk;
use crate::ends::connect_of;
use crate::equalities::equalities;
use crate::flat::Flat;
use crate::joining::{Choice, made_if};
use crate::layers::{Fit, Layers, Want};
use crate::limits::MOST_TURNS;
use crate::made::Made;
use crate::standing::{Asked, flat_at};
use crate::values::{Numbers, known_at, numbers_of_index};
use mo_eval::{MOST_REFERENCES, Scalar};
use mo_flat::Connect;
use mo_scope::{ScopeAt, Scopes};
use mo_syntax::{
    Args, Equation, EquationKind, Expr, Index, List, NoMemory, Place, Reference, Stop, Text, both,
    rules, stop,
};
use std::alloc::Global;

/// Where an equation stands: the scope of its text, and whether it is in a branch of an if-equation that no value decides.
#[derive(Clone, Copy)]
pub(crate) struct Site<'a> {
    pub at: &'a ScopeAt,
    pub undecided: bool,
}

/// An iteration variable of the for-equation at a place, with the numbers that it goes through.
#[derive(Clone, Copy)]
struct Iteration<'a> {
    place: Place,
    name: &'a Text,
    numbers: &'a Numbers,
}

/// A call is an assert that is in no undecided branch; each other one is left out.
fn call<'i, 't>(
    alloc: Global,
    s: &mut Scopes<'t>,
    desk: &mut Desk<'i, 't>,
    site: &Site,
    place: Place,
    called: &Reference,
    arguments: &Args,
) -> Result<Made, Stop>
    requires frame { IsFrame s.old site.now.at.now.frame.0 }
    requires desk { IsDesk s.old desk.old }
    ensures stays { Stays s.old s.new desk.old desk.new }
    ensures exact { Answers IsMade result (made_call (tree_in s.old desk.old.leaves) place (site_in (frames_of s.old) site.now) called.now arguments.now) }
{
    if !is_assert(called) || site.undecided {
        return Err(stop(rules::OUTSIDE_PROFILE, place));
    }
    assert_of(alloc, s, desk, site.at, place, arguments)
}

/// A connect; in an undecided branch rule 36.
fn connect<'i, 't>(
    alloc: Global,
    s: &mut Scopes<'t>,
    desk: &mut Desk<'i, 't>,
    site: &Site,
    place: Place,
    left: &Reference,
    right: &Reference,
) -> Result<Made, Stop>
    requires frame { IsFrame s.old site.now.at.now.frame.0 }
    requires desk { IsDesk s.old desk.old }
    ensures stays { Stays s.old s.new desk.old desk.new }
    ensures exact { Answers IsMade result (made_connect (tree_in s.old desk.old.leaves) place (site_in (frames_of s.old) site.now) left.now right.now) }
{
    if site.undecided {
        return Err(stop(rules::CONNECT_UNDER_OPEN_CONDITION, place));
    }
    let connect = connect_of(alloc, s, desk, site.at, place, left, right)?;
    match connect {
        Some(connect) => Ok(one_connect(alloc, connect)?),
        None => Ok(Made::new(alloc)),
    }
}

/// One connect.
fn one_connect(alloc: Global, connect: Connect) -> Result<Made, NoMemory>
    ensures { IfOk result (λ made. IsMade made (made_connects (connect ∷ []))) }
{
    let mut made = Made::new(alloc);
    made.push_connect(connect)?;
    Ok(made)
}

/// A copy of a variable with its value.
fn copied_variable(alloc: Global, variable: &(Text, i64)) -> Result<(Text, i64), NoMemory>
    ensures { IfOk result (λ made. made ≡ variable.now) }
{
    Ok((variable.0.copy(alloc)?, variable.1))
}

/// The most iteration variables that may stand around an equation: the turns of each are calls inside those of the one before.
const MOST_ITERATIONS: usize = 256;

/// A scope with an iteration variable inside those around it. More than `MOST_ITERATIONS` are want of memory.
fn with_iteration(alloc: Global, at: &ScopeAt, name: &Text, value: i64) -> Result<ScopeAt, NoMemory>
    ensures frame { IfOk result (λ made. made.frame ≡ at.now.frame) }
    ensures iterations { IfOk result (λ made. made.iters ≡ (name.now, value) ∷ at.now.iters) }
{
    if at.iters.len() >= MOST_ITERATIONS {
        return Err(NoMemory);
    }
    let mut iters = List::new(alloc);
    iters.push((name.copy(alloc)?, value))?;
    for variable in at.iters.as_slice() {
        iters.push(copied_variable(alloc, variable)?)?;
    }
    Ok(ScopeAt {
        frame: at.frame,
        iters,
    })
}

/// One more turn of a loop; where there are too many, rule 41 at the name of the asked class.
fn turn<'i, 't>(desk: &mut Desk<'i, 't>) -> Result<(), Stop>
    ensures taken { OnOk result ((desk.old.turns < most_turns) × (desk.new ≡ record desk.old { turns = desk.old.turns + 1 })) }
    ensures kept { IfErr result (λ _. desk.new ≡ desk.old) }
    ensures refused { IfBroken result (λ broken. (most_turns ≤ desk.old.turns) × (broken ≡ breach FLAT_MODEL_TOO_LARGE desk.old.asked)) }
{
    if desk.turns >= MOST_TURNS {
        return Err(stop(rules::FLAT_MODEL_TOO_LARGE, desk.asked));
    }
    desk.turns += 1;
    Ok(())
}

/// What is known of a condition: a scalar Boolean, else rule 40.
fn condition_known<'x, 'i, 't>(
    alloc: Global,
    s: &mut Scopes<'t>,
    desk: &mut Desk<'i, 't>,
    at: &'x ScopeAt,
    condition: &'x Expr,
) -> Result<Option<Scalar>, Stop>
    requires frame { IsFrame s.old at.now.frame.0 }
    requires desk { IsDesk s.old desk.old }
    ensures stays { Stays s.old s.new desk.old desk.new }
    ensures exact { Gives result (known_of_condition (tree_in s.old desk.old.leaves) (scope_at s.old at.now) condition.now) }
{
    let asked = Asked {
        left: MOST_REFERENCES,
        at,
        value: condition,
        index: &[],
        layers: Layers {
            want: Want::Condition,
            fit: Fit::Scalar(rules::CONDITION_NOT_BOOLEAN),
            place: condition.place,
        },
    };
    known_at(alloc, s, desk, &asked)
}

/// A condition as it stands in the flat model: a scalar Boolean, else rule 40.
fn flat_condition<'x, 'i, 't>(
    alloc: Global,
    s: &mut Scopes<'t>,
    desk: &mut Desk<'i, 't>,
    at: &'x ScopeAt,
    condition: &'x Expr,
) -> Result<Flat, Stop>
    requires frame { IsFrame s.old at.now.frame.0 }
    requires desk { IsDesk s.old desk.old }
    ensures stays { Stays s.old s.new desk.old desk.new }
    ensures exact { Answers IsFlat result (flat_of_condition (tree_in s.old desk.old.leaves) (scope_at s.old at.now) condition.now) }
{
    let asked = Asked {
        left: MOST_REFERENCES,
        at,
        value: condition,
        index: &[],
        layers: Layers {
            want: Want::Condition,
            fit: Fit::Scalar(rules::CONDITION_NOT_BOOLEAN),
            place: condition.place,
        },
    };
    flat_at(alloc, s, desk, &asked)
}

/// The equations of a section in their order.
#[cycle(forms)]
pub(crate) fn made_section<'i, 't>(
    alloc: Global,
    s: &mut Scopes<'t>,
    desk: &mut Desk<'i, 't>,
    site: &Site,
    equations: &[Equation],
) -> Result<Made, Stop>
    requires frame { IsFrame s.old site.now.at.now.frame.0 }
    requires desk { IsDesk s.old desk.old }
    ensures goes { Goes s.old s.new desk.old desk.new }
    ensures exact { GivesMade result desk.new (all_made_at (tree_in s.old desk.old.leaves) equations.now (site_in (frames_of s.old) site.now) desk.old.turns) }
{
    let mut made = Made::new(alloc);
    for equation in equations {
        let more = made_equation(alloc, s, desk, site, equation)?;
        made.append(alloc, more)?;
    }
    Ok(made)
}

/// What comes of an equation.
#[cycle(forms)]
fn made_equation<'i, 't>(
    alloc: Global,
    s: &mut Scopes<'t>,
    desk: &mut Desk<'i, 't>,
    site: &Site,
    equation: &Equation,
) -> Result<Made, Stop>
    requires frame { IsFrame s.old site.now.at.now.frame.0 }
    requires desk { IsDesk s.old desk.old }
    ensures goes { Goes s.old s.new desk.old desk.new }
    ensures exact { GivesMade result desk.new (made_kind (tree_in s.old desk.old.leaves) equation.now.what equation.now.place (site_in (frames_of s.old) site.now) desk.old.turns) }
{
    let place = equation.place;
    match &equation.what {
        EquationKind::Equal(left, right) => {
            equalities(alloc, s, desk, site.at, place, left, right)
        }
        EquationKind::If(branches, others) => {
            let (branches, others) = (branches.as_slice(), others.as_slice());
            let choice = choice(alloc, s, desk, site, branches, others)?;
            made_if(alloc, place, choice)
        }
        EquationKind::For(indices, body) => {
            let (indices, body) = (indices.as_slice(), body.as_slice());
            looped(alloc, s, desk, site, place, indices, body)
        }
        EquationKind::When(_) => Err(stop(rules::OUTSIDE_PROFILE, place)),
        EquationKind::Connect(left, right) => connect(alloc, s, desk, site, place, left, right),
        EquationKind::Call(called, arguments) => {
            call(alloc, s, desk, site, place, called, arguments)
        }
    }
}

/// The equations of a for-equation once for each number of its ranges; the loop of a later iteration variable is inside that of an
/// earlier one.
#[cycle(forms)]
fn looped<'i, 't>(
    alloc: Global,
    s: &mut Scopes<'t>,
    desk: &mut Desk<'i, 't>,
    site: &Site,
    place: Place,
    indices: &[Index],
    body: &[Equation],
) -> Result<Made, Stop>
    requires frame { IsFrame s.old site.now.at.now.frame.0 }
    requires desk { IsDesk s.old desk.old }
    ensures goes { Goes s.old s.new desk.old desk.new }
    ensures exact { GivesMade result desk.new (made_loop (tree_in s.old desk.old.leaves) place indices.now (all_made_at (tree_in s.old desk.old.leaves) body.now) (site_in (frames_of s.old) site.now) desk.old.turns) }
{
    match indices {
        [] => made_section(alloc, s, desk, site, body),
        [index, more @ ..] => {
            let numbers = numbers_of_index(alloc, s, desk, place, site.at, &index.range)?;
            let iteration = Iteration {
                place,
                name: &index.name,
                numbers: &numbers,
            };
            turns(alloc, s, desk, site, &iteration, more, body)
        }
    }
}

/// The turns of an iteration variable, each with the loop of those behind it.
#[cycle(forms)]
fn turns<'i, 't>(
    alloc: Global,
    s: &mut Scopes<'t>,
    desk: &mut Desk<'i, 't>,
    site: &Site,
    iteration: &Iteration,
    indices: &[Index],
    body: &[Equation],
) -> Result<Made, Stop>
    requires frame { IsFrame s.old site.now.at.now.frame.0 }
    requires desk { IsDesk s.old desk.old }
    ensures goes { Goes s.old s.new desk.old desk.new }
    ensures exact { GivesMade result desk.new (made_turns (tree_in s.old desk.old.leaves) iteration.now.name.now (numbers_seen iteration.now.numbers.now) iteration.now.place indices.now (all_made_at (tree_in s.old desk.old.leaves) body.now) (site_in (frames_of s.old) site.now) desk.old.turns) }
{
    let mut made = Made::new(alloc);
    for k in 0..iteration.numbers.count() {
        let n = iteration.numbers.number(k)?;
        turn(desk)?;
        let at = with_iteration(alloc, site.at, iteration.name, n)?;
        let inner = Site {
            at: &at,
            undecided: site.undecided,
        };
        let more = looped(alloc, s, desk, &inner, iteration.place, indices, body)?;
        made.append(alloc, more)?;
    }
    Ok(made)
}

/// A condition that no value decides, then the equations of its branch.
#[cycle(forms)]
fn undecided_branch<'i, 't>(
    alloc: Global,
    s: &mut Scopes<'t>,
    desk: &mut Desk<'i, 't>,
    site: &Site,
    condition: &Expr,
    equations: &[Equation],
) -> Result<(Flat, Made), Stop>
    requires frame { IsFrame s.old site.now.at.now.frame.0 }
    requires desk { IsDesk s.old desk.old }
    ensures goes { Goes s.old s.new desk.old desk.new }
    ensures exact { GivesBranch result desk.new (undecided_at (tree_in s.old desk.old.leaves) (site_in (frames_of s.old) site.now) condition.now equations.now desk.old.turns) }
{
    let condition = flat_condition(alloc, s, desk, site.at, condition)?;
    let inside = Site {
        at: site.at,
        undecided: true,
    };
    let made = made_section(alloc, s, desk, &inside, equations);
    both(Ok(condition), made)
}

/// What is left of the branches of an if-equation. What stands behind a branch whose condition is true is not read.
#[cycle(forms)]
fn choice<'i, 't>(
    alloc: Global,
    s: &mut Scopes<'t>,
    desk: &mut Desk<'i, 't>,
    site: &Site,
    branches: &[(Expr, List<Equation>)],
    others: &[Equation],
) -> Result<Choice, Stop>
    requires frame { IsFrame s.old site.now.at.now.frame.0 }
    requires desk { IsDesk s.old desk.old }
    ensures goes { Goes s.old s.new desk.old desk.new }
    ensures exact { GivesChoice result desk.new (choice_at (tree_in s.old desk.old.leaves) (site_in (frames_of s.old) site.now) branches.now others.now desk.old.turns) }
{
    let mut undecided = site.undecided;
    let mut made = List::new(alloc);
    for branch in branches {
        let here = Site {
            at: site.at,
            undecided,
        };
        let equations = branch.1.as_slice();
        match condition_known(alloc, s, desk, site.at, &branch.0)? {
            Some(Scalar::Truth(true)) => {
                let other = made_section(alloc, s, desk, &here, equations)?;
                return Ok(Choice {
                    branches: made,
                    other,
                });
            }
            Some(Scalar::Truth(false)) => {}
            _ => {
                made.push(undecided_branch(alloc, s, desk, &here, &branch.0, equations)?)?;
                undecided = true;
            }
        }
    }
    let here = Site {
        at: site.at,
        undecided,
    };
    let other = made_section(alloc, s, desk, &here, others)?;
    Ok(Choice {
        branches: made,
        other,
    })
}
