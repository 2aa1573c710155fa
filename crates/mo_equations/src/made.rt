//! What comes of equations, counted, and kept as long as it is no more than a flat model may have.
ghost use Rattle.std.specs.Prelude.{◌≡◌, [], ◌∷◌, Option, IfOk, OnOk};
ghost use Rattle.mo_flat.specs.declared.expr.FlatExpr.{FlatExpr as Expression};
ghost use Rattle.mo_equations.specs.Gathering.{made_assert, made_equations, nothing};
ghost use Rattle.mo_equations.specs.steps.Flats.{IsFlat};
ghost use Rattle.mo_equations.specs.steps.Makings.{HasAll, HasConnect, HasEquation, IsFlatOption, IsMade, IsSettled, assert_with, equation_with, level_with};

use crate::flat::{Flat, is_past};
use mo_flat::{Connect, FlatAssert, FlatEquation, FlatExpr};
use mo_syntax::{List, NoMemory, Place};
use std::alloc::Global;

/// Scalar equations, asserts and connects, each in their order, with the number of equations and the nodes of all expressions; the
/// greatest `u64` where a number passes 64 bits. Where there are more nodes than a flat model may have, equations and asserts are not
/// kept.
#[derive(Drop)]
pub(crate) struct Made {
    pub count: u64,
    pub nodes: u64,
    pub equations: List<FlatEquation>,
    pub asserts: List<FlatAssert>,
    pub connects: List<Connect>,
}

impl Made {
    /// Nothing.
    pub fn new(alloc: Global) -> Made
        ensures { IsMade result nothing }
    {
        Made {
            count: 0,
            nodes: 0,
            equations: List::new(alloc),
            asserts: List::new(alloc),
            connects: List::new(alloc),
        }
    }

    /// Lets equations and asserts go where there are too many nodes.
    fn settle(&mut self, alloc: Global)
        ensures { IsSettled self.old self.new }
    {
        if is_past(self.nodes) {
            self.equations = List::new(alloc);
            self.asserts = List::new(alloc);
        }
    }

    /// Puts an equation at the end. `NoMemory` is the only other answer.
    pub fn push_equation(
        &mut self,
        alloc: Global,
        left: Flat,
        right: Flat,
        place: Place,
    ) -> Result<(), NoMemory>
        ensures { OnOk result (HasEquation self.old self.new left right place) }
    {
        let one = one_equation(alloc, left, right, place)?;
        self.append(alloc, one)
    }

    /// Puts a connect at the end. `NoMemory` is the only other answer.
    pub fn push_connect(&mut self, connect: Connect) -> Result<(), NoMemory>
        ensures { OnOk result (HasConnect self.old self.new connect) }
    {
        self.connects.push(connect)
    }

    /// Moves what comes of other equations to the end. `NoMemory` is the only other answer.
    pub fn append(&mut self, alloc: Global, more: Made) -> Result<(), NoMemory>
        ensures { OnOk result (HasAll self.old self.new more) }
    {
        let Made {
            count,
            nodes,
            equations,
            asserts,
            connects,
        } = more;
        self.count = self.count.saturating_add(count);
        self.nodes = self.nodes.saturating_add(nodes);
        self.equations.append(equations)?;
        self.asserts.append(asserts)?;
        self.settle(alloc);
        self.connects.append(connects)
    }
}

/// An equation of sides that are built.
fn equation_of(
    left: Option<FlatExpr>,
    right: Option<FlatExpr>,
    place: Place,
) -> Option<FlatEquation>
    ensures { result ≡ equation_with left right place }
{
    match (left, right) {
        (Some(left), Some(right)) => Some(FlatEquation { left, right, place }),
        _ => None,
    }
}

/// One equation.
fn one_equation(alloc: Global, left: Flat, right: Flat, place: Place) -> Result<Made, NoMemory>
    ensures { IfOk result (λ made. (l r : Expression) → IsFlat left l → IsFlat right r → IsMade made (made_equations (record { left = l; right = r; place = place } ∷ []))) }
{
    let nodes = left.nodes.saturating_add(right.nodes);
    let mut made = Made::new(alloc);
    made.count = 1;
    made.nodes = nodes;
    if let Some(equation) = equation_of(left.built, right.built, place) {
        made.equations.push(equation)?;
    }
    Ok(made)
}

/// The nodes of an assertion level, and the expression if it is built; None where there is a level that is not.
fn level_of(level: Option<Flat>) -> (u64, Option<Option<FlatExpr>>)
    ensures { result ≡ level_with level }
{
    match level {
        None => (0, Some(None)),
        Some(flat) => {
            let Flat { nodes, built } = flat;
            match built {
                Some(e) => (nodes, Some(Some(e))),
                None => (nodes, None),
            }
        }
    }
}

/// An assert of parts that are built.
fn assert_of(
    condition: Option<FlatExpr>,
    message: Option<FlatExpr>,
    level: Option<Option<FlatExpr>>,
) -> Option<FlatAssert>
    ensures { result ≡ assert_with condition message level }
{
    match (condition, message, level) {
        (Some(condition), Some(message), Some(level)) => Some(FlatAssert {
            condition,
            message,
            level,
        }),
        _ => None,
    }
}

/// One assert.
pub(crate) fn one_assert(
    alloc: Global,
    condition: Flat,
    message: Flat,
    level: Option<Flat>,
) -> Result<Made, NoMemory>
    ensures { IfOk result (λ made. (c m : Expression) (l : Option Expression) → IsFlat condition c → IsFlat message m → IsFlatOption level l → IsMade made (made_assert (record { condition = c; message = m; level = l }))) }
{
    let (level_nodes, level) = level_of(level);
    let nodes = condition
        .nodes
        .saturating_add(message.nodes)
        .saturating_add(level_nodes);
    let mut made = Made::new(alloc);
    made.nodes = nodes;
    if let Some(one) = assert_of(condition.built, message.built, level) {
        made.asserts.push(one)?;
    }
    Ok(made)
}
