//! What is known of expressions before a simulation: of conditions, of bindings, and the numbers of ranges.
#![tactic(auto, using(crate::proofs::Staying::staying))]

ghost use Rattle.std.specs.Prelude.{◌≡◌, ◌<◌, Some, length, slice_get, IfOk};
ghost use Rattle.mo_typing.specs.Outcome.{Gives};
ghost use Rattle.mo_scope.specs.Sights.{scope_at};
ghost use Rattle.mo_scope.specs.Worlds.{IsFrame, table_in};
ghost use Rattle.mo_values.specs.Asked.{must_be_whole as whole_that_is_known};
ghost use Rattle.mo_eval.specs.Keeping.{AreLayers};
ghost use Rattle.mo_eval.specs.References.{numbers_of as numbers_read};
ghost use Rattle.mo_eval.specs.Seen.{AreThere, resolved_at};
ghost use Rattle.mo_eval.specs.Values.{known_of, most_references};
ghost use Rattle.mo_equations.specs.Equations.{numbers_of_index as numbers_at_index, range_numbers as range_in};
ghost use Rattle.mo_equations.specs.steps.Desks.{IsDesk, Stays};
ghost use Rattle.mo_equations.specs.steps.Standing.{tree_in};
ghost use Rattle.mo_equations.specs.steps.Layers.{HasRule, fit_of, wanted_of};
ghost use Rattle.mo_equations.specs.steps.Ranges.{GivesNumbers, known_so, numbers_seen};

use crate::desk::Desk;
use crate::layers::{layered, range_size};
use crate::standing::Asked;
use mo_eval::{Bound, MOST_REFERENCES, Scalar};
use mo_flat::ArrayNode;
use mo_scope::{ScopeAt, Scopes};
use mo_syntax::{Broken, Expr, List, NoMemory, Place, Stop, broken, rules, stop};
use mo_typing::indexing::range_element;
use mo_values::layers::{answer, layers_of};
use std::alloc::Global;

/// What is known of an expression that is read for its value, where all references are left: what resolving it asks, its kinds, its
/// dimensions and its subscripts with what is wanted of them, then its value at the index.
pub(crate) fn known_at<'i, 't>(
    alloc: Global,
    s: &mut Scopes<'t>,
    desk: &mut Desk<'i, 't>,
    asked: &Asked,
) -> Result<Option<Scalar>, Stop>
    requires frame { IsFrame s.old asked.now.at.now.frame.0 }
    requires rule { HasRule asked.now.layers.fit }
    requires desk { IsDesk s.old desk.old }
    ensures stays { Stays s.old s.new desk.old desk.new }
    ensures exact { Gives result (known_so (table_in s.old) (wanted_of asked.now.layers.want asked.now.layers.place) (fit_of asked.now.layers.fit asked.now.layers.place) (scope_at s.old asked.now.at.now) asked.now.value.now asked.now.index.now) }
{
    let resolved = desk
        .reader
        .resolved_for_value(s, asked.at, MOST_REFERENCES, asked.value)?;
    layered(alloc, &asked.layers, &resolved.expression)?;
    desk.reader
        .known(s, MOST_REFERENCES, &resolved, asked.index)
}

/// The numbers that an iteration variable goes through.
#[derive(Drop)]
pub(crate) enum Numbers {
    /// So many from a first one by steps.
    Range { first: i64, step: i64, count: u32 },
    Listed(List<i64>),
}

impl Numbers {
    /// How many there are.
    pub fn count(&self) -> usize
        ensures { result ≡ length (numbers_seen self.now) }
    {
        match self {
            Numbers::Range {
                first: _,
                step: _,
                count,
            } => *count as usize,
            Numbers::Listed(numbers) => numbers.len(),
        }
    }

    /// The number with so many before it. `NoMemory` is the only other answer.
    pub fn number(&self, k: usize) -> Result<i64, NoMemory>
        requires { k < length (numbers_seen self.now) }
        ensures { IfOk result (λ n. slice_get (numbers_seen self.now) k ≡ Some n) }
    {
        match self {
            Numbers::Range {
                first,
                step,
                count: _,
            } => {
                if k >= 4294967295 {
                    return Err(NoMemory);
                }
                let index = [k as u32 + 1];
                range_element(*first, *step, &index)
            }
            Numbers::Listed(numbers) => match numbers.get(k) {
                Some(n) => Ok(*n),
                None => Err(NoMemory),
            },
        }
    }
}

/// The number of a scalar that has to have a value.
fn must_be_whole(place: Place, known: Option<Scalar>) -> Result<i64, Broken>
    ensures { result ≡ whole_that_is_known place known }
{
    match known {
        Some(Scalar::Whole(n)) => Ok(n),
        Some(Scalar::Truth(_)) => Err(broken(rules::NO_VALUE, place)),
        Some(Scalar::Literal(_, _)) => Err(broken(rules::NO_VALUE, place)),
        None => Err(broken(rules::NO_VALUE, place)),
    }
}

/// The numbers of a resolved vector of that size, one after another.
fn numbers_listed<'i, 't>(
    alloc: Global,
    s: &mut Scopes<'t>,
    desk: &mut Desk<'i, 't>,
    place: Place,
    bound: &Bound<'t>,
    size: u32,
) -> Result<Numbers, Stop>
    requires there { AreThere s.old bound.now.resolved.virtuals }
    requires layers { AreLayers bound.now }
    requires desk { IsDesk s.old desk.old }
    ensures stays { Stays s.old s.new desk.old desk.new }
    ensures exact { GivesNumbers result (numbers_read (known_of (table_in s.old) most_references (resolved_at s.old bound.now.resolved)) place size) }
{
    let mut made = List::new(alloc);
    for k in 0..size {
        let known = desk
            .reader
            .known_of_binding(s, MOST_REFERENCES, bound, &[k + 1])?;
        made.push(answer(must_be_whole(place, known))?)?;
    }
    Ok(Numbers::Listed(made))
}

/// The numbers of a range: a vector of Integers that have values.
pub(crate) fn range_numbers<'i, 't>(
    alloc: Global,
    s: &mut Scopes<'t>,
    desk: &mut Desk<'i, 't>,
    at: &ScopeAt,
    e: &Expr,
) -> Result<Numbers, Stop>
    requires frame { IsFrame s.old at.now.frame.0 }
    requires desk { IsDesk s.old desk.old }
    ensures stays { Stays s.old s.new desk.old desk.new }
    ensures exact { GivesNumbers result (range_in (tree_in s.old desk.old.leaves) (scope_at s.old at.now) e.now) }
{
    let resolved = desk.reader.resolved_for_value(s, at, MOST_REFERENCES, e)?;
    let size = range_size(alloc, e.place, &resolved.expression)?;
    if let ArrayNode::Range(first, step, _) = resolved.expression.node.get() {
        return Ok(Numbers::Range {
            first: *first,
            step: *step,
            count: size,
        });
    }
    let layers = layers_of(alloc, &resolved.expression)?;
    let bound = Bound { resolved, layers };
    numbers_listed(alloc, s, desk, e.place, &bound, size)
}

/// The numbers of an iteration variable; without a range rule 34 at the for-equation.
pub(crate) fn numbers_of_index<'i, 't>(
    alloc: Global,
    s: &mut Scopes<'t>,
    desk: &mut Desk<'i, 't>,
    place: Place,
    at: &ScopeAt,
    range: &Option<Expr>,
) -> Result<Numbers, Stop>
    requires frame { IsFrame s.old at.now.frame.0 }
    requires desk { IsDesk s.old desk.old }
    ensures stays { Stays s.old s.new desk.old desk.new }
    ensures exact { GivesNumbers result (numbers_at_index (tree_in s.old desk.old.leaves) place (scope_at s.old at.now) range.now) }
{
    match range {
        Some(e) => range_numbers(alloc, s, desk, at, e),
        None => Err(stop(rules::OUTSIDE_PROFILE, place)),
    }
}
