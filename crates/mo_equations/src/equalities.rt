//! Equations between two expressions: one scalar equation for each element, the last index fastest.
#![tactic(auto, using(crate::proofs::Staying::staying))]

ghost use Rattle.std.specs.Prelude.{◌++◌, ◌∷◌, [], OnOk, map};
ghost use Rattle.mo_scope.specs.Sights.{scope_at};
ghost use Rattle.mo_scope.specs.Worlds.{IsFrame};
ghost use Rattle.mo_typing.specs.Indices.{indices};
ghost use Rattle.mo_typing.specs.Outcome.{each};
ghost use Rattle.mo_arrays.specs.Equations.{equation as equation_of};
ghost use Rattle.mo_eval.specs.Seen.{AreThere, virtuals_at};
ghost use Rattle.mo_eval.specs.Values.{most_references};
ghost use Rattle.mo_equations.specs.Equalities.{equalities as equalities_of_expressions, replaced_sides};
ghost use Rattle.mo_equations.specs.Replacing.{of_variable};
ghost use Rattle.mo_equations.specs.steps.Desks.{IsDesk, Stays};
ghost use Rattle.mo_equations.specs.steps.Equalities.{GivesEquations, PutsEquations};
ghost use Rattle.mo_equations.specs.steps.Standing.{AreReplaced, replacing_in, tree_in};

use crate::building::unreplaced;
use crate::desk::Desk;
use crate::flat::Flat;
use crate::made::Made;
use crate::resolutions::flat_of_array;
use mo_arrays::checked_sides;
use mo_eval::Sides;
use mo_scope::{ScopeAt, Scopes};
use mo_syntax::{Expr, Place, Stop};
use mo_typing::indexing::has_none;
use mo_typing::shapes::joined_lists;
use std::alloc::Global;

/// The equations so far, and what replaces the variables of the sides.
#[derive(Drop)]
struct Row {
    replaced: Vec<Option<Flat>>,
    made: Made,
}

/// Puts the equation of the elements at an index at the end.
fn put_equation<'i, 't>(
    alloc: Global,
    s: &mut Scopes<'t>,
    desk: &mut Desk<'i, 't>,
    sides: &Sides<'t>,
    place: Place,
    index: &[u32],
    row: &mut Row,
) -> Result<(), Stop>
    requires there { AreThere s.old sides.now.virtuals }
    requires desk { IsDesk s.old desk.old }
    requires replaced { AreReplaced (of_variable (replacing_in s.old desk.old.leaves most_references) (virtuals_at s.old sides.now.virtuals)) row.old.replaced.items }
    ensures stays { Stays s.old s.new desk.old desk.new }
    ensures replaced { OnOk result (AreReplaced (of_variable (replacing_in s.old desk.old.leaves most_references) (virtuals_at s.old sides.now.virtuals)) row.new.replaced.items) }
    ensures exact { PutsEquations result row.old.made row.new.made (each (replaced_sides (tree_in s.old desk.old.leaves) (virtuals_at s.old sides.now.virtuals)) (equation_of sides.now.left sides.now.right place index.now ∷ [])) }
{
    let virtuals = sides.virtuals.as_slice();
    let left = flat_of_array(
        alloc,
        s,
        desk,
        &sides.left,
        virtuals,
        index,
        &mut row.replaced,
    )?;
    let right = flat_of_array(
        alloc,
        s,
        desk,
        &sides.right,
        virtuals,
        index,
        &mut row.replaced,
    )?;
    Ok(row.made.push_equation(alloc, left, right, place)?)
}

/// Where equations stand, how their indices begin, and the dimensions behind these.
#[derive(Clone, Copy)]
struct Below<'a> {
    place: Place,
    begun: &'a [u32],
    dims: &'a [u32],
}

/// Puts the equations of the elements whose indices begin so at the end.
#[cycle(rows)]
fn put_below<'i, 't>(
    alloc: Global,
    s: &mut Scopes<'t>,
    desk: &mut Desk<'i, 't>,
    sides: &Sides<'t>,
    below: Below,
    row: &mut Row,
) -> Result<(), Stop>
    requires there { AreThere s.old sides.now.virtuals }
    requires desk { IsDesk s.old desk.old }
    requires replaced { AreReplaced (of_variable (replacing_in s.old desk.old.leaves most_references) (virtuals_at s.old sides.now.virtuals)) row.old.replaced.items }
    ensures stays { Stays s.old s.new desk.old desk.new }
    ensures replaced { OnOk result (AreReplaced (of_variable (replacing_in s.old desk.old.leaves most_references) (virtuals_at s.old sides.now.virtuals)) row.new.replaced.items) }
    ensures exact { PutsEquations result row.old.made row.new.made (each (replaced_sides (tree_in s.old desk.old.leaves) (virtuals_at s.old sides.now.virtuals)) (map (λ index. equation_of sides.now.left sides.now.right below.entry.place (below.entry.begun.now ++ index)) (indices below.entry.dims.now))) }
{
    match below.dims {
        [] => put_equation(alloc, s, desk, sides, below.place, below.begun, row),
        [n, more @ ..] => {
            let rest = Below {
                place: below.place,
                begun: below.begun,
                dims: more,
            };
            put_rows(alloc, s, desk, sides, n, rest, row)
        }
    }
}

/// The same, n rows of them.
#[cycle(rows)]
fn put_rows<'i, 't>(
    alloc: Global,
    s: &mut Scopes<'t>,
    desk: &mut Desk<'i, 't>,
    sides: &Sides<'t>,
    n: &u32,
    below: Below,
    row: &mut Row,
) -> Result<(), Stop>
    requires there { AreThere s.old sides.now.virtuals }
    requires desk { IsDesk s.old desk.old }
    requires replaced { AreReplaced (of_variable (replacing_in s.old desk.old.leaves most_references) (virtuals_at s.old sides.now.virtuals)) row.old.replaced.items }
    ensures stays { Stays s.old s.new desk.old desk.new }
    ensures replaced { OnOk result (AreReplaced (of_variable (replacing_in s.old desk.old.leaves most_references) (virtuals_at s.old sides.now.virtuals)) row.new.replaced.items) }
    ensures exact { PutsEquations result row.old.made row.new.made (each (replaced_sides (tree_in s.old desk.old.leaves) (virtuals_at s.old sides.now.virtuals)) (map (λ index. equation_of sides.now.left sides.now.right below.entry.place (below.entry.begun.now ++ index)) (indices (n.now ∷ below.entry.dims.now)))) }
{
    if has_none(below.dims) {
        return Ok(());
    }
    for k in 0..*n {
        let index = joined_lists(alloc, below.begun, &[k + 1])?;
        let next = Below {
            place: below.place,
            begun: index.as_slice(),
            dims: below.dims,
        };
        put_below(alloc, s, desk, sides, next, row)?;
    }
    Ok(())
}

/// The scalar equations of two sides: what resolving them asks, their kinds, their dimensions and their subscripts, each of the left one
/// before the right one, then element by element what replaces their names.
pub(crate) fn equalities<'i, 't>(
    alloc: Global,
    s: &mut Scopes<'t>,
    desk: &mut Desk<'i, 't>,
    at: &ScopeAt,
    place: Place,
    left: &Expr,
    right: &Expr,
) -> Result<Made, Stop>
    requires frame { IsFrame s.old at.now.frame.0 }
    requires desk { IsDesk s.old desk.old }
    ensures stays { Stays s.old s.new desk.old desk.new }
    ensures exact { GivesEquations result (equalities_of_expressions (tree_in s.old desk.old.leaves) (scope_at s.old at.now) place left.now right.now) }
{
    let sides = desk.reader.sides(s, at, left, right)?;
    let dims = checked_sides(alloc, &sides.left, &sides.right, place)?;
    let mut row = Row {
        replaced: unreplaced(alloc, sides.virtuals.len())?,
        made: Made::new(alloc),
    };
    let below = Below {
        place,
        begun: &[],
        dims: dims.as_slice(),
    };
    put_below(alloc, s, desk, &sides, below, &mut row)?;
    Ok(row.made)
}
