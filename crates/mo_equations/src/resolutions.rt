//! What is resolved of expressions, of which elements are made.
#![tactic(auto, using(crate::proofs::Staying::staying))]

ghost use Rattle.std.specs.Prelude.{◌≡◌, Ok, Err, IfOk, IfSome, OnOk};
ghost use Rattle.mo_scope.specs.Sights.{scope_at};
ghost use Rattle.mo_scope.specs.Worlds.{IsFrame, table_in};
ghost use Rattle.mo_syntax.specs.Outcome.{IfBroken};
ghost use Rattle.mo_arrays.specs.Elements.{element_of};
ghost use Rattle.mo_eval.specs.InScope.{resolved_in_scope};
ghost use Rattle.mo_eval.specs.Seen.{AreThere, resolved_at, virtuals_at};
ghost use Rattle.mo_eval.specs.Values.{most_references};
ghost use Rattle.mo_equations.specs.Replacing.{flat_at as flat_of_expression, of_variable, with_variables};
ghost use Rattle.mo_equations.specs.steps.Desks.{IsDesk, Stays};
ghost use Rattle.mo_equations.specs.steps.Flats.{Answers, IsFlat};
ghost use Rattle.mo_equations.specs.steps.Layers.{HasRule, fit_of, wanted_of};
ghost use Rattle.mo_equations.specs.steps.Resolutions.{IsResolution, IsResolvedSo};
ghost use Rattle.mo_equations.specs.steps.Standing.{AreReplaced, replacing_in};

use crate::building::{put_together, unreplaced};
use crate::desk::{Desk, Resolution};
use crate::flat::Flat;
use crate::layers::layered_so;
use crate::standing::{Asked, ask};
use mo_arrays::element_at;
use mo_eval::{MOST_REFERENCES, Resolved, Virtual};
use mo_flat::ArrayExpr;
use mo_scope::Scopes;
use mo_syntax::{NoMemory, Stop};
use mo_values::layers::{answer, layers_of};
use std::alloc::Global;

/// What is resolved with its layers, None where it breaks a rule of kinds, dimensions or subscripts.
fn with_layers<'t>(
    alloc: Global,
    resolved: Resolved<'t>,
) -> Result<Option<Resolution<'t>>, NoMemory>
    ensures { IfOk result (λ made. IfSome made (λ resolution. IsResolvedSo resolution resolved.entry)) }
{
    let layers = layers_of(alloc, &resolved.expression)?;
    let replaced = unreplaced(alloc, resolved.virtuals.len())?;
    match layers {
        Some(layers) => Ok(Some(Resolution {
            resolved,
            layers,
            replaced,
        })),
        None => Ok(None),
    }
}

/// What is resolved of an expression, None where it breaks a rule of kinds, dimensions or subscripts.
pub(crate) fn resolution_of<'i, 't>(
    alloc: Global,
    s: &mut Scopes<'t>,
    desk: &mut Desk<'i, 't>,
    asked: &Asked,
) -> Result<Option<Resolution<'t>>, Stop>
    requires frame { IsFrame s.old asked.now.at.now.frame.0 }
    requires desk { IsDesk s.old desk.old }
    ensures stays { Stays s.old s.new desk.old desk.new }
    ensures resolution { IfOk result (λ found. IfSome found (IsResolution s.new desk.new.leaves)) }
    ensures is { IfOk result (λ found. IfSome found (λ resolution. resolved_in_scope s.old asked.now.left asked.now.at.now asked.now.value.now ≡ Ok (resolved_at s.new resolution.resolved))) }
    ensures refused { IfBroken result (λ broken. resolved_in_scope s.old asked.now.left asked.now.at.now asked.now.value.now ≡ Err broken) }
{
    let resolved = desk.reader.resolved(s, asked.at, asked.left, asked.value)?;
    Ok(with_layers(alloc, resolved)?)
}

/// An element of an array expression with its variables replaced; of each of them is asked once.
pub(crate) fn flat_of_array<'i, 't>(
    alloc: Global,
    s: &mut Scopes<'t>,
    desk: &mut Desk<'i, 't>,
    expression: &ArrayExpr,
    virtuals: &[Virtual<'t>],
    index: &[u32],
    replaced: &mut Vec<Option<Flat>>,
) -> Result<Flat, Stop>
    requires there { AreThere s.old virtuals.now }
    requires desk { IsDesk s.old desk.old }
    requires replaced { AreReplaced (of_variable (replacing_in s.old desk.old.leaves most_references) (virtuals_at s.old virtuals.now)) replaced.old.items }
    ensures stays { Stays s.old s.new desk.old desk.new }
    ensures replaced { OnOk result (AreReplaced (of_variable (replacing_in s.old desk.old.leaves most_references) (virtuals_at s.old virtuals.now)) replaced.new.items) }
    ensures exact { Answers IsFlat result (with_variables (of_variable (replacing_in s.old desk.old.leaves most_references) (virtuals_at s.old virtuals.now)) (element_of expression.now index.now)) }
{
    let element = element_at(alloc, expression, index)?;
    ask(
        alloc,
        s,
        desk,
        MOST_REFERENCES,
        &element,
        virtuals,
        replaced,
    )?;
    Ok(put_together(alloc, &element, replaced.as_slice())?)
}

/// The element of what is resolved, behind what is wanted of its kind and its dimensions.
pub(crate) fn flat_of_resolution<'i, 't>(
    alloc: Global,
    s: &mut Scopes<'t>,
    desk: &mut Desk<'i, 't>,
    asked: &Asked,
    resolution: &mut Resolution<'t>,
) -> Result<Flat, Stop>
    requires rule { HasRule asked.now.layers.fit }
    requires left { asked.now.left ≡ most_references }
    requires resolution { IsResolution s.old desk.old.leaves resolution.old }
    requires is { resolved_in_scope s.old asked.now.left asked.now.at.now asked.now.value.now ≡ Ok (resolved_at s.old resolution.old.resolved) }
    requires desk { IsDesk s.old desk.old }
    ensures stays { Stays s.old s.new desk.old desk.new }
    ensures exact { Answers IsFlat result (flat_of_expression (table_in s.old) asked.now.left (replacing_in s.old desk.old.leaves asked.now.left) (wanted_of asked.now.layers.want asked.now.layers.place) (fit_of asked.now.layers.fit asked.now.layers.place) (scope_at s.old asked.now.at.now) asked.now.value.now asked.now.index.now) }
    ensures resolution { OnOk result (IsResolution s.new desk.new.leaves resolution.new) }
    ensures resolved { resolution.new.resolved ≡ resolution.old.resolved }
{
    answer(layered_so(&asked.layers, &resolution.layers))?;
    let resolved = &resolution.resolved;
    flat_of_array(
        alloc,
        s,
        desk,
        &resolved.expression,
        resolved.virtuals.as_slice(),
        asked.index,
        &mut resolution.replaced,
    )
}
