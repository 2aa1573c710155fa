//! What stands for the elements that expressions name: the variable of an instance, or for a constant without one its value or the
//! expression of its binding.
#![tactic(auto, using(crate::proofs::Staying::staying))]

ghost use Rattle.std.specs.Prelude.{◌≡◌, Ok, Err, IfOk, OnOk};
ghost use Rattle.mo_flat.specs.declared.expr.FlatExpr.TheVariants.{Var};
ghost use Rattle.mo_scope.specs.Frames.{at_of};
ghost use Rattle.mo_scope.specs.Names.{path_below};
ghost use Rattle.mo_scope.specs.Sights.{member_seen, scope_at};
ghost use Rattle.mo_scope.specs.Worlds.{IsFrame, frame_at, frames_of, table_in};
ghost use Rattle.mo_names.specs.Sights.{IsMember};
ghost use Rattle.mo_eval.specs.Seen.{AreThere, virtual_seen, element_at, virtuals_at, resolved_at};
ghost use Rattle.mo_equations.specs.Replacing.{constant as constant_by_left, constant_by as constant_by_reader, flat_at as flat_of_expression, flat_element as element_of_resolved, flat_value as expression_of_value, of_variable, of_virtual as virtual_by, with_variables};
ghost use Rattle.mo_syntax.specs.Outcome.{IfBroken};
ghost use Rattle.mo_typing.specs.Outcome.{Gives};
ghost use Rattle.mo_values.specs.Scalars.{has_values as kind_has_values};
ghost use Rattle.mo_equations.specs.Leaves.{number_of};
ghost use Rattle.mo_equations.specs.steps.Desks.{IsDesk, Stays};
ghost use Rattle.mo_equations.specs.steps.Flats.{Answers, IsFlat};
ghost use Rattle.mo_equations.specs.steps.Layers.{HasRule, fit_of, wanted_of};
ghost use Rattle.mo_equations.specs.steps.Standing.{AreAsked, AreReplaced, IsVirtualThere, constant_expression as expression_of_constant, constant_known as known_of_constant, replacing_in, tree_in};

use crate::building::{is_asked, put_asked, put_replaced, unreplaced};
use crate::constants::{keep_constant, kept_constant};
use crate::counting::variables_of;
use crate::desk::Desk;
use crate::flat::Flat;
use crate::layers::{Fit, Layers, Want, layered};
use mo_arrays::element_at;
use mo_eval::{Element, Resolved, Scalar, Virtual, literal_text};
use mo_flat::FlatExpr;
use mo_lookup::child_of_member;
use mo_scope::{Member, ScopeAt, Scopes, copied, pick_here};
use mo_syntax::{Expr, InstancePath, Kind, List, NoMemory, Stop, Text, pushed, rules, stop};
use std::alloc::Global;

/// An expression in a scope where so many references may still be read, the index at which it is taken, and what is wanted of it.
#[derive(Clone, Copy)]
pub(crate) struct Asked<'a> {
    pub left: u64,
    pub at: &'a ScopeAt,
    pub value: &'a Expr,
    pub index: &'a [u32],
    pub layers: Layers<'a>,
}

/// Whether expressions of a kind have values.
pub(crate) fn has_values(kind: Kind) -> bool
    ensures { result ≡ kind_has_values kind }
{
    match kind {
        Kind::Real => false,
        Kind::Str => false,
        Kind::Whole | Kind::Truth | Kind::Enumeration(_) => true,
    }
}

/// A value as an expression.
pub(crate) fn flat_value(alloc: Global, s: &Scopes, scalar: Scalar) -> Result<FlatExpr, NoMemory>
    ensures { IfOk result (λ made. made ≡ expression_of_value (table_in s.now) scalar) }
{
    match scalar {
        Scalar::Whole(n) => Ok(FlatExpr::Whole(n)),
        Scalar::Truth(b) => Ok(FlatExpr::Truth(b)),
        Scalar::Literal(class, place) => {
            Ok(FlatExpr::Literal(literal_text(alloc, s, class, place)?))
        }
    }
}

/// A name with its indices.
pub(crate) fn copied_step(
    alloc: Global,
    name: &Text,
    index: &[u32],
) -> Result<(Text, List<u32>), NoMemory>
    ensures { IfOk result (λ made. made ≡ (name.now, index.now)) }
{
    let name = name.copy(alloc)?;
    let index = copied(alloc, index)?;
    Ok((name, index))
}

/// A copy of the names on a path.
fn copied_path(alloc: Global, path: &InstancePath) -> Result<List<(Text, List<u32>)>, NoMemory>
    ensures { IfOk result (λ made. made ≡ path.now.0) }
{
    let mut made = List::new(alloc);
    for one in path.0.as_slice() {
        pushed(&mut made, copied_step(alloc, &one.0, one.1.as_slice()))?;
    }
    Ok(made)
}

/// The path of an element of a component, None where the frame that declares it is that of no instance.
pub(crate) fn path_of_element<'t>(
    alloc: Global,
    s: &Scopes<'t>,
    member: &Member<'t>,
    index: &[u32],
) -> Result<Option<List<(Text, List<u32>)>>, NoMemory>
    requires { IsMember s.now member.now }
    ensures { IfOk result (λ path. path ≡ path_below (at_of (frame_at s.now member.now.home.0)) (member_seen member.now).name index.now) }
{
    match s.path(member.home) {
        Some(path) => {
            let mut names = copied_path(alloc, path)?;
            pushed(&mut names, copied_step(alloc, member.name, index))?;
            Ok(Some(names))
        }
        None => Ok(None),
    }
}

/// The variable at a path.
fn variable_at<'i, 't>(
    alloc: Global,
    _s: &Scopes<'t>,
    desk: &Desk<'i, 't>,
    path: &[(Text, List<u32>)],
) -> Result<Flat, NoMemory>
    requires { IsDesk _s.now desk.now }
    ensures { IfOk result (λ flat. IsFlat flat (Var (number_of (tree_in _s.now desk.now.leaves) path.now) 0)) }
{
    let number = desk.leaves.number_at(alloc, path)?;
    Ok(Flat::of(FlatExpr::Var(number, 0)))
}

/// The expression as it stands in the flat model: what resolving it asks, its kinds, its dimensions and its subscripts with what is
/// wanted of them, then its element. `NoMemory` is the only other answer.
#[cycle(standing)]
pub(crate) fn flat_at<'i, 't>(
    alloc: Global,
    s: &mut Scopes<'t>,
    desk: &mut Desk<'i, 't>,
    asked: &Asked,
) -> Result<Flat, Stop>
    requires frame { IsFrame s.old asked.now.at.now.frame.0 }
    requires rule { HasRule asked.now.layers.fit }
    requires desk { IsDesk s.old desk.old }
    ensures stays { Stays s.old s.new desk.old desk.new }
    ensures exact { Answers IsFlat result (flat_of_expression (table_in s.old) asked.now.left (replacing_in s.old desk.old.leaves asked.now.left) (wanted_of asked.now.layers.want asked.now.layers.place) (fit_of asked.now.layers.fit asked.now.layers.place) (scope_at s.old asked.now.at.now) asked.now.value.now asked.now.index.now) }
{
    let resolved = desk.reader.resolved(s, asked.at, asked.left, asked.value)?;
    layered(alloc, &asked.layers, &resolved.expression)?;
    flat_element(alloc, s, desk, asked.left, &resolved, asked.index)
}

/// The element of a resolved expression at an index.
#[cycle(standing)]
fn flat_element<'i, 't>(
    alloc: Global,
    s: &mut Scopes<'t>,
    desk: &mut Desk<'i, 't>,
    left: u64,
    resolved: &Resolved<'t>,
    index: &[u32],
) -> Result<Flat, Stop>
    requires there { AreThere s.old resolved.now.virtuals }
    requires desk { IsDesk s.old desk.old }
    ensures stays { Stays s.old s.new desk.old desk.new }
    ensures exact { Answers IsFlat result (element_of_resolved (replacing_in s.old desk.old.leaves left) (resolved_at s.old resolved.now) index.now) }
{
    let element = element_at(alloc, &resolved.expression, index)?;
    let virtuals = resolved.virtuals.as_slice();
    let mut replaced = unreplaced(alloc, virtuals.len())?;
    let asked = ask(alloc, s, desk, left, &element, virtuals, &mut replaced);
    put_asked(alloc, asked, &element, replaced.as_slice())
}

/// Asks what replaces the variables of an expression, from left to right, each once.
#[cycle(standing)]
pub(crate) fn ask<'i, 't>(
    alloc: Global,
    s: &mut Scopes<'t>,
    desk: &mut Desk<'i, 't>,
    left: u64,
    e: &FlatExpr,
    virtuals: &[Virtual<'t>],
    replaced: &mut Vec<Option<Flat>>,
) -> Result<(), Stop>
    requires there { AreThere s.old virtuals.now }
    requires desk { IsDesk s.old desk.old }
    requires replaced { AreReplaced (of_variable (replacing_in s.old desk.old.leaves left) (virtuals_at s.old virtuals.now)) replaced.old.items }
    ensures stays { Stays s.old s.new desk.old desk.new }
    ensures replaced { OnOk result (AreReplaced (of_variable (replacing_in s.old desk.old.leaves left) (virtuals_at s.old virtuals.now)) replaced.new.items) }
    ensures asked { IfOk result (λ _. AreAsked replaced.new.items e.now) }
    ensures refused { IfBroken result (λ broken. with_variables (of_variable (replacing_in s.old desk.old.leaves left) (virtuals_at s.old virtuals.now)) e.now ≡ Err broken) }
{
    let numbers = variables_of(alloc, e)?;
    for n in numbers.as_slice() {
        let place = n.saturating_sub(1) as usize;
        let Some(it) = virtuals.get(place) else {
            return Err(Stop::NoMemory);
        };
        if is_asked(replaced.as_slice(), place) {
            continue;
        }
        let flat = of_virtual(alloc, s, desk, left, it)?;
        put_replaced(replaced, place, flat)?;
    }
    Ok(())
}

/// What stands for a virtual variable.
#[cycle(standing)]
fn of_virtual<'i, 't>(
    alloc: Global,
    s: &mut Scopes<'t>,
    desk: &mut Desk<'i, 't>,
    left: u64,
    it: &Virtual<'t>,
) -> Result<Flat, Stop>
    requires there { IsVirtualThere s.old it.now }
    requires desk { IsDesk s.old desk.old }
    ensures stays { Stays s.old s.new desk.old desk.new }
    ensures exact { Answers IsFlat result (virtual_by (replacing_in s.old desk.old.leaves left) (virtual_seen (frames_of s.old) it.now)) }
{
    match it {
        Virtual::Component(element) => standing(alloc, s, desk, left, element),
        Virtual::Division {
            place,
            function: _,
            left: _,
            right: _,
        } => Err(stop(rules::OUTSIDE_PROFILE, *place)),
    }
}

/// What stands for an element of a component: the variable at its path, or what replaces a constant without one.
#[cycle(standing)]
fn standing<'i, 't>(
    alloc: Global,
    s: &mut Scopes<'t>,
    desk: &mut Desk<'i, 't>,
    left: u64,
    element: &Element<'t>,
) -> Result<Flat, Stop>
    requires member { IsMember s.old element.now.member }
    requires desk { IsDesk s.old desk.old }
    ensures stays { Stays s.old s.new desk.old desk.new }
    ensures exact { Answers IsFlat result (replacing_in s.old desk.old.leaves left (element_at s.old element.now)) }
{
    match path_of_element(alloc, s, &element.member, element.index.as_slice())? {
        Some(path) => Ok(variable_at(alloc, s, desk, path.as_slice())?),
        None => constant(alloc, s, desk, left, element),
    }
}

/// What replaces a constant that has no instance: rule 29 where no more references may be read, else its value or its expression.
#[cycle(standing)]
fn constant<'i, 't>(
    alloc: Global,
    s: &mut Scopes<'t>,
    desk: &mut Desk<'i, 't>,
    left: u64,
    element: &Element<'t>,
) -> Result<Flat, Stop>
    requires member { IsMember s.old element.now.member }
    requires desk { IsDesk s.old desk.old }
    ensures stays { Stays s.old s.new desk.old desk.new }
    ensures exact { Answers IsFlat result (constant_by_left (table_in s.old) (number_of (tree_in s.old desk.old.leaves)) left (element_at s.old element.now)) }
{
    if left == 0 {
        return Err(stop(rules::REFERENCE_CHAIN_TOO_LONG, element.place));
    }
    if let Some(flat) = kept_constant(alloc, s, desk, left, element)? {
        return Ok(flat);
    }
    let flat = constant_by(alloc, s, desk, left - 1, element)?;
    keep_constant(alloc, s, desk, left, element, &flat)?;
    Ok(flat)
}

/// What replaces a constant where so many references are left behind it.
#[cycle(standing)]
fn constant_by<'i, 't>(
    alloc: Global,
    s: &mut Scopes<'t>,
    desk: &mut Desk<'i, 't>,
    left: u64,
    element: &Element<'t>,
) -> Result<Flat, Stop>
    requires member { IsMember s.old element.now.member }
    requires desk { IsDesk s.old desk.old }
    ensures stays { Stays s.old s.new desk.old desk.new }
    ensures exact { Answers IsFlat result (constant_by_reader (table_in s.old) left (replacing_in s.old desk.old.leaves left) (element_at s.old element.now)) }
{
    match constant_known(alloc, s, desk, left, element)? {
        Some(scalar) => Ok(Flat::of(flat_value(alloc, s, scalar)?)),
        None => constant_expression(alloc, s, desk, left, element),
    }
}

/// What is known of a constant, None where its kind has no values.
fn constant_known<'i, 't>(
    alloc: Global,
    s: &mut Scopes<'t>,
    desk: &mut Desk<'i, 't>,
    left: u64,
    element: &Element<'t>,
) -> Result<Option<Scalar>, Stop>
    requires member { IsMember s.old element.now.member }
    requires desk { IsDesk s.old desk.old }
    ensures stays { Stays s.old s.new desk.old desk.new }
    ensures exact { Gives result (known_of_constant (table_in s.old) left (element_at s.old element.now)) }
{
    if has_values(element.kind) {
        desk.reader.value_of_element(s, left, element)
    } else {
        Ok(None)
    }
}

/// The expression of the binding of a constant; rule 28 at the reference where it has none.
#[cycle(standing)]
fn constant_expression<'i, 't>(
    alloc: Global,
    s: &mut Scopes<'t>,
    desk: &mut Desk<'i, 't>,
    left: u64,
    element: &Element<'t>,
) -> Result<Flat, Stop>
    requires member { IsMember s.old element.now.member }
    requires desk { IsDesk s.old desk.old }
    ensures stays { Stays s.old s.new desk.old desk.new }
    ensures exact { Answers IsFlat result (expression_of_constant (table_in s.old) left (replacing_in s.old desk.old.leaves left) (element_at s.old element.now)) }
{
    let child = child_of_member(alloc, s, &element.member, element.index.as_slice())?;
    match pick_here(child.sources.as_slice()) {
        None => Err(stop(rules::NO_VALUE, element.place)),
        Some(binding) => {
            let asked = Asked {
                left,
                at: binding.scope,
                value: binding.value,
                index: binding.pending,
                layers: Layers {
                    want: Want::Accepted(element.kind),
                    fit: Fit::Pending(binding.pending),
                    place: binding.value.place,
                },
            };
            flat_at(alloc, s, desk, &asked)
        }
    }
}
