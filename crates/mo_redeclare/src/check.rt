//! The redeclarations among the sources of a frame (Modelica Language Specification 3.5, sections 6.4 and 7.3).
#![tactic(auto, using(crate::proofs::Later::later))]

ghost use Rattle.std.specs.Prelude.{◌≡◌, map, Ok};
ghost use Rattle.mo_scope.specs.Names.{walk_of};
ghost use Rattle.mo_scope.specs.Outcome.{Gives};
ghost use Rattle.mo_scope.specs.Places.{Every};
ghost use Rattle.mo_scope.specs.Redeclarations.{each_checked, redeclaration_checked as redeclaration_is_checked, redeclared_checked};
ghost use Rattle.mo_scope.specs.Worlds.{Grows, IsFrame, frame_at, frames_of, member_in, table_in};
ghost use Rattle.mo_scope.specs.Sights.{redeclaration_at, member_at};
ghost use Rattle.mo_names.specs.Sights.{IsMember, IsWalk, walk_at};
ghost use Rattle.mo_redeclare.specs.steps.Sights.{IsKept, IsNamed, IsRedeclaration, named_seen};
ghost use Rattle.mo_redeclare.specs.steps.Comparing.{classes_checked as classes_are_checked, found_checked};

use crate::classes::{constraining_class, new_class};
use crate::comparing::compatible;
use crate::known::{all_elements, named};
use crate::prefix::is_same;
use crate::replaceable::is_replaceable_for;
use crate::spoken::{Named, redeclared_in};
use mo_names::Walk;
use mo_scope::{Member, MemberTable, Redeclaration, Scopes, is_class};
use mo_syntax::{FrameId, Stop, rules, stop};
use std::alloc::Global;

/// Asks that the class of a redeclaration is compatible with that of the constraining clause, or with the declared class.
fn classes_checked<'t>(
    alloc: Global,
    s: &mut Scopes<'t>,
    member: &Member<'t>,
    redeclaration: &Redeclaration<'t>,
) -> Result<(), Stop>
    requires member { IsMember s.old member.now }
    requires redeclaration { IsRedeclaration s.old redeclaration.now }
    ensures grows { Grows s.old s.new }
    ensures value { Gives (λ _. tt) result (classes_are_checked (table_in s.old) (member_at s.old member.now) (redeclaration_at s.old redeclaration.now)) }
{
    let new = new_class(alloc, s, redeclaration)?;
    let wanted = constraining_class(alloc, s, member)?;
    compatible(alloc, s, new, wanted, redeclaration.place)
}

/// Asks that a redeclaration redeclares a class by a class or a component by a component, that the element is replaceable,
/// and that the new class is compatible.
fn redeclaration_checked<'t>(
    alloc: Global,
    s: &mut Scopes<'t>,
    member: &Member<'t>,
    redeclaration: &Redeclaration<'t>,
) -> Result<(), Stop>
    requires member { IsMember s.old member.now }
    requires redeclaration { IsRedeclaration s.old redeclaration.now }
    ensures grows { Grows s.old s.new }
    ensures value { Gives (λ _. tt) result (redeclaration_is_checked (table_in s.old) (member_at s.old member.now) (redeclaration_at s.old redeclaration.now)) }
{
    if !is_same(
        is_class(&redeclaration.declares),
        is_class(&member.declares),
    ) {
        return Err(stop(rules::WRONG_KIND_OF_NAME, redeclaration.place));
    }
    if !is_replaceable_for(alloc, s, member, redeclaration)? {
        return Err(stop(rules::WRONG_REPLACEABLE, redeclaration.place));
    }
    classes_checked(alloc, s, member, redeclaration)
}

/// Asks what a redeclaration breaks where the elements of the frame are these. An attribute of a leaf type is not
/// replaceable.
fn named_checked<'t>(
    alloc: Global,
    s: &mut Scopes<'t>,
    members: &MemberTable<'t>,
    is_leaf: bool,
    redeclared: &Named<'t>,
) -> Result<(), Stop>
    requires members { Every (IsKept s.old) members.now }
    requires redeclared { IsNamed s.old redeclared.now }
    ensures grows { Grows s.old s.new }
    ensures value { Gives (λ _. tt) result (found_checked (table_in s.old) (map (member_in (frames_of s.old)) members.now) is_leaf (named_seen (frames_of s.old) redeclared.now)) }
{
    match named(s, members, redeclared.name) {
        Some(member) => redeclaration_checked(alloc, s, &member, &redeclared.redeclaration),
        None => {
            if is_leaf {
                return Err(stop(rules::WRONG_REPLACEABLE, redeclared.redeclaration.place));
            }
            Ok(())
        }
    }
}

/// Asks what redeclarations break, one after another.
fn each_checked_in<'t>(
    alloc: Global,
    s: &mut Scopes<'t>,
    members: &MemberTable<'t>,
    is_leaf: bool,
    redeclared: &[Named<'t>],
) -> Result<(), Stop>
    requires members { Every (IsKept s.old) members.now }
    requires redeclared { Every (IsNamed s.old) redeclared.now }
    ensures grows { Grows s.old s.new }
    ensures value { Gives (λ _. tt) result (each_checked (found_checked (table_in s.old) (map (member_in (frames_of s.old)) members.now) is_leaf) (map (named_seen (frames_of s.old)) redeclared.now)) }
{
    for one in redeclared {
        named_checked(alloc, s, members, is_leaf, one)?;
    }
    Ok(())
}

/// Asks what the redeclarations among the sources of a frame break that has these elements, the outermost source first, also those
/// that a source further out replaces. Rule 13 is broken where a class is redeclared as a component or a component as a class, rule
/// 24 where the element is not replaceable, rule 25 where the new class is not compatible with that of the constraining clause, or
/// with the declared one: each at the redeclaration; and at its turn a rule that the name of one of the two classes breaks.
pub fn check_redeclared<'t>(
    alloc: Global,
    s: &mut Scopes<'t>,
    frame: FrameId,
    walk: &Walk<'t>,
) -> Result<(), Stop>
    requires frame { IsFrame s.old frame.0 }
    requires walk { IsWalk s.old walk.now }
    requires elements { walk_of (table_in s.old) (frame_at s.old frame.0) ≡ Ok (walk_at s.old walk.now) }
    ensures grows { Grows s.old s.new }
    ensures value { Gives (λ _. tt) result (redeclared_checked (table_in s.old) (frame_at s.old frame.0)) }
{
    let redeclared = redeclared_in(alloc, s, frame)?;
    let members = all_elements(alloc, walk.members.as_slice())?;
    each_checked_in(
        alloc,
        s,
        &members,
        walk.leaf.is_some(),
        redeclared.as_slice(),
    )
}
