//! The classes that names of types and of constraining classes find.
#![tactic(auto, using(crate::proofs::Later::later))]

ghost use Rattle.std.specs.Prelude.{IfOk};
ghost use Rattle.mo_scope.specs.Names.{scope_of_home};
ghost use Rattle.mo_scope.specs.Outcome.{Gives};
ghost use Rattle.mo_scope.specs.Worlds.{Grows, IsFrame, frame_at, table_in};
ghost use Rattle.mo_scope.specs.Sights.{scope_at, member_at};
ghost use Rattle.mo_redeclare.specs.steps.Comparing.{class_at as class_found};

use mo_lookup::find_path;
use mo_names::Found;
use mo_scope::{Member, ScopeAt, Scopes};
use mo_syntax::{FrameId, List, Reference, Stop};
use std::alloc::Global;

/// The class that a name finds in a scope.
pub(crate) fn class_at<'t>(
    alloc: Global,
    s: &mut Scopes<'t>,
    scope: &ScopeAt,
    name: &Reference,
) -> Result<FrameId, Stop>
    requires { IsFrame s.old scope.now.frame.0 }
    ensures grows { Grows s.old s.new }
    ensures value { Gives (λ class. frame_at s.new class.0) result (class_found (table_in s.old) (scope_at s.old scope.now) name.now) }
    ensures stand { IfOk result (λ class. IsFrame s.new class.0) }
{
    match find_path(alloc, s, scope, name, true) {
        Ok(Found::Class(frame, _)) => Ok(frame),
        Ok(Found::Component(_, _))
        | Ok(Found::Literal(_, _))
        | Ok(Found::Iteration(_))
        | Ok(Found::Function(_))
        | Ok(Found::Time) => unreachable!(),
        Err(stop) => Err(stop),
    }
}

/// The class that a name finds in the frame whose class declares an element.
pub(crate) fn class_at_home<'t>(
    alloc: Global,
    s: &mut Scopes<'t>,
    member: &Member<'t>,
    name: &Reference,
) -> Result<FrameId, Stop>
    requires { IsFrame s.old member.now.home.0 }
    ensures grows { Grows s.old s.new }
    ensures value { Gives (λ class. frame_at s.new class.0) result (class_found (table_in s.old) (scope_of_home (member_at s.old member.now)) name.now) }
    ensures stand { IfOk result (λ class. IsFrame s.new class.0) }
{
    let scope = ScopeAt {
        frame: member.home,
        iters: List::new(alloc),
    };
    class_at(alloc, s, &scope, name)
}
