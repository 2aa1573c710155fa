//! How many dimensions components have (Modelica Language Specification 3.5, section 10.1).
#![tactic(auto, using(crate::proofs::Later::later))]

ghost use Rattle.std.specs.Prelude.{◌≡◌, nat_eq, IfOk};
ghost use Rattle.mo_scope.specs.Compatible.{dimensions_of};
ghost use Rattle.mo_scope.specs.Sights.{member_at};
ghost use Rattle.mo_scope.specs.Worlds.{Grows, table_in};
ghost use Rattle.mo_names.specs.Children.{IsChild, child_at};
ghost use Rattle.mo_names.specs.Sights.{IsMember};
ghost use Rattle.mo_redeclare.specs.Calls.{dimensions_at};

use mo_lookup::{count_of, sizes_of};
use mo_names::Child;
use mo_scope::{Member, Scopes};
use mo_syntax::NoMemory;
use std::alloc::Global;

/// How many dimensions a component has, those of its type included.
pub fn dimension_count<'t>(
    alloc: Global,
    s: &mut Scopes<'t>,
    member: &Member<'t>,
    child: &Child<'t>,
) -> Result<usize, NoMemory>
    requires member { IsMember s.old member.now }
    requires child { IsChild s.old child.now }
    ensures grows { Grows s.old s.new }
    ensures value { IfOk result (λ count. count ≡ dimensions_at s.old member.now child.now) }
{
    let sizes = sizes_of(alloc, s, member, child)?;
    let count = count_of(sizes.as_slice())?;
    Ok(count)
}

/// Whether a component and its counterpart have as many dimensions.
pub(crate) fn same_counts<'t>(
    alloc: Global,
    s: &mut Scopes<'t>,
    new: (&Member<'t>, &Child<'t>),
    wanted: (&Member<'t>, &Child<'t>),
) -> Result<bool, NoMemory>
    requires new { IsMember s.old new.0.now × IsChild s.old new.1.now }
    requires wanted { IsMember s.old wanted.0.now × IsChild s.old wanted.1.now }
    ensures grows { Grows s.old s.new }
    ensures value { IfOk result (λ same. same ≡ nat_eq (dimensions_of (table_in s.old) (member_at s.old new.entry.0.now) (child_at s.old new.entry.1.now)) (dimensions_of (table_in s.old) (member_at s.old wanted.entry.0.now) (child_at s.old wanted.entry.1.now))) }
{
    let count = dimension_count(alloc, s, new.0, new.1)?;
    let other = dimension_count(alloc, s, wanted.0, wanted.1)?;
    Ok(count == other)
}
