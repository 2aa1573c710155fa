//! How many dimensions components have (Modelica Language Specification 3.5, section 10.1).
ghost use Rattle.mo_scope.specs.Sights.{member_at};
ghost use Rattle.mo_scope.specs.Worlds.{Grows, table_in};
ghost use Rattle.mo_names.specs.Sights.{IsMember};
ghost use Rattle.mo_typing.specs.Outcome.{Gives};
ghost use Rattle.mo_eval.specs.References.{number_of_dims};

use mo_lookup::{all_sizes, count_of};
use mo_scope::{Member, Scopes};
use mo_syntax::Stop;
use std::alloc::Global;

/// How many dimensions a component has.
pub(crate) fn count_of_dims<'t>(
    alloc: Global,
    s: &mut Scopes<'t>,
    member: &Member<'t>,
) -> Result<usize, Stop>
    requires member { IsMember s.old member.now }
    ensures grows { Grows s.old s.new }
    ensures exact { Gives result (number_of_dims (table_in s.old) (member_at s.old member.now)) }
{
    let sizes = all_sizes(alloc, s, member)?;
    Ok(count_of(sizes.as_slice())?)
}
