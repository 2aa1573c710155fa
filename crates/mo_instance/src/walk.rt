//! The walk over components, the parts of an element before the next one: one circle of calls, one level for each name of a path.
#![tactic(auto, using(crate::proofs::Later::later))]

ghost use Rattle.std.specs.Prelude.{◌≡◌, ◌++◌, ◌∷◌, [], drop, length, map, IfOk, OnOk};
ghost use Rattle.mo_scope.specs.Sights.{member_at};
ghost use Rattle.mo_scope.specs.Outcome.{Gives};
ghost use Rattle.mo_scope.specs.Places.{Every};
ghost use Rattle.mo_scope.specs.Worlds.{Grows, frames_of, table_in};
ghost use Rattle.mo_names.specs.Sights.{IsInherited, IsMember, inherited_seen};
ghost use Rattle.mo_eval.specs.Keeping.{IsKept};
ghost use Rattle.mo_instance.specs.Instances.{component_entered as component_added, deeper, element_entered as element_added, member_entered as member_added, parts_entered as parts_added};
ghost use Rattle.mo_scope.specs.Trees.{instances_in};
ghost use Rattle.mo_instance.specs.steps.Sights.{IsEntered, around_seen};
ghost use Rattle.mo_instance.specs.steps.Instances.{elements_under as elements_added, members_added};

use crate::component::{component_asked, is_entered};
use crate::element::element_made;
use crate::prefixes::Around;
use mo_eval::Reader;
use mo_names::Inherited;
use mo_scope::{Instance, Member, Scopes, copied};
use mo_syntax::{List, NoMemory, Stop, rules, stop};
use mo_typing::indexing::has_none;
use std::alloc::Global;

/// What is read on the way, and the instances so far.
#[derive(Drop)]
pub(crate) struct Work<'t> {
    pub reader: Reader<'t>,
    pub instances: List<Instance<'t>>,
}

/// What holds of the components of an instance, and how many names their paths may still gain.
#[derive(Clone, Copy)]
pub(crate) struct Level {
    pub around: Around,
    pub left: u32,
}

/// Some numbers with one more behind them.
fn with_number(alloc: Global, numbers: &[u32], number: u32) -> Result<List<u32>, NoMemory>
    ensures { IfOk result (λ made. made ≡ numbers.now ++ number ∷ []) }
{
    let mut made = copied(alloc, numbers)?;
    made.push(number)?;
    Ok(made)
}

/// Enters an element of a component, then its parts.
#[cycle(walk)]
fn element_entered<'t>(
    alloc: Global,
    s: &mut Scopes<'t>,
    work: &mut Work<'t>,
    level: &Level,
    member: &Member<'t>,
    dims: &[u32],
    index: &[u32],
) -> Result<(), Stop>
    requires member { IsMember s.old member.now }
    requires kept { IsKept s.old work.old.reader }
    requires are { Every (IsEntered s.old) work.old.instances }
    ensures grows { Grows s.old s.new }
    ensures kept { OnOk result (IsKept s.new work.new.reader) }
    ensures are { OnOk result (Every (IsEntered s.new) work.new.instances) }
    ensures value { Gives (λ _. instances_in s.new work.new.instances) result (element_added (table_in s.old) (parts_added (table_in s.old) (deeper (table_in s.old) level.now.left)) (around_seen level.now.around) (member_at s.old member.now) dims.now index.now (instances_in s.old work.old.instances)) }
{
    let count = work.instances.len();
    let made = element_made(alloc, s, &level.around, member, dims, index, count)?;
    let (instance, walk) = made;
    work.instances.push(instance)?;
    members_entered(alloc, s, work, level, walk.members.as_slice())
}

/// Enters the elements of a component whose indices begin with these numbers, the last index fastest.
#[cycle(walk)]
fn elements_under<'t>(
    alloc: Global,
    s: &mut Scopes<'t>,
    work: &mut Work<'t>,
    level: &Level,
    member: &Member<'t>,
    dims: &[u32],
    before: &[u32],
) -> Result<(), Stop>
    requires member { IsMember s.old member.now }
    requires kept { IsKept s.old work.old.reader }
    requires are { Every (IsEntered s.old) work.old.instances }
    ensures grows { Grows s.old s.new }
    ensures kept { OnOk result (IsKept s.new work.new.reader) }
    ensures are { OnOk result (Every (IsEntered s.new) work.new.instances) }
    ensures value { Gives (λ _. instances_in s.new work.new.instances) result (elements_added (table_in s.old) (parts_added (table_in s.old) (deeper (table_in s.old) level.now.left)) (around_seen level.now.around) (member_at s.old member.now) dims.now before.now (drop (length before.now) dims.now) (instances_in s.old work.old.instances)) }
{
    let at = before.len();
    if at >= dims.len() {
        return element_entered(alloc, s, work, level, member, dims, before);
    }
    let size = dims[at];
    for place in 0..size {
        let index = with_number(alloc, before, place + 1)?;
        elements_under(alloc, s, work, level, member, dims, index.as_slice())?;
    }
    Ok(())
}

/// Enters a component: each of its elements, if it has any.
#[cycle(walk)]
fn component_entered<'t>(
    alloc: Global,
    s: &mut Scopes<'t>,
    work: &mut Work<'t>,
    level: &Level,
    member: &Member<'t>,
) -> Result<(), Stop>
    requires member { IsMember s.old member.now }
    requires kept { IsKept s.old work.old.reader }
    requires are { Every (IsEntered s.old) work.old.instances }
    ensures grows { Grows s.old s.new }
    ensures kept { OnOk result (IsKept s.new work.new.reader) }
    ensures are { OnOk result (Every (IsEntered s.new) work.new.instances) }
    ensures value { Gives (λ _. instances_in s.new work.new.instances) result (component_added (table_in s.old) (deeper (table_in s.old) level.now.left) (around_seen level.now.around) (member_at s.old member.now) (instances_in s.old work.old.instances)) }
{
    let asked = component_asked(alloc, s, &mut work.reader, &level.around, member)?;
    let (around, dims) = asked;
    if level.left == 0 {
        return Err(stop(rules::INSTANCE_TOO_DEEP, member.declares.place));
    }
    if has_none(dims.as_slice()) {
        return Ok(());
    }
    let below = Level {
        around,
        left: level.left - 1,
    };
    elements_under(alloc, s, work, &below, member, dims.as_slice(), &[])
}

/// Enters an element of a frame, if it is a component that is there and no outer one.
#[cycle(walk)]
fn member_entered<'t>(
    alloc: Global,
    s: &mut Scopes<'t>,
    work: &mut Work<'t>,
    level: &Level,
    member: &Member<'t>,
) -> Result<(), Stop>
    requires member { IsMember s.old member.now }
    requires kept { IsKept s.old work.old.reader }
    requires are { Every (IsEntered s.old) work.old.instances }
    ensures grows { Grows s.old s.new }
    ensures kept { OnOk result (IsKept s.new work.new.reader) }
    ensures are { OnOk result (Every (IsEntered s.new) work.new.instances) }
    ensures value { Gives (λ _. instances_in s.new work.new.instances) result (member_added (table_in s.old) (deeper (table_in s.old) level.now.left) (around_seen level.now.around) (member_at s.old member.now) (instances_in s.old work.old.instances)) }
{
    let enters = is_entered(alloc, s, &mut work.reader, member)?;
    if enters {
        return component_entered(alloc, s, work, level, member);
    }
    Ok(())
}

/// Enters the components among the elements of a frame, in their order.
#[cycle(walk)]
pub(crate) fn members_entered<'t>(
    alloc: Global,
    s: &mut Scopes<'t>,
    work: &mut Work<'t>,
    level: &Level,
    members: &[Inherited<'t>],
) -> Result<(), Stop>
    requires members { Every (IsInherited s.old) members.now }
    requires kept { IsKept s.old work.old.reader }
    requires are { Every (IsEntered s.old) work.old.instances }
    ensures grows { Grows s.old s.new }
    ensures kept { OnOk result (IsKept s.new work.new.reader) }
    ensures are { OnOk result (Every (IsEntered s.new) work.new.instances) }
    ensures value { Gives (λ _. instances_in s.new work.new.instances) result (members_added (table_in s.old) level.now.left (around_seen level.now.around) (map (inherited_seen (frames_of s.old)) members.now) (instances_in s.old work.old.instances)) }
{
    for inherited in members {
        member_entered(alloc, s, work, level, &inherited.member)?;
    }
    Ok(())
}
