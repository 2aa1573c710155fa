//! Whether the components that instances are elements of are declared flow (Modelica Language Specification 3.5, section 9.3.1).
ghost use Rattle.std.specs.Prelude.{◌≡◌, map, List as Seq, IfOk};
ghost use Rattle.mo_scope.specs.Frames.{Frame};
ghost use Rattle.mo_scope.specs.Lookup.{members_from, named, own_members};
ghost use Rattle.mo_scope.specs.Places.{Every};
ghost use Rattle.mo_scope.specs.Rows.{elements_in};
ghost use Rattle.mo_scope.specs.Sights.{part_seen};
ghost use Rattle.mo_scope.specs.Trees.{IsInstance, instance_in};
ghost use Rattle.mo_scope.specs.Worlds.{IsFrame, MemberEntry, frame_at, frame_in, frames_of, member_in, table_in};
ghost use Rattle.mo_equations.specs.Connectors.{is_declared_flow as is_declared_flow_in, is_flow_member, last_name};
ghost use Rattle.mo_equations.specs.steps.Owners.{IsOwnElements};

use crate::paths::Step;
use mo_redeclare::prefix_of;
use mo_scope::{Instance, Member, MemberTable, Part, Scopes};
use mo_syntax::{FrameId, List, NoMemory, Text};
use std::alloc::Global;

/// The elements that the class of a frame declares itself, by name.
#[derive(Drop)]
pub(crate) struct OwnElements<'t> {
    owner: FrameId,
    members: MemberTable<'t>,
}

/// The elements that some parts declare, as those of a frame.
fn elements_of<'t>(
    alloc: Global,
    frame: FrameId,
    parts: &[Part<'t>],
) -> Result<MemberTable<'t>, NoMemory>
    ensures members { IfOk result (λ made. (frames : Seq Frame) → map (member_in frames) made ≡ members_from (frame_in frames frame.0) 0 (elements_in (map part_seen parts.now))) }
    ensures homes { IfOk result (Every (λ (member : MemberEntry). member.home ≡ frame.0)) }
{
    let mut made = MemberTable::new(alloc);
    let mut item = 0u32;
    for part in parts {
        if let Part::Element(declares) = part {
            made.push(Member {
                name: declares.name,
                home: frame,
                item,
                hidden: declares.flags.hidden,
                declares: *declares,
            })?;
            let Some(next) = item.checked_add(1) else {
                return Err(NoMemory);
            };
            item = next;
        }
    }
    Ok(made)
}

/// The table of the elements that the class of a frame declares itself.
fn own_table<'t>(alloc: Global, s: &Scopes<'t>, owner: FrameId) -> Result<MemberTable<'t>, NoMemory>
    requires { IsFrame s.now owner.0 }
    ensures members { IfOk result (λ made. map (member_in (frames_of s.now)) made ≡ own_members (table_in s.now) (frame_at s.now owner.0)) }
    ensures homes { IfOk result (Every (λ (member : MemberEntry). member.home ≡ owner.0)) }
{
    match s.row(s.class_of(owner)) {
        Some(row) => elements_of(alloc, owner, row.parts.as_slice()),
        None => Ok(MemberTable::new(alloc)),
    }
}

/// The elements that the class of a frame declares itself.
fn own_elements<'t>(
    alloc: Global,
    s: &Scopes<'t>,
    owner: FrameId,
) -> Result<OwnElements<'t>, NoMemory>
    requires { IsFrame s.now owner.0 }
    ensures is { IfOk result (IsOwnElements s.now) }
    ensures owner { IfOk result (λ own. own.owner.0 ≡ owner.0) }
{
    let members = own_table(alloc, s, owner)?;
    Ok(OwnElements { owner, members })
}

/// Leaves so many levels at most.
fn keep_levels<'t>(s: &Scopes<'t>, levels: &mut List<OwnElements<'t>>, most: usize)
    requires { Every (IsOwnElements s.now) levels.now }
    ensures { Every (IsOwnElements s.now) levels.new }
{
    while levels.len() > most {
        levels.pop();
    }
}

/// The elements of an owner: those of the last level, where that is as deep and of the same owner, and new ones otherwise.
fn elements_at<'t>(
    alloc: Global,
    s: &Scopes<'t>,
    levels: &mut List<OwnElements<'t>>,
    depth: usize,
    owner: FrameId,
) -> Result<OwnElements<'t>, NoMemory>
    requires owner { IsFrame s.now owner.0 }
    requires levels { Every (IsOwnElements s.now) levels.now }
    ensures is { IfOk result (IsOwnElements s.now) }
    ensures owner { IfOk result (λ own. own.owner.0 ≡ owner.0) }
    ensures levels { Every (IsOwnElements s.now) levels.new }
{
    if levels.len() < depth {
        return own_elements(alloc, s, owner);
    }
    if let Some(own) = levels.pop() {
        if own.owner.0 == owner.0 {
            return Ok(own);
        }
    }
    own_elements(alloc, s, owner)
}

/// Whether the element of a name that a class declares itself is flow; where there is none, nothing is.
fn is_flow_element<'t>(
    alloc: Global,
    s: &Scopes<'t>,
    own: &OwnElements<'t>,
    name: &Text,
) -> Result<bool, NoMemory>
    requires { IsOwnElements s.now own.now }
    ensures { IfOk result (λ flow. flow ≡ is_flow_member (table_in s.now) (named name.now (own_members (table_in s.now) (frame_at s.now own.now.owner.0)))) }
{
    match own.members.find(name) {
        Some(member) => {
            let prefix = prefix_of(alloc, s, member)?;
            Ok(prefix.flow)
        }
        None => Ok(false),
    }
}

/// Whether the element of the last name of a path is flow.
fn is_flow_at<'t>(
    alloc: Global,
    s: &Scopes<'t>,
    own: &OwnElements<'t>,
    path: &[Step],
) -> Result<bool, NoMemory>
    requires { IsOwnElements s.now own.now }
    ensures { IfOk result (λ flow. flow ≡ is_flow_member (table_in s.now) (named (last_name path.now) (own_members (table_in s.now) (frame_at s.now own.now.owner.0)))) }
{
    match path {
        [] => {
            let name = Text::from_str(alloc, "")?;
            is_flow_element(alloc, s, own, &name)
        }
        [.., last] => is_flow_element(alloc, s, own, &last.0),
    }
}

/// Whether the component that an instance is an element of is declared flow; the asked class is no component. Each level holds the
/// elements of an owner of the instance before, the outermost first.
pub(crate) fn is_declared_flow<'t>(
    alloc: Global,
    s: &Scopes<'t>,
    levels: &mut List<OwnElements<'t>>,
    instance: &Instance<'t>,
) -> Result<bool, NoMemory>
    requires instance { IsInstance s.now instance.now }
    requires levels { Every (IsOwnElements s.now) levels.now }
    ensures is { IfOk result (λ flow. flow ≡ is_declared_flow_in (table_in s.now) (instance_in (frames_of s.now) instance.now)) }
    ensures levels { Every (IsOwnElements s.now) levels.new }
{
    let Some(owner) = s.owner(instance.frame) else {
        return Ok(false);
    };
    let path = instance.path.0.as_slice();
    keep_levels(s, levels, path.len());
    let own = elements_at(alloc, s, levels, path.len(), owner)?;
    let flow = is_flow_at(alloc, s, &own, path)?;
    levels.push(own)?;
    Ok(flow)
}
