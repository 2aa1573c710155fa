//! Elements by name.
ghost use Rattle.std.specs.Prelude.{◌≡◌, ◌&&◌, ◌++◌, ◌∷◌, [], not, filter, map, option_map, IfOk, IfSome, OnOk};
ghost use Rattle.mo_scope.specs.Lookup.{named as named_among};
ghost use Rattle.mo_scope.specs.Places.{Every};
ghost use Rattle.mo_scope.specs.Rows.{is_class as declares_class};
ghost use Rattle.mo_scope.specs.Sights.{declares_seen, member_seen};
ghost use Rattle.mo_scope.specs.Worlds.{frames_of, member_in};
ghost use Rattle.mo_names.specs.Sights.{IsMember, member_of};
ghost use Rattle.mo_redeclare.specs.steps.Sights.{IsKept, entry_of, is_open};

use mo_names::Inherited;
use mo_scope::{Member, MemberTable, Scopes, is_class};
use mo_syntax::{NoMemory, Text};
use std::alloc::Global;

/// Whether an element is a public component.
pub(crate) fn is_open_component(member: &Member) -> bool
    ensures { result ≡ (not member.now.hidden && not (declares_class (declares_seen member.now.declares))) }
{
    !member.hidden && !is_class(&member.declares)
}

/// All elements by name.
pub(crate) fn all_elements<'t>(
    alloc: Global,
    members: &[Inherited<'t>],
) -> Result<MemberTable<'t>, NoMemory>
    ensures { IfOk result (λ made. made ≡ map entry_of members.now) }
{
    let mut made = MemberTable::new(alloc);
    for inherited in members {
        made.push(inherited.member)?;
    }
    Ok(made)
}

/// Adds an element, if it is a public component.
fn push_open<'t>(made: &mut MemberTable<'t>, member: Member<'t>) -> Result<(), NoMemory>
    ensures { OnOk result (made.new ≡ made.old ++ filter is_open (member_seen member.entry ∷ [])) }
{
    if is_open_component(&member) {
        return made.push(member);
    }
    Ok(())
}

/// The public components among elements by name.
pub(crate) fn open_components<'t>(
    alloc: Global,
    members: &[Inherited<'t>],
) -> Result<MemberTable<'t>, NoMemory>
    ensures { IfOk result (λ made. made ≡ filter is_open (map entry_of members.now)) }
{
    let mut made = MemberTable::new(alloc);
    for inherited in members {
        push_open(&mut made, inherited.member)?;
    }
    Ok(made)
}

/// The element of that name.
pub(crate) fn named<'t>(
    s: &Scopes<'t>,
    members: &MemberTable<'t>,
    name: &Text,
) -> Option<Member<'t>>
    requires { Every (IsKept s.now) members.now }
    ensures is { option_map (member_of (frames_of s.now)) result ≡ named_among name.now (map (member_in (frames_of s.now)) members.now) }
    ensures exists { IfSome result (IsMember s.now) }
{
    members.find(name).copied()
}
