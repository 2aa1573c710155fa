//! The elements that classes declare themselves.
ghost use Rattle.std.specs.Prelude.{◌≡◌, map, IfSome};
ghost use Rattle.std.specs.List.{list_all};
ghost use Rattle.mo_scope.specs.Lookup.{counts_in_package, own_members};
ghost use Rattle.mo_scope.specs.Open.{is_open_declares};
ghost use Rattle.mo_scope.specs.Rows.{elements_in};
ghost use Rattle.mo_scope.specs.Sights.{part_seen};
ghost use Rattle.mo_scope.specs.Worlds.{IsFrame, frame_at, table_in};
ghost use Rattle.mo_names.specs.Sights.{IsMember};
ghost use Rattle.mo_names.specs.Calls.{IsOwnNamed};

use mo_scope::{Member, Part, Scopes, is_open};
use mo_syntax::{FrameId, Text};

/// The first element of that name that the class of a frame declares itself, None where it declares none.
pub fn own_named<'t>(s: &Scopes<'t>, frame: FrameId, name: &Text) -> Option<Member<'t>>
    requires { IsFrame s.now frame.0 }
    ensures is { IsOwnNamed s.now frame.0 name.now result }
    ensures exists { IfSome result (IsMember s.now) }
{
    s.own_member(frame, name)
}

/// Whether all elements that some parts declare may stand in a package.
fn are_open(parts: &[Part]) -> bool
    ensures { result ≡ list_all is_open_declares (elements_in (map part_seen parts.now)) }
{
    for part in parts {
        if let Part::Element(declares) = part {
            if !is_open(declares) {
                return false;
            }
        }
    }
    true
}

/// Whether all elements that the class of a frame declares itself may stand in a package.
pub(crate) fn are_own_open(s: &Scopes, frame: FrameId) -> bool
    requires { IsFrame s.now frame.0 }
    ensures { result ≡ list_all counts_in_package (own_members (table_in s.now) (frame_at s.now frame.0)) }
{
    match s.row(s.class_of(frame)) {
        Some(row) => are_open(row.parts.as_slice()),
        None => true,
    }
}
