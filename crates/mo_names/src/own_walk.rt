//! Elements that a class declares itself, among those of its frame.
ghost use Rattle.std.specs.Prelude.{◌≡◌, ◌<◌, Some, slice_get, IfOk};
ghost use Rattle.mo_scope.specs.Lookup.{with_member as joined_member};
ghost use Rattle.mo_scope.specs.Outcome.{Gives};
ghost use Rattle.mo_scope.specs.Own.{own_declared};
ghost use Rattle.mo_scope.specs.Rows.{class_number, number_of_classes};
ghost use Rattle.mo_scope.specs.Sights.{declares_seen};
ghost use Rattle.mo_scope.specs.Worlds.{IsFrame, frame_at, table_in};
ghost use Rattle.mo_names.specs.Sights.{IsWalk, walk_at};
ghost use Rattle.mo_names.specs.steps.Lookup.{own_inherited};

use crate::join::with_member;
use crate::walk::{Inherited, Walk};
use mo_scope::{Declares, Member, Scopes};
use mo_syntax::{FrameId, List, Stop};
use std::alloc::Global;

/// An element of its own that the class of a frame declares, put behind those before.
pub fn own_walked<'t>(
    alloc: Global,
    s: &Scopes<'t>,
    frame: FrameId,
    item: u32,
    declares: &Declares<'t>,
    so_far: &mut Walk<'t>,
) -> Result<(), Stop>
    requires frame { IsFrame s.now frame.0 }
    requires class { class_number (declares_seen declares.now) < number_of_classes (table_in s.now) }
    requires own { slice_get (own_declared (table_in s.now) (frame_at s.now frame.0)) item ≡ Some (declares_seen declares.now) }
    requires so_far { IsWalk s.now so_far.old }
    ensures value { Gives (λ _. walk_at s.now so_far.new) result (joined_member (own_inherited (frame_at s.now frame.0) item (declares_seen declares.now)) (walk_at s.now so_far.old)) }
    ensures stand { IfOk result (λ _. IsWalk s.now so_far.new) }
{
    let own = Inherited {
        member: Member {
            name: declares.name,
            home: frame,
            item,
            hidden: declares.flags.hidden,
            declares: *declares,
        },
        through: List::new(alloc),
    };
    with_member(s, own, so_far)
}
