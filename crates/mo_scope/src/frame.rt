//! A numbered frame.
ghost use Rattle.std.specs.Prelude.{◌≡◌, true, option_map};
ghost use Rattle.mo_scope.specs.Bare.{is_bare};
ghost use Rattle.mo_scope.specs.Entries.{entry_seen, number_of, IsSourceless};

use crate::entered::{Standing, standing_of};
use crate::frame_sources::FrameSources;
use crate::paths::is_same_path;
use crate::table::MemberTable;
use mo_syntax::{ClassId, FrameId, InstancePath};

/// A frame, its other frames by number.
#[derive(Drop)]
pub(crate) struct FrameData<'t> {
    pub class: ClassId,
    pub sources: FrameSources<'t>,
    pub outer: Option<FrameId>,
    pub at: Option<InstancePath>,
    pub owner: Option<FrameId>,
    /// The table of its elements, if it is kept.
    pub table: Option<MemberTable<'t>>,
}

fn is_one_class(a: ClassId, b: ClassId) -> bool
    ensures { result ≡ true → a.0 ≡ b.0 }
{
    a.0 == b.0
}

/// Whether two frames that may be missing are one.
fn are_one(a: Option<FrameId>, b: Option<FrameId>) -> bool
    ensures { result ≡ true → option_map number_of a ≡ option_map number_of b }
{
    match (a, b) {
        (Some(a), Some(b)) => a.0 == b.0,
        (None, None) => true,
        _ => false,
    }
}

impl<'t> FrameData<'t> {
    /// What it is looked for by, None where it has sources.
    pub fn standing(&self) -> Option<Standing> {
        if !self.sources.is_empty() {
            return None;
        }
        Some(standing_of(self.class, self.outer, self.at.as_ref(), self.owner))
    }

    /// Whether it is the frame with no sources and these other parts.
    pub fn is_that(
        &self,
        class: ClassId,
        outer: Option<FrameId>,
        at: Option<&InstancePath>,
        owner: Option<FrameId>,
    ) -> bool
        ensures { result ≡ true → IsSourceless self.now class.0 outer (option_map (λ path. path.now.0) at.entry) owner }
    {
        let no_sources = self.sources.is_empty();
        let class_same = is_one_class(self.class, class);
        let outer_same = are_one(self.outer, outer);
        let owner_same = are_one(self.owner, owner);
        if !no_sources {
            return false;
        }
        if !class_same {
            return false;
        }
        if !outer_same {
            return false;
        }
        if !owner_same {
            return false;
        }
        is_same_path(self.at.as_ref(), at)
    }

    /// Whether it has no sources, no path and no owner.
    pub fn is_bare(&self) -> bool
        ensures { result ≡ is_bare (entry_seen self.now) }
    {
        let no_sources = self.sources.is_empty();
        let no_path = self.at.is_none();
        let no_owner = self.owner.is_none();
        if !no_sources {
            return false;
        }
        if !no_path {
            return false;
        }
        no_owner
    }
}
