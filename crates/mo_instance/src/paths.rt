//! Copies of the paths of frames.
ghost use Rattle.std.specs.Prelude.{◌≡◌, IfOk};
ghost use Rattle.mo_scope.specs.Entries.{names_of};
ghost use Rattle.mo_scope.specs.Frames.{at_of};
ghost use Rattle.mo_scope.specs.Worlds.{IsFrame, frame_at};
ghost use Rattle.mo_instance.specs.Elements.{or_root};

use mo_scope::{Scopes, copied};
use mo_syntax::{FrameId, InstancePath, List, NoMemory, Text, both, pushed};
use std::alloc::Global;

/// A copy of a name with its index.
fn step_copied(alloc: Global, step: &(Text, List<u32>)) -> Result<(Text, List<u32>), NoMemory>
    ensures { IfOk result (λ made. made ≡ step.now) }
{
    both(step.0.copy(alloc), copied(alloc, step.1.as_slice()))
}

/// A copy of the names of an instance path.
fn path_copied(alloc: Global, path: &InstancePath) -> Result<InstancePath, NoMemory>
    ensures { IfOk result (λ made. names_of made ≡ names_of path.now) }
{
    let mut made = List::new(alloc);
    let steps = path.0.as_slice();
    for step in steps {
        pushed(&mut made, step_copied(alloc, step))?;
    }
    Ok(InstancePath(made))
}

/// The path of a frame, the empty one where it has none.
pub(crate) fn path_of(alloc: Global, s: &Scopes, frame: FrameId) -> Result<InstancePath, NoMemory>
    requires { IsFrame s.now frame.0 }
    ensures { IfOk result (λ made. names_of made ≡ or_root (at_of (frame_at s.now frame.0))) }
{
    match s.path(frame) {
        Some(path) => path_copied(alloc, path),
        None => Ok(InstancePath(List::new(alloc))),
    }
}
