//! Copies of the elements of a walk.
ghost use Rattle.std.specs.Prelude.{◌≡◌, IfOk};

use mo_names::{Added, Inherited};
use mo_syntax::{FrameId, List, NoMemory, both};
use std::alloc::Global;

/// A copy of some base frames.
pub(crate) fn frames_copied(alloc: Global, frames: &[FrameId]) -> Result<List<FrameId>, NoMemory>
    ensures { IfOk result (λ made. made ≡ frames.now) }
{
    Ok(List::from_vec(frames.to_vec(alloc)?))
}

/// A copy of elements with the base frames on the way to them.
fn inherited_copied<'t>(
    alloc: Global,
    held: &[Inherited<'t>],
) -> Result<List<Inherited<'t>>, NoMemory>
    ensures { IfOk result (λ made. made ≡ held.now) }
{
    let mut made = List::new(alloc);
    for one in held {
        let through = frames_copied(alloc, one.through.as_slice())?;
        made.push(Inherited {
            member: one.member,
            through,
        })?;
    }
    Ok(made)
}

/// A copy of bases.
fn bases_copied(alloc: Global, bases: &[List<FrameId>]) -> Result<List<List<FrameId>>, NoMemory>
    ensures { IfOk result (λ made. made ≡ bases.now) }
{
    let mut made = List::new(alloc);
    for base in bases {
        let frames = frames_copied(alloc, base.as_slice())?;
        made.push(frames)?;
    }
    Ok(made)
}

/// A copy of what a base has.
pub(crate) fn elements_copied<'t>(
    alloc: Global,
    elements: &Added<'t>,
) -> Result<Added<'t>, NoMemory>
    ensures { IfOk result (λ made. made ≡ elements.now) }
{
    let (members, (bases, sections)) = both(
        inherited_copied(alloc, elements.members.as_slice()),
        both(
            bases_copied(alloc, elements.bases.as_slice()),
            bases_copied(alloc, elements.sections.as_slice()),
        ),
    )?;
    Ok(Added {
        members,
        bases,
        sections,
        leaf: elements.leaf,
    })
}
