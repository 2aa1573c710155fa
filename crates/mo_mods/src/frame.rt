//! The modifiers of a frame as one table.
ghost use Rattle.std.specs.Prelude.{IfOk};
ghost use Rattle.mo_scope.specs.Outcome.{Gives};
ghost use Rattle.mo_scope.specs.Worlds.{IsFrame};
ghost use Rattle.mo_mods.specs.Scopes.{ScopesExist};
ghost use Rattle.mo_mods.specs.Calls.{second_pass_at, StandsForFrame};

use crate::asked::arguments;
use crate::env::MergedEnv;
use crate::merging::merged_sources;
use crate::passes::first_broken;
use mo_scope::Scopes;
use mo_syntax::{FrameId, Stop};
use std::alloc::Global;

/// The second pass over the arguments of a frame's sources: two of one path, one below a final one of a later source, `each`
/// where no index is pending.
fn pass(scopes: &Scopes<'_>, alloc: Global, frame: FrameId) -> Result<(), Stop>
    requires { IsFrame scopes.now frame.0 }
    ensures { Gives (λ _. tt) result (second_pass_at scopes.now frame.0) }
{
    let asked = arguments(scopes, alloc, scopes.sources(frame).as_slice())?;
    match first_broken(alloc, asked.as_slice())? {
        None => Ok(()),
        Some(broken) => Err(Stop::Broken(broken)),
    }
}

/// The sources of a frame merged into one table. Breaks rules 21, 22 and 23 where the second pass over the arguments of the
/// sources does. A path of more than 256 names is want of memory.
pub fn merge<'t>(scopes: &Scopes<'t>, alloc: Global, frame: FrameId) -> Result<MergedEnv<'t>, Stop>
    requires { IsFrame scopes.now frame.0 }
    ensures broken { Gives (λ _. tt) result (second_pass_at scopes.now frame.0) }
    ensures stands { IfOk result (StandsForFrame scopes.now frame.0) }
    ensures exist { IfOk result (λ made. ScopesExist scopes.now made) }
{
    pass(scopes, alloc, frame)?;
    Ok(merged_sources(scopes, alloc, scopes.sources(frame).as_slice())?)
}
