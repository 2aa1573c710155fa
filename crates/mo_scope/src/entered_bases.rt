//! The frames that bases were entered as.
ghost use Rattle.std.specs.Prelude.{◌≡◌, ℕ, None, option_map};
ghost use Rattle.mo_scope.specs.Entries.{number_of};
ghost use Rattle.mo_scope.specs.KeptBases.{OldOrBase, base_held};

use mo_syntax::{FrameId, NoMemory};
use std::alloc::Global;
use std::collections::HashMap;

/// A frame, the place of an extends clause among the parts of its class, and the frame that the class of the base was found as.
#[derive(Clone, Copy, PartialEq, Eq, Hash)]
pub(crate) struct BaseKey {
    frame: u32,
    at: usize,
    class: u32,
}

/// The frames that bases were entered as.
#[derive(Drop)]
pub(crate) struct EnteredBases {
    bases: HashMap<BaseKey, u32>,
}

fn key_of(frame: FrameId, at: usize, class: FrameId) -> BaseKey
    ensures frame { result.frame ≡ frame.0 }
    ensures at { result.at ≡ at }
    ensures class { result.class ≡ class.0 }
{
    BaseKey {
        frame: frame.0,
        at,
        class: class.0,
    }
}

impl EnteredBases {
    /// None was entered.
    pub fn new(alloc: Global) -> EnteredBases
        ensures { (frame : ℕ) (place : ℕ) (class : ℕ) → base_held result frame place class ≡ None }
    {
        EnteredBases {
            bases: HashMap::new(alloc),
        }
    }

    /// The frame that a base was entered as, None where it was not kept.
    pub fn base(&self, frame: FrameId, at: usize, class: FrameId) -> Option<FrameId>
        ensures { option_map number_of result ≡ base_held self.now frame.0 at class.0 }
    {
        match self.bases.get(&key_of(frame, at, class)) {
            Some(base) => Some(FrameId(*base)),
            None => None,
        }
    }

    /// Keeps the frame that a base was entered as.
    pub fn put(
        &mut self,
        frame: FrameId,
        at: usize,
        class: FrameId,
        base: FrameId,
    ) -> Result<(), NoMemory>
        ensures { OldOrBase (base_held self.old) (base_held self.new) frame.0 at class.0 base.0 }
    {
        self.bases.insert(key_of(frame, at, class), base.0)?;
        Ok(())
    }
}
