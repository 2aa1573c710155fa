//! The keys of names that were declared so far.
ghost use Rattle.std.specs.Prelude.{◌≡◌, List as Seq, ℕ, false, not, ◌||◌, IfOk, OnOk};
ghost use Rattle.std.specs.Str.{bytes_eq};
ghost use Rattle.mo_tree.specs.Keys.{holds};

use mo_syntax::{List, NoMemory};
use std::alloc::Global;
use std::collections::BTreeSet;

/// The keys that were put in.
#[derive(Drop)]
pub(crate) struct Keys {
    set: BTreeSet<Vec<u16>>,
}

impl Keys {
    /// No keys.
    pub fn new(alloc: Global) -> Keys
        ensures { (key : Seq ℕ) → holds result key ≡ false }
    {
        Keys {
            set: BTreeSet::new(alloc),
        }
    }

    /// Puts a key in, and tells whether it is new. Want of memory is the only other answer.
    pub fn insert(&mut self, key: List<u16>) -> Result<bool, NoMemory>
        ensures added { IfOk result (λ added. added ≡ not (holds self.old key)) }
        ensures kept { OnOk result ((k : Seq ℕ) → holds self.new k ≡ (bytes_eq k key || holds self.old k)) }
    {
        Ok(self.set.insert(key.into_vec())?)
    }
}
