//! Bytes by name, and the count of what fails.
ghost use Rattle.std.specs.Prelude.{◌≡◌, ℕ, ◌≤◌, [], ◌∷◌, List, Option, Some, length, IfOk, OnOk, OnErr, IfSome};
ghost use Rattle.mo_ports.specs.Contents.{Contents, ReadsAt};
ghost use Rattle.mo_ports.specs.Counts.{raised, Rose};

use crate::record::Record;
use thiserror::Error;

/// A read or a write failed outside of the program.
#[derive(Clone, Copy, Debug, PartialEq, Eq, Error)]
#[error("an input or output failed")]
pub struct Failed;

/// Bytes by name.
pub trait Shelf {
    // The bytes of each name, where the shelf tells them.
    ghost told: { Self → Option Contents };

    // How many reads failed.
    ghost faults: { Self → ℕ };

    // How many bytes the reads gave.
    ghost taken: { Self → ℕ };

    // The name of the last read that failed, if one did.
    ghost failed: { Self → Option (List ℕ) };

    /// Reads bytes of a name from byte `at` on into the front of `buf`, and answers how many: none only at the end of the
    /// name's bytes, or where `buf` is empty. Reading an absent name is a `Failed`, and so is any fault of the system.
    fn read_at(&mut self, name: &str, at: u64, buf: &mut [u8]) -> Result<usize, Failed>
        ensures same { told self.new ≡ told self.old }
        ensures within { IfOk result (λ count. count ≤ length buf.new) }
        ensures bytes { IfOk result (λ count. IfSome (told self.old) (λ contents. ReadsAt (contents name.now) at buf.new count)) }

        ensures taken { IfOk result (λ count. taken self.new ≡ raised (taken self.old) count) }
        ensures taken_later { taken self.old ≤ taken self.new }
        ensures faults_later { faults self.old ≤ faults self.new }

        ensures ok { OnOk result (failed self.new ≡ failed self.old) }
        ensures fault { OnErr result (Rose (faults self.old) (faults self.new)) }
        ensures fault_name { OnErr result (failed self.new ≡ Some name.now) };
}

/// What a shelf counts: the bytes that it gave, the reads that failed, and for contracts alone the names of these.
#[derive(Drop)]
pub(crate) struct ReadCounts {
    pub(crate) taken: u64,
    pub(crate) faults: u64,
    pub(crate) failures: Record,
}

impl ReadCounts {
    pub(crate) fn new() -> ReadCounts
        ensures taken { result.taken ≡ 0 }
        ensures faults { result.faults ≡ 0 }
        ensures failures { result.failures.pieces ≡ [] }
    {
        ReadCounts {
            taken: 0,
            faults: 0,
            failures: Record::new(),
        }
    }

    /// Counts the bytes of a read.
    pub(crate) fn take(&mut self, count: usize)
        ensures taken { self.new.taken ≡ raised self.old.taken count }
        ensures taken_later { self.old.taken ≤ self.new.taken }
        ensures faults { self.new.faults ≡ self.old.faults }
        ensures failures { self.new.failures ≡ self.old.failures }
    {
        self.taken = self.taken.saturating_add(count as u64);
    }

    /// Counts a read of the name that failed.
    pub(crate) fn fail(&mut self, name: &str) -> Failed
        ensures taken { self.new.taken ≡ self.old.taken }
        ensures faults { self.new.faults ≡ raised self.old.faults 1 }
        ensures faults_later { self.old.faults ≤ self.new.faults }
        ensures failures { self.new.failures.pieces ≡ name.now ∷ self.old.failures.pieces }
    {
        self.faults = self.faults.saturating_add(1);
        self.failures.note(name.as_bytes());
        Failed
    }
}
