//! Where bytes go, and the count of what fails.
ghost use Rattle.std.specs.Prelude.{◌≡◌, ℕ, ◌≤◌, ◌<◌, List, Option, length, take, IfOk, OnErr};
ghost use Rattle.mo_ports.specs.Counts.{Rose};
ghost use Rattle.mo_ports.specs.Written.{appended};

use crate::shelf::Failed;

/// Where bytes go.
pub trait Sink {
    // The bytes written so far, where the sink tells them.
    ghost written: { Self → Option (List ℕ) };

    // How many writes failed.
    ghost faults: { Self → ℕ };

    /// Appends bytes from the front of `piece`, and answers how many: at least one, unless `piece` is empty. Any fault of
    /// the system is a `Failed`, and then nothing was appended.
    fn write(&mut self, piece: &[u8]) -> Result<usize, Failed>
        ensures within { IfOk result (λ count. count ≤ length piece.now) }
        ensures some { IfOk result (λ count. 0 < length piece.now → 0 < count) }
        ensures appends { IfOk result (λ count. written self.new ≡ appended (written self.old) (take count piece.now)) }

        ensures faults_later { faults self.old ≤ faults self.new }
        ensures fault { OnErr result (Rose (faults self.old) (faults self.new)) }
        ensures fault_nothing { OnErr result (written self.new ≡ written self.old) };
}
