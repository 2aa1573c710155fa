//! A counter that can only be moved by one.
ghost use Rattle.std.specs.Prelude.{◌≡◌, ◌+◌};

use crate::record::Record;
use std::marker::Model;

/// The step counter of the ledger `L`. Contracts see it as the number of its ticks, which has no end.
/// The count is there for contracts alone, so a counter takes no more memory than its ledger.
///
/// Only a value of `L` makes a counter, so code that is generic in `L` cannot make a second one to count on.
#[derive(Drop)]
pub struct Steps<L> {
    ledger: L,
    ticks: Record,
}

impl<L> Model for Steps<L> {
    ghost use Rattle.std.specs.Prelude.{ℕ, length};
    ghost use Rattle.std.specs.Coded.{coded_ℕ};

    ghost Value = { ℕ };

    ghost coded = { coded_ℕ };

    ghost view = { λ s. length s.ticks.pieces };
}

impl<L> Steps<L> {
    /// A counter that has not moved.
    pub fn new(ledger: L) -> Steps<L>
        ensures { result ≡ 0 }
    {
        Steps {
            ledger,
            ticks: Record::new(),
        }
    }

    /// One step.
    pub fn tick(&mut self)
        ensures { self.new ≡ self.old + 1 }
    {
        self.ticks.note(&[]);
    }
}
