//! A list of byte strings that contracts alone can read.
ghost use Rattle.std.specs.Prelude.{◌≡◌, ℕ, List, [], ◌∷◌};
ghost use Rattle.std.specs.Borrow.{ftrue};

use std::marker::{Model, PhantomData};

/// Byte strings that were noted, the newest first. They are there for contracts alone, so they take no memory.
#[derive(Drop)]
pub struct Record {
    marker: PhantomData<u8>,
    pub ghost pieces: { List (List ℕ) },
}

impl Model for Record {
    ghost also_owns = { λ _. ftrue };
}

impl Record {
    pub(crate) fn new() -> Record
        ensures { result.pieces ≡ [] }
    {
        Record {
            marker: PhantomData,
        }
    }

    pub(crate) fn note(&mut self, _piece: &[u8])
        ensures { self.new.pieces ≡ _piece.now ∷ self.old.pieces }
    {}
}
