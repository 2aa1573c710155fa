//! A view of an incidence whose reading is counted.
ghost use Rattle.std.specs.Prelude.{◌≡◌, ◌+◌, ◌-◌, ◌<◌, ◌≤◌};
ghost use Rattle.mo_incidence.specs.Signature.{equations, row_len, unknown_at, order_at, entries, IsSound};

use crate::table::Incidence;
use mo_ports::Steps;
use std::marker::{Model, PhantomData};

/// A view of one incidence that only a counter of the ledger L can read, one step for each entry.
/// Contracts see it as the signature matrix of the incidence.
#[derive(Drop)]
pub struct Counted<'a, L> {
    incidence: &'a Incidence,
    ledger: PhantomData<L>,
}

impl<'a, L> Model for Counted<'a, L> {
    ghost use Rattle.mo_incidence.specs.Signature.{Signature};

    ghost Value = { Signature };

    ghost view = { λ a. a.incidence.now };
}

impl<'a, L> Counted<'a, L> {
    /// The view of this incidence for counters of the ledger.
    pub fn new(incidence: &'a Incidence, _ledger: &Steps<L>) -> Counted<'a, L>
        ensures { result ≡ incidence.now }
    {
        Counted {
            incidence,
            ledger: PhantomData,
        }
    }

    /// How many equations there are, at most 50,000. Any incidence is sound.
    pub fn equations(&self) -> u32
        ensures count { result ≡ equations self.now }
        ensures sound { IsSound self.now }
    {
        self.incidence.equations()
    }

    /// How many unknowns there are, at most 50,000.
    pub fn unknowns(&self) -> u32
        ensures { result ≡ self.now.unknowns }
    {
        self.incidence.unknowns()
    }

    /// How many entries there are in all rows, at most 1,000,000.
    pub fn entries(&self) -> u32
        ensures { result ≡ entries self.now }
    {
        self.incidence.entries()
    }

    /// How many unknowns stand in an equation.
    pub fn row_len(&self, row: u32) -> u32
        requires { (0 < row) × (row ≤ equations self.now) }
        ensures { result ≡ row_len self.now (row - 1) }
    {
        self.incidence.row_len(row)
    }

    /// The entry that has k entries of its row before it, for one step: the unknown's number and its order.
    pub fn entry(&self, row: u32, k: u32, steps: &mut Steps<L>) -> (u32, u32)
        requires row { (0 < row) × (row ≤ equations self.now) }
        requires k { k < row_len self.now (row - 1) }
        ensures unknown { result.0 ≡ unknown_at self.now (row - 1) k }
        ensures order { result.1 ≡ order_at self.now (row - 1) k }
        ensures known { (0 < result.0) × (result.0 ≤ self.now.unknowns) }
        ensures cost { steps.new ≡ steps.old + 1 }
    {
        steps.tick();
        self.incidence.entry(row, k)
    }
}
