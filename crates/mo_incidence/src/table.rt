//! The entries of an incidence, row by row in one vector.
ghost use Rattle.std.specs.Prelude.{◌≡◌, ◌+◌, ◌-◌, ◌<◌, ◌≤◌};
ghost use Rattle.mo_incidence.specs.Signature.{equations, row_len, unknown_at, order_at, entries, IsSound};

use std::marker::Model;

/// Which unknowns stand in which equations, and at which highest order. Equations and unknowns are numbered from 1.
/// Contracts see it as the signature matrix, one list of (unknown, order) for each equation, with the number of unknowns.
#[derive(Drop)]
pub struct Incidence {
    pub(crate) unknowns: u32,
    pub(crate) starts: Vec<u32>,
    pub(crate) flat: Vec<(u32, u32)>,
}

impl Model for Incidence {
    ghost use Rattle.mo_incidence.specs.Signature.{Signature};
    ghost use Rattle.mo_incidence.specs.Flat.{signature, IsFlat};

    ghost Value = { Signature };

    ghost view = { λ a. signature a.unknowns a.starts.items a.flat.items };

    ghost invariant = { λ a. IsFlat a.unknowns a.starts.items a.flat.items };
}

impl Incidence {
    /// How many equations there are, at most 50,000. Any incidence is sound: the unknowns of a row are in range and ascend,
    /// orders are below 65,536, and there are at most 50,000 equations, 50,000 unknowns and 1,000,000 entries.
    pub fn equations(&self) -> u32
        ensures count { result ≡ equations self.now }
        ensures sound { IsSound self.now }
    {
        (self.starts.len() - 1) as u32
    }

    /// How many unknowns there are, at most 50,000.
    pub fn unknowns(&self) -> u32
        ensures { result ≡ self.now.unknowns }
    {
        self.unknowns
    }

    /// How many entries there are in all rows, at most 1,000,000.
    pub fn entries(&self) -> u32
        ensures { result ≡ entries self.now }
    {
        self.flat.len() as u32
    }

    /// How many unknowns stand in an equation.
    pub fn row_len(&self, row: u32) -> u32
        requires { (0 < row) × (row ≤ equations self.now) }
        ensures { result ≡ row_len self.now (row - 1) }
    {
        let row = row as usize;
        self.starts[row] - self.starts[row - 1]
    }

    /// The entry that has k entries of its row before it: the unknown's number and its order.
    pub fn entry(&self, row: u32, k: u32) -> (u32, u32)
        requires row { (0 < row) × (row ≤ equations self.now) }
        requires k { k < row_len self.now (row - 1) }
        ensures unknown { result.0 ≡ unknown_at self.now (row - 1) k }
        ensures order { result.1 ≡ order_at self.now (row - 1) k }
        ensures known { (0 < result.0) × (result.0 ≤ self.now.unknowns) }
    {
        let place = self.starts[row as usize - 1] + k;
        self.flat[place as usize]
    }
}
