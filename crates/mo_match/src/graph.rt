//! Which equation may have which unknown.
ghost use Rattle.std.specs.Prelude.{◌≡◌, ◌+◌, ◌-◌, ◌<◌, ◌≤◌, [], length, true, false, IfSome, IfNone};
ghost use Rattle.mo_incidence.specs.Signature.{equations, row_len};
ghost use Rattle.mo_match.specs.Searching.{IsUsable, UsesEntry, tight_of};

use mo_incidence::Counted;
use mo_ports::Steps;
use std::marker::Model;

/// Which equation may have which unknown: the bipartite graph of all entries, or of the tight ones alone.
#[derive(Drop)]
pub struct Graph<'a, L> {
    incidence: &'a Counted<'a, L>,
    tight: bool,
    c: &'a [u32],
    d: &'a [u32],
}

impl<'a, L> Model for Graph<'a, L> {
    ghost use Rattle.mo_match.specs.Searching.{Bipartite, IsSized};

    ghost Value = { Bipartite };

    ghost view = { λ a. record { signature = a.incidence.now; tight = a.tight; c = a.c.now; d = a.d.now } };

    ghost invariant = { λ a. IsSized (record { signature = a.incidence.now; tight = a.tight; c = a.c.now; d = a.d.now }) };
}

impl<'a, L> Graph<'a, L> {
    /// Each equation may have each unknown that it mentions.
    pub fn of_entries(incidence: &'a Counted<'a, L>) -> Graph<'a, L>
        ensures signature { result.signature ≡ incidence.now }
        ensures tight { result.tight ≡ false }
    {
        Graph {
            incidence,
            tight: false,
            c: &[],
            d: &[],
        }
    }

    /// Each equation may have the unknowns at which it is tight: the unknown's number of d is the equation's of c and the order.
    pub fn of_tight(incidence: &'a Counted<'a, L>, c: &'a [u32], d: &'a [u32]) -> Graph<'a, L>
        requires sizes { (length c.now ≡ equations incidence.now) × (length d.now ≡ incidence.now.unknowns) }
        ensures { result ≡ tight_of incidence.now c.now d.now }
    {
        Graph {
            incidence,
            tight: true,
            c,
            d,
        }
    }

    /// How many entries an equation has.
    pub fn row_len(&self, row: u32) -> u32
        requires { (0 < row) × (row ≤ equations self.now.signature) }
        ensures { result ≡ row_len self.now.signature (row - 1) }
    {
        self.incidence.row_len(row)
    }

    /// The unknown of an entry, if the entry may be used, for one step.
    pub fn usable(&self, row: u32, k: u32, steps: &mut Steps<L>) -> Option<u32>
        requires row { (0 < row) × (row ≤ equations self.now.signature) }
        requires k { k < row_len self.now.signature (row - 1) }
        ensures some { IfSome result (IsUsable self.now (row - 1) k) }
        ensures known { IfSome result (λ j. (0 < j) × (j ≤ self.now.signature.unknowns)) }
        ensures none { IfNone result (UsesEntry self.now (row - 1) k → ⊥) }
        ensures cost { steps.new ≡ steps.old + 1 }
    {
        let (unknown, order) = self.incidence.entry(row, k, steps);
        if self.tight {
            let sum = u64::from(self.c[row as usize - 1]) + u64::from(order);
            if u64::from(self.d[unknown as usize - 1]) != sum {
                return None;
            }
        }
        Some(unknown)
    }
}
