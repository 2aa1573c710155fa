//! Room for the analyses of one incidence.
ghost use Rattle.std.specs.Prelude.{◌≡◌, ◌+◌, ◌<◌, IfOk};
ghost use Rattle.mo_match.specs.Results.{fresh};

use crate::matching::Matching;
use crate::search::Search;
use mo_incidence::{Deficit, Offsets, Reason};
use mo_syntax::NoMemory;
use std::alloc::Global;
use std::marker::Model;

/// Whether a largest assignment covers all equations, or how many it leaves out.
#[derive(Clone, Copy, Debug, PartialEq, Eq)]
pub enum Assigned {
    /// Every equation has an unknown.
    All,
    /// So many equations are left out, at least one.
    Missing(u32),
}

/// Room for the analyses of an incidence with the given counts, and what they found. Contracts see the counts, the assignment and
/// the findings; the other lists serve the searches.
#[derive(Drop)]
pub struct Work {
    /// How many equations there is room for.
    pub equations: u32,
    /// How many unknowns there is room for.
    pub unknowns: u32,
    /// How many entries there is room for.
    pub entries: u32,
    /// The assignment.
    pub matching: Matching,
    /// The lists of a search among the equations.
    pub search: Search,
    /// For each unknown, from 1 on, whether a search has reached it.
    pub reached: Vec<u32>,
    /// Unknowns, as a search reaches them.
    pub order: Vec<u32>,
    /// For each unknown, from 1 on, one more than the place of its last entry, or 0.
    pub last: Vec<u32>,
    /// For each entry, one more than the place of the entry before it with the same unknown, or 0.
    pub before: Vec<u32>,
    /// For each entry the number of its equation.
    pub row_of: Vec<u32>,
    /// The equations that some largest assignment leaves out, and the unknowns that they mention.
    pub deficit: Deficit,
    /// The undetermined unknowns.
    pub loose: Vec<u32>,
    /// The least offsets.
    pub offsets: Offsets,
    /// The reasons of the offsets.
    pub reasons: Vec<Reason>,
}

impl Model for Work {
    ghost use Rattle.mo_match.specs.Results.{Results};

    ghost Value = { Results };

    ghost use Rattle.mo_match.specs.Room.{results, HasRoom};

    ghost view = { results };

    ghost invariant = { HasRoom };
}

impl Work {
    /// Room for an incidence with these counts. Nothing is assigned, and all lists of findings are empty.
    /// `NoMemory` is the only other answer.
    pub fn new(alloc: Global, equations: u32, unknowns: u32, entries: u32) -> Result<Work, NoMemory>
        ensures { IfOk result (λ work. work ≡ fresh equations unknowns entries) }
    {
        let matching = Matching::new(alloc, equations, unknowns)?;
        let search = Search::new(alloc, equations)?;
        let m = equations as usize;
        let n = unknowns as usize;
        let e = entries as usize;
        let deficit = Deficit {
            equations: Vec::with_capacity(alloc, m)?,
            unknowns: Vec::with_capacity(alloc, n)?,
        };
        let offsets = Offsets {
            c: Vec::with_capacity(alloc, m)?,
            d: Vec::with_capacity(alloc, n)?,
            pairs: Vec::with_capacity(alloc, m)?,
        };
        Ok(Work {
            equations,
            unknowns,
            entries,
            matching,
            search,
            reached: vec![in alloc; 0; n + 1]?,
            order: vec![in alloc; 0; n]?,
            last: vec![in alloc; 0; n + 1]?,
            before: vec![in alloc; 0; e]?,
            row_of: vec![in alloc; 0; e]?,
            deficit,
            loose: Vec::with_capacity(alloc, n)?,
            offsets,
            reasons: Vec::with_capacity(alloc, m)?,
        })
    }
    /// The deficit that `assign` found: empty if every equation has an unknown. Both lists ascend.
    pub fn deficit(&self) -> &Deficit
        ensures equations { result.now.equations.items ≡ self.now.deficient }
        ensures unknowns { result.now.unknowns.items ≡ self.now.mentioned }
    {
        &self.deficit
    }

    /// The undetermined unknowns that `undetermined` found, ascending.
    pub fn loose(&self) -> &[u32]
        ensures { result.now ≡ self.now.loose }
    {
        &self.loose
    }

    /// The least offsets.
    pub fn offsets(&self) -> &Offsets
        ensures c { result.now.c.items ≡ self.now.c }
        ensures d { result.now.d.items ≡ self.now.d }
        ensures pairs { result.now.pairs.items ≡ self.now.pairs }
    {
        &self.offsets
    }

    /// The reasons of the offsets, by equations, ascending.
    pub fn reasons(&self) -> &[Reason]
        ensures { result.now ≡ self.now.reasons }
    {
        &self.reasons
    }
}
