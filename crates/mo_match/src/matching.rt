//! An assignment that changes.
ghost use Rattle.std.specs.Prelude.{◌≡◌, ℕ, ◌+◌, ◌<◌, length, replicate, slice_index, slice_set, IfOk};
ghost use Rattle.std.proofs.Common.{suc};
ghost use Rattle.mo_match.specs.Trees.{HasSameSizes, unknown_in};

use crate::largest::clear;
use mo_syntax::NoMemory;
use std::alloc::Global;

/// An assignment, by the equations and by the unknowns.
#[derive(Drop)]
pub struct Matching {
    /// For each equation the number of its unknown, or 0.
    pub pairs: Vec<u32>,
    /// For each unknown, from 1 on, the number of its equation, or 0.
    pub owner: Vec<u32>,
}

impl Matching {
    /// So many equations and unknowns, and nothing assigned. `NoMemory` is the only other answer.
    pub fn new(alloc: Global, equations: u32, unknowns: u32) -> Result<Matching, NoMemory>
        ensures pairs { IfOk result (λ made. made.pairs.items ≡ replicate equations 0) }
        ensures owner { IfOk result (λ made. length made.owner.items ≡ suc unknowns) }
    {
        let pairs = vec![in alloc; 0; equations as usize]?;
        let owner = vec![in alloc; 0; unknowns as usize + 1]?;
        Ok(Matching { pairs, owner })
    }

    /// The number of the unknown that an equation has, or 0.
    pub fn unknown_of(&self, equation: usize) -> u32
        requires { equation < length self.now.pairs.items }
        ensures { result ≡ slice_index self.now.pairs.items equation }
    {
        self.pairs[equation]
    }

    /// The number of the equation that has an unknown, or 0.
    pub fn holder_of(&self, unknown: u32) -> u32
        requires { unknown < length self.now.owner.items }
        ensures { result ≡ slice_index self.now.owner.items unknown }
    {
        self.owner[unknown as usize]
    }

    /// Gives an equation an unknown.
    pub fn give(&mut self, equation: u32, unknown: u32)
        requires equation { (equation < length self.old.pairs.items) × (equation < 50000) }
        requires unknown { unknown < length self.old.owner.items }
        ensures pairs { self.new.pairs.items ≡ slice_set self.old.pairs.items equation unknown }
        ensures owner { self.new.owner.items ≡ slice_set self.old.owner.items unknown (equation + 1) }
    {
        self.pairs[equation as usize] = unknown;
        self.owner[unknown as usize] = equation + 1;
    }

    /// Takes its unknown from an equation, and gives it back.
    pub fn release(&mut self, equation: usize) -> u32
        requires equation { equation < length self.old.pairs.items }
        requires known { slice_index self.old.pairs.items equation < length self.old.owner.items }
        ensures unknown { result ≡ slice_index self.old.pairs.items equation }
        ensures pairs { self.new.pairs.items ≡ slice_set self.old.pairs.items equation 0 }
        ensures owner { self.new.owner.items ≡ slice_set self.old.owner.items (unknown_in self.old equation) 0 }
    {
        let unknown = self.unknown_of(equation);
        self.pairs[equation] = 0;
        self.owner[unknown as usize] = 0;
        unknown
    }

    /// Takes all unknowns from their equations.
    pub fn clear(&mut self)
        ensures pairs { (i : ℕ) → slice_index self.new.pairs.items i ≡ 0 }
        ensures owner { (j : ℕ) → slice_index self.new.owner.items j ≡ 0 }
        ensures sizes { HasSameSizes self.old self.new }
    {
        clear(&mut self.pairs);
        clear(&mut self.owner);
    }
}
