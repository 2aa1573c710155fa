//! How many dummies and states there are. The function does nothing: its contract is the law.
ghost use Rattle.std.specs.Prelude.{◌≡◌, ℕ, length};
ghost use Rattle.mo_incidence.specs.Counting.{sum_below};
ghost use Rattle.mo_incidence.specs.Signature.{Signature};
ghost use Rattle.mo_incidence.specs.Dummies.{dummies_of};
ghost use Rattle.mo_blocks.specs.Stages.{CountsStates};

/// There are as many dummies as the sum of c over the equations. With them the states of a square system are as many as the sum of d
/// over the unknowns, where each equation has an unknown of its own by a tight entry (Mattsson and Söderlind 1993, Pryce 2001).
pub fn counted_by_offsets()
    ensures dummies { (c d t : ℕ → ℕ) (m : ℕ) → length (dummies_of c d t m) ≡ sum_below c m }
    ensures states { (g : Signature) (c d t : ℕ → ℕ) → CountsStates g c d t }
{}
