//! The law of what is selected. The function does nothing: its contract is the law.
ghost use Rattle.std.specs.Prelude.{ℕ};
ghost use Rattle.mo_incidence.specs.Signature.{Signature};
ghost use Rattle.mo_select.specs.Selection.{AreLevels, HasOneSelection};

/// Two selections of one system say the same: whatever equations the chosen unknowns get, these unknowns are one set at each stage, and so
/// are the counts, the equations left out, and the states.
pub fn one_selection()
    ensures { (g : Signature) (c d level : ℕ → ℕ) → AreLevels level → HasOneSelection g c d level }
{}
