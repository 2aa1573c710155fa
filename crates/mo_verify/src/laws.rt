//! That right reports are read back. The function does nothing: its contract is the law.
ghost use Rattle.std.specs.Prelude.{ℕ, List as Seq};
ghost use Rattle.mo_flat.specs.declared.model.FlatModel.{FlatModel};
ghost use Rattle.mo_verify.specs.Verdict.{IsReadableIfRight};

/// All lines of the text of a right report are readable, where the model's name and those of its unknowns are names of a report.
pub fn right_reports_are_readable()
    ensures { (m : FlatModel) (report : Seq ℕ) → IsReadableIfRight m report }
{}
