//! The laws of right reports. Each function does nothing: its contract is the law.
ghost use Rattle.std.specs.Prelude.{◌≡◌};
ghost use Rattle.mo_flat.specs.declared.model.FlatModel.{FlatModel};
ghost use Rattle.mo_report.specs.declared.report.Report.{Report};
ghost use Rattle.mo_report.specs.Lines.{report_lines};
ghost use Rattle.mo_report.specs.Right.{IsRightReport};
ghost use Rattle.mo_report.specs.Same.{SaySame};

/// A flat model has one right report: any two say the same, part by part. So they have one text.
pub fn one_right_report()
    ensures report { (m : FlatModel) (r s : Report) → IsRightReport m r → IsRightReport m s → SaySame r s }
    ensures text { (r s : Report) → SaySame r s → report_lines r ≡ report_lines s }
{}
