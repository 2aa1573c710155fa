//! The law of values. The function does nothing: its contract is the law.
ghost use Rattle.std.specs.Prelude.{◌≡◌};
ghost use Rattle.mo_report.specs.declared.report.Report.{Report};
ghost use Rattle.mo_report.specs.Same.{SaySame};
ghost use Rattle.mo_json.specs.Values.{report_data};

/// Reports that say the same have the same value.
pub fn one_value()
    ensures { (r s : Report) → SaySame r s → report_data r ≡ report_data s }
{}
