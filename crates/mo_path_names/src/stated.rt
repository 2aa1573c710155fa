//! The laws of names. Each function does nothing: its contract is the law.
ghost use Rattle.std.specs.Prelude.{ℕ, List};
ghost use Rattle.mo_path_names.specs.Laws.{AreDelimited, InstancesHaveNames, ModelsHaveNames, ModelsHaveReportNames, PathsPrintApart, TestsIdentifiers};

/// The test of identifiers passes what is spelled as an identifier, and nothing else.
pub fn identifiers_are_tested()
    ensures { (text : List ℕ) → TestsIdentifiers text }
{}

/// Where an identifier ends in a printed path is told by what it is, whether it stands in quotes or not; so it is for names without dots and
/// brackets.
pub fn names_are_delimited()
    ensures { AreDelimited }
{}

/// Two paths of components that are printed as one text are one path, where their names tell where they end.
pub fn paths_print_apart()
    ensures { PathsPrintApart }
{}

/// The names in the paths of instances pass each test that the names in the files pass.
pub fn instances_have_names()
    ensures { InstancesHaveNames }
{}

/// The name of a flat model and the names of its variables are made of names that pass each test that the names in the files pass; and the
/// variables' names differ, where such names tell where they end.
pub fn flat_models_have_names()
    ensures { ModelsHaveNames }
{}

/// Where the names in the files are identifiers, the name of a flat model and those of its variables are names as they stand in the lines of
/// printed reports, and no two variables have one name.
pub fn report_names_are_readable()
    ensures { ModelsHaveReportNames }
{}
