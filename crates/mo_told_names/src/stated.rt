//! The laws of names that are told. Each function does nothing: its contract is the law.
ghost use Rattle.mo_told_names.specs.Laws.{FilesName, TextsHaveNames, TextsName};

/// The names of a flat model are made of names that pass each test that the identifiers among the tokens of its texts pass.
pub fn text_names_pass()
    ensures { TextsHaveNames }
{}

/// The flat model of a class in texts is named by the path of the class, its variables by printed paths of identifiers. No two variables
/// have one name, and all these names may stand in the lines of printed reports. Nothing is asked of the texts.
pub fn text_names_are_identifiers()
    ensures { TextsName }
{}

/// The same of a class in named files, whatever these hold.
pub fn file_names_are_identifiers()
    ensures { FilesName }
{}
