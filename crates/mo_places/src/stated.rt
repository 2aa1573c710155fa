//! The laws of places. Each function does nothing: its contract is the law.
ghost use Rattle.std.specs.Prelude.{List};
ghost use Rattle.mo_syntax.specs.declared.class.FileTree.{FileTree};
ghost use Rattle.mo_places.specs.Laws.{EquationsStand, FlatModelsStand, InstancesStand, NamesStand, RedeclarationsStand, ValuesStand};

/// What elements, bases, names and children are found to be stands in the files, and so does the place of each rule that is broken on the
/// way, or it is the place that was asked from.
pub fn names_stand()
    ensures { (files : List FileTree) → NamesStand files }
{}

/// The rules that redeclarations and the comparison of classes break are broken in the files.
pub fn redeclarations_stand()
    ensures { (files : List FileTree) → RedeclarationsStand files }
{}

/// What expressions are resolved to stands in the files, and so does the place of each rule that they break, or their sizes, their values
/// and the ends of connects.
pub fn values_stand()
    ensures { (files : List FileTree) → ValuesStand files }
{}

/// The instances of a class stand in the files, with what is chosen for them, and so does the place of each rule that is broken on the way.
pub fn instances_stand()
    ensures { (files : List FileTree) → InstancesStand files }
{}

/// What instances give stands in the files: variables, equations and connects, and the place of each rule that is broken on the way.
pub fn equations_stand()
    ensures { (files : List FileTree) → EquationsStand files }
{}

/// The flat model of a class stands in the files, and so does the place of each broken rule. Only that no class has the path is told on
/// the command line.
pub fn flat_models_stand()
    ensures { (files : List FileTree) → FlatModelsStand files }
{}
