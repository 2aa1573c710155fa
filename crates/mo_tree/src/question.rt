//! The class that is asked for.
ghost use Rattle.std.specs.Prelude.{◌≡◌, ◌<◌, IfOk, IfErr, Some, None};
ghost use Rattle.std.specs.Option.{option_map};
ghost use Rattle.mo_syntax.specs.ClassTable.{class_count, class_of_path, broken_class, is_flattened as has_flat_model};

use mo_syntax::{Broken, ClassId, ClassKind, ClassTree, Path, Place, broken, find_class, rules};

/// The number of the class with that path. Where no class has it, rule 11 is broken at the command line; where it is a
/// function, type, package or operator, rule 13 at its name. Takes no memory.
pub fn asked(tree: &ClassTree, path: &Path) -> Result<ClassId, Broken>
    requires few { class_count tree.now.files < 4294967290 }
    ensures ok { IfOk result (λ id. option_map (λ r. r.number) (class_of_path tree.now.files path.now.0) ≡ Some id.0) }
    ensures accepted { IfOk result (λ _. broken_class (class_of_path tree.now.files path.now.0) ≡ None) }
    ensures refused { IfErr result (λ broken. broken_class (class_of_path tree.now.files path.now.0) ≡ Some broken) }
{
    match find_class(tree.files.as_slice(), path.0.as_slice()) {
        Some(found) if is_flattened(found.class.kind) => Ok(found.id),
        Some(found) => Err(broken(rules::WRONG_KIND_OF_NAME, found.class.place)),
        None => Err(broken(rules::CLASS_NOT_FOUND, Place { file: 0, byte: 0 })),
    }
}

/// Whether classes of that kind have a flat model.
fn is_flattened(kind: ClassKind) -> bool
    ensures { result ≡ has_flat_model kind }
{
    match kind {
        ClassKind::Package | ClassKind::Function | ClassKind::Operator | ClassKind::TypeDef =>
            false,
        ClassKind::Plain
        | ClassKind::Model
        | ClassKind::Block
        | ClassKind::Recd
        | ClassKind::Connector => true,
    }
}
