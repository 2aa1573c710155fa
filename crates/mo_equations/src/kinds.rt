//! The kinds that are wanted of attributes, and the names of kinds.
ghost use Rattle.std.specs.Prelude.{◌≡◌, IfOk};
ghost use Rattle.mo_scope.specs.Worlds.{table_in};
ghost use Rattle.mo_equations.specs.Variables.{attribute_kind as kind_of_attribute, class_of_kind as class_number, is_parameter as is_parameter_role, kind_text as text_of_kind};

use mo_eval::class_text;
use mo_scope::Scopes;
use mo_syntax::{ClassId, Kind, NoMemory, Role, Text};
use std::alloc::Global;

/// The class of a kind.
fn class_of_kind(kind: Kind) -> ClassId
    ensures { result.0 ≡ class_number kind }
{
    match kind {
        Kind::Real => ClassId(0),
        Kind::Whole => ClassId(1),
        Kind::Truth => ClassId(2),
        Kind::Str => ClassId(3),
        Kind::Enumeration(class) => class,
    }
}

/// The printed name of a kind.
pub(crate) fn kind_text(alloc: Global, s: &Scopes, kind: Kind) -> Result<Text, NoMemory>
    ensures { IfOk result (λ text. text ≡ text_of_kind (table_in s.now) kind) }
{
    class_text(alloc, s, class_of_kind(kind))
}

/// The kind that is wanted of an attribute by its number, of a leaf of that kind.
pub(crate) fn attribute_kind(kind: Kind, number: u8) -> Kind
    ensures { result ≡ kind_of_attribute kind number }
{
    match number {
        0 | 1 | 2 => Kind::Str,
        6 | 8 => Kind::Truth,
        9 => Kind::Enumeration(ClassId(4)),
        _ => kind,
    }
}

pub(crate) fn is_parameter(role: Role) -> bool
    ensures { result ≡ is_parameter_role role }
{
    match role {
        Role::Parameter => true,
        Role::Unknown | Role::Given | Role::Constant => false,
    }
}
