//! The bodies of classes that hold no class and no modifier.
ghost use Rattle.std.specs.Prelude.{◌≡◌, ◌++◌, OnOk};
ghost use Rattle.mo_pieces.specs.Gathered.{gathered};
ghost use Rattle.mo_pieces.specs.ShownExpressions.{in_parentheses};
ghost use Rattle.mo_pieces.specs.ShownClasses.{derivative_of, enumeration_of, pieces_of_literals};

use crate::element::write_names;
use crate::expression::write_reference;
use mo_pieces::{Pieces, separate, spaced_mark};
use mo_syntax::{List, NoMemory, Reference, Text};

/// Writes the literals of an enumeration.
fn write_literals<'t>(
    out: &mut Pieces<'t>,
    literals: &'t Option<List<Text>>,
) -> Result<(), NoMemory>
    ensures { OnOk result (gathered out.new ≡ gathered out.old ++ pieces_of_literals literals.now) }
{
    match literals {
        None => out.mark(":"),
        Some(literals) => write_names(out, literals.as_slice()),
    }
}

/// Writes the literals of an enumeration in parentheses.
fn write_literals_list<'t>(
    out: &mut Pieces<'t>,
    literals: &'t Option<List<Text>>,
) -> Result<(), NoMemory>
    ensures { OnOk result (gathered out.new ≡ gathered out.old ++ in_parentheses (pieces_of_literals literals.now)) }
{
    out.mark("(")?;
    write_literals(out, literals)?;
    out.mark(")")
}

/// Writes an enumeration.
pub(crate) fn write_enumeration<'t>(
    out: &mut Pieces<'t>,
    literals: &'t Option<List<Text>>,
    name: &'t str,
) -> Result<(), NoMemory>
    ensures { OnOk result (gathered out.new ≡ gathered out.old ++ enumeration_of literals.now name.now) }
{
    out.name(name)?;
    spaced_mark(out, "=")?;
    out.word("enumeration")?;
    write_literals_list(out, literals)
}

/// Writes a function that is a partial derivative of another.
pub(crate) fn write_derivative<'t>(
    out: &mut Pieces<'t>,
    function: &'t Reference,
    names: &'t [Text],
    name: &'t str,
) -> Result<(), NoMemory>
    ensures { OnOk result (gathered out.new ≡ gathered out.old ++ derivative_of function.now names.now name.now) }
{
    out.name(name)?;
    spaced_mark(out, "=")?;
    out.word("der")?;
    out.mark("(")?;
    write_reference(out, function)?;
    separate(out, false)?;
    write_names(out, names)?;
    out.mark(")")
}
