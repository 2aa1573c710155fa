//! The words that classes begin with, and their ends.
ghost use Rattle.std.specs.Prelude.{◌≡◌, true, ◌++◌, OnOk};
ghost use Rattle.mo_pieces.specs.Gathered.{gathered};
ghost use Rattle.mo_pieces.specs.ShownClasses.{end_with, external_line, head_of, pieces_of_purity, word_of_kind};

use crate::lines::word_where;
use crate::piece::Pieces;
use mo_syntax::{ClassFlags, ClassKind, NoMemory};

/// The word that a class of that kind begins with.
fn word_of(kind: ClassKind) -> &'static str
    ensures { result.now ≡ word_of_kind kind }
{
    match kind {
        ClassKind::Plain => "class",
        ClassKind::Model => "model",
        ClassKind::Block => "block",
        ClassKind::Recd => "record",
        ClassKind::Connector => "connector",
        ClassKind::TypeDef => "type",
        ClassKind::Package => "package",
        ClassKind::Function => "function",
        ClassKind::Operator => "operator",
    }
}

/// Writes whether a function is pure, where it is said.
fn write_purity(out: &mut Pieces<'_>, purity: Option<bool>) -> Result<(), NoMemory>
    ensures { OnOk result (gathered out.new ≡ gathered out.old ++ pieces_of_purity purity) }
{
    match purity {
        None => Ok(()),
        Some(true) => word_where(out, "pure", true),
        Some(false) => word_where(out, "impure", true),
    }
}

/// Writes the words that a class begins with.
pub fn write_head_words(
    out: &mut Pieces<'_>,
    kind: ClassKind,
    flags: ClassFlags,
) -> Result<(), NoMemory>
    ensures { OnOk result (gathered out.new ≡ gathered out.old ++ head_of kind flags) }
{
    word_where(out, "encapsulated", flags.encapsulated)?;
    word_where(out, "partial", flags.partial)?;
    write_purity(out, flags.purity)?;
    word_where(out, "operator", flags.operator)?;
    word_where(out, "expandable", flags.expandable)?;
    out.word(word_of(kind))?;
    out.blank()
}

/// Writes an `external` clause on a line of its own.
fn write_external_line(out: &mut Pieces<'_>) -> Result<(), NoMemory>
    ensures { OnOk result (gathered out.new ≡ gathered out.old ++ external_line true) }
{
    out.line()?;
    out.word("external")?;
    out.mark(";")
}

/// Writes an `external` clause, where one stands there.
fn write_external(out: &mut Pieces<'_>, external: bool) -> Result<(), NoMemory>
    ensures { OnOk result (gathered out.new ≡ gathered out.old ++ external_line external) }
{
    match external {
        true => write_external_line(out),
        false => Ok(()),
    }
}

/// Writes the end of a class, with an external clause before it.
pub fn write_class_end<'t>(
    out: &mut Pieces<'t>,
    external: bool,
    name: &'t str,
) -> Result<(), NoMemory>
    ensures { OnOk result (gathered out.new ≡ gathered out.old ++ end_with external name.now) }
{
    write_external(out, external)?;
    out.line()?;
    out.word("end")?;
    out.blank()?;
    out.name(name)
}
