//! The parts of elements that hold no class.
ghost use Rattle.std.specs.Prelude.{◌≡◌, ◌++◌, codes, OnOk};
ghost use Rattle.mo_pieces.specs.Gathered.{gathered};
ghost use Rattle.mo_pieces.specs.Lines.{word_if};
ghost use Rattle.mo_pieces.specs.ShownExpressions.{commas};
ghost use Rattle.mo_pieces.specs.ShownModifiers.{pieces_of_binding, pieces_of_name, pieces_of_path};
ghost use Rattle.mo_pieces.specs.ShownElements.{in_import, pieces_of_causal, pieces_of_condition, pieces_of_flags, pieces_of_import, pieces_of_prefix, pieces_of_vary, type_of, value_of};

use crate::expression::{write_expr, write_reference, write_subscripts};
use mo_pieces::{Pieces, dot_between, separate, spaced_mark, spaced_word, word_where};
use mo_syntax::{
    Causal, Component, ElementFlags, Expr, Import, NoMemory, Path, Prefix, Text, Vary,
};

/// Writes identifiers with commas between them.
pub(crate) fn write_names<'t>(out: &mut Pieces<'t>, names: &'t [Text]) -> Result<(), NoMemory>
    ensures { OnOk result (gathered out.new ≡ gathered out.old ++ commas pieces_of_name names.now) }
{
    let mut first = true;
    for name in names {
        separate(out, first)?;
        out.name(name.as_str())?;
        first = false;
    }
    Ok(())
}

/// Writes identifiers with dots between them.
pub(crate) fn write_path<'t>(out: &mut Pieces<'t>, path: &'t Path) -> Result<(), NoMemory>
    ensures { OnOk result (gathered out.new ≡ gathered out.old ++ pieces_of_path path.now) }
{
    let mut first = true;
    for name in path.0.as_slice() {
        dot_between(out, first)?;
        out.name(name.as_str())?;
        first = false;
    }
    Ok(())
}

/// Writes the value that an element or argument is given, if any.
pub(crate) fn write_binding<'t>(
    out: &mut Pieces<'t>,
    binding: &'t Option<Expr>,
) -> Result<(), NoMemory>
    ensures { OnOk result (gathered out.new ≡ gathered out.old ++ pieces_of_binding binding.now) }
{
    match binding {
        None => Ok(()),
        Some(value) => {
            spaced_mark(out, "=")?;
            write_expr(out, value)
        }
    }
}

/// Writes the condition of a component, if any.
pub(crate) fn write_condition<'t>(
    out: &mut Pieces<'t>,
    condition: &'t Option<Expr>,
) -> Result<(), NoMemory>
    ensures { OnOk result (gathered out.new ≡ gathered out.old ++ pieces_of_condition condition.now) }
{
    match condition {
        None => Ok(()),
        Some(condition) => {
            spaced_word(out, "if")?;
            write_expr(out, condition)
        }
    }
}

/// Writes the variability of a component.
fn write_vary(out: &mut Pieces<'_>, vary: Vary) -> Result<(), NoMemory>
    ensures { OnOk result (gathered out.new ≡ gathered out.old ++ pieces_of_vary vary) }
{
    match vary {
        Vary::Free => Ok(()),
        Vary::Discrete => word_where(out, "discrete", true),
        Vary::Parameter => word_where(out, "parameter", true),
        Vary::Constant => word_where(out, "constant", true),
    }
}

/// Writes the causality of a component or short class.
pub(crate) fn write_causal(out: &mut Pieces<'_>, causal: Causal) -> Result<(), NoMemory>
    ensures { OnOk result (gathered out.new ≡ gathered out.old ++ pieces_of_causal causal) }
{
    match causal {
        Causal::None => Ok(()),
        Causal::Input => word_where(out, "input", true),
        Causal::Output => word_where(out, "output", true),
    }
}

/// Writes the type prefixes of a component.
pub(crate) fn write_prefix(out: &mut Pieces<'_>, prefix: Prefix) -> Result<(), NoMemory>
    ensures { OnOk result (gathered out.new ≡ gathered out.old ++ pieces_of_prefix prefix) }
{
    word_where(out, "flow", prefix.flow)?;
    word_where(out, "stream", prefix.stream)?;
    write_vary(out, prefix.vary)?;
    write_causal(out, prefix.causal)
}

/// Writes the prefixes of an element.
pub(crate) fn write_flags(out: &mut Pieces<'_>, flags: ElementFlags) -> Result<(), NoMemory>
    ensures { OnOk result (gathered out.new ≡ gathered out.old ++ pieces_of_flags flags) }
{
    word_where(out, "redeclare", flags.redeclare)?;
    word_where(out, "final", flags.last)?;
    word_where(out, "inner", flags.inner)?;
    word_where(out, "outer", flags.outer)?;
    word_where(out, "replaceable", flags.replaceable)
}

/// Writes what an import clause takes.
fn write_taken<'t>(out: &mut Pieces<'t>, import: &'t Import) -> Result<(), NoMemory>
    ensures { OnOk result (gathered out.new ≡ gathered out.old ++ in_import import.now) }
{
    match import {
        Import::Renamed(name, path, _) => {
            out.name(name.as_str())?;
            spaced_mark(out, "=")?;
            write_path(out, path)
        }
        Import::Named(path, _) => write_path(out, path),
        Import::Group(path, names, _) => {
            write_path(out, path)?;
            out.mark(".")?;
            out.mark("{")?;
            write_names(out, names.as_slice())?;
            out.mark("}")
        }
        Import::All(path, _) => {
            write_path(out, path)?;
            out.mark(".*")
        }
    }
}

/// Writes an import clause.
pub(crate) fn write_import<'t>(out: &mut Pieces<'t>, import: &'t Import) -> Result<(), NoMemory>
    ensures { OnOk result (gathered out.new ≡ gathered out.old ++ pieces_of_import import.now) }
{
    out.word("import")?;
    out.blank()?;
    write_taken(out, import)
}

/// Writes the prefixes, the type and the dimensions behind it of a component.
pub(crate) fn write_type<'t>(out: &mut Pieces<'t>, component: &'t Component) -> Result<(), NoMemory>
    ensures { OnOk result (gathered out.new ≡ gathered out.old ++ type_of component.now) }
{
    write_prefix(out, component.prefix)?;
    write_reference(out, &component.base)?;
    write_subscripts(out, component.base_subs.as_slice())
}

/// Writes the value and the condition of a component.
pub(crate) fn write_value<'t>(
    out: &mut Pieces<'t>,
    component: &'t Component,
) -> Result<(), NoMemory>
    ensures { OnOk result (gathered out.new ≡ gathered out.old ++ value_of component.now) }
{
    write_binding(out, &component.binding)?;
    write_condition(out, &component.condition)
}

/// Writes the flags of an argument.
pub(crate) fn write_argument_flags(
    out: &mut Pieces<'_>,
    each: bool,
    last: bool,
) -> Result<(), NoMemory>
    ensures { OnOk result (gathered out.new ≡ gathered out.old ++ (word_if (codes "each") each ++ word_if (codes "final") last)) }
{
    word_where(out, "each", each)?;
    word_where(out, "final", last)
}
