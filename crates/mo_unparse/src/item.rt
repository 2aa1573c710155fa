//! The items of a class that hold no class and no modifier, and the sections that items stand in.
ghost use Rattle.std.specs.Prelude.{◌≡◌, [], ◌∷◌, ◌++◌, codes, OnOk};
ghost use Rattle.mo_pieces.specs.Pieces.{a_word};
ghost use Rattle.mo_pieces.specs.Gathered.{gathered};
ghost use Rattle.mo_pieces.specs.Lines.{head_line, on_a_line, word_if};
ghost use Rattle.mo_pieces.specs.ShownEquations.{pieces_of_equation, pieces_of_statement};
ghost use Rattle.mo_pieces.specs.ShownElements.{pieces_of_import};
ghost use Rattle.mo_pieces.specs.ShownClasses.{section_with, shown_item};

use crate::element::write_import;
use crate::equation::write_equations;
use crate::statement::write_statements;
use mo_pieces::{Pieces, Section, section_of, word_where};
use mo_syntax::{Equation, Import, Item, NoMemory, Statement};

/// Writes an import clause on a line of its own.
pub(crate) fn write_import_line<'t>(
    out: &mut Pieces<'t>,
    import: &'t Import,
) -> Result<(), NoMemory>
    ensures { OnOk result (gathered out.new ≡ gathered out.old ++ on_a_line (pieces_of_import import.now)) }
{
    out.line()?;
    write_import(out, import)?;
    out.mark(";")
}

/// Writes the head of a section of equations or statements.
fn write_section_head<'t>(
    out: &mut Pieces<'t>,
    initial: bool,
    word: &'t str,
) -> Result<(), NoMemory>
    ensures { OnOk result (gathered out.new ≡ gathered out.old ++ head_line (word_if (codes "initial") initial ++ a_word word.now ∷ [])) }
{
    out.shallower()?;
    out.line()?;
    word_where(out, "initial", initial)?;
    out.word(word)?;
    out.deeper()
}

/// Writes a section of equations.
pub(crate) fn write_equation_section<'t>(
    out: &mut Pieces<'t>,
    initial: bool,
    equations: &'t [Equation],
) -> Result<(), NoMemory>
    ensures { OnOk result (gathered out.new ≡ gathered out.old ++ section_with (codes "equation") pieces_of_equation initial equations.now) }
{
    write_section_head(out, initial, "equation")?;
    write_equations(out, equations)
}

/// Writes a section of statements.
pub(crate) fn write_algorithm_section<'t>(
    out: &mut Pieces<'t>,
    initial: bool,
    statements: &'t [Statement],
) -> Result<(), NoMemory>
    ensures { OnOk result (gathered out.new ≡ gathered out.old ++ section_with (codes "algorithm") pieces_of_statement initial statements.now) }
{
    write_section_head(out, initial, "algorithm")?;
    write_statements(out, statements)
}

/// The section that an item stands in, None for an import.
#[tactic(auto, using(crate::proofs::ClassLayers::class_layers))]
pub(crate) fn wanted_by(item: &Item) -> Option<Section>
    ensures { result ≡ (shown_item item.now).section }
{
    match item {
        Item::Import(_) => None,
        Item::Extends(clause) => Some(section_of(clause.hidden)),
        Item::Member(element) => Some(section_of(element.flags.hidden)),
        Item::Equations(_, _) => Some(Section::Behavior),
        Item::Algorithm(_, _) => Some(Section::Behavior),
    }
}
