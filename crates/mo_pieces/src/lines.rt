//! Lines of a class in pieces.
ghost use Rattle.std.specs.Prelude.{◌≡◌, [], ◌∷◌, ◌++◌, if◌then◌else◌, OnOk};
ghost use Rattle.mo_pieces.specs.Pieces.{a_line};
ghost use Rattle.mo_pieces.specs.Gathered.{gathered};
ghost use Rattle.mo_pieces.specs.Lines.{end_of, word_if};

use crate::piece::Pieces;
use mo_syntax::NoMemory;

/// Puts what ends a construct at the end, with its word behind `end`.
pub fn write_end<'t>(out: &mut Pieces<'t>, word: &'t str) -> Result<(), NoMemory>
    ensures { OnOk result (gathered out.new ≡ gathered out.old ++ end_of word.now) }
{
    out.line()?;
    out.word("end")?;
    out.blank()?;
    out.word(word)
}

/// Puts a reserved word at the end where it is wanted.
pub fn word_where<'t>(out: &mut Pieces<'t>, word: &'t str, wanted: bool) -> Result<(), NoMemory>
    ensures { OnOk result (gathered out.new ≡ gathered out.old ++ word_if word.now wanted) }
{
    if wanted {
        out.word(word)?;
        return out.blank();
    }
    Ok(())
}

/// Ends the line before a branch, not before the first.
pub fn line_between(out: &mut Pieces<'_>, first: bool) -> Result<(), NoMemory>
    ensures { OnOk result (gathered out.new ≡ gathered out.old ++ (if first then [] else a_line ∷ [])) }
{
    if first {
        return Ok(());
    }
    out.line()
}

/// The word that a branch begins with.
pub fn word_of<'t>(first: bool, word: &'t str, other: &'t str) -> &'t str
    ensures { result.now ≡ (if first then word.now else other.now) }
{
    if first { word } else { other }
}
