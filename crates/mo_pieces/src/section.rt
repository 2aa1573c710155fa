//! Which kind of section is open in a class.
ghost use Rattle.std.specs.Prelude.{◌≡◌, [], ◌∷◌, ◌++◌, OnOk};
ghost use Rattle.mo_pieces.specs.Pieces.{a_word};
ghost use Rattle.mo_pieces.specs.Lines.{head_line};
ghost use Rattle.mo_pieces.specs.Gathered.{gathered};
ghost use Rattle.mo_pieces.specs.ShownElements.{head_between, section_behind, section_of as section_where};

use crate::piece::Pieces;
use mo_syntax::NoMemory;

/// The kind of section that is open in a class, or that an item wants.
#[derive(Clone, Copy, Debug, PartialEq, Eq)]
pub enum Section {
    /// Elements that all may see, as at the beginning of a class.
    Public,
    /// Elements under `protected`.
    Protected,
    /// Equations or statements.
    Behavior,
}

/// The section of elements that are hidden or not.
pub fn section_of(hidden: bool) -> Section
    ensures { result ≡ section_where hidden }
{
    if hidden {
        Section::Protected
    } else {
        Section::Public
    }
}

/// The section that is open behind an item, by that before it and that which the item wants.
pub fn behind_item(before: Section, wanted: Option<Section>) -> Section
    ensures { result ≡ section_behind before wanted }
{
    match (wanted, before) {
        (Some(section), _) => section,
        (None, Section::Behavior) => Section::Public,
        (None, Section::Public) => Section::Public,
        (None, Section::Protected) => Section::Protected,
    }
}

/// Writes the head of a section of elements on a line less far in.
fn write_head<'t>(out: &mut Pieces<'t>, word: &'t str) -> Result<(), NoMemory>
    ensures { OnOk result (gathered out.new ≡ gathered out.old ++ head_line (a_word word.now ∷ [])) }
{
    out.shallower()?;
    out.line()?;
    out.word(word)?;
    out.deeper()
}

/// Writes the head of a section of elements, where another section is open.
pub fn write_head_between(
    out: &mut Pieces<'_>,
    before: Section,
    behind: Section,
) -> Result<(), NoMemory>
    ensures { OnOk result (gathered out.new ≡ gathered out.old ++ head_between before behind) }
{
    match (before, behind) {
        (_, Section::Behavior) => Ok(()),
        (Section::Public, Section::Public) => Ok(()),
        (Section::Protected, Section::Protected) => Ok(()),
        (_, Section::Public) => write_head(out, "public"),
        (_, Section::Protected) => write_head(out, "protected"),
    }
}
