//! The lines that hold the offsets of equations and unknowns.
ghost use Rattle.std.specs.Prelude.{ℕ, List as Seq, IfSome, IfNone};
ghost use Rattle.mo_report_lines.specs.Grammar.{IsEquationLine, IsOnlyEquationLine, IsOnlyUnknownLine, IsUnknownLine};
ghost use Rattle.mo_report_lines.specs.steps.Reading.{IsNumberedAt, IsNoNumberAt, IsNamedAt, IsNoNameAt};

use crate::bytes::after_word;
use crate::name::after_name;
use crate::number::number;

/// What the line of an equation says.
#[derive(Clone, Copy, Debug)]
pub struct EquationLine<'t> {
    /// The number of the equation.
    pub number: u32,
    /// How often it is differentiated.
    pub offset: u32,
    /// The name of its unknown.
    pub unknown: &'t [u8],
    /// The order at which its unknown stands in it.
    pub order: u32,
}

/// What the line of an unknown says.
#[derive(Clone, Copy, Debug)]
pub struct UnknownLine<'t> {
    /// Its name.
    pub unknown: &'t [u8],
    /// The order of its highest derivative.
    pub highest: u32,
}

/// The number behind a word at the front, and what stands behind it.
fn numbered<'t>(text: &'t [u8], word: &str) -> Option<(u32, &'t [u8])>
    ensures some { IfSome result (λ r. IsNumberedAt word.now text.now r.0 r.1.now) }
    ensures none { IfNone result (IsNoNumberAt word.now text.now) }
{
    let start = after_word(text, word)?;
    let read = number(start)?;
    Some(read)
}

/// The name behind a word at the front, and what stands behind it.
fn named<'t>(text: &'t [u8], word: &str) -> Option<(&'t [u8], &'t [u8])>
    ensures some { IfSome result (λ r. IsNamedAt word.now text.now r.0.now r.1.now) }
    ensures none { IfNone result (IsNoNameAt word.now text.now) }
{
    let start = after_word(text, word)?;
    let rest = after_name(start)?;
    Some((&start[..start.len() - rest.len()], rest))
}

/// What the line of an equation says, without its line feed; None where it is none.
pub fn equation_line(line: &[u8]) -> Option<EquationLine<'_>>
    ensures some { IfSome result (λ e. IsEquationLine line.now e.number e.offset e.unknown.now e.order) }
    ensures only { IfSome result (λ e. IsOnlyEquationLine line.now e.number e.offset e.unknown.now e.order) }
    ensures none { IfNone result ((i c k : ℕ) (name : Seq ℕ) → IsEquationLine line.now i c name k → ⊥) }
{
    let (number, rest) = numbered(line, "equation ")?;
    let (offset, rest) = numbered(rest, " c ")?;
    let (unknown, rest) = named(rest, " pairs ")?;
    let (order, rest) = numbered(rest, " order ")?;
    if !rest.is_empty() {
        return None;
    }
    Some(EquationLine {
        number,
        offset,
        unknown,
        order,
    })
}

/// What the line of an unknown says, without its line feed; None where it is none.
pub fn unknown_line(line: &[u8]) -> Option<UnknownLine<'_>>
    ensures some { IfSome result (λ u. IsUnknownLine line.now u.unknown.now u.highest) }
    ensures only { IfSome result (λ u. IsOnlyUnknownLine line.now u.unknown.now u.highest) }
    ensures none { IfNone result ((name : Seq ℕ) (d : ℕ) → IsUnknownLine line.now name d → ⊥) }
{
    let (unknown, rest) = named(line, "unknown ")?;
    let (highest, rest) = numbered(rest, " d ")?;
    if !rest.is_empty() {
        return None;
    }
    Some(UnknownLine { unknown, highest })
}
