//! Operators and separators in pieces.
ghost use Rattle.std.specs.Prelude.{◌≡◌, [], ◌∷◌, ◌++◌, codes, if◌then◌else◌, OnOk};
ghost use Rattle.mo_pieces.specs.Pieces.{a_mark, a_word};
ghost use Rattle.mo_pieces.specs.Gathered.{gathered};
ghost use Rattle.mo_pieces.specs.ShownExpressions.{a_comma, a_semicolon, branch_word, power_mark, relation_mark, sign_before, sign_mark, spaced, times_before, times_mark, comma_where};

use crate::piece::Pieces;
use mo_syntax::{NoMemory, RelOp};

/// Puts a reserved word with a blank on each side at the end.
pub fn spaced_word<'t>(out: &mut Pieces<'t>, text: &'t str) -> Result<(), NoMemory>
    ensures { OnOk result (gathered out.new ≡ gathered out.old ++ spaced (a_word text.now)) }
{
    out.blank()?;
    out.word(text)?;
    out.blank()
}

/// Puts an operator or mark with a blank on each side at the end.
pub fn spaced_mark<'t>(out: &mut Pieces<'t>, text: &'t str) -> Result<(), NoMemory>
    ensures { OnOk result (gathered out.new ≡ gathered out.old ++ spaced (a_mark text.now)) }
{
    out.blank()?;
    out.mark(text)?;
    out.blank()
}

/// Puts a comma at the end, nothing before the first part of a list.
pub fn separate(out: &mut Pieces<'_>, first: bool) -> Result<(), NoMemory>
    ensures { OnOk result (gathered out.new ≡ gathered out.old ++ (if first then [] else a_comma)) }
{
    if first {
        return Ok(());
    }
    out.mark(",")?;
    out.blank()
}

/// Puts a comma between two lists at the end, nothing where one of them is empty.
pub fn comma_between(
    out: &mut Pieces<'_>,
    first_empty: bool,
    second_empty: bool,
) -> Result<(), NoMemory>
    ensures { OnOk result (gathered out.new ≡ gathered out.old ++ comma_where first_empty second_empty) }
{
    if first_empty {
        return Ok(());
    }
    separate(out, second_empty)
}

/// Puts a semicolon at the end, nothing before the first row of a matrix.
pub fn separate_rows(out: &mut Pieces<'_>, first: bool) -> Result<(), NoMemory>
    ensures { OnOk result (gathered out.new ≡ gathered out.old ++ (if first then [] else a_semicolon)) }
{
    if first {
        return Ok(());
    }
    out.mark(";")?;
    out.blank()
}

/// Puts a reserved word between two operands of a chain at the end, nothing before the first.
pub fn word_between<'t>(out: &mut Pieces<'t>, first: bool, word: &'t str) -> Result<(), NoMemory>
    ensures { OnOk result (gathered out.new ≡ gathered out.old ++ (if first then [] else spaced (a_word word.now))) }
{
    if first {
        return Ok(());
    }
    spaced_word(out, word)
}

/// Puts a dot between two parts of a name at the end, nothing before the first.
pub fn dot_between(out: &mut Pieces<'_>, first: bool) -> Result<(), NoMemory>
    ensures { OnOk result (gathered out.new ≡ gathered out.old ++ (if first then [] else a_mark (codes ".") ∷ [])) }
{
    if first {
        return Ok(());
    }
    out.mark(".")
}

/// Puts a dot at the end where one is wanted.
pub fn dot_where(out: &mut Pieces<'_>, wanted: bool) -> Result<(), NoMemory>
    ensures { OnOk result (gathered out.new ≡ gathered out.old ++ (if wanted then a_mark (codes ".") ∷ [] else [])) }
{
    if wanted {
        return out.mark(".");
    }
    Ok(())
}

/// The sign of a term.
fn mark_of_sign(minus: bool, dotted: bool) -> &'static str
    ensures { result.now ≡ sign_mark minus dotted }
{
    match (minus, dotted) {
        (true, true) => ".-",
        (true, false) => "-",
        (false, true) => ".+",
        (false, false) => "+",
    }
}

/// Puts the sign of a term at the end; a first term has one only where it is subtracted.
pub fn write_sign(
    out: &mut Pieces<'_>,
    first: bool,
    minus: bool,
    dotted: bool,
) -> Result<(), NoMemory>
    ensures { OnOk result (gathered out.new ≡ gathered out.old ++ sign_before first minus dotted) }
{
    if !first {
        return spaced_mark(out, mark_of_sign(minus, dotted));
    }
    if minus {
        return out.mark(mark_of_sign(true, dotted));
    }
    Ok(())
}

/// The operator of a factor.
fn mark_of_times(divide: bool, dotted: bool) -> &'static str
    ensures { result.now ≡ times_mark divide dotted }
{
    match (divide, dotted) {
        (true, true) => "./",
        (true, false) => "/",
        (false, true) => ".*",
        (false, false) => "*",
    }
}

/// Puts the operator of a factor at the end, nothing before the first factor.
pub fn write_times(
    out: &mut Pieces<'_>,
    first: bool,
    divide: bool,
    dotted: bool,
) -> Result<(), NoMemory>
    ensures { OnOk result (gathered out.new ≡ gathered out.old ++ times_before first divide dotted) }
{
    if first {
        return Ok(());
    }
    if dotted {
        return spaced_mark(out, mark_of_times(divide, dotted));
    }
    out.mark(mark_of_times(divide, dotted))
}

/// Puts the operator of a power at the end.
pub fn write_power_mark(out: &mut Pieces<'_>, dotted: bool) -> Result<(), NoMemory>
    ensures { OnOk result (gathered out.new ≡ gathered out.old ++ power_mark dotted) }
{
    if dotted {
        return spaced_mark(out, ".^");
    }
    out.mark("^")
}

/// The operator of a relation.
pub fn mark_of_relation(op: RelOp) -> &'static str
    ensures { result.now ≡ relation_mark op }
{
    match op {
        RelOp::Less => "<",
        RelOp::LessEqual => "<=",
        RelOp::Greater => ">",
        RelOp::GreaterEqual => ">=",
        RelOp::Equal => "==",
        RelOp::NotEqual => "<>",
    }
}

/// Puts what begins a branch of an if-expression at the end.
pub fn write_branch_word(out: &mut Pieces<'_>, first: bool) -> Result<(), NoMemory>
    ensures { OnOk result (gathered out.new ≡ gathered out.old ++ branch_word first) }
{
    if first {
        out.word("if")?;
        return out.blank();
    }
    spaced_word(out, "elseif")
}
