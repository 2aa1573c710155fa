//! Whether a line has a form of a report's line.
ghost use Rattle.std.specs.Prelude.{◌≡◌, true, false, IsTrue, IfSome, IfNone};
ghost use Rattle.mo_report_lines.specs.Grammar.{IsValue, IsLine, IsReadable, Spells, HasForm, head_forms, offset_forms, square_forms};
ghost use Rattle.mo_report_lines.specs.steps.Reading.{is_no_blank, is_form, fields_in, BeginsOnly, BeginsNever, IsFieldAt, IsNoFieldAt, IsBlockLine};

use crate::bytes::after_word;
use crate::form::{
    DEFICIT, DUMMY, EQUATION, EQUATIONS, FREEDOM, Field, IN, INDEX, Kind, MENTIONS, REASON, REPORT,
    STATE, UNDETERMINED, UNKNOWN,
};
use crate::name::{after_derivative, after_name};
use crate::number::{after_number, after_numbers};

/// What stands behind the value at the front.
fn after_value(text: &[u8], kind: Kind) -> Option<&[u8]>
    ensures some { IfSome result (λ rest. BeginsOnly (IsValue kind) is_no_blank text.now rest.now) }
    ensures none { IfNone result (BeginsNever (IsValue kind) is_no_blank text.now) }
{
    match kind {
        Kind::Nothing => Some(text),
        Kind::Number => after_number(text),
        Kind::Name => after_name(text),
        Kind::Derivative => after_derivative(text),
    }
}

/// What stands behind the field at the front.
fn after_field<'t>(text: &'t [u8], word: &str, kind: Kind) -> Option<&'t [u8]>
    ensures some { IfSome result (λ rest. IsFieldAt word.now kind text.now rest.now) }
    ensures none { IfNone result (IsNoFieldAt word.now kind text.now) }
{
    let start = after_word(text, word)?;
    after_value(start, kind)
}

/// Whether a line has this form.
fn has_form(line: &[u8], form: &[Field]) -> bool
    requires { IsTrue (is_form (fields_in form.now)) }
    ensures yes { result ≡ true → Spells (fields_in form.now) line.now }
    ensures no { result ≡ false → Spells (fields_in form.now) line.now → ⊥ }
{
    let mut rest = line;
    for field in form {
        match after_field(rest, field.word, field.kind) {
            Some(left) => rest = left,
            None => return false,
        }
    }
    rest.is_empty()
}

/// Whether it is a line at the head of a report, or one of a deficit.
fn is_head(line: &[u8]) -> bool
    ensures yes { result ≡ true → HasForm head_forms line.now }
    ensures no { result ≡ false → HasForm head_forms line.now → ⊥ }
{
    if has_form(line, &REPORT) {
        return true;
    }
    if has_form(line, &EQUATIONS) {
        return true;
    }
    if has_form(line, &DEFICIT) {
        return true;
    }
    if has_form(line, &IN) {
        return true;
    }
    if has_form(line, &MENTIONS) {
        return true;
    }
    false
}

/// Whether it is a line of an equation or an unknown.
fn is_of_offsets(line: &[u8]) -> bool
    ensures yes { result ≡ true → HasForm offset_forms line.now }
    ensures no { result ≡ false → HasForm offset_forms line.now → ⊥ }
{
    if has_form(line, &EQUATION) {
        return true;
    }
    if has_form(line, &UNKNOWN) {
        return true;
    }
    if has_form(line, &UNDETERMINED) {
        return true;
    }
    false
}

/// Whether it is a line of a square system, other than a block.
fn is_of_square(line: &[u8]) -> bool
    ensures yes { result ≡ true → HasForm square_forms line.now }
    ensures no { result ≡ false → HasForm square_forms line.now → ⊥ }
{
    if has_form(line, &REASON) {
        return true;
    }
    if has_form(line, &DUMMY) {
        return true;
    }
    if has_form(line, &STATE) {
        return true;
    }
    if has_form(line, &INDEX) {
        return true;
    }
    if has_form(line, &FREEDOM) {
        return true;
    }
    false
}

/// Whether a line lists the equations of a block.
fn is_block(line: &[u8]) -> bool
    ensures yes { result ≡ true → IsBlockLine line.now }
    ensures no { result ≡ false → IsBlockLine line.now → ⊥ }
{
    let Some(text) = after_word(line, "block ") else {
        return false;
    };
    match after_numbers(text, b' ') {
        Some(rest) => rest.is_empty(),
        None => false,
    }
}

/// Whether a line, without its line feed, has a form of a report's line.
fn is_line(text: &[u8]) -> bool
    ensures yes { result ≡ true → IsLine text.now }
    ensures no { result ≡ false → IsLine text.now → ⊥ }
{
    if is_of_offsets(text) {
        return true;
    }
    if is_of_square(text) {
        return true;
    }
    if is_block(text) {
        return true;
    }
    is_head(text)
}

/// Whether a line ends with a line feed and has a form of a report's line.
pub(crate) fn is_readable(line: &[u8]) -> bool
    ensures yes { result ≡ true → IsReadable line.now }
    ensures no { result ≡ false → IsReadable line.now → ⊥ }
{
    match line {
        [text @ .., b'\n'] => is_line(text),
        _ => false,
    }
}
