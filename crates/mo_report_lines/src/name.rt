//! Names of identifiers with dots and indices, and derivatives of them.
ghost use Rattle.std.specs.Prelude.{◌≡◌, ◌<◌, ◌++◌, ℕ, List as Seq, length, slice_index, true, codes, IsTrue, IfSome, IfNone};
ghost use Rattle.mo_syntax.specs.declared.token.TokenKind.TheVariants.{Ident};
ghost use Rattle.mo_lexer.specs.Bytes.{is_word_byte, is_letter};
ghost use Rattle.mo_lexer.specs.Spelling.{Spells};
ghost use Rattle.mo_report_lines.specs.Grammar.{IsPart, IsName, IsDerivative};
ghost use Rattle.mo_report_lines.specs.steps.Reading.{stops, in_part, in_name, closed, OpensTo, AreIndices, IsContentsEnd, BeginsOnly, BeginsNever};

use crate::bytes::{after_word, begins_with};
use crate::number::after_numbers;
use mo_lexer::{is_escaped, is_letter, is_quotable, word_len};
use mo_tables::keyword;

/// How many bytes from the front on may stand between quotes.
fn contents_len(text: &[u8]) -> usize
    ensures { IsContentsEnd text.now result }
{
    let mut at = 0;
    'contents: while at < text.len() {
        if is_quotable(text[at]) {
            at += 1;
        } else if text[at] == b'\\' && at + 1 < text.len() && is_escaped(text[at + 1]) {
            at += 2;
        } else {
            break;
        }
    }
    at
}

/// What stands behind the word at the front, None where it is reserved.
fn after_plain(text: &[u8]) -> Option<&[u8]>
    requires some { 0 < length text.now }
    requires first { IsTrue (is_letter (slice_index text.now 0)) }
    ensures some { IfSome result (λ rest. BeginsOnly (Spells Ident) is_word_byte text.now rest.now) }
    ensures none { IfNone result (BeginsNever (Spells Ident) is_word_byte text.now) }
{
    let len = word_len(text);
    match keyword(&text[..len]) {
        Some(_) => None,
        None => Some(&text[len..]),
    }
}

/// What stands behind the quoted identifier at the front.
fn after_quoted(text: &[u8]) -> Option<&[u8]>
    requires some { 0 < length text.now }
    requires first { slice_index text.now 0 ≡ 39 }
    ensures some { IfSome result (λ rest. BeginsOnly (Spells Ident) is_word_byte text.now rest.now) }
    ensures none { IfNone result (BeginsNever (Spells Ident) is_word_byte text.now) }
{
    let len = contents_len(&text[1..]);
    if len == 0 {
        return None;
    }
    if len + 1 == text.len() {
        return None;
    }
    if text[len + 1] != b'\'' {
        return None;
    }
    Some(&text[len + 2..])
}

/// What stands behind the identifier at the front.
fn after_identifier(text: &[u8]) -> Option<&[u8]>
    ensures some { IfSome result (λ rest. BeginsOnly (Spells Ident) is_word_byte text.now rest.now) }
    ensures none { IfNone result (BeginsNever (Spells Ident) is_word_byte text.now) }
{
    if text.is_empty() {
        return None;
    }
    if is_letter(text[0]) {
        return after_plain(text);
    }
    if text[0] != b'\'' {
        return None;
    }
    after_quoted(text)
}

/// What stands behind the indices at the front.
fn after_indices(text: &[u8]) -> Option<&[u8]>
    requires some { 0 < length text.now }
    requires first { slice_index text.now 0 ≡ 91 }
    ensures some { IfSome result (λ rest. BeginsOnly AreIndices in_part text.now rest.now) }
    ensures none { IfNone result (BeginsNever AreIndices in_part text.now) }
{
    let rest = after_numbers(&text[1..], b',')?;
    if begins_with(rest, b']') {
        Some(&rest[1..])
    } else {
        None
    }
}

/// What stands behind the identifier at the front and the indices behind it, if there are any.
fn after_part(text: &[u8]) -> Option<&[u8]>
    ensures some { IfSome result (λ rest. BeginsOnly IsPart in_part text.now rest.now) }
    ensures none { IfNone result (BeginsNever IsPart in_part text.now) }
    ensures shorter { IfSome result (λ rest. length rest.now < length text.now) }
{
    let rest = after_identifier(text)?;
    if begins_with(rest, b'[') {
        after_indices(rest)
    } else {
        Some(rest)
    }
}

/// What stands behind the name at the front.
pub(crate) fn after_name(text: &[u8]) -> Option<&[u8]>
    ensures some { IfSome result (λ rest. BeginsOnly IsName in_name text.now rest.now) }
    ensures none { IfNone result (BeginsNever IsName in_name text.now) }
{
    let mut rest = after_part(text)?;
    'parts: while begins_with(rest, b'.') {
        rest = after_part(&rest[1..])?;
    }
    Some(rest)
}

/// How many derivatives are opened at the front, and what stands behind.
fn opened(text: &[u8]) -> (usize, &[u8])
    ensures to { (other : Seq ℕ) → stops in_name other ≡ true → OpensTo text.now other 0 → OpensTo result.1.now other result.0 }
    ensures back { (other : Seq ℕ) → OpensTo result.1.now other result.0 → OpensTo text.now other 0 }
    ensures end { (inner : Seq ℕ) → result.1.now ≡ codes "der(" ++ inner → ⊥ }
{
    let mut depth = 0;
    let mut rest = text;
    'opened: while let Some(inner) = after_word(rest, "der(") {
        depth += 1;
        rest = inner;
    }
    (depth, rest)
}

/// What stands behind that many closing parentheses.
fn after_closed(text: &[u8], depth: usize) -> Option<&[u8]>
    ensures some { IfSome result (λ rest. text.now ≡ closed depth rest.now) }
    ensures none { IfNone result ((rest : Seq ℕ) → text.now ≡ closed depth rest → ⊥) }
{
    let mut rest = text;
    for _closed in 0..depth {
        if !begins_with(rest, b')') {
            return None;
        }
        rest = &rest[1..];
    }
    Some(rest)
}

/// What stands behind the derivative at the front.
pub(crate) fn after_derivative(text: &[u8]) -> Option<&[u8]>
    ensures some { IfSome result (λ rest. BeginsOnly IsDerivative in_name text.now rest.now) }
    ensures none { IfNone result (BeginsNever IsDerivative in_name text.now) }
{
    let (depth, inner) = opened(text);
    let rest = after_name(inner)?;
    after_closed(rest, depth)
}
