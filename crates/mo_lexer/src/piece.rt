//! The piece at the front of what is left of a text: a blank, a comment, or the spelling of a token.

ghost use Rattle.std.specs.Prelude.{◌≡◌, ◌<◌, ◌≤◌, IsTrue, IfSome, IfNone, length, slice_index, take, false};
ghost use Rattle.mo_tables.specs.Words.{code_in, operators};
ghost use Rattle.mo_lexer.specs.Bytes.{is_blank, is_letter};
ghost use Rattle.mo_lexer.specs.Lexing.{opens_block};
ghost use Rattle.mo_lexer.specs.steps.Finding.{Finds, is_mark, begins_number, opens_line};

use crate::bytes::{is_blank, is_digit, is_letter, line_len, word_len};
use crate::contents::{Quotes, close_at, contents_len};
use crate::number::number;
use mo_syntax::{Rule, TokenKind, rules};
use mo_tables::{keyword, operator};

// The most bytes that an identifier may have, its quotes included.
const IDENTIFIER_MAX: usize = 256;

// The fewest bytes that may stand in single quotes.
const QUOTED_MIN: usize = 1;

/// What stands at the front of what is left of a text.
#[derive(Drop)]
pub(crate) enum Found {
    /// A blank or a comment, of so many bytes.
    Separator(usize),
    /// A token, of so many bytes.
    Spelled(TokenKind, usize),
    /// No piece: the rule that is broken, and how many bytes after the front.
    Unfit(Rule, usize),
}

/// The piece at the front.
pub(crate) fn piece(rest: &[u8]) -> Found
    requires { 0 < length rest.now }
    ensures { Finds rest.now result }
{
    let first = rest[0];
    if is_blank(first) {
        Found::Separator(1)
    } else if is_letter(first) {
        word(rest)
    } else if is_digit(first) {
        number(rest)
    } else if first == b'\'' {
        quoted(rest)
    } else if first == b'"' {
        string(rest)
    } else {
        mark(rest)
    }
}

// The reserved word or identifier at the front.
fn word(rest: &[u8]) -> Found
    requires { IsTrue (is_letter (slice_index rest.now 0)) }
    ensures { Finds rest.now result }
{
    let len = word_len(rest);
    match keyword(&rest[..len]) {
        Some(code) => Found::Spelled(TokenKind::Keyword(code), len),
        None if len > IDENTIFIER_MAX => Found::Unfit(Rule::new(rules::LITERAL_TOO_WIDE), 0),
        None => Found::Spelled(TokenKind::Ident, len),
    }
}

// The quoted identifier at the front.
fn quoted(rest: &[u8]) -> Found
    requires some { 0 < length rest.now }
    requires first { slice_index rest.now 0 ≡ 39 }
    ensures { Finds rest.now result }
{
    let body = contents_len(Quotes::Single, &rest[1..]);
    let close = 1 + body;
    if close == rest.len() {
        Found::Unfit(Rule::new(rules::TEXT_WITHOUT_END), 0)
    } else if rest[close] != b'\'' || body < QUOTED_MIN {
        Found::Unfit(Rule::new(rules::BAD_CHARACTER), close)
    } else if close >= IDENTIFIER_MAX {
        Found::Unfit(Rule::new(rules::LITERAL_TOO_WIDE), 0)
    } else {
        Found::Spelled(TokenKind::Ident, close + 1)
    }
}

// The string at the front.
fn string(rest: &[u8]) -> Found
    requires some { 0 < length rest.now }
    requires first { slice_index rest.now 0 ≡ 34 }
    ensures { Finds rest.now result }
{
    let close = 1 + contents_len(Quotes::Double, &rest[1..]);
    if close == rest.len() {
        Found::Unfit(Rule::new(rules::TEXT_WITHOUT_END), 0)
    } else if rest[close] != b'"' {
        Found::Unfit(Rule::new(rules::BAD_CHARACTER), close)
    } else {
        Found::Spelled(TokenKind::Str, close + 1)
    }
}

// The comment, the number that begins with its point, or the operator at the front.
fn mark(rest: &[u8]) -> Found
    requires some { 0 < length rest.now }
    requires first { IsTrue (is_mark (slice_index rest.now 0)) }
    ensures { Finds rest.now result }
{
    match rest {
        [b'/', b'/', ..] => line(rest),
        [b'/', b'*', ..] => block(rest),
        [b'.', digit, ..] if is_digit(*digit) => number(rest),
        _ => lone_mark(rest),
    }
}

// The comment from `//` on.
fn line(rest: &[u8]) -> Found
    requires { IsTrue (opens_line rest.now) }
    ensures { Finds rest.now result }
{
    Found::Separator(2 + line_len(&rest[2..]))
}

// The comment from `/*` on.
fn block(rest: &[u8]) -> Found
    requires { IsTrue (opens_block rest.now) }
    ensures { Finds rest.now result }
{
    match close_at(&rest[2..]) {
        Some(body) => Found::Separator(2 + body + 2),
        None => Found::Unfit(Rule::new(rules::TEXT_WITHOUT_END), 0),
    }
}

// The operator of two bytes at the front.
fn pair(rest: &[u8]) -> Option<u16>
    ensures found { IfSome result (λ code. (2 ≤ length rest.now) × (code_in operators (take 2 rest.now) ≡ Some code)) }
    ensures none { IfNone result (1 < length rest.now → code_in operators (take 2 rest.now) ≡ None) }
{
    match rest {
        [_, _, ..] => operator(&rest[..2]),
        _ => None,
    }
}

// The operator at the front, of two bytes or one.
fn lone_mark(rest: &[u8]) -> Found
    requires some { 0 < length rest.now }
    requires first { IsTrue (is_mark (slice_index rest.now 0)) }
    requires no_number { begins_number rest.now ≡ false }
    requires no_line { opens_line rest.now ≡ false }
    requires no_block { opens_block rest.now ≡ false }
    ensures { Finds rest.now result }
{
    if let Some(code) = pair(rest) {
        return Found::Spelled(TokenKind::Operator(code), 2);
    }
    match operator(&rest[..1]) {
        Some(code) => Found::Spelled(TokenKind::Operator(code), 1),
        None => Found::Unfit(Rule::new(rules::BAD_CHARACTER), 0),
    }
}
