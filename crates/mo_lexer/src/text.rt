//! The tokens of a whole text.

ghost use Rattle.std.specs.Prelude.{◌≡◌, ◌<◌, ◌^◌, ◌≤◌, List as Seq, length, IfOk};
ghost use Rattle.mo_syntax.specs.Outcome.{IfBroken};
ghost use Rattle.mo_syntax.specs.declared.place.Broken.{Broken as Refusal};
ghost use Rattle.mo_syntax.specs.Lexeme.{Lexeme, lexemes};
ghost use Rattle.mo_lexer.specs.Lexing.{Lexes, IsRefused, after_mark, place_before};

use crate::piece::{Found, piece};
use mo_syntax::{Broken, List, Place, Stop, Token, TokenKind};
use std::alloc::Global;

// The text without the byte order mark that may stand before it.
fn after_mark(text: &str) -> &str
    ensures { result.now ≡ after_mark text.now }
{
    match text.as_bytes() {
        [0xEF, 0xBB, 0xBF, ..] => {
            let (_, rest) = text.split_at(3);
            rest
        }
        _ => text,
    }
}

/// The tokens of a text, closed by one of kind `End`. Each token's text is the slice of its span, and its place is
/// its first byte in the file: `file` as given, the byte from the start of the text, a byte order mark included.
///
/// Breaks rule 5 at an identifier or Integer literal past its limit, rule 4 at a comment, string or quoted identifier
/// that the end of the text cuts, and rule 3 at a byte that may not stand where it does.
pub fn tokens<'a>(alloc: Global, file: u32, text: &'a str) -> Result<List<Token<'a>>, Stop>
    requires { length text.now < 2 ^ 32 }

    // What is answered are the tokens of the text, no other list of tokens is, and the text breaks no rule.
    ensures lexes { IfOk result (λ tokens. Lexes file text.now (lexemes tokens)) }
    ensures only { IfOk result (λ tokens. (more : Seq Lexeme) → Lexes file text.now more → more ≡ lexemes tokens) }
    ensures not_refused { IfOk result (λ _. (broken : Refusal) → IsRefused file text.now broken → ⊥) }

    // A refusal comes exactly where the text has no tokens, with the rule and the place that the definition gives.
    ensures refused { IfBroken result (λ broken. IsRefused file text.now broken) }
    ensures only_refused { IfBroken result (λ broken. (b : Refusal) → IsRefused file text.now b → b ≡ broken) }
    ensures no_tokens { IfBroken result (λ _. (tokens : Seq Lexeme) → Lexes file text.now tokens → ⊥) }
{
    let mut found = List::new(alloc);
    let mut rest = after_mark(text);
    'each: while !rest.is_empty() {
        let place = place_before(file, text, rest);
        match piece(rest.as_bytes()) {
            Found::Separator(len) => {
                let (_, after) = rest.split_at(len);
                rest = after;
            }
            Found::Spelled(kind, len) => {
                let (spelling, after) = rest.split_at(len);
                found.push(Token {
                    kind,
                    text: spelling,
                    place,
                })?;
                rest = after;
            }
            Found::Unfit(rule, at) => {
                let byte = place.byte + at as u32;
                return Err(Stop::Broken(Broken {
                    rule,
                    place: Place { file, byte },
                }));
            }
        }
    }
    let place = place_before(file, text, rest);
    found.push(Token {
        kind: TokenKind::End,
        text: rest,
        place,
    })?;
    Ok(found)
}

// The place where this rest of the text begins.
fn place_before(file: u32, text: &str, rest: &str) -> Place
    requires fits { length text.now < 2 ^ 32 }
    requires within { length rest.now ≤ length text.now }
    ensures { result ≡ place_before file text.now rest.now }
{
    let byte = (text.len() - rest.len()) as u32;
    Place { file, byte }
}
