//! What begins with a token, and literals.
ghost use Rattle.std.specs.Prelude.{◌≡◌, ◌<◌, length, IfOk};
ghost use Rattle.mo_grammar.specs.Lexeme.{lexemes};
ghost use Rattle.mo_grammar.specs.Reading.{next_in, Tables};
ghost use Rattle.mo_grammar.specs.Symbols.{Expressions, Arguments};
ghost use Rattle.mo_grammar.specs.Tables.{tables};
ghost use Rattle.mo_grammar.specs.Expressions.{literal as literal_form};
ghost use Rattle.mo_grammar.specs.Answers.{Gives, with_rest, reads_whole};

use crate::marks::{ARGUMENT_STARTS, EXPRESSION_STARTS, LITERALS};
use crate::trees::{expr_at, literal_node};
use mo_grammar::{Reading, is_next_any, take_any};
use mo_syntax::{Expr, Token};
use std::alloc::Global;

/// Whether an expression begins with the next token.
pub fn begins_expression(tokens: &[Token]) -> bool
    ensures { result ≡ next_in (Tables.starts tables Expressions) (lexemes tokens.now) }
{
    is_next_any(tokens, &EXPRESSION_STARTS)
}

/// Whether an argument of a call begins with the next token.
pub fn begins_argument(tokens: &[Token]) -> bool
    ensures { result ≡ next_in (Tables.starts tables Arguments) (lexemes tokens.now) }
{
    is_next_any(tokens, &ARGUMENT_STARTS)
}

/// A literal, or `end`.
pub fn literal<'t, 'a>(alloc: Global, tokens: &'t [Token<'a>]) -> Reading<'t, 'a, Expr>
    ensures reads { Gives with_rest result (reads_whole literal_form tokens.now) }
    ensures shorter { IfOk result (λ x. length x.1.now < length tokens.now) }
{
    let (token, rest) = take_any(tokens, &LITERALS)?;
    let node = literal_node(alloc, &token)?;
    Ok((expr_at(alloc, token.place, node)?, rest))
}
