//! Dimensions and values that may be left out.
ghost use Rattle.std.specs.Prelude.{◌≤◌, length, IfOk};
ghost use Rattle.mo_grammar.specs.Codes.{equals};
ghost use Rattle.mo_grammar.specs.Grammar.{symbol};
ghost use Rattle.mo_grammar.specs.Expressions.{expression_behind};
ghost use Rattle.mo_grammar.specs.Symbols.{Subscripts};
ghost use Rattle.mo_grammar.specs.Forms.{optional};
ghost use Rattle.mo_grammar.specs.Answers.{Gives, with_rest, reads_inside};

use mo_grammar::{Reading, is_next, take};
use mo_read_expr::{expression, subscripts};
use mo_syntax::TokenKind::Operator;
use mo_syntax::{Expr, List, Token};
use mo_tables::operators;
use std::alloc::Global;

/// Dimensions, where they stand there.
pub fn optional_subscripts<'t, 'a>(
    alloc: Global,
    left: u32,
    tokens: &'t [Token<'a>],
) -> Reading<'t, 'a, Option<List<Option<Expr>>>>
    ensures reads { Gives with_rest result (reads_inside (optional (symbol Subscripts)) left tokens.now) }
    ensures no_longer { IfOk result (λ x. length x.1.now ≤ length tokens.now) }
{
    if !is_next(tokens, Operator(operators::OPEN_BRACKET)) {
        return Ok((None, tokens));
    }
    let (subs, rest) = subscripts(alloc, left, tokens)?;
    Ok((Some(subs), rest))
}

/// The value behind `=`, where one stands there.
pub fn optional_value<'t, 'a>(
    alloc: Global,
    left: u32,
    tokens: &'t [Token<'a>],
) -> Reading<'t, 'a, Option<Expr>>
    ensures reads { Gives with_rest result (reads_inside (optional (expression_behind equals)) left tokens.now) }
    ensures no_longer { IfOk result (λ x. length x.1.now ≤ length tokens.now) }
{
    if !is_next(tokens, Operator(operators::EQUALS)) {
        return Ok((None, tokens));
    }
    let (_, rest) = take(tokens, Operator(operators::EQUALS))?;
    let (value, rest) = expression(alloc, left, rest)?;
    Ok((Some(value), rest))
}
