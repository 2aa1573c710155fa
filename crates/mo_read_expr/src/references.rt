//! References, subscripts and names.
ghost use Rattle.std.specs.Prelude.{◌<◌, ◌≤◌, length, IfOk};
ghost use Rattle.mo_grammar.specs.Lexeme.{lexemes};
ghost use Rattle.mo_grammar.specs.Codes.{comma, dot};
ghost use Rattle.mo_grammar.specs.Grammar.{many};
ghost use Rattle.mo_grammar.specs.Forms.{behind};
ghost use Rattle.mo_grammar.specs.Symbols.{References, Subscripts};
ghost use Rattle.mo_grammar.specs.Expressions.{part as part_form, subscript as subscript_form};
ghost use Rattle.mo_grammar.specs.Language.{limits_inside, reads};
ghost use Rattle.mo_grammar.specs.Answers.{Gives, with_rest, reads_inside};

use crate::expressions::expression;
use mo_expr_parts::{joined, part_of};
use mo_grammar::{Reading, flag, is_next, none_yet, past_limit, take};
use mo_syntax::TokenKind::{Ident, Operator};
use mo_syntax::{Expr, List, Part, Reference, Token};
use mo_tables::operators;
use std::alloc::Global;

/// A component reference.
#[cycle(readers)]
#[tactic(auto, using(mo_grammar::proofs::Readers::references_are))]
pub fn reference<'t, 'a>(
    alloc: Global,
    left: u32,
    tokens: &'t [Token<'a>],
) -> Reading<'t, 'a, Reference>
    ensures reads { Gives with_rest result (reads References (limits_inside left) (lexemes tokens.now)) }
    ensures shorter { IfOk result (λ x. length x.1.now < length tokens.now) }
{
    let (top, rest) = flag(tokens, Operator(operators::DOT));
    let (first, rest) = part(alloc, left, rest)?;
    let (more, rest) = further_parts(alloc, left, rest)?;
    let parts = joined(alloc, first, more)?;
    Ok((Reference { top, parts }, rest))
}

/// Identifiers behind dots.
#[cycle(readers)]
fn further_parts<'t, 'a>(
    alloc: Global,
    left: u32,
    tokens: &'t [Token<'a>],
) -> Reading<'t, 'a, List<Part>>
    ensures reads { Gives with_rest result (reads_inside (many (behind dot part_form)) left tokens.now) }
    ensures no_longer { IfOk result (λ x. length x.1.now ≤ length tokens.now) }
{
    let (mut all, mut rest) = none_yet(alloc, tokens);
    'each: while is_next(rest, Operator(operators::DOT)) {
        let (next, behind) = part_behind_dot(alloc, left, rest)?;
        all.push(next)?;
        rest = behind;
    }
    Ok((all, rest))
}

/// A dot and an identifier with its subscripts.
#[cycle(readers)]
fn part_behind_dot<'t, 'a>(
    alloc: Global,
    left: u32,
    tokens: &'t [Token<'a>],
) -> Reading<'t, 'a, Part>
    ensures reads { Gives with_rest result (reads_inside (behind dot part_form) left tokens.now) }
    ensures shorter { IfOk result (λ x. length x.1.now < length tokens.now) }
{
    let (_, rest) = take(tokens, Operator(operators::DOT))?;
    part(alloc, left, rest)
}

/// An identifier with its subscripts.
#[cycle(readers)]
fn part<'t, 'a>(alloc: Global, left: u32, tokens: &'t [Token<'a>]) -> Reading<'t, 'a, Part>
    ensures reads { Gives with_rest result (reads_inside part_form left tokens.now) }
    ensures shorter { IfOk result (λ x. length x.1.now < length tokens.now) }
{
    let (name, rest) = take(tokens, Ident)?;
    if is_next(rest, Operator(operators::OPEN_BRACKET)) {
        let (subs, rest) = subscripts(alloc, left, rest)?;
        Ok((part_of(alloc, &name, subs)?, rest))
    } else {
        Ok((part_of(alloc, &name, List::new(alloc))?, rest))
    }
}

/// Subscripts in their brackets, None for `:`.
#[cycle(readers)]
#[tactic(auto, using(mo_grammar::proofs::Readers::subscripts_are, mo_grammar::proofs::Readers::none_left, mo_grammar::proofs::Readers::some_left))]
pub fn subscripts<'t, 'a>(
    alloc: Global,
    left: u32,
    tokens: &'t [Token<'a>],
) -> Reading<'t, 'a, List<Option<Expr>>>
    ensures reads { Gives with_rest result (reads Subscripts (limits_inside left) (lexemes tokens.now)) }
    ensures shorter { IfOk result (λ x. length x.1.now < length tokens.now) }
{
    if left == 0 {
        return Err(past_limit(tokens, Operator(operators::OPEN_BRACKET)));
    }
    let inner = left - 1;
    let (_, rest) = take(tokens, Operator(operators::OPEN_BRACKET))?;
    let (first, rest) = subscript(alloc, inner, rest)?;
    let (more, rest) = further_subscripts(alloc, inner, rest)?;
    let (_, rest) = take(rest, Operator(operators::CLOSE_BRACKET))?;
    Ok((joined(alloc, first, more)?, rest))
}

/// Subscripts behind commas.
#[cycle(readers)]
fn further_subscripts<'t, 'a>(
    alloc: Global,
    left: u32,
    tokens: &'t [Token<'a>],
) -> Reading<'t, 'a, List<Option<Expr>>>
    ensures reads { Gives with_rest result (reads_inside (many (behind comma subscript_form)) left tokens.now) }
    ensures no_longer { IfOk result (λ x. length x.1.now ≤ length tokens.now) }
{
    let (mut all, mut rest) = none_yet(alloc, tokens);
    'each: while is_next(rest, Operator(operators::COMMA)) {
        let (next, behind) = subscript_behind_comma(alloc, left, rest)?;
        all.push(next)?;
        rest = behind;
    }
    Ok((all, rest))
}

/// A comma and a subscript.
#[cycle(readers)]
fn subscript_behind_comma<'t, 'a>(
    alloc: Global,
    left: u32,
    tokens: &'t [Token<'a>],
) -> Reading<'t, 'a, Option<Expr>>
    ensures reads { Gives with_rest result (reads_inside (behind comma subscript_form) left tokens.now) }
    ensures shorter { IfOk result (λ x. length x.1.now < length tokens.now) }
{
    let (_, rest) = take(tokens, Operator(operators::COMMA))?;
    subscript(alloc, left, rest)
}

/// A subscript, None for `:`.
#[cycle(readers)]
fn subscript<'t, 'a>(
    alloc: Global,
    left: u32,
    tokens: &'t [Token<'a>],
) -> Reading<'t, 'a, Option<Expr>>
    ensures reads { Gives with_rest result (reads_inside subscript_form left tokens.now) }
    ensures shorter { IfOk result (λ x. length x.1.now < length tokens.now) }
{
    if is_next(tokens, Operator(operators::COLON)) {
        let (_, rest) = take(tokens, Operator(operators::COLON))?;
        Ok((None, rest))
    } else {
        let (value, rest) = expression(alloc, left, tokens)?;
        Ok((Some(value), rest))
    }
}
