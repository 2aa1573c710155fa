//! Primaries: literals, calls, and what stands in parentheses, brackets and braces.
ghost use Rattle.std.specs.Prelude.{◌<◌, ◌≤◌, length, IfOk};
ghost use Rattle.mo_grammar.specs.Lexeme.{lexemes};
ghost use Rattle.mo_grammar.specs.Codes.{comma, semicolon};
ghost use Rattle.mo_grammar.specs.Grammar.{seq, many, made, placed, symbol};
ghost use Rattle.mo_grammar.specs.Forms.{behind, optional, separated};
ghost use Rattle.mo_grammar.specs.Trees.{reference_tree};
ghost use Rattle.mo_grammar.specs.Symbols.{Expressions, Primaries, References, CallArguments};
ghost use Rattle.mo_grammar.specs.Expressions.{word_call as word_call_form, output_list as output_list_form, outputs as outputs_form, matrix as matrix_form, exprs, array as array_form, array_args as array_args_form};
ghost use Rattle.mo_grammar.specs.Language.{limits_inside, reads};
ghost use Rattle.mo_grammar.specs.Answers.{Gives, with_rest, reads_inside};

use crate::arguments::{call_arguments, indices_behind_for};
use crate::expressions::{expression, expression_behind, optional_expression};
use crate::references::reference;
use mo_expr_parts::marks::{CALLED_WORDS, LITERALS, REFERENCE_STARTS};
use mo_expr_parts::{InBraces, array_of, callee_of, expr_at, joined, literal, outputs_of};
use mo_grammar::{Reading, is_next, is_next_any, none_yet, past_limit, place_of, take, take_any};
use mo_syntax::TokenKind::{Keyword, Operator};
use mo_syntax::{Callee, Expr, List, Node, Token};
use mo_tables::{keywords, operators};
use std::alloc::Global;

/// A literal, a reference, a call, or what stands in parentheses, brackets or braces.
#[cycle(readers)]
#[tactic(auto, using(mo_grammar::proofs::Readers::primaries_are))]
pub(crate) fn primary<'t, 'a>(
    alloc: Global,
    left: u32,
    tokens: &'t [Token<'a>],
) -> Reading<'t, 'a, Expr>
    ensures reads { Gives with_rest result (reads Primaries (limits_inside left) (lexemes tokens.now)) }
    ensures shorter { IfOk result (λ x. length x.1.now < length tokens.now) }
{
    if is_next_any(tokens, &LITERALS) {
        literal(alloc, tokens)
    } else if is_next_any(tokens, &CALLED_WORDS) {
        word_call(alloc, left, tokens)
    } else if is_next_any(tokens, &REFERENCE_STARTS) {
        reference_or_call(alloc, left, tokens)
    } else if is_next(tokens, Operator(operators::OPEN_PAREN)) {
        output_list(alloc, left, tokens)
    } else if is_next(tokens, Operator(operators::OPEN_BRACKET)) {
        matrix(alloc, left, tokens)
    } else {
        array(alloc, left, tokens)
    }
}

/// A call of `der`, `initial` or `pure`.
#[cycle(readers)]
fn word_call<'t, 'a>(alloc: Global, left: u32, tokens: &'t [Token<'a>]) -> Reading<'t, 'a, Expr>
    ensures reads { Gives with_rest result (reads_inside word_call_form left tokens.now) }
    ensures shorter { IfOk result (λ x. length x.1.now < length tokens.now) }
{
    let (word, rest) = take_any(tokens, &CALLED_WORDS)?;
    let (args, rest) = call_arguments(alloc, left, rest)?;
    let node = Node::Call(callee_of(&word), args);
    Ok((expr_at(alloc, word.place, node)?, rest))
}

/// A reference, or a call of what it names.
#[cycle(readers)]
fn reference_or_call<'t, 'a>(
    alloc: Global,
    left: u32,
    tokens: &'t [Token<'a>],
) -> Reading<'t, 'a, Expr>
    ensures reads { Gives with_rest result (reads_inside (made reference_tree (placed (seq (symbol References) (optional (symbol CallArguments))))) left tokens.now) }
    ensures shorter { IfOk result (λ x. length x.1.now < length tokens.now) }
{
    let place = place_of(tokens);
    let (name, rest) = reference(alloc, left, tokens)?;
    if is_next(rest, Operator(operators::OPEN_PAREN)) {
        let (args, rest) = call_arguments(alloc, left, rest)?;
        Ok((
            expr_at(alloc, place, Node::Call(Callee::Named(name), args))?,
            rest,
        ))
    } else {
        Ok((expr_at(alloc, place, Node::Ref(name))?, rest))
    }
}

/// An expression or outputs in parentheses.
#[cycle(readers)]
#[tactic(auto, using(mo_grammar::proofs::Readers::none_left, mo_grammar::proofs::Readers::some_left))]
fn output_list<'t, 'a>(alloc: Global, left: u32, tokens: &'t [Token<'a>]) -> Reading<'t, 'a, Expr>
    ensures reads { Gives with_rest result (reads_inside output_list_form left tokens.now) }
    ensures shorter { IfOk result (λ x. length x.1.now < length tokens.now) }
{
    if left == 0 {
        return Err(past_limit(tokens, Operator(operators::OPEN_PAREN)));
    }
    let inner = left - 1;
    let (_, rest) = take(tokens, Operator(operators::OPEN_PAREN))?;
    let (all, rest) = outputs(alloc, inner, rest)?;
    let (_, rest) = take(rest, Operator(operators::CLOSE_PAREN))?;
    Ok((outputs_of(alloc, place_of(tokens), all)?, rest))
}

/// The outputs that may stand in parentheses, None where one is left out. They may take no token.
#[cycle(readers)]
pub fn outputs<'t, 'a>(
    alloc: Global,
    left: u32,
    tokens: &'t [Token<'a>],
) -> Reading<'t, 'a, List<Option<Expr>>>
    ensures reads { Gives with_rest result (reads_inside outputs_form left tokens.now) }
    ensures no_longer { IfOk result (λ x. length x.1.now ≤ length tokens.now) }
{
    let (first, rest) = optional_expression(alloc, left, tokens)?;
    let (more, rest) = further_outputs(alloc, left, rest)?;
    Ok((joined(alloc, first, more)?, rest))
}

/// Outputs behind commas.
#[cycle(readers)]
fn further_outputs<'t, 'a>(
    alloc: Global,
    left: u32,
    tokens: &'t [Token<'a>],
) -> Reading<'t, 'a, List<Option<Expr>>>
    ensures reads { Gives with_rest result (reads_inside (many (behind comma (optional (symbol Expressions)))) left tokens.now) }
    ensures no_longer { IfOk result (λ x. length x.1.now ≤ length tokens.now) }
{
    let (mut all, mut rest) = none_yet(alloc, tokens);
    'each: while is_next(rest, Operator(operators::COMMA)) {
        let (next, behind) = output_behind_comma(alloc, left, rest)?;
        all.push(next)?;
        rest = behind;
    }
    Ok((all, rest))
}

/// A comma and an output, which may be left out.
#[cycle(readers)]
fn output_behind_comma<'t, 'a>(
    alloc: Global,
    left: u32,
    tokens: &'t [Token<'a>],
) -> Reading<'t, 'a, Option<Expr>>
    ensures reads { Gives with_rest result (reads_inside (behind comma (optional (symbol Expressions))) left tokens.now) }
    ensures shorter { IfOk result (λ x. length x.1.now < length tokens.now) }
{
    let (_, rest) = take(tokens, Operator(operators::COMMA))?;
    optional_expression(alloc, left, rest)
}

/// The rows of a matrix, in brackets.
#[cycle(readers)]
#[tactic(auto, using(mo_grammar::proofs::Readers::none_left, mo_grammar::proofs::Readers::some_left))]
fn matrix<'t, 'a>(alloc: Global, left: u32, tokens: &'t [Token<'a>]) -> Reading<'t, 'a, Expr>
    ensures reads { Gives with_rest result (reads_inside matrix_form left tokens.now) }
    ensures shorter { IfOk result (λ x. length x.1.now < length tokens.now) }
{
    if left == 0 {
        return Err(past_limit(tokens, Operator(operators::OPEN_BRACKET)));
    }
    let inner = left - 1;
    let (_, rest) = take(tokens, Operator(operators::OPEN_BRACKET))?;
    let (rows, rest) = rows(alloc, inner, rest)?;
    let (_, rest) = take(rest, Operator(operators::CLOSE_BRACKET))?;
    Ok((expr_at(alloc, place_of(tokens), Node::Matrix(rows))?, rest))
}

/// Rows between semicolons.
#[cycle(readers)]
fn rows<'t, 'a>(
    alloc: Global,
    left: u32,
    tokens: &'t [Token<'a>],
) -> Reading<'t, 'a, List<List<Expr>>>
    ensures reads { Gives with_rest result (reads_inside (separated semicolon exprs) left tokens.now) }
    ensures shorter { IfOk result (λ x. length x.1.now < length tokens.now) }
{
    let (first, rest) = expressions(alloc, left, tokens)?;
    let (more, rest) = further_rows(alloc, left, rest)?;
    Ok((joined(alloc, first, more)?, rest))
}

/// Rows behind semicolons.
#[cycle(readers)]
fn further_rows<'t, 'a>(
    alloc: Global,
    left: u32,
    tokens: &'t [Token<'a>],
) -> Reading<'t, 'a, List<List<Expr>>>
    ensures reads { Gives with_rest result (reads_inside (many (behind semicolon exprs)) left tokens.now) }
    ensures no_longer { IfOk result (λ x. length x.1.now ≤ length tokens.now) }
{
    let (mut all, mut rest) = none_yet(alloc, tokens);
    'each: while is_next(rest, Operator(operators::SEMICOLON)) {
        let (next, behind) = row_behind_semicolon(alloc, left, rest)?;
        all.push(next)?;
        rest = behind;
    }
    Ok((all, rest))
}

/// A semicolon and a row.
#[cycle(readers)]
fn row_behind_semicolon<'t, 'a>(
    alloc: Global,
    left: u32,
    tokens: &'t [Token<'a>],
) -> Reading<'t, 'a, List<Expr>>
    ensures reads { Gives with_rest result (reads_inside (behind semicolon exprs) left tokens.now) }
    ensures shorter { IfOk result (λ x. length x.1.now < length tokens.now) }
{
    let (_, rest) = take(tokens, Operator(operators::SEMICOLON))?;
    expressions(alloc, left, rest)
}

/// Expressions between commas.
#[cycle(readers)]
fn expressions<'t, 'a>(
    alloc: Global,
    left: u32,
    tokens: &'t [Token<'a>],
) -> Reading<'t, 'a, List<Expr>>
    ensures reads { Gives with_rest result (reads_inside exprs left tokens.now) }
    ensures shorter { IfOk result (λ x. length x.1.now < length tokens.now) }
{
    let (first, rest) = expression(alloc, left, tokens)?;
    let (more, rest) = further_expressions(alloc, left, rest)?;
    Ok((joined(alloc, first, more)?, rest))
}

/// Expressions behind commas.
#[cycle(readers)]
fn further_expressions<'t, 'a>(
    alloc: Global,
    left: u32,
    tokens: &'t [Token<'a>],
) -> Reading<'t, 'a, List<Expr>>
    ensures reads { Gives with_rest result (reads_inside (many (behind comma (symbol Expressions))) left tokens.now) }
    ensures no_longer { IfOk result (λ x. length x.1.now ≤ length tokens.now) }
{
    let (mut all, mut rest) = none_yet(alloc, tokens);
    'each: while is_next(rest, Operator(operators::COMMA)) {
        let (next, behind) = expression_behind(alloc, left, rest, Operator(operators::COMMA))?;
        all.push(next)?;
        rest = behind;
    }
    Ok((all, rest))
}

/// The elements of an array, or one with iterators, in braces.
#[cycle(readers)]
#[tactic(auto, using(mo_grammar::proofs::Readers::none_left, mo_grammar::proofs::Readers::some_left))]
fn array<'t, 'a>(alloc: Global, left: u32, tokens: &'t [Token<'a>]) -> Reading<'t, 'a, Expr>
    ensures reads { Gives with_rest result (reads_inside array_form left tokens.now) }
    ensures shorter { IfOk result (λ x. length x.1.now < length tokens.now) }
{
    if left == 0 {
        return Err(past_limit(tokens, Operator(operators::OPEN_BRACE)));
    }
    let inner = left - 1;
    let (_, rest) = take(tokens, Operator(operators::OPEN_BRACE))?;
    let ((first, more), rest) = array_arguments(alloc, inner, rest)?;
    let (_, rest) = take(rest, Operator(operators::CLOSE_BRACE))?;
    Ok((array_of(alloc, place_of(tokens), first, more)?, rest))
}

/// An expression, and the iteration variables or the elements behind it.
#[cycle(readers)]
fn array_arguments<'t, 'a>(
    alloc: Global,
    left: u32,
    tokens: &'t [Token<'a>],
) -> Reading<'t, 'a, (Expr, InBraces)>
    ensures reads { Gives with_rest result (reads_inside array_args_form left tokens.now) }
    ensures shorter { IfOk result (λ x. length x.1.now < length tokens.now) }
{
    let (first, rest) = expression(alloc, left, tokens)?;
    if is_next(rest, Keyword(keywords::FOR)) {
        let (iterators, rest) = indices_behind_for(alloc, left, rest)?;
        Ok(((first, (Some(iterators), List::new(alloc))), rest))
    } else {
        let (more, rest) = further_expressions(alloc, left, rest)?;
        Ok(((first, (None, more)), rest))
    }
}
