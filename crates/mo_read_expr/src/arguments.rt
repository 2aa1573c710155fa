//! Arguments of calls, and iteration variables.
ghost use Rattle.std.specs.Prelude.{◌<◌, ◌≤◌, length, IfOk};
ghost use Rattle.mo_grammar.specs.Lexeme.{lexemes};
ghost use Rattle.mo_grammar.specs.Codes.{comma, equals, open_paren, close_paren, for_word};
ghost use Rattle.mo_grammar.specs.Grammar.{seq, either, made, many, symbol};
ghost use Rattle.mo_grammar.specs.Forms.{behind, between, optional};
ghost use Rattle.mo_grammar.specs.Symbols.{Expressions, CallArguments, Arguments, MoreArguments, OneArgument, Indices};
ghost use Rattle.mo_grammar.specs.Trees.{args_from, args_given, following_iters, following_more, given_more};
ghost use Rattle.mo_grammar.specs.Expressions.{function_argument as function_argument_form, named as named_form, named_list as named_list_form, index as index_form};
ghost use Rattle.mo_grammar.specs.Language.{limits_inside, reads};
ghost use Rattle.mo_grammar.specs.Answers.{Gives, with_rest, reads_inside};

use crate::expressions::{expression, expression_behind};
use mo_expr_parts::{
    Given, args_of, begins_argument, index_of, iterated, joined, named_list_of, named_of,
    named_only, no_arguments, partial, type_specifier,
};
use mo_grammar::{Reading, are_next, is_next, none_yet, past_limit, take};
use mo_syntax::TokenKind::{Ident, Keyword, Operator};
use mo_syntax::{Arg, Args, Index, List, Text, Token};
use mo_tables::{keywords, operators};
use std::alloc::Global;

/// The arguments of a call, in their parentheses.
#[cycle(readers)]
#[tactic(auto, using(mo_grammar::proofs::Readers::call_arguments_are, mo_grammar::proofs::Readers::none_left, mo_grammar::proofs::Readers::some_left))]
pub fn call_arguments<'t, 'a>(
    alloc: Global,
    left: u32,
    tokens: &'t [Token<'a>],
) -> Reading<'t, 'a, Args>
    ensures reads { Gives with_rest result (reads CallArguments (limits_inside left) (lexemes tokens.now)) }
    ensures shorter { IfOk result (λ x. length x.1.now < length tokens.now) }
{
    if left == 0 {
        return Err(past_limit(tokens, Operator(operators::OPEN_PAREN)));
    }
    let inner = left - 1;
    let (_, rest) = take(tokens, Operator(operators::OPEN_PAREN))?;
    if begins_argument(rest) {
        let (args, rest) = arguments(alloc, inner, rest)?;
        let (_, rest) = take(rest, Operator(operators::CLOSE_PAREN))?;
        Ok((args, rest))
    } else {
        let (_, rest) = take(rest, Operator(operators::CLOSE_PAREN))?;
        Ok((no_arguments(alloc), rest))
    }
}

/// Arguments: an expression with iterators, or plain arguments and named ones behind them.
#[cycle(readers)]
#[tactic(auto, using(mo_grammar::proofs::Readers::arguments_are))]
fn arguments<'t, 'a>(alloc: Global, left: u32, tokens: &'t [Token<'a>]) -> Reading<'t, 'a, Args>
    ensures reads { Gives with_rest result (reads Arguments (limits_inside left) (lexemes tokens.now)) }
    ensures shorter { IfOk result (λ x. length x.1.now < length tokens.now) }
{
    if are_next(tokens, Ident, &[Operator(operators::EQUALS)]) {
        let (named, rest) = named_list(alloc, left, tokens)?;
        Ok((named_only(alloc, named), rest))
    } else if is_next(tokens, Keyword(keywords::FUNCTION)) {
        function_first(alloc, left, tokens)
    } else {
        expression_first(alloc, left, tokens)
    }
}

/// Arguments of which the first is a function.
#[cycle(readers)]
fn function_first<'t, 'a>(
    alloc: Global,
    left: u32,
    tokens: &'t [Token<'a>],
) -> Reading<'t, 'a, Args>
    ensures reads { Gives with_rest result (reads_inside (made args_given (made given_more (seq function_argument_form (optional (behind comma (symbol MoreArguments)))))) left tokens.now) }
    ensures shorter { IfOk result (λ x. length x.1.now < length tokens.now) }
{
    let (first, rest) = function_argument(alloc, left, tokens)?;
    let (more, rest) = optional_arguments(alloc, left, rest)?;
    Ok((args_of(alloc, first, more)?, rest))
}

/// Arguments of which the first is an expression, or one with iterators.
#[cycle(readers)]
fn expression_first<'t, 'a>(
    alloc: Global,
    left: u32,
    tokens: &'t [Token<'a>],
) -> Reading<'t, 'a, Args>
    ensures reads { Gives with_rest result (reads_inside (made args_from (seq (symbol Expressions) (either (made following_iters (behind for_word (symbol Indices))) (made following_more (optional (behind comma (symbol MoreArguments))))))) left tokens.now) }
    ensures shorter { IfOk result (λ x. length x.1.now < length tokens.now) }
{
    let (first, rest) = expression(alloc, left, tokens)?;
    if is_next(rest, Keyword(keywords::FOR)) {
        let (iterators, rest) = indices_behind_for(alloc, left, rest)?;
        Ok((iterated(alloc, first, iterators)?, rest))
    } else {
        let (more, rest) = optional_arguments(alloc, left, rest)?;
        Ok((args_of(alloc, Arg::Value(first), more)?, rest))
    }
}

/// The arguments behind a comma, which may be left out.
#[cycle(readers)]
fn optional_arguments<'t, 'a>(
    alloc: Global,
    left: u32,
    tokens: &'t [Token<'a>],
) -> Reading<'t, 'a, Option<Given>>
    ensures reads { Gives with_rest result (reads_inside (optional (behind comma (symbol MoreArguments))) left tokens.now) }
    ensures no_longer { IfOk result (λ x. length x.1.now ≤ length tokens.now) }
{
    if is_next(tokens, Operator(operators::COMMA)) {
        let (_, rest) = take(tokens, Operator(operators::COMMA))?;
        let (more, rest) = more_arguments(alloc, left, rest)?;
        Ok((Some(more), rest))
    } else {
        Ok((None, tokens))
    }
}

/// Plain arguments, and named ones behind them.
#[cycle(readers)]
#[tactic(auto, using(mo_grammar::proofs::Readers::more_arguments_are))]
fn more_arguments<'t, 'a>(
    alloc: Global,
    left: u32,
    tokens: &'t [Token<'a>],
) -> Reading<'t, 'a, Given>
    ensures reads { Gives with_rest result (reads MoreArguments (limits_inside left) (lexemes tokens.now)) }
    ensures shorter { IfOk result (λ x. length x.1.now < length tokens.now) }
{
    let (mut plain, mut rest) = none_yet(alloc, tokens);
    'each: while !are_next(rest, Ident, &[Operator(operators::EQUALS)]) {
        let (next, behind) = argument(alloc, left, rest)?;
        plain.push(next)?;
        if !is_next(behind, Operator(operators::COMMA)) {
            return Ok(((plain, List::new(alloc)), behind));
        }
        let (_, behind) = take(behind, Operator(operators::COMMA))?;
        rest = behind;
    }
    let (named, rest) = named_list(alloc, left, rest)?;
    Ok(((plain, named), rest))
}

/// One argument.
#[cycle(readers)]
#[tactic(auto, using(mo_grammar::proofs::Readers::one_argument_are))]
fn argument<'t, 'a>(alloc: Global, left: u32, tokens: &'t [Token<'a>]) -> Reading<'t, 'a, Arg>
    ensures reads { Gives with_rest result (reads OneArgument (limits_inside left) (lexemes tokens.now)) }
    ensures shorter { IfOk result (λ x. length x.1.now < length tokens.now) }
{
    if is_next(tokens, Keyword(keywords::FUNCTION)) {
        function_argument(alloc, left, tokens)
    } else {
        let (value, rest) = expression(alloc, left, tokens)?;
        Ok((Arg::Value(value), rest))
    }
}

/// `function`, a name, and named arguments in parentheses.
#[cycle(readers)]
fn function_argument<'t, 'a>(
    alloc: Global,
    left: u32,
    tokens: &'t [Token<'a>],
) -> Reading<'t, 'a, Arg>
    ensures reads { Gives with_rest result (reads_inside function_argument_form left tokens.now) }
    ensures shorter { IfOk result (λ x. length x.1.now < length tokens.now) }
{
    let (_, rest) = take(tokens, Keyword(keywords::FUNCTION))?;
    let (function, rest) = type_specifier(alloc, left, rest)?;
    let (named, rest) = enclosed_named(alloc, left, rest)?;
    Ok((partial(alloc, function, named), rest))
}

/// Named arguments in parentheses, None where there are none.
#[cycle(readers)]
#[tactic(auto, using(mo_grammar::proofs::Readers::none_left, mo_grammar::proofs::Readers::some_left))]
fn enclosed_named<'t, 'a>(
    alloc: Global,
    left: u32,
    tokens: &'t [Token<'a>],
) -> Reading<'t, 'a, Option<List<(Text, Arg)>>>
    ensures reads { Gives with_rest result (reads_inside (between open_paren close_paren (optional named_list_form)) left tokens.now) }
    ensures shorter { IfOk result (λ x. length x.1.now < length tokens.now) }
{
    if left == 0 {
        return Err(past_limit(tokens, Operator(operators::OPEN_PAREN)));
    }
    let inner = left - 1;
    let (_, rest) = take(tokens, Operator(operators::OPEN_PAREN))?;
    if is_next(rest, Ident) {
        let (named, rest) = named_list(alloc, inner, rest)?;
        let (_, rest) = take(rest, Operator(operators::CLOSE_PAREN))?;
        Ok((Some(named), rest))
    } else {
        let (_, rest) = take(rest, Operator(operators::CLOSE_PAREN))?;
        Ok((None, rest))
    }
}

/// Named arguments.
#[cycle(readers)]
fn named_list<'t, 'a>(
    alloc: Global,
    left: u32,
    tokens: &'t [Token<'a>],
) -> Reading<'t, 'a, List<(Text, Arg)>>
    ensures reads { Gives with_rest result (reads_inside named_list_form left tokens.now) }
    ensures shorter { IfOk result (λ x. length x.1.now < length tokens.now) }
{
    let (name, rest) = take(tokens, Ident)?;
    let (value, rest) = argument_behind_equals(alloc, left, rest)?;
    let (more, rest) = further_named(alloc, left, rest)?;
    Ok((named_list_of(alloc, &name, value, more)?, rest))
}

/// Named arguments behind commas.
#[cycle(readers)]
fn further_named<'t, 'a>(
    alloc: Global,
    left: u32,
    tokens: &'t [Token<'a>],
) -> Reading<'t, 'a, List<(Text, Arg)>>
    ensures reads { Gives with_rest result (reads_inside (many (behind comma named_form)) left tokens.now) }
    ensures no_longer { IfOk result (λ x. length x.1.now ≤ length tokens.now) }
{
    let (mut all, mut rest) = none_yet(alloc, tokens);
    'each: while is_next(rest, Operator(operators::COMMA)) {
        let (next, behind) = named_behind_comma(alloc, left, rest)?;
        all.push(next)?;
        rest = behind;
    }
    Ok((all, rest))
}

/// A comma, a name and its argument.
#[cycle(readers)]
fn named_behind_comma<'t, 'a>(
    alloc: Global,
    left: u32,
    tokens: &'t [Token<'a>],
) -> Reading<'t, 'a, (Text, Arg)>
    ensures reads { Gives with_rest result (reads_inside (behind comma named_form) left tokens.now) }
    ensures shorter { IfOk result (λ x. length x.1.now < length tokens.now) }
{
    let (_, rest) = take(tokens, Operator(operators::COMMA))?;
    let (name, rest) = take(rest, Ident)?;
    let (value, rest) = argument_behind_equals(alloc, left, rest)?;
    Ok((named_of(alloc, &name, value)?, rest))
}

/// `=` and an argument.
#[cycle(readers)]
fn argument_behind_equals<'t, 'a>(
    alloc: Global,
    left: u32,
    tokens: &'t [Token<'a>],
) -> Reading<'t, 'a, Arg>
    ensures reads { Gives with_rest result (reads_inside (behind equals (symbol OneArgument)) left tokens.now) }
    ensures shorter { IfOk result (λ x. length x.1.now < length tokens.now) }
{
    let (_, rest) = take(tokens, Operator(operators::EQUALS))?;
    argument(alloc, left, rest)
}

/// `for` and iteration variables.
#[cycle(readers)]
pub(crate) fn indices_behind_for<'t, 'a>(
    alloc: Global,
    left: u32,
    tokens: &'t [Token<'a>],
) -> Reading<'t, 'a, List<Index>>
    ensures reads { Gives with_rest result (reads_inside (behind for_word (symbol Indices)) left tokens.now) }
    ensures shorter { IfOk result (λ x. length x.1.now < length tokens.now) }
{
    let (_, rest) = take(tokens, Keyword(keywords::FOR))?;
    indices(alloc, left, rest)
}

/// Iteration variables with their ranges.
#[cycle(readers)]
#[tactic(auto, using(mo_grammar::proofs::Readers::indices_are))]
pub fn indices<'t, 'a>(
    alloc: Global,
    left: u32,
    tokens: &'t [Token<'a>],
) -> Reading<'t, 'a, List<Index>>
    ensures reads { Gives with_rest result (reads Indices (limits_inside left) (lexemes tokens.now)) }
    ensures shorter { IfOk result (λ x. length x.1.now < length tokens.now) }
{
    let (first, rest) = index(alloc, left, tokens)?;
    let (more, rest) = further_indices(alloc, left, rest)?;
    Ok((joined(alloc, first, more)?, rest))
}

/// Iteration variables behind commas.
#[cycle(readers)]
fn further_indices<'t, 'a>(
    alloc: Global,
    left: u32,
    tokens: &'t [Token<'a>],
) -> Reading<'t, 'a, List<Index>>
    ensures reads { Gives with_rest result (reads_inside (many (behind comma index_form)) left tokens.now) }
    ensures no_longer { IfOk result (λ x. length x.1.now ≤ length tokens.now) }
{
    let (mut all, mut rest) = none_yet(alloc, tokens);
    'each: while is_next(rest, Operator(operators::COMMA)) {
        let (next, behind) = index_behind_comma(alloc, left, rest)?;
        all.push(next)?;
        rest = behind;
    }
    Ok((all, rest))
}

/// A comma and an iteration variable.
#[cycle(readers)]
fn index_behind_comma<'t, 'a>(
    alloc: Global,
    left: u32,
    tokens: &'t [Token<'a>],
) -> Reading<'t, 'a, Index>
    ensures reads { Gives with_rest result (reads_inside (behind comma index_form) left tokens.now) }
    ensures shorter { IfOk result (λ x. length x.1.now < length tokens.now) }
{
    let (_, rest) = take(tokens, Operator(operators::COMMA))?;
    index(alloc, left, rest)
}

/// An iteration variable, with its range if one is given.
#[cycle(readers)]
fn index<'t, 'a>(alloc: Global, left: u32, tokens: &'t [Token<'a>]) -> Reading<'t, 'a, Index>
    ensures reads { Gives with_rest result (reads_inside index_form left tokens.now) }
    ensures shorter { IfOk result (λ x. length x.1.now < length tokens.now) }
{
    let (name, rest) = take(tokens, Ident)?;
    if is_next(rest, Keyword(keywords::IN)) {
        let (range, rest) = expression_behind(alloc, left, rest, Keyword(keywords::IN))?;
        Ok((index_of(alloc, &name, Some(range))?, rest))
    } else {
        Ok((index_of(alloc, &name, None)?, rest))
    }
}
