//! Expressions, from if-expressions down to powers.
ghost use Rattle.std.specs.Prelude.{◌<◌, ◌≤◌, length, IfOk};
ghost use Rattle.mo_grammar.specs.Lexeme.{lexemes, code_of_kind};
ghost use Rattle.mo_grammar.specs.Codes.{colon, or_word, and_word, then_word, else_word};
ghost use Rattle.mo_grammar.specs.Grammar.{seq, many, symbol};
ghost use Rattle.mo_grammar.specs.Forms.{behind, optional};
ghost use Rattle.mo_grammar.specs.Symbols.{Expressions, Simples, Logicals, Conjunctions, Negations, Relations, Sums, Products, Powers};
ghost use Rattle.mo_grammar.specs.Expressions.{expression_behind as expression_behind_form, if_expression as if_expression_form, further_branch as further_branch_form, further_term as further_term_form, further_factor as further_factor_form};
ghost use Rattle.mo_grammar.specs.Language.{limits_inside, reads};
ghost use Rattle.mo_grammar.specs.Answers.{Gives, with_rest, reads_inside};

use crate::primaries::primary;
use mo_expr_parts::marks::{FACTOR_MARKS, POWER_MARKS, RELATIONS, SIGNS};
use mo_expr_parts::{
    begins_expression, expr_at, factor_of, if_of, joined, product_of, range_of, relation_of,
    signed_sum_of, sum_of, term_of,
};
use mo_grammar::{
    Reading, flag, is, is_next, is_next_any, none_yet, past_limit, place_of, take, take_any,
};
use mo_syntax::TokenKind::{Keyword, Operator};
use mo_syntax::{Branch, Expr, Factor, List, Node, Term, Token, TokenKind};
use mo_tables::{keywords, operators};
use std::alloc::Global;

/// An expression.
#[cycle(readers)]
#[tactic(auto, using(mo_grammar::proofs::Readers::expressions_are))]
pub fn expression<'t, 'a>(
    alloc: Global,
    left: u32,
    tokens: &'t [Token<'a>],
) -> Reading<'t, 'a, Expr>
    ensures reads { Gives with_rest result (reads Expressions (limits_inside left) (lexemes tokens.now)) }
    ensures shorter { IfOk result (λ x. length x.1.now < length tokens.now) }
{
    if is_next(tokens, Keyword(keywords::IF)) {
        if_expression(alloc, left, tokens)
    } else {
        simple_expression(alloc, left, tokens)
    }
}

/// `if`, conditions with their values, and the value of `else`.
#[cycle(readers)]
#[tactic(auto, using(mo_grammar::proofs::Readers::none_left, mo_grammar::proofs::Readers::some_left))]
fn if_expression<'t, 'a>(alloc: Global, left: u32, tokens: &'t [Token<'a>]) -> Reading<'t, 'a, Expr>
    ensures reads { Gives with_rest result (reads_inside if_expression_form left tokens.now) }
    ensures shorter { IfOk result (λ x. length x.1.now < length tokens.now) }
{
    if left == 0 {
        return Err(past_limit(tokens, Keyword(keywords::IF)));
    }
    let inner = left - 1;
    let (_, rest) = take(tokens, Keyword(keywords::IF))?;
    let (condition, rest) = expression(alloc, inner, rest)?;
    let ((value, (more, last)), rest) = choices(alloc, inner, rest)?;
    let e = if_of(alloc, place_of(tokens), condition, value, more, last)?;
    Ok((e, rest))
}

/// What follows the first condition: its value, the branches behind `elseif` and the value of `else`.
#[cycle(readers)]
fn choices<'t, 'a>(
    alloc: Global,
    left: u32,
    tokens: &'t [Token<'a>],
) -> Reading<'t, 'a, (Expr, (List<Branch>, Expr))>
    ensures reads { Gives with_rest result (reads_inside (seq (behind then_word (symbol Expressions)) (seq (many further_branch_form) (behind else_word (symbol Expressions)))) left tokens.now) }
    ensures shorter { IfOk result (λ x. length x.1.now < length tokens.now) }
{
    let (value, rest) = expression_behind(alloc, left, tokens, Keyword(keywords::THEN))?;
    let (more, rest) = further_branches(alloc, left, rest)?;
    let (last, rest) = expression_behind(alloc, left, rest, Keyword(keywords::ELSE))?;
    Ok(((value, (more, last)), rest))
}

/// Conditions behind `elseif`, with their values.
#[cycle(readers)]
fn further_branches<'t, 'a>(
    alloc: Global,
    left: u32,
    tokens: &'t [Token<'a>],
) -> Reading<'t, 'a, List<Branch>>
    ensures reads { Gives with_rest result (reads_inside (many further_branch_form) left tokens.now) }
    ensures no_longer { IfOk result (λ x. length x.1.now ≤ length tokens.now) }
{
    let (mut all, mut rest) = none_yet(alloc, tokens);
    'each: while is_next(rest, Keyword(keywords::ELSEIF)) {
        let (next, behind) = further_branch(alloc, left, rest)?;
        all.push(next)?;
        rest = behind;
    }
    Ok((all, rest))
}

/// A condition behind `elseif`, with its value.
#[cycle(readers)]
fn further_branch<'t, 'a>(
    alloc: Global,
    left: u32,
    tokens: &'t [Token<'a>],
) -> Reading<'t, 'a, Branch>
    ensures reads { Gives with_rest result (reads_inside further_branch_form left tokens.now) }
    ensures shorter { IfOk result (λ x. length x.1.now < length tokens.now) }
{
    let (condition, rest) = expression_behind(alloc, left, tokens, Keyword(keywords::ELSEIF))?;
    let (value, rest) = expression_behind(alloc, left, rest, Keyword(keywords::THEN))?;
    Ok((Branch { condition, value }, rest))
}

/// A token of that kind and an expression.
#[cycle(readers)]
pub fn expression_behind<'t, 'a>(
    alloc: Global,
    left: u32,
    tokens: &'t [Token<'a>],
    mark: TokenKind,
) -> Reading<'t, 'a, Expr>
    ensures reads { Gives with_rest result (reads_inside (expression_behind_form (code_of_kind mark)) left tokens.now) }
    ensures shorter { IfOk result (λ x. length x.1.now < length tokens.now) }
{
    let (_, rest) = take(tokens, mark)?;
    expression(alloc, left, rest)
}

/// An expression that may be left out.
#[cycle(readers)]
pub(crate) fn optional_expression<'t, 'a>(
    alloc: Global,
    left: u32,
    tokens: &'t [Token<'a>],
) -> Reading<'t, 'a, Option<Expr>>
    ensures reads { Gives with_rest result (reads_inside (optional (symbol Expressions)) left tokens.now) }
    ensures no_longer { IfOk result (λ x. length x.1.now ≤ length tokens.now) }
{
    if begins_expression(tokens) {
        let (value, rest) = expression(alloc, left, tokens)?;
        Ok((Some(value), rest))
    } else {
        Ok((None, tokens))
    }
}

/// An expression that is no if-expression.
#[cycle(readers)]
#[tactic(auto, using(mo_grammar::proofs::Readers::simples_are))]
pub fn simple_expression<'t, 'a>(
    alloc: Global,
    left: u32,
    tokens: &'t [Token<'a>],
) -> Reading<'t, 'a, Expr>
    ensures reads { Gives with_rest result (reads Simples (limits_inside left) (lexemes tokens.now)) }
    ensures shorter { IfOk result (λ x. length x.1.now < length tokens.now) }
{
    let (first, rest) = logical(alloc, left, tokens)?;
    let (more, rest) = range_behind(alloc, left, rest)?;
    Ok((range_of(alloc, place_of(tokens), first, more)?, rest))
}

/// One or two values behind colons, None where there is none.
#[cycle(readers)]
fn range_behind<'t, 'a>(
    alloc: Global,
    left: u32,
    tokens: &'t [Token<'a>],
) -> Reading<'t, 'a, Option<(Expr, Option<Expr>)>>
    ensures reads { Gives with_rest result (reads_inside (optional (behind colon (seq (symbol Logicals) (optional (behind colon (symbol Logicals)))))) left tokens.now) }
    ensures no_longer { IfOk result (λ x. length x.1.now ≤ length tokens.now) }
{
    if !is_next(tokens, Operator(operators::COLON)) {
        return Ok((None, tokens));
    }
    let (_, rest) = take(tokens, Operator(operators::COLON))?;
    let (second, rest) = logical(alloc, left, rest)?;
    let (third, rest) = logical_behind(alloc, left, rest)?;
    Ok((Some((second, third)), rest))
}

/// A value behind a colon, None where there is none.
#[cycle(readers)]
fn logical_behind<'t, 'a>(
    alloc: Global,
    left: u32,
    tokens: &'t [Token<'a>],
) -> Reading<'t, 'a, Option<Expr>>
    ensures reads { Gives with_rest result (reads_inside (optional (behind colon (symbol Logicals))) left tokens.now) }
    ensures no_longer { IfOk result (λ x. length x.1.now ≤ length tokens.now) }
{
    if !is_next(tokens, Operator(operators::COLON)) {
        return Ok((None, tokens));
    }
    let (_, rest) = take(tokens, Operator(operators::COLON))?;
    let (value, rest) = logical(alloc, left, rest)?;
    Ok((Some(value), rest))
}

/// A chain of `or`.
#[cycle(readers)]
#[tactic(auto, using(mo_grammar::proofs::Readers::logicals_are))]
fn logical<'t, 'a>(alloc: Global, left: u32, tokens: &'t [Token<'a>]) -> Reading<'t, 'a, Expr>
    ensures reads { Gives with_rest result (reads Logicals (limits_inside left) (lexemes tokens.now)) }
    ensures shorter { IfOk result (λ x. length x.1.now < length tokens.now) }
{
    let place = place_of(tokens);
    let (first, rest) = conjunction(alloc, left, tokens)?;
    let (more, rest) = further_conjunctions(alloc, left, rest)?;
    if more.is_empty() {
        return Ok((first, rest));
    }
    let all = joined(alloc, first, more)?;
    Ok((expr_at(alloc, place, Node::Any(all))?, rest))
}

/// Operands behind `or`.
#[cycle(readers)]
fn further_conjunctions<'t, 'a>(
    alloc: Global,
    left: u32,
    tokens: &'t [Token<'a>],
) -> Reading<'t, 'a, List<Expr>>
    ensures reads { Gives with_rest result (reads_inside (many (behind or_word (symbol Conjunctions))) left tokens.now) }
    ensures no_longer { IfOk result (λ x. length x.1.now ≤ length tokens.now) }
{
    let (mut all, mut rest) = none_yet(alloc, tokens);
    'each: while is_next(rest, Keyword(keywords::OR)) {
        let (next, behind) = conjunction_behind_or(alloc, left, rest)?;
        all.push(next)?;
        rest = behind;
    }
    Ok((all, rest))
}

/// `or` and an operand.
#[cycle(readers)]
fn conjunction_behind_or<'t, 'a>(
    alloc: Global,
    left: u32,
    tokens: &'t [Token<'a>],
) -> Reading<'t, 'a, Expr>
    ensures reads { Gives with_rest result (reads_inside (behind or_word (symbol Conjunctions)) left tokens.now) }
    ensures shorter { IfOk result (λ x. length x.1.now < length tokens.now) }
{
    let (_, rest) = take(tokens, Keyword(keywords::OR))?;
    conjunction(alloc, left, rest)
}

/// A chain of `and`.
#[cycle(readers)]
#[tactic(auto, using(mo_grammar::proofs::Readers::conjunctions_are))]
fn conjunction<'t, 'a>(alloc: Global, left: u32, tokens: &'t [Token<'a>]) -> Reading<'t, 'a, Expr>
    ensures reads { Gives with_rest result (reads Conjunctions (limits_inside left) (lexemes tokens.now)) }
    ensures shorter { IfOk result (λ x. length x.1.now < length tokens.now) }
{
    let place = place_of(tokens);
    let (first, rest) = negation(alloc, left, tokens)?;
    let (more, rest) = further_negations(alloc, left, rest)?;
    if more.is_empty() {
        return Ok((first, rest));
    }
    let all = joined(alloc, first, more)?;
    Ok((expr_at(alloc, place, Node::All(all))?, rest))
}

/// Operands behind `and`.
#[cycle(readers)]
fn further_negations<'t, 'a>(
    alloc: Global,
    left: u32,
    tokens: &'t [Token<'a>],
) -> Reading<'t, 'a, List<Expr>>
    ensures reads { Gives with_rest result (reads_inside (many (behind and_word (symbol Negations))) left tokens.now) }
    ensures no_longer { IfOk result (λ x. length x.1.now ≤ length tokens.now) }
{
    let (mut all, mut rest) = none_yet(alloc, tokens);
    'each: while is_next(rest, Keyword(keywords::AND)) {
        let (next, behind) = negation_behind_and(alloc, left, rest)?;
        all.push(next)?;
        rest = behind;
    }
    Ok((all, rest))
}

/// `and` and an operand.
#[cycle(readers)]
fn negation_behind_and<'t, 'a>(
    alloc: Global,
    left: u32,
    tokens: &'t [Token<'a>],
) -> Reading<'t, 'a, Expr>
    ensures reads { Gives with_rest result (reads_inside (behind and_word (symbol Negations)) left tokens.now) }
    ensures shorter { IfOk result (λ x. length x.1.now < length tokens.now) }
{
    let (_, rest) = take(tokens, Keyword(keywords::AND))?;
    negation(alloc, left, rest)
}

/// A relation, perhaps with `not` before it.
#[cycle(readers)]
#[tactic(auto, using(mo_grammar::proofs::Readers::negations_are))]
fn negation<'t, 'a>(alloc: Global, left: u32, tokens: &'t [Token<'a>]) -> Reading<'t, 'a, Expr>
    ensures reads { Gives with_rest result (reads Negations (limits_inside left) (lexemes tokens.now)) }
    ensures shorter { IfOk result (λ x. length x.1.now < length tokens.now) }
{
    let (negated, rest) = flag(tokens, Keyword(keywords::NOT));
    let (operand, rest) = relation(alloc, left, rest)?;
    if negated {
        Ok((expr_at(alloc, place_of(tokens), Node::Not(operand))?, rest))
    } else {
        Ok((operand, rest))
    }
}

/// A sum, or a relation between two.
#[cycle(readers)]
#[tactic(auto, using(mo_grammar::proofs::Readers::relations_are))]
fn relation<'t, 'a>(alloc: Global, left: u32, tokens: &'t [Token<'a>]) -> Reading<'t, 'a, Expr>
    ensures reads { Gives with_rest result (reads Relations (limits_inside left) (lexemes tokens.now)) }
    ensures shorter { IfOk result (λ x. length x.1.now < length tokens.now) }
{
    let (first, rest) = sum(alloc, left, tokens)?;
    if !is_next_any(rest, &RELATIONS) {
        return Ok((first, rest));
    }
    let (mark, rest) = take_any(rest, &RELATIONS)?;
    let (second, rest) = sum(alloc, left, rest)?;
    let node = Node::Relation(relation_of(&mark), first, second);
    Ok((expr_at(alloc, place_of(tokens), node)?, rest))
}

/// A chain of `+` and `-`, perhaps with a sign before it.
#[cycle(readers)]
#[tactic(auto, using(mo_grammar::proofs::Readers::sums_are))]
fn sum<'t, 'a>(alloc: Global, left: u32, tokens: &'t [Token<'a>]) -> Reading<'t, 'a, Expr>
    ensures reads { Gives with_rest result (reads Sums (limits_inside left) (lexemes tokens.now)) }
    ensures shorter { IfOk result (λ x. length x.1.now < length tokens.now) }
{
    if is_next_any(tokens, &SIGNS) {
        let (sign, rest) = take_any(tokens, &SIGNS)?;
        let place = place_of(rest);
        let ((first, more), rest) = terms(alloc, left, rest)?;
        Ok((signed_sum_of(alloc, &sign, place, first, more)?, rest))
    } else {
        let ((first, more), rest) = terms(alloc, left, tokens)?;
        Ok((sum_of(alloc, place_of(tokens), first, more)?, rest))
    }
}

/// A product and the terms behind it.
#[cycle(readers)]
fn terms<'t, 'a>(
    alloc: Global,
    left: u32,
    tokens: &'t [Token<'a>],
) -> Reading<'t, 'a, (Expr, List<Term>)>
    ensures reads { Gives with_rest result (reads_inside (seq (symbol Products) (many further_term_form)) left tokens.now) }
    ensures shorter { IfOk result (λ x. length x.1.now < length tokens.now) }
{
    let (first, rest) = product(alloc, left, tokens)?;
    let (more, rest) = further_terms(alloc, left, rest)?;
    Ok(((first, more), rest))
}

/// Terms behind signs.
#[cycle(readers)]
fn further_terms<'t, 'a>(
    alloc: Global,
    left: u32,
    tokens: &'t [Token<'a>],
) -> Reading<'t, 'a, List<Term>>
    ensures reads { Gives with_rest result (reads_inside (many further_term_form) left tokens.now) }
    ensures no_longer { IfOk result (λ x. length x.1.now ≤ length tokens.now) }
{
    let (mut all, mut rest) = none_yet(alloc, tokens);
    'each: while is_next_any(rest, &SIGNS) {
        let (next, behind) = further_term(alloc, left, rest)?;
        all.push(next)?;
        rest = behind;
    }
    Ok((all, rest))
}

/// A sign and a term.
#[cycle(readers)]
fn further_term<'t, 'a>(alloc: Global, left: u32, tokens: &'t [Token<'a>]) -> Reading<'t, 'a, Term>
    ensures reads { Gives with_rest result (reads_inside further_term_form left tokens.now) }
    ensures shorter { IfOk result (λ x. length x.1.now < length tokens.now) }
{
    let (sign, rest) = take_any(tokens, &SIGNS)?;
    let (value, rest) = product(alloc, left, rest)?;
    Ok((term_of(&sign, value), rest))
}

/// A chain of `*` and `/`.
#[cycle(readers)]
#[tactic(auto, using(mo_grammar::proofs::Readers::products_are))]
fn product<'t, 'a>(alloc: Global, left: u32, tokens: &'t [Token<'a>]) -> Reading<'t, 'a, Expr>
    ensures reads { Gives with_rest result (reads Products (limits_inside left) (lexemes tokens.now)) }
    ensures shorter { IfOk result (λ x. length x.1.now < length tokens.now) }
{
    let place = place_of(tokens);
    let (first, rest) = power(alloc, left, tokens)?;
    let (more, rest) = further_factors(alloc, left, rest)?;
    Ok((product_of(alloc, place, first, more)?, rest))
}

/// Factors behind `*` and `/`.
#[cycle(readers)]
fn further_factors<'t, 'a>(
    alloc: Global,
    left: u32,
    tokens: &'t [Token<'a>],
) -> Reading<'t, 'a, List<Factor>>
    ensures reads { Gives with_rest result (reads_inside (many further_factor_form) left tokens.now) }
    ensures no_longer { IfOk result (λ x. length x.1.now ≤ length tokens.now) }
{
    let (mut all, mut rest) = none_yet(alloc, tokens);
    'each: while is_next_any(rest, &FACTOR_MARKS) {
        let (next, behind) = further_factor(alloc, left, rest)?;
        all.push(next)?;
        rest = behind;
    }
    Ok((all, rest))
}

/// `*` or `/` and a factor.
#[cycle(readers)]
fn further_factor<'t, 'a>(
    alloc: Global,
    left: u32,
    tokens: &'t [Token<'a>],
) -> Reading<'t, 'a, Factor>
    ensures reads { Gives with_rest result (reads_inside further_factor_form left tokens.now) }
    ensures shorter { IfOk result (λ x. length x.1.now < length tokens.now) }
{
    let (mark, rest) = take_any(tokens, &FACTOR_MARKS)?;
    let (value, rest) = power(alloc, left, rest)?;
    Ok((factor_of(&mark, value), rest))
}

/// A primary, or a power of two.
#[cycle(readers)]
#[tactic(auto, using(mo_grammar::proofs::Readers::powers_are))]
fn power<'t, 'a>(alloc: Global, left: u32, tokens: &'t [Token<'a>]) -> Reading<'t, 'a, Expr>
    ensures reads { Gives with_rest result (reads Powers (limits_inside left) (lexemes tokens.now)) }
    ensures shorter { IfOk result (λ x. length x.1.now < length tokens.now) }
{
    let (base, rest) = primary(alloc, left, tokens)?;
    if !is_next_any(rest, &POWER_MARKS) {
        return Ok((base, rest));
    }
    let (mark, rest) = take_any(rest, &POWER_MARKS)?;
    let (exponent, rest) = primary(alloc, left, rest)?;
    let dotted = is(&mark, Operator(operators::DOT_CARET));
    let node = Node::Power(base, dotted, exponent);
    Ok((expr_at(alloc, place_of(tokens), node)?, rest))
}
