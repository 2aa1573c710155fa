//! Statements that hold statements.
ghost use Rattle.std.specs.Prelude.{◌<◌, ◌≤◌, length, IfOk};
ghost use Rattle.mo_grammar.specs.Grammar.{many};
ghost use Rattle.mo_grammar.specs.Lexeme.{code_of_kind};
ghost use Rattle.mo_grammar.specs.Classes.{statement_branch, if_st, for_st, while_st, when_st};
ghost use Rattle.mo_grammar.specs.Answers.{Gives, with_rest, reads_inside};
ghost use Rattle.mo_read_body.specs.steps.StatementParts.{elseif_branch as elseif_branch_form, elsewhen_branch as elsewhen_branch_form, otherwise as otherwise_form, if_end as if_end_form, if_rest as if_rest_form, looped as looped_form, when_rest as when_rest_form};

use crate::algorithms::statements;
use mo_class_parts::list_or_nothing;
use mo_expr_parts::joined;
use mo_grammar::{Reading, is_next, none_yet, past_limit, take};
use mo_read_expr::{expression, indices};
use mo_syntax::TokenKind::Keyword;
use mo_syntax::{Expr, List, Statement, StatementKind, Token, TokenKind};
use mo_tables::keywords;
use std::alloc::Global;

/// Statements that run by conditions.
#[cycle(statement)]
#[tactic(auto, using(mo_grammar::proofs::Readers::none_left, mo_grammar::proofs::Readers::some_left))]
pub fn if_statement<'t, 'a>(
    alloc: Global,
    left: u32,
    tokens: &'t [Token<'a>],
) -> Reading<'t, 'a, StatementKind>
    ensures reads { Gives with_rest result (reads_inside if_st left tokens.now) }
    ensures shorter { IfOk result (λ x. length x.1.now < length tokens.now) }
{
    if left == 0 {
        return Err(past_limit(tokens, Keyword(keywords::IF)));
    }
    let (_, rest) = take(tokens, Keyword(keywords::IF))?;
    let (first, rest) = branch(alloc, left - 1, rest)?;
    let ((more, last), rest) = if_rest(alloc, left - 1, rest)?;
    let branches = joined(alloc, first, more)?;
    Ok((
        StatementKind::If(branches, list_or_nothing(alloc, last)),
        rest,
    ))
}

/// A condition and its statements.
#[cycle(statement)]
fn branch<'t, 'a>(
    alloc: Global,
    left: u32,
    tokens: &'t [Token<'a>],
) -> Reading<'t, 'a, (Expr, List<Statement>)>
    ensures reads { Gives with_rest result (reads_inside statement_branch left tokens.now) }
    ensures shorter { IfOk result (λ x. length x.1.now < length tokens.now) }
{
    let (condition, rest) = expression(alloc, left, tokens)?;
    let (_, rest) = take(rest, Keyword(keywords::THEN))?;
    let (statements, rest) = statements(alloc, left, rest)?;
    Ok(((condition, statements), rest))
}

/// The branches behind the first one of an if-statement.
#[cycle(statement)]
fn elseif_branches<'t, 'a>(
    alloc: Global,
    left: u32,
    tokens: &'t [Token<'a>],
) -> Reading<'t, 'a, List<(Expr, List<Statement>)>>
    ensures reads { Gives with_rest result (reads_inside (many elseif_branch_form) left tokens.now) }
    ensures no_longer { IfOk result (λ x. length x.1.now ≤ length tokens.now) }
{
    let (mut all, mut rest) = none_yet(alloc, tokens);
    'each: while is_next(rest, Keyword(keywords::ELSEIF)) {
        let (next, behind) = elseif_branch(alloc, left, rest)?;
        all.push(next)?;
        rest = behind;
    }
    Ok((all, rest))
}

/// One of them.
#[cycle(statement)]
fn elseif_branch<'t, 'a>(
    alloc: Global,
    left: u32,
    tokens: &'t [Token<'a>],
) -> Reading<'t, 'a, (Expr, List<Statement>)>
    ensures reads { Gives with_rest result (reads_inside elseif_branch_form left tokens.now) }
    ensures shorter { IfOk result (λ x. length x.1.now < length tokens.now) }
{
    let (_, rest) = take(tokens, Keyword(keywords::ELSEIF))?;
    branch(alloc, left, rest)
}

/// The statements of `else`, where it stands there.
#[cycle(statement)]
fn otherwise<'t, 'a>(
    alloc: Global,
    left: u32,
    tokens: &'t [Token<'a>],
) -> Reading<'t, 'a, Option<List<Statement>>>
    ensures reads { Gives with_rest result (reads_inside otherwise_form left tokens.now) }
    ensures no_longer { IfOk result (λ x. length x.1.now ≤ length tokens.now) }
{
    if !is_next(tokens, Keyword(keywords::ELSE)) {
        return Ok((None, tokens));
    }
    let (_, rest) = take(tokens, Keyword(keywords::ELSE))?;
    let (all, rest) = statements(alloc, left, rest)?;
    Ok((Some(all), rest))
}

/// What stands behind the first branch of an if-statement: the other branches, and the statements of `else`.
#[cycle(statement)]
fn if_rest<'t, 'a>(
    alloc: Global,
    left: u32,
    tokens: &'t [Token<'a>],
) -> Reading<'t, 'a, (List<(Expr, List<Statement>)>, Option<List<Statement>>)>
    ensures reads { Gives with_rest result (reads_inside if_rest_form left tokens.now) }
    ensures shorter { IfOk result (λ x. length x.1.now < length tokens.now) }
{
    let (more, rest) = elseif_branches(alloc, left, tokens)?;
    let (last, rest) = if_end(alloc, left, rest)?;
    Ok(((more, last), rest))
}

/// The statements of `else`, where it stands there, and the end of the if-statement.
#[cycle(statement)]
fn if_end<'t, 'a>(
    alloc: Global,
    left: u32,
    tokens: &'t [Token<'a>],
) -> Reading<'t, 'a, Option<List<Statement>>>
    ensures reads { Gives with_rest result (reads_inside if_end_form left tokens.now) }
    ensures shorter { IfOk result (λ x. length x.1.now < length tokens.now) }
{
    let (last, rest) = otherwise(alloc, left, tokens)?;
    let (_, rest) = take(rest, Keyword(keywords::END))?;
    let (_, rest) = take(rest, Keyword(keywords::IF))?;
    Ok((last, rest))
}

/// The statements of a loop, from `loop` to the word behind its `end`.
#[cycle(statement)]
fn looped<'t, 'a>(
    alloc: Global,
    left: u32,
    tokens: &'t [Token<'a>],
    word: TokenKind,
) -> Reading<'t, 'a, List<Statement>>
    ensures reads { Gives with_rest result (reads_inside (looped_form (code_of_kind word)) left tokens.now) }
    ensures shorter { IfOk result (λ x. length x.1.now < length tokens.now) }
{
    let (_, rest) = take(tokens, Keyword(keywords::LOOP))?;
    let (statements, rest) = statements(alloc, left, rest)?;
    let (_, rest) = take(rest, Keyword(keywords::END))?;
    let (_, rest) = take(rest, word)?;
    Ok((statements, rest))
}

/// Statements for each value of iteration variables.
#[cycle(statement)]
#[tactic(auto, using(mo_grammar::proofs::Readers::none_left, mo_grammar::proofs::Readers::some_left))]
pub fn for_statement<'t, 'a>(
    alloc: Global,
    left: u32,
    tokens: &'t [Token<'a>],
) -> Reading<'t, 'a, StatementKind>
    ensures reads { Gives with_rest result (reads_inside for_st left tokens.now) }
    ensures shorter { IfOk result (λ x. length x.1.now < length tokens.now) }
{
    if left == 0 {
        return Err(past_limit(tokens, Keyword(keywords::FOR)));
    }
    let (_, rest) = take(tokens, Keyword(keywords::FOR))?;
    let (indices, rest) = indices(alloc, left - 1, rest)?;
    let (statements, rest) = looped(alloc, left - 1, rest, Keyword(keywords::FOR))?;
    Ok((StatementKind::For(indices, statements), rest))
}

/// Statements for as long as a condition holds.
#[cycle(statement)]
#[tactic(auto, using(mo_grammar::proofs::Readers::none_left, mo_grammar::proofs::Readers::some_left))]
pub fn while_statement<'t, 'a>(
    alloc: Global,
    left: u32,
    tokens: &'t [Token<'a>],
) -> Reading<'t, 'a, StatementKind>
    ensures reads { Gives with_rest result (reads_inside while_st left tokens.now) }
    ensures shorter { IfOk result (λ x. length x.1.now < length tokens.now) }
{
    if left == 0 {
        return Err(past_limit(tokens, Keyword(keywords::WHILE)));
    }
    let (_, rest) = take(tokens, Keyword(keywords::WHILE))?;
    let (condition, rest) = expression(alloc, left - 1, rest)?;
    let (statements, rest) = looped(alloc, left - 1, rest, Keyword(keywords::WHILE))?;
    Ok((StatementKind::While(condition, statements), rest))
}

/// Statements at events.
#[cycle(statement)]
#[tactic(auto, using(mo_grammar::proofs::Readers::none_left, mo_grammar::proofs::Readers::some_left))]
pub fn when_statement<'t, 'a>(
    alloc: Global,
    left: u32,
    tokens: &'t [Token<'a>],
) -> Reading<'t, 'a, StatementKind>
    ensures reads { Gives with_rest result (reads_inside when_st left tokens.now) }
    ensures shorter { IfOk result (λ x. length x.1.now < length tokens.now) }
{
    if left == 0 {
        return Err(past_limit(tokens, Keyword(keywords::WHEN)));
    }
    let (_, rest) = take(tokens, Keyword(keywords::WHEN))?;
    let (first, rest) = branch(alloc, left - 1, rest)?;
    let (more, rest) = when_rest(alloc, left - 1, rest)?;
    Ok((StatementKind::When(joined(alloc, first, more)?), rest))
}

/// What stands behind the first branch of a when-statement: the other branches, and its end.
#[cycle(statement)]
fn when_rest<'t, 'a>(
    alloc: Global,
    left: u32,
    tokens: &'t [Token<'a>],
) -> Reading<'t, 'a, List<(Expr, List<Statement>)>>
    ensures reads { Gives with_rest result (reads_inside when_rest_form left tokens.now) }
    ensures shorter { IfOk result (λ x. length x.1.now < length tokens.now) }
{
    let (more, rest) = elsewhen_branches(alloc, left, tokens)?;
    let (_, rest) = take(rest, Keyword(keywords::END))?;
    let (_, rest) = take(rest, Keyword(keywords::WHEN))?;
    Ok((more, rest))
}

/// The branches behind the first one of a when-statement.
#[cycle(statement)]
fn elsewhen_branches<'t, 'a>(
    alloc: Global,
    left: u32,
    tokens: &'t [Token<'a>],
) -> Reading<'t, 'a, List<(Expr, List<Statement>)>>
    ensures reads { Gives with_rest result (reads_inside (many elsewhen_branch_form) left tokens.now) }
    ensures no_longer { IfOk result (λ x. length x.1.now ≤ length tokens.now) }
{
    let (mut all, mut rest) = none_yet(alloc, tokens);
    'each: while is_next(rest, Keyword(keywords::ELSEWHEN)) {
        let (next, behind) = elsewhen_branch(alloc, left, rest)?;
        all.push(next)?;
        rest = behind;
    }
    Ok((all, rest))
}

/// One of them.
#[cycle(statement)]
fn elsewhen_branch<'t, 'a>(
    alloc: Global,
    left: u32,
    tokens: &'t [Token<'a>],
) -> Reading<'t, 'a, (Expr, List<Statement>)>
    ensures reads { Gives with_rest result (reads_inside elsewhen_branch_form left tokens.now) }
    ensures shorter { IfOk result (λ x. length x.1.now < length tokens.now) }
{
    let (_, rest) = take(tokens, Keyword(keywords::ELSEWHEN))?;
    branch(alloc, left, rest)
}
