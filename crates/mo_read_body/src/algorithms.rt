//! Statements.
ghost use Rattle.std.specs.Prelude.{◌<◌, ◌≤◌, length, IfOk};
ghost use Rattle.mo_grammar.specs.Lexeme.{lexemes};
ghost use Rattle.mo_grammar.specs.Symbols.{StatementItems};
ghost use Rattle.mo_grammar.specs.Classes.{statements as statements_form, statement_kind as statement_kind_form};
ghost use Rattle.mo_grammar.specs.Language.{limits_inside, reads};
ghost use Rattle.mo_grammar.specs.Answers.{Gives, with_rest, reads_inside};
ghost use Rattle.mo_read_body.specs.steps.StatementParts.{statement_line as statement_line_form, from_outputs, enclosed_outputs as enclosed_outputs_form, from_reference};

use crate::declarations::comment;
use crate::nested_statements::{for_statement, if_statement, when_statement, while_statement};
use mo_class_parts::begins_statement;
use mo_grammar::{Reading, is_next, none_yet, past_limit, place_of, take};
use mo_read_expr::{call_arguments, expression, outputs, reference};
use mo_syntax::TokenKind::{Keyword, Operator};
use mo_syntax::{Expr, List, Statement, StatementKind, StatementOf, Token};
use mo_tables::{keywords, operators};
use std::alloc::Global;

/// A statement with its comment.
#[cycle(statement)]
#[tactic(auto, using(mo_grammar::proofs::Readers::statement_items_are))]
pub fn statement<'t, 'a>(
    alloc: Global,
    left: u32,
    tokens: &'t [Token<'a>],
) -> Reading<'t, 'a, Statement>
    ensures reads { Gives with_rest result (reads StatementItems (limits_inside left) (lexemes tokens.now)) }
    ensures shorter { IfOk result (λ x. length x.1.now < length tokens.now) }
{
    let place = place_of(tokens);
    let (what, rest) = statement_kind(alloc, left, tokens)?;
    let rest = comment(alloc, left, rest)?;
    Ok((StatementOf { place, what }, rest))
}

/// The statements that stand there, each with its semicolon. There may be none.
#[cycle(statement)]
pub fn statements<'t, 'a>(
    alloc: Global,
    left: u32,
    tokens: &'t [Token<'a>],
) -> Reading<'t, 'a, List<Statement>>
    ensures reads { Gives with_rest result (reads_inside statements_form left tokens.now) }
    ensures no_longer { IfOk result (λ x. length x.1.now ≤ length tokens.now) }
{
    let (mut all, mut rest) = none_yet(alloc, tokens);
    'each: while begins_statement(rest) {
        let (next, behind) = statement_line(alloc, left, rest)?;
        all.push(next)?;
        rest = behind;
    }
    Ok((all, rest))
}

/// A statement and a semicolon.
#[cycle(statement)]
fn statement_line<'t, 'a>(
    alloc: Global,
    left: u32,
    tokens: &'t [Token<'a>],
) -> Reading<'t, 'a, Statement>
    ensures reads { Gives with_rest result (reads_inside statement_line_form left tokens.now) }
    ensures shorter { IfOk result (λ x. length x.1.now < length tokens.now) }
{
    let (statement, rest) = statement(alloc, left, tokens)?;
    let (_, rest) = take(rest, Operator(operators::SEMICOLON))?;
    Ok((statement, rest))
}

/// What a statement does.
#[cycle(statement)]
fn statement_kind<'t, 'a>(
    alloc: Global,
    left: u32,
    tokens: &'t [Token<'a>],
) -> Reading<'t, 'a, StatementKind>
    ensures reads { Gives with_rest result (reads_inside statement_kind_form left tokens.now) }
    ensures shorter { IfOk result (λ x. length x.1.now < length tokens.now) }
{
    if is_next(tokens, Keyword(keywords::BREAK)) {
        let (_, rest) = take(tokens, Keyword(keywords::BREAK))?;
        Ok((StatementKind::Break, rest))
    } else if is_next(tokens, Keyword(keywords::RETURN)) {
        let (_, rest) = take(tokens, Keyword(keywords::RETURN))?;
        Ok((StatementKind::Return, rest))
    } else if is_next(tokens, Keyword(keywords::IF)) {
        if_statement(alloc, left, tokens)
    } else if is_next(tokens, Keyword(keywords::FOR)) {
        for_statement(alloc, left, tokens)
    } else if is_next(tokens, Keyword(keywords::WHILE)) {
        while_statement(alloc, left, tokens)
    } else if is_next(tokens, Keyword(keywords::WHEN)) {
        when_statement(alloc, left, tokens)
    } else if is_next(tokens, Operator(operators::OPEN_PAREN)) {
        outputs_statement(alloc, left, tokens)
    } else {
        reference_statement(alloc, left, tokens)
    }
}

/// Outputs and the call that gives them.
fn outputs_statement<'t, 'a>(
    alloc: Global,
    left: u32,
    tokens: &'t [Token<'a>],
) -> Reading<'t, 'a, StatementKind>
    ensures reads { Gives with_rest result (reads_inside from_outputs left tokens.now) }
    ensures shorter { IfOk result (λ x. length x.1.now < length tokens.now) }
{
    let (outputs, rest) = enclosed_outputs(alloc, left, tokens)?;
    let (_, rest) = take(rest, Operator(operators::ASSIGN))?;
    let (called, rest) = reference(alloc, left, rest)?;
    let (args, rest) = call_arguments(alloc, left, rest)?;
    Ok((StatementKind::Outputs(outputs, called, args), rest))
}

/// Outputs in their parentheses.
#[tactic(auto, using(mo_grammar::proofs::Readers::none_left, mo_grammar::proofs::Readers::some_left))]
fn enclosed_outputs<'t, 'a>(
    alloc: Global,
    left: u32,
    tokens: &'t [Token<'a>],
) -> Reading<'t, 'a, List<Option<Expr>>>
    ensures reads { Gives with_rest result (reads_inside enclosed_outputs_form left tokens.now) }
    ensures shorter { IfOk result (λ x. length x.1.now < length tokens.now) }
{
    if left == 0 {
        return Err(past_limit(tokens, Operator(operators::OPEN_PAREN)));
    }
    let (_, rest) = take(tokens, Operator(operators::OPEN_PAREN))?;
    let (outputs, rest) = outputs(alloc, left - 1, rest)?;
    let (_, rest) = take(rest, Operator(operators::CLOSE_PAREN))?;
    Ok((outputs, rest))
}

/// An assignment, or the call of a name.
fn reference_statement<'t, 'a>(
    alloc: Global,
    left: u32,
    tokens: &'t [Token<'a>],
) -> Reading<'t, 'a, StatementKind>
    ensures reads { Gives with_rest result (reads_inside from_reference left tokens.now) }
    ensures shorter { IfOk result (λ x. length x.1.now < length tokens.now) }
{
    let (name, rest) = reference(alloc, left, tokens)?;
    if is_next(rest, Operator(operators::ASSIGN)) {
        let (_, rest) = take(rest, Operator(operators::ASSIGN))?;
        let (value, rest) = expression(alloc, left, rest)?;
        Ok((StatementKind::Assign(name, value), rest))
    } else {
        let (args, rest) = call_arguments(alloc, left, rest)?;
        Ok((StatementKind::Call(name, args), rest))
    }
}
