//! Equations.
ghost use Rattle.std.specs.Prelude.{◌<◌, length, IfOk};
ghost use Rattle.mo_grammar.specs.Lexeme.{lexemes};
ghost use Rattle.mo_grammar.specs.Symbols.{EquationItems, ForEquations};
ghost use Rattle.mo_grammar.specs.Classes.{for_eq, connect_eq, equality_or_call as equality_or_call_form};
ghost use Rattle.mo_grammar.specs.Language.{limits_inside, reads};
ghost use Rattle.mo_grammar.specs.Answers.{Gives, with_rest, reads_inside};
ghost use Rattle.mo_read_body.specs.steps.EquationParts.{equation_kind as equation_kind_form, equation_line as equation_line_form, connected};

use crate::declarations::comment;
use crate::if_equations::if_equation;
use crate::when_equations::when_equation;
use mo_class_parts::call_of_name;
use mo_grammar::{
    Fault, Halt, Reading, are_next, is_next, is_next_any, none_yet, past_limit, place_of, take,
};
use mo_read_expr::{expression, indices, reference, simple_expression};
use mo_syntax::TokenKind::{Ident, Keyword, Operator};
use mo_syntax::{Equation, EquationKind, EquationOf, List, Reference, Token};
use mo_tables::{keywords, operators};
use std::alloc::Global;

/// An equation with its comment.
#[cycle(equation)]
#[tactic(auto, using(mo_grammar::proofs::Readers::equation_items_are))]
pub fn equation<'t, 'a>(
    alloc: Global,
    left: u32,
    tokens: &'t [Token<'a>],
) -> Reading<'t, 'a, Equation>
    ensures reads { Gives with_rest result (reads EquationItems (limits_inside left) (lexemes tokens.now)) }
    ensures shorter { IfOk result (λ x. length x.1.now < length tokens.now) }
{
    let place = place_of(tokens);
    let (what, rest) = equation_kind(alloc, left, tokens)?;
    let rest = comment(alloc, left, rest)?;
    Ok((EquationOf { place, what }, rest))
}

/// An equation and a semicolon.
#[cycle(equation)]
pub fn equation_line<'t, 'a>(
    alloc: Global,
    left: u32,
    tokens: &'t [Token<'a>],
) -> Reading<'t, 'a, Equation>
    ensures reads { Gives with_rest result (reads_inside equation_line_form left tokens.now) }
    ensures shorter { IfOk result (λ x. length x.1.now < length tokens.now) }
{
    let (equation, rest) = equation(alloc, left, tokens)?;
    let (_, rest) = take(rest, Operator(operators::SEMICOLON))?;
    Ok((equation, rest))
}

/// What an equation says.
#[cycle(equation)]
fn equation_kind<'t, 'a>(
    alloc: Global,
    left: u32,
    tokens: &'t [Token<'a>],
) -> Reading<'t, 'a, EquationKind>
    ensures reads { Gives with_rest result (reads_inside equation_kind_form left tokens.now) }
    ensures shorter { IfOk result (λ x. length x.1.now < length tokens.now) }
{
    if is_next(tokens, Keyword(keywords::IF)) {
        if_equation(alloc, left, tokens)
    } else if is_next(tokens, Keyword(keywords::FOR)) {
        for_equation(alloc, left, tokens)
    } else if is_next(tokens, Keyword(keywords::WHEN)) {
        when_equation(alloc, left, tokens)
    } else if is_next(tokens, Keyword(keywords::CONNECT)) {
        connect_equation(alloc, left, tokens)
    } else {
        equality_or_call(alloc, left, tokens)
    }
}

/// Equations for each value of iteration variables.
#[cycle(equation)]
#[tactic(auto, using(mo_grammar::proofs::Readers::none_left, mo_grammar::proofs::Readers::some_left))]
fn for_equation<'t, 'a>(
    alloc: Global,
    left: u32,
    tokens: &'t [Token<'a>],
) -> Reading<'t, 'a, EquationKind>
    ensures reads { Gives with_rest result (reads_inside for_eq left tokens.now) }
    ensures shorter { IfOk result (λ x. length x.1.now < length tokens.now) }
{
    if left == 0 {
        return Err(past_limit(tokens, Keyword(keywords::FOR)));
    }
    let (_, rest) = take(tokens, Keyword(keywords::FOR))?;
    let (indices, rest) = indices(alloc, left - 1, rest)?;
    let (_, rest) = take(rest, Keyword(keywords::LOOP))?;
    let (equations, rest) = for_equations(alloc, left - 1, rest)?;
    Ok((EquationKind::For(indices, equations), rest))
}

/// Equations up to `end for`.
#[cycle(equation)]
#[tactic(auto, using(crate::proofs::Listing::for_ends, crate::proofs::Listing::for_stuck))]
fn for_equations<'t, 'a>(
    alloc: Global,
    left: u32,
    tokens: &'t [Token<'a>],
) -> Reading<'t, 'a, List<Equation>>
    ensures reads { Gives with_rest result (reads ForEquations (limits_inside left) (lexemes tokens.now)) }
    ensures shorter { IfOk result (λ x. length x.1.now < length tokens.now) }
{
    let (mut all, mut rest) = none_yet(alloc, tokens);
    'each: while !are_next(rest, Keyword(keywords::END), &[Keyword(keywords::FOR)]) {
        let (next, behind) = equation_line(alloc, left, rest)?;
        all.push(next)?;
        rest = behind;
    }
    let (_, rest) = take(rest, Keyword(keywords::END))?;
    let (_, rest) = take(rest, Keyword(keywords::FOR))?;
    Ok((all, rest))
}

/// A connection.
fn connect_equation<'t, 'a>(
    alloc: Global,
    left: u32,
    tokens: &'t [Token<'a>],
) -> Reading<'t, 'a, EquationKind>
    ensures reads { Gives with_rest result (reads_inside connect_eq left tokens.now) }
    ensures shorter { IfOk result (λ x. length x.1.now < length tokens.now) }
{
    let (_, rest) = take(tokens, Keyword(keywords::CONNECT))?;
    let ((one, other), rest) = connected_ends(alloc, left, rest)?;
    Ok((EquationKind::Connect(one, other), rest))
}

/// The two ends of a connection, in their parentheses.
#[tactic(auto, using(mo_grammar::proofs::Readers::none_left, mo_grammar::proofs::Readers::some_left))]
fn connected_ends<'t, 'a>(
    alloc: Global,
    left: u32,
    tokens: &'t [Token<'a>],
) -> Reading<'t, 'a, (Reference, Reference)>
    ensures reads { Gives with_rest result (reads_inside connected left tokens.now) }
    ensures shorter { IfOk result (λ x. length x.1.now < length tokens.now) }
{
    if left == 0 {
        return Err(past_limit(tokens, Operator(operators::OPEN_PAREN)));
    }
    let (_, rest) = take(tokens, Operator(operators::OPEN_PAREN))?;
    let (one, rest) = reference(alloc, left - 1, rest)?;
    let (_, rest) = take(rest, Operator(operators::COMMA))?;
    let (other, rest) = reference(alloc, left - 1, rest)?;
    let (_, rest) = take(rest, Operator(operators::CLOSE_PAREN))?;
    Ok(((one, other), rest))
}

/// An equality, or the call of a name.
fn equality_or_call<'t, 'a>(
    alloc: Global,
    left: u32,
    tokens: &'t [Token<'a>],
) -> Reading<'t, 'a, EquationKind>
    ensures reads { Gives with_rest result (reads_inside equality_or_call_form left tokens.now) }
    ensures shorter { IfOk result (λ x. length x.1.now < length tokens.now) }
{
    let (one, rest) = simple_expression(alloc, left, tokens)?;
    if is_next(rest, Operator(operators::EQUALS)) {
        let (_, rest) = take(rest, Operator(operators::EQUALS))?;
        let (other, rest) = expression(alloc, left, rest)?;
        return Ok((EquationKind::Equal(one, other), rest));
    }
    // no parenthesis and no sign stands around a call that begins so
    if is_next_any(tokens, &[Ident, Operator(operators::DOT)])
        && let Some((called, args)) = call_of_name(one)
    {
        return Ok((EquationKind::Call(called, args), rest));
    }
    Err(Halt::Stuck(Fault::Misplaced, rest))
}
