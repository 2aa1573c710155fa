//! If-equations.
ghost use Rattle.std.specs.Prelude.{◌<◌, ◌≤◌, length, IfOk};
ghost use Rattle.mo_grammar.specs.Lexeme.{lexemes};
ghost use Rattle.mo_grammar.specs.Symbols.{IfEquations, ElseEquations};
ghost use Rattle.mo_grammar.specs.Classes.{if_eq};
ghost use Rattle.mo_grammar.specs.Language.{limits_inside, reads};
ghost use Rattle.mo_grammar.specs.Answers.{Gives, with_rest, reads_inside};
ghost use Rattle.mo_read_body.specs.steps.EquationParts.{in_if, if_branch as if_branch_form, if_end as if_end_form, elseif_tail, reads_if_tail, behind_equations, behind_branch, joined_branch_else};

use crate::equations::equation_line;
use mo_class_parts::ends_if_branch;
use mo_grammar::{Reading, are_next, is_next, none_yet, past_limit, take};
use mo_read_expr::expression;
use mo_syntax::TokenKind::Keyword;
use mo_syntax::{Equation, EquationKind, Expr, List, Token};
use mo_tables::keywords;
use std::alloc::Global;

/// Equations that hold by conditions.
#[cycle(equation)]
#[tactic(auto, using(mo_grammar::proofs::Readers::none_left, mo_grammar::proofs::Readers::some_left))]
pub fn if_equation<'t, 'a>(
    alloc: Global,
    left: u32,
    tokens: &'t [Token<'a>],
) -> Reading<'t, 'a, EquationKind>
    ensures reads { Gives with_rest result (reads_inside if_eq left tokens.now) }
    ensures shorter { IfOk result (λ x. length x.1.now < length tokens.now) }
{
    if left == 0 {
        return Err(past_limit(tokens, Keyword(keywords::IF)));
    }
    let (_, rest) = take(tokens, Keyword(keywords::IF))?;
    if_branches(alloc, left - 1, rest)
}

/// The branches of an if-equation, and its end.
#[cycle(equation)]
#[tactic(auto, using(crate::proofs::Listing::tail_elseif, crate::proofs::Listing::tail_end_if))]
fn if_branches<'t, 'a>(
    alloc: Global,
    left: u32,
    tokens: &'t [Token<'a>],
) -> Reading<'t, 'a, EquationKind>
    ensures reads { Gives with_rest result (reads_inside in_if left tokens.now) }
    ensures shorter { IfOk result (λ x. length x.1.now < length tokens.now) }
{
    let (first, mut rest) = if_branch(alloc, left, tokens)?;
    let mut all = List::new(alloc);
    all.push(first)?;
    'each: while is_next(rest, Keyword(keywords::ELSEIF)) {
        let (next, behind) = elseif_branch(alloc, left, rest)?;
        all.push(next)?;
        rest = behind;
    }
    let (otherwise, rest) = if_end(alloc, left, rest)?;
    Ok((EquationKind::If(all, otherwise), rest))
}

/// The equations of `else`, if there is one, and the end.
#[cycle(equation)]
fn if_end<'t, 'a>(
    alloc: Global,
    left: u32,
    tokens: &'t [Token<'a>],
) -> Reading<'t, 'a, List<Equation>>
    ensures reads { Gives with_rest result (reads_inside if_end_form left tokens.now) }
    ensures shorter { IfOk result (λ x. length x.1.now < length tokens.now) }
{
    if is_next(tokens, Keyword(keywords::ELSE)) {
        let (_, rest) = take(tokens, Keyword(keywords::ELSE))?;
        else_equations(alloc, left, rest)
    } else {
        let (_, rest) = take(tokens, Keyword(keywords::END))?;
        let (_, rest) = take(rest, Keyword(keywords::IF))?;
        Ok((List::new(alloc), rest))
    }
}

/// Equations up to `end if`.
#[cycle(equation)]
#[tactic(auto, using(crate::proofs::Listing::else_ends, crate::proofs::Listing::else_stuck))]
fn else_equations<'t, 'a>(
    alloc: Global,
    left: u32,
    tokens: &'t [Token<'a>],
) -> Reading<'t, 'a, List<Equation>>
    ensures reads { Gives with_rest result (reads ElseEquations (limits_inside left) (lexemes tokens.now)) }
    ensures shorter { IfOk result (λ x. length x.1.now < length tokens.now) }
{
    let (mut all, mut rest) = none_yet(alloc, tokens);
    'each: while !are_next(rest, Keyword(keywords::END), &[Keyword(keywords::IF)]) {
        let (next, behind) = equation_line(alloc, left, rest)?;
        all.push(next)?;
        rest = behind;
    }
    let (_, rest) = take(rest, Keyword(keywords::END))?;
    let (_, rest) = take(rest, Keyword(keywords::IF))?;
    Ok((all, rest))
}

/// One more branch.
#[cycle(equation)]
fn elseif_branch<'t, 'a>(
    alloc: Global,
    left: u32,
    tokens: &'t [Token<'a>],
) -> Reading<'t, 'a, (Expr, List<Equation>)>
    ensures reads { Gives (λ x. joined_branch_else x.0 (reads_if_tail (limits_inside left) (lexemes x.1.now))) result (reads_inside elseif_tail left tokens.now) }
    ensures shorter { IfOk result (λ x. length x.1.now < length tokens.now) }
{
    let (_, rest) = take(tokens, Keyword(keywords::ELSEIF))?;
    if_branch(alloc, left, rest)
}

/// A condition and its equations.
#[cycle(equation)]
fn if_branch<'t, 'a>(
    alloc: Global,
    left: u32,
    tokens: &'t [Token<'a>],
) -> Reading<'t, 'a, (Expr, List<Equation>)>
    ensures reads { Gives (λ x. behind_branch x.0 (reads_if_tail (limits_inside left) (lexemes x.1.now))) result (reads_inside if_branch_form left tokens.now) }
    ensures shorter { IfOk result (λ x. length x.1.now < length tokens.now) }
{
    let (condition, rest) = expression(alloc, left, tokens)?;
    let (_, rest) = take(rest, Keyword(keywords::THEN))?;
    let (equations, rest) = if_equations(alloc, left, rest)?;
    Ok(((condition, equations), rest))
}

/// The equations of a branch, up to the next branch or the end.
#[cycle(equation)]
#[tactic(auto, using(crate::proofs::Listing::if_ends, crate::proofs::Listing::if_stuck))]
fn if_equations<'t, 'a>(
    alloc: Global,
    left: u32,
    tokens: &'t [Token<'a>],
) -> Reading<'t, 'a, List<Equation>>
    ensures reads { Gives (λ x. behind_equations x.0 (reads_if_tail (limits_inside left) (lexemes x.1.now))) result (reads IfEquations (limits_inside left) (lexemes tokens.now)) }
    ensures no_longer { IfOk result (λ x. length x.1.now ≤ length tokens.now) }
{
    let (mut all, mut rest) = none_yet(alloc, tokens);
    'each: while !ends_if_branch(rest) {
        let (next, behind) = equation_line(alloc, left, rest)?;
        all.push(next)?;
        rest = behind;
    }
    Ok((all, rest))
}
