//! When-equations.
ghost use Rattle.std.specs.Prelude.{◌<◌, ◌≤◌, length, IfOk};
ghost use Rattle.mo_grammar.specs.Lexeme.{lexemes};
ghost use Rattle.mo_grammar.specs.Symbols.{WhenEquations};
ghost use Rattle.mo_grammar.specs.Classes.{when_eq};
ghost use Rattle.mo_grammar.specs.Language.{limits_inside, reads};
ghost use Rattle.mo_grammar.specs.Answers.{Gives, with_rest, reads_inside};
ghost use Rattle.mo_read_body.specs.steps.EquationParts.{in_when, when_branch as when_branch_form, elsewhen_tail, reads_when_tail, behind_equations, behind_branch, joined_branch};

use crate::equations::equation_line;
use mo_class_parts::ends_when_branch;
use mo_grammar::{Reading, is_next, none_yet, past_limit, take};
use mo_read_expr::expression;
use mo_syntax::TokenKind::Keyword;
use mo_syntax::{Equation, EquationKind, Expr, List, Token};
use mo_tables::keywords;
use std::alloc::Global;

/// Equations at an event.
#[cycle(equation)]
#[tactic(auto, using(mo_grammar::proofs::Readers::none_left, mo_grammar::proofs::Readers::some_left))]
pub fn when_equation<'t, 'a>(
    alloc: Global,
    left: u32,
    tokens: &'t [Token<'a>],
) -> Reading<'t, 'a, EquationKind>
    ensures reads { Gives with_rest result (reads_inside when_eq left tokens.now) }
    ensures shorter { IfOk result (λ x. length x.1.now < length tokens.now) }
{
    if left == 0 {
        return Err(past_limit(tokens, Keyword(keywords::WHEN)));
    }
    let (_, rest) = take(tokens, Keyword(keywords::WHEN))?;
    when_branches(alloc, left - 1, rest)
}

/// The branches of a when-equation, and its end.
#[cycle(equation)]
#[tactic(auto, using(crate::proofs::Listing::tail_elsewhen, crate::proofs::Listing::tail_end_when))]
fn when_branches<'t, 'a>(
    alloc: Global,
    left: u32,
    tokens: &'t [Token<'a>],
) -> Reading<'t, 'a, EquationKind>
    ensures reads { Gives with_rest result (reads_inside in_when left tokens.now) }
    ensures shorter { IfOk result (λ x. length x.1.now < length tokens.now) }
{
    let (first, mut rest) = when_branch(alloc, left, tokens)?;
    let mut all = List::new(alloc);
    all.push(first)?;
    'each: while is_next(rest, Keyword(keywords::ELSEWHEN)) {
        let (next, behind) = elsewhen_branch(alloc, left, rest)?;
        all.push(next)?;
        rest = behind;
    }
    let (_, rest) = take(rest, Keyword(keywords::END))?;
    let (_, rest) = take(rest, Keyword(keywords::WHEN))?;
    Ok((EquationKind::When(all), rest))
}

/// One more branch.
#[cycle(equation)]
fn elsewhen_branch<'t, 'a>(
    alloc: Global,
    left: u32,
    tokens: &'t [Token<'a>],
) -> Reading<'t, 'a, (Expr, List<Equation>)>
    ensures reads { Gives (λ x. joined_branch x.0 (reads_when_tail (limits_inside left) (lexemes x.1.now))) result (reads_inside elsewhen_tail left tokens.now) }
    ensures shorter { IfOk result (λ x. length x.1.now < length tokens.now) }
{
    let (_, rest) = take(tokens, Keyword(keywords::ELSEWHEN))?;
    when_branch(alloc, left, rest)
}

/// A condition and its equations.
#[cycle(equation)]
fn when_branch<'t, 'a>(
    alloc: Global,
    left: u32,
    tokens: &'t [Token<'a>],
) -> Reading<'t, 'a, (Expr, List<Equation>)>
    ensures reads { Gives (λ x. behind_branch x.0 (reads_when_tail (limits_inside left) (lexemes x.1.now))) result (reads_inside when_branch_form left tokens.now) }
    ensures shorter { IfOk result (λ x. length x.1.now < length tokens.now) }
{
    let (condition, rest) = expression(alloc, left, tokens)?;
    let (_, rest) = take(rest, Keyword(keywords::THEN))?;
    let (equations, rest) = when_equations(alloc, left, rest)?;
    Ok(((condition, equations), rest))
}

/// The equations of a branch, up to the next branch or the end.
#[cycle(equation)]
#[tactic(auto, using(crate::proofs::Listing::when_ends, crate::proofs::Listing::when_stuck))]
fn when_equations<'t, 'a>(
    alloc: Global,
    left: u32,
    tokens: &'t [Token<'a>],
) -> Reading<'t, 'a, List<Equation>>
    ensures reads { Gives (λ x. behind_equations x.0 (reads_when_tail (limits_inside left) (lexemes x.1.now))) result (reads WhenEquations (limits_inside left) (lexemes tokens.now)) }
    ensures no_longer { IfOk result (λ x. length x.1.now ≤ length tokens.now) }
{
    let (mut all, mut rest) = none_yet(alloc, tokens);
    'each: while !ends_when_branch(rest) {
        let (next, behind) = equation_line(alloc, left, rest)?;
        all.push(next)?;
        rest = behind;
    }
    Ok((all, rest))
}
