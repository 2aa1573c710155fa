//! Modifications.
ghost use Rattle.std.specs.Prelude.{◌<◌, ◌≤◌, length, IfOk};
ghost use Rattle.mo_grammar.specs.Lexeme.{lexemes};
ghost use Rattle.mo_grammar.specs.Codes.{comma};
ghost use Rattle.mo_grammar.specs.Grammar.{symbol};
ghost use Rattle.mo_grammar.specs.Forms.{optional, behind, separated};
ghost use Rattle.mo_grammar.specs.Symbols.{ClassMods, ModArguments};
ghost use Rattle.mo_grammar.specs.Classes.{modification as modification_form, replaceable_arg};
ghost use Rattle.mo_grammar.specs.Language.{limits_inside, reads};
ghost use Rattle.mo_grammar.specs.Answers.{Gives, with_rest, ReadsAs, reads_inside};
ghost use Rattle.mo_read_body.specs.steps.Parts.{redeclared as redeclared_form, given as given_form, modifying as modifying_form};
ghost use Rattle.mo_class_parts.specs.Seen.{declares_limited, argued};

use crate::declarations::{constraint, declares};
use crate::values::optional_value;
use mo_class_heads::strings;
use mo_class_parts::{
    Argued, argument_of, element, list_or_nothing, modifiers_or_none, modify, named,
};
use mo_expr_parts::name;
use mo_grammar::{Reading, flag, is_next, is_next_any, past_limit, place_of, take, take_any};
use mo_read_expr::expression;
use mo_syntax::TokenKind::{Ident, Keyword, Operator};
use mo_syntax::{Argument, Expr, Give, List, Mods, ModsOf, Reference, Token, What};
use mo_tables::{keywords, operators};
use std::alloc::Global;

/// Modifiers, in their parentheses.
#[cycle(modification)]
#[tactic(auto, using(mo_grammar::proofs::Readers::class_mods_are, mo_grammar::proofs::Readers::none_left, mo_grammar::proofs::Readers::some_left))]
pub fn class_modification<'t, 'a>(
    alloc: Global,
    left: u32,
    tokens: &'t [Token<'a>],
) -> Reading<'t, 'a, Mods>
    ensures reads { Gives with_rest result (reads ClassMods (limits_inside left) (lexemes tokens.now)) }
    ensures shorter { IfOk result (λ x. length x.1.now < length tokens.now) }
{
    if left == 0 {
        return Err(past_limit(tokens, Operator(operators::OPEN_PAREN)));
    }
    let (_, rest) = take(tokens, Operator(operators::OPEN_PAREN))?;
    let (arguments, rest) = arguments(alloc, left - 1, rest)?;
    let (_, rest) = take(rest, Operator(operators::CLOSE_PAREN))?;
    Ok((ModsOf(list_or_nothing(alloc, arguments)), rest))
}

/// Modifiers, where they stand there.
#[cycle(modification)]
pub fn optional_modifiers<'t, 'a>(
    alloc: Global,
    left: u32,
    tokens: &'t [Token<'a>],
) -> Reading<'t, 'a, Option<Mods>>
    ensures reads { Gives with_rest result (reads_inside (optional (symbol ClassMods)) left tokens.now) }
    ensures no_longer { IfOk result (λ x. length x.1.now ≤ length tokens.now) }
{
    if !is_next(tokens, Operator(operators::OPEN_PAREN)) {
        return Ok((None, tokens));
    }
    let (mods, rest) = class_modification(alloc, left, tokens)?;
    Ok((Some(mods), rest))
}

/// The arguments of modifiers, where some stand there.
#[cycle(modification)]
fn arguments<'t, 'a>(
    alloc: Global,
    left: u32,
    tokens: &'t [Token<'a>],
) -> Reading<'t, 'a, Option<List<Argument>>>
    ensures reads { Gives with_rest result (reads_inside (optional (separated comma (symbol ModArguments))) left tokens.now) }
    ensures no_longer { IfOk result (λ x. length x.1.now ≤ length tokens.now) }
{
    if !is_next_any(
        tokens,
        &[
            Ident,
            Keyword(keywords::EACH),
            Keyword(keywords::FINAL),
            Keyword(keywords::REDECLARE),
            Keyword(keywords::REPLACEABLE),
        ],
    ) {
        return Ok((None, tokens));
    }
    let (all, rest) = listed_arguments(alloc, left, tokens)?;
    Ok((Some(all), rest))
}

/// One argument or more.
#[cycle(modification)]
fn listed_arguments<'t, 'a>(
    alloc: Global,
    left: u32,
    tokens: &'t [Token<'a>],
) -> Reading<'t, 'a, List<Argument>>
    ensures reads { Gives with_rest result (reads_inside (separated comma (symbol ModArguments)) left tokens.now) }
    ensures shorter { IfOk result (λ x. length x.1.now < length tokens.now) }
{
    let (first, mut rest) = argument(alloc, left, tokens)?;
    let mut all = List::new(alloc);
    all.push(first)?;
    'each: while is_next(rest, Operator(operators::COMMA)) {
        let (next, behind) = next_argument(alloc, left, rest)?;
        all.push(next)?;
        rest = behind;
    }
    Ok((all, rest))
}

/// A comma and an argument.
#[cycle(modification)]
fn next_argument<'t, 'a>(
    alloc: Global,
    left: u32,
    tokens: &'t [Token<'a>],
) -> Reading<'t, 'a, Argument>
    ensures reads { Gives with_rest result (reads_inside (behind comma (symbol ModArguments)) left tokens.now) }
    ensures shorter { IfOk result (λ x. length x.1.now < length tokens.now) }
{
    let (_, rest) = take(tokens, Operator(operators::COMMA))?;
    argument(alloc, left, rest)
}

/// An argument.
#[cycle(modification)]
#[tactic(auto, using(mo_grammar::proofs::Readers::mod_arguments_are))]
fn argument<'t, 'a>(alloc: Global, left: u32, tokens: &'t [Token<'a>]) -> Reading<'t, 'a, Argument>
    ensures reads { Gives with_rest result (reads ModArguments (limits_inside left) (lexemes tokens.now)) }
    ensures shorter { IfOk result (λ x. length x.1.now < length tokens.now) }
{
    if is_next(tokens, Keyword(keywords::REDECLARE)) {
        let (_, rest) = take(tokens, Keyword(keywords::REDECLARE))?;
        let (each, rest) = flag(rest, Keyword(keywords::EACH));
        let (last, rest) = flag(rest, Keyword(keywords::FINAL));
        let (argued, rest) = redeclared(alloc, left, rest)?;
        Ok((argument_of(alloc, each, last, argued)?, rest))
    } else {
        let (each, rest) = flag(tokens, Keyword(keywords::EACH));
        let (last, rest) = flag(rest, Keyword(keywords::FINAL));
        let (argued, rest) = given(alloc, left, rest)?;
        Ok((argument_of(alloc, each, last, argued)?, rest))
    }
}

/// What an argument redeclares.
#[cycle(modification)]
fn redeclared<'t, 'a>(
    alloc: Global,
    left: u32,
    tokens: &'t [Token<'a>],
) -> Reading<'t, 'a, Argued<'a>>
    ensures reads { ReadsAs argued result (reads_inside redeclared_form left tokens.now) }
    ensures shorter { IfOk result (λ x. length x.1.now < length tokens.now) }
{
    if is_next(tokens, Keyword(keywords::REPLACEABLE)) {
        let (((name, what), limit), rest) = replaceable_argument(alloc, left, tokens)?;
        let give = Give::Redeclare(element(true, what, limit));
        Ok((named(alloc, name, give)?, rest))
    } else {
        let ((name, what), rest) = declares(alloc, left, tokens)?;
        let give = Give::Redeclare(element(false, what, None));
        Ok((named(alloc, name, give)?, rest))
    }
}

/// What an argument replaces or modifies.
#[cycle(modification)]
fn given<'t, 'a>(alloc: Global, left: u32, tokens: &'t [Token<'a>]) -> Reading<'t, 'a, Argued<'a>>
    ensures reads { ReadsAs argued result (reads_inside given_form left tokens.now) }
    ensures shorter { IfOk result (λ x. length x.1.now < length tokens.now) }
{
    if is_next(tokens, Keyword(keywords::REPLACEABLE)) {
        let (((name, what), limit), rest) = replaceable_argument(alloc, left, tokens)?;
        let give = Give::Replaceable(element(true, what, limit));
        Ok((named(alloc, name, give)?, rest))
    } else {
        modifying(alloc, left, tokens)
    }
}

/// A replaceable class or component of an argument, and what constrains it.
#[cycle(modification)]
fn replaceable_argument<'t, 'a>(
    alloc: Global,
    left: u32,
    tokens: &'t [Token<'a>],
) -> Reading<'t, 'a, ((Token<'a>, What), Option<(Reference, Mods)>)>
    ensures reads { ReadsAs declares_limited result (reads_inside replaceable_arg left tokens.now) }
    ensures shorter { IfOk result (λ x. length x.1.now < length tokens.now) }
{
    let (_, rest) = take(tokens, Keyword(keywords::REPLACEABLE))?;
    let ((name, what), rest) = declares(alloc, left, rest)?;
    if is_next(rest, Keyword(keywords::CONSTRAINEDBY)) {
        let (limit, rest) = constraint(alloc, left, rest)?;
        Ok((((name, what), Some(limit)), rest))
    } else {
        Ok((((name, what), None), rest))
    }
}

/// A name with its modification.
#[cycle(modification)]
fn modifying<'t, 'a>(
    alloc: Global,
    left: u32,
    tokens: &'t [Token<'a>],
) -> Reading<'t, 'a, Argued<'a>>
    ensures reads { ReadsAs argued result (reads_inside modifying_form left tokens.now) }
    ensures shorter { IfOk result (λ x. length x.1.now < length tokens.now) }
{
    let place = place_of(tokens);
    let (name, rest) = name(alloc, left, tokens)?;
    let (binding, rest) = optional_modification(alloc, left, rest)?;
    let rest = strings(rest)?;
    let give = modify(alloc, binding);
    Ok((Argued { name, place, give }, rest))
}

/// A modification, where one stands there.
#[cycle(modification)]
pub fn optional_modification<'t, 'a>(
    alloc: Global,
    left: u32,
    tokens: &'t [Token<'a>],
) -> Reading<'t, 'a, Option<(Mods, Option<Expr>)>>
    ensures reads { Gives with_rest result (reads_inside (optional modification_form) left tokens.now) }
    ensures no_longer { IfOk result (λ x. length x.1.now ≤ length tokens.now) }
{
    if !is_next_any(
        tokens,
        &[
            Operator(operators::OPEN_PAREN),
            Operator(operators::EQUALS),
            Operator(operators::ASSIGN),
        ],
    ) {
        return Ok((None, tokens));
    }
    let (binding, rest) = modification(alloc, left, tokens)?;
    Ok((Some(binding), rest))
}

/// Nested modifiers and a value, or a value alone.
#[cycle(modification)]
fn modification<'t, 'a>(
    alloc: Global,
    left: u32,
    tokens: &'t [Token<'a>],
) -> Reading<'t, 'a, (Mods, Option<Expr>)>
    ensures reads { Gives with_rest result (reads_inside modification_form left tokens.now) }
    ensures shorter { IfOk result (λ x. length x.1.now < length tokens.now) }
{
    if is_next(tokens, Operator(operators::OPEN_PAREN)) {
        let (mods, rest) = class_modification(alloc, left, tokens)?;
        let (value, rest) = optional_value(alloc, left, rest)?;
        Ok(((mods, value), rest))
    } else {
        let marks = [Operator(operators::EQUALS), Operator(operators::ASSIGN)];
        let (_, rest) = take_any(tokens, &marks)?;
        let (value, rest) = expression(alloc, left, rest)?;
        Ok(((modifiers_or_none(alloc, None), Some(value)), rest))
    }
}
