//! Short class definitions.
ghost use Rattle.std.specs.Prelude.{◌<◌, ◌≤◌, length, IfOk};
ghost use Rattle.mo_grammar.specs.Codes.{comma};
ghost use Rattle.mo_grammar.specs.Grammar.{either};
ghost use Rattle.mo_grammar.specs.Forms.{behind};
ghost use Rattle.mo_grammar.specs.Classes.{enumeration as enumeration_form, literals as literals_form, short_class as short_class_form};
ghost use Rattle.mo_grammar.specs.Answers.{Gives, with_rest, ReadsAs, reads_inside};
ghost use Rattle.mo_read_body.specs.steps.Parts.{short_definition, literal as literal_form, in_enumeration, between_parens};
ghost use Rattle.mo_class_parts.specs.Seen.{declares};

use crate::declarations::comment;
use crate::modifications::optional_modifiers;
use crate::values::optional_subscripts;
use mo_class_heads::{causality, class_prefixes};
use mo_class_parts::{causal_of_option, list_or_nothing, modifiers_or_none};
use mo_expr_parts::type_specifier;
use mo_grammar::{Reading, is_next, past_limit, take};
use mo_syntax::TokenKind::{Ident, Keyword, Operator};
use mo_syntax::{Body, ClassDefOf, List, Text, Token, What};
use mo_tables::{keywords, operators};
use std::alloc::Global;

/// The short class definition of an argument.
#[cycle(modification)]
pub fn short_class_definition<'t, 'a>(
    alloc: Global,
    left: u32,
    tokens: &'t [Token<'a>],
) -> Reading<'t, 'a, (Token<'a>, What)>
    ensures reads { ReadsAs declares result (reads_inside short_definition left tokens.now) }
    ensures shorter { IfOk result (λ x. length x.1.now < length tokens.now) }
{
    let ((kind, flags), rest) = class_prefixes(tokens)?;
    let (name, rest) = take(rest, Ident)?;
    let (_, rest) = take(rest, Operator(operators::EQUALS))?;
    let text = Text::from_str(alloc, name.text)?;
    let (body, rest) = short_body(alloc, left, rest)?;
    let class = ClassDefOf {
        kind,
        flags,
        name: text,
        place: name.place,
        body,
    };
    Ok(((name, What::Class(class)), rest))
}

/// What stands behind `=` in a short class definition: an enumeration, or a type with its modifiers.
#[cycle(modification)]
pub fn short_body<'t, 'a>(
    alloc: Global,
    left: u32,
    tokens: &'t [Token<'a>],
) -> Reading<'t, 'a, Body>
    ensures reads { Gives with_rest result (reads_inside (either enumeration_form short_class_form) left tokens.now) }
    ensures shorter { IfOk result (λ x. length x.1.now < length tokens.now) }
{
    if is_next(tokens, Keyword(keywords::ENUMERATION)) {
        enumeration(alloc, left, tokens)
    } else {
        short_class(alloc, left, tokens)
    }
}

/// A type with its dimensions and its modifiers.
#[cycle(modification)]
fn short_class<'t, 'a>(alloc: Global, left: u32, tokens: &'t [Token<'a>]) -> Reading<'t, 'a, Body>
    ensures reads { Gives with_rest result (reads_inside short_class_form left tokens.now) }
    ensures shorter { IfOk result (λ x. length x.1.now < length tokens.now) }
{
    let (way, rest) = causality(tokens);
    let (base, rest) = type_specifier(alloc, left, rest)?;
    let (subs, rest) = optional_subscripts(alloc, left, rest)?;
    let (mods, rest) = optional_modifiers(alloc, left, rest)?;
    let rest = comment(alloc, left, rest)?;
    let body = Body::Short {
        causal: causal_of_option(way),
        base,
        subs: list_or_nothing(alloc, subs),
        mods: modifiers_or_none(alloc, mods),
    };
    Ok((body, rest))
}

/// An enumeration with its comment.
#[cycle(modification)]
fn enumeration<'t, 'a>(alloc: Global, left: u32, tokens: &'t [Token<'a>]) -> Reading<'t, 'a, Body>
    ensures reads { Gives with_rest result (reads_inside enumeration_form left tokens.now) }
    ensures shorter { IfOk result (λ x. length x.1.now < length tokens.now) }
{
    let (_, rest) = take(tokens, Keyword(keywords::ENUMERATION))?;
    let (literals, rest) = enclosed_literals(alloc, left, rest)?;
    let rest = comment(alloc, left, rest)?;
    Ok((Body::Enumeration(literals), rest))
}

/// The literals of an enumeration in their parentheses, None for `:`.
#[cycle(modification)]
#[tactic(auto, using(mo_grammar::proofs::Readers::none_left, mo_grammar::proofs::Readers::some_left))]
fn enclosed_literals<'t, 'a>(
    alloc: Global,
    left: u32,
    tokens: &'t [Token<'a>],
) -> Reading<'t, 'a, Option<List<Text>>>
    ensures reads { Gives with_rest result (reads_inside (between_parens in_enumeration) left tokens.now) }
    ensures shorter { IfOk result (λ x. length x.1.now < length tokens.now) }
{
    if left == 0 {
        return Err(past_limit(tokens, Operator(operators::OPEN_PAREN)));
    }
    let (_, rest) = take(tokens, Operator(operators::OPEN_PAREN))?;
    let (literals, rest) = literals_or_open(alloc, left - 1, rest)?;
    let (_, rest) = take(rest, Operator(operators::CLOSE_PAREN))?;
    Ok((literals, rest))
}

/// The literals of an enumeration, None for `:`.
#[cycle(modification)]
fn literals_or_open<'t, 'a>(
    alloc: Global,
    left: u32,
    tokens: &'t [Token<'a>],
) -> Reading<'t, 'a, Option<List<Text>>>
    ensures reads { Gives with_rest result (reads_inside in_enumeration left tokens.now) }
    ensures no_longer { IfOk result (λ x. length x.1.now ≤ length tokens.now) }
{
    if is_next(tokens, Operator(operators::COLON)) {
        let (_, rest) = take(tokens, Operator(operators::COLON))?;
        Ok((None, rest))
    } else if is_next(tokens, Ident) {
        let (all, rest) = literals(alloc, left, tokens)?;
        Ok((Some(all), rest))
    } else {
        Ok((Some(List::new(alloc)), tokens))
    }
}

/// One literal or more.
#[cycle(modification)]
fn literals<'t, 'a>(
    alloc: Global,
    left: u32,
    tokens: &'t [Token<'a>],
) -> Reading<'t, 'a, List<Text>>
    ensures reads { Gives with_rest result (reads_inside literals_form left tokens.now) }
    ensures shorter { IfOk result (λ x. length x.1.now < length tokens.now) }
{
    let (first, mut rest) = literal(alloc, left, tokens)?;
    let mut all = List::new(alloc);
    all.push(first)?;
    'each: while is_next(rest, Operator(operators::COMMA)) {
        let (next, behind) = next_literal(alloc, left, rest)?;
        all.push(next)?;
        rest = behind;
    }
    Ok((all, rest))
}

/// A comma and a literal.
#[cycle(modification)]
fn next_literal<'t, 'a>(alloc: Global, left: u32, tokens: &'t [Token<'a>]) -> Reading<'t, 'a, Text>
    ensures reads { Gives with_rest result (reads_inside (behind comma literal_form) left tokens.now) }
    ensures shorter { IfOk result (λ x. length x.1.now < length tokens.now) }
{
    let (_, rest) = take(tokens, Operator(operators::COMMA))?;
    literal(alloc, left, rest)
}

/// A literal of an enumeration with its comment.
#[cycle(modification)]
fn literal<'t, 'a>(alloc: Global, left: u32, tokens: &'t [Token<'a>]) -> Reading<'t, 'a, Text>
    ensures reads { Gives with_rest result (reads_inside literal_form left tokens.now) }
    ensures shorter { IfOk result (λ x. length x.1.now < length tokens.now) }
{
    let (name, rest) = take(tokens, Ident)?;
    let rest = comment(alloc, left, rest)?;
    Ok((Text::from_str(alloc, name.text)?, rest))
}
