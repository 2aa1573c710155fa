//! What may be left out in a class.
ghost use Rattle.std.specs.Prelude.{◌≤◌, length, IfOk};
ghost use Rattle.mo_grammar.specs.Lexeme.{lexemes};
ghost use Rattle.mo_grammar.specs.Grammar.{symbol};
ghost use Rattle.mo_grammar.specs.Forms.{optional};
ghost use Rattle.mo_grammar.specs.Symbols.{Subscripts, ClassMods};
ghost use Rattle.mo_grammar.specs.Classes.{annotation_part};
ghost use Rattle.mo_grammar.specs.Language.{reads_form};
ghost use Rattle.mo_grammar.specs.Answers.{Gives, with_rest};
ghost use Rattle.mo_class_heads.specs.Left.{limits};

use crate::plain::{annotation, class_modification, subscripts};
use mo_class_heads::Left;
use mo_grammar::{Reading, is_next};
use mo_syntax::TokenKind::{Keyword, Operator};
use mo_syntax::{Expr, List, Mods, Token};
use mo_tables::{keywords, operators};
use std::alloc::Global;

/// Dimensions, where they stand there.
pub(crate) fn optional_subscripts<'t, 'a>(
    alloc: Global,
    left: Left,
    tokens: &'t [Token<'a>],
) -> Reading<'t, 'a, Option<List<Option<Expr>>>>
    ensures reads { Gives with_rest result (reads_form (optional (symbol Subscripts)) (limits left.entry) (lexemes tokens.now)) }
    ensures no_longer { IfOk result (λ x. length x.1.now ≤ length tokens.now) }
{
    if !is_next(tokens, Operator(operators::OPEN_BRACKET)) {
        return Ok((None, tokens));
    }
    let (subs, rest) = subscripts(alloc, left, tokens)?;
    Ok((Some(subs), rest))
}

/// Modifiers, where they stand there.
pub(crate) fn optional_modifiers<'t, 'a>(
    alloc: Global,
    left: Left,
    tokens: &'t [Token<'a>],
) -> Reading<'t, 'a, Option<Mods>>
    ensures reads { Gives with_rest result (reads_form (optional (symbol ClassMods)) (limits left.entry) (lexemes tokens.now)) }
    ensures no_longer { IfOk result (λ x. length x.1.now ≤ length tokens.now) }
{
    if !is_next(tokens, Operator(operators::OPEN_PAREN)) {
        return Ok((None, tokens));
    }
    let (mods, rest) = class_modification(alloc, left, tokens)?;
    Ok((Some(mods), rest))
}

/// An annotation, where one stands there.
pub(crate) fn optional_annotation<'t, 'a>(
    alloc: Global,
    left: Left,
    tokens: &'t [Token<'a>],
) -> Reading<'t, 'a, Option<()>>
    ensures reads { Gives with_rest result (reads_form (optional annotation_part) (limits left.entry) (lexemes tokens.now)) }
    ensures no_longer { IfOk result (λ x. length x.1.now ≤ length tokens.now) }
{
    if !is_next(tokens, Keyword(keywords::ANNOTATION)) {
        return Ok((None, tokens));
    }
    let rest = annotation(alloc, left, tokens)?;
    Ok((Some(()), rest))
}
