//! Names, which hold no expression.
ghost use Rattle.std.specs.Prelude.{◌<◌, [], ◌∷◌, length, IfOk};
ghost use Rattle.mo_grammar.specs.Lexeme.{lexeme, lexemes};
ghost use Rattle.mo_grammar.specs.Codes.{ident, dot};
ghost use Rattle.mo_grammar.specs.Grammar.{token};
ghost use Rattle.mo_grammar.specs.Forms.{behind};
ghost use Rattle.mo_grammar.specs.Symbols.{TypeSpecs, Names};
ghost use Rattle.mo_grammar.specs.Language.{limits_inside, reads};
ghost use Rattle.mo_grammar.specs.Answers.{Gives, with_rest, ReadsAs, reads_whole};

use crate::trees::plain_parts;
use mo_grammar::{Reading, flag, is_next, take};
use mo_syntax::TokenKind::{Ident, Operator};
use mo_syntax::{List, Reference, Token};
use mo_tables::operators;
use std::alloc::Global;

/// The name of a type or function, perhaps with a dot before it.
#[tactic(auto, using(mo_grammar::proofs::Readers::type_specs_are))]
pub fn type_specifier<'t, 'a>(
    alloc: Global,
    left: u32,
    tokens: &'t [Token<'a>],
) -> Reading<'t, 'a, Reference>
    ensures reads { Gives with_rest result (reads TypeSpecs (limits_inside left) (lexemes tokens.now)) }
    ensures shorter { IfOk result (λ x. length x.1.now < length tokens.now) }
{
    let (top, rest) = flag(tokens, Operator(operators::DOT));
    let (names, rest) = name(alloc, left, rest)?;
    let parts = plain_parts(alloc, names.as_slice())?;
    Ok((Reference { top, parts }, rest))
}

/// The identifiers of a dotted name.
#[tactic(auto, using(mo_grammar::proofs::Readers::names_are))]
pub fn name<'t, 'a>(
    alloc: Global,
    _left: u32,
    tokens: &'t [Token<'a>],
) -> Reading<'t, 'a, List<Token<'a>>>
    ensures reads { ReadsAs lexemes result (reads Names (limits_inside _left) (lexemes tokens.now)) }
    ensures shorter { IfOk result (λ x. length x.1.now < length tokens.now) }
{
    let (first, mut rest) = take(tokens, Ident)?;
    let mut all = List::new(alloc);
    all.push(first)?;
    'each: while is_next(rest, Operator(operators::DOT)) {
        let (next, behind) = name_behind_dot(rest)?;
        all.push(next)?;
        rest = behind;
    }
    Ok((all, rest))
}

/// A dot and an identifier.
pub fn name_behind_dot<'t, 'a>(tokens: &'t [Token<'a>]) -> Reading<'t, 'a, Token<'a>>
    ensures reads { ReadsAs lexeme result (reads_whole (behind dot (token (ident ∷ []))) tokens.now) }
    ensures shorter { IfOk result (λ x. length x.1.now < length tokens.now) }
{
    let (_, rest) = take(tokens, Operator(operators::DOT))?;
    let (next, rest) = take(rest, Ident)?;
    Ok((next, rest))
}
