//! Identifiers between commas, and names in a class.
ghost use Rattle.std.specs.Prelude.{◌<◌, [], ◌∷◌, length, IfOk};
ghost use Rattle.mo_grammar.specs.Lexeme.{lexeme, lexemes};
ghost use Rattle.mo_grammar.specs.Codes.{ident, comma};
ghost use Rattle.mo_grammar.specs.Grammar.{token};
ghost use Rattle.mo_grammar.specs.Forms.{behind, separated};
ghost use Rattle.mo_grammar.specs.Symbols.{Names};
ghost use Rattle.mo_grammar.specs.Language.{reads};
ghost use Rattle.mo_grammar.specs.Answers.{ReadsAs, reads_whole};
ghost use Rattle.mo_class_heads.specs.Left.{limits};

use crate::nesting::Left;
use mo_grammar::{Reading, is_next, take};
use mo_syntax::TokenKind::{Ident, Operator};
use mo_syntax::{List, Token};
use mo_tables::operators;
use std::alloc::Global;

/// The identifiers of a dotted name.
pub fn name<'t, 'a>(
    alloc: Global,
    left: Left,
    tokens: &'t [Token<'a>],
) -> Reading<'t, 'a, List<Token<'a>>>
    ensures reads { ReadsAs lexemes result (reads Names (limits left.entry) (lexemes tokens.now)) }
    ensures shorter { IfOk result (λ x. length x.1.now < length tokens.now) }
{
    mo_expr_parts::name(alloc, left.constructs, tokens)
}

/// Identifiers with commas between them.
pub fn identifiers<'t, 'a>(
    alloc: Global,
    tokens: &'t [Token<'a>],
) -> Reading<'t, 'a, List<Token<'a>>>
    ensures reads { ReadsAs lexemes result (reads_whole (separated comma (token (ident ∷ []))) tokens.now) }
    ensures shorter { IfOk result (λ x. length x.1.now < length tokens.now) }
{
    let (first, mut rest) = take(tokens, Ident)?;
    let mut all = List::new(alloc);
    all.push(first)?;
    while is_next(rest, Operator(operators::COMMA)) {
        let (next, behind) = identifier_behind_comma(rest)?;
        all.push(next)?;
        rest = behind;
    }
    Ok((all, rest))
}

/// A comma and an identifier.
fn identifier_behind_comma<'t, 'a>(tokens: &'t [Token<'a>]) -> Reading<'t, 'a, Token<'a>>
    ensures reads { ReadsAs lexeme result (reads_whole (behind comma (token (ident ∷ []))) tokens.now) }
    ensures shorter { IfOk result (λ x. length x.1.now < length tokens.now) }
{
    let (_, rest) = take(tokens, Operator(operators::COMMA))?;
    let (next, rest) = take(rest, Ident)?;
    Ok((next, rest))
}
