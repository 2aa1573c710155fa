//! Import clauses.
ghost use Rattle.std.specs.Prelude.{◌<◌, length, IfOk};
ghost use Rattle.mo_grammar.specs.Lexeme.{lexemes};
ghost use Rattle.mo_grammar.specs.Classes.{import_clause as import_clause_form};
ghost use Rattle.mo_grammar.specs.Language.{reads_form};
ghost use Rattle.mo_grammar.specs.Answers.{Gives, with_rest};
ghost use Rattle.mo_class_heads.specs.Left.{limits};

use crate::plain::comment;
use mo_class_heads::{Left, imported};
use mo_grammar::{Reading, take};
use mo_syntax::TokenKind::Keyword;
use mo_syntax::{Import, Token};
use mo_tables::keywords;
use std::alloc::Global;

/// An import clause.
pub(crate) fn import_clause<'t, 'a>(
    alloc: Global,
    left: Left,
    tokens: &'t [Token<'a>],
) -> Reading<'t, 'a, Import>
    ensures reads { Gives with_rest result (reads_form import_clause_form (limits left.entry) (lexemes tokens.now)) }
    ensures shorter { IfOk result (λ x. length x.1.now < length tokens.now) }
{
    let (_, rest) = take(tokens, Keyword(keywords::IMPORT))?;
    let (import, rest) = imported(alloc, left, rest)?;
    let rest = comment(alloc, left, rest)?;
    Ok((import, rest))
}
