//! Files.
ghost use Rattle.std.specs.Prelude.{◌<◌, ◌≤◌, length, IfOk};
ghost use Rattle.mo_grammar.specs.Lexeme.{lexemes};
ghost use Rattle.mo_grammar.specs.Grammar.{many};
ghost use Rattle.mo_grammar.specs.Symbols.{Files};
ghost use Rattle.mo_grammar.specs.Language.{reads, reads_form};
ghost use Rattle.mo_grammar.specs.Answers.{Gives, with_rest};
ghost use Rattle.mo_class_heads.specs.Left.{limits};
ghost use Rattle.mo_parse_class.specs.steps.Parts.{definition as definition_form};

use crate::classes::class_definition;
use mo_class_heads::{Left, within_clause, within_tree};
use mo_class_parts::begins_definition;
use mo_grammar::{Reading, flag, none_yet, take};
use mo_syntax::TokenKind::{End, Keyword, Operator};
use mo_syntax::{ClassDef, FileTree, List, Token};
use mo_tables::{keywords, operators};
use std::alloc::Global;

/// A file up to its end.
#[tactic(auto, using(mo_grammar::proofs::Readers::files_are))]
pub(crate) fn file<'t, 'a>(
    alloc: Global,
    left: Left<'a>,
    tokens: &'t [Token<'a>],
) -> Reading<'t, 'a, FileTree>
    ensures reads { Gives with_rest result (reads Files (limits left.entry) (lexemes tokens.now)) }
{
    let (within, rest) = within_clause(alloc, left, tokens)?;
    let (classes, rest) = definitions(alloc, left, rest)?;
    let (end, rest) = take(rest, End)?;
    let tree = FileTree {
        file: end.place.file,
        within: within_tree(alloc, within)?,
        classes,
    };
    Ok((tree, rest))
}

/// The class definitions that stand there, each with its semicolon. There may be none.
fn definitions<'t, 'a>(
    alloc: Global,
    left: Left<'a>,
    tokens: &'t [Token<'a>],
) -> Reading<'t, 'a, List<ClassDef>>
    ensures reads { Gives with_rest result (reads_form (many definition_form) (limits left.entry) (lexemes tokens.now)) }
    ensures no_longer { IfOk result (λ x. length x.1.now ≤ length tokens.now) }
{
    let (mut all, mut rest) = none_yet(alloc, tokens);
    'each: while begins_definition(rest) {
        let (next, behind) = definition(alloc, left, rest)?;
        all.push(next)?;
        rest = behind;
    }
    Ok((all, rest))
}

/// A class definition with its semicolon.
fn definition<'t, 'a>(
    alloc: Global,
    left: Left<'a>,
    tokens: &'t [Token<'a>],
) -> Reading<'t, 'a, ClassDef>
    ensures reads { Gives with_rest result (reads_form definition_form (limits left.entry) (lexemes tokens.now)) }
    ensures shorter { IfOk result (λ x. length x.1.now < length tokens.now) }
{
    let (_, rest) = flag(tokens, Keyword(keywords::FINAL));
    let (class, rest) = class_definition(alloc, left, rest)?;
    let (_, rest) = take(rest, Operator(operators::SEMICOLON))?;
    Ok((class, rest))
}
