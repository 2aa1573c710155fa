//! The clause that says where the classes of a file stand.
ghost use Rattle.std.specs.Prelude.{◌≡◌, ◌≤◌, length, IfOk};
ghost use Rattle.mo_grammar.specs.Lexeme.{lexemes};
ghost use Rattle.mo_grammar.specs.Grammar.{placed, symbol};
ghost use Rattle.mo_grammar.specs.Forms.{optional};
ghost use Rattle.mo_grammar.specs.ClassTrees.{within_of};
ghost use Rattle.mo_grammar.specs.Symbols.{Names};
ghost use Rattle.mo_grammar.specs.Language.{reads_form};
ghost use Rattle.mo_grammar.specs.Answers.{ReadsAs};
ghost use Rattle.mo_class_heads.specs.Left.{limits};
ghost use Rattle.mo_class_heads.specs.Within.{within_clause as within_form, named, within};

use crate::names::name;
use crate::nesting::Left;
use mo_class_parts::path;
use mo_grammar::{Reading, is_next, place_of, take};
use mo_syntax::TokenKind::{Ident, Keyword, Operator};
use mo_syntax::{List, NoMemory, Path, Place, Token};
use mo_tables::{keywords, operators};
use std::alloc::Global;

/// The identifiers of a name, with the place of the first.
pub type Named<'a> = (Place, List<Token<'a>>);

/// The name behind `within`, where a clause stands there and has a name.
pub fn within_tree(
    alloc: Global,
    clause: Option<Option<Named>>,
) -> Result<Option<(Path, Place)>, NoMemory>
    ensures { IfOk result (λ w. w ≡ within_of (within clause.entry)) }
{
    match clause {
        Some(Some((place, names))) => Ok(Some((path(alloc, names.as_slice())?, place))),
        _ => Ok(None),
    }
}

/// The clause that says where the classes of the file stand.
pub fn within_clause<'t, 'a>(
    alloc: Global,
    left: Left,
    tokens: &'t [Token<'a>],
) -> Reading<'t, 'a, Option<Option<Named<'a>>>>
    ensures reads { ReadsAs within result (reads_form within_form (limits left.entry) (lexemes tokens.now)) }
    ensures no_longer { IfOk result (λ x. length x.1.now ≤ length tokens.now) }
{
    if !is_next(tokens, Keyword(keywords::WITHIN)) {
        return Ok((None, tokens));
    }
    let (_, rest) = take(tokens, Keyword(keywords::WITHIN))?;
    let (name, rest) = optional_name(alloc, left, rest)?;
    let (_, rest) = take(rest, Operator(operators::SEMICOLON))?;
    Ok((Some(name), rest))
}

/// A name with its place, where one stands there.
fn optional_name<'t, 'a>(
    alloc: Global,
    left: Left,
    tokens: &'t [Token<'a>],
) -> Reading<'t, 'a, Option<Named<'a>>>
    ensures reads { ReadsAs named result (reads_form (optional (placed (symbol Names))) (limits left.entry) (lexemes tokens.now)) }
    ensures no_longer { IfOk result (λ x. length x.1.now ≤ length tokens.now) }
{
    if !is_next(tokens, Ident) {
        return Ok((None, tokens));
    }
    let place = place_of(tokens);
    let (names, rest) = name(alloc, left, tokens)?;
    Ok((Some((place, names)), rest))
}
