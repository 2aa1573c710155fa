//! What is imported.
ghost use Rattle.std.specs.Prelude.{◌≡◌, ◌<◌, ◌≤◌, [], ◌∷◌, length, IfOk, false};
ghost use Rattle.mo_grammar.specs.Lexeme.{lexemes};
ghost use Rattle.mo_grammar.specs.Codes.{ident, dot, comma, open_brace, close_brace};
ghost use Rattle.mo_grammar.specs.Grammar.{token};
ghost use Rattle.mo_grammar.specs.Forms.{behind, between, separated};
ghost use Rattle.mo_grammar.specs.ClassTrees.{import_of as import_tree};
ghost use Rattle.mo_grammar.specs.Symbols.{ImportNames};
ghost use Rattle.mo_grammar.specs.Reading.{next_two};
ghost use Rattle.mo_grammar.specs.Language.{reads, reads_form};
ghost use Rattle.mo_grammar.specs.Answers.{Gives, with_rest, ReadsAs};
ghost use Rattle.mo_class_heads.specs.Left.{limits};
ghost use Rattle.mo_class_heads.specs.Imports.{import_tail, imported as imported_form, taken as taken_from, tail};

use crate::names::{identifiers, name};
use crate::nesting::Left;
use mo_class_parts::{first_place, path, texts};
use mo_expr_parts::name_behind_dot;
use mo_grammar::{Fault, Halt, Reading, are_next, is_next, past_limit, take};
use mo_syntax::TokenKind::{Ident, Operator};
use mo_syntax::{Import, List, NoMemory, Text, Token};
use mo_tables::operators;
use std::alloc::Global;

/// What is taken from a name: None for itself, `Some(None)` for all that stands in it, or these.
type Taken<'a> = Option<Option<List<Token<'a>>>>;

/// What is imported.
pub fn imported<'t, 'a>(
    alloc: Global,
    left: Left,
    tokens: &'t [Token<'a>],
) -> Reading<'t, 'a, Import>
    ensures reads { Gives with_rest result (reads_form imported_form (limits left.entry) (lexemes tokens.now)) }
    ensures shorter { IfOk result (λ x. length x.1.now < length tokens.now) }
{
    if are_next(tokens, Ident, &[Operator(operators::EQUALS)]) {
        let (new, rest) = take(tokens, Ident)?;
        let (_, rest) = take(rest, Operator(operators::EQUALS))?;
        let (names, rest) = name(alloc, left, rest)?;
        let text = Text::from_str(alloc, new.text)?;
        let path = path(alloc, names.as_slice())?;
        Ok((
            Import::Renamed(text, path, first_place(names.as_slice())),
            rest,
        ))
    } else {
        let ((names, taken), rest) = import_names(alloc, left, tokens)?;
        Ok((import_of(alloc, names.as_slice(), taken)?, rest))
    }
}

/// The import of these names.
fn import_of(alloc: Global, names: &[Token], taken: Taken) -> Result<Import, NoMemory>
    ensures { IfOk result (λ i. i ≡ import_tree (lexemes names.now, taken_from taken.entry)) }
{
    let path = path(alloc, names)?;
    let place = first_place(names);
    Ok(match taken {
        None => Import::Named(path, place),
        Some(None) => Import::All(path, place),
        Some(Some(group)) => Import::Group(path, texts(alloc, group.as_slice())?, place),
    })
}

/// The identifiers of a name, and what is taken from it.
#[tactic(auto, using(mo_grammar::proofs::Readers::import_names_are))]
fn import_names<'t, 'a>(
    alloc: Global,
    left: Left,
    tokens: &'t [Token<'a>],
) -> Reading<'t, 'a, (List<Token<'a>>, Taken<'a>)>
    ensures reads { ReadsAs (λ x. (lexemes x.0, taken_from x.1)) result (reads ImportNames (limits left.entry) (lexemes tokens.now)) }
    ensures shorter { IfOk result (λ x. length x.1.now < length tokens.now) }
{
    let (first, mut rest) = take(tokens, Ident)?;
    let mut names = List::new(alloc);
    names.push(first)?;
    while are_next(rest, Operator(operators::DOT), &[Ident]) {
        let (next, behind) = name_behind_dot(rest)?;
        names.push(next)?;
        rest = behind;
    }
    let (taken, rest) = taken(alloc, left, rest)?;
    Ok(((names, taken), rest))
}

/// What is taken from the identifiers before.
fn taken<'t, 'a>(alloc: Global, left: Left, tokens: &'t [Token<'a>]) -> Reading<'t, 'a, Taken<'a>>
    requires last { next_two dot (ident ∷ []) (lexemes tokens.now) ≡ false }
    ensures reads { ReadsAs tail result (reads_form import_tail (limits left.entry) (lexemes tokens.now)) }
    ensures no_longer { IfOk result (λ x. length x.1.now ≤ length tokens.now) }
{
    if is_next(tokens, Operator(operators::DOT_STAR)) {
        let (_, rest) = take(tokens, Operator(operators::DOT_STAR))?;
        return Ok((Some(None), rest));
    }
    if !is_next(tokens, Operator(operators::DOT)) {
        return Ok((None, tokens));
    }
    let (_, rest) = take(tokens, Operator(operators::DOT))?;
    if is_next(rest, Operator(operators::STAR)) {
        let (_, rest) = take(rest, Operator(operators::STAR))?;
        Ok((Some(None), rest))
    } else if is_next(rest, Operator(operators::OPEN_BRACE)) {
        let (group, rest) = group(alloc, left, rest)?;
        Ok((Some(Some(group)), rest))
    } else {
        Err(Halt::Stuck(Fault::Misplaced, rest))
    }
}

/// Identifiers in braces.
#[tactic(auto, using(mo_grammar::proofs::Readers::none_left, mo_grammar::proofs::Readers::some_left))]
fn group<'t, 'a>(
    alloc: Global,
    left: Left,
    tokens: &'t [Token<'a>],
) -> Reading<'t, 'a, List<Token<'a>>>
    ensures reads { ReadsAs lexemes result (reads_form (between open_brace close_brace (separated comma (token (ident ∷ [])))) (limits left.entry) (lexemes tokens.now)) }
    ensures shorter { IfOk result (λ x. length x.1.now < length tokens.now) }
{
    if left.constructs == 0 {
        return Err(past_limit(tokens, Operator(operators::OPEN_BRACE)));
    }
    let (_, rest) = take(tokens, Operator(operators::OPEN_BRACE))?;
    let (names, rest) = identifiers(alloc, rest)?;
    let (_, rest) = take(rest, Operator(operators::CLOSE_BRACE))?;
    Ok((names, rest))
}
