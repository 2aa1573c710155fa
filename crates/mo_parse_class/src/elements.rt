//! Elements of classes.
ghost use Rattle.std.specs.Prelude.{◌≡◌, ◌<◌, ◌≤◌, List as Seq, length, IfOk, true};
ghost use Rattle.mo_grammar.specs.Lexeme.{Lexeme, lexemes};
ghost use Rattle.mo_grammar.specs.Codes.{semicolon};
ghost use Rattle.mo_grammar.specs.Grammar.{made, symbol};
ghost use Rattle.mo_grammar.specs.Forms.{before};
ghost use Rattle.mo_grammar.specs.ClassTrees.{import_items};
ghost use Rattle.mo_grammar.specs.Symbols.{ElementItems};
ghost use Rattle.mo_grammar.specs.Classes.{import_clause as import_clause_form, declares as declares_form};
ghost use Rattle.mo_grammar.specs.Reading.{read};
ghost use Rattle.mo_grammar.specs.Language.{reads, reads_form};
ghost use Rattle.mo_grammar.specs.Answers.{Gives, with_rest};
ghost use Rattle.mo_class_heads.specs.Left.{limits};
ghost use Rattle.mo_parse_class.specs.steps.Parts.{limit as limit_form, members as members_form, members_of, element_list, extension as extension_form};

use crate::classes::class_definition;
use crate::components::components;
use crate::copies::is_copied_too_often;
use crate::imports::import_clause;
use crate::parts::{optional_annotation, optional_modifiers};
use crate::plain::{comment, constraint, type_specifier};
use mo_class_heads::{Left, element_flags};
use mo_class_parts::{begins_class, begins_element, modifiers_or_none, replaceable};
use mo_grammar::{Reading, is_next, none_yet, take};
use mo_syntax::TokenKind::{Keyword, Operator};
use mo_syntax::{
    Element, ElementFlags, ExtendsOf, Item, List, Mods, NoMemory, Reference, Token, What, single,
};
use mo_tables::{keywords, operators};
use std::alloc::Global;

/// The elements that stand there, each with its semicolon. There may be none.
#[cycle(classes)]
pub(crate) fn elements<'t, 'a>(
    alloc: Global,
    left: Left<'a>,
    hidden: bool,
    tokens: &'t [Token<'a>],
) -> Reading<'t, 'a, List<Item>>
    ensures reads { Gives with_rest result (reads_form (element_list hidden) (limits left.entry) (lexemes tokens.now)) }
    ensures no_longer { IfOk result (λ x. length x.1.now ≤ length tokens.now) }
{
    let (mut all, mut rest) = none_yet(alloc, tokens);
    'each: while begins_element(rest) {
        let (items, behind) = element_before_semicolon(alloc, left, hidden, rest)?;
        all.append(items)?;
        rest = behind;
    }
    Ok((all, rest))
}

/// An element and a semicolon.
#[cycle(classes)]
fn element_before_semicolon<'t, 'a>(
    alloc: Global,
    left: Left<'a>,
    hidden: bool,
    tokens: &'t [Token<'a>],
) -> Reading<'t, 'a, List<Item>>
    ensures reads { Gives with_rest result (reads_form (before (symbol (ElementItems hidden)) semicolon) (limits left.entry) (lexemes tokens.now)) }
    ensures shorter { IfOk result (λ x. length x.1.now < length tokens.now) }
{
    let (items, rest) = element(alloc, left, hidden, tokens)?;
    let (_, rest) = take(rest, Operator(operators::SEMICOLON))?;
    Ok((items, rest))
}

/// An element: one item for each class or component that it declares.
#[cycle(classes)]
#[tactic(auto, using(mo_grammar::proofs::Readers::element_items_are))]
fn element<'t, 'a>(
    alloc: Global,
    left: Left<'a>,
    hidden: bool,
    tokens: &'t [Token<'a>],
) -> Reading<'t, 'a, List<Item>>
    ensures reads { Gives with_rest result (reads (ElementItems hidden) (limits left.entry) (lexemes tokens.now)) }
    ensures shorter { IfOk result (λ x. length x.1.now < length tokens.now) }
{
    if is_next(tokens, Keyword(keywords::IMPORT)) {
        imports(alloc, left, tokens)
    } else if is_next(tokens, Keyword(keywords::EXTENDS)) {
        extension(alloc, left, hidden, tokens)
    } else {
        members(alloc, left, hidden, tokens)
    }
}

/// An import clause.
fn imports<'t, 'a>(
    alloc: Global,
    left: Left,
    tokens: &'t [Token<'a>],
) -> Reading<'t, 'a, List<Item>>
    ensures reads { Gives with_rest result (reads_form (made import_items import_clause_form) (limits left.entry) (lexemes tokens.now)) }
    ensures shorter { IfOk result (λ x. length x.1.now < length tokens.now) }
{
    let (import, rest) = import_clause(alloc, left, tokens)?;
    Ok((single(alloc, Item::Import(import))?, rest))
}

/// An extends clause.
fn extension<'t, 'a>(
    alloc: Global,
    left: Left,
    hidden: bool,
    tokens: &'t [Token<'a>],
) -> Reading<'t, 'a, List<Item>>
    ensures reads { Gives with_rest result (reads_form (extension_form hidden) (limits left.entry) (lexemes tokens.now)) }
    ensures shorter { IfOk result (λ x. length x.1.now < length tokens.now) }
{
    let (_, rest) = take(tokens, Keyword(keywords::EXTENDS))?;
    let (base, rest) = type_specifier(alloc, left, rest)?;
    let (mods, rest) = optional_modifiers(alloc, left, rest)?;
    let (_, rest) = optional_annotation(alloc, left, rest)?;
    let mods = modifiers_or_none(alloc, mods);
    let item = Item::Extends(ExtendsOf { base, mods, hidden });
    Ok((single(alloc, item)?, rest))
}

/// What an element declares, with its prefixes.
#[cycle(classes)]
fn members<'t, 'a>(
    alloc: Global,
    left: Left<'a>,
    hidden: bool,
    tokens: &'t [Token<'a>],
) -> Reading<'t, 'a, List<Item>>
    ensures reads { Gives with_rest result (reads_form (members_form hidden) (limits left.entry) (lexemes tokens.now)) }
    ensures shorter { IfOk result (λ x. length x.1.now < length tokens.now) }
{
    let (flags, rest) = element_flags(hidden, tokens);
    if is_next(rest, Keyword(keywords::REPLACEABLE)) {
        let (_, rest) = take(rest, Keyword(keywords::REPLACEABLE))?;
        let flags = replaceable(flags);
        let (whats, limit_at) = declares(alloc, left, rest)?;
        let (limit, rest) = limit_if(alloc, left, true, limit_at)?;
        let shared = limit_at.len().saturating_sub(rest.len());
        let items = member_items(alloc, left, flags, whats, &limit, limit_at, shared)?;
        Ok((items, rest))
    } else {
        let (whats, rest) = declares(alloc, left, rest)?;
        let items = member_items(alloc, left, flags, whats, &None, rest, 0)?;
        Ok((items, rest))
    }
}

/// A class definition, or components.
#[cycle(classes)]
fn declares<'t, 'a>(
    alloc: Global,
    left: Left<'a>,
    tokens: &'t [Token<'a>],
) -> Reading<'t, 'a, List<What>>
    ensures reads { Gives with_rest result (reads_form declares_form (limits left.entry) (lexemes tokens.now)) }
    ensures shorter { IfOk result (λ x. length x.1.now < length tokens.now) }
{
    if begins_class(tokens) {
        let (class, rest) = class_definition(alloc, left, tokens)?;
        Ok((single(alloc, What::Class(class))?, rest))
    } else {
        components(alloc, left, tokens)
    }
}

/// The constraining clause behind what is replaceable, where one stands there.
fn limit_if<'t, 'a>(
    alloc: Global,
    left: Left,
    replaceable: bool,
    tokens: &'t [Token<'a>],
) -> Reading<'t, 'a, Option<(Reference, Mods)>>
    ensures reads { Gives with_rest result (reads_form (limit_form replaceable) (limits left.entry) (lexemes tokens.now)) }
    ensures no_longer { IfOk result (λ x. length x.1.now ≤ length tokens.now) }
{
    if !replaceable {
        return Ok((None, tokens));
    }
    if !is_next(tokens, Keyword(keywords::CONSTRAINEDBY)) {
        return Ok((None, tokens));
    }
    let (limit, rest) = constraint(alloc, left, tokens)?;
    let rest = comment(alloc, left, rest)?;
    Ok((Some(limit), rest))
}

/// What is declared as elements with the constraining clause of so many tokens that stands at `limit_at`. Each has a tree of its
/// own of that, so it is read once for each, as often as it may be copied.
fn member_items(
    alloc: Global,
    left: Left,
    flags: ElementFlags,
    whats: List<What>,
    limit: &Option<(Reference, Mods)>,
    limit_at: &[Token],
    shared: usize,
) -> Result<List<Item>, NoMemory>
    requires told { (rest : Seq Lexeme) × (reads_form (limit_form flags.replaceable) (limits left) (lexemes limit_at.now) ≡ read limit.now rest) }
    ensures { IfOk result (λ items. items ≡ members_of flags limit.now whats) }
{
    let mut items = List::new(alloc);
    'each: for what in whats.into_vec() {
        if is_copied_too_often(shared, items.len()) {
            return Err(NoMemory);
        }
        // it was read before, so only memory can be wanting
        let Ok((limit, _)) = limit_if(alloc, left, flags.replaceable, limit_at) else {
            return Err(NoMemory);
        };
        items.push(Item::Member(Element { flags, what, limit }))?;
    }
    Ok(items)
}
