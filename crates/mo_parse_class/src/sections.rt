//! Sections of classes, and the equations in them.
ghost use Rattle.std.specs.Prelude.{◌≡◌, ◌<◌, ◌≤◌, [], ◌∷◌, length, IfOk, true, false};
ghost use Rattle.mo_grammar.specs.Lexeme.{lexemes};
ghost use Rattle.mo_grammar.specs.Codes.{semicolon, public_word, protected_word, initial_word};
ghost use Rattle.mo_grammar.specs.Grammar.{symbol};
ghost use Rattle.mo_grammar.specs.Forms.{before};
ghost use Rattle.mo_grammar.specs.Symbols.{EquationItems, Compositions, Sections, SectionEquations};
ghost use Rattle.mo_grammar.specs.Classes.{section as section_form};
ghost use Rattle.mo_grammar.specs.Reading.{next_in};
ghost use Rattle.mo_grammar.specs.Language.{reads, reads_form};
ghost use Rattle.mo_grammar.specs.Answers.{Gives, with_rest};
ghost use Rattle.mo_class_heads.specs.Left.{limits};
ghost use Rattle.mo_class_parts.specs.Starts.{section_codes};
ghost use Rattle.mo_parse_class.specs.steps.Parts.{with_items, before_sections};

use crate::elements::elements;
use crate::endings::closing;
use crate::plain::{equation, statements};
use mo_class_heads::Left;
use mo_class_parts::{begins_section, is_equation_next};
use mo_grammar::{Reading, is_next, none_yet, take};
use mo_syntax::TokenKind::{Keyword, Operator};
use mo_syntax::{Equation, Item, List, Token, single};
use mo_tables::{keywords, operators};
use std::alloc::Global;

/// The items of a class up to its end, and whether an external clause stands in it.
#[cycle(classes)]
pub(crate) fn composition<'t, 'a>(
    alloc: Global,
    left: Left<'a>,
    tokens: &'t [Token<'a>],
) -> Reading<'t, 'a, (List<Item>, bool)>
    ensures reads { Gives with_rest result (reads Compositions (limits left.entry) (lexemes tokens.now)) }
    ensures shorter { IfOk result (λ x. length x.1.now < length tokens.now) }
{
    let (mut items, mut rest) = elements(alloc, left, false, tokens)?;
    'each: while begins_section(rest) {
        let (more, behind) = section(alloc, left, rest)?;
        items.append(more)?;
        rest = behind;
    }
    let (external, rest) = closing(alloc, left, rest)?;
    Ok(((items, external), rest))
}

/// A section.
#[cycle(classes)]
fn section<'t, 'a>(
    alloc: Global,
    left: Left<'a>,
    tokens: &'t [Token<'a>],
) -> Reading<'t, 'a, List<Item>>
    requires begins { next_in section_codes (lexemes tokens.now) ≡ true }
    ensures reads { Gives (λ x. with_items x.0 (reads Sections (limits left.entry) (lexemes x.1.now))) result (reads Sections (limits left.entry) (lexemes tokens.now)) }
    ensures shorter { IfOk result (λ x. length x.1.now < length tokens.now) }
{
    if is_next(tokens, Keyword(keywords::PUBLIC)) {
        public_elements(alloc, left, tokens)
    } else if is_next(tokens, Keyword(keywords::PROTECTED)) {
        protected_elements(alloc, left, tokens)
    } else if is_next(tokens, Keyword(keywords::INITIAL)) {
        initial_behavior(alloc, left, tokens)
    } else {
        plain_behavior(alloc, left, tokens)
    }
}

/// Elements behind `public`.
#[cycle(classes)]
fn public_elements<'t, 'a>(
    alloc: Global,
    left: Left<'a>,
    tokens: &'t [Token<'a>],
) -> Reading<'t, 'a, List<Item>>
    requires begins { next_in (public_word ∷ []) (lexemes tokens.now) ≡ true }
    ensures reads { Gives (λ x. with_items x.0 (reads Sections (limits left.entry) (lexemes x.1.now))) result (reads Sections (limits left.entry) (lexemes tokens.now)) }
    ensures shorter { IfOk result (λ x. length x.1.now < length tokens.now) }
{
    let (_, rest) = take(tokens, Keyword(keywords::PUBLIC))?;
    elements(alloc, left, false, rest)
}

/// Elements behind `protected`.
#[cycle(classes)]
fn protected_elements<'t, 'a>(
    alloc: Global,
    left: Left<'a>,
    tokens: &'t [Token<'a>],
) -> Reading<'t, 'a, List<Item>>
    requires begins { next_in (protected_word ∷ []) (lexemes tokens.now) ≡ true }
    ensures reads { Gives (λ x. with_items x.0 (reads Sections (limits left.entry) (lexemes x.1.now))) result (reads Sections (limits left.entry) (lexemes tokens.now)) }
    ensures shorter { IfOk result (λ x. length x.1.now < length tokens.now) }
{
    let (_, rest) = take(tokens, Keyword(keywords::PROTECTED))?;
    elements(alloc, left, true, rest)
}

/// An initial section.
fn initial_behavior<'t, 'a>(
    alloc: Global,
    left: Left,
    tokens: &'t [Token<'a>],
) -> Reading<'t, 'a, List<Item>>
    requires begins { next_in (initial_word ∷ []) (lexemes tokens.now) ≡ true }
    ensures reads { Gives (λ x. with_items x.0 (reads Sections (limits left.entry) (lexemes x.1.now))) result (reads Sections (limits left.entry) (lexemes tokens.now)) }
    ensures shorter { IfOk result (λ x. length x.1.now < length tokens.now) }
{
    let (_, rest) = take(tokens, Keyword(keywords::INITIAL))?;
    behavior(alloc, left, true, rest)
}

/// A section of equations or statements that is not initial.
fn plain_behavior<'t, 'a>(
    alloc: Global,
    left: Left,
    tokens: &'t [Token<'a>],
) -> Reading<'t, 'a, List<Item>>
    requires begins { next_in section_codes (lexemes tokens.now) ≡ true }
    requires not_public { next_in (public_word ∷ []) (lexemes tokens.now) ≡ false }
    requires not_protected { next_in (protected_word ∷ []) (lexemes tokens.now) ≡ false }
    requires not_initial { next_in (initial_word ∷ []) (lexemes tokens.now) ≡ false }
    ensures reads { Gives (λ x. with_items x.0 (reads Sections (limits left.entry) (lexemes x.1.now))) result (reads Sections (limits left.entry) (lexemes tokens.now)) }
    ensures shorter { IfOk result (λ x. length x.1.now < length tokens.now) }
{
    behavior(alloc, left, false, tokens)
}

/// An equation section or an algorithm section.
fn behavior<'t, 'a>(
    alloc: Global,
    left: Left,
    initial: bool,
    tokens: &'t [Token<'a>],
) -> Reading<'t, 'a, List<Item>>
    ensures reads { Gives (λ x. with_items x.0 (reads Sections (limits left.entry) (lexemes x.1.now))) result (reads_form (section_form initial) (limits left.entry) (lexemes tokens.now)) }
    ensures shorter { IfOk result (λ x. length x.1.now < length tokens.now) }
{
    if is_next(tokens, Keyword(keywords::EQUATION)) {
        let (_, rest) = take(tokens, Keyword(keywords::EQUATION))?;
        let (equations, rest) = section_equations(alloc, left, rest)?;
        Ok((single(alloc, Item::Equations(initial, equations))?, rest))
    } else {
        let (_, rest) = take(tokens, Keyword(keywords::ALGORITHM))?;
        let (statements, rest) = statements(alloc, left, rest)?;
        Ok((single(alloc, Item::Algorithm(initial, statements))?, rest))
    }
}

/// The equations of a section, each with its semicolon. There may be none.
fn section_equations<'t, 'a>(
    alloc: Global,
    left: Left,
    tokens: &'t [Token<'a>],
) -> Reading<'t, 'a, List<Equation>>
    ensures reads { Gives (λ x. before_sections x.0 (reads Sections (limits left.entry) (lexemes x.1.now))) result (reads SectionEquations (limits left.entry) (lexemes tokens.now)) }
    ensures no_longer { IfOk result (λ x. length x.1.now ≤ length tokens.now) }
{
    let (mut all, mut rest) = none_yet(alloc, tokens);
    'each: while is_equation_next(rest) {
        let (equation, behind) = equation_before_semicolon(alloc, left, rest)?;
        all.push(equation)?;
        rest = behind;
    }
    Ok((all, rest))
}

/// An equation and a semicolon.
fn equation_before_semicolon<'t, 'a>(
    alloc: Global,
    left: Left,
    tokens: &'t [Token<'a>],
) -> Reading<'t, 'a, Equation>
    ensures reads { Gives with_rest result (reads_form (before (symbol EquationItems) semicolon) (limits left.entry) (lexemes tokens.now)) }
    ensures shorter { IfOk result (λ x. length x.1.now < length tokens.now) }
{
    let (equation, rest) = equation(alloc, left, tokens)?;
    let (_, rest) = take(rest, Operator(operators::SEMICOLON))?;
    Ok((equation, rest))
}
