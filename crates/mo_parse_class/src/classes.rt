//! Class definitions.
ghost use Rattle.std.specs.Prelude.{◌<◌, length, IfOk};
ghost use Rattle.mo_grammar.specs.Lexeme.{lexeme, lexemes};
ghost use Rattle.mo_grammar.specs.Symbols.{ClassDefinitions};
ghost use Rattle.mo_grammar.specs.Classes.{class_spec, extends_spec, long_spec, equals_spec, der_spec};
ghost use Rattle.mo_grammar.specs.Reading.{read};
ghost use Rattle.mo_grammar.specs.Language.{reads, reads_form};
ghost use Rattle.mo_grammar.specs.Answers.{Gives, with_rest, ReadsAs};
ghost use Rattle.mo_class_heads.specs.Left.{limits};
ghost use Rattle.mo_parse_class.specs.steps.Parts.{derived as derived_form};

use crate::parts::optional_modifiers;
use crate::plain::{comment, short_body, type_specifier};
use crate::sections::composition;
use mo_class_heads::{Left, class_prefixes, identifiers, past_classes, strings};
use mo_class_parts::{modifiers_or_none, texts, with_encapsulated};
use mo_grammar::{Reading, are_next, flag, is_next, past_limit, take};
use mo_syntax::TokenKind::{Ident, Keyword, Operator};
use mo_syntax::{Body, ClassDef, ClassDefOf, List, Reference, Text, Token};
use mo_tables::{keywords, operators};
use std::alloc::Global;

/// A class definition.
#[cycle(classes)]
#[tactic(auto, using(mo_grammar::proofs::Readers::class_definitions_are, crate::proofs::ClassLimits::no_construct_left, crate::proofs::ClassLimits::no_class_left, crate::proofs::ClassLimits::class_left))]
pub(crate) fn class_definition<'t, 'a>(
    alloc: Global,
    left: Left<'a>,
    tokens: &'t [Token<'a>],
) -> Reading<'t, 'a, ClassDef>
    ensures reads { Gives with_rest result (reads ClassDefinitions (limits left.entry) (lexemes tokens.now)) }
    ensures shorter { IfOk result (λ x. length x.1.now < length tokens.now) }
{
    if left.constructs == 0 {
        return Err(past_classes(tokens));
    }
    if left.classes == 0 {
        return Err(past_classes(tokens));
    }
    let inner = Left {
        constructs: left.constructs - 1,
        classes: left.classes - 1,
        name: left.name,
    };
    let (encapsulated, rest) = flag(tokens, Keyword(keywords::ENCAPSULATED));
    let ((kind, flags), rest) = class_prefixes(rest)?;
    let ((name, body), rest) = class_specifier(alloc, inner, rest)?;
    let class = ClassDefOf {
        kind,
        flags: with_encapsulated(flags, encapsulated),
        name: Text::from_str(alloc, name.text)?,
        place: name.place,
        body,
    };
    Ok((class, rest))
}

/// The name of a class, with what it consists of.
#[cycle(classes)]
fn class_specifier<'t, 'a>(
    alloc: Global,
    left: Left<'a>,
    tokens: &'t [Token<'a>],
) -> Reading<'t, 'a, (Token<'a>, Body)>
    ensures reads { ReadsAs (λ x. (lexeme x.0, x.1)) result (reads_form class_spec (limits left.entry) (lexemes tokens.now)) }
    ensures shorter { IfOk result (λ x. length x.1.now < length tokens.now) }
{
    if is_next(tokens, Keyword(keywords::EXTENDS)) {
        extending_class(alloc, left, tokens)
    } else if are_next(tokens, Ident, &[Operator(operators::EQUALS)]) {
        short_class(alloc, left, tokens)
    } else {
        long_class(alloc, left, tokens)
    }
}

/// A class that extends one of the same name.
#[cycle(classes)]
fn extending_class<'t, 'a>(
    alloc: Global,
    left: Left<'a>,
    tokens: &'t [Token<'a>],
) -> Reading<'t, 'a, (Token<'a>, Body)>
    ensures reads { ReadsAs (λ x. (lexeme x.0, x.1)) result (reads_form extends_spec (limits left.entry) (lexemes tokens.now)) }
    ensures shorter { IfOk result (λ x. length x.1.now < length tokens.now) }
{
    let (_, rest) = take(tokens, Keyword(keywords::EXTENDS))?;
    let (name, rest) = take(rest, Ident)?;
    let inner = Left {
        constructs: left.constructs,
        classes: left.classes,
        name: name.text,
    };
    let (mods, rest) = optional_modifiers(alloc, inner, rest)?;
    let rest = strings(rest)?;
    let ((items, external), rest) = composition(alloc, inner, rest)?;
    let body = Body::Long {
        extending: Some(modifiers_or_none(alloc, mods)),
        items,
        external,
    };
    Ok(((name, body), rest))
}

/// A class with its items.
#[cycle(classes)]
fn long_class<'t, 'a>(
    alloc: Global,
    left: Left<'a>,
    tokens: &'t [Token<'a>],
) -> Reading<'t, 'a, (Token<'a>, Body)>
    ensures reads { ReadsAs (λ x. (lexeme x.0, x.1)) result (reads_form long_spec (limits left.entry) (lexemes tokens.now)) }
    ensures shorter { IfOk result (λ x. length x.1.now < length tokens.now) }
{
    let (name, rest) = take(tokens, Ident)?;
    let inner = Left {
        constructs: left.constructs,
        classes: left.classes,
        name: name.text,
    };
    let rest = strings(rest)?;
    let ((items, external), rest) = composition(alloc, inner, rest)?;
    let body = Body::Long {
        extending: None,
        items,
        external,
    };
    Ok(((name, body), rest))
}

/// A class with `=` behind its name.
fn short_class<'t, 'a>(
    alloc: Global,
    left: Left,
    tokens: &'t [Token<'a>],
) -> Reading<'t, 'a, (Token<'a>, Body)>
    ensures reads { ReadsAs (λ x. (lexeme x.0, x.1)) result (reads_form equals_spec (limits left.entry) (lexemes tokens.now)) }
    ensures shorter { IfOk result (λ x. length x.1.now < length tokens.now) }
{
    let (name, rest) = take(tokens, Ident)?;
    let (_, rest) = take(rest, Operator(operators::EQUALS))?;
    if is_next(rest, Keyword(keywords::DER)) {
        let (body, rest) = derivative(alloc, left, rest)?;
        Ok(((name, body), rest))
    } else {
        let (body, rest) = short_body(alloc, left, rest)?;
        Ok(((name, body), rest))
    }
}

/// A function that is the derivative of another by some of its inputs.
fn derivative<'t, 'a>(alloc: Global, left: Left, tokens: &'t [Token<'a>]) -> Reading<'t, 'a, Body>
    ensures reads { Gives with_rest result (reads_form der_spec (limits left.entry) (lexemes tokens.now)) }
    ensures shorter { IfOk result (λ x. length x.1.now < length tokens.now) }
{
    let (_, rest) = take(tokens, Keyword(keywords::DER))?;
    let ((base, names), rest) = derived(alloc, left, rest)?;
    let rest = comment(alloc, left, rest)?;
    Ok((Body::Der(base, texts(alloc, names.as_slice())?), rest))
}

/// A function and the identifiers of its inputs, in parentheses.
#[tactic(auto, using(mo_grammar::proofs::Readers::none_left, mo_grammar::proofs::Readers::some_left))]
fn derived<'t, 'a>(
    alloc: Global,
    left: Left,
    tokens: &'t [Token<'a>],
) -> Reading<'t, 'a, (Reference, List<Token<'a>>)>
    ensures reads { Gives (λ x. read (x.0.0, lexemes x.0.1) (lexemes x.1.now)) result (reads_form derived_form (limits left.entry) (lexemes tokens.now)) }
    ensures shorter { IfOk result (λ x. length x.1.now < length tokens.now) }
{
    if left.constructs == 0 {
        return Err(past_limit(tokens, Operator(operators::OPEN_PAREN)));
    }
    let inner = Left {
        constructs: left.constructs - 1,
        classes: left.classes,
        name: left.name,
    };
    let (_, rest) = take(tokens, Operator(operators::OPEN_PAREN))?;
    let (base, rest) = type_specifier(alloc, inner, rest)?;
    let (_, rest) = take(rest, Operator(operators::COMMA))?;
    let (names, rest) = identifiers(alloc, rest)?;
    let (_, rest) = take(rest, Operator(operators::CLOSE_PAREN))?;
    Ok(((base, names), rest))
}
