//! Declarations of components, and comments.
ghost use Rattle.std.specs.Prelude.{◌<◌, ◌≤◌, length, IfOk};
ghost use Rattle.mo_grammar.specs.Classes.{annotation_part, comment as comment_form, declaration as declaration_form, constraint as constraint_form, component1, argument_declares};
ghost use Rattle.mo_grammar.specs.Answers.{Gives, with_rest, ReadsAs, reads_inside};
ghost use Rattle.mo_class_parts.specs.Seen.{no_trace, declared, declares};

use crate::modifications::{class_modification, optional_modification, optional_modifiers};
use crate::short_classes::short_class_definition;
use crate::values::optional_subscripts;
use mo_class_heads::{begins_class_prefixes, component_prefix, strings};
use mo_class_parts::{Declaration, component, modifiers_or_none};
use mo_expr_parts::type_specifier;
use mo_grammar::{Halt, Reading, is_next, take};
use mo_syntax::TokenKind::{Ident, Keyword};
use mo_syntax::{List, Mods, Reference, Token, What};
use mo_tables::keywords;
use std::alloc::Global;

/// The class or the component that an argument declares.
#[cycle(modification)]
pub fn declares<'t, 'a>(
    alloc: Global,
    left: u32,
    tokens: &'t [Token<'a>],
) -> Reading<'t, 'a, (Token<'a>, What)>
    ensures reads { ReadsAs declares result (reads_inside argument_declares left tokens.now) }
    ensures shorter { IfOk result (λ x. length x.1.now < length tokens.now) }
{
    if begins_class_prefixes(tokens) {
        short_class_definition(alloc, left, tokens)
    } else {
        argument_component(alloc, left, tokens)
    }
}

/// The component of an argument.
#[cycle(modification)]
fn argument_component<'t, 'a>(
    alloc: Global,
    left: u32,
    tokens: &'t [Token<'a>],
) -> Reading<'t, 'a, (Token<'a>, What)>
    ensures reads { ReadsAs declares result (reads_inside component1 left tokens.now) }
    ensures shorter { IfOk result (λ x. length x.1.now < length tokens.now) }
{
    let (prefix, rest) = component_prefix(tokens)?;
    let (base, rest) = type_specifier(alloc, left, rest)?;
    let (declaration, rest) = declaration(alloc, left, rest)?;
    let rest = comment(alloc, left, rest)?;
    let name = declaration.name;
    let component = component(alloc, prefix, base, List::new(alloc), declaration, None)?;
    Ok(((name, What::Component(component)), rest))
}

/// An identifier that is declared, with its dimensions and its modification.
#[cycle(modification)]
pub fn declaration<'t, 'a>(
    alloc: Global,
    left: u32,
    tokens: &'t [Token<'a>],
) -> Reading<'t, 'a, Declaration<'a>>
    ensures reads { ReadsAs declared result (reads_inside declaration_form left tokens.now) }
    ensures shorter { IfOk result (λ x. length x.1.now < length tokens.now) }
{
    let (name, rest) = take(tokens, Ident)?;
    let (subs, rest) = optional_subscripts(alloc, left, rest)?;
    let (binding, rest) = optional_modification(alloc, left, rest)?;
    Ok((
        Declaration {
            name,
            subs,
            binding,
        },
        rest,
    ))
}

/// A constraining clause: a type with its modifiers.
#[cycle(modification)]
pub fn constraint<'t, 'a>(
    alloc: Global,
    left: u32,
    tokens: &'t [Token<'a>],
) -> Reading<'t, 'a, (Reference, Mods)>
    ensures reads { Gives with_rest result (reads_inside constraint_form left tokens.now) }
    ensures shorter { IfOk result (λ x. length x.1.now < length tokens.now) }
{
    let (_, rest) = take(tokens, Keyword(keywords::CONSTRAINEDBY))?;
    let (base, rest) = type_specifier(alloc, left, rest)?;
    let (mods, rest) = optional_modifiers(alloc, left, rest)?;
    Ok(((base, modifiers_or_none(alloc, mods)), rest))
}

/// The tokens behind the strings and the annotation that stand there. There may be none.
#[cycle(modification)]
pub fn comment<'t, 'a>(
    alloc: Global,
    left: u32,
    tokens: &'t [Token<'a>],
) -> Result<&'t [Token<'a>], Halt<'t, 'a>>
    ensures reads { Gives no_trace result (reads_inside comment_form left tokens.now) }
    ensures no_longer { IfOk result (λ rest. length rest.now ≤ length tokens.now) }
{
    let rest = strings(tokens)?;
    if is_next(rest, Keyword(keywords::ANNOTATION)) {
        annotation(alloc, left, rest)
    } else {
        Ok(rest)
    }
}

/// The tokens behind an annotation.
#[cycle(modification)]
pub fn annotation<'t, 'a>(
    alloc: Global,
    left: u32,
    tokens: &'t [Token<'a>],
) -> Result<&'t [Token<'a>], Halt<'t, 'a>>
    ensures reads { Gives no_trace result (reads_inside annotation_part left tokens.now) }
    ensures shorter { IfOk result (λ rest. length rest.now < length tokens.now) }
{
    let (_, rest) = take(tokens, Keyword(keywords::ANNOTATION))?;
    let (_, rest) = class_modification(alloc, left, rest)?;
    Ok(rest)
}
