//! Component clauses.
ghost use Rattle.std.specs.Prelude.{◌≡◌, ◌<◌, ◌≤◌, List as Seq, length, IfOk};
ghost use Rattle.mo_grammar.specs.Lexeme.{Lexeme, lexemes};
ghost use Rattle.mo_grammar.specs.Codes.{comma, if_word};
ghost use Rattle.mo_grammar.specs.Grammar.{made, symbol};
ghost use Rattle.mo_grammar.specs.Forms.{behind, optional};
ghost use Rattle.mo_grammar.specs.ClassTrees.{whats_of_components};
ghost use Rattle.mo_grammar.specs.Symbols.{Expressions};
ghost use Rattle.mo_grammar.specs.Classes.{component as component_form, components as components_form};
ghost use Rattle.mo_grammar.specs.Reading.{read};
ghost use Rattle.mo_grammar.specs.Language.{reads_form};
ghost use Rattle.mo_grammar.specs.Answers.{Gives, with_rest};
ghost use Rattle.mo_class_heads.specs.Left.{limits};
ghost use Rattle.mo_parse_class.specs.steps.Parts.{Head as HeadTree, head as head_form, what_of};

use crate::copies::is_copied_too_often;
use crate::parts::optional_subscripts;
use crate::plain::{comment, declaration, expression, type_specifier};
use mo_class_heads::{Left, component_prefix};
use mo_class_parts::{component as component_tree, list_or_nothing};
use mo_grammar::{Halt, Reading, is_next, take};
use mo_syntax::TokenKind::{Keyword, Operator};
use mo_syntax::{Expr, List, Prefix, Reference, Token, What};
use mo_tables::{keywords, operators};
use std::alloc::Global;

/// A prefix, a type and the dimensions behind it.
type Head = (Prefix, (Reference, Option<List<Option<Expr>>>));

/// Components with one prefix and one type. Each has a tree of its own of what they share, so that is read once for each, as
/// often as it may be copied.
pub(crate) fn components<'t, 'a>(
    alloc: Global,
    left: Left,
    tokens: &'t [Token<'a>],
) -> Reading<'t, 'a, List<What>>
    ensures reads { Gives with_rest result (reads_form (made whats_of_components components_form) (limits left.entry) (lexemes tokens.now)) }
    ensures shorter { IfOk result (λ x. length x.1.now < length tokens.now) }
{
    let (_, rest) = head(alloc, left, tokens)?;
    let shared = tokens.len().saturating_sub(rest.len());
    let (first, mut rest) = component(alloc, left, tokens, rest)?;
    let mut all = List::new(alloc);
    all.push(first)?;
    'each: while is_next(rest, Operator(operators::COMMA)) {
        let many = is_copied_too_often(shared, all.len());
        let (next, behind) = component_behind_comma(alloc, left, tokens, rest, many)?;
        all.push(next)?;
        rest = behind;
    }
    Ok((all, rest))
}

/// What stands before the components.
fn head<'t, 'a>(alloc: Global, left: Left, tokens: &'t [Token<'a>]) -> Reading<'t, 'a, Head>
    ensures reads { Gives with_rest result (reads_form head_form (limits left.entry) (lexemes tokens.now)) }
    ensures shorter { IfOk result (λ x. length x.1.now < length tokens.now) }
{
    let (prefix, rest) = component_prefix(tokens)?;
    let (base, rest) = type_specifier(alloc, left, rest)?;
    let (subs, rest) = optional_subscripts(alloc, left, rest)?;
    Ok(((prefix, (base, subs)), rest))
}

/// A component behind the head that begins at `head_at`.
fn component<'t, 'a>(
    alloc: Global,
    left: Left,
    head_at: &'t [Token<'a>],
    tokens: &'t [Token<'a>],
) -> Reading<'t, 'a, What>
    ensures reads { (h : HeadTree) (rest : Seq Lexeme) → reads_form head_form (limits left.entry) (lexemes head_at.now) ≡ read h rest → Gives with_rest result (reads_form (made (what_of h) component_form) (limits left.entry) (lexemes tokens.now)) }
    ensures shorter { IfOk result (λ x. length x.1.now < length tokens.now) }
{
    let ((prefix, (base, subs)), _) = head(alloc, left, head_at)?;
    let (declaration, rest) = declaration(alloc, left, tokens)?;
    let (condition, rest) = condition(alloc, left, rest)?;
    let rest = comment(alloc, left, rest)?;
    let base_subs = list_or_nothing(alloc, subs);
    let tree = component_tree(alloc, prefix, base, base_subs, declaration, condition)?;
    Ok((What::Component(tree), rest))
}

/// A comma and a component, unless there are too many that share the head.
fn component_behind_comma<'t, 'a>(
    alloc: Global,
    left: Left,
    head_at: &'t [Token<'a>],
    tokens: &'t [Token<'a>],
    many: bool,
) -> Reading<'t, 'a, What>
    ensures reads { (h : HeadTree) (rest : Seq Lexeme) → reads_form head_form (limits left.entry) (lexemes head_at.now) ≡ read h rest → Gives with_rest result (reads_form (behind comma (made (what_of h) component_form)) (limits left.entry) (lexemes tokens.now)) }
    ensures shorter { IfOk result (λ x. length x.1.now < length tokens.now) }
{
    if many {
        return Err(Halt::NoMemory);
    }
    let (_, rest) = take(tokens, Operator(operators::COMMA))?;
    component(alloc, left, head_at, rest)
}

/// The condition of a component, where one stands there.
fn condition<'t, 'a>(
    alloc: Global,
    left: Left,
    tokens: &'t [Token<'a>],
) -> Reading<'t, 'a, Option<Expr>>
    ensures reads { Gives with_rest result (reads_form (optional (behind if_word (symbol Expressions))) (limits left.entry) (lexemes tokens.now)) }
    ensures no_longer { IfOk result (λ x. length x.1.now ≤ length tokens.now) }
{
    if !is_next(tokens, Keyword(keywords::IF)) {
        return Ok((None, tokens));
    }
    let (_, rest) = take(tokens, Keyword(keywords::IF))?;
    let (condition, rest) = expression(alloc, left, rest)?;
    Ok((Some(condition), rest))
}
