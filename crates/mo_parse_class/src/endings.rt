//! How classes end: external clauses, annotations, and `end` with the name.
ghost use Rattle.std.specs.Prelude.{◌<◌, ◌≤◌, [], length, IfOk, true, false};
ghost use Rattle.mo_grammar.specs.Lexeme.{lexemes};
ghost use Rattle.mo_grammar.specs.Codes.{comma};
ghost use Rattle.mo_grammar.specs.Grammar.{either, symbol};
ghost use Rattle.mo_grammar.specs.Forms.{behind, optional, separated};
ghost use Rattle.mo_grammar.specs.Symbols.{Expressions};
ghost use Rattle.mo_grammar.specs.Classes.{class_end, annotated_end as annotated_end_form, external_end as external_end_form, external_call as external_call_form, external_arguments as external_arguments_form};
ghost use Rattle.mo_grammar.specs.Reading.{read};
ghost use Rattle.mo_grammar.specs.Language.{reads_form};
ghost use Rattle.mo_grammar.specs.Answers.{Gives, with_rest};
ghost use Rattle.mo_class_parts.specs.Seen.{no_trace, ends};
ghost use Rattle.mo_class_heads.specs.Left.{limits};
ghost use Rattle.mo_parse_class.specs.steps.Parts.{closing as closing_form};

use crate::parts::optional_annotation;
use crate::plain::{class_modification, expression, reference};
use mo_class_heads::{Left, end_of_class, take_optional};
use mo_expr_parts::begins_expression;
use mo_grammar::{Halt, Reading, are_next, is_next, is_next_any, past_limit, take};
use mo_syntax::TokenKind::{Ident, Keyword, Operator, Str};
use mo_syntax::{Expr, List, Token};
use mo_tables::{keywords, operators};
use std::alloc::Global;

/// The end of a class, and whether an external clause stands before it.
pub(crate) fn closing<'t, 'a>(
    alloc: Global,
    left: Left,
    tokens: &'t [Token<'a>],
) -> Reading<'t, 'a, bool>
    ensures reads { Gives (λ x. read ([], x.0) (lexemes x.1.now)) result (reads_form closing_form (limits left.entry) (lexemes tokens.now)) }
    ensures shorter { IfOk result (λ x. length x.1.now < length tokens.now) }
{
    if is_next(tokens, Keyword(keywords::EXTERNAL)) {
        let rest = external_end(alloc, left, tokens)?;
        Ok((true, rest))
    } else {
        let rest = plain_end(alloc, left, tokens)?;
        Ok((false, rest))
    }
}

/// The end of a class that no external clause stands before, or no more of it.
fn plain_end<'t, 'a>(
    alloc: Global,
    left: Left,
    tokens: &'t [Token<'a>],
) -> Result<&'t [Token<'a>], Halt<'t, 'a>>
    ensures reads { Gives (ends false) result (reads_form (either annotated_end_form class_end) (limits left.entry) (lexemes tokens.now)) }
    ensures shorter { IfOk result (λ rest. length rest.now < length tokens.now) }
{
    if is_next(tokens, Keyword(keywords::ANNOTATION)) {
        annotated_end(alloc, left, tokens)
    } else {
        end_of_class(left, tokens)
    }
}

/// The annotation of a class, and its end.
fn annotated_end<'t, 'a>(
    alloc: Global,
    left: Left,
    tokens: &'t [Token<'a>],
) -> Result<&'t [Token<'a>], Halt<'t, 'a>>
    ensures reads { Gives (ends false) result (reads_form annotated_end_form (limits left.entry) (lexemes tokens.now)) }
    ensures shorter { IfOk result (λ rest. length rest.now < length tokens.now) }
{
    let (_, rest) = take(tokens, Keyword(keywords::ANNOTATION))?;
    let (_, rest) = class_modification(alloc, left, rest)?;
    let (_, rest) = take(rest, Operator(operators::SEMICOLON))?;
    end_of_class(left, rest)
}

/// An external clause, and what ends the class behind it.
fn external_end<'t, 'a>(
    alloc: Global,
    left: Left,
    tokens: &'t [Token<'a>],
) -> Result<&'t [Token<'a>], Halt<'t, 'a>>
    ensures reads { Gives (ends true) result (reads_form external_end_form (limits left.entry) (lexemes tokens.now)) }
    ensures shorter { IfOk result (λ rest. length rest.now < length tokens.now) }
{
    let (_, rest) = take(tokens, Keyword(keywords::EXTERNAL))?;
    let (_, rest) = take_optional(rest, &[Str]);
    let (_, rest) = optional_call(alloc, left, rest)?;
    let (_, rest) = optional_annotation(alloc, left, rest)?;
    let (_, rest) = take(rest, Operator(operators::SEMICOLON))?;
    plain_end(alloc, left, rest)
}

/// The call of an external function, where one stands there.
fn optional_call<'t, 'a>(
    alloc: Global,
    left: Left,
    tokens: &'t [Token<'a>],
) -> Reading<'t, 'a, Option<()>>
    ensures reads { Gives with_rest result (reads_form (optional external_call_form) (limits left.entry) (lexemes tokens.now)) }
    ensures no_longer { IfOk result (λ x. length x.1.now ≤ length tokens.now) }
{
    if !is_next_any(tokens, &[Ident, Operator(operators::DOT)]) {
        return Ok((None, tokens));
    }
    let rest = external_call(alloc, left, tokens)?;
    Ok((Some(()), rest))
}

/// The call of an external function, perhaps with the variable that takes its value.
fn external_call<'t, 'a>(
    alloc: Global,
    left: Left,
    tokens: &'t [Token<'a>],
) -> Result<&'t [Token<'a>], Halt<'t, 'a>>
    ensures reads { Gives no_trace result (reads_form external_call_form (limits left.entry) (lexemes tokens.now)) }
    ensures shorter { IfOk result (λ rest. length rest.now < length tokens.now) }
{
    if are_next(tokens, Ident, &[Operator(operators::OPEN_PAREN)]) {
        let (_, rest) = take(tokens, Ident)?;
        external_arguments(alloc, left, rest)
    } else {
        let (_, rest) = reference(alloc, left, tokens)?;
        let (_, rest) = take(rest, Operator(operators::EQUALS))?;
        let (_, rest) = take(rest, Ident)?;
        external_arguments(alloc, left, rest)
    }
}

/// The arguments of an external function, in their parentheses.
#[tactic(auto, using(mo_grammar::proofs::Readers::none_left, mo_grammar::proofs::Readers::some_left))]
fn external_arguments<'t, 'a>(
    alloc: Global,
    left: Left,
    tokens: &'t [Token<'a>],
) -> Result<&'t [Token<'a>], Halt<'t, 'a>>
    ensures reads { Gives no_trace result (reads_form external_arguments_form (limits left.entry) (lexemes tokens.now)) }
    ensures shorter { IfOk result (λ rest. length rest.now < length tokens.now) }
{
    if left.constructs == 0 {
        return Err(past_limit(tokens, Operator(operators::OPEN_PAREN)));
    }
    let inner = Left {
        constructs: left.constructs - 1,
        classes: left.classes,
        name: left.name,
    };
    let (_, rest) = take(tokens, Operator(operators::OPEN_PAREN))?;
    let (_, rest) = optional_expressions(alloc, inner, rest)?;
    let (_, rest) = take(rest, Operator(operators::CLOSE_PAREN))?;
    Ok(rest)
}

/// Expressions with commas between them, where one begins there.
fn optional_expressions<'t, 'a>(
    alloc: Global,
    left: Left,
    tokens: &'t [Token<'a>],
) -> Reading<'t, 'a, Option<List<Expr>>>
    ensures reads { Gives with_rest result (reads_form (optional (separated comma (symbol Expressions))) (limits left.entry) (lexemes tokens.now)) }
    ensures no_longer { IfOk result (λ x. length x.1.now ≤ length tokens.now) }
{
    if !begins_expression(tokens) {
        return Ok((None, tokens));
    }
    let (all, rest) = expressions(alloc, left, tokens)?;
    Ok((Some(all), rest))
}

/// Expressions with commas between them.
fn expressions<'t, 'a>(
    alloc: Global,
    left: Left,
    tokens: &'t [Token<'a>],
) -> Reading<'t, 'a, List<Expr>>
    ensures reads { Gives with_rest result (reads_form (separated comma (symbol Expressions)) (limits left.entry) (lexemes tokens.now)) }
    ensures shorter { IfOk result (λ x. length x.1.now < length tokens.now) }
{
    let (first, mut rest) = expression(alloc, left, tokens)?;
    let mut all = List::new(alloc);
    all.push(first)?;
    'each: while is_next(rest, Operator(operators::COMMA)) {
        let (next, behind) = expression_behind_comma(alloc, left, rest)?;
        all.push(next)?;
        rest = behind;
    }
    Ok((all, rest))
}

/// A comma and an expression.
fn expression_behind_comma<'t, 'a>(
    alloc: Global,
    left: Left,
    tokens: &'t [Token<'a>],
) -> Reading<'t, 'a, Expr>
    ensures reads { Gives with_rest result (reads_form (behind comma (symbol Expressions)) (limits left.entry) (lexemes tokens.now)) }
    ensures shorter { IfOk result (λ x. length x.1.now < length tokens.now) }
{
    let (_, rest) = take(tokens, Operator(operators::COMMA))?;
    expression(alloc, left, rest)
}
