//! The readers of what has no class in it, as they stand in a class.
ghost use Rattle.std.specs.Prelude.{◌<◌, ◌≤◌, length, IfOk};
ghost use Rattle.mo_grammar.specs.Lexeme.{lexemes};
ghost use Rattle.mo_grammar.specs.Grammar.{either};
ghost use Rattle.mo_grammar.specs.Symbols.{Expressions, References, Subscripts, TypeSpecs, ClassMods, EquationItems};
ghost use Rattle.mo_grammar.specs.Classes.{annotation_part, comment as comment_form, declaration as declaration_form, constraint as constraint_form, enumeration, short_class, statements as statements_form};
ghost use Rattle.mo_grammar.specs.Language.{reads, reads_form};
ghost use Rattle.mo_grammar.specs.Answers.{Gives, with_rest, ReadsAs};
ghost use Rattle.mo_class_parts.specs.Seen.{no_trace, declared};
ghost use Rattle.mo_class_heads.specs.Left.{limits};

use mo_class_heads::Left;
use mo_class_parts::Declaration;
use mo_grammar::{Halt, Reading};
use mo_read_body as bodies;
use mo_read_expr as expressions;
use mo_syntax::{Body, Equation, Expr, List, Mods, Reference, Statement, Token};
use std::alloc::Global;

/// The name of a type or function, perhaps with a dot before it.
pub(crate) fn type_specifier<'t, 'a>(
    alloc: Global,
    left: Left,
    tokens: &'t [Token<'a>],
) -> Reading<'t, 'a, Reference>
    ensures reads { Gives with_rest result (reads TypeSpecs (limits left.entry) (lexemes tokens.now)) }
    ensures shorter { IfOk result (λ x. length x.1.now < length tokens.now) }
{
    mo_expr_parts::type_specifier(alloc, left.constructs, tokens)
}

/// Subscripts in their brackets, None for `:`.
pub(crate) fn subscripts<'t, 'a>(
    alloc: Global,
    left: Left,
    tokens: &'t [Token<'a>],
) -> Reading<'t, 'a, List<Option<Expr>>>
    ensures reads { Gives with_rest result (reads Subscripts (limits left.entry) (lexemes tokens.now)) }
    ensures shorter { IfOk result (λ x. length x.1.now < length tokens.now) }
{
    expressions::subscripts(alloc, left.constructs, tokens)
}

/// A component reference.
pub(crate) fn reference<'t, 'a>(
    alloc: Global,
    left: Left,
    tokens: &'t [Token<'a>],
) -> Reading<'t, 'a, Reference>
    ensures reads { Gives with_rest result (reads References (limits left.entry) (lexemes tokens.now)) }
    ensures shorter { IfOk result (λ x. length x.1.now < length tokens.now) }
{
    expressions::reference(alloc, left.constructs, tokens)
}

/// An expression.
pub(crate) fn expression<'t, 'a>(
    alloc: Global,
    left: Left,
    tokens: &'t [Token<'a>],
) -> Reading<'t, 'a, Expr>
    ensures reads { Gives with_rest result (reads Expressions (limits left.entry) (lexemes tokens.now)) }
    ensures shorter { IfOk result (λ x. length x.1.now < length tokens.now) }
{
    expressions::expression(alloc, left.constructs, tokens)
}

/// Modifiers, in their parentheses.
pub(crate) fn class_modification<'t, 'a>(
    alloc: Global,
    left: Left,
    tokens: &'t [Token<'a>],
) -> Reading<'t, 'a, Mods>
    ensures reads { Gives with_rest result (reads ClassMods (limits left.entry) (lexemes tokens.now)) }
    ensures shorter { IfOk result (λ x. length x.1.now < length tokens.now) }
{
    bodies::class_modification(alloc, left.constructs, tokens)
}

/// An identifier that is declared, with its dimensions and its modification.
pub(crate) fn declaration<'t, 'a>(
    alloc: Global,
    left: Left,
    tokens: &'t [Token<'a>],
) -> Reading<'t, 'a, Declaration<'a>>
    ensures reads { ReadsAs declared result (reads_form declaration_form (limits left.entry) (lexemes tokens.now)) }
    ensures shorter { IfOk result (λ x. length x.1.now < length tokens.now) }
{
    bodies::declaration(alloc, left.constructs, tokens)
}

/// A constraining clause: a type with its modifiers.
pub(crate) fn constraint<'t, 'a>(
    alloc: Global,
    left: Left,
    tokens: &'t [Token<'a>],
) -> Reading<'t, 'a, (Reference, Mods)>
    ensures reads { Gives with_rest result (reads_form constraint_form (limits left.entry) (lexemes tokens.now)) }
    ensures shorter { IfOk result (λ x. length x.1.now < length tokens.now) }
{
    bodies::constraint(alloc, left.constructs, tokens)
}

/// What stands behind `=` in a short class definition: an enumeration, or a type with its modifiers.
pub(crate) fn short_body<'t, 'a>(
    alloc: Global,
    left: Left,
    tokens: &'t [Token<'a>],
) -> Reading<'t, 'a, Body>
    ensures reads { Gives with_rest result (reads_form (either enumeration short_class) (limits left.entry) (lexemes tokens.now)) }
    ensures shorter { IfOk result (λ x. length x.1.now < length tokens.now) }
{
    bodies::short_body(alloc, left.constructs, tokens)
}

/// An equation with its comment.
pub(crate) fn equation<'t, 'a>(
    alloc: Global,
    left: Left,
    tokens: &'t [Token<'a>],
) -> Reading<'t, 'a, Equation>
    ensures reads { Gives with_rest result (reads EquationItems (limits left.entry) (lexemes tokens.now)) }
    ensures shorter { IfOk result (λ x. length x.1.now < length tokens.now) }
{
    bodies::equation(alloc, left.constructs, tokens)
}

/// The statements that stand there, each with its semicolon. There may be none.
pub(crate) fn statements<'t, 'a>(
    alloc: Global,
    left: Left,
    tokens: &'t [Token<'a>],
) -> Reading<'t, 'a, List<Statement>>
    ensures reads { Gives with_rest result (reads_form statements_form (limits left.entry) (lexemes tokens.now)) }
    ensures no_longer { IfOk result (λ x. length x.1.now ≤ length tokens.now) }
{
    bodies::statements(alloc, left.constructs, tokens)
}

/// The tokens behind an annotation.
pub(crate) fn annotation<'t, 'a>(
    alloc: Global,
    left: Left,
    tokens: &'t [Token<'a>],
) -> Result<&'t [Token<'a>], Halt<'t, 'a>>
    ensures reads { Gives no_trace result (reads_form annotation_part (limits left.entry) (lexemes tokens.now)) }
    ensures shorter { IfOk result (λ rest. length rest.now < length tokens.now) }
{
    bodies::annotation(alloc, left.constructs, tokens)
}

/// The tokens behind the strings and the annotation that stand there. There may be none.
pub(crate) fn comment<'t, 'a>(
    alloc: Global,
    left: Left,
    tokens: &'t [Token<'a>],
) -> Result<&'t [Token<'a>], Halt<'t, 'a>>
    ensures reads { Gives no_trace result (reads_form comment_form (limits left.entry) (lexemes tokens.now)) }
    ensures no_longer { IfOk result (λ rest. length rest.now ≤ length tokens.now) }
{
    bodies::comment(alloc, left.constructs, tokens)
}
