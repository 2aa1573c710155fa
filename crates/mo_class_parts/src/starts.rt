//! What begins, and what ends, with the next tokens.
ghost use Rattle.std.specs.Prelude.{◌≡◌, ◌||◌, false};
ghost use Rattle.mo_grammar.specs.Lexeme.{lexemes};
ghost use Rattle.mo_grammar.specs.Reading.{next_in, Tables};
ghost use Rattle.mo_grammar.specs.Symbols.{ClassDefinitions, ElementItems, EquationItems, StatementItems};
ghost use Rattle.mo_grammar.specs.Tables.{tables};
ghost use Rattle.mo_class_parts.specs.Starts.{if_branch_ends, when_branch_ends, class_codes, definition_codes, section_codes, equation_follows};

use mo_grammar::{are_next, is_next, is_next_any};
use mo_syntax::Token;
use mo_syntax::TokenKind::{Decimal, Ident, Keyword, Operator, Str, Whole};
use mo_tables::{keywords, operators};

/// Whether a class definition begins with the next token.
pub fn begins_class(tokens: &[Token]) -> bool
    ensures { result ≡ next_in (Tables.starts tables ClassDefinitions) (lexemes tokens.now) }
{
    is_next_any(
        tokens,
        &[
            Keyword(keywords::BLOCK),
            Keyword(keywords::CLASS),
            Keyword(keywords::CONNECTOR),
            Keyword(keywords::ENCAPSULATED),
            Keyword(keywords::EXPANDABLE),
            Keyword(keywords::FUNCTION),
            Keyword(keywords::IMPURE),
            Keyword(keywords::MODEL),
            Keyword(keywords::OPERATOR),
            Keyword(keywords::PACKAGE),
            Keyword(keywords::PARTIAL),
            Keyword(keywords::PURE),
            Keyword(keywords::RECORD),
            Keyword(keywords::TYPE),
        ],
    )
}

/// Whether the next token opens a class, by the order in which the grammar names the words.
pub fn opens_class(tokens: &[Token]) -> bool
    ensures { result ≡ next_in class_codes (lexemes tokens.now) }
{
    is_next_any(
        tokens,
        &[
            Keyword(keywords::ENCAPSULATED),
            Keyword(keywords::PARTIAL),
            Keyword(keywords::CLASS),
            Keyword(keywords::MODEL),
            Keyword(keywords::RECORD),
            Keyword(keywords::BLOCK),
            Keyword(keywords::CONNECTOR),
            Keyword(keywords::TYPE),
            Keyword(keywords::PACKAGE),
            Keyword(keywords::FUNCTION),
            Keyword(keywords::EXPANDABLE),
            Keyword(keywords::PURE),
            Keyword(keywords::IMPURE),
            Keyword(keywords::OPERATOR),
        ],
    )
}

/// Whether a class definition begins with the next token, perhaps with `final` before it.
pub fn begins_definition(tokens: &[Token]) -> bool
    ensures { result ≡ next_in definition_codes (lexemes tokens.now) }
{
    is_next_any(
        tokens,
        &[
            Keyword(keywords::FINAL),
            Keyword(keywords::BLOCK),
            Keyword(keywords::CLASS),
            Keyword(keywords::CONNECTOR),
            Keyword(keywords::ENCAPSULATED),
            Keyword(keywords::EXPANDABLE),
            Keyword(keywords::FUNCTION),
            Keyword(keywords::IMPURE),
            Keyword(keywords::MODEL),
            Keyword(keywords::OPERATOR),
            Keyword(keywords::PACKAGE),
            Keyword(keywords::PARTIAL),
            Keyword(keywords::PURE),
            Keyword(keywords::RECORD),
            Keyword(keywords::TYPE),
        ],
    )
}

/// Whether an element begins with the next token.
pub fn begins_element(tokens: &[Token]) -> bool
    ensures { result ≡ next_in (Tables.starts tables (ElementItems false)) (lexemes tokens.now) }
{
    is_next_any(
        tokens,
        &[
            Ident,
            Keyword(keywords::BLOCK),
            Keyword(keywords::CLASS),
            Operator(operators::DOT),
            Keyword(keywords::CONNECTOR),
            Keyword(keywords::CONSTANT),
            Keyword(keywords::DISCRETE),
            Keyword(keywords::ENCAPSULATED),
            Keyword(keywords::EXPANDABLE),
            Keyword(keywords::EXTENDS),
            Keyword(keywords::FINAL),
            Keyword(keywords::FLOW),
            Keyword(keywords::FUNCTION),
            Keyword(keywords::IMPORT),
            Keyword(keywords::IMPURE),
            Keyword(keywords::INNER),
            Keyword(keywords::INPUT),
            Keyword(keywords::MODEL),
            Keyword(keywords::OPERATOR),
            Keyword(keywords::OUTER),
            Keyword(keywords::OUTPUT),
            Keyword(keywords::PACKAGE),
            Keyword(keywords::PARAMETER),
            Keyword(keywords::PARTIAL),
            Keyword(keywords::PURE),
            Keyword(keywords::RECORD),
            Keyword(keywords::REDECLARE),
            Keyword(keywords::REPLACEABLE),
            Keyword(keywords::STREAM),
            Keyword(keywords::TYPE),
        ],
    )
}

/// Whether a section begins with the next token.
pub fn begins_section(tokens: &[Token]) -> bool
    ensures { result ≡ next_in section_codes (lexemes tokens.now) }
{
    is_next_any(
        tokens,
        &[
            Keyword(keywords::PUBLIC),
            Keyword(keywords::PROTECTED),
            Keyword(keywords::EQUATION),
            Keyword(keywords::ALGORITHM),
            Keyword(keywords::INITIAL),
        ],
    )
}

/// Whether an equation follows, and neither the end of the class nor an initial section.
pub fn is_equation_next(tokens: &[Token]) -> bool
    ensures { result ≡ equation_follows (lexemes tokens.now) }
{
    let ends = are_next(tokens, Keyword(keywords::END), &[Ident]);
    let initial = are_next(
        tokens,
        Keyword(keywords::INITIAL),
        &[Keyword(keywords::EQUATION), Keyword(keywords::ALGORITHM)],
    );
    !ends && !initial && begins_equation(tokens)
}

/// Whether an equation may begin with the next token.
pub fn begins_equation(tokens: &[Token]) -> bool
    ensures { result ≡ next_in (Tables.starts tables EquationItems) (lexemes tokens.now) }
{
    is_next_any(
        tokens,
        &[
            Keyword(keywords::CONNECT),
            Keyword(keywords::FOR),
            Keyword(keywords::WHEN),
            Keyword(keywords::IF),
            Keyword(keywords::NOT),
            Operator(operators::PLUS),
            Operator(operators::MINUS),
            Operator(operators::DOT_PLUS),
            Operator(operators::DOT_MINUS),
            Ident,
            Whole,
            Decimal,
            Str,
            Operator(operators::OPEN_PAREN),
            Operator(operators::DOT),
            Keyword(keywords::DER),
            Keyword(keywords::END),
            Operator(operators::OPEN_BRACKET),
            Keyword(keywords::FALSE),
            Operator(operators::OPEN_BRACE),
            Keyword(keywords::INITIAL),
            Keyword(keywords::PURE),
            Keyword(keywords::TRUE),
        ],
    )
}

/// Whether a statement begins with the next token.
pub fn begins_statement(tokens: &[Token]) -> bool
    ensures { result ≡ next_in (Tables.starts tables StatementItems) (lexemes tokens.now) }
{
    is_next_any(
        tokens,
        &[
            Ident,
            Operator(operators::OPEN_PAREN),
            Keyword(keywords::BREAK),
            Operator(operators::DOT),
            Keyword(keywords::FOR),
            Keyword(keywords::IF),
            Keyword(keywords::RETURN),
            Keyword(keywords::WHEN),
            Keyword(keywords::WHILE),
        ],
    )
}

/// Whether `elseif`, `else` or `end if` comes next.
pub fn ends_if_branch(tokens: &[Token]) -> bool
    ensures { result ≡ if_branch_ends (lexemes tokens.now) }
{
    is_next_any(
        tokens,
        &[Keyword(keywords::ELSEIF), Keyword(keywords::ELSE)],
    ) || are_next(tokens, Keyword(keywords::END), &[Keyword(keywords::IF)])
}

/// Whether `elsewhen` or `end when` comes next.
pub fn ends_when_branch(tokens: &[Token]) -> bool
    ensures { result ≡ when_branch_ends (lexemes tokens.now) }
{
    is_next(tokens, Keyword(keywords::ELSEWHEN))
        || are_next(tokens, Keyword(keywords::END), &[Keyword(keywords::WHEN)])
}
