//! The codes by which the grammar knows tokens.
ghost use Rattle.std.specs.Prelude.{◌≡◌};
ghost use Rattle.mo_grammar.specs.Lexeme.{code_of_kind};

use mo_syntax::TokenKind;

/// The number of a kind of token in the grammar's sets: 0 to 4 for identifiers, Integer literals, Real literals, strings
/// and the end of the file, then odd numbers for operators and even ones for reserved words.
pub fn code(kind: TokenKind) -> u32
    ensures { result ≡ code_of_kind kind }
{
    match kind {
        TokenKind::Ident => 0,
        TokenKind::Whole => 1,
        TokenKind::Decimal => 2,
        TokenKind::Str => 3,
        TokenKind::End => 4,
        TokenKind::Operator(place) => 2 * u32::from(place) + 5,
        TokenKind::Keyword(place) => 2 * u32::from(place) + 6,
    }
}
