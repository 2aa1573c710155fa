//! The operators and marks of Modelica (Modelica Language Specification 3.5, section 2.5 and chapter 3).

ghost use Rattle.std.specs.Prelude.{◌≡◌};
ghost use Rattle.mo_tables.specs.Words.{operators, code_in};

use super::table::{Row, find};

/// The code of `(`.
pub const OPEN_PAREN: u16 = 0;
/// The code of `)`.
pub const CLOSE_PAREN: u16 = 1;
/// The code of `*`.
pub const STAR: u16 = 2;
/// The code of `+`.
pub const PLUS: u16 = 3;
/// The code of `,`.
pub const COMMA: u16 = 4;
/// The code of `-`.
pub const MINUS: u16 = 5;
/// The code of `.`.
pub const DOT: u16 = 6;
/// The code of `.*`.
pub const DOT_STAR: u16 = 7;
/// The code of `.+`.
pub const DOT_PLUS: u16 = 8;
/// The code of `.-`.
pub const DOT_MINUS: u16 = 9;
/// The code of `./`.
pub const DOT_SLASH: u16 = 10;
/// The code of `.^`.
pub const DOT_CARET: u16 = 11;
/// The code of `/`.
pub const SLASH: u16 = 12;
/// The code of `:`.
pub const COLON: u16 = 13;
/// The code of `:=`.
pub const ASSIGN: u16 = 14;
/// The code of `;`.
pub const SEMICOLON: u16 = 15;
/// The code of `<`.
pub const LESS: u16 = 16;
/// The code of `<=`.
pub const LESS_EQUAL: u16 = 17;
/// The code of `<>`.
pub const NOT_EQUAL: u16 = 18;
/// The code of `=`.
pub const EQUALS: u16 = 19;
/// The code of `==`.
pub const DOUBLE_EQUALS: u16 = 20;
/// The code of `>`.
pub const GREATER: u16 = 21;
/// The code of `>=`.
pub const GREATER_EQUAL: u16 = 22;
/// The code of `[`.
pub const OPEN_BRACKET: u16 = 23;
/// The code of `]`.
pub const CLOSE_BRACKET: u16 = 24;
/// The code of `^`.
pub const CARET: u16 = 25;
/// The code of `{`.
pub const OPEN_BRACE: u16 = 26;
/// The code of `}`.
pub const CLOSE_BRACE: u16 = 27;

/// The operators and marks in the order of their bytes; an operator's code is its place.
pub const OPERATORS: [Row; 28] = rows![
    "(" OPEN_PAREN,
    ")" CLOSE_PAREN,
    "*" STAR,
    "+" PLUS,
    "," COMMA,
    "-" MINUS,
    "." DOT,
    ".*" DOT_STAR,
    ".+" DOT_PLUS,
    ".-" DOT_MINUS,
    "./" DOT_SLASH,
    ".^" DOT_CARET,
    "/" SLASH,
    ":" COLON,
    ":=" ASSIGN,
    ";" SEMICOLON,
    "<" LESS,
    "<=" LESS_EQUAL,
    "<>" NOT_EQUAL,
    "=" EQUALS,
    "==" DOUBLE_EQUALS,
    ">" GREATER,
    ">=" GREATER_EQUAL,
    "[" OPEN_BRACKET,
    "]" CLOSE_BRACKET,
    "^" CARET,
    "{" OPEN_BRACE,
    "}" CLOSE_BRACE,
];

/// The code of an operator or mark, or none where the text is neither.
#[tactic(auto, unfolding(crate::specs::Words::operators))]
pub fn operator(text: &[u8]) -> Option<u16>
    ensures { result ≡ code_in operators text.now }
{
    find(&OPERATORS, text)
}
