//! Tokens.
use crate::place::Place;

/// What a token is (Modelica Language Specification 3.5, chapter 2).
#[derive(Clone, Copy, Debug, PartialEq, Eq)]
pub enum TokenKind {
    /// An identifier, quoted ones included.
    Ident,
    /// A reserved word, by its place in the table of reserved words, from 0.
    Keyword(u16),
    /// An operator or mark, by its place in the table of operators, from 0.
    Operator(u16),
    /// An Integer literal.
    Whole,
    /// A Real literal.
    Decimal,
    /// A string, with its quotes.
    Str,
    /// The end of the file.
    End,
}

/// A token of a file.
#[derive(Clone, Copy, Debug, PartialEq, Eq)]
pub struct Token<'a> {
    pub kind: TokenKind,
    /// Its bytes as they stand in the file; empty for the end of the file.
    pub text: &'a str,
    /// Its first byte.
    pub place: Place,
}
