//! The kinds of tokens among which a reader chooses.
use mo_syntax::TokenKind;
use mo_syntax::TokenKind::{Decimal, Ident, Keyword, Operator, Str, Whole};
use mo_tables::{keywords, operators};

/// The marks of relations.
pub const RELATIONS: [TokenKind; 6] = [
    Operator(operators::LESS),
    Operator(operators::LESS_EQUAL),
    Operator(operators::GREATER),
    Operator(operators::GREATER_EQUAL),
    Operator(operators::DOUBLE_EQUALS),
    Operator(operators::NOT_EQUAL),
];

/// The signs of terms.
pub const SIGNS: [TokenKind; 4] = [
    Operator(operators::PLUS),
    Operator(operators::MINUS),
    Operator(operators::DOT_PLUS),
    Operator(operators::DOT_MINUS),
];

/// What stands between factors.
pub const FACTOR_MARKS: [TokenKind; 4] = [
    Operator(operators::STAR),
    Operator(operators::SLASH),
    Operator(operators::DOT_STAR),
    Operator(operators::DOT_SLASH),
];

/// What stands before an exponent.
pub const POWER_MARKS: [TokenKind; 2] = [
    Operator(operators::CARET),
    Operator(operators::DOT_CARET),
];

/// What is a literal or `end`.
pub const LITERALS: [TokenKind; 6] = [
    Whole,
    Decimal,
    Str,
    Keyword(keywords::FALSE),
    Keyword(keywords::TRUE),
    Keyword(keywords::END),
];

/// The words that are called as functions are.
pub const CALLED_WORDS: [TokenKind; 3] = [
    Keyword(keywords::DER),
    Keyword(keywords::INITIAL),
    Keyword(keywords::PURE),
];

/// What a reference may begin with.
pub const REFERENCE_STARTS: [TokenKind; 2] = [Ident, Operator(operators::DOT)];

/// What an expression may begin with.
pub const EXPRESSION_STARTS: [TokenKind; 20] = [
    Keyword(keywords::IF),
    Keyword(keywords::NOT),
    Operator(operators::PLUS),
    Operator(operators::MINUS),
    Operator(operators::DOT_PLUS),
    Operator(operators::DOT_MINUS),
    Ident,
    Whole,
    Decimal,
    Str,
    Operator(operators::OPEN_PAREN),
    Operator(operators::DOT),
    Keyword(keywords::DER),
    Keyword(keywords::END),
    Operator(operators::OPEN_BRACKET),
    Keyword(keywords::FALSE),
    Operator(operators::OPEN_BRACE),
    Keyword(keywords::INITIAL),
    Keyword(keywords::PURE),
    Keyword(keywords::TRUE),
];

/// What an argument of a call may begin with.
pub const ARGUMENT_STARTS: [TokenKind; 21] = [
    Keyword(keywords::FUNCTION),
    Keyword(keywords::IF),
    Keyword(keywords::NOT),
    Operator(operators::PLUS),
    Operator(operators::MINUS),
    Operator(operators::DOT_PLUS),
    Operator(operators::DOT_MINUS),
    Ident,
    Whole,
    Decimal,
    Str,
    Operator(operators::OPEN_PAREN),
    Operator(operators::DOT),
    Keyword(keywords::DER),
    Keyword(keywords::END),
    Operator(operators::OPEN_BRACKET),
    Keyword(keywords::FALSE),
    Operator(operators::OPEN_BRACE),
    Keyword(keywords::INITIAL),
    Keyword(keywords::PURE),
    Keyword(keywords::TRUE),
];
