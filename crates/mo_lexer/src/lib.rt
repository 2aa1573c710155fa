//! The lexer: the tokens of the text of a file, or the first rule that it breaks as a text (Modelica Language
//! Specification 3.5, chapter 2).
//!
//! Begin with `src/text.rt`; the definition to read first is `specs/Lexing.antt`. What this crate may not know ends its paragraph in
//! docs/ARCHITECTURE.md.
//!
//! [`tokens`] is the call that cuts a text. Its contract stands on `Lexes` and `IsRefused` of `specs/Lexing.antt`: which
//! tokens a text has, and which rule is broken where. [`is_letter`], [`is_quotable`], [`is_escaped`], [`digits_len`] and [`word_len`]
//! tell of bytes by `specs/Bytes.antt`, for other readers of names.
#![tactic(auto)]

mod bytes;
mod contents;
mod number;
mod piece;
mod text;

pub use bytes::{digits_len, is_escaped, is_letter, is_quotable, word_len};
pub use text::tokens;
