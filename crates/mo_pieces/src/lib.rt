//! Pieces of source text: what an expression, an equation, a class is in pieces, which are tokens and layout, and what pieces are as
//! text, with a blank between tokens that would be read as one.
//!
//! Begin with `src/piece.rt` and `src/text.rt`; the definition to read first is `specs/Text.antt`. What this crate may not know ends its
//! paragraph in docs/ARCHITECTURE.md.
//!
//! The definitions stand in `specs/`: `Shown..` says what each tree is in pieces, `Text` what pieces are as text.
//!
//! - [`Pieces`], [`text_of`]: pieces that are put in a row, and their text.
//! - The rest writes what holds no tree: marks, words and layout between trees, sections, and the head and the end of a class.
#![tactic(auto)]

mod binding;
mod class_head;
mod layout;
mod lines;
mod piece;
mod section;
mod text;

pub use binding::level;
pub use class_head::{write_class_end, write_head_words};
pub use layout::{
    comma_between, dot_between, dot_where, mark_of_relation, separate, separate_rows, spaced_mark,
    spaced_word, word_between, write_branch_word, write_power_mark, write_sign, write_times,
};
pub use lines::{line_between, word_of, word_where, write_end};
pub use piece::{Piece, Pieces};
pub use section::{Section, behind_item, section_of, write_head_between};
pub use text::{Ending, text_of};
