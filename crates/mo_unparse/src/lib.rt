//! Trees as source text, such that reading the text again gives the tree, places aside.
//!
//! Begin with `src/expression.rt` and `src/class.rt`; the definitions to read first are `crates/mo_pieces/specs/ShownClasses.antt` and
//! `specs/ReadAgain.antt`. What this crate may not know ends its paragraph in docs/ARCHITECTURE.md.
//!
//! - [`expr_text`]: the text of an expression. [`class_text`]: that of a class, with all that stands in it.
//!
//! Which pieces a tree has is defined in mo_pieces; specs/ReadAgain says what reading again gives.
#![tactic(auto)]

mod class;
mod element;
mod equation;
mod expression;
mod item;
mod simple_body;
mod statement;

pub use class::class_text;
pub use expression::expr_text;
