//! The readers of expressions: one for each production, and one for each part that stands in a list.
//!
//! Begin with `src/expressions.rt`; the definition to read first is `crates/mo_grammar/specs/Language.antt`. What this crate may not know
//! ends its paragraph in docs/ARCHITECTURE.md.
//!
//! A reader takes what is left of the nesting limit and the tokens that are left. It gives what its production reads of them
//! with the tokens behind it, or stops where reading is stuck. Want of memory is the only other answer.
#![tactic(auto)]

mod arguments;
mod expressions;
mod primaries;
mod references;

pub use arguments::{call_arguments, indices};
pub use expressions::{expression, expression_behind, simple_expression};
pub use primaries::outputs;
pub use references::{reference, subscripts};
