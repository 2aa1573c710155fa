//! The readers of modifications, equations and statements: one for each production, and one for each part that stands in a
//! list.
//!
//! Begin with `src/modifications.rt` and `src/equations.rt`; the definition to read first is `crates/mo_grammar/specs/Language.antt`.
//! What this crate may not know ends its paragraph in docs/ARCHITECTURE.md.
//!
//! A reader takes what is left of the nesting limit and the tokens that are left. It gives what its production reads of them
//! with the tokens behind it, or stops where reading is stuck. Want of memory is the only other answer.
#![tactic(auto)]

mod algorithms;
mod declarations;
mod equations;
mod if_equations;
mod modifications;
mod nested_statements;
mod short_classes;
mod values;
mod when_equations;

pub use algorithms::{statement, statements};
pub use declarations::{annotation, comment, constraint, declaration};
pub use equations::equation;
pub use modifications::{class_modification, optional_modifiers};
pub use short_classes::short_body;
pub use values::optional_subscripts;
