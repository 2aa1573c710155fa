//! Expressions read from tokens.
//!
//! Begin with `src/call.rt`; the definition to read first is `crates/mo_grammar/specs/Language.antt`. What this crate may not know ends
//! its paragraph in docs/ARCHITECTURE.md.
//!
//! - [`expression`]: the whole expression that stands at a place, with the place behind it. `mo_read_expr` reads it.
#![tactic(auto)]

mod call;

pub use call::expression;
