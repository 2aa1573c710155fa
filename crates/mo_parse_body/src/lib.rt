//! Modifications, equations and statements read from tokens.
//!
//! Begin with `src/call.rt`; the definition to read first is `crates/mo_grammar/specs/Language.antt`. What this crate may not know ends
//! its paragraph in docs/ARCHITECTURE.md.
//!
//! - [`class_mod`], [`equation_item`], [`statement`]: the longest modification, equation or statement that stands at a place,
//!   with the place behind it. `mo_read_body` reads them.
#![tactic(auto)]

mod call;

pub use call::{class_mod, equation_item, statement};
