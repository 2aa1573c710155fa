//! How many bytes the text of a flat model has, found without making it.
//!
//! Begin with `src/model.rt`; the definition to read first is `crates/mo_flat/specs/Text.antt`. What this crate may not know ends its
//! paragraph in docs/ARCHITECTURE.md.
//!
//! - [`text_bytes`]: the length of the text that mo_flat's `flat_text` makes.
#![tactic(auto)]

mod expr;
mod model;
mod pieces;

pub use model::text_bytes;
