//! What it means that a binding or an attribute fits a leaf: its sizes are those of the components whose indices are pending.
//!
//! Begin with `src/stated.rt` (the law); the definition to read first is `specs/Laws.antt`. What this crate may not know ends its
//! paragraph in docs/ARCHITECTURE.md.
#![tactic(auto)]

mod stated;

pub use stated::fits_have_components;
