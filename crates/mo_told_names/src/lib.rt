//! The names of what is told of texts and of named files are identifiers of these, so that printed reports on their models can be read.
//!
//! Begin with `src/stated.rt` (the laws); the definition to read first is `specs/Laws.antt`. What this crate may not know ends its
//! paragraph in docs/ARCHITECTURE.md.
//!
//! - [`text_names_pass`]: any test of names that the identifiers of texts pass.
//! - [`text_names_are_identifiers`]: the flat model of a class in texts, among them the text of a ladder.
//! - [`file_names_are_identifiers`]: that of a class in named files.
#![tactic(auto)]

mod stated;

pub use stated::{file_names_are_identifiers, text_names_are_identifiers, text_names_pass};
