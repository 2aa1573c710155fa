//! Classes and files read from tokens.
//!
//! Begin with `src/call.rt`; the definition to read first is `specs/WholeFiles.antt`. What this crate may not know ends its paragraph in
//! docs/ARCHITECTURE.md.
//!
//! - [`stored_definition`]: the tree of a whole file, or the first token that cannot stand where it stands, with its rule.
#![tactic(auto)]

mod call;
mod classes;
mod components;
mod copies;
mod elements;
mod endings;
mod file;
mod imports;
mod parts;
mod plain;
mod sections;

pub use call::stored_definition;
