//! Readers of what holds no expression and no class: prefixes, strings, imports, the clause of a file, and the end of a class.
//!
//! Begin with `src/nesting.rt`; the definition to read first is `crates/mo_grammar/specs/Language.antt`. What this crate may not know
//! ends its paragraph in docs/ARCHITECTURE.md.
//!
//! A reader takes the tokens that are left, and what is left of the limits of nesting ([`Left`]) where it can open constructs. It
//! gives what its production reads of them with the tokens behind it, or stops where reading is stuck. Want of memory is the
//! only other answer.
#![tactic(auto)]

mod endings;
mod imports;
mod names;
mod nesting;
mod prefixes;
mod within;

pub use endings::{end_of_class, past_classes};
pub use imports::imported;
pub use names::{identifiers, name};
pub use nesting::Left;
pub use prefixes::{
    begins_class_prefixes, causality, class_prefixes, component_prefix, element_flags, strings,
    take_optional,
};
pub use within::{within_clause, within_tree};
