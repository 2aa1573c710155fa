//! Alias elimination: unknowns that equations say are others, or minus others, and the model without them.
//!
//! Begin with `src/find.rt` and `src/trees.rt`; the definition to read first is `specs/Aliases.antt`. What this crate may not know ends
//! its paragraph in docs/ARCHITECTURE.md.
//!
//! - [`aliases`] finds which unknowns are others, which equations say no more than that, and which contradict those before them.
//! - [`without_aliases`] makes the model without them.
//! - [`aliases_text`] writes both.
//! - The laws are contracts of functions that do nothing: [`same_meaning`], that the new model says of the unknowns that are left what
//!   the old one says, [`one_finding`], that nothing else could have been found, and [`chains_say_one_sign`].
//!
//! Their definitions stand in specs/: `Recognized` (what an alias equation is), `Chains` (links, and chains of them with their signs),
//! `Aliases` (what is found), `Without` (the model without aliases), `Meaning` (what satisfies a model) and `Text`.
#![tactic(auto)]

mod alias;
mod chain;
mod classify;
mod find;
mod found;
mod laws;
mod numbers;
mod places;
mod replace;
mod text;
mod trees;
mod without;

pub use find::aliases;
pub use found::{Aliases, Gone};
pub use laws::{chains_say_one_sign, one_finding, same_meaning};
pub use text::aliases_text;
pub use without::without_aliases;
