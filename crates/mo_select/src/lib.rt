//! Dummy derivatives and states by the attribute stateSelect, with the evidence that no choice is better.
//!
//! Begin with `src/choose.rt`; the definition to read first is `specs/Selection.antt`. What this crate may not know ends its paragraph in
//! docs/ARCHITECTURE.md.
//!
//! - [`select`] chooses the dummy derivatives of a square system, stage after stage, and lists the states that they leave.
//! - [`one_selection`] is the law that two selections of one system say the same.
//! - [`Selection`] holds the stages and the states; a [`Stage`] the chosen unknowns with their equations, and for each level how many of
//!   them are of that level or below, and the equations that show why they are not more.
//! - [`selection_text`] writes a selection line by line.
#![tactic(auto)]

mod candidates;
mod choose;
mod grow;
mod laws;
mod levels;
mod selection;
mod stage;
mod states;
mod text;
mod ties;

pub use choose::select;
pub use laws::one_selection;
pub use selection::{Selection, Stage};
pub use text::selection_text;
