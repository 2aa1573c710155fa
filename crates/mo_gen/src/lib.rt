//! Texts of models that are made to measure.
//!
//! Begin with `src/rungs.rt`; the definition to read first is `specs/Ladder.antt`. What this crate may not know ends its paragraph in
//! docs/ARCHITECTURE.md.
//!
//! - [`ladder`]: a circuit of any number of rungs, each a resistor and a capacitor.
#![tactic(auto)]

mod rungs;

pub use rungs::ladder;

#[cfg(test)]
mod tests;
