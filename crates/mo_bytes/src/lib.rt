//! Where what is told of named files stands: the place of each broken rule is a byte of one of them, and so are the places in the flat
//! model. Only that no class has the asked path is told on the command line.
//!
//! Begin with `src/stated.rt` (the laws); the definition to read first is `specs/Laws.antt`. What this crate may not know ends its
//! paragraph in docs/ARCHITECTURE.md.
//!
//! A tree of a file has places of tokens alone (`proofs/laws/Trees.antt`, by induction over all productions of the grammar), tokens begin at
//! bytes of their text, and what names, values, instances and equations answer stands in the trees (mo_places).
//!
//! - [`refusals_stand`]: the first rule that is broken on the way to the flat model.
//! - [`models_stand`]: the flat model.
//! - [`told_refusals_stand`]: the first rule that is broken on the way to what is written.
//! - [`ladder_refusals_stand`]: the first rule that is broken on the way to the line of a ladder, in the text of the ladder.
//! - [`verdict_refusals_stand`]: the first rule that is broken on the way to the verdict on a printed report.
#![tactic(auto)]

mod stated;

pub use stated::{
    ladder_refusals_stand, models_stand, refusals_stand, told_refusals_stand,
    verdict_refusals_stand,
};
