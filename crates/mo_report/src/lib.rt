//! Reports on the structure of a model, and their text.
//!
//! Begin with `src/lines.rt`; the definition to read first is `specs/Right.antt`. What this crate may not know ends its paragraph in
//! docs/ARCHITECTURE.md.
//!
//! - [`Report`]: what the analyses of an incidence found, with the names of the unknowns.
//! - [`report_text`] writes it line by line.
//! - [`report_fits`]: whether the derivatives in it stay within its limit.
//! - [`push_numbered`], [`number_at`], [`write_numbers`], [`write_derivative`], [`write_states`]: its pieces, for other texts on the structure
//!   of a model.
//!
//! That a flat model has one right report is the contract of [`one_right_report`], which does nothing.
#![tactic(auto)]

mod laws;
mod lines;
mod pushing;
mod report;
mod size;
mod square;

pub use laws::one_right_report;
pub use lines::report_text;
pub use pushing::{number_at, push_numbered};
pub use report::Report;
pub use size::report_fits;
pub use square::{write_derivative, write_numbers, write_states};
