//! Reports on the structure of a model as JSON (RFC 8259).
//!
//! Begin with `src/whole.rt`; the definition to read first is `specs/Values.antt`. What this crate may not know ends its paragraph in
//! docs/ARCHITECTURE.md.
//!
//! - [`report_value`] is the value of a report.
//! - [`report_json`] is its compact text.
//!
//! That reports which say the same have one value is the contract of [`one_value`], which does nothing.
#![tactic(auto)]

mod laws;
mod lists;
mod parts;
mod whole;

pub use laws::one_value;
pub use whole::{report_json, report_value};
