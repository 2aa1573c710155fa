//! Printed reports verified again: whether what a report says of a flat model holds.
//!
//! Begin with `src/whole.rt`; the definition to read first is `specs/Verdict.antt`. What this crate may not know ends its paragraph in
//! docs/ARCHITECTURE.md.
//!
//! - [`verify`] answers the [`Verdict`] on the bytes of a report. It finds no offsets of its own: it decides by what is printed, whichever
//!   tight assignment the printed pairs are.
//! - [`right_reports_are_readable`] is a law on the texts of right reports.
#![tactic(auto)]

mod chains;
mod claims;
mod compare;
mod faults;
mod fill;
mod head;
mod laws;
mod numbers;
mod seen;
mod shown;
mod square;
mod verdict;
mod whole;

pub use laws::right_reports_are_readable;
pub use verdict::Verdict;
pub use whole::verify;
