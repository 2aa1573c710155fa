//! The lines of printed reports: which forms they have, and what they say.
//!
//! Begin with `src/line.rt` and `src/text.rt`; the definitions to read first are `specs/Grammar.antt` and `specs/Lines.antt`. What this
//! crate may not know ends its paragraph in docs/ARCHITECTURE.md.
//!
//! - [`first_unreadable`] finds the first line of a text that has no form of a report's line.
//! - [`first_difference`] finds the first line at which two texts differ.
//! - [`equation_line`] and [`unknown_line`] read the lines that hold offsets.
//! - [`first_line`] cuts a text behind its first line feed.
//!
//! All take time that is linear in the text, and no memory.
#![tactic(auto)]

mod bytes;
mod form;
mod line;
mod name;
mod number;
mod offsets;
mod text;

pub use form::{Field, Kind};
pub use offsets::{EquationLine, UnknownLine, equation_line, unknown_line};
pub use text::{Difference, first_difference, first_line, first_unreadable};
