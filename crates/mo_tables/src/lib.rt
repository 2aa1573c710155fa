//! The words of the language: reserved words, operators and marks, and the names of predefined functions.
//!
//! Begin with `src/table.rt`; the definition to read first is `specs/Table.antt`. What this crate may not know ends its paragraph in
//! docs/ARCHITECTURE.md.
//!
//! - [`KEYWORDS`], [`OPERATORS`] and [`FUNCTIONS`] are the tables; a row's code is its place.
//! - [`find`] gives the code of a word in any table whose names rise by their bytes.
//! - [`keyword`], [`operator`] and [`function`] do so in the three tables.
//! - [`keywords`], [`operators`] and [`functions`] name each code, as `keywords::MODEL`.
#![tactic(auto)]

macro_rules! rows {
    ($($name:literal $code:ident),* $(,)?) => {
        [$(Row { name: $name, code: $code }),*]
    };
}

pub mod functions;
pub mod keywords;
pub mod operators;
mod table;

pub use functions::{FUNCTIONS, function};
pub use keywords::{KEYWORDS, keyword};
pub use operators::{OPERATORS, operator};
pub use table::{Row, find};
