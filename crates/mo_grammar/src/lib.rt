//! What tokens spell: the grammar of the profile as data, and its laws, proved once for every production.
//!
//! Begin with `src/laws.rt` (the laws) and `src/reading.rt` (the readers' tools); the definition to read first is `specs/Language.antt`.
//! What this crate may not know ends its paragraph in docs/ARCHITECTURE.md.
//!
//! The definitions stand in `specs/`. `Grammar` says what a grammar is, and what tokens spell and begin by it; `Symbols`,
//! `Expressions`, `Classes` and `Productions` hold the grammar of the profile, one entry a production; `Reading` reads by a
//! grammar from left to right and has the test that a grammar passes; `Language` names what other crates cite. The laws hold
//! for every grammar that passes the test, and `laws` states them for this one.
#![tactic(auto)]

mod fault;
mod laws;
mod printed;
mod reading;
mod token_code;

pub use fault::Fault;
pub use laws::{
    beginnings_extend, classes_leave_alone, files_are_sound, first_impossible, fronts_begin,
    longest_spelling, one_tree, reading_ends, tables_are_right, unfinished_front,
};
pub use printed::{
    arguments, class_heads, compositions, equalities, equation_lists, external_calls, imports,
    primaries,
};
pub use reading::{
    Halt, Reading, are_next, flag, is, is_any, is_next, is_next_any, none_yet, past_limit,
    place_of, rest_from, stop_at, take, take_any, token_at,
};
pub use token_code::code;
