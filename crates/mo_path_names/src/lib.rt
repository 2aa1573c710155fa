//! The names in the paths of instances and flat models: they are names that the files declare, and printed paths differ where paths do.
//!
//! Begin with `src/stated.rt` (the laws); the definition to read first is `specs/Laws.antt`. What this crate may not know ends its
//! paragraph in docs/ARCHITECTURE.md.
//!
//! specs/Identifiers has identifiers as a test of names, specs/Delimited what tells where a name ends in a printed path, specs/Named what a
//! named path is, and specs/Laws the statements.
//!
//! - [`identifiers_are_tested`], [`names_are_delimited`] and [`paths_print_apart`]: tests of names, and printed paths.
//! - [`instances_have_names`] and [`flat_models_have_names`]: what files give whose names pass a test.
//! - [`report_names_are_readable`]: flat models of files whose names are identifiers.
#![tactic(auto)]

mod stated;

pub use stated::{
    flat_models_have_names, identifiers_are_tested, instances_have_names, names_are_delimited,
    paths_print_apart, report_names_are_readable,
};
