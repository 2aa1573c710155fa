//! The class tree of a set of files (Modelica Language Specification 3.5, sections 5.3, 5.6 and 13.2.2.3): which classes it
//! holds under which paths, and the rules that it may break.
//!
//! Begin with `src/building.rt` and `src/question.rt`; the definition to read first is `crates/mo_syntax/specs/ClassTable.antt`. What
//! this crate may not know ends its paragraph in docs/ARCHITECTURE.md.
//!
//! - `build`: the class tree of files, or the first of its rules that they break.
//! - `asked`: the class that is asked for by its path, where it has a flat model.
#![tactic(auto)]

mod building;
mod keys;
mod names;
mod question;
mod walk;

pub use building::build;
pub use question::asked;
