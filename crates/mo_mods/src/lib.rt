//! The modifiers of a frame merged into one table (Modelica Language Specification 3.5, section 7.2).
//!
//! Begin with `src/env.rt`; the definition to read first is `specs/Merged.antt`, and `specs/Calls.antt` for what the calls answer. What
//! this crate may not know ends its paragraph in docs/ARCHITECTURE.md.
//!
//! - `merge`: the sources of a frame as one table, or the first of rules 21 to 23 that their arguments break; `merged_sources`: a
//!   list of sources as one table. `claims_by`: the paths that an argument gives something for, each as a `Claim`;
//!   `is_path` reads paths.
//! - `MergedEnv`: for every path a value, a redeclaration, and the tables below it. `binding` finds the value for a path,
//!   and `step_in` makes the table for an element, entered at an index.
//!
//! The definitions stand in specs/: what such a table is, and when it stands for a list of sources; what is left of sources on
//! the way to a path; and the second pass over arguments in two runs.
#![tactic(auto)]

mod answers;
mod asked;
mod binding;
mod env;
mod frame;
mod groups;
mod left;
mod merging;
mod passes;
mod paths;
mod stepping;

pub use asked::{Claim, claims_by};
pub use env::{MergedEnv, MergedValue, RedeclaredAt};
pub use frame::merge;
pub use merging::merged_sources;
pub use paths::is_path;
