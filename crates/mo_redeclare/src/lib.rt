//! Redeclarations (Modelica Language Specification 3.5, sections 6.4 and 7.3).
//!
//! Begin with `src/comparing.rt` and `src/check.rt`; the definitions to read first are `crates/mo_scope/specs/Compatible.antt` and
//! `crates/mo_scope/specs/Redeclarations.antt`. What this crate may not know ends its paragraph in docs/ARCHITECTURE.md.
//!
//! - `compatible`: whether one class has what another one has, so that it may stand in its place.
//! - `check_redeclared`: what the redeclarations among the sources of a frame break.
//! - `prefix_of`, `dimension_count`: the declared prefixes of a component, and how many dimensions it has.
//!
//! The definitions stand in mo_scope. Each call keeps the frames that exist, after a refusal too.
#![tactic(auto)]

mod check;
mod classes;
mod comparing;
mod dims;
mod entering;
mod known;
mod names;
mod prefix;
mod replaceable;
mod spoken;

pub use check::check_redeclared;
pub use comparing::compatible;
pub use dims::dimension_count;
pub use prefix::prefix_of;
