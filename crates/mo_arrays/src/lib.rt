//! Elements of array expressions (Modelica Language Specification 3.5, section 8.3.1 and chapter 10).
//!
//! Begin with `src/equations.rt`; the definition to read first is `specs/Elements.antt`. What this crate may not know ends its paragraph
//! in docs/ARCHITECTURE.md.
//!
//! - [`element`]: the scalar expression at an index of an array expression, or rule 32 at a subscript that lies outside;
//!   [`element_at`]: the same where the subscripts were asked before.
//! - [`checked_sides`]: the dimensions of an equation between two array expressions, or the first rule that it breaks.
//! - [`scalar_equations`]: its scalar equations.
//! - [`elements_are_sound`] and [`equations_are_sound`]: laws of these.
//!
//! Their definitions stand in specs/Elements, specs/Equations and specs/Sound.
#![tactic(auto)]

mod build;
mod chains;
mod elements;
mod equations;
mod indices;
mod laws;

pub use elements::element_at;
pub use equations::{checked_sides, element, scalar_equations};
pub use laws::{elements_are_sound, equations_are_sound};
