//! The equations of instances (Modelica Language Specification 3.5, chapters 8, 9 and 10).
//!
//! Begin with `src/whole.rt`, `src/variables.rt` and `src/sections.rt`; the definitions to read first are `specs/Expansion.antt` and
//! `specs/Equations.antt`. What this crate may not know ends its paragraph in docs/ARCHITECTURE.md.
//!
//! - [`expand`]: the variables of a tree of instances, its equations, asserts and connects ([`Expansion`]), or the first rule that is
//!   broken on the way.
//! - [`MOST_UNKNOWNS`], [`MOST_EQUATIONS`], [`MOST_NODES`]: how large a flat model may be; [`MOST_TURNS`]: how many turns loops may take.
//!
//! The definitions stand in specs/: `expansion_of` gives all of it.
#![tactic(auto)]

mod array_values;
mod arrays;
mod asserts;
mod building;
mod checks;
mod constants;
mod counting;
mod desk;
mod ends;
mod equalities;
mod filling;
mod flat;
mod flows;
mod forms;
mod joining;
mod kinds;
mod layers;
mod leaves;
mod levels;
mod limits;
mod made;
mod paths;
mod resolutions;
mod sections;
mod shared;
mod standing;
mod stops;
mod table;
mod values;
mod variables;
mod whole;

pub use limits::{MOST_EQUATIONS, MOST_NODES, MOST_TURNS, MOST_UNKNOWNS};
pub use whole::{Expansion, expand};
