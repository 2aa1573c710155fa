//! The instances of a class (Modelica Language Specification 3.5, sections 4.4, 4.8, 5.4, 5.6, 7.2 and 7.3).
//!
//! Begin with `src/walk.rt` and `src/checks.rt`; the definitions to read first are `specs/Instances.antt` and `specs/Checks.antt`. What
//! this crate may not know ends its paragraph in docs/ARCHITECTURE.md.
//!
//! - `instantiate`: the asked class and all its components, each before its parts, or the first rule that is broken on the way.
//! - `InstanceTree`, `Instance`, `Leaf`, `Chosen`: what it answers.
//!
//! The definitions stand in specs/: `instances_of`, over each check of a frame, of a component and of an `outer` component. The one
//! circle of calls is `walk`; all that is asked of one component or of one element stands outside of it.
#![tactic(auto)]

mod asked_class;
mod attributes;
mod checks;
mod component;
mod element;
mod first_pass;
mod given;
mod leaf;
mod outer;
mod own;
mod paths;
mod prefixes;
mod profile;
mod root;
mod spoken;
mod walk;

pub use asked_class::instantiate;
pub use mo_scope::{Chosen, Instance, InstanceTree, Leaf};
