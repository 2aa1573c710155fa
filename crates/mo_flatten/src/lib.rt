//! The flat model of a class (Modelica Language Specification 3.5, section 5.6).
//!
//! Begin with `src/phases.rt`; the definition to read first is `specs/Flat.antt`. What this crate may not know ends its paragraph in
//! docs/ARCHITECTURE.md.
//!
//! - `flatten`: the flat model of the class of a path, or the first rule that is broken, phase by phase: the asked class; its instances;
//!   variables and equations; connections; the size of the flat model.
//!
//! The definition is `Flattens` of specs/. Each phase is a call of a crate below; nothing else is asked here but the size.
#![tactic(auto)]

mod phases;
mod size;

pub use phases::flatten;
