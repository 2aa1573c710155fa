//! Connections: which faces of connectors are joined, and the equations of each connection set (Modelica Language
//! Specification 3.5, section 9.2).
//!
//! Begin with `src/joined.rt`; the definition to read first is `specs/Sets.antt`. What this crate may not know ends its paragraph in
//! docs/ARCHITECTURE.md.
//!
//! - `check`: the first rule that connects break.
//! - `sets`: the connection sets.
//! - `set_equations`: the equations of connection sets.
#![tactic(auto)]

mod alike;
mod declared;
mod equations;
mod forest;
mod gather;
mod joined;
mod joins;
mod labels;
mod refusals;

pub use equations::set_equations;
pub use joined::sets;
pub use refusals::check;
