//! Checks of what the analyses of an incidence found. Each accepts any lists, and its yes is evidence by itself.
//!
//! Begin with `src/least.rt`; the definition to read first is `specs/Reasons.antt`. What this crate may not know ends its paragraph in
//! docs/ARCHITECTURE.md.
//!
//! - [`deficit_holds`]: the listed equations mention fewer unknowns than they are, so no assignment covers all equations.
//! - [`offsets_hold`]: the listed offsets and pairs are admissible.
//! - [`least_holds`]: the listed reasons show them to be the least.
//! - [`blocks_hold`]: besides, the system is square, and the listed blocks are its irreducible blocks in order of dependence.
#![tactic(auto)]

mod admissible;
mod block_lists;
mod deficiency;
mod entries;
mod least;
mod marks;

pub use admissible::offsets_hold;
pub use block_lists::blocks_hold;
pub use deficiency::deficit_holds;
pub use least::least_holds;
