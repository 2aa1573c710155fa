//! The irreducible blocks of a square system, in an order in which they can be solved, and its dummy derivatives.
//!
//! Begin with `src/order.rt`; the definition to read first is `crates/mo_incidence/specs/Blocks.antt`. What this crate may not know ends
//! its paragraph in docs/ARCHITECTURE.md.
//!
//! - [`blocks`] lists the classes of equations that need each other through chains, in order of dependence.
//! - [`dummies`] lists the derivatives that become unknowns of their own, and the states that are left.
//! - [`counted_by_offsets`] is the law that says how many these are.
#![tactic(auto)]

mod derivatives;
mod laws;
mod order;

pub use derivatives::dummies;
pub use laws::counted_by_offsets;
pub use order::blocks;
