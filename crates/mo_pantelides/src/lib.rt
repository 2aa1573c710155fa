//! The least offsets of an incidence: how often each equation has to be differentiated, and why.
//!
//! Begin with `src/least.rt`; the definition to read first is `crates/mo_incidence/specs/Offsets.antt`. What this crate may not know ends
//! its paragraph in docs/ARCHITECTURE.md.
//!
//! [`offsets`] takes the assignment of all equations that `mo_match::assign` left in the work space, and leaves the least offsets there.
//! A search in vain for an unknown at which an equation is tight shows that all equations that it reached have to be differentiated once
//! more (C. C. Pantelides, The consistent initialization of differential-algebraic systems, SIAM J. Sci. Stat. Comput. 9, 1988).
//!
//! [`reasons`] then finds for each equation that is differentiated another one that determines its unknown too.
//!
//! Neither takes memory.
#![tactic(auto)]

mod choose;
mod least;
mod raise;
mod ranks;
mod seek;
mod start;
mod transversal;

pub use choose::reasons;
pub use least::offsets;
