//! A largest assignment of unknowns to the equations of an incidence, and what it leaves out.
//!
//! Begin with `src/largest.rt`; the definition to read first is `crates/mo_incidence/specs/Assignment.antt`. What this crate may not know
//! ends its paragraph in docs/ARCHITECTURE.md.
//!
//! - [`Work`] is room for the analyses of an incidence with given counts, and holds what they found.
//! - [`assign`] finds an assignment that no other covers more equations than, and the deficit: the equations that some largest
//!   assignment leaves out, with the unknowns that they mention. It reads the incidence through a counted view alone.
//! - [`undetermined`] finds the unknowns that some assignment of all equations leaves out.
//! - [`Graph`] is the search that these share with the least offsets: breadth first, with a queue, and so without recursion. What it
//!   changes is a [`Matching`] and a [`Search`], which own their lists.
//!
//! Only [`Work::new`], [`Matching::new`] and [`Search::new`] take memory.
#![tactic(auto)]

mod extend;
mod graph;
mod largest;
mod lists;
mod matching;
mod search;
mod spread;
mod threads;
mod work;

pub use extend::Free;
pub use graph::Graph;
pub use largest::{assign, clear};
pub use lists::put;
pub use matching::Matching;
pub use search::Search;
pub use spread::{note_owners, undetermined};
pub use work::{Assigned, Work};
