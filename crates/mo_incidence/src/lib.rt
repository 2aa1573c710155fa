//! The incidence of a flat model: which unknowns stand in which equations, and at which highest order.
//!
//! Begin with `src/model.rt` and `src/table.rt`; the definition to read first is `specs/Signature.antt`. What this crate may not know
//! ends its paragraph in docs/ARCHITECTURE.md.
//!
//! - [`incidence`] is the incidence of a flat model.
//! - [`Incidence`] holds the entries row by row; [`Incidence::from_rows`] makes one from given rows.
//! - [`needs`] says which equations need which, by given offsets.
//! - [`Counted`] is a view of an incidence that only a counter can read, one step for each entry.
//! - [`Offsets`], [`Deficit`], [`Reason`], [`Blocks`] and [`Dummies`] are what the analyses above find.
//!
//! Equations and unknowns are numbered from 1.
#![tactic(auto)]

mod builder;
mod carrying;
mod counter;
mod findings;
mod gather;
mod model;
mod needing;
mod table;

pub use builder::RowsError;
pub use counter::Counted;
pub use findings::{Blocks, Deficit, Dummies, Offsets, Reason};
pub use model::incidence;
pub use needing::needs;
pub use table::Incidence;
