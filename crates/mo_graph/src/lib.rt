//! Directed graphs: the blocks of vertices that need each other through chains, in an order in which what a block needs stands
//! before it.
//!
//! Begin with `src/order.rt`; the definition to read first is `specs/Order.antt`. What this crate may not know ends its paragraph in
//! docs/ARCHITECTURE.md.
//!
//! - [`Edges`] are the edges of a graph whose vertices are places, from 0.
//! - [`in_order`] lists its blocks, each by its vertices' numbers, from 1.
//!
//! A search by depth gives the order in which vertices finish; classes are gathered backwards from the vertices that finished last; the
//! classes, each by its least vertex, are then placed one after another. All searches keep their paths in lists and recurse nowhere.
#![tactic(auto)]

mod edges;
mod finish;
mod gather;
mod leaders;
mod list;
mod order;
mod place;
mod threads;

pub use edges::Edges;
pub use order::in_order;
