//! Resolved expressions, whose names are variables: what is asked of them, what is made of them, and their values (Modelica Language
//! Specification 3.5, sections 3.3 to 3.8, 4.4, 10.3 to 10.6).
//!
//! Begin with `src/layers.rt` and `src/walk.rt`; the definitions to read first are `specs/Asked.antt` and `specs/Walk.antt`. What this
//! crate may not know ends its paragraph in docs/ARCHITECTURE.md.
//!
//! - [`Context`]: what an expression is resolved for. [`making`]: the nodes that are made of resolved parts.
//! - [`layers`]: what is asked of the kind, the dimensions and the subscripts of an expression; [`operands`]: of those of `div`, `mod`
//!   and `rem`. [`selecting`]: what the subscripts of a reference select.
//! - [`Value`]: what is known of an expression before a simulation. [`Scalar`]: a value that is decided. [`Reckoned`]: what an operation
//!   gives.
//! - [`known`]: what is known of a resolved expression at an index, where [`Told`] says what is read of its variables; or why that is
//!   not known ([`Halt`]).
//! - [`has_values`], [`if_it_has`] and [`value_with`]: which kinds have values, and what is known of an expression of a kind.
//! - [`part_at`]: the part of an array literal that has an element.
//! - [`division`]: `div`, `mod` and `rem` of what is known of their operands.
//! - [`answer`] and [`broken`]: an outcome as an [`Answer`] of a walk, and a rule that breaks at a place.
//!
//! A value is a walk over the resolved expression: the operands are read from left to right, and only the elements that the index needs.
//! The definitions stand in specs/.
#![tactic(auto)]

mod answers;
mod arithmetic;
mod chains;
mod context;
mod elements;
mod halt;
pub mod layers;
mod literal;
pub mod making;
pub mod operands;
mod operations;
mod relations;
pub mod selecting;
mod value;
mod walk;

pub use answers::{Answer, answer};
pub use context::Context;
pub use halt::{Halt, Told};
pub use literal::part_at;
pub use operations::{division, has_values, if_it_has, value_with};
pub use value::{Reckoned, Scalar, Value};
pub use walk::known;
