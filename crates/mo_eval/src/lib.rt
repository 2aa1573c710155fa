//! Values and sizes of expressions (Modelica Language Specification 3.5, chapters 3, 4 and 10).
//!
//! Begin with `src/resolve.rt` and `src/reader.rt`; the definitions to read first are `specs/Values.antt` and `specs/Resolving.antt`.
//! What this crate may not know ends its paragraph in docs/ARCHITECTURE.md.
//!
//! - [`Value`]: what is known of an expression before a simulation.
//! - [`Scalar`]: a value that is decided.
//! - [`Reckoned`]: what an operation gives.
//! - [`known`]: what is known of a resolved expression at an index, where [`Told`] says what is read of its variables; or why that is
//!   not known ([`Halt`]).
//! - [`Context`]: what an expression is resolved for.
//! - [`Resolved`], [`Virtual`] and [`Element`]: a resolved expression, and what its variables stand for. [`Sides`]: the two sides of
//!   an equation.
//! - [`Bound`]: what binds the elements of a component, resolved for its value.
//! - [`Ended`] and [`Selected`]: what an end of a connect names and selects.
//! - [`fitted`]: how pending indices fit the dimensions of an expression.
//! - [`literal_text`] and [`class_text`]: how literals and classes are printed.
//! - [`Reader`]: reads the values and the dimensions of expressions, resolves expressions of the flat model, and says whether a
//!   component is there and which dimensions it has; [`MOST_REFERENCES`] is how many references may be read, one within the other.
//! - [`next`]: what comes next ([`Step`]) where an element of a resolved expression is wanted and its variables are read one after
//!   another, only where they are needed; [`unread`] and [`mark`] keep what is read of them.
//!
//! An expression is resolved in a scope, which puts virtual variables in the place of its names; its kind, its dimensions and its
//! value are then those of the resolved expression. The definitions stand in specs/.
#![tactic(auto)]

mod absent;
mod ahead;
mod alone;
mod below;
mod callee;
mod calls;
mod choice;
mod components;
mod dimensions;
mod division;
mod ends;
mod kept;
mod layers;
mod literals;
mod names;
mod reader;
mod reading;
mod references;
mod resolve;
mod selections;
mod sizes;
mod subscripts;
mod variables;
mod virtuals;

pub use ends::{Ended, Selected};
pub use literals::{class_text, literal_text};
pub use mo_values::layers::fitted;
pub use mo_values::{Context, Halt, Reckoned, Scalar, Told, Value, known};
pub use reader::{Bound, MOST_REFERENCES, Reader};
pub use reading::{Step, mark, next, unread};
pub use virtuals::{Element, Resolved, Sides, Virtual};
