//! Kinds, dimensions and subscripts of array expressions (Modelica Language Specification 3.5, sections 3.4 to 3.7, 4.8 and
//! chapter 10).
//!
//! Begin with `src/kinds.rt`, `src/dims.rt` and `src/checks.rt`; the definition to read first is `specs/Kinds.antt`. What this crate may
//! not know ends its paragraph in docs/ARCHITECTURE.md.
//!
//! - [`kind_of`]: the kind of each element of an array expression, or the first rule that its kinds break.
//! - [`dims_of`]: its dimensions, or the first rule that they break.
//! - [`subscripts`]: the first of its subscripts that lies outside its dimension.
//! - [`accepts`]: whether a value of a kind may stand where another kind is wanted.
//!
//! The same for parts of expressions:
//!
//! - [`agree`]: the kind of an operation by those of its operands.
//! - [`operands`] and [`extents`]: the dimensions of an operation by those of its operands.
//! - [`shapes`]: the dimensions of an expression whose dimensions break no rule.
//! - [`indexing`]: the elements that indices mean.
//!
//! Their definitions stand in specs/Kinds, specs/Dims, specs/Subscripts, specs/Shape and specs/Indices. An expression need not be
//! sound for them.
#![tactic(auto)]

pub mod agree;
mod checks;
mod dims;
pub mod extents;
pub mod indexing;
mod kinds;
mod laws;
pub mod operands;
pub mod shapes;

pub use agree::accepts;
pub use checks::{is_within, subscripts};
pub use dims::dims_of;
pub use extents::{range, shaped, subscripted};
pub use kinds::kind_of;
pub use laws::elements_fill_the_dimensions;
pub use operands::matched;
