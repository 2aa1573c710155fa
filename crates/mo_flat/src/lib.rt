//! The flat model: the types that the meaning of a class ends in and that the structure of a model begins with, and its
//! printed text.
//!
//! Begin with `src/model.rt` (the types) and `src/model_text.rt`; the definition to read first is `specs/Text.antt`. What this crate may
//! not know ends its paragraph in docs/ARCHITECTURE.md.
//!
//! - [`FlatModel`]: variables ([`FlatVar`]), equations ([`FlatEquation`]) and asserts ([`FlatAssert`]), with scalar expressions
//!   ([`FlatExpr`]). [`flat_text`] prints it; [`flat_expr_text`] and [`write_equation_line`] print parts of it.
//! - [`flat_nodes`]: how many nodes an expression has. [`role_of`]: what a variable is. [`name_of_attribute`]: an attribute by its number.
//! - [`ArrayExpr`]: an expression over arrays of variables. [`Connects`]: connects with the leaves of their ends. [`Expanded`]: what
//!   comes of instances, without connection sets.
//!
//! When these are sound is said in specs/Sound, specs/SoundArray and specs/SoundConnects, the text in specs/Text.
#![tactic(auto)]

mod array;
mod connect;
mod copy;
mod expr;
mod expr_text;
mod model;
mod model_text;
mod nodes;
mod roles;
mod words;

pub use array::{ArrayExpr, ArrayNode, Subscript};
pub use connect::{Connect, Connects, End, EndLeaf, Expanded, FaceSet, Side};
pub use expr::FlatExpr;
pub use model::{FlatAssert, FlatEquation, FlatModel, FlatVar};
pub use model_text::{flat_expr_text, flat_text, write_equation_line};
pub use nodes::flat_nodes;
pub use roles::role_of;
pub use words::name_of_attribute;
