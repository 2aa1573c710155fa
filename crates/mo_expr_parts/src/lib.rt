//! What the readers of expressions make of their parts, and what they choose by: trees, names, literals, and the tokens that
//! something begins with. Nothing here holds an expression that is yet to be read.
//!
//! Begin with `src/trees.rt`; the definition to read first is `crates/mo_grammar/specs/Language.antt`. What this crate may not know ends
//! its paragraph in docs/ARCHITECTURE.md.
//!
//! - [`trees`]: the trees of what was read.
//! - [`marks`]: the kinds of tokens among which a reader chooses.
//! - [`name`], [`type_specifier`], [`literal`]: readers of what holds no expression.
#![tactic(auto)]

pub mod marks;
mod names;
mod starts;
pub mod trees;

pub use names::{name, name_behind_dot, type_specifier};
pub use starts::{begins_argument, begins_expression, literal};
pub use trees::{
    Given, InBraces, args_of, array_of, callee_of, expr_at, factor_of, if_of, index_of, iterated,
    joined, literal_node, named_list_of, named_of, named_only, no_arguments, outputs_of, part_of,
    partial, plain_parts, product_of, range_of, relation_of, signed_sum_of, sum_of, term_of,
};
