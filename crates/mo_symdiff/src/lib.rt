//! Symbolic derivatives of flat expressions.
//!
//! Begin with `src/differentiate.rt` and `src/reduce.rt`; the definition to read first is `specs/Derivative.antt`. What this crate may
//! not know ends its paragraph in docs/ARCHITECTURE.md.
//!
//! - [`derivative`]: the derivative with respect to time, by the rules of calculus node for node.
//! - [`expand_der`]: an expression with the derivatives in it carried out.
//! - [`reduced`]: a model whose equations are carried out and followed by their derivatives; [`reduced_text`] prints it.
//! - [`is_still`] and [`holds_given`]: what an expression depends on, conditions of if-expressions left aside.
//!
//! Their definitions stand in specs/: `Derivative` (the derivative of an expression), `Carried` (an expression with its
//! derivatives carried out, and whether that meets a given variable), `Still` (what it depends on), `Sigma` (the highest
//! order of an unknown in it), `Weights` (how large it is) and `Reduced` (the lines, sizes and text of the reduced model). The laws above them are
//! contracts of functions that do nothing: [`derivative_is_first_order_part`] (by `Dual`, the table of dual numbers),
//! [`derivative_raises_orders`], [`orders_without_carrying_out`], [`given_variables_stay`] and
//! [`carried_out_without_given`].
#![tactic(auto)]

mod build;
mod carried_weight;
mod carries;
mod carry;
mod derive;
mod differentiate;
mod functions;
mod laws;
mod powers;
mod reduce;
mod reduce_text;
mod reduced_model;
mod sizes;
mod still;
mod weights;

pub use differentiate::{derivative, expand_der};
pub use laws::{
    carried_out_without_given, derivative_is_first_order_part, derivative_raises_orders,
    given_variables_stay, orders_without_carrying_out,
};
pub use reduce::reduced;
pub use reduce_text::reduced_text;
pub use reduced_model::Reduced;
pub use still::{holds_given, is_still};
