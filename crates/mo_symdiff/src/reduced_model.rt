//! The type of reduced models.
use mo_flat::FlatEquation;
use mo_syntax::List;

/// A model with, for each of its equations, that equation and its derivatives.
#[derive(Drop)]
pub struct Reduced {
    /// The equation with its derivatives carried out, then its first derivative, and so on.
    pub lines: List<List<FlatEquation>>,
}
