//! Flat expressions.
use mo_syntax::{Boxed, List, RelOp, Text};

/// A scalar expression of the flat model. Its names are numbers of variables, its functions are numbers of the table of
/// functions.
#[derive(Drop)]
pub enum FlatExpr {
    /// An Integer value. A negative one is a value too, and not a sign before another.
    Whole(i64),
    /// A Real literal with its source text.
    Decimal(Text),
    /// A string literal with its source text, quotes included.
    Str(Text),
    /// `true` or `false`.
    Truth(bool),
    /// An enumeration literal with its printed text: the path of its class, a dot and its name.
    Literal(Text),
    /// The independent variable.
    Time,
    /// A variable's number, from 1, and an order: how often it is differentiated.
    Var(u32, u32),
    /// A derivative that is not carried out.
    Der(Boxed<FlatExpr>),
    /// Terms, each with `true` where it is subtracted.
    Sum(List<(bool, FlatExpr)>),
    /// Factors, each with `true` where it divides.
    Product(List<(bool, FlatExpr)>),
    /// Base and exponent.
    Power(Boxed<FlatExpr>, Boxed<FlatExpr>),
    /// A function's number in the table of functions, from 0, and its arguments.
    Call(u16, List<FlatExpr>),
    /// A comparison of two expressions.
    Relation(RelOp, Boxed<FlatExpr>, Boxed<FlatExpr>),
    /// A negation.
    Not(Boxed<FlatExpr>),
    /// A chain of `and`.
    All(List<FlatExpr>),
    /// A chain of `or`.
    Any(List<FlatExpr>),
    /// Branches, each a condition and its value, and the value where no condition holds.
    If(List<(FlatExpr, FlatExpr)>, Boxed<FlatExpr>),
}
