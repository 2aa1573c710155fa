//! Array expressions: an expression whose names, subscripts, ranges and sizes are resolved.
use mo_syntax::{Boxed, ClassId, Kind, List, Place, RelOp, Text};

/// An expression of any number of dimensions.
#[cycle(array)]
#[derive(Drop)]
pub struct ArrayExpr {
    pub place: Place,
    pub node: Boxed<ArrayNode>,
}

/// What an array expression is made by.
#[cycle(array)]
#[derive(Drop)]
pub enum ArrayNode {
    Whole(i64),
    /// A Real literal with its source text.
    Decimal(Text),
    /// A string literal with its source text, quotes included.
    Str(Text),
    Truth(bool),
    /// An enumeration literal: its class, its number and its printed name.
    Literal(ClassId, u32, Text),
    /// The independent variable.
    Time,
    /// A variable, or an array of them: the numbers of its elements, the last index fastest; its kind; its dimensions;
    /// and no subscript or one for each dimension.
    Vars {
        vars: List<u32>,
        kind: Kind,
        dims: List<u32>,
        subs: List<Subscript>,
    },
    /// Terms: whether it is subtracted, whether the operator is dotted, and the term.
    Sum(List<(bool, bool, ArrayExpr)>),
    /// Factors: whether it divides, whether the operator is dotted, and the factor.
    Product(List<(bool, bool, ArrayExpr)>),
    /// Base, whether the operator is dotted, and exponent.
    Power(ArrayExpr, bool, ArrayExpr),
    Relation(RelOp, ArrayExpr, ArrayExpr),
    Not(ArrayExpr),
    All(List<ArrayExpr>),
    Any(List<ArrayExpr>),
    /// Branches, each a condition and its value, and the value where no condition holds.
    If(List<(ArrayExpr, ArrayExpr)>, ArrayExpr),
    /// A function's number in the table of functions, from 0, and its arguments.
    Call(u16, List<ArrayExpr>),
    Der(ArrayExpr),
    /// `{..}`.
    Array(List<ArrayExpr>),
    /// First number, step and last number.
    Range(i64, i64, i64),
    /// `size(A)`, or `size(A, i)` with the place and value of `i`.
    Size(ArrayExpr, Option<(Place, i64)>),
    /// `fill`, `zeros`, `ones` or `identity` by its number, the expression of `fill`, and each size with its place.
    Sized(u16, Option<ArrayExpr>, List<(Place, i64)>),
}

/// A subscript with its numbers.
#[derive(Drop)]
pub enum Subscript {
    /// `:`
    All,
    /// A scalar.
    One(Place, i64),
    /// A vector.
    Many(Place, List<i64>),
}
