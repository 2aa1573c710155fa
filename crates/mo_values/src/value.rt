//! What expressions are worth.
use mo_syntax::{ClassId, Kind};

/// A value that is decided.
#[derive(Clone, Copy, Debug, PartialEq, Eq)]
pub enum Scalar {
    /// Of kind Integer.
    Whole(i64),
    Truth(bool),
    /// An enumeration literal: its class, and its place in it, from 0.
    Literal(ClassId, u32),
}

/// What is known of an expression before a simulation.
#[derive(Clone, Copy, Debug, PartialEq, Eq)]
pub enum Value {
    /// Of kind Integer.
    Whole(i64),
    Truth(bool),
    /// An enumeration literal: its class, and its place in it, from 0.
    Literal(ClassId, u32),
    /// No value is known; the kind is that of the expression.
    Undecided(Kind),
}

/// What an operation gives.
#[derive(Clone, Copy, Debug, PartialEq, Eq)]
pub enum Reckoned {
    /// An operand is undecided.
    Unknown,
    /// The number lies outside 64 bits.
    Outside,
    Is(Scalar),
}
