//! Equations and statements (Modelica Language Specification 3.5, chapters 8 and 11, appendix A.2.6).
use crate::expr::{Args, Expr, Index, Reference};
use crate::list::List;
use crate::place::Place;

/// An equation with the place of its first token.
#[derive(Drop)]
pub struct EquationOf<K> {
    pub place: Place,
    pub what: K,
}

pub type Equation = EquationOf<EquationKind>;

/// The forms of an equation.
#[derive(Drop)]
pub enum EquationKind {
    /// Left side, right side.
    Equal(Expr, Expr),
    /// The conditions with their equations, and those of `else`.
    If(List<(Expr, List<EquationOf<EquationKind>>)>, List<EquationOf<EquationKind>>),
    For(List<Index>, List<EquationOf<EquationKind>>),
    When(List<(Expr, List<EquationOf<EquationKind>>)>),
    Connect(Reference, Reference),
    Call(Reference, Args),
}

/// A statement with the place of its first token.
#[derive(Drop)]
pub struct StatementOf<K> {
    pub place: Place,
    pub what: K,
}

pub type Statement = StatementOf<StatementKind>;

/// The forms of a statement.
#[derive(Drop)]
pub enum StatementKind {
    Assign(Reference, Expr),
    Call(Reference, Args),
    /// Outputs, None where one is left out, and the call that gives them.
    Outputs(List<Option<Expr>>, Reference, Args),
    Break,
    Return,
    /// The conditions with their statements, and those of `else`.
    If(List<(Expr, List<StatementOf<StatementKind>>)>, List<StatementOf<StatementKind>>),
    For(List<Index>, List<StatementOf<StatementKind>>),
    While(Expr, List<StatementOf<StatementKind>>),
    When(List<(Expr, List<StatementOf<StatementKind>>)>),
}
