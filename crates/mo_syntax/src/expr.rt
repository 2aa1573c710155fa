//! Expressions (Modelica Language Specification 3.5, chapter 3 and appendix A.2.7).
//!
//! A tree leads back to itself through four types alone: `Expr`, `Node`, `Args` and `Arg`. The others take the type of
//! what they hold, and an alias names the form that trees use.
use crate::boxed::Boxed;
use crate::list::List;
use crate::place::Place;
use crate::text::Text;

/// An expression with the place of its first token.
#[cycle(expr)]
#[derive(Drop)]
pub struct Expr {
    pub place: Place,
    pub node: Boxed<Node>,
}

/// The forms of an expression. Parentheses around one expression leave no trace.
#[cycle(expr)]
#[derive(Drop)]
pub enum Node {
    /// An Integer literal.
    Whole(i64),
    /// A Real literal, by its text.
    Decimal(Text),
    /// A string, by its text with its quotes and escapes.
    Str(Text),
    Truth(bool),
    Ref(ReferenceOf<Expr>),
    /// A chain of `+` and `-`; never empty.
    Sum(List<TermOf<Expr>>),
    /// A chain of `*` and `/`; never empty, and its first factor is multiplied.
    Product(List<FactorOf<Expr>>),
    /// Base, whether the operator is `.^`, exponent.
    Power(Expr, bool, Expr),
    Relation(RelOp, Expr, Expr),
    Not(Expr),
    /// A chain of `and`; never empty.
    All(List<Expr>),
    /// A chain of `or`; never empty.
    Any(List<Expr>),
    /// First value, step, last value.
    Range(Expr, Option<Expr>, Expr),
    /// The branches in order, never empty, and the value of `else`.
    If(List<BranchOf<Expr>>, Expr),
    Call(CalleeOf<Expr>, Args),
    /// The outputs in parentheses, None where one is left out.
    Tuple(List<Option<Expr>>),
    /// An array constructor; never empty.
    Array(List<Expr>),
    /// An array constructor with iterators.
    ArrayFor(Expr, List<IndexOf<Expr>>),
    /// The rows of a matrix; never empty.
    Matrix(List<List<Expr>>),
    /// `end` in a subscript.
    EndMark,
}

/// A term of a sum.
#[derive(Drop)]
pub struct TermOf<E> {
    /// Whether it is subtracted.
    pub minus: bool,
    /// Whether its operator has a dot.
    pub dotted: bool,
    pub value: E,
}

pub type Term = TermOf<Expr>;

/// A factor of a product.
#[derive(Drop)]
pub struct FactorOf<E> {
    /// Whether the product is divided by it.
    pub divide: bool,
    /// Whether its operator has a dot.
    pub dotted: bool,
    pub value: E,
}

pub type Factor = FactorOf<Expr>;

/// A condition of an if-expression with its value.
#[derive(Drop)]
pub struct BranchOf<E> {
    pub condition: E,
    pub value: E,
}

pub type Branch = BranchOf<Expr>;

/// A component reference.
#[derive(Drop)]
pub struct ReferenceOf<E> {
    /// Whether a dot stands before it.
    pub top: bool,
    /// Its identifiers; never empty.
    pub parts: List<PartOf<E>>,
}

pub type Reference = ReferenceOf<Expr>;

/// An identifier of a reference.
#[derive(Drop)]
pub struct PartOf<E> {
    pub name: Text,
    pub place: Place,
    /// Its subscripts, None for `:`.
    pub subs: List<Option<E>>,
}

pub type Part = PartOf<Expr>;

/// What is called.
#[derive(Drop)]
pub enum CalleeOf<E> {
    Named(ReferenceOf<E>),
    Der,
    Initial,
    Pure,
}

pub type Callee = CalleeOf<Expr>;

/// The arguments of a call.
#[cycle(expr)]
#[derive(Drop)]
pub struct Args {
    pub plain: List<Arg>,
    pub named: List<(Text, Arg)>,
    /// The iterators behind `for`; then there is one plain argument.
    pub iters: List<IndexOf<Expr>>,
}

/// One argument.
#[cycle(expr)]
#[derive(Drop)]
pub enum Arg {
    Value(Expr),
    /// `function` with a name and named arguments.
    Partial(ReferenceOf<Expr>, List<(Text, Arg)>),
}

/// An iteration variable, with its range if one is given.
#[derive(Drop)]
pub struct IndexOf<E> {
    pub name: Text,
    pub range: Option<E>,
}

pub type Index = IndexOf<Expr>;

/// The relations.
#[derive(Clone, Copy, Debug, PartialEq, Eq)]
pub enum RelOp {
    Less,
    LessEqual,
    Greater,
    GreaterEqual,
    Equal,
    NotEqual,
}
