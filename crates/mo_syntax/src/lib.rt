//! The syntax of a Modelica file as plain data: texts and lists, places and broken rules, tokens, and the trees of
//! expressions, equations, statements, classes and files.
//!
//! Begin with `src/class.rt` (the trees) and `src/finding.rt` (the class table); the definition to read first is `specs/ClassTable.antt`.
//! What this crate may not know ends its paragraph in docs/ARCHITECTURE.md.
//!
//! Contracts see a `Text` as its bytes, a `List` as the list of its elements and a `Boxed` value as that value, so two
//! trees that are equal part by part are equal in a contract.
#![tactic(auto)]

mod boxed;
mod class;
mod classes;
mod count;
mod equation;
mod expr;
mod finding;
mod join;
mod list;
mod meaning;
mod nesting;
mod place;
mod refusal;
pub mod rules;
mod text;
mod token;

pub use boxed::Boxed;
pub use class::{
    Argument, ArgumentOf, Body, Causal, ClassDef, ClassDefOf, ClassFlags, ClassKind, ClassTree,
    Component, ComponentOf, Element, ElementFlags, Extends, ExtendsOf, FileTree, Give, Import,
    Item, Mods, ModsOf, Prefix, Vary, What,
};
pub use classes::class_count;
pub use count::nodes;
pub use equation::{Equation, EquationKind, EquationOf, Statement, StatementKind, StatementOf};
pub use expr::{
    Arg, Args, Branch, BranchOf, Callee, CalleeOf, Expr, Factor, FactorOf, Index, IndexOf, Node,
    Part, PartOf, Reference, ReferenceOf, RelOp, Term, TermOf,
};
pub use finding::{ClassAt, class_at, find_class};
pub use join::{both, in_box, pair, pushed, single, triple};
pub use list::List;
pub use meaning::{ClassId, FrameId, InstancePath, Kind, Role};
pub use nesting::depth;
pub use place::{Broken, NoMemory, Place, Rule, Stop};
pub use refusal::{broken, stop};
pub use text::{Path, Text};
pub use token::{Token, TokenKind};
