//! Classes and files (Modelica Language Specification 3.5, chapters 4 to 7 and 13, appendix A.2.1 to A.2.5).
//!
//! A tree leads back to itself through `Body`, `Item`, `Element`, `What` and `Give` alone. The others take the type of
//! what they hold, and an alias names the form that trees use.
use crate::equation::{Equation, Statement};
use crate::expr::{Expr, Reference};
use crate::list::List;
use crate::place::Place;
use crate::text::{Path, Text};

/// A class definition.
#[derive(Drop)]
pub struct ClassDefOf<B> {
    pub kind: ClassKind,
    pub flags: ClassFlags,
    pub name: Text,
    /// The place of its name.
    pub place: Place,
    pub body: B,
}

pub type ClassDef = ClassDefOf<Body>;

/// The word that a class begins with.
#[derive(Clone, Copy, Debug, PartialEq, Eq)]
pub enum ClassKind {
    Plain,
    Model,
    Block,
    Recd,
    Connector,
    TypeDef,
    Package,
    Function,
    Operator,
}

/// The words before it.
#[derive(Clone, Copy, Debug, PartialEq, Eq)]
pub struct ClassFlags {
    pub encapsulated: bool,
    pub partial: bool,
    /// Whether `operator` stands before `record` or `function`.
    pub operator: bool,
    pub expandable: bool,
    /// For a function, true for `pure` and false for `impure`.
    pub purity: Option<bool>,
}

/// What a class consists of.
#[cycle(class)]
#[derive(Drop)]
pub enum Body {
    Long {
        /// The modifiers of `extends NAME`, None in other classes.
        extending: Option<ModsOf<Give>>,
        items: List<Item>,
        /// Whether an `external` clause stands in it.
        external: bool,
    },
    Short {
        causal: Causal,
        base: Reference,
        /// The dimensions, None for `:`.
        subs: List<Option<Expr>>,
        mods: ModsOf<Give>,
    },
    /// The literals, None for `enumeration(:)`.
    Enumeration(Option<List<Text>>),
    /// The function and the names of `der(function, names)`.
    Der(Reference, List<Text>),
}

/// A part of a class, in the order of the text.
#[cycle(class)]
#[derive(Drop)]
pub enum Item {
    Import(Import),
    Extends(ExtendsOf<Give>),
    Member(Element),
    /// Whether the section is initial, and its equations.
    Equations(bool, List<Equation>),
    /// Whether the section is initial, and its statements.
    Algorithm(bool, List<Statement>),
}

/// An import clause, with the place of its name.
#[derive(Drop)]
pub enum Import {
    /// `import NAME = PATH`
    Renamed(Text, Path, Place),
    /// `import PATH`
    Named(Path, Place),
    /// `import PATH.{NAME, ..}`
    Group(Path, List<Text>, Place),
    /// `import PATH.*`
    All(Path, Place),
}

/// An extends clause.
#[derive(Drop)]
pub struct ExtendsOf<G> {
    pub base: Reference,
    pub mods: ModsOf<G>,
    /// Whether it stands under `protected`.
    pub hidden: bool,
}

pub type Extends = ExtendsOf<Give>;

/// A class or component that is declared.
#[cycle(class)]
#[derive(Drop)]
pub struct Element {
    pub flags: ElementFlags,
    pub what: What,
    /// The constraining clause, with its modifiers.
    pub limit: Option<(Reference, ModsOf<Give>)>,
}

/// The prefixes of an element.
#[derive(Clone, Copy, Debug, PartialEq, Eq)]
pub struct ElementFlags {
    pub redeclare: bool,
    /// Whether `final` stands before it.
    pub last: bool,
    pub inner: bool,
    pub outer: bool,
    pub replaceable: bool,
    /// Whether it stands under `protected`.
    pub hidden: bool,
}

/// What an element declares.
#[cycle(class)]
#[derive(Drop)]
pub enum What {
    Class(ClassDefOf<Body>),
    Component(ComponentOf<Give>),
}

/// A component declaration.
#[derive(Drop)]
pub struct ComponentOf<G> {
    pub prefix: Prefix,
    /// The name of its type.
    pub base: Reference,
    /// The dimensions that stand behind the type, None for `:`.
    pub base_subs: List<Option<Expr>>,
    pub name: Text,
    /// The place of its name.
    pub place: Place,
    /// The dimensions that stand behind the name, None for `:`.
    pub subs: List<Option<Expr>>,
    pub mods: ModsOf<G>,
    pub binding: Option<Expr>,
    pub condition: Option<Expr>,
}

pub type Component = ComponentOf<Give>;

/// The type prefixes of a component.
#[derive(Clone, Copy, Debug, PartialEq, Eq)]
pub struct Prefix {
    pub flow: bool,
    pub stream: bool,
    pub vary: Vary,
    pub causal: Causal,
}

/// The variability prefixes.
#[derive(Clone, Copy, Debug, PartialEq, Eq)]
pub enum Vary {
    Free,
    Discrete,
    Parameter,
    Constant,
}

/// The causality prefixes.
#[derive(Clone, Copy, Debug, PartialEq, Eq)]
pub enum Causal {
    None,
    Input,
    Output,
}

/// A modifier list.
#[derive(Drop)]
pub struct ModsOf<G>(pub List<ArgumentOf<G>>);

pub type Mods = ModsOf<Give>;

/// An argument of a modifier list.
#[derive(Drop)]
pub struct ArgumentOf<G> {
    pub each: bool,
    /// Whether `final` stands before it.
    pub last: bool,
    /// Its name; never empty.
    pub name: Path,
    /// The first token of its name.
    pub place: Place,
    pub give: G,
}

pub type Argument = ArgumentOf<Give>;

/// What an argument gives.
#[cycle(class)]
#[derive(Drop)]
pub enum Give {
    /// Nested modifiers and a value.
    Modify(ModsOf<Give>, Option<Expr>),
    Redeclare(Element),
    Replaceable(Element),
}

/// A file as it was read.
#[derive(Drop)]
pub struct FileTree {
    /// The number of the file, from 1.
    pub file: u32,
    /// The name behind `within` with the place of its first identifier; None where there is no name.
    pub within: Option<(Path, Place)>,
    pub classes: List<ClassDef>,
}

/// All files, in the order of the command line.
#[derive(Drop)]
pub struct ClassTree {
    pub files: List<FileTree>,
}
