//! What is found of aliases.
use mo_syntax::List;

/// An unknown that is another. Unknowns are numbered from 1 in the order of the model's variables.
#[derive(Clone, Copy, Debug)]
pub struct Gone {
    pub unknown: u32,
    /// The unknown that it is, the least that is joined to it.
    pub of: u32,
    /// Whether it is minus that unknown.
    pub minus: bool,
}

/// The aliases of a model. Equations are numbered from 1 in the order of the model's equations.
#[derive(Debug, Drop)]
pub struct Aliases {
    /// The unknowns that are others, ascending.
    pub gone: List<Gone>,
    /// The equations that say no more than that, ascending.
    pub dropped: List<u32>,
    /// For each equation that contradicts those before it, in their order: that equation and the links of the chain that it closes,
    /// ascending.
    pub loops: List<List<u32>>,
}
