//! What a report holds.
use mo_incidence::{Blocks, Deficit, Dummies, Offsets, Reason};
use mo_syntax::{List, Text};

/// What the analyses of a model's incidence found. Equations and unknowns are numbered from 1.
///
/// Where some equation can have no unknown of its own there is a deficit and nothing else. Otherwise there are offsets. With
/// fewer equations than unknowns `loose` lists the undetermined ones. A square system has reasons, blocks, dummies, index and
/// freedom. What is absent is empty, or 0.
#[derive(Drop)]
pub struct Report {
    /// The path of the class, with dots.
    pub name: Text,
    /// The names of the unknowns.
    pub unknowns: List<Text>,
    /// How many equations there are.
    pub equations: u32,
    /// For each equation the highest order of its unknown in it.
    pub orders: Vec<u32>,
    pub deficit: Option<Deficit>,
    pub offsets: Option<Offsets>,
    /// The undetermined unknowns, ascending.
    pub loose: Vec<u32>,
    /// One for each equation that is differentiated, ascending.
    pub reasons: Vec<Reason>,
    pub blocks: Blocks,
    pub dummies: Dummies,
    /// The structural index: the greatest number of differentiations of an equation, and one more if some unknown stands in
    /// no derivative (J. D. Pryce, A simple structural analysis method for DAEs, BIT 41, 2001).
    pub index: u32,
    /// How many initial values can be chosen: the sum of the unknowns' offsets less that of the equations'.
    pub freedom: u32,
}
