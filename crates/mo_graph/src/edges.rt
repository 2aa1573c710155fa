//! The edges of a directed graph.
ghost use Rattle.std.specs.Prelude.{◌≡◌, ◌++◌, ◌∷◌, [], OnOk};

use mo_syntax::NoMemory;
use std::alloc::Global;

/// The edges of a directed graph. An edge says that its source needs its target; vertices are places, from 0.
#[derive(Debug, Drop)]
pub struct Edges {
    /// For each edge its source.
    pub sources: Vec<u32>,
    /// For each edge its target.
    pub targets: Vec<u32>,
}

impl Edges {
    /// No edges.
    pub fn new(alloc: Global) -> Edges
        ensures sources { result.sources.items ≡ [] }
        ensures targets { result.targets.items ≡ [] }
    {
        Edges {
            sources: Vec::new(alloc),
            targets: Vec::new(alloc),
        }
    }

    /// Puts an edge behind the others. `NoMemory` is the only other answer.
    pub fn push(&mut self, source: u32, target: u32) -> Result<(), NoMemory>
        ensures sources { OnOk result (self.new.sources.items ≡ self.old.sources.items ++ source ∷ []) }
        ensures targets { OnOk result (self.new.targets.items ≡ self.old.targets.items ++ target ∷ []) }
    {
        self.sources.push(source)?;
        self.targets.push(target)?;
        Ok(())
    }
}
