//! Expressions of the flat model that are counted before they are built.
ghost use Rattle.std.specs.Prelude.{◌≡◌, IfOk};
ghost use Rattle.mo_equations.specs.steps.Flats.{IsFlat, is_past_nodes};

use crate::limits::MOST_NODES;
use mo_flat::{FlatExpr, flat_nodes};
use mo_syntax::NoMemory;
use std::alloc::Global;

/// An expression of the flat model with the number of its nodes, the greatest `u64` where that passes 64 bits. Where it has more
/// nodes than a flat model may have, it is counted and not built.
#[derive(Drop)]
pub(crate) struct Flat {
    pub nodes: u64,
    pub built: Option<FlatExpr>,
}

/// Whether an expression of so many nodes is too large for a flat model.
pub(crate) fn is_past(nodes: u64) -> bool
    ensures { result ≡ is_past_nodes nodes }
{
    nodes > MOST_NODES
}

impl Flat {
    /// An expression that is built.
    pub fn of(e: FlatExpr) -> Flat
        ensures { IsFlat result e }
    {
        let nodes = flat_nodes(&e);
        if is_past(nodes) {
            return Flat { nodes, built: None };
        }
        Flat {
            nodes,
            built: Some(e),
        }
    }

    /// A copy. `NoMemory` is the only other answer.
    pub fn copied(&self, alloc: Global) -> Result<Flat, NoMemory>
        ensures { IfOk result (λ made. made ≡ self.now) }
    {
        let nodes = self.nodes;
        match &self.built {
            Some(e) => Ok(Flat {
                nodes,
                built: Some(e.copy(alloc)?),
            }),
            None => Ok(Flat { nodes, built: None }),
        }
    }
}
