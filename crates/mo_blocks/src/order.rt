//! The irreducible blocks, as those of the graph of needs.
ghost use Rattle.std.specs.Prelude.{◌≡◌, IfOk};
ghost use Rattle.mo_incidence.specs.Signature.{equations};
ghost use Rattle.mo_incidence.specs.Assignment.{CoversAll};
ghost use Rattle.mo_incidence.specs.Offsets.{HasPairs, HasSizes, pairs_of};
ghost use Rattle.mo_incidence.specs.Blocks.{AreBlocksBy, numbers_in};

use mo_graph::in_order;
use mo_incidence::{Blocks, Incidence, Offsets, needs};
use mo_syntax::NoMemory;
use std::alloc::Global;

/// The irreducible blocks of a square system: the classes of equations that need each other through chains, where an equation needs
/// another one if it is tight at that one's unknown. Next comes, among the blocks whose needed blocks all stand before, the one with
/// the least equation number; the numbers in a block ascend. The offsets have to fit the incidence, with pairs that are an assignment
/// of all equations by tight entries. `NoMemory` is the only other answer.
pub fn blocks(alloc: Global, inc: &Incidence, offsets: &Offsets) -> Result<Blocks, NoMemory>
    requires square { equations inc.now ≡ inc.now.unknowns }
    requires lengths { HasSizes inc.now offsets.now }
    requires tight { HasPairs inc.now offsets.now }
    requires all { CoversAll inc.now (pairs_of offsets.now) }
    ensures { IfOk result (λ found. AreBlocksBy inc.now offsets.now (numbers_in found.0.items)) }
{
    let edges = needs(alloc, inc, offsets)?;
    let lists = in_order(alloc, edges, inc.equations() as usize)?;
    Ok(Blocks(lists))
}
