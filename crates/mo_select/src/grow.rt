//! One assignment that grows row by row, and covers of the first rows, however many, as many as any assignment.
ghost use Rattle.std.specs.Prelude.{◌≡◌, length, IfOk};
ghost use Rattle.std.proofs.Common.{suc};
ghost use Rattle.mo_incidence.specs.Signature.{equations, IsSound};
ghost use Rattle.mo_incidence.specs.Offsets.{by_place};
ghost use Rattle.mo_match.specs.Trees.{HasRoomFor};
ghost use Rattle.mo_select.specs.steps.Growing.{IsGreedy, IsGrownTo};

use mo_incidence::{Counted, Incidence};
use mo_match::{Graph, Matching, Search};
use mo_ports::Steps;
use mo_syntax::{NoMemory, both};
use std::alloc::Global;

/// Gives each row in turn a number, if it can have one beside those before it.
fn grow_all(
    graph: &Graph<()>,
    matching: &mut Matching,
    search: &mut Search,
    steps: &mut Steps<()>,
) -> usize
    requires sound { IsSound graph.now.signature }
    requires room { (length matching.old.pairs.items ≡ equations graph.now.signature) × (length matching.old.owner.items ≡ suc graph.now.signature.unknowns) }
    requires room_search { HasRoomFor (equations graph.now.signature) search.old }
    ensures { IsGrownTo graph.now matching.new.pairs.items matching.new.owner.items search.new.queue.items search.new.parent.items search.new.mark.items result (equations graph.now.signature) }
{
    matching.clear();
    search.clear();
    let mut base = 0;
    for root in 0..matching.pairs.len() {
        if search.mark_of(root) != 0 {
            continue;
        }
        base = graph.extend(matching, search, base, root, steps);
    }
    base
}

/// An assignment of the rows that in each prefix of them covers as many as any. Marks of searches in vain stay, so their rows are not
/// searched again.
pub(crate) fn greedy(alloc: Global, rows: &Incidence) -> Result<Vec<u32>, NoMemory>
    ensures length { IfOk result (λ pairs. length pairs.items ≡ equations rows.now) }
    ensures greedy { IfOk result (λ pairs. IsGreedy rows.now (by_place pairs.items)) }
{
    let m = rows.equations();
    let (mut matching, mut search) = both(
        Matching::new(alloc, m, rows.unknowns()),
        Search::new(alloc, m),
    )?;
    let mut steps = Steps::new(());
    let counted = Counted::new(rows, &steps);
    let graph = Graph::of_entries(&counted);
    grow_all(&graph, &mut matching, &mut search, &mut steps);
    let Matching { pairs, .. } = matching;
    Ok(pairs)
}
