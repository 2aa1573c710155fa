//! The blocks, found step by step.
ghost use Rattle.std.specs.Prelude.{◌≡◌, ℕ, ◌<◌, ◌≤◌, List, length, slice_index, IfOk};
ghost use Rattle.mo_graph.specs.Order.{IsInOrder, numbers_in};
ghost use Rattle.mo_graph.specs.Edges.{HasEdge, IsGraph, AreLeaders, AreReplaced};
ghost use Rattle.mo_graph.specs.steps.Finishing.{IsFinished};
ghost use Rattle.mo_graph.specs.steps.Gathering.{AreClasses};
ghost use Rattle.mo_graph.specs.steps.Listing.{IsArranged};
ghost use Rattle.mo_graph.specs.steps.Placing.{IsLed, HasRanks, AreOrdered};

use crate::edges::Edges;
use crate::finish::finish_order;
use crate::gather::{Finished, gather};
use crate::leaders::{find_leaders, replace};
use crate::list::list_blocks;
use crate::place::place_all;
use crate::threads::{Incoming, Outgoing, thread};
use mo_syntax::NoMemory;
use std::alloc::Global;

/// The order in which a search by depth finishes m vertices, and their number.
fn find_order(
    alloc: Global,
    sources: &[u32],
    targets: &[u32],
    m: usize,
) -> Result<(Vec<u32>, usize), NoMemory>
    requires graph { IsGraph m sources.now targets.now }
    ensures { IfOk result (λ found. IsFinished m sources.now targets.now found.0.items found.1) }
{
    let mut last = vec![in alloc; 0; m]?;
    let mut before = vec![in alloc; 0; sources.len()]?;
    thread(sources, &mut last, &mut before);
    let mut path = vec![in alloc; 0; m]?;
    let mut mark = vec![in alloc; 0; m]?;
    let mut order = vec![in alloc; 0; m]?;
    let edges = Outgoing {
        sources,
        targets,
        before: &before,
    };
    let count = finish_order(&edges, &mut path, &mut mark, &mut last, &mut order);
    Ok((order, count))
}

/// For each of m vertices the number of its class.
fn find_classes(
    alloc: Global,
    sources: &[u32],
    targets: &[u32],
    m: usize,
) -> Result<Vec<u32>, NoMemory>
    requires graph { IsGraph m sources.now targets.now }
    ensures { IfOk result (λ class. AreClasses m sources.now targets.now class.items) }
{
    let (order, count) = find_order(alloc, sources, targets, m)?;
    let mut last = vec![in alloc; 0; m]?;
    let mut before = vec![in alloc; 0; targets.len()]?;
    thread(targets, &mut last, &mut before);
    let mut class = vec![in alloc; 0; m]?;
    let mut queue = vec![in alloc; 0; m]?;
    let edges = Incoming {
        sources,
        targets,
        last: &last,
        before: &before,
    };
    let finished = Finished {
        order: &order,
        count,
    };
    gather(&edges, &finished, &mut class, &mut queue);
    Ok(class)
}

/// For each of m vertices the least one of its class.
fn lead(alloc: Global, class: &[u32], m: usize) -> Result<Vec<u32>, NoMemory>
    requires size { (length class.now ≡ m) × (m ≤ 50000) }
    requires known { (i : ℕ) → i < m → slice_index class.now i ≤ m }
    ensures { IfOk result (λ leader. AreLeaders class.now leader.items) }
{
    let mut first = vec![in alloc; 0; m + 1]?;
    let mut leader = vec![in alloc; 0; m]?;
    find_leaders(class, &mut first, &mut leader);
    Ok(leader)
}

/// Replaces the ends of the edges by their leaders.
fn lead_edges(edges: &mut Edges, leader: &[u32])
    requires graph { IsGraph (length leader.now) edges.old.sources.items edges.old.targets.items }
    ensures sources { AreReplaced leader.now edges.old.sources.items edges.new.sources.items }
    ensures targets { AreReplaced leader.now edges.old.targets.items edges.new.targets.items }
{
    replace(&mut edges.sources, leader);
    replace(&mut edges.targets, leader);
}

/// For each leader one more than its place in an order in which edges lead back, and the number of leaders. Edges lead between leaders.
fn place(
    alloc: Global,
    sources: &[u32],
    targets: &[u32],
    leader: &[u32],
) -> Result<(Vec<u32>, usize), NoMemory>
    requires graph { IsGraph (length leader.now) sources.now targets.now }
    requires led { IsLed sources.now targets.now leader.now }
    requires ranks { HasRanks (length leader.now) sources.now targets.now }
    ensures size { IfOk result (λ found. length found.0.items ≡ length leader.now) }
    ensures ordered { IfOk result (λ found. (order : List ℕ) × AreOrdered (length leader.now) sources.now targets.now leader.now order found.0.items found.1) }
{
    let m = leader.len();
    let mut last = vec![in alloc; 0; m]?;
    let mut before = vec![in alloc; 0; targets.len()]?;
    thread(targets, &mut last, &mut before);
    let mut order = vec![in alloc; 0; m]?;
    let mut placed = vec![in alloc; 0; m]?;
    let mut waits = vec![in alloc; 0; m]?;
    let edges = Incoming {
        sources,
        targets,
        last: &last,
        before: &before,
    };
    let count = place_all(alloc, &edges, leader, &mut order, &mut placed, &mut waits)?;
    Ok((placed, count))
}

/// For each leader one more than its place among the blocks, and their number.
fn arrange(
    alloc: Global,
    edges: &mut Edges,
    _class: &[u32],
    leader: &[u32],
) -> Result<(Vec<u32>, usize), NoMemory>
    requires graph { IsGraph (length leader.now) edges.old.sources.items edges.old.targets.items }
    requires classes { AreClasses (length leader.now) edges.old.sources.items edges.old.targets.items _class.now }
    requires leaders { AreLeaders _class.now leader.now }
    ensures size { IfOk result (λ found. length found.0.items ≡ length leader.now) }
    ensures arranged { IfOk result (λ found. IsArranged (length leader.now) edges.old.sources.items edges.old.targets.items leader.now found.0.items found.1) }
{
    lead_edges(edges, leader);
    let (placed, count) = place(alloc, &edges.sources, &edges.targets, leader)?;
    Ok((placed, count))
}

/// The blocks of a graph of m vertices: the classes of vertices that need each other through chains. Next comes, among the blocks whose
/// needed blocks all stand before, the one with the least number; the numbers in a block ascend, from 1. `NoMemory` is the only other
/// answer.
pub fn in_order(alloc: Global, edges: Edges, m: usize) -> Result<Vec<Vec<u32>>, NoMemory>
    requires graph { IsGraph m edges.sources.items edges.targets.items }
    ensures { IfOk result (λ lists. IsInOrder (HasEdge edges) m (numbers_in lists.items)) }
{
    let class = find_classes(alloc, &edges.sources, &edges.targets, m)?;
    let leader = lead(alloc, &class, m)?;
    let mut led = edges;
    let (placed, count) = arrange(alloc, &mut led, &class, &leader)?;
    let lists = list_blocks(alloc, &leader, &placed, count)?;
    Ok(lists)
}
