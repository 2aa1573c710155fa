//! Which equations need which, as the edges of a graph.
ghost use Rattle.std.specs.Prelude.{◌≡◌, ℕ, ◌+◌, ◌-◌, ◌<◌, ◌≤◌, length, slice_index, IfSome, IfNone, IfOk, OnOk};
ghost use Rattle.std.proofs.Common.{suc};
ghost use Rattle.mo_incidence.specs.Signature.{equations, row_len};
ghost use Rattle.mo_incidence.specs.Offsets.{HasPairs, HasSizes, by_number, by_place, pairs_of};
ghost use Rattle.mo_incidence.specs.Assignment.{CoversAll};
ghost use Rattle.mo_incidence.specs.Blocks.{NeedsBy};
ghost use Rattle.mo_incidence.specs.steps.Needing.{IsNeed, AreOwners, HasNeeds};
ghost use Rattle.mo_graph.specs.Edges.{HasEdge, IsGraph};

use crate::findings::Offsets;
use crate::table::Incidence;
use mo_graph::Edges;
use mo_syntax::NoMemory;
use std::alloc::Global;

/// Writes for each unknown the number of the equation that has it. All numbers are 0 before.
fn note_owners(pairs: &[u32], owner: &mut [u32])
    requires known { (i : ℕ) → i < length pairs.now → slice_index pairs.now i < length owner.old }
    requires apart { (i k : ℕ) → i < length pairs.now → k < length pairs.now → slice_index pairs.now i ≡ slice_index pairs.now k → i ≡ k }
    requires clear { (j : ℕ) → slice_index owner.old j ≡ 0 }
    requires few { length pairs.now ≤ 50000 }
    ensures { AreOwners (length pairs.now) (by_place pairs.now) owner.new }
{
    for i in 0..pairs.len() {
        owner[pairs[i] as usize] = i as u32 + 1;
    }
}

/// The place of the equation that an entry of the equation at place i makes it need.
fn needed(
    inc: &Incidence,
    c: &[u32],
    d: &[u32],
    _pairs: &[u32],
    owner: &[u32],
    i: u32,
    k: u32,
) -> Option<u32>
    requires entry { (i < equations inc.now) × (k < row_len inc.now i) }
    requires sizes { (length c.now ≡ equations inc.now) × (length d.now ≡ inc.now.unknowns) × (length owner.now ≡ suc inc.now.unknowns) }
    requires owners { AreOwners (equations inc.now) (by_place _pairs.now) owner.now }
    ensures some { IfSome result (λ x. (x < equations inc.now) × IsNeed inc.now (by_place c.now) (by_number d.now) (by_place _pairs.now) i k x) }
    ensures only { IfSome result (λ x. (v : ℕ) → v < equations inc.now → IsNeed inc.now (by_place c.now) (by_number d.now) (by_place _pairs.now) i k v → v ≡ x) }
    ensures none { IfNone result ((v : ℕ) → v < equations inc.now → IsNeed inc.now (by_place c.now) (by_number d.now) (by_place _pairs.now) i k v → ⊥) }
{
    let (unknown, order) = inc.entry(i + 1, k);
    if u64::from(d[unknown as usize - 1]) != u64::from(c[i as usize]) + u64::from(order) {
        return None;
    }
    let holder = owner[unknown as usize];
    if holder == 0 {
        return None;
    }
    Some(holder - 1)
}

/// Lists the needs of the equation at place i.
fn list_row(
    inc: &Incidence,
    c: &[u32],
    d: &[u32],
    pairs: &[u32],
    owner: &[u32],
    i: u32,
    edges: &mut Edges,
) -> Result<(), NoMemory>
    requires row { i < equations inc.now }
    requires sizes { (length c.now ≡ equations inc.now) × (length d.now ≡ inc.now.unknowns) × (length owner.now ≡ suc inc.now.unknowns) }
    requires owners { AreOwners (equations inc.now) (by_place pairs.now) owner.now }
    requires needs { HasNeeds inc.now (by_place c.now) (by_number d.now) (by_place pairs.now) edges.old.sources.items edges.old.targets.items i 0 }
    ensures { OnOk result (HasNeeds inc.now (by_place c.now) (by_number d.now) (by_place pairs.now) edges.new.sources.items edges.new.targets.items (i + 1) 0) }
{
    for k in 0..inc.row_len(i + 1) {
        let Some(target) = needed(inc, c, d, pairs, owner, i, k) else {
            continue;
        };
        edges.push(i, target)?;
    }
    Ok(())
}

/// Lists all needs: the source needs the target.
fn list_needs(
    alloc: Global,
    inc: &Incidence,
    c: &[u32],
    d: &[u32],
    pairs: &[u32],
    owner: &[u32],
) -> Result<Edges, NoMemory>
    requires sizes { (length c.now ≡ equations inc.now) × (length d.now ≡ inc.now.unknowns) × (length owner.now ≡ suc inc.now.unknowns) }
    requires owners { AreOwners (equations inc.now) (by_place pairs.now) owner.now }
    ensures { IfOk result (λ edges. HasNeeds inc.now (by_place c.now) (by_number d.now) (by_place pairs.now) edges.sources.items edges.targets.items (equations inc.now) 0) }
{
    let mut edges = Edges::new(alloc);
    for i in 0..inc.equations() {
        list_row(inc, c, d, pairs, owner, i, &mut edges)?;
    }
    Ok(edges)
}

/// Which equations need which, as the edges of a graph of their places: an equation needs another one if it is tight at that one's
/// unknown. The offsets have to fit the incidence, with pairs that are an assignment of all equations by tight entries.
/// `NoMemory` is the only other answer.
pub fn needs(alloc: Global, inc: &Incidence, offsets: &Offsets) -> Result<Edges, NoMemory>
    requires lengths { HasSizes inc.now offsets.now }
    requires tight { HasPairs inc.now offsets.now }
    requires all { CoversAll inc.now (pairs_of offsets.now) }
    ensures only { IfOk result (λ edges. (i k : ℕ) → HasEdge edges i k → NeedsBy inc.now offsets.now i k) }
    ensures all { IfOk result (λ edges. (i k : ℕ) → NeedsBy inc.now offsets.now i k → HasEdge edges i k) }
    ensures graph { IfOk result (λ edges. IsGraph (equations inc.now) edges.sources.items edges.targets.items) }
{
    let _equations = inc.equations();
    let mut owner = vec![in alloc; 0; inc.unknowns() as usize + 1]?;
    note_owners(&offsets.pairs, &mut owner);
    let edges = list_needs(alloc, inc, &offsets.c, &offsets.d, &offsets.pairs, &owner)?;
    Ok(edges)
}
