//! What is said of the structure of small systems.
use mo_certify::{blocks_hold, deficit_holds, least_holds, offsets_hold};
use mo_incidence::{Blocks, Deficit, Incidence, Offsets};
use mo_syntax::{NoMemory, both};
use std::alloc::Global;
use std::process::Abort;

/// A motion that is given, and the force: of each equation its unknowns with their orders.
const MOTION: [&[(u32, u32)]; 2] = [&[(1, 2), (2, 0)], &[(1, 0)]];

/// Two equations in one unknown.
const TWICE: [&[(u32, u32)]; 2] = [&[(1, 0)], &[(1, 1)]];

fn push_row(
    alloc: Global,
    rows: &mut Vec<Vec<(u32, u32)>>,
    row: &[(u32, u32)],
) -> Result<(), NoMemory> {
    Ok(rows.push(row.to_vec(alloc)?)?)
}

fn rows_of(alloc: Global, given: &[&[(u32, u32)]]) -> Result<Vec<Vec<(u32, u32)>>, NoMemory> {
    let mut rows = Vec::new(alloc);
    for row in given {
        push_row(alloc, &mut rows, row)?;
    }
    Ok(rows)
}

fn incidence_of(
    alloc: Global,
    unknowns: u32,
    given: &[&[(u32, u32)]],
) -> Result<Incidence, NoMemory> {
    let rows = rows_of(alloc, given)?;
    match Incidence::from_rows(alloc, unknowns, &rows) {
        Ok(incidence) => Ok(incidence),
        Err(_) => Err(NoMemory),
    }
}

/// The least offsets of the motion, with its pairs.
fn offsets(alloc: Global) -> Result<Offsets, NoMemory> {
    let numbers = both([0, 2].to_vec(alloc), [2, 0].to_vec(alloc));
    let ((c, d), pairs) = both(numbers, [2, 1].to_vec(alloc))?;
    Ok(Offsets { c, d, pairs })
}

fn push_list(alloc: Global, lists: &mut Vec<Vec<u32>>, number: u32) -> Result<(), NoMemory> {
    Ok(lists.push([number].to_vec(alloc)?)?)
}

/// The blocks of the motion: its path, then its force.
fn lists(alloc: Global) -> Result<Blocks, NoMemory> {
    let mut lists = Vec::new(alloc);
    push_list(alloc, &mut lists, 2)?;
    push_list(alloc, &mut lists, 1)?;
    Ok(Blocks(lists))
}

fn has_these(
    rt: &impl Abort,
    alloc: Global,
    incidence: &Incidence,
    offsets: &Offsets,
    blocks: &Blocks,
) -> Result<(), NoMemory> {
    assert!(rt; offsets_hold(alloc, incidence, offsets)?);
    assert!(rt; blocks_hold(alloc, incidence, offsets, blocks)?);
    assert!(rt; !least_holds(alloc, incidence, offsets, &[])?);
    Ok(())
}

#[test]
fn offsets_and_blocks(rt: HostRuntime) -> Result<(), NoMemory> {
    let given = both(offsets(rt.alloc()), lists(rt.alloc()));
    let (incidence, (offsets, blocks)) = both(incidence_of(rt.alloc(), 2, &MOTION), given)?;
    has_these(&rt, rt.alloc(), &incidence, &offsets, &blocks)
}

fn deficit(alloc: Global) -> Result<Deficit, NoMemory> {
    let (equations, unknowns) = both([1, 2].to_vec(alloc), [1].to_vec(alloc))?;
    Ok(Deficit {
        equations,
        unknowns,
    })
}

#[test]
fn deficits(rt: HostRuntime) -> Result<(), NoMemory> {
    let (incidence, deficit) = both(incidence_of(rt.alloc(), 1, &TWICE), deficit(rt.alloc()))?;
    assert!(rt; deficit_holds(rt.alloc(), &incidence, &deficit)?);
    Ok(())
}
