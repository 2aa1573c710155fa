//! Gathers the faces of each label into sets.
ghost use Rattle.std.specs.Prelude.{◌≡◌, ℕ, ◌+◌, ◌*◌, ◌/◌, ◌<◌, ◌≤◌, ◌^◌, [], ◌∷◌, ◌++◌, Option, length, slice_index_or, IfOk, OnOk};
ghost use Rattle.mo_connect.specs.steps.Forest.{IsForest};
ghost use Rattle.mo_connect.specs.steps.Labels.{face_at};
ghost use Rattle.mo_connect.specs.steps.Gathering.{labelled, set_with, set_from, sets_below};

use crate::declared::Declared;
use mo_flat::FaceSet;
use mo_syntax::{List, NoMemory};
use std::alloc::Global;

/// The face of a number.
fn face_of_number(n: usize) -> (u32, bool)
    requires { n < 2 ^ 33 }
    ensures { result ≡ face_at n }
{
    ((n / 2) as u32, n % 2 == 1)
}

fn empty_lists(alloc: Global, size: usize) -> Result<Vec<List<(u32, bool)>>, NoMemory>
    ensures { IfOk result (λ made. (length made.items ≡ size) × ((r : ℕ) → slice_index_or made.items r [] ≡ [])) }
{
    let mut made = Vec::new(alloc);
    for _i in 0..size {
        made.push(List::new(alloc))?;
    }
    Ok(made)
}

fn put_face(list: &mut List<(u32, bool)>, n: usize) -> Result<(), NoMemory>
    requires { n < 2 ^ 33 }
    ensures { OnOk result (list.new ≡ list.old ++ face_at n ∷ []) }
{
    list.push(face_of_number(n))?;
    Ok(())
}

/// The faces of each label.
fn by_label(alloc: Global, labels: &[usize]) -> Result<Vec<List<(u32, bool)>>, NoMemory>
    requires forest { IsForest labels.now }
    requires small { length labels.now ≤ 2 ^ 33 }
    ensures { IfOk result (λ made. (length made.items ≡ length labels.now) × ((r : ℕ) → slice_index_or made.items r [] ≡ labelled labels.now r (length labels.now))) }
{
    let mut made = empty_lists(alloc, labels.len())?;
    for n in 0..labels.len() {
        put_face(&mut made[labels[n]], n)?;
    }
    Ok(made)
}

fn copied(alloc: Global, members: &[(u32, bool)]) -> Result<List<(u32, bool)>, NoMemory>
    ensures { IfOk result (λ made. made ≡ members.now) }
{
    let mut made = List::new(alloc);
    for member in members {
        made.push(*member)?;
    }
    Ok(made)
}

fn set(alloc: Global, members: &[(u32, bool)], declared: Declared) -> Result<FaceSet, NoMemory>
    ensures { IfOk result (λ made. made ≡ set_with members.now declared) }
{
    Ok(FaceSet {
        flow: declared.flow,
        place: declared.place,
        members: copied(alloc, members)?,
    })
}

fn push_set(
    alloc: Global,
    sets: &mut List<FaceSet>,
    members: &[(u32, bool)],
    declared: Option<Declared>,
) -> Result<(), NoMemory>
    ensures { OnOk result (sets.new ≡ sets.old ++ set_from members.now declared) }
{
    match declared {
        None => Ok(()),
        Some(d) => match members {
            [] => Ok(()),
            [alone] => {
                if !alone.1 && d.listed {
                    sets.push(set(alloc, members, d)?)?;
                }
                Ok(())
            }
            [_, _, ..] => {
                sets.push(set(alloc, members, d)?)?;
                Ok(())
            }
        },
    }
}

/// The sets, by their labels.
pub(crate) fn gather(
    alloc: Global,
    labels: &[usize],
    table: &[Option<Declared>],
) -> Result<List<FaceSet>, NoMemory>
    requires forest { IsForest labels.now }
    requires small { length labels.now ≤ 2 ^ 33 }
    requires table { length labels.now ≡ 2 * length table.now }
    ensures { IfOk result (λ sets. sets ≡ sets_below labels.now table.now (length labels.now)) }
{
    let lists = by_label(alloc, labels)?;
    let mut sets = List::new(alloc);
    for n in 0..labels.len() {
        push_set(alloc, &mut sets, lists[n].as_slice(), table[n / 2])?;
    }
    Ok(sets)
}
