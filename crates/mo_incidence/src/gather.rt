//! The row of an equation: each place of an unknown gives an entry, the entries are sorted, and the highest of each
//! unknown is kept.
ghost use Rattle.std.specs.Prelude.{◌≡◌, ◌++◌, List as Seq, IfOk, OnOk, flat_map, slice_index};
ghost use Rattle.mo_flat.specs.declared.model.FlatVar.{FlatVar as Variable};
ghost use Rattle.mo_flat.specs.Sound.{IsSoundEquation};
ghost use Rattle.mo_incidence.specs.steps.Gathered.{found, found_at, last_of_each, unknown_places};
ghost use Rattle.mo_incidence.specs.Model.{row_of};

use mo_flat::{FlatEquation, FlatExpr};
use mo_syntax::NoMemory;
use std::alloc::Global;

/// The row of a sound equation of a model whose unknowns have these places.
pub(crate) fn row(
    alloc: Global,
    places: &[u32],
    equation: &FlatEquation,
) -> Result<Vec<(u32, u32)>, NoMemory>
    ensures { IfOk result (λ row. (vars : Seq Variable) → places.now ≡ unknown_places vars → IsSoundEquation vars equation.now → row.items ≡ row_of vars equation.now) }
{
    let mut entries = Vec::new(alloc);
    gather(places, &equation.left, 0, &mut entries)?;
    gather(places, &equation.right, 0, &mut entries)?;
    entries.sort_unstable();
    highest(alloc, &entries)
}

/// Of neighbours with one unknown the last, which is the highest where entries are sorted.
fn highest(alloc: Global, entries: &[(u32, u32)]) -> Result<Vec<(u32, u32)>, NoMemory>
    ensures { IfOk result (λ row. row.items ≡ last_of_each entries.now) }
{
    let mut row = Vec::new(alloc);
    for i in 0..entries.len() {
        if i + 1 == entries.len() || entries[i + 1].0 != entries[i].0 {
            row.push(entries[i])?;
        }
    }
    Ok(row)
}

fn add(
    places: &[u32],
    variable: u32,
    order: u32,
    entries: &mut Vec<(u32, u32)>,
) -> Result<(), NoMemory>
    ensures { OnOk result (entries.new.items ≡ entries.old.items ++ found_at (slice_index places.now variable) order) }
{
    match places.get(variable as usize) {
        None => {}
        Some(place) => {
            if *place != 0 {
                entries.push((*place, order))?;
            }
        }
    }
    Ok(())
}

/// The entries of an expression with that many derivatives around it, conditions of if-expressions left aside.
#[cycle(gather)]
fn gather(
    places: &[u32],
    e: &FlatExpr,
    around: u32,
    entries: &mut Vec<(u32, u32)>,
) -> Result<(), NoMemory>
    ensures { OnOk result (entries.new.items ≡ entries.old.items ++ found places.now e.now around) }
{
    match e {
        FlatExpr::Whole(_) | FlatExpr::Decimal(_) | FlatExpr::Str(_) => Ok(()),
        FlatExpr::Truth(_) | FlatExpr::Literal(_) | FlatExpr::Time => Ok(()),
        FlatExpr::Var(variable, order) => {
            add(places, *variable, order.saturating_add(around), entries)
        }
        FlatExpr::Der(inner) => gather(places, inner.get(), around.saturating_add(1), entries),
        FlatExpr::Sum(terms) => gather_signed(places, terms.as_slice(), around, entries),
        FlatExpr::Product(factors) => gather_signed(places, factors.as_slice(), around, entries),
        FlatExpr::Power(base, exponent) => {
            gather(places, base.get(), around, entries)?;
            gather(places, exponent.get(), around, entries)
        }
        FlatExpr::Call(_, args) => gather_list(places, args.as_slice(), around, entries),
        FlatExpr::Relation(_, left, right) => {
            gather(places, left.get(), around, entries)?;
            gather(places, right.get(), around, entries)
        }
        FlatExpr::Not(inner) => gather(places, inner.get(), around, entries),
        FlatExpr::All(parts) => gather_list(places, parts.as_slice(), around, entries),
        FlatExpr::Any(parts) => gather_list(places, parts.as_slice(), around, entries),
        FlatExpr::If(branches, other) => {
            gather_values(places, branches.as_slice(), around, entries)?;
            gather(places, other.get(), around, entries)
        }
    }
}

#[cycle(gather)]
fn gather_list(
    places: &[u32],
    parts: &[FlatExpr],
    around: u32,
    entries: &mut Vec<(u32, u32)>,
) -> Result<(), NoMemory>
    ensures { OnOk result (entries.new.items ≡ entries.old.items ++ flat_map (λ part. found places.now part around) parts.now) }
{
    for part in parts {
        gather(places, part, around, entries)?;
    }
    Ok(())
}

#[cycle(gather)]
fn gather_signed(
    places: &[u32],
    terms: &[(bool, FlatExpr)],
    around: u32,
    entries: &mut Vec<(u32, u32)>,
) -> Result<(), NoMemory>
    ensures { OnOk result (entries.new.items ≡ entries.old.items ++ flat_map (λ term. found places.now term.1 around) terms.now) }
{
    for term in terms {
        gather(places, &term.1, around, entries)?;
    }
    Ok(())
}

#[cycle(gather)]
fn gather_values(
    places: &[u32],
    branches: &[(FlatExpr, FlatExpr)],
    around: u32,
    entries: &mut Vec<(u32, u32)>,
) -> Result<(), NoMemory>
    ensures { OnOk result (entries.new.items ≡ entries.old.items ++ flat_map (λ branch. found places.now branch.1 around) branches.now) }
{
    for branch in branches {
        gather(places, &branch.1, around, entries)?;
    }
    Ok(())
}
