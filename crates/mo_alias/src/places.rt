//! What stands in the place of each variable.
ghost use Rattle.std.specs.Prelude.{◌≡◌, ℕ, ◌+◌, ◌<◌, ◌≤◌, None, length, get_or, IfOk};
ghost use Rattle.mo_alias.specs.steps.Placing.{flag_at, gone_next, place_at, place_by, stays_by};
ghost use Rattle.mo_alias.specs.Without.{gone_at, kept_to, place, stays};

use crate::found::Gone;
use crate::numbers::{numbers_among, variables_of};
use mo_flat::FlatVar;
use mo_syntax::NoMemory;
use std::alloc::Global;

/// Where the variables of a model stand in the one without aliases.
#[derive(Drop)]
pub(crate) struct Places {
    /// By the number of each variable the sign and the new number of what stands in its place.
    pub at: Vec<(bool, u32)>,
    /// By the number of each variable whether it stays.
    pub stays: Vec<bool>,
}

/// Notes what is said of an unknown, where nothing was said before.
fn note(said: &mut Vec<Option<Gone>>, g: Gone)
    ensures size { length said.new.items ≡ length said.old.items }
    ensures noted { (unknown : ℕ) → unknown < length said.old.items → get_or said.new.items unknown None ≡ gone_next (get_or said.old.items unknown None) g unknown }
{
    let at = g.unknown as usize;
    if at >= said.len() {
        return;
    }
    if said[at].is_some() {
        return;
    }
    said[at] = Some(g);
}

/// Nothing said of so many.
fn nothing_said(alloc: Global, size: usize) -> Result<Vec<Option<Gone>>, NoMemory>
    ensures size { IfOk result (λ said. length said.items ≡ size) }
    ensures nothing { IfOk result (λ said. (unknown : ℕ) → get_or said.items unknown None ≡ None) }
{
    let mut said = Vec::new(alloc);
    for at in 0..size {
        said.push(None)?;
    }
    Ok(said)
}

/// By the number of each unknown what is said of it, the first if there are more.
#[tactic(auto, using(crate::proofs::Noting::gone_all))]
fn said_of(alloc: Global, gone: &[Gone], count: u32) -> Result<Vec<Option<Gone>>, NoMemory>
    ensures size { IfOk result (λ said. length said.items ≡ count + 1) }
    ensures said { IfOk result (λ said. (unknown : ℕ) → unknown ≤ count → get_or said.items unknown None ≡ gone_at gone.now unknown) }
{
    let mut said = nothing_said(alloc, count as usize + 1)?;
    for g in gone {
        note(&mut said, *g);
    }
    Ok(said)
}

/// By the number of each variable whether it stays.
fn staying(alloc: Global, numbers: &[u32], said: &[Option<Gone>]) -> Result<Vec<bool>, NoMemory>
    requires known { (v : ℕ) → get_or numbers.now v 0 < length said.now }
    ensures size { IfOk result (λ made. length made.items ≡ length numbers.now) }
    ensures stays { IfOk result (λ made. (v : ℕ) → v < length numbers.now → flag_at made.items v ≡ stays_by said.now (get_or numbers.now v 0)) }
{
    let mut stays = Vec::new(alloc);
    for at in 0..numbers.len() {
        stays.push(said[numbers[at] as usize].is_none())?;
    }
    Ok(stays)
}

/// The flag at a place of a table, and false past its end.
fn flag_at(flags: &[bool], at: usize) -> bool
    ensures { result ≡ flag_at flags.now at }
{
    match flags.get(at) {
        None => false,
        Some(flag) => *flag,
    }
}

/// By the number of each variable how many of those up to it stay; 0 stands first.
fn new_numbers(alloc: Global, stays: &[bool]) -> Result<Vec<u32>, NoMemory>
    ensures { IfOk result (λ new. (v : ℕ) → v < length stays.now → get_or new.items v 0 ≡ kept_to (flag_at stays.now) v) }
{
    let mut new = Vec::new(alloc);
    let mut count = 0u32;
    for at in 0..stays.len() {
        new.push(count)?;
        if flag_at(stays, at + 1) {
            count = count.checked_add(1).ok_or(NoMemory)?;
        }
    }
    Ok(new)
}

/// The number at a place of a table, and 0 past its end.
pub(crate) fn number_at(table: &[u32], at: u32) -> u32
    ensures { result ≡ get_or table.now at 0 }
{
    match table.get(at as usize) {
        None => 0,
        Some(number) => *number,
    }
}

/// What stands in the place of a variable, by what is said of it.
fn place_by(new: &[u32], variables: &[u32], said: Option<Gone>, variable: u32) -> (bool, u32)
    ensures { result ≡ place_by new.now variables.now said variable }
{
    match said {
        None => (false, number_at(new, variable)),
        Some(g) => (g.minus, number_at(new, number_at(variables, g.of))),
    }
}

/// What stands in the place of each of some variables, by their numbers among the unknowns.
fn table(
    alloc: Global,
    numbers: &[u32],
    said: &[Option<Gone>],
    new: &[u32],
    variables: &[u32],
) -> Result<Vec<(bool, u32)>, NoMemory>
    requires known { (v : ℕ) → get_or numbers.now v 0 < length said.now }
    ensures size { IfOk result (λ made. length made.items ≡ length numbers.now) }
    ensures places { IfOk result (λ made. (v : ℕ) → v < length numbers.now → place_at made.items v ≡ place_by new.now variables.now (get_or said.now (get_or numbers.now v 0) None) v) }
{
    let mut made = Vec::new(alloc);
    let mut variable = 0u32;
    for at in 0..numbers.len() {
        let place = place_by(new, variables, said[numbers[at] as usize], variable);
        made.push(place)?;
        variable = variable.checked_add(1).ok_or(NoMemory)?;
    }
    Ok(made)
}

/// What stands in the place of each variable of a model, where these unknowns are others.
pub(crate) fn places_of(alloc: Global, vars: &[FlatVar], gone: &[Gone]) -> Result<Places, NoMemory>
    ensures at { IfOk result (λ places. place_at places.at.items ≡ place vars.now gone.now) }
    ensures size { IfOk result (λ places. length places.stays.items ≡ length vars.now + 1) }
    ensures stays { IfOk result (λ places. (v : ℕ) → v ≤ length vars.now → flag_at places.stays.items v ≡ stays vars.now gone.now v) }
{
    let (numbers, count) = numbers_among(alloc, vars)?;
    let variables = variables_of(alloc, vars)?;
    let said = said_of(alloc, gone, count)?;
    let stays = staying(alloc, &numbers, &said)?;
    let new = new_numbers(alloc, &stays)?;
    let at = table(alloc, &numbers, &said, &new, &variables)?;
    Ok(Places { at, stays })
}
