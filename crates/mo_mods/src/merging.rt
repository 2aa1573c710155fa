//! Tables that are merged of what is left of modifiers.
//!
//! One call makes the table of a path, one call for each name that follows. The parser bounds how deep lists are nested, at 128,
//! but not how many names an argument has, so the calls count the names that may follow: past them memory is wanted.
ghost use Rattle.std.specs.Prelude.{ℕ, List as Seq, map, IfOk};
ghost use Rattle.mo_scope.specs.Frames.{Frame};
ghost use Rattle.mo_scope.specs.Worlds.{table_in};
ghost use Rattle.mo_mods.specs.Left.{IsElementOf, all_say};
ghost use Rattle.mo_mods.specs.Merged.{table_for};
ghost use Rattle.mo_mods.specs.Sights.{below_seen, left_in, merged_in, said_in};
ghost use Rattle.mo_mods.specs.Calls.{StandsForSources, ScopesExistBy};

use crate::answers::put_under;
use crate::env::{MergedEnv, table_of};
use crate::groups::grouped;
use crate::left::{Left, Said, anew_first, lefts_of, lefts_said, value_left};
use mo_scope::{Scopes, Source};
use mo_syntax::{List, NoMemory};
use std::alloc::Global;
use std::collections::BTreeMap;

/// How many names a path may have: each takes a call inside the one before.
const MOST_NAMES: usize = 256;

/// The table of an element of which so much is said.
#[cycle(merging)]
fn element<'s, 't>(
    scopes: &Scopes<'t>,
    alloc: Global,
    said: List<Said<'s, 't>>,
    names: usize,
) -> Result<MergedEnv<'t>, NoMemory>
    ensures { IfOk result (λ made. (frames : Seq Frame) → IsElementOf (table_in scopes.now) (merged_in frames made) (map (said_in frames) said.entry)) }
{
    if names == 0 {
        return Err(NoMemory);
    }
    let redeclared = anew_first(alloc, said.as_slice());
    let lefts = lefts_said(alloc, said)?;
    let below = elements(scopes, alloc, lefts.as_slice(), names - 1);
    table_of(value_left(alloc, lefts.as_slice()), redeclared, below)
}

/// The tables of the elements of which what is left of modifiers says something, by their names.
#[cycle(merging)]
fn elements<'s, 't>(
    scopes: &Scopes<'t>,
    alloc: Global,
    lefts: &[Left<'s, 't>],
    names: usize,
) -> Result<BTreeMap<&'t str, MergedEnv<'t>>, NoMemory>
    ensures { IfOk result (λ made. (frames : Seq Frame) → (name : Seq ℕ) → IsElementOf (table_in scopes.now) (table_for name (below_seen frames made.entries)) (all_say (table_in scopes.now) name (map (left_in frames) lefts.now))) }
{
    let mut left = grouped(scopes, alloc, lefts)?;
    let mut made = BTreeMap::new(alloc);
    while let Some((name, said)) = left.pop_first() {
        put_under(&mut made, name, element(scopes, alloc, said, names))?;
    }
    Ok(made)
}

/// Sources merged into one table, whatever their arguments break. A path of more than 256 names is want of memory. `NoMemory`
/// is the only other answer.
pub fn merged_sources<'t>(
    scopes: &Scopes<'t>,
    alloc: Global,
    sources: &[Source<'t>],
) -> Result<MergedEnv<'t>, NoMemory>
    ensures stands { IfOk result (StandsForSources (table_in scopes.now) sources.now) }
    ensures exist { IfOk result (ScopesExistBy sources.now) }
{
    let lefts = lefts_of(alloc, sources)?;
    let below = elements(scopes, alloc, lefts.as_slice(), MOST_NAMES);
    table_of(value_left(alloc, lefts.as_slice()), Ok(None), below)
}
