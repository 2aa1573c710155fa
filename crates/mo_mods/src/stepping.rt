//! The table for an element.
ghost use Rattle.std.specs.Prelude.{◌≡◌, List as Seq, option_map, IfOk};
ghost use Rattle.std.specs.List.{list_any};
ghost use Rattle.mo_scope.specs.Frames.{Frame};
ghost use Rattle.mo_scope.specs.Worlds.{World};
ghost use Rattle.mo_mods.specs.declared.env.MergedEnv.{out-MergedEnv};
ghost use Rattle.mo_mods.specs.Merged.{nothing_merged};
ghost use Rattle.mo_mods.specs.Scopes.{ScopesExist};
ghost use Rattle.mo_mods.specs.Sights.{below_seen, merged_in, redeclared_in, value_in};
ghost use Rattle.mo_mods.specs.Steps.{entered_below as below_entered, entered_table, entered_value as value_entered, rest_of as rest_of_marks, stepped, with_index as pending_with_index};
ghost use Rattle.mo_mods.specs.Calls.{IsSteppedIn, StandsSteppedIn};

use crate::answers::put_under;
use crate::env::{MergedEnv, MergedValue, RedeclaredAt, table_of, value_of};
use mo_scope::{copied, copied_scope, extend};
use mo_syntax::{List, NoMemory, Text};
use std::alloc::Global;
use std::collections::BTreeMap;

/// What stands behind the first mark.
fn rest_of(marks: &[bool]) -> &[bool]
    ensures { result.now ≡ rest_of_marks marks.now }
{
    if marks.is_empty() { marks } else { &marks[1..] }
}

/// Whether one of the names carries `each`.
fn has_each(marks: &[bool]) -> bool
    ensures { result ≡ list_any (λ mark. mark) marks.now }
{
    marks.iter().any(|mark| *mark)
}

/// Pending indices with an index behind them, if none of the names that are left carries `each`.
fn with_index(
    alloc: Global,
    index: &[u32],
    marks: &[bool],
    pending: &[u32],
) -> Result<List<u32>, NoMemory>
    ensures { IfOk result (λ made. made ≡ pending_with_index index.now marks.now pending.now) }
{
    let mut made = copied(alloc, pending)?;
    if has_each(marks) {
        return Ok(made);
    }
    extend(&mut made, index)?;
    Ok(made)
}

/// A value behind one more name, entered at an index.
fn entered_value<'t>(
    alloc: Global,
    value: &MergedValue<'t>,
    index: &[u32],
) -> Result<MergedValue<'t>, NoMemory>
    ensures { IfOk result (λ made. (frames : Seq Frame) → value_in frames made ≡ value_entered index.now (value_in frames value.now)) }
{
    let marks = rest_of(value.each.as_slice());
    value_of(
        value.value,
        with_index(alloc, index, marks, value.pending.as_slice()),
        copied_scope(alloc, &value.scope),
        copied(alloc, marks),
    )
}

/// A value that may be missing, entered at an index.
fn entered_option<'t>(
    alloc: Global,
    value: &Option<MergedValue<'t>>,
    index: &[u32],
) -> Result<Option<MergedValue<'t>>, NoMemory>
    ensures { IfOk result (λ made. (frames : Seq Frame) → option_map (value_in frames) made ≡ option_map (value_entered index.now) (option_map (value_in frames) value.now)) }
{
    match value {
        Some(value) => Ok(Some(entered_value(alloc, value, index)?)),
        None => Ok(None),
    }
}

/// A copy of what redeclares an element.
fn copied_redeclared<'t>(
    alloc: Global,
    redeclared: &Option<RedeclaredAt<'t>>,
) -> Result<Option<RedeclaredAt<'t>>, NoMemory>
    ensures { IfOk result (λ made. (frames : Seq Frame) → option_map (redeclared_in frames) made ≡ option_map (redeclared_in frames) redeclared.now) }
{
    match redeclared {
        Some(redeclared) => {
            let scope = copied_scope(alloc, &redeclared.scope)?;
            Ok(Some(RedeclaredAt {
                declares: redeclared.declares,
                scope,
            }))
        }
        None => Ok(None),
    }
}

/// A table with such parts below, its value entered at an index.
fn entered_env<'t>(
    alloc: Global,
    env: &MergedEnv<'t>,
    index: &[u32],
    below: Result<BTreeMap<&'t str, MergedEnv<'t>>, NoMemory>,
) -> Result<MergedEnv<'t>, NoMemory>
    ensures { IfOk result (λ made. (frames : Seq Frame) → IfOk below.entry (λ below. below_seen frames below.entries ≡ below_entered index.now (below_seen frames (out-MergedEnv env.now).below.entries)) → merged_in frames made ≡ entered_table index.now (merged_in frames env.now)) }
{
    table_of(
        entered_option(alloc, &env.value, index),
        copied_redeclared(alloc, &env.redeclared),
        below,
    )
}

/// Tables by name, each entered at an index.
fn entered_below<'t>(
    alloc: Global,
    below: &BTreeMap<&'t str, MergedEnv<'t>>,
    index: &[u32],
) -> Result<BTreeMap<&'t str, MergedEnv<'t>>, NoMemory>
    ensures { IfOk result (λ made. (frames : Seq Frame) → below_seen frames made.entries ≡ below_entered index.now (below_seen frames below.now.entries)) }
{
    let mut made = BTreeMap::new(alloc);
    for (name, env) in below.iter() {
        let more = entered_below(alloc, &env.below, index);
        put_under(&mut made, *name, entered_env(alloc, env, index, more))?;
    }
    Ok(made)
}

/// A table that gives nothing.
fn nothing<'t>(alloc: Global) -> MergedEnv<'t>
    ensures { (frames : Seq Frame) → merged_in frames result ≡ nothing_merged }
{
    MergedEnv {
        value: None,
        redeclared: None,
        below: BTreeMap::new(alloc),
    }
}

/// The table for an element, whose own redeclaration is none of its parts.
fn stepped_env<'t>(
    alloc: Global,
    env: &MergedEnv<'t>,
    index: &[u32],
) -> Result<MergedEnv<'t>, NoMemory>
    ensures { IfOk result (λ made. (frames : Seq Frame) → merged_in frames made ≡ stepped index.now (merged_in frames env.now)) }
{
    table_of(
        entered_option(alloc, &env.value, index),
        Ok(None),
        entered_below(alloc, &env.below, index),
    )
}

impl<'t> MergedEnv<'t> {
    /// The table for an element of that name, entered at an index.
    fn stepped(&self, alloc: Global, name: &Text, index: &[u32]) -> Result<MergedEnv<'t>, NoMemory>
        ensures { IfOk result (IsSteppedIn self.now name.now index.now) }
    {
        match self.table_for(name) {
            Some(env) => stepped_env(alloc, env, index),
            None => Ok(nothing(alloc)),
        }
    }

    /// The table for an element of that name, entered at an index: for every list of sources that this one stands for, it
    /// stands for the parts of that list.
    pub fn step_in(
        &self,
        alloc: Global,
        name: &Text,
        index: &[u32],
    ) -> Result<MergedEnv<'t>, NoMemory>
        ensures is { IfOk result (IsSteppedIn self.now name.now index.now) }
        ensures stands { IfOk result (StandsSteppedIn self.now name.now index.now) }
        ensures exist { IfOk result (λ made. (world : World) → ScopesExist world self.now → ScopesExist world made) }
    {
        self.stepped(alloc, name, index)
    }
}
