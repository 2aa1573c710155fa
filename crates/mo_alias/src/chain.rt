//! The chains that contradicting equations close.
ghost use Rattle.std.specs.Prelude.{◌≡◌, ℕ, ◌+◌, ◌-◌, ◌<◌, List as Seq, Some, None, Contains, get_or, length, IfOk, OnOk};
ghost use Rattle.std.specs.List.Sorted.{IsStrictlyIncreasing};
ghost use Rattle.mo_graph.specs.steps.Placing.{Has};
ghost use Rattle.mo_alias.specs.Aliases.{IsLoop};
ghost use Rattle.mo_alias.specs.Chains.{Contradicts};
ghost use Rattle.mo_alias.specs.steps.Forests.{AreWithin, IsForest};
ghost use Rattle.mo_alias.specs.steps.Stretches.{IsListed, IsOpen, IsStretch};

use crate::alias::Alias;
use crate::trees::Trees;
use mo_syntax::{List, NoMemory};
use std::alloc::Global;
use std::collections::BTreeSet;

/// Two unknowns that a chain of links joins, all before some place.
#[derive(Clone, Copy)]
struct Stretch {
    one: u32,
    other: u32,
    below: usize,
}

/// The number of an equation with so many before it.
pub(crate) fn number(at: usize) -> Result<u32, NoMemory>
    ensures { IfOk result (λ number. number ≡ at + 1) }
{
    if at >= u32::MAX as usize {
        return Err(NoMemory);
    }
    Ok(at as u32 + 1)
}

/// Puts the links of the chain between two joined unknowns among the equations, by their numbers. The chain is split at its latest
/// link into two of earlier ones.
fn put_chain(
    alloc: Global,
    trees: &Trees,
    _said: &[Option<Alias>],
    whole: Stretch,
    equations: &mut BTreeSet<u32>,
) -> Result<(), NoMemory>
    requires forest { IsForest _said.now trees.now (length _said.now) }
    requires within { AreWithin _said.now (length trees.now.parent.items) }
    requires joined { IsOpen trees.now (length _said.now) whole }
    ensures { OnOk result ((links : Seq ℕ) × IsStretch _said.now whole links × ((x : ℕ) → (Has equations.new x → IsListed equations.old links x) × (IsListed equations.old links x → Has equations.new x))) }
{
    let mut waiting = Vec::new(alloc);
    waiting.push(whole)?;
    while let Some(stretch) = waiting.pop() {
        if stretch.one == stretch.other {
            continue;
        }
        let latest = trees.latest(stretch.one, stretch.other);
        equations.insert(number(latest.at)?)?;
        waiting.push(Stretch {
            one: stretch.one,
            other: latest.near,
            below: latest.at,
        })?;
        waiting.push(Stretch {
            one: latest.far,
            other: stretch.other,
            below: latest.at,
        })?;
    }
    Ok(())
}

/// The members of a set, ascending.
fn listed(alloc: Global, mut set: BTreeSet<u32>) -> Result<List<u32>, NoMemory>
    ensures ascending { IfOk result IsStrictlyIncreasing }
    ensures members { IfOk result (λ made. (x : ℕ) → (Has set x → Contains made x) × (Contains made x → Has set x)) }
{
    let mut made = List::new(alloc);
    while let Some(number) = set.pop_first() {
        made.push(number)?;
    }
    Ok(made)
}

/// A contradicting equation and the links of the chain that it closes, by their numbers, ascending.
pub(crate) fn loop_at(
    alloc: Global,
    trees: &Trees,
    _said: &[Option<Alias>],
    at: usize,
    alias: Alias,
) -> Result<List<u32>, NoMemory>
    requires forest { IsForest _said.now trees.now (length _said.now) }
    requires within { AreWithin _said.now (length trees.now.parent.items) }
    requires at { at < length _said.now }
    requires alias { get_or _said.now at None ≡ Some alias }
    requires contradicts { Contradicts _said.now at }
    ensures { IfOk result (IsLoop _said.now (at + 1)) }
{
    let mut equations = BTreeSet::new(alloc);
    equations.insert(number(at)?)?;
    let whole = Stretch {
        one: alias.left,
        other: alias.right,
        below: at,
    };
    put_chain(alloc, trees, _said, whole, &mut equations)?;
    listed(alloc, equations)
}
