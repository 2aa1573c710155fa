//! What is found of aliases in a model.
ghost use Rattle.std.specs.Prelude.{◌≡◌, ℕ, ◌+◌, Bool as Truth, ◌<◌, None, get_or, length, IfOk, OnOk};
ghost use Rattle.mo_alias.specs.Aliases.{AreDropped, AreGone, AreLoops};
ghost use Rattle.mo_alias.specs.steps.Findings.{AreFindings};
ghost use Rattle.mo_alias.specs.steps.Forests.{AreTrees, AreWithin, IsForest};
ghost use Rattle.mo_alias.specs.steps.Leasts.{AreGoneBelow, AreRoots, AreSplit};
ghost use Rattle.mo_alias.specs.Recognized.{aliases_in};

use crate::alias::{Alias, aliases_in, sign_product};
use crate::chain::{loop_at, number};
use crate::classify::{Finding, findings};
use crate::found::{Aliases, Gone};
use crate::trees::Trees;
use mo_flat::FlatModel;
use mo_syntax::{List, NoMemory, both};
use std::alloc::Global;

/// Takes the next unknown: it is the first of its tree, or another one.
fn take(
    trees: &Trees,
    unknown: u32,
    firsts: &mut Vec<Option<(u32, bool)>>,
    gone: &mut List<Gone>,
) -> Result<(), NoMemory>
    requires trees { AreTrees trees.now }
    requires inside { unknown < length trees.now.parent.items }
    requires size { length firsts.old.items ≡ length trees.now.parent.items }
    ensures size { OnOk result (length firsts.new.items ≡ length firsts.old.items) }
    ensures taken { OnOk result ((root : ℕ → ℕ) (sign : ℕ → Truth) → AreRoots trees.now root sign → AreSplit root sign unknown firsts.old.items gone.old → AreSplit root sign (unknown + 1) firsts.new.items gone.new) }
{
    let (root, minus) = trees.root(unknown);
    match firsts[root as usize] {
        None => {
            firsts[root as usize] = Some((unknown, minus));
            Ok(())
        }
        Some((of, sign)) => {
            gone.push(Gone {
                unknown,
                of,
                minus: sign_product(sign, minus),
            })?;
            Ok(())
        }
    }
}

/// No first one of so many trees.
fn no_firsts(alloc: Global, size: usize) -> Result<Vec<Option<(u32, bool)>>, NoMemory>
    ensures size { IfOk result (λ firsts. length firsts.items ≡ size) }
    ensures none { IfOk result (λ firsts. (r : ℕ) → get_or firsts.items r None ≡ None) }
{
    let mut firsts = Vec::new(alloc);
    for _at in 0..size {
        firsts.push(None)?;
    }
    Ok(firsts)
}

/// The unknowns that are others: of each tree all but the least.
fn gone(alloc: Global, trees: &Trees, count: u32) -> Result<List<Gone>, NoMemory>
    requires trees { AreTrees trees.now }
    requires size { length trees.now.parent.items ≡ count + 1 }
    ensures { IfOk result (λ gone. (root : ℕ → ℕ) (sign : ℕ → Truth) → AreRoots trees.now root sign → AreGoneBelow root sign (count + 1) gone) }
{
    let size = count as usize + 1;
    let mut firsts = no_firsts(alloc, size)?;
    let mut gone = List::new(alloc);
    for at in 0..size {
        take(trees, at as u32, &mut firsts, &mut gone)?;
    }
    Ok(gone)
}

/// The links and the agreeing equations.
fn dropped(
    alloc: Global,
    _said: &[Option<Alias>],
    findings: &[Finding],
) -> Result<List<u32>, NoMemory>
    requires { AreFindings _said.now (length _said.now) findings.now }
    ensures { IfOk result (AreDropped _said.now) }
{
    let mut dropped = List::new(alloc);
    for at in 0..findings.len() {
        if findings[at].is_spare() {
            dropped.push(number(at)?)?;
        }
    }
    Ok(dropped)
}

/// The loops of contradicting equations.
fn loops(
    alloc: Global,
    said: &[Option<Alias>],
    findings: &[Finding],
    trees: &Trees,
) -> Result<List<List<u32>>, NoMemory>
    requires findings { AreFindings said.now (length said.now) findings.now }
    requires within { AreWithin said.now (length trees.now.parent.items) }
    requires forest { IsForest said.now trees.now (length said.now) }
    ensures { IfOk result (AreLoops said.now) }
{
    let mut loops = List::new(alloc);
    for at in 0..said.len() {
        if let Some(alias) = findings[at].contradicting(said[at]) {
            loops.push(loop_at(alloc, trees, said, at, alias)?)?;
        }
    }
    Ok(loops)
}

/// The aliases that so many unknowns and what equations say of them have.
fn found(alloc: Global, said: &[Option<Alias>], count: u32) -> Result<Aliases, NoMemory>
    requires { AreWithin said.now (count + 1) }
    ensures gone { IfOk result (λ a. AreGone said.now a.gone) }
    ensures dropped { IfOk result (λ a. AreDropped said.now a.dropped) }
    ensures loops { IfOk result (λ a. AreLoops said.now a.loops) }
{
    let (findings, trees) = findings(alloc, said, count)?;
    let equations = both(
        dropped(alloc, said, &findings),
        loops(alloc, said, &findings, &trees),
    );
    let (gone, (dropped, loops)) = both(gone(alloc, &trees, count), equations)?;
    Ok(Aliases {
        gone,
        dropped,
        loops,
    })
}

/// The aliases of a model: which unknowns are others of lesser number, or minus them; which equations say no more than that; and
/// which contradict those before them, with the links of the chains that they close. Alias equations, those that say that one unknown
/// of order 0 is another or minus it, are taken in flat order. `NoMemory` is the only other answer.
pub fn aliases(alloc: Global, m: &FlatModel) -> Result<Aliases, NoMemory>
    ensures gone { IfOk result (λ a. AreGone (aliases_in m.now) a.gone) }
    ensures dropped { IfOk result (λ a. AreDropped (aliases_in m.now) a.dropped) }
    ensures loops { IfOk result (λ a. AreLoops (aliases_in m.now) a.loops) }
{
    let (said, count) = aliases_in(alloc, m)?;
    found(alloc, &said, count)
}
