//! Alias equations taken one after another.
ghost use Rattle.std.specs.Prelude.{◌≡◌, ◌+◌, ◌<◌, Some, None, length, get_or, IfOk};
ghost use Rattle.mo_alias.specs.steps.Findings.{AreFindings, contradicting, is_spare, IsFinding};
ghost use Rattle.mo_alias.specs.steps.Forests.{AreWithin, IsForest};

use crate::alias::{Alias, sign_product};
use crate::trees::Trees;
use mo_syntax::NoMemory;
use std::alloc::Global;

/// What an equation is to those before it.
#[derive(Clone, Copy, Debug)]
pub(crate) enum Finding {
    /// No alias equation.
    Other,
    /// It joins unknowns that were not joined.
    Link,
    /// It says what a chain of links says.
    Agrees,
    /// It says the other sign.
    Contradicts,
}

impl Finding {
    /// Whether it says no more than which unknowns are others.
    pub(crate) fn is_spare(&self) -> bool
        ensures { result ≡ is_spare self.now }
    {
        matches!(self, Finding::Link | Finding::Agrees)
    }

    /// The alias equation, if it contradicts.
    pub(crate) fn contradicting(&self, said: Option<Alias>) -> Option<Alias>
        ensures { result ≡ contradicting self.now said }
    {
        match self {
            Finding::Contradicts => said,
            _ => None,
        }
    }
}

/// What an alias equation among these is, which is put into the trees if it is a link.
fn taken(trees: &mut Trees, _said: &[Option<Alias>], at: usize, alias: Alias) -> Finding
    requires forest { IsForest _said.now trees.old at }
    requires within { AreWithin _said.now (length trees.old.parent.items) }
    requires at { at < length _said.now }
    requires alias { get_or _said.now at None ≡ Some alias }
    ensures forest { IsForest _said.now trees.new (at + 1) }
    ensures size { length trees.new.parent.items ≡ length trees.old.parent.items }
    ensures finding { IsFinding _said.now at result }
{
    let (one, sign) = trees.root(alias.left);
    let (other, other_sign) = trees.root(alias.right);
    let minus = sign_product(sign_product(sign, other_sign), alias.minus);
    if one != other {
        trees.join(one, other, minus, at, alias);
        return Finding::Link;
    }
    if minus {
        Finding::Contradicts
    } else {
        Finding::Agrees
    }
}

/// What an equation is, which is put into the trees if it is a link.
fn finding_at(trees: &mut Trees, said: &[Option<Alias>], at: usize) -> Finding
    requires forest { IsForest said.now trees.old at }
    requires within { AreWithin said.now (length trees.old.parent.items) }
    requires at { at < length said.now }
    ensures forest { IsForest said.now trees.new (at + 1) }
    ensures size { length trees.new.parent.items ≡ length trees.old.parent.items }
    ensures finding { IsFinding said.now at result }
{
    match said[at] {
        None => Finding::Other,
        Some(alias) => taken(trees, said, at, alias),
    }
}

/// What each equation is, and the trees of all links.
pub(crate) fn findings(
    alloc: Global,
    said: &[Option<Alias>],
    count: u32,
) -> Result<(Vec<Finding>, Trees), NoMemory>
    requires within { AreWithin said.now (count + 1) }
    ensures findings { IfOk result (λ r. AreFindings said.now (length said.now) r.0.items) }
    ensures forest { IfOk result (λ r. IsForest said.now r.1 (length said.now)) }
    ensures size { IfOk result (λ r. length r.1.parent.items ≡ count + 1) }
{
    let mut trees = Trees::new(alloc, count)?;
    let mut findings = Vec::new(alloc);
    for at in 0..said.len() {
        findings.push(finding_at(&mut trees, said, at))?;
    }
    Ok((findings, trees))
}
