//! Labels of faces: joined faces have one label.
ghost use Rattle.std.specs.Prelude.{◌≡◌, ℕ, ◌+◌, ◌*◌, ◌<◌, ◌≤◌, ◌^◌, length, slice_index, IfOk};
ghost use Rattle.mo_connect.specs.steps.Labels.{number_in, AreBelow, AreFlowsBelow, AreLabels, AreUnited};

use crate::forest::{flatten, unite};
use crate::joins::{Face, Join};
use mo_syntax::{NoMemory, Place};
use std::alloc::Global;

/// The face's number: two for each variable, that of the inside face first.
fn number(of: &Face) -> usize
    ensures { result ≡ number_in of.now }
{
    of.variable as usize * 2 + if of.outside { 1 } else { 0 }
}

fn bound_of_joins(joins: &[Join]) -> usize
    ensures below { AreBelow result joins.now }
    ensures small { result ≤ 2 ^ 32 }
{
    let mut bound = 0;
    for join in joins {
        bound = bound
            .max(join.left.variable as usize + 1)
            .max(join.right.variable as usize + 1);
    }
    bound
}

fn bound_of_flows(flows: &[(u32, Place)]) -> usize
    ensures below { AreFlowsBelow result flows.now }
    ensures small { result ≤ 2 ^ 32 }
{
    let mut bound = 0;
    for flow in flows {
        bound = bound.max(flow.0 as usize + 1);
    }
    bound
}

/// A number above those of all variables.
pub(crate) fn bound(joins: &[Join], flows: &[(u32, Place)]) -> usize
    ensures joins { AreBelow result joins.now }
    ensures flows { AreFlowsBelow result flows.now }
    ensures small { result ≤ 2 ^ 32 }
{
    bound_of_joins(joins).max(bound_of_flows(flows))
}

fn numbers(alloc: Global, size: usize) -> Result<Vec<usize>, NoMemory>
    ensures { IfOk result (λ made. (length made.items ≡ size) × ((i : ℕ) → i < size → slice_index made.items i ≡ i)) }
{
    let mut made = Vec::new(alloc);
    for i in 0..size {
        made.push(i)?;
    }
    Ok(made)
}

fn unite_all(parent: &mut [usize], joins: &[Join])
    requires each { (i : ℕ) → i < length parent.old → slice_index parent.old i ≡ i }
    requires small { (bound : ℕ) × AreBelow bound joins.now × (length parent.old ≡ 2 * bound) }
    ensures { AreUnited joins.now (length joins.now) parent.new }
{
    for join in joins {
        unite(parent, number(&join.left), number(&join.right));
    }
}

fn label_all(parent: &mut [usize], joins: &[Join])
    requires each { (i : ℕ) → i < length parent.old → slice_index parent.old i ≡ i }
    requires small { (bound : ℕ) × AreBelow bound joins.now × (length parent.old ≡ 2 * bound) }
    ensures { AreLabels (length parent.old) joins.now parent.new }
{
    unite_all(parent, joins);
    flatten(parent);
}

/// The labels of all faces of variables below the bound.
pub(crate) fn labels(alloc: Global, joins: &[Join], bound: usize) -> Result<Vec<usize>, NoMemory>
    requires below { AreBelow bound joins.now }
    requires small { bound ≤ 2 ^ 32 }
    ensures { IfOk result (λ labels. AreLabels (2 * bound) joins.now labels.items) }
{
    let mut parent = numbers(alloc, bound * 2)?;
    label_all(&mut parent, joins);
    Ok(parent)
}
