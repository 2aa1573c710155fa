//! What is declared of the variables of faces.
ghost use Rattle.std.specs.Prelude.{◌≡◌, ℕ, ◌<◌, length, Some, None, slice_set, slice_index_or, IfOk};
ghost use Rattle.mo_connect.specs.steps.Labels.{AreBelow, AreFlowsBelow};
ghost use Rattle.mo_connect.specs.steps.Gathering.{told_by_face, told_by_flow, IsTable};

use crate::joins::{Face, Join};
use mo_syntax::{NoMemory, Place};
use std::alloc::Global;

/// What is known of a leaf.
#[derive(Clone, Copy)]
pub struct Declared {
    pub flow: bool,
    /// Where it is declared.
    pub place: Place,
    /// Whether it is listed among the flow leaves.
    pub listed: bool,
}

fn tell(table: &mut [Option<Declared>], face: &Face)
    requires { face.now.variable < length table.old }
    ensures { table.new ≡ slice_set table.old face.now.variable (Some (told_by_face face.now)) }
{
    table[face.variable as usize] = Some(Declared {
        flow: face.flow,
        place: face.place,
        listed: false,
    });
}

fn tell_flow(table: &mut [Option<Declared>], flow: (u32, Place))
    requires { flow.0 < length table.old }
    ensures { table.new ≡ slice_set table.old flow.0 (Some (told_by_flow flow)) }
{
    table[flow.0 as usize] = Some(Declared {
        flow: true,
        place: flow.1,
        listed: true,
    });
}

fn tell_joins(table: &mut [Option<Declared>], joins: &[Join], flows: &[(u32, Place)])
    requires below { AreBelow (length table.old) joins.now }
    requires start { IsTable (length table.old) joins.now flows.now 0 0 table.old }
    ensures { IsTable (length table.old) joins.now flows.now (length joins.now) 0 table.new }
{
    for join in joins {
        tell(table, &join.left);
        tell(table, &join.right);
    }
}

fn tell_flows(table: &mut [Option<Declared>], joins: &[Join], flows: &[(u32, Place)])
    requires below { AreFlowsBelow (length table.old) flows.now }
    requires start { IsTable (length table.old) joins.now flows.now (length joins.now) 0 table.old }
    ensures { IsTable (length table.old) joins.now flows.now (length joins.now) (length flows.now) table.new }
{
    for flow in flows {
        tell_flow(table, *flow);
    }
}

fn tell_all(table: &mut [Option<Declared>], joins: &[Join], flows: &[(u32, Place)])
    requires none { (v : ℕ) → slice_index_or table.old v None ≡ None }
    requires joins { AreBelow (length table.old) joins.now }
    requires flows { AreFlowsBelow (length table.old) flows.now }
    ensures { IsTable (length table.old) joins.now flows.now (length joins.now) (length flows.now) table.new }
{
    tell_joins(table, joins, flows);
    tell_flows(table, joins, flows);
}

fn empty_table(alloc: Global, bound: usize) -> Result<Vec<Option<Declared>>, NoMemory>
    ensures { IfOk result (λ made. (length made.items ≡ bound) × ((v : ℕ) → slice_index_or made.items v None ≡ None)) }
{
    let mut made = Vec::new(alloc);
    for _i in 0..bound {
        made.push(None)?;
    }
    Ok(made)
}

/// What is declared of each variable below the bound.
pub(crate) fn table(
    alloc: Global,
    joins: &[Join],
    flows: &[(u32, Place)],
    bound: usize,
) -> Result<Vec<Option<Declared>>, NoMemory>
    requires joins { AreBelow bound joins.now }
    requires flows { AreFlowsBelow bound flows.now }
    ensures { IfOk result (λ table. IsTable bound joins.now flows.now (length joins.now) (length flows.now) table.items) }
{
    let mut made = empty_table(alloc, bound)?;
    tell_all(&mut made, joins, flows);
    Ok(made)
}
