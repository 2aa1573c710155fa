//! The branches of an if-equation that no value decides, joined equation by equation.
ghost use Rattle.std.specs.Prelude.{◌≡◌, Ok, false, length, sum_by, IfOk};
ghost use Rattle.mo_typing.specs.Outcome.{each};
ghost use Rattle.mo_equations.specs.Joining.{difference as difference_of};
ghost use Rattle.mo_equations.specs.steps.Choices.{GivesJoined, all_joined, branch_at, counts_are_equal, difference_at as difference_by, joined_at, nodes_joined};
ghost use Rattle.mo_equations.specs.steps.Flats.{capped, is_past_nodes};

use crate::flat::{Flat, is_past};
use crate::made::Made;
use mo_flat::{FlatEquation, FlatExpr};
use mo_syntax::{Boxed, List, NoMemory, Place, Stop, both, pair, rules, stop};
use std::alloc::Global;

/// A branch with its condition.
pub(crate) type Branch = (Flat, Made);

/// What is left of the branches of an if-equation: each with its condition, and the last one.
#[derive(Drop)]
pub(crate) struct Choice {
    pub branches: List<Branch>,
    pub other: Made,
}

/// Whether all branches have as many equations as the last one.
fn have_equal_counts(branches: &[Branch], other: &Made) -> bool
    ensures { result ≡ counts_are_equal branches.now other.now }
{
    for branch in branches {
        if branch.1.count != other.count {
            return false;
        }
    }
    true
}

/// The nodes of all conditions.
fn nodes_of_conditions(branches: &[Branch]) -> u64
    ensures { result ≡ capped (sum_by (λ branch. branch.0.nodes) branches.now) }
{
    let mut all: u64 = 0;
    for branch in branches {
        all = all.saturating_add(branch.0.nodes);
    }
    all
}

/// The nodes of all branches.
fn nodes_of_branches(branches: &[Branch]) -> u64
    ensures { result ≡ capped (sum_by (λ branch. branch.1.nodes) branches.now) }
{
    let mut all: u64 = 0;
    for branch in branches {
        all = all.saturating_add(branch.1.nodes);
    }
    all
}

/// The nodes of the joined equations: of each, one for 0, one for the choice, a difference for each branch and the last one, and the
/// conditions.
fn nodes_of_joined(branches: &[Branch], other: &Made) -> u64
    ensures { result ≡ capped (nodes_joined branches.now other.now) }
{
    let each = nodes_of_conditions(branches)
        .saturating_add(branches.len() as u64)
        .saturating_add(3);
    each.saturating_mul(other.count)
        .saturating_add(nodes_of_branches(branches))
        .saturating_add(other.nodes)
}

/// The difference of the sides of an equation.
fn difference(alloc: Global, q: &FlatEquation) -> Result<FlatExpr, NoMemory>
    ensures { IfOk result (λ made. made ≡ difference_of q.now) }
{
    let (left, right) = both(q.left.copy(alloc), q.right.copy(alloc))?;
    Ok(FlatExpr::Sum(pair(alloc, (false, left), (true, right))?))
}

/// The difference of the equation of a branch with so many before it.
fn difference_at(alloc: Global, made: &Made, k: usize) -> Result<FlatExpr, NoMemory>
    ensures { IfOk result (λ difference. difference_by made.now k ≡ Ok difference) }
{
    match made.equations.get(k) {
        Some(q) => difference(alloc, q),
        None => Err(NoMemory),
    }
}

/// A branch of the joined equation with so many before it.
fn joined_branch(alloc: Global, branch: &Branch, k: usize) -> Result<(FlatExpr, FlatExpr), NoMemory>
    ensures { IfOk result (λ one. branch_at k branch.now ≡ Ok one) }
{
    match &branch.0.built {
        Some(condition) => both(condition.copy(alloc), difference_at(alloc, &branch.1, k)),
        None => Err(NoMemory),
    }
}

/// The branches of the joined equation with so many before it.
fn joined_branches(
    alloc: Global,
    branches: &[Branch],
    k: usize,
) -> Result<List<(FlatExpr, FlatExpr)>, NoMemory>
    ensures { IfOk result (λ made. each (branch_at k) branches.now ≡ Ok made) }
{
    let mut made = List::new(alloc);
    for branch in branches {
        made.push(joined_branch(alloc, branch, k)?)?;
    }
    Ok(made)
}

/// The joined equation with so many before it: 0 is the difference of the sides of the branch that holds.
fn joined_equation(
    alloc: Global,
    place: Place,
    choice: &Choice,
    k: usize,
) -> Result<FlatEquation, NoMemory>
    ensures { IfOk result (λ made. joined_at place choice.now k ≡ Ok made) }
{
    let (branches, other) = both(
        joined_branches(alloc, choice.branches.as_slice(), k),
        difference_at(alloc, &choice.other, k),
    )?;
    let right = FlatExpr::If(branches, Boxed::new(alloc, other)?);
    Ok(FlatEquation {
        left: FlatExpr::Whole(0),
        right,
        place,
    })
}

/// So many joined equations.
fn joined_equations(
    alloc: Global,
    place: Place,
    choice: &Choice,
    count: usize,
) -> Result<List<FlatEquation>, NoMemory>
    ensures { IfOk result (λ made. all_joined place choice.now count ≡ Ok made) }
{
    let mut made = List::new(alloc);
    for k in 0..count {
        made.push(joined_equation(alloc, place, choice, k)?)?;
    }
    Ok(made)
}

/// The joined equations, none where they have too many nodes.
fn kept_equations(
    alloc: Global,
    place: Place,
    choice: &Choice,
    nodes: u64,
) -> Result<List<FlatEquation>, NoMemory>
    ensures { IfOk result (λ made. is_past_nodes nodes ≡ false → all_joined place choice.now (length choice.now.other.equations) ≡ Ok made) }
{
    if is_past(nodes) {
        return Ok(List::new(alloc));
    }
    joined_equations(alloc, place, choice, choice.other.equations.len())
}

/// What comes of an if-equation. Where only one branch is left, its equations stand. Else rule 35 at the if-equation unless all branches
/// have equally many scalar equations, and the equations of one number are joined.
pub(crate) fn made_if(alloc: Global, place: Place, choice: Choice) -> Result<Made, Stop>
    ensures { GivesJoined result place choice }
{
    if choice.branches.is_empty() {
        return Ok(choice.other);
    }
    if choice.other.count == u64::MAX {
        return Err(Stop::NoMemory);
    }
    if !have_equal_counts(choice.branches.as_slice(), &choice.other) {
        return Err(stop(rules::BRANCH_COUNTS_DIFFER, place));
    }
    let nodes = nodes_of_joined(choice.branches.as_slice(), &choice.other);
    let equations = kept_equations(alloc, place, &choice, nodes)?;
    Ok(Made {
        count: choice.other.count,
        nodes,
        equations,
        asserts: List::new(alloc),
        connects: List::new(alloc),
    })
}
