//! The number of nodes of an expression.
ghost use Rattle.std.specs.Prelude.{◌≡◌, ◌+◌, ◌-◌, ◌^◌, min, sum_by};
ghost use Rattle.mo_flat.specs.Nodes.{node_count};

use crate::FlatExpr;

/// How many nodes an expression has: one for itself and those of its parts, a variable of order k counting 1 + k. Where
/// the number passes 64 bits the answer is the greatest `u64`. Takes no memory.
pub fn flat_nodes(e: &FlatExpr) -> u64
    ensures { result ≡ min (node_count e.now) (2 ^ 64 - 1) }
{
    counted(e)
}

#[cycle(nodes)]
fn counted(e: &FlatExpr) -> u64
    ensures { result ≡ min (node_count e.now) (2 ^ 64 - 1) }
{
    match e {
        FlatExpr::Whole(_) | FlatExpr::Decimal(_) | FlatExpr::Str(_) => 1,
        FlatExpr::Truth(_) | FlatExpr::Literal(_) | FlatExpr::Time => 1,
        FlatExpr::Var(_, order) => 1 + *order as u64,
        FlatExpr::Der(inner) => counted(inner.get()).saturating_add(1),
        FlatExpr::Sum(terms) => counted_signed(terms.as_slice()).saturating_add(1),
        FlatExpr::Product(factors) => counted_signed(factors.as_slice()).saturating_add(1),
        FlatExpr::Power(base, exponent) => counted(base.get())
            .saturating_add(counted(exponent.get()))
            .saturating_add(1),
        FlatExpr::Call(_, args) => counted_list(args.as_slice()).saturating_add(1),
        FlatExpr::Relation(_, left, right) => counted(left.get())
            .saturating_add(counted(right.get()))
            .saturating_add(1),
        FlatExpr::Not(inner) => counted(inner.get()).saturating_add(1),
        FlatExpr::All(parts) => counted_list(parts.as_slice()).saturating_add(1),
        FlatExpr::Any(parts) => counted_list(parts.as_slice()).saturating_add(1),
        FlatExpr::If(branches, other) => counted_branches(branches.as_slice())
            .saturating_add(counted(other.get()))
            .saturating_add(1),
    }
}

#[cycle(nodes)]
fn counted_signed(terms: &[(bool, FlatExpr)]) -> u64
    ensures { result ≡ min (sum_by (λ term. node_count term.1) terms.now) (2 ^ 64 - 1) }
{
    let mut all: u64 = 0;
    for term in terms {
        all = all.saturating_add(counted(&term.1));
    }
    all
}

#[cycle(nodes)]
fn counted_list(parts: &[FlatExpr]) -> u64
    ensures { result ≡ min (sum_by node_count parts.now) (2 ^ 64 - 1) }
{
    let mut all: u64 = 0;
    for part in parts {
        all = all.saturating_add(counted(part));
    }
    all
}

#[cycle(nodes)]
fn counted_branches(branches: &[(FlatExpr, FlatExpr)]) -> u64
    ensures { result ≡ min (sum_by (λ branch. node_count branch.0 + node_count branch.1) branches.now) (2 ^ 64 - 1) }
{
    let mut all: u64 = 0;
    for branch in branches {
        all = all
            .saturating_add(counted(&branch.0))
            .saturating_add(counted(&branch.1));
    }
    all
}
