//! How deep an expression of the flat model is. What replaces constants may stand one within the other, and all that goes through an
//! expression goes a call deeper for each level.

use mo_flat::FlatExpr;

/// How many levels what replaces a constant may have.
const MOST_LEVELS: u32 = 1024;

/// Whether an expression has at most so many levels.
#[cycle(levels)]
fn is_within(e: &FlatExpr, left: u32) -> bool {
    if left == 0 {
        return false;
    }
    let below = left - 1;
    match e {
        FlatExpr::Whole(_) => true,
        FlatExpr::Decimal(_) => true,
        FlatExpr::Str(_) => true,
        FlatExpr::Truth(_) => true,
        FlatExpr::Literal(_) => true,
        FlatExpr::Time => true,
        FlatExpr::Var(_, _) => true,
        FlatExpr::Der(of) => is_within(of.get(), below),
        FlatExpr::Sum(terms) => are_signed_within(terms.as_slice(), below),
        FlatExpr::Product(factors) => are_signed_within(factors.as_slice(), below),
        FlatExpr::Power(base, exponent) => {
            is_within(base.get(), below) && is_within(exponent.get(), below)
        }
        FlatExpr::Call(_, arguments) => are_within(arguments.as_slice(), below),
        FlatExpr::Relation(_, left, right) => {
            is_within(left.get(), below) && is_within(right.get(), below)
        }
        FlatExpr::Not(of) => is_within(of.get(), below),
        FlatExpr::All(parts) => are_within(parts.as_slice(), below),
        FlatExpr::Any(parts) => are_within(parts.as_slice(), below),
        FlatExpr::If(branches, other) => {
            are_branches_within(branches.as_slice(), below) && is_within(other.get(), below)
        }
    }
}

/// The same of terms or factors.
#[cycle(levels)]
fn are_signed_within(terms: &[(bool, FlatExpr)], left: u32) -> bool {
    for term in terms {
        if !is_within(&term.1, left) {
            return false;
        }
    }
    true
}

/// The same of operands or arguments.
#[cycle(levels)]
fn are_within(parts: &[FlatExpr], left: u32) -> bool {
    for part in parts {
        if !is_within(part, left) {
            return false;
        }
    }
    true
}

/// The same of conditions and values.
#[cycle(levels)]
fn are_branches_within(branches: &[(FlatExpr, FlatExpr)], left: u32) -> bool {
    for branch in branches {
        if !is_within(&branch.0, left) || !is_within(&branch.1, left) {
            return false;
        }
    }
    true
}

/// Whether an expression may replace a constant: no more levels are read one within the other than the stack has room for
/// (docs/DECISIONS.md, What is answered by want of memory).
pub(crate) fn may_replace(e: &FlatExpr) -> bool {
    is_within(e, MOST_LEVELS)
}
