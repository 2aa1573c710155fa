//! Relations, and what decides a chain of `and` or `or`.
ghost use Rattle.std.specs.Prelude.{◌≡◌};
ghost use Rattle.mo_values.specs.Scalars.{truth_lt, truth_eq, related, negated};

use crate::arithmetic::holds;
use crate::value::Scalar;
use mo_syntax::RelOp;

fn truth_lt(a: bool, b: bool) -> bool
    ensures exact { result ≡ truth_lt a b }
{
    !a && b
}

pub(crate) fn truth_eq(a: bool, b: bool) -> bool
    ensures exact { result ≡ truth_eq a b }
{
    if a { b } else { !b }
}

/// A relation between two scalars.
pub(crate) fn related(op: RelOp, a: Option<Scalar>, b: Option<Scalar>) -> Option<Scalar>
    ensures exact { result ≡ related op a b }
{
    let Some(left) = a else { return None };
    let Some(right) = b else { return None };
    match left {
        Scalar::Whole(m) => match right {
            Scalar::Whole(n) => Some(Scalar::Truth(holds(op, m < n, m == n))),
            Scalar::Truth(_) => None,
            Scalar::Literal(_, _) => None,
        },
        Scalar::Truth(m) => match right {
            Scalar::Truth(n) => Some(Scalar::Truth(holds(op, truth_lt(m, n), truth_eq(m, n)))),
            Scalar::Whole(_) => None,
            Scalar::Literal(_, _) => None,
        },
        Scalar::Literal(_, m) => match right {
            Scalar::Literal(_, n) => Some(Scalar::Truth(holds(op, m < n, m == n))),
            Scalar::Whole(_) => None,
            Scalar::Truth(_) => None,
        },
    }
}

/// `not`.
pub(crate) fn negated(known: Option<Scalar>) -> Option<Scalar>
    ensures exact { result ≡ negated known }
{
    match known {
        Some(Scalar::Truth(b)) => Some(Scalar::Truth(!b)),
        Some(Scalar::Whole(_)) => None,
        Some(Scalar::Literal(_, _)) => None,
        None => None,
    }
}
