//! Arithmetic of Integers: 64 bits with a sign, no result where it does not fit or where zero divides.
ghost use Rattle.std.specs.Prelude.{◌≡◌, ◌≢◌, pos};
ghost use Rattle.mo_values.specs.Numbers.{added, multiplied, absolute, lesser, greater, quotient, remainder, modulo, holds, rest, same_sign};

use mo_syntax::RelOp;

/// One more term of a sum, subtracted where `minus` holds.
pub(crate) fn added(minus: bool, a: i64, b: i64) -> Option<i64>
    ensures exact { result ≡ added minus a b }
{
    if minus {
        a.checked_sub(b)
    } else {
        a.checked_add(b)
    }
}

/// One more factor of a product.
pub(crate) fn multiplied(a: i64, b: i64) -> Option<i64>
    ensures exact { result ≡ multiplied a b }
{
    a.checked_mul(b)
}

/// The absolute value.
pub(crate) fn absolute(n: i64) -> Option<i64>
    ensures exact { result ≡ absolute n }
{
    if n < 0 { n.checked_neg() } else { Some(n) }
}

/// `min(a, b)`.
pub(crate) fn lesser(a: i64, b: i64) -> i64
    ensures exact { result ≡ lesser a b }
{
    if b < a { b } else { a }
}

/// `max(a, b)`.
pub(crate) fn greater(a: i64, b: i64) -> i64
    ensures exact { result ≡ greater a b }
{
    if a < b { b } else { a }
}

/// `div(a, b)`, which cuts toward zero.
pub(crate) fn quotient(a: i64, b: i64) -> Option<i64>
    ensures exact { result ≡ quotient a b }
{
    if b == 0 { None } else { a.checked_div(b) }
}

/// What division leaves, with the sign of `a`.
fn rest(a: i64, b: i64) -> i64
    requires nonzero { b ≢ pos 0 }
    ensures exact { result ≡ rest a b }
{
    if b == -1 { 0 } else { a % b }
}

/// `rem(a, b)`, which has the sign of `a` or is 0.
pub(crate) fn remainder(a: i64, b: i64) -> Option<i64>
    ensures exact { result ≡ remainder a b }
{
    if b == 0 { None } else { Some(rest(a, b)) }
}

fn same_sign(m: i64, n: i64) -> bool
    ensures exact { result ≡ same_sign m n }
{
    if m < 0 { n < 0 } else { m > 0 && n > 0 }
}

/// `mod(a, b)`, which has the sign of `b` or is 0.
pub(crate) fn modulo(a: i64, b: i64) -> Option<i64>
    ensures exact { result ≡ modulo a b }
{
    if b == 0 {
        return None;
    }
    let left = rest(a, b);
    if left == 0 || same_sign(left, b) {
        return Some(left);
    }
    left.checked_add(b)
}

/// A relation, where it is known whether the left operand is less than the right one and whether they are equal.
pub(crate) fn holds(op: RelOp, less: bool, equal: bool) -> bool
    ensures exact { result ≡ holds op less equal }
{
    match op {
        RelOp::Less => less,
        RelOp::LessEqual => less || equal,
        RelOp::Greater => !(less || equal),
        RelOp::GreaterEqual => !less,
        RelOp::Equal => equal,
        RelOp::NotEqual => !equal,
    }
}
