//! The rows of the table of derivatives for functions.
ghost use Rattle.std.specs.Prelude.{◌≡◌, [], ◌∷◌, IfOk, pos, map, length};
ghost use Rattle.mo_flat.specs.declared.expr.FlatExpr.{FlatExpr};
ghost use Rattle.mo_flat.specs.declared.expr.FlatExpr.TheVariants.{Whole};
ghost use Rattle.mo_syntax.specs.declared.expr.RelOp.TheVariants.{GreaterEqual};
ghost use Rattle.mo_symdiff.specs.Derivative.{applied, args_slope, call_slope, call_slope_of_two, chosen, minus, negated, one, over, plus, squared, times, two};

use crate::build::{call, choice, difference, last_of, negation, product, quotient, square, sum};
use mo_flat::FlatExpr;
use mo_syntax::{List as Elements, NoMemory, RelOp, both, pair};
use mo_tables::functions::{
    ABS, ACOS, ASIN, ATAN, ATAN2, COS, COSH, EXP, LOG, LOG10, MAX, MIN, SIN, SINH, SQRT, TAN, TANH,
};
use std::alloc::Global;

/// A function of a copy of `u`.
fn call_of(alloc: Global, function: u16, u: &FlatExpr) -> Result<FlatExpr, NoMemory>
    ensures { IfOk result (λ made. made ≡ applied function u.now) }
{
    call(alloc, function, u.copy(alloc)?)
}

/// `u^2`
fn square_of(alloc: Global, u: &FlatExpr) -> Result<FlatExpr, NoMemory>
    ensures { IfOk result (λ made. made ≡ squared u.now) }
{
    square(alloc, u.copy(alloc)?)
}

/// The square of a function of `u`.
fn square_of_call(alloc: Global, function: u16, u: &FlatExpr) -> Result<FlatExpr, NoMemory>
    ensures { IfOk result (λ made. made ≡ squared (applied function u.now)) }
{
    square(alloc, call_of(alloc, function, u)?)
}

/// `1 + u^2`
fn one_more_square(alloc: Global, u: &FlatExpr) -> Result<FlatExpr, NoMemory>
    ensures { IfOk result (λ made. made ≡ plus one (squared u.now)) }
{
    let above = square_of(alloc, u)?;
    sum(alloc, FlatExpr::Whole(1), above)
}

/// `1 - u^2`
fn one_less_square(alloc: Global, u: &FlatExpr) -> Result<FlatExpr, NoMemory>
    ensures { IfOk result (λ made. made ≡ minus one (squared u.now)) }
{
    let below = square_of(alloc, u)?;
    difference(alloc, FlatExpr::Whole(1), below)
}

/// `sqrt(1 - u^2)`
fn root_of_less(alloc: Global, u: &FlatExpr) -> Result<FlatExpr, NoMemory>
    ensures { IfOk result (λ made. made ≡ applied SQRT (minus one (squared u.now))) }
{
    call(alloc, SQRT, one_less_square(alloc, u)?)
}

/// `u*log(10)`
fn scaled_by_ten(alloc: Global, u: &FlatExpr) -> Result<FlatExpr, NoMemory>
    ensures { IfOk result (λ made. made ≡ times (u.now ∷ applied LOG (Whole (pos 10)) ∷ [])) }
{
    let (u, ten) = both(u.copy(alloc), call(alloc, LOG, FlatExpr::Whole(10)))?;
    product(alloc, u, ten)
}

/// `2*sqrt(u)`
fn twice_root(alloc: Global, u: &FlatExpr) -> Result<FlatExpr, NoMemory>
    ensures { IfOk result (λ made. made ≡ times (two ∷ applied SQRT u.now ∷ [])) }
{
    let root = call_of(alloc, SQRT, u)?;
    product(alloc, FlatExpr::Whole(2), root)
}

/// `f(u)*D(u)`, where D(u) is `slope`.
fn scaled(alloc: Global, function: u16, u: &FlatExpr, slope: FlatExpr) -> Result<FlatExpr, NoMemory>
    ensures { IfOk result (λ made. made ≡ times (applied function u.now ∷ slope ∷ [])) }
{
    let (factor, slope) = both(call_of(alloc, function, u), Ok(slope))?;
    product(alloc, factor, slope)
}

/// `-sin(u)*D(u)`
fn slope_of_cosine(alloc: Global, u: &FlatExpr, slope: FlatExpr) -> Result<FlatExpr, NoMemory>
    ensures { IfOk result (λ made. made ≡ negated (times (applied SIN u.now ∷ slope ∷ []))) }
{
    negation(alloc, scaled(alloc, SIN, u, slope)?)
}

/// `D(u)/f(u)^2`
fn divided_by_square(
    alloc: Global,
    function: u16,
    u: &FlatExpr,
    slope: FlatExpr,
) -> Result<FlatExpr, NoMemory>
    ensures { IfOk result (λ made. made ≡ over slope (squared (applied function u.now))) }
{
    let (slope, below) = both(Ok(slope), square_of_call(alloc, function, u))?;
    quotient(alloc, slope, below)
}

/// `D(u)/sqrt(1 - u^2)`
fn slope_of_arcsine(alloc: Global, u: &FlatExpr, slope: FlatExpr) -> Result<FlatExpr, NoMemory>
    ensures { IfOk result (λ made. made ≡ over slope (applied SQRT (minus one (squared u.now)))) }
{
    let (slope, below) = both(Ok(slope), root_of_less(alloc, u))?;
    quotient(alloc, slope, below)
}

/// `-D(u)/sqrt(1 - u^2)`
fn slope_of_arccosine(alloc: Global, u: &FlatExpr, slope: FlatExpr) -> Result<FlatExpr, NoMemory>
    ensures { IfOk result (λ made. made ≡ negated (over slope (applied SQRT (minus one (squared u.now))))) }
{
    negation(alloc, slope_of_arcsine(alloc, u, slope)?)
}

/// `D(u)/(1 + u^2)`
fn slope_of_arctangent(alloc: Global, u: &FlatExpr, slope: FlatExpr) -> Result<FlatExpr, NoMemory>
    ensures { IfOk result (λ made. made ≡ over slope (plus one (squared u.now))) }
{
    let (slope, below) = both(Ok(slope), one_more_square(alloc, u))?;
    quotient(alloc, slope, below)
}

/// `D(u)/u`
fn slope_of_logarithm(alloc: Global, u: &FlatExpr, slope: FlatExpr) -> Result<FlatExpr, NoMemory>
    ensures { IfOk result (λ made. made ≡ over slope u.now) }
{
    let (slope, below) = both(Ok(slope), u.copy(alloc))?;
    quotient(alloc, slope, below)
}

/// `D(u)/(u*log(10))`
fn slope_of_common_logarithm(
    alloc: Global,
    u: &FlatExpr,
    slope: FlatExpr,
) -> Result<FlatExpr, NoMemory>
    ensures { IfOk result (λ made. made ≡ over slope (times (u.now ∷ applied LOG (Whole (pos 10)) ∷ []))) }
{
    let (slope, below) = both(Ok(slope), scaled_by_ten(alloc, u))?;
    quotient(alloc, slope, below)
}

/// `D(u)/(2*sqrt(u))`
fn slope_of_root(alloc: Global, u: &FlatExpr, slope: FlatExpr) -> Result<FlatExpr, NoMemory>
    ensures { IfOk result (λ made. made ≡ over slope (times (two ∷ applied SQRT u.now ∷ []))) }
{
    let (slope, below) = both(Ok(slope), twice_root(alloc, u))?;
    quotient(alloc, slope, below)
}

/// `-u`
fn opposite(alloc: Global, u: &FlatExpr) -> Result<FlatExpr, NoMemory>
    ensures { IfOk result (λ made. made ≡ negated u.now) }
{
    negation(alloc, u.copy(alloc)?)
}

/// `if u >= 0 then D(u) else -D(u)`
fn slope_of_abs(alloc: Global, u: &FlatExpr, slope: FlatExpr) -> Result<FlatExpr, NoMemory>
    ensures { IfOk result (λ made. made ≡ chosen GreaterEqual u.now (Whole (pos 0)) slope (negated slope)) }
{
    let other = opposite(alloc, &slope);
    let (u, other) = both(u.copy(alloc), both(Ok(slope), other))?;
    let (slope, other) = other;
    choice(
        alloc,
        RelOp::GreaterEqual,
        u,
        FlatExpr::Whole(0),
        slope,
        other,
    )
}

/// The derivative of a function of `u`, where that of `u` is `slope`.
pub(crate) fn slope_of_call(
    alloc: Global,
    function: u16,
    u: &FlatExpr,
    slope: FlatExpr,
) -> Result<FlatExpr, NoMemory>
    ensures { IfOk result (λ made. made ≡ call_slope function (u.now, slope)) }
{
    if function == SIN {
        return scaled(alloc, COS, u, slope);
    }
    if function == COS {
        return slope_of_cosine(alloc, u, slope);
    }
    if function == TAN {
        return divided_by_square(alloc, COS, u, slope);
    }
    if function == ASIN {
        return slope_of_arcsine(alloc, u, slope);
    }
    if function == ACOS {
        return slope_of_arccosine(alloc, u, slope);
    }
    if function == ATAN {
        return slope_of_arctangent(alloc, u, slope);
    }
    if function == SINH {
        return scaled(alloc, COSH, u, slope);
    }
    if function == COSH {
        return scaled(alloc, SINH, u, slope);
    }
    if function == TANH {
        return divided_by_square(alloc, COSH, u, slope);
    }
    if function == EXP {
        return scaled(alloc, EXP, u, slope);
    }
    if function == LOG {
        return slope_of_logarithm(alloc, u, slope);
    }
    if function == LOG10 {
        return slope_of_common_logarithm(alloc, u, slope);
    }
    if function == SQRT {
        return slope_of_root(alloc, u, slope);
    }
    if function == ABS {
        return slope_of_abs(alloc, u, slope);
    }
    call(alloc, function, slope)
}

/// `a*b`, where `b` is copied.
fn scaled_by(alloc: Global, a: FlatExpr, b: &FlatExpr) -> Result<FlatExpr, NoMemory>
    ensures { IfOk result (λ made. made ≡ times (a ∷ b.now ∷ [])) }
{
    let (a, b) = both(Ok(a), b.copy(alloc))?;
    product(alloc, a, b)
}

/// `a*b`, where `a` is copied.
fn multiple_of(alloc: Global, a: &FlatExpr, b: FlatExpr) -> Result<FlatExpr, NoMemory>
    ensures { IfOk result (λ made. made ≡ times (a.now ∷ b ∷ [])) }
{
    let (a, b) = both(a.copy(alloc), Ok(b))?;
    product(alloc, a, b)
}

/// `a^2 + b^2`
fn sum_of_squares(alloc: Global, a: &FlatExpr, b: &FlatExpr) -> Result<FlatExpr, NoMemory>
    ensures { IfOk result (λ made. made ≡ plus (squared a.now) (squared b.now)) }
{
    let (a, b) = both(square_of(alloc, a), square_of(alloc, b))?;
    sum(alloc, a, b)
}

/// `p*b - a*q`
fn crossed(
    alloc: Global,
    a: &FlatExpr,
    p: FlatExpr,
    b: &FlatExpr,
    q: FlatExpr,
) -> Result<FlatExpr, NoMemory>
    ensures { IfOk result (λ made. made ≡ minus (times (p ∷ b.now ∷ [])) (times (a.now ∷ q ∷ []))) }
{
    let (first, second) = both(scaled_by(alloc, p, b), multiple_of(alloc, a, q))?;
    difference(alloc, first, second)
}

/// `(D(a)*b - a*D(b))/(a^2 + b^2)`, where the derivatives of a and b are `p` and `q`.
fn slope_of_angle(
    alloc: Global,
    a: &FlatExpr,
    p: FlatExpr,
    b: &FlatExpr,
    q: FlatExpr,
) -> Result<FlatExpr, NoMemory>
    ensures { IfOk result (λ made. made ≡ over (minus (times (p ∷ b.now ∷ [])) (times (a.now ∷ q ∷ []))) (plus (squared a.now) (squared b.now))) }
{
    let (above, below) = both(crossed(alloc, a, p, b, q), sum_of_squares(alloc, a, b))?;
    quotient(alloc, above, below)
}

/// `if a op b then u else v`, where `a` and `b` are copied.
fn choice_between(
    alloc: Global,
    op: RelOp,
    a: &FlatExpr,
    p: FlatExpr,
    b: &FlatExpr,
    q: FlatExpr,
) -> Result<FlatExpr, NoMemory>
    ensures { IfOk result (λ made. made ≡ chosen op a.now b.now p q) }
{
    let (sides, values) = both(both(a.copy(alloc), b.copy(alloc)), both(Ok(p), Ok(q)))?;
    let ((a, b), (p, q)) = (sides, values);
    choice(alloc, op, a, b, p, q)
}

/// The derivative of a function of `a` and `b`, where theirs are `p` and `q`.
pub(crate) fn slope_of_call_of_two(
    alloc: Global,
    function: u16,
    a: &FlatExpr,
    p: FlatExpr,
    b: &FlatExpr,
    q: FlatExpr,
) -> Result<FlatExpr, NoMemory>
    ensures { IfOk result (λ made. made ≡ call_slope_of_two function (a.now, p) (b.now, q)) }
{
    if function == ATAN2 {
        return slope_of_angle(alloc, a, p, b, q);
    }
    if function == MIN {
        return choice_between(alloc, RelOp::Less, a, p, b, q);
    }
    if function == MAX {
        return choice_between(alloc, RelOp::Greater, a, p, b, q);
    }
    Ok(FlatExpr::Call(function, pair(alloc, p, q)?))
}

/// The derivative of a call that is not still, where those of its arguments are `slopes`.
pub(crate) fn slope_of_args(
    alloc: Global,
    function: u16,
    args: &[FlatExpr],
    slopes: Elements<FlatExpr>,
) -> Result<FlatExpr, NoMemory>
    requires { length slopes ≡ length args.now }
    ensures { IfOk result (λ made. (slope : FlatExpr → FlatExpr) → slopes ≡ map slope args.now → made ≡ args_slope function (map (λ arg. (arg, slope arg)) args.now)) }
{
    let mut slopes = slopes;
    match args {
        [u] => slope_of_call(alloc, function, u, last_of(&mut slopes)),
        [a, b] => {
            let q = last_of(&mut slopes);
            let p = last_of(&mut slopes);
            slope_of_call_of_two(alloc, function, a, p, b, q)
        }
        _ => Ok(FlatExpr::Call(function, slopes)),
    }
}
