//! The rows of the table of derivatives for powers.
ghost use Rattle.std.specs.Prelude.{◌≡◌, pos, List, IfOk, IfSome, int_lt, true};
ghost use Rattle.mo_flat.specs.declared.expr.FlatExpr.{out-FlatExpr};
ghost use Rattle.mo_flat.specs.declared.expr.FlatExpr.TheVariants.{Whole};
ghost use Rattle.mo_flat.specs.declared.model.FlatVar.{FlatVar};
ghost use Rattle.mo_symdiff.specs.Derivative.{applied, base_term, exponent_term, general_power, least, literal_at, literal_power, minus, one, plus, power_slope, raised};
ghost use Rattle.mo_symdiff.specs.Still.{is_still};

use crate::build::{call, difference, power, product_of_three, sum};
use mo_flat::FlatExpr;
use mo_syntax::{NoMemory, both};
use mo_tables::functions::LOG;
use std::alloc::Global;

/// `2*a*D(a)`, where D(a) is `slope`.
fn slope_of_square(alloc: Global, base: &FlatExpr, slope: FlatExpr) -> Result<FlatExpr, NoMemory>
    ensures { IfOk result (λ made. made ≡ literal_power (pos 2) (base.now, slope)) }
{
    let (base, slope) = both(base.copy(alloc), Ok(slope))?;
    product_of_three(alloc, FlatExpr::Whole(2), base, slope)
}

/// `a^n`
fn whole_power(alloc: Global, base: &FlatExpr, n: i64) -> Result<FlatExpr, NoMemory>
    ensures { IfOk result (λ made. made ≡ raised base.now (Whole n)) }
{
    power(alloc, base.copy(alloc)?, FlatExpr::Whole(n))
}

/// The derivative of a power with an Integer literal above the least 64-bit number as its exponent.
fn slope_of_literal_power(
    alloc: Global,
    base: &FlatExpr,
    slope: FlatExpr,
    n: i64,
) -> Result<FlatExpr, NoMemory>
    requires { int_lt least n ≡ true }
    ensures { IfOk result (λ made. made ≡ literal_power n (base.now, slope)) }
{
    if n == 2 {
        return slope_of_square(alloc, base, slope);
    }
    let (lower, slope) = both(whole_power(alloc, base, n - 1), Ok(slope))?;
    product_of_three(alloc, FlatExpr::Whole(n), lower, slope)
}

/// `b - 1`
fn one_less(alloc: Global, exponent: &FlatExpr) -> Result<FlatExpr, NoMemory>
    ensures { IfOk result (λ made. made ≡ minus exponent.now one) }
{
    difference(alloc, exponent.copy(alloc)?, FlatExpr::Whole(1))
}

/// `a^(b - 1)`
fn lowered(alloc: Global, base: &FlatExpr, exponent: &FlatExpr) -> Result<FlatExpr, NoMemory>
    ensures { IfOk result (λ made. made ≡ raised base.now (minus exponent.now one)) }
{
    let (base, lower) = both(base.copy(alloc), one_less(alloc, exponent))?;
    power(alloc, base, lower)
}

/// `b*a^(b - 1)*D(a)`, where D(a) is `slope`.
fn slope_by_base(
    alloc: Global,
    base: &FlatExpr,
    slope: FlatExpr,
    exponent: &FlatExpr,
) -> Result<FlatExpr, NoMemory>
    ensures { IfOk result (λ made. made ≡ base_term (base.now, slope) exponent.now) }
{
    let factors = both(exponent.copy(alloc), lowered(alloc, base, exponent));
    let ((exponent, lower), slope) = both(factors, Ok(slope))?;
    product_of_three(alloc, exponent, lower, slope)
}

/// `log(a)`
fn logarithm(alloc: Global, base: &FlatExpr) -> Result<FlatExpr, NoMemory>
    ensures { IfOk result (λ made. made ≡ applied LOG base.now) }
{
    call(alloc, LOG, base.copy(alloc)?)
}

/// `a^b`
fn power_of(alloc: Global, base: &FlatExpr, exponent: &FlatExpr) -> Result<FlatExpr, NoMemory>
    ensures { IfOk result (λ made. made ≡ raised base.now exponent.now) }
{
    let (base, exponent) = both(base.copy(alloc), exponent.copy(alloc))?;
    power(alloc, base, exponent)
}

/// `a^b*log(a)*D(b)`, where D(b) is `slope`.
fn slope_by_exponent(
    alloc: Global,
    base: &FlatExpr,
    exponent: &FlatExpr,
    slope: FlatExpr,
) -> Result<FlatExpr, NoMemory>
    ensures { IfOk result (λ made. made ≡ exponent_term base.now (exponent.now, slope)) }
{
    let factors = both(power_of(alloc, base, exponent), logarithm(alloc, base));
    let ((whole, logarithm), slope) = both(factors, Ok(slope))?;
    product_of_three(alloc, whole, logarithm, slope)
}

/// `b*a^(b - 1)*D(a) + a^b*log(a)*D(b)`, where the derivatives of a and b are `p` and `q`.
fn slope_by_both(
    alloc: Global,
    base: &FlatExpr,
    p: FlatExpr,
    exponent: &FlatExpr,
    q: FlatExpr,
) -> Result<FlatExpr, NoMemory>
    ensures { IfOk result (λ made. made ≡ plus (base_term (base.now, p) exponent.now) (exponent_term base.now (exponent.now, q))) }
{
    let (by_base, by_exponent) = both(
        slope_by_base(alloc, base, p, exponent),
        slope_by_exponent(alloc, base, exponent, q),
    )?;
    sum(alloc, by_base, by_exponent)
}

/// The Integer literal above the least 64-bit number that an expression is, if it is one.
pub(crate) fn literal(e: &FlatExpr) -> Option<i64>
    ensures literal { result ≡ literal_at (out-FlatExpr e.now) }
    ensures above { IfSome result (λ n. int_lt least n ≡ true) }
{
    match e {
        FlatExpr::Whole(n) if *n > i64::MIN => Some(*n),
        _ => None,
    }
}

/// The derivative of a power that is not still and has no such literal as its exponent, where those of its base and exponent
/// are `p` and `q`.
fn slope_of_general_power(
    alloc: Global,
    base: &FlatExpr,
    p: FlatExpr,
    base_stays: bool,
    exponent: &FlatExpr,
    q: FlatExpr,
    exponent_stays: bool,
) -> Result<FlatExpr, NoMemory>
    ensures { IfOk result (λ made. (vars : List FlatVar) → is_still vars base.now ≡ base_stays → is_still vars exponent.now ≡ exponent_stays → made ≡ general_power vars (base.now, p) (exponent.now, q)) }
{
    if exponent_stays {
        return slope_by_base(alloc, base, p, exponent);
    }
    if base_stays {
        return slope_by_exponent(alloc, base, exponent, q);
    }
    slope_by_both(alloc, base, p, exponent, q)
}

/// The derivative of a power that is not still, where those of its base and exponent are `p` and `q`, and it is known whether
/// these are still.
pub(crate) fn slope_of_power(
    alloc: Global,
    base: &FlatExpr,
    p: FlatExpr,
    base_stays: bool,
    exponent: &FlatExpr,
    q: FlatExpr,
    exponent_stays: bool,
) -> Result<FlatExpr, NoMemory>
    ensures { IfOk result (λ made. (vars : List FlatVar) → is_still vars base.now ≡ base_stays → is_still vars exponent.now ≡ exponent_stays → made ≡ power_slope vars (base.now, p) (exponent.now, q)) }
{
    match literal(exponent) {
        Some(n) => slope_of_literal_power(alloc, base, p, n),
        None => { slope_of_general_power(alloc, base, p, base_stays, exponent, q, exponent_stays) }
    }
}
