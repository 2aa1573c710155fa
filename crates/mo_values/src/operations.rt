//! Operations on what is known of scalars.
ghost use Rattle.std.specs.Prelude.{◌≡◌};
ghost use Rattle.mo_values.specs.Scalars.{has_values, if_it_has, value_with, of_known, of_number, known_from, settled, no_result, sum_with, product_with, absolute_of, lesser_of, greater_of, divided_by, division};

use crate::arithmetic;
use crate::value::{Reckoned, Scalar, Value};
use mo_syntax::{Broken, Kind, Place, broken, rules};
use mo_tables::functions;

/// Whether expressions of that kind have values.
pub fn has_values(kind: Kind) -> bool
    ensures exact { result ≡ has_values kind }
{
    match kind {
        Kind::Real => false,
        Kind::Str => false,
        Kind::Whole => true,
        Kind::Truth => true,
        Kind::Enumeration(_) => true,
    }
}

pub fn if_it_has(kind: Kind, known: Option<Scalar>) -> Option<Scalar>
    ensures exact { result ≡ if_it_has kind known }
{
    if has_values(kind) { known } else { None }
}

/// What is known of an expression of that kind.
pub fn value_with(kind: Kind, known: Option<Scalar>) -> Value
    ensures exact { result ≡ value_with kind known }
{
    match known {
        None => Value::Undecided(kind),
        Some(Scalar::Whole(n)) => Value::Whole(n),
        Some(Scalar::Truth(b)) => Value::Truth(b),
        Some(Scalar::Literal(class, place)) => Value::Literal(class, place),
    }
}

pub(crate) fn of_known(known: Option<Scalar>) -> Reckoned
    ensures exact { result ≡ of_known known }
{
    match known {
        None => Reckoned::Unknown,
        Some(scalar) => Reckoned::Is(scalar),
    }
}

fn of_number(number: Option<i64>) -> Reckoned
    ensures exact { result ≡ of_number number }
{
    match number {
        None => Reckoned::Outside,
        Some(n) => Reckoned::Is(Scalar::Whole(n)),
    }
}

fn known_from(place: Place, reckoned: Reckoned) -> Result<Option<Scalar>, Broken>
    ensures exact { result ≡ known_from place reckoned }
{
    match reckoned {
        Reckoned::Unknown => Ok(None),
        Reckoned::Outside => Err(broken(rules::INTEGER_ARITHMETIC, place)),
        Reckoned::Is(scalar) => Ok(Some(scalar)),
    }
}

/// The result of an operation of that kind at its place.
pub(crate) fn settled(
    place: Place,
    kind: Kind,
    reckoned: Reckoned,
) -> Result<Option<Scalar>, Broken>
    ensures exact { result ≡ settled place kind reckoned }
{
    if has_values(kind) {
        known_from(place, reckoned)
    } else {
        Ok(None)
    }
}

fn no_result(a: Reckoned, b: Reckoned) -> Reckoned
    ensures exact { result ≡ no_result a b }
{
    match a {
        Reckoned::Unknown => Reckoned::Unknown,
        Reckoned::Outside => match b {
            Reckoned::Unknown => Reckoned::Unknown,
            Reckoned::Outside => Reckoned::Outside,
            Reckoned::Is(_) => Reckoned::Outside,
        },
        Reckoned::Is(_) => match b {
            Reckoned::Unknown => Reckoned::Unknown,
            Reckoned::Outside => Reckoned::Outside,
            Reckoned::Is(_) => Reckoned::Unknown,
        },
    }
}

/// A sum so far with one more term.
pub(crate) fn sum_with(minus: bool, a: Reckoned, b: Reckoned) -> Reckoned
    ensures exact { result ≡ sum_with minus a b }
{
    if let Reckoned::Is(Scalar::Whole(m)) = a {
        if let Reckoned::Is(Scalar::Whole(n)) = b {
            return of_number(arithmetic::added(minus, m, n));
        }
    }
    no_result(a, b)
}

/// A product so far with one more factor.
pub(crate) fn product_with(divide: bool, a: Reckoned, b: Reckoned) -> Reckoned
    ensures exact { result ≡ product_with divide a b }
{
    if divide {
        return Reckoned::Unknown;
    }
    if let Reckoned::Is(Scalar::Whole(m)) = a {
        if let Reckoned::Is(Scalar::Whole(n)) = b {
            return of_number(arithmetic::multiplied(m, n));
        }
    }
    no_result(a, b)
}

/// `abs`.
pub(crate) fn absolute_of(known: Option<Scalar>) -> Reckoned
    ensures exact { result ≡ absolute_of known }
{
    match known {
        Some(Scalar::Whole(n)) => of_number(arithmetic::absolute(n)),
        Some(Scalar::Truth(_)) => Reckoned::Unknown,
        Some(Scalar::Literal(_, _)) => Reckoned::Unknown,
        None => Reckoned::Unknown,
    }
}

/// `min`.
pub(crate) fn lesser_of(a: Option<Scalar>, b: Option<Scalar>) -> Option<Scalar>
    ensures exact { result ≡ lesser_of a b }
{
    if let Some(Scalar::Whole(m)) = a {
        if let Some(Scalar::Whole(n)) = b {
            return Some(Scalar::Whole(arithmetic::lesser(m, n)));
        }
    }
    None
}

/// `max`.
pub(crate) fn greater_of(a: Option<Scalar>, b: Option<Scalar>) -> Option<Scalar>
    ensures exact { result ≡ greater_of a b }
{
    if let Some(Scalar::Whole(m)) = a {
        if let Some(Scalar::Whole(n)) = b {
            return Some(Scalar::Whole(arithmetic::greater(m, n)));
        }
    }
    None
}

fn divided_by(function: u16, a: i64, b: i64) -> Option<i64>
    ensures exact { result ≡ divided_by function a b }
{
    if function == functions::DIV {
        arithmetic::quotient(a, b)
    } else if function == functions::MOD {
        arithmetic::modulo(a, b)
    } else {
        arithmetic::remainder(a, b)
    }
}

/// A call of `div`, `mod` or `rem` by its number.
pub fn division(
    place: Place,
    function: u16,
    a: Option<Scalar>,
    b: Option<Scalar>,
) -> Result<Option<Scalar>, Broken>
    ensures exact { result ≡ division place function a b }
{
    if let Some(Scalar::Whole(m)) = a {
        if let Some(Scalar::Whole(n)) = b {
            return known_from(place, of_number(divided_by(function, m, n)));
        }
    }
    Ok(None)
}
