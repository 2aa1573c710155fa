//! What the kinds of operands agree on: the kind of each operation by those of its operands, or the rule that they break at its
//! place.
ghost use Rattle.std.specs.Prelude.{◌≡◌, ◌||◌};
ghost use Rattle.mo_tables.specs.declared.functions.TheConstants.{ABS, ATAN2, CROSS, IDENTITY, MAX, MIN, NDIMS, NO_EVENT, PRODUCT, SUM, TRANSPOSE};
ghost use Rattle.mo_typing.specs.Kinds.{common, number, wider, with_number, arithmetic, is_truth, truth, with_truth, joined, settled, are_enumerations, is_accepted, accepts, relation, is_number, numeric, real_of, kept, both_numeric, call_of_one, call_of_two, takes_sizes, divided, raised};

use mo_syntax::{Broken, Kind, Place, broken, rules};
use mo_tables::functions;

/// What values have in common.
#[derive(Clone, Copy, Debug, Drop)]
pub enum Shared {
    /// No value was seen.
    Unseen,
    /// All values have this kind, or are Integers where it is Real.
    Alike(Kind),
    /// There is no one kind.
    Different,
}

/// The one kind of two values, an Integer being accepted where a Real is wanted; none where they have no kind in common.
pub fn common(a: Kind, b: Kind) -> Option<Kind>
    ensures { result ≡ common a b }
{
    match (a, b) {
        (Kind::Real, Kind::Real) => Some(Kind::Real),
        (Kind::Real, Kind::Whole) => Some(Kind::Real),
        (Kind::Whole, Kind::Real) => Some(Kind::Real),
        (Kind::Whole, Kind::Whole) => Some(Kind::Whole),
        (Kind::Truth, Kind::Truth) => Some(Kind::Truth),
        (Kind::Str, Kind::Str) => Some(Kind::Str),
        (Kind::Enumeration(c), Kind::Enumeration(d)) if c.0 == d.0 => Some(Kind::Enumeration(c)),
        _ => None,
    }
}

/// An operand of `+`, `-`, `*`, `/` or `^`: rule 39 at an enumeration value, 33 at what is no number.
pub fn number(place: Place, kind: Kind) -> Result<Kind, Broken>
    ensures { result ≡ number place kind }
{
    match kind {
        Kind::Real => Ok(Kind::Real),
        Kind::Whole => Ok(Kind::Whole),
        Kind::Enumeration(_) => Err(broken(rules::WRONG_ENUMERATION, place)),
        Kind::Truth => Err(broken(rules::WRONG_TYPE, place)),
        Kind::Str => Err(broken(rules::WRONG_TYPE, place)),
    }
}

/// Integer where both are, else Real.
pub fn wider(a: Kind, b: Kind) -> Kind
    ensures { result ≡ wider a b }
{
    match a {
        Kind::Whole => match b {
            Kind::Whole => Kind::Whole,
            Kind::Real | Kind::Truth | Kind::Str | Kind::Enumeration(_) => Kind::Real,
        },
        Kind::Real | Kind::Truth | Kind::Str | Kind::Enumeration(_) => Kind::Real,
    }
}

/// One more operand of arithmetic.
pub fn with_number(place: Place, so_far: Result<Kind, Broken>, kind: Kind) -> Result<Kind, Broken>
    ensures { result ≡ with_number place so_far kind }
{
    let a = so_far?;
    let b = number(place, kind)?;
    Ok(wider(a, b))
}

/// The kind of a sum or a product of these operands: Integer where all are Integers, else Real.
pub fn arithmetic(place: Place, kinds: &[Kind]) -> Result<Kind, Broken>
    ensures { result ≡ arithmetic place kinds.now }
{
    let mut all = Ok(Kind::Whole);
    for kind in kinds {
        all = with_number(place, all, *kind);
    }
    all
}

/// What must be Boolean: rule 33 where it is not.
pub fn truth(place: Place, kind: Kind) -> Result<Kind, Broken>
    ensures { result ≡ truth place kind }
{
    match kind {
        Kind::Truth => Ok(Kind::Truth),
        Kind::Real => Err(broken(rules::WRONG_TYPE, place)),
        Kind::Whole => Err(broken(rules::WRONG_TYPE, place)),
        Kind::Str => Err(broken(rules::WRONG_TYPE, place)),
        Kind::Enumeration(_) => Err(broken(rules::WRONG_TYPE, place)),
    }
}

/// One more operand of `and` or `or`.
pub fn with_truth(place: Place, so_far: Result<Kind, Broken>, kind: Kind) -> Result<Kind, Broken>
    ensures { result ≡ with_truth place so_far kind }
{
    so_far?;
    truth(place, kind)
}

/// One more element of an array, or value of an if-expression.
pub fn joined(so_far: Shared, kind: Kind) -> Shared
    ensures { result ≡ joined so_far kind }
{
    match so_far {
        Shared::Unseen => Shared::Alike(kind),
        Shared::Different => Shared::Different,
        Shared::Alike(a) => match common(a, kind) {
            None => Shared::Different,
            Some(b) => Shared::Alike(b),
        },
    }
}

/// The kind of all values.
pub fn settled(place: Place, so_far: Shared) -> Result<Kind, Broken>
    ensures { result ≡ settled place so_far }
{
    match so_far {
        Shared::Unseen => Ok(Kind::Real),
        Shared::Alike(kind) => Ok(kind),
        Shared::Different => Err(broken(rules::WRONG_TYPE, place)),
    }
}

fn are_enumerations(a: Kind, b: Kind) -> bool
    ensures { result ≡ are_enumerations a b }
{
    match a {
        Kind::Enumeration(_) => match b {
            Kind::Enumeration(_) => true,
            Kind::Real | Kind::Whole | Kind::Truth | Kind::Str => false,
        },
        Kind::Real | Kind::Whole | Kind::Truth | Kind::Str => false,
    }
}

fn is_accepted(want: Kind, got: Kind) -> bool
    ensures { result ≡ is_accepted want got }
{
    match (want, got) {
        (Kind::Real, Kind::Real) => true,
        (Kind::Real, Kind::Whole) => true,
        (Kind::Whole, Kind::Whole) => true,
        (Kind::Truth, Kind::Truth) => true,
        (Kind::Str, Kind::Str) => true,
        (Kind::Enumeration(a), Kind::Enumeration(b)) => a.0 == b.0,
        _ => false,
    }
}

/// Asks whether a value of a kind may stand where one kind is wanted, as in a binding: an Integer may where a Real is wanted. Rule 39 at
/// `place` where two different enumerations meet, 33 where other kinds differ. Takes no memory.
pub fn accepts(want: Kind, got: Kind, place: Place) -> Result<(), Broken>
    ensures { result ≡ accepts want got place }
{
    if is_accepted(want, got) {
        return Ok(());
    }
    if are_enumerations(want, got) {
        return Err(broken(rules::WRONG_ENUMERATION, place));
    }
    Err(broken(rules::WRONG_TYPE, place))
}

/// A relation: rule 39 between two different enumerations, 33 between other kinds that differ.
pub fn relation(place: Place, a: Kind, b: Kind) -> Result<Kind, Broken>
    ensures { result ≡ relation place a b }
{
    match common(a, b) {
        Some(_) => Ok(Kind::Truth),
        None => {
            if are_enumerations(a, b) {
                Err(broken(rules::WRONG_ENUMERATION, place))
            } else {
                Err(broken(rules::WRONG_TYPE, place))
            }
        }
    }
}

/// Whether values of a kind are numbers.
pub fn is_number(kind: Kind) -> bool
    ensures { result ≡ is_number kind }
{
    match kind {
        Kind::Real => true,
        Kind::Whole => true,
        Kind::Truth | Kind::Str | Kind::Enumeration(_) => false,
    }
}

/// Whether values of a kind are truth values.
pub fn is_truth(kind: Kind) -> bool
    ensures { result ≡ is_truth kind }
{
    match kind {
        Kind::Truth => true,
        Kind::Real | Kind::Whole | Kind::Str | Kind::Enumeration(_) => false,
    }
}

/// An argument of a function of numbers: rule 33 at what is none.
pub fn numeric(place: Place, kind: Kind) -> Result<Kind, Broken>
    ensures { result ≡ numeric place kind }
{
    if is_number(kind) {
        Ok(kind)
    } else {
        Err(broken(rules::WRONG_TYPE, place))
    }
}

/// What gives a Real of a number: rule 33 at what is none.
pub fn real_of(place: Place, kind: Kind) -> Result<Kind, Broken>
    ensures { result ≡ real_of place kind }
{
    numeric(place, kind)?;
    Ok(Kind::Real)
}

/// The argument of `noEvent`.
fn kept(place: Place, kind: Kind) -> Result<Kind, Broken>
    ensures { result ≡ kept place kind }
{
    if is_number(kind) || is_truth(kind) {
        Ok(kind)
    } else {
        Err(broken(rules::WRONG_TYPE, place))
    }
}

fn both_numeric(place: Place, a: Kind, b: Kind) -> Result<Kind, Broken>
    ensures { result ≡ both_numeric place a b }
{
    let a = numeric(place, a)?;
    let b = numeric(place, b)?;
    Ok(wider(a, b))
}

/// A call with one argument.
pub fn call_of_one(place: Place, function: u16, kind: Kind) -> Result<Kind, Broken>
    ensures { result ≡ call_of_one place function kind }
{
    match function {
        functions::NDIMS => Ok(Kind::Whole),
        functions::TRANSPOSE => Ok(kind),
        functions::NO_EVENT => kept(place, kind),
        functions::ABS | functions::PRODUCT | functions::SUM => numeric(place, kind),
        functions::ATAN2 | functions::CROSS | functions::MAX | functions::MIN => {
            Err(broken(rules::WRONG_TYPE, place))
        }
        _ => real_of(place, kind),
    }
}

/// A call with two arguments.
pub fn call_of_two(place: Place, function: u16, a: Kind, b: Kind) -> Result<Kind, Broken>
    ensures { result ≡ call_of_two place function a b }
{
    match function {
        functions::CROSS | functions::MAX | functions::MIN => both_numeric(place, a, b),
        functions::ATAN2 => {
            numeric(place, a)?;
            real_of(place, b)
        }
        _ => Err(broken(rules::WRONG_TYPE, place)),
    }
}

/// Whether a function takes so many sizes.
pub fn takes_sizes(function: u16, count: usize) -> bool
    ensures { result ≡ takes_sizes function count }
{
    if function == functions::IDENTITY {
        count == 1
    } else {
        count > 0
    }
}

/// The kind of a product, by whether it divides.
pub fn divided(divides: bool, kind: Kind) -> Kind
    ensures { result ≡ divided divides kind }
{
    if divides { Kind::Real } else { kind }
}

/// A power of two operands.
pub fn raised(place: Place, a: Kind, b: Kind) -> Result<Kind, Broken>
    ensures { result ≡ raised place a b }
{
    let base = with_number(place, Ok(Kind::Whole), a);
    with_number(place, base, b)?;
    Ok(Kind::Real)
}
