//! Operations on the answers of a walk: an operand that halts halts its operation.
ghost use Rattle.std.specs.Prelude.{[], ◌∷◌, Ok};
ghost use Rattle.mo_syntax.specs.Outcome.{Outcome, and_then};
ghost use Rattle.mo_values.specs.declared.value.Reckoned.{Reckoned};
ghost use Rattle.mo_values.specs.declared.value.Reckoned.TheVariants.{Unknown};
ghost use Rattle.mo_values.specs.Scalars.{Known, settled, of_known, negated, absolute_of, sum_with, product_with, related, lesser_of, greater_of, read_all};
ghost use Rattle.mo_values.specs.Walk.{read_as, both, on_both};
ghost use Rattle.mo_values.specs.Told.{Reads, Tells};
ghost use Rattle.mo_values.specs.steps.Chains.{gathering};

use crate::halt::Halt;
use crate::value::{Reckoned, Scalar};
use crate::{operations, relations};
use mo_syntax::{Broken, Kind, Place, RelOp};

/// What is known of an element.
pub type Answer = Result<Option<Scalar>, Halt>;

/// What an operation gives.
pub(crate) type Given = Result<Reckoned, Halt>;

/// What is read of a variable as an answer.
pub fn answer(told: Result<Option<Scalar>, Broken>) -> Answer
    ensures { (read : Reads) → Tells read result told }
{
    match told {
        Ok(known) => Ok(known),
        Err(broken) => Err(Halt::Broken(broken)),
    }
}

/// The result of an operation of that kind at its place.
pub(crate) fn settle(place: Place, kind: Kind, given: Given) -> Answer
    ensures { (read : Reads) → (told : Outcome Reckoned) → Tells read given told → Tells read result (and_then told (settled place kind)) }
{
    let reckoned = given?;
    answer(operations::settled(place, kind, reckoned))
}

/// What is known as the result of an operation.
pub(crate) fn reckon(operand: Answer) -> Given
    ensures { (read : Reads) → (told : Outcome Known) → Tells read operand told → Tells read result (read_as of_known told) }
{
    let known = operand?;
    Ok(operations::of_known(known))
}

/// `not`.
pub(crate) fn negate(operand: Answer) -> Given
    ensures { (read : Reads) → (told : Outcome Known) → Tells read operand told → Tells read result (read_as (λ known. of_known (negated known)) told) }
{
    let known = operand?;
    Ok(operations::of_known(relations::negated(known)))
}

/// `abs`.
pub(crate) fn absolute(operand: Answer) -> Given
    ensures { (read : Reads) → (told : Outcome Known) → Tells read operand told → Tells read result (read_as absolute_of told) }
{
    let known = operand?;
    Ok(operations::absolute_of(known))
}

/// An operation that is undecided whatever its operand has.
pub(crate) fn undecided(operand: Answer) -> Given
    ensures { (read : Reads) → (told : Outcome Known) → Tells read operand told → Tells read result (and_then told (λ known. Ok Unknown)) }
{
    operand?;
    Ok(Reckoned::Unknown)
}

/// One more operand of an operation that is undecided whatever they have.
pub(crate) fn read_also(first: Answer, second: Answer) -> Answer
    ensures { (read : Reads) → (a b : Outcome Known) → Tells read first a → Tells read second b → Tells read result (read_all (a ∷ b ∷ [])) }
{
    first?;
    second?;
    Ok(None)
}

/// A sum so far with one more term.
pub(crate) fn sum(minus: bool, so_far: Given, term: Given) -> Given
    ensures { (read : Reads) → (a b : Outcome Reckoned) → Tells read so_far a → Tells read term b → Tells read result (both (sum_with minus) a b) }
{
    let m = so_far?;
    let n = term?;
    Ok(operations::sum_with(minus, m, n))
}

/// A product so far with one more factor.
pub(crate) fn product(divide: bool, so_far: Given, factor: Given) -> Given
    ensures { (read : Reads) → (a b : Outcome Reckoned) → Tells read so_far a → Tells read factor b → Tells read result (both (product_with divide) a b) }
{
    let m = so_far?;
    let n = factor?;
    Ok(operations::product_with(divide, m, n))
}

/// A sum or a product of elements so far.
#[derive(Clone, Copy)]
pub(crate) struct Gathering {
    pub(crate) multiplies: bool,
    pub(crate) so_far: Given,
}

/// A sum or a product of elements so far with one more.
pub(crate) fn gather(before: Gathering, element: Given) -> Given
    ensures { (read : Reads) → (a b : Outcome Reckoned) → Tells read before.so_far a → Tells read element b → Tells read result (both (gathering before.multiplies) a b) }
{
    if before.multiplies {
        product(false, before.so_far, element)
    } else {
        sum(false, before.so_far, element)
    }
}

/// A relation.
pub(crate) fn relate(op: RelOp, left: Answer, right: Answer) -> Given
    ensures { (read : Reads) → (a b : Outcome Known) → Tells read left a → Tells read right b → Tells read result (on_both (related op) a b) }
{
    let m = left?;
    let n = right?;
    Ok(operations::of_known(relations::related(op, m, n)))
}

/// `min`.
pub(crate) fn lesser(left: Answer, right: Answer) -> Given
    ensures { (read : Reads) → (a b : Outcome Known) → Tells read left a → Tells read right b → Tells read result (on_both lesser_of a b) }
{
    let m = left?;
    let n = right?;
    Ok(operations::of_known(operations::lesser_of(m, n)))
}

/// `max`.
pub(crate) fn greater(left: Answer, right: Answer) -> Given
    ensures { (read : Reads) → (a b : Outcome Known) → Tells read left a → Tells read right b → Tells read result (on_both greater_of a b) }
{
    let m = left?;
    let n = right?;
    Ok(operations::of_known(operations::greater_of(m, n)))
}
