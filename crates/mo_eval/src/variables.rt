//! What is known of a resolved expression, its variables being read where they are needed.
ghost use Rattle.std.specs.Prelude.{◌≡◌, ◌-◌, ◌||◌, IfOk, Some, slice_get};
ghost use Rattle.mo_scope.specs.Worlds.{Grows};
ghost use Rattle.mo_names.specs.Sights.{IsMember};
ghost use Rattle.mo_syntax.specs.Outcome.{Outcome};
ghost use Rattle.mo_typing.specs.Outcome.{Gives};
ghost use Rattle.mo_eval.specs.Keeping.{IsKept};
ghost use Rattle.mo_values.specs.Scalars.{has_values};
ghost use Rattle.mo_eval.specs.References.{is_replaced};
ghost use Rattle.mo_values.specs.Walk.{known_by};
ghost use Rattle.mo_eval.specs.Virtuals.{known_of_virtuals};
ghost use Rattle.mo_values.specs.Told.{AreRead};
ghost use Rattle.mo_eval.specs.Seen.{AreThere, element_at, virtuals_at};
ghost use Rattle.mo_eval.specs.Sequence.{IsElement};
ghost use Rattle.mo_eval.specs.steps.Sites.{elements_in, variables_in};

use crate::ahead::{Ahead, next_step};
use crate::components::element_value;
use crate::kept::{heed, keep_value, value_kept};
use crate::reader::Reader;
use crate::reading::{Step, mark, unread};
use crate::virtuals::{Element, Virtual};
use mo_flat::ArrayExpr;
use mo_scope::Scopes;
use mo_syntax::{Broken, NoMemory, Stop, broken, rules};
use mo_values::{Scalar, Told, has_values};

/// Whether an element is a constant that is replaced: it has no instance.
pub(crate) fn is_replaced<'t>(s: &Scopes<'t>, element: &Element<'t>) -> bool
    requires { IsMember s.now element.now.member }
    ensures { result ≡ is_replaced (element_at s.now element.now) }
{
    element.constant && s.path(element.member.home).is_none()
}

/// Whether an element is read.
fn is_read<'t>(s: &Scopes<'t>, element: &Element<'t>) -> bool
    requires { IsMember s.now element.now.member }
    ensures { result ≡ (has_values element.now.kind || is_replaced (element_at s.now element.now)) }
{
    has_values(element.kind) || is_replaced(s, element)
}

/// What an element has, where so many references may still be read. Of a kind without values only a constant that is replaced is
/// read.
#[cycle(resolving)]
fn element_known<'t>(
    reader: &mut Reader<'t>,
    s: &mut Scopes<'t>,
    left: u64,
    element: &Element<'t>,
) -> Result<Option<Scalar>, Stop>
    requires member { IsMember s.old element.now.member }
    requires kept { IsKept s.old reader.old }
    ensures grows { Grows s.old s.new }
    ensures kept { IsKept s.new reader.new }
    ensures exact { Gives result (elements_in s.old left (element_at s.old element.now)) }
{
    if !is_read(s, element) {
        return Ok(None);
    }
    if left == 0 {
        return Err(Stop::Broken(broken(rules::REFERENCE_CHAIN_TOO_LONG, element.place)));
    }
    if let Some(known) = value_kept(reader, left - 1, element) {
        return Ok(known);
    }
    let known = element_value(reader, s, left - 1, element)?;
    keep_value(reader, left - 1, element, known)?;
    Ok(known)
}

/// An answer as an outcome.
fn outcome_of<T: Drop>(answer: Result<T, Stop>) -> Result<Result<T, Broken>, NoMemory>
    ensures { IfOk result (λ outcome. (told : Outcome T) → Gives answer told → told ≡ outcome) }
{
    match answer {
        Ok(value) => Ok(Ok(value)),
        Err(Stop::Broken(broken)) => Ok(Err(broken)),
        Err(Stop::NoMemory) => Err(NoMemory),
    }
}

/// What the variable of that number has, an element of a component. `NoMemory` is the only other answer.
#[cycle(resolving)]
fn variable_known<'t>(
    reader: &mut Reader<'t>,
    s: &mut Scopes<'t>,
    left: u64,
    virtuals: &[Virtual<'t>],
    n: u32,
) -> Result<Result<Option<Scalar>, Broken>, NoMemory>
    requires there { AreThere s.old virtuals.now }
    requires element { IsElement (virtuals_at s.old virtuals.now) n }
    requires kept { IsKept s.old reader.old }
    ensures grows { Grows s.old s.new }
    ensures kept { IsKept s.new reader.new }
    ensures exact { IfOk result (λ outcome. slice_get (known_of_virtuals (elements_in s.old left) (virtuals_at s.old virtuals.now)) (n - 1) ≡ Some outcome) }
{
    match virtuals.get(n.saturating_sub(1) as usize) {
        Some(Virtual::Component(element)) => outcome_of(element_known(reader, s, left, element)),
        Some(Virtual::Division { .. }) => Err(NoMemory),
        None => Err(NoMemory),
    }
}

/// What is known of an element of a resolved expression, where so many references may still be read and so much of its variables is
/// read; what is read on the way is put down.
#[cycle(resolving)]
pub(crate) fn known_with<'t>(
    reader: &mut Reader<'t>,
    s: &mut Scopes<'t>,
    left: u64,
    e: &ArrayExpr,
    index: &[u32],
    virtuals: &[Virtual<'t>],
    reads: &mut Vec<Told>,
) -> Result<Option<Scalar>, Stop>
    requires there { AreThere s.old virtuals.now }
    requires read { AreRead reads.old.items (variables_in s.old left virtuals.now) }
    requires kept { IsKept s.old reader.old }
    ensures grows { Grows s.old s.new }
    ensures kept { IsKept s.new reader.new }
    ensures read { AreRead reads.new.items (variables_in s.old left virtuals.now) }
    ensures exact { Gives result (known_by (variables_in s.old left virtuals.now) e.now index.now) }
{
    let mut ahead = Ahead::nothing();
    'reading: loop {
        match next_step(reader, e, index, virtuals, reads, &mut ahead)? {
            Step::Known(known) => return Ok(known),
            Step::Read(n) => {
                let outcome = variable_known(reader, s, left, virtuals, n)?;
                heed(reader, &outcome);
                mark(reads, n, outcome);
            }
            Step::Divided(n, outcome) => mark(reads, n, outcome),
        }
    }
}

/// What is known of an element of a resolved expression, where so many references may still be read.
#[cycle(resolving)]
pub(crate) fn known_in<'t>(
    reader: &mut Reader<'t>,
    s: &mut Scopes<'t>,
    left: u64,
    e: &ArrayExpr,
    index: &[u32],
    virtuals: &[Virtual<'t>],
) -> Result<Option<Scalar>, Stop>
    requires there { AreThere s.old virtuals.now }
    requires kept { IsKept s.old reader.old }
    ensures grows { Grows s.old s.new }
    ensures kept { IsKept s.new reader.new }
    ensures exact { Gives result (known_by (variables_in s.old left virtuals.now) e.now index.now) }
{
    let mut reads = unread(reader.alloc, virtuals.len())?;
    known_with(reader, s, left, e, index, virtuals, &mut reads)
}
