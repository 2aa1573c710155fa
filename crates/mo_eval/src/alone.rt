//! Expressions that are resolved by themselves and read for their values.
ghost use Rattle.std.specs.Prelude.{◌≤◌, ℤ, IfOk, Ok};
ghost use Rattle.mo_scope.specs.Outcome.{Gives as GivesSeen};
ghost use Rattle.mo_scope.specs.Worlds.{Grows, IsFrame};
ghost use Rattle.mo_syntax.specs.Outcome.{Outcome, and_then};
ghost use Rattle.mo_typing.specs.Outcome.{Gives};
ghost use Rattle.mo_eval.specs.Keeping.{IsKept};
ghost use Rattle.mo_eval.specs.Contexts.{alone, whole_of, truth_of};
ghost use Rattle.mo_eval.specs.Resolving.{read_end};
ghost use Rattle.mo_eval.specs.Calls.{read_size};
ghost use Rattle.mo_eval.specs.Seen.{AreThere, resolved_at};
ghost use Rattle.mo_eval.specs.steps.Sites.{part_in, elements_in};
ghost use Rattle.mo_eval.specs.steps.Asking.{end_in};
ghost use Rattle.mo_eval.specs.steps.Choosing.{read_condition};

use crate::reader::Reader;
use crate::resolve::{Site, resolve};
use crate::variables::known_in;
use crate::virtuals::Resolved;
use mo_scope::Scopes;
use mo_syntax::{Expr, List, Place, Stop, rules};
use mo_values::Scalar;
use mo_values::layers::{answer, must_be_whole, truth_scalar, whole_scalar};

/// An expression with its own virtual variables.
#[cycle(resolving)]
pub(crate) fn alone<'t>(
    reader: &mut Reader<'t>,
    s: &mut Scopes<'t>,
    site: &Site,
    e: &Expr,
) -> Result<Resolved<'t>, Stop>
    requires frame { IsFrame s.old site.now.at.now.frame.0 }
    requires kept { IsKept s.old reader.old }
    ensures grows { Grows s.old s.new }
    ensures kept { IsKept s.new reader.new }
    ensures there { IfOk result (λ resolved. AreThere s.new resolved.virtuals) }
    ensures exact { GivesSeen (resolved_at s.new) result (alone (part_in s.old site.now e.now) site.now.context) }
{
    let mut virtuals = List::new(reader.alloc);
    let expression = resolve(reader, s, site, e, &mut virtuals)?;
    Ok(Resolved {
        expression,
        virtuals,
    })
}

/// What a scalar Integer has, decided or not.
#[cycle(resolving)]
fn end_of<'t>(
    reader: &mut Reader<'t>,
    s: &mut Scopes<'t>,
    left: u64,
    place: Place,
    resolved: &Resolved<'t>,
) -> Result<Option<Scalar>, Stop>
    requires there { AreThere s.old resolved.now.virtuals }
    requires kept { IsKept s.old reader.old }
    ensures grows { Grows s.old s.new }
    ensures kept { IsKept s.new reader.new }
    ensures exact { Gives result (end_in (elements_in s.old left) place (resolved_at s.old resolved.now)) }
{
    whole_scalar(reader.alloc, place, &resolved.expression)?;
    known_in(
        reader,
        s,
        left,
        &resolved.expression,
        &[],
        resolved.virtuals.as_slice(),
    )
}

/// The value of a scalar Integer.
#[cycle(resolving)]
pub(crate) fn whole_of<'t>(
    reader: &mut Reader<'t>,
    s: &mut Scopes<'t>,
    left: u64,
    place: Place,
    resolved: &Resolved<'t>,
) -> Result<i64, Stop>
    requires there { AreThere s.old resolved.now.virtuals }
    requires kept { IsKept s.old reader.old }
    ensures grows { Grows s.old s.new }
    ensures kept { IsKept s.new reader.new }
    ensures exact { Gives result (whole_of (elements_in s.old left) place (resolved_at s.old resolved.now)) }
{
    let known = end_of(reader, s, left, place, resolved)?;
    answer(must_be_whole(place, known))
}

/// What a scalar Boolean has, decided or not; another kind breaks this rule.
#[cycle(resolving)]
pub(crate) fn truth_of<'t>(
    reader: &mut Reader<'t>,
    s: &mut Scopes<'t>,
    left: u64,
    rule: u8,
    place: Place,
    resolved: &Resolved<'t>,
) -> Result<Option<Scalar>, Stop>
    requires low { 1 ≤ rule }
    requires high { rule ≤ 46 }
    requires there { AreThere s.old resolved.now.virtuals }
    requires kept { IsKept s.old reader.old }
    ensures grows { Grows s.old s.new }
    ensures kept { IsKept s.new reader.new }
    ensures exact { Gives result (truth_of (elements_in s.old left) rule place (resolved_at s.old resolved.now)) }
{
    truth_scalar(reader.alloc, rule, place, &resolved.expression)?;
    known_in(
        reader,
        s,
        left,
        &resolved.expression,
        &[],
        resolved.virtuals.as_slice(),
    )
}

/// An end or the step of a range, decided or not.
#[cycle(resolving)]
pub(crate) fn read_end<'t>(
    reader: &mut Reader<'t>,
    s: &mut Scopes<'t>,
    site: &Site,
    e: &Expr,
) -> Result<Option<Scalar>, Stop>
    requires frame { IsFrame s.old site.now.at.now.frame.0 }
    requires kept { IsKept s.old reader.old }
    ensures grows { Grows s.old s.new }
    ensures kept { IsKept s.new reader.new }
    ensures exact { Gives result (read_end (elements_in s.old site.now.left) site.now.context (part_in s.old site.now e.now)) }
{
    let inner = Site {
        at: site.at,
        left: site.left,
        room: site.room,
        context: site.context.read_in(),
    };
    let resolved = alone(reader, s, &inner, e)?;
    end_of(reader, s, site.left, e.place, &resolved)
}

/// A number with its place.
fn with_place(place: Place, n: Result<i64, Stop>) -> Result<(Place, i64), Stop>
    ensures { (told : Outcome ℤ) → Gives n told → Gives result (and_then told (λ n. Ok (place, n))) }
{
    let n = n?;
    Ok((place, n))
}

/// A size or the number of a dimension, with its place.
#[cycle(resolving)]
pub(crate) fn read_size<'t>(
    reader: &mut Reader<'t>,
    s: &mut Scopes<'t>,
    site: &Site,
    e: &Expr,
) -> Result<(Place, i64), Stop>
    requires frame { IsFrame s.old site.now.at.now.frame.0 }
    requires kept { IsKept s.old reader.old }
    ensures grows { Grows s.old s.new }
    ensures kept { IsKept s.new reader.new }
    ensures exact { Gives result (read_size (elements_in s.old site.now.left) site.now.context (part_in s.old site.now e.now)) }
{
    let inner = Site {
        at: site.at,
        left: site.left,
        room: site.room,
        context: site.context.read_in(),
    };
    let resolved = alone(reader, s, &inner, e)?;
    with_place(e.place, whole_of(reader, s, site.left, e.place, &resolved))
}

/// The condition of a branch, decided or not.
#[cycle(resolving)]
pub(crate) fn read_condition<'t>(
    reader: &mut Reader<'t>,
    s: &mut Scopes<'t>,
    site: &Site,
    e: &Expr,
) -> Result<Option<Scalar>, Stop>
    requires frame { IsFrame s.old site.now.at.now.frame.0 }
    requires kept { IsKept s.old reader.old }
    ensures grows { Grows s.old s.new }
    ensures kept { IsKept s.new reader.new }
    ensures exact { Gives result (read_condition (elements_in s.old site.now.left) site.now.context (part_in s.old site.now e.now)) }
{
    let inner = Site {
        at: site.at,
        left: site.left,
        room: site.room,
        context: site.context.read_in(),
    };
    let resolved = alone(reader, s, &inner, e)?;
    truth_of(reader, s, site.left, rules::WRONG_TYPE, e.place, &resolved)
}
