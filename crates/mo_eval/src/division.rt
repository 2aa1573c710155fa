//! `div`, `mod` and `rem`.
ghost use Rattle.std.specs.Prelude.{◌≡◌, ◌+◌, ◌∷◌, [], IfOk, Ok, Some, List as Seq};
ghost use Rattle.mo_scope.specs.Worlds.{World, Grows, IsFrame, frames_of};
ghost use Rattle.mo_typing.specs.Outcome.{Gives};
ghost use Rattle.mo_eval.specs.Keeping.{IsKept};
ghost use Rattle.mo_eval.specs.Virtuals.{Division};
ghost use Rattle.mo_eval.specs.Contexts.{Part as PartOf};
ghost use Rattle.mo_eval.specs.Calls.{known_of_operands, value_of_division, division_variable, made_division};
ghost use Rattle.mo_eval.specs.Seen.{AreThere, virtuals_seen, virtuals_at};
ghost use Rattle.mo_eval.specs.steps.Dividing.{variable_of};
ghost use Rattle.mo_eval.specs.steps.Sites.{plain_in, elements_in, IsMade};

use crate::calls::arguments;
use crate::reader::Reader;
use crate::resolve::Site;
use crate::variables::known_in;
use crate::virtuals::Virtual;
use mo_flat::{ArrayExpr, ArrayNode};
use mo_scope::Scopes;
use mo_syntax::{Arg, Broken, Kind, List, NoMemory, Place, Stop, broken, rules};
use mo_values::Scalar;
use mo_values::layers::answer;
use mo_values::making::known_number;
use mo_values::operands::{checked_operands, two_operands};
use std::alloc::Global;

/// A call: where it stands, and its function.
#[derive(Clone, Copy)]
pub(crate) struct Called {
    pub(crate) place: Place,
    pub(crate) function: u16,
}

/// What a call has by its operands, where so many references may still be read.
#[cycle(resolving)]
fn value_of<'t>(
    reader: &mut Reader<'t>,
    s: &mut Scopes<'t>,
    left: u64,
    called: Called,
    operands: &[ArrayExpr],
    virtuals: &[Virtual<'t>],
) -> Result<Option<Scalar>, Stop>
    requires there { AreThere s.old virtuals.now }
    requires kept { IsKept s.old reader.old }
    ensures grows { Grows s.old s.new }
    ensures kept { IsKept s.new reader.new }
    ensures exact { Gives result (known_of_operands (elements_in s.old left) called.place called.function operands.now (virtuals_at s.old virtuals.now)) }
{
    let Some((a, b)) = two_operands(operands) else {
        return Err(Stop::Broken(broken(rules::WRONG_TYPE, called.place)));
    };
    let m = known_in(reader, s, left, a, &[], virtuals)?;
    let n = known_in(reader, s, left, b, &[], virtuals)?;
    answer(mo_values::division(called.place, called.function, m, n))
}

/// The value of a call in the flat model.
#[cycle(resolving)]
fn in_flat<'t>(
    reader: &mut Reader<'t>,
    s: &mut Scopes<'t>,
    site: &Site,
    called: Called,
    args: &[Arg],
) -> Result<ArrayNode, Stop>
    requires frame { IsFrame s.old site.now.at.now.frame.0 }
    requires kept { IsKept s.old reader.old }
    ensures grows { Grows s.old s.new }
    ensures kept { IsKept s.new reader.new }
    ensures exact { (parts : Seq PartOf) → plain_in s.old site.now args.now ≡ Some parts → Gives result (value_of_division (elements_in s.old site.now.left) site.now.context called.place called.function parts) }
{
    let inner = Site {
        at: site.at,
        left: site.left,
        room: site.room,
        context: site.context.read_in(),
    };
    let mut virtuals = List::new(reader.alloc);
    let operands = arguments(reader, s, &inner, args, &mut virtuals)?;
    checked_operands(reader.alloc, called.place, operands.as_slice())?;
    let known = value_of(
        reader,
        s,
        site.left,
        called,
        operands.as_slice(),
        virtuals.as_slice(),
    )?;
    answer(known_number(called.place, known))
}

/// The list of the number of one more variable. `NoMemory` is the only other answer.
fn next_number(alloc: Global, count: usize) -> Result<List<u32>, NoMemory>
    ensures { IfOk result (λ made. made ≡ (count + 1) ∷ []) }
{
    let mut made = List::new(alloc);
    if count >= 4294967295 {
        return Err(NoMemory);
    }
    made.push(count as u32 + 1)?;
    Ok(made)
}

/// The variable of a call by its operands.
fn variable_of<'t>(called: Called, operands: List<ArrayExpr>) -> Result<Virtual<'t>, Broken>
    ensures { result ≡ variable_of called.place called.function operands }
{
    let mut operands = operands;
    if operands.len() != 2 {
        return Err(broken(rules::WRONG_TYPE, called.place));
    }
    match operands.pop() {
        None => Err(broken(rules::WRONG_TYPE, called.place)),
        Some(right) => match operands.pop() {
            None => Err(broken(rules::WRONG_TYPE, called.place)),
            Some(left) => Ok(Virtual::Division {
                place: called.place,
                function: called.function,
                left,
                right,
            }),
        },
    }
}

/// A variable for a call, put behind those of its operands.
fn put<'t>(
    alloc: Global,
    called: Called,
    operands: List<ArrayExpr>,
    virtuals: &mut List<Virtual<'t>>,
) -> Result<ArrayNode, Stop>
    ensures there { (world : World) → AreThere world virtuals.old → AreThere world virtuals.new }
    ensures exact { (world : World) → IsMade world result virtuals.new (division_variable called.place called.function operands (virtuals_seen (frames_of world) virtuals.old)) }
{
    let it = answer(variable_of(called, operands))?;
    let count = virtuals.len();
    virtuals.push(it)?;
    let vars = next_number(alloc, count)?;
    Ok(ArrayNode::Vars {
        vars,
        kind: Kind::Whole,
        dims: List::new(alloc),
        subs: List::new(alloc),
    })
}

/// A call of `div`, `mod` or `rem`: in the flat model its value, elsewhere a variable.
#[cycle(resolving)]
pub(crate) fn division<'t>(
    reader: &mut Reader<'t>,
    s: &mut Scopes<'t>,
    site: &Site,
    called: Called,
    args: &[Arg],
    virtuals: &mut List<Virtual<'t>>,
) -> Result<ArrayNode, Stop>
    requires frame { IsFrame s.old site.now.at.now.frame.0 }
    requires there { AreThere s.old virtuals.old }
    requires kept { IsKept s.old reader.old }
    ensures grows { Grows s.old s.new }
    ensures kept { IsKept s.new reader.new }
    ensures there { AreThere s.new virtuals.new }
    ensures exact { (parts : Seq PartOf) → plain_in s.old site.now args.now ≡ Some parts → IsMade s.new result virtuals.new (made_division (elements_in s.old site.now.left) site.now.context called.place called.function parts (virtuals_at s.old virtuals.old)) }
{
    if site.context.flat {
        return in_flat(reader, s, site, called, args);
    }
    let inner = Site {
        at: site.at,
        left: site.left,
        room: site.room,
        context: site.context.read_in(),
    };
    let operands = arguments(reader, s, &inner, args, virtuals)?;
    checked_operands(reader.alloc, called.place, operands.as_slice())?;
    put(reader.alloc, called, operands, virtuals)
}
