//! Ranges and if-expressions.
ghost use Rattle.std.specs.Prelude.{◌≡◌, ◌++◌, map, Ok, IfOk, OnOk, List as Seq};
ghost use Rattle.std.specs.Option.{option_map};
ghost use Rattle.mo_flat.specs.declared.array.ArrayExpr.{ArrayExpr};
ghost use Rattle.mo_scope.specs.Worlds.{World, Grows, IsFrame};
ghost use Rattle.mo_syntax.specs.Outcome.{Outcome, and_then};
ghost use Rattle.mo_typing.specs.Outcome.{Gives};
ghost use Rattle.mo_eval.specs.Keeping.{IsKept};
ghost use Rattle.mo_eval.specs.declared.choice.BranchMade.TheVariants.{Kept, Last as last_made};
ghost use Rattle.mo_eval.specs.declared.virtuals.Virtual.{Virtual as VirtualAt};
ghost use Rattle.mo_eval.specs.Virtuals.{Virtual as VirtualSeen};
ghost use Rattle.mo_eval.specs.Resolving.{made_range, read_step, made_choice};
ghost use Rattle.mo_eval.specs.Seen.{AreThere, virtuals_at};
ghost use Rattle.mo_eval.specs.steps.Sites.{part_in, elements_in, IsMade};
ghost use Rattle.mo_eval.specs.steps.Parts.{as_branch};
ghost use Rattle.mo_eval.specs.steps.Choosing.{kept_in, last_in, made_branch, truth_in};

use crate::alone::{read_condition, read_end};
use crate::reader::Reader;
use crate::resolve::{Site, operand, two};
use crate::virtuals::Virtual;
use mo_flat::{ArrayExpr, ArrayNode};
use mo_scope::Scopes;
use mo_syntax::{Branch, Expr, List, NoMemory, Place, Stop};
use mo_values::Scalar;
use mo_values::layers::answer;
use mo_values::making::range_of;

/// The step of a range, 1 where none is written.
#[cycle(resolving)]
fn read_step<'t>(
    reader: &mut Reader<'t>,
    s: &mut Scopes<'t>,
    site: &Site,
    step: &Option<Expr>,
) -> Result<Option<Scalar>, Stop>
    requires frame { IsFrame s.old site.now.at.now.frame.0 }
    requires kept { IsKept s.old reader.old }
    ensures grows { Grows s.old s.new }
    ensures kept { IsKept s.new reader.new }
    ensures exact { Gives result (read_step (elements_in s.old site.now.left) site.now.context (option_map (part_in s.old site.now) step.now)) }
{
    match step {
        None => Ok(Some(Scalar::Whole(1))),
        Some(e) => read_end(reader, s, site, e),
    }
}

/// A range, whose ends and step have values.
#[cycle(resolving)]
pub(crate) fn range<'t>(
    reader: &mut Reader<'t>,
    s: &mut Scopes<'t>,
    site: &Site,
    place: Place,
    first: &Expr,
    step: &Option<Expr>,
    last: &Expr,
) -> Result<ArrayNode, Stop>
    requires frame { IsFrame s.old site.now.at.now.frame.0 }
    requires kept { IsKept s.old reader.old }
    ensures grows { Grows s.old s.new }
    ensures kept { IsKept s.new reader.new }
    ensures exact { Gives result (made_range (elements_in s.old site.now.left) site.now.context place (part_in s.old site.now first.now) (option_map (part_in s.old site.now) step.now) (part_in s.old site.now last.now)) }
{
    let a = read_end(reader, s, site, first)?;
    let b = read_step(reader, s, site, step)?;
    let c = read_end(reader, s, site, last)?;
    answer(range_of(place, a, b, c))
}

/// What becomes of a branch.
#[derive(Drop)]
pub(crate) enum BranchMade {
    /// Its condition is false.
    Dropped,
    /// Its condition is undecided: the condition, and the value.
    Kept(ArrayExpr, ArrayExpr),
    /// Its condition is true.
    Last(ArrayExpr),
}

fn last(value: Result<ArrayExpr, Stop>) -> Result<BranchMade, Stop>
    ensures { (world : World) (virtuals : Seq VirtualAt) (told : Outcome (ArrayExpr × Seq VirtualSeen)) → IsMade world value virtuals told → IsMade world result virtuals (and_then told (λ made. Ok (last_made made.0, made.1))) }
{
    let value = value?;
    Ok(BranchMade::Last(value))
}

fn kept(both: Result<(ArrayExpr, ArrayExpr), Stop>) -> Result<BranchMade, Stop>
    ensures { (world : World) (virtuals : Seq VirtualAt) (told : Outcome ((ArrayExpr × ArrayExpr) × Seq VirtualSeen)) → IsMade world both virtuals told → IsMade world result virtuals (and_then told (λ made. Ok (Kept made.0.0 made.0.1, made.1))) }
{
    let (condition, value) = both?;
    Ok(BranchMade::Kept(condition, value))
}

/// The value of a condition, if it is decided.
fn truth_in(known: Option<Scalar>) -> Option<bool>
    ensures { result ≡ truth_in known }
{
    match known {
        Some(Scalar::Truth(b)) => Some(b),
        Some(Scalar::Whole(_)) => None,
        Some(Scalar::Literal(_, _)) => None,
        None => None,
    }
}

/// A branch. Its condition is read for its value: a false one drops it, and behind a true one nothing is read.
#[cycle(resolving)]
fn made_branch<'t>(
    reader: &mut Reader<'t>,
    s: &mut Scopes<'t>,
    site: &Site,
    branch: &Branch,
    virtuals: &mut List<Virtual<'t>>,
) -> Result<BranchMade, Stop>
    requires frame { IsFrame s.old site.now.at.now.frame.0 }
    requires there { AreThere s.old virtuals.old }
    requires kept { IsKept s.old reader.old }
    ensures grows { Grows s.old s.new }
    ensures kept { IsKept s.new reader.new }
    ensures there { AreThere s.new virtuals.new }
    ensures exact { IsMade s.new result virtuals.new (made_branch (elements_in s.old site.now.left) site.now.context (as_branch (part_in s.old site.now) branch.now) (virtuals_at s.old virtuals.old)) }
{
    let known = read_condition(reader, s, site, &branch.condition)?;
    match truth_in(known) {
        Some(true) => last(operand(reader, s, site, &branch.value, virtuals)),
        Some(false) => Ok(BranchMade::Dropped),
        None => kept(two(reader, s, site, &branch.condition, &branch.value, virtuals)),
    }
}

/// Puts a branch that is left behind those before, and gives the value of the last one.
fn put(
    made: &mut List<(ArrayExpr, ArrayExpr)>,
    step: BranchMade,
) -> Result<Option<ArrayExpr>, NoMemory>
    ensures made { OnOk result (made.new ≡ made.old ++ kept_in step) }
    ensures last { IfOk result (λ last. last ≡ last_in step) }
{
    match step {
        BranchMade::Dropped => Ok(None),
        BranchMade::Kept(condition, value) => {
            made.push((condition, value))?;
            Ok(None)
        }
        BranchMade::Last(value) => Ok(Some(value)),
    }
}

/// The branches that are left of an if-expression, with the value of the last one.
#[cycle(resolving)]
pub(crate) fn choice<'t>(
    reader: &mut Reader<'t>,
    s: &mut Scopes<'t>,
    site: &Site,
    branches: &[Branch],
    other: &Expr,
    virtuals: &mut List<Virtual<'t>>,
) -> Result<(List<(ArrayExpr, ArrayExpr)>, ArrayExpr), Stop>
    requires frame { IsFrame s.old site.now.at.now.frame.0 }
    requires there { AreThere s.old virtuals.old }
    requires kept { IsKept s.old reader.old }
    ensures grows { Grows s.old s.new }
    ensures kept { IsKept s.new reader.new }
    ensures there { AreThere s.new virtuals.new }
    ensures exact { IsMade s.new result virtuals.new (made_choice (elements_in s.old site.now.left) site.now.context (map (as_branch (part_in s.old site.now)) branches.now) (part_in s.old site.now other.now) (virtuals_at s.old virtuals.old)) }
{
    let mut made = List::new(reader.alloc);
    for one in branches {
        let step = made_branch(reader, s, site, one, virtuals)?;
        if let Some(value) = put(&mut made, step)? {
            return Ok((made, value));
        }
    }
    let rest = operand(reader, s, site, other, virtuals)?;
    Ok((made, rest))
}
