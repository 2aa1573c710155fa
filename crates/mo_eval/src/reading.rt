//! How the variables of a resolved expression are read one after another, only where they are needed.
ghost use Rattle.std.specs.Prelude.{◌≡◌, ◌-◌, [], List, MatchOption, IfOk, Some, set};
ghost use Rattle.mo_scope.specs.Frames.{Frame};
ghost use Rattle.mo_syntax.specs.Outcome.{Outcome, and_then};
ghost use Rattle.mo_values.specs.Scalars.{Known, division};
ghost use Rattle.mo_eval.specs.Virtuals.{Element, numbered, known_of_virtual, known_of_virtuals};
ghost use Rattle.mo_values.specs.Told.{Reads, AreRead, IsUnread, Tells};
ghost use Rattle.mo_eval.specs.Seen.{virtual_seen, virtuals_seen};
ghost use Rattle.mo_eval.specs.Sequence.{AreUnread, IsComponent, IsNextStep, IsStep, ReadsOneMore};

use crate::virtuals::Virtual;
use mo_flat::ArrayExpr;
use mo_syntax::{Broken, NoMemory, Place, Stop};
use mo_values::{Answer, Halt, Scalar, Told, answer, division, known};
use std::alloc::Global;

/// What comes next of a walk.
#[derive(Clone, Copy, Debug)]
pub enum Step {
    /// What is known of the element.
    Known(Option<Scalar>),
    /// The variable of that number, an element of a component, has to be read.
    Read(u32),
    /// What the variable of that number has, a call of `div`, `mod` or `rem`.
    Divided(u32, Result<Option<Scalar>, Broken>),
}

/// A call of `div`, `mod` or `rem` by what is known of its operands.
fn divided(place: Place, function: u16, left: Answer, right: Answer) -> Answer
    ensures { (read : Reads) (a b : Outcome Known) → Tells read left a → Tells read right b → Tells read result (and_then a (λ a. and_then b (λ b. division place function a b))) }
{
    let a = left?;
    let b = right?;
    answer(division(place, function, a, b))
}

/// What the variable of a call of `div`, `mod` or `rem` has, by those before it; none for an element of a component.
fn told_by<'t>(alloc: Global, it: &Virtual<'t>, before: &[Told]) -> Option<Answer>
    ensures { (frames : List Frame) (read : Element → Outcome Known) (known : List (Outcome Known)) → AreRead before.now (numbered known) → MatchOption result (IsComponent (virtual_seen frames it.now)) (λ answer. Tells before.now answer (known_of_virtual read known (virtual_seen frames it.now))) }
{
    match it {
        Virtual::Component(_) => None,
        Virtual::Division {
            place,
            function,
            left,
            right,
        } => {
            let a = known(alloc, left, &[], before);
            let b = known(alloc, right, &[], before);
            Some(divided(*place, *function, a, b))
        }
    }
}

/// What has to be done first where the variable of that number is needed and not read yet.
#[cycle(reading)]
pub(crate) fn reading<'t>(
    alloc: Global,
    n: u32,
    virtuals: &[Virtual<'t>],
    reads: &[Told],
) -> Result<Step, Stop>
    requires { IsUnread reads.now n }
    ensures { (frames : List Frame) (read : Element → Outcome Known) (told : Outcome Known) → AreRead reads.now (numbered (known_of_virtuals read (virtuals_seen frames virtuals.now))) → IsStep read (virtuals_seen frames virtuals.now) reads.now result told }
{
    let at = n.saturating_sub(1) as usize;
    let Some(it) = virtuals.get(at) else {
        return Err(Stop::NoMemory);
    };
    let Some(answer) = told_by(alloc, it, &reads[..at]) else {
        return Ok(Step::Read(n));
    };
    match answer {
        Ok(known) => Ok(Step::Divided(n, Ok(known))),
        Err(Halt::Broken(broken)) => Ok(Step::Divided(n, Err(broken))),
        Err(Halt::NoMemory) => Err(Stop::NoMemory),
        Err(Halt::Unread(m)) => reading(alloc, m, virtuals, reads),
    }
}

/// What comes next where an element of a resolved expression is wanted and so much of its variables is read: what is known of the
/// element, or the rule that is broken there; an element of a component that has to be read; or what a call of `div`, `mod` or `rem`
/// has. `NoMemory` is the only other answer.
pub fn next<'t>(
    alloc: Global,
    e: &ArrayExpr,
    index: &[u32],
    virtuals: &[Virtual<'t>],
    reads: &[Told],
) -> Result<Step, Stop>
    ensures { IsNextStep virtuals.now reads.now result e.now index.now }
{
    match known(alloc, e, index, reads) {
        Ok(known) => Ok(Step::Known(known)),
        Err(Halt::Broken(broken)) => Err(Stop::Broken(broken)),
        Err(Halt::NoMemory) => Err(Stop::NoMemory),
        Err(Halt::Unread(n)) => reading(alloc, n, virtuals, reads),
    }
}

/// What is read of so many variables before any of them is. `NoMemory` is the only other answer.
pub fn unread(alloc: Global, count: usize) -> Result<Vec<Told>, NoMemory>
    ensures { IfOk result (λ reads. AreUnread reads.items count) }
{
    let mut made = Vec::new(alloc);
    for _k in 0..count {
        made.push(None)?;
    }
    Ok(made)
}

/// Puts down what the variable of that number has, which was not read.
pub fn mark(reads: &mut Vec<Told>, n: u32, outcome: Result<Option<Scalar>, Broken>)
    requires { IsUnread reads.old.items n }
    ensures put { reads.new.items ≡ set reads.old.items (n - 1) (Some outcome) }
    ensures read { ReadsOneMore reads.old.items reads.new.items n outcome }
{
    reads[n.saturating_sub(1) as usize] = Some(outcome);
}
