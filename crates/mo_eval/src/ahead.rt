//! What is read ahead of a walk. A walk halts at the first variable that it needs and that is not read yet, and then begins again: so
//! after some walks the variables behind that one are read as well, twice as many each time, and an expression of many variables is
//! walked few times more than its logarithm.
ghost use Rattle.std.specs.Prelude.{IfSome};
ghost use Rattle.mo_values.specs.Told.{IsUnread};
ghost use Rattle.mo_eval.specs.Sequence.{IsNextStep};

use crate::reader::Reader;
use crate::reading::{Step, next, reading};
use crate::virtuals::Virtual;
use mo_flat::ArrayExpr;
use mo_syntax::Stop;
use mo_values::Told;

/// How many walks halt before anything is read ahead: elements of an array that are made from one another are read one by one, as long
/// as each of them needs no more variables than this.
const WALKS: u32 = 64;

/// What is read ahead of a walk: the variables behind the first `from`, up to the first `to`.
#[derive(Clone, Copy, Debug)]
pub(crate) struct Ahead {
    /// How many walks halted, up to `WALKS`.
    walks: u32,
    /// How many variables were read ahead behind the last of them.
    width: u32,
    from: u32,
    to: u32,
}

impl Ahead {
    /// Nothing, before the first walk.
    pub(crate) fn nothing() -> Ahead {
        Ahead {
            walks: 0,
            width: 0,
            from: 0,
            to: 0,
        }
    }

    /// What is read ahead behind that step of a walk.
    fn behind(self, step: &Result<Step, Stop>) -> Ahead {
        let n = match step {
            Ok(Step::Read(n)) => *n,
            Ok(Step::Divided(n, _)) => *n,
            _ => return self,
        };
        if self.walks < WALKS {
            return Ahead {
                walks: self.walks + 1,
                width: 1,
                from: 0,
                to: 0,
            };
        }
        let width = self.width.saturating_mul(2);
        Ahead {
            walks: self.walks,
            width,
            from: n,
            to: n.saturating_add(width),
        }
    }
}

/// The number of the first variable that has to be read ahead.
fn first_unread(reads: &[Told], ahead: Ahead) -> Option<u32>
    ensures { IfSome result (IsUnread reads.now) }
{
    for k in ahead.from..ahead.to {
        match reads.get(k as usize) {
            Some(None) => return Some(k + 1),
            Some(Some(_)) => {}
            None => return None,
        }
    }
    None
}

/// What comes next where an element of a resolved expression is wanted: of what is read ahead, as long as there is something, then of a
/// walk. `NoMemory` is the only other answer.
pub(crate) fn next_step<'t>(
    reader: &Reader<'t>,
    e: &ArrayExpr,
    index: &[u32],
    virtuals: &[Virtual<'t>],
    reads: &[Told],
    ahead: &mut Ahead,
) -> Result<Step, Stop>
    ensures { IsNextStep virtuals.now reads.now result e.now index.now }
{
    if reader.reads_ahead {
        if let Some(n) = first_unread(reads, *ahead) {
            ahead.from = n.saturating_sub(1);
            return reading(reader.alloc, n, virtuals, reads);
        }
    }
    let step = next(reader.alloc, e, index, virtuals, reads);
    *ahead = ahead.behind(&step);
    step
}
