//! The entries of each unknown, threaded from the last one back: a transposed table in the room of two numbers for each entry.
ghost use Rattle.std.specs.Prelude.{◌≡◌, ◌+◌, ◌-◌, ◌<◌, length};
ghost use Rattle.std.proofs.Common.{suc};
ghost use Rattle.mo_incidence.specs.Signature.{equations, row_len, entries, IsSound};
ghost use Rattle.mo_match.specs.steps.Threads.{IsThreaded, AreThreaded};

use crate::largest::clear;
use mo_incidence::Incidence;

/// Puts the entries of the equation at place i on the threads of their unknowns, behind the first `filled` entries.
fn thread_row(
    inc: &Incidence,
    i: u32,
    last: &mut [u32],
    before: &mut [u32],
    row_of: &mut [u32],
    filled: usize,
) -> usize
    requires sound { IsSound inc.now }
    requires row { i < equations inc.now }
    requires threaded { IsThreaded inc.now last.old before.old row_of.old filled i 0 }
    ensures { IsThreaded inc.now last.new before.new row_of.new result (i + 1) 0 }
{
    let mut x = filled;
    for k in 0..inc.row_len(i + 1) {
        let unknown = inc.entry(i + 1, k).0 as usize;
        before[x] = last[unknown];
        last[unknown] = x as u32 + 1;
        row_of[x] = i;
        x += 1;
    }
    x
}

/// Threads all entries.
pub(crate) fn thread(inc: &Incidence, last: &mut [u32], before: &mut [u32], row_of: &mut [u32])
    requires sizes { (length last.old ≡ suc inc.now.unknowns) × (length before.old ≡ entries inc.now) × (length row_of.old ≡ entries inc.now) }
    ensures { AreThreaded inc.now last.new before.new row_of.new }
{
    clear(last);
    let mut filled = 0;
    for i in 0..inc.equations() {
        filled = thread_row(inc, i, last, before, row_of, filled);
    }
}
