//! A work space that holds printed offsets.
ghost use Rattle.std.specs.Prelude.{◌≡◌, ◌≤◌, length};
ghost use Rattle.std.specs.Vec.{vec_capacity};

use mo_incidence::Offsets;
use mo_match::{Work, put};

/// Writes numbers over a list that has room for them.
fn fill_list(list: &mut Vec<u32>, numbers: &[u32])
    requires { length numbers.now ≤ vec_capacity list.old }
    ensures items { list.new.items ≡ numbers.now }
    ensures room { vec_capacity list.old ≤ vec_capacity list.new }
{
    list.clear();
    for number in numbers {
        put(list, *number);
    }
}

/// Puts offsets and pairs into the work space.
pub(crate) fn fill(work: &mut Work, offsets: &Offsets)
    requires equations { (length offsets.now.c.items ≤ work.old.equations) × (length offsets.now.pairs.items ≤ work.old.equations) }
    requires unknowns { length offsets.now.d.items ≤ work.old.unknowns }
    ensures { work.new ≡ record work.old { c = offsets.now.c.items; d = offsets.now.d.items; pairs = offsets.now.pairs.items } }
{
    fill_list(&mut work.offsets.c, &offsets.c);
    fill_list(&mut work.offsets.d, &offsets.d);
    fill_list(&mut work.offsets.pairs, &offsets.pairs);
}
