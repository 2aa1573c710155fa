//! Numbers that follow from the least offsets of a system.
ghost use Rattle.std.specs.Prelude.{◌≡◌, ◌+◌, ◌-◌, ◌<◌, length, IfOk};
ghost use Rattle.mo_incidence.specs.Counting.{sum_below};
ghost use Rattle.mo_incidence.specs.Signature.{equations};
ghost use Rattle.mo_incidence.specs.Offsets.{by_place, by_number, sum_unknowns, c_of, d_of, pairs_of};
ghost use Rattle.mo_incidence.specs.Dummies.{greatest, states_of};
ghost use Rattle.mo_report.specs.Right.{AreLeastOffsets, AreOrdersAt, has_zero, index_of};
ghost use Rattle.mo_front.specs.steps.Structure.{order_by_offsets};

use mo_blocks::counted_by_offsets;
use mo_incidence::{Dummies, Incidence, Offsets};
use mo_syntax::NoMemory;
use std::alloc::Global;

/// For each equation the highest order of its unknown in it: the difference of their offsets, since its entry there is tight.
pub(crate) fn orders(
    alloc: Global,
    inc: &Incidence,
    offsets: &Offsets,
) -> Result<Vec<u32>, NoMemory>
    requires { AreLeastOffsets inc.now offsets.now }
    ensures { IfOk result (λ orders. AreOrdersAt inc.now offsets.now.pairs.items orders.items) }
{
    let mut orders = Vec::new(alloc);
    for i in 0..inc.equations() {
        orders.push(order(inc, offsets, i as usize))?;
    }
    Ok(orders)
}

/// The highest order of the unknown of the equation at place i in it.
fn order(inc: &Incidence, offsets: &Offsets, i: usize) -> u32
    requires least { AreLeastOffsets inc.now offsets.now }
    requires place { i < equations inc.now }
    ensures { result ≡ order_by_offsets offsets.now i }
{
    let _equations = inc.equations();
    let unknown = offsets.pairs[i] as usize;
    offsets.d[unknown - 1] - offsets.c[i]
}

/// The greatest of the offsets, 0 where there is none.
fn greatest(c: &[u32]) -> u32
    ensures { result ≡ greatest (by_place c.now) (length c.now) }
{
    let mut most = 0;
    for i in 0..c.len() {
        if most < c[i] {
            most = c[i];
        }
    }
    most
}

/// Whether one of the numbers is 0.
fn has_zero(d: &[u32]) -> bool
    ensures { result ≡ has_zero (by_number d.now) (length d.now) }
{
    let mut found = false;
    for u in 0..d.len() {
        if d[u] == 0 {
            found = true;
        }
    }
    found
}

/// The structural index of a system with these offsets. `NoMemory` where it has more than 32 bits.
pub(crate) fn index(inc: &Incidence, offsets: &Offsets) -> Result<u32, NoMemory>
    requires least { AreLeastOffsets inc.now offsets.now }
    ensures { IfOk result (λ n. n ≡ index_of inc.now (c_of offsets.now) (d_of offsets.now)) }
{
    let _equations = inc.equations();
    let most = greatest(&offsets.c);
    if has_zero(&offsets.d) {
        most.checked_add(1).ok_or(NoMemory)
    } else {
        Ok(most)
    }
}

/// How many initial values can be chosen: one for each state. `NoMemory` where that has more than 32 bits.
pub(crate) fn freedom(
    inc: &Incidence,
    offsets: &Offsets,
    dummies: &Dummies,
) -> Result<u32, NoMemory>
    requires square { equations inc.now ≡ inc.now.unknowns }
    requires least { AreLeastOffsets inc.now offsets.now }
    requires states { dummies.now.states.items ≡ states_of (c_of offsets.now) (d_of offsets.now) (pairs_of offsets.now) (equations inc.now) inc.now.unknowns }
    ensures { IfOk result (λ n. n + sum_below (c_of offsets.now) (equations inc.now) ≡ sum_unknowns inc.now (d_of offsets.now)) }
{
    let _equations = inc.equations();
    counted_by_offsets();
    let count = dummies.states.len();
    if count > u32::MAX as usize {
        return Err(NoMemory);
    }
    Ok(count as u32)
}
