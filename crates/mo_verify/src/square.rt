//! The index and the freedom of a square system.
ghost use Rattle.std.specs.Prelude.{◌≡◌, length, IfOk};
ghost use Rattle.mo_incidence.specs.Offsets.{by_place, by_number, c_of, d_of};
ghost use Rattle.mo_incidence.specs.Dummies.{greatest};
ghost use Rattle.mo_report.specs.Right.{has_zero, index_of};
ghost use Rattle.mo_verify.specs.Finding.{HaveSizes};
ghost use Rattle.mo_verify.specs.Steps.{printed_of};

use crate::claims::Claims;
use mo_incidence::{Dummies, Incidence};
use mo_syntax::NoMemory;

/// The greatest of the offsets, 0 where there is none.
fn greatest(c: &[u32]) -> u32
    ensures { result ≡ greatest (by_place c.now) (length c.now) }
{
    let mut most = 0;
    for i in 0..c.len() {
        if most < c[i] {
            most = c[i];
        }
    }
    most
}

/// Whether one of the numbers is 0.
fn has_zero(d: &[u32]) -> bool
    ensures { result ≡ has_zero (by_number d.now) (length d.now) }
{
    let mut found = false;
    for u in 0..d.len() {
        if d[u] == 0 {
            found = true;
        }
    }
    found
}

/// The structural index of a system with these offsets. `NoMemory` where it has more than 32 bits.
pub(crate) fn index(inc: &Incidence, claims: &Claims) -> Result<u32, NoMemory>
    requires sizes { HaveSizes inc.now (printed_of claims.now) }
    ensures { IfOk result (λ n. n ≡ index_of inc.now (c_of claims.now.offsets) (d_of claims.now.offsets)) }
{
    let _equations = inc.equations();
    let most = greatest(&claims.offsets.c);
    if has_zero(&claims.offsets.d) {
        most.checked_add(1).ok_or(NoMemory)
    } else {
        Ok(most)
    }
}

/// How many initial values can be chosen: one for each state. `NoMemory` where that has more than 32 bits.
pub(crate) fn freedom(dummies: &Dummies) -> Result<u32, NoMemory>
    ensures { IfOk result (λ n. n ≡ length dummies.now.states.items) }
{
    u32::try_from(dummies.states.len()).map_err(|_| NoMemory)
}
