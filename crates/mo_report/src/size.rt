//! Whether the text of a report can be written.
ghost use Rattle.std.specs.Prelude.{◌≡◌, ◌≤◌, ◌<◌, ◌+◌, ◌↔◌, IsTrue, IfSome, IfNone, Some, true, false};
ghost use Rattle.mo_flat.specs.Roles.{is_unknown_role};
ghost use Rattle.mo_report.specs.Size.{unknown_names, weight, report_size, report_limit};

use mo_flat::{FlatModel, FlatVar};
use mo_incidence::Offsets;
use mo_syntax::Role;

/// The greatest size of a report, in bytes of derivatives.
const LIMIT: u64 = 67_108_864;

/// What is left after an unknown of highest order d whose name has n bytes, None where it takes more.
#[tactic(auto, unfolding(crate::specs::Size::weight))]
fn after_unknown(left: u64, d: u32, n: usize) -> Option<u64>
    requires { left ≤ report_limit }
    ensures some { IfSome result (λ rest. rest + weight d n ≡ left) }
    ensures none { IfNone result (left < weight d n) }
{
    if d == 0 {
        return Some(left);
    }
    if d > 8192 {
        return None;
    }
    if n > 67_108_864 {
        return None;
    }
    left.checked_sub(u64::from(d) * (5 * u64::from(d) + n as u64))
}

/// Whether the variable is one that the equations determine.
fn is_unknown(v: &FlatVar) -> bool
    ensures { result ≡ is_unknown_role (Some v.now.role) }
{
    matches!(v.role, Role::Unknown)
}

/// Whether the report of a square system with these offsets stays within its limit: the sum over the unknowns of
/// `d*(5*d + n)` is at most 67,108,864, where d is the highest order of the unknown and n the bytes of its name. Takes no
/// memory.
pub fn report_fits(m: &FlatModel, offsets: &Offsets) -> bool
    ensures { IsTrue result ↔ (report_size (unknown_names m.now.vars) offsets.now.d.items ≤ report_limit) }
{
    are_within(m.vars.as_slice(), &offsets.d)
}

/// Whether the sum over the unknowns among these variables, with these orders, is within the limit.
fn are_within(vars: &[FlatVar], orders: &[u32]) -> bool
    ensures yes { result ≡ true → report_size (unknown_names vars.now) orders.now ≤ report_limit }
    ensures no { result ≡ false → report_limit < report_size (unknown_names vars.now) orders.now }
{
    let mut left = LIMIT;
    let mut at = 0;
    for v in vars {
        if is_unknown(v) {
            if at == orders.len() {
                return true;
            }
            match after_unknown(left, orders[at], v.name.as_str().len()) {
                Some(rest) => left = rest,
                None => return false,
            }
            at += 1;
        }
    }
    true
}
