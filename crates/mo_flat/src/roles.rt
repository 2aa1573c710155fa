//! The variables of a model by number.
ghost use Rattle.std.specs.Prelude.{◌≡◌};
ghost use Rattle.mo_flat.specs.Roles.{role_at};

use crate::FlatVar;
use mo_syntax::Role;

/// What the variable of that number, from 1, is in the equations; none where there is no such variable.
pub fn role_of(vars: &[FlatVar], variable: u32) -> Option<Role>
    ensures { result ≡ role_at vars.now variable }
{
    if variable == 0 {
        return None;
    }
    match vars.get(variable as usize - 1) {
        None => None,
        Some(v) => Some(v.role),
    }
}
