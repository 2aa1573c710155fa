//! All that sound expressions, variables, equations and asserts have to be.
ghost use Rattle.std.specs.Prelude.{◌≡◌, ◌↔◌, ◌&&◌, IsTrue, All, option_copied, option_map};
ghost use Rattle.mo_flat.specs.Roles.{variable_at};
ghost use Rattle.mo_flat.specs.Sound.{flat_kind, is_numeric as is_numeric_kind, IsSoundAssert, IsSoundEquation, IsSoundIn, IsSoundNumber, IsSoundOption, IsSoundVariable};

use crate::kinds::{kind_of, kind_of_variable};
use crate::orders::orders_fit;
use crate::shapes::is_shaped;
use crate::summary::is_numeric;
use mo_flat::{FlatAssert, FlatEquation, FlatExpr, FlatVar};

fn all_hold(shaped: bool, low: bool, agree: bool) -> bool
    ensures { result ≡ (shaped && low && agree) }
{
    shaped && low && agree
}

/// Whether an expression is sound over the variables of a model. It is not where a number is that of no variable, a function has another
/// number of arguments, a list is empty, kinds do not agree, or a variable is differentiated 65,535 times or more, derivatives around it
/// included. Takes no memory.
pub fn is_sound(vars: &[FlatVar], e: &FlatExpr) -> bool
    ensures { IsTrue result ↔ IsSoundIn vars.now e.now }
{
    let shaped = is_shaped(vars, e);
    let low = orders_fit(e, 0);
    let kind = kind_of(vars, e);
    all_hold(shaped, low, kind.is_some())
}

/// Whether an expression is sound and its value is a number. Takes no memory.
pub fn is_sound_number(vars: &[FlatVar], e: &FlatExpr) -> bool
    ensures { IsTrue result ↔ IsSoundNumber 65535 vars.now e.now }
{
    let sound = is_sound(vars, e);
    let numeric = is_numeric(kind_of(vars, e));
    all_hold(sound, numeric, true)
}

/// Whether an expression is sound, if there is one.
fn is_sound_option(vars: &[FlatVar], e: Option<&FlatExpr>) -> bool
    ensures { IsTrue result ↔ IsSoundOption vars.now (option_copied e.entry) }
{
    match e {
        Some(e) => is_sound(vars, e),
        None => true,
    }
}

fn are_sound_attributes(vars: &[FlatVar], attributes: &[(u8, FlatExpr)]) -> bool
    ensures { IsTrue result ↔ All (λ attribute. IsSoundIn vars.now attribute.1) attributes.now }
{
    for attribute in attributes {
        if !is_sound(vars, &attribute.1) {
            return false;
        }
    }
    true
}

/// Whether the attributes and the binding of a variable are sound. Takes no memory.
pub fn is_sound_variable(vars: &[FlatVar], v: &FlatVar) -> bool
    ensures { IsTrue result ↔ IsSoundVariable vars.now v.now }
{
    let attributes = are_sound_attributes(vars, v.attributes.as_slice());
    let binding = is_sound_option(vars, v.binding.as_ref());
    all_hold(attributes, binding, true)
}

/// Whether both sides of an equation are sound numbers. Takes no memory.
pub fn is_sound_equation(vars: &[FlatVar], equation: &FlatEquation) -> bool
    ensures { IsTrue result ↔ IsSoundEquation vars.now equation.now }
{
    let left = is_sound_number(vars, &equation.left);
    let right = is_sound_number(vars, &equation.right);
    all_hold(left, right, true)
}

/// Whether the condition, the message and the level of an assert are sound. Takes no memory.
pub fn is_sound_assert(vars: &[FlatVar], assert: &FlatAssert) -> bool
    ensures { IsTrue result ↔ IsSoundAssert vars.now assert.now }
{
    let condition = is_sound(vars, &assert.condition);
    let message = is_sound(vars, &assert.message);
    let level = is_sound_option(vars, assert.level.as_ref());
    all_hold(condition, message, level)
}

/// Whether all variables are sound. Takes no memory.
pub fn are_sound_variables(vars: &[FlatVar], list: &[FlatVar]) -> bool
    ensures { IsTrue result ↔ All (IsSoundVariable vars.now) list.now }
{
    for v in list {
        if !is_sound_variable(vars, v) {
            return false;
        }
    }
    true
}

/// Whether all equations are sound. Takes no memory.
pub fn are_sound_equations(vars: &[FlatVar], list: &[FlatEquation]) -> bool
    ensures { IsTrue result ↔ All (IsSoundEquation vars.now) list.now }
{
    for equation in list {
        if !is_sound_equation(vars, equation) {
            return false;
        }
    }
    true
}

/// Whether all asserts are sound. Takes no memory.
pub fn are_sound_asserts(vars: &[FlatVar], list: &[FlatAssert]) -> bool
    ensures { IsTrue result ↔ All (IsSoundAssert vars.now) list.now }
{
    for assert in list {
        if !is_sound_assert(vars, assert) {
            return false;
        }
    }
    true
}

/// Whether a number, from 1, is that of a variable whose values are numbers. Takes no memory.
pub fn is_numeric_variable(vars: &[FlatVar], n: u32) -> bool
    ensures { result ≡ is_numeric_kind (option_map (λ v. flat_kind v.kind) (variable_at vars.now n)) }
{
    is_numeric(kind_of_variable(vars, n))
}
