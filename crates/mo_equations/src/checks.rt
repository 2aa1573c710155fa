//! Whether what is made is sound, as the phases behind it take for granted.
ghost use Rattle.std.specs.Prelude.{All, IsTrue};
ghost use Rattle.mo_flat.specs.SoundConnects.{IsSoundConnects};
ghost use Rattle.mo_connect.specs.Equations.{IsNumericVariable};
ghost use Rattle.mo_equations.specs.Sound.{IsSoundExpansion};
ghost use Rattle.mo_equations.specs.steps.Checking.{AreNumbers, JoinsNumbers};

use mo_flat::{Connect, EndLeaf, Expanded, FlatVar};
use mo_sound::{are_sound_asserts, are_sound_equations, are_sound_variables, is_numeric_variable};
use mo_syntax::{List, Place};

/// Whether the values of leaves are numbers.
fn are_numbers(vars: &[FlatVar], leaves: &[EndLeaf]) -> bool
    ensures { IsTrue result → AreNumbers vars.now leaves.now }
{
    for leaf in leaves {
        if !is_numeric_variable(vars, leaf.variable) {
            return false;
        }
    }
    true
}

/// Whether those of all elements of an end are.
fn have_numbers(vars: &[FlatVar], elements: &[List<EndLeaf>]) -> bool
    ensures { IsTrue result → All (AreNumbers vars.now) elements.now }
{
    for leaves in elements {
        if !are_numbers(vars, leaves.as_slice()) {
            return false;
        }
    }
    true
}

fn has_number_ends(vars: &[FlatVar], connect: &Connect) -> bool
    ensures { IsTrue result → JoinsNumbers vars.now connect.now }
{
    have_numbers(vars, connect.left.elements.as_slice())
        && have_numbers(vars, connect.right.elements.as_slice())
}

/// Whether those of both ends of each connect are.
fn join_numbers(vars: &[FlatVar], connects: &[Connect]) -> bool
    ensures { IsTrue result → All (JoinsNumbers vars.now) connects.now }
{
    for connect in connects {
        if !has_number_ends(vars, connect) {
            return false;
        }
    }
    true
}

/// Whether the values of flow leaves are numbers.
fn flow_numbers(vars: &[FlatVar], flows: &[(u32, Place)]) -> bool
    ensures { IsTrue result → All (λ flow. IsNumericVariable vars.now flow.0) flows.now }
{
    for flow in flows {
        if !is_numeric_variable(vars, flow.0) {
            return false;
        }
    }
    true
}

/// Whether all parts are sound, where the connects are.
pub(crate) fn is_sound_expansion(parts: &Expanded) -> bool
    ensures { IsTrue result → IsSoundConnects parts.now.connects → IsSoundExpansion parts.now }
{
    let vars = parts.vars.as_slice();
    if !are_sound_variables(vars, vars) {
        return false;
    }
    if !are_sound_equations(vars, parts.first.as_slice()) {
        return false;
    }
    if !are_sound_asserts(vars, parts.first_asserts.as_slice()) {
        return false;
    }
    if !are_sound_equations(vars, parts.equations.as_slice()) {
        return false;
    }
    if !are_sound_asserts(vars, parts.asserts.as_slice()) {
        return false;
    }
    if !join_numbers(vars, parts.connects.list.as_slice()) {
        return false;
    }
    flow_numbers(vars, parts.connects.flows.as_slice())
}
