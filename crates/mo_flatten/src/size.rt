//! The size of a flat model: its unknowns, its equations, the nodes of its expressions and the bytes of its text.
ghost use Rattle.std.specs.Prelude.{◌≡◌, ◌^◌, ◌-◌, Some, length, min, option_copied, sum_by};
ghost use Rattle.mo_syntax.specs.Outcome.{breach};
ghost use Rattle.mo_syntax.specs.declared.place.Stop.TheVariants.{Broken as broken_by};
ghost use Rattle.mo_flat.specs.Nodes.{node_count};
ghost use Rattle.mo_flat.specs.Roles.{is_unknown_role, unknown_numbers};
ghost use Rattle.mo_scope.specs.Outcome.{Gives};
ghost use Rattle.mo_equations.specs.Size.{has_too_many as has_more, nodes_of, nodes_of_assert, nodes_of_binding, nodes_of_equation, nodes_of_option, nodes_of_variable};
ghost use Rattle.mo_flatten.specs.Flat.{within_size as sized};
ghost use Rattle.mo_syntax.specs.declared.rules.TheConstants.{FLAT_MODEL_TOO_LARGE};

use mo_flat::{FlatAssert, FlatEquation, FlatExpr, FlatModel, FlatVar, flat_nodes};
use mo_syntax::{Place, Role, Stop, rules, stop};
use mo_text_size::text_bytes;

/// The most unknowns of a flat model.
const MOST_UNKNOWNS: usize = 50_000;

/// The most equations of a flat model, initial ones not counted.
const MOST_EQUATIONS: usize = 50_000;

/// The most nodes of all expressions of a flat model.
const MOST_NODES: u64 = 2_000_000;

/// The most bytes of the text of a flat model.
const MOST_BYTES: u64 = 67_108_864;

/// The flat model, unless it is too large.
pub(crate) fn within_size(m: FlatModel) -> Result<FlatModel, Stop>
    ensures { Gives (λ m. m) result (sized m) }
{
    if has_too_many(&m) {
        return Err(too_large(m.place));
    }
    if text_bytes(&m) > MOST_BYTES {
        return Err(too_large(m.place));
    }
    Ok(m)
}

/// The flat model of the class whose name stands there is too large.
pub(crate) fn too_large(place: Place) -> Stop
    ensures { result ≡ broken_by (breach FLAT_MODEL_TOO_LARGE place) }
{
    stop(rules::FLAT_MODEL_TOO_LARGE, place)
}

/// Whether there are more unknowns, equations or nodes than a flat model may have.
fn has_too_many(m: &FlatModel) -> bool
    ensures { result ≡ has_more m.now }
{
    if unknowns(m.vars.as_slice()) > MOST_UNKNOWNS {
        return true;
    }
    if m.equations.len() > MOST_EQUATIONS {
        return true;
    }
    nodes(m) > MOST_NODES
}

/// How many of the variables are unknowns.
fn unknowns(vars: &[FlatVar]) -> usize
    ensures { result ≡ length (unknown_numbers vars.now) }
{
    let mut all = 0usize;
    for v in vars {
        if is_unknown(v.role) {
            all += 1;
        }
    }
    all
}

fn is_unknown(role: Role) -> bool
    ensures { result ≡ is_unknown_role (Some role) }
{
    match role {
        Role::Unknown => true,
        Role::Given | Role::Parameter | Role::Constant => false,
    }
}

/// How many nodes the expressions have that are printed, the greatest `u64` where that passes 64 bits.
fn nodes(m: &FlatModel) -> u64
    ensures { result ≡ min (nodes_of m.now) (2 ^ 64 - 1) }
{
    nodes_of_variables(m.vars.as_slice())
        .saturating_add(nodes_of_equations(m.first.as_slice()))
        .saturating_add(nodes_of_asserts(m.first_asserts.as_slice()))
        .saturating_add(nodes_of_equations(m.equations.as_slice()))
        .saturating_add(nodes_of_asserts(m.asserts.as_slice()))
}

fn nodes_of_variables(vars: &[FlatVar]) -> u64
    ensures { result ≡ min (sum_by nodes_of_variable vars.now) (2 ^ 64 - 1) }
{
    let mut all = 0u64;
    for v in vars {
        all = all.saturating_add(nodes_of_one(v));
    }
    all
}

fn nodes_of_one(v: &FlatVar) -> u64
    ensures { result ≡ min (nodes_of_variable v.now) (2 ^ 64 - 1) }
{
    let bound = nodes_bound(v.role, v.binding.as_ref());
    nodes_of_attributes(v.attributes.as_slice()).saturating_add(bound)
}

fn nodes_of_attributes(attributes: &[(u8, FlatExpr)]) -> u64
    ensures { result ≡ min (sum_by (λ attribute. node_count attribute.1) attributes.now) (2 ^ 64 - 1) }
{
    let mut all = 0u64;
    for attribute in attributes {
        all = all.saturating_add(flat_nodes(&attribute.1));
    }
    all
}

/// The nodes of a binding that is printed.
fn nodes_bound(role: Role, binding: Option<&FlatExpr>) -> u64
    ensures { result ≡ min (nodes_of_binding role (option_copied binding.entry)) (2 ^ 64 - 1) }
{
    if is_unknown(role) {
        return 0;
    }
    nodes_if_any(binding)
}

fn nodes_if_any(e: Option<&FlatExpr>) -> u64
    ensures { result ≡ min (nodes_of_option (option_copied e.entry)) (2 ^ 64 - 1) }
{
    match e {
        Some(e) => flat_nodes(e),
        None => 0,
    }
}

fn nodes_of_equations(equations: &[FlatEquation]) -> u64
    ensures { result ≡ min (sum_by nodes_of_equation equations.now) (2 ^ 64 - 1) }
{
    let mut all = 0u64;
    for equation in equations {
        all = all
            .saturating_add(flat_nodes(&equation.left))
            .saturating_add(flat_nodes(&equation.right));
    }
    all
}

fn nodes_of_asserts(asserts: &[FlatAssert]) -> u64
    ensures { result ≡ min (sum_by nodes_of_assert asserts.now) (2 ^ 64 - 1) }
{
    let mut all = 0u64;
    for assert in asserts {
        all = all
            .saturating_add(flat_nodes(&assert.condition))
            .saturating_add(flat_nodes(&assert.message))
            .saturating_add(nodes_if_any(assert.level.as_ref()));
    }
    all
}
