//! The bytes of models: a line for each variable, equation and assert.
ghost use Rattle.std.specs.Prelude.{◌≡◌, ◌++◌, flat_map};
ghost use Rattle.mo_flat.specs.Text.{assert_level_text, assert_line, attribute_text, attributes_text, binding_text, equation_line, model_text, section_text, variable_line};
ghost use Rattle.mo_text_size.specs.Bytes.{bytes};

use crate::expr::{of_expr, of_operand};
use crate::pieces::{add, of_attribute, of_attribute_mark, of_role, of_str};
use mo_flat::{FlatAssert, FlatEquation, FlatExpr, FlatModel, FlatVar};
use mo_syntax::Role;

/// How many bytes the text of a model has that `flat_text` makes. Where the number passes 64 bits the answer is the greatest `u64`.
/// Takes no memory.
pub fn text_bytes(m: &FlatModel) -> u64
    ensures { result ≡ bytes (model_text m.now) }
{
    let vars = m.vars.as_slice();
    let first = of_section(
        vars,
        "initial equation\n",
        m.first.as_slice(),
        m.first_asserts.as_slice(),
    );
    let last = of_section(
        vars,
        "equation\n",
        m.equations.as_slice(),
        m.asserts.as_slice(),
    );
    let begin = of_name_line("model ", m.name.as_str(), "\n");
    let end = of_name_line("end ", m.name.as_str(), ";\n");
    add(add(add(add(begin, of_variables(vars)), first), last), end)
}

fn of_name_line(word: &str, name: &str, end: &str) -> u64
    ensures { result ≡ bytes (word.now ++ name.now ++ end.now) }
{
    add(add(of_str(word), of_str(name)), of_str(end))
}

fn of_variables(vars: &[FlatVar]) -> u64
    ensures { result ≡ bytes (flat_map (variable_line vars.now) vars.now) }
{
    let mut all = 0u64;
    for v in vars {
        all = all.saturating_add(of_variable_line(vars, v));
    }
    all
}

/// The line of a variable, two blanks before it and a blank behind its kind.
fn of_variable_line(vars: &[FlatVar], v: &FlatVar) -> u64
    ensures { result ≡ bytes (variable_line vars.now v.now) }
{
    let kind = add(of_role(v.role), of_str(v.kind_text.as_str()));
    let name = of_str(v.name.as_str()).saturating_add(5);
    let attributes = of_attributes(vars, v.attributes.as_slice());
    kind.saturating_add(name)
        .saturating_add(attributes)
        .saturating_add(of_binding(vars, v.role, &v.binding))
}

fn of_attributes(vars: &[FlatVar], attributes: &[(u8, FlatExpr)]) -> u64
    ensures { result ≡ bytes (attributes_text vars.now attributes.now) }
{
    if attributes.is_empty() {
        return 0;
    }
    let mut all = 0u64;
    let mut first = true;
    for attribute in attributes {
        all = all.saturating_add(of_given(vars, first, attribute.0, &attribute.1));
        first = false;
    }
    all.saturating_add(1)
}

fn of_given(vars: &[FlatVar], first: bool, attribute: u8, e: &FlatExpr) -> u64
    ensures { result ≡ bytes (attribute_text vars.now first (attribute, e.now)) }
{
    let name = add(of_attribute_mark(first), of_attribute(attribute));
    name.saturating_add(3).saturating_add(of_expr(vars, e))
}

fn of_binding(vars: &[FlatVar], role: Role, binding: &Option<FlatExpr>) -> u64
    ensures { result ≡ bytes (binding_text vars.now role binding.now) }
{
    match (role, binding) {
        (Role::Unknown, _) => 0,
        (_, None) => 0,
        (_, Some(e)) => of_expr(vars, e).saturating_add(3),
    }
}

fn of_section(
    vars: &[FlatVar],
    heading: &str,
    equations: &[FlatEquation],
    asserts: &[FlatAssert],
) -> u64
    ensures { result ≡ bytes (section_text vars.now heading.now equations.now asserts.now) }
{
    if equations.is_empty() && asserts.is_empty() {
        return 0;
    }
    let lines = add(of_str(heading), of_equations(vars, equations));
    add(lines, of_asserts(vars, asserts))
}

fn of_equations(vars: &[FlatVar], equations: &[FlatEquation]) -> u64
    ensures { result ≡ bytes (flat_map (equation_line vars.now) equations.now) }
{
    let mut all = 0u64;
    for q in equations {
        all = all.saturating_add(of_equation_line(vars, q));
    }
    all
}

/// The line of an equation: two blanks, ` = `, and a semicolon with a line feed.
fn of_equation_line(vars: &[FlatVar], q: &FlatEquation) -> u64
    ensures { result ≡ bytes (equation_line vars.now q.now) }
{
    let sides = add(of_operand(vars, &q.left, 1), of_expr(vars, &q.right));
    sides.saturating_add(7)
}

fn of_asserts(vars: &[FlatVar], asserts: &[FlatAssert]) -> u64
    ensures { result ≡ bytes (flat_map (assert_line vars.now) asserts.now) }
{
    let mut all = 0u64;
    for a in asserts {
        all = all.saturating_add(of_assert_line(vars, a));
    }
    all
}

/// The line of an assert: two blanks, its name, a comma with a blank, parentheses, and a semicolon with a line feed.
fn of_assert_line(vars: &[FlatVar], a: &FlatAssert) -> u64
    ensures { result ≡ bytes (assert_line vars.now a.now) }
{
    let parts = add(of_expr(vars, &a.condition), of_expr(vars, &a.message));
    parts
        .saturating_add(of_level(vars, &a.level))
        .saturating_add(14)
}

fn of_level(vars: &[FlatVar], level: &Option<FlatExpr>) -> u64
    ensures { result ≡ bytes (assert_level_text vars.now level.now) }
{
    match level {
        None => 0,
        Some(e) => of_expr(vars, e).saturating_add(2),
    }
}
