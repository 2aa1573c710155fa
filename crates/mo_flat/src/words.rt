//! The marks and names of which the printed text is made.
ghost use Rattle.std.specs.Prelude.{◌≡◌, [], map, slice_get, unwrap_or};
ghost use Rattle.mo_flat.specs.Text.{attribute_mark, attribute_name, branch_mark, factor_mark, function_name, relation_mark, role_text, separator, term_mark, variable_name};

use crate::FlatVar;
use mo_syntax::{RelOp, Role};
use mo_tables::{FUNCTIONS, Row};

/// What stands before a term.
pub(crate) fn mark_of_term(first: bool, minus: bool) -> &'static str
    ensures { result.now ≡ term_mark first minus }
{
    match (first, minus) {
        (true, true) => "-",
        (true, false) => "",
        (false, true) => " - ",
        (false, false) => " + ",
    }
}

/// What stands before a factor.
pub(crate) fn mark_of_factor(first: bool, divides: bool) -> &'static str
    ensures { result.now ≡ factor_mark first divides }
{
    match (first, divides) {
        (_, true) => "/",
        (true, false) => "",
        (false, false) => "*",
    }
}

/// The mark between parts, and nothing before the first.
pub(crate) fn mark_between<'a>(first: bool, mark: &'a str) -> &'a str
    ensures { result.now ≡ separator mark.now first }
{
    if first { "" } else { mark }
}

/// What stands before the condition of a branch.
pub(crate) fn mark_of_branch(first: bool) -> &'static str
    ensures { result.now ≡ branch_mark first }
{
    if first { "if " } else { " elseif " }
}

/// What stands before an attribute.
pub(crate) fn mark_of_attribute(first: bool) -> &'static str
    ensures { result.now ≡ attribute_mark first }
{
    if first { "(" } else { ", " }
}

/// A relation's operator with its blanks.
pub(crate) fn mark_of_relation(op: RelOp) -> &'static str
    ensures { result.now ≡ relation_mark op }
{
    match op {
        RelOp::Less => " < ",
        RelOp::LessEqual => " <= ",
        RelOp::Greater => " > ",
        RelOp::GreaterEqual => " >= ",
        RelOp::Equal => " == ",
        RelOp::NotEqual => " <> ",
    }
}

/// The word before a variable's kind, with its blank.
pub(crate) fn word_of_role(role: Role) -> &'static str
    ensures { result.now ≡ role_text role }
{
    match role {
        Role::Unknown => "",
        Role::Given => "input ",
        Role::Parameter => "parameter ",
        Role::Constant => "constant ",
    }
}

/// The name of a variable by its number, from 1, and nothing past the last.
pub(crate) fn name_of_variable(vars: &[FlatVar], variable: u32) -> &str
    ensures { result.now ≡ variable_name vars.now variable }
{
    if variable == 0 {
        return "";
    }
    match vars.get(variable as usize - 1) {
        None => "",
        Some(v) => v.name.as_str(),
    }
}

/// The name at a place of a table of words, and nothing past the last.
fn name_in(table: &[Row], at: usize) -> &'static str
    ensures { result.now ≡ unwrap_or (slice_get (map (λ row. row.name.now) table.now) at) [] }
{
    if at < table.len() { table[at].name } else { "" }
}

/// The name of a function by its number, from 0, and nothing past the last.
#[tactic(auto, unfolding(mo_tables::specs::Words::functions))]
pub(crate) fn name_of_function(function: u16) -> &'static str
    ensures { result.now ≡ function_name function }
{
    name_in(&FUNCTIONS, function as usize)
}

/// The names of attributes by their number, from 0 (Modelica Language Specification 3.5, section 4.8).
const ATTRIBUTES: [&str; 10] = [
    "quantity",
    "unit",
    "displayUnit",
    "min",
    "max",
    "start",
    "fixed",
    "nominal",
    "unbounded",
    "stateSelect",
];

/// The name of an attribute by its number, from 0, and nothing past the last.
pub fn name_of_attribute(attribute: u8) -> &'static str
    ensures { result.now ≡ attribute_name attribute }
{
    match ATTRIBUTES.get(attribute as usize) {
        None => "",
        Some(name) => name,
    }
}
