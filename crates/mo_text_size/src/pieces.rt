//! The bytes of the marks and names of which the text is made.
ghost use Rattle.std.specs.Prelude.{◌≡◌, ◌++◌, List, map, slice_get, unwrap_or, ℕ, []};
ghost use Rattle.std.specs.Fmt.{signed_decimal};
ghost use Rattle.mo_flat.specs.Text.{attribute_mark, attribute_name, branch_mark, derivative_text, factor_mark, function_name, level_of, relation_mark, role_text, separator, term_mark, variable_name};
ghost use Rattle.mo_text_size.specs.Bytes.{bytes};

use itoa::Buffer;
use mo_flat::{FlatExpr, FlatVar};
use mo_syntax::{RelOp, Role};
use mo_tables::{FUNCTIONS, Row};

/// The bytes of two texts together.
pub(crate) fn add(a: u64, b: u64) -> u64
    ensures { (s t : List ℕ) → a ≡ bytes s → b ≡ bytes t → result ≡ bytes (s ++ t) }
{
    a.saturating_add(b)
}

pub(crate) fn of_str(text: &str) -> u64
    ensures { result ≡ bytes text.now }
{
    text.len() as u64
}

/// How tightly an expression binds, from 0 to 8.
pub(crate) fn level(e: &FlatExpr) -> u8
    ensures { result ≡ level_of e.now }
{
    match e {
        FlatExpr::Whole(n) => { if *n < 0 { 5 } else { 8 } }
        FlatExpr::Sum(_) => 5,
        FlatExpr::Product(_) => 6,
        FlatExpr::Power(_, _) => 7,
        FlatExpr::Relation(_, _, _) => 4,
        FlatExpr::Not(_) => 3,
        FlatExpr::All(_) => 2,
        FlatExpr::Any(_) => 1,
        FlatExpr::If(_, _) => 0,
        FlatExpr::Decimal(_) | FlatExpr::Str(_) | FlatExpr::Literal(_) => 8,
        FlatExpr::Truth(_) | FlatExpr::Time | FlatExpr::Var(_, _) => 8,
        FlatExpr::Der(_) | FlatExpr::Call(_, _) => 8,
    }
}

/// What stands before a term.
pub(crate) fn of_term_mark(first: bool, minus: bool) -> u64
    ensures { result ≡ bytes (term_mark first minus) }
{
    match (first, minus) {
        (true, true) => 1,
        (true, false) => 0,
        (false, true) => 3,
        (false, false) => 3,
    }
}

/// What stands before a factor.
pub(crate) fn of_factor_mark(first: bool, divides: bool) -> u64
    ensures { result ≡ bytes (factor_mark first divides) }
{
    match (first, divides) {
        (_, true) => 1,
        (true, false) => 0,
        (false, false) => 1,
    }
}

/// The mark between parts, and nothing before the first.
pub(crate) fn of_separator(first: bool, mark: &str) -> u64
    ensures { result ≡ bytes (separator mark.now first) }
{
    if first { 0 } else { of_str(mark) }
}

/// What stands before the condition of a branch.
pub(crate) fn of_branch_mark(first: bool) -> u64
    ensures { result ≡ bytes (branch_mark first) }
{
    if first { 3 } else { 8 }
}

/// What stands before an attribute.
pub(crate) fn of_attribute_mark(first: bool) -> u64
    ensures { result ≡ bytes (attribute_mark first) }
{
    if first { 1 } else { 2 }
}

/// A relation's operator with its blanks.
pub(crate) fn mark_of_relation(op: RelOp) -> &'static str
    ensures { result.now ≡ relation_mark op }
{
    match op {
        RelOp::Less => " < ",
        RelOp::LessEqual => " <= ",
        RelOp::Greater => " > ",
        RelOp::GreaterEqual => " >= ",
        RelOp::Equal => " == ",
        RelOp::NotEqual => " <> ",
    }
}

/// The word before a variable's kind, with its blank.
pub(crate) fn of_role(role: Role) -> u64
    ensures { result ≡ bytes (role_text role) }
{
    match role {
        Role::Unknown => 0,
        Role::Given => 6,
        Role::Parameter => 10,
        Role::Constant => 9,
    }
}

/// The name of a variable by its number, from 1, and nothing past the last.
fn name_of_variable(vars: &[FlatVar], variable: u32) -> u64
    ensures { result ≡ bytes (variable_name vars.now variable) }
{
    if variable == 0 {
        return 0;
    }
    match vars.get(variable as usize - 1) {
        None => 0,
        Some(v) => of_str(v.name.as_str()),
    }
}

/// A variable's name in as many derivatives as its order says, `der(` and `)` for each.
pub(crate) fn of_variable(vars: &[FlatVar], variable: u32, order: u32) -> u64
    ensures { result ≡ bytes (derivative_text order (variable_name vars.now variable)) }
{
    name_of_variable(vars, variable).saturating_add(5 * order as u64)
}

/// An Integer value in decimal digits.
pub(crate) fn of_whole(n: i64) -> u64
    ensures { result ≡ bytes (signed_decimal n) }
{
    let mut buffer = Buffer::new();
    of_str(buffer.format(n))
}

/// The name at a place of a table of words, and nothing past the last.
fn name_in(table: &[Row], at: usize) -> u64
    ensures { result ≡ bytes (unwrap_or (slice_get (map (λ row. row.name.now) table.now) at) []) }
{
    if at < table.len() {
        of_str(table[at].name)
    } else {
        0
    }
}

/// The name of a function by its number, from 0, and nothing past the last.
#[tactic(auto, unfolding(mo_tables::specs::Words::functions))]
pub(crate) fn of_function(function: u16) -> u64
    ensures { result ≡ bytes (function_name function) }
{
    name_in(&FUNCTIONS, function as usize)
}

/// The name of an attribute by its number, from 0, and nothing past the last.
pub(crate) fn of_attribute(attribute: u8) -> u64
    ensures { result ≡ bytes (attribute_name attribute) }
{
    match attribute {
        0 => 8,
        1 => 4,
        2 => 11,
        3 => 3,
        4 => 3,
        5 => 5,
        6 => 5,
        7 => 7,
        8 => 9,
        9 => 11,
        _ => 0,
    }
}
