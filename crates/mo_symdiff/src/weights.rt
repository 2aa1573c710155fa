//! What is counted of an expression: its nodes, or bytes of the texts in it.
ghost use Rattle.std.specs.Prelude.{◌≡◌, ℕ, ◌+◌, ◌*◌, length, if◌then◌else◌};
ghost use Rattle.mo_flat.specs.Text.{variable_name};
ghost use Rattle.mo_symdiff.specs.Weights.{args_row, call_row, call_row_of_two, capped, literal_row, literal_weight, node_weight, row_of, row_weight, variable_weight};

use mo_flat::{FlatExpr, FlatVar};
use mo_syntax::Text;
use mo_tables::functions::{
    ABS, ACOS, ASIN, ATAN, ATAN2, COS, COSH, EXP, LOG, LOG10, MAX, MIN, SIN, SINH, SQRT, TAN, TANH,
};

/// What is counted of an expression.
#[derive(Clone, Copy)]
pub(crate) enum Measure {
    /// Its nodes, where a variable of order k counts k more.
    Nodes,
    /// The bytes of the texts of its literals.
    Literals,
    /// The bytes of the texts of its literals and of the names of its variables.
    Names,
}

/// What the derivative of a call is made of.
#[derive(Clone, Copy)]
pub(crate) struct Row {
    /// Its own nodes.
    pub(crate) nodes: u64,
    /// How often the arguments stand in it.
    pub(crate) arguments: u64,
    /// How often the derivatives of the arguments stand in it.
    pub(crate) slopes: u64,
}

pub(crate) fn node_weight(measure: Measure) -> u64
    ensures weight { result ≡ node_weight measure }
    ensures stops { result ≡ capped (node_weight measure) }
{
    match measure {
        Measure::Nodes => 1,
        Measure::Literals => 0,
        Measure::Names => 0,
    }
}

fn literal_weight(measure: Measure, text: &Text) -> u64
    ensures { result ≡ literal_weight measure text.now }
{
    match measure {
        Measure::Nodes => 0,
        Measure::Literals => text.as_str().len() as u64,
        Measure::Names => text.as_str().len() as u64,
    }
}

fn name_bytes(vars: &[FlatVar], variable: u32) -> u64
    ensures { result ≡ length (variable_name vars.now variable) }
{
    if variable == 0 {
        return 0;
    }
    match vars.get(variable as usize - 1) {
        None => 0,
        Some(v) => v.name.as_str().len() as u64,
    }
}

fn variable_weight(vars: &[FlatVar], measure: Measure, variable: u32, order: u32) -> u64
    ensures { result ≡ variable_weight vars.now measure variable order }
{
    match measure {
        Measure::Nodes => order as u64,
        Measure::Literals => 0,
        Measure::Names => name_bytes(vars, variable),
    }
}

/// The sum of two weights.
pub(crate) fn add(a: u64, b: u64) -> u64
    ensures { (x y : ℕ) → a ≡ capped x → b ≡ capped y → result ≡ capped (x + y) }
{
    a.saturating_add(b)
}

/// The weight of a literal with its node.
pub(crate) fn text_weight(measure: Measure, text: &Text) -> u64
    ensures { result ≡ capped (node_weight measure + literal_weight measure text.now) }
{
    node_weight(measure).saturating_add(literal_weight(measure, text))
}

/// The weight of a variable with its node.
pub(crate) fn name_weight(vars: &[FlatVar], measure: Measure, variable: u32, order: u32) -> u64
    ensures { result ≡ capped (node_weight measure + variable_weight vars.now measure variable order) }
{
    node_weight(measure).saturating_add(variable_weight(vars, measure, variable, order))
}

/// A weight so many times.
pub(crate) fn times(count: u64, a: u64) -> u64
    ensures { (n x : ℕ) → count ≡ capped n → a ≡ capped x → result ≡ capped (n * x) }
{
    count.saturating_mul(a)
}

/// The weight of what a row makes.
pub(crate) fn row_weight(row: Row, measure: Measure, arguments: u64, slopes: u64) -> u64
    ensures { (x y : ℕ) → arguments ≡ capped x → slopes ≡ capped y → result ≡ capped (row_weight row (node_weight measure) x y) }
{
    let nodes = times(row.nodes, node_weight(measure));
    let parts = add(times(row.arguments, arguments), times(row.slopes, slopes));
    add(nodes, parts)
}

pub(crate) fn row_of(nodes: u64, arguments: u64, slopes: u64) -> Row
    ensures { result ≡ row_of nodes arguments slopes }
{
    Row {
        nodes,
        arguments,
        slopes,
    }
}

/// The row of a power with a literal as its exponent, whose argument is its base.
pub(crate) fn literal_row(n: i64) -> Row
    ensures { result ≡ literal_row n }
{
    if n == 2 {
        return row_of(2, 1, 1);
    }
    row_of(4, 1, 1)
}

/// One of two weights.
pub(crate) fn choose(first: bool, a: u64, b: u64) -> u64
    ensures { result ≡ (if first then a else b) }
{
    if first { a } else { b }
}

/// The row of a function of one argument.
fn call_row(function: u16) -> Row
    ensures { result ≡ call_row function }
{
    if function == SIN {
        return row_of(2, 1, 1);
    }
    if function == COS {
        return row_of(3, 1, 1);
    }
    if function == TAN {
        return row_of(4, 1, 1);
    }
    if function == ASIN {
        return row_of(6, 1, 1);
    }
    if function == ACOS {
        return row_of(7, 1, 1);
    }
    if function == ATAN {
        return row_of(5, 1, 1);
    }
    if function == SINH {
        return row_of(2, 1, 1);
    }
    if function == COSH {
        return row_of(2, 1, 1);
    }
    if function == TANH {
        return row_of(4, 1, 1);
    }
    if function == EXP {
        return row_of(2, 1, 1);
    }
    if function == LOG {
        return row_of(1, 1, 1);
    }
    if function == LOG10 {
        return row_of(4, 1, 1);
    }
    if function == SQRT {
        return row_of(4, 1, 1);
    }
    if function == ABS {
        return row_of(4, 1, 2);
    }
    row_of(1, 0, 1)
}

/// The row of a function of two arguments.
fn call_row_of_two(function: u16) -> Row
    ensures { result ≡ call_row_of_two function }
{
    if function == ATAN2 {
        return row_of(9, 2, 1);
    }
    if function == MIN {
        return row_of(2, 1, 1);
    }
    if function == MAX {
        return row_of(2, 1, 1);
    }
    row_of(1, 0, 1)
}

/// The row of a function with these arguments.
pub(crate) fn args_row(function: u16, args: &[FlatExpr]) -> Row
    ensures { result ≡ args_row function args.now }
{
    match args {
        [_] => call_row(function),
        [_, _] => call_row_of_two(function),
        _ => row_of(1, 0, 1),
    }
}
