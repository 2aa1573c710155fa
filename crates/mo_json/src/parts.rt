//! Numbers, names and small objects as values.
ghost use Rattle.std.specs.Prelude.{◌≡◌, ◌<◌, length, slice_index, string_bytes, IfOk};
ghost use Rattle.serde_json.specs.View.{view};
ghost use Rattle.mo_report.specs.Lines.{unknown_name, derivative};
ghost use Rattle.mo_json.specs.Values.{name_data, equation_data, unknown_data, reason_data, derivative_data, dummy_data};

use mo_incidence::{Offsets, Reason};
use mo_syntax::{NoMemory, Text};
use serde_json::{Value, json};
use std::alloc::Global;

/// The number at a place, and 0 past the last.
fn number_at(numbers: &[u32], at: usize) -> u32
    ensures { result ≡ slice_index numbers.now at }
{
    match numbers.get(at) {
        Some(number) => *number,
        None => 0,
    }
}

/// The name of an unknown by its number, from 1, and nothing where there is none.
fn name_of(names: &[Text], unknown: usize) -> &str
    ensures { result.now ≡ unknown_name names.now unknown }
{
    if unknown == 0 {
        return "";
    }
    match names.get(unknown - 1) {
        None => "",
        Some(name) => name.as_str(),
    }
}

/// The name of an unknown by its number.
pub(crate) fn name_value(alloc: Global, names: &[Text], unknown: u32) -> Result<Value, NoMemory>
    ensures { IfOk result (λ value. view value ≡ name_data names.now unknown) }
{
    Ok(Value::try_from_str(alloc, name_of(names, unknown as usize))?)
}

/// An unknown's name in as many derivatives as its order says.

fn derivative_text(
    alloc: Global,
    names: &[Text],
    unknown: u32,
    order: u32,
) -> Result<String, NoMemory>
    ensures { IfOk result (λ text. string_bytes text ≡ derivative names.now unknown order) }
{
    let mut out = String::new(alloc);
    for _opened in 0..order {
        out.push_str("der(")?;
    }
    out.push_str(name_of(names, unknown as usize))?;
    for _closed in 0..order {
        out.push_str(")")?;
    }
    Ok(out)
}

/// An order of an unknown as derivatives.
pub(crate) fn derivative_value(
    alloc: Global,
    names: &[Text],
    state: (u32, u32),
) -> Result<Value, NoMemory>
    ensures { IfOk result (λ value. view value ≡ derivative_data names.now state) }
{
    Ok(Value::String(derivative_text(alloc, names, state.0, state.1)?))
}

/// The offset of an equation with its unknown and the order at it.
pub(crate) fn equation_value(
    alloc: Global,
    names: &[Text],
    orders: &[u32],
    offsets: &Offsets,
    at: usize,
) -> Result<Value, NoMemory>
    ensures { IfOk result (λ value. view value ≡ equation_data names.now orders.now offsets.now at) }
{
    let c = number_at(&offsets.c, at);
    let order = number_at(orders, at);
    let pair = name_of(names, number_at(&offsets.pairs, at) as usize);
    Ok(json!(in alloc; {"c": c, "order": order, "pair": pair})?)
}

/// The offset of an unknown with its name.
pub(crate) fn unknown_value(
    alloc: Global,
    names: &[Text],
    offsets: &Offsets,
    at: usize,
) -> Result<Value, NoMemory>
    requires { at < length names.now }
    ensures { IfOk result (λ value. view value ≡ unknown_data names.now offsets.now at) }
{
    let d = number_at(&offsets.d, at);
    let name = name_of(names, at + 1);
    Ok(json!(in alloc; {"d": d, "name": name})?)
}

/// Why an equation is differentiated.
pub(crate) fn reason_value(alloc: Global, reason: Reason) -> Result<Value, NoMemory>
    ensures { IfOk result (λ value. view value ≡ reason_data reason) }
{
    Ok(json!(in alloc; {"equation": reason.equation, "from": reason.from})?)
}

/// A derivative with its stage and the equation that makes it a dummy.
pub(crate) fn dummy_value(
    alloc: Global,
    names: &[Text],
    dummy: (u32, u32, u32, u32),
) -> Result<Value, NoMemory>
    ensures { IfOk result (λ value. view value ≡ dummy_data names.now dummy) }
{
    let (unknown, order, stage, equation) = dummy;
    let derivative = derivative_text(alloc, names, unknown, order)?;
    Ok(json!(in alloc; {"derivative": derivative, "equation": equation, "stage": stage})?)
}
