//! Lists of values, in the order of the report's lines.
ghost use Rattle.std.specs.Prelude.{◌≡◌, length, map, IfOk};
ghost use Rattle.serde_json.specs.View.{view};
ghost use Rattle.mo_json.specs.Values.{numbers_data, names_data, reason_data, dummy_data, derivative_data, equation_data, unknown_data, listed, data_below};

use crate::parts::{
    derivative_value, dummy_value, equation_value, name_value, reason_value, unknown_value,
};
use mo_incidence::{Offsets, Reason};
use mo_syntax::{NoMemory, Text};
use serde_json::Value;
use std::alloc::Global;

pub(crate) fn numbers_value(alloc: Global, numbers: &[u32]) -> Result<Value, NoMemory>
    ensures { IfOk result (λ value. view value ≡ numbers_data numbers.now) }
{
    let mut list = Vec::new(alloc);
    for number in numbers {
        list.push(Value::from(*number))?;
    }
    Ok(Value::Array(list))
}

/// The names of unknowns by their numbers.
pub(crate) fn names_value(
    alloc: Global,
    names: &[Text],
    unknowns: &[u32],
) -> Result<Value, NoMemory>
    ensures { IfOk result (λ value. view value ≡ names_data names.now unknowns.now) }
{
    let mut list = Vec::new(alloc);
    for unknown in unknowns {
        list.push(name_value(alloc, names, *unknown)?)?;
    }
    Ok(Value::Array(list))
}

pub(crate) fn blocks_value(alloc: Global, blocks: &[Vec<u32>]) -> Result<Value, NoMemory>
    ensures { IfOk result (λ value. view value ≡ listed (map (λ block. numbers_data block.items) blocks.now)) }
{
    let mut list = Vec::new(alloc);
    for block in blocks {
        list.push(numbers_value(alloc, block)?)?;
    }
    Ok(Value::Array(list))
}

pub(crate) fn reasons_value(alloc: Global, reasons: &[Reason]) -> Result<Value, NoMemory>
    ensures { IfOk result (λ value. view value ≡ listed (map reason_data reasons.now)) }
{
    let mut list = Vec::new(alloc);
    for reason in reasons {
        list.push(reason_value(alloc, *reason)?)?;
    }
    Ok(Value::Array(list))
}

pub(crate) fn dummies_value(
    alloc: Global,
    names: &[Text],
    dummies: &[(u32, u32, u32, u32)],
) -> Result<Value, NoMemory>
    ensures { IfOk result (λ value. view value ≡ listed (map (dummy_data names.now) dummies.now)) }
{
    let mut list = Vec::new(alloc);
    for dummy in dummies {
        list.push(dummy_value(alloc, names, *dummy)?)?;
    }
    Ok(Value::Array(list))
}

pub(crate) fn states_value(
    alloc: Global,
    names: &[Text],
    states: &[(u32, u32)],
) -> Result<Value, NoMemory>
    ensures { IfOk result (λ value. view value ≡ listed (map (derivative_data names.now) states.now)) }
{
    let mut list = Vec::new(alloc);
    for state in states {
        list.push(derivative_value(alloc, names, *state)?)?;
    }
    Ok(Value::Array(list))
}

pub(crate) fn equations_value(
    alloc: Global,
    names: &[Text],
    orders: &[u32],
    offsets: &Offsets,
    equations: u32,
) -> Result<Value, NoMemory>
    ensures { IfOk result (λ value. view value ≡ listed (data_below (equation_data names.now orders.now offsets.now) equations)) }
{
    let mut list = Vec::new(alloc);
    for at in 0..equations {
        list.push(equation_value(alloc, names, orders, offsets, at as usize)?)?;
    }
    Ok(Value::Array(list))
}

pub(crate) fn unknowns_value(
    alloc: Global,
    names: &[Text],
    offsets: &Offsets,
) -> Result<Value, NoMemory>
    ensures { IfOk result (λ value. view value ≡ listed (data_below (unknown_data names.now offsets.now) (length names.now))) }
{
    let mut list = Vec::new(alloc);
    for at in 0..names.len() {
        list.push(unknown_value(alloc, names, offsets, at)?)?;
    }
    Ok(Value::Array(list))
}
