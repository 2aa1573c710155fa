//! The value of a whole report, by its kind.
ghost use Rattle.std.specs.Prelude.{◌≡◌, IfOk, OnOk};
ghost use Rattle.serde_json.specs.View.{view, members_view};
ghost use Rattle.mo_json.specs.steps.Building.{with_counts, with_offsets, with_square};
ghost use Rattle.mo_json.specs.Values.{deficit_data, singular_data, found_data, undetermined_data, square_data, report_data, json_line};

use crate::lists::{
    blocks_value, dummies_value, equations_value, names_value, numbers_value, reasons_value,
    states_value, unknowns_value,
};
use mo_incidence::{Deficit, Offsets};
use mo_report::Report;
use mo_syntax::{NoMemory, Text};
use serde_json::{Map, Value, put};
use std::alloc::Global;

/// Puts what every report has: its kind, the model's name and the counts.
fn put_counts(
    map: &mut Map<String, Value>,
    alloc: Global,
    r: &Report,
    kind: &str,
) -> Result<(), NoMemory>
    ensures { OnOk result (members_view map.new.entries ≡ with_counts r.now kind.now (members_view map.old.entries)) }
{
    put(map, alloc, "kind", Value::try_from_str(alloc, kind)?)?;
    put(
        map,
        alloc,
        "model",
        Value::try_from_str(alloc, r.name.as_str())?,
    )?;
    put(map, alloc, "equation_count", Value::from(r.equations))?;
    put(map, alloc, "unknown_count", Value::from(r.unknowns.len()))?;
    Ok(())
}

/// Puts the offsets of the equations and of the unknowns.
fn put_offsets(
    map: &mut Map<String, Value>,
    alloc: Global,
    r: &Report,
    offsets: &Offsets,
) -> Result<(), NoMemory>
    ensures { OnOk result (members_view map.new.entries ≡ with_offsets r.now offsets.now (members_view map.old.entries)) }
{
    let names = r.unknowns.as_slice();
    put(
        map,
        alloc,
        "equations",
        equations_value(alloc, names, &r.orders, offsets, r.equations)?,
    )?;
    put(
        map,
        alloc,
        "unknowns",
        unknowns_value(alloc, names, offsets)?,
    )?;
    Ok(())
}

/// Puts what only square systems have.
fn put_square(map: &mut Map<String, Value>, alloc: Global, r: &Report) -> Result<(), NoMemory>
    ensures { OnOk result (members_view map.new.entries ≡ with_square r.now (members_view map.old.entries)) }
{
    let names = r.unknowns.as_slice();
    put(map, alloc, "reasons", reasons_value(alloc, &r.reasons)?)?;
    put(map, alloc, "blocks", blocks_value(alloc, &r.blocks.0)?)?;
    put(
        map,
        alloc,
        "dummies",
        dummies_value(alloc, names, &r.dummies.chosen)?,
    )?;
    put(
        map,
        alloc,
        "states",
        states_value(alloc, names, &r.dummies.states)?,
    )?;
    put(map, alloc, "index", Value::from(r.index))?;
    put(map, alloc, "freedom", Value::from(r.freedom))?;
    Ok(())
}

/// The equations of a deficit and the unknowns that they mention.
fn deficit_value(alloc: Global, names: &[Text], deficit: &Deficit) -> Result<Value, NoMemory>
    ensures { IfOk result (λ value. view value ≡ deficit_data names.now deficit.now) }
{
    let mut map = Map::new(alloc);
    put(
        &mut map,
        alloc,
        "equations",
        numbers_value(alloc, &deficit.equations)?,
    )?;
    put(
        &mut map,
        alloc,
        "mentions",
        names_value(alloc, names, &deficit.unknowns)?,
    )?;
    Ok(Value::Object(map))
}

fn singular_value(alloc: Global, r: &Report, deficit: &Deficit) -> Result<Value, NoMemory>
    ensures { IfOk result (λ value. view value ≡ singular_data r.now deficit.now) }
{
    let mut map = Map::new(alloc);
    put_counts(&mut map, alloc, r, "deficit")?;
    put(
        &mut map,
        alloc,
        "deficit",
        deficit_value(alloc, r.unknowns.as_slice(), deficit)?,
    )?;
    Ok(Value::Object(map))
}

fn undetermined_value(alloc: Global, r: &Report, offsets: &Offsets) -> Result<Value, NoMemory>
    ensures { IfOk result (λ value. view value ≡ undetermined_data r.now offsets.now) }
{
    let mut map = Map::new(alloc);
    put_counts(&mut map, alloc, r, "undetermined")?;
    put_offsets(&mut map, alloc, r, offsets)?;
    put(
        &mut map,
        alloc,
        "undetermined",
        names_value(alloc, r.unknowns.as_slice(), &r.loose)?,
    )?;
    Ok(Value::Object(map))
}

fn square_value(alloc: Global, r: &Report, offsets: &Offsets) -> Result<Value, NoMemory>
    ensures { IfOk result (λ value. view value ≡ square_data r.now offsets.now) }
{
    let mut map = Map::new(alloc);
    put_counts(&mut map, alloc, r, "square")?;
    put_offsets(&mut map, alloc, r, offsets)?;
    put_square(&mut map, alloc, r)?;
    Ok(Value::Object(map))
}

fn found_value(alloc: Global, r: &Report) -> Result<Value, NoMemory>
    ensures { IfOk result (λ value. view value ≡ found_data r.now r.now.offsets) }
{
    match &r.offsets {
        None => Ok(Value::Null),
        Some(offsets) => {
            if (r.equations as usize) < r.unknowns.len() {
                undetermined_value(alloc, r, offsets)
            } else {
                square_value(alloc, r, offsets)
            }
        }
    }
}

/// The value of a report: an object whose `kind` is `deficit`, `undetermined` or `square`, with the lists of that kind in the
/// order of the report's lines. A report with neither a deficit nor offsets is `null`. `NoMemory` is the only other answer.
pub fn report_value(alloc: Global, r: &Report) -> Result<Value, NoMemory>
    ensures { IfOk result (λ value. view value ≡ report_data r.now) }
{
    match &r.deficit {
        Some(deficit) => singular_value(alloc, r, deficit),
        None => found_value(alloc, r),
    }
}

/// The compact text of the value of a report, which has no white space, and a line feed. `NoMemory` is the only other answer.
#[tactic(auto, using(crate::proofs::Floats::no_floats))]
pub fn report_json(alloc: Global, r: &Report) -> Result<Text, NoMemory>
    ensures { IfOk result (λ text. text ≡ json_line r.now) }
{
    let value = report_value(alloc, r)?;
    let mut line = value.to_string(alloc)?;
    line.push_str("\n")?;
    Ok(Text::from_string(line))
}
