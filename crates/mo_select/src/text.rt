//! The text of a selection.
ghost use Rattle.std.specs.Prelude.{◌≡◌, ◌<◌, ◌+◌, ◌-◌, ◌++◌, [], flat_map, get_or, length, string_bytes, IfOk, OnOk};
ghost use Rattle.mo_incidence.specs.Offsets.{by_number, by_place};
ghost use Rattle.mo_report.specs.Lines.{lines_below};
ghost use Rattle.mo_select.specs.Text.{choice_line, equations_at, left_out, level_line, level_names, selection_lines, stage_head, stage_lines, stages_from};

use crate::selection::{Selection, Stage};
use mo_incidence::Offsets;
use mo_report::{number_at, push_numbered, write_derivative, write_numbers, write_states};
use mo_syntax::{NoMemory, Text};
use std::alloc::Global;

/// Writes the numbers of the equations that are differentiated at least so many times, each behind a blank.
fn write_equations(out: &mut String, c: &[u32], stage: u32) -> Result<(), NoMemory>
    ensures { OnOk result (string_bytes out.new ≡ string_bytes out.old ++ equations_at (by_place c.now) stage (length c.now)) }
{
    for at in 0..c.len() {
        if c[at] >= stage {
            push_numbered(out, " ", at + 1)?;
        }
    }
    Ok(())
}

fn write_stage_head(out: &mut String, c: &[u32], stage: u32) -> Result<(), NoMemory>
    ensures { OnOk result (string_bytes out.new ≡ string_bytes out.old ++ stage_head c.now stage) }
{
    push_numbered(out, "stage ", stage as usize)?;
    out.push_str(" equations")?;
    write_equations(out, c, stage)?;
    out.push_str("\n")?;
    Ok(())
}

/// The order of the derivative that is chosen of an unknown at a stage, which is at least 1.
fn order_of(d: &[u32], unknown: u32, stage: u32) -> u32
    requires stage { 0 < stage }
    ensures { result ≡ by_number d.now unknown - stage + 1 }
{
    let highest = match d.get((unknown as usize).saturating_sub(1)) {
        Some(highest) => *highest,
        None => 0,
    };
    highest.saturating_sub(stage) + 1
}

fn write_choice(
    out: &mut String,
    names: &[Text],
    d: &[u32],
    stage: u32,
    chosen: (u32, u32),
) -> Result<(), NoMemory>
    requires stage { 0 < stage }
    ensures { OnOk result (string_bytes out.new ≡ string_bytes out.old ++ choice_line names.now d.now stage chosen) }
{
    out.push_str("dummy ")?;
    write_derivative(out, names, chosen.0, order_of(d, chosen.0, stage))?;
    push_numbered(out, " stage ", stage as usize)?;
    out.push_str("\n")?;
    Ok(())
}

fn write_choices(
    out: &mut String,
    names: &[Text],
    d: &[u32],
    stage: u32,
    chosen: &[(u32, u32)],
) -> Result<(), NoMemory>
    requires stage { 0 < stage }
    ensures { OnOk result (string_bytes out.new ≡ string_bytes out.old ++ flat_map (choice_line names.now d.now stage) chosen.now) }
{
    for choice in chosen {
        write_choice(out, names, d, stage, *choice)?;
    }
    Ok(())
}

/// Writes the equations that are left out, where there are any.
fn write_left_out(out: &mut String, without: &[u32]) -> Result<(), NoMemory>
    ensures { OnOk result (string_bytes out.new ≡ string_bytes out.old ++ left_out without.now) }
{
    if without.is_empty() {
        return Ok(());
    }
    out.push_str(" without")?;
    write_numbers(out, without)
}

/// The name of a level of stateSelect.
fn level_name(level: usize) -> &'static str
    ensures { result.now ≡ get_or level_names level [] }
{
    match level {
        0 => "never",
        1 => "avoid",
        2 => "default",
        3 => "prefer",
        4 => "always",
        _ => "",
    }
}

/// The equations that are left out at a level of a stage.
fn without_at(stage: &Stage, level: usize) -> &[u32]
    ensures { result.now ≡ get_or stage.now.without level [] }
{
    match stage.without.get(level) {
        Some(without) => without.as_slice(),
        None => &[],
    }
}

fn write_level(out: &mut String, stage: &Stage, level: usize) -> Result<(), NoMemory>
    ensures { OnOk result (string_bytes out.new ≡ string_bytes out.old ++ level_line stage.now level) }
{
    out.push_str(level_name(level))?;
    push_numbered(out, " ", number_at(stage.counts.as_slice(), level))?;
    write_left_out(out, without_at(stage, level))?;
    out.push_str("\n")?;
    Ok(())
}

fn write_levels(out: &mut String, stage: &Stage) -> Result<(), NoMemory>
    ensures { OnOk result (string_bytes out.new ≡ string_bytes out.old ++ lines_below (level_line stage.now) 5) }
{
    for level in 0..5usize {
        write_level(out, stage, level)?;
    }
    Ok(())
}

fn write_stage(
    out: &mut String,
    names: &[Text],
    offsets: &Offsets,
    number: u32,
    stage: &Stage,
) -> Result<(), NoMemory>
    requires number { 0 < number }
    ensures { OnOk result (string_bytes out.new ≡ string_bytes out.old ++ stage_lines names.now offsets.now number stage.now) }
{
    write_stage_head(out, &offsets.c, number)?;
    write_choices(out, names, &offsets.d, number, stage.chosen.as_slice())?;
    write_levels(out, stage)
}

fn write_stages(
    out: &mut String,
    names: &[Text],
    offsets: &Offsets,
    stages: &[Stage],
) -> Result<(), NoMemory>
    ensures { OnOk result (string_bytes out.new ≡ string_bytes out.old ++ stages_from names.now offsets.now 1 stages.now) }
{
    let mut number = 1u32;
    for stage in stages {
        write_stage(out, names, offsets, number, stage)?;
        let Some(next) = number.checked_add(1) else {
            return Err(NoMemory);
        };
        number = next;
    }
    Ok(())
}

/// The text of a selection, each line ended by a line feed, where the model and its unknowns have these names and the offsets are those that it
/// was selected by. A number that is no unknown's has no name. `NoMemory` is the only other answer.
pub fn selection_text(
    alloc: Global,
    name: &Text,
    unknowns: &[Text],
    offsets: &Offsets,
    selection: &Selection,
) -> Result<Text, NoMemory>
    ensures { IfOk result (λ text. text ≡ selection_lines name.now unknowns.now offsets.now selection.now) }
{
    let mut out = String::new(alloc);
    out.push_str("select ")?;
    out.push_str(name.as_str())?;
    out.push_str("\n")?;
    write_stages(&mut out, unknowns, offsets, selection.stages.as_slice())?;
    write_states(&mut out, unknowns, selection.states.as_slice())?;
    Ok(Text::from_string(out))
}
