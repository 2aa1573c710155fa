//! The line that sums up a ladder.
ghost use Rattle.std.specs.Prelude.{◌≡◌, ◌++◌, None, length, string_bytes, IfOk, OnOk};
ghost use Rattle.mo_flat.specs.Sound.{IsSoundModel};
ghost use Rattle.mo_incidence.specs.Model.{incidence_of, refusal_of};
ghost use Rattle.mo_front.specs.Emitted.{PhasesBreak, Refuses, asked_by};
ghost use Rattle.mo_front.specs.steps.Structure.{IsFoundOf};
ghost use Rattle.mo_front.specs.Ladder.{IsSummary, counts_text, named_number, structure_text, summary_line};
ghost use Rattle.mo_syntax.specs.Outcome.{IfBroken};

use crate::emit::passed;
use crate::structure::{Analysis, analysis_of, report_of};
use crate::table::phases;
use crate::words::Emit;
use itoa::Buffer;
use mo_flat::FlatModel;
use mo_report::Report;
use mo_syntax::{NoMemory, Stop, Text};
use std::alloc::Global;

/// The line of a ladder of so many rungs with a sound flat model, or the first rule that a phase breaks that the report asks for.
pub(crate) fn summary_of(alloc: Global, n: u32, m: &FlatModel) -> Result<Text, Stop>
    requires sound { IsSoundModel m.now }
    ensures sums { IfOk result (IsSummary n m.now) }
    ensures refused { IfBroken result (λ b. Refuses Emit.Report m.now b) }
{
    match analysis_of(alloc, m) {
        Ok(analysis) => match passed(alloc, m, &analysis.found.offsets, phases(Emit::Report)) {
            Ok(_made) => Ok(summary_by(alloc, n, m, analysis)?),
            Err(stop) => Err(stop),
        },
        Err(stop) => Err(stop),
    }
}

/// The line by the report on the model.
fn summary_by(alloc: Global, n: u32, m: &FlatModel, a: Analysis) -> Result<Text, NoMemory>
    requires accepted { refusal_of m.now ≡ None }
    requires incidence { a.incidence ≡ incidence_of m.now }
    requires found { IsFoundOf (incidence_of m.now) a.found }
    requires passed { PhasesBreak m.now a.found.offsets (asked_by Emit.Report).phases None }
    ensures { IfOk result (IsSummary n m.now) }
{
    let Analysis { incidence, found } = a;
    let report = report_of(alloc, m, &incidence, found)?;
    let text = line(alloc, n, m, &report)?;
    Ok(text)
}

fn line(alloc: Global, n: u32, m: &FlatModel, r: &Report) -> Result<Text, NoMemory>
    ensures { IfOk result (λ text. text ≡ summary_line n m.now r.now) }
{
    let mut out = String::new(alloc);
    push_line(&mut out, n, m, r)?;
    Ok(Text::from_string(out))
}

fn push_line(out: &mut String, n: u32, m: &FlatModel, r: &Report) -> Result<(), NoMemory>
    ensures { OnOk result (string_bytes out.new ≡ string_bytes out.old ++ summary_line n m.now r.now) }
{
    push_number(out, "ladder ", n as usize)?;
    push_counts(out, m, r)?;
    push_structure(out, r)?;
    out.push_str("\n")?;
    Ok(())
}

/// Appends how large the flat model is.
fn push_counts(out: &mut String, m: &FlatModel, r: &Report) -> Result<(), NoMemory>
    ensures { OnOk result (string_bytes out.new ≡ string_bytes out.old ++ counts_text m.now r.now) }
{
    push_number(out, ": variables ", variables(m))?;
    push_number(out, ", equations ", r.equations as usize)?;
    push_number(out, ", unknowns ", r.unknowns.len())?;
    Ok(())
}

/// How many variables there are.
fn variables(m: &FlatModel) -> usize
    ensures { result ≡ length m.now.vars }
{
    m.vars.len()
}

/// Appends the numbers of the report.
fn push_structure(out: &mut String, r: &Report) -> Result<(), NoMemory>
    ensures { OnOk result (string_bytes out.new ≡ string_bytes out.old ++ structure_text r.now) }
{
    push_number(out, ", index ", r.index as usize)?;
    push_number(out, ", freedom ", r.freedom as usize)?;
    push_number(out, ", blocks ", r.blocks.0.len())?;
    Ok(())
}

/// Appends a name and a number behind it.
#[tactic(auto, unfolding(crate::specs::Ladder::named_number))]
fn push_number(out: &mut String, name: &str, n: usize) -> Result<(), NoMemory>
    ensures { OnOk result (string_bytes out.new ≡ string_bytes out.old ++ named_number name.now n) }
{
    let mut buffer = Buffer::new();
    out.push_str(name)?;
    out.push_str(buffer.format(n))?;
    Ok(())
}
