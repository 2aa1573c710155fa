//! What is written of a flat model.
ghost use Rattle.std.specs.Prelude.{◌≡◌, ◌≢◌, ◌++◌, Some, None, flat_map, nat_le, string_bytes, IfOk, IfSome, OnOk};
ghost use Rattle.mo_flat.specs.Sound.{IsSoundModel};
ghost use Rattle.mo_flat.specs.Text.{model_text};
ghost use Rattle.mo_incidence.specs.Model.{incidence_of, refusal_of};
ghost use Rattle.mo_symdiff.specs.Reduced.{reduced_lines, reduced_text, too_large};
ghost use Rattle.mo_report.specs.Lines.{report_lines};
ghost use Rattle.mo_json.specs.Values.{json_line};
ghost use Rattle.mo_report.specs.Right.{AreLeastOffsets, IsRightReport};
ghost use Rattle.mo_report.specs.Size.{report_limit};
ghost use Rattle.mo_select.specs.Text.{selection_lines};
ghost use Rattle.mo_front.specs.States.{selected_lines};
ghost use Rattle.mo_front.specs.Least.{IsLeastOf};
ghost use Rattle.mo_front.specs.steps.Structure.{IsFoundOf};
ghost use Rattle.mo_front.specs.Emitted.{IsReported, IsTextOf, IsTextOfAliases, PhaseBreaks, PhasesBreak, ReducedBreaks, Refuses, Selects, Writes, asked_by, derivatives_size, least_status, part_text, reduced_part, reduced_status, status_of};
ghost use Rattle.mo_syntax.specs.Outcome.{IfBroken};

use crate::states::selection_of;
use crate::status::Status;
use crate::structure::{Analysis, analysis_of, is_singular, report_of};
use crate::table::{Part, Phase, parts, phases};
use crate::words::Emit;
use mo_alias::{aliases, aliases_text};
use mo_flat::{FlatModel, flat_text};
use mo_incidence::{Incidence, Offsets};
use mo_json::report_json;
use mo_report::{Report, report_fits, report_text};
use mo_select::{Selection, selection_text};
use mo_symdiff::{reduced, reduced_text};
use mo_syntax::{NoMemory, Stop, Text, rules, stop};
use std::alloc::Global;

/// What is written of a sound flat model and the status, or the first rule that a phase breaks: the incidence, then the size of
/// the report, then the reduced model, each where it is asked for. Both of these go by the offsets, and are asked before blocks,
/// dummies and states are made.
pub(crate) fn written_of(alloc: Global, emit: Emit, m: &FlatModel) -> Result<(Status, Text), Stop>
    requires sound { IsSoundModel m.now }
    ensures written { IfOk result (λ w. Writes emit m.now w.0 w.1) }
    ensures refused { IfBroken result (λ b. Refuses emit m.now b) }
{
    match emit {
        Emit::Flat => Ok((Status::Done, flat_text(alloc, m)?)),
        Emit::Alias => without_aliases(alloc, m),
        Emit::Reduced => reduction(alloc, m),
        _ => analysed(alloc, emit, m),
    }
}

/// The aliases of a model and the model without them, or the first rule that the incidence or the size of the report breaks.
fn without_aliases(alloc: Global, m: &FlatModel) -> Result<(Status, Text), Stop>
    requires sound { IsSoundModel m.now }
    ensures written { IfOk result (λ w. Writes Emit.Alias m.now w.0 w.1) }
    ensures refused { IfBroken result (λ b. Refuses Emit.Alias m.now b) }
{
    match analysis_of(alloc, m) {
        Ok(analysis) => match text_of_aliases(alloc, m, &analysis.found.offsets) {
            Ok(text) => Ok((Status::Done, text)),
            Err(stop) => Err(stop),
        },
        Err(stop) => Err(stop),
    }
}

/// The text of the aliases of a model with these offsets, or the rule that a phase behind the incidence breaks.
fn text_of_aliases(alloc: Global, m: &FlatModel, least: &Option<Offsets>) -> Result<Text, Stop>
    requires { IsLeastOf m.now least.now }
    ensures passed { OnOk result (PhasesBreak m.now least.now (asked_by Emit.Alias).phases None) }
    ensures text { IfOk result (IsTextOfAliases m.now) }
    ensures refused { IfBroken result (λ b. PhasesBreak m.now least.now (asked_by Emit.Alias).phases (Some b)) }
{
    match passed(alloc, m, least, phases(Emit::Alias)) {
        Ok(_made) => Ok(aliases_written(alloc, m)?),
        Err(stop) => Err(stop),
    }
}

fn aliases_written(alloc: Global, m: &FlatModel) -> Result<Text, NoMemory>
    ensures { IfOk result (IsTextOfAliases m.now) }
{
    let found = aliases(alloc, m)?;
    let text = aliases_text(alloc, m, &found)?;
    Ok(text)
}

/// The reduced model, or the report where some equation cannot be assigned, or the first rule that the incidence or the reduced
/// model breaks.
fn reduction(alloc: Global, m: &FlatModel) -> Result<(Status, Text), Stop>
    requires sound { IsSoundModel m.now }
    ensures written { IfOk result (λ w. Writes Emit.Reduced m.now w.0 w.1) }
    ensures refused { IfBroken result (λ b. Refuses Emit.Reduced m.now b) }
{
    match analysis_of(alloc, m) {
        Ok(analysis) => reduced_or_report(alloc, m, analysis),
        Err(stop) => Err(stop),
    }
}

/// The reduced model by the offsets that are found, or the report where there are none.
fn reduced_or_report(alloc: Global, m: &FlatModel, a: Analysis) -> Result<(Status, Text), Stop>
    requires accepted { refusal_of m.now ≡ None }
    requires incidence { a.incidence ≡ incidence_of m.now }
    requires found { IsFoundOf (incidence_of m.now) a.found }
    ensures written { IfOk result (λ w. Writes Emit.Reduced m.now w.0 w.1) }
    ensures refused { IfBroken result (λ b. Refuses Emit.Reduced m.now b) }
{
    match &a.found.offsets {
        Some(offsets) => match reduced_by(alloc, m, offsets) {
            Ok(text) => Ok((reduced_status(offsets), text)),
            Err(stop) => Err(stop),
        },
        None => Ok(reported(alloc, Emit::Reduced, m, a, None)?),
    }
}

/// The status of a reduced model.
fn reduced_status(offsets: &Offsets) -> Status
    ensures { result ≡ reduced_status offsets.now }
{
    if offsets.c.len() < offsets.d.len() {
        Status::Singular
    } else {
        Status::Done
    }
}

/// The status of a model with these least offsets, where there are some.
pub(crate) fn least_status(least: &Option<Offsets>) -> Status
    ensures { result ≡ least_status least.now }
{
    match least {
        None => Status::Singular,
        Some(offsets) => reduced_status(offsets),
    }
}

/// What is written by the report on the structure of the model.
fn analysed(alloc: Global, emit: Emit, m: &FlatModel) -> Result<(Status, Text), Stop>
    requires sound { IsSoundModel m.now }
    requires structure { emit ≢ Emit.Flat }
    requires report { emit ≢ Emit.Alias }
    requires whole { emit ≢ Emit.Reduced }
    ensures written { IfOk result (λ w. Writes emit m.now w.0 w.1) }
    ensures refused { IfBroken result (λ b. Refuses emit m.now b) }
{
    match analysis_of(alloc, m) {
        Ok(analysis) => match passed(alloc, m, &analysis.found.offsets, phases(emit)) {
            Ok(made) => Ok(reported(alloc, emit, m, analysis, made)?),
            Err(stop) => Err(stop),
        },
        Err(stop) => Err(stop),
    }
}

/// The status and the texts of a model that go by its report.
fn reported(
    alloc: Global,
    emit: Emit,
    m: &FlatModel,
    a: Analysis,
    made: Option<Option<Text>>,
) -> Result<(Status, Text), NoMemory>
    requires incidence { a.incidence ≡ incidence_of m.now }
    requires found { IsFoundOf (incidence_of m.now) a.found }
    requires made { IfSome made (λ part. part ≡ reduced_part m.now a.found.offsets) }
    ensures { IfOk result (λ w. IsReported emit m.now a.found.offsets w.0 w.1) }
{
    let Analysis { incidence, found } = a;
    let report = report_of(alloc, m, &incidence, found)?;
    by_report(alloc, emit, m, &incidence, &report, &made)
}

/// The status and the texts by the report.
fn by_report(
    alloc: Global,
    emit: Emit,
    m: &FlatModel,
    inc: &Incidence,
    r: &Report,
    made: &Option<Option<Text>>,
) -> Result<(Status, Text), NoMemory>
    requires incidence { inc.now ≡ incidence_of m.now }
    requires right { IsRightReport m.now r.now }
    requires made { IfSome made.now (λ part. part ≡ reduced_part m.now r.now.offsets) }
    ensures { IfOk result (λ w. (w.0 ≡ status_of r.now) × IsTextOf emit m.now r.now w.1) }
{
    let selected = selected(alloc, emit, m, inc, r)?;
    let text = all_parts(alloc, m, r, &selected, made, parts(emit))?;
    Ok((status_of(r), text))
}

/// The status of a model with that report.
fn status_of(r: &Report) -> Status
    ensures { result ≡ status_of r.now }
{
    if is_singular(r) {
        Status::Singular
    } else {
        Status::Done
    }
}

/// The states that are selected, where they are asked for.
fn selected(
    alloc: Global,
    emit: Emit,
    m: &FlatModel,
    inc: &Incidence,
    r: &Report,
) -> Result<Option<Selection>, NoMemory>
    requires incidence { inc.now ≡ incidence_of m.now }
    requires right { IsRightReport m.now r.now }
    ensures { IfOk result (Selects emit m.now r.now) }
{
    match emit {
        Emit::States => selection_of(alloc, m, inc, r),
        Emit::Flat | Emit::Reduced | Emit::Report | Emit::All | Emit::Json | Emit::Alias => Ok(
            None,
        ),
    }
}

/// Asks phases one after another by the least offsets of a model, or gives the first rule that one of them breaks. The text of
/// the reduced model is kept, where one of them makes it.
pub(crate) fn passed(
    alloc: Global,
    m: &FlatModel,
    least: &Option<Offsets>,
    phases: &[Phase],
) -> Result<Option<Option<Text>>, Stop>
    requires { IsLeastOf m.now least.now }
    ensures passed { OnOk result (PhasesBreak m.now least.now phases.now None) }
    ensures made { IfOk result (λ made. IfSome made (λ part. part ≡ reduced_part m.now least.now)) }
    ensures refused { IfBroken result (λ b. PhasesBreak m.now least.now phases.now (Some b)) }
{
    let mut made = None;
    for phase in phases {
        match pass(alloc, m, least, *phase, made) {
            Ok(passed) => made = passed,
            Err(stop) => return Err(stop),
        }
    }
    Ok(made)
}

/// Asks one phase.
fn pass(
    alloc: Global,
    m: &FlatModel,
    least: &Option<Offsets>,
    phase: Phase,
    made: Option<Option<Text>>,
) -> Result<Option<Option<Text>>, Stop>
    requires least { IsLeastOf m.now least.now }
    requires made { IfSome made (λ part. part ≡ reduced_part m.now least.now) }
    ensures passed { OnOk result (PhaseBreaks m.now least.now phase None) }
    ensures made { IfOk result (λ made. IfSome made (λ part. part ≡ reduced_part m.now least.now)) }
    ensures refused { IfBroken result (λ b. PhaseBreaks m.now least.now phase (Some b)) }
{
    match phase {
        Phase::Size => {
            if fits(m, least) {
                return Ok(made);
            }
            Err(too_large(m))
        }
        Phase::Reduction => match reduced_part(alloc, m, least) {
            Ok(part) => Ok(Some(part)),
            Err(stop) => Err(stop),
        },
    }
}

/// Whether the derivatives in the report stay within their limit.
fn fits(m: &FlatModel, least: &Option<Offsets>) -> bool
    ensures { result ≡ nat_le (derivatives_size m.now least.now) report_limit }
{
    let Some(offsets) = least else {
        return true;
    };
    if offsets.c.len() != offsets.d.len() {
        return true;
    }
    report_fits(m, offsets)
}

fn too_large(m: &FlatModel) -> Stop
    ensures { result ≡ Stop.Broken (too_large m.now) }
{
    stop(rules::RESULT_TOO_LARGE, m.place)
}

/// The texts, one behind the other.
fn all_parts(
    alloc: Global,
    m: &FlatModel,
    r: &Report,
    selected: &Option<Selection>,
    reduced: &Option<Option<Text>>,
    parts: &[Part],
) -> Result<Text, NoMemory>
    requires { IfSome reduced.now (λ part. part ≡ reduced_part m.now r.now.offsets) }
    ensures { IfOk result (λ text. text ≡ flat_map (part_text m.now r.now selected.now) parts.now) }
{
    let mut out = String::new(alloc);
    write_parts(alloc, &mut out, m, r, selected, reduced, parts)?;
    Ok(Text::from_string(out))
}

/// Writes texts, one behind the other.
fn write_parts(
    alloc: Global,
    out: &mut String,
    m: &FlatModel,
    r: &Report,
    selected: &Option<Selection>,
    reduced: &Option<Option<Text>>,
    parts: &[Part],
) -> Result<(), NoMemory>
    requires { IfSome reduced.now (λ part. part ≡ reduced_part m.now r.now.offsets) }
    ensures { OnOk result (string_bytes out.new ≡ string_bytes out.old ++ flat_map (part_text m.now r.now selected.now) parts.now) }
{
    for part in parts {
        write_part(alloc, out, m, r, selected, reduced, *part)?;
    }
    Ok(())
}

/// Writes one text. The reduced model is one of the phases wherever its text is asked for.
fn write_part(
    alloc: Global,
    out: &mut String,
    m: &FlatModel,
    r: &Report,
    selected: &Option<Selection>,
    reduced: &Option<Option<Text>>,
    part: Part,
) -> Result<(), NoMemory>
    requires { IfSome reduced.now (λ part. part ≡ reduced_part m.now r.now.offsets) }
    ensures { OnOk result (string_bytes out.new ≡ string_bytes out.old ++ part_text m.now r.now selected.now part) }
{
    match part {
        Part::Flat => write_flat(alloc, out, m),
        Part::Report => write_report(alloc, out, r),
        Part::Json => write_json(alloc, out, r),
        Part::Reduced => match reduced {
            Some(Some(text)) => write_text(out, text),
            Some(None) => Ok(()),
            None => Err(NoMemory),
        },
        Part::StatesOrReport => write_selected(alloc, out, r, selected),
    }
}

/// Writes the states that are selected, or the report where none are.
fn write_selected(
    alloc: Global,
    out: &mut String,
    r: &Report,
    selected: &Option<Selection>,
) -> Result<(), NoMemory>
    ensures { OnOk result (string_bytes out.new ≡ string_bytes out.old ++ selected_lines r.now selected.now r.now.offsets) }
{
    match selected {
        Some(selection) => match &r.offsets {
            Some(offsets) => write_selection(alloc, out, r, offsets, selection),
            None => write_report(alloc, out, r),
        },
        None => write_report(alloc, out, r),
    }
}

fn write_selection(
    alloc: Global,
    out: &mut String,
    r: &Report,
    offsets: &Offsets,
    selection: &Selection,
) -> Result<(), NoMemory>
    ensures { OnOk result (string_bytes out.new ≡ string_bytes out.old ++ selection_lines r.now.name r.now.unknowns offsets.now selection.now) }
{
    let names = r.unknowns.as_slice();
    write_text(
        out,
        &selection_text(alloc, &r.name, names, offsets, selection)?,
    )
}

fn write_text(out: &mut String, text: &Text) -> Result<(), NoMemory>
    ensures { OnOk result (string_bytes out.new ≡ string_bytes out.old ++ text.now) }
{
    out.push_str(text.as_str())?;
    Ok(())
}

fn write_flat(alloc: Global, out: &mut String, m: &FlatModel) -> Result<(), NoMemory>
    ensures { OnOk result (string_bytes out.new ≡ string_bytes out.old ++ model_text m.now) }
{
    write_text(out, &flat_text(alloc, m)?)
}

fn write_json(alloc: Global, out: &mut String, r: &Report) -> Result<(), NoMemory>
    ensures { OnOk result (string_bytes out.new ≡ string_bytes out.old ++ json_line r.now) }
{
    write_text(out, &report_json(alloc, r)?)
}

fn write_report(alloc: Global, out: &mut String, r: &Report) -> Result<(), NoMemory>
    ensures { OnOk result (string_bytes out.new ≡ string_bytes out.old ++ report_lines r.now) }
{
    write_text(out, &report_text(alloc, r)?)
}

/// The text of the reduced model, None where some equation cannot be assigned, or the rule that it breaks.
fn reduced_part(alloc: Global, m: &FlatModel, least: &Option<Offsets>) -> Result<Option<Text>, Stop>
    requires { IsLeastOf m.now least.now }
    ensures passed { OnOk result (ReducedBreaks m.now least.now None) }
    ensures text { IfOk result (λ text. text ≡ reduced_part m.now least.now) }
    ensures refused { IfBroken result (λ b. ReducedBreaks m.now least.now (Some b)) }
{
    match least {
        Some(offsets) => match reduced_by(alloc, m, offsets) {
            Ok(text) => Ok(Some(text)),
            Err(stop) => Err(stop),
        },
        None => Ok(None),
    }
}

/// The text of the reduced model with these offsets, or the rule that it breaks.
fn reduced_by(alloc: Global, m: &FlatModel, offsets: &Offsets) -> Result<Text, Stop>
    requires { AreLeastOffsets (incidence_of m.now) offsets.now }
    ensures passed { OnOk result (ReducedBreaks m.now (Some offsets.now) None) }
    ensures text { IfOk result (λ text. text ≡ reduced_text m.now (reduced_lines m.now.vars m.now.equations offsets.now.c.items)) }
    ensures refused { IfBroken result (λ b. ReducedBreaks m.now (Some offsets.now) (Some b)) }
{
    match reduced(alloc, m, &offsets.c) {
        Ok(reduced) => Ok(reduced_text(alloc, m, &reduced)?),
        Err(stop) => Err(stop),
    }
}
