//! The verdict on a printed report, as a line with a status.
ghost use Rattle.std.specs.Prelude.{◌≡◌, ◌≤◌, ◌++◌, None, Some, length, string_bytes, IfOk, OnOk};
ghost use Rattle.mo_flat.specs.Sound.{IsSoundModel};
ghost use Rattle.mo_incidence.specs.Model.{refusal_of};
ghost use Rattle.mo_front.specs.Emitted.{PhasesBreak, Refuses, asked_by, least_status};
ghost use Rattle.mo_front.specs.Least.{IsLeastOf};
ghost use Rattle.mo_front.specs.Limits.{printed_limit};
ghost use Rattle.mo_front.specs.Verified.{IsJudged, SaysVerdict, equation_word, line_word, said_of, verdict_line, verdict_status};
ghost use Rattle.mo_syntax.specs.Outcome.{IfBroken};

use crate::emit::{least_status, passed};
use crate::status::Status;
use crate::structure::analysis_of;
use crate::table::phases;
use crate::words::Emit;
use itoa::Buffer;
use mo_flat::FlatModel;
use mo_incidence::Offsets;
use mo_syntax::{NoMemory, Stop, Text};
use mo_verify::{Verdict, verify};
use std::alloc::Global;

/// The line of the verdict on the bytes of a printed report by a sound flat model, with its status, or the first rule that a phase breaks
/// which a report asks for.
pub(crate) fn judged(alloc: Global, m: &FlatModel, bytes: &[u8]) -> Result<(Status, Text), Stop>
    requires sound { IsSoundModel m.now }
    requires few { length bytes.now ≤ printed_limit }
    ensures judged { IfOk result (λ a. IsJudged m.now bytes.now a.0 a.1) }
    ensures refused { IfBroken result (λ b. Refuses Emit.Report m.now b) }
{
    match analysis_of(alloc, m) {
        Ok(analysis) => judged_by(alloc, m, &analysis.found.offsets, bytes),
        Err(stop) => Err(stop),
    }
}

/// The line by the least offsets of the model, or the rule that the size of a report breaks.
fn judged_by(
    alloc: Global,
    m: &FlatModel,
    least: &Option<Offsets>,
    bytes: &[u8],
) -> Result<(Status, Text), Stop>
    requires sound { IsSoundModel m.now }
    requires accepted { refusal_of m.now ≡ None }
    requires least { IsLeastOf m.now least.now }
    requires few { length bytes.now ≤ printed_limit }
    ensures passed { OnOk result (PhasesBreak m.now least.now (asked_by Emit.Report).phases None) }
    ensures says { IfOk result (λ a. SaysVerdict m.now bytes.now (least_status least.now) a.0 a.1) }
    ensures refused { IfBroken result (λ b. PhasesBreak m.now least.now (asked_by Emit.Report).phases (Some b)) }
{
    match passed(alloc, m, least, phases(Emit::Report)) {
        Ok(_made) => Ok(verdict_told(alloc, m, bytes, least_status(least))?),
        Err(stop) => Err(stop),
    }
}

/// The line of the verdict and its status, where a report on the model would end so.
fn verdict_told(
    alloc: Global,
    m: &FlatModel,
    bytes: &[u8],
    ends: Status,
) -> Result<(Status, Text), NoMemory>
    requires sound { IsSoundModel m.now }
    requires accepted { refusal_of m.now ≡ None }
    requires few { length bytes.now ≤ printed_limit }
    ensures { IfOk result (λ a. SaysVerdict m.now bytes.now ends a.0 a.1) }
{
    let verdict = verify(alloc, m, bytes)?;
    let line = verdict_text(alloc, &verdict)?;
    Ok((verdict_ends(&verdict, ends), line))
}

/// The status of a verdict: what holds ends as the report on the model would.
fn verdict_ends(verdict: &Verdict, ends: Status) -> Status
    ensures { result ≡ verdict_status verdict.now ends }
{
    match verdict {
        Verdict::Yes | Verdict::Admissible => ends,
        Verdict::Unreadable { .. }
        | Verdict::Line { .. }
        | Verdict::Shape { .. }
        | Verdict::Order { .. }
        | Verdict::Low { .. }
        | Verdict::Loose { .. }
        | Verdict::Twice { .. }
        | Verdict::NotLeast { .. } => Status::Differs,
    }
}

/// The line of a verdict.
fn verdict_text(alloc: Global, verdict: &Verdict) -> Result<Text, NoMemory>
    ensures { IfOk result (λ text. text ≡ verdict_line verdict.now) }
{
    let mut out = String::new(alloc);
    out.push_str("verify: ")?;
    push_said(&mut out, verdict)?;
    out.push_str("\n")?;
    Ok(Text::from_string(out))
}

/// Appends what is said of a verdict.
fn push_said(out: &mut String, verdict: &Verdict) -> Result<(), NoMemory>
    ensures { OnOk result (string_bytes out.new ≡ string_bytes out.old ++ said_of verdict.now) }
{
    match verdict {
        Verdict::Yes => Ok(out.push_str("holds")?),
        Verdict::Admissible => Ok(out.push_str("admissible")?),
        Verdict::Unreadable { line } => push_line(out, *line, "unreadable"),
        Verdict::Line { line, .. } => push_line(out, *line, "differs"),
        Verdict::Shape { line, .. } => push_line(out, *line, "shape"),
        Verdict::Order { equation, .. } => push_equation(out, *equation, "order"),
        Verdict::Low { equation, .. } => push_equation(out, *equation, "low"),
        Verdict::Loose { equation, .. } => push_equation(out, *equation, "loose"),
        Verdict::Twice { second, .. } => push_equation(out, *second, "twice"),
        Verdict::NotLeast { equation, .. } => push_equation(out, *equation, "not least"),
    }
}

/// Appends a line's number with a word on it.
#[tactic(auto, unfolding(crate::specs::Verified::line_word))]
fn push_line(out: &mut String, line: u32, word: &str) -> Result<(), NoMemory>
    ensures { OnOk result (string_bytes out.new ≡ string_bytes out.old ++ line_word line word.now) }
{
    let mut buffer = Buffer::new();
    out.push_str("line ")?;
    out.push_str(buffer.format(line))?;
    out.push_str(": ")?;
    out.push_str(word)?;
    Ok(())
}

/// Appends an equation's number with a word on it.
#[tactic(auto, unfolding(crate::specs::Verified::equation_word))]
fn push_equation(out: &mut String, equation: u32, word: &str) -> Result<(), NoMemory>
    ensures { OnOk result (string_bytes out.new ≡ string_bytes out.old ++ equation_word equation word.now) }
{
    let mut buffer = Buffer::new();
    out.push_str("equation ")?;
    out.push_str(buffer.format(equation))?;
    out.push_str(": ")?;
    out.push_str(word)?;
    Ok(())
}
