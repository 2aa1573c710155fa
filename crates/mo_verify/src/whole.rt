//! The verdict on a printed report, in its steps.
ghost use Rattle.std.specs.Prelude.{◌≡◌, ◌≤◌, None, IfOk, IfSome, IfNone, length};
ghost use Rattle.mo_flat.specs.Sound.{IsSoundModel};
ghost use Rattle.mo_incidence.specs.Signature.{equations};
ghost use Rattle.mo_incidence.specs.Assignment.{IsAssignment, CoversAll, CanCoverAll};
ghost use Rattle.mo_incidence.specs.Offsets.{by_place};
ghost use Rattle.mo_incidence.specs.Model.{incidence_of, refusal_of};
ghost use Rattle.mo_match.specs.Results.{IsMadeFor};
ghost use Rattle.mo_report.specs.Lines.{report_lines};
ghost use Rattle.mo_report_lines.specs.Lines.{AreReadable};
ghost use Rattle.mo_verify.specs.Faults.{AreChainedTo};
ghost use Rattle.mo_verify.specs.Finding.{HasNoFault};
ghost use Rattle.mo_verify.specs.Steps.{printed_of, IfNext, IfVerdict, IsBlankReport, ComparesWith};
ghost use Rattle.mo_verify.specs.Verdict.{IsBegun, IsRead, IsVerdict, IsRightText, IsAdmissibleText, HasNames, HasSmallerOffset};

use crate::chains::unchained;
use crate::claims::{Claims, read_claims};
use crate::compare::{line_verdict, told};
use crate::faults::first_fault;
use crate::head::blank_report;
use crate::shown::{deficit_report, square_report, undetermined_report};
use crate::verdict::{Step, Verdict};
use mo_flat::FlatModel;
use mo_incidence::{Counted, Incidence, incidence};
use mo_match::{Assigned, Work, assign};
use mo_ports::Steps;
use mo_report::{Report, report_text};
use mo_report_lines::{first_difference, first_unreadable};
use mo_syntax::NoMemory;
use std::alloc::Global;

/// The verdict on what is left to compare: the first line that differs from this report, or else that it holds.
fn compared(
    alloc: Global,
    text: &[u8],
    report: &Report,
    holds: Verdict,
) -> Result<Verdict, NoMemory>
    requires few { length text.now ≤ 67108864 }
    ensures { IfOk result (ComparesWith text.now (report_lines report.now) holds) }
{
    let wanted = report_text(alloc, report)?;
    match first_difference(text, wanted.as_str().as_bytes()) {
        None => Ok(holds),
        Some(difference) => told(alloc, &difference),
    }
}

/// The verdict on the first fault of what is printed of equations and unknowns, or on a printed offset of a square model that is not the
/// least.
fn claims_verdict(
    alloc: Global,
    m: &FlatModel,
    text: &[u8],
    inc: &Incidence,
    claims: &Claims,
) -> Result<Option<Verdict>, NoMemory>
    requires model { inc.now ≡ incidence_of m.now }
    requires read { IsRead m.now text.now (printed_of claims.now) }
    ensures some { IfOk result (λ r. IfSome r (IsVerdict m.now text.now)) }
    ensures none { IfOk result (λ r. IfNone r (HasNoFault inc.now (printed_of claims.now))) }
    ensures chained { IfOk result (λ r. IfNone r (equations inc.now ≡ inc.now.unknowns → AreChainedTo inc.now (printed_of claims.now) (equations inc.now))) }
{
    let seen = claims.seen();
    if let Some(verdict) = first_fault(alloc, inc, &seen)? {
        return Ok(Some(verdict));
    }
    if inc.equations() != inc.unknowns() {
        return Ok(None);
    }
    unchained(alloc, inc, &seen)
}

/// What is printed of equations and unknowns where the offsets are admissible, and the least in a square model, or else the verdict. The
/// report has the names of the unknowns.
fn right_claims(
    alloc: Global,
    m: &FlatModel,
    text: &[u8],
    inc: &Incidence,
    blank: &Report,
) -> Result<Step<Claims>, NoMemory>
    requires model { inc.now ≡ incidence_of m.now }
    requires blank { IsBlankReport m.now inc.now blank.now }
    requires begun { IsBegun m.now text.now }
    requires can { CanCoverAll (incidence_of m.now) }
    ensures verdict { IfOk result (λ step. IfVerdict step (IsVerdict m.now text.now)) }
    ensures read { IfOk result (λ step. IfNext step (λ claims. IsRead m.now text.now (printed_of claims))) }
    ensures right { IfOk result (λ step. IfNext step (λ claims. HasNoFault inc.now (printed_of claims))) }
    ensures chained { IfOk result (λ step. IfNext step (λ claims. equations inc.now ≡ inc.now.unknowns → AreChainedTo inc.now (printed_of claims) (equations inc.now))) }
{
    let names = blank.unknowns.as_slice();
    match read_claims(alloc, text, inc.equations(), names)? {
        Step::Verdict(verdict) => Ok(Step::Verdict(verdict)),
        Step::Next(claims) => match claims_verdict(alloc, m, text, inc, &claims)? {
            Some(verdict) => Ok(Step::Verdict(verdict)),
            None => Ok(Step::Next(claims)),
        },
    }
}

/// The verdict on what is printed where the offsets are admissible, and the least in a square model. The report has the names alone before.
fn shown_verdict(
    alloc: Global,
    m: &FlatModel,
    text: &[u8],
    inc: &Incidence,
    report: &mut Report,
    claims: Claims,
    work: Work,
) -> Result<Verdict, NoMemory>
    requires few { length text.now ≤ 67108864 }
    requires model { inc.now ≡ incidence_of m.now }
    requires blank { IsBlankReport m.now inc.now report.old }
    requires read { IsRead m.now text.now (printed_of claims) }
    requires right { HasNoFault inc.now (printed_of claims) }
    requires chained { equations inc.now ≡ inc.now.unknowns → AreChainedTo inc.now (printed_of claims) (equations inc.now) }
    requires made { IsMadeFor inc.now work }
    requires assigned { IsAssignment inc.now (by_place work.assignment) }
    requires all { CoversAll inc.now (by_place work.assignment) }
    ensures { IfOk result (IsVerdict m.now text.now) }
{
    if inc.equations() < inc.unknowns() {
        undetermined_report(m, inc, report, claims, work);
        return compared(alloc, text, report, Verdict::Admissible);
    }
    square_report(alloc, m, inc, report, claims, work)?;
    compared(alloc, text, report, Verdict::Yes)
}

/// The verdict where every equation can have an unknown of its own. The report has the names alone before.
fn assigned_verdict(
    alloc: Global,
    m: &FlatModel,
    text: &[u8],
    inc: &Incidence,
    report: &mut Report,
    work: Work,
) -> Result<Verdict, NoMemory>
    requires few { length text.now ≤ 67108864 }
    requires model { inc.now ≡ incidence_of m.now }
    requires blank { IsBlankReport m.now inc.now report.old }
    requires begun { IsBegun m.now text.now }
    requires made { IsMadeFor inc.now work }
    requires assigned { IsAssignment inc.now (by_place work.assignment) }
    requires all { CoversAll inc.now (by_place work.assignment) }
    ensures { IfOk result (IsVerdict m.now text.now) }
{
    match right_claims(alloc, m, text, inc, report)? {
        Step::Verdict(verdict) => Ok(verdict),
        Step::Next(claims) => shown_verdict(alloc, m, text, inc, report, claims, work),
    }
}

/// The verdict on a report whose first two lines are the model's. The report that is written has the names alone before.
fn begun_verdict(
    alloc: Global,
    m: &FlatModel,
    text: &[u8],
    inc: &Incidence,
    report: &mut Report,
) -> Result<Verdict, NoMemory>
    requires few { length text.now ≤ 67108864 }
    requires model { inc.now ≡ incidence_of m.now }
    requires blank { IsBlankReport m.now inc.now report.old }
    requires begun { IsBegun m.now text.now }
    ensures { IfOk result (IsVerdict m.now text.now) }
{
    let mut work = Work::new(alloc, inc.equations(), inc.unknowns(), inc.entries())?;
    let mut steps = Steps::new(());
    let counted = Counted::new(inc, &steps);
    match assign(&counted, &mut work, &mut steps) {
        Assigned::Missing(missing) => {
            let Work { deficit, .. } = work;
            deficit_report(m, inc, report, deficit, missing);
            compared(alloc, text, report, Verdict::Yes)
        }
        Assigned::All => assigned_verdict(alloc, m, text, inc, report, work),
    }
}

/// The verdict on the first two lines; None where they are the model's.
fn head_verdict(
    alloc: Global,
    m: &FlatModel,
    text: &[u8],
    _inc: &Incidence,
    blank: &Report,
) -> Result<Option<Verdict>, NoMemory>
    requires few { length text.now ≤ 67108864 }
    requires model { _inc.now ≡ incidence_of m.now }
    requires blank { IsBlankReport m.now _inc.now blank.now }
    requires readable { AreReadable text.now }
    ensures some { IfOk result (λ r. IfSome r (IsVerdict m.now text.now)) }
    ensures none { IfOk result (λ r. IfNone r (IsBegun m.now text.now)) }
{
    let head = report_text(alloc, blank)?;
    line_verdict(alloc, text, head.as_str(), 2)
}

/// The verdict on a report whose lines are readable. The report that is written has the names alone before.
fn lines_verdict(
    alloc: Global,
    m: &FlatModel,
    text: &[u8],
    inc: &Incidence,
    report: &mut Report,
) -> Result<Verdict, NoMemory>
    requires few { length text.now ≤ 67108864 }
    requires model { inc.now ≡ incidence_of m.now }
    requires blank { IsBlankReport m.now inc.now report.old }
    requires readable { AreReadable text.now }
    ensures { IfOk result (IsVerdict m.now text.now) }
{
    match head_verdict(alloc, m, text, inc, report)? {
        Some(verdict) => Ok(verdict),
        None => begun_verdict(alloc, m, text, inc, report),
    }
}

/// The verdict on a report whose lines are readable.
fn readable_verdict(
    alloc: Global,
    m: &FlatModel,
    text: &[u8],
    inc: &Incidence,
) -> Result<Verdict, NoMemory>
    requires few { length text.now ≤ 67108864 }
    requires model { inc.now ≡ incidence_of m.now }
    requires readable { AreReadable text.now }
    ensures { IfOk result (IsVerdict m.now text.now) }
{
    let mut report = blank_report(alloc, m, inc)?;
    lines_verdict(alloc, m, text, inc, &mut report)
}

/// The verdict on a text, with the incidence of the model.
fn text_verdict(
    alloc: Global,
    m: &FlatModel,
    text: &[u8],
    inc: &Incidence,
) -> Result<Verdict, NoMemory>
    requires few { length text.now ≤ 67108864 }
    requires model { inc.now ≡ incidence_of m.now }
    ensures { IfOk result (IsVerdict m.now text.now) }
{
    if let Some(line) = first_unreadable(text) {
        return Ok(Verdict::Unreadable { line });
    }
    readable_verdict(alloc, m, text, inc)
}

/// The verdict on the bytes of a report on a flat model: the first thing that is wrong with it, or that it holds. It finds no offsets of its
/// own and decides by what is printed, whichever tight assignment the printed pairs are. It takes time that is linear in the report and in
/// the entries of the incidence, but for what tells whether every equation can have an unknown of its own. `NoMemory` is the only other
/// answer.
pub fn verify(alloc: Global, m: &FlatModel, report: &[u8]) -> Result<Verdict, NoMemory>
    requires sound { IsSoundModel m.now }
    requires carried { refusal_of m.now ≡ None }
    requires few { length report.now ≤ 67108864 }
    ensures exact { IfOk result (IsVerdict m.now report.now) }
    ensures only { IfOk result (λ verdict. (other : Verdict) → IsVerdict m.now report.now other → other ≡ verdict) }
    ensures yes { IfOk result (λ verdict. verdict ≡ Verdict.Yes → IsRightText m.now report.now) }
    ensures complete { IfOk result (λ verdict. HasNames m.now → IsRightText m.now report.now → verdict ≡ Verdict.Yes) }
    ensures admissible { IfOk result (λ verdict. verdict ≡ Verdict.Admissible → IsAdmissibleText m.now report.now) }
    ensures smaller { IfOk result (HasSmallerOffset m.now) }
{
    match incidence(alloc, m) {
        Ok(inc) => {
            let _equations = inc.equations();
            text_verdict(alloc, m, report, &inc)
        }
        Err(_) => Err(NoMemory),
    }
}
