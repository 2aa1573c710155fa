//! What the lines of equations and unknowns say.
ghost use Rattle.std.specs.Prelude.{◌≡◌, ◌+◌, ◌≤◌, ℕ, List as Seq, [], IfOk, OnOk, IfSome, IfNone, length, drop};
ghost use Rattle.mo_report_lines.specs.Grammar.{IsUnknownLine};
ghost use Rattle.mo_report_lines.specs.Lines.{lines_of, without_feed};
ghost use Rattle.mo_verify.specs.Printed.{Printed};
ghost use Rattle.mo_verify.specs.Reading.{number_of, IsEquationText, ArePrintedTo, ArePrinted};
ghost use Rattle.mo_verify.specs.Finding.{printed_in};
ghost use Rattle.mo_verify.specs.Steps.{number_held, printed_of, IfNext, IfVerdict, AreReadTo, IsShapeAt};

use crate::compare::{text_of, without_feed};
use crate::numbers::Numbers;
use crate::seen::Seen;
use crate::verdict::{Step, Verdict};
use mo_incidence::Offsets;
use mo_report_lines::{equation_line, first_line, unknown_line};
use mo_syntax::{NoMemory, Text};
use std::alloc::Global;

/// What a report says of the equations and unknowns: offsets and pairs, and the order at each pair.
#[derive(Drop)]
pub(crate) struct Claims {
    pub offsets: Offsets,
    pub orders: Vec<u32>,
}

impl Claims {
    /// What is printed, as lists.
    pub fn seen(&self) -> Seen<'_>
        ensures { printed_in result ≡ printed_of self.now }
    {
        Seen {
            c: &self.offsets.c,
            d: &self.offsets.d,
            pairs: &self.offsets.pairs,
            orders: &self.orders,
        }
    }
}

/// What the line of an equation says: its offset, the number of its unknown, and the order.
#[derive(Clone, Copy)]
struct EquationClaim {
    offset: u32,
    unknown: u32,
    order: u32,
}

/// What a line says of the equation with this number; None where it is not that equation's, or has the name of no unknown.
fn equation_claim(
    line: &[u8],
    number: u32,
    numbers: &Numbers,
    _names: &[Text],
) -> Option<EquationClaim>
    requires table { (name : Seq ℕ) → number_held numbers.now name ≡ number_of _names.now name }
    ensures some { IfSome result (λ e. IsEquationText _names.now (without_feed line.now) number e.offset e.unknown e.order) }
    ensures none { IfNone result ((c pair order : ℕ) → IsEquationText _names.now (without_feed line.now) number c pair order → ⊥) }
{
    let read = equation_line(without_feed(line))?;
    if read.number != number {
        return None;
    }
    let unknown = numbers.number(read.unknown)?;
    Some(EquationClaim {
        offset: read.offset,
        unknown,
        order: read.order,
    })
}

/// What a line says of the unknown with this name; None where it is not that unknown's.
fn unknown_claim(line: &[u8], name: &str) -> Option<u32>
    ensures some { IfSome result (λ d. IsUnknownLine (without_feed line.now) name.now d) }
    ensures none { IfNone result ((d : ℕ) → IsUnknownLine (without_feed line.now) name.now d → ⊥) }
{
    let read = unknown_line(without_feed(line))?;
    if read.unknown != name.as_bytes() {
        return None;
    }
    Some(read.highest)
}

/// The verdict on a line of another shape. It is line `wanted + 2`.
fn shape_verdict(alloc: Global, line: &[u8], wanted: u32) -> Result<Verdict, NoMemory>
    requires { wanted ≤ 100000 }
    ensures { IfOk result (λ verdict. verdict ≡ Verdict.Shape (wanted + 2) (without_feed line.now) wanted) }
{
    let printed = text_of(alloc, without_feed(line))?;
    Ok(Verdict::Shape {
        line: wanted + 2,
        printed,
        wanted,
    })
}

/// What stands behind the first two lines.
pub(crate) fn behind_head(report: &[u8]) -> &[u8]
    requires { 2 ≤ length (lines_of report.now) }
    ensures { drop 2 (lines_of report.now) ≡ lines_of result.now }
{
    let (_, rest) = first_line(report);
    let (_, rest) = first_line(rest);
    rest
}

/// Reads the lines of that many equations, and gives what stands behind them.
fn read_equations<'t>(
    alloc: Global,
    text: &'t [u8],
    count: u32,
    numbers: &Numbers,
    claims: &mut Claims,
    _report: &[u8],
    _names: &[Text],
) -> Result<Step<&'t [u8]>, NoMemory>
    requires table { (name : Seq ℕ) → number_held numbers.now name ≡ number_of _names.now name }
    requires at { drop 2 (lines_of _report.now) ≡ lines_of text.now }
    requires few { count ≤ 50000 }
    requires empty { (claims.old.offsets.c.items ≡ []) × (claims.old.offsets.pairs.items ≡ []) × (claims.old.orders.items ≡ []) }
    ensures next { IfOk result (λ step. IfNext step (λ rest. AreReadTo _names.now count _report.now (printed_of claims.new) count rest.now)) }
    ensures lengths { OnOk result ((length claims.new.offsets.c.items ≡ length claims.new.orders.items) × (length claims.new.offsets.pairs.items ≡ length claims.new.orders.items)) }
    ensures all { IfOk result (λ step. IfNext step (λ rest. length claims.new.orders.items ≡ count)) }
    ensures misshapen { IfOk result (λ step. IfVerdict step (IsShapeAt _names.now count _report.now (printed_of claims.new) (length claims.new.orders.items))) }
    ensures rest { claims.new.offsets.d ≡ claims.old.offsets.d }
{
    let mut rest = text;
    for at in 0..count {
        let (line, left) = first_line(rest);
        let Some(claim) = equation_claim(line, at + 1, numbers, _names) else {
            return Ok(Step::Verdict(shape_verdict(alloc, line, at + 1)?));
        };
        claims.offsets.c.push(claim.offset)?;
        claims.offsets.pairs.push(claim.unknown)?;
        claims.orders.push(claim.order)?;
        rest = left;
    }
    Ok(Step::Next(rest))
}

/// Reads the lines of these unknowns, which stand behind those of that many equations.
fn read_unknowns(
    alloc: Global,
    text: &[u8],
    equations: u32,
    names: &[Text],
    claims: &mut Claims,
    _report: &[u8],
) -> Result<Option<Verdict>, NoMemory>
    requires read { AreReadTo names.now equations _report.now (printed_of claims.old) equations text.now }
    requires few { (equations ≤ 50000) × (length names.now ≤ 50000) }
    requires empty { claims.old.offsets.d.items ≡ [] }
    ensures none { IfOk result (λ r. IfNone r (ArePrintedTo names.now equations _report.now (printed_of claims.new) (equations + length names.now))) }
    ensures all { IfOk result (λ r. IfNone r (length claims.new.offsets.d.items ≡ length names.now)) }
    ensures misshapen { IfOk result (λ r. IfSome r (IsShapeAt names.now equations _report.now (printed_of claims.new) (equations + length claims.new.offsets.d.items))) }
    ensures rest { (claims.new.offsets.c ≡ claims.old.offsets.c) × (claims.new.offsets.pairs ≡ claims.old.offsets.pairs) × (claims.new.orders ≡ claims.old.orders) }
{
    let mut rest = text;
    for at in 0..names.len() {
        let (line, left) = first_line(rest);
        let Some(highest) = unknown_claim(line, names[at].as_str()) else {
            return Ok(Some(shape_verdict(alloc, line, equations + at as u32 + 1)?));
        };
        claims.offsets.d.push(highest)?;
        rest = left;
    }
    Ok(None)
}

/// What the lines of equations and unknowns say, or the verdict on the first of another shape.
pub(crate) fn read_claims(
    alloc: Global,
    report: &[u8],
    equations: u32,
    names: &[Text],
) -> Result<Step<Claims>, NoMemory>
    requires begun { 2 ≤ length (lines_of report.now) }
    requires few { (equations ≤ 50000) × (length names.now ≤ 50000) }
    ensures next { IfOk result (λ step. IfNext step (λ claims. ArePrinted names.now equations report.now (printed_of claims))) }
    ensures misshapen { IfOk result (λ step. IfVerdict step (λ verdict. (p : Printed) × (k : ℕ) × IsShapeAt names.now equations report.now p k verdict)) }
{
    let numbers = Numbers::of(alloc, names)?;
    let offsets = Offsets {
        c: Vec::new(alloc),
        d: Vec::new(alloc),
        pairs: Vec::new(alloc),
    };
    let mut claims = Claims {
        offsets,
        orders: Vec::new(alloc),
    };
    let start = behind_head(report);
    match read_equations(
        alloc,
        start,
        equations,
        &numbers,
        &mut claims,
        report,
        names,
    )? {
        Step::Verdict(verdict) => Ok(Step::Verdict(verdict)),
        Step::Next(rest) => match read_unknowns(
            alloc,
            rest,
            equations,
            names,
            &mut claims,
            report,
        )? {
            Some(verdict) => Ok(Step::Verdict(verdict)),
            None => Ok(Step::Next(claims)),
        },
    }
}
