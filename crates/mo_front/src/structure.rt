//! The report on the structure of a model: the analyses of its incidence, one after another. What goes by the offsets alone is found
//! first, so that a phase can ask their size before blocks, dummies and states are made.
ghost use Rattle.std.specs.Prelude.{◌≡◌, ◌<◌, Some, None, IfOk, OnOk};
ghost use Rattle.mo_flat.specs.Sound.{IsSoundModel};
ghost use Rattle.mo_incidence.specs.Signature.{equations};
ghost use Rattle.mo_incidence.specs.Assignment.{IsAssignment, CoversAll, IsDeficit, IsUndetermined, ListsWhere};
ghost use Rattle.mo_incidence.specs.Offsets.{by_place, c_of, d_of, pairs_of};
ghost use Rattle.mo_incidence.specs.Reasons.{AreReasonsOf};
ghost use Rattle.mo_incidence.specs.Model.{incidence_of, refusal_of};
ghost use Rattle.mo_match.specs.Results.{IsMadeFor};
ghost use Rattle.mo_report.specs.Right.{IsRightReport, AreLeastOffsets};
ghost use Rattle.mo_report.specs.Size.{unknown_names};
ghost use Rattle.mo_front.specs.Emitted.{is_singular};
ghost use Rattle.mo_front.specs.steps.Structure.{IsEmptyReport, IsFoundOf, IsLeftOut, IsReportOn};
ghost use Rattle.mo_syntax.specs.Outcome.{IfBroken};

use crate::degrees::{freedom, index, orders};
use mo_blocks::{blocks, dummies};
use mo_flat::{FlatModel, FlatVar};
use mo_incidence::{Blocks, Counted, Deficit, Dummies, Incidence, Offsets, Reason, incidence};
use mo_match::{Assigned, Work, assign, undetermined};
use mo_pantelides::{offsets, reasons};
use mo_ports::Steps;
use mo_report::Report;
use mo_syntax::{List, NoMemory, Role, Stop, Text};
use std::alloc::Global;

/// The incidence of a model and what is found of it before a report is made.
#[derive(Drop)]
pub(crate) struct Analysis {
    pub(crate) incidence: Incidence,
    pub(crate) found: Found,
}

/// The deficit, where not every equation can have an unknown of its own; otherwise the least offsets, with the undetermined
/// unknowns where there are fewer equations than unknowns, and with reasons in a square system.
#[derive(Drop)]
pub(crate) struct Found {
    pub(crate) deficit: Option<Deficit>,
    pub(crate) offsets: Option<Offsets>,
    pub(crate) loose: Vec<u32>,
    pub(crate) reasons: Vec<Reason>,
}

/// Whether not every equation or not every unknown can be assigned.
pub(crate) fn is_singular(r: &Report) -> bool
    ensures { result ≡ is_singular r.now }
{
    r.deficit.is_some() || (r.equations as usize) < r.unknowns.len()
}

/// The incidence of a sound flat model, with the deficit or the least offsets: neither blocks nor dummies and states, whose number
/// goes by the sum of the offsets.
///
/// Breaks rule 43 at the first equation in which a given variable would be differentiated, and then rule 42 at the model where
/// there are more than 1,000,000 entries.
pub(crate) fn analysis_of(alloc: Global, m: &FlatModel) -> Result<Analysis, Stop>
    requires sound { IsSoundModel m.now }
    ensures incidence { IfOk result (λ a. a.incidence ≡ incidence_of m.now) }
    ensures found { IfOk result (λ a. IsFoundOf (incidence_of m.now) a.found) }
    ensures accepted { OnOk result (refusal_of m.now ≡ None) }
    ensures refused { IfBroken result (λ b. refusal_of m.now ≡ Some b) }
{
    match incidence(alloc, m) {
        Ok(incidence) => {
            let found = of_incidence(alloc, &incidence)?;
            Ok(Analysis { incidence, found })
        }
        Err(Stop::Broken(broken)) => Err(Stop::Broken(broken)),
        Err(Stop::NoMemory) => Err(Stop::NoMemory),
    }
}

/// What an incidence shows.
pub(crate) fn of_incidence(alloc: Global, inc: &Incidence) -> Result<Found, NoMemory>
    ensures { IfOk result (λ f. IsFoundOf inc.now f) }
{
    let mut work = Work::new(alloc, inc.equations(), inc.unknowns(), inc.entries())?;
    let mut steps = Steps::new(());
    let counted = Counted::new(inc, &steps);
    match assign(&counted, &mut work, &mut steps) {
        Assigned::Missing(missing) => {
            let Work { deficit, .. } = work;
            Ok(left_out(alloc, inc, deficit, missing))
        }
        Assigned::All => Ok(assigned(alloc, inc, &counted, work, &mut steps)),
    }
}

/// Where so many equations are left out.
fn left_out(alloc: Global, _inc: &Incidence, deficit: Deficit, _missing: u32) -> Found
    requires deficit { IsDeficit _inc.now deficit.equations.items deficit.unknowns.items _missing }
    requires some { 0 < _missing }
    ensures { IsFoundOf _inc.now result }
{
    Found {
        deficit: Some(deficit),
        offsets: None,
        loose: Vec::new(alloc),
        reasons: Vec::new(alloc),
    }
}

/// Where every equation has an unknown.
fn assigned<L>(
    alloc: Global,
    inc: &Incidence,
    counted: &Counted<L>,
    mut work: Work,
    steps: &mut Steps<L>,
) -> Found
    requires counted { counted.now ≡ inc.now }
    requires made { IsMadeFor inc.now work }
    requires assigned { IsAssignment inc.now (by_place work.assignment) }
    requires all { CoversAll inc.now (by_place work.assignment) }
    ensures { IsFoundOf inc.now result }
{
    if inc.equations() < inc.unknowns() {
        undetermined(inc, &mut work);
        offsets(counted, &mut work, steps);
        let Work { offsets, loose, .. } = work;
        with_fewer(alloc, inc, offsets, loose)
    } else {
        offsets(counted, &mut work, steps);
        reasons(inc, &mut work);
        let Work {
            offsets,
            reasons,
            ..
        } = work;
        with_equal(alloc, inc, offsets, reasons)
    }
}

/// Where there are fewer equations than unknowns.
fn with_fewer(alloc: Global, _inc: &Incidence, offsets: Offsets, loose: Vec<u32>) -> Found
    requires fewer { equations _inc.now < _inc.now.unknowns }
    requires least { AreLeastOffsets _inc.now offsets }
    requires loose { ListsWhere (IsUndetermined _inc.now) _inc.now.unknowns loose.items }
    ensures { IsFoundOf _inc.now result }
{
    Found {
        deficit: None,
        offsets: Some(offsets),
        loose,
        reasons: Vec::new(alloc),
    }
}

/// Where there are as many equations as unknowns.
fn with_equal(alloc: Global, _inc: &Incidence, offsets: Offsets, reasons: Vec<Reason>) -> Found
    requires square { equations _inc.now ≡ _inc.now.unknowns }
    requires least { AreLeastOffsets _inc.now offsets }
    requires reasons { AreReasonsOf _inc.now (c_of offsets) (d_of offsets) (pairs_of offsets) reasons.items }
    ensures { IsFoundOf _inc.now result }
{
    Found {
        deficit: None,
        offsets: Some(offsets),
        loose: Vec::new(alloc),
        reasons,
    }
}

/// The report on a model by what is found of its incidence: in a square system with blocks, dummies, index and freedom.
pub(crate) fn report_of(
    alloc: Global,
    m: &FlatModel,
    inc: &Incidence,
    found: Found,
) -> Result<Report, NoMemory>
    requires incidence { inc.now ≡ incidence_of m.now }
    requires found { IsFoundOf inc.now found }
    ensures right { IfOk result (λ r. IsRightReport m.now r) }
    ensures offsets { IfOk result (λ r. r.offsets ≡ found.offsets) }
{
    let report = report_on(alloc, m, inc, found)?;
    Ok(report)
}

/// What is found, with the names of a model.
fn report_on(
    alloc: Global,
    m: &FlatModel,
    inc: &Incidence,
    found: Found,
) -> Result<Report, NoMemory>
    requires { IsFoundOf inc.now found }
    ensures on { IfOk result (λ r. IsReportOn m.now inc.now r) }
    ensures offsets { IfOk result (λ r. r.offsets ≡ found.offsets) }
{
    let Found {
        deficit,
        offsets,
        loose,
        reasons,
    } = found;
    match offsets {
        None => singular_report(alloc, m, inc, deficit),
        Some(offsets) => {
            if inc.equations() < inc.unknowns() {
                underdetermined_report(alloc, m, inc, offsets, loose)
            } else {
                square_report(alloc, m, inc, offsets, reasons)
            }
        }
    }
}

/// The report where equations are left out.
fn singular_report(
    alloc: Global,
    m: &FlatModel,
    inc: &Incidence,
    deficit: Option<Deficit>,
) -> Result<Report, NoMemory>
    requires { IsLeftOut inc.now deficit }
    ensures on { IfOk result (λ r. IsReportOn m.now inc.now r) }
    ensures offsets { IfOk result (λ r. r.offsets ≡ None) }
{
    let mut report = empty_report(alloc, m, inc)?;
    report.deficit = deficit;
    Ok(report)
}

/// The report where there are fewer equations than unknowns.
fn underdetermined_report(
    alloc: Global,
    m: &FlatModel,
    inc: &Incidence,
    offsets: Offsets,
    loose: Vec<u32>,
) -> Result<Report, NoMemory>
    requires fewer { equations inc.now < inc.now.unknowns }
    requires least { AreLeastOffsets inc.now offsets }
    requires loose { ListsWhere (IsUndetermined inc.now) inc.now.unknowns loose.items }
    ensures on { IfOk result (λ r. IsReportOn m.now inc.now r) }
    ensures offsets { IfOk result (λ r. r.offsets ≡ Some offsets) }
{
    let mut report = empty_report(alloc, m, inc)?;
    report.orders = orders(alloc, inc, &offsets)?;
    report.offsets = Some(offsets);
    report.loose = loose;
    Ok(report)
}

/// The report on a square system.
fn square_report(
    alloc: Global,
    m: &FlatModel,
    inc: &Incidence,
    offsets: Offsets,
    reasons: Vec<Reason>,
) -> Result<Report, NoMemory>
    requires square { equations inc.now ≡ inc.now.unknowns }
    requires least { AreLeastOffsets inc.now offsets }
    requires reasons { AreReasonsOf inc.now (c_of offsets) (d_of offsets) (pairs_of offsets) reasons.items }
    ensures on { IfOk result (λ r. IsReportOn m.now inc.now r) }
    ensures offsets { IfOk result (λ r. r.offsets ≡ Some offsets) }
{
    let mut report = empty_report(alloc, m, inc)?;
    report.orders = orders(alloc, inc, &offsets)?;
    report.reasons = reasons;
    report.blocks = blocks(alloc, inc, &offsets)?;
    report.index = index(inc, &offsets)?;
    let dummies = dummies(alloc, inc, &offsets)?;
    report.freedom = freedom(inc, &offsets, &dummies)?;
    report.dummies = dummies;
    report.offsets = Some(offsets);
    Ok(report)
}

/// A report in which nothing is found.
fn empty_report(alloc: Global, m: &FlatModel, inc: &Incidence) -> Result<Report, NoMemory>
    ensures { IfOk result (λ r. IsEmptyReport m.now inc.now r) }
{
    Ok(Report {
        name: m.name.copy(alloc)?,
        unknowns: unknown_names(alloc, m.vars.as_slice())?,
        equations: inc.equations(),
        orders: Vec::new(alloc),
        deficit: None,
        offsets: None,
        loose: Vec::new(alloc),
        reasons: Vec::new(alloc),
        blocks: Blocks(Vec::new(alloc)),
        dummies: Dummies {
            chosen: Vec::new(alloc),
            states: Vec::new(alloc),
        },
        index: 0,
        freedom: 0,
    })
}

/// The names of the unknowns among the variables.
fn unknown_names(alloc: Global, vars: &[FlatVar]) -> Result<List<Text>, NoMemory>
    ensures { IfOk result (λ names. names ≡ unknown_names vars.now) }
{
    let mut names = List::new(alloc);
    for v in vars {
        if matches!(v.role, Role::Unknown) {
            names.push(v.name.copy(alloc)?)?;
        }
    }
    Ok(names)
}
