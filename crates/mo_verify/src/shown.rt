//! The reports that have what is printed, with what follows from it.
ghost use Rattle.std.specs.Prelude.{◌≡◌, ◌≢◌, ◌<◌, OnOk};
ghost use Rattle.mo_incidence.specs.Signature.{equations};
ghost use Rattle.mo_incidence.specs.Assignment.{IsAssignment, CoversAll, IsDeficit};
ghost use Rattle.mo_incidence.specs.Offsets.{by_place};
ghost use Rattle.mo_incidence.specs.Model.{incidence_of};
ghost use Rattle.mo_match.specs.Results.{IsMadeFor};
ghost use Rattle.mo_verify.specs.Faults.{AreChainedTo};
ghost use Rattle.mo_verify.specs.Finding.{HaveSizes, HasNoFault};
ghost use Rattle.mo_verify.specs.Steps.{printed_of, IsBlankReport, PutsReasons, PutsBlocks, PutsDummies};
ghost use Rattle.mo_verify.specs.Verdict.{IsDeficitReport, IsUndeterminedReport, IsSquareReport};

use crate::claims::Claims;
use crate::fill::fill;
use crate::square::{freedom, index};
use mo_blocks::{blocks, dummies};
use mo_flat::FlatModel;
use mo_incidence::{Deficit, Incidence};
use mo_match::{Work, undetermined};
use mo_pantelides::reasons;
use mo_report::Report;
use mo_syntax::NoMemory;
use std::alloc::Global;

/// Writes the deficit of a model in which some equation can't be assigned into a report in which nothing is found.
pub(crate) fn deficit_report(
    _m: &FlatModel,
    _inc: &Incidence,
    report: &mut Report,
    deficit: Deficit,
    _missing: u32,
)
    requires model { _inc.now ≡ incidence_of _m.now }
    requires blank { IsBlankReport _m.now _inc.now report.old }
    requires deficit { IsDeficit _inc.now deficit.equations.items deficit.unknowns.items _missing }
    requires some { _missing ≢ 0 }
    ensures { IsDeficitReport _m.now report.new }
{
    report.deficit = Some(deficit);
}

/// Writes what is found on a model with fewer equations than unknowns into a report in which nothing is found.
pub(crate) fn undetermined_report(
    _m: &FlatModel,
    inc: &Incidence,
    report: &mut Report,
    claims: Claims,
    mut work: Work,
)
    requires model { inc.now ≡ incidence_of _m.now }
    requires blank { IsBlankReport _m.now inc.now report.old }
    requires made { IsMadeFor inc.now work }
    requires assigned { IsAssignment inc.now (by_place work.assignment) }
    requires all { CoversAll inc.now (by_place work.assignment) }
    requires fewer { equations inc.now < inc.now.unknowns }
    ensures { IsUndeterminedReport _m.now (printed_of claims) report.new }
{
    undetermined(inc, &mut work);
    let Work { loose, .. } = work;
    let Claims { offsets, orders } = claims;
    report.orders = orders;
    report.offsets = Some(offsets);
    report.loose = loose;
}

/// Writes the reasons of printed offsets that are the least into a report.
fn put_reasons(inc: &Incidence, claims: &Claims, report: &mut Report, mut work: Work)
    requires made { IsMadeFor inc.now work }
    requires square { equations inc.now ≡ inc.now.unknowns }
    requires sizes { HaveSizes inc.now (printed_of claims.now) }
    requires right { HasNoFault inc.now (printed_of claims.now) }
    requires chained { AreChainedTo inc.now (printed_of claims.now) (equations inc.now) }
    ensures { PutsReasons inc.now claims.now.offsets report.old report.new }
{
    let _equations = inc.equations();
    fill(&mut work, &claims.offsets);
    reasons(inc, &mut work);
    let Work { reasons, .. } = work;
    report.reasons = reasons;
}

/// Writes the blocks of printed offsets into a report.
fn put_blocks(
    alloc: Global,
    inc: &Incidence,
    claims: &Claims,
    report: &mut Report,
) -> Result<(), NoMemory>
    requires square { equations inc.now ≡ inc.now.unknowns }
    requires sizes { HaveSizes inc.now (printed_of claims.now) }
    requires right { HasNoFault inc.now (printed_of claims.now) }
    ensures { OnOk result (PutsBlocks inc.now claims.now.offsets report.old report.new) }
{
    report.blocks = blocks(alloc, inc, &claims.offsets)?;
    Ok(())
}

/// Writes the dummies, the index and the freedom of printed offsets into a report.
fn put_dummies(
    alloc: Global,
    inc: &Incidence,
    claims: &Claims,
    report: &mut Report,
) -> Result<(), NoMemory>
    requires square { equations inc.now ≡ inc.now.unknowns }
    requires sizes { HaveSizes inc.now (printed_of claims.now) }
    requires right { HasNoFault inc.now (printed_of claims.now) }
    ensures { OnOk result (PutsDummies inc.now claims.now.offsets report.old report.new) }
{
    report.index = index(inc, claims)?;
    let dummies = dummies(alloc, inc, &claims.offsets)?;
    report.freedom = freedom(&dummies)?;
    report.dummies = dummies;
    Ok(())
}

/// Writes what is found on a square model whose printed offsets are the least into a report in which nothing is found.
pub(crate) fn square_report(
    alloc: Global,
    _m: &FlatModel,
    inc: &Incidence,
    report: &mut Report,
    claims: Claims,
    work: Work,
) -> Result<(), NoMemory>
    requires model { inc.now ≡ incidence_of _m.now }
    requires blank { IsBlankReport _m.now inc.now report.old }
    requires made { IsMadeFor inc.now work }
    requires square { equations inc.now ≡ inc.now.unknowns }
    requires sizes { HaveSizes inc.now (printed_of claims) }
    requires right { HasNoFault inc.now (printed_of claims) }
    requires chained { AreChainedTo inc.now (printed_of claims) (equations inc.now) }
    ensures { OnOk result (IsSquareReport _m.now (printed_of claims) report.new) }
{
    put_reasons(inc, &claims, report, work);
    put_blocks(alloc, inc, &claims, report)?;
    put_dummies(alloc, inc, &claims, report)?;
    let Claims { offsets, orders } = claims;
    report.orders = orders;
    report.offsets = Some(offsets);
    Ok(())
}
