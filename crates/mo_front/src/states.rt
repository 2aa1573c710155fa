//! The states that stateSelect prefers.
ghost use Rattle.std.specs.Prelude.{◌≡◌, IfOk};
ghost use Rattle.mo_incidence.specs.Model.{incidence_of};
ghost use Rattle.mo_report.specs.Right.{IsRightReport};
ghost use Rattle.mo_front.specs.Emitted.{IsSelected};

use crate::structure::is_singular;
use mo_flat::FlatModel;
use mo_incidence::Incidence;
use mo_report::Report;
use mo_select::{Selection, select};
use mo_syntax::NoMemory;
use std::alloc::Global;

/// The selection of a model with that incidence and report, None where not every equation or not every unknown can be assigned.
pub(crate) fn selection_of(
    alloc: Global,
    m: &FlatModel,
    inc: &Incidence,
    r: &Report,
) -> Result<Option<Selection>, NoMemory>
    requires incidence { inc.now ≡ incidence_of m.now }
    requires right { IsRightReport m.now r.now }
    ensures { IfOk result (IsSelected m.now r.now) }
{
    if is_singular(r) {
        return Ok(None);
    }
    match &r.offsets {
        Some(offsets) => Ok(Some(select(alloc, m, inc, offsets)?)),
        None => Ok(None),
    }
}
