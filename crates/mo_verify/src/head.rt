//! A report in which nothing is found.
ghost use Rattle.std.specs.Prelude.{◌≡◌, IfOk};
ghost use Rattle.mo_report.specs.Size.{unknown_names};
ghost use Rattle.mo_verify.specs.Steps.{IsBlankReport};

use mo_flat::{FlatModel, FlatVar};
use mo_incidence::{Blocks, Dummies, Incidence};
use mo_report::Report;
use mo_syntax::{List, NoMemory, Role, Text};
use std::alloc::Global;

/// The names of the unknowns among the variables.
fn unknown_names(alloc: Global, vars: &[FlatVar]) -> Result<List<Text>, NoMemory>
    ensures { IfOk result (λ names. names ≡ unknown_names vars.now) }
{
    let mut names = List::new(alloc);
    for v in vars {
        if matches!(v.role, Role::Unknown) {
            names.push(v.name.copy(alloc)?)?;
        }
    }
    Ok(names)
}

/// A report with the names of a model, in which nothing is found. Its text is the first two lines of the model's report.
pub(crate) fn blank_report(
    alloc: Global,
    m: &FlatModel,
    inc: &Incidence,
) -> Result<Report, NoMemory>
    ensures { IfOk result (λ r. IsBlankReport m.now inc.now r) }
{
    let unknowns = unknown_names(alloc, m.vars.as_slice())?;
    let name = m.name.copy(alloc)?;
    Ok(Report {
        name,
        unknowns,
        equations: inc.equations(),
        orders: Vec::new(alloc),
        deficit: None,
        offsets: None,
        loose: Vec::new(alloc),
        reasons: Vec::new(alloc),
        blocks: Blocks(Vec::new(alloc)),
        dummies: Dummies {
            chosen: Vec::new(alloc),
            states: Vec::new(alloc),
        },
        index: 0,
        freedom: 0,
    })
}
