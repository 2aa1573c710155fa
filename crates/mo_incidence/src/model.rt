//! The incidence of a flat model.
ghost use Rattle.std.specs.Prelude.{◌≡◌, None, Some, IfOk, OnOk, length};
ghost use Rattle.mo_syntax.specs.declared.place.Broken.{Broken as Refusal};
ghost use Rattle.mo_flat.specs.Roles.{unknown_numbers};
ghost use Rattle.mo_flat.specs.Sound.{IsSoundModel};
ghost use Rattle.mo_incidence.specs.steps.Gathered.{unknown_places};
ghost use Rattle.mo_incidence.specs.steps.Given.{given};
ghost use Rattle.mo_incidence.specs.Model.{IsRefusal, first_uncarried, incidence_of, refusal_of};

use crate::builder::RowsError;
use crate::carrying::first_uncarried;
use crate::gather::row;
use crate::table::Incidence;
use mo_flat::{FlatModel, FlatVar};
use mo_syntax::{NoMemory, Role, Stop, rules, stop};
use std::alloc::Global;

/// By the number of each variable its number among the unknowns, 0 where it is none.
fn unknown_places(alloc: Global, vars: &[FlatVar]) -> Result<(Vec<u32>, u32), NoMemory>
    ensures places { IfOk result (λ r. r.0.items ≡ unknown_places vars.now) }
    ensures count { IfOk result (λ r. r.1 ≡ length (unknown_numbers vars.now)) }
{
    let mut places = Vec::new(alloc);
    let mut count: u32 = 0;
    places.push(0)?;
    for v in vars {
        if matches!(v.role, Role::Unknown) {
            count = count.checked_add(1).ok_or(NoMemory)?;
            places.push(count)?;
        } else {
            places.push(0)?;
        }
    }
    Ok((places, count))
}

fn rows(alloc: Global, m: &FlatModel, places: &[u32]) -> Result<Vec<Vec<(u32, u32)>>, NoMemory>
    requires places { places.now ≡ unknown_places m.now.vars }
    ensures { IfOk result (λ rows. IsSoundModel m.now → given (length (unknown_numbers m.now.vars)) rows.items ≡ incidence_of m.now) }
{
    let mut rows = Vec::new(alloc);
    for equation in m.equations.as_slice() {
        rows.push(row(alloc, places, equation)?)?;
    }
    Ok(rows)
}

/// The incidence of a model whose derivatives can be carried out.
fn carried_incidence(alloc: Global, m: &FlatModel) -> Result<Incidence, Stop>
    requires carried { first_uncarried m.now.vars m.now.equations ≡ None }
    ensures ok { IfOk result (λ incidence. IsSoundModel m.now → incidence ≡ incidence_of m.now) }
    ensures accepted { OnOk result (IsSoundModel m.now → refusal_of m.now ≡ None) }
    ensures broken { (refusal : Refusal) → result ≡ Err (Stop.Broken refusal) → IsRefusal m.now refusal }
{
    let (places, unknowns) = unknown_places(alloc, m.vars.as_slice())?;
    let rows = rows(alloc, m, &places)?;
    match Incidence::from_rows(alloc, unknowns, &rows) {
        Ok(incidence) => Ok(incidence),
        Err(RowsError::Unsound) => Err(stop(rules::INCIDENCE_TOO_LARGE, m.place)),
        Err(RowsError::NoMemory) => Err(Stop::NoMemory),
    }
}

/// The incidence of a sound flat model: the row of an equation has each unknown that stands in it outside the conditions of
/// if-expressions, ascending, with its highest order once the equation's derivatives are carried out. They are not carried
/// out to find it.
///
/// Breaks rule 43 at the first equation in which a given variable would be differentiated, and then rule 42 at the model where
/// there are more than 1,000,000 entries.
pub fn incidence(alloc: Global, m: &FlatModel) -> Result<Incidence, Stop>
    ensures ok { IfOk result (λ incidence. IsSoundModel m.now → incidence ≡ incidence_of m.now) }
    ensures accepted { OnOk result (IsSoundModel m.now → refusal_of m.now ≡ None) }
    ensures broken { (refusal : Refusal) → result ≡ Err (Stop.Broken refusal) → IsRefusal m.now refusal }
{
    match first_uncarried(m.vars.as_slice(), m.equations.as_slice()) {
        Some(place) => Err(stop(rules::DERIVATIVE_OF_INPUT, place)),
        None => carried_incidence(alloc, m),
    }
}
