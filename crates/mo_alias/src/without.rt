//! The model without aliases.
ghost use Rattle.std.specs.Prelude.{◌≡◌, ℕ, ◌+◌, ◌<◌, ◌≤◌, length, map, nat_eq, not, IfOk};
ghost use Rattle.std.specs.List.{list_any};
ghost use Rattle.mo_alias.specs.steps.Placing.{flag_at, place_at};
ghost use Rattle.mo_alias.specs.Without.{kept_from, replaced_assert, replaced_equation, replaced_variable, without, without_by};

use crate::found::Aliases;
use crate::places::places_of;
use crate::replace::{replaced_assert, replaced_equation, replaced_variable};
use mo_flat::{FlatAssert, FlatEquation, FlatModel, FlatVar};
use mo_syntax::{List, NoMemory, both, pushed};
use std::alloc::Global;

fn variables(
    alloc: Global,
    places: &[(bool, u32)],
    stays: &[bool],
    vars: &[FlatVar],
) -> Result<List<FlatVar>, NoMemory>
    requires { length stays.now ≡ length vars.now + 1 }
    ensures { IfOk result (λ made. made ≡ map (replaced_variable (place_at places.now)) (kept_from (flag_at stays.now) 1 vars.now)) }
{
    let mut made = List::new(alloc);
    let mut number = 0usize;
    for v in vars {
        number += 1;
        if stays[number] {
            pushed(&mut made, replaced_variable(alloc, places, v))?;
        }
    }
    Ok(made)
}

fn equations(
    alloc: Global,
    places: &[(bool, u32)],
    equations: &[FlatEquation],
) -> Result<List<FlatEquation>, NoMemory>
    ensures { IfOk result (λ made. made ≡ map (replaced_equation (place_at places.now)) equations.now) }
{
    let mut made = List::new(alloc);
    for q in equations {
        pushed(&mut made, replaced_equation(alloc, places, q))?;
    }
    Ok(made)
}

/// By the number of each equation whether it is left out; 0 stands first.
fn left_out(alloc: Global, dropped: &[u32], count: usize) -> Result<Vec<bool>, NoMemory>
    ensures size { IfOk result (λ out. length out.items ≡ count + 1) }
    ensures out { IfOk result (λ out. (i : ℕ) → i ≤ count → flag_at out.items i ≡ list_any (nat_eq i) dropped.now) }
{
    let size = count.checked_add(1).ok_or(NoMemory)?;
    let mut out = vec![in alloc; false; size]?;
    for number in dropped {
        if *number as usize <= count {
            out[*number as usize] = true;
        }
    }
    Ok(out)
}

/// The equations that are not left out.
fn kept_equations(
    alloc: Global,
    places: &[(bool, u32)],
    out: &[bool],
    equations: &[FlatEquation],
) -> Result<List<FlatEquation>, NoMemory>
    requires { length out.now ≡ length equations.now + 1 }
    ensures { IfOk result (λ made. made ≡ map (replaced_equation (place_at places.now)) (kept_from (λ i. not (flag_at out.now i)) 1 equations.now)) }
{
    let mut made = List::new(alloc);
    let mut number = 0usize;
    for q in equations {
        number += 1;
        if !out[number] {
            pushed(&mut made, replaced_equation(alloc, places, q))?;
        }
    }
    Ok(made)
}

fn asserts(
    alloc: Global,
    places: &[(bool, u32)],
    asserts: &[FlatAssert],
) -> Result<List<FlatAssert>, NoMemory>
    ensures { IfOk result (λ made. made ≡ map (replaced_assert (place_at places.now)) asserts.now) }
{
    let mut made = List::new(alloc);
    for a in asserts {
        pushed(&mut made, replaced_assert(alloc, places, a))?;
    }
    Ok(made)
}

/// A model with these places of variables, and the variables that stay and equations that are not left out.
fn made_by(
    alloc: Global,
    places: &[(bool, u32)],
    stays: &[bool],
    out: &[bool],
    m: &FlatModel,
) -> Result<FlatModel, NoMemory>
    requires stays { length stays.now ≡ length m.now.vars + 1 }
    requires out { length out.now ≡ length m.now.equations + 1 }
    ensures { IfOk result (λ made. made ≡ without_by (place_at places.now) (flag_at stays.now) (λ i. not (flag_at out.now i)) m.now) }
{
    let vars = variables(alloc, places, stays, m.vars.as_slice());
    let kept = kept_equations(alloc, places, out, m.equations.as_slice());
    let first = equations(alloc, places, m.first.as_slice());
    let first_asserts = asserts(alloc, places, m.first_asserts.as_slice());
    let asserts = asserts(alloc, places, m.asserts.as_slice());
    let lists = both(both(vars, kept), both(first, both(first_asserts, asserts)));
    let (name, ((vars, equations), (first, (first_asserts, asserts)))) = both(
        m.name.copy(alloc),
        lists,
    )?;
    Ok(FlatModel {
        name,
        place: m.place,
        vars,
        first,
        first_asserts,
        equations,
        asserts,
    })
}

/// The model without aliases: it has none of the unknowns that are others and none of the equations that say no more than that. In
/// all its expressions order k of such an unknown is order k of the other, or a sum of this one negative term. The variables that stay
/// are numbered anew. `NoMemory` is the only other answer.
pub fn without_aliases(alloc: Global, m: &FlatModel, a: &Aliases) -> Result<FlatModel, NoMemory>
    ensures { IfOk result (λ made. made ≡ without m.now a.now) }
{
    let places = places_of(alloc, m.vars.as_slice(), a.gone.as_slice())?;
    let out = left_out(alloc, a.dropped.as_slice(), m.equations.len())?;
    made_by(alloc, &places.at, &places.stays, &out, m)
}
