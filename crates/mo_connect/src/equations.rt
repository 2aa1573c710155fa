//! The equations of connection sets.
ghost use Rattle.std.specs.Prelude.{◌≡◌, [], ◌++◌, List, map, flat_map, IfOk, OnOk};
ghost use Rattle.mo_flat.specs.declared.model.FlatVar.{FlatVar};
ghost use Rattle.mo_connect.specs.Equations.{equality_with, sum_of, flow_equation, equations_of, AreSoundEquations, HaveNumericMembers};

use mo_flat::{FaceSet, FlatEquation, FlatExpr};
use mo_syntax::{List, NoMemory, Place};
use std::alloc::Global;

/// The equations of connection sets, set by set. The members of a potential set `a1, a2, ..` are equal, as `a1 = ak` for
/// each later one; those of a flow set add up to 0, where an outside member counts with minus. They are sound where the
/// members are variables whose values are numbers. `NoMemory` is the only other answer.
pub fn set_equations(alloc: Global, sets: &[FaceSet]) -> Result<List<FlatEquation>, NoMemory>
    ensures equations { IfOk result (λ made. made ≡ flat_map equations_of sets.now) }
    ensures sound { (vars : List FlatVar) → HaveNumericMembers vars sets.now → IfOk result (AreSoundEquations vars) }
{
    gathered(alloc, sets)
}

fn gathered(alloc: Global, sets: &[FaceSet]) -> Result<List<FlatEquation>, NoMemory>
    ensures { IfOk result (λ made. made ≡ flat_map equations_of sets.now) }
{
    let mut made = List::new(alloc);
    for set in sets {
        push_equations(alloc, &mut made, set)?;
    }
    Ok(made)
}

fn push_equations(
    alloc: Global,
    made: &mut List<FlatEquation>,
    set: &FaceSet,
) -> Result<(), NoMemory>
    ensures { OnOk result (made.new ≡ made.old ++ equations_of set.now) }
{
    match set.members.as_slice() {
        [] => Ok(()),
        [first, more @ ..] => {
            if set.flow {
                made.push(flow(alloc, set.place, first, more)?)?;
                Ok(())
            } else {
                push_equalities(made, set.place, first, more)
            }
        }
    }
}

fn push_equalities(
    made: &mut List<FlatEquation>,
    place: Place,
    first: &(u32, bool),
    more: &[(u32, bool)],
) -> Result<(), NoMemory>
    ensures { OnOk result (made.new ≡ made.old ++ map (equality_with place first.now) more.now) }
{
    for member in more {
        made.push(FlatEquation {
            left: FlatExpr::Var(first.0, 0),
            right: FlatExpr::Var(member.0, 0),
            place,
        })?;
    }
    Ok(())
}

fn flow(
    alloc: Global,
    place: Place,
    first: &(u32, bool),
    more: &[(u32, bool)],
) -> Result<FlatEquation, NoMemory>
    ensures { IfOk result (λ made. made ≡ flow_equation place first.now more.now) }
{
    Ok(FlatEquation {
        left: sum(alloc, first, more)?,
        right: FlatExpr::Whole(0),
        place,
    })
}

fn sum(alloc: Global, first: &(u32, bool), more: &[(u32, bool)]) -> Result<FlatExpr, NoMemory>
    ensures { IfOk result (λ made. made ≡ sum_of first.now more.now) }
{
    if more.is_empty() && !first.1 {
        return Ok(FlatExpr::Var(first.0, 0));
    }
    let mut terms = List::new(alloc);
    terms.push((first.1, FlatExpr::Var(first.0, 0)))?;
    for member in more {
        terms.push((member.1, FlatExpr::Var(member.0, 0)))?;
    }
    Ok(FlatExpr::Sum(terms))
}
