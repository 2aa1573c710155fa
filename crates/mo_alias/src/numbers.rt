//! The numbers of unknowns.
ghost use Rattle.std.specs.Prelude.{◌≡◌, ◌+◌, [], ◌∷◌, ◌++◌, Some, if◌then◌else◌, length, IfOk, OnOk};
ghost use Rattle.mo_flat.specs.Roles.{is_unknown_role, unknown_numbers};
ghost use Rattle.mo_alias.specs.Numbers.{numbers_among};

use mo_flat::FlatVar;
use mo_syntax::{NoMemory, Role};
use std::alloc::Global;

/// Puts a variable's number among the unknowns, and gives how many unknowns there are with it.
fn put_number(numbers: &mut Vec<u32>, count: u32, v: &FlatVar) -> Result<u32, NoMemory>
    ensures put { OnOk result (numbers.new.items ≡ numbers.old.items ++ (if is_unknown_role (Some v.now.role) then count + 1 else 0) ∷ []) }
    ensures count { IfOk result (λ next. next ≡ (if is_unknown_role (Some v.now.role) then count + 1 else count)) }
{
    if matches!(v.role, Role::Unknown) {
        let next = count.checked_add(1).ok_or(NoMemory)?;
        numbers.push(next)?;
        Ok(next)
    } else {
        numbers.push(0)?;
        Ok(count)
    }
}

/// By the number of each variable its number among the unknowns, 0 where it is none; and how many unknowns there are.
pub(crate) fn numbers_among(alloc: Global, vars: &[FlatVar]) -> Result<(Vec<u32>, u32), NoMemory>
    ensures numbers { IfOk result (λ r. r.0.items ≡ numbers_among vars.now) }
    ensures count { IfOk result (λ r. r.1 ≡ length (unknown_numbers vars.now)) }
{
    let mut numbers = Vec::new(alloc);
    let mut count: u32 = 0;
    numbers.push(0)?;
    for v in vars {
        count = put_number(&mut numbers, count, v)?;
    }
    Ok((numbers, count))
}

/// Puts the number of a variable with so many before it if it is an unknown, and gives its number.
fn put_unknown(variables: &mut Vec<u32>, before: u32, v: &FlatVar) -> Result<u32, NoMemory>
    ensures put { OnOk result (variables.new.items ≡ (if is_unknown_role (Some v.now.role) then variables.old.items ++ (before + 1) ∷ [] else variables.old.items)) }
    ensures number { IfOk result (λ number. number ≡ before + 1) }
{
    let number = before.checked_add(1).ok_or(NoMemory)?;
    if matches!(v.role, Role::Unknown) {
        variables.push(number)?;
    }
    Ok(number)
}

/// By the number of each unknown the variable that it is; 0 stands first.
pub(crate) fn variables_of(alloc: Global, vars: &[FlatVar]) -> Result<Vec<u32>, NoMemory>
    ensures { IfOk result (λ variables. variables.items ≡ 0 ∷ unknown_numbers vars.now) }
{
    let mut variables = Vec::new(alloc);
    let mut number: u32 = 0;
    variables.push(0)?;
    for v in vars {
        number = put_unknown(&mut variables, number, v)?;
    }
    Ok(variables)
}
