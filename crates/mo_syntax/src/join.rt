//! Joins: answers that may be errors brought together, so that what was made before an error is dropped in one place.
//!
//! A `?` past which an owned tree is alive has to drop that tree, and each such exit is proved anew. A join takes the answers
//! as they are and is proved once, for every type.
ghost use Rattle.std.specs.Prelude.{◌≡◌, ◌⊎◌, ◌++◌, ◌∷◌, [], IfOk, IfErr, IsOk, OnErr};

use crate::boxed::Boxed;
use crate::list::List;
use crate::place::NoMemory;
use std::alloc::Global;

/// Both values; else the error of the first, else that of the second.
pub fn both<A: Drop, B: Drop, E: Drop>(
    first: Result<A, E>,
    second: Result<B, E>,
) -> Result<(A, B), E>
    ensures values { IfOk result (λ pair. (first ≡ Ok pair.0) × (second ≡ Ok pair.1)) }
    ensures error { IfErr result (λ error. (first ≡ Err error) ⊎ (IsOk first × (second ≡ Err error))) }
{
    match first {
        Ok(a) => match second {
            Ok(b) => Ok((a, b)),
            Err(error) => Err(error),
        },
        Err(error) => Err(error),
    }
}

/// A list of one element. `NoMemory` is the only other answer.
pub fn single<T: Drop>(alloc: Global, only: T) -> Result<List<T>, NoMemory>
    ensures { IfOk result (λ made. made ≡ only ∷ []) }
{
    let mut made = List::new(alloc);
    made.push(only)?;
    Ok(made)
}

/// A list of two elements. `NoMemory` is the only other answer.
pub fn pair<T: Drop>(alloc: Global, first: T, second: T) -> Result<List<T>, NoMemory>
    ensures { IfOk result (λ made. made ≡ first ∷ second ∷ []) }
{
    let mut made = single(alloc, first)?;
    made.push(second)?;
    Ok(made)
}

/// A list of three elements. `NoMemory` is the only other answer.
pub fn triple<T: Drop>(alloc: Global, first: T, second: T, third: T) -> Result<List<T>, NoMemory>
    ensures { IfOk result (λ made. made ≡ first ∷ second ∷ third ∷ []) }
{
    let mut made = pair(alloc, first, second)?;
    made.push(third)?;
    Ok(made)
}

/// Puts an answer's value at the end; else gives the answer's error, or `NoMemory`, and the list is as it was.
pub fn pushed<T: Drop, E: Drop + From<NoMemory>>(
    list: &mut List<T>,
    item: Result<T, E>,
) -> Result<(), E>
    ensures value { IfOk result (λ _. (value : T) × (item ≡ Ok value) × (list.new ≡ list.old ++ value ∷ [])) }
    ensures error { OnErr result (list.new ≡ list.old) }
{
    list.push(item?)?;
    Ok(())
}

/// A box around an answer's value; else the answer's error, or `NoMemory`.
pub fn in_box<T: Drop, E: Drop + From<NoMemory>>(
    alloc: Global,
    inner: Result<T, E>,
) -> Result<Boxed<T>, E>
    ensures { IfOk result (λ made. inner ≡ Ok made) }
{
    Ok(Boxed::new(alloc, inner?)?)
}
