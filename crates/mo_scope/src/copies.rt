//! Copies of sources and of what they carry. What they hold of the class tree is copied by reference.
ghost use Rattle.std.specs.Prelude.{◌≡◌, ◌++◌, ◌∷◌, [], map, IfOk, OnOk};
ghost use Rattle.mo_scope.specs.Sights.{source_seen};

use crate::source::{Listing, ScopeAt, Source};
use mo_syntax::{List, NoMemory, Text, both, pushed};
use std::alloc::Global;

/// Puts copies of plain values at the end. `NoMemory` is the only other answer.
pub fn extend<T: Copy + Drop>(made: &mut List<T>, items: &[T]) -> Result<(), NoMemory>
    ensures { OnOk result (made.new ≡ made.old ++ items.now) }
{
    for item in items {
        made.push(*item)?;
    }
    Ok(())
}

/// A list of plain values. `NoMemory` is the only other answer.
pub fn copied<T: Copy + Drop>(alloc: Global, items: &[T]) -> Result<List<T>, NoMemory>
    ensures { IfOk result (λ made. made ≡ items.now) }
{
    let mut made = List::new(alloc);
    extend(&mut made, items)?;
    Ok(made)
}

/// A list of plain values with one more at the end.
pub(crate) fn copied_with<T: Copy + Drop>(
    alloc: Global,
    items: &[T],
    last: T,
) -> Result<List<T>, NoMemory>
    ensures { IfOk result (λ made. made ≡ items.now ++ last ∷ []) }
{
    let mut made = copied(alloc, items)?;
    made.push(last)?;
    Ok(made)
}

/// An iteration variable with its value.
fn copied_variable(alloc: Global, variable: &(Text, i64)) -> Result<(Text, i64), NoMemory>
    ensures { IfOk result (λ made. made ≡ variable.now) }
{
    Ok((variable.0.copy(alloc)?, variable.1))
}

/// Iteration variables with their values.
fn copied_variables(alloc: Global, variables: &[(Text, i64)]) -> Result<List<(Text, i64)>, NoMemory>
    ensures { IfOk result (λ made. made ≡ variables.now) }
{
    let mut made = List::new(alloc);
    for variable in variables {
        pushed(&mut made, copied_variable(alloc, variable))?;
    }
    Ok(made)
}

/// A copy of a scope. `NoMemory` is the only other answer.
pub fn copied_scope(alloc: Global, scope: &ScopeAt) -> Result<ScopeAt, NoMemory>
    ensures { IfOk result (λ made. made ≡ scope.now) }
{
    let iters = copied_variables(alloc, scope.iters.as_slice())?;
    Ok(ScopeAt {
        frame: scope.frame,
        iters,
    })
}

/// A copy of the place of a list.
fn copied_listing<'t>(alloc: Global, listing: &Listing<'t>) -> Result<Listing<'t>, NoMemory>
    ensures { IfOk result (λ made. made ≡ listing.now) }
{
    let passed = copied(alloc, listing.passed.as_slice())?;
    Ok(Listing {
        place: listing.place,
        passed,
    })
}

/// A copy of a source.
pub(crate) fn copied_source<'t>(alloc: Global, source: &Source<'t>) -> Result<Source<'t>, NoMemory>
    ensures { IfOk result (λ made. source_seen made ≡ source_seen source.now) }
{
    let (pending, listing) = both(
        copied(alloc, source.pending.as_slice()),
        copied_listing(alloc, &source.listing),
    )?;
    let scope = copied_scope(alloc, &source.scope)?;
    Ok(Source {
        given: source.given,
        scope,
        pending,
        listing,
        last: source.last,
        outside: source.outside,
        origin: source.origin,
    })
}

/// Puts copies of sources at the end.
pub(crate) fn extend_sources<'t>(
    alloc: Global,
    made: &mut List<Source<'t>>,
    sources: &[Source<'t>],
) -> Result<(), NoMemory>
    ensures { OnOk result (map source_seen made.new ≡ map source_seen made.old ++ map source_seen sources.now) }
{
    for source in sources {
        pushed(made, copied_source(alloc, source))?;
    }
    Ok(())
}
