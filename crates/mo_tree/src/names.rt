//! The names that files declare, each with a key that tells whose element it is.
ghost use Rattle.std.specs.Prelude.{◌≡◌, ◌/◌, ◌%◌, List as Seq, ℕ, ◌∷◌, IfOk};
ghost use Rattle.mo_syntax.specs.Classes.{inside as home_inside};
ghost use Rattle.mo_tree.specs.Keys.{home_of, key_in};

use mo_syntax::{List, NoMemory, Place, Text};
use std::alloc::Global;

/// Whose element a name is that is declared there.
#[derive(Drop)]
pub(crate) enum Scope {
    /// Of the class with that number; of the top, where the number is 0.
    Of(u32),
    /// Of none.
    Apart,
}

/// A declared name.
#[derive(Drop)]
pub(crate) struct Name {
    /// Names with one key are elements of one class, or of the top, and have one name; None where it is no element.
    pub key: Option<List<u16>>,
    pub place: Place,
}

/// Where the elements of a class with that number stand that is declared in a scope.
pub(crate) fn inside(scope: &Scope, number: u32) -> Scope
    ensures { (name : Seq ℕ) → home_of result ≡ home_inside (home_of scope.now) name number }
{
    match scope {
        Scope::Of(_) => Scope::Of(number),
        Scope::Apart => Scope::Of(number),
    }
}

/// The key of a name that is declared in a scope.
pub(crate) fn key_of(
    alloc: Global,
    scope: &Scope,
    name: &Text,
) -> Result<Option<List<u16>>, NoMemory>
    ensures { IfOk result (λ key. key ≡ key_in (home_of scope.now) name.now) }
{
    match scope {
        Scope::Of(number) => Ok(Some(key_inside(alloc, *number, name)?)),
        Scope::Apart => Ok(None),
    }
}

fn key_inside(alloc: Global, number: u32, name: &Text) -> Result<List<u16>, NoMemory>
    ensures { IfOk result (λ key. key ≡ number / 65536 ∷ number % 65536 ∷ name.now) }
{
    let mut key = List::new(alloc);
    key.push((number / 65536) as u16)?;
    key.push((number % 65536) as u16)?;
    for b in name.as_str().as_bytes() {
        key.push(*b as u16)?;
    }
    Ok(key)
}
