//! Answers that may want memory, put into lists and maps: each function is proved once for every type that it puts.
ghost use Rattle.std.specs.Prelude.{◌≡◌, ◌++◌, ◌∷◌, [], IfOk};
ghost use Rattle.mo_mods.specs.Made.{IsPut, IsPutByKey};

use mo_syntax::{List, NoMemory};
use std::collections::{BTreeMap, HashMap};

/// A list with one more item.
pub(crate) fn with_item<T: Drop>(items: List<T>, item: T) -> Result<List<T>, NoMemory>
    ensures { IfOk result (λ made. made ≡ items ++ item ∷ []) }
{
    let mut made = items;
    made.push(item)?;
    Ok(made)
}

/// Puts an answer's value under a name; else gives the answer's error, or `NoMemory`.
pub(crate) fn put_under<'t, V: Drop>(
    made: &mut BTreeMap<&'t str, V>,
    name: &'t str,
    value: Result<V, NoMemory>,
) -> Result<(), NoMemory>
    ensures { IfOk result (λ _. IsPut value made.old made.new name.entry) }
{
    made.insert(name, value?)?;
    Ok(())
}

/// Puts an answer's value under a key; else gives the answer's error, or `NoMemory`.
pub(crate) fn put_by_key<V: Drop>(
    made: &mut HashMap<Vec<u16>, V>,
    key: Vec<u16>,
    value: Result<V, NoMemory>,
) -> Result<(), NoMemory>
    ensures { IfOk result (λ _. IsPutByKey value made.old made.new key.items) }
{
    made.insert(key, value?)?;
    Ok(())
}
