//! The modifiers of a frame as one table.
ghost use Rattle.std.specs.Prelude.{IfOk};
ghost use Rattle.mo_mods.specs.declared.env.MergedEnv.{out-MergedEnv};
ghost use Rattle.mo_mods.specs.Made.{AreParts, AreValueParts};

use mo_scope::{Declares, ScopeAt};
use mo_syntax::{Expr, List, NoMemory, both};
use std::collections::BTreeMap;

/// A value with the scope where it was written.
#[derive(Drop)]
pub struct MergedValue<'t> {
    pub value: &'t Expr,
    pub scope: ScopeAt,
    /// The indices at which it is still to be taken.
    pub pending: List<u32>,
    /// For each name of its path, whether it carries `each`.
    pub each: List<bool>,
}

/// What declares an element anew, with the scope where it was written.
#[derive(Drop)]
pub struct RedeclaredAt<'t> {
    pub declares: Declares<'t>,
    pub scope: ScopeAt,
}

/// What is given for a path: a value, a redeclaration, and what is given for the paths that go on, one table a name.
#[derive(Drop)]
pub struct MergedEnv<'t> {
    pub value: Option<MergedValue<'t>>,
    pub redeclared: Option<RedeclaredAt<'t>>,
    pub below: BTreeMap<&'t str, MergedEnv<'t>>,
}

/// A value with what is read of it on the way to its path; else the error of the first that is none.
pub(crate) fn value_of<'t>(
    value: &'t Expr,
    pending: Result<List<u32>, NoMemory>,
    scope: Result<ScopeAt, NoMemory>,
    each: Result<List<bool>, NoMemory>,
) -> Result<MergedValue<'t>, NoMemory>
    ensures { IfOk result (AreValueParts value.now pending scope each) }
{
    match both(both(pending, scope), each) {
        Ok(((pending, scope), each)) => Ok(MergedValue {
            value,
            scope,
            pending,
            each,
        }),
        Err(error) => Err(error),
    }
}

/// A table of its parts; else the error of the first that is none.
pub(crate) fn table_of<'t>(
    value: Result<Option<MergedValue<'t>>, NoMemory>,
    redeclared: Result<Option<RedeclaredAt<'t>>, NoMemory>,
    below: Result<BTreeMap<&'t str, MergedEnv<'t>>, NoMemory>,
) -> Result<MergedEnv<'t>, NoMemory>
    ensures { IfOk result (λ made. AreParts value.entry redeclared.entry below.entry (out-MergedEnv made)) }
{
    match both(both(value, redeclared), below) {
        Ok(((value, redeclared), below)) => Ok(MergedEnv {
            value,
            redeclared,
            below,
        }),
        Err(error) => Err(error),
    }
}
