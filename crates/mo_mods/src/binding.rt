//! Looking up what a table gives.
ghost use Rattle.std.specs.Prelude.{◌≡◌, [], List as Seq, drop, option_copied, IfSome};
ghost use Rattle.mo_scope.specs.Frames.{Frame};
ghost use Rattle.mo_scope.specs.Worlds.{World};
ghost use Rattle.mo_mods.specs.Merged.{at_path};
ghost use Rattle.mo_mods.specs.Scopes.{ScopesExist};
ghost use Rattle.mo_mods.specs.Sights.{merged_in, merged_or};
ghost use Rattle.mo_mods.specs.Calls.{IsTableFor, IsBoundTo, ScopeExists};

use crate::env::MergedEnv;
use mo_scope::Picked;
use mo_syntax::Text;

impl<'t> MergedEnv<'t> {
    /// The table for the paths that begin with a name, None where nothing is given for them.
    pub fn table_for(&self, name: &Text) -> Option<&MergedEnv<'t>>
        ensures { IsTableFor self.now name.now (option_copied result) }
    {
        self.below.get(name.as_str())
    }

    /// The table for the paths that begin with a name, None where nothing is given for them.
    pub fn table_named(&self, name: &str) -> Option<&MergedEnv<'t>>
        ensures { IsTableFor self.now name.now (option_copied result) }
    {
        self.below.get(name)
    }

    /// The value for a path, with its scope and its pending indices. It takes no memory.
    pub fn binding(&self, path: &[Text]) -> Option<Picked<'_>>
        ensures is { IsBoundTo self.now path.now result }
        ensures exists { (world : World) → ScopesExist world self.now → IfSome result (ScopeExists world) }
    {
        self.found(path)
    }

    /// The value for a path.
    fn found(&self, path: &[Text]) -> Option<Picked<'_>>
        ensures { IsBoundTo self.now path.now result }
    {
        match self.at_path(path, 0) {
            Some(env) => env.value_here(),
            None => None,
        }
    }

    /// The table for the names of a path behind so many, None where nothing is given for them.
    fn at_path(&self, path: &[Text], passed: usize) -> Option<&MergedEnv<'t>>
        ensures { (frames : Seq Frame) → merged_or frames (option_copied result) ≡ at_path (merged_in frames self.now) (drop passed path.now) }
    {
        if passed >= path.len() {
            return Some(self);
        }
        match self.table_for(&path[passed]) {
            Some(next) => next.at_path(path, passed + 1),
            None => None,
        }
    }

    /// The value for what the table is of.
    fn value_here(&self) -> Option<Picked<'_>>
        ensures { IsBoundTo self.now [] result }
    {
        match &self.value {
            Some(value) => Some(Picked {
                value: value.value,
                scope: &value.scope,
                pending: value.pending.as_slice(),
            }),
            None => None,
        }
    }
}
