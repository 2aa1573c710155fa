//! Tables of paths of instances.
//!
//! A path is found by its printed text, and then compared.
ghost use Rattle.std.specs.Prelude.{◌≡◌, ◌++◌, ◌∷◌, [], IfOk, OnOk};
ghost use Rattle.mo_scope.specs.Frames.{indexed_eq, numbers_eq};
ghost use Rattle.mo_equations.specs.steps.Tables.{IsPathTable, paths_seen, place_among, step_eq};

use crate::paths::{Step, text_of_path};
use mo_syntax::{InstancePath, List, NoMemory};
use std::alloc::Global;
use std::collections::HashMap;

/// Paths in their order, and the place of the first one of each text.
#[derive(Drop)]
pub(crate) struct PathTable<'i> {
    pub paths: List<&'i InstancePath>,
    pub places: HashMap<String, u32>,
}

fn same_numbers(a: &[u32], b: &[u32]) -> bool
    ensures { result ≡ numbers_eq a.now b.now }
{
    match a {
        [] => b.is_empty(),
        [m, more @ ..] => match b {
            [] => false,
            [n, rest @ ..] => *m == *n && same_numbers(more, rest),
        },
    }
}

/// Whether two paths have the same names with the same indices.
pub(crate) fn same_path(a: &[Step], b: &[Step]) -> bool
    ensures { result ≡ indexed_eq a.now b.now }
{
    match a {
        [] => b.is_empty(),
        [step, more @ ..] => match b {
            [] => false,
            [other, rest @ ..] => { same_step(step, other) && same_path(more, rest) }
        },
    }
}

/// Whether two names with indices are the same.
pub(crate) fn same_step(a: &Step, b: &Step) -> bool
    ensures { result ≡ step_eq a.now b.now }
{
    a.0.equals(&b.0) && same_numbers(a.1.as_slice(), b.1.as_slice())
}

impl<'i> PathTable<'i> {
    /// No paths.
    pub fn new(alloc: Global) -> PathTable<'i>
        ensures is { IsPathTable result }
        ensures paths { result.paths ≡ [] }
    {
        PathTable {
            paths: List::new(alloc),
            places: HashMap::new(alloc),
        }
    }

    /// Puts a path at the end. `NoMemory` is the only other answer.
    pub fn push(&mut self, alloc: Global, path: &'i InstancePath) -> Result<(), NoMemory>
        requires is { IsPathTable self.old }
        ensures is { OnOk result (IsPathTable self.new) }
        ensures paths { OnOk result (paths_seen self.new ≡ paths_seen self.old ++ path.now.0 ∷ []) }
    {
        let place = self.paths.len();
        if place >= u32::MAX as usize {
            return Err(NoMemory);
        }
        let text = text_of_path(alloc, path.0.as_slice())?;
        if !self.places.contains_key(text.as_str()) {
            self.places.insert(text, place as u32)?;
        }
        self.paths.push(path)
    }

    /// The place of the first path that is this one, from 0; None where none is. `NoMemory` is the only other answer, also where
    /// another path has the same text.
    pub fn place(&self, alloc: Global, path: &[Step]) -> Result<Option<u32>, NoMemory>
        requires is { IsPathTable self.now }
        ensures { IfOk result (λ place. place ≡ place_among (paths_seen self.now) path.now) }
    {
        let text = text_of_path(alloc, path)?;
        let Some(place) = self.places.get(text.as_str()) else {
            return Ok(None);
        };
        match self.paths.get(*place as usize) {
            Some(found) => {
                if same_path(found.0.as_slice(), path) {
                    Ok(Some(*place))
                } else {
                    Err(NoMemory)
                }
            }
            None => Err(NoMemory),
        }
    }
}
