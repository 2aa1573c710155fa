//! All classes of the files.
ghost use Rattle.std.specs.Prelude.{◌≡◌, map, option_map, slice_get, IfOk};
ghost use Rattle.mo_scope.specs.Classes.{AreClasses};
ghost use Rattle.mo_scope.specs.OwnNames.{AreOwnNames, first_at};
ghost use Rattle.mo_scope.specs.Sights.{declares_seen, row_seen};

use crate::extending::extending_of;
use crate::groups::groups_of;
use crate::making::rows_of;
use crate::own_names::{OwnNames, own_names_of};
use crate::places::{Places, places_of};
use crate::row::{Declares, Row};
use crate::tops::{Tops, tops_of};
use crate::walk::classes_of;
use mo_syntax::{FileTree, List, NoMemory, Text};
use std::alloc::Global;

/// The rows of all classes, which are also found by place, those at the top by name, and what each declares itself by name.
#[derive(Drop)]
pub(crate) struct Classes<'t> {
    /// In the order of their numbers, from 6.
    pub rows: List<Row<'t>>,
    /// Beside each row.
    pub owns: List<OwnNames<'t>>,
    /// Whether each has an extends clause.
    pub extending: List<bool>,
    pub places: Places,
    pub tops: Tops<'t>,
}

impl<'t> Classes<'t> {
    /// The classes of the files. Want of memory is the only other answer, also for more numbers than there are.
    pub fn new(alloc: Global, files: &'t [FileTree]) -> Result<Classes<'t>, NoMemory>
        ensures { IfOk result (AreClasses files.now) }
    {
        let classes = classes_of(alloc, files)?;
        let places = places_of(alloc, classes.as_slice())?;
        let groups = groups_of(alloc, classes.as_slice())?;
        let rows = rows_of(alloc, &places, &groups, classes.as_slice())?;
        let owns = own_names_of(alloc, rows.as_slice())?;
        let extending = extending_of(alloc, rows.as_slice())?;
        let tops = tops_of(alloc, rows.as_slice())?;
        Ok(Classes {
            rows,
            owns,
            extending,
            places,
            tops,
        })
    }

    /// The first element of that name that the class with that row declares itself, with how many of its elements stand before it.
    pub fn first_own(&self, at: usize, name: &Text) -> Option<(u32, Declares<'t>)>
        requires { AreOwnNames self.now.owns self.now.rows }
        ensures { option_map (λ found. (found.0, declares_seen found.1)) result ≡ first_at name.now (slice_get (map row_seen self.now.rows) at) }
    {
        match self.rows.get(at) {
            Some(row) => match self.owns.get(at) {
                Some(names) => names.first(row.parts.as_slice(), name),
                None => None,
            },
            None => None,
        }
    }
}
