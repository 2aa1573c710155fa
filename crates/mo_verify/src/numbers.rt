//! The numbers of unknowns by their names.
ghost use Rattle.std.specs.Prelude.{◌≡◌, ◌≤◌, ℕ, List as Seq, IfOk, length};
ghost use Rattle.mo_verify.specs.Reading.{number_of};
ghost use Rattle.mo_verify.specs.Steps.{number_held};

use mo_syntax::{NoMemory, Text};
use std::alloc::Global;
use std::collections::HashMap;

/// The number of each unknown, from 1, by its name; of two with one name the first.
#[derive(Drop)]
pub(crate) struct Numbers<'t> {
    numbers: HashMap<&'t [u8], u32>,
}

impl<'t> Numbers<'t> {
    /// The numbers of these names.
    pub fn of(alloc: Global, names: &'t [Text]) -> Result<Numbers<'t>, NoMemory>
        requires { length names.now ≤ 50000 }
        ensures { IfOk result (λ table. (name : Seq ℕ) → number_held table name ≡ number_of names.now name) }
    {
        let mut numbers = HashMap::new(alloc);
        for at in (0..names.len()).rev() {
            numbers.insert(names[at].as_str().as_bytes(), at as u32 + 1)?;
        }
        Ok(Numbers { numbers })
    }

    /// The number of the unknown with this name.
    pub fn number(&self, name: &[u8]) -> Option<u32>
        ensures { result ≡ number_held self.now name.now }
    {
        self.numbers.get(name).copied()
    }
}
