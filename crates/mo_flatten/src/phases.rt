//! The phases of flattening, one after another.
ghost use Rattle.std.specs.Prelude.{◌≡◌, ◌<◌, ◌++◌, false, All, IfOk};
ghost use Rattle.mo_syntax.specs.ClassTable.{class_count};
ghost use Rattle.mo_syntax.specs.SoundTree.{IsSoundTree};
ghost use Rattle.mo_flat.specs.declared.connect.Expanded.{Expanded as ExpandedAt};
ghost use Rattle.mo_flat.specs.Sound.{IsSoundModel};
ghost use Rattle.mo_flat.specs.SoundConnects.{IsSoundConnects};
ghost use Rattle.mo_scope.specs.Outcome.{Gives};
ghost use Rattle.mo_scope.specs.Rows.{number_of_classes, table_of};
ghost use Rattle.mo_connect.specs.Equations.{HasNumericMembers};
ghost use Rattle.mo_equations.specs.Counted.{IsExpansion};
ghost use Rattle.mo_equations.specs.Sound.{IsSoundExpansion};
ghost use Rattle.mo_flatten.specs.Flat.{expansion_in, model_of, within_size as within_size_of};
ghost use Rattle.mo_flatten.specs.Told.{Connects, GivesExpanded, HasRow, IfTold, Tells, TellsOf};

use crate::size::{too_large, within_size};
use mo_connect::{set_equations, sets};
use mo_equations::{Expansion, expand};
use mo_flat::{Expanded, FaceSet, FlatEquation, FlatModel};
use mo_instance::instantiate;
use mo_syntax::{ClassId, ClassTree, List, NoMemory, Path, Stop};
use mo_tree::asked;
use std::alloc::Global;

/// The most variables of a flat model: its class has no more components.
const MOST_VARIABLES: usize = 400_000;

/// The flat model of the class of a path, or the first rule that is broken: 11 and 13 of the asked class; 12 to 36, 39 to 41, 45 and 46 of
/// its instances and equations; 31, 37 and 38 of its connections; 41 at its name where the flat model is too large (Modelica Language
/// Specification 3.5, section 5.6.2). `NoMemory` is the only other answer.
pub fn flatten(alloc: Global, tree: &ClassTree, path: &Path) -> Result<FlatModel, Stop>
    requires few { class_count tree.now.files < 4294967290 }
    requires sound { IsSoundTree tree.now.files }
    ensures told { Tells tree.now.files path.now.0 result }
    ensures sound { IfOk result IsSoundModel }
{
    match asked(tree, path) {
        Ok(class) => flattened(alloc, tree, class),
        Err(broken) => Err(Stop::Broken(broken)),
    }
}

/// The flat model of the class with that number.
fn flattened(alloc: Global, tree: &ClassTree, class: ClassId) -> Result<FlatModel, Stop>
    requires sound { IsSoundTree tree.now.files }
    requires class { class.0 < number_of_classes (table_of tree.now.files) }
    requires row { HasRow (table_of tree.now.files) class.0 }
    ensures told { IfTold result (TellsOf (expansion_in tree.now.files class.0)) }
    ensures sound { IfOk result IsSoundModel }
{
    let expansion = expansion_of(alloc, tree, class)?;
    connected(alloc, expansion)
}

/// The variables, equations and connects of a class.
fn expansion_of(alloc: Global, tree: &ClassTree, class: ClassId) -> Result<Expansion, Stop>
    requires sound { IsSoundTree tree.now.files }
    requires class { class.0 < number_of_classes (table_of tree.now.files) }
    requires row { HasRow (table_of tree.now.files) class.0 }
    ensures told { GivesExpanded result (expansion_in tree.now.files class.0) }
    ensures sound { IfOk result (λ made. made.past ≡ false → IsSoundExpansion made.parts) }
    ensures connects { IfOk result (λ made. IsSoundConnects made.parts.connects) }
{
    let mut instances = instantiate(alloc, tree, class)?;
    expand(alloc, &mut instances)
}

/// The flat model of variables and equations with the equations of its connection sets.
fn connected(alloc: Global, expansion: Expansion) -> Result<FlatModel, Stop>
    requires connects { IsSoundConnects expansion.parts.connects }
    requires sound { expansion.past ≡ false → IsSoundExpansion expansion.parts }
    ensures told { (e : ExpandedAt) → IsExpansion expansion e → IfTold result (Connects e) }
    ensures sound { IfOk result IsSoundModel }
{
    let Expansion { parts, past } = expansion;
    let found = sets(alloc, &parts.connects)?;
    if past {
        return Err(too_large(parts.place));
    }
    joined(alloc, parts, found.as_slice())
}

/// The flat model with the equations of these connection sets.
fn joined(alloc: Global, parts: Expanded, found: &[FaceSet]) -> Result<FlatModel, Stop>
    requires sound { IsSoundExpansion parts }
    requires numbers { All (HasNumericMembers parts.vars) found.now }
    ensures told { Gives (λ m. m) result (within_size_of (model_of parts found.now)) }
    ensures sound { IfOk result IsSoundModel }
{
    if parts.vars.len() > MOST_VARIABLES {
        return Err(Stop::NoMemory);
    }
    let equations = set_equations(alloc, found)?;
    let model = with_equations(parts, equations)?;
    within_size(model)
}

/// The flat model with these equations behind all others.
fn with_equations(parts: Expanded, behind: List<FlatEquation>) -> Result<FlatModel, NoMemory>
    ensures { IfOk result (λ m. m ≡ record { name = parts.name; place = parts.place; vars = parts.vars; first = parts.first; first_asserts = parts.first_asserts; equations = parts.equations ++ behind; asserts = parts.asserts }) }
{
    let Expanded {
        name,
        place,
        vars,
        first,
        first_asserts,
        mut equations,
        asserts,
        connects: _,
    } = parts;
    equations.append(behind)?;
    Ok(FlatModel {
        name,
        place,
        vars,
        first,
        first_asserts,
        equations,
        asserts,
    })
}
