//! The leaves of a tree of instances by number and by path.
ghost use Rattle.std.specs.Prelude.{◌≡◌, ◌++◌, ◌∷◌, [], ℕ, List as Seq, Some, map, is_some, if◌then◌else◌, option_copied, slice_get, string_bytes, IfOk, OnOk};
ghost use Rattle.std.specs.HashMap.{get_by_text};
ghost use Rattle.std.specs.List.{list_any};
ghost use Rattle.std.specs.Str.{bytes_eq};
ghost use Rattle.mo_scope.specs.Places.{Every};
ghost use Rattle.mo_scope.specs.Trees.{IsInstance, instance_in, instances_in};
ghost use Rattle.mo_scope.specs.Worlds.{frames_of, table_in};
ghost use Rattle.mo_eval.specs.FrameBindings.{IsBoundByFrame};
ghost use Rattle.mo_equations.specs.Connectors.{is_connector as is_connector_of, is_connector_class as is_connector_number, is_connector_kind as is_connector_by, is_declared_flow as declared_flow, is_joined_role};
ghost use Rattle.mo_equations.specs.Counted.{IsTreeOf};
ghost use Rattle.mo_equations.specs.Leaves.{behind};
ghost use Rattle.mo_equations.specs.steps.LeafTables.{AreLeaves, PlacesAreThose, ends_with, instances_at, is_flow_by, is_joined_option, leaves_in, number_by, numbers_at, numbers_or_none, paths_that, with_around, with_number, with_variable};
ghost use Rattle.mo_equations.specs.steps.Tables.{IsPathTable, paths_seen};

use crate::flows::is_declared_flow;
use crate::paths::{Step, text_of_path};
use crate::table::PathTable;
use mo_scope::{Instance, Leaf, Scopes};
use mo_syntax::{ClassId, ClassKind, List, NoMemory, Role};
use std::alloc::Global;
use std::collections::HashMap;

/// The instances of a class, and the variables among them by number.
#[derive(Drop)]
pub(crate) struct Leaves<'i, 't> {
    pub instances: &'i [Instance<'t>],
    /// The paths of all instances.
    pub all: PathTable<'i>,
    /// The place of the instance of each variable, in their order; the first one has number 1.
    pub places: List<u32>,
    /// Their paths.
    pub numbers: PathTable<'i>,
    /// Whether each is the flow of a connector.
    pub flows: List<bool>,
    /// The numbers of the variables at a path or below it that are leaves of connectors, ascending, by the path's text.
    pub below: HashMap<String, List<u32>>,
}

/// Whether a leaf of that role is a leaf of a connector.
pub(crate) fn is_joined(role: Role) -> bool
    ensures { result ≡ is_joined_role role }
{
    match role {
        Role::Unknown => true,
        Role::Given => true,
        Role::Parameter => false,
        Role::Constant => false,
    }
}

fn is_connector_kind(kind: ClassKind) -> bool
    ensures { result ≡ is_connector_by kind }
{
    match kind {
        ClassKind::Connector => true,
        ClassKind::Plain | ClassKind::Model | ClassKind::Block | ClassKind::Recd => false,
        ClassKind::TypeDef | ClassKind::Package | ClassKind::Function => false,
        ClassKind::Operator => false,
    }
}

/// Whether a class is a connector by its own definition.
pub(crate) fn is_connector_class(s: &Scopes, class: ClassId) -> bool
    ensures { result ≡ is_connector_number (table_in s.now) class.0 }
{
    match s.row(class) {
        Some(row) => is_connector_kind(row.class.kind),
        None => false,
    }
}

/// Whether an instance is a connector.
fn is_connector<'t>(s: &Scopes<'t>, instance: &Instance<'t>) -> bool
    requires { IsInstance s.now instance.now }
    ensures { result ≡ is_connector_of (table_in s.now) (instance_in (frames_of s.now) instance.now) }
{
    is_connector_class(s, s.class_of(instance.frame))
}

/// The paths of the connectors among instances.
fn connectors<'i, 't>(
    alloc: Global,
    s: &Scopes<'t>,
    instances: &'i [Instance<'t>],
) -> Result<PathTable<'i>, NoMemory>
    requires { Every (IsInstance s.now) instances.now }
    ensures is { IfOk result IsPathTable }
    ensures paths { IfOk result (λ made. paths_seen made ≡ paths_that (is_connector_of (table_in s.now)) (instances_in s.now instances.now)) }
{
    let mut made = PathTable::new(alloc);
    for instance in instances {
        if is_connector(s, instance) {
            made.push(alloc, &instance.path)?;
        }
    }
    Ok(made)
}

/// The paths of the instances whose declarations are flow.
fn declared_flows<'i, 't>(
    alloc: Global,
    s: &Scopes<'t>,
    instances: &'i [Instance<'t>],
) -> Result<PathTable<'i>, NoMemory>
    requires { Every (IsInstance s.now) instances.now }
    ensures is { IfOk result IsPathTable }
    ensures paths { IfOk result (λ made. paths_seen made ≡ paths_that (declared_flow (table_in s.now)) (instances_in s.now instances.now)) }
{
    let mut made = PathTable::new(alloc);
    let mut levels = List::new(alloc);
    for instance in instances {
        if is_declared_flow(alloc, s, &mut levels, instance)? {
            made.push(alloc, &instance.path)?;
        }
    }
    Ok(made)
}

/// Whether one of the paths of a table is a path or leads to it.
fn is_around(alloc: Global, table: &PathTable, path: &[Step]) -> Result<bool, NoMemory>
    requires is { IsPathTable table.now }
    ensures { IfOk result (λ around. around ≡ list_any (λ other. is_some (behind other path.now)) (paths_seen table.now)) }
{
    if table.paths.is_empty() {
        return Ok(false);
    }
    for k in 0..path.len() + 1 {
        if table.place(alloc, &path[..k])?.is_some() {
            return Ok(true);
        }
    }
    Ok(false)
}

/// Puts a place at the end, if it is that of a leaf.
fn put_place(made: &mut List<u32>, is_leaf: bool, place: u32) -> Result<(), NoMemory>
    ensures { OnOk result (made.new ≡ (if is_leaf then made.old ++ place ∷ [] else made.old)) }
{
    if is_leaf { made.push(place) } else { Ok(()) }
}

/// The places of the instances that are leaves, in their order.
fn places_among<'t>(alloc: Global, instances: &[Instance<'t>]) -> Result<List<u32>, NoMemory>
    ensures { IfOk result (λ made. instances_at instances.now made ≡ map (λ instance. Some instance) (leaves_in instances.now)) }
{
    let mut made = List::new(alloc);
    let mut place: u32 = 0;
    for instance in instances {
        put_place(&mut made, instance.leaf.is_some(), place)?;
        let Some(next) = place.checked_add(1) else {
            return Err(NoMemory);
        };
        place = next;
    }
    Ok(made)
}

/// The paths of the instances that are leaves.
fn paths_among<'i, 't>(
    alloc: Global,
    instances: &'i [Instance<'t>],
) -> Result<PathTable<'i>, NoMemory>
    ensures is { IfOk result IsPathTable }
    ensures paths { IfOk result (λ made. paths_seen made ≡ map (λ instance. instance.path.0) (leaves_in instances.now)) }
{
    let mut made = PathTable::new(alloc);
    for instance in instances {
        if instance.leaf.is_some() {
            made.push(alloc, &instance.path)?;
        }
    }
    Ok(made)
}

/// The paths of all instances.
fn paths_of_all<'i, 't>(
    alloc: Global,
    instances: &'i [Instance<'t>],
) -> Result<PathTable<'i>, NoMemory>
    ensures is { IfOk result IsPathTable }
    ensures paths { IfOk result (λ made. paths_seen made ≡ map (λ instance. instance.path.0) instances.now) }
{
    let mut made = PathTable::new(alloc);
    for instance in instances {
        made.push(alloc, &instance.path)?;
    }
    Ok(made)
}

/// Whether a variable is the flow of a connector, by the paths of the connectors and of what is declared flow.
fn is_flow<'t>(
    alloc: Global,
    connectors: &PathTable,
    flows: &PathTable,
    instance: &Instance<'t>,
) -> Result<bool, NoMemory>
    requires connectors { IsPathTable connectors.now }
    requires flows { IsPathTable flows.now }
    ensures { IfOk result (λ flow. flow ≡ (is_flow_by (paths_seen connectors.now) (paths_seen flows.now) instance.now)) }
{
    if !is_joined_leaf(&instance.leaf) {
        return Ok(false);
    }
    let path = instance.path.0.as_slice();
    if !is_around(alloc, connectors, path)? {
        return Ok(false);
    }
    is_around(alloc, flows, path)
}

/// Whether there is a leaf that is a leaf of a connector.
pub(crate) fn is_joined_leaf(leaf: &Option<Leaf>) -> bool
    ensures { result ≡ is_joined_option leaf.now }
{
    match leaf {
        Some(leaf) => is_joined(leaf.role),
        None => false,
    }
}

/// Whether each variable is the flow of a connector.
fn flows_among<'t>(
    alloc: Global,
    connectors: &PathTable,
    flows: &PathTable,
    instances: &[Instance<'t>],
) -> Result<List<bool>, NoMemory>
    requires connectors { IsPathTable connectors.now }
    requires flows { IsPathTable flows.now }
    ensures { IfOk result (λ made. made ≡ map (is_flow_by (paths_seen connectors.now) (paths_seen flows.now)) (leaves_in instances.now)) }
{
    let mut made = List::new(alloc);
    for instance in instances {
        if instance.leaf.is_some() {
            made.push(is_flow(alloc, connectors, flows, instance)?)?;
        }
    }
    Ok(made)
}

/// The numbers so far under a text, none where there are none.
fn or_none(alloc: Global, numbers: Option<List<u32>>) -> List<u32>
    ensures { result ≡ numbers_or_none numbers }
{
    match numbers {
        Some(numbers) => numbers,
        None => List::new(alloc),
    }
}

/// Whether numbers end with this one.
fn is_last(numbers: &[u32], number: u32) -> bool
    ensures { result ≡ ends_with numbers.now number }
{
    match numbers {
        [] => false,
        [.., last] => *last == number,
    }
}

/// Numbers with one at the end, if it does not stand there.
fn with_one(alloc: Global, numbers: Option<List<u32>>, number: u32) -> Result<List<u32>, NoMemory>
    ensures { IfOk result (λ made. made ≡ with_number (numbers_or_none numbers) number) }
{
    let mut made = or_none(alloc, numbers);
    if !is_last(made.as_slice(), number) {
        made.push(number)?;
    }
    Ok(made)
}

/// Puts a number under a text, behind those before, if it does not stand there.
fn put(
    alloc: Global,
    below: &mut HashMap<String, List<u32>>,
    text: String,
    number: u32,
) -> Result<(), NoMemory>
    ensures { OnOk result ((other : Seq ℕ) → numbers_or_none (get_by_text below.new other) ≡ (if bytes_eq (string_bytes text) other then with_number (numbers_or_none (get_by_text below.old other)) number else numbers_or_none (get_by_text below.old other))) }
{
    let found = below.remove(text.as_str());
    let numbers = with_one(alloc, found, number)?;
    below.insert(text, numbers)?;
    Ok(())
}

/// Puts the number of a variable under each path that is its path or leads to it.
fn put_around(
    alloc: Global,
    below: &mut HashMap<String, List<u32>>,
    path: &[Step],
    number: u32,
) -> Result<(), NoMemory>
    ensures { OnOk result ((other : Seq ℕ) → numbers_or_none (get_by_text below.new other) ≡ with_around other path.now number (numbers_or_none (get_by_text below.old other))) }
{
    for k in 0..path.len() + 1 {
        let text = text_of_path(alloc, &path[..k])?;
        put(alloc, below, text, number)?;
    }
    Ok(())
}

/// Puts the number of a variable under each path at and around it, if it is a leaf of a connector.
fn put_variable<'t>(
    alloc: Global,
    below: &mut HashMap<String, List<u32>>,
    variable: &Instance<'t>,
    number: u32,
) -> Result<(), NoMemory>
    ensures { OnOk result ((other : Seq ℕ) → numbers_or_none (get_by_text below.new other) ≡ with_variable other variable.now number (numbers_or_none (get_by_text below.old other))) }
{
    if is_joined_leaf(&variable.leaf) {
        put_around(alloc, below, variable.path.0.as_slice(), number)
    } else {
        Ok(())
    }
}

/// The numbers of the leaves of connectors by the texts of the paths at and around them.
fn numbers_below<'t>(
    alloc: Global,
    instances: &[Instance<'t>],
) -> Result<HashMap<String, List<u32>>, NoMemory>
    ensures { IfOk result (λ made. (text : Seq ℕ) → numbers_or_none (get_by_text made text) ≡ numbers_at (leaves_in instances.now) text) }
{
    let mut made = HashMap::new(alloc);
    let mut number: u32 = 1;
    for instance in instances {
        if instance.leaf.is_none() {
            continue;
        }
        put_variable(alloc, &mut made, instance, number)?;
        let Some(next) = number.checked_add(1) else {
            return Err(NoMemory);
        };
        number = next;
    }
    Ok(made)
}

/// The tables of a tree of instances.
pub(crate) fn leaves_of<'i, 't>(
    alloc: Global,
    s: &Scopes<'t>,
    instances: &'i [Instance<'t>],
) -> Result<Leaves<'i, 't>, NoMemory>
    requires exist { Every (IsInstance s.now) instances.now }
    requires bound { Every (IsBoundByFrame s.now) instances.now }
    requires tree { IsTreeOf (table_in s.now) (instances_in s.now instances.now) }
    ensures is { IfOk result (AreLeaves s.now) }
    ensures instances { IfOk result (λ made. made.instances.now ≡ instances.now) }
{
    let connectors = connectors(alloc, s, instances)?;
    let declared = declared_flows(alloc, s, instances)?;
    let places = places_among(alloc, instances)?;
    let all = paths_of_all(alloc, instances)?;
    let numbers = paths_among(alloc, instances)?;
    let flows = flows_among(alloc, &connectors, &declared, instances)?;
    let below = numbers_below(alloc, instances)?;
    Ok(Leaves {
        instances,
        all,
        places,
        numbers,
        flows,
        below,
    })
}

impl<'i, 't> Leaves<'i, 't> {
    /// The number of the variable at a path, 0 where none is there.
    pub fn number_at(&self, alloc: Global, path: &[Step]) -> Result<u32, NoMemory>
        requires { IsPathTable self.now.numbers }
        ensures { IfOk result (λ number. number ≡ number_by (paths_seen self.now.numbers) path.now) }
    {
        match self.numbers.place(alloc, path)? {
            Some(place) => match place.checked_add(1) {
                Some(number) => Ok(number),
                None => Err(NoMemory),
            },
            None => Ok(0),
        }
    }

    /// The instance of the variable with so many before it, None where there are fewer.
    pub fn variable(&self, k: usize) -> Option<&'i Instance<'t>>
        requires { PlacesAreThose self.now }
        ensures { option_copied result ≡ slice_get (leaves_in self.now.instances.now) k }
    {
        match self.places.get(k) {
            Some(place) => self.instances.get(*place as usize),
            None => None,
        }
    }
}
