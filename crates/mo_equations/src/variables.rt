//! The variables of the flat model, with the equations of the bindings of unknowns.
#![tactic(auto, using(crate::proofs::Staying::staying))]

ghost use Rattle.std.specs.Prelude.{◌≡◌, ◌++◌, ◌∷◌, [], ℕ, List as Seq, Option, Ok, Err, Some, IfOk, OnOk, drop, length};
ghost use Rattle.mo_flat.specs.declared.expr.FlatExpr.{FlatExpr as Expression};
ghost use Rattle.mo_scope.specs.Frames.{at_of};
ghost use Rattle.mo_scope.specs.Trees.{IsChosen, chosen_in};
ghost use Rattle.mo_scope.specs.Worlds.{IsFrame, frame_at, frames_of, table_in};
ghost use Rattle.mo_syntax.specs.Outcome.{IfBroken};
ghost use Rattle.mo_typing.specs.Outcome.{Gives, each};
ghost use Rattle.mo_equations.specs.Gathering.{Made as Gathered, beside, made_equations};
ghost use Rattle.mo_equations.specs.Leaves.{Tree as TreeOf, Variable as VariableOf, sizes_along as sizes_along_path};
ghost use Rattle.mo_equations.specs.Variables.{Declared as DeclaredOne, all_declared as all_of_tree, declared as declared_one, declared_with, flat_attribute, flat_binding as binding_of_leaf, flat_of_leaf as expression_of_leaf, flat_option as option_of_leaf, fits_along, fits_leaf, indices_if, indices_of as indices_of_path, variable_with};
ghost use Rattle.mo_equations.specs.steps.Declaring.{AreAttributes, AreDeclared, HasOneMore, IsAskedSo, IsBound, IsOneOf, attributes_in, binding_in, built_held, dims_found, equation_part, equation_with, known_of_binding, known_of_leaf_at, nodes_held, place_of_option, printed_part, unknowns_with, variable_in};
ghost use Rattle.mo_equations.specs.steps.Desks.{IsDesk, Stays};
ghost use Rattle.mo_equations.specs.steps.Standing.{tree_in};
ghost use Rattle.mo_equations.specs.steps.Flats.{Answers, IsFlat};
ghost use Rattle.mo_equations.specs.steps.LeafTables.{AreLeaves};
ghost use Rattle.mo_equations.specs.steps.Makings.{IsFlatOption, IsMade};

use crate::array_values::known_of_element;
use crate::arrays::{flat_of_element, is_in_array};
use crate::desk::Desk;
use crate::flat::{Flat, is_past};
use crate::kinds::{attribute_kind, is_parameter, kind_text};
use crate::layers::{Fit, Layers, Want};
use crate::leaves::Leaves;
use crate::made::Made;
use crate::paths::{Step, text_of_path};
use crate::shared::{flat_of_shared, may_share, shares_binding};
use crate::standing::{Asked, flat_at, flat_value, has_values};
use crate::values::known_at;
use mo_eval::{MOST_REFERENCES, Scalar};
use mo_flat::{FlatExpr, FlatVar};
use mo_scope::{Chosen, Instance, Leaf, Scopes, extend};
use mo_syntax::{FrameId, Kind, List, NoMemory, Place, Role, Stop, Text};
use std::alloc::Global;

/// A leaf with the number of its variable.
#[derive(Clone, Copy)]
pub(crate) struct Variable<'a, 't> {
    pub number: u32,
    pub instance: &'a Instance<'t>,
    pub leaf: &'a Leaf<'t>,
}

/// Attributes with the nodes of all, each that is built by its number.
#[derive(Drop)]
pub(crate) struct Attributes {
    pub nodes: u64,
    pub built: List<(u8, FlatExpr)>,
}

/// The variables so far with the nodes of their printed expressions, how many of them are unknowns, and the equations of bindings.
/// Variables are not kept where there are more nodes than a flat model may have.
#[derive(Drop)]
pub(crate) struct Declared {
    pub vars: List<FlatVar>,
    pub nodes: u64,
    pub unknowns: u64,
    pub made: Made,
}

// ---- sizes

/// The indices of a path and the sizes that they range over, of which the first stand before a frame.
#[derive(Drop)]
struct Ranges {
    indices: List<u32>,
    sizes: List<u32>,
    /// How many of them stand before the frame.
    before: usize,
}

/// Puts the dimensions of the instance that is found at the end.
fn push_dims<'i, 't>(
    sizes: &mut List<u32>,
    leaves: &Leaves<'i, 't>,
    found: Option<u32>,
) -> Result<(), NoMemory>
    ensures { OnOk result (sizes.new ≡ sizes.old ++ dims_found leaves.now.instances.now found) }
{
    let Some(place) = found else {
        return Ok(());
    };
    match leaves.instances.get(place as usize) {
        Some(instance) => extend(sizes, instance.dims.as_slice()),
        None => Err(NoMemory),
    }
}

/// The sizes of the components that a path leads through.
fn sizes_along<'i, 't>(
    alloc: Global,
    _s: &Scopes<'t>,
    leaves: &Leaves<'i, 't>,
    path: &[Step],
) -> Result<List<u32>, NoMemory>
    requires { AreLeaves _s.now leaves.now }
    ensures { IfOk result (λ sizes. sizes ≡ sizes_along_path (tree_in _s.now leaves.now) path.now) }
{
    let mut sizes = List::new(alloc);
    for k in 0..path.len() + 1 {
        let found = leaves.all.place(alloc, &path[..k])?;
        push_dims(&mut sizes, leaves, found)?;
    }
    Ok(sizes)
}

/// The indices of a path.
fn indices_of(alloc: Global, path: &[Step]) -> Result<List<u32>, NoMemory>
    ensures { IfOk result (λ indices. indices ≡ indices_of_path path.now) }
{
    let mut indices = List::new(alloc);
    for step in path {
        extend(&mut indices, step.1.as_slice())?;
    }
    Ok(indices)
}

/// How many indices the path of a frame has, none where it has no path.
fn index_count<'t>(alloc: Global, s: &Scopes<'t>, frame: FrameId) -> Result<usize, NoMemory>
    requires { IsFrame s.now frame.0 }
    ensures { IfOk result (λ count. count ≡ length (indices_if (at_of (frame_at s.now frame.0)))) }
{
    match s.path(frame) {
        Some(path) => Ok(indices_of(alloc, path.0.as_slice())?.len()),
        None => Ok(0),
    }
}

/// What stands behind so many.
fn behind(all: &[u32], count: usize) -> &[u32]
    ensures { result.now ≡ drop count all.now }
{
    if count < all.len() {
        &all[count..]
    } else {
        &[]
    }
}

/// The indices of a leaf's path and the sizes that they range over, of which so many stand before the frame that an expression is written in.
fn ranges_of<'i, 't>(
    alloc: Global,
    s: &Scopes<'t>,
    leaves: &Leaves<'i, 't>,
    instance: &Instance<'t>,
    chosen: &Chosen<'t>,
) -> Result<Ranges, NoMemory>
    requires leaves { AreLeaves s.now leaves.now }
    requires chosen { IsChosen s.now chosen.now }
    ensures { IfOk result (λ ranges. (variable : VariableOf) → variable.instance.path ≡ instance.now.path.0 → fits_along chosen.now.value.now.place chosen.now.pending (drop ranges.before ranges.indices) (drop ranges.before ranges.sizes) ≡ fits_leaf (tree_in s.now leaves.now) variable (chosen_in (frames_of s.now) chosen.now)) }
{
    if chosen.pending.is_empty() {
        return Ok(Ranges {
            indices: List::new(alloc),
            sizes: List::new(alloc),
            before: 0,
        });
    }
    let before = index_count(alloc, s, chosen.scope.frame)?;
    let indices = indices_of(alloc, instance.path.0.as_slice())?;
    let sizes = sizes_along(alloc, s, leaves, instance.path.0.as_slice())?;
    Ok(Ranges {
        indices,
        sizes,
        before,
    })
}

// ---- what is chosen for leaves

/// What is asked of what is chosen for a leaf, of a kind.
fn asked_of<'a, 't>(chosen: &'a Chosen<'t>, kind: Kind, ranges: &'a Ranges) -> Asked<'a>
    ensures { IsAskedSo result chosen.now kind (drop ranges.now.before ranges.now.indices) (drop ranges.now.before ranges.now.sizes) }
{
    Asked {
        left: MOST_REFERENCES,
        at: &chosen.scope,
        value: chosen.value,
        index: chosen.pending.as_slice(),
        layers: Layers {
            want: Want::Accepted(kind),
            fit: Fit::Along {
                pending: chosen.pending.as_slice(),
                indices: behind(ranges.indices.as_slice(), ranges.before),
                sizes: behind(ranges.sizes.as_slice(), ranges.before),
            },
            place: chosen.value.place,
        },
    }
}

/// What is chosen for a leaf, as an expression of a kind; what leaves share is resolved once.
fn flat_of_leaf<'i, 't>(
    alloc: Global,
    s: &mut Scopes<'t>,
    desk: &mut Desk<'i, 't>,
    variable: &Variable<'_, 't>,
    kind: Kind,
    chosen: &Chosen<'t>,
) -> Result<Flat, Stop>
    requires variable { IsOneOf s.old variable.now }
    requires chosen { IsChosen s.old chosen.now }
    requires desk { IsDesk s.old desk.old }
    ensures stays { Stays s.old s.new desk.old desk.new }
    ensures exact { Answers IsFlat result (expression_of_leaf (tree_in s.old desk.old.leaves) (variable_in (frames_of s.old) variable.now) kind (chosen_in (frames_of s.old) chosen.now)) }
{
    let ranges = ranges_of(alloc, s, &desk.leaves, variable.instance, chosen)?;
    let asked = asked_of(chosen, kind, &ranges);
    if may_share(chosen) {
        flat_of_shared(alloc, s, desk, &asked, chosen.value)
    } else {
        flat_at(alloc, s, desk, &asked)
    }
}

/// The binding of a leaf, as an expression of its kind: where indices are pending it is resolved once for all elements of an array.
fn expression_of_binding<'i, 't>(
    alloc: Global,
    s: &mut Scopes<'t>,
    desk: &mut Desk<'i, 't>,
    variable: &Variable<'_, 't>,
    binding: &Chosen<'t>,
) -> Result<Flat, Stop>
    requires variable { IsOneOf s.old variable.now }
    requires chosen { IsChosen s.old binding.now }
    requires own { variable.now.leaf.now.binding ≡ Some binding.now }
    requires desk { IsDesk s.old desk.old }
    ensures stays { Stays s.old s.new desk.old desk.new }
    ensures exact { Answers IsFlat result (expression_of_leaf (tree_in s.old desk.old.leaves) (variable_in (frames_of s.old) variable.now) variable.now.leaf.now.kind (chosen_in (frames_of s.old) binding.now)) }
{
    let kind = variable.leaf.kind;
    if binding.pending.is_empty() || shares_binding(variable.instance, binding) {
        return flat_of_leaf(alloc, s, desk, variable, kind, binding);
    }
    let ranges = ranges_of(alloc, s, &desk.leaves, variable.instance, binding)?;
    let asked = asked_of(binding, kind, &ranges);
    flat_of_element(alloc, s, desk, &asked, variable.instance)
}

/// What is known of a leaf's binding, which is resolved once for all elements of an array.
fn known_of_leaf<'i, 't>(
    alloc: Global,
    s: &mut Scopes<'t>,
    desk: &mut Desk<'i, 't>,
    variable: &Variable<'_, 't>,
    chosen: &Chosen<'t>,
) -> Result<Option<Scalar>, Stop>
    requires variable { IsOneOf s.old variable.now }
    requires chosen { IsChosen s.old chosen.now }
    requires own { variable.now.leaf.now.binding ≡ Some chosen.now }
    requires desk { IsDesk s.old desk.old }
    ensures stays { Stays s.old s.new desk.old desk.new }
    ensures exact { Gives result (known_of_leaf_at (tree_in s.old desk.old.leaves) (variable_in (frames_of s.old) variable.now) (chosen_in (frames_of s.old) chosen.now)) }
{
    let ranges = ranges_of(alloc, s, &desk.leaves, variable.instance, chosen)?;
    let asked = asked_of(chosen, variable.leaf.kind, &ranges);
    if is_in_array(variable.instance) {
        known_of_element(alloc, s, desk, &asked, variable.instance)
    } else {
        known_at(alloc, s, desk, &asked)
    }
}

/// What is known of the binding of a parameter whose kind has values, None of others.
fn known_binding<'i, 't>(
    alloc: Global,
    s: &mut Scopes<'t>,
    desk: &mut Desk<'i, 't>,
    variable: &Variable<'_, 't>,
    binding: &Chosen<'t>,
) -> Result<Option<Scalar>, Stop>
    requires variable { IsOneOf s.old variable.now }
    requires chosen { IsChosen s.old binding.now }
    requires own { variable.now.leaf.now.binding ≡ Some binding.now }
    requires desk { IsDesk s.old desk.old }
    ensures stays { Stays s.old s.new desk.old desk.new }
    ensures exact { Gives result (known_of_binding (tree_in s.old desk.old.leaves) (variable_in (frames_of s.old) variable.now) (chosen_in (frames_of s.old) binding.now)) }
{
    if is_parameter(variable.leaf.role) && has_values(variable.leaf.kind) {
        known_of_leaf(alloc, s, desk, variable, binding)
    } else {
        Ok(None)
    }
}

/// The binding of a leaf: of a parameter whose kind has values its value, if one is known, else the expression.
fn flat_binding<'i, 't>(
    alloc: Global,
    s: &mut Scopes<'t>,
    desk: &mut Desk<'i, 't>,
    variable: &Variable<'_, 't>,
    binding: &Chosen<'t>,
) -> Result<Flat, Stop>
    requires variable { IsOneOf s.old variable.now }
    requires chosen { IsChosen s.old binding.now }
    requires own { variable.now.leaf.now.binding ≡ Some binding.now }
    requires desk { IsDesk s.old desk.old }
    ensures stays { Stays s.old s.new desk.old desk.new }
    ensures exact { Answers IsFlat result (binding_of_leaf (tree_in s.old desk.old.leaves) (variable_in (frames_of s.old) variable.now) (chosen_in (frames_of s.old) binding.now)) }
{
    let known = known_binding(alloc, s, desk, variable, binding)?;
    match known {
        Some(scalar) => Ok(Flat::of(flat_value(alloc, s, scalar)?)),
        None => expression_of_binding(alloc, s, desk, variable, binding),
    }
}

/// The binding of a leaf, None where it has none.
fn flat_option<'i, 't>(
    alloc: Global,
    s: &mut Scopes<'t>,
    desk: &mut Desk<'i, 't>,
    variable: &Variable<'_, 't>,
) -> Result<Option<Flat>, Stop>
    requires variable { IsOneOf s.old variable.now }
    requires desk { IsDesk s.old desk.old }
    ensures stays { Stays s.old s.new desk.old desk.new }
    ensures exact { Answers IsFlatOption result (option_of_leaf (tree_in s.old desk.old.leaves) (variable_in (frames_of s.old) variable.now) (binding_in (frames_of s.old) variable.now)) }
{
    match &variable.leaf.binding {
        Some(binding) => {
            let flat = flat_binding(alloc, s, desk, variable, binding)?;
            Ok(Some(flat))
        }
        None => Ok(None),
    }
}

impl Attributes {
    /// Puts an attribute at the end.
    fn push(&mut self, number: u8, flat: Flat) -> Result<(), NoMemory>
        ensures { OnOk result ((attributes : Seq (ℕ × Expression)) (e : Expression) → AreAttributes self.old attributes → IsFlat flat e → AreAttributes self.new (attributes ++ (number, e) ∷ [])) }
    {
        self.nodes = self.nodes.saturating_add(flat.nodes);
        match flat.built {
            Some(e) => self.built.push((number, e)),
            None => Ok(()),
        }
    }
}

/// The attributes of a leaf in their order.
fn flat_attributes<'i, 't>(
    alloc: Global,
    s: &mut Scopes<'t>,
    desk: &mut Desk<'i, 't>,
    variable: &Variable<'_, 't>,
) -> Result<Attributes, Stop>
    requires variable { IsOneOf s.old variable.now }
    requires desk { IsDesk s.old desk.old }
    ensures stays { Stays s.old s.new desk.old desk.new }
    ensures exact { Answers AreAttributes result (each (flat_attribute (tree_in s.old desk.old.leaves) (variable_in (frames_of s.old) variable.now)) (attributes_in (frames_of s.old) variable.now)) }
{
    let mut made = Attributes {
        nodes: 0,
        built: List::new(alloc),
    };
    for attribute in variable.leaf.attributes.as_slice() {
        let kind = attribute_kind(variable.leaf.kind, attribute.0);
        let flat = flat_of_leaf(alloc, s, desk, variable, kind, &attribute.1)?;
        made.push(attribute.0, flat)?;
    }
    Ok(made)
}

// ---- variables

/// The variable of a leaf with these attributes and this printed binding.
fn var_of<'t>(
    alloc: Global,
    s: &Scopes<'t>,
    variable: &Variable<'_, 't>,
    attributes: List<(u8, FlatExpr)>,
    binding: Option<FlatExpr>,
) -> Result<FlatVar, NoMemory>
    ensures { IfOk result (λ var. (tree : TreeOf) → tree.classes ≡ table_in s.now → var ≡ variable_with tree (variable_in (frames_of s.now) variable.now) attributes binding) }
{
    let name = Text::from_string(text_of_path(alloc, variable.instance.path.0.as_slice())?);
    let kind_text = kind_text(alloc, s, variable.leaf.kind)?;
    Ok(FlatVar {
        name,
        kind: variable.leaf.kind,
        kind_text,
        role: variable.leaf.role,
        attributes,
        binding,
        place: variable.instance.place,
    })
}

/// A binding that is printed, and one that is an equation: of an unknown.
fn split_binding(role: Role, binding: Option<Flat>) -> (Option<Flat>, Option<Flat>)
    ensures printed { result.0 ≡ printed_part role binding }
    ensures equation { result.1 ≡ equation_part role binding }
{
    match role {
        Role::Unknown => (None, binding),
        Role::Given | Role::Parameter | Role::Constant => (binding, None),
    }
}

/// The nodes of an expression, none where there is none, and the expression if it is built.
fn opened(flat: Option<Flat>) -> (u64, Option<FlatExpr>)
    ensures { result ≡ (nodes_held flat, built_held flat) }
{
    match flat {
        Some(flat) => (flat.nodes, flat.built),
        None => (0, None),
    }
}

/// So many unknowns with a variable of that role.
fn with_unknown(unknowns: u64, role: Role) -> u64
    ensures { result ≡ unknowns_with unknowns role }
{
    match role {
        Role::Unknown => unknowns.saturating_add(1),
        Role::Given | Role::Parameter | Role::Constant => unknowns,
    }
}

/// Where the expression of a binding stands.
fn place_of_binding(leaf: &Leaf) -> Place
    ensures { result ≡ place_of_option leaf.now.binding }
{
    match &leaf.binding {
        Some(binding) => binding.value.place,
        None => Place { file: 0, byte: 0 },
    }
}

/// Puts the equation of the variable of that number with its binding at the end, if it has one.
fn push_binding(
    alloc: Global,
    made: &mut Made,
    number: u32,
    place: Place,
    binding: Option<Flat>,
) -> Result<(), NoMemory>
    ensures { OnOk result ((before : Gathered) (e : Option Expression) → IsMade made.old before → IsFlatOption binding e → IsMade made.new (beside before (made_equations (equation_with number place e)))) }
{
    match binding {
        Some(right) => {
            let left = Flat::of(FlatExpr::Var(number, 0));
            made.push_equation(alloc, left, right, place)
        }
        None => Ok(()),
    }
}

impl Declared {
    /// No variables.
    pub fn new(alloc: Global) -> Declared
        ensures { AreDeclared result [] }
    {
        Declared {
            vars: List::new(alloc),
            nodes: 0,
            unknowns: 0,
            made: Made::new(alloc),
        }
    }

    /// Puts a variable at the end, unless there are too many nodes.
    fn push_var(&mut self, alloc: Global, nodes: u64, var: FlatVar) -> Result<(), NoMemory>
        ensures { OnOk result (HasOneMore self.old self.new nodes var) }
    {
        self.nodes = self.nodes.saturating_add(nodes);
        self.unknowns = with_unknown(self.unknowns, var.role);
        if is_past(self.nodes) {
            self.vars = List::new(alloc);
            return Ok(());
        }
        self.vars.push(var)
    }

    /// Puts the variable of a leaf at the end, with the equation of its binding if it is an unknown.
    fn push<'t>(
        &mut self,
        alloc: Global,
        s: &Scopes<'t>,
        variable: &Variable<'_, 't>,
        attributes: Attributes,
        binding: Option<Flat>,
    ) -> Result<(), NoMemory>
        ensures { OnOk result ((tree : TreeOf) (before : Seq DeclaredOne) (given : Seq (ℕ × Expression)) (e : Option Expression) → tree.classes ≡ table_in s.now → AreDeclared self.old before → AreAttributes attributes given → IsFlatOption binding e → IsBound variable.now.leaf.now.binding e → AreDeclared self.new (before ++ declared_with tree (variable_in (frames_of s.now) variable.now) given e ∷ [])) }
    {
        let (printed, equation) = split_binding(variable.leaf.role, binding);
        let (nodes, printed) = opened(printed);
        let nodes = nodes.saturating_add(attributes.nodes);
        let place = place_of_binding(variable.leaf);
        push_binding(alloc, &mut self.made, variable.number, place, equation)?;
        let var = var_of(alloc, s, variable, attributes.built, printed)?;
        self.push_var(alloc, nodes, var)
    }
}

/// Puts the variable of a leaf at the end.
fn declare<'i, 't>(
    alloc: Global,
    s: &mut Scopes<'t>,
    desk: &mut Desk<'i, 't>,
    variable: &Variable<'_, 't>,
    declared: &mut Declared,
) -> Result<(), Stop>
    requires variable { IsOneOf s.old variable.now }
    requires desk { IsDesk s.old desk.old }
    ensures stays { Stays s.old s.new desk.old desk.new }
    ensures refused { IfBroken result (λ broken. declared_one (tree_in s.old desk.old.leaves) (variable_in (frames_of s.old) variable.now) ≡ Err broken) }
    ensures exact { OnOk result ((before : Seq DeclaredOne) → AreDeclared declared.old before → (one : DeclaredOne) × (declared_one (tree_in s.old desk.old.leaves) (variable_in (frames_of s.old) variable.now) ≡ Ok one) × AreDeclared declared.new (before ++ one ∷ [])) }
{
    let attributes = flat_attributes(alloc, s, desk, variable)?;
    let binding = flat_option(alloc, s, desk, variable)?;
    declared.push(alloc, s, variable, attributes, binding)?;
    Ok(())
}

/// All variables in their order, with the equations of the bindings of unknowns.
pub(crate) fn all_declared<'i, 't>(
    alloc: Global,
    s: &mut Scopes<'t>,
    desk: &mut Desk<'i, 't>,
) -> Result<Declared, Stop>
    requires desk { IsDesk s.old desk.old }
    ensures stays { Stays s.old s.new desk.old desk.new }
    ensures exact { Answers AreDeclared result (all_of_tree (tree_in s.old desk.old.leaves)) }
{
    let instances = desk.leaves.instances;
    let mut declared = Declared::new(alloc);
    let mut number: u32 = 0;
    for instance in instances {
        let Some(leaf) = &instance.leaf else {
            continue;
        };
        let Some(next) = number.checked_add(1) else {
            return Err(Stop::NoMemory);
        };
        number = next;
        let variable = Variable {
            number,
            instance,
            leaf,
        };
        declare(alloc, s, desk, &variable, &mut declared)?;
    }
    Ok(declared)
}
