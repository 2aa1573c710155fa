//! What the instances of a class give.
#![tactic(auto, using(crate::proofs::Staying::staying))]

ghost use Rattle.std.specs.Prelude.{◌≡◌, ◌∷◌, [], ◌++◌, false, List as Seq, Ok, IfOk, OnOk, if◌then◌else◌};
ghost use Rattle.mo_flat.specs.declared.connect.Expanded.{Expanded as ExpandedAt};
ghost use Rattle.mo_flat.specs.SoundConnects.{IsSoundConnects};
ghost use Rattle.mo_scope.specs.Places.{Every};
ghost use Rattle.mo_scope.specs.Trees.{IsInstance, instances_in};
ghost use Rattle.mo_scope.specs.Worlds.{World, Grows, table_in};
ghost use Rattle.mo_eval.specs.FrameBindings.{IsBoundByFrame};
ghost use Rattle.mo_equations.specs.Connectors.{all_flows as flows_of_tree};
ghost use Rattle.mo_equations.specs.Counted.{GivesExpansion, HasInstances, IsExpansion, IsTreeOf, tree_of};
ghost use Rattle.mo_equations.specs.Expansion.{Parts as PartsOf, name_of_root as name_of_tree};
ghost use Rattle.mo_equations.specs.Leaves.{place_of_root as place_of_tree};
ghost use Rattle.mo_equations.specs.Size.{is_past as is_past_expansion};
ghost use Rattle.mo_equations.specs.steps.Flats.{are_over};
ghost use Rattle.mo_equations.specs.Variables.{Declared as DeclaredOne, all_declared as all_of_tree};
ghost use Rattle.mo_equations.specs.Sound.{IsSoundExpansion};
ghost use Rattle.mo_equations.specs.steps.Declaring.{AreDeclared, IsExpandedWith, expanded_from};
ghost use Rattle.mo_equations.specs.steps.Desks.{Goes, IsDesk};
ghost use Rattle.mo_equations.specs.steps.Standing.{tree_in};
ghost use Rattle.mo_equations.specs.steps.LeafTables.{AreLeaves, flow_at};
ghost use Rattle.mo_equations.specs.steps.Placing.{AreParts, GivesParts, parts_of_tree};

use crate::checks::is_sound_expansion;
use crate::desk::Desk;
use crate::flat::is_past;
use crate::leaves::{Leaves, leaves_of};
use crate::limits::{MOST_EQUATIONS, MOST_UNKNOWNS};
use crate::made::Made;
use crate::sections::{Parts, all_sections, frames_of_all};
use crate::stops::or_stop;
use crate::variables::{Declared, all_declared};
use mo_eval::{Reader, class_text};
use mo_flat::{Connects, Expanded};
use mo_scope::{Instance, InstanceTree, Scopes};
use mo_syntax::{List, NoMemory, Place, Stop, Text, both};
use std::alloc::Global;

/// The variables, equations, asserts and connects of a class.
#[derive(Drop)]
pub struct Expansion {
    /// Where the flat model will be too large, its variables, equations and asserts may be missing here.
    pub parts: Expanded,
    /// Whether the flat model will be too large, whatever its connection sets are.
    pub past: bool,
}

/// What the instances of a class give: its variables with their attributes and bindings, its equations and initial equations, its
/// asserts and its connects; or the first rule that is broken: 12 to 19, 23, 24, 28 to 36, 39, 40 and 45, and 41 for turns of loops.
/// Frames are only added to the tree. `NoMemory` is the only other answer.
pub fn expand<'t>(alloc: Global, tree: &mut InstanceTree<'t>) -> Result<Expansion, Stop>
    requires frames { Every (IsInstance tree.old.scopes) tree.old.instances }
    requires bound { Every (IsBoundByFrame tree.old.scopes) tree.old.instances }
    requires instances { HasInstances tree.old }
    ensures grows { Grows tree.old.scopes tree.new.scopes }
    ensures instances { tree.new.instances ≡ tree.old.instances }
    ensures exact { GivesExpansion result (tree_of tree.old) }
    ensures sound { IfOk result (λ made. made.past ≡ false → IsSoundExpansion made.parts) }
    ensures connects { IfOk result (λ made. IsSoundConnects made.parts.connects) }
{
    let made = expanded(alloc, &mut tree.scopes, tree.instances.as_slice())?;
    Ok(checked(made)?)
}

/// What is made, if its expressions are sound. They are wherever a model may be flat, but that is tested here and not proved; what fails
/// is answered as what has no room.
fn checked(made: Expansion) -> Result<Expansion, NoMemory>
    ensures same { IfOk result (λ e. e ≡ made) }
    ensures sound { IfOk result (λ e. e.past ≡ false → IsSoundConnects e.parts.connects → IsSoundExpansion e.parts) }
{
    if made.past || is_sound_expansion(&made.parts) {
        Ok(made)
    } else {
        Err(NoMemory)
    }
}

/// Where the name of the asked class stands.
fn place_of_root(instances: &[Instance]) -> Place
    ensures { (world : World) → result ≡ place_of_tree (record { classes = table_in world; instances = instances_in world instances.now }) }
{
    match instances {
        [] => Place { file: 0, byte: 0 },
        [root, ..] => root.place,
    }
}

/// The path of the asked class, with dots.
fn name_of_root<'t>(
    alloc: Global,
    s: &Scopes<'t>,
    instances: &[Instance<'t>],
) -> Result<Text, NoMemory>
    requires { Every (IsInstance s.now) instances.now }
    ensures { IfOk result (λ name. name ≡ name_of_tree (record { classes = table_in s.now; instances = instances_in s.now instances.now })) }
{
    match instances {
        [] => Text::from_str(alloc, ""),
        [root, ..] => class_text(alloc, s, s.class_of(root.frame)),
    }
}

fn push_flow(
    made: &mut List<(u32, Place)>,
    flow: bool,
    number: u32,
    place: Place,
) -> Result<(), NoMemory>
    ensures { OnOk result (made.new ≡ made.old ++ (if flow then (number, place) ∷ [] else [])) }
{
    if flow {
        made.push((number, place))
    } else {
        Ok(())
    }
}

/// Puts the variable with so many before it at the end, if it is the flow of a connector, with the place of its declaration.
fn put_flow<'i, 't>(
    _s: &Scopes<'t>,
    leaves: &Leaves<'i, 't>,
    k: usize,
    made: &mut List<(u32, Place)>,
) -> Result<(), NoMemory>
    requires { AreLeaves _s.now leaves.now }
    ensures { OnOk result (made.new ≡ made.old ++ flow_at (tree_in _s.now leaves.now) k) }
{
    if k >= 4294967294 {
        return Err(NoMemory);
    }
    let Some(variable) = leaves.variable(k) else {
        return Err(NoMemory);
    };
    let Some(flow) = leaves.flows.get(k) else {
        return Err(NoMemory);
    };
    push_flow(made, *flow, k as u32 + 1, variable.place)
}

/// The flow leaves of all connectors in their order, each with the place of its declaration.
fn all_flows<'i, 't>(
    alloc: Global,
    s: &Scopes<'t>,
    leaves: &Leaves<'i, 't>,
) -> Result<List<(u32, Place)>, NoMemory>
    requires { AreLeaves s.now leaves.now }
    ensures { IfOk result (λ flows. flows ≡ flows_of_tree (tree_in s.now leaves.now)) }
{
    let mut made = List::new(alloc);
    for k in 0..leaves.places.len() {
        put_flow(s, leaves, k, &mut made)?;
    }
    Ok(made)
}

/// Whether there are more unknowns, equations or nodes than a flat model may have.
fn is_over(unknowns: u64, equations: u64, nodes: u64) -> bool
    ensures { result ≡ are_over unknowns equations nodes }
{
    unknowns > MOST_UNKNOWNS || equations > MOST_EQUATIONS || is_past(nodes)
}

/// Whether that is so of the variables and the sections.
fn has_too_many(declared: &Declared, parts: &Parts) -> bool
    ensures { (all : Seq DeclaredOne) (of : Seq PartsOf) (e : ExpandedAt) → AreDeclared declared.now all → AreParts parts.now of → IsExpandedWith e all of → result ≡ is_past_expansion e }
{
    let nodes = declared
        .nodes
        .saturating_add(declared.made.nodes)
        .saturating_add(parts.initial.nodes)
        .saturating_add(parts.usual.nodes);
    let equations = declared.made.count.saturating_add(parts.usual.count);
    is_over(declared.unknowns, equations, nodes)
}

/// The parts together.
fn put_together(
    name: Text,
    place: Place,
    declared: Declared,
    parts: Parts,
    flows: List<(u32, Place)>,
) -> Result<Expansion, NoMemory>
    ensures { IfOk result (λ made. (all : Seq DeclaredOne) (of : Seq PartsOf) (e : ExpandedAt) → AreDeclared declared all → AreParts parts of → IsExpandedWith e all of → e.name ≡ name → e.place ≡ place → e.connects.flows ≡ flows → IsExpansion made e) }
{
    let past = has_too_many(&declared, &parts);
    let Declared {
        vars,
        nodes: _,
        unknowns: _,
        made,
    } = declared;
    let Parts { initial, usual } = parts;
    let Made {
        count: _,
        nodes: _,
        equations,
        asserts: _,
        connects: _,
    } = made;
    let Made {
        count: _,
        nodes: _,
        equations: first,
        asserts: first_asserts,
        connects: _,
    } = initial;
    let Made {
        count: _,
        nodes: _,
        equations: more,
        asserts,
        connects: list,
    } = usual;
    let mut all = equations;
    all.append(more)?;
    Ok(Expansion {
        parts: Expanded {
            name,
            place,
            vars,
            first,
            first_asserts,
            equations: all,
            asserts,
            connects: Connects { list, flows },
        },
        past,
    })
}

/// What is held at first, with the tables of the instances.
fn first_desk<'i, 't>(
    alloc: Global,
    s: &Scopes<'t>,
    instances: &'i [Instance<'t>],
) -> Result<Desk<'i, 't>, NoMemory>
    requires exist { Every (IsInstance s.now) instances.now }
    requires bound { Every (IsBoundByFrame s.now) instances.now }
    requires tree { IsTreeOf (table_in s.now) (instances_in s.now instances.now) }
    ensures desk { IfOk result (IsDesk s.now) }
    ensures instances { IfOk result (λ desk. desk.leaves.instances.now ≡ instances.now) }
    ensures turns { IfOk result (λ desk. desk.turns ≡ 0) }
{
    let leaves = leaves_of(alloc, s, instances)?;
    let asked = place_of_root(instances);
    let reader = Reader::new(alloc);
    let constants = List::new(alloc);
    Ok(Desk {
        reader,
        constants,
        binding: None,
        read: None,
        shared: Vec::new(alloc),
        leaves,
        asked,
        turns: 0,
    })
}

/// What comes of the sections of all instances.
fn all_parts<'i, 't>(
    alloc: Global,
    s: &mut Scopes<'t>,
    desk: &mut Desk<'i, 't>,
) -> Result<Parts, Stop>
    requires { IsDesk s.old desk.old }
    ensures goes { Goes s.old s.new desk.old desk.new }
    ensures exact { GivesParts result desk.new (parts_of_tree (tree_in s.old desk.old.leaves) desk.old.turns) }
{
    let instances = desk.leaves.instances;
    let frames = frames_of_all(alloc, s, instances)?;
    all_sections(alloc, s, desk, frames.as_slice())
}

/// The variables and what comes of the sections, with the name of the class and the flows.
fn completed<'i, 't>(
    alloc: Global,
    s: &Scopes<'t>,
    desk: &Desk<'i, 't>,
    declared: Declared,
    parts: Parts,
) -> Result<Expansion, NoMemory>
    requires { IsDesk s.now desk.now }
    ensures { IfOk result (λ made. (all : Seq DeclaredOne) (of : Seq PartsOf) → AreDeclared declared all → AreParts parts of → IsExpansion made (expanded_from (tree_in s.now desk.now.leaves) all of)) }
{
    let name = name_of_root(alloc, s, desk.leaves.instances);
    let flows = all_flows(alloc, s, &desk.leaves);
    let (name, flows) = both(name, flows)?;
    put_together(name, desk.asked, declared, parts, flows)
}

/// The whole of what declarations gave and what comes of the sections.
fn with_parts<'i, 't>(
    alloc: Global,
    s: &Scopes<'t>,
    desk: &Desk<'i, 't>,
    declared: Declared,
    parts: Result<Parts, Stop>,
) -> Result<Expansion, Stop>
    requires { IsDesk s.now desk.now }
    ensures { (all : Seq DeclaredOne) → all_of_tree (tree_in s.now desk.now.leaves) ≡ Ok all → AreDeclared declared all → GivesParts parts desk.now (parts_of_tree (tree_in s.now desk.now.leaves) 0) → GivesExpansion result (tree_in s.now desk.now.leaves) }
{
    match parts {
        Ok(parts) => or_stop(completed(alloc, s, desk, declared, parts)),
        Err(stop) => Err(stop),
    }
}

/// What the instances of a desk give from which no turn was taken yet.
fn expanded_at<'i, 't>(
    alloc: Global,
    s: &mut Scopes<'t>,
    desk: &mut Desk<'i, 't>,
) -> Result<Expansion, Stop>
    requires desk { IsDesk s.old desk.old }
    requires turns { desk.old.turns ≡ 0 }
    ensures grows { Grows s.old s.new }
    ensures exact { GivesExpansion result (tree_in s.old desk.old.leaves) }
{
    let declared = all_declared(alloc, s, desk)?;
    let parts = all_parts(alloc, s, desk);
    with_parts(alloc, s, desk, declared, parts)
}

/// What instances give.
fn expanded<'t>(
    alloc: Global,
    s: &mut Scopes<'t>,
    instances: &[Instance<'t>],
) -> Result<Expansion, Stop>
    requires frames { Every (IsInstance s.old) instances.now }
    requires bound { Every (IsBoundByFrame s.old) instances.now }
    requires instances { IsTreeOf (table_in s.old) (instances_in s.old instances.now) }
    ensures grows { Grows s.old s.new }
    ensures exact { GivesExpansion result (record { classes = table_in s.old; instances = instances_in s.old instances.now }) }
{
    let mut desk = first_desk(alloc, s, instances)?;
    expanded_at(alloc, s, &mut desk)
}
