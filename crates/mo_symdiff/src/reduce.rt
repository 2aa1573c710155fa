//! The reduced model.
ghost use Rattle.std.specs.Prelude.{◌≡◌, ◌+◌, ◌-◌, ◌++◌, ◌^◌, ◌<◌, ◌≤◌, [], ◌∷◌, Some, None, length, min, sum_by, true, IfOk, MatchOption};
ghost use Rattle.mo_symdiff.specs.Carried.{carried};
ghost use Rattle.mo_symdiff.specs.Derivative.{derived};
ghost use Rattle.mo_symdiff.specs.Weights.{weigh};
ghost use Rattle.mo_symdiff.specs.Reduced.{IsRefusal, IsWithin, bytes_at, bytes_of, carried_equation, derivatives, derived_equation, differentiates_given, first_given, nodes_at, nodes_of, reduced_lines, reduced_text, too_large};
ghost use Rattle.mo_symdiff.specs.steps.Room.{IsPaid, IsShort};
ghost use Rattle.mo_syntax.specs.Outcome.{IfBroken};

use crate::carried_weight::carried_weight;
use crate::carries::carries;
use crate::carry::carried;
use crate::derive::derived;
use crate::differentiate::broken;
use crate::reduced_model::Reduced;
use crate::sizes::size_of;
use crate::still::holds_given;
use crate::weights::Measure;
use mo_flat::{FlatEquation, FlatModel, FlatVar, flat_nodes, write_equation_line};
use mo_syntax::{Broken, List, NoMemory, Place, Stop, both, rules};
use std::alloc::Global;

/// How many nodes and bytes of lines a reduced model may still get.
#[derive(Clone, Copy)]
struct Room {
    nodes: u64,
    bytes: u64,
}

#[tactic(auto, unfolding(crate::specs::Reduced::differentiates_given))]
fn differentiates_given(vars: &[FlatVar], q: &FlatEquation, count: u32) -> bool
    ensures { result ≡ differentiates_given vars.now q.now count }
{
    if !(carries(vars, &q.left) && carries(vars, &q.right)) {
        return true;
    }
    count > 0 && (holds_given(vars, &q.left) || holds_given(vars, &q.right))
}

/// The place of the first equation that differentiates a given variable.
fn first_given(vars: &[FlatVar], equations: &[FlatEquation], counts: &[u32]) -> Option<Place>
    requires { length counts.now ≡ length equations.now }
    ensures { result ≡ first_given vars.now equations.now counts.now }
{
    for i in 0..equations.len() {
        let q = &equations[i];
        if differentiates_given(vars, q, counts[i]) {
            return Some(q.place);
        }
    }
    None
}

#[tactic(auto, unfolding(crate::specs::Reduced::carried_equation))]
fn carried_equation(
    alloc: Global,
    vars: &[FlatVar],
    q: &FlatEquation,
) -> Result<FlatEquation, NoMemory>
    ensures { IfOk result (λ made. made ≡ carried_equation vars.now q.now) }
{
    let (left, right) = both(
        carried(alloc, vars, &q.left),
        carried(alloc, vars, &q.right),
    )?;
    Ok(FlatEquation {
        left,
        right,
        place: q.place,
    })
}

#[tactic(auto, unfolding(crate::specs::Reduced::derived_equation))]
fn derived_equation(
    alloc: Global,
    vars: &[FlatVar],
    q: &FlatEquation,
) -> Result<FlatEquation, NoMemory>
    ensures { IfOk result (λ made. made ≡ derived_equation vars.now q.now) }
{
    let (left, right) = both(
        derived(alloc, vars, &q.left),
        derived(alloc, vars, &q.right),
    )?;
    Ok(FlatEquation {
        left,
        right,
        place: q.place,
    })
}

/// The number of bytes of an equation's line.
#[tactic(auto, unfolding(crate::specs::Reduced::bytes_at))]
fn line_bytes(alloc: Global, vars: &[FlatVar], q: &FlatEquation) -> Result<u64, NoMemory>
    ensures { IfOk result (λ bytes. bytes ≡ bytes_at vars.now q.now) }
{
    let mut line = String::new(alloc);
    write_equation_line(&mut line, vars, q)?;
    Ok(line.len() as u64)
}

/// What an equation weighs at least.
fn line_weight(vars: &[FlatVar], measure: Measure, q: &FlatEquation) -> u64
    ensures { result ≤ weigh vars.now measure q.now.left + weigh vars.now measure q.now.right }
{
    let left = size_of(vars, measure, &q.left);
    let right = size_of(vars, measure, &q.right);
    left.whole.saturating_add(right.whole)
}

/// What the derivative of an equation weighs at least.
fn derived_weight(vars: &[FlatVar], measure: Measure, q: &FlatEquation) -> u64
    ensures { result ≤ weigh vars.now measure (derived vars.now q.now.left) + weigh vars.now measure (derived vars.now q.now.right) }
{
    let left = size_of(vars, measure, &q.left);
    let right = size_of(vars, measure, &q.right);
    left.slope.saturating_add(right.slope)
}

/// What an equation weighs at least once its derivatives are carried out.
fn carried_line_weight(
    alloc: Global,
    vars: &[FlatVar],
    measure: Measure,
    q: &FlatEquation,
) -> Result<u64, NoMemory>
    ensures { IfOk result (λ weight. weight ≤ weigh vars.now measure (carried vars.now q.now.left) + weigh vars.now measure (carried vars.now q.now.right)) }
{
    let left = carried_weight(alloc, vars, measure, &q.left)?;
    let right = carried_weight(alloc, vars, measure, &q.right)?;
    Ok(left.saturating_add(right))
}

/// How many bytes an equation's line has at least: those of its literals and names.
fn least_bytes(vars: &[FlatVar], q: &FlatEquation) -> u64
    ensures { result ≤ bytes_at vars.now q.now }
{
    line_weight(vars, Measure::Names, q)
}

/// The nodes that the derivative of an equation has, and the bytes that its line has at least.
fn least_of_derived(vars: &[FlatVar], q: &FlatEquation) -> Room
    ensures nodes { result.nodes ≤ nodes_at (derived_equation vars.now q.now) }
    ensures bytes { result.bytes ≤ bytes_at vars.now (derived_equation vars.now q.now) }
{
    Room {
        nodes: derived_weight(vars, Measure::Nodes, q),
        bytes: derived_weight(vars, Measure::Names, q),
    }
}

/// The nodes that an equation has once its derivatives are carried out, and the bytes that its line has at least.
fn least_of_carried(alloc: Global, vars: &[FlatVar], q: &FlatEquation) -> Result<Room, NoMemory>
    ensures { IfOk result (λ least. (least.nodes ≤ nodes_at (carried_equation vars.now q.now)) × (least.bytes ≤ bytes_at vars.now (carried_equation vars.now q.now))) }
{
    let nodes = carried_line_weight(alloc, vars, Measure::Nodes, q)?;
    let bytes = carried_line_weight(alloc, vars, Measure::Names, q)?;
    Ok(Room { nodes, bytes })
}

/// Whether less is left than what is wanted at least.
fn is_short(room: Room, least: Room) -> bool
    ensures { result ≡ true → IsShort room.nodes room.bytes least.nodes least.bytes }
{
    if room.nodes < least.nodes {
        return true;
    }
    room.bytes < least.bytes
}

/// What is left, where there is as much.
fn spend(left: u64, cost: u64) -> Option<u64>
    ensures { MatchOption result (left < cost) (λ rest. rest + cost ≡ left) }
{
    if cost <= left {
        Some(left - cost)
    } else {
        None
    }
}

#[tactic(auto, unfolding(crate::specs::Reduced::nodes_at))]
fn node_cost(q: &FlatEquation) -> u64
    ensures { result ≡ min (nodes_at q.now) (2 ^ 64 - 1) }
{
    flat_nodes(&q.left).saturating_add(flat_nodes(&q.right))
}

/// The bytes that are left behind an equation's line, none where there are not as many.
fn pay_bytes(
    alloc: Global,
    vars: &[FlatVar],
    q: &FlatEquation,
    bytes: u64,
) -> Result<Option<u64>, NoMemory>
    ensures { IfOk result (λ found. MatchOption found (bytes < bytes_at vars.now q.now) (λ rest. rest + bytes_at vars.now q.now ≡ bytes)) }
{
    let least = least_bytes(vars, q);
    if bytes < least {
        return Ok(None);
    }
    let cost = line_bytes(alloc, vars, q)?;
    Ok(spend(bytes, cost))
}

/// The room that is left behind an equation's line, none where it does not fit.
fn pay(
    alloc: Global,
    vars: &[FlatVar],
    q: &FlatEquation,
    room: Room,
) -> Result<Option<Room>, NoMemory>
    requires { room.nodes ≤ 4000000 }
    ensures { IfOk result (λ found. MatchOption found (IsShort room.nodes room.bytes (nodes_at q.now) (bytes_at vars.now q.now)) (λ rest. IsPaid room.nodes room.bytes (nodes_at q.now) (bytes_at vars.now q.now) rest.nodes rest.bytes)) }
{
    match spend(room.nodes, node_cost(q)) {
        None => Ok(None),
        Some(nodes) => match pay_bytes(alloc, vars, q, room.bytes)? {
            None => Ok(None),
            Some(bytes) => Ok(Some(Room { nodes, bytes })),
        },
    }
}

/// The derivative of a line, none where it does not fit into the room.
fn next_line(
    alloc: Global,
    vars: &[FlatVar],
    line: &FlatEquation,
    room: Room,
) -> Result<Option<FlatEquation>, NoMemory>
    ensures { IfOk result (λ found. MatchOption found (IsShort room.nodes room.bytes (nodes_at (derived_equation vars.now line.now)) (bytes_at vars.now (derived_equation vars.now line.now))) (λ next. next ≡ derived_equation vars.now line.now)) }
{
    let short = is_short(room, least_of_derived(vars, line));
    if short {
        return Ok(None);
    }
    Ok(Some(derived_equation(alloc, vars, line)?))
}

/// Puts a line at the end, and gives its derivative, none where it does not fit into the room.
fn advance(
    alloc: Global,
    vars: &[FlatVar],
    made: &mut List<FlatEquation>,
    line: FlatEquation,
    room: Room,
) -> Result<Option<FlatEquation>, NoMemory>
    ensures { IfOk result (λ found. MatchOption found (IsShort room.nodes room.bytes (nodes_at (derived_equation vars.now line)) (bytes_at vars.now (derived_equation vars.now line))) (λ next. (next ≡ derived_equation vars.now line) × (made.new ≡ made.old ++ line ∷ []))) }
{
    let next = next_line(alloc, vars, &line, room);
    let (next, ()) = both(next, made.push(line))?;
    Ok(next)
}

/// Puts a line at the end, where it is paid for.
fn push_paid(
    made: &mut List<FlatEquation>,
    line: FlatEquation,
    paid: Option<Room>,
) -> Result<Option<Room>, NoMemory>
    ensures { IfOk result (λ found. MatchOption found (paid ≡ None) (λ rest. (paid ≡ Some rest) × (made.new ≡ made.old ++ line ∷ []))) }
{
    match paid {
        None => Ok(None),
        Some(rest) => {
            made.push(line)?;
            Ok(Some(rest))
        }
    }
}

/// Puts the last line at the end. Gives the room that is left behind it, none where it does not fit.
fn finish(
    alloc: Global,
    vars: &[FlatVar],
    made: &mut List<FlatEquation>,
    last: FlatEquation,
    room: Room,
) -> Result<Option<Room>, NoMemory>
    requires { room.nodes ≤ 4000000 }
    ensures { IfOk result (λ found. MatchOption found (IsShort room.nodes room.bytes (nodes_at last) (bytes_at vars.now last)) (λ rest. (made.new ≡ made.old ++ last ∷ []) × IsPaid room.nodes room.bytes (nodes_at last) (bytes_at vars.now last) rest.nodes rest.bytes)) }
{
    let paid = pay(alloc, vars, &last, room);
    let (paid, last) = both(paid, Ok(last))?;
    push_paid(made, last, paid)
}

/// Puts a line at the end. Gives the room that is left behind it and its derivative, none where the two do not fit.
fn step(
    alloc: Global,
    vars: &[FlatVar],
    made: &mut List<FlatEquation>,
    line: FlatEquation,
    room: Room,
) -> Result<Option<(Room, FlatEquation)>, NoMemory>
    requires { room.nodes ≤ 4000000 }
    ensures { IfOk result (λ found. let next = derived_equation vars.now line in MatchOption found (IsShort room.nodes room.bytes (nodes_at line + nodes_at next) (bytes_at vars.now line + bytes_at vars.now next)) (λ both. (made.new ≡ made.old ++ line ∷ []) × (both.1 ≡ next) × IsPaid room.nodes room.bytes (nodes_at line) (bytes_at vars.now line) both.0.nodes both.0.bytes)) }
{
    let paid = pay(alloc, vars, &line, room);
    let (paid, line) = both(paid, Ok(line))?;
    let Some(rest) = paid else {
        return Ok(None);
    };
    match advance(alloc, vars, made, line, rest)? {
        None => Ok(None),
        Some(next) => Ok(Some((rest, next))),
    }
}

/// Puts an equation and its first `count` derivatives at the end. Gives the room that is left behind them, none where they do
/// not fit.
fn push_lines(
    alloc: Global,
    vars: &[FlatVar],
    made: &mut List<FlatEquation>,
    line: FlatEquation,
    count: u32,
    room: Room,
) -> Result<Option<Room>, NoMemory>
    requires { room.nodes ≤ 4000000 }
    ensures { IfOk result (λ found. let lines = derivatives vars.now count line in MatchOption found (IsShort room.nodes room.bytes (nodes_of lines) (bytes_of vars.now lines)) (λ rest. (made.new ≡ made.old ++ lines) × IsPaid room.nodes room.bytes (nodes_of lines) (bytes_of vars.now lines) rest.nodes rest.bytes)) }
{
    let mut line = line;
    let mut left = room;
    for _derivative in 0..count {
        let Some((rest, next)) = step(alloc, vars, made, line, left)? else {
            return Ok(None);
        };
        left = rest;
        line = next;
    }
    finish(alloc, vars, made, line, left)
}

/// An equation carried out with its first `count` derivatives and the room that is left behind them, none where they do not
/// fit.
fn equation_lines(
    alloc: Global,
    vars: &[FlatVar],
    q: &FlatEquation,
    count: u32,
    room: Room,
) -> Result<Option<(List<FlatEquation>, Room)>, NoMemory>
    requires { room.nodes ≤ 4000000 }
    ensures { IfOk result (λ found. let lines = derivatives vars.now count (carried_equation vars.now q.now) in MatchOption found (IsShort room.nodes room.bytes (nodes_of lines) (bytes_of vars.now lines)) (λ made. (made.0 ≡ lines) × IsPaid room.nodes room.bytes (nodes_of lines) (bytes_of vars.now lines) made.1.nodes made.1.bytes)) }
{
    let least = least_of_carried(alloc, vars, q)?;
    let short = is_short(room, least);
    if short {
        return Ok(None);
    }
    let line = carried_equation(alloc, vars, q)?;
    let mut made = List::new(alloc);
    let Some(rest) = push_lines(alloc, vars, &mut made, line, count, room)? else {
        return Ok(None);
    };
    Ok(Some((made, rest)))
}

/// The lines of all equations, none where they do not fit.
fn model_lines(
    alloc: Global,
    vars: &[FlatVar],
    equations: &[FlatEquation],
    counts: &[u32],
    room: Room,
) -> Result<Option<List<List<FlatEquation>>>, NoMemory>
    requires lengths { length counts.now ≡ length equations.now }
    requires nodes { room.nodes ≤ 4000000 }
    ensures { IfOk result (λ found. let lines = reduced_lines vars.now equations.now counts.now in MatchOption found (IsShort room.nodes room.bytes (sum_by nodes_of lines) (sum_by (bytes_of vars.now) lines)) (λ made. (made ≡ lines) × (sum_by nodes_of lines ≤ room.nodes) × (sum_by (bytes_of vars.now) lines ≤ room.bytes))) }
{
    let mut made = List::new(alloc);
    let mut left = room;
    for i in 0..equations.len() {
        let Some((lines, rest)) = equation_lines(alloc, vars, &equations[i], counts[i], left)?
        else {
            return Ok(None);
        };
        made.push(lines)?;
        left = rest;
    }
    Ok(Some(made))
}

/// The bytes of the first and the last line of the text.
#[tactic(auto, unfolding(crate::specs::Reduced::reduced_text))]
fn frame_bytes(m: &FlatModel) -> u64
    ensures { result ≡ min (length (reduced_text m.now [])) (2 ^ 64 - 1) }
{
    let name = m.name.as_str().len() as u64;
    name.saturating_add(name).saturating_add(15)
}

/// The lines of the reduced model, none where they pass its limits.
fn lines_within(
    alloc: Global,
    m: &FlatModel,
    c: &[u32],
) -> Result<Option<List<List<FlatEquation>>>, NoMemory>
    requires { length c.now ≡ length m.now.equations }
    ensures { IfOk result (λ found. let lines = reduced_lines m.now.vars m.now.equations c.now in MatchOption found (IsWithin m.now lines → ⊥) (λ made. (made ≡ lines) × IsWithin m.now lines)) }
{
    match spend(67_108_864, frame_bytes(m)) {
        None => Ok(None),
        Some(bytes) => {
            let nodes = 4_000_000;
            let (vars, equations) = (m.vars.as_slice(), m.equations.as_slice());
            model_lines(alloc, vars, equations, c, Room { nodes, bytes })
        }
    }
}

fn too_large(m: &FlatModel) -> Broken
    ensures { result ≡ too_large m.now }
{
    mo_syntax::broken(rules::RESULT_TOO_LARGE, m.place)
}

/// The reduced model: each equation with its derivatives carried out, followed by as many of its derivatives as `c` says, where
/// `c` has one number for each equation. Rule 43 at the first equation in which a given variable stands in what is
/// differentiated, conditions of if-expressions left aside; where there is none, rule 44 at the model's place exactly where
/// all lines have more than 4,000,000 nodes or the text has more than 67,108,864 bytes: a line is weighed before it is made, so
/// a large one costs no memory. `NoMemory` is the only other answer; it comes too where what stands under two derivatives has a
/// derivative of more than 14,000,000 nodes or of more than 896,000,000 bytes of literals.
pub fn reduced(alloc: Global, m: &FlatModel, c: &[u32]) -> Result<Reduced, Stop>
    requires { length c.now ≡ length m.now.equations }
    ensures lines { IfOk result (λ r. r.lines ≡ reduced_lines m.now.vars m.now.equations c.now) }
    ensures differentiates { IfOk result (λ _. first_given m.now.vars m.now.equations c.now ≡ None) }
    ensures within { IfOk result (λ r. IsWithin m.now r.lines) }
    ensures refused { IfBroken result (IsRefusal m.now c.now) }
{
    match first_given(m.vars.as_slice(), m.equations.as_slice(), c) {
        Some(place) => Err(Stop::Broken(broken(place))),
        None => match lines_within(alloc, m, c)? {
            None => Err(Stop::Broken(too_large(m))),
            Some(lines) => Ok(Reduced { lines }),
        },
    }
}
