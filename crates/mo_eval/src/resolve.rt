//! An expression resolved in a scope: each name is replaced by virtual variables, each subscript, range and size by its numbers.
ghost use Rattle.std.specs.Prelude.{map, Bool, Ok, List as Seq};
ghost use Rattle.mo_flat.specs.declared.array.ArrayExpr.{ArrayExpr, roll-ArrayExpr};
ghost use Rattle.mo_flat.specs.declared.array.ArrayNode.{ArrayNode};
ghost use Rattle.mo_flat.specs.declared.array.ArrayNode.TheVariants.{Decimal, Str, Not, All, Any, Array, Relation, Product};
ghost use Rattle.mo_scope.specs.Worlds.{World, Grows, IsFrame, table_in};
ghost use Rattle.mo_syntax.specs.Outcome.{Outcome, and_then};
ghost use Rattle.mo_typing.specs.Outcome.{Gives};
ghost use Rattle.mo_eval.specs.Keeping.{IsKept};
ghost use Rattle.mo_eval.specs.declared.virtuals.Virtual.{Virtual as VirtualAt};
ghost use Rattle.mo_eval.specs.Virtuals.{Virtual as VirtualSeen, make_each};
ghost use Rattle.mo_values.specs.Made.{Choice, chosen, power_of, sum_of};
ghost use Rattle.mo_eval.specs.Resolving.{make_part, make_parts};
ghost use Rattle.mo_eval.specs.Seen.{AreThere, virtuals_at};
ghost use Rattle.mo_eval.specs.steps.Sites.{scope_of, ask_of, part_in, IsMade};
ghost use Rattle.mo_eval.specs.steps.Parts.{made_below, made_two, as_term, as_factor, made_term, made_factor};

use crate::calls::call;
use crate::choice::{choice, range};
use crate::reader::Reader;
use crate::references::name;
use crate::virtuals::Virtual;
use mo_flat::{ArrayExpr, ArrayNode};
use mo_scope::{ScopeAt, Scopes};
use mo_syntax::{Expr, Factor, List, Node, Place, RelOp, Stop, Term, Text, broken, rules};
use mo_typing::shapes::Signed;
use mo_values::Context;
use mo_values::layers::answer;
use mo_values::making::{chosen, made_end, placed, power_of, sum_of};
use std::alloc::Global;

/// Where an expression is resolved.
#[derive(Drop)]
pub struct Site<'a> {
    pub at: &'a ScopeAt,
    /// How many references may still be read.
    pub left: u64,
    /// How many expressions may still stand one within the other: more than memory holds.
    pub room: u64,
    pub context: Context,
}

/// How much of the stack an expression takes with what is read of its references, in units of a class whose bases are being found.
const DEPTH: u32 = 3;

/// A node at its place.
fn at_place(alloc: Global, place: Place, node: Result<ArrayNode, Stop>) -> Result<ArrayExpr, Stop>
    ensures { (world : World) (virtuals : Seq VirtualAt) (told : Outcome (ArrayNode × Seq VirtualSeen)) → IsMade world node virtuals told → IsMade world result virtuals (and_then told (λ made. Ok (roll-ArrayExpr (record { place = place; node = made.0 }), made.1))) }
{
    let node = node?;
    Ok(placed(alloc, place, node)?)
}

fn decimal(alloc: Global, text: &Text) -> Result<ArrayNode, Stop>
    ensures { Gives result (Ok (Decimal text.now)) }
{
    Ok(ArrayNode::Decimal(text.copy(alloc)?))
}

fn string(alloc: Global, text: &Text) -> Result<ArrayNode, Stop>
    ensures { Gives result (Ok (Str text.now)) }
{
    Ok(ArrayNode::Str(text.copy(alloc)?))
}

fn negation(inner: Result<ArrayExpr, Stop>) -> Result<ArrayNode, Stop>
    ensures { (world : World) (virtuals : Seq VirtualAt) (told : Outcome (ArrayExpr × Seq VirtualSeen)) → IsMade world inner virtuals told → IsMade world result virtuals (and_then told (λ made. Ok (Not made.0, made.1))) }
{
    let inner = inner?;
    Ok(ArrayNode::Not(inner))
}

fn all_of(parts: Result<List<ArrayExpr>, Stop>) -> Result<ArrayNode, Stop>
    ensures { (world : World) (virtuals : Seq VirtualAt) (told : Outcome (Seq ArrayExpr × Seq VirtualSeen)) → IsMade world parts virtuals told → IsMade world result virtuals (and_then told (λ made. Ok (All made.0, made.1))) }
{
    let parts = parts?;
    Ok(ArrayNode::All(parts))
}

fn any_of(parts: Result<List<ArrayExpr>, Stop>) -> Result<ArrayNode, Stop>
    ensures { (world : World) (virtuals : Seq VirtualAt) (told : Outcome (Seq ArrayExpr × Seq VirtualSeen)) → IsMade world parts virtuals told → IsMade world result virtuals (and_then told (λ made. Ok (Any made.0, made.1))) }
{
    let parts = parts?;
    Ok(ArrayNode::Any(parts))
}

fn array_of(parts: Result<List<ArrayExpr>, Stop>) -> Result<ArrayNode, Stop>
    ensures { (world : World) (virtuals : Seq VirtualAt) (told : Outcome (Seq ArrayExpr × Seq VirtualSeen)) → IsMade world parts virtuals told → IsMade world result virtuals (and_then told (λ made. Ok (Array made.0, made.1))) }
{
    let parts = parts?;
    Ok(ArrayNode::Array(parts))
}

fn relation(op: RelOp, operands: Result<(ArrayExpr, ArrayExpr), Stop>) -> Result<ArrayNode, Stop>
    ensures { (world : World) (virtuals : Seq VirtualAt) (told : Outcome ((ArrayExpr × ArrayExpr) × Seq VirtualSeen)) → IsMade world operands virtuals told → IsMade world result virtuals (and_then told (λ made. Ok (Relation op made.0.0 made.0.1, made.1))) }
{
    let (left, right) = operands?;
    Ok(ArrayNode::Relation(op, left, right))
}

fn power(
    alloc: Global,
    place: Place,
    dotted: bool,
    operands: Result<(ArrayExpr, ArrayExpr), Stop>,
) -> Result<ArrayNode, Stop>
    ensures { (world : World) (virtuals : Seq VirtualAt) (told : Outcome ((ArrayExpr × ArrayExpr) × Seq VirtualSeen)) → IsMade world operands virtuals told → IsMade world result virtuals (and_then told (λ made. and_then (power_of place made.0.0 dotted made.0.1) (λ node. Ok (node, made.1)))) }
{
    let (base, exponent) = operands?;
    power_of(alloc, place, base, dotted, exponent)
}

fn sum(place: Place, terms: Result<List<Signed>, Stop>) -> Result<ArrayNode, Stop>
    ensures { (world : World) (virtuals : Seq VirtualAt) (told : Outcome (Seq (Bool × Bool × ArrayExpr) × Seq VirtualSeen)) → IsMade world terms virtuals told → IsMade world result virtuals (and_then told (λ made. and_then (sum_of place made.0) (λ node. Ok (node, made.1)))) }
{
    let terms = terms?;
    answer(sum_of(place, terms))
}

fn product(factors: Result<List<Signed>, Stop>) -> Result<ArrayNode, Stop>
    ensures { (world : World) (virtuals : Seq VirtualAt) (told : Outcome (Seq (Bool × Bool × ArrayExpr) × Seq VirtualSeen)) → IsMade world factors virtuals told → IsMade world result virtuals (and_then told (λ made. Ok (Product made.0, made.1))) }
{
    let factors = factors?;
    Ok(ArrayNode::Product(factors))
}

/// An if-expression by the branches that are left.
fn choose(
    alloc: Global,
    place: Place,
    made: Result<(List<(ArrayExpr, ArrayExpr)>, ArrayExpr), Stop>,
) -> Result<ArrayExpr, Stop>
    ensures { (world : World) (virtuals : Seq VirtualAt) (told : Outcome (Choice × Seq VirtualSeen)) → IsMade world made virtuals told → IsMade world result virtuals (and_then told (λ made. Ok (chosen place made.0, made.1))) }
{
    let (branches, other) = made?;
    Ok(chosen(alloc, place, branches, other)?)
}

/// An expression, with its virtual variables behind those before.
#[cycle(resolving)]
pub(crate) fn resolve<'t>(
    reader: &mut Reader<'t>,
    s: &mut Scopes<'t>,
    site: &Site,
    e: &Expr,
    virtuals: &mut List<Virtual<'t>>,
) -> Result<ArrayExpr, Stop>
    requires frame { IsFrame s.old site.now.at.now.frame.0 }
    requires there { AreThere s.old virtuals.old }
    requires kept { IsKept s.old reader.old }
    ensures grows { Grows s.old s.new }
    ensures kept { IsKept s.new reader.new }
    ensures there { AreThere s.new virtuals.new }
    ensures exact { IsMade s.new result virtuals.new ((part_in s.old site.now e.now).1 site.now.context (virtuals_at s.old virtuals.old)) }
{
    if site.room == 0 {
        return Err(Stop::NoMemory);
    }
    let inner = Site {
        at: site.at,
        left: site.left,
        room: site.room - 1,
        context: site.context,
    };
    s.descend(DEPTH)?;
    let made = resolve_node(reader, s, &inner, e.place, e.node.get(), virtuals);
    s.ascend(DEPTH);
    made
}

/// An operand.
#[cycle(resolving)]
pub(crate) fn operand<'t>(
    reader: &mut Reader<'t>,
    s: &mut Scopes<'t>,
    site: &Site,
    e: &Expr,
    virtuals: &mut List<Virtual<'t>>,
) -> Result<ArrayExpr, Stop>
    requires frame { IsFrame s.old site.now.at.now.frame.0 }
    requires there { AreThere s.old virtuals.old }
    requires kept { IsKept s.old reader.old }
    ensures grows { Grows s.old s.new }
    ensures kept { IsKept s.new reader.new }
    ensures there { AreThere s.new virtuals.new }
    ensures exact { IsMade s.new result virtuals.new (make_part site.now.context (part_in s.old site.now e.now) (virtuals_at s.old virtuals.old)) }
{
    let inner = Site {
        at: site.at,
        left: site.left,
        room: site.room,
        context: site.context.operand(),
    };
    resolve(reader, s, &inner, e, virtuals)
}

/// Two operands.
#[cycle(resolving)]
pub(crate) fn two<'t>(
    reader: &mut Reader<'t>,
    s: &mut Scopes<'t>,
    site: &Site,
    a: &Expr,
    b: &Expr,
    virtuals: &mut List<Virtual<'t>>,
) -> Result<(ArrayExpr, ArrayExpr), Stop>
    requires frame { IsFrame s.old site.now.at.now.frame.0 }
    requires there { AreThere s.old virtuals.old }
    requires kept { IsKept s.old reader.old }
    ensures grows { Grows s.old s.new }
    ensures kept { IsKept s.new reader.new }
    ensures there { AreThere s.new virtuals.new }
    ensures exact { IsMade s.new result virtuals.new (made_two site.now.context (part_in s.old site.now a.now) (part_in s.old site.now b.now) (virtuals_at s.old virtuals.old)) }
{
    let first = operand(reader, s, site, a, virtuals)?;
    let second = operand(reader, s, site, b, virtuals)?;
    Ok((first, second))
}

/// All operands.
#[cycle(resolving)]
fn operands<'t>(
    reader: &mut Reader<'t>,
    s: &mut Scopes<'t>,
    site: &Site,
    parts: &[Expr],
    virtuals: &mut List<Virtual<'t>>,
) -> Result<List<ArrayExpr>, Stop>
    requires frame { IsFrame s.old site.now.at.now.frame.0 }
    requires there { AreThere s.old virtuals.old }
    requires kept { IsKept s.old reader.old }
    ensures grows { Grows s.old s.new }
    ensures kept { IsKept s.new reader.new }
    ensures there { AreThere s.new virtuals.new }
    ensures exact { IsMade s.new result virtuals.new (make_parts site.now.context (map (part_in s.old site.now) parts.now) (virtuals_at s.old virtuals.old)) }
{
    let mut made = List::new(reader.alloc);
    for part in parts {
        let one = operand(reader, s, site, part, virtuals)?;
        made.push(one)?;
    }
    Ok(made)
}

/// The terms of a sum.
#[cycle(resolving)]
fn terms<'t>(
    reader: &mut Reader<'t>,
    s: &mut Scopes<'t>,
    site: &Site,
    terms: &[Term],
    virtuals: &mut List<Virtual<'t>>,
) -> Result<List<Signed>, Stop>
    requires frame { IsFrame s.old site.now.at.now.frame.0 }
    requires there { AreThere s.old virtuals.old }
    requires kept { IsKept s.old reader.old }
    ensures grows { Grows s.old s.new }
    ensures kept { IsKept s.new reader.new }
    ensures there { AreThere s.new virtuals.new }
    ensures exact { IsMade s.new result virtuals.new (make_each (made_term site.now.context) (map (as_term (part_in s.old site.now)) terms.now) (virtuals_at s.old virtuals.old)) }
{
    let mut made = List::new(reader.alloc);
    for term in terms {
        let one = operand(reader, s, site, &term.value, virtuals)?;
        made.push((term.minus, term.dotted, one))?;
    }
    Ok(made)
}

/// The factors of a product.
#[cycle(resolving)]
fn factors<'t>(
    reader: &mut Reader<'t>,
    s: &mut Scopes<'t>,
    site: &Site,
    factors: &[Factor],
    virtuals: &mut List<Virtual<'t>>,
) -> Result<List<Signed>, Stop>
    requires frame { IsFrame s.old site.now.at.now.frame.0 }
    requires there { AreThere s.old virtuals.old }
    requires kept { IsKept s.old reader.old }
    ensures grows { Grows s.old s.new }
    ensures kept { IsKept s.new reader.new }
    ensures there { AreThere s.new virtuals.new }
    ensures exact { IsMade s.new result virtuals.new (make_each (made_factor site.now.context) (map (as_factor (part_in s.old site.now)) factors.now) (virtuals_at s.old virtuals.old)) }
{
    let mut made = List::new(reader.alloc);
    for factor in factors {
        let one = operand(reader, s, site, &factor.value, virtuals)?;
        made.push((factor.divide, factor.dotted, one))?;
    }
    Ok(made)
}

/// A node at its place.
#[cycle(resolving)]
fn resolve_node<'t>(
    reader: &mut Reader<'t>,
    s: &mut Scopes<'t>,
    site: &Site,
    place: Place,
    node: &Node,
    virtuals: &mut List<Virtual<'t>>,
) -> Result<ArrayExpr, Stop>
    requires frame { IsFrame s.old site.now.at.now.frame.0 }
    requires there { AreThere s.old virtuals.old }
    requires kept { IsKept s.old reader.old }
    ensures grows { Grows s.old s.new }
    ensures kept { IsKept s.new reader.new }
    ensures there { AreThere s.new virtuals.new }
    ensures exact { IsMade s.new result virtuals.new (made_below (table_in s.old) (ask_of s.old site.now) (scope_of s.old site.now) node.now place site.now.context (virtuals_at s.old virtuals.old)) }
{
    match node {
        Node::Whole(n) => at_place(reader.alloc, place, Ok(ArrayNode::Whole(*n))),
        Node::Decimal(text) => at_place(reader.alloc, place, decimal(reader.alloc, text)),
        Node::Str(text) => at_place(reader.alloc, place, string(reader.alloc, text)),
        Node::Truth(b) => at_place(reader.alloc, place, Ok(ArrayNode::Truth(*b))),
        Node::Sum(parts) => {
            let parts = terms(reader, s, site, parts.as_slice(), virtuals);
            at_place(reader.alloc, place, sum(place, parts))
        }
        Node::Product(parts) => {
            let parts = factors(reader, s, site, parts.as_slice(), virtuals);
            at_place(reader.alloc, place, product(parts))
        }
        Node::Power(base, dotted, exponent) => {
            let operands = two(reader, s, site, base, exponent, virtuals);
            at_place(
                reader.alloc,
                place,
                power(reader.alloc, place, *dotted, operands),
            )
        }
        Node::Relation(op, left, right) => {
            let operands = two(reader, s, site, left, right, virtuals);
            at_place(reader.alloc, place, relation(*op, operands))
        }
        Node::Not(inner) => {
            let inner = operand(reader, s, site, inner, virtuals);
            at_place(reader.alloc, place, negation(inner))
        }
        Node::All(parts) => {
            let parts = operands(reader, s, site, parts.as_slice(), virtuals);
            at_place(reader.alloc, place, all_of(parts))
        }
        Node::Any(parts) => {
            let parts = operands(reader, s, site, parts.as_slice(), virtuals);
            at_place(reader.alloc, place, any_of(parts))
        }
        Node::Array(parts) => {
            let parts = operands(reader, s, site, parts.as_slice(), virtuals);
            at_place(reader.alloc, place, array_of(parts))
        }
        Node::EndMark => at_place(reader.alloc, place, answer(made_end(site.context, place))),
        Node::Tuple(_) => Err(Stop::Broken(broken(rules::OUTSIDE_PROFILE, place))),
        Node::ArrayFor(_, _) => Err(Stop::Broken(broken(rules::OUTSIDE_PROFILE, place))),
        Node::Matrix(_) => Err(Stop::Broken(broken(rules::OUTSIDE_PROFILE, place))),
        Node::Ref(reference) => {
            let made = name(reader, s, site, place, reference, virtuals);
            at_place(reader.alloc, place, made)
        }
        Node::Range(first, step, last) => {
            let made = range(reader, s, site, place, first, step, last);
            at_place(reader.alloc, place, made)
        }
        Node::If(branches, other) => {
            let made = choice(reader, s, site, branches.as_slice(), other, virtuals);
            choose(reader.alloc, place, made)
        }
        Node::Call(callee, args) => {
            let made = call(reader, s, site, place, callee, args, virtuals);
            at_place(reader.alloc, place, made)
        }
    }
}
