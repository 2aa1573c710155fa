//! The kind of an array expression.
ghost use Rattle.std.specs.Prelude.{◌≡◌, map, fold};
ghost use Rattle.std.specs.List.{list_any};
ghost use Rattle.std.specs.Option.{option_map};
ghost use Rattle.mo_syntax.specs.Outcome.{and_then};
ghost use Rattle.mo_typing.specs.Kinds.{kind_of, kind_of_node, part_of, kinds_of, kinds_of_branches, condition, sum_of, product_of, raised, both, choice, filling, sized, logical, alike, joined, call, relation, truth, real_of, signed_parts, branch_parts};
ghost use Rattle.mo_syntax.specs.declared.meaning.Kind.TheVariants.{Whole};
ghost use Rattle.mo_typing.specs.declared.agree.Shared.TheVariants.{Unseen};

use crate::agree::{
    Shared, call_of_one, call_of_two, divided, joined, raised, real_of, relation, settled,
    takes_sizes, truth, with_number, with_truth,
};
use mo_flat::{ArrayExpr, ArrayNode};
use mo_syntax::{Broken, Kind, Place, broken, rules};

/// The kind of each element of an expression, or the first rule that its kinds break: 39 at arithmetic on an enumeration value
/// or at a relation of two different enumerations, 33 at every other disagreement and at a call with a wrong number of
/// arguments. Operands come before their operation, and left before right. An Integer is accepted where a Real is wanted.
/// Takes no memory.
#[cycle(kinds)]
pub fn kind_of(e: &ArrayExpr) -> Result<Kind, Broken>
    ensures { result ≡ kind_of e.now }
{
    kind_of_node(e.node.get(), e.place)
}

#[cycle(kinds)]
fn kind_of_node(node: &ArrayNode, place: Place) -> Result<Kind, Broken>
    ensures { result ≡ kind_of_node node.now place }
{
    match node {
        ArrayNode::Whole(_) => Ok(Kind::Whole),
        ArrayNode::Decimal(_) => Ok(Kind::Real),
        ArrayNode::Str(_) => Ok(Kind::Str),
        ArrayNode::Truth(_) => Ok(Kind::Truth),
        ArrayNode::Literal(class, _, _) => Ok(Kind::Enumeration(*class)),
        ArrayNode::Time => Ok(Kind::Real),
        ArrayNode::Vars {
            vars: _,
            kind,
            dims: _,
            subs: _,
        } => Ok(*kind),
        ArrayNode::Sum(terms) => of_terms(terms.as_slice(), place),
        ArrayNode::Product(factors) => of_product(factors.as_slice(), place),
        ArrayNode::Power(base, _, exponent) => of_power(base, exponent, place),
        ArrayNode::Relation(_, left, right) => of_relation(left, right, place),
        ArrayNode::Not(inner) => of_negation(inner, place),
        ArrayNode::All(parts) => of_logical(parts.as_slice(), place),
        ArrayNode::Any(parts) => of_logical(parts.as_slice(), place),
        ArrayNode::If(branches, other) => of_choice(branches.as_slice(), other, place),
        ArrayNode::Call(function, args) => of_call(*function, args.as_slice(), place),
        ArrayNode::Der(inner) => of_derivative(inner, place),
        ArrayNode::Array(parts) => of_array(parts.as_slice(), place),
        ArrayNode::Range(_, _, _) => Ok(Kind::Whole),
        ArrayNode::Size(inner, _) => of_size(inner),
        ArrayNode::Sized(function, part, sizes) => of_sized(*function, part, sizes.len(), place),
    }
}

#[cycle(kinds)]
fn of_terms(terms: &[(bool, bool, ArrayExpr)], place: Place) -> Result<Kind, Broken>
    ensures { result ≡ sum_of (signed_parts terms.now) place }
{
    let mut all = Ok(Kind::Whole);
    for term in terms {
        all = with_number(place, all, kind_of(&term.2)?);
    }
    all
}

fn divides(factors: &[(bool, bool, ArrayExpr)]) -> bool
    ensures { result ≡ list_any (λ factor. factor.0) factors.now }
{
    for factor in factors {
        if factor.0 {
            return true;
        }
    }
    false
}

#[cycle(kinds)]
fn of_product(factors: &[(bool, bool, ArrayExpr)], place: Place) -> Result<Kind, Broken>
    ensures { result ≡ product_of (list_any (λ factor. factor.0) factors.now) (signed_parts factors.now) place }
{
    let kind = of_terms(factors, place)?;
    Ok(divided(divides(factors), kind))
}

#[cycle(kinds)]
fn of_power(base: &ArrayExpr, exponent: &ArrayExpr, place: Place) -> Result<Kind, Broken>
    ensures { result ≡ both (part_of base.now) (part_of exponent.now) (raised place) }
{
    let a = kind_of(base)?;
    let b = kind_of(exponent)?;
    raised(place, a, b)
}

#[cycle(kinds)]
fn of_relation(left: &ArrayExpr, right: &ArrayExpr, place: Place) -> Result<Kind, Broken>
    ensures { result ≡ both (part_of left.now) (part_of right.now) (relation place) }
{
    let a = kind_of(left)?;
    let b = kind_of(right)?;
    relation(place, a, b)
}

#[cycle(kinds)]
fn of_negation(inner: &ArrayExpr, place: Place) -> Result<Kind, Broken>
    ensures { result ≡ and_then (part_of inner.now).kind (truth place) }
{
    truth(place, kind_of(inner)?)
}

#[cycle(kinds)]
fn of_logical(parts: &[ArrayExpr], place: Place) -> Result<Kind, Broken>
    ensures { result ≡ and_then (kinds_of (map part_of parts.now)) (logical place) }
{
    let mut all = Ok(Kind::Truth);
    for part in parts {
        all = with_truth(place, all, kind_of(part)?);
    }
    all
}

#[cycle(kinds)]
fn of_condition(e: &ArrayExpr) -> Result<Kind, Broken>
    ensures { result ≡ condition (part_of e.now) }
{
    let kind = kind_of(e)?;
    truth(e.place, kind)
}

#[cycle(kinds)]
fn of_branches(branches: &[(ArrayExpr, ArrayExpr)]) -> Result<Shared, Broken>
    ensures { result ≡ and_then (kinds_of_branches (branch_parts branches.now)) (λ kinds. Ok (fold joined Unseen kinds)) }
{
    let mut all = Shared::Unseen;
    for branch in branches {
        of_condition(&branch.0)?;
        all = joined(all, kind_of(&branch.1)?);
    }
    Ok(all)
}

#[cycle(kinds)]
fn of_choice(
    branches: &[(ArrayExpr, ArrayExpr)],
    other: &ArrayExpr,
    place: Place,
) -> Result<Kind, Broken>
    ensures { result ≡ choice (branch_parts branches.now) (part_of other.now) place }
{
    let all = of_branches(branches)?;
    let kind = kind_of(other)?;
    settled(place, joined(all, kind))
}

#[cycle(kinds)]
fn of_array(parts: &[ArrayExpr], place: Place) -> Result<Kind, Broken>
    ensures { result ≡ and_then (kinds_of (map part_of parts.now)) (alike place) }
{
    let mut all = Shared::Unseen;
    for part in parts {
        all = joined(all, kind_of(part)?);
    }
    settled(place, all)
}

#[cycle(kinds)]
fn have_kinds(parts: &[ArrayExpr]) -> Result<(), Broken>
    ensures { result ≡ and_then (kinds_of (map part_of parts.now)) (λ _. Ok tt) }
{
    for part in parts {
        kind_of(part)?;
    }
    Ok(())
}

#[cycle(kinds)]
fn of_call(function: u16, args: &[ArrayExpr], place: Place) -> Result<Kind, Broken>
    ensures { result ≡ and_then (kinds_of (map part_of args.now)) (call place function) }
{
    match args {
        [] => Err(broken(rules::WRONG_TYPE, place)),
        [only] => call_of_one(place, function, kind_of(only)?),
        [first, second] => {
            let a = kind_of(first)?;
            let b = kind_of(second)?;
            call_of_two(place, function, a, b)
        }
        [_, _, _, ..] => {
            have_kinds(args)?;
            Err(broken(rules::WRONG_TYPE, place))
        }
    }
}

#[cycle(kinds)]
fn of_derivative(inner: &ArrayExpr, place: Place) -> Result<Kind, Broken>
    ensures { result ≡ and_then (part_of inner.now).kind (real_of place) }
{
    real_of(place, kind_of(inner)?)
}

#[cycle(kinds)]
fn of_size(inner: &ArrayExpr) -> Result<Kind, Broken>
    ensures { result ≡ and_then (part_of inner.now).kind (λ _. Ok Whole) }
{
    kind_of(inner)?;
    Ok(Kind::Whole)
}

#[cycle(kinds)]
fn of_filling(part: &Option<ArrayExpr>) -> Result<Kind, Broken>
    ensures { result ≡ filling (option_map part_of part.now) }
{
    match part {
        None => Ok(Kind::Whole),
        Some(e) => kind_of(e),
    }
}

#[cycle(kinds)]
fn of_sized(
    function: u16,
    part: &Option<ArrayExpr>,
    count: usize,
    place: Place,
) -> Result<Kind, Broken>
    ensures { result ≡ sized function (option_map part_of part.now) count place }
{
    let kind = of_filling(part)?;
    if takes_sizes(function, count) {
        Ok(kind)
    } else {
        Err(broken(rules::WRONG_TYPE, place))
    }
}
