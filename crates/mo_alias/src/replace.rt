//! Expressions with other variables in the places of theirs.
ghost use Rattle.std.specs.Prelude.{◌≡◌, IfOk, map};
ghost use Rattle.mo_flat.specs.declared.expr.FlatExpr.TheVariants.{If};
ghost use Rattle.mo_alias.specs.steps.Placing.{place_at};
ghost use Rattle.mo_alias.specs.Without.{order_of, replaced, replaced_assert, replaced_attribute, replaced_equation, replaced_option, replaced_variable};

use mo_flat::{FlatAssert, FlatEquation, FlatExpr, FlatVar};
use mo_syntax::{Boxed, List, NoMemory, both, in_box, pushed, single};
use std::alloc::Global;

/// The sign and the new number of what stands in the place of a variable; what is no variable stays.
fn place_in(places: &[(bool, u32)], variable: u32) -> (bool, u32)
    ensures { result ≡ place_at places.now variable }
{
    match places.get(variable as usize) {
        None => (false, variable),
        Some(place) => *place,
    }
}

/// An order of what stands in a variable's place.
fn order_of(alloc: Global, place: (bool, u32), order: u32) -> Result<FlatExpr, NoMemory>
    ensures { IfOk result (λ made. made ≡ order_of place order) }
{
    if place.0 {
        Ok(FlatExpr::Sum(single(alloc, (true, FlatExpr::Var(place.1, order)))?))
    } else {
        Ok(FlatExpr::Var(place.1, order))
    }
}

/// An expression with what stands in the places of its variables.
#[cycle(replaced)]
pub(crate) fn replaced(
    alloc: Global,
    places: &[(bool, u32)],
    e: &FlatExpr,
) -> Result<FlatExpr, NoMemory>
    ensures { IfOk result (λ made. made ≡ replaced (place_at places.now) e.now) }
{
    match e {
        FlatExpr::Whole(_) => e.copy(alloc),
        FlatExpr::Decimal(_) => e.copy(alloc),
        FlatExpr::Str(_) => e.copy(alloc),
        FlatExpr::Truth(_) => e.copy(alloc),
        FlatExpr::Literal(_) => e.copy(alloc),
        FlatExpr::Time => e.copy(alloc),
        FlatExpr::Var(variable, order) => order_of(alloc, place_in(places, *variable), *order),
        FlatExpr::Der(inner) => Ok(FlatExpr::Der(replaced_box(alloc, places, inner.get())?)),
        FlatExpr::Sum(terms) => Ok(FlatExpr::Sum(replaced_signed(
            alloc,
            places,
            terms.as_slice(),
        )?)),
        FlatExpr::Product(factors) => {
            Ok(FlatExpr::Product(replaced_signed(alloc, places, factors.as_slice())?))
        }
        FlatExpr::Power(base, exponent) => {
            let (a, b) = replaced_boxes(alloc, places, base.get(), exponent.get())?;
            Ok(FlatExpr::Power(a, b))
        }
        FlatExpr::Call(function, args) => {
            Ok(FlatExpr::Call(*function, replaced_list(alloc, places, args.as_slice())?))
        }
        FlatExpr::Relation(op, left, right) => {
            let (a, b) = replaced_boxes(alloc, places, left.get(), right.get())?;
            Ok(FlatExpr::Relation(*op, a, b))
        }
        FlatExpr::Not(inner) => Ok(FlatExpr::Not(replaced_box(alloc, places, inner.get())?)),
        FlatExpr::All(parts) => Ok(FlatExpr::All(replaced_list(alloc, places, parts.as_slice())?)),
        FlatExpr::Any(parts) => Ok(FlatExpr::Any(replaced_list(alloc, places, parts.as_slice())?)),
        FlatExpr::If(branches, other) => {
            replaced_choice(alloc, places, branches.as_slice(), other.get())
        }
    }
}

#[cycle(replaced)]
fn replaced_box(
    alloc: Global,
    places: &[(bool, u32)],
    e: &FlatExpr,
) -> Result<Boxed<FlatExpr>, NoMemory>
    ensures { IfOk result (λ made. made ≡ replaced (place_at places.now) e.now) }
{
    in_box(alloc, replaced(alloc, places, e))
}

#[cycle(replaced)]
fn replaced_boxes(
    alloc: Global,
    places: &[(bool, u32)],
    a: &FlatExpr,
    b: &FlatExpr,
) -> Result<(Boxed<FlatExpr>, Boxed<FlatExpr>), NoMemory>
    ensures { IfOk result (λ made. (made.0 ≡ replaced (place_at places.now) a.now) × (made.1 ≡ replaced (place_at places.now) b.now)) }
{
    both(
        replaced_box(alloc, places, a),
        replaced_box(alloc, places, b),
    )
}

#[cycle(replaced)]
fn replaced_choice(
    alloc: Global,
    places: &[(bool, u32)],
    branches: &[(FlatExpr, FlatExpr)],
    other: &FlatExpr,
) -> Result<FlatExpr, NoMemory>
    ensures { IfOk result (λ made. made ≡ replaced (place_at places.now) (If branches.now other.now)) }
{
    let branches = replaced_branches(alloc, places, branches);
    let (branches, other) = both(branches, replaced_box(alloc, places, other))?;
    Ok(FlatExpr::If(branches, other))
}

#[cycle(replaced)]
fn replaced_signed(
    alloc: Global,
    places: &[(bool, u32)],
    terms: &[(bool, FlatExpr)],
) -> Result<List<(bool, FlatExpr)>, NoMemory>
    ensures { IfOk result (λ made. made ≡ map (λ term. (term.0, replaced (place_at places.now) term.1)) terms.now) }
{
    let mut made = List::new(alloc);
    for term in terms {
        pushed(
            &mut made,
            both(Ok(term.0), replaced(alloc, places, &term.1)),
        )?;
    }
    Ok(made)
}

#[cycle(replaced)]
fn replaced_list(
    alloc: Global,
    places: &[(bool, u32)],
    parts: &[FlatExpr],
) -> Result<List<FlatExpr>, NoMemory>
    ensures { IfOk result (λ made. made ≡ map (replaced (place_at places.now)) parts.now) }
{
    let mut made = List::new(alloc);
    for part in parts {
        pushed(&mut made, replaced(alloc, places, part))?;
    }
    Ok(made)
}

#[cycle(replaced)]
fn replaced_branches(
    alloc: Global,
    places: &[(bool, u32)],
    branches: &[(FlatExpr, FlatExpr)],
) -> Result<List<(FlatExpr, FlatExpr)>, NoMemory>
    ensures { IfOk result (λ made. made ≡ map (λ branch. (replaced (place_at places.now) branch.0, replaced (place_at places.now) branch.1)) branches.now) }
{
    let mut made = List::new(alloc);
    for branch in branches {
        let condition = replaced(alloc, places, &branch.0);
        pushed(
            &mut made,
            both(condition, replaced(alloc, places, &branch.1)),
        )?;
    }
    Ok(made)
}

fn replaced_option(
    alloc: Global,
    places: &[(bool, u32)],
    e: &Option<FlatExpr>,
) -> Result<Option<FlatExpr>, NoMemory>
    ensures { IfOk result (λ made. made ≡ replaced_option (place_at places.now) e.now) }
{
    match e {
        None => Ok(None),
        Some(e) => Ok(Some(replaced(alloc, places, e)?)),
    }
}

fn replaced_attributes(
    alloc: Global,
    places: &[(bool, u32)],
    attributes: &[(u8, FlatExpr)],
) -> Result<List<(u8, FlatExpr)>, NoMemory>
    ensures { IfOk result (λ made. made ≡ map (replaced_attribute (place_at places.now)) attributes.now) }
{
    let mut made = List::new(alloc);
    for attribute in attributes {
        pushed(
            &mut made,
            both(Ok(attribute.0), replaced(alloc, places, &attribute.1)),
        )?;
    }
    Ok(made)
}

pub(crate) fn replaced_variable(
    alloc: Global,
    places: &[(bool, u32)],
    v: &FlatVar,
) -> Result<FlatVar, NoMemory>
    ensures { IfOk result (λ made. made ≡ replaced_variable (place_at places.now) v.now) }
{
    let texts = both(v.name.copy(alloc), v.kind_text.copy(alloc));
    let attributes = replaced_attributes(alloc, places, v.attributes.as_slice());
    let values = both(attributes, replaced_option(alloc, places, &v.binding));
    let ((name, kind_text), (attributes, binding)) = both(texts, values)?;
    Ok(FlatVar {
        name,
        kind: v.kind,
        kind_text,
        role: v.role,
        attributes,
        binding,
        place: v.place,
    })
}

pub(crate) fn replaced_equation(
    alloc: Global,
    places: &[(bool, u32)],
    q: &FlatEquation,
) -> Result<FlatEquation, NoMemory>
    ensures { IfOk result (λ made. made ≡ replaced_equation (place_at places.now) q.now) }
{
    let (left, right) = both(
        replaced(alloc, places, &q.left),
        replaced(alloc, places, &q.right),
    )?;
    Ok(FlatEquation {
        left,
        right,
        place: q.place,
    })
}

pub(crate) fn replaced_assert(
    alloc: Global,
    places: &[(bool, u32)],
    a: &FlatAssert,
) -> Result<FlatAssert, NoMemory>
    ensures { IfOk result (λ made. made ≡ replaced_assert (place_at places.now) a.now) }
{
    let level = replaced_option(alloc, places, &a.level);
    let sides = both(
        replaced(alloc, places, &a.condition),
        replaced(alloc, places, &a.message),
    );
    let ((condition, message), level) = both(sides, level)?;
    Ok(FlatAssert {
        condition,
        message,
        level,
    })
}
