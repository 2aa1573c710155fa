//! Flat expressions and expressions of arrays.
use mo_arrays::{element, scalar_equations};
use mo_flat::{ArrayExpr, ArrayNode, FlatExpr, FlatModel, FlatVar, flat_expr_text};
use mo_symdiff::{derivative, expand_der};
use mo_syntax::{Boxed, Kind, List, NoMemory, Place, Role, Stop, Text, both, single};
use std::alloc::Global;
use std::process::Abort;

const PLACE: Place = Place { file: 1, byte: 0 };

/// An unknown `x`.
fn variable(alloc: Global) -> Result<FlatVar, NoMemory> {
    let (name, kind_text) = both(Text::from_str(alloc, "x"), Text::from_str(alloc, "Real"))?;
    Ok(FlatVar {
        name,
        kind: Kind::Real,
        kind_text,
        role: Role::Unknown,
        attributes: List::new(alloc),
        binding: None,
        place: PLACE,
    })
}

fn variables(alloc: Global) -> Result<List<FlatVar>, NoMemory> {
    let variable = variable(alloc)?;
    single(alloc, variable)
}

/// The model of the unknown, without equations.
fn model(alloc: Global) -> Result<FlatModel, NoMemory> {
    let (name, vars) = both(Text::from_str(alloc, "M"), variables(alloc))?;
    Ok(FlatModel {
        name,
        place: PLACE,
        vars,
        first: List::new(alloc),
        first_asserts: List::new(alloc),
        equations: List::new(alloc),
        asserts: List::new(alloc),
    })
}

/// Asks that an expression is printed so.
fn is_text(
    rt: &impl Abort,
    alloc: Global,
    m: &FlatModel,
    e: &FlatExpr,
    text: &str,
) -> Result<(), NoMemory> {
    let found = flat_expr_text(alloc, m, e)?;
    assert_eq!(rt; found.as_str(), text);
    Ok(())
}

/// Asks that an expression came that is printed so.
fn gives(
    rt: &impl Abort,
    alloc: Global,
    m: &FlatModel,
    given: &Result<FlatExpr, Stop>,
    text: &str,
) -> Result<(), NoMemory> {
    match given {
        Ok(e) => is_text(rt, alloc, m, e, text),
        Err(_) => Err(NoMemory),
    }
}

/// The derivative of the unknown, not carried out.
fn derived(alloc: Global) -> Result<FlatExpr, NoMemory> {
    Ok(FlatExpr::Der(Boxed::new(alloc, FlatExpr::Var(1, 0))?))
}

fn has_derivative(
    rt: &impl Abort,
    alloc: Global,
    m: &FlatModel,
    e: &FlatExpr,
) -> Result<(), NoMemory> {
    let slope = derivative(alloc, m, e, PLACE);
    gives(rt, alloc, m, &slope, "der(der(x))")
}

fn is_carried_out(
    rt: &impl Abort,
    alloc: Global,
    m: &FlatModel,
    e: &FlatExpr,
) -> Result<(), NoMemory> {
    let carried = expand_der(alloc, m, e, PLACE);
    gives(rt, alloc, m, &carried, "der(x)")
}

#[test]
fn derivatives(rt: HostRuntime) -> Result<(), NoMemory> {
    let (m, e) = both(model(rt.alloc()), derived(rt.alloc()))?;
    has_derivative(&rt, rt.alloc(), &m, &e)
}

#[test]
fn derivatives_carried_out(rt: HostRuntime) -> Result<(), NoMemory> {
    let (m, e) = both(model(rt.alloc()), derived(rt.alloc()))?;
    is_carried_out(&rt, rt.alloc(), &m, &e)
}

/// A whole number as an expression of arrays.
fn whole(alloc: Global, number: i64) -> Result<ArrayExpr, NoMemory> {
    Ok(ArrayExpr {
        place: PLACE,
        node: Boxed::new(alloc, ArrayNode::Whole(number))?,
    })
}

fn is_element(
    rt: &impl Abort,
    alloc: Global,
    m: &FlatModel,
    e: &ArrayExpr,
) -> Result<(), NoMemory> {
    let found = element(alloc, e, &[]);
    gives(rt, alloc, m, &found, "2")
}

#[test]
fn elements(rt: HostRuntime) -> Result<(), NoMemory> {
    let (m, e) = both(model(rt.alloc()), whole(rt.alloc(), 2))?;
    is_element(&rt, rt.alloc(), &m, &e)
}

fn equation_count(alloc: Global, left: &ArrayExpr, right: &ArrayExpr) -> Result<usize, Stop> {
    let equations = scalar_equations(alloc, left, right, PLACE)?;
    Ok(equations.len())
}

#[test]
fn equations(rt: HostRuntime) -> Result<(), Stop> {
    let (left, right) = both(whole(rt.alloc(), 2), whole(rt.alloc(), 3))?;
    assert_eq!(rt; equation_count(rt.alloc(), &left, &right)?, 1);
    Ok(())
}
