//! The elements of an array expression, one at a time.
ghost use Rattle.std.specs.Prelude.{◌≡◌, ◌-◌, ◌<◌, ◌≤◌, ◌++◌, ◌∷◌, [], List, map, length, slice_get, slice_range, IfOk};
ghost use Rattle.std.specs.Option.{option_map};
ghost use Rattle.mo_flat.specs.declared.expr.FlatExpr.TheVariants.{Whole, Product, Power, Relation, If};
ghost use Rattle.mo_typing.specs.Indices.{indices, first_number};
ghost use Rattle.mo_arrays.specs.Elements.{element_of, element_of_node, at, plain, all_elements, crossed, crossed_at, call, call_of_one, element_among, sized_element, constant};
ghost use Rattle.mo_arrays.specs.steps.Parts.{part_of, chain_before, begun_by, behind_last, acting, inner_terms_with, inner_term_with};

use crate::build::{difference, product, product_of, sum_of};
use crate::chains::{dims_before, last_matrix_factor};
use crate::indices::{behind_last, constant, of_range, of_size, variable};
use mo_flat::{ArrayExpr, ArrayNode, FlatExpr};
use mo_syntax::{Boxed, List, NoMemory, RelOp, both};
use mo_tables::functions;
use mo_typing::indexing::{first_number, first_of, has_none, located, owned, rest_of, rows_of};
use mo_typing::shapes::{Signed, is_scalar, joined_lists, multiplied, shape, swapped};
use std::alloc::Global;

/// The element at an index, which counts from 1 and lies in the dimensions of the expression. Nothing is asked of its subscripts: a
/// caller that makes several elements calls `subscripts` once before. `NoMemory` is the only other answer.
#[cycle(elements)]
pub fn element_at(alloc: Global, e: &ArrayExpr, index: &[u32]) -> Result<FlatExpr, NoMemory>
    ensures { IfOk result (λ made. made ≡ element_of e.now index.now) }
{
    element_of_node(alloc, e.node.get(), index)
}

/// The element at an index beside which a scalar may stand.
#[cycle(elements)]
fn at(alloc: Global, e: &ArrayExpr, index: &[u32]) -> Result<FlatExpr, NoMemory>
    ensures { IfOk result (λ made. made ≡ at (part_of e.now) index.now) }
{
    let dims = shape(alloc, e)?;
    if is_scalar(dims.as_slice()) {
        return element_at(alloc, e, &[]);
    }
    element_at(alloc, e, index)
}

#[cycle(elements)]
fn boxed_at(alloc: Global, e: &ArrayExpr, index: &[u32]) -> Result<Boxed<FlatExpr>, NoMemory>
    ensures { IfOk result (λ made. made ≡ at (part_of e.now) index.now) }
{
    Boxed::new(alloc, at(alloc, e, index)?)
}

#[cycle(elements)]
fn element_of_node(alloc: Global, node: &ArrayNode, index: &[u32]) -> Result<FlatExpr, NoMemory>
    ensures { IfOk result (λ made. made ≡ element_of_node node.now index.now) }
{
    match node {
        ArrayNode::Whole(n) => Ok(FlatExpr::Whole(*n)),
        ArrayNode::Decimal(text) => Ok(FlatExpr::Decimal(text.copy(alloc)?)),
        ArrayNode::Str(text) => Ok(FlatExpr::Str(text.copy(alloc)?)),
        ArrayNode::Truth(b) => Ok(FlatExpr::Truth(*b)),
        ArrayNode::Literal(_, _, name) => Ok(FlatExpr::Literal(name.copy(alloc)?)),
        ArrayNode::Time => Ok(FlatExpr::Time),
        ArrayNode::Vars {
            vars,
            kind: _,
            dims,
            subs,
        } => {
            let place = located(alloc, subs.as_slice(), index)?;
            variable(vars.as_slice(), dims.as_slice(), place.as_slice())
        }
        ArrayNode::Sum(terms) => Ok(sum_of(of_terms(alloc, terms.as_slice(), index)?)),
        ArrayNode::Product(factors) => {
            let factors = factors.as_slice();
            Ok(product_of(chain_at(alloc, factors, factors.len(), index)?))
        }
        ArrayNode::Power(base, _, exponent) => of_power(alloc, base, exponent, index),
        ArrayNode::Relation(op, left, right) => of_relation(alloc, *op, left, right, index),
        ArrayNode::Not(inner) => Ok(FlatExpr::Not(boxed_at(alloc, inner, index)?)),
        ArrayNode::All(parts) => Ok(FlatExpr::All(of_parts(alloc, parts.as_slice(), index)?)),
        ArrayNode::Any(parts) => Ok(FlatExpr::Any(of_parts(alloc, parts.as_slice(), index)?)),
        ArrayNode::If(branches, other) => of_choice(alloc, branches.as_slice(), other, index),
        ArrayNode::Call(function, args) => of_call(alloc, *function, args.as_slice(), index),
        ArrayNode::Der(inner) => Ok(FlatExpr::Der(boxed_at(alloc, inner, index)?)),
        ArrayNode::Array(parts) => of_array(alloc, parts.as_slice(), index),
        ArrayNode::Range(first, step, _) => of_range(*first, *step, index),
        ArrayNode::Size(inner, at) => of_size(alloc, inner, at, index),
        ArrayNode::Sized(function, part, _) => of_sized(alloc, *function, part, index),
    }
}

#[cycle(elements)]
fn of_terms(
    alloc: Global,
    terms: &[Signed],
    index: &[u32],
) -> Result<List<(bool, FlatExpr)>, NoMemory>
    ensures { IfOk result (λ made. made ≡ map (λ term. (term.0, at (part_of term.2) index.now)) terms.now) }
{
    let mut made = List::new(alloc);
    for term in terms {
        made.push((term.0, at(alloc, &term.2, index)?))?;
    }
    Ok(made)
}

#[cycle(elements)]
fn of_parts(alloc: Global, parts: &[ArrayExpr], index: &[u32]) -> Result<List<FlatExpr>, NoMemory>
    ensures { IfOk result (λ made. made ≡ map (λ part. at (part_of part) index.now) parts.now) }
{
    let mut made = List::new(alloc);
    for part in parts {
        made.push(at(alloc, part, index)?)?;
    }
    Ok(made)
}

#[cycle(elements)]
fn of_power(
    alloc: Global,
    base: &ArrayExpr,
    exponent: &ArrayExpr,
    index: &[u32],
) -> Result<FlatExpr, NoMemory>
    ensures { IfOk result (λ made. made ≡ Power (at (part_of base.now) index.now) (at (part_of exponent.now) index.now)) }
{
    let (a, b) = both(
        boxed_at(alloc, base, index),
        boxed_at(alloc, exponent, index),
    )?;
    Ok(FlatExpr::Power(a, b))
}

#[cycle(elements)]
fn of_relation(
    alloc: Global,
    op: RelOp,
    left: &ArrayExpr,
    right: &ArrayExpr,
    index: &[u32],
) -> Result<FlatExpr, NoMemory>
    ensures { IfOk result (λ made. made ≡ Relation op (at (part_of left.now) index.now) (at (part_of right.now) index.now)) }
{
    let (a, b) = both(boxed_at(alloc, left, index), boxed_at(alloc, right, index))?;
    Ok(FlatExpr::Relation(op, a, b))
}

#[cycle(elements)]
fn of_branches(
    alloc: Global,
    branches: &[(ArrayExpr, ArrayExpr)],
    index: &[u32],
) -> Result<List<(FlatExpr, FlatExpr)>, NoMemory>
    ensures { IfOk result (λ made. made ≡ map (λ branch. (at (part_of branch.0) index.now, at (part_of branch.1) index.now)) branches.now) }
{
    let mut made = List::new(alloc);
    for branch in branches {
        made.push(both(at(alloc, &branch.0, index), at(alloc, &branch.1, index))?)?;
    }
    Ok(made)
}

#[cycle(elements)]
fn of_choice(
    alloc: Global,
    branches: &[(ArrayExpr, ArrayExpr)],
    other: &ArrayExpr,
    index: &[u32],
) -> Result<FlatExpr, NoMemory>
    ensures { IfOk result (λ made. made ≡ If (map (λ branch. (at (part_of branch.0) index.now, at (part_of branch.1) index.now)) branches.now) (at (part_of other.now) index.now)) }
{
    let (made, value) = both(
        of_branches(alloc, branches, index),
        boxed_at(alloc, other, index),
    )?;
    Ok(FlatExpr::If(made, value))
}

#[cycle(elements)]
fn of_array(alloc: Global, parts: &[ArrayExpr], index: &[u32]) -> Result<FlatExpr, NoMemory>
    ensures { IfOk result (λ made. made ≡ element_among (map part_of parts.now) index.now) }
{
    match index {
        [] => Ok(FlatExpr::Whole(0)),
        [k, rest @ ..] => {
            let at = k.saturating_sub(1) as usize;
            if at >= parts.len() {
                return Ok(FlatExpr::Whole(0));
            }
            element_at(alloc, &parts[at], rest)
        }
    }
}

#[cycle(elements)]
fn of_sized(
    alloc: Global,
    function: u16,
    part: &Option<ArrayExpr>,
    index: &[u32],
) -> Result<FlatExpr, NoMemory>
    ensures { IfOk result (λ made. made ≡ sized_element function (option_map part_of part.now) index.now) }
{
    match part {
        None => Ok(constant(function, index)),
        Some(e) => element_at(alloc, e, &[]),
    }
}

/// The factors from one place on, before another one, as they act on each element.
#[cycle(elements)]
fn acting(
    alloc: Global,
    factors: &[Signed],
    from: usize,
    n: usize,
    index: &[u32],
) -> Result<List<(bool, FlatExpr)>, NoMemory>
    requires from { from ≤ n }
    requires to { n ≤ length factors.now }
    ensures { IfOk result (λ made. made ≡ acting (slice_range factors.now from n) index.now) }
{
    let mut made = List::new(alloc);
    for j in from..n {
        let factor = &factors[j];
        made.push((factor.0, at(alloc, &factor.2, index)?))?;
    }
    Ok(made)
}

/// The sum of products that a chain ends with at its matrix factor m.
#[cycle(elements)]
fn inner_product(
    alloc: Global,
    factors: &[Signed],
    m: usize,
    index: &[u32],
) -> Result<FlatExpr, NoMemory>
    requires { m < length factors.now }
    ensures { IfOk result (λ made. plain made ∷ [] ≡ begun_by factors.now (Some m) index.now) }
{
    let factor = &factors[m];
    let before = dims_before(alloc, factors, m)?;
    let rows = rows_of(&before);
    let shape = shape(alloc, &factor.2)?;
    let count = first_number(shape.as_slice());
    let after = multiplied(alloc, before, (factor.0, factor.1, shape))?;
    let index = owned(&after, index);
    let row = first_of(index, rows);
    let column = rest_of(index, rows);
    Ok(sum_of(inner_terms(alloc, factors, m, row, column, count)?))
}

#[cycle(elements)]
fn inner_terms(
    alloc: Global,
    factors: &[Signed],
    m: usize,
    row: &[u32],
    column: &[u32],
    count: u32,
) -> Result<List<(bool, FlatExpr)>, NoMemory>
    requires { m < length factors.now }
    ensures { IfOk result (λ made. made ≡ inner_terms_with (chain_before factors.now m) (slice_get factors.now m) row.now column.now count) }
{
    let mut made = List::new(alloc);
    for k in 0..count {
        made.push((false, inner_term(alloc, factors, m, row, column, k + 1)?))?;
    }
    Ok(made)
}

#[cycle(elements)]
fn inner_term(
    alloc: Global,
    factors: &[Signed],
    m: usize,
    row: &[u32],
    column: &[u32],
    k: u32,
) -> Result<FlatExpr, NoMemory>
    requires { m < length factors.now }
    ensures { IfOk result (λ made. plain made ∷ [] ≡ inner_term_with (chain_before factors.now m) (slice_get factors.now m) row.now column.now k) }
{
    let left = joined_lists(alloc, row, &[k])?;
    let right = joined_lists(alloc, &[k], column)?;
    let (a, b) = both(
        chain_at(alloc, factors, m, left.as_slice()),
        element_at(alloc, &factors[m].2, right.as_slice()),
    )?;
    product(alloc, product_of(a), b)
}

/// The factors of the element of a chain of the first n factors.
#[cycle(elements)]
fn chain_at(
    alloc: Global,
    factors: &[Signed],
    n: usize,
    index: &[u32],
) -> Result<List<(bool, FlatExpr)>, NoMemory>
    requires { n ≤ length factors.now }
    ensures { IfOk result (λ made. made ≡ (chain_before factors.now n).factors index.now) }
{
    let last = last_matrix_factor(alloc, factors, n)?;
    let mut made = List::new(alloc);
    if let Some(m) = last {
        made.push((false, inner_product(alloc, factors, m, index)?))?;
    }
    made.append(acting(alloc, factors, behind_last(last, n), n, index)?)?;
    Ok(made)
}

/// The elements whose indices begin so, as terms or factors.
#[cycle(elements)]
fn elements_below(
    alloc: Global,
    e: &ArrayExpr,
    begun: &[u32],
    dims: &[u32],
) -> Result<List<(bool, FlatExpr)>, NoMemory>
    ensures { IfOk result (λ made. made ≡ map (λ index. plain (element_of e.now (begun.now ++ index))) (indices dims.now)) }
{
    match dims {
        [] => {
            let mut made = List::new(alloc);
            made.push((false, element_at(alloc, e, begun)?))?;
            Ok(made)
        }
        [n, more @ ..] => elements_of_rows(alloc, e, begun, *n, more),
    }
}

/// The same, n rows of them.
#[cycle(elements)]
fn elements_of_rows(
    alloc: Global,
    e: &ArrayExpr,
    begun: &[u32],
    n: u32,
    more: &[u32],
) -> Result<List<(bool, FlatExpr)>, NoMemory>
    ensures { IfOk result (λ made. made ≡ map (λ index. plain (element_of e.now (begun.now ++ index))) (indices (n ∷ more.now))) }
{
    let mut made = List::new(alloc);
    if has_none(more) {
        return Ok(made);
    }
    for k in 0..n {
        let index = joined_lists(alloc, begun, &[k + 1])?;
        made.append(elements_below(alloc, e, index.as_slice(), more)?)?;
    }
    Ok(made)
}

#[cycle(elements)]
fn all_elements(alloc: Global, e: &ArrayExpr) -> Result<List<(bool, FlatExpr)>, NoMemory>
    ensures { IfOk result (λ made. made ≡ all_elements (part_of e.now)) }
{
    let dims = shape(alloc, e)?;
    elements_below(alloc, e, &[], dims.as_slice())
}

#[cycle(elements)]
fn of_call_of_one(
    alloc: Global,
    function: u16,
    arg: &ArrayExpr,
    index: &[u32],
) -> Result<FlatExpr, NoMemory>
    ensures { IfOk result (λ made. made ≡ call_of_one function (part_of arg.now) index.now) }
{
    match function {
        functions::NDIMS => Ok(FlatExpr::Whole(shape(alloc, arg)?.len() as i64)),
        functions::SUM => Ok(sum_of(all_elements(alloc, arg)?)),
        functions::PRODUCT => Ok(product_of(all_elements(alloc, arg)?)),
        functions::TRANSPOSE => {
            let turned = swapped(alloc, index)?;
            element_at(alloc, arg, turned.as_slice())
        }
        _ => {
            let mut made = List::new(alloc);
            made.push(at(alloc, arg, index)?)?;
            Ok(FlatExpr::Call(function, made))
        }
    }
}

/// `a[j]*b[k]`
#[cycle(elements)]
fn product_at(
    alloc: Global,
    a: &ArrayExpr,
    b: &ArrayExpr,
    j: u32,
    k: u32,
) -> Result<FlatExpr, NoMemory>
    ensures { IfOk result (λ made. made ≡ Product (plain (element_of a.now (j ∷ [])) ∷ plain (element_of b.now (k ∷ [])) ∷ [])) }
{
    let (x, y) = both(element_at(alloc, a, &[j]), element_at(alloc, b, &[k]))?;
    product(alloc, x, y)
}

/// `a[j]*b[k] - a[k]*b[j]`
#[cycle(elements)]
fn of_cross_at(
    alloc: Global,
    a: &ArrayExpr,
    b: &ArrayExpr,
    j: u32,
    k: u32,
) -> Result<FlatExpr, NoMemory>
    ensures { IfOk result (λ made. made ≡ crossed_at (part_of a.now) (part_of b.now) j k) }
{
    let (left, right) = both(product_at(alloc, a, b, j, k), product_at(alloc, a, b, k, j))?;
    difference(alloc, left, right)
}

#[cycle(elements)]
fn of_cross(alloc: Global, a: &ArrayExpr, b: &ArrayExpr, n: u32) -> Result<FlatExpr, NoMemory>
    ensures { IfOk result (λ made. made ≡ crossed (part_of a.now) (part_of b.now) n) }
{
    if n == 1 {
        return of_cross_at(alloc, a, b, 2, 3);
    }
    if n == 2 {
        return of_cross_at(alloc, a, b, 3, 1);
    }
    of_cross_at(alloc, a, b, 1, 2)
}

#[cycle(elements)]
fn of_call(
    alloc: Global,
    function: u16,
    args: &[ArrayExpr],
    index: &[u32],
) -> Result<FlatExpr, NoMemory>
    ensures { IfOk result (λ made. made ≡ call function (map part_of args.now) index.now) }
{
    match args {
        [] => Ok(FlatExpr::Call(function, List::new(alloc))),
        [only] => of_call_of_one(alloc, function, only, index),
        [first, second] => {
            if function == functions::CROSS {
                return of_cross(alloc, first, second, first_number(index));
            }
            Ok(FlatExpr::Call(function, of_parts(alloc, args, index)?))
        }
        [_, _, _, ..] => Ok(FlatExpr::Call(function, of_parts(alloc, args, index)?)),
    }
}
