//! The derivative of an expression in which no derivative is left to carry out, from its parts upwards.
ghost use Rattle.std.specs.Prelude.{◌≡◌, ◌&&◌, ◌++◌, [], ◌∷◌, IfOk, OnOk, if◌then◌else◌, map, pos, true};
ghost use Rattle.std.specs.List.{list_all};
ghost use Rattle.mo_flat.specs.declared.expr.FlatExpr.TheVariants.{All, Any, Call, Der, If, Not, Power, Product, Relation, Sum, Var, Whole};
ghost use Rattle.mo_symdiff.specs.Derivative.{derived, in_place, moving_terms, product_terms, replaced_factor, with_slopes};
ghost use Rattle.mo_symdiff.specs.Still.{is_still};

use crate::build::{chain, choice_of, copy_factors};
use crate::functions::slope_of_args;
use crate::powers::slope_of_power;
use crate::still::moves;
use mo_flat::{FlatExpr, FlatVar};
use mo_syntax::{Boxed, List as Elements, NoMemory, RelOp, both, pushed, single, triple};
use std::alloc::Global;

/// The derivative of an expression, and whether the expression is still.
#[derive(Drop)]
struct Differentiated {
    still: bool,
    tree: FlatExpr,
}

/// 0 where the expression is still, and otherwise the tree.
fn unless_still(still: bool, tree: FlatExpr) -> Differentiated
    ensures still { result.still ≡ still }
    ensures tree { result.tree ≡ (if still then Whole (pos 0) else tree) }
{
    if still {
        return stays();
    }
    Differentiated { still, tree }
}

fn and(a: bool, b: bool) -> bool
    ensures { result ≡ (a && b) }
{
    a && b
}

fn stays() -> Differentiated
    ensures still { result.still ≡ true }
    ensures tree { result.tree ≡ Whole (pos 0) }
{
    Differentiated {
        still: true,
        tree: FlatExpr::Whole(0),
    }
}

fn of_variable(vars: &[FlatVar], variable: u32, order: u32) -> Differentiated
    ensures still { result.still ≡ is_still vars.now (Var variable order) }
    ensures tree { result.tree ≡ derived vars.now (Var variable order) }
{
    unless_still(
        !moves(vars, variable),
        FlatExpr::Var(variable, order.saturating_add(1)),
    )
}

/// The derivative of an expression. `NoMemory` is the only other answer.
pub(crate) fn derived(alloc: Global, vars: &[FlatVar], e: &FlatExpr) -> Result<FlatExpr, NoMemory>
    ensures { IfOk result (λ made. made ≡ derived vars.now e.now) }
{
    Ok(slope(alloc, vars, e)?.tree)
}

#[cycle(slope)]
fn slope(alloc: Global, vars: &[FlatVar], e: &FlatExpr) -> Result<Differentiated, NoMemory>
    ensures { IfOk result (λ s. (s.still ≡ is_still vars.now e.now) × (s.tree ≡ derived vars.now e.now)) }
{
    match e {
        FlatExpr::Whole(_) => Ok(stays()),
        FlatExpr::Decimal(_) => Ok(stays()),
        FlatExpr::Str(_) => Ok(stays()),
        FlatExpr::Truth(_) => Ok(stays()),
        FlatExpr::Literal(_) => Ok(stays()),
        FlatExpr::Time => Ok(unless_still(false, FlatExpr::Whole(1))),
        FlatExpr::Var(variable, order) => Ok(of_variable(vars, *variable, *order)),
        FlatExpr::Der(inner) => of_der(alloc, vars, inner.get()),
        FlatExpr::Sum(terms) => of_sum(alloc, vars, terms.as_slice()),
        FlatExpr::Product(factors) => of_product(alloc, vars, factors.as_slice()),
        FlatExpr::Power(base, exponent) => of_power(alloc, vars, base.get(), exponent.get()),
        FlatExpr::Call(function, args) => of_call(alloc, vars, *function, args.as_slice()),
        FlatExpr::Relation(op, left, right) => {
            of_relation(alloc, vars, *op, left.get(), right.get())
        }
        FlatExpr::Not(inner) => of_not(alloc, vars, inner.get()),
        FlatExpr::All(parts) => of_all(alloc, vars, parts.as_slice()),
        FlatExpr::Any(parts) => of_any(alloc, vars, parts.as_slice()),
        FlatExpr::If(branches, other) => of_if(alloc, vars, branches.as_slice(), other.get()),
    }
}

#[cycle(slope)]
fn of_der(alloc: Global, vars: &[FlatVar], inner: &FlatExpr) -> Result<Differentiated, NoMemory>
    ensures { IfOk result (λ s. (s.still ≡ is_still vars.now (Der inner.now)) × (s.tree ≡ derived vars.now (Der inner.now))) }
{
    let inner = slope(alloc, vars, inner)?;
    let tree = FlatExpr::Der(Boxed::new(alloc, inner.tree)?);
    Ok(unless_still(inner.still, tree))
}

#[cycle(slope)]
fn of_sum(
    alloc: Global,
    vars: &[FlatVar],
    terms: &[(bool, FlatExpr)],
) -> Result<Differentiated, NoMemory>
    ensures { IfOk result (λ s. (s.still ≡ is_still vars.now (Sum terms.now)) × (s.tree ≡ derived vars.now (Sum terms.now))) }
{
    let (still, moving) = terms_of_sum(alloc, vars, terms)?;
    Ok(unless_still(still, chain(moving)))
}

#[cycle(slope)]
fn of_product(
    alloc: Global,
    vars: &[FlatVar],
    factors: &[(bool, FlatExpr)],
) -> Result<Differentiated, NoMemory>
    ensures { IfOk result (λ s. (s.still ≡ is_still vars.now (Product factors.now)) × (s.tree ≡ derived vars.now (Product factors.now))) }
{
    let (still, terms) = terms_of_product(alloc, vars, factors)?;
    Ok(unless_still(still, chain(terms)))
}

#[cycle(slope)]
fn of_power(
    alloc: Global,
    vars: &[FlatVar],
    base: &FlatExpr,
    exponent: &FlatExpr,
) -> Result<Differentiated, NoMemory>
    ensures { IfOk result (λ s. (s.still ≡ is_still vars.now (Power base.now exponent.now)) × (s.tree ≡ derived vars.now (Power base.now exponent.now))) }
{
    let (p, q) = both(slope(alloc, vars, base), slope(alloc, vars, exponent))?;
    let still = and(p.still, q.still);
    let tree = slope_of_power(alloc, base, p.tree, p.still, exponent, q.tree, q.still)?;
    Ok(unless_still(still, tree))
}

#[cycle(slope)]
fn of_call(
    alloc: Global,
    vars: &[FlatVar],
    function: u16,
    args: &[FlatExpr],
) -> Result<Differentiated, NoMemory>
    ensures { IfOk result (λ s. (s.still ≡ is_still vars.now (Call function args.now)) × (s.tree ≡ derived vars.now (Call function args.now))) }
{
    let (still, slopes) = slopes_of_parts(alloc, vars, args)?;
    let tree = slope_of_args(alloc, function, args, slopes)?;
    Ok(unless_still(still, tree))
}

#[cycle(slope)]
fn of_relation(
    alloc: Global,
    vars: &[FlatVar],
    op: RelOp,
    left: &FlatExpr,
    right: &FlatExpr,
) -> Result<Differentiated, NoMemory>
    ensures { IfOk result (λ s. (s.still ≡ is_still vars.now (Relation op left.now right.now)) × (s.tree ≡ derived vars.now (Relation op left.now right.now))) }
{
    let (p, q) = both(slope(alloc, vars, left), slope(alloc, vars, right))?;
    let still = and(p.still, q.still);
    let (left, right) = both(Boxed::new(alloc, p.tree), Boxed::new(alloc, q.tree))?;
    Ok(unless_still(still, FlatExpr::Relation(op, left, right)))
}

#[cycle(slope)]
fn of_not(alloc: Global, vars: &[FlatVar], inner: &FlatExpr) -> Result<Differentiated, NoMemory>
    ensures { IfOk result (λ s. (s.still ≡ is_still vars.now (Not inner.now)) × (s.tree ≡ derived vars.now (Not inner.now))) }
{
    let inner = slope(alloc, vars, inner)?;
    let tree = FlatExpr::Not(Boxed::new(alloc, inner.tree)?);
    Ok(unless_still(inner.still, tree))
}

#[cycle(slope)]
fn of_all(alloc: Global, vars: &[FlatVar], parts: &[FlatExpr]) -> Result<Differentiated, NoMemory>
    ensures { IfOk result (λ s. (s.still ≡ is_still vars.now (All parts.now)) × (s.tree ≡ derived vars.now (All parts.now))) }
{
    let (still, slopes) = slopes_of_parts(alloc, vars, parts)?;
    Ok(unless_still(still, FlatExpr::All(slopes)))
}

#[cycle(slope)]
fn of_any(alloc: Global, vars: &[FlatVar], parts: &[FlatExpr]) -> Result<Differentiated, NoMemory>
    ensures { IfOk result (λ s. (s.still ≡ is_still vars.now (Any parts.now)) × (s.tree ≡ derived vars.now (Any parts.now))) }
{
    let (still, slopes) = slopes_of_parts(alloc, vars, parts)?;
    Ok(unless_still(still, FlatExpr::Any(slopes)))
}

#[cycle(slope)]
fn of_if(
    alloc: Global,
    vars: &[FlatVar],
    branches: &[(FlatExpr, FlatExpr)],
    other: &FlatExpr,
) -> Result<Differentiated, NoMemory>
    ensures { IfOk result (λ s. (s.still ≡ is_still vars.now (If branches.now other.now)) × (s.tree ≡ derived vars.now (If branches.now other.now))) }
{
    let values = slopes_of_values(alloc, vars, branches);
    let ((still, slopes), other) = both(values, slope(alloc, vars, other))?;
    let still = and(still, other.still);
    let tree = choice_of(alloc, slopes, other.tree)?;
    Ok(unless_still(still, tree))
}

/// The derivatives of the terms that are not still, with their signs, and whether all are still.
#[cycle(slope)]
fn terms_of_sum(
    alloc: Global,
    vars: &[FlatVar],
    terms: &[(bool, FlatExpr)],
) -> Result<(bool, Elements<(bool, FlatExpr)>), NoMemory>
    ensures { IfOk result (λ made. (made.0 ≡ list_all (λ term. is_still vars.now term.1) terms.now) × (made.1 ≡ moving_terms vars.now (with_slopes vars.now terms.now))) }
{
    let mut made = Elements::new(alloc);
    let mut still = true;
    for term in terms {
        let slope = slope(alloc, vars, &term.1)?;
        still = and(still, slope.still);
        push_moving(&mut made, term.0, slope)?;
    }
    Ok((still, made))
}

/// A term for each factor that is not still, and whether all are still.
#[cycle(slope)]
fn terms_of_product(
    alloc: Global,
    vars: &[FlatVar],
    factors: &[(bool, FlatExpr)],
) -> Result<(bool, Elements<(bool, FlatExpr)>), NoMemory>
    ensures { IfOk result (λ made. (made.0 ≡ list_all (λ factor. is_still vars.now factor.1) factors.now) × (made.1 ≡ product_terms vars.now [] (with_slopes vars.now factors.now))) }
{
    let mut made = Elements::new(alloc);
    let mut still = true;
    for i in 0..factors.len() {
        let factor = &factors[i];
        let slope = slope(alloc, vars, &factor.1)?;
        still = and(still, slope.still);
        let (before, after) = (&factors[..i], &factors[i + 1..]);
        push_replaced(alloc, &mut made, before, factor, slope, after)?;
    }
    Ok((still, made))
}

/// The derivatives of all parts, and whether all are still.
#[cycle(slope)]
fn slopes_of_parts(
    alloc: Global,
    vars: &[FlatVar],
    parts: &[FlatExpr],
) -> Result<(bool, Elements<FlatExpr>), NoMemory>
    ensures { IfOk result (λ made. (made.0 ≡ list_all (is_still vars.now) parts.now) × (made.1 ≡ map (derived vars.now) parts.now)) }
{
    let mut made = Elements::new(alloc);
    let mut still = true;
    for part in parts {
        let slope = slope(alloc, vars, part)?;
        still = and(still, slope.still);
        made.push(slope.tree)?;
    }
    Ok((still, made))
}

/// The branches with the derivatives of their values, and whether all values are still.
#[cycle(slope)]
fn slopes_of_values(
    alloc: Global,
    vars: &[FlatVar],
    branches: &[(FlatExpr, FlatExpr)],
) -> Result<(bool, Elements<(FlatExpr, FlatExpr)>), NoMemory>
    ensures { IfOk result (λ made. (made.0 ≡ list_all (λ branch. is_still vars.now branch.1) branches.now) × (made.1 ≡ map (λ branch. (branch.0, derived vars.now branch.1)) branches.now)) }
{
    let mut made = Elements::new(alloc);
    let mut still = true;
    for branch in branches {
        let slope = slope(alloc, vars, &branch.1)?;
        still = and(still, slope.still);
        pushed(&mut made, both(branch.0.copy(alloc), Ok(slope.tree)))?;
    }
    Ok((still, made))
}

/// Puts the derivative of a term at the end, where the term is not still.
fn push_moving(
    made: &mut Elements<(bool, FlatExpr)>,
    minus: bool,
    slope: Differentiated,
) -> Result<(), NoMemory>
    ensures { OnOk result (made.new ≡ made.old ++ (if slope.still then [] else (minus, slope.tree) ∷ [])) }
{
    if slope.still {
        return Ok(());
    }
    made.push((minus, slope.tree))
}

/// Puts the term that a factor gives at the end, where the factor is not still.
fn push_replaced(
    alloc: Global,
    made: &mut Elements<(bool, FlatExpr)>,
    before: &[(bool, FlatExpr)],
    factor: &(bool, FlatExpr),
    slope: Differentiated,
    after: &[(bool, FlatExpr)],
) -> Result<(), NoMemory>
    ensures { OnOk result (made.new ≡ made.old ++ (if slope.still then [] else replaced_factor before.now (factor.now.0, (factor.now.1, slope.tree)) after.now ∷ [])) }
{
    if slope.still {
        return Ok(());
    }
    pushed(
        made,
        term_of_product(alloc, before, factor, slope.tree, after),
    )
}

/// What stands in the place of a factor f: D(f), or `/f*D(f)/f` for a divisor.
fn in_place(
    alloc: Global,
    factor: &(bool, FlatExpr),
    slope: FlatExpr,
) -> Result<Elements<(bool, FlatExpr)>, NoMemory>
    ensures { IfOk result (λ made. made ≡ in_place factor.now.0 factor.now.1 slope) }
{
    if factor.0 {
        return around_slope(alloc, &factor.1, slope);
    }
    single(alloc, (false, slope))
}

/// `/f*D(f)/f`
fn around_slope(
    alloc: Global,
    f: &FlatExpr,
    slope: FlatExpr,
) -> Result<Elements<(bool, FlatExpr)>, NoMemory>
    ensures { IfOk result (λ made. made ≡ in_place true f.now slope) }
{
    let ((first, second), slope) = both(both(f.copy(alloc), f.copy(alloc)), Ok(slope))?;
    triple(alloc, (true, first), (false, slope), (true, second))
}

/// Puts copies of factors at the end, with others between them.
fn push_around(
    alloc: Global,
    made: &mut Elements<(bool, FlatExpr)>,
    before: &[(bool, FlatExpr)],
    between: Elements<(bool, FlatExpr)>,
    after: &[(bool, FlatExpr)],
) -> Result<(), NoMemory>
    ensures { OnOk result (made.new ≡ made.old ++ (before.now ++ (between ++ after.now))) }
{
    copy_factors(alloc, made, before)?;
    made.append(between)?;
    copy_factors(alloc, made, after)
}

/// The product with the derivative of a factor in the place of that factor, or `/f*D(f)/f` in the place of `/f`, which is
/// subtracted.
fn term_of_product(
    alloc: Global,
    before: &[(bool, FlatExpr)],
    factor: &(bool, FlatExpr),
    slope: FlatExpr,
    after: &[(bool, FlatExpr)],
) -> Result<(bool, FlatExpr), NoMemory>
    ensures { IfOk result (λ made. made ≡ replaced_factor before.now (factor.now.0, (factor.now.1, slope)) after.now) }
{
    let between = in_place(alloc, factor, slope)?;
    let mut made = Elements::new(alloc);
    push_around(alloc, &mut made, before, between, after)?;
    Ok((factor.0, FlatExpr::Product(made)))
}
