//! What is known of a resolved expression at an index.
ghost use Rattle.std.specs.Prelude.{◌<◌, ◌≤◌, ◌++◌, ◌∷◌, [], ℕ, map, fold, length, Ok, slice_get, slice_range};
ghost use Rattle.std.specs.Option.{option_map};
ghost use Rattle.mo_syntax.specs.Outcome.{Outcome};
ghost use Rattle.mo_typing.specs.Indices.{indices};
ghost use Rattle.mo_values.specs.declared.value.Reckoned.{Reckoned};
ghost use Rattle.mo_values.specs.declared.value.Reckoned.TheVariants.{Unknown};
ghost use Rattle.mo_values.specs.Scalars.{Known, of_known, read_all, chained};
ghost use Rattle.mo_values.specs.Walk.{known_by, result_of_node, part_of, signed_of, branch_of, at, number, sum_at, branch_reads, read_as, crossed, crossed_at, call, call_of_one, call_of_two, element_among, sized_element};
ghost use Rattle.mo_values.specs.Told.{AreRead, Tells, TellsElement};
ghost use Rattle.mo_values.specs.steps.Chains.{chain_before, begun_by, behind_last, acting, inner_term, inner_sum, gathered, product_of_two};

use crate::answers::{
    Answer, Gathering, Given, absolute, gather, greater, lesser, negate, product, read_also,
    reckon, relate, settle, sum, undecided,
};
use crate::chains::{behind_last, dims_before, last_matrix_factor};
use crate::elements::{
    chain_end, constant, decides, is_truth, kind_or_real, number, of_range, of_size, own, variable,
};
use crate::halt::Told;
use crate::value::{Reckoned, Scalar};
use mo_flat::{ArrayExpr, ArrayNode};
use mo_tables::functions;
use mo_typing::indexing::{first_number, first_of, has_none, owned, rest_of, rows_of};
use mo_typing::shapes::{Signed, joined_lists, multiplied, shape, swapped};
use std::alloc::Global;

/// What is known of an element of an expression whose kinds, dimensions and subscripts break no rule, at an index that counts from 1,
/// where `read` says what is read of its variables. Operands come before their operation, and left before right: rule 30 at an
/// operation of Integers whose result does not fit 64 bits, or the rule that reading a variable breaks. A variable that is needed and
/// not read yet halts it, and so does want of memory.
#[cycle(walk)]
pub fn known(alloc: Global, e: &ArrayExpr, index: &[u32], read: &[Told]) -> Answer
    ensures { TellsElement read.now result e.now index.now }
{
    let given = result_of_node(alloc, e.node.get(), index, read);
    settle(e.place, kind_or_real(e), given)
}

/// The element of an operand beside an array.
#[cycle(walk)]
fn at(alloc: Global, e: &ArrayExpr, index: &[u32], read: &[Told]) -> Answer
    ensures { (variable : ℕ → Outcome Known) → AreRead read.now variable → Tells read.now result (at (part_of variable e.now) index.now) }
{
    let dims = shape(alloc, e)?;
    known(alloc, e, own(dims.as_slice(), index), read)
}

#[cycle(walk)]
fn result_of_node(alloc: Global, node: &ArrayNode, index: &[u32], read: &[Told]) -> Given
    ensures { (variable : ℕ → Outcome Known) → AreRead read.now variable → Tells read.now result (result_of_node variable node.now index.now) }
{
    match node {
        ArrayNode::Whole(n) => Ok(number(*n)),
        ArrayNode::Decimal(_) => Ok(Reckoned::Unknown),
        ArrayNode::Str(_) => Ok(Reckoned::Unknown),
        ArrayNode::Truth(b) => Ok(Reckoned::Is(Scalar::Truth(*b))),
        ArrayNode::Literal(class, n, _) => Ok(Reckoned::Is(Scalar::Literal(*class, *n))),
        ArrayNode::Time => Ok(Reckoned::Unknown),
        ArrayNode::Vars {
            vars,
            kind: _,
            dims,
            subs,
        } => variable(
            alloc,
            vars.as_slice(),
            dims.as_slice(),
            subs.as_slice(),
            index,
            read,
        ),
        ArrayNode::Sum(terms) => of_terms(alloc, terms.as_slice(), index, read),
        ArrayNode::Product(factors) => {
            let factors = factors.as_slice();
            chain_at(alloc, factors, factors.len(), index, read)
        }
        ArrayNode::Power(base, _, exponent) => undecided(of_two(
            alloc, base, exponent, index, read,
        )),
        ArrayNode::Relation(op, left, right) => relate(
            *op,
            at(alloc, left, index, read),
            at(alloc, right, index, read),
        ),
        ArrayNode::Not(inner) => negate(at(alloc, inner, index, read)),
        ArrayNode::All(parts) => reckon(chained(alloc, false, parts.as_slice(), index, read)),
        ArrayNode::Any(parts) => reckon(chained(alloc, true, parts.as_slice(), index, read)),
        ArrayNode::If(branches, other) => {
            undecided(of_choice(alloc, branches.as_slice(), other, index, read))
        }
        ArrayNode::Call(function, args) => of_call(alloc, *function, args.as_slice(), index, read),
        ArrayNode::Der(inner) => undecided(at(alloc, inner, index, read)),
        ArrayNode::Array(parts) => of_array(alloc, parts.as_slice(), index, read),
        ArrayNode::Range(first, step, _) => of_range(*first, *step, index),
        ArrayNode::Size(inner, at) => of_size(alloc, inner, at, index),
        ArrayNode::Sized(function, part, _) => of_sized(alloc, *function, part, index, read),
    }
}

#[cycle(walk)]
fn of_terms(alloc: Global, terms: &[Signed], index: &[u32], read: &[Told]) -> Given
    ensures { (variable : ℕ → Outcome Known) → AreRead read.now variable → Tells read.now result (fold (sum_at index.now) (Ok (number 0)) (map (signed_of variable) terms.now)) }
{
    let mut all = Ok(number(0));
    for term in terms {
        all = sum(term.0, all, reckon(at(alloc, &term.2, index, read)));
    }
    all
}

/// Two operands of an operation that is undecided whatever they have.
#[cycle(walk)]
fn of_two(
    alloc: Global,
    first: &ArrayExpr,
    second: &ArrayExpr,
    index: &[u32],
    read: &[Told],
) -> Answer
    ensures { (variable : ℕ → Outcome Known) → AreRead read.now variable → Tells read.now result (read_all (at (part_of variable first.now) index.now ∷ at (part_of variable second.now) index.now ∷ [])) }
{
    read_also(
        at(alloc, first, index, read),
        at(alloc, second, index, read),
    )
}

/// A chain of `and` or `or`. What stands behind an operand that decides it is not read.
#[cycle(walk)]
fn chained(
    alloc: Global,
    deciding: bool,
    parts: &[ArrayExpr],
    index: &[u32],
    read: &[Told],
) -> Answer
    ensures { (variable : ℕ → Outcome Known) → AreRead read.now variable → Tells read.now result (chained deciding (map (λ part. at (part_of variable part) index.now) parts.now)) }
{
    let mut undecided = false;
    for part in parts {
        let known = at(alloc, part, index, read)?;
        if !undecided && decides(deciding, known) {
            return Ok(Some(Scalar::Truth(deciding)));
        }
        undecided = undecided || !is_truth(known);
    }
    Ok(chain_end(undecided, deciding))
}

/// The branches of an if-expression whose conditions are undecided.
#[cycle(walk)]
fn of_branches(
    alloc: Global,
    branches: &[(ArrayExpr, ArrayExpr)],
    index: &[u32],
    read: &[Told],
) -> Answer
    ensures { (variable : ℕ → Outcome Known) → AreRead read.now variable → Tells read.now result (read_all (branch_reads index.now (map (branch_of variable) branches.now))) }
{
    let mut all = Ok(None);
    for branch in branches {
        let condition = read_also(all, at(alloc, &branch.0, index, read));
        all = read_also(condition, at(alloc, &branch.1, index, read));
    }
    all
}

#[cycle(walk)]
fn of_choice(
    alloc: Global,
    branches: &[(ArrayExpr, ArrayExpr)],
    other: &ArrayExpr,
    index: &[u32],
    read: &[Told],
) -> Answer
    ensures { (variable : ℕ → Outcome Known) → AreRead read.now variable → Tells read.now result (read_all (branch_reads index.now (map (branch_of variable) branches.now) ++ at (part_of variable other.now) index.now ∷ [])) }
{
    read_also(
        of_branches(alloc, branches, index, read),
        at(alloc, other, index, read),
    )
}

#[cycle(walk)]
fn of_array(alloc: Global, parts: &[ArrayExpr], index: &[u32], read: &[Told]) -> Given
    ensures { (variable : ℕ → Outcome Known) → AreRead read.now variable → Tells read.now result (element_among (map (part_of variable) parts.now) index.now) }
{
    match index {
        [] => Ok(Reckoned::Unknown),
        [k, rest @ ..] => {
            let place = k.saturating_sub(1) as usize;
            if place >= parts.len() {
                return Ok(Reckoned::Unknown);
            }
            reckon(known(alloc, &parts[place], rest, read))
        }
    }
}

#[cycle(walk)]
fn of_sized(
    alloc: Global,
    function: u16,
    part: &Option<ArrayExpr>,
    index: &[u32],
    read: &[Told],
) -> Given
    ensures { (variable : ℕ → Outcome Known) → AreRead read.now variable → Tells read.now result (sized_element function (option_map (part_of variable) part.now) index.now) }
{
    match part {
        None => Ok(constant(function, index)),
        Some(e) => reckon(known(alloc, e, &[], read)),
    }
}

/// The factors behind the last one by which a chain is multiplied as a matrix, as they act on each element of what stands before.
#[cycle(walk)]
fn acting(
    alloc: Global,
    factors: &[Signed],
    from: usize,
    n: usize,
    index: &[u32],
    begun: Given,
    read: &[Told],
) -> Given
    requires from { from ≤ n }
    requires to { n ≤ length factors.now }
    ensures { (variable : ℕ → Outcome Known) → AreRead read.now variable → (so_far : Outcome Reckoned) → Tells read.now begun so_far → Tells read.now result (acting variable index.now so_far (slice_range factors.now from n)) }
{
    let mut all = begun;
    for j in from..n {
        let factor = &factors[j];
        all = product(factor.0, all, reckon(at(alloc, &factor.2, index, read)));
    }
    all
}

/// The element of a chain of the first n factors.
#[cycle(walk)]
fn chain_at(alloc: Global, factors: &[Signed], n: usize, index: &[u32], read: &[Told]) -> Given
    requires { n ≤ length factors.now }
    ensures { (variable : ℕ → Outcome Known) → AreRead read.now variable → Tells read.now result ((chain_before variable factors.now n).product index.now) }
{
    let last = last_matrix_factor(alloc, factors, n)?;
    let begun = begun_by(alloc, factors, last, index, read);
    acting(alloc, factors, behind_last(last, n), n, index, begun, read)
}

/// What a chain begins with by its last matrix factor, if there is one.
#[cycle(walk)]
fn begun_by(
    alloc: Global,
    factors: &[Signed],
    last: Option<usize>,
    index: &[u32],
    read: &[Told],
) -> Given
    requires { behind_last last ≤ length factors.now }
    ensures { (variable : ℕ → Outcome Known) → AreRead read.now variable → Tells read.now result (begun_by variable factors.now last index.now) }
{
    match last {
        None => Ok(number(1)),
        Some(m) => inner_product(alloc, factors, m, index, read),
    }
}

/// The sum of products that a chain begins with at its matrix factor m.
#[cycle(walk)]
fn inner_product(alloc: Global, factors: &[Signed], m: usize, index: &[u32], read: &[Told]) -> Given
    requires { m < length factors.now }
    ensures { (variable : ℕ → Outcome Known) → AreRead read.now variable → Tells read.now result (begun_by variable factors.now (Some m) index.now) }
{
    let factor = &factors[m];
    let before = dims_before(alloc, factors, m)?;
    let rows = rows_of(&before);
    let shape = shape(alloc, &factor.2)?;
    let count = first_number(shape.as_slice());
    let after = multiplied(alloc, before, (factor.0, factor.1, shape))?;
    let index = owned(&after, index);
    let row = first_of(index, rows);
    let column = rest_of(index, rows);
    inner_sum(alloc, factors, m, row, column, count, read)
}

#[cycle(walk)]
fn inner_sum(
    alloc: Global,
    factors: &[Signed],
    m: usize,
    row: &[u32],
    column: &[u32],
    count: u32,
    read: &[Told],
) -> Given
    requires { m < length factors.now }
    ensures { (variable : ℕ → Outcome Known) → AreRead read.now variable → Tells read.now result (inner_sum variable (chain_before variable factors.now m) (slice_get factors.now m) row.now column.now count) }
{
    let mut all = Ok(number(0));
    for k in 0..count {
        let term = inner_term(alloc, factors, m, row, column, k + 1, read);
        all = sum(false, all, term);
    }
    all
}

#[cycle(walk)]
fn inner_term(
    alloc: Global,
    factors: &[Signed],
    m: usize,
    row: &[u32],
    column: &[u32],
    k: u32,
    read: &[Told],
) -> Given
    requires { m < length factors.now }
    ensures { (variable : ℕ → Outcome Known) → AreRead read.now variable → Tells read.now result (inner_term variable (chain_before variable factors.now m) (slice_get factors.now m) row.now column.now k) }
{
    let left = joined_lists(alloc, row, &[k])?;
    let right = joined_lists(alloc, &[k], column)?;
    let so_far = chain_at(alloc, factors, m, left.as_slice(), read);
    let factor = at(alloc, &factors[m].2, right.as_slice(), read);
    product(false, so_far, reckon(factor))
}

/// The elements of an array whose indices begin so, behind a sum or a product of those before.
#[cycle(walk)]
fn gathered(
    alloc: Global,
    e: &ArrayExpr,
    begun: &[u32],
    dims: &[u32],
    before: Gathering,
    read: &[Told],
) -> Given
    ensures { (variable : ℕ → Outcome Known) → AreRead read.now variable → (so_far : Outcome Reckoned) → Tells read.now before.so_far so_far → Tells read.now result (gathered before.multiplies so_far (map (λ index. read_as of_known (known_by variable e.now (begun.now ++ index))) (indices dims.now))) }
{
    match dims {
        [] => gather(before, reckon(known(alloc, e, begun, read))),
        [n, more @ ..] => gathered_rows(alloc, e, begun, *n, more, before, read),
    }
}

/// The same, n rows of them.
#[cycle(walk)]
fn gathered_rows(
    alloc: Global,
    e: &ArrayExpr,
    begun: &[u32],
    n: u32,
    more: &[u32],
    before: Gathering,
    read: &[Told],
) -> Given
    ensures { (variable : ℕ → Outcome Known) → AreRead read.now variable → (so_far : Outcome Reckoned) → Tells read.now before.so_far so_far → Tells read.now result (gathered before.multiplies so_far (map (λ index. read_as of_known (known_by variable e.now (begun.now ++ index))) (indices (n ∷ more.now)))) }
{
    let mut all = before.so_far;
    if has_none(more) {
        return all;
    }
    for k in 0..n {
        let index = joined_lists(alloc, begun, &[k + 1])?;
        let row = Gathering {
            multiplies: before.multiplies,
            so_far: all,
        };
        all = gathered(alloc, e, index.as_slice(), more, row, read);
    }
    all
}

#[cycle(walk)]
fn of_call_of_one(
    alloc: Global,
    function: u16,
    arg: &ArrayExpr,
    index: &[u32],
    read: &[Told],
) -> Given
    ensures { (variable : ℕ → Outcome Known) → AreRead read.now variable → Tells read.now result (call_of_one function (part_of variable arg.now) index.now) }
{
    match function {
        functions::NDIMS => Ok(number(shape(alloc, arg)?.len() as i64)),
        functions::SUM => {
            let dims = shape(alloc, arg)?;
            let before = Gathering {
                multiplies: false,
                so_far: Ok(number(0)),
            };
            gathered(alloc, arg, &[], dims.as_slice(), before, read)
        }
        functions::PRODUCT => {
            let dims = shape(alloc, arg)?;
            let before = Gathering {
                multiplies: true,
                so_far: Ok(number(1)),
            };
            gathered(alloc, arg, &[], dims.as_slice(), before, read)
        }
        functions::TRANSPOSE => {
            let turned = swapped(alloc, index)?;
            reckon(known(alloc, arg, turned.as_slice(), read))
        }
        functions::ABS => absolute(at(alloc, arg, index, read)),
        functions::NO_EVENT => reckon(at(alloc, arg, index, read)),
        _ => undecided(at(alloc, arg, index, read)),
    }
}

/// `a[j]*b[k]`
#[cycle(walk)]
fn product_of_two(
    alloc: Global,
    a: &ArrayExpr,
    b: &ArrayExpr,
    j: u32,
    k: u32,
    read: &[Told],
) -> Given
    ensures { (variable : ℕ → Outcome Known) → AreRead read.now variable → Tells read.now result (product_of_two (part_of variable a.now) (part_of variable b.now) j k) }
{
    let left = reckon(at(alloc, a, &[j], read));
    let right = reckon(at(alloc, b, &[k], read));
    product(false, left, right)
}

/// `a[j]*b[k] - a[k]*b[j]`
#[cycle(walk)]
fn crossed_at(alloc: Global, a: &ArrayExpr, b: &ArrayExpr, j: u32, k: u32, read: &[Told]) -> Given
    ensures { (variable : ℕ → Outcome Known) → AreRead read.now variable → Tells read.now result (crossed_at (part_of variable a.now) (part_of variable b.now) j k) }
{
    let left = product_of_two(alloc, a, b, j, k, read);
    let right = product_of_two(alloc, a, b, k, j, read);
    sum(true, left, right)
}

#[cycle(walk)]
fn crossed(alloc: Global, a: &ArrayExpr, b: &ArrayExpr, n: u32, read: &[Told]) -> Given
    ensures { (variable : ℕ → Outcome Known) → AreRead read.now variable → Tells read.now result (crossed (part_of variable a.now) (part_of variable b.now) n) }
{
    if n == 1 {
        return crossed_at(alloc, a, b, 2, 3, read);
    }
    if n == 2 {
        return crossed_at(alloc, a, b, 3, 1, read);
    }
    crossed_at(alloc, a, b, 1, 2, read)
}

#[cycle(walk)]
fn of_call_of_two(
    alloc: Global,
    function: u16,
    a: &ArrayExpr,
    b: &ArrayExpr,
    index: &[u32],
    read: &[Told],
) -> Given
    ensures { (variable : ℕ → Outcome Known) → AreRead read.now variable → Tells read.now result (call_of_two function (part_of variable a.now) (part_of variable b.now) index.now) }
{
    match function {
        functions::CROSS => crossed(alloc, a, b, first_number(index), read),
        functions::MIN => lesser(at(alloc, a, index, read), at(alloc, b, index, read)),
        functions::MAX => greater(at(alloc, a, index, read), at(alloc, b, index, read)),
        _ => undecided(of_two(alloc, a, b, index, read)),
    }
}

/// The arguments of a call that is undecided whatever they have.
#[cycle(walk)]
fn of_args(alloc: Global, args: &[ArrayExpr], index: &[u32], read: &[Told]) -> Answer
    ensures { (variable : ℕ → Outcome Known) → AreRead read.now variable → Tells read.now result (read_all (map (λ arg. at (part_of variable arg) index.now) args.now)) }
{
    let mut all = Ok(None);
    for arg in args {
        all = read_also(all, at(alloc, arg, index, read));
    }
    all
}

#[cycle(walk)]
fn of_call(alloc: Global, function: u16, args: &[ArrayExpr], index: &[u32], read: &[Told]) -> Given
    ensures { (variable : ℕ → Outcome Known) → AreRead read.now variable → Tells read.now result (call function (map (part_of variable) args.now) index.now) }
{
    match args {
        [] => Ok(Reckoned::Unknown),
        [only] => of_call_of_one(alloc, function, only, index, read),
        [first, second] => of_call_of_two(alloc, function, first, second, index, read),
        [_, _, _, ..] => undecided(of_args(alloc, args, index, read)),
    }
}
