//! How much an expression weighs, and how much its derivative, found before it is built.
//!
//! The derivative of an expression can be larger than memory: that of a product of k factors has k terms of k factors. It is
//! weighed node by node, so in the time that it takes to read the expression.

ghost use Rattle.std.specs.Prelude.{◌≡◌, ℕ, ◌+◌, ◌&&◌, ◌||◌, Bool, List as Seq, [], ◌∷◌, ◌++◌, true, false, if◌then◌else◌, nat_eq, not};
ghost use Rattle.mo_flat.specs.declared.expr.FlatExpr.{FlatExpr as Tree};
ghost use Rattle.mo_flat.specs.declared.expr.FlatExpr.TheVariants.{All, Any, Call, Der, If, Not, Power, Product, Relation, Sum, Var};
ghost use Rattle.mo_flat.specs.declared.model.FlatVar.{FlatVar as Variable};
ghost use Rattle.mo_symdiff.specs.declared.weights.Measure.{Measure as Counted};
ghost use Rattle.mo_symdiff.specs.Derivative.{base_term, derived, exponent_term, general_power, literal_power, moving_terms, power_slope, product_terms, sum_of, with_slopes};
ghost use Rattle.mo_symdiff.specs.Weights.{AreBranchSizes, AreSizes, AreTermSizes, IsSize, capped, literal_weight, node_weight, weigh};

use crate::powers::literal;
use crate::still::moves;
use crate::weights::{
    Measure, add, args_row, choose, literal_row, name_weight, node_weight, row_of, row_weight,
    text_weight, times,
};
use mo_flat::{FlatExpr, FlatVar};
use mo_syntax::{RelOp, Text};

/// How much an expression weighs, and how much its derivative, where the greatest `u64` stands for itself and for more.
#[derive(Clone, Copy)]
pub(crate) struct Size {
    pub(crate) still: bool,
    pub(crate) whole: u64,
    pub(crate) slope: u64,
}

/// How much terms or factors weigh, and how much the terms that they give in a derivative.
#[derive(Clone, Copy)]
struct Terms {
    still: bool,
    whole: u64,
    slope: u64,
    /// How many terms they give.
    moving: u64,
    /// Whether one of these is subtracted.
    minus: bool,
}

/// The derivative of what is still is 0, one node.
fn settled(measure: Measure, still: bool, whole: u64, slope: u64) -> Size
    ensures still { result.still ≡ still }
    ensures whole { result.whole ≡ whole }
    ensures slope { result.slope ≡ (if still then node_weight measure else slope) }
{
    let slope = if still { node_weight(measure) } else { slope };
    Size {
        still,
        whole,
        slope,
    }
}

fn and(a: bool, b: bool) -> bool
    ensures { result ≡ (a && b) }
{
    a && b
}

fn or(a: bool, b: bool) -> bool
    ensures { result ≡ (a || b) }
{
    a || b
}

/// A node that stays and has no parts.
fn of_node(measure: Measure) -> Size
    ensures still { result.still ≡ true }
    ensures whole { result.whole ≡ node_weight measure }
    ensures slope { result.slope ≡ node_weight measure }
{
    let node = node_weight(measure);
    Size {
        still: true,
        whole: node,
        slope: node,
    }
}

fn of_literal(measure: Measure, text: &Text) -> Size
    ensures still { result.still ≡ true }
    ensures whole { result.whole ≡ capped (node_weight measure + literal_weight measure text.now) }
    ensures slope { result.slope ≡ node_weight measure }
{
    Size {
        still: true,
        whole: text_weight(measure, text),
        slope: node_weight(measure),
    }
}

fn nothing() -> Size
    ensures still { result.still ≡ true }
    ensures whole { result.whole ≡ 0 }
    ensures slope { result.slope ≡ 0 }
{
    Size {
        still: true,
        whole: 0,
        slope: 0,
    }
}

fn no_terms() -> Terms
    ensures still { result.still ≡ true }
    ensures whole { result.whole ≡ 0 }
    ensures slope { result.slope ≡ 0 }
    ensures moving { result.moving ≡ 0 }
    ensures minus { result.minus ≡ false }
{
    Terms {
        still: true,
        whole: 0,
        slope: 0,
        moving: 0,
        minus: false,
    }
}

fn of_time(measure: Measure) -> Size
    ensures still { result.still ≡ false }
    ensures whole { result.whole ≡ node_weight measure }
    ensures slope { result.slope ≡ node_weight measure }
{
    let node = node_weight(measure);
    Size {
        still: false,
        whole: node,
        slope: node,
    }
}

fn of_variable(vars: &[FlatVar], measure: Measure, variable: u32, order: u32) -> Size
    ensures { IsSize vars.now measure (Var variable order) result.still result.whole result.slope }
{
    let here = name_weight(vars, measure, variable, order);
    let later = order.saturating_add(1);
    let next = name_weight(vars, measure, variable, later);
    let moving = moves(vars, variable);
    settled(measure, !moving, here, next)
}

/// A node around these parts, which stands around their derivatives too.
fn around(measure: Measure, parts: Size) -> Size
    ensures still { result.still ≡ parts.still }
    ensures whole { (x : ℕ) → parts.whole ≡ capped x → result.whole ≡ capped (node_weight measure + x) }
    ensures slope { (x : ℕ) → parts.slope ≡ capped x → result.slope ≡ (if parts.still then node_weight measure else capped (node_weight measure + x)) }
{
    let node = node_weight(measure);
    let slope = add(node, parts.slope);
    settled(measure, parts.still, add(node, parts.whole), slope)
}

fn both(a: Size, b: Size) -> Size
    ensures still { result.still ≡ (a.still && b.still) }
    ensures whole { (x y : ℕ) → a.whole ≡ capped x → b.whole ≡ capped y → result.whole ≡ capped (x + y) }
    ensures slope { (x y : ℕ) → a.slope ≡ capped x → b.slope ≡ capped y → result.slope ≡ capped (x + y) }
{
    Size {
        still: and(a.still, b.still),
        whole: add(a.whole, b.whole),
        slope: add(a.slope, b.slope),
    }
}

fn with_branch(all: Size, condition: Size, value: Size) -> Size
    ensures { (vars : Seq Variable) (m : Counted) (branches : Seq (Tree × Tree)) (c e : Tree) → AreBranchSizes vars m branches all.still all.whole all.slope → IsSize vars m c condition.still condition.whole condition.slope → IsSize vars m e value.still value.whole value.slope → AreBranchSizes vars m (branches ++ (c, e) ∷ []) result.still result.whole result.slope }
{
    Size {
        still: and(all.still, value.still),
        whole: add(all.whole, add(condition.whole, value.whole)),
        slope: add(all.slope, add(condition.whole, value.slope)),
    }
}

/// Terms with one more.
fn with_term(all: Terms, minus: bool, one: Size) -> Terms
    ensures { (vars : Seq Variable) (m : Counted) (parts : Seq (Bool × Tree)) (e : Tree) → AreTermSizes vars m parts (moving_terms vars (with_slopes vars parts)) all.still all.minus all.whole all.slope all.moving → IsSize vars m e one.still one.whole one.slope → AreTermSizes vars m (parts ++ (minus, e) ∷ []) (moving_terms vars (with_slopes vars (parts ++ (minus, e) ∷ []))) result.still result.minus result.whole result.slope result.moving }
{
    let whole = add(all.whole, one.whole);
    if one.still {
        return Terms { whole, ..all };
    }
    Terms {
        still: false,
        whole,
        slope: add(all.slope, one.slope),
        moving: add(all.moving, 1),
        minus: or(all.minus, minus),
    }
}

/// What stands in the place of a factor: its derivative, that of a divisor between two copies of it.
fn place_weight(divides: bool, one: Size) -> u64
    ensures { (y z : ℕ) → one.whole ≡ capped y → one.slope ≡ capped z → result ≡ capped (if divides then y + (z + y) else z) }
{
    if divides {
        return add(one.whole, add(one.slope, one.whole));
    }
    one.slope
}

/// The term that a factor gives, where the factors before it weigh so much.
fn term_of_factor(measure: Measure, before: u64, divides: bool, one: Size) -> u64
    ensures { (x y z : ℕ) → before ≡ capped x → one.whole ≡ capped y → one.slope ≡ capped z → result ≡ capped (node_weight measure + (x + (if divides then y + (z + y) else z))) }
{
    let place = place_weight(divides, one);
    add(node_weight(measure), add(before, place))
}

/// Factors with one more: it stands in each term of those before it.
fn with_factor(measure: Measure, all: Terms, divides: bool, one: Size) -> Terms
    ensures { (vars : Seq Variable) (parts : Seq (Bool × Tree)) (e : Tree) → AreTermSizes vars measure parts (product_terms vars [] (with_slopes vars parts)) all.still all.minus all.whole all.slope all.moving → IsSize vars measure e one.still one.whole one.slope → AreTermSizes vars measure (parts ++ (divides, e) ∷ []) (product_terms vars [] (with_slopes vars (parts ++ (divides, e) ∷ []))) result.still result.minus result.whole result.slope result.moving }
{
    let whole = add(all.whole, one.whole);
    let slope = add(all.slope, times(all.moving, one.whole));
    if one.still {
        return Terms {
            whole,
            slope,
            ..all
        };
    }
    let term = term_of_factor(measure, all.whole, divides, one);
    Terms {
        still: false,
        whole,
        slope: add(slope, term),
        moving: add(all.moving, 1),
        minus: or(all.minus, divides),
    }
}

/// The weight of one positive term alone, or of a sum.
fn joined(moving: u64, minus: bool, alone: u64, sum: u64) -> u64
    ensures { result ≡ (if nat_eq moving 1 && not minus then alone else sum) }
{
    if moving == 1 && !minus { alone } else { sum }
}

/// A sum or a product of these. One positive term of its derivative stands alone.
fn of_terms(measure: Measure, all: Terms) -> Size
    ensures still { result.still ≡ all.still }
    ensures whole { (x : ℕ) → all.whole ≡ capped x → result.whole ≡ capped (node_weight measure + x) }
    ensures slope { (vars : Seq Variable) (parts terms : Seq (Bool × Tree)) → AreTermSizes vars measure parts terms all.still all.minus all.whole all.slope all.moving → result.slope ≡ (if all.still then node_weight measure else capped (weigh vars measure (sum_of terms))) }
{
    let node = node_weight(measure);
    let slope = joined(all.moving, all.minus, all.slope, add(node, all.slope));
    settled(measure, all.still, add(node, all.whole), slope)
}

/// The weight of the derivative of a power with a literal as its exponent.
fn literal_power_weight(measure: Measure, n: i64, a: Size) -> u64
    ensures { (vars : Seq Variable) (base : Tree) → IsSize vars measure base a.still a.whole a.slope → result ≡ capped (weigh vars measure (literal_power n (base, derived vars base))) }
{
    row_weight(literal_row(n), measure, a.whole, a.slope)
}

/// The weight of `b*a^(b - 1)*D(a)`.
fn base_term_weight(measure: Measure, a: Size, b: Size) -> u64
    ensures { (vars : Seq Variable) (base exponent : Tree) → IsSize vars measure base a.still a.whole a.slope → IsSize vars measure exponent b.still b.whole b.slope → result ≡ capped (weigh vars measure (base_term (base, derived vars base) exponent)) }
{
    let arguments = add(a.whole, add(b.whole, b.whole));
    row_weight(row_of(4, 1, 1), measure, arguments, a.slope)
}

/// The weight of `a^b*log(a)*D(b)`.
fn exponent_term_weight(measure: Measure, a: Size, b: Size) -> u64
    ensures { (vars : Seq Variable) (base exponent : Tree) → IsSize vars measure base a.still a.whole a.slope → IsSize vars measure exponent b.still b.whole b.slope → result ≡ capped (weigh vars measure (exponent_term base (exponent, derived vars exponent))) }
{
    let arguments = add(a.whole, add(a.whole, b.whole));
    row_weight(row_of(3, 1, 1), measure, arguments, b.slope)
}

/// The weight of the derivative of another power.
fn general_power_weight(measure: Measure, a: Size, b: Size) -> u64
    ensures { (vars : Seq Variable) (base exponent : Tree) → IsSize vars measure base a.still a.whole a.slope → IsSize vars measure exponent b.still b.whole b.slope → result ≡ capped (weigh vars measure (general_power vars (base, derived vars base) (exponent, derived vars exponent))) }
{
    let by_base = base_term_weight(measure, a, b);
    let by_exponent = exponent_term_weight(measure, a, b);
    let by_both = add(node_weight(measure), add(by_base, by_exponent));
    choose(b.still, by_base, choose(a.still, by_exponent, by_both))
}

/// The weight of the derivative of a power that is not still.
fn power_weight(measure: Measure, a: Size, exponent: &FlatExpr, b: Size) -> u64
    ensures { (vars : Seq Variable) (base : Tree) → IsSize vars measure base a.still a.whole a.slope → IsSize vars measure exponent.now b.still b.whole b.slope → result ≡ capped (weigh vars measure (power_slope vars (base, derived vars base) (exponent.now, derived vars exponent.now))) }
{
    match literal(exponent) {
        Some(n) => literal_power_weight(measure, n, a),
        None => general_power_weight(measure, a, b),
    }
}

/// The weights of an expression in which no derivative is left to carry out.
#[cycle(size)]
pub(crate) fn size_of(vars: &[FlatVar], measure: Measure, e: &FlatExpr) -> Size
    ensures { IsSize vars.now measure e.now result.still result.whole result.slope }
{
    match e {
        FlatExpr::Whole(_) => of_node(measure),
        FlatExpr::Decimal(text) => of_literal(measure, text),
        FlatExpr::Str(text) => of_literal(measure, text),
        FlatExpr::Truth(_) => of_node(measure),
        FlatExpr::Literal(text) => of_literal(measure, text),
        FlatExpr::Time => of_time(measure),
        FlatExpr::Var(variable, order) => of_variable(vars, measure, *variable, *order),
        FlatExpr::Der(inner) => of_der(vars, measure, inner.get()),
        FlatExpr::Sum(terms) => of_sum(vars, measure, terms.as_slice()),
        FlatExpr::Product(factors) => of_product(vars, measure, factors.as_slice()),
        FlatExpr::Power(base, exponent) => of_power(vars, measure, base.get(), exponent.get()),
        FlatExpr::Call(function, args) => of_call(vars, measure, *function, args.as_slice()),
        FlatExpr::Relation(op, left, right) => {
            of_relation(vars, measure, *op, left.get(), right.get())
        }
        FlatExpr::Not(inner) => of_not(vars, measure, inner.get()),
        FlatExpr::All(parts) => of_all(vars, measure, parts.as_slice()),
        FlatExpr::Any(parts) => of_any(vars, measure, parts.as_slice()),
        FlatExpr::If(branches, other) => of_if(vars, measure, branches.as_slice(), other.get()),
    }
}

#[cycle(size)]
fn of_der(vars: &[FlatVar], measure: Measure, inner: &FlatExpr) -> Size
    ensures { IsSize vars.now measure (Der inner.now) result.still result.whole result.slope }
{
    around(measure, size_of(vars, measure, inner))
}

#[cycle(size)]
fn of_not(vars: &[FlatVar], measure: Measure, inner: &FlatExpr) -> Size
    ensures { IsSize vars.now measure (Not inner.now) result.still result.whole result.slope }
{
    around(measure, size_of(vars, measure, inner))
}

#[cycle(size)]
fn of_sum(vars: &[FlatVar], measure: Measure, terms: &[(bool, FlatExpr)]) -> Size
    ensures { IsSize vars.now measure (Sum terms.now) result.still result.whole result.slope }
{
    of_terms(measure, of_all_terms(vars, measure, terms))
}

#[cycle(size)]
fn of_product(vars: &[FlatVar], measure: Measure, factors: &[(bool, FlatExpr)]) -> Size
    ensures { IsSize vars.now measure (Product factors.now) result.still result.whole result.slope }
{
    of_terms(measure, of_all_factors(vars, measure, factors))
}

#[cycle(size)]
fn of_power(vars: &[FlatVar], measure: Measure, base: &FlatExpr, exponent: &FlatExpr) -> Size
    ensures { IsSize vars.now measure (Power base.now exponent.now) result.still result.whole result.slope }
{
    let a = size_of(vars, measure, base);
    let b = size_of(vars, measure, exponent);
    let slope = power_weight(measure, a, exponent, b);
    let whole = add(node_weight(measure), add(a.whole, b.whole));
    settled(measure, and(a.still, b.still), whole, slope)
}

#[cycle(size)]
fn of_call(vars: &[FlatVar], measure: Measure, function: u16, args: &[FlatExpr]) -> Size
    ensures { IsSize vars.now measure (Call function args.now) result.still result.whole result.slope }
{
    let all = of_parts(vars, measure, args);
    let slope = row_weight(args_row(function, args), measure, all.whole, all.slope);
    let whole = add(node_weight(measure), all.whole);
    settled(measure, all.still, whole, slope)
}

#[cycle(size)]
fn of_relation(
    vars: &[FlatVar],
    measure: Measure,
    op: RelOp,
    left: &FlatExpr,
    right: &FlatExpr,
) -> Size
    ensures { IsSize vars.now measure (Relation op left.now right.now) result.still result.whole result.slope }
{
    let a = size_of(vars, measure, left);
    let b = size_of(vars, measure, right);
    around(measure, both(a, b))
}

#[cycle(size)]
fn of_all(vars: &[FlatVar], measure: Measure, parts: &[FlatExpr]) -> Size
    ensures { IsSize vars.now measure (All parts.now) result.still result.whole result.slope }
{
    around(measure, of_parts(vars, measure, parts))
}

#[cycle(size)]
fn of_any(vars: &[FlatVar], measure: Measure, parts: &[FlatExpr]) -> Size
    ensures { IsSize vars.now measure (Any parts.now) result.still result.whole result.slope }
{
    around(measure, of_parts(vars, measure, parts))
}

#[cycle(size)]
fn of_if(
    vars: &[FlatVar],
    measure: Measure,
    branches: &[(FlatExpr, FlatExpr)],
    other: &FlatExpr,
) -> Size
    ensures { IsSize vars.now measure (If branches.now other.now) result.still result.whole result.slope }
{
    let a = of_branches(vars, measure, branches);
    let b = size_of(vars, measure, other);
    around(measure, both(a, b))
}

#[cycle(size)]
fn of_parts(vars: &[FlatVar], measure: Measure, parts: &[FlatExpr]) -> Size
    ensures { AreSizes vars.now measure parts.now result.still result.whole result.slope }
{
    let mut all = nothing();
    for part in parts {
        all = both(all, size_of(vars, measure, part));
    }
    all
}

#[cycle(size)]
fn of_branches(vars: &[FlatVar], measure: Measure, branches: &[(FlatExpr, FlatExpr)]) -> Size
    ensures { AreBranchSizes vars.now measure branches.now result.still result.whole result.slope }
{
    let mut all = nothing();
    for branch in branches {
        let condition = size_of(vars, measure, &branch.0);
        let value = size_of(vars, measure, &branch.1);
        all = with_branch(all, condition, value);
    }
    all
}

#[cycle(size)]
fn of_all_terms(vars: &[FlatVar], measure: Measure, terms: &[(bool, FlatExpr)]) -> Terms
    ensures { AreTermSizes vars.now measure terms.now (moving_terms vars.now (with_slopes vars.now terms.now)) result.still result.minus result.whole result.slope result.moving }
{
    let mut all = no_terms();
    for term in terms {
        let one = size_of(vars, measure, &term.1);
        all = with_term(all, term.0, one);
    }
    all
}

#[cycle(size)]
fn of_all_factors(vars: &[FlatVar], measure: Measure, factors: &[(bool, FlatExpr)]) -> Terms
    ensures { AreTermSizes vars.now measure factors.now (product_terms vars.now [] (with_slopes vars.now factors.now)) result.still result.minus result.whole result.slope result.moving }
{
    let mut all = no_terms();
    for factor in factors {
        let one = size_of(vars, measure, &factor.1);
        all = with_factor(measure, all, factor.0, one);
    }
    all
}
