//! The kinds of flat expressions.
ghost use Rattle.std.specs.Prelude.{◌≡◌, ◌∷◌, [], List as Seq, Option as Maybe, None, map, option_map, if◌then◌else◌};
ghost use Rattle.std.specs.List.{list_all, list_any};
ghost use Rattle.mo_flat.specs.Roles.{variable_at};
ghost use Rattle.mo_flat.specs.Sound.{FlatKind, real, truth, call_kind as call_kind_of, common_kind, flat_kind, is_truth as is_truth_kind, kept_kind as kept_kind_of, kind_of as kind_of_flat, where_holds};
ghost use Rattle.mo_sound.specs.SoundKinds.{AreSummed, kind_seen, product_kind as product_kind_of};

use crate::shapes::is_one_of;
use crate::summary::{Kinds, ValueKind, is_numeric, is_truth};
use mo_flat::{FlatExpr, FlatVar};
use mo_syntax::Kind;
use mo_tables::functions::{ABS, MAX, MIN, NO_EVENT};

/// The functions that make Integers of Integers.
const KEEPING: [u16; 3] = [ABS, MAX, MIN];

fn value_kind(kind: Kind) -> ValueKind
    ensures { kind_seen result ≡ flat_kind kind }
{
    match kind {
        Kind::Real => ValueKind::Real,
        Kind::Whole => ValueKind::Whole,
        Kind::Truth => ValueKind::Truth,
        Kind::Str => ValueKind::Str,
        Kind::Enumeration(_) => ValueKind::Enumeration,
    }
}

/// The kind of the variable of a number, from 1.
pub(crate) fn kind_of_variable(vars: &[FlatVar], n: u32) -> Option<ValueKind>
    ensures { option_map kind_seen result ≡ option_map (λ v. flat_kind v.kind) (variable_at vars.now n) }
{
    if n == 0 {
        return None;
    }
    match vars.get(n as usize - 1) {
        Some(v) => Some(value_kind(v.kind)),
        None => None,
    }
}

/// Real where a test holds.
fn real_where(holds: bool) -> Option<ValueKind>
    ensures { option_map kind_seen result ≡ where_holds holds real }
{
    if holds { Some(ValueKind::Real) } else { None }
}

/// Boolean where a test holds.
fn truth_where(holds: bool) -> Option<ValueKind>
    ensures { option_map kind_seen result ≡ where_holds holds truth }
{
    if holds { Some(ValueKind::Truth) } else { None }
}

/// A number or a truth value.
fn kept_kind(kind: Option<ValueKind>) -> Option<ValueKind>
    ensures { option_map kind_seen result ≡ kept_kind_of (option_map kind_seen kind) }
{
    if is_numeric(kind) || is_truth(kind) {
        kind
    } else {
        None
    }
}

/// The kind of a product.
fn product_kind(divides: bool, kinds: Kinds) -> Option<ValueKind>
    ensures { (all : Seq (Maybe FlatKind)) → AreSummed kinds all → option_map kind_seen result ≡ product_kind_of divides all }
{
    if divides {
        real_where(kinds.numeric)
    } else {
        kinds.number()
    }
}

/// The kind of a call.
fn call_kind(function: u16, kinds: Kinds) -> Option<ValueKind>
    ensures { (all : Seq (Maybe FlatKind)) → AreSummed kinds all → option_map kind_seen result ≡ call_kind_of function all }
{
    if function == NO_EVENT {
        return kept_kind(kinds.common());
    }
    if is_one_of(&KEEPING, function) {
        kinds.number()
    } else {
        real_where(kinds.numeric)
    }
}

/// The kind of a comparison.
fn compared(left: Option<ValueKind>, right: Option<ValueKind>) -> Option<ValueKind>
    ensures { option_map kind_seen result ≡ option_map (λ _. truth) (common_kind (option_map kind_seen left ∷ option_map kind_seen right ∷ [])) }
{
    match Kinds::none().with(left).with(right).common() {
        Some(_) => Some(ValueKind::Truth),
        None => None,
    }
}

/// Whether one of the factors divides.
fn divides(factors: &[(bool, FlatExpr)]) -> bool
    ensures { result ≡ list_any (λ factor. factor.0) factors.now }
{
    for factor in factors {
        if factor.0 {
            return true;
        }
    }
    false
}

/// The kind of an expression by the kinds of its parts, None where they do not agree.
#[cycle(kinds)]
pub(crate) fn kind_of(vars: &[FlatVar], e: &FlatExpr) -> Option<ValueKind>
    ensures { option_map kind_seen result ≡ kind_of_flat vars.now e.now }
{
    match e {
        FlatExpr::Whole(_) => Some(ValueKind::Whole),
        FlatExpr::Decimal(_) | FlatExpr::Time => Some(ValueKind::Real),
        FlatExpr::Str(_) => Some(ValueKind::Str),
        FlatExpr::Truth(_) => Some(ValueKind::Truth),
        FlatExpr::Literal(_) => Some(ValueKind::Enumeration),
        FlatExpr::Var(n, _) => kind_of_variable(vars, *n),
        FlatExpr::Der(inner) => real_where(is_numeric(kind_of(vars, inner.get()))),
        FlatExpr::Sum(terms) => kinds_of_signed(vars, terms.as_slice()).number(),
        FlatExpr::Product(factors) => {
            let kinds = kinds_of_signed(vars, factors.as_slice());
            product_kind(divides(factors.as_slice()), kinds)
        }
        FlatExpr::Power(base, exponent) => {
            let kinds = Kinds::none().with(kind_of(vars, base.get()));
            real_where(kinds.with(kind_of(vars, exponent.get())).numeric)
        }
        FlatExpr::Call(function, args) => call_kind(*function, kinds_of(vars, args.as_slice())),
        FlatExpr::Relation(_, left, right) => {
            compared(kind_of(vars, left.get()), kind_of(vars, right.get()))
        }
        FlatExpr::Not(inner) => truth_where(is_truth(kind_of(vars, inner.get()))),
        FlatExpr::All(parts) => truth_where(kinds_of(vars, parts.as_slice()).truth),
        FlatExpr::Any(parts) => truth_where(kinds_of(vars, parts.as_slice()).truth),
        FlatExpr::If(branches, other) => { kind_of_choice(vars, branches.as_slice(), other.get()) }
    }
}

#[cycle(kinds)]
fn kinds_of_signed(vars: &[FlatVar], terms: &[(bool, FlatExpr)]) -> Kinds
    ensures { AreSummed result (map (λ term. kind_of_flat vars.now term.1) terms.now) }
{
    let mut kinds = Kinds::none();
    for term in terms {
        kinds = kinds.with(kind_of(vars, &term.1));
    }
    kinds
}

#[cycle(kinds)]
fn kinds_of(vars: &[FlatVar], parts: &[FlatExpr]) -> Kinds
    ensures { AreSummed result (map (kind_of_flat vars.now) parts.now) }
{
    let mut kinds = Kinds::none();
    for part in parts {
        kinds = kinds.with(kind_of(vars, part));
    }
    kinds
}

/// The kind of an if-expression.
#[cycle(kinds)]
fn kind_of_choice(
    vars: &[FlatVar],
    branches: &[(FlatExpr, FlatExpr)],
    other: &FlatExpr,
) -> Option<ValueKind>
    ensures { option_map kind_seen result ≡ (if list_all (λ branch. is_truth_kind (kind_of_flat vars.now branch.0)) branches.now then common_kind (kind_of_flat vars.now other.now ∷ map (λ branch. kind_of_flat vars.now branch.1) branches.now) else None) }
{
    let mut kinds = Kinds::none().with(kind_of(vars, other));
    for branch in branches {
        if !is_truth(kind_of(vars, &branch.0)) {
            return None;
        }
        kinds = kinds.with(kind_of(vars, &branch.1));
    }
    kinds.common()
}
