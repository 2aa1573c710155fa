//! The laws of derivatives: their values, orders and given variables. Each function does nothing: its contract is the law.
ghost use Rattle.std.specs.Prelude.{◌≡◌, ℕ, List as Seq};
ghost use Rattle.mo_flat.specs.declared.expr.FlatExpr.{FlatExpr as Tree};
ghost use Rattle.mo_flat.specs.declared.model.FlatVar.{FlatVar as Variable};
ghost use Rattle.mo_symdiff.specs.Carried.{carried, carries};
ghost use Rattle.mo_symdiff.specs.Derivative.{derived};
ghost use Rattle.mo_symdiff.specs.Dual.{Interpretation, constant_in, dual_in, slope_in, value_in};
ghost use Rattle.mo_symdiff.specs.Orders.{HasFitOrders, HasRaisedOrder, IsRaised, IsUnknown, is_apart};
ghost use Rattle.mo_symdiff.specs.Still.{has_given, is_still};

/// An unknown stands in the derivative of an expression exactly where it stands in the expression, at an order one higher,
/// whatever the expression's kind, as long as its orders fit, as those of a sound one do.
pub fn derivative_raises_orders()
    ensures { (vars : Seq Variable) (e : Tree) (v : ℕ) → IsUnknown vars v → HasFitOrders e → IsRaised vars e v }
{}

/// The order of an unknown in an expression whose derivatives are carried out is its highest order there with the number
/// of derivatives around it, so it is found without carrying them out.
pub fn orders_without_carrying_out()
    ensures { (vars : Seq Variable) (e : Tree) (v : ℕ) → IsUnknown vars v → HasFitOrders e → HasRaisedOrder vars e v }
{}

/// A derivative, and an expression whose derivatives are carried out, hold a given variable exactly where the expression
/// does.
pub fn given_variables_stay()
    ensures derivative { (vars : Seq Variable) (e : Tree) → has_given vars (derived vars e) ≡ has_given vars e }
    ensures carried { (vars : Seq Variable) (e : Tree) → has_given vars (carried vars e) ≡ has_given vars e }
{}

/// Derivatives can be carried out exactly where no given variable stands under one of them, conditions between them left
/// aside.
pub fn carried_out_without_given()
    ensures { (vars : Seq Variable) (e : Tree) → carries vars e ≡ is_apart vars e }
{}

/// Whatever whole numbers an interpretation gives to the time, to each order of each variable, to literals, and to applications
/// of functions, powers and reciprocals: the value of the derivative of an expression, in which no derivative is left to carry
/// out, is the first-order part of its dual number. That has the value of the expression, and is constant exactly where the
/// expression is still.
pub fn derivative_is_first_order_part()
    ensures part { (I : Interpretation) (vars : Seq Variable) (e : Tree) → slope_in I vars e ≡ (dual_in I vars e).part }
    ensures value { (I : Interpretation) (vars : Seq Variable) (e : Tree) → (dual_in I vars e).value ≡ value_in I e }
    ensures constant { (I : Interpretation) (vars : Seq Variable) (e : Tree) → constant_in I vars e ≡ is_still vars e }
{}
