//! The laws of the order of values.
ghost use Rattle.std.specs.Prelude.{◌≡◌, ◌↔◌};
ghost use Rattle.std.specs.Cmp.{IsTotalOrder};
ghost use Rattle.std.specs.declared.cmp.Ordering.TheVariants.{Equal};
ghost use Rattle.ap_term.specs.Value.{Value};
ghost use Rattle.ap_term.specs.Order.{value_cmp};

/// The order of `Terms::compare` is total, and tells any two values apart. The call does nothing; its contract is the law.
pub fn order_is_total()
    ensures total { IsTotalOrder value_cmp }
    ensures exact { (v w : Value) → (value_cmp v w ≡ Equal) ↔ (v ≡ w) }
{}
