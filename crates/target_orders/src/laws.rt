//! Laws of the definitions alone: the contract of each function is the law, and its body is empty.

ghost use Rattle.std.specs.Prelude.{◌≡◌, ℕ, List};
ghost use Rattle.fault_system.specs.Systems.{System};
ghost use Rattle.target_orders.specs.Orders.{IsOrder};
ghost use Rattle.target_orders.specs.Text.{TellsOrders};
ghost use Rattle.target_orders.specs.declared.order.Order.{Order};

/// One thing is said of a fact.
pub fn one_order()
    ensures { (system : System) (fact : ℕ) (a b : Order) → IsOrder system fact a → IsOrder system fact b → a ≡ b }
{}

/// There is one text of some facts.
pub fn one_text()
    ensures { (system : System) (facts a b : List ℕ) → TellsOrders system facts a → TellsOrders system facts b → a ≡ b }
{}
