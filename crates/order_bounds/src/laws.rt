//! What the sets up to an order say of a target.

ghost use Rattle.std.specs.Prelude.{◌≡◌, ℕ, List, Some, true};
ghost use Rattle.fault_system.specs.Systems.{System};
ghost use Rattle.backward_slice.specs.Slices.{IsSlice};
ghost use Rattle.backward_slice.specs.declared.parts.Slice.{Slice};
ghost use Rattle.zdd_store.specs.inner.Family.{Family, covers};
ghost use Rattle.cutset_engine.specs.inner.Families.{HasMinimalCutSets};
ghost use Rattle.target_probabilities.specs.Probability.{holds_under};
ghost use Rattle.order_bounds.specs.inner.Orders.{covers_or_more};

/// A target holds under each set of events that contains one of its minimal cut sets of at most so many events; and each set under which
/// it holds contains one of them, or has more of the events on which it depends.
pub fn small_or_many()
    ensures holds { (system : System) (target most : ℕ) (family : Family) → HasMinimalCutSets system target (Some most) family
        → (set : List ℕ) → covers family set ≡ true → holds_under system target set ≡ true }
    ensures all { (system : System) (target most : ℕ) (slice : Slice) (family : Family) → IsSlice system target slice → HasMinimalCutSets system target (Some most) family
        → (set : List ℕ) → holds_under system target set ≡ true → covers_or_more family most slice.events set ≡ true }
{}
