//! A law of the definitions alone: the contract of the function is the law, and its body is empty.

ghost use Rattle.std.specs.Prelude.{ℕ, List, IsTrue};
ghost use Rattle.fault_system.specs.Systems.{System};
ghost use Rattle.fault_system.specs.CutSets.{IsMinimalCutSet};
ghost use Rattle.backward_slice.specs.Slices.{IsSlice};
ghost use Rattle.backward_slice.specs.declared.parts.Slice.{Slice};
ghost use Rattle.zdd_store.specs.inner.Family.{is_within};

/// A minimal cut set has events of the target's slice alone.
pub fn in_slice()
    ensures { (system : System) (target : ℕ) (slice : Slice) (set : List ℕ) → IsSlice system target slice → IsMinimalCutSet system target set → IsTrue (is_within set slice.events) }
{}
