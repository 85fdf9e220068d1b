//! Laws of the definitions alone: the contract of each function is the law, and its body is empty.

ghost use Rattle.std.specs.Prelude.{◌≡◌, ℕ, List, length};
ghost use Rattle.fault_system.specs.Systems.{System};
ghost use Rattle.system_review.specs.inner.Alone.{HoldTheSame, IsSaid, Joins};

/// Nothing is lost where each event and each fact that may come about of those that a system leaves out makes its fact hold by
/// itself: the same facts hold in the system that has them beside what the other one says.
pub fn nothing_is_lost()
    ensures { (system joined : System) (events_of facts_of : ℕ → List ℕ) → length system.facts ≡ length joined.facts
        → Joins system joined events_of facts_of → IsSaid system events_of facts_of → HoldTheSame system joined }
{}
