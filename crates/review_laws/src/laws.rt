//! Laws of the definitions alone: the contract of each function is the law, and its body is empty.

ghost use Rattle.std.specs.Prelude.{ℕ};
ghost use Rattle.fault_system.specs.Truth.{Has, NumberSet};
ghost use Rattle.fault_system.specs.Systems.{System};
ghost use Rattle.model_facts.specs.Assembly.{Assembly};
ghost use Rattle.fact_formulas.specs.Flat.{system_of};
ghost use Rattle.system_review.specs.inner.Alone.{HoldTheSame};
ghost use Rattle.system_review.specs.inner.Possible.{IsPossible};
ghost use Rattle.model_review.specs.Seen.{seen_of};
ghost use Rattle.review_laws.specs.inner.Emptied.{IsEmptied};
ghost use Rattle.review_laws.specs.inner.Silent.{silent_facts};

/// Nothing comes of facts that never come about: where nothing makes them hold any more, the same facts hold under each set of events.
pub fn nothing_comes_of_silent_facts()
    ensures { (silent : NumberSet) (system emptied : System) → IsEmptied silent system emptied
        → ((n : ℕ) → Has silent n → IsPossible system n → ⊥) → HoldTheSame system emptied }
{}

/// Nothing comes of what a `dry` or a `never` line of a review names: where nothing makes these facts hold any more, the same facts hold
/// under each set of events.
pub fn nothing_comes_of_silent_lines()
    ensures { (assembly : Assembly) (emptied : System) → IsEmptied (silent_facts (seen_of assembly)) (system_of assembly) emptied
        → HoldTheSame (system_of assembly) emptied }
{}
