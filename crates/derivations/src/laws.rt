//! Laws of the definitions alone: the contract of each function is the law, and its body is empty.

ghost use Rattle.std.specs.Prelude.{◌≡◌, ◌<◌, ◌^◌, ℕ, List, length};
ghost use Rattle.fault_system.specs.Truth.{NumberSet};
ghost use Rattle.fault_system.specs.Systems.{System, Holds, IsSystem, NamesDiffer};
ghost use Rattle.derivations.specs.declared.derivation.Firing.{Firing};
ghost use Rattle.derivations.specs.Derived.{IsByRounds};
ghost use Rattle.derivations.specs.Text.{IsBadAt, IsTextOf, event_names, fact_names, lines_of};
ghost use Rattle.derivations.specs.inner.Text.{AreLineNames, IsConfirmed};

/// The text of the derivation by rounds of a target that holds is the text of a good derivation, and of no more steps than
/// it has bytes. So `read_steps` gives these steps, and `check_derivation` finds them good.
pub fn confirmed()
    ensures { (system : System) (target : ℕ) (events : NumberSet) (steps : List Firing) → IsSystem system
        → Holds system events target → IsByRounds system events target steps
        → IsConfirmed system target events (lines_of (fact_names system) (event_names system) 0 steps) steps }
{}

/// A target has one derivation by rounds at most.
pub fn one_derivation()
    ensures { (system : System) (target : ℕ) (events : NumberSet) (a b : List Firing)
        → IsByRounds system events target a → IsByRounds system events target b → a ≡ b }
{}

/// A text is that of the steps of one list, or has one first bad line, where names differ and can stand in a line.
pub fn one_reading()
    ensures steps { (facts names : List (List ℕ)) (events : NumberSet) → NamesDiffer facts → NamesDiffer names
        → AreLineNames facts → AreLineNames names → (bytes : List ℕ) → length bytes < 2 ^ 32 → (a b : List Firing)
        → IsTextOf facts names events bytes a → IsTextOf facts names events bytes b → a ≡ b }
    ensures apart { (facts names : List (List ℕ)) (events : NumberSet) → NamesDiffer facts → NamesDiffer names
        → AreLineNames facts → AreLineNames names → (bytes : List ℕ) → length bytes < 2 ^ 32 → (steps : List Firing) (at : ℕ)
        → IsTextOf facts names events bytes steps → IsBadAt facts names events bytes at → ⊥ }
    ensures bad { (facts names : List (List ℕ)) (events : NumberSet) → NamesDiffer facts → NamesDiffer names
        → AreLineNames facts → AreLineNames names → (bytes : List ℕ) → length bytes < 2 ^ 32 → (m n : ℕ)
        → IsBadAt facts names events bytes m → IsBadAt facts names events bytes n → m ≡ n }
{}
