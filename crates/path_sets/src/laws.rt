//! Laws of the definitions alone: the contract of each function is the law, and its body is empty.

ghost use Rattle.std.specs.Prelude.{◌≡◌, ◌↔◌, ◌<◌, ℕ, Bool, List, Option, None, Contains, length};
ghost use Rattle.plain_values.specs.declared.refusal.Refusal.{Refusal};
ghost use Rattle.fault_system.specs.Truth.{NumberSet, Has, set_of};
ghost use Rattle.fault_system.specs.Systems.{System, IsSystem, Holds};
ghost use Rattle.fault_system.specs.CutSets.{IsCutSet, IsEventSet, IsMinimalCutSet};
ghost use Rattle.fault_system.specs.Listings.{IsListing};
ghost use Rattle.round_gates.specs.Staged.{IsConstant};
ghost use Rattle.round_gates.specs.Targets.{IsTreeFor};
ghost use Rattle.round_gates.specs.declared.tree.Tree.{Tree};
ghost use Rattle.galileo_writer.specs.inner.TreeText.{HasTextNames};
ghost use Rattle.path_sets.specs.Duals.{dual_of};
ghost use Rattle.path_sets.specs.inner.Duals.{IsWithoutFeedback, outside};
ghost use Rattle.path_sets.specs.GateSystems.{gate_system_of};
ghost use Rattle.path_sets.specs.PathSets.{HasLargePaths, IsMinimalPathSet, IsPathListing, IsPathSet, Meets};
ghost use Rattle.path_sets.specs.inner.PathSets.{constant_paths};

/// In a system in which no fact reaches itself a fact holds in the dual under some events exactly where it does not hold in the
/// system under all other events.
pub fn dual_law()
    ensures { (system : System) (events : NumberSet) (n : ℕ) → IsSystem system → IsWithoutFeedback system → n < length system.facts
        → Holds (dual_of system) events n ↔ (Holds system (outside events) n → ⊥) }
{}

/// A set of events is a path set of a target exactly where the target does not hold under all other events.
pub fn absent_events()
    ensures { (system : System) (target : ℕ) (set : List ℕ) → IsSystem system
        → IsPathSet system target set ↔ (IsEventSet system set × (Holds system (outside (set_of set)) target → ⊥)) }
{}

/// A set of events is a path set of a target exactly where it has an event of each cut set of the target's listing.
pub fn listed_cuts()
    ensures { (system : System) (target : ℕ) (cuts : List (List ℕ)) (set : List ℕ) → IsListing system target None cuts
        → IsPathSet system target set ↔ (IsEventSet system set × ((cut : List ℕ) → Contains cuts cut → Meets set cut)) }
{}

/// Each event of a minimal path set is needed: some cut set has no other event of the path set.
pub fn needed_events()
    ensures { (system : System) (target : ℕ) (set : List ℕ) (event : ℕ) → IsSystem system → IsMinimalPathSet system target set → Has (set_of set) event
        → (cut : List ℕ) × IsCutSet system target cut × ((n : ℕ) → Has (set_of set) n → Has (set_of cut) n → n ≡ event) }
{}

/// In a system in which no fact reaches itself the minimal path sets of a target are the minimal cut sets of the dual, and so
/// the listings of the two are the same.
pub fn path_law()
    ensures sets { (system : System) (target : ℕ) (set : List ℕ) → IsSystem system → IsWithoutFeedback system → target < length system.facts
        → IsMinimalPathSet system target set ↔ IsMinimalCutSet (dual_of system) target set }
    ensures listing { (system : System) (target : ℕ) (most : Option ℕ) (sets : List (List ℕ)) → IsSystem system → IsWithoutFeedback system → target < length system.facts
        → IsPathListing system target most sets ↔ IsListing (dual_of system) target most sets }
{}

/// The gates of a target's tree have the target's minimal path sets, whatever facts feed each other; and so the target's path
/// listing is the listing of the dual of the gates.
pub fn gate_paths()
    ensures sets { (system : System) (target : ℕ) (tree : Tree) (set : List ℕ) → IsSystem system → IsTreeFor system target tree
        → IsMinimalPathSet (gate_system_of system tree) tree.top set ↔ IsMinimalPathSet system target set }
    ensures listing { (system : System) (target : ℕ) (tree : Tree) (most : Option ℕ) (sets : List (List ℕ)) → IsSystem system → HasTextNames system → IsTreeFor system target tree
        → IsPathListing system target most sets ↔ IsListing (dual_of (gate_system_of system tree)) tree.top most sets }
{}

/// A target that always holds has no path set, and one that never does has the empty set as its one minimal path set.
pub fn constant_listing()
    ensures { (system : System) (target : ℕ) (always : Bool) (most : Option ℕ) → IsConstant system target always
        → IsPathListing system target most (constant_paths always) }
{}

/// A target has one path listing.
pub fn one_path_listing()
    ensures { (system : System) (target : ℕ) (most : Option ℕ) (a b : List (List ℕ))
        → IsPathListing system target most a → IsPathListing system target most b → a ≡ b }
{}

/// The path sets of a target are refused in one way at most.
pub fn one_path_refusal()
    ensures { (system : System) (target : ℕ) (a b : Refusal) → IsSystem system
        → HasLargePaths system target a → HasLargePaths system target b → a ≡ b }
{}
