//! Laws of the definitions alone: the contract of each function is the law, and its body is empty.

ghost use Rattle.std.specs.Prelude.{◌≡◌, ◌↔◌, ◌≤◌, ℕ, Contains, List, Option, None, Some};
ghost use Rattle.std.specs.List.{AllByRecursion};
ghost use Rattle.fault_system.specs.Systems.{System};
ghost use Rattle.fault_system.specs.CutSets.{IsMinimalCutSet, IsSubset};
ghost use Rattle.requirement_names.specs.declared.named.SetSentence.{SetSentence};
ghost use Rattle.requirement_names.specs.declared.named.SetSentence.TheVariants.{Mixed, Order};
ghost use Rattle.requirement_verdicts.specs.declared.verdict.Verdict.{Verdict};
ghost use Rattle.requirement_verdicts.specs.Meanings.{IsFresh, IsKept, IsMet};
ghost use Rattle.requirement_verdicts.specs.Verdicts.{IsForbidden, IsVerdict};

/// What is met stays met where less is required: of fewer events, where no exception is stale then; with more exceptions, none of which is
/// stale; of a smaller group; and of fewer events of a group.
pub fn grows()
    ensures fewer { (system : System) (target less least : ℕ) (except : List (List ℕ)) → less ≤ least → AllByRecursion (IsFresh system target less) except
        → IsMet system target (Order least except) → IsMet system target (Order less except) }
    ensures excepted { (system : System) (target least : ℕ) (except more : List (List ℕ)) → ((set : List ℕ) → Contains except set → Contains more set)
        → AllByRecursion (IsFresh system target least) more → IsMet system target (Order least except) → IsMet system target (Order least more) }
    ensures smaller { (system : System) (target : ℕ) (part group : List ℕ) (most : Option ℕ) → IsSubset part group → IsMet system target (Mixed group most) → IsMet system target (Mixed part most) }
    ensures shorter { (system : System) (target less most : ℕ) (group : List ℕ) → less ≤ most → IsMet system target (Mixed group (Some most)) → IsMet system target (Mixed group (Some less)) }
    ensures bounded { (system : System) (target most : ℕ) (group : List ℕ) → IsMet system target (Mixed group None) → IsMet system target (Mixed group (Some most)) }
{}

/// There is one verdict on a requirement.
pub fn one_verdict()
    ensures { (system : System) (target : ℕ) (sentence : SetSentence) (a b : Verdict) → IsVerdict system target sentence a → IsVerdict system target sentence b → a ≡ b }
{}

/// What a sentence says of all sets of events is so exactly where it forbids no minimal cut set.
pub fn kept_by_minimal_sets()
    ensures { (system : System) (target : ℕ) (sentence : SetSentence)
        → IsKept system target sentence ↔ ((set : List ℕ) → IsMinimalCutSet system target set → IsForbidden sentence set → ⊥) }
{}
