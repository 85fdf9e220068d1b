//! Laws of the definitions alone: the contract of each function is the law, and its body is empty.

ghost use Rattle.std.specs.Prelude.{◌≡◌, ◌↔◌, ℕ, List, Option, Contains};
ghost use Rattle.fault_system.specs.Systems.{System};
ghost use Rattle.fault_system.specs.Listings.{IsListing};
ghost use Rattle.listing_changes.specs.Changes.{TellsChanges, unmatched};
ghost use Rattle.listing_changes.specs.inner.Unequal.{HasNoEqual};

/// One text tells what changed.
pub fn one_text()
    ensures { (older newer : System) (older_target newer_target : ℕ) (most : Option ℕ) (a b : List ℕ)
        → TellsChanges older older_target newer newer_target most a → TellsChanges older older_target newer newer_target most b → a ≡ b }
{}

/// What is told of a listing are the minimal cut sets of the target that are equal, by the names of events, to none of the target of the
/// other system.
pub fn told_sets()
    ensures { (here there : System) (target other_target : ℕ) (most : Option ℕ) (sets others : List (List ℕ)) (set : List ℕ)
        → IsListing here target most sets → IsListing there other_target most others
        → (Contains (unmatched here there others sets) set ↔ HasNoEqual here target there other_target most set) }
{}
