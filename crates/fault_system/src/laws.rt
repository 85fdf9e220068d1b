//! Laws of the definitions alone: the contract of each function is the law, and its body is empty.

ghost use Rattle.std.specs.Prelude.{◌≡◌, ◌↔◌, ◌++◌, ◌∷◌, [], ℕ, Bool, List, Option, None, Some, Contains};
ghost use Rattle.fault_system.specs.Truth.{NumberSet, set_of};
ghost use Rattle.fault_system.specs.Systems.{System, Holds};
ghost use Rattle.fault_system.specs.Rounds.{AreRounds, no_event, only};
ghost use Rattle.fault_system.specs.inner.Rounds.{IsChanged, IsChecked, IsTable};
ghost use Rattle.fault_system.specs.CutSets.{IsEventSet, IsSubset};
ghost use Rattle.fault_system.specs.Listings.{IsInListingOrder, IsListing, IsWithinOrder};
ghost use Rattle.fault_system.specs.inner.Listings.{IsPage, listing};

/// The computed listing is a listing of the target.
pub fn computed_listing()
    ensures { (system : System) (target : ℕ) (most : Option ℕ)
        → IsListing system target most (listing system target most) }
{}

/// A target has one listing.
pub fn one_listing()
    ensures { (system : System) (target : ℕ) (most : Option ℕ) (a b : List (List ℕ))
        → IsListing system target most a → IsListing system target most b → a ≡ b }
{}

/// A listing covers the events under which its target holds: the target holds under a set of events, which has at
/// most as many events as a greatest order lets, exactly if a listed set is a subset of it.
pub fn cover()
    ensures { (system : System) (target : ℕ) (most : Option ℕ) (sets : List (List ℕ)) (events : List ℕ)
        → IsListing system target most sets → IsEventSet system events → IsWithinOrder most events
        → (Holds system (set_of events) target
        ↔ ((set : List ℕ) × Contains sets set × IsSubset set events)) }
{}

/// Pages join: a page that is not empty, followed by all that stands after its last set, is all that stands after
/// the set after which the page began.
pub fn join()
    ensures { (sets : List (List ℕ)) (after : Option (List ℕ)) (limit : Option ℕ) (front : List (List ℕ))
        (last : List ℕ) (rest all : List (List ℕ)) (more ended both : Bool) → IsInListingOrder sets
        → IsPage sets after limit (front ++ last ∷ []) more → IsPage sets (Some last) None rest ended
        → IsPage sets after None all both → (front ++ last ∷ []) ++ rest ≡ all }
{}

/// A table fits the formulas exactly if it is the table of the rounds.
pub fn table_of_rounds()
    ensures { (system : System) (events : NumberSet) (times : List ℕ)
        → IsTable system events times ↔ AreRounds system events times }
{}

/// A table under no event that is changed where an event reaches is the table under that event alone.
pub fn changed_table()
    ensures { (system : System) (event : ℕ) (old new : List ℕ) → IsTable system no_event old
        → IsChanged system event old new → IsTable system (only event) new }
{}

/// A table under no event whose changes were checked is the table under the event alone.
pub fn checked_table()
    ensures { (system : System) (event : ℕ) (old new changes : List ℕ) → IsTable system no_event old
        → IsChecked system event old new changes → IsTable system (only event) new }
{}
