ghost use Rattle.std.specs.Prelude.{◌≡◌, ◌+◌, ◌*◌, ◌≤◌, ◌↔◌, ◌∷◌, [], ℕ, List as Items, Contains, length, drop, filter, IfOk, IsTrue, MatchBool, MatchOption};
ghost use Rattle.std.specs.Borrow.{sem};
ghost use Rattle.fault_system.specs.Listings.{IsInListingOrder, is_before};
ghost use Rattle.zdd_store.specs.inner.Family.{Family, is_within};
ghost use Rattle.zdd_store.specs.inner.Store.{Families, IsIn, IsSound, Keeps, family_of};

use crate::moves::{descend, go_back, skip};
use crate::parts::{next_part, part_of_size, parts_by_size};
use crate::path::Path;
use fta_outside::Steps;
use plain_values::Mem;
use std::alloc::{AllocError, Global};
use std::marker::Model;
use std::sync::ledger::Ledger;
use zdd_store::{Id, Store};

/// The sets of a family in listing order, one after another: fewer numbers first, and then by the first number that differs.
///
/// All memory is taken by `start`. Contracts see a listing by all its sets and by those that are left, which they read from the
/// store: that of `start`, perhaps grown.
#[derive(Drop)]
pub struct Listing {
    parts: Vec<Id>,
    begun: usize,
    path: Path,
    rest: Id,
}

impl Model for Listing {
    ghost use Rattle.cutset_lister.specs.inner.Walks.{Walk};

    ghost Value = { Walk };

    ghost view = { λ l. record { parts = l.parts.items; begun = l.begun; path = l.path; rest = l.rest } };
}

impl Listing {
    ghost use Rattle.cutset_lister.specs.inner.Trails.{numbers};
    ghost use Rattle.cutset_lister.specs.inner.Walks.{all_sets, event_count, sets_left, IsSameListing, IsStarted};
    ghost use Rattle.cutset_lister.specs.inner.Lending.{EndsAfter};

    /// The listing of a family whose numbers are among these events, at its beginning.
    ///
    /// It takes all memory of the listing, and more than 4,294,967,294 events are a refused growth of memory. Each number of
    /// the store keeps its family, also where memory is refused.
    pub fn start(alloc: Global, store: &mut Store, family: Id, events: &[u32]) -> Mem<Listing>
        requires found { IsIn store.old family }
        requires among { (set : Items ℕ) → Contains (family_of store.old family) set → IsTrue (is_within set events.now) }
        ensures started { IfOk result (IsStarted store.new) }
        ensures ordered { IfOk result (λ listing. IsInListingOrder (all_sets store.new listing)) }
        ensures sets { IfOk result (λ listing. (set : Items ℕ) → Contains (all_sets store.new listing) set ↔ Contains (family_of store.old family) set) }
        ensures left { IfOk result (λ listing. sets_left store.new listing ≡ all_sets store.new listing) }
        ensures events { IfOk result (λ listing. event_count listing ≡ length events.now) }
        ensures kept { Keeps store.old store.new }
    {
        store.laws();
        if events.len() >= 4_294_967_295 {
            return Err(AllocError);
        }
        let parts = parts_by_size(alloc, store, family, events.len() as u32)?;
        let path = Path::new(alloc, events.len())?;
        store.laws();
        Ok(Listing {
            parts,
            begun: 0,
            path,
            rest: Id::EMPTY,
        })
    }

    /// The next set; none exactly at the end, also when it is asked again. It takes no memory, and at most two look-ups of nodes
    /// for each event and two more.
    pub fn next<L: Ledger>(&mut self, store: &Store, steps: &mut Steps<L>) -> Option<&[u32]>
        requires { IsStarted store.now self.old }
        ensures* after { sem 𝓛 (EndsAfter store.now self.entry result) }
        ensures set { MatchOption result (sets_left store.now self.old ≡ []) (λ set. (later : Family) × (sets_left store.now self.old ≡ set.now ∷ later)) }
        ensures steps { steps.new ≤ steps.old + 2 * (event_count self.old + 1) }
    {
        if self.advance(store, steps) {
            Some(self.path.numbers())
        } else {
            None
        }
    }

    /// Goes to the first set that stands later than `after`, which need not be one of the listing: what is left is all that
    /// `after` is before. It takes no memory, and at most two look-ups of nodes for each event and two more.
    pub fn seek<L: Ledger>(&mut self, store: &Store, after: &[u32], steps: &mut Steps<L>)
        requires { IsStarted store.now self.old }
        ensures left { sets_left store.now self.new ≡ filter (is_before after.now) (all_sets store.now self.old) }
        ensures same { IsSameListing store.now self.old self.new }
        ensures steps { steps.new ≤ steps.old + 2 * (event_count self.old + 1) }
    {
        store.laws();
        self.path.clear();
        self.begun = after.len() + 1;
        let family = part_of_size(self.parts.as_slice(), after.len());
        self.rest = skip(&mut self.path, store, family, after, steps);
    }

    // Goes to the next set, whose numbers are those of the path then; whether there is one.
    fn advance<L: Ledger>(&mut self, store: &Store, steps: &mut Steps<L>) -> bool
        requires { IsStarted store.now self.old }
        ensures same { IsSameListing store.now self.old self.new }
        ensures left { MatchBool result (sets_left store.now self.old ≡ numbers self.new.path.frames ∷ sets_left store.now self.new)
            ((sets_left store.now self.old ≡ []) × (sets_left store.now self.new ≡ [])) }
        ensures steps { steps.new ≤ steps.old + event_count self.old + 1 }
    {
        store.laws();
        let family = self.first_family();
        if family == Id::EMPTY {
            return false;
        }
        descend(&mut self.path, store, family, steps);
        self.rest = Id::EMPTY;
        true
    }

    // Goes to the first family of what is left that has a set; EMPTY where none is left.
    fn first_family(&mut self) -> Id
        ensures rest { self.new.rest ≡ result }
        ensures same { (store : Families) → IsSound store → IsStarted store self.old → IsSameListing store self.old self.new }
        ensures left { (store : Families) → IsSound store → sets_left store self.new ≡ sets_left store self.old }
        ensures end { result.position ≡ 0 → (self.new.path.frames ≡ []) × (drop self.new.begun self.new.parts ≡ []) }
    {
        let family = go_back(&mut self.path, self.rest);
        if family != Id::EMPTY {
            self.rest = family;
            return family;
        }
        let (begun, family) = next_part(self.parts.as_slice(), self.begun);
        self.begun = begun;
        self.rest = family;
        family
    }
}
