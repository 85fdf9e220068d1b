//! A listing, with what is counted of its sets.

ghost use Rattle.std.specs.Prelude.{◌≡◌, ◌↔◌, ℕ, List as Items, Contains, IfOk, IfSome, IsTrue, Some};
ghost use Rattle.fault_system.specs.Listings.{IsInListingOrder};
ghost use Rattle.zdd_store.specs.inner.Family.{is_within};
ghost use Rattle.zdd_store.specs.inner.Store.{IsIn, Keeps, family_of};
ghost use Rattle.cutset_lister.specs.inner.Walks.{IsStarted, all_sets, sets_left};
ghost use Rattle.fta_outside.specs.Counts.{AreCountsOf, HaveWidth};

use crate::diagram::count_family;
use cutset_lister::Listing;
use fta_outside::FamilyCounts;
use plain_values::Mem;
use std::alloc::Global;
use zdd_store::{Id, Store};

/// A listing at its beginning, and what is counted of its sets, if it was.
#[derive(Drop)]
pub struct CountedListing {
    pub listing: Listing,
    pub counts: Option<FamilyCounts>,
}

/// What is counted of a family, if it is to be.
fn counts_if(
    alloc: Global,
    store: &mut Store,
    family: Id,
    events: u32,
    counted: bool,
) -> Option<FamilyCounts>
    requires { IsIn store.old family }
    ensures counts { IfSome result (λ counts. AreCountsOf counts (family_of store.old family)) }
    ensures width { IfSome result (HaveWidth (Some events)) }
    ensures kept { Keeps store.old store.new }
{
    if counted {
        count_family(alloc, store, family, events)
    } else {
        None
    }
}

/// The listing of a family whose numbers are among these, and what is counted of its sets, if it is to be and there is memory for it.
pub fn counted_listing(
    alloc: Global,
    store: &mut Store,
    family: Id,
    among: &[u32],
    events: u32,
    counted: bool,
) -> Mem<CountedListing>
    requires found { IsIn store.old family }
    requires among { (set : Items ℕ) → Contains (family_of store.old family) set → IsTrue (is_within set among.now) }
    ensures started { IfOk result (λ made. IsStarted store.new made.listing) }
    ensures ordered { IfOk result (λ made. IsInListingOrder (all_sets store.new made.listing)) }
    ensures sets { IfOk result (λ made. (set : Items ℕ) → Contains (all_sets store.new made.listing) set ↔ Contains (family_of store.old family) set) }
    ensures left { IfOk result (λ made. sets_left store.new made.listing ≡ all_sets store.new made.listing) }
    ensures counts { IfOk result (λ made. IfSome made.counts (λ counts. AreCountsOf counts (sets_left store.new made.listing))) }
    ensures width { IfOk result (λ made. IfSome made.counts (HaveWidth (Some events))) }
    ensures kept { Keeps store.old store.new }
{
    store.laws();
    let counts = counts_if(alloc, store, family, events, counted);
    let listing = Listing::start(alloc, store, family, among)?;
    Ok(CountedListing { listing, counts })
}
