//! The sets of which a page is made: the first ones of a listing, where these are more than the page has, or all of them.
//!
//! A page with a limit needs the smallest sets alone, and these may be found at once where all sets are never found. Which are tried, in
//! which order and how long, decides how long it takes, and not what is found.

ghost use Rattle.std.specs.Prelude.{◌≡◌, ◌<◌, ℕ, List as Items, Contains, IfOk, IfSome, IsTrue, Option as Maybe, Some, length, suc};
ghost use Rattle.fault_system.specs.Listings.{IsWithinOrder, sets_after};
ghost use Rattle.cutset_engine.specs.inner.Families.{IsAskedOfSlice};
ghost use Rattle.zdd_store.specs.inner.Family.{is_within};
ghost use Rattle.zdd_store.specs.inner.Store.{IsIn, Keeps, family_of};
ghost use Rattle.cutset_lister.specs.inner.Walks.{IsStarted, all_sets, sets_left};
ghost use Rattle.cutset_writer.specs.inner.Pages.{Lists};
ghost use Rattle.system_answers.specs.inner.Fronts.{ServesAsked};

use cutset_engine::{Asked, Unfound, family, family_in_rounds, in_slice};
use cutset_lister::Listing;
use fta_outside::Steps;
use plain_values::{List, Mem};
use std::alloc::Global;
use std::marker::Brand;
use std::sync::ledger::{Blank, Ledger};
use zdd_store::{Id, Store};

/// How many rounds there are before all sets are asked for, however long it takes.
const ROUNDS: u32 = 3;

/// More orders than are tried below 1,024 events.
const ORDERS: u32 = 64;

/// Which sets of a listing a page with a limit has.
#[derive(Clone, Copy)]
struct Window<'a> {
    /// The set behind which the page begins; none where it begins before all sets.
    start: &'a Option<List<u32>>,
    /// How many sets it has at most.
    limit: u32,
}

/// A family of minimal cut sets, whose page is that of all those that are asked for. Each number of the store keeps its family, also
/// where memory is refused.
///
/// Where a limit is given, all sets are asked for in a few rounds, then those of small orders in a few rounds, and so on.
pub(crate) fn page_family(
    alloc: Global,
    asked: &Asked<'_>,
    start: &Option<List<u32>>,
    limit: Option<u32>,
    store: &mut Store,
) -> Mem<Id>
    requires { IsAskedOfSlice asked.now }
    ensures found { IfOk result (IsIn store.new) }
    ensures serves { IfOk result (λ id. ServesAsked asked.now start.now limit (family_of store.new id)) }
    ensures kept { Keeps store.old store.new }
{
    match limit {
        Some(limit) => {
            let window = Window { start, limit };
            limited_family(alloc, asked, &window, store)
        }
        None => whole_family(alloc, asked, store),
    }
}

/// The same, where a limit is given.
fn limited_family(
    alloc: Global,
    asked: &Asked<'_>,
    window: &Window<'_>,
    store: &mut Store,
) -> Mem<Id>
    requires { IsAskedOfSlice asked.now }
    ensures found { IfOk result (IsIn store.new) }
    ensures serves { IfOk result (λ id. ServesAsked asked.now window.now.start.now (Some window.now.limit) (family_of store.new id)) }
    ensures kept { Keeps store.old store.new }
{
    for round in 0..ROUNDS {
        if let Ok(id) = tried_family(alloc, asked, round + 2, store) {
            return Ok(id);
        }
        if let Ok(Some(id)) = front_family(alloc, asked, window, round + 1, store) {
            return Ok(id);
        }
    }
    whole_family(alloc, asked, store)
}

/// All minimal cut sets that are asked for, however long it takes.
fn whole_family(alloc: Global, asked: &Asked<'_>, store: &mut Store) -> Mem<Id>
    requires { IsAskedOfSlice asked.now }
    ensures found { IfOk result (IsIn store.new) }
    ensures serves { IfOk result (λ id. (start : Maybe (Items ℕ)) (limit : Maybe ℕ) → ServesAsked asked.now start limit (family_of store.new id)) }
    ensures kept { Keeps store.old store.new }
{
    family(alloc, asked, store)
}

/// The same, given up after so many rounds.
fn tried_family(
    alloc: Global,
    asked: &Asked<'_>,
    rounds: u32,
    store: &mut Store,
) -> Result<Id, Unfound>
    requires { IsAskedOfSlice asked.now }
    ensures found { IfOk result (IsIn store.new) }
    ensures serves { IfOk result (λ id. (start : Maybe (Items ℕ)) (limit : Maybe ℕ) → ServesAsked asked.now start limit (family_of store.new id)) }
    ensures kept { Keeps store.old store.new }
{
    family_in_rounds(alloc, asked, rounds, store)
}

/// The minimal cut sets of a small order, of which more than the limit stand behind the start of the page; none where there is no such
/// order. An order is given up after so many rounds.
fn front_family(
    alloc: Global,
    asked: &Asked<'_>,
    window: &Window<'_>,
    rounds: u32,
    store: &mut Store,
) -> Result<Option<Id>, Unfound>
    requires { IsAskedOfSlice asked.now }
    ensures found { IfOk result (λ answer. IfSome answer (IsIn store.new)) }
    ensures serves { IfOk result (λ answer. IfSome answer (λ id. ServesAsked asked.now window.now.start.now (Some window.now.limit) (family_of store.new id))) }
    ensures kept { Keeps store.old store.new }
{
    let mut order = first_order(window.start);
    for turn in 0..ORDERS {
        if !is_smaller(order, asked.most) || order as usize >= asked.slice.events.items().len() {
            return Ok(None);
        }
        if let Some(id) = front_of_order(alloc, asked, window, order, rounds, store)? {
            return Ok(Some(id));
        }
        order = next_order(order);
    }
    Ok(None)
}

/// The first order that is tried: no smaller set stands behind the start of a page.
fn first_order(start: &Option<List<u32>>) -> u32 {
    match start {
        Some(set) => set.len_u32().max(1),
        None => 1,
    }
}

/// The order that is tried next: a quarter more.
fn next_order(order: u32) -> u32 {
    order.saturating_add((order / 4).max(1))
}

/// Whether an order is smaller than the greatest one.
fn is_smaller(order: u32, most: Option<u32>) -> bool
    ensures { IsTrue result → (set : Items ℕ) → IsWithinOrder (Some order) set → IsWithinOrder most set }
{
    match most {
        Some(most) => order < most,
        None => true,
    }
}

/// The minimal cut sets of at most so many events, if more than the limit of them stand behind the start of the page.
fn front_of_order(
    alloc: Global,
    asked: &Asked<'_>,
    window: &Window<'_>,
    order: u32,
    rounds: u32,
    store: &mut Store,
) -> Result<Option<Id>, Unfound>
    requires slice { IsAskedOfSlice asked.now }
    requires allowed { (set : Items ℕ) → IsWithinOrder (Some order) set → IsWithinOrder asked.now.most set }
    ensures found { IfOk result (λ answer. IfSome answer (IsIn store.new)) }
    ensures serves { IfOk result (λ answer. IfSome answer (λ id. ServesAsked asked.now window.now.start.now (Some window.now.limit) (family_of store.new id))) }
    ensures kept { Keeps store.old store.new }
{
    in_slice();
    let small = Asked {
        system: asked.system,
        slice: asked.slice,
        blocks: asked.blocks,
        most: Some(order),
    };
    let id = family_in_rounds(alloc, &small, rounds, store)?;
    if has_more_sets(alloc, store, id, asked.slice.events.items(), window)? {
        return Ok(Some(id));
    }
    Ok(None)
}

/// Whether more sets of a family stand behind the start of a page than it has.
fn has_more_sets(
    alloc: Global,
    store: &mut Store,
    family: Id,
    events: &[u32],
    window: &Window<'_>,
) -> Mem<bool>
    requires found { IsIn store.old family }
    requires among { (set : Items ℕ) → Contains (family_of store.old family) set → IsTrue (is_within set events.now) }
    ensures more { IfOk result (λ more. IsTrue more → (sets : Items (Items ℕ)) → Lists (family_of store.old family) sets → window.now.limit < length (sets_after window.now.start.now sets)) }
    ensures kept { Keeps store.old store.new }
{
    let mut listing = Listing::start(alloc, store, family, events)?;
    Ok(has_more_behind::<Brand>(&mut listing, store, window, Blank::new(1)))
}

/// Whether more sets of a listing stand behind the start of a page than it has. Its steps are counted on a ledger of its own.
fn has_more_behind<L: Ledger>(
    listing: &mut Listing,
    store: &Store,
    window: &Window<'_>,
    blank: Blank,
) -> bool
    requires name { blank.name ≡ L.name }
    requires parts { blank.parts ≡ L.parts }
    requires some { 0 < L.parts }
    requires started { IsStarted store.now listing.old }
    requires left { sets_left store.now listing.old ≡ all_sets store.now listing.old }
    ensures { IsTrue result → window.now.limit < length (sets_after window.now.start.now (all_sets store.now listing.old)) }
{
    let mut steps = Steps::<L>::new(blank);
    match window.start {
        Some(set) => {
            listing.seek(store, set.items(), &mut steps);
            has_more_left(listing, store, window.limit, &mut steps)
        }
        None => has_more_left(listing, store, window.limit, &mut steps),
    }
}

/// Whether a listing has more sets left than so many.
fn has_more_left<L: Ledger>(
    listing: &mut Listing,
    store: &Store,
    limit: u32,
    steps: &mut Steps<L>,
) -> bool
    requires { IsStarted store.now listing.old }
    ensures { IsTrue result → limit < length (sets_left store.now listing.old) }
{
    for passed in 0..limit {
        if !pass_one(listing, store, steps) {
            return false;
        }
    }
    pass_one(listing, store, steps)
}

/// Passes the next set of a listing; whether there is one.
fn pass_one<L: Ledger>(listing: &mut Listing, store: &Store, steps: &mut Steps<L>) -> bool
    requires { IsStarted store.now listing.old }
    ensures started { IsStarted store.now listing.new }
    ensures one { IsTrue result → length (sets_left store.now listing.old) ≡ suc (length (sets_left store.now listing.new)) }
{
    match listing.next(store, steps) {
        Some(_) => true,
        None => false,
    }
}
