//! The minimal cut sets of a target: as a family, and as a listing about to be gone through.

ghost use Rattle.std.specs.Prelude.{◌≡◌, IfOk};
ghost use Rattle.listing_changes.specs.inner.Sides.{AreCuts, IsSide};

use crate::side::Side;
use cutset_engine::{Asked, family, in_slice};
use cutset_lister::Listing;
use dependency_blocks::blocks;
use fault_system::FaultSystem;
use plain_values::Mem;
use std::alloc::Global;
use zdd_store::{Id, Store};

/// The minimal cut sets of a target.
#[derive(Drop)]
pub(crate) struct Cuts<'a> {
    /// The system.
    pub(crate) system: &'a FaultSystem,
    /// The store of the sets.
    pub(crate) store: Store,
    /// All sets.
    pub(crate) sets: Id,
    /// Those that are left to go through.
    pub(crate) listing: Listing,
}

/// The minimal cut sets of a target, of at most so many events where a greatest order is given, at the beginning of their listing.
pub(crate) fn cuts_of<'a>(alloc: Global, side: &Side<'a>, max_order: Option<u32>) -> Mem<Cuts<'a>>
    requires { IsSide side.now }
    ensures system { IfOk result (λ cuts. cuts.system.now ≡ side.now.system.now) }
    ensures cuts { IfOk result (AreCuts side.now.system.now side.now.part.now.target max_order) }
{
    in_slice();
    let mut store = Store::new(alloc);
    let found = blocks(alloc, side.system, side.part)?;
    let asked = Asked {
        system: side.system,
        slice: side.part,
        blocks: &found,
        most: max_order,
    };
    let sets = family(alloc, &asked, &mut store)?;
    let listing = Listing::start(alloc, &mut store, sets, side.part.events.items())?;
    Ok(Cuts {
        system: side.system,
        store,
        sets,
        listing,
    })
}
