//! What is found of one requirement after another.

ghost use Rattle.std.specs.Prelude.{◌≡◌, [], true};
ghost use Rattle.fault_system.specs.Systems.{System};
ghost use Rattle.zdd_store.specs.inner.Store.{no_nodes};
ghost use Rattle.requirement_lines.specs.inner.Found.{IsFoundFor};

use forbidden_sets::FoundFamily;
use plain_values::List;
use std::alloc::Global;
use zdd_store::Store;

/// So many families are kept at most.
const MOST_FAMILIES: usize = 256;

/// So many answers are remembered at most, before all is forgotten: each may have made a node.
const MOST_ANSWERS: u64 = 33_554_432;

/// The families of minimal cut sets that were found, of whichever target.
#[derive(Drop)]
pub(crate) struct Found {
    pub families: List<FoundFamily>,
    pub store: Store,
}

impl Found {
    /// Nothing was found yet.
    pub(crate) fn new(alloc: Global) -> Found
        ensures { result ≡ record { families = []; store = no_nodes } }
    {
        Found {
            families: List::new(alloc),
            store: Store::new(alloc),
        }
    }

    /// Whether it takes much room.
    fn is_full(&self) -> bool {
        let left = self.store.answers_left();
        self.families.items().len() >= MOST_FAMILIES || left < u64::MAX - MOST_ANSWERS
    }
}

/// Forgets what was found, where it takes much room.
pub(crate) fn forget_if_full(alloc: Global, found: &mut Found)
    ensures { (system : System) → IsFoundFor system found.old → IsFoundFor system found.new }
{
    if found.is_full() {
        *found = Found::new(alloc);
    }
}
