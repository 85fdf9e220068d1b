//! The minimal path sets of a target as a family, where no fact reaches itself.

ghost use Rattle.std.specs.Prelude.{◌<◌, ℕ, List as Items, Contains, IfErr, IfOk, IsTrue, length};
ghost use Rattle.plain_values.specs.inner.Stops.{StopsFor};
ghost use Rattle.backward_slice.specs.Slices.{HasLargeSlice};
ghost use Rattle.cutset_engine.specs.inner.Families.{HasMinimalCutSets};
ghost use Rattle.zdd_store.specs.inner.Family.{is_within};
ghost use Rattle.zdd_store.specs.inner.Store.{IsIn, Keeps, family_of};
ghost use Rattle.path_sets.specs.Duals.{dual_of};
ghost use Rattle.path_sets.specs.inner.Duals.{IsWithoutFeedback};
ghost use Rattle.path_sets.specs.inner.PathSets.{AreServedEvents, HasMinimalPathSets};

use crate::duals::dual;
use backward_slice::slice;
use cutset_engine::{Asked, family, in_slice};
use dependency_blocks::blocks;
use fault_system::FaultSystem;
use plain_values::{Answer, List};
use std::alloc::Global;
use zdd_store::{Id, Store};

/// Sets of events as a family of a store, and events among which they are, by their numbers, rising.
#[derive(Drop)]
pub struct PathFamily {
    pub family: Id,
    pub events: List<u32>,
}

/// The minimal path sets of a target, of at most so many events where a greatest order is given, and the events on which the
/// target depends in the dual. No fact may reach itself.
///
/// They are refused exactly where the slice of the dual is: where it has over 32,768 facts, and else over 1,024 events. Each
/// number of the store keeps its family, also where memory is refused.
pub fn paths(
    alloc: Global,
    system: &FaultSystem,
    target: u32,
    most: Option<u32>,
    store: &mut Store,
) -> Answer<PathFamily>
    requires target { target < length system.now.facts }
    requires free { IsWithoutFeedback system.now }
    ensures found { IfOk result (λ paths. IsIn store.new paths.family) }
    ensures exact { IfOk result (λ paths. HasMinimalPathSets system.now target most (family_of store.new paths.family)) }
    ensures among { IfOk result (λ paths. (set : Items ℕ) → Contains (family_of store.new paths.family) set → IsTrue (is_within set paths.events)) }
    ensures events { IfOk result (λ paths. AreServedEvents (dual_of system.now) target paths.events) }
    ensures refused { IfErr result (StopsFor (HasLargeSlice (dual_of system.now) target)) }
    ensures kept { Keeps store.old store.new }
{
    in_slice();
    store.laws();
    let _facts = system.facts();
    let dual = dual(alloc, system)?;
    cut_family(alloc, &dual, target, most, store)
}

/// The minimal cut sets of a target, and the events on which it depends.
fn cut_family(
    alloc: Global,
    system: &FaultSystem,
    target: u32,
    most: Option<u32>,
    store: &mut Store,
) -> Answer<PathFamily>
    requires { target < length system.now.facts }
    ensures found { IfOk result (λ cuts. IsIn store.new cuts.family) }
    ensures exact { IfOk result (λ cuts. HasMinimalCutSets system.now target most (family_of store.new cuts.family)) }
    ensures events { IfOk result (λ cuts. AreServedEvents system.now target cuts.events) }
    ensures refused { IfErr result (StopsFor (HasLargeSlice system.now target)) }
    ensures kept { Keeps store.old store.new }
{
    store.laws();
    let slice = slice(alloc, system, target)?;
    let blocks = blocks(alloc, system, &slice)?;
    let asked = Asked {
        system,
        slice: &slice,
        blocks: &blocks,
        most,
    };
    let family = family(alloc, &asked, store)?;
    Ok(PathFamily {
        family,
        events: slice.events,
    })
}
