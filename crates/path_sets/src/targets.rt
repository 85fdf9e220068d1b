//! The minimal path sets of a target whose facts may feed each other.

ghost use Rattle.std.specs.Prelude.{◌≡◌, ℕ, List as Items, [], Contains, IfErr, IfOk, IsTrue, OnOk};
ghost use Rattle.plain_values.specs.Order.{IsClear};
ghost use Rattle.plain_values.specs.inner.Stops.{StopsFor};
ghost use Rattle.backward_slice.specs.Slices.{HasLargeSlice, IsSlice};
ghost use Rattle.round_gates.specs.inner.Targets.{IsWellMade};
ghost use Rattle.galileo_writer.specs.inner.TreeText.{HasTextNames};
ghost use Rattle.zdd_store.specs.inner.Family.{is_within};
ghost use Rattle.zdd_store.specs.inner.Store.{IsIn, Keeps, family_of};
ghost use Rattle.path_sets.specs.Duals.{dual_of};
ghost use Rattle.path_sets.specs.GateSystems.{gate_system_of};
ghost use Rattle.path_sets.specs.PathSets.{HasLargePaths};
ghost use Rattle.path_sets.specs.inner.PathSets.{AreServedEvents, HasMinimalPathSets, constant_paths};

use crate::families::{PathFamily, paths};
use crate::gate_systems::gate_system;
use backward_slice::Slice;
use dependency_blocks::blocks;
use fault_system::FaultSystem;
use plain_values::{Answer, List, Stop};
use round_gates::{GateAnswer, Tree, staged};
use std::alloc::Global;
use zdd_store::{Id, Store};

/// The minimal path sets of the target of a slice, of at most so many events where a greatest order is given, also where facts
/// feed each other: those of the gates of its tree. A target that always holds has none, and one that never does the empty set
/// alone.
///
/// They are refused exactly where the target's tree is, or else where the slice of the dual of its gates is. Each number of the
/// store keeps its family, also where memory is refused.
pub fn target_paths(
    alloc: Global,
    system: &FaultSystem,
    slice: &Slice,
    most: Option<u32>,
    store: &mut Store,
) -> Answer<PathFamily>
    requires slice { IsSlice system.now slice.now.target slice.now }
    requires names { HasTextNames system.now }
    ensures found { IfOk result (λ paths. IsIn store.new paths.family) }
    ensures exact { IfOk result (λ paths. HasMinimalPathSets system.now slice.now.target most (family_of store.new paths.family)) }
    ensures among { IfOk result (λ paths. (set : Items ℕ) → Contains (family_of store.new paths.family) set → IsTrue (is_within set paths.events)) }
    ensures clear { OnOk result (IsClear (HasLargePaths system.now slice.now.target)) }
    ensures refused { IfErr result (StopsFor (HasLargePaths system.now slice.now.target)) }
    ensures kept { Keeps store.old store.new }
{
    store.laws();
    let _facts = system.facts();
    let blocks = blocks(alloc, system, slice)?;
    match staged(alloc, system, slice, &blocks) {
        Ok(tree) => tree_paths(alloc, system, &tree, most, store),
        Err(GateAnswer::Constant(always)) => Ok(constant_family(alloc, store, always)),
        Err(GateAnswer::Refused(refusal)) => Err(Stop::Refused(refusal)),
        Err(GateAnswer::Memory) => Err(Stop::Memory),
    }
}

/// The minimal path sets of the top of a tree's gates.
fn tree_paths(
    alloc: Global,
    system: &FaultSystem,
    tree: &Tree,
    most: Option<u32>,
    store: &mut Store,
) -> Answer<PathFamily>
    requires made { IsWellMade system.now tree.now }
    requires names { HasTextNames system.now }
    ensures found { IfOk result (λ paths. IsIn store.new paths.family) }
    ensures exact { IfOk result (λ paths. HasMinimalPathSets (gate_system_of system.now tree.now) tree.now.top most (family_of store.new paths.family)) }
    ensures among { IfOk result (λ paths. (set : Items ℕ) → Contains (family_of store.new paths.family) set → IsTrue (is_within set paths.events)) }
    ensures events { IfOk result (λ paths. AreServedEvents (dual_of (gate_system_of system.now tree.now)) tree.now.top paths.events) }
    ensures refused { IfErr result (StopsFor (HasLargeSlice (dual_of (gate_system_of system.now tree.now)) tree.now.top)) }
    ensures kept { Keeps store.old store.new }
{
    store.laws();
    let gates = gate_system(alloc, system, tree)?;
    paths(alloc, &gates, tree.top, most, store)
}

/// The minimal path sets of a constant target.
fn constant_family(alloc: Global, store: &Store, always: bool) -> PathFamily
    ensures found { IsIn store.now result.family }
    ensures sets { family_of store.now result.family ≡ constant_paths always }
    ensures none { result.events ≡ [] }
{
    store.laws();
    let events = List::new(alloc);
    if always {
        return PathFamily {
            family: Id::EMPTY,
            events,
        };
    }
    PathFamily {
        family: Id::UNIT,
        events,
    }
}
