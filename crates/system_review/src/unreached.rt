//! The events that have no effect.

ghost use Rattle.std.specs.Prelude.{◌<◌, All, IfOk, length};
ghost use Rattle.system_review.specs.Listed.{AreAll};
ghost use Rattle.system_review.specs.Occurring.{IsUnreachedEvent, IsUnusedEvent};

use crate::listing::{Everything, missing};
use crate::occurring::used_events;
use backward_slice::reach;
use fault_system::FaultSystem;
use plain_values::{List, Mem};
use std::alloc::Global;

/// The events that occur in no formula, rising.
pub fn unused_events(alloc: Global, system: &FaultSystem) -> Mem<List<u32>>
    ensures { IfOk result (AreAll (IsUnusedEvent system.now) (length system.now.events)) }
{
    let used = used_events(alloc, system)?;
    let unused = missing(alloc, system.events(), &Everything, &used)?;
    Ok(unused)
}

/// The events that occur in formulas, and on which none of these facts depends, rising.
pub fn unreached_events(alloc: Global, system: &FaultSystem, from: &[u32]) -> Mem<List<u32>>
    requires { All (λ n. n < length system.now.facts) from.now }
    ensures { IfOk result (AreAll (IsUnreachedEvent system.now from.now) (length system.now.events)) }
{
    let used = used_events(alloc, system)?;
    let found = reach(alloc, system, from)?;
    let unreached = missing(alloc, system.events(), &used, &found.events)?;
    Ok(unreached)
}
