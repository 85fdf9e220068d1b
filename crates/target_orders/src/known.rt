//! What is known of the facts of a system before sets are sought.

ghost use Rattle.std.specs.Prelude.{◌≡◌, ◌<◌, ◌↔◌, ℕ, [], IfOk, length};
ghost use Rattle.fault_system.specs.Truth.{Has, member};
ghost use Rattle.fault_system.specs.CutSets.{IsCutSet};
ghost use Rattle.target_orders.specs.Orders.{MayHold};
ghost use Rattle.target_orders.specs.inner.Alone.{AreAlways};
ghost use Rattle.target_orders.specs.inner.Known.{HasLimits, Knows};

use crate::cuts::{Search, cuts_of};
use crate::lows::{Lows, lows_of};
use crate::settling::order_of_blocks;
use crate::sizes::{Sizes, reached_sizes};
use dependency_blocks::all_blocks;
use fact_users::{Users, users_of};
use fault_system::{Bits, FaultSystem};
use plain_values::Mem;
use std::alloc::Global;

/// What is known of the facts of a system.
#[derive(Drop)]
pub(crate) struct Known {
    /// The facts that hold under no event.
    pub always: Bits,
    /// The facts that hold under some events.
    pub perhaps: Bits,
    /// Facts that are too large to be listed, and facts that are not.
    pub sizes: Sizes,
    /// How many events facts take.
    pub limits: Limits,
}

/// How many events each fact takes at least, and sets of events under which facts hold.
#[derive(Drop)]
pub(crate) struct Limits {
    pub lows: Lows,
    pub cuts: Search,
}

/// What is known of all facts, and the sizes of those of some facts of which sizes are asked.
pub(crate) fn known_of(alloc: Global, system: &FaultSystem, facts: &[u32]) -> Mem<Known>
    ensures { IfOk result (Knows system.now) }
{
    let always = held_by_none(alloc, system)?;
    let perhaps = held_by_all(alloc, system)?;
    let sizes = reached_sizes(alloc, system, &always, &perhaps, facts)?;
    let limits = limits_of(alloc, system, &always)?;
    Ok(Known {
        always,
        perhaps,
        sizes,
        limits,
    })
}

/// The facts that hold under no event.
fn held_by_none(alloc: Global, system: &FaultSystem) -> Mem<Bits>
    ensures { IfOk result (λ facts. (n : ℕ) → Has (member facts) n ↔ IsCutSet system.now n []) }
{
    let events = Bits::new(alloc, system.events())?;
    let facts = system.holds(alloc, &events)?;
    Ok(facts)
}

/// The facts that hold under some events, which are those that hold under all.
fn held_by_all(alloc: Global, system: &FaultSystem) -> Mem<Bits>
    ensures { IfOk result (λ facts. (n : ℕ) → Has (member facts) n ↔ MayHold system.now n) }
{
    let events = all_events(alloc, system)?;
    let facts = system.holds(alloc, &events)?;
    Ok(facts)
}

/// All events of a system.
fn all_events(alloc: Global, system: &FaultSystem) -> Mem<Bits>
    ensures size { IfOk result (λ bits. length bits ≡ length system.now.events) }
    ensures all { IfOk result (λ bits. (n : ℕ) → n < length system.now.events → Has (member bits) n) }
{
    let mut events = Bits::new(alloc, system.events())?;
    for event in 0..system.events() {
        events.put(event);
    }
    Ok(events)
}

/// How many events facts take at least, and at most.
fn limits_of(alloc: Global, system: &FaultSystem, always: &Bits) -> Mem<Limits>
    requires { AreAlways system.now always.now }
    ensures { IfOk result (HasLimits system.now) }
{
    let users = users_of(alloc, system)?;
    let order = block_order(alloc, system)?;
    limits_by(alloc, system, always, order.as_slice(), &users)
}

/// The same, where the facts are gone through in this order.
fn limits_by(
    alloc: Global,
    system: &FaultSystem,
    always: &Bits,
    order: &[u32],
    users: &Users,
) -> Mem<Limits>
    requires { AreAlways system.now always.now }
    ensures { IfOk result (HasLimits system.now) }
{
    let lows = lows_of(alloc, system, order, users)?;
    let cuts = cuts_of(alloc, system, always, order, users)?;
    Ok(Limits { lows, cuts })
}

/// The facts block by block, the lowest block first.
fn block_order(alloc: Global, system: &FaultSystem) -> Mem<Vec<u32>> {
    let blocks = all_blocks(alloc, system)?;
    order_of_blocks(alloc, system, &blocks)
}
