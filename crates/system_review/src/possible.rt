//! Which facts may come about, and which always hold: those that hold when all events occur, and those that do when none does, since what holds
//! under some events holds under more.

ghost use Rattle.std.specs.Prelude.{◌≡◌, ◌↔◌, ◌<◌, ℕ, IfOk, length};
ghost use Rattle.fault_system.specs.Truth.{Has, member};
ghost use Rattle.fault_system.specs.Systems.{holds_of};
ghost use Rattle.fault_system.specs.Rounds.{no_event};
ghost use Rattle.system_review.specs.Possible.{always_in, possible_in};
ghost use Rattle.system_review.specs.inner.Possible.{IsAlways, IsPossible};

use fault_system::{Bits, FaultSystem};
use plain_values::Mem;
use std::alloc::Global;

/// The facts that hold under some set of events.
pub fn possible_facts(alloc: Global, system: &FaultSystem) -> Mem<Bits>
    ensures size { IfOk result (λ facts. length facts ≡ length system.now.facts) }
    ensures exact { IfOk result (λ facts. (n : ℕ) → Has (member facts) n ↔ IsPossible system.now n) }
    ensures computed { IfOk result (λ facts. (n : ℕ) → member facts n ≡ possible_in system.now n) }
{
    let events = all_events(alloc, system.events())?;
    let facts = system.holds(alloc, &events)?;
    Ok(facts)
}

/// The facts that hold where no event occurs, and so under each set of events.
pub fn always_facts(alloc: Global, system: &FaultSystem) -> Mem<Bits>
    ensures exact { IfOk result (λ facts. (n : ℕ) → Has (member facts) n ↔ IsAlways system.now n) }
    ensures computed { IfOk result (λ facts. (n : ℕ) → member facts n ≡ always_in system.now n) }
    ensures whole { IfOk result (λ facts. facts ≡ holds_of system.now no_event) }
{
    let events = Bits::new(alloc, system.events())?;
    let facts = system.holds(alloc, &events)?;
    Ok(facts)
}

// The set of all events, of which there are so many.
fn all_events(alloc: Global, count: u32) -> Mem<Bits>
    ensures { IfOk result (λ events. (e : ℕ) → e < count → Has (member events) e) }
{
    let mut events = Bits::new(alloc, count)?;
    for event in 0..count {
        events.put(event);
    }
    Ok(events)
}
