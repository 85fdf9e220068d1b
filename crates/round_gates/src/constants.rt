//! Targets that always hold, or never.

ghost use Rattle.std.specs.Prelude.{◌≡◌, ◌<◌, ℕ, IfOk, MatchOption, length, true};
ghost use Rattle.fault_system.specs.Truth.{member};
ghost use Rattle.round_gates.specs.Staged.{IsConstant, IsVarying};

use fault_system::{Bits, FaultSystem};
use plain_values::Mem;
use std::alloc::Global;

/// The set of all events.
fn all_events(alloc: Global, count: u32) -> Mem<Bits>
    ensures size { IfOk result (λ events. length events ≡ count) }
    ensures all { IfOk result (λ events. (n : ℕ) → n < count → member events n ≡ true) }
{
    let mut events = Bits::new(alloc, count)?;
    put_all(&mut events);
    Ok(events)
}

fn put_all(events: &mut Bits)
    ensures size { length events.new ≡ length events.old }
    ensures all { (n : ℕ) → n < length events.old → member events.new n ≡ true }
{
    for event in 0..events.size() {
        events.put(event);
    }
}

/// Whether a target always holds, or never; none where it holds under some events and not under others. It holds under no
/// event, or else not under all of them.
pub(crate) fn constant(alloc: Global, system: &FaultSystem, target: u32) -> Mem<Option<bool>>
    ensures { IfOk result (λ found. MatchOption found (IsVarying system.now target) (IsConstant system.now target)) }
{
    let none = Bits::new(alloc, system.events())?;
    if system.makes_hold(alloc, target, &none)? {
        return Ok(Some(true));
    }
    let all = all_events(alloc, system.events())?;
    if !system.makes_hold(alloc, target, &all)? {
        return Ok(Some(false));
    }
    Ok(None)
}
