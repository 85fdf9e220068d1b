ghost use Rattle.std.specs.Prelude.{◌<◌, MatchResult, IfOk, length};
ghost use Rattle.plain_values.specs.inner.Stops.{StopsFor};
ghost use Rattle.backward_slice.specs.Slices.{HasLargeSlice, IsSlice, IsServed};
ghost use Rattle.backward_slice.specs.inner.Marks.{IsNumbers};

use crate::parts::{MOST_SLICE_EVENTS, MOST_SLICE_FACTS, Slice};
use crate::reaching::reach;
use fault_system::{Bits, FaultSystem};
use plain_values::{Answer, Code, List, Mem, Refusal, Stop};
use std::alloc::Global;

/// The slice of a target, in a time that goes with the formulas that it reaches.
///
/// It is refused as too large where it has over 32,768 facts, and else where it has over 1,024 events.
pub fn slice(alloc: Global, system: &FaultSystem, target: u32) -> Answer<Slice>
    requires { target < length system.now.facts }
    ensures { MatchResult result (IsServed system.now target) (StopsFor (HasLargeSlice system.now target)) }
{
    let found = whole_slice(alloc, system, target)?;
    if found.facts.len_u32() > MOST_SLICE_FACTS {
        return Err(Stop::Refused(Refusal::of_words(Code::SliceTooLarge)));
    }
    if found.events.len_u32() > MOST_SLICE_EVENTS {
        return Err(Stop::Refused(Refusal::of_words(Code::TooManySliceEvents)));
    }
    Ok(found)
}

// The slice, of any size.
fn whole_slice(alloc: Global, system: &FaultSystem, target: u32) -> Mem<Slice>
    requires { target < length system.now.facts }
    ensures { IfOk result (IsSlice system.now target) }
{
    let found = reach(alloc, system, &[target])?;
    let facts = numbers(alloc, &found.facts)?;
    let events = numbers(alloc, &found.events)?;
    Ok(Slice {
        target,
        facts,
        events,
    })
}

// The numbers of a set, rising.
fn numbers(alloc: Global, set: &Bits) -> Mem<List<u32>>
    ensures { IfOk result (IsNumbers set.now) }
{
    let mut list = List::new(alloc);
    for number in 0..set.size() {
        list.push_if(number, set.has(number))?;
    }
    Ok(list)
}
