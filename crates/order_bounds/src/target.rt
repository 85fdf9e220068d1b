//! The bounds of the probability of a target by its smallest minimal cut sets, from the rates of events.

ghost use Rattle.std.specs.Prelude.{◌≡◌, IfOk, length, option_copied};
ghost use Rattle.backward_slice.specs.Slices.{IsSlice};
ghost use Rattle.probabilities.specs.inner.Decided.{FitWhole};
ghost use Rattle.target_probabilities.specs.Probability.{bounds_known};
ghost use Rattle.order_bounds.specs.Targets.{AreToldToOrder};
ghost use Rattle.order_bounds.specs.inner.Bounds.{HasBoundsToOrder};

use crate::to_order::bounds_to_order;
use backward_slice::Slice;
use event_probabilities::EventRate;
use fault_system::FaultSystem;
use plain_values::Mem;
use probabilities::Bounds;
use property_reader::Rate;
use std::alloc::Global;
use target_probabilities::{TargetBounds, all_known, bounds_in, found_in, numeral_of, zeros};

/// The bounds of the probability of the target of a slice of a system whose events have these rates, in so many hours, if they are given, by
/// its minimal cut sets of at most so many events: more may occur at once, and what that adds is in the upper bound.
pub fn target_bounds_to_order(
    alloc: Global,
    system: &FaultSystem,
    rates: &[Rate],
    part: &Slice,
    hours: Option<&[u8]>,
    most: u32,
) -> Mem<TargetBounds>
    requires { IsSlice system.now part.now.target part.now }
    ensures { IfOk result (λ its. HasBoundsToOrder system.now rates.now part.now.target part.now.events (option_copied hours.entry) most its.whole its.found.items its.bounds its.importances.items) }
{
    let whole = zeros();
    let list = all_known(alloc, system, rates, numeral_of(hours), whole)?;
    let known = list.as_slice();
    let bounds = known_to_order(alloc, system, part, known, whole, most)?;
    let found = found_in(alloc, known)?;
    Ok(TargetBounds {
        whole,
        found,
        bounds,
        importances: Vec::new(alloc),
    })
}

/// The bounds of the target of a slice, of whose events this is known.
fn known_to_order(
    alloc: Global,
    system: &FaultSystem,
    part: &Slice,
    known: &[EventRate],
    whole: u32,
    most: u32,
) -> Mem<Option<Bounds>>
    requires slice { IsSlice system.now part.now.target part.now }
    requires rates { FitWhole whole (bounds_known known.now) }
    requires all { length (bounds_known known.now) ≡ length system.now.events }
    ensures { IfOk result (AreToldToOrder whole system.now part.now.target part.now.events (bounds_known known.now) most) }
{
    let list = bounds_in(alloc, known)?;
    bounds_to_order(alloc, system, part, list.as_slice(), whole, most)
}
