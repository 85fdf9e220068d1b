//! The bounds of the probability of a target, from the rates of events.

ghost use Rattle.std.specs.Prelude.{◌≡◌, IfOk, option_copied};
ghost use Rattle.backward_slice.specs.Slices.{IsSlice};
ghost use Rattle.target_probabilities.specs.Bounds.{HasBounds};
ghost use Rattle.target_probabilities.specs.Probability.{told_events};

use crate::known::{all_known, found_in, numeral_of};
use crate::told::{told_known, zeros};
use backward_slice::Slice;
use event_probabilities::Found;
use fault_system::FaultSystem;
use plain_values::Mem;
use probabilities::Bounds;
use probability_lines::EventImportance;
use property_reader::Rate;
use std::alloc::Global;

/// What is found of the probability of a target.
#[derive(Drop)]
pub struct TargetBounds {
    /// How many zeros the whole has, of which bounds are parts.
    pub whole: u32,
    /// Whether each event of the system has a probability.
    pub found: Vec<Found>,
    /// The bounds; none where there are more cases than are looked at.
    pub bounds: Option<Bounds>,
    /// The importance of each event on which the target depends, where it is asked for and there are bounds.
    pub importances: Vec<EventImportance>,
}

/// The bounds of the probability of the target of a slice of a system whose events have these rates, in so many hours, if they are given, and
/// the importance of each event on which it depends, where that is asked for.
pub fn target_bounds(
    alloc: Global,
    system: &FaultSystem,
    rates: &[Rate],
    part: &Slice,
    hours: Option<&[u8]>,
    asked: bool,
) -> Mem<TargetBounds>
    requires { IsSlice system.now part.now.target part.now }
    ensures { IfOk result (λ its. HasBounds system.now rates.now part.now.target (told_events asked part.now.events) (option_copied hours.entry) its.whole its.found.items its.bounds its.importances.items) }
{
    let whole = zeros();
    let list = all_known(alloc, system, rates, numeral_of(hours), whole)?;
    let known = list.as_slice();
    let told = told_known(alloc, system, part, known, asked, whole)?;
    let found = found_in(alloc, known)?;
    Ok(TargetBounds {
        whole,
        found,
        bounds: told.bounds,
        importances: told.importances,
    })
}
