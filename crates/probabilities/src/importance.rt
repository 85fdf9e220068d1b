//! The bounds of a family where one event never occurs, and where it always does.

ghost use Rattle.std.specs.Prelude.{ℕ, ◌≡◌, ◌<◌, ◌≤◌, ◌^◌, IfOk, IfSome, IfNone, length, slice_set};
ghost use Rattle.zdd_store.specs.inner.Family.{IsAntichain};
ghost use Rattle.zdd_store.specs.inner.Store.{IsIn, Keeps, family_of};
ghost use Rattle.probabilities.specs.inner.Decided.{FitWhole};
ghost use Rattle.probabilities.specs.inner.Certain.{AreCertainBounds, IsCertain};
ghost use Rattle.probabilities.specs.inner.Cofactors.{IsGivenUp};
ghost use Rattle.probabilities.specs.Widths.{IsNarrowRate};
ghost use Rattle.probabilities.specs.Sharp.{IsSharpRate};

use crate::families::bounds_in;
use crate::rates::{Bounds, Rate};
use plain_values::Mem;
use std::alloc::Global;
use std::collections::HashMap;
use zdd_store::{Id, Store};

/// The bounds of a probability where one event never occurs, and where it always does. Its Birnbaum importance is the
/// difference of the two; its risk achievement worth is the second by the probability as it is, its risk reduction worth that by
/// the first, its Fussell-Vesely importance what is left of 1 without the first by it.
#[derive(Clone, Copy)]
pub struct Importance {
    pub never: Bounds,
    pub always: Bounds,
}

/// Rates, with another one of an event.
fn rates_with(alloc: Global, rates: &[Rate], event: u32, rate: Rate) -> Mem<Vec<Rate>>
    requires { event < length rates.now }
    ensures { IfOk result (λ list. list.items ≡ slice_set rates.now event rate) }
{
    let mut list = Vec::from_slice(alloc, rates)?;
    list[event as usize] = rate;
    Ok(list)
}

/// The bounds of a family, with another rate of an event.
fn bounds_with(
    alloc: Global,
    store: &mut Store,
    rates: &[Rate],
    event: u32,
    rate: Rate,
    whole: u32,
    most: usize,
    id: Id,
) -> Mem<Option<Bounds>>
    requires id_in { IsIn store.old id }
    requires rates { FitWhole whole rates.now }
    requires inside { event < length rates.now }
    ensures bounds { (k : ℕ) → k ≤ 10 ^ whole → IsCertain whole k rate → ((places units : ℕ) → IsNarrowRate whole places units rate)
        → ((places : ℕ) → IsSharpRate whole places rate)
        → IfOk result (λ found. IfSome found (AreCertainBounds whole k rates.now event (family_of store.old id))) }
    ensures none { IsAntichain (family_of store.old id) → IfOk result (λ found. IfNone found (IsGivenUp (length rates.now) most (family_of store.old id))) }
    ensures kept { Keeps store.old store.new }
{
    let list = rates_with(alloc, rates, event, rate)?;
    let mut known = HashMap::new(alloc);
    bounds_in(store, list.as_slice(), whole, most, &mut known, id)
}

/// The bounds of the probability that the events which occur contain a set of the family, where one event never occurs, and
/// where it always does: one run each. None where more than `most` families come up in a run, or an event of the family has no
/// rate.
pub fn event_importance(
    alloc: Global,
    store: &mut Store,
    rates: &[Rate],
    event: u32,
    whole: u32,
    most: usize,
    id: Id,
) -> Mem<Option<Importance>>
    requires id_in { IsIn store.old id }
    requires rates { FitWhole whole rates.now }
    requires inside { event < length rates.now }
    ensures never { IfOk result (λ found. IfSome found (λ both. AreCertainBounds whole 0 rates.now event (family_of store.old id) both.never)) }
    ensures always { IfOk result (λ found. IfSome found (λ both. AreCertainBounds whole (10 ^ whole) rates.now event (family_of store.old id) both.always)) }
    ensures none { IsAntichain (family_of store.old id) → IfOk result (λ found. IfNone found (IsGivenUp (length rates.now) most (family_of store.old id))) }
    ensures kept { Keeps store.old store.new }
{
    let rate = Rate::never(whole);
    let Some(never) = bounds_with(alloc, store, rates, event, rate, whole, most, id)? else {
        return Ok(None);
    };
    let other = Rate::always(whole);
    let Some(always) = bounds_with(alloc, store, rates, event, other, whole, most, id)? else {
        return Ok(None);
    };
    Ok(Some(Importance { never, always }))
}
