//! The bounds of a target by its sets of at most so many events.

ghost use Rattle.std.specs.Prelude.{◌≡◌, IfOk, Some, length};
ghost use Rattle.backward_slice.specs.Slices.{IsSlice};
ghost use Rattle.cutset_engine.specs.inner.Families.{HasMinimalCutSets};
ghost use Rattle.probabilities.specs.inner.Decided.{FitWhole};
ghost use Rattle.zdd_store.specs.inner.Store.{IsIn, Keeps, family_of};
ghost use Rattle.order_bounds.specs.Targets.{AreToldToOrder};

use crate::bounds::{Small, order_bounds};
use backward_slice::Slice;
use cutset_engine::{Asked, family};
use dependency_blocks::blocks;
use fault_system::FaultSystem;
use plain_values::Mem;
use probabilities::{Bounds, Rate};
use std::alloc::Global;
use zdd_store::{Id, Store};

/// How many cases are looked at.
const MOST_CASES: usize = 4_194_304;

/// Two numbers between which the probability of the target of a slice lies, from its minimal cut sets of at most so many events and the rate
/// of each event of the system by its number, where the whole has `whole` zeros: how often one of these sets occurs, and how often one of
/// them does or more events of the slice than they have. None where there are more cases than are looked at.
pub fn bounds_to_order(
    alloc: Global,
    system: &FaultSystem,
    part: &Slice,
    rates: &[Rate],
    whole: u32,
    most: u32,
) -> Mem<Option<Bounds>>
    requires slice { IsSlice system.now part.now.target part.now }
    requires rates { FitWhole whole rates.now }
    requires all { length rates.now ≡ length system.now.events }
    ensures { IfOk result (AreToldToOrder whole system.now part.now.target part.now.events rates.now most) }
{
    let _count = system.events();
    let mut store = Store::new(alloc);
    let id = small_family(alloc, system, part, most, &mut store)?;
    store.laws();
    let small = Small {
        id,
        events: part.events.items(),
        most,
    };
    order_bounds(alloc, &mut store, rates, whole, MOST_CASES, &small)
}

/// The minimal cut sets of at most so many events of the target of a slice.
fn small_family(
    alloc: Global,
    system: &FaultSystem,
    part: &Slice,
    most: u32,
    store: &mut Store,
) -> Mem<Id>
    requires { IsSlice system.now part.now.target part.now }
    ensures found { IfOk result (IsIn store.new) }
    ensures exact { IfOk result (λ id. HasMinimalCutSets system.now part.now.target (Some most) (family_of store.new id)) }
    ensures kept { Keeps store.old store.new }
{
    let found = blocks(alloc, system, part)?;
    let asked = Asked {
        system,
        slice: part,
        blocks: &found,
        most: Some(most),
    };
    family(alloc, &asked, store)
}
