ghost use Rattle.std.specs.Prelude.{◌≡◌, All, IfOk, map, true};
ghost use Rattle.fault_system.specs.Truth.{member};
ghost use Rattle.zdd_store.specs.inner.Store.{IsIn, Keeps};
ghost use Rattle.family_renaming.specs.inner.Renaming.{name_of};
ghost use Rattle.cutset_engine.specs.inner.Gates.{Made, StandEach, covers_each, events_of, is_true_under};

use crate::gates::{Gate, of_gate, some_of};
use crate::setting::Setting;
use fault_system::Formula;
use plain_values::Mem;
use std::alloc::Global;
use zdd_families::single;
use zdd_store::{Id, Store};

/// The variable of an event: the one at its place in the table, or the event's own number.
fn variable(order: &[u32], event: u32) -> u32
    ensures { result ≡ name_of order.now event }
{
    match order.get(event as usize) {
        Some(variable) => *variable,
        None => event,
    }
}

/// The family of the sets under which a formula is true, where the facts have the families that they have now.
#[cycle(formula)]
pub(crate) fn formula_family(
    alloc: Global,
    store: &mut Store,
    setting: &Setting<'_>,
    now: &[Id],
    formula: &Formula,
) -> Mem<Id>
    requires { All (IsIn store.old) now.now }
    ensures { Made store.old store.new setting.now.most (is_true_under setting.now.order.now store.old now.now formula.now) result }
{
    match formula {
        Formula::True => always(store, setting.most),
        Formula::Event(number) => event_family(store, setting.order, setting.most, *number),
        Formula::Fact(number) => fact_family(store, setting.most, now, *number),
        Formula::And(parts) => {
            let families = part_families(alloc, store, setting, now, parts.items())?;
            of_gate(store, setting.most, setting.form, Gate::And, families)
        }
        Formula::Or(parts) => {
            let families = part_families(alloc, store, setting, now, parts.items())?;
            of_gate(store, setting.most, setting.form, Gate::Or, families)
        }
        Formula::AtLeast(least, parts) => {
            let families = part_families(alloc, store, setting, now, parts.items())?;
            some_of(alloc, store, setting.most, setting.form, *least, families)
        }
    }
}

/// The families of the parts of a formula, one after another.
#[cycle(formula)]
fn part_families(
    alloc: Global,
    store: &mut Store,
    setting: &Setting<'_>,
    now: &[Id],
    parts: &[Formula],
) -> Mem<Vec<Id>>
    requires { All (IsIn store.old) now.now }
    ensures kept { Keeps store.old store.new }
    ensures parts { IfOk result (λ ids. StandEach store.new setting.now.most
        (λ set. map (λ part. is_true_under setting.now.order.now store.old now.now part set) parts.now) ids.items) }
{
    let mut families = Vec::new(alloc);
    for part in parts {
        let family = formula_family(alloc, store, setting, now, part)?;
        families.push(family)?;
    }
    Ok(families)
}

/// The family of the empty set alone.
fn always(store: &Store, most: Option<u32>) -> Mem<Id>
    ensures { Made store.now store.now most (λ set. true) result }
{
    store.laws();
    Ok(Id::UNIT)
}

/// The family of the one set that has the variable of an event.
fn event_family(store: &mut Store, order: &[u32], most: Option<u32>, event: u32) -> Mem<Id>
    ensures { Made store.old store.new most (λ set. events_of order.now set event) result }
{
    single(store, variable(order, event))
}

/// The family that a fact has now; none where the number is none of a fact.
fn fact_family(store: &Store, most: Option<u32>, now: &[Id], fact: u32) -> Mem<Id>
    requires { All (IsIn store.now) now.now }
    ensures { Made store.now store.now most (λ set. member (covers_each store.now now.now set) fact) result }
{
    store.laws();
    match now.get(fact as usize) {
        Some(id) => Ok(*id),
        None => Ok(Id::EMPTY),
    }
}
