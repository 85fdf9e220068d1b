ghost use Rattle.std.specs.Prelude.{◌≡◌, ◌<◌, All, IfOk, OnOk, length, slice_index_or};
ghost use Rattle.zdd_store.specs.inner.Store.{IsIn, family_of, Keeps};
ghost use Rattle.backward_slice.specs.Slices.{IsSlice};
ghost use Rattle.cutset_engine.specs.inner.Filling.{IsFilling, IsFilled, task_of};
ghost use Rattle.cutset_engine.specs.inner.Families.{HasAsked, IsAskedOfSlice, IsLeast, sets_to};

use crate::agenda::Agenda;
use crate::filling::{fill, fill_fact};
use crate::inner_order::inner_order;
use crate::race::{Distance, Race, Try};
use crate::setting::{Asked, Setting};
use crate::unfound::Unfound;
use family_renaming::in_event_order;
use plain_values::Mem;
use std::alloc::Global;
use zdd_families::{copied, minimal_family, up_to_size};
use zdd_store::{Id, Store};

/// How many tries there are before one may remember all.
const TRIES: u32 = 24;

/// The minimal cut sets of the target of a slice, of at most so many events where a greatest order is given, as a family
/// of sets of event numbers. The blocks decide how long it takes, and not what is found.
///
/// It is tried with one order of the variables after the other, and each try ends where it remembers too much; then those
/// that came farthest may remember more. After so many rounds it is given up. What a try that was given up made is dropped. Each
/// number of the store keeps its family, also where memory is refused.
pub(crate) fn raced_family(
    alloc: Global,
    asked: &Asked<'_>,
    rounds: u32,
    store: &mut Store,
) -> Result<Id, Unfound>
    requires { IsAskedOfSlice asked.now }
    ensures found { IfOk result (IsIn store.new) }
    ensures exact { IfOk result (λ id. HasAsked asked.now (family_of store.new id)) }
    ensures kept { Keeps store.old store.new }
{
    let mut race = Race::new(asked.most.is_none());
    for turn in 0..TRIES {
        if race.rounds() >= rounds {
            return Err(Unfound::GivenUp);
        }
        let mut distance = Distance::NONE;
        if let Ok(id) = family_within(alloc, asked, race.next(), &mut distance, store) {
            return Ok(id);
        }
        race.tell(distance);
    }
    let mut distance = Distance::NONE;
    let all = race.last();
    let answer = family_within(alloc, asked, all, &mut distance, store)?;
    Ok(answer)
}

/// The family, where the first try finds it.
pub(crate) fn first_family(alloc: Global, asked: &Asked<'_>, store: &mut Store) -> Mem<Id>
    requires { IsAskedOfSlice asked.now }
    ensures found { IfOk result (IsIn store.new) }
    ensures exact { IfOk result (λ id. HasAsked asked.now (family_of store.new id)) }
    ensures kept { Keeps store.old store.new }
{
    let race = Race::new(asked.most.is_none());
    let mut distance = Distance::NONE;
    family_within(alloc, asked, race.next(), &mut distance, store)
}

/// The family, made over an order of the variables in a store of its own that remembers so many answers at most. How far
/// it came is told in any case.
fn family_within(
    alloc: Global,
    asked: &Asked<'_>,
    turn: Try,
    distance: &mut Distance,
    store: &mut Store,
) -> Mem<Id>
    requires { IsAskedOfSlice asked.now }
    ensures found { IfOk result (IsIn store.new) }
    ensures exact { IfOk result (λ id. HasAsked asked.now (family_of store.new id)) }
    ensures kept { Keeps store.old store.new }
{
    let mut own = Store::limited(alloc, turn.answers);
    let made = family_by(alloc, asked, turn, distance, &mut own)?;
    let answer = copied(alloc, &own, store, made)?;
    Ok(answer)
}

/// The family, made over an order of the variables and brought into the order of the events.
fn family_by(
    alloc: Global,
    asked: &Asked<'_>,
    turn: Try,
    distance: &mut Distance,
    store: &mut Store,
) -> Mem<Id>
    requires { IsAskedOfSlice asked.now }
    ensures found { IfOk result (IsIn store.new) }
    ensures exact { IfOk result (λ id. HasAsked asked.now (family_of store.new id)) }
    ensures kept { Keeps store.old store.new }
{
    let (system, target) = (asked.system, asked.slice.target);
    let _events = system.events();
    let mut agenda = Agenda::new(alloc, system, asked.blocks, target)?;
    let order = inner_order(alloc, system, turn.way, agenda.facts(), target)?;
    let setting = Setting {
        system,
        slice: asked.slice,
        order: order.variables(),
        most: asked.most,
        form: turn.form,
    };
    let now = families(alloc, store, &setting, &mut agenda, distance)?;
    let number = number_at(now.as_slice(), target);
    let inner = least_family(store, asked.most, number)?;
    distance.find();
    let answer = in_event_order(alloc, store, &order, inner)?;
    store.laws();
    Ok(answer)
}

fn number_at(numbers: &[Id], at: u32) -> Id
    requires { at < length numbers.now }
    ensures { result ≡ slice_index_or numbers.now at result }
{
    numbers[at as usize]
}

/// The families of all facts of a slice over the variables of an order, for the sets of at most so many events.
fn families(
    alloc: Global,
    store: &mut Store,
    setting: &Setting<'_>,
    agenda: &mut Agenda,
    distance: &mut Distance,
) -> Mem<Vec<Id>>
    requires { IsSlice setting.now.system.now setting.now.slice.now.target setting.now.slice.now }
    ensures kept { Keeps store.old store.new }
    ensures filled { IfOk result (λ now.
        IsFilled (task_of setting.now) setting.now.slice.now.facts store.new now.items) }
{
    let mut now = no_families(alloc, store, setting.system.facts())?;
    fill_in_order(alloc, store, setting, agenda, distance, now.as_mut_slice())?;
    Ok(now)
}

/// No family for each fact.
fn no_families(alloc: Global, store: &Store, count: u32) -> Mem<Vec<Id>>
    ensures long { IfOk result (λ now. length now.items ≡ count) }
    ensures none { IfOk result (λ now. All (λ id. id.position ≡ 0) now.items) }
{
    let mut now = Vec::new(alloc);
    for filled in 0..count {
        now.push(Id::EMPTY)?;
    }
    Ok(now)
}

/// Makes the families of all facts of a slice: first as the agenda has them, and then until nothing changes, whatever it had.
fn fill_in_order(
    alloc: Global,
    store: &mut Store,
    setting: &Setting<'_>,
    agenda: &mut Agenda,
    distance: &mut Distance,
    now: &mut [Id],
) -> Mem<()>
    requires slice { IsSlice setting.now.system.now setting.now.slice.now.target setting.now.slice.now }
    requires long { length now.old ≡ length setting.now.system.now.facts }
    requires none { All (λ id. id.position ≡ 0) now.old }
    ensures kept { Keeps store.old store.new }
    ensures filled { OnOk result
        (IsFilled (task_of setting.now) setting.now.slice.now.facts store.new now.new) }
{
    store.laws();
    settle(alloc, store, setting, agenda, distance, now)?;
    fill(alloc, store, setting, setting.slice.facts.items(), now)
}

/// Makes the families of the facts of an agenda, each again where that of a fact of its formula is another.
fn settle(
    alloc: Global,
    store: &mut Store,
    setting: &Setting<'_>,
    agenda: &mut Agenda,
    distance: &mut Distance,
    now: &mut [Id],
) -> Mem<()>
    requires { IsFilling (task_of setting.now) store.old now.old }
    ensures kept { Keeps store.old store.new }
    ensures filling { OnOk result (IsFilling (task_of setting.now) store.new now.new) }
{
    for step in 0..u64::MAX {
        let Some(fact) = agenda.next() else {
            return Ok(());
        };
        if fill_fact(alloc, store, setting, now, fact)? {
            agenda.tell(fact);
        }
        distance.facts = distance.facts.saturating_add(1);
        distance.left = store.answers_left();
    }
    Ok(())
}

/// The minimal sets of a family, of at most so many events where a greatest order is given.
fn least_family(store: &mut Store, most: Option<u32>, id: Id) -> Mem<Id>
    requires { IsIn store.old id }
    ensures kept { Keeps store.old store.new }
    ensures least { IfOk result (IsLeast store.old store.new most id) }
{
    store.laws();
    let minimal = minimal_family(store, id)?;
    store.laws();
    let answer = sets_within(store, most, minimal)?;
    store.laws();
    Ok(answer)
}

/// The sets of a family of at most so many events; all where there is no greatest order.
fn sets_within(store: &mut Store, most: Option<u32>, id: Id) -> Mem<Id>
    requires { IsIn store.old id }
    ensures found { IfOk result (IsIn store.new) }
    ensures family { IfOk result (λ answer. family_of store.new answer ≡ sets_to most (family_of store.old id)) }
    ensures kept { Keeps store.old store.new }
{
    match most {
        Some(most) => up_to_size(store, id, most),
        None => Ok(id),
    }
}
