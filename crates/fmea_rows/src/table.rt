//! The rows of all events.
//!
//! For each event the table of rounds under no event is changed where the event is felt, tested, and put back. Only the facts are
//! walked on which an effect depends. What passes the tests is right. That what is proposed always passes is not proved, so where a test failed the rounds under the event would be
//! made anew.

ghost use Rattle.std.specs.Prelude.{◌≡◌, ◌<◌, ◌+◌, ◌^◌, ◌++◌, ◌⊎◌, [], IfOk, IsTrue, OnOk, length};
ghost use Rattle.plain_values.specs.Rising.{RisesWithin};
ghost use Rattle.fault_system.specs.Truth.{member};
ghost use Rattle.fault_system.specs.Rounds.{no_event, only};
ghost use Rattle.fault_system.specs.inner.Rounds.{IsTable};
ghost use Rattle.fmea_rows.specs.Rows.{event_rows, rows_of};
ghost use Rattle.fmea_rows.specs.inner.Columns.{AreColumns};
ghost use Rattle.fmea_rows.specs.inner.Rows.{AreRows};
ghost use Rattle.backward_slice.specs.inner.Reach.{IsReach};
ghost use Rattle.fmea_rows.specs.inner.Tables.{AreKeptUsers, AreRowless, IsBetween, IsKnown, IsNone, IsRight, changed_rows, is_new, table_rows};

use crate::change::{Change, are_rising, make_changes, take_back, time_at};
use crate::kept::kept_users;
use crate::passing::Passed;
use crate::places::Places;
use crate::row::Row;
use crate::testing::fits_where_felt;
use crate::told::{Told, add_told, are_told, steps_before};
use crate::truth::Run;
use backward_slice::{Reach, reach};
use fact_users::{Users, users_of};
use fault_system::{Bits, FaultSystem, table_of_rounds};
use plain_values::{List, Mem};
use std::alloc::Global;

/// Which rows are asked: those of a system with some of its facts as effects.
#[derive(Clone, Copy)]
pub(crate) struct Asked<'a> {
    /// The system.
    pub system: &'a FaultSystem,
    /// The rising numbers of the effects.
    pub effects: &'a [u32],
}

/// What is known of all events: the rounds of all facts under no event, which facts are effects, on which facts and events the
/// effects depend, and in which formulas of these facts each fact and each event occurs.
#[derive(Drop)]
pub(crate) struct Known {
    pub base: List<u32>,
    effects: Bits,
    users: Users,
    reach: Reach,
}

impl Known {
    /// Whether an effect depends on an event.
    pub fn is_felt(&self, event: u32) -> bool
        ensures { result ≡ member self.now.reach.events event }
    {
        self.reach.events.has(event)
    }
}

/// What is used for each event again: the table that is changed and put back, the marks of the facts that were tested, the set of
/// the event that is looked at, and the places of the formulas, which propose what changes.
#[derive(Drop)]
pub(crate) struct Desk {
    times: Vec<u32>,
    marks: Vec<u32>,
    alone: Bits,
    places: Places,
}

/// The rows of an FMEA table: for each event each effect that holds under the event alone and not under no event, with
/// the round in which it comes to hold; by event, and then by effect. The effects are the rising numbers of facts.
///
/// Facts and events on which no effect depends are passed over, and groups of events under which together no effect is reached. For the
/// others the time goes with the places of formulas that come to be true earlier, and not with events times facts.
pub fn rows(alloc: Global, system: &FaultSystem, effects: &[u32]) -> Mem<List<Row>>
    requires { RisesWithin 0 (length system.now.facts) effects.now }
    ensures rows { IfOk result (λ rows. rows ≡ rows_of system.now effects.now) }
    ensures exact { IfOk result (AreRows system.now effects.now) }
{
    let asked = Asked { system, effects };
    let known = known_of(alloc, &asked)?;
    let mut desk = desk_of(alloc, system, &known)?;
    let mut passed = Passed::none(alloc, system.events(), desk.places.size())?;
    let mut told = Told::none(alloc, steps_before(&asked, desk.places.size()));
    let mut rows = List::new(alloc);
    for event in 0..system.events() {
        add_rows(
            alloc,
            &asked,
            &known,
            event,
            &mut desk,
            &mut passed,
            &mut told,
            &mut rows,
        )?;
    }
    Ok(rows)
}

// What is known of all events.
fn known_of(alloc: Global, asked: &Asked<'_>) -> Mem<Known>
    requires { RisesWithin 0 (length asked.now.system.now.facts) asked.now.effects.now }
    ensures { IfOk result (IsKnown asked.now.system.now asked.now.effects.now) }
{
    table_of_rounds();
    let none = Bits::new(alloc, asked.system.events())?;
    let reach = reach(alloc, asked.system, asked.effects)?;
    Ok(Known {
        base: asked.system.rounds(alloc, &none)?,
        effects: Bits::of(alloc, asked.system.facts(), asked.effects)?,
        users: users_within(alloc, asked, &reach)?,
        reach,
    })
}

// In which of the formulas on which effects depend each fact and each event occurs.
fn users_within(alloc: Global, asked: &Asked<'_>, reach: &Reach) -> Mem<Users>
    ensures { IfOk result (AreKeptUsers asked.now.system.now (member reach.now.facts)) }
{
    let users = users_of(alloc, asked.system)?;
    Ok(kept_users(alloc, &users, &reach.facts)?)
}

// The table of no event, without marks.
fn desk_of(alloc: Global, system: &FaultSystem, known: &Known) -> Mem<Desk>
    ensures between { IfOk result (λ desk. IsBetween known.now.base 0 desk.times.items desk.marks.items) }
    ensures alone { IfOk result (λ desk. IsNone (length system.now.events) desk.alone) }
{
    let base = known.base.items();
    Ok(Desk {
        times: Vec::from_slice(alloc, base)?,
        marks: vec![in alloc; 0u32; base.len()]?,
        alone: Bits::new(alloc, system.events())?,
        places: Places::of(alloc, system, &known.reach.facts, base)?,
    })
}

// Adds the rows of an event.
fn add_rows(
    alloc: Global,
    asked: &Asked<'_>,
    known: &Known,
    event: u32,
    desk: &mut Desk,
    passed: &mut Passed,
    told: &mut Told,
    rows: &mut List<Row>,
) -> Mem<()>
    requires event { event < length asked.now.system.now.events }
    requires rise { RisesWithin 0 (length asked.now.system.now.facts) asked.now.effects.now }
    requires known { IsKnown asked.now.system.now asked.now.effects.now known.now }
    requires between { IsBetween known.now.base event desk.old.times.items desk.old.marks.items }
    requires alone { IsNone (length asked.now.system.now.events) desk.old.alone }
    requires passed { AreRowless asked.now.system.now asked.now.effects.now (member passed.old.rowless) }
    requires told { (told.old.columns.items ≡ []) ⊎ AreColumns asked.now.system.now asked.now.effects.now told.old.columns.items }
    ensures rows { OnOk result (rows.new ≡ rows.old ++ event_rows asked.now.system.now asked.now.effects.now event) }
    ensures between { OnOk result
        (IsBetween known.now.base (event + 1) desk.new.times.items desk.new.marks.items) }
    ensures alone { OnOk result (IsNone (length asked.now.system.now.events) desk.new.alone) }
    ensures passed { OnOk result (AreRowless asked.now.system.now asked.now.effects.now (member passed.new.rowless)) }
    ensures told { OnOk result ((told.new.columns.items ≡ []) ⊎ AreColumns asked.now.system.now asked.now.effects.now told.new.columns.items) }
{
    if !known.is_felt(event) {
        return Ok(());
    }
    if passed.has(event) {
        return Ok(());
    }
    let columns = told.columns.as_slice();
    if are_told(columns, event) {
        add_told(known.base.items(), columns, event, rows)?;
        return Ok(());
    }
    desk.alone.put(event);
    add_felt(alloc, asked, known, event, desk, rows)?;
    desk.alone.take(event);
    let steps = desk.places.steps();
    told.make(alloc, asked, steps)?;
    passed.look(alloc, asked, known, event.saturating_add(1), steps)
}

// Adds the rows of an event on which an effect depends.
fn add_felt(
    alloc: Global,
    asked: &Asked<'_>,
    known: &Known,
    event: u32,
    desk: &mut Desk,
    rows: &mut List<Row>,
) -> Mem<()>
    requires event { event < length asked.now.system.now.events }
    requires rise { RisesWithin 0 (length asked.now.system.now.facts) asked.now.effects.now }
    requires known { IsKnown asked.now.system.now asked.now.effects.now known.now }
    requires between { IsBetween known.now.base event desk.old.times.items desk.old.marks.items }
    requires alone { member desk.old.alone ≡ only event }
    ensures rows { OnOk result (rows.new ≡ rows.old ++ event_rows asked.now.system.now asked.now.effects.now event) }
    ensures between { OnOk result
        (IsBetween known.now.base (event + 1) desk.new.times.items desk.new.marks.items) }
    ensures alone { desk.new.alone ≡ desk.old.alone }
{
    let _few = asked.system.events();
    let changes = desk.places.propose(alloc, event)?;
    if is_right(asked, known, event, changes.as_slice(), desk) {
        add_changed(known, event, changes.as_slice(), rows)?;
        return Ok(());
    }
    add_plain(alloc, asked, known, event, &desk.alone, rows)
}

// Whether the table of no event with these changes is that of an event alone, at all facts on which an effect depends.
fn is_right(
    asked: &Asked<'_>,
    known: &Known,
    event: u32,
    changes: &[Change],
    desk: &mut Desk,
) -> bool
    requires event { event < length asked.now.system.now.events }
    requires few { event + 1 < 2 ^ 32 }
    requires alone { member desk.old.alone ≡ only event }
    requires base { IsTable asked.now.system.now no_event known.now.base }
    requires users { AreKeptUsers asked.now.system.now (member known.now.reach.facts) known.now.users }
    requires reach { IsReach asked.now.system.now asked.now.effects.now known.now.reach }
    requires between { IsBetween known.now.base event desk.old.times.items desk.old.marks.items }
    ensures right { IsTrue result → IsRight asked.now.system.now asked.now.effects.now event known.now.base changes.now }
    ensures between { IsBetween known.now.base (event + 1) desk.new.times.items desk.new.marks.items }
    ensures alone { desk.new.alone ≡ desk.old.alone }
{
    if !are_rising(changes, asked.system.facts()) {
        desk.places.settle();
        return false;
    }
    make_changes(desk.times.as_mut_slice(), changes);
    let run = Run {
        system: asked.system,
        only: &desk.alone,
        times: desk.times.as_slice(),
        places: desk.places.all(),
    };
    let fits = fits_where_felt(
        &run,
        &known.users,
        event,
        changes,
        desk.marks.as_mut_slice(),
    );
    take_back(desk.times.as_mut_slice(), known.base.items(), changes);
    desk.places.settle();
    fits
}

// Adds the rows of an event that makes these changes.
fn add_changed(known: &Known, event: u32, changes: &[Change], rows: &mut List<Row>) -> Mem<()>
    ensures { OnOk result (rows.new ≡ rows.old ++ changed_rows known.now event changes.now) }
{
    for change in changes {
        let is_reached = known.effects.has(change.fact)
            && is_new(known.base.items(), change.fact, change.time);
        rows.push_if(row_of(event, change.fact, change.time), is_reached)?;
    }
    Ok(())
}

// Adds the rows of an event from its own table.
fn add_plain(
    alloc: Global,
    asked: &Asked<'_>,
    known: &Known,
    event: u32,
    alone: &Bits,
    rows: &mut List<Row>,
) -> Mem<()>
    requires alone { member alone.now ≡ only event }
    requires base { IsTable asked.now.system.now no_event known.now.base }
    ensures { OnOk result (rows.new ≡ rows.old ++ event_rows asked.now.system.now asked.now.effects.now event) }
{
    table_of_rounds();
    let times = asked.system.rounds(alloc, alone)?;
    add_reached(
        known.base.items(),
        times.items(),
        asked.effects,
        event,
        rows,
    )?;
    Ok(())
}

// Adds the rows of an event over some effects, as its table says.
fn add_reached(
    base: &[u32],
    times: &[u32],
    effects: &[u32],
    event: u32,
    rows: &mut List<Row>,
) -> Mem<()>
    ensures { OnOk result (rows.new ≡ rows.old ++ table_rows base.now times.now event effects.now) }
{
    for effect in effects {
        let time = time_at(times, *effect);
        rows.push_if(row_of(event, *effect, time), is_new(base, *effect, time))?;
    }
    Ok(())
}

/// A row.
pub(crate) fn row_of(event: u32, effect: u32, round: u32) -> Row
    ensures { result ≡ record { event = event; effect = effect; round = round } }
{
    Row {
        event,
        effect,
        round,
    }
}

/// Whether a fact has no time in the table of no event, and one under an event.
pub(crate) fn is_new(base: &[u32], fact: u32, time: u32) -> bool
    ensures { result ≡ is_new base.now fact time }
{
    time_at(base, fact) == 0 && time > 0
}
