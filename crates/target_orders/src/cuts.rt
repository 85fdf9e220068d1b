//! Sets of few events under which facts hold, of all facts of a system at once.
//!
//! A set of a fact is proposed from the sets of the facts in its formula, and taken where the formula is true under it and
//! the facts whose sets are within it. So each set that is kept makes its fact hold; that it is a smallest one is not claimed.

ghost use Rattle.std.specs.Prelude.{◌≡◌, ◌<◌, ◌^◌, ◌&&◌, [], IfOk, OnOk, IsTrue, length, nat_lt, replicate, slice_index_or, slice_set};
ghost use Rattle.std.specs.List.{list_all};
ghost use Rattle.plain_values.specs.Rising.{RisesWithin};
ghost use Rattle.fault_system.specs.Truth.{member, set_of};
ghost use Rattle.fault_system.specs.Systems.{Holds};
ghost use Rattle.fault_system.specs.CutSets.{IsCutSet, IsEventSet};
ghost use Rattle.target_orders.specs.inner.Alone.{AreAlways};
ghost use Rattle.target_orders.specs.inner.Cuts.{AreCuts, IsSearch, cut_facts};

use crate::agenda::Agenda;
use crate::marks::{put_list, take_list};
use crate::proposals::proposed_set;
use fact_users::{Users, users_at};
use fault_system::{Bits, FaultSystem, Numbers};
use plain_values::{List, Mem};
use std::alloc::Global;

/// Where the search for sets stands.
#[derive(Drop)]
pub(crate) struct Search {
    // the set of each fact; empty where none is known
    pub sets: Vec<List<u32>>,
    // the events of the set that is looked at
    pub marks: Bits,
    // how many events may still be kept
    pub left: u32,
}

/// The facts that hold under no event, and those whose sets are within a set of events.
#[derive(Clone, Copy)]
struct CutFacts<'a> {
    always: &'a Bits,
    sets: &'a [List<u32>],
    events: &'a Bits,
}

impl<'a> Numbers for CutFacts<'a> {
    ghost use Rattle.fault_system.specs.Truth.{member};
    ghost use Rattle.target_orders.specs.inner.Cuts.{cut_facts};

    ghost set = { λ set. cut_facts (member set.always.now) set.sets.now (member set.events.now) };

    fn is_in(&self, number: u32) -> bool {
        self.always.has(number) || is_within(set_at(self.sets, number), self.events)
    }
}

/// The set that is known of a fact; empty where none is.
pub(crate) fn set_at(sets: &[List<u32>], fact: u32) -> &[u32]
    ensures set { result.now ≡ slice_index_or sets.now fact [] }
    ensures few { length result.now < 2 ^ 32 }
{
    match sets.get(fact as usize) {
        Some(set) => set.items(),
        None => &[],
    }
}

// Whether a set is known, and within a set of events.
fn is_within(set: &[u32], events: &Bits) -> bool
    ensures { result ≡ (nat_lt 0 (length set.now) && list_all (member events.now) set.now) }
{
    is_known(set) && are_in(set, events)
}

/// Whether a set is known.
pub(crate) fn is_known(set: &[u32]) -> bool
    ensures { result ≡ nat_lt 0 (length set.now) }
{
    set.len() > 0
}

fn are_in(set: &[u32], events: &Bits) -> bool
    ensures { result ≡ list_all (member events.now) set.now }
{
    set.iter().all(|event| events.has(*event))
}

/// Sets of the facts of a system. The order and the users decide how long it takes, and how small the sets are.
pub(crate) fn cuts_of(
    alloc: Global,
    system: &FaultSystem,
    always: &Bits,
    order: &[u32],
    users: &Users,
) -> Mem<Search>
    requires { AreAlways system.now always.now }
    ensures { IfOk result (IsSearch system.now) }
{
    let mut search = first_search(alloc, system)?;
    improve_all(alloc, system, always, order, users, &mut search)?;
    Ok(search)
}

// Looks for smaller sets, fact by fact until none is found.
fn improve_all(
    alloc: Global,
    system: &FaultSystem,
    always: &Bits,
    order: &[u32],
    users: &Users,
    search: &mut Search,
) -> Mem<()>
    requires always { AreAlways system.now always.now }
    requires search { IsSearch system.now search.old }
    ensures { OnOk result (IsSearch system.now search.new) }
{
    let mut agenda = Agenda::new(alloc, system.facts(), order)?;
    for step in 0..u64::MAX {
        let Some(fact) = agenda.next() else {
            return Ok(());
        };
        improve_next(alloc, system, always, users, search, &mut agenda, fact)?;
    }
    Ok(())
}

// Looks for a smaller set of a fact, and has its users wait where there is one.
fn improve_next(
    alloc: Global,
    system: &FaultSystem,
    always: &Bits,
    users: &Users,
    search: &mut Search,
    agenda: &mut Agenda,
    fact: u32,
) -> Mem<()>
    requires always { AreAlways system.now always.now }
    requires search { IsSearch system.now search.old }
    ensures { OnOk result (IsSearch system.now search.new) }
{
    if improve(alloc, system, always, search, fact)? {
        return agenda.tell(users_at(users.facts.as_slice(), fact));
    }
    Ok(())
}

// No set is known.
fn first_search(alloc: Global, system: &FaultSystem) -> Mem<Search>
    ensures { IfOk result (IsSearch system.now) }
{
    let sets = no_sets(alloc, system.facts())?;
    let marks = Bits::new(alloc, system.events())?;
    Ok(Search {
        sets,
        marks,
        left: 8_388_608,
    })
}

fn no_sets(alloc: Global, count: u32) -> Mem<Vec<List<u32>>>
    ensures { IfOk result (λ sets. sets.items ≡ replicate count []) }
{
    let mut sets = Vec::with_capacity(alloc, count as usize)?;
    for fact in 0..count {
        sets.push(List::new(alloc))?;
    }
    Ok(sets)
}

// Looks for a set of a fact that is smaller than the one that is known; whether there is one.
fn improve(
    alloc: Global,
    system: &FaultSystem,
    always: &Bits,
    search: &mut Search,
    fact: u32,
) -> Mem<bool>
    requires always { AreAlways system.now always.now }
    requires search { IsSearch system.now search.old }
    ensures { OnOk result (IsSearch system.now search.new) }
{
    if always.has(fact) {
        return Ok(false);
    }
    let proposed = proposed_set(alloc, system, always, search.sets.as_slice(), fact)?;
    match proposed {
        Some(set) => Ok(keep_if(system, always, search, fact, set)),
        None => Ok(false),
    }
}

// Keeps a set of a fact, if it is smaller than the one that is known, and makes the fact hold; whether it is kept.
fn keep_if(
    system: &FaultSystem,
    always: &Bits,
    search: &mut Search,
    fact: u32,
    set: List<u32>,
) -> bool
    requires always { AreAlways system.now always.now }
    requires search { IsSearch system.now search.old }
    ensures { IsSearch system.now search.new }
{
    if !is_smaller(search, fact, set.len_u32()) {
        return false;
    }
    if is_cut(system, always, search, fact, set.items()) {
        keep(system, search, fact, set);
        return true;
    }
    false
}

fn is_smaller(search: &Search, fact: u32, count: u32) -> bool {
    let known = set_at(search.sets.as_slice(), fact).len();
    count <= search.left && (known == 0 || (count as usize) < known)
}

fn keep(system: &FaultSystem, search: &mut Search, fact: u32, set: List<u32>)
    requires cut { IsCutSet system.now fact set }
    requires search { IsSearch system.now search.old }
    ensures { IsSearch system.now search.new }
{
    let _ = system;
    search.left = search.left.saturating_sub(set.len_u32());
    note_set(&mut search.sets, fact, set);
}

fn note_set(sets: &mut Vec<List<u32>>, fact: u32, set: List<u32>)
    ensures { sets.new.items ≡ slice_set sets.old.items fact set }
{
    if (fact as usize) < sets.len() {
        sets[fact as usize] = set;
    }
}

// Whether a set is one of events under which a fact holds, as far as it can be seen from its formula.
fn is_cut(system: &FaultSystem, always: &Bits, search: &mut Search, fact: u32, set: &[u32]) -> bool
    requires always { AreAlways system.now always.now }
    requires search { IsSearch system.now search.old }
    ensures cut { IsTrue result → IsCutSet system.now fact set.now }
    ensures search { IsSearch system.now search.new }
{
    if is_event_set(system, set) {
        return is_made(system, always, search, fact, set);
    }
    false
}

// Whether a fact holds under the events of a set, as far as it can be seen from its formula.
fn is_made(system: &FaultSystem, always: &Bits, search: &mut Search, fact: u32, set: &[u32]) -> bool
    requires always { AreAlways system.now always.now }
    requires search { IsSearch system.now search.old }
    ensures made { IsTrue result → Holds system.now (set_of set.now) fact }
    ensures search { IsSearch system.now search.new }
{
    put_list(&mut search.marks, set);
    let is_made = makes(system, always, search.sets.as_slice(), &search.marks, fact);
    take_list(&mut search.marks, set);
    is_made
}

// Whether numbers rise, and are of events.
fn is_event_set(system: &FaultSystem, set: &[u32]) -> bool
    ensures { IsTrue result → IsEventSet system.now set.now }
{
    are_rising(set, system.events())
}

fn are_rising(set: &[u32], count: u32) -> bool
    ensures { IsTrue result → RisesWithin 0 count set.now }
{
    let mut low: u64 = 0;
    for number in set {
        if u64::from(*number) < low || *number >= count {
            return false;
        }
        low = u64::from(*number) + 1;
    }
    true
}

// Whether the formula of a fact is true under events, and the facts whose sets are within them.
fn makes(system: &FaultSystem, always: &Bits, sets: &[List<u32>], events: &Bits, fact: u32) -> bool
    requires always { AreAlways system.now always.now }
    requires sets { AreCuts system.now sets.now }
    ensures { IsTrue result → Holds system.now (member events.now) fact }
{
    let held = CutFacts {
        always,
        sets,
        events,
    };
    match system.fact(fact) {
        Some(info) => info.formula.is_true(events, &held),
        None => false,
    }
}
