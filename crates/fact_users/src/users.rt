ghost use Rattle.std.specs.Prelude.{◌≡◌, ◌+◌, ◌<◌, ◌||◌, ◌&&◌, ◌==◌, ℕ, [], IfOk, OnOk, length, map, false, slice_index_or};
ghost use Rattle.std.specs.List.{list_any};
ghost use Rattle.fault_system.specs.Truth.{occurs, occurs_event};
ghost use Rattle.fact_users.specs.inner.Users.{AreUsers, AreUsersBelow, Notes, users_at};

use fault_system::{FaultSystem, Formula};
use plain_values::{List, Mem};
use std::alloc::Global;

/// The facts in whose formulas a fact or an event occurs, by its number.
#[derive(Drop)]
pub struct Users {
    pub facts: Vec<List<u32>>,
    pub events: Vec<List<u32>>,
}

/// The users at a number.
pub fn users_at(users: &[List<u32>], number: u32) -> &[u32]
    ensures { result.now ≡ slice_index_or users.now number [] }
{
    match users.get(number as usize) {
        Some(users) => users.items(),
        None => &[],
    }
}

/// The users of all facts and events of a system.
pub fn users_of(alloc: Global, system: &FaultSystem) -> Mem<Users>
    ensures { IfOk result (AreUsers system.now) }
{
    let mut users = no_users(alloc, system)?;
    for number in 0..system.facts() {
        note_fact(&mut users, system, number)?;
    }
    Ok(users)
}

// Each fact and each event without a user.
fn no_users(alloc: Global, system: &FaultSystem) -> Mem<Users>
    ensures { IfOk result (AreUsersBelow system.now 0) }
{
    let facts = empty_lists(alloc, system.facts())?;
    let events = empty_lists(alloc, system.events())?;
    Ok(Users { facts, events })
}

fn empty_lists(alloc: Global, count: u32) -> Mem<Vec<List<u32>>>
    ensures { IfOk result (λ lists. length lists.items ≡ count) }
{
    let mut lists = Vec::with_capacity(alloc, count as usize)?;
    for _ in 0..count {
        lists.push(List::new(alloc))?;
    }
    Ok(lists)
}

// Notes a fact as a user of what occurs in its formula.
fn note_fact(users: &mut Users, system: &FaultSystem, number: u32) -> Mem<()>
    requires { AreUsersBelow system.now number users.old }
    ensures { OnOk result (AreUsersBelow system.now (number + 1) users.new) }
{
    match system.fact(number) {
        Some(fact) => note(users, number, &fact.formula),
        None => Ok(()),
    }
}

// Notes a user with all facts and events of a formula.
#[cycle(note)]
fn note(users: &mut Users, user: u32, formula: &Formula) -> Mem<()>
    ensures { OnOk result
        (Notes user (λ g. occurs g formula.now) (λ e. occurs_event e formula.now) users.old users.new) }
{
    match formula {
        Formula::True => Ok(()),
        Formula::Event(number) => note_event(users, user, *number),
        Formula::Fact(number) => note_use(users, user, *number),
        Formula::And(parts) | Formula::Or(parts) | Formula::AtLeast(_, parts) => {
            note_parts(users, user, parts.items())
        }
    }
}

#[cycle(note)]
fn note_parts(users: &mut Users, user: u32, parts: &[Formula]) -> Mem<()>
    ensures { OnOk result (Notes user
        (λ g. list_any (λ part. part) (map (occurs g) parts.now))
        (λ e. list_any (λ part. part) (map (occurs_event e) parts.now)) users.old users.new) }
{
    for part in parts {
        note(users, user, part)?;
    }
    Ok(())
}

fn note_use(users: &mut Users, user: u32, fact: u32) -> Mem<()>
    ensures { OnOk result (Notes user (λ g. fact == g) (λ e. false) users.old users.new) }
{
    add_user(users.facts.as_mut_slice(), fact, user)
}

fn note_event(users: &mut Users, user: u32, event: u32) -> Mem<()>
    ensures { OnOk result (Notes user (λ g. false) (λ e. event == e) users.old users.new) }
{
    add_user(users.events.as_mut_slice(), event, user)
}

// Adds a user at a number, if there is such a place.
fn add_user(lists: &mut [List<u32>], number: u32, user: u32) -> Mem<()>
    ensures size { length lists.new ≡ length lists.old }
    ensures added { OnOk result ((g n : ℕ) → g < length lists.old
        → users_at lists.new g n ≡ users_at lists.old g n || ((number == g) && (user == n))) }
{
    if (number as usize) < lists.len() {
        return lists[number as usize].push(user);
    }
    Ok(())
}
