//! The users that are walked: those alone on which an asked effect depends.

ghost use Rattle.std.specs.Prelude.{◌≡◌, IfOk, filter, map};
ghost use Rattle.fault_system.specs.Truth.{member};

use fact_users::Users;
use fault_system::Bits;
use plain_values::{List, Mem};
use std::alloc::Global;

/// Of the users of each fact and of each event those that are in a set, in their order.
pub(crate) fn kept_users(alloc: Global, users: &Users, set: &Bits) -> Mem<Users>
    ensures facts { IfOk result (λ kept. kept.facts.items ≡ map (filter (member set.now)) users.now.facts.items) }
    ensures events { IfOk result (λ kept. kept.events.items ≡ map (filter (member set.now)) users.now.events.items) }
{
    let facts = kept_lists(alloc, users.facts.as_slice(), set)?;
    let events = kept_lists(alloc, users.events.as_slice(), set)?;
    Ok(Users { facts, events })
}

// Of each list the numbers that are in a set.
fn kept_lists(alloc: Global, lists: &[List<u32>], set: &Bits) -> Mem<Vec<List<u32>>>
    ensures { IfOk result (λ kept. kept.items ≡ map (filter (member set.now)) lists.now) }
{
    let mut kept = Vec::with_capacity(alloc, lists.len())?;
    for list in lists {
        kept.push(kept_numbers(alloc, list.items(), set)?)?;
    }
    Ok(kept)
}

// The numbers of a list that are in a set.
fn kept_numbers(alloc: Global, numbers: &[u32], set: &Bits) -> Mem<List<u32>>
    ensures { IfOk result (λ kept. kept ≡ filter (member set.now) numbers.now) }
{
    let mut kept = List::new(alloc);
    for number in numbers {
        kept.push_if(*number, set.has(*number))?;
    }
    Ok(kept)
}
