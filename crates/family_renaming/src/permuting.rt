ghost use Rattle.std.specs.Prelude.{◌≡◌, ◌≤◌, ◌<◌, ◌^◌, ◌↔◌, IfOk, IsTrue, length, slice_get, Some};
ghost use Rattle.family_renaming.specs.inner.Orders.{Undoes, HasPlaces};

use plain_values::Mem;
use std::alloc::Global;

/// Whether a table has a place at a number.
fn has_place(table: &[u32], number: u32, place: usize) -> bool
    ensures { IsTrue result ↔ (slice_get table.now number ≡ Some place) }
{
    match table.get(number as usize) {
        Some(found) => *found as usize == place,
        None => false,
    }
}

/// Whether the second table has at each number of the first the place at which it stands there.
fn undoes(there: &[u32], back: &[u32]) -> bool
    ensures { IsTrue result ↔ Undoes there.now back.now }
{
    for place in 0..there.len() {
        if !has_place(back, there[place], place) {
            return false;
        }
    }
    true
}

/// Whether each of two tables undoes the other.
pub(crate) fn undo_each_other(there: &[u32], back: &[u32]) -> bool
    ensures { IsTrue result ↔ (Undoes there.now back.now × Undoes back.now there.now) }
{
    undoes(there, back) && undoes(back, there)
}

/// A place of each event of a list, by its number.
pub(crate) fn places_of(alloc: Global, events: &[u32]) -> Mem<Vec<u32>>
    requires { length events.now ≤ 2 ^ 32 }
    ensures long { IfOk result (λ table. length table.items ≡ length events.now) }
    ensures places { IfOk result (λ table. HasPlaces events.now (length events.now) table.items) }
{
    let mut table = vec![in alloc; 0u32; events.len()]?;
    fill_places(events, table.as_mut_slice());
    Ok(table)
}

fn fill_places(events: &[u32], table: &mut [u32])
    requires { length events.now ≤ 2 ^ 32 }
    ensures long { length table.new ≡ length table.old }
    ensures places { HasPlaces events.now (length events.now) table.new }
{
    for place in 0..events.len() {
        let event = events[place] as usize;
        if event < table.len() {
            table[event] = place as u32;
        }
    }
}
