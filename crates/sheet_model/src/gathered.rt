//! Lists of numbers, one for each number below a count, that are filled in any order.

ghost use Rattle.std.specs.Prelude.{◌≡◌, ◌++◌, ◌∷◌, ◌==◌, ◌<◌, ℕ, [], IfOk, OnOk, cond, length, slice_index_or};

use plain_values::{List, Mem};
use std::alloc::Global;

/// So many empty lists.
pub fn empty_lists(alloc: Global, count: u32) -> Mem<Vec<List<u32>>>
    ensures size { IfOk result (λ lists. length lists.items ≡ count) }
    ensures empty { IfOk result (λ lists. (k : ℕ) → slice_index_or lists.items k [] ≡ []) }
{
    let mut lists = Vec::with_capacity(alloc, count as usize)?;
    for _ in 0..count {
        lists.push(List::new(alloc))?;
    }
    Ok(lists)
}

/// Adds a value at the end of the list of a number, if there is such a list.
pub fn add_at(lists: &mut [List<u32>], number: u32, value: u32) -> Mem<()>
    ensures size { length lists.new ≡ length lists.old }
    ensures added { OnOk result ((k : ℕ) → k < length lists.old
        → slice_index_or lists.new k [] ≡ slice_index_or lists.old k [] ++ cond (number == k) (value ∷ []) []) }
{
    if (number as usize) < lists.len() {
        return lists[number as usize].push(value);
    }
    Ok(())
}

/// The list of a number; empty where there is none.
pub fn list_at(lists: &[List<u32>], number: u32) -> &[u32]
    ensures { result.now ≡ slice_index_or lists.now number [] }
{
    match lists.get(number as usize) {
        Some(list) => list.items(),
        None => &[],
    }
}
