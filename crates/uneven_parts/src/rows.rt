//! Rows of numbers by keys.

ghost use Rattle.std.specs.Prelude.{◌≡◌, ◌++◌, ◌∷◌, [], OnOk, cond};
ghost use Rattle.std.specs.HashMap.{get};
ghost use Rattle.uneven_parts.specs.inner.Tables.{row_at};

use plain_values::{List, Mem};
use std::alloc::Global;
use std::collections::HashMap;
use std::hash::Hash;

/// Adds a number at the end of the row of a key.
pub(crate) fn add<K: Eq + Hash + Copy + Drop>(
    alloc: Global,
    rows: &mut HashMap<K, List<u32>>,
    key: K,
    number: u32,
) -> Mem<()>
    ensures { OnOk result ((other : K) → row_at (get K.eq rows.new other) ≡ row_at (get K.eq rows.old other) ++ cond (K.eq key other) (number ∷ []) []) }
{
    let mut row = match rows.remove(&key) {
        Some(row) => row,
        None => List::new(alloc),
    };
    row.push(number)?;
    rows.insert(key, row)?;
    Ok(())
}

/// The row of a key.
pub(crate) fn at<'r, K: Eq + Hash + Drop>(rows: &'r HashMap<K, List<u32>>, key: K) -> &'r [u32]
    ensures { result.now ≡ row_at (get K.eq rows.now key) }
{
    match rows.get(&key) {
        Some(row) => row.items(),
        None => &[],
    }
}
