//! Rows of values by key: as in `flattener`.

ghost use Rattle.std.specs.Prelude.{◌≡◌, ◌++◌, ◌∷◌, [], OnOk, cond};
ghost use Rattle.std.specs.HashMap.{get};
ghost use Rattle.hazard_records.specs.inner.Tables.{row_at};

use plain_values::{List, Mem};
use std::alloc::Global;
use std::collections::HashMap;
use std::hash::Hash;

/// Adds a value at the end of the row of a key.
pub(crate) fn add<K: Eq + Hash + Copy + Drop, V: Drop>(
    alloc: Global,
    rows: &mut HashMap<K, List<V>>,
    key: K,
    value: V,
) -> Mem<()>
    ensures { OnOk result ((other : K) → row_at (get K.eq rows.new other) ≡ row_at (get K.eq rows.old other) ++ cond (K.eq key other) (value ∷ []) []) }
{
    let mut row = match rows.remove(&key) {
        Some(row) => row,
        None => List::new(alloc),
    };
    row.push(value)?;
    rows.insert(key, row)?;
    Ok(())
}
