ghost use Rattle.std.specs.Prelude.{IfOk};
ghost use Rattle.std.specs.HashMap.{get};
ghost use Rattle.package_index.specs.inner.Tables.{Added};

use plain_values::Mem;
use std::collections::HashMap;
use std::hash::Hash;

/// Gives a key a number, where it has none yet, and says whether it had none.
pub fn add<K: Eq + Hash + Drop>(table: &mut HashMap<K, u32>, key: K, number: u32) -> Mem<bool>
    ensures { IfOk result (Added K.eq (get K.eq table.old) (get K.eq table.new) key number) }
{
    if table.contains_key(&key) {
        return Ok(false);
    }
    table.insert(key, number)?;
    Ok(true)
}
