//! The numbers of keys by name.

ghost use Rattle.std.specs.Prelude.{◌≡◌, IfOk};
ghost use Rattle.std.specs.HashMap.{get};
ghost use Rattle.package_index.specs.inner.Tables.{same_words};
ghost use Rattle.hazard_records.specs.Meaning.{numbers_named};
ghost use Rattle.hazard_records.specs.inner.Tables.{KnowsNumbers};

use crate::rows::add;
use package_index::Words;
use plain_values::{List, Mem, Name};
use std::alloc::Global;
use std::collections::HashMap;
use std::marker::Model;

/// By each name the numbers of the keys that are it.
type Rows<'n> = HashMap<Words<'n>, List<u32>>;

/// Keys in order, of which the numbers of those of a name are found at once. Contracts see the keys.
#[derive(Drop)]
pub(crate) struct NumberTable<'n> {
    keys: &'n List<List<Name>>,
    rows: Rows<'n>,
}

impl<'n> Model for NumberTable<'n> {
    ghost use Rattle.std.specs.Prelude.{ℕ, List};
    ghost use Rattle.std.specs.HashMap.{get};
    ghost use Rattle.package_index.specs.inner.Tables.{same_words};
    ghost use Rattle.hazard_records.specs.inner.Tables.{KnowsNumbers};

    ghost Value = { List (List (List ℕ)) };

    ghost view = { λ n. n.keys.now };

    ghost invariant = { λ n. KnowsNumbers n.keys.now (get same_words n.rows) };
}

impl<'n> NumberTable<'n> {
    /// Of these keys.
    pub(crate) fn of(alloc: Global, keys: &'n List<List<Name>>) -> Mem<NumberTable<'n>>
        ensures { IfOk result (λ table. table ≡ keys.now) }
    {
        let rows = rows_of(alloc, keys)?;
        Ok(NumberTable { keys, rows })
    }

    /// The numbers of the keys that are this name, rising.
    pub(crate) fn named<'t>(&'t self, name: &'t [Name]) -> &'t [u32]
        ensures { result.now ≡ numbers_named self.now name.now }
    {
        match self.rows.get(&Words::Names(name)) {
            Some(row) => row.items(),
            None => &[],
        }
    }
}

/// By each name the numbers of these keys that are it.
fn rows_of<'n>(alloc: Global, keys: &'n List<List<Name>>) -> Mem<Rows<'n>>
    ensures { IfOk result (λ rows. KnowsNumbers keys.now (get same_words rows)) }
{
    let mut rows = HashMap::new(alloc);
    for (number, key) in keys.items().iter().enumerate() {
        add(alloc, &mut rows, Words::Names(key.items()), number as u32)?;
    }
    Ok(rows)
}
