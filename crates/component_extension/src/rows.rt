ghost use Rattle.std.specs.Prelude.{◌≡◌, OnOk, option_map, option_copied, Some};
ghost use Rattle.std.specs.HashMap.{get};
ghost use Rattle.component_extension.specs.Rows.{named, put, row_by};
ghost use Rattle.component_extension.specs.inner.Rows.{KnowsRows, key_of_words, same_words};

use aadl_syntax::Identifier;
use package_index::Words;
use plain_values::Mem;
use std::collections::HashMap;

/// By what a row goes: its name, or of a propagation the names of its point, its direction and whether it is a `not`.
pub type KeyWords<'a> = (Words<'a>, bool, bool);

/// What may go by a key.
pub trait Row {
    ghost use Rattle.std.specs.Prelude.{Option};
    ghost use Rattle.component_extension.specs.Rows.{Key};

    ghost key: { Self → Option Key };
}

/// The key of a name.
pub(crate) fn named(name: &Identifier) -> KeyWords<'_>
    ensures { key_of_words result ≡ named name.now }
{
    (Words::Identifiers(std::slice::from_ref(name)), false, false)
}

/// Puts a row at the place of the row of its key, or else last.
pub(crate) fn put<'a, R: Row + Drop>(
    places: &mut HashMap<KeyWords<'a>, usize>,
    rows: &mut Vec<R>,
    key: Option<KeyWords<'a>>,
    row: R,
) -> Mem<()>
    requires key { option_map key_of_words key ≡ R.key row }
    requires knows { KnowsRows R.key rows.now.items (get same_words places.now) }
    ensures rows { OnOk result (rows.new.items ≡ put R.key rows.old.items row) }
    ensures knows { OnOk result (KnowsRows R.key rows.new.items (get same_words places.new)) }
{
    match key {
        Some(key) => put_by(places, rows, key, row),
        None => Ok(rows.push(row)?),
    }
}

fn put_by<'a, R: Row + Drop>(
    places: &mut HashMap<KeyWords<'a>, usize>,
    rows: &mut Vec<R>,
    key: KeyWords<'a>,
    row: R,
) -> Mem<()>
    requires key { Some (key_of_words key) ≡ R.key row }
    requires knows { KnowsRows R.key rows.now.items (get same_words places.now) }
    ensures rows { OnOk result (rows.new.items ≡ put R.key rows.old.items row) }
    ensures knows { OnOk result (KnowsRows R.key rows.new.items (get same_words places.new)) }
{
    let count = rows.as_slice().len();
    match places.get(&key).copied() {
        Some(place) => rows[place] = row,
        None => {
            places.insert(key, count)?;
            rows.push(row)?;
        }
    }
    Ok(())
}

/// The row that goes by a key.
pub(crate) fn row_by<'r, 'a, R: Row>(
    places: &HashMap<KeyWords<'a>, usize>,
    rows: &'r [R],
    key: KeyWords<'a>,
) -> Option<&'r R>
    requires { KnowsRows R.key rows.now (get same_words places.now) }
    ensures { option_copied result ≡ row_by R.key rows.now (key_of_words key.entry) }
{
    rows.get(places.get(&key).copied()?)
}
