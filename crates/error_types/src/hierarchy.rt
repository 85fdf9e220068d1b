ghost use Rattle.std.specs.Prelude.{◌≡◌, ◌<◌, ◌+◌, ◌^◌, Bool, List as Items, Some, false, length, map, replicate, slice_get, IfOk};
ghost use Rattle.std.specs.HashMap.{get};
ghost use Rattle.package_index.specs.inner.Tables.{same_pair};
ghost use Rattle.error_types.specs.inner.Endings.{AreEnds};
ghost use Rattle.error_types.specs.inner.Rows.{put_at, rows_by, rows_so_far};
ghost use Rattle.error_types.specs.Types.{base_of, type_named};
ghost use Rattle.error_types.specs.inner.Types.{base_in};
ghost use Rattle.error_libraries.specs.Libraries.{library_scope};
ghost use Rattle.plain_values.specs.Numbered.{numbers_below};

use crate::endings::{Ends, type_of};
use crate::row::Row;
use aadl_syntax::{Ref, TypeKind};
use error_libraries::{Declarations, ItemId};
use plain_values::{FirstRefusal, List, Mem};
use std::alloc::Global;
use std::collections::HashMap;

/// The types that the types extend, in order.
pub(crate) fn bases_of(
    alloc: Global,
    declarations: &mut Declarations<'_, '_>,
) -> Mem<List<Option<u32>>>
    ensures kept { declarations.new ≡ declarations.old }
    ensures bases { IfOk result (λ bases. bases ≡ map (base_of declarations.old) declarations.old.types) }
{
    let mut ends = HashMap::new(alloc);
    let mut bases = List::new(alloc);
    for number in 0..declarations.types().len() {
        let id = declarations.types()[number];
        let base = base_of(alloc, declarations, &mut ends, id)?;
        bases.push(base)?;
    }
    Ok(bases)
}

/// The type that the type of an item extends.
fn base_of(
    alloc: Global,
    declarations: &mut Declarations<'_, '_>,
    ends: &mut Ends,
    id: ItemId,
) -> Mem<Option<u32>>
    requires { AreEnds declarations.old (get same_pair ends.old) }
    ensures kept { declarations.new ≡ declarations.old }
    ensures ends { AreEnds declarations.old (get same_pair ends.new) }
    ensures base { IfOk result (λ base. base ≡ base_of declarations.old id) }
{
    match declarations.item(id) {
        Some(item) => match &item.kind {
            TypeKind::Plain(Some(base)) => {
                type_named(alloc, declarations, ends, id.package, base)
            }
            _ => Ok(None),
        },
        None => Ok(None),
    }
}

/// The type that a name means in the text of a library.
fn type_named<'a>(
    alloc: Global,
    declarations: &mut Declarations<'_, 'a>,
    ends: &mut Ends,
    home: u32,
    reference: &'a Ref,
) -> Mem<Option<u32>>
    requires { AreEnds declarations.old (get same_pair ends.old) }
    ensures kept { declarations.new ≡ declarations.old }
    ensures ends { AreEnds declarations.old (get same_pair ends.new) }
    ensures number { IfOk result (λ number. number ≡ type_named (2 ^ 64) declarations.old (library_scope declarations.old home) reference.now) }
{
    let mut first = FirstRefusal::new();
    match declarations.named_at(alloc, home, reference, &mut first)? {
        Some(id) => type_of(alloc, declarations, ends, id),
        None => Ok(None),
    }
}

fn base_in(bases: &[Option<u32>], number: u32) -> Option<u32>
    ensures { result ≡ base_in bases.now number }
{
    *bases.get(number as usize)?
}

/// For each type the row of the types that are below it, and then a row of none.
///
/// Each type is put into the rows of those that it is below by going up from it once.
pub(crate) fn rows_of(alloc: Global, bases: &[Option<u32>]) -> Mem<List<Row>>
    requires { length bases.now < 2 ^ 32 }
    ensures { IfOk result (λ rows. rows ≡ rows_by bases.now) }
{
    let mut rows = empty_rows(alloc, bases.len() as u32)?;
    put_all(rows.as_mut_slice(), bases);
    let none = Row::new(alloc, bases.len() as u32)?;
    rows.push(none)?;
    List::of(rows)
}

/// So many rows of none of so many numbers.
fn empty_rows(alloc: Global, count: u32) -> Mem<Vec<Row>>
    ensures { IfOk result (λ rows. rows.items ≡ map (λ _. replicate count false) (numbers_below count)) }
{
    let mut rows = Vec::new(alloc);
    for _ in 0..count {
        let row = Row::new(alloc, count)?;
        rows.push(row)?;
    }
    Ok(rows)
}

/// Puts each type into the rows of those that it is below.
fn put_all(rows: &mut [Row], bases: &[Option<u32>])
    requires few { length bases.now < 2 ^ 32 }
    requires empty { rows.old ≡ rows_so_far bases.now 0 }
    ensures { rows.new ≡ rows_so_far bases.now (length bases.now) }
{
    for low in 0..bases.len() {
        put_along(rows, bases, low as u32);
    }
}

/// Puts a type into the rows of those that it is below.
fn put_along(rows: &mut [Row], bases: &[Option<u32>], low: u32)
    requires within { low < length bases.now }
    requires so_far { rows.old ≡ rows_so_far bases.now low }
    ensures { rows.new ≡ rows_so_far bases.now (low + 1) }
{
    let mut high = low;
    for _ in 0..bases.len() {
        put_at(rows, high, low);
        match base_in(bases, high) {
            Some(base) => high = base,
            None => return,
        }
    }
    put_at(rows, high, low);
}

/// Puts a number into a row, where there is one.
fn put_at(rows: &mut [Row], place: u32, number: u32)
    requires { (row : Items Bool) → slice_get rows.old place ≡ Some row → number < length row }
    ensures { rows.new ≡ put_at rows.old place number }
{
    if (place as usize) < rows.len() {
        rows[place as usize].put(number);
    }
}
