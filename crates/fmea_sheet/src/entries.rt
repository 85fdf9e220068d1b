//! What is known of each line of a sheet before it is made.

ghost use Rattle.std.specs.Prelude.{◌≡◌, ◌<◌, ℕ, [], IfOk, OnOk, length, map, slice_index_or};
ghost use Rattle.plain_values.specs.Numbered.{numbers_below};
ghost use Rattle.plain_values.specs.Rising.{RisesWithin};
ghost use Rattle.fmea_sheet.specs.Cells.{reached_by};
ghost use Rattle.fmea_sheet.specs.inner.Written.{AddsEffects, effects_in, entry_of};

use crate::places::{place_of, tables_of};
use fmea_rows::{Row, rows};
use model_phases::{EventModel, FlatModel};
use plain_values::{List, Mem, Name, Word};
use sheet_model::{add_at, empty_lists, list_at};
use std::alloc::Global;
use text_places::LineTable;

/// A line that is not made yet: its event, the effects that this reaches alone, and where its declaration stands.
#[derive(Drop)]
pub(crate) struct Entry {
    pub event: u32,
    pub reached: List<u32>,
    pub place: Name,
}

/// What is known of the line of each event, in files of these names and texts. The effects of all events are found at once.
pub(crate) fn entries_of(
    alloc: Global,
    files: &[Word],
    texts: &[Name],
    model: &EventModel,
) -> Mem<List<Entry>>
    requires { RisesWithin 0 (length model.now.flat.system.facts) model.now.flat.effects }
    ensures { IfOk result (λ entries. entries ≡ map (entry_of files.now texts.now model.now) (numbers_below (length model.now.flat.system.events))) }
{
    let reached = reached_lists(alloc, &model.flat)?;
    let tables = tables_of(alloc, texts)?;
    let mut entries = List::new(alloc);
    for event in 0..model.flat.system.events() {
        let entry = entry_of(
            alloc,
            files,
            tables.items(),
            model,
            reached.as_slice(),
            event,
        )?;
        entries.push(entry)?;
    }
    Ok(entries)
}

/// What is known of the line of an event, where these are the effects that each event reaches alone.
fn entry_of(
    alloc: Global,
    files: &[Word],
    tables: &[LineTable],
    model: &EventModel,
    reached: &[List<u32>],
    event: u32,
) -> Mem<Entry>
    requires { slice_index_or reached.now event [] ≡ reached_by model.now.flat event }
    ensures { IfOk result (λ entry. entry ≡ entry_of files.now tables.now model.now event) }
{
    let place = place_of(alloc, files, tables, model.origins.items(), event)?;
    let reached = numbers_copied(alloc, list_at(reached, event))?;
    Ok(Entry {
        event,
        reached,
        place,
    })
}

/// A list of these numbers.
fn numbers_copied(alloc: Global, numbers: &[u32]) -> Mem<List<u32>>
    ensures { IfOk result (λ list. list ≡ numbers.now) }
{
    List::of(Vec::from_slice(alloc, numbers)?)
}

/// The effects that each event of a model reaches alone.
fn reached_lists(alloc: Global, model: &FlatModel) -> Mem<Vec<List<u32>>>
    requires { RisesWithin 0 (length model.now.system.facts) model.now.effects }
    ensures { IfOk result (λ lists. (event : ℕ) → event < length model.now.system.events → slice_index_or lists.items event [] ≡ reached_by model.now event) }
{
    let count = model.system.events();
    let rows = rows(alloc, &model.system, model.effects.items())?;
    let lists = effect_lists(alloc, count, &rows)?;
    Ok(lists)
}

/// For each of so many events the effects of its rows.
fn effect_lists(alloc: Global, count: u32, rows: &List<Row>) -> Mem<Vec<List<u32>>>
    ensures { IfOk result (λ lists. (event : ℕ) → event < count → slice_index_or lists.items event [] ≡ effects_in rows.now event) }
{
    let mut lists = empty_lists(alloc, count)?;
    add_effects(lists.as_mut_slice(), rows.items())?;
    Ok(lists)
}

/// Adds the effect of each row to the list of its event.
fn add_effects(lists: &mut [List<u32>], rows: &[Row]) -> Mem<()>
    ensures { OnOk result (AddsEffects rows.now lists.old lists.new) }
{
    for row in rows {
        add_at(lists, row.event, row.effect)?;
    }
    Ok(())
}
