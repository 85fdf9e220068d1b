//! Rows that are told by the columns of the effects, with no walk.

ghost use Rattle.std.specs.Prelude.{◌≡◌, ◌++◌, ◌⊎◌, [], IfOk, IsTrue, OnOk};
ghost use Rattle.fmea_rows.specs.inner.Columns.{AreColumns, AreToldAt, column_rows};

use crate::columns::{Column, Ends};
use crate::row::Row;
use crate::table::{Asked, is_new, row_of};
use plain_values::{List, Mem};
use std::alloc::Global;

/// The greatest number of rounds that columns have.
const MOST_ROUNDS: u64 = 16_777_216;

/// The columns of the effects, once the walks have taken as long as it takes to make them. When they are made decides how long the
/// rows take, and not which they are.
#[derive(Drop)]
pub(crate) struct Told {
    /// The columns of all effects, or none.
    pub columns: Vec<Column>,
    // how many steps the walks may still take before the columns are made
    left: u64,
}

impl Told {
    /// No column.
    pub fn none(alloc: Global, left: u64) -> Told
        ensures { result.columns.items ≡ [] }
    {
        Told {
            columns: Vec::new(alloc),
            left,
        }
    }

    /// Makes the columns, if it is time to after a walk of so many steps.
    pub fn make(&mut self, alloc: Global, asked: &Asked<'_>, steps: u64) -> Mem<()>
        requires { (self.old.columns.items ≡ []) ⊎ AreColumns asked.now.system.now asked.now.effects.now self.old.columns.items }
        ensures { OnOk result ((self.new.columns.items ≡ []) ⊎ AreColumns asked.now.system.now asked.now.effects.now self.new.columns.items) }
    {
        if self.left == 0 {
            return Ok(());
        }
        self.left = self.left.saturating_sub(steps);
        if self.left > 0 {
            return Ok(());
        }
        self.columns = columns_of(alloc, asked)?;
        Ok(())
    }
}

/// How many steps walks may take before columns are made, where a walk through all places takes so many.
pub(crate) fn steps_before(asked: &Asked<'_>, whole: u64) -> u64 {
    let effects = asked.effects.len() as u64;
    let events = u64::from(asked.system.events());
    if effects.saturating_mul(events) > MOST_ROUNDS {
        return u64::MAX;
    }
    whole.saturating_mul(effects.saturating_add(1))
}

// The columns of all effects.
fn columns_of(alloc: Global, asked: &Asked<'_>) -> Mem<Vec<Column>>
    ensures { IfOk result (λ columns. AreColumns asked.now.system.now asked.now.effects.now columns.items) }
{
    let ends = Ends::of(alloc, asked.system)?;
    let mut columns = Vec::new(alloc);
    for effect in asked.effects {
        columns.push(Column::of(alloc, asked.system, &ends, *effect)?)?;
    }
    Ok(columns)
}

/// Whether there are columns, and each tells the round under an event.
pub(crate) fn are_told(columns: &[Column], event: u32) -> bool
    ensures { IsTrue result → AreToldAt event columns.now }
{
    if columns.is_empty() {
        return false;
    }
    for column in columns {
        if !column.is_told(event) {
            return false;
        }
    }
    true
}

/// Adds the rows of an event, as the columns tell.
pub(crate) fn add_told(
    base: &[u32],
    columns: &[Column],
    event: u32,
    rows: &mut List<Row>,
) -> Mem<()>
    ensures { OnOk result (rows.new ≡ rows.old ++ column_rows base.now event columns.now) }
{
    for column in columns {
        let round = column.round(event);
        rows.push_if(
            row_of(event, column.effect, round),
            is_new(base, column.effect, round),
        )?;
    }
    Ok(())
}
