//! What is reached from an item, as it is remembered, or else as it is then found.

ghost use Rattle.std.specs.Prelude.{◌≡◌, ◌∷◌, [], Bool, List as Items, length, slice_get, IfOk, IfSome, Some};
ghost use Rattle.error_types.specs.inner.Rows.{Adds, IsReached, Remembers, either, row_of};

use crate::memory::{Memory, Reached};
use crate::needs::{Needs, NextName};
use crate::row::Row;
use crate::settle::{add_row, remember, settle};
use crate::walk::{needs_of, walk_from};
use error_libraries::{Declarations, ItemId};
use plain_values::{FirstRefusal, Mem};
use std::alloc::Global;

/// An item that is looked through, and those of its names that are left.
#[derive(Drop)]
struct Open<'a> {
    item: ItemId,
    rest: Needs<'a>,
}

/// What is reached from an item.
pub(crate) fn reached(
    alloc: Global,
    declarations: &mut Declarations<'_, '_>,
    memory: &mut Memory,
    id: ItemId,
) -> Mem<Reached>
    requires { Remembers declarations.old memory.old }
    ensures kept { declarations.new ≡ declarations.old }
    ensures memory { Remembers declarations.old memory.new }
    ensures reached { IfOk result (IsReached declarations.old memory.new.rows id) }
{
    if let Some(reached) = recall(declarations, memory, id) {
        return Ok(reached);
    }
    explore(alloc, declarations, memory, id)?;
    match recall(declarations, memory, id) {
        Some(reached) => Ok(reached),
        None => reached_by_walks(alloc, declarations, memory, id),
    }
}

/// What is remembered of an item.
fn recall(declarations: &Declarations<'_, '_>, memory: &Memory, id: ItemId) -> Option<Reached>
    requires { Remembers declarations.now memory.now }
    ensures { IfSome result (IsReached declarations.now memory.now.rows id) }
{
    memory.items.get(&(id.package, id.item)).copied()
}

/// Settles what can be settled of all that is reached from an item, each item after those that it names.
fn explore<'a>(
    alloc: Global,
    declarations: &mut Declarations<'_, 'a>,
    memory: &mut Memory,
    id: ItemId,
) -> Mem<()>
    requires { Remembers declarations.old memory.old }
    ensures kept { declarations.new ≡ declarations.old }
    ensures memory { Remembers declarations.old memory.new }
{
    let mut open = Vec::new(alloc);
    enter(declarations, memory, &mut open, id)?;
    for _ in 0..u64::MAX {
        match open.pop() {
            Some(top) => advance(alloc, declarations, memory, &mut open, top)?,
            None => return Ok(()),
        }
    }
    Ok(())
}

/// Goes on from an item: to the next of its names, or, where none is left, to settle it.
fn advance<'a>(
    alloc: Global,
    declarations: &mut Declarations<'_, 'a>,
    memory: &mut Memory,
    open: &mut Vec<Open<'a>>,
    mut top: Open<'a>,
) -> Mem<()>
    requires { Remembers declarations.old memory.old }
    ensures kept { declarations.new ≡ declarations.old }
    ensures memory { Remembers declarations.old memory.new }
{
    let home = top.item.package;
    match top.rest.next() {
        NextName::Name(need) => {
            open.push(top)?;
            let mut first = FirstRefusal::new();
            match declarations.named_at(alloc, home, need.reference(), &mut first)? {
                Some(id) => enter(declarations, memory, open, id),
                None => Ok(()),
            }
        }
        NextName::Passed => {
            open.push(top)?;
            Ok(())
        }
        NextName::End => settle(alloc, declarations, memory, top.item),
    }
}

/// Begins to look through an item, where that was not done before.
fn enter<'a>(
    declarations: &Declarations<'_, 'a>,
    memory: &mut Memory,
    open: &mut Vec<Open<'a>>,
    id: ItemId,
) -> Mem<()>
    requires { Remembers declarations.now memory.old }
    ensures { Remembers declarations.now memory.new }
{
    let was = memory.tried.insert((id.package, id.item), true)?;
    if was.is_none() {
        open.push(Open {
            item: id,
            rest: needs_of(true, declarations.item(id)),
        })?;
    }
    Ok(())
}

/// What is reached from an item, by walks through it.
fn reached_by_walks(
    alloc: Global,
    declarations: &mut Declarations<'_, '_>,
    memory: &mut Memory,
    id: ItemId,
) -> Mem<Reached>
    requires { Remembers declarations.old memory.old }
    ensures kept { declarations.new ≡ declarations.old }
    ensures memory { Remembers declarations.old memory.new }
    ensures reached { IfOk result (IsReached declarations.old memory.new.rows id) }
{
    let through = walk_from(alloc, true, declarations, id)?;
    let named = walk_from(alloc, false, declarations, id)?;
    let row = row_of_types(alloc, declarations, memory, named.types.as_slice())?;
    let number = add_row(declarations, memory, row, 0)?;
    let reached = Reached {
        first: through.first.noted(),
        row: number,
        depth: 0,
    };
    remember(declarations, memory, id, reached)?;
    Ok(reached)
}

/// The row of these types.
fn row_of_types(
    alloc: Global,
    declarations: &Declarations<'_, '_>,
    memory: &Memory,
    types: &[u32],
) -> Mem<Row>
    requires { Remembers declarations.now memory.now }
    ensures { IfOk result (λ row. row ≡ row_of declarations.now types.now) }
{
    let mut row = Row::new(alloc, declarations.types().len() as u32)?;
    for number in types {
        join_type(declarations, memory, &mut row, *number);
    }
    Ok(row)
}

/// Puts the types that are below a type into a row.
fn join_type(declarations: &Declarations<'_, '_>, memory: &Memory, row: &mut Row, number: u32)
    requires { Remembers declarations.now memory.now }
    ensures { Adds declarations.now row.old row.new (number ∷ []) }
{
    if (number as usize) < declarations.types().len() {
        join_row(memory, row, number);
    }
}

/// Puts what the row of a number has into another.
pub(crate) fn join_row(memory: &Memory, row: &mut Row, number: u32)
    ensures { (other : Items Bool) → slice_get memory.now.rows number ≡ Some other → length other ≡ length row.old → row.new ≡ either row.old other }
{
    if let Some(other) = memory.rows.items().get(number as usize) {
        row.join(other);
    }
}
