//! Settling an item: where all that it names is settled, so is what is reached from it.

ghost use Rattle.std.specs.Prelude.{◌≡◌, ◌<◌, max, slice_get, length, option_copied, option_to_list, IfOk, IfSome, IsTrue, None, Some, List as Items, Bool, ℕ, true};
ghost use Rattle.plain_values.specs.Order.{nearer};
ghost use Rattle.error_types.specs.inner.Grounded.{is_stopped};
ghost use Rattle.error_libraries.specs.Libraries.{item_at, library_scope, number_of};
ghost use Rattle.error_types.specs.inner.Rows.{IsGathered, IsOfTarget, IsReached, IsSettled, IsSum, Remembers, Stay, either, is_type_item, row_of};
ghost use Rattle.error_types.specs.Walk.{needs_of, of_item};

use crate::memory::{Memory, Reached};
use crate::needs::{Need, Needs, NextName};
use crate::row::Row;
use crate::walk::{is_set_item, needs_of, products_of};
use aadl_syntax::TypeItem;
use error_libraries::{Declarations, ItemId, is_type};
use plain_values::{Code, FirstRefusal, Mem, Refusal};
use std::alloc::{AllocError, Global};

/// What names come to, one after the other: their first refusal, the row of the types that they name, in fewer than how many
/// steps each way on from them ends, and the number of a row that may be the same.
#[derive(Drop)]
pub(crate) struct Sum {
    pub(crate) first: FirstRefusal,
    pub(crate) row: Row,
    pub(crate) depth: u32,
    pub(crate) like: u32,
}

/// Remembers what is reached from an item, where what it names is settled.
pub(crate) fn settle(
    alloc: Global,
    declarations: &mut Declarations<'_, '_>,
    memory: &mut Memory,
    id: ItemId,
) -> Mem<()>
    requires { Remembers declarations.old memory.old }
    ensures kept { declarations.new ≡ declarations.old }
    ensures memory { Remembers declarations.old memory.new }
{
    let item = declarations.item(id);
    let own = own_row(declarations, memory, id);
    let start = row_at(alloc, memory, own)?;
    match gather(
        alloc,
        declarations,
        memory,
        id.package,
        needs_of(true, item),
        start,
    )? {
        Some(sum) => settle_by(declarations, memory, id, item, own, sum),
        None => Ok(()),
    }
}

/// The number of the row of the type that an item is, if it is one.
fn own_row(declarations: &Declarations<'_, '_>, memory: &Memory, id: ItemId) -> u32
    requires { Remembers declarations.now memory.now }
    ensures { slice_get memory.now.rows result ≡ Some (row_of declarations.now (option_to_list (number_of declarations.now id))) }
{
    match declarations.number(id) {
        Some(number) => number,
        None => declarations.types().len() as u32,
    }
}

/// A copy of a row.
fn row_at(alloc: Global, memory: &Memory, number: u32) -> Mem<Row>
    ensures { IfOk result (λ row. slice_get memory.now.rows number ≡ Some row) }
{
    match memory.rows.items().get(number as usize) {
        Some(row) => row.copy(alloc),
        None => Err(AllocError),
    }
}

/// What names in the text of a library come to beside what a row has, if what they mean is settled.
fn gather<'a>(
    alloc: Global,
    declarations: &mut Declarations<'_, 'a>,
    memory: &Memory,
    home: u32,
    mut needs: Needs<'a>,
    start: Row,
) -> Mem<Option<Sum>>
    requires { Remembers declarations.old memory.now }
    ensures kept { declarations.new ≡ declarations.old }
    ensures sum { (types : Items ℕ) → start ≡ row_of declarations.old types → IfOk result (λ found. IfSome found (IsSum declarations.old (library_scope declarations.old home) types needs.entry)) }
{
    let mut sum = Sum {
        first: FirstRefusal::new(),
        row: start,
        depth: 0,
        like: 0,
    };
    for _ in 0..u64::MAX {
        match needs.next() {
            NextName::Name(need) => match look(alloc, declarations, memory, home, &need)? {
                Some(reached) => add(&mut sum, memory, reached),
                None => return Ok(None),
            },
            NextName::Passed => {}
            NextName::End => return Ok(Some(sum)),
        }
    }
    Ok(None)
}

/// Adds what a name comes to.
fn add(sum: &mut Sum, memory: &Memory, reached: Reached)
    ensures first { sum.new.first ≡ nearer sum.old.first reached.first }
    ensures row { (row : Items Bool) → slice_get memory.now.rows reached.row ≡ Some row → length row ≡ length sum.old.row → sum.new.row ≡ either sum.old.row row }
    ensures depth { sum.new.depth ≡ max sum.old.depth reached.depth }
{
    sum.first.note_some(reached.first);
    if let Some(row) = memory.rows.items().get(reached.row as usize) {
        sum.row.join(row);
    }
    sum.depth = sum.depth.max(reached.depth);
    sum.like = reached.row;
}

/// What a name in the text of a library comes to, if what it means is settled.
fn look<'a>(
    alloc: Global,
    declarations: &mut Declarations<'_, 'a>,
    memory: &Memory,
    home: u32,
    need: &Need<'a>,
) -> Mem<Option<Reached>>
    requires { Remembers declarations.old memory.now }
    ensures kept { declarations.new ≡ declarations.old }
    ensures found { IfOk result (λ found. IfSome found (IsGathered declarations.old memory.now.rows (library_scope declarations.old home) need.now)) }
{
    let mut first = FirstRefusal::new();
    let target = declarations.named_at(alloc, home, need.reference(), &mut first)?;
    Ok(look_at(declarations, memory, need, target, first))
}

/// What it comes to that a name means this, where this was refused of its look-up.
fn look_at(
    declarations: &Declarations<'_, '_>,
    memory: &Memory,
    need: &Need<'_>,
    target: Option<ItemId>,
    mut first: FirstRefusal,
) -> Option<Reached>
    requires { Remembers declarations.now memory.now }
    ensures { IfSome result (IsOfTarget declarations.now memory.now.rows need.now target first) }
{
    let Some(id) = target else {
        return Some(nothing(declarations, first));
    };
    if is_stopped(declarations, need, id) {
        first.note(Refusal::at(Code::UnknownType, need.reference().spot));
        return Some(nothing(declarations, first));
    }
    settled(memory, id, first)
}

/// No type, and this refusal.
fn nothing(declarations: &Declarations<'_, '_>, first: FirstRefusal) -> Reached
    ensures { result ≡ record { first = first; row = length declarations.now.types; depth = 0 } }
{
    Reached {
        first: first.noted(),
        row: declarations.types().len() as u32,
        depth: 0,
    }
}

/// Whether a walk goes no further than to an item.
fn is_stopped(declarations: &Declarations<'_, '_>, need: &Need<'_>, id: ItemId) -> bool
    ensures { result ≡ is_stopped declarations.now need.now id }
{
    need.of_type() && is_set_item(declarations.item(id))
}

/// What is remembered of an item, if it is settled, after this refusal.
fn settled(memory: &Memory, id: ItemId, mut first: FirstRefusal) -> Option<Reached>
    ensures { IfSome result (IsSettled memory.now id first) }
{
    let reached = memory.items.get(&(id.package, id.item)).copied()?;
    if reached.depth == 0 {
        return None;
    }
    first.note_some(reached.first);
    Some(Reached {
        first: first.noted(),
        row: reached.row,
        depth: reached.depth,
    })
}

/// Remembers of an item what its names come to: a type names itself, and any other what its names do.
fn settle_by(
    declarations: &Declarations<'_, '_>,
    memory: &mut Memory,
    id: ItemId,
    item: Option<&TypeItem>,
    own: u32,
    sum: Sum,
) -> Mem<()>
    requires memory { Remembers declarations.now memory.old }
    requires item { option_copied item ≡ item_at declarations.now.libraries id }
    requires own { slice_get memory.old.rows own ≡ Some (row_of declarations.now (option_to_list (number_of declarations.now id))) }
    requires sum { IsSum declarations.now (library_scope declarations.now id.«package») (option_to_list (number_of declarations.now id)) (of_item (needs_of true) (option_copied item)) sum }
    ensures { Remembers declarations.now memory.new }
{
    let Sum {
        first: refused,
        row,
        depth,
        like,
    } = sum;
    if depth == u32::MAX {
        return Ok(());
    }
    let mut first = products_of(item);
    first.note_some(refused.noted());
    let row = if is_type_item(item) {
        own
    } else {
        add_row(declarations, memory, row, like)?
    };
    let reached = Reached {
        first: first.noted(),
        row,
        depth: depth + 1,
    };
    remember(declarations, memory, id, reached)
}

/// Whether an item, if there is one, declares a type.
fn is_type_item(item: Option<&TypeItem>) -> bool
    ensures { result ≡ is_type_item (option_copied item.entry) }
{
    match item {
        Some(item) => is_type(&item.kind),
        None => false,
    }
}

/// Keeps a row, and gives its number. Where it is the same as that of a number, it is that one.
pub(crate) fn add_row(
    declarations: &Declarations<'_, '_>,
    memory: &mut Memory,
    row: Row,
    like: u32,
) -> Mem<u32>
    requires { Remembers declarations.now memory.old }
    ensures memory { Remembers declarations.now memory.new }
    ensures stay { Stay memory.old.rows memory.new.rows }
    ensures row { IfOk result (λ number. slice_get memory.new.rows number ≡ Some row) }
{
    if is_row(memory, &row, like) {
        return Ok(like);
    }
    let number = memory.rows.items().len() as u32;
    memory.rows.push(row)?;
    Ok(number)
}

/// Whether the row of a number is this one.
fn is_row(memory: &Memory, row: &Row, number: u32) -> bool
    ensures { IsTrue result → slice_get memory.now.rows number ≡ Some row.now }
{
    match memory.rows.items().get(number as usize) {
        Some(other) => other.is(row),
        None => false,
    }
}

/// Remembers what is reached from an item.
pub(crate) fn remember(
    declarations: &Declarations<'_, '_>,
    memory: &mut Memory,
    id: ItemId,
    reached: Reached,
) -> Mem<()>
    requires memory { Remembers declarations.now memory.old }
    requires reached { IsReached declarations.now memory.old.rows id reached }
    ensures memory { Remembers declarations.now memory.new }
    ensures rows { memory.new.rows ≡ memory.old.rows }
{
    memory.items.insert((id.package, id.item), reached)?;
    Ok(())
}
