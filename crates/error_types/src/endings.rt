ghost use Rattle.std.specs.Prelude.{◌≡◌, ◌<◌, ◌+◌, ◌-◌, ◌^◌, [], ◌∷◌, IfOk, IsTrue, None, OnOk, reverse, true};
ghost use Rattle.std.specs.HashMap.{get};
ghost use Rattle.std.specs.List.{list_any};
ghost use Rattle.package_index.specs.inner.Tables.{same_pair};
ghost use Rattle.error_types.specs.inner.Endings.{AreEnds, EndsIn, IsWay, LeadsTo, Turns, TurnsBy, origin, type_through};
ghost use Rattle.error_libraries.specs.Search.{named};
ghost use Rattle.error_libraries.specs.inner.Tables.{has_number};
ghost use Rattle.error_libraries.specs.Libraries.{library_scope};
ghost use Rattle.error_types.specs.declared.endings.Turn.TheVariants.{Ended};

use aadl_syntax::{Ref, TypeKind};
use error_libraries::{Declarations, ItemId};
use plain_values::{FirstRefusal, Mem};
use std::alloc::{AllocError, Global};
use std::collections::HashMap;
use std::marker::Model;

/// The type that an item is at last, or none, and through at most how many aliases.
#[derive(Clone, Copy)]
pub(crate) struct End {
    pub(crate) number: Option<u32>,
    pub(crate) steps: u32,
}

/// What items end in, by the numbers of their packages and places.
pub(crate) type Ends = HashMap<(u32, u32), End>;

/// What an item is: it ends so, or is an alias of another.
#[derive(Clone, Copy)]
pub(crate) enum Turn {
    Ended(End),
    On(ItemId),
}

/// The aliases that were followed. Contracts see them as a list, the last first.
#[derive(Drop)]
struct Way {
    items: Vec<ItemId>,
    marks: HashMap<(u32, u32), bool>,
}

impl Model for Way {
    ghost use Rattle.std.specs.Prelude.{List, reverse};
    ghost use Rattle.std.specs.HashMap.{get};
    ghost use Rattle.package_index.specs.inner.Tables.{same_pair};
    ghost use Rattle.error_libraries.specs.declared.id.ItemId.{ItemId};
    ghost use Rattle.error_libraries.specs.inner.Tables.{AreAmong};

    ghost Value = { List ItemId };

    ghost view = { λ w. reverse w.items.items };

    ghost invariant = { λ w. AreAmong (reverse w.items.items) (get same_pair w.marks) };
}

impl Way {
    fn new(alloc: Global) -> Way
        ensures { result ≡ [] }
    {
        Way {
            items: Vec::new(alloc),
            marks: HashMap::new(alloc),
        }
    }

    /// Whether an item is known to be on the way.
    fn has(&self, id: ItemId) -> bool
        ensures { IsTrue result → list_any (has_number (id.«package», id.item)) self.now ≡ true }
    {
        self.marks.contains_key(&(id.package, id.item))
    }

    /// Goes on from an item.
    fn push(&mut self, id: ItemId) -> Mem<()>
        ensures { OnOk result (self.new ≡ id ∷ self.old) }
    {
        self.items.push(id)?;
        self.marks.insert((id.package, id.item), true)?;
        Ok(())
    }

    /// The items, the last at the end.
    fn items(self) -> Vec<ItemId>
        ensures { reverse result.items ≡ self }
    {
        self.items
    }
}

/// A way that was followed to its end: the aliases, the item behind the last of them, and what this ends in.
#[derive(Drop)]
struct Followed {
    way: Vec<ItemId>,
    last: ItemId,
    end: End,
}

/// The type that an item is, through aliases. What they end in is remembered.
pub(crate) fn type_of(
    alloc: Global,
    declarations: &mut Declarations<'_, '_>,
    ends: &mut Ends,
    id: ItemId,
) -> Mem<Option<u32>>
    requires { AreEnds declarations.old (get same_pair ends.old) }
    ensures kept { declarations.new ≡ declarations.old }
    ensures ends { AreEnds declarations.old (get same_pair ends.new) }
    ensures number { IfOk result (λ number. number ≡ type_through (2 ^ 64 - 1) declarations.old id) }
{
    let followed = follow(alloc, declarations, ends, id)?;
    note_ends(declarations, ends, followed)
}

/// Follows aliases from an item on.
fn follow(
    alloc: Global,
    declarations: &mut Declarations<'_, '_>,
    ends: &Ends,
    id: ItemId,
) -> Mem<Followed>
    requires { AreEnds declarations.old (get same_pair ends.now) }
    ensures kept { declarations.new ≡ declarations.old }
    ensures way { IfOk result (λ followed. IsWay declarations.old (reverse followed.way.items) followed.last) }
    ensures end { IfOk result (λ followed. EndsIn declarations.old followed.last followed.end) }
    ensures origin { IfOk result (λ followed. origin (reverse followed.way.items) followed.last ≡ id) }
{
    let mut way = Way::new(alloc);
    let mut last = id;
    for _ in 0..u64::MAX {
        match turn_of(alloc, declarations, ends, &way, last)? {
            Turn::On(next) => {
                way.push(last)?;
                last = next;
            }
            Turn::Ended(end) => {
                return Ok(Followed {
                    way: way.items(),
                    last,
                    end,
                });
            }
        }
    }
    Err(AllocError)
}

/// What an item is behind a way: one that is on the way comes to no type.
fn turn_of(
    alloc: Global,
    declarations: &mut Declarations<'_, '_>,
    ends: &Ends,
    way: &Way,
    id: ItemId,
) -> Mem<Turn>
    requires { AreEnds declarations.old (get same_pair ends.now) }
    ensures kept { declarations.new ≡ declarations.old }
    ensures turns { IfOk result (Turns declarations.old way.now id) }
{
    if let Some(end) = ends.get(&(id.package, id.item)).copied() {
        return Ok(Turn::Ended(end));
    }
    if way.has(id) {
        return Ok(nowhere());
    }
    item_turn(alloc, declarations, id)
}

/// No type.
fn nowhere() -> Turn
    ensures { result ≡ Ended (record { number = None; steps = 0 }) }
{
    Turn::Ended(End {
        number: None,
        steps: 0,
    })
}

/// What an item is by its declaration.
fn item_turn(alloc: Global, declarations: &mut Declarations<'_, '_>, id: ItemId) -> Mem<Turn>
    ensures kept { declarations.new ≡ declarations.old }
    ensures turns { IfOk result (TurnsBy declarations.old id) }
{
    match declarations.item(id) {
        Some(item) => match &item.kind {
            TypeKind::Alias(target) => alias_turn(alloc, declarations, id.package, target),
            TypeKind::Plain(_) => Ok(Turn::Ended(End {
                number: declarations.number(id),
                steps: 0,
            })),
            _ => Ok(nowhere()),
        },
        None => Ok(nowhere()),
    }
}

/// What an alias leads to.
fn alias_turn<'a>(
    alloc: Global,
    declarations: &mut Declarations<'_, 'a>,
    home: u32,
    target: &'a Ref,
) -> Mem<Turn>
    ensures kept { declarations.new ≡ declarations.old }
    ensures turns { IfOk result (λ turn. LeadsTo (named declarations.old (library_scope declarations.old home) target.now).target turn) }
{
    let mut first = FirstRefusal::new();
    match declarations.named_at(alloc, home, target, &mut first)? {
        Some(next) => Ok(Turn::On(next)),
        None => Ok(nowhere()),
    }
}

/// Remembers what the items of a way end in, and gives what the first of them ends in.
fn note_ends(
    declarations: &Declarations<'_, '_>,
    ends: &mut Ends,
    followed: Followed,
) -> Mem<Option<u32>>
    requires ends { AreEnds declarations.now (get same_pair ends.old) }
    requires way { IsWay declarations.now (reverse followed.way.items) followed.last }
    requires end { EndsIn declarations.now followed.last followed.end }
    ensures ends { AreEnds declarations.now (get same_pair ends.new) }
    ensures number { IfOk result (λ number. number ≡ type_through (2 ^ 64 - 1) declarations.now (origin (reverse followed.way.items) followed.last)) }
{
    let Followed {
        mut way,
        mut last,
        mut end,
    } = followed;
    while let Some(id) = way.pop() {
        end = one_more(end)?;
        ends.insert((id.package, id.item), end)?;
        last = id;
    }
    let _ = last;
    Ok(end.number)
}

/// The same through one alias more.
fn one_more(end: End) -> Mem<End>
    ensures number { IfOk result (λ more. more.number ≡ end.number) }
    ensures steps { IfOk result (λ more. more.steps ≡ end.steps + 1) }
    ensures few { IfOk result (λ more. more.steps < 2 ^ 32) }
{
    if end.steps == u32::MAX {
        return Err(AllocError);
    }
    Ok(End {
        number: end.number,
        steps: end.steps + 1,
    })
}
