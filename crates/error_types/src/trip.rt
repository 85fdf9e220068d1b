ghost use Rattle.std.specs.Prelude.{◌≡◌, ◌<◌, ◌^◌, ◌∷◌, [], ◌++◌, ◌||◌, false, is_some, length, option_to_list, IfOk, OnOk};
ghost use Rattle.std.specs.List.{list_any};
ghost use Rattle.error_libraries.specs.inner.Course.{is_vain};
ghost use Rattle.error_types.specs.inner.Leaving.{LeavesItem, Offers};
ghost use Rattle.error_libraries.specs.inner.Tables.{has_number};
ghost use Rattle.error_types.specs.inner.Trip.{at_visit, items_on, noting};

use crate::needs::{Needs, NextName};
use error_libraries::ItemId;
use plain_values::{FirstRefusal, Mem, Refusal};
use std::alloc::{AllocError, Global};
use std::collections::HashMap;
use std::marker::Model;

/// An item that is being followed, and those of its names that are left.
#[derive(Drop)]
struct Visit<'a> {
    item: ItemId,
    rest: Needs<'a>,
}

impl<'a> Model for Visit<'a> {
    ghost use Rattle.error_types.specs.inner.Trip.{Visit as Followed};

    ghost Value = { Followed };

    ghost view = { λ v. record { item = v.item; rest = v.rest } };
}

/// A walk through items under way.
#[derive(Drop)]
pub(crate) struct Trip<'a> {
    top: Visit<'a>,
    below: Vec<Visit<'a>>,
    marks: HashMap<(u32, u32), bool>,
    followed: Vec<ItemId>,
    types: Vec<u32>,
    first: FirstRefusal,
}

impl<'a> Model for Trip<'a> {
    ghost use Rattle.std.specs.Prelude.{◌<◌, ◌^◌, length, reverse};
    ghost use Rattle.std.specs.HashMap.{get};
    ghost use Rattle.package_index.specs.inner.Tables.{same_pair};
    ghost use Rattle.error_types.specs.inner.Trip.{Trip as Way, IsTripMarked};

    ghost Value = { Way };

    ghost view = { λ t. record { top = t.top; below = reverse t.below.items; followed = t.followed.items; types = t.types.items; first = t.first } };

    ghost invariant = { λ t. IsTripMarked (record { top = t.top; below = reverse t.below.items; followed = t.followed.items; types = t.types.items; first = t.first }) (get same_pair t.marks)
        × (length t.below.items < 2 ^ 32) };
}

/// The items that were followed on a walk through an item, the types that are met, and its first refusal.
#[derive(Drop)]
pub(crate) struct Walked {
    pub(crate) followed: Vec<ItemId>,
    pub(crate) types: Vec<u32>,
    pub(crate) first: FirstRefusal,
}

/// Where a walk is once an item was followed to its end: at the item that led to it, or at its own end.
#[derive(Drop)]
pub(crate) enum Back<'a> {
    On(Trip<'a>),
    Out(Walked),
}

impl<'a> Trip<'a> {
    /// The walk at its first item, which has these names, is this type, and has this refusal.
    pub(crate) fn at(
        alloc: Global,
        item: ItemId,
        rest: Needs<'a>,
        types: Vec<u32>,
        first: FirstRefusal,
    ) -> Mem<Trip<'a>>
        ensures { IfOk result (λ trip. trip ≡ record { top = record { item = item; rest = rest.entry }; below = []; followed = []; types = types.items; first = first }) }
    {
        let mut marks = HashMap::new(alloc);
        marks.insert((item.package, item.item), true)?;
        Ok(Trip {
            top: Visit { item, rest },
            below: Vec::new(alloc),
            marks,
            followed: Vec::new(alloc),
            types,
            first,
        })
    }

    /// Takes the next of the names that are left at the top.
    pub(crate) fn next(&mut self) -> NextName<'a>
        ensures { Offers self.old result self.new }
    {
        self.top.rest.next()
    }

    /// The number of the package whose text has the names at the top.
    pub(crate) fn home(&self) -> u32
        ensures { result ≡ self.now.top.item.«package» }
    {
        self.top.item.package
    }

    /// Whether an item was followed to its end, or is being followed; none where it is neither.
    pub(crate) fn mark(&self, item: ItemId) -> Option<bool>
        ensures few { length self.now.below < 2 ^ 32 }
        ensures done { is_vain result ≡ list_any (has_number (item.«package», item.item)) self.now.followed }
        ensures entered { is_some result ≡ (list_any (has_number (item.«package», item.item)) self.now.followed || list_any (has_number (item.«package», item.item)) (items_on (self.now.top ∷ self.now.below))) }
    {
        self.marks.get(&(item.package, item.item)).copied()
    }

    /// Enters an item, which has these names, may be this type, and may have this refusal.
    pub(crate) fn enter(
        self,
        item: ItemId,
        rest: Needs<'a>,
        number: Option<u32>,
        refusal: Option<Refusal>,
    ) -> Mem<Trip<'a>>
        requires { list_any (has_number (item.«package», item.item)) self.followed ≡ false }
        ensures { IfOk result (λ trip. trip ≡ at_visit self.entry item rest.entry number refusal) }
    {
        let Trip {
            top,
            mut below,
            mut marks,
            followed,
            mut types,
            mut first,
        } = self;
        if below.len() >= 4_294_967_295 {
            return Err(AllocError);
        }
        marks.insert((item.package, item.item), true)?;
        below.push(top)?;
        push_number(&mut types, number)?;
        first.note_some(refusal);
        Ok(Trip {
            top: Visit { item, rest },
            below,
            marks,
            followed,
            types,
            first,
        })
    }

    /// Leaves the item at the top, which was followed to its end.
    pub(crate) fn leave(self) -> Mem<Back<'a>>
        ensures { IfOk result (LeavesItem self.entry) }
    {
        let Trip {
            top,
            mut below,
            mut marks,
            mut followed,
            types,
            first,
        } = self;
        let item = top.item;
        followed.push(item)?;
        let Some(next) = below.pop() else {
            return Ok(Back::Out(Walked {
                followed,
                types,
                first,
            }));
        };
        marks.insert((item.package, item.item), false)?;
        Ok(Back::On(Trip {
            top: next,
            below,
            marks,
            followed,
            types,
            first,
        }))
    }

    /// Notes a refusal, if there is one.
    pub(crate) fn note(&mut self, refusal: Option<Refusal>)
        ensures { self.new ≡ noting refusal self.old }
    {
        self.first.note_some(refusal);
    }
}

/// Adds a number, if there is one.
pub(crate) fn push_number(numbers: &mut Vec<u32>, number: Option<u32>) -> Mem<()>
    ensures { OnOk result (numbers.new.items ≡ numbers.old.items ++ option_to_list number) }
{
    if let Some(number) = number {
        numbers.push(number)?;
    }
    Ok(())
}
