ghost use Rattle.std.specs.Prelude.{◌≡◌, ◌<◌, ◌^◌, ◌&&◌, ◌∷◌, [], false, flat_map, length, option_copied, IfOk};
ghost use Rattle.plain_values.specs.Order.{least, nearer};
ghost use Rattle.error_types.specs.inner.Leaving.{LeadsWalk};
ghost use Rattle.error_libraries.specs.Libraries.{is_item_in, item_at};
ghost use Rattle.error_types.specs.inner.Trip.{arrival, items_on, walk_left, with_names};
ghost use Rattle.error_types.specs.Walk.{is_set_item, needs_of, number_met, of_item, product_of_term, products_of, walk_from};

use crate::needs::{Need, Needs, NextName};
use crate::trip::{Back, Trip, Walked, push_number};
use aadl_syntax::{Term, TypeItem, TypeKind};
use error_libraries::{Declarations, ItemId};
use plain_values::{Code, FirstRefusal, Mem, Refusal};
use std::alloc::{AllocError, Global};

/// Where a walk is after a step: on its way, or at its end.
#[derive(Drop)]
pub(crate) enum Stage<'a> {
    Next(Trip<'a>),
    Ended(Walked),
}

/// The walk through an item; `through` tells whether it goes on from a type to the one that this extends.
pub(crate) fn walk_from<'a>(
    alloc: Global,
    through: bool,
    declarations: &mut Declarations<'_, 'a>,
    id: ItemId,
) -> Mem<Walked>
    ensures kept { declarations.new ≡ declarations.old }
    ensures followed { IfOk result (λ walked. walked.followed.items ≡ (walk_from through declarations.old id).followed) }
    ensures types { IfOk result (λ walked. walked.types.items ≡ (walk_from through declarations.old id).types) }
    ensures first { IfOk result (λ walked. walked.first ≡ (walk_from through declarations.old id).first) }
{
    let mut trip = begun(alloc, through, declarations, id)?;
    for _ in 0..u64::MAX {
        match onward(alloc, through, declarations, trip)? {
            Stage::Next(next) => trip = next,
            Stage::Ended(walked) => return Ok(walked),
        }
    }
    Err(AllocError)
}

/// The walk at its first item.
fn begun<'a>(
    alloc: Global,
    through: bool,
    declarations: &Declarations<'_, 'a>,
    id: ItemId,
) -> Mem<Trip<'a>>
    ensures { IfOk result (λ trip. walk_left through declarations.now trip ≡ walk_from through declarations.now id) }
{
    let item = declarations.item(id);
    let mut types = Vec::new(alloc);
    push_number(&mut types, number_met(through, declarations, id))?;
    Trip::at(alloc, id, needs_of(through, item), types, products_of(item))
}

/// A step of a walk: to the next name that is left, or back.
fn onward<'a>(
    alloc: Global,
    through: bool,
    declarations: &mut Declarations<'_, 'a>,
    mut trip: Trip<'a>,
) -> Mem<Stage<'a>>
    ensures kept { declarations.new ≡ declarations.old }
    ensures leads { IfOk result (LeadsWalk through declarations.old (walk_left through declarations.old trip.entry)) }
{
    match trip.next() {
        NextName::Name(need) => look_up(alloc, through, declarations, trip, need),
        NextName::Passed => Ok(Stage::Next(trip)),
        NextName::End => back(through, declarations, trip),
    }
}

/// A walk that has nothing left at its top goes back.
fn back<'a>(through: bool, declarations: &Declarations<'_, 'a>, trip: Trip<'a>) -> Mem<Stage<'a>>
    requires { trip.top.rest ≡ [] }
    ensures { IfOk result (LeadsWalk through declarations.now (walk_left through declarations.now trip.entry)) }
{
    match trip.leave()? {
        Back::On(next) => Ok(Stage::Next(next)),
        Back::Out(walked) => Ok(Stage::Ended(walked)),
    }
}

/// A walk looks a name up, and goes on to what it means.
fn look_up<'a>(
    alloc: Global,
    through: bool,
    declarations: &mut Declarations<'_, 'a>,
    mut trip: Trip<'a>,
    need: Need<'a>,
) -> Mem<Stage<'a>>
    ensures kept { declarations.new ≡ declarations.old }
    ensures leads { IfOk result (LeadsWalk through declarations.old (walk_left through declarations.old (with_names (need.entry ∷ trip.entry.top.rest) trip.entry))) }
{
    let mut first = FirstRefusal::new();
    let target = declarations.named_at(alloc, trip.home(), need.reference(), &mut first)?;
    trip.note(first.noted());
    match target {
        Some(id) => arrive(through, declarations, trip, need, id),
        None => Ok(Stage::Next(trip)),
    }
}

/// A walk goes on to the item that a name means.
fn arrive<'a>(
    through: bool,
    declarations: &Declarations<'_, 'a>,
    mut trip: Trip<'a>,
    need: Need<'a>,
    id: ItemId,
) -> Mem<Stage<'a>>
    ensures { IfOk result (LeadsWalk through declarations.now (arrival through declarations.now need.entry trip.entry id)) }
{
    let spot = need.reference().spot;
    if need.of_type() && is_set_item(declarations.item(id)) {
        trip.note(Some(Refusal::at(Code::UnknownType, spot)));
        return Ok(Stage::Next(trip));
    }
    match trip.mark(id) {
        None => enter(through, declarations, trip, need, id),
        Some(false) => Ok(Stage::Next(trip)),
        Some(true) => {
            trip.note(Some(Refusal::at(Code::CyclicType, spot)));
            Ok(Stage::Next(trip))
        }
    }
}

/// A walk enters an item.
fn enter<'a>(
    through: bool,
    declarations: &Declarations<'_, 'a>,
    trip: Trip<'a>,
    need: Need<'a>,
    id: ItemId,
) -> Mem<Stage<'a>>
    requires few { length trip.below < 2 ^ 32 }
    requires kind { (need.of_type && is_set_item (item_at declarations.now.libraries id)) ≡ false }
    requires new { is_item_in trip.followed id ≡ false }
    requires apart { is_item_in (items_on (trip.top ∷ trip.below)) id ≡ false }
    ensures { IfOk result (LeadsWalk through declarations.now (arrival through declarations.now need.entry trip.entry id)) }
{
    let item = declarations.item(id);
    let number = number_met(through, declarations, id);
    let first = products_of(item);
    let next = trip.enter(id, needs_of(through, item), number, first.noted())?;
    Ok(Stage::Next(next))
}

/// The number of the type that an item is, where the walk gathers types.
fn number_met(through: bool, declarations: &Declarations<'_, '_>, id: ItemId) -> Option<u32>
    ensures { result ≡ number_met through declarations.now id }
{
    if through {
        None
    } else {
        declarations.number(id)
    }
}

/// Whether an item, if there is one, is a set or an alias of one.
pub(crate) fn is_set_item(item: Option<&TypeItem>) -> bool
    ensures { result ≡ is_set_item (option_copied item.entry) }
{
    match item {
        Some(item) => matches!(item.kind, TypeKind::Set(_) | TypeKind::SetAlias(_)),
        None => false,
    }
}

/// The names that an item states, if there is one.
pub(crate) fn needs_of(through: bool, item: Option<&TypeItem>) -> Needs<'_>
    ensures { result ≡ of_item (needs_of through) (option_copied item.entry) }
{
    match item {
        Some(item) => Needs::of(through, &item.kind),
        None => Needs::one(false, None),
    }
}

/// The first refusal of the products of an item, if there is one.
pub(crate) fn products_of(item: Option<&TypeItem>) -> FirstRefusal
    ensures { result ≡ least (of_item products_of (option_copied item.entry)) }
{
    let mut first = FirstRefusal::new();
    if let Some(item) = item {
        if let TypeKind::Set(set) = &item.kind {
            note_products(set.terms.items(), &mut first);
        }
    }
    first
}

/// Notes P4 at each product among terms.
fn note_products(terms: &[Term], first: &mut FirstRefusal)
    ensures { first.new ≡ nearer first.old (least (flat_map product_of_term terms.now)) }
{
    for term in terms {
        note_product(term, first);
    }
}

/// Notes P4 at a product.
fn note_product(term: &Term, first: &mut FirstRefusal)
    ensures { first.new ≡ nearer first.old (least (product_of_term term.now)) }
{
    if let Term::Product(spot) = term {
        first.note(Refusal::at(Code::TypeProduct, *spot));
    }
}
