ghost use Rattle.std.specs.Prelude.{◌≡◌, ◌<◌, ◌+◌, ◌^◌, ◌++◌, length, take, IfOk, OnOk};
ghost use Rattle.std.specs.HashMap.{get};
ghost use Rattle.package_index.specs.inner.Tables.{Knows, same_pair, same_text};
ghost use Rattle.error_libraries.specs.Libraries.{is_counted, is_place, is_type, types_by, types_in};
ghost use Rattle.error_libraries.specs.inner.Tables.{has_number, has_type_text};

use crate::id::ItemId;
use crate::library::{ItemText, Library};
use aadl_syntax::TypeKind;
use package_index::add;
use plain_values::{List, Mem};
use std::alloc::Global;
use std::collections::HashMap;

/// The types of all libraries, in the order of the files and of the text: of those of one name in a library the first, or
/// each.
pub fn types_by(alloc: Global, each: bool, libraries: &[Library<'_>]) -> Mem<List<ItemId>>
    requires { length libraries.now < 2 ^ 32 }
    ensures { IfOk result (λ types. types ≡ types_by each libraries.now) }
{
    let mut types = List::new(alloc);
    for (number, library) in libraries.iter().enumerate() {
        add_types(alloc, each, &mut types, number as u32, library.items())?;
    }
    Ok(types)
}

/// Adds the types of a library.
fn add_types(
    alloc: Global,
    each: bool,
    types: &mut List<ItemId>,
    number: u32,
    items: &[ItemText<'_>],
) -> Mem<()>
    requires { length items.now < 2 ^ 32 }
    ensures { OnOk result (types.new ≡ types.old ++ types_in each number items.now) }
{
    let places = type_places(alloc, items)?;
    for (place, item) in items.iter().enumerate() {
        let id = ItemId {
            package: number,
            item: place as u32,
        };
        types.push_if(id, is_counted(each, &places, items, id.item, item))?;
    }
    Ok(())
}

/// Whether the item of a place declares a type, and is the first that declares one of its name, unless each counts.
fn is_counted<'a>(
    each: bool,
    places: &HashMap<&'a [u8], u32>,
    items: &[ItemText<'a>],
    place: u32,
    item: &ItemText<'a>,
) -> bool
    requires { Knows has_type_text items.now (get same_text places.now) }
    ensures { result ≡ is_counted each items.now place item.now }
{
    is_type(&item.item().kind)
        && (each || is_place(places.get(item.item().name.text()).copied(), place))
}

fn is_place(found: Option<u32>, place: u32) -> bool
    ensures { result ≡ is_place found place }
{
    match found {
        Some(other) => other == place,
        None => false,
    }
}

/// The places of the items that declare types, by name: of each name the first.
fn type_places<'a>(alloc: Global, items: &[ItemText<'a>]) -> Mem<HashMap<&'a [u8], u32>>
    requires { length items.now < 2 ^ 32 }
    ensures { IfOk result (λ places. Knows has_type_text items.now (get same_text places)) }
{
    let mut places = HashMap::new(alloc);
    for place in 0..items.len() {
        add_place(&mut places, items, place)?;
    }
    Ok(places)
}

/// Adds the place of an item, if it declares a type.
fn add_place<'a>(
    places: &mut HashMap<&'a [u8], u32>,
    items: &[ItemText<'a>],
    place: usize,
) -> Mem<()>
    requires few { length items.now < 2 ^ 32 }
    requires within { place < length items.now }
    requires knows { Knows has_type_text (take place items.now) (get same_text places.old) }
    ensures { OnOk result (Knows has_type_text (take (place + 1) items.now) (get same_text places.new)) }
{
    let item = items[place].item();
    if is_type(&item.kind) {
        add(places, item.name.text(), place as u32)?;
    }
    Ok(())
}

/// Whether an item declares a type, and no alias or set.
pub fn is_type(kind: &TypeKind) -> bool
    ensures { result ≡ is_type kind.now }
{
    matches!(kind, TypeKind::Plain(_))
}

/// The numbers of types, by the numbers of their packages and places.
pub(crate) fn numbers_of(alloc: Global, types: &[ItemId]) -> Mem<HashMap<(u32, u32), u32>>
    requires { length types.now < 2 ^ 32 }
    ensures { IfOk result (λ numbers. Knows has_number types.now (get same_pair numbers)) }
{
    let mut numbers = HashMap::new(alloc);
    for (number, id) in types.iter().enumerate() {
        add(&mut numbers, (id.package, id.item), number as u32)?;
    }
    Ok(numbers)
}
