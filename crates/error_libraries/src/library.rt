ghost use Rattle.std.specs.Prelude.{◌≡◌, ◌<◌, ◌^◌, ◌∷◌, ◌++◌, length, option_copied, position, slice_get, IfOk, OnOk};
ghost use Rattle.std.specs.HashMap.{get};
ghost use Rattle.plain_values.specs.Order.{least};
ghost use Rattle.noted_refusals.specs.inner.Noted.{noting};
ghost use Rattle.package_index.specs.inner.Tables.{Knows, same_text};
ghost use Rattle.error_libraries.specs.Libraries.{extended_by, has_item_name, items_of, libraries_named, library_named, library_of, libraries_of, unknown_libraries, unknown_to, used_by};
ghost use Rattle.error_libraries.specs.inner.Tables.{has_item_text};

use crate::scope::Scope;
use aadl_syntax::{PackageUnit, Ref, TypeItem, TypesBlock};
use noted_refusals::Refusals;
use package_index::{Index, Words, add};
use plain_values::{Code, List, Mem, Refusal};
use std::alloc::Global;
use std::collections::HashMap;
use std::marker::Model;

/// An item of a library. Contracts see the item.
#[derive(Drop)]
pub struct ItemText<'a> {
    item: &'a TypeItem,
}

impl<'a> Model for ItemText<'a> {
    ghost use Rattle.aadl_syntax.specs.declared.error_model.TypeItem.{TypeItem};

    ghost Value = { TypeItem };

    ghost view = { λ i. i.item.now };
}

impl<'a> ItemText<'a> {
    /// The declaration of the item.
    pub fn item(&self) -> &'a TypeItem
        ensures { result.now ≡ self.now }
    {
        self.item
    }
}

/// A library with the table of its names. Contracts see its items, the libraries that it extends, where its text looks for a
/// bare name, and the first refusal of its names of libraries.
#[derive(Drop)]
pub struct Library<'a> {
    items: List<ItemText<'a>>,
    places: HashMap<&'a [u8], u32>,
    extends: List<u32>,
    scope: Scope,
    unknown: Option<Refusal>,
}

impl<'a> Model for Library<'a> {
    ghost use Rattle.std.specs.HashMap.{get};
    ghost use Rattle.package_index.specs.inner.Tables.{Knows, same_text};
    ghost use Rattle.error_libraries.specs.Libraries.{Library as Text};
    ghost use Rattle.error_libraries.specs.inner.Tables.{has_item_text};

    ghost Value = { Text };

    ghost view = { λ l. record { items = l.items; extends = l.extends; scope = l.scope; unknown = l.unknown } };

    ghost invariant = { λ l. Knows has_item_text l.items (get same_text l.places) };
}

impl<'a> Library<'a> {
    /// The library of a package of this number.
    pub(crate) fn of(
        alloc: Global,
        index: &Index<'a>,
        number: u32,
        unit: &'a PackageUnit,
    ) -> Mem<Library<'a>>
        ensures { IfOk result (λ made. made ≡ library_of index.now number unit.now) }
    {
        let blocks = unit.library.blocks.items();
        let items = items_of(alloc, blocks)?;
        let places = places_of(alloc, items.items())?;
        let extends = extended_by(alloc, index, number, blocks)?;
        let libraries = searched_by(alloc, index, number, blocks)?;
        let unknown = unknown_to(alloc, index, number, blocks);
        Ok(Library {
            items,
            places,
            extends,
            scope: Scope {
                package: number,
                libraries,
            },
            unknown,
        })
    }

    /// Its items.
    pub fn items(&self) -> &[ItemText<'a>]
        ensures items { result.now ≡ self.now.items }
        ensures few { length self.now.items < 2 ^ 32 }
    {
        self.items.items()
    }

    /// The place of its first item of a name.
    pub(crate) fn place(&self, name: &[u8]) -> Option<u32>
        ensures { result ≡ position (has_item_name name.now) self.now.items }
    {
        self.places.get(name).copied()
    }

    /// The item of a place.
    pub fn item(&self, place: u32) -> Option<&'a TypeItem>
        ensures { option_copied result ≡ slice_get self.now.items place }
    {
        Some(self.items.items().get(place as usize)?.item())
    }

    /// The numbers of the libraries that it extends.
    pub(crate) fn extends(&self) -> &[u32]
        ensures { result.now ≡ self.now.extends }
    {
        self.extends.items()
    }

    /// Where its text looks for a bare name.
    pub(crate) fn scope(&self) -> &Scope
        ensures { result.now ≡ self.now.scope }
    {
        &self.scope
    }

    /// The first refusal of its names of libraries.
    pub(crate) fn unknown(&self) -> Option<Refusal>
        ensures { result ≡ self.now.unknown }
    {
        self.unknown
    }
}

/// The libraries of all packages, in order.
pub(crate) fn libraries_of<'a>(alloc: Global, index: &Index<'a>) -> Mem<List<Library<'a>>>
    ensures { IfOk result (λ libraries. libraries ≡ libraries_of index.now) }
{
    let mut libraries = List::new(alloc);
    for (number, package) in index.packages().iter().enumerate() {
        let library = Library::of(alloc, index, number as u32, package.unit())?;
        libraries.push(library)?;
    }
    Ok(libraries)
}

fn items_of<'a>(alloc: Global, blocks: &'a [TypesBlock]) -> Mem<List<ItemText<'a>>>
    ensures { IfOk result (λ items. items ≡ items_of blocks.now) }
{
    let mut items = List::new(alloc);
    for block in blocks {
        add_items(&mut items, block.items.items())?;
    }
    Ok(items)
}

fn add_items<'a>(items: &mut List<ItemText<'a>>, more: &'a [TypeItem]) -> Mem<()>
    ensures { OnOk result (items.new ≡ items.old ++ more.now) }
{
    for item in more {
        items.push(ItemText { item })?;
    }
    Ok(())
}

/// The places of items by name: of each name the first.
fn places_of<'a>(alloc: Global, items: &[ItemText<'a>]) -> Mem<HashMap<&'a [u8], u32>>
    requires { length items.now < 2 ^ 32 }
    ensures { IfOk result (λ places. Knows has_item_text items.now (get same_text places)) }
{
    let mut places = HashMap::new(alloc);
    for (place, item) in items.iter().enumerate() {
        add(&mut places, item.item().name.text(), place as u32)?;
    }
    Ok(places)
}

fn extended_by(alloc: Global, index: &Index, home: u32, blocks: &[TypesBlock]) -> Mem<List<u32>>
    ensures { IfOk result (λ libraries. libraries ≡ extended_by index.now home blocks.now) }
{
    let mut libraries = List::new(alloc);
    for block in blocks {
        add_named(index, home, block.extends.items(), &mut libraries)?;
    }
    Ok(libraries)
}

/// The library itself, and then those whose types it uses.
fn searched_by(alloc: Global, index: &Index, home: u32, blocks: &[TypesBlock]) -> Mem<List<u32>>
    ensures { IfOk result (λ libraries. libraries ≡ home ∷ used_by index.now home blocks.now) }
{
    let mut libraries = List::new(alloc);
    libraries.push(home)?;
    for block in blocks {
        add_named(index, home, block.uses.items(), &mut libraries)?;
    }
    Ok(libraries)
}

/// The first refusal of the names of libraries of a library.
fn unknown_to(alloc: Global, index: &Index, home: u32, blocks: &[TypesBlock]) -> Option<Refusal>
    ensures { result ≡ least (unknown_to index.now home blocks.now) }
{
    let mut refusals = Refusals::new(alloc);
    for block in blocks {
        note_block(index, home, block, &mut refusals);
    }
    refusals.first()
}

/// Notes N2 at each name of a library that a block uses or extends, and that means none.
#[tactic(auto, using(noted_refusals::proofs::Noting::noted_more))]
fn note_block(index: &Index, home: u32, block: &TypesBlock, refusals: &mut Refusals)
    ensures { refusals.new ≡ noting refusals.old (unknown_libraries index.now home block.now.uses ++ unknown_libraries index.now home block.now.extends) }
{
    note_unknown(index, home, block.uses.items(), refusals);
    note_unknown(index, home, block.extends.items(), refusals);
}

/// The library that a name means in a text of a package.
fn library_named(index: &Index, home: u32, reference: &Ref) -> Option<u32>
    ensures { result ≡ library_named index.now home reference.now }
{
    index.find_package(home, Words::Identifiers(reference.names.items()))
}

/// Adds the libraries that names mean in a text of a package.
pub fn add_named(index: &Index, home: u32, references: &[Ref], libraries: &mut List<u32>) -> Mem<()>
    ensures { OnOk result (libraries.new ≡ libraries.old ++ libraries_named index.now home references.now) }
{
    for reference in references {
        libraries.push_some(library_named(index, home, reference))?;
    }
    Ok(())
}

/// Notes N2 at each name that means no library in a text of a package.
pub fn note_unknown(index: &Index, home: u32, references: &[Ref], refusals: &mut Refusals)
    ensures { refusals.new ≡ noting refusals.old (unknown_libraries index.now home references.now) }
{
    for reference in references {
        let is_unknown = library_named(index, home, reference).is_none();
        refusals.note_if(is_unknown, Code::UnknownPackage, reference.spot);
    }
}
