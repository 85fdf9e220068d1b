ghost use Rattle.std.specs.Prelude.{◌≡◌, ◌<◌, ◌^◌, [], None, Some, length, option_copied, option_map, slice_get, IfOk, OnOk};
ghost use Rattle.std.specs.HashMap.{get};
ghost use Rattle.plain_values.specs.Order.{nearer};
ghost use Rattle.error_libraries.specs.inner.Known.{AreFound, of_libraries, same_search};
ghost use Rattle.error_libraries.specs.Libraries.{item_at, library_scope, number_of, scope_of, table_of};
ghost use Rattle.error_libraries.specs.Printed.{item_name};
ghost use Rattle.error_libraries.specs.Search.{item_found, last_name, name_fault, named, named_in, search_along};

use crate::id::{ItemId, Looked};
use crate::known::Known;
use crate::library::{Library, libraries_of};
use crate::numbers::{numbers_of, types_by};
use crate::scope::Scope;
use crate::search::search;
use crate::type_name::TypeName;
use aadl_syntax::{PackageUnit, Ref, TypeItem};
use package_index::{Index, Words};
use plain_values::{Code, FirstRefusal, List, Mem, Refusal, Spot};
use profiles::Profile;
use std::alloc::Global;
use std::collections::HashMap;
use std::marker::Model;

/// What names are looked up in: the packages, and their libraries.
#[derive(Clone, Copy)]
struct Declared<'t, 'a> {
    index: &'t Index<'a>,
    libraries: &'t [Library<'a>],
}

/// What the libraries of all packages declare. Contracts see the profile, the packages, the libraries and the types.
#[derive(Drop)]
pub struct Declarations<'i, 'a> {
    profile: Profile,
    index: &'i Index<'a>,
    libraries: List<Library<'a>>,
    types: List<ItemId>,
    numbers: HashMap<(u32, u32), u32>,
    nowhere: Scope,
    known: Known<'a>,
}

impl<'i, 'a> Model for Declarations<'i, 'a> {
    ghost use Rattle.std.specs.Prelude.{◌≡◌, []};
    ghost use Rattle.std.specs.Coded.{codes};
    ghost use Rattle.std.specs.HashMap.{get};
    ghost use Rattle.aadl_syntax.specs.contracts.error_model.Condition as condition;
    ghost use Rattle.package_index.specs.inner.Tables.{Knows, same_pair};
    ghost use Rattle.error_libraries.specs.inner.Known.{AreFound, same_search};
    ghost use Rattle.error_libraries.specs.Libraries.{Table, table_of};
    ghost use Rattle.error_libraries.specs.inner.Tables.{has_number};

    ghost Value = { Table };

    ghost coded = { Prim.hlevel (codes, condition.the_row.coded) };

    ghost view = { λ d. record { profile = d.profile; packages = d.index.now; libraries = d.libraries; types = d.types } };

    ghost invariant = { λ d. Knows has_number d.types (get same_pair d.numbers)
        × (d.nowhere ≡ record { «package» = 0; libraries = [] })
        × (record { profile = d.profile; packages = d.index.now; libraries = d.libraries; types = d.types } ≡ table_of d.profile d.index.now)
        × AreFound d.libraries (get same_search d.known) };
}

impl<'i, 'a> Declarations<'i, 'a> {
    /// What the packages of an index declare, read by this profile.
    pub fn of(alloc: Global, profile: Profile, index: &'i Index<'a>) -> Mem<Declarations<'i, 'a>>
        ensures { IfOk result (λ made. made ≡ table_of profile index.now) }
    {
        let libraries = libraries_of(alloc, index)?;
        let types = types_by(alloc, false, libraries.items())?;
        let numbers = numbers_of(alloc, types.items())?;
        Ok(Declarations {
            profile,
            index,
            libraries,
            types,
            numbers,
            nowhere: Scope {
                package: 0,
                libraries: List::new(alloc),
            },
            known: HashMap::new(alloc),
        })
    }

    /// The profile by which they are read.
    pub fn profile(&self) -> Profile
        ensures { result ≡ self.now.profile }
    {
        self.profile
    }

    /// The types, in order.
    pub fn types(&self) -> &[ItemId]
        ensures types { result.now ≡ self.now.types }
        ensures few { length self.now.types < 2 ^ 32 }
    {
        self.types.items()
    }

    /// The item of the type of a number.
    pub fn type_id(&self, number: u32) -> Option<ItemId>
        ensures item { result ≡ slice_get self.now.types number }
        ensures made { self.now ≡ table_of self.now.profile self.now.packages }
    {
        self.types.items().get(number as usize).copied()
    }

    /// The libraries, in order.
    pub fn libraries(&self) -> &[Library<'a>]
        ensures libraries { result.now ≡ self.now.libraries }
        ensures few { length self.now.libraries < 2 ^ 32 }
    {
        self.libraries.items()
    }

    /// The index of the packages.
    pub fn index(&self) -> &'i Index<'a>
        ensures { result.now ≡ self.now.packages }
    {
        self.index
    }

    /// An item of a library.
    pub fn item(&self, id: ItemId) -> Option<&'a TypeItem>
        ensures { option_copied result ≡ item_at self.now.libraries id }
    {
        self.libraries
            .items()
            .get(id.package as usize)?
            .item(id.item)
    }

    /// The number of a type.
    pub fn number(&self, id: ItemId) -> Option<u32>
        ensures { result ≡ number_of self.now id }
    {
        self.numbers.get(&(id.package, id.item)).copied()
    }

    /// The name of the type that an item declares.
    pub fn name(&self, id: ItemId) -> Option<TypeName<'a>>
        ensures { result ≡ item_name self.now id }
    {
        match self.index.package(id.package) {
            Some(unit) => name_in(unit, self.item(id)),
            None => None,
        }
    }

    /// What a reference means in a text. Its first refusal is noted.
    pub fn named(
        &mut self,
        alloc: Global,
        scope: &Scope,
        reference: &'a Ref,
        first: &mut FirstRefusal,
    ) -> Mem<Option<ItemId>>
        ensures kept { self.new ≡ self.old }
        ensures target { IfOk result (λ target. target ≡ (named self.old scope.now reference.now).target) }
        ensures first { OnOk result (first.new ≡ nearer first.old (named self.old scope.now reference.now).first) }
    {
        let declared = Declared {
            index: self.index,
            libraries: self.libraries.items(),
        };
        named(alloc, &declared, &mut self.known, scope, reference, first)
    }

    /// The same in the text of the library of a package.
    pub fn named_at(
        &mut self,
        alloc: Global,
        home: u32,
        reference: &'a Ref,
        first: &mut FirstRefusal,
    ) -> Mem<Option<ItemId>>
        ensures kept { self.new ≡ self.old }
        ensures target { IfOk result (λ target. target ≡ (named self.old (library_scope self.old home) reference.now).target) }
        ensures first { OnOk result (first.new ≡ nearer first.old (named self.old (library_scope self.old home) reference.now).first) }
    {
        let libraries = self.libraries.items();
        let scope = scope_at(libraries, &self.nowhere, home);
        let declared = Declared {
            index: self.index,
            libraries,
        };
        named(alloc, &declared, &mut self.known, scope, reference, first)
    }
}

/// Where the text of the library of a package looks for a bare name; `nowhere` where there is no such library.
fn scope_at<'t>(libraries: &'t [Library<'_>], nowhere: &'t Scope, home: u32) -> &'t Scope
    requires { nowhere.now ≡ scope_of None }
    ensures { result.now ≡ scope_of (slice_get libraries.now home) }
{
    match libraries.get(home as usize) {
        Some(library) => library.scope(),
        None => nowhere,
    }
}

/// What a reference means in a text, by these libraries. Its first refusal is noted.
fn named<'a>(
    alloc: Global,
    declared: &Declared<'_, 'a>,
    known: &mut Known<'a>,
    scope: &Scope,
    reference: &'a Ref,
    first: &mut FirstRefusal,
) -> Mem<Option<ItemId>>
    requires { AreFound declared.now.libraries.now (get same_search known.old) }
    ensures known { AreFound declared.now.libraries.now (get same_search known.new) }
    ensures target { IfOk result (λ target. target ≡ (named (of_libraries declared.now.index.now declared.now.libraries.now) scope.now reference.now).target) }
    ensures first { OnOk result (first.new ≡ nearer first.old (named (of_libraries declared.now.index.now declared.now.libraries.now) scope.now reference.now).first) }
{
    let libraries = declared.libraries;
    let names = Words::Identifiers(reference.names.items());
    let front = names.front();
    if front.len() == 0 {
        let searched = scope.libraries.items();
        return named_in(alloc, known, libraries, searched, reference, first);
    }
    match declared.index.find_package(scope.package, front) {
        Some(number) => named_in(alloc, known, libraries, &[number], reference, first),
        None => {
            first.note(Refusal::at(Code::UnknownPackage, reference.spot));
            Ok(None)
        }
    }
}

/// What a reference means by a search in these of the libraries. Its first refusal is noted.
fn named_in<'a>(
    alloc: Global,
    known: &mut Known<'a>,
    libraries: &[Library<'a>],
    searched: &[u32],
    reference: &'a Ref,
    first: &mut FirstRefusal,
) -> Mem<Option<ItemId>>
    requires { AreFound libraries.now (get same_search known.old) }
    ensures known { AreFound libraries.now (get same_search known.new) }
    ensures target { IfOk result (λ target. target ≡ (named_in (of_libraries [] libraries.now) reference.now (Some searched.now)).target) }
    ensures first { OnOk result (first.new ≡ nearer first.old (named_in (of_libraries [] libraries.now) reference.now (Some searched.now)).first) }
{
    let name = last_name(reference);
    let mut met = FirstRefusal::new();
    let looked = search_along(alloc, known, libraries, name, searched, &mut met)?;
    met.note_some(name_fault(reference.spot, looked));
    first.note_some(met.noted());
    Ok(item_found(looked))
}

/// The name of the type that an item of a package declares, if there is the item.
fn name_in<'a>(unit: &'a PackageUnit, item: Option<&'a TypeItem>) -> Option<TypeName<'a>>
    ensures { result ≡ option_map (λ t. record { library = unit.now.name; name = t.name }) (option_copied item.entry) }
{
    match item {
        Some(item) => Some(TypeName::of(unit, item)),
        None => None,
    }
}

/// The last name of a reference.
fn last_name(reference: &Ref) -> &[u8]
    ensures { result.now ≡ last_name reference.now.names }
{
    match Words::Identifiers(reference.names.items()).last() {
        Some(name) => name,
        None => &[],
    }
}

/// What the search for a name in libraries finds, one after the other. The first refusal that it meets is noted.
fn search_along<'a>(
    alloc: Global,
    known: &mut Known<'a>,
    libraries: &[Library<'a>],
    name: &'a [u8],
    numbers: &[u32],
    first: &mut FirstRefusal,
) -> Mem<Looked>
    requires { AreFound libraries.now (get same_search known.old) }
    ensures known { AreFound libraries.now (get same_search known.new) }
    ensures found { IfOk result (λ looked. looked ≡ (search_along libraries.now name.now numbers.now).found) }
    ensures first { OnOk result (first.new ≡ nearer first.old (search_along libraries.now name.now numbers.now).first) }
{
    for number in numbers {
        let looked = search(alloc, known, libraries, name, *number, first)?;
        match looked {
            Looked::Nowhere => {}
            _ => return Ok(looked),
        }
    }
    Ok(Looked::Nowhere)
}

/// The item that was found.
fn item_found(looked: Looked) -> Option<ItemId>
    ensures { result ≡ item_found looked }
{
    match looked {
        Looked::Found(id) => Some(id),
        _ => None,
    }
}

/// N7 where a name is found nowhere, N8 where its search is circular.
fn name_fault(spot: Spot, looked: Looked) -> Option<Refusal>
    ensures { result ≡ name_fault spot looked }
{
    match looked {
        Looked::Found(_) => None,
        Looked::Nowhere => Some(Refusal::at(Code::UnknownType, spot)),
        Looked::Circular => Some(Refusal::at(Code::CyclicType, spot)),
    }
}
