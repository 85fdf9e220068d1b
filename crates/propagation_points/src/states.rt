ghost use Rattle.std.specs.Prelude.{◌≡◌, ◌++◌, [], IfOk, OnOk, Some, length, map, option_copied};
ghost use Rattle.propagation_points.specs.inner.Points.{NamesDiffer};
ghost use Rattle.propagation_points.specs.States.{all_variants, declared_by, keep_sort, place_of_sort, sort_named, variants_named};

use crate::declared::types_in;
use aadl_syntax::{Identifier, TypeSet};
use error_libraries::Scope;
use error_types::TypeTable;
use plain_values::{List, Mem};
use std::alloc::{AllocError, Global};
use std::collections::HashMap;
use std::marker::Model;

/// A state or an event as it is declared: its name, the number of its first variant, and its types, if it is declared with a set.
#[derive(Drop)]
pub struct Sort<'a> {
    name: &'a Identifier,
    first: u32,
    types: Option<List<u32>>,
}

impl<'a> Model for Sort<'a> {
    ghost use Rattle.propagation_points.specs.States.{Sort as Seen};

    ghost Value = { Seen };

    ghost view = { λ s. record { name = s.name.now; first = s.first; types = s.types } };
}

impl<'a> Sort<'a> {
    /// The number of its first variant.
    pub fn first(&self) -> u32
        ensures { result ≡ self.now.first }
    {
        self.first
    }

    /// Its types, if it is declared with a set.
    pub fn types(&self) -> &Option<List<u32>>
        ensures { result.now ≡ self.now.types }
    {
        &self.types
    }
}

/// A variant: the name of a state or an event, and one of its types, if it has types.
#[derive(Drop)]
pub struct Variant<'a> {
    name: &'a Identifier,
    number: Option<u32>,
}

impl<'a> Model for Variant<'a> {
    ghost use Rattle.propagation_points.specs.States.{Variant as Seen};

    ghost Value = { Seen };

    ghost view = { λ v. record { name = v.name.now; type = v.number } };
}

impl<'a> Variant<'a> {
    /// The name of the state or the event.
    pub fn name(&self) -> &'a Identifier
        ensures { result.now ≡ self.now.name }
    {
        self.name
    }

    /// The number of its type, if it has types.
    pub fn number(&self) -> Option<u32>
        ensures { result ≡ self.now.type }
    {
        self.number
    }
}

/// The states or the events of a component, in order, each name once, with their variants. Contracts see them as a list.
#[derive(Drop)]
pub struct Sorts<'a> {
    list: List<Sort<'a>>,
    places: HashMap<&'a [u8], u32>,
    variants: List<Variant<'a>>,
}

impl<'a> Model for Sorts<'a> {
    ghost use Rattle.std.specs.Prelude.{◌≡◌, List};
    ghost use Rattle.std.specs.HashMap.{get};
    ghost use Rattle.package_index.specs.inner.Tables.{same_text};
    ghost use Rattle.propagation_points.specs.States.{Sort as Seen, all_variants};
    ghost use Rattle.propagation_points.specs.inner.Tables.{KnowsNames};

    ghost Value = { List Seen };

    ghost view = { λ s. s.list };

    ghost invariant = { λ s. KnowsNames (λ sort. sort.name) s.list (get same_text s.places) × (s.variants ≡ all_variants s.list) };
}

impl<'a> Sorts<'a> {
    /// None.
    pub fn new(alloc: Global) -> Sorts<'a>
        ensures { result ≡ [] }
    {
        Sorts {
            list: List::new(alloc),
            places: HashMap::new(alloc),
            variants: List::new(alloc),
        }
    }

    /// The states or the events, in order. No two have one name.
    pub fn list(&self) -> &[Sort<'a>]
        ensures list { result.now ≡ self.now }
        ensures differ { NamesDiffer (λ sort. sort.name) self.now }
    {
        self.list.items()
    }

    /// Their variants, in order.
    pub fn variants(&self) -> &[Variant<'a>]
        ensures { result.now ≡ all_variants self.now }
    {
        self.variants.items()
    }

    /// The place of a name.
    pub fn place(&self, name: &[u8]) -> Option<u32>
        ensures { result ≡ place_of_sort self.now name.now }
    {
        self.places.get(name).copied()
    }

    /// The state or the event of a name.
    pub fn find(&self, name: &[u8]) -> Option<&Sort<'a>>
        ensures { option_copied result ≡ sort_named self.now name.now }
    {
        self.list.items().get(self.place(name)? as usize)
    }

    /// The same with one more at the end, unless there is one of its name.
    pub fn with(self, name: &'a Identifier, types: Option<List<u32>>) -> Mem<Sorts<'a>>
        ensures { IfOk result (λ sorts. sorts ≡ keep_sort self.entry name.now types) }
    {
        let text = name.text();
        if self.place(text).is_some() {
            return Ok(self);
        }
        let Sorts {
            mut list,
            mut places,
            mut variants,
        } = self;
        let first = count_of(variants.items())?;
        add_variants(&mut variants, name, &types)?;
        let count = list.items().len() as u32;
        places.insert(text, count)?;
        list.push(Sort { name, first, types })?;
        Ok(Sorts {
            list,
            places,
            variants,
        })
    }
}

/// How many variants there are; want of memory where a number has no room for that.
fn count_of(variants: &[Variant]) -> Mem<u32>
    ensures { IfOk result (λ count. count ≡ length variants.now) }
{
    let count = variants.len();
    if count > 4_294_967_295 {
        return Err(AllocError);
    }
    Ok(count as u32)
}

/// Adds the variants of this name, for these types.
fn add_variants<'a>(
    variants: &mut List<Variant<'a>>,
    name: &'a Identifier,
    types: &Option<List<u32>>,
) -> Mem<()>
    ensures { OnOk result (variants.new ≡ variants.old ++ variants_named name.now types.now) }
{
    match types {
        None => variants.push(Variant { name, number: None }),
        Some(types) => add_typed(variants, name, types.items()),
    }
}

fn add_typed<'a>(variants: &mut List<Variant<'a>>, name: &'a Identifier, types: &[u32]) -> Mem<()>
    ensures { OnOk result (variants.new ≡ variants.old ++ map (λ type. record { name = name.now; type = type }) (map Some types.now)) }
{
    for number in types {
        variants.push(Variant {
            name,
            number: Some(*number),
        })?;
    }
    Ok(())
}

/// The types that are declared by a set, if there is one. Its refusals are none of this group.
pub fn declared_by<'a>(
    alloc: Global,
    types: &mut TypeTable<'_, 'a>,
    scope: Option<&Scope>,
    set: &'a Option<TypeSet>,
) -> Mem<Option<List<u32>>>
    ensures kept { types.new ≡ types.old }
    ensures types { IfOk result (λ found. found ≡ declared_by types.old (option_copied scope.entry) set.now) }
{
    match set {
        Some(set) => Ok(Some(types_in(alloc, types, scope, set)?)),
        None => Ok(None),
    }
}
