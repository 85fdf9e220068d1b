ghost use Rattle.std.specs.Prelude.{◌≡◌, ◌<◌, ◌^◌, find, length, position, IfOk, OnOk, option_copied, slice_get};
ghost use Rattle.std.specs.HashMap.{get};
ghost use Rattle.package_index.specs.inner.Tables.{Knows};
ghost use Rattle.propagation_points.specs.Points.{declared_types, declares, propagated, scopes_of, types_in};
ghost use Rattle.propagation_points.specs.inner.Tables.{SideKey, declares_side, is_side, or_place, same_side};

use crate::open_point::only_name;
use aadl_syntax::{PointItem, TypeSet};
use component_extension::{ClauseText, Effective, InClause};
use error_libraries::Scope;
use error_types::TypeTable;
use plain_values::{FirstRefusal, List, Mem};
use std::alloc::Global;
use std::collections::HashMap;
use std::marker::Model;

/// The direction of a side, outward or not, and the name of its point.
type SideKey<'a> = (bool, &'a [u8]);

/// The propagations of a component, with the place of the first that declares a set for each side. Contracts see the
/// propagations and the texts in which they stand.
#[derive(Drop)]
pub(crate) struct DeclaredSides<'e, 'a> {
    scopes: List<Scope>,
    items: &'e [InClause<'a, PointItem>],
    places: HashMap<SideKey<'a>, u32>,
}

impl<'e, 'a> Model for DeclaredSides<'e, 'a> {
    ghost use Rattle.std.specs.Coded.{codes};
    ghost use Rattle.aadl_syntax.specs.contracts.error_model.Condition as condition;
    ghost use Rattle.std.specs.HashMap.{get};
    ghost use Rattle.package_index.specs.inner.Tables.{Knows};
    ghost use Rattle.propagation_points.specs.inner.Tables.{Propagated, declares_side, same_side};

    ghost Value = { Propagated };

    ghost coded = { Prim.hlevel (codes, condition.the_row.coded) };

    ghost view = { λ d. record { scopes = d.scopes; items = d.items.now } };

    ghost invariant = { λ d. Knows declares_side d.items.now (get same_side d.places) };
}

impl<'e, 'a> DeclaredSides<'e, 'a> {
    /// Those of a component.
    pub(crate) fn of(
        alloc: Global,
        effective: &'e Effective<'a>,
        types: &TypeTable<'_, 'a>,
    ) -> Mem<DeclaredSides<'e, 'a>>
        ensures { IfOk result (λ sides. sides ≡ record { scopes = scopes_of types.now.packages effective.now.clauses; items = effective.now.propagations.points }) }
    {
        let scopes = scopes_of(alloc, types, effective.clauses.items())?;
        let items = effective.propagations.points.items();
        let places = places_of(alloc, items)?;
        Ok(DeclaredSides {
            scopes,
            items,
            places,
        })
    }

    fn place(&self, outward: bool, name: &[u8]) -> Option<u32>
        ensures { result ≡ position (declares outward name.now) self.now.items }
    {
        self.places.get(&(outward, name)).copied()
    }

    /// The propagation that declares a set for a side.
    fn find(&self, outward: bool, name: &[u8]) -> Option<&'e InClause<'a, PointItem>>
        ensures { option_copied result ≡ find (declares outward name.now) self.now.items }
    {
        match self.place(outward, name) {
            Some(place) => self.item(place),
            None => None,
        }
    }

    fn item(&self, place: u32) -> Option<&'e InClause<'a, PointItem>>
        ensures { option_copied result ≡ slice_get self.now.items place }
    {
        self.items.get(place as usize)
    }

    /// The types that are declared for a side, if any are.
    pub(crate) fn types(
        &self,
        alloc: Global,
        types: &mut TypeTable<'_, 'a>,
        outward: bool,
        name: &[u8],
    ) -> Mem<Option<List<u32>>>
        ensures kept { types.new ≡ types.old }
        ensures types { IfOk result (λ found. found ≡ declared_types types.old self.now.scopes self.now.items outward name.now) }
    {
        match self.find(outward, name) {
            Some(item) => Ok(Some(propagated(alloc, types, self.scopes.items(), item)?)),
            None => Ok(None),
        }
    }
}

/// The texts in which the items of clauses are read.
pub fn scopes_of(
    alloc: Global,
    types: &TypeTable<'_, '_>,
    clauses: &[ClauseText<'_>],
) -> Mem<List<Scope>>
    ensures { IfOk result (λ scopes. scopes ≡ scopes_of types.now.packages clauses.now) }
{
    let mut scopes = List::new(alloc);
    for clause in clauses {
        scopes.push(types.text_scope(alloc, clause.package(), clause.item().uses.items())?)?;
    }
    Ok(scopes)
}

fn propagated<'a>(
    alloc: Global,
    types: &mut TypeTable<'_, 'a>,
    scopes: &[Scope],
    item: &InClause<'a, PointItem>,
) -> Mem<List<u32>>
    ensures kept { types.new ≡ types.old }
    ensures types { IfOk result (λ found. found ≡ propagated types.old scopes.now item.now) }
{
    types_in(alloc, types, scopes.get(item.scope()), &item.item().set)
}

/// The types that a set denotes in a text. Its refusals are none of this group.
pub(crate) fn types_in<'a>(
    alloc: Global,
    types: &mut TypeTable<'_, 'a>,
    scope: Option<&Scope>,
    set: &'a TypeSet,
) -> Mem<List<u32>>
    ensures kept { types.new ≡ types.old }
    ensures types { IfOk result (λ found. found ≡ types_in types.old (option_copied scope.entry) set.now) }
{
    match scope {
        Some(scope) => types.denote(alloc, scope, set, &mut FirstRefusal::new()),
        None => Ok(List::new(alloc)),
    }
}

/// The place of the first propagation that declares a set for each side.
fn places_of<'a>(alloc: Global, items: &[InClause<'a, PointItem>]) -> Mem<HashMap<SideKey<'a>, u32>>
    requires { length items.now < 2 ^ 32 }
    ensures { IfOk result (λ places. Knows declares_side items.now (get same_side places)) }
{
    let mut places = HashMap::new(alloc);
    for (number, item) in items.iter().enumerate() {
        note_place(&mut places, item, number as u32)?;
    }
    Ok(places)
}

/// Notes the place of a propagation that declares a set, unless one before it does for the same side.
fn note_place<'a>(
    places: &mut HashMap<SideKey<'a>, u32>,
    item: &InClause<'a, PointItem>,
    number: u32,
) -> Mem<()>
    ensures { OnOk result ((key : SideKey) → get same_side places.new key ≡ or_place (get same_side places.old key) (declares_side key item.now) number) }
{
    let Some(key) = side_key(item) else {
        return Ok(());
    };
    if !places.contains_key(&key) {
        places.insert(key, number)?;
    }
    Ok(())
}

/// The side for which a propagation declares a set.
fn side_key<'a>(item: &InClause<'a, PointItem>) -> Option<SideKey<'a>>
    ensures { (key : SideKey) → declares_side key item.now ≡ is_side result key }
{
    let propagation = item.item();
    let name = only_name(propagation.point.names.items())?;
    if propagation.negative {
        return None;
    }
    Some((propagation.outward, name.text()))
}
