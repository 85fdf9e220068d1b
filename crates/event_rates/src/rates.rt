ghost use Rattle.std.specs.Prelude.{◌≡◌, ◌++◌, ◌∷◌, [], ℕ, All, IfOk, List, OnOk, map, option_copied};
ghost use Rattle.aadl_syntax.specs.Form.{IsNumber};
ghost use Rattle.instantiator.specs.Components.{component_below};
ghost use Rattle.event_rates.specs.Associations.{association_of, first_said, fitting_along, is_of_event, is_rated_in, keys_at, path_in, rate_in, said_by_key, said_of};

use crate::kinds::Tables;
use aadl_syntax::{Association, Identifier};
use fault_system::EventInfo;
use instantiator::Instance;
use plain_values::{List, Mem, Name, copied, is_same};
use profiles::Profile;
use property_reader::{Rate, gives_rate, rate_of};
use rate_keys::RateKey;
use std::alloc::Global;

/// The rates of events of a model, in order (EMV2: `OccurrenceDistribution`).
///
/// The association of the outermost component on the way to an event's own that has one for it counts, of these the last; where
/// there is none, the last of the machine. An event that has none gets the conservative rate. By the second profile a target
/// `^lane1@fault` is read as `lane1.fault`, by the first it is none; and where none is said of an event by its own key, one that is said by
/// the first of its further keys counts: a state to which it alone leads, or what stands for that state.
pub fn rates_of(
    alloc: Global,
    profile: Profile,
    instance: &Instance<'_, '_>,
    events: &[EventInfo],
) -> Mem<List<Rate>>
    ensures rates { IfOk result (λ rates. rates ≡ map (rate_in profile instance.now) events.now) }
    ensures numbers { IfOk result (λ rates. All (λ rate. IsNumber rate.text) rates) }
{
    let tables = Tables::of(alloc, profile, instance)?;
    let mut rates = List::new(alloc);
    for event in events {
        let rate = tables.rate_in(alloc, event)?;
        rates.push(rate)?;
    }
    Ok(rates)
}

/// For each of these events of a model whether the model gives it a rate. The rate of all others is the conservative one, which a model may
/// also write.
pub fn rated_of(
    alloc: Global,
    profile: Profile,
    instance: &Instance<'_, '_>,
    events: &[EventInfo],
) -> Mem<List<bool>>
    ensures { IfOk result (λ rated. rated ≡ map (is_rated_in profile instance.now) events.now) }
{
    let tables = Tables::of(alloc, profile, instance)?;
    let mut rated = List::new(alloc);
    for event in events {
        let is_rated = tables.is_rated_in(alloc, event)?;
        rated.push(is_rated)?;
    }
    Ok(rated)
}

impl<'r> Tables<'r> {
    /// Whether the model gives an event a rate.
    fn is_rated_in(&self, alloc: Global, event: &EventInfo) -> Mem<bool>
        ensures { IfOk result (λ is_rated. is_rated ≡ is_rated_in self.now.profile self.now.instance event.now) }
    {
        let association = self.association_of(alloc, event)?;
        gives_rate(alloc, association)
    }

    /// The rate of an event.
    fn rate_in(&self, alloc: Global, event: &EventInfo) -> Mem<Rate>
        ensures rate { IfOk result (λ rate. rate ≡ rate_in self.now.profile self.now.instance event.now) }
        ensures number { IfOk result (λ rate. IsNumber rate.text) }
    {
        let association = self.association_of(alloc, event)?;
        rate_of(alloc, association)
    }

    /// The association that counts for an event.
    fn association_of(&self, alloc: Global, event: &EventInfo) -> Mem<Option<&'r Association>>
        ensures { IfOk result (λ association. option_copied association ≡ association_of self.now.profile self.now.instance event.now) }
    {
        let key = event.key.items();
        let own = self.said_of(alloc, event.owner, key)?;
        if own.is_some() {
            return Ok(own);
        }
        self.first_said(alloc, event.owner, key)
    }

    /// The first association that is said of the event of this key by a further key.
    fn first_said(&self, alloc: Global, owner: u32, own: &[Name]) -> Mem<Option<&'r Association>>
        ensures { IfOk result (λ association. option_copied association ≡ first_said self.now.profile self.now.instance owner own.now (keys_at self.now.profile self.now.instance owner)) }
    {
        let keys = self.keys_at(owner);
        for key in keys {
            let said = self.said_by_key(alloc, owner, own, key)?;
            if said.is_some() {
                return Ok(said);
            }
        }
        Ok(None)
    }

    /// The association that is said by a further key, if it is of the event that has this one.
    fn said_by_key(
        &self,
        alloc: Global,
        owner: u32,
        own: &[Name],
        key: &RateKey,
    ) -> Mem<Option<&'r Association>>
        ensures { IfOk result (λ association. option_copied association ≡ said_by_key self.now.profile self.now.instance owner own.now key.now) }
    {
        if is_of_event(own, key) {
            return self.said_of(alloc, owner, key.names.items());
        }
        Ok(None)
    }

    /// The association that is said of an event of a component by a key.
    fn said_of(&self, alloc: Global, owner: u32, key: &[Name]) -> Mem<Option<&'r Association>>
        ensures { IfOk result (λ association. option_copied association ≡ said_of self.now.profile self.now.instance owner key.now) }
    {
        let names = names_of(alloc, self.path(owner), key)?;
        Ok(self.said_by_names(owner, key, names.items()))
    }

    /// The same, where these names are the path of the component and the key.
    fn said_by_names(&self, owner: u32, key: &[Name], names: &[Name]) -> Option<&'r Association>
        requires { names.now ≡ path_in self.now.instance owner ++ key.now }
        ensures { option_copied result ≡ said_of self.now.profile self.now.instance owner key.now }
    {
        match self.fitting_along(Some(0), self.path(owner), names) {
            Some(association) => Some(association),
            None => self.of_machine(owner, key),
        }
    }

    /// The association of the outermost component that has one for these names, on the way from a component along a path; the names
    /// begin with the path.
    fn fitting_along(
        &self,
        component: Option<u32>,
        path: &[&Identifier],
        names: &[Name],
    ) -> Option<&'r Association>
        ensures { (key : List (List ℕ)) → names.now ≡ map (λ name. name.now) path.now ++ key → option_copied result ≡ fitting_along self.now.profile self.now.instance component (map (λ name. name.now) path.now) key }
    {
        let component = component?;
        if let Some(association) = self.of_clauses(component, names) {
            return Some(association);
        }
        let (name, path) = path.split_first()?;
        let (_, names) = names.split_first()?;
        let below = self.below(component, *name);
        self.fitting_along(below, path, names)
    }

    /// The component of this name in a component.
    fn below(&self, component: u32, name: &Identifier) -> Option<u32>
        ensures { result ≡ component_below self.now.instance.components component (name.now ∷ []) }
    {
        self.instance()
            .find_below(component, std::slice::from_ref(name))
    }

    /// The names of the path of a component.
    pub(crate) fn path(&self, component: u32) -> &'r [&'r Identifier]
        ensures { map (λ name. name.now) result.now ≡ path_in self.now.instance component }
    {
        match self.instance().components().get(component as usize) {
            Some(component) => component.path.names(),
            None => &[],
        }
    }
}

/// Whether a key is of the event that has this one.
pub(crate) fn is_of_event(own: &[Name], key: &RateKey) -> bool
    ensures { result ≡ is_of_event own.now key.now }
{
    match own.split_first() {
        Some((first, rest)) => is_same(key.event.items(), first.items()) && rest.is_empty(),
        None => false,
    }
}

/// A path, and then a key.
pub(crate) fn names_of(alloc: Global, path: &[&Identifier], key: &[Name]) -> Mem<List<Name>>
    ensures { IfOk result (λ names. names ≡ map (λ name. name.now) path.now ++ key.now) }
{
    let mut names = List::new(alloc);
    add_path(alloc, &mut names, path)?;
    for name in key {
        let name = copied(alloc, name.items())?;
        names.push(name)?;
    }
    Ok(names)
}

/// Adds the names of a path.
fn add_path(alloc: Global, names: &mut List<Name>, path: &[&Identifier]) -> Mem<()>
    ensures { OnOk result (names.new ≡ names.old ++ map (λ name. name.now) path.now) }
{
    for name in path {
        let name = copied(alloc, name.text())?;
        names.push(name)?;
    }
    Ok(())
}
