//! The names by which facts and events are found.

ghost use Rattle.std.specs.Prelude.{◌≡◌, ◌++◌, ◌∷◌, [], IfOk, OnOk, map};
ghost use Rattle.hazard_records.specs.Meaning.{bare_name, event_keys, fact_keys, path_in, whole_name};

use aadl_syntax::Identifier;
use fault_system::{EventInfo, FactInfo};
use instantiator::Instance;
use plain_values::{List, Mem, Name, copied};
use std::alloc::Global;

/// The names of facts without their types.
pub(crate) fn fact_keys(alloc: Global, facts: &[FactInfo]) -> Mem<List<List<Name>>>
    ensures { IfOk result (λ keys. keys ≡ fact_keys facts.now) }
{
    let mut keys = List::new(alloc);
    for fact in facts {
        let key = one_name(alloc, bare_name(fact.name.items()))?;
        keys.push(key)?;
    }
    Ok(keys)
}

/// The whole names of events.
pub(crate) fn event_keys<'r>(
    alloc: Global,
    instance: &'r Instance<'r, 'r>,
    events: &[EventInfo],
) -> Mem<List<List<Name>>>
    ensures { IfOk result (λ keys. keys ≡ event_keys instance.now events.now) }
{
    let mut keys = List::new(alloc);
    for event in events {
        let key = whole_name(alloc, instance, event)?;
        keys.push(key)?;
    }
    Ok(keys)
}

/// The whole name of an event.
fn whole_name<'r>(
    alloc: Global,
    instance: &'r Instance<'r, 'r>,
    event: &EventInfo,
) -> Mem<List<Name>>
    ensures { IfOk result (λ name. name ≡ whole_name instance.now event.now) }
{
    names_of(alloc, path_in(instance, event.owner), event.key.items())
}

/// The name of a fact without its type.
fn bare_name(name: &[u8]) -> &[u8]
    ensures { result.now ≡ bare_name name.now }
{
    for (number, byte) in name.iter().enumerate() {
        if *byte == b'{' {
            return &name[..number];
        }
    }
    name
}

/// The names of the path of a component.
pub(crate) fn path_in<'r>(instance: &'r Instance<'r, 'r>, component: u32) -> &'r [&'r Identifier]
    ensures { map (λ name. name.now) result.now ≡ path_in instance.now component }
{
    match instance.components().get(component as usize) {
        Some(component) => component.path.names(),
        None => &[],
    }
}

/// A path, and then further names.
pub(crate) fn names_of(alloc: Global, path: &[&Identifier], names: &[Name]) -> Mem<List<Name>>
    ensures { IfOk result (λ all. all ≡ map (λ name. name.now) path.now ++ names.now) }
{
    let mut all = List::new(alloc);
    add_path(alloc, &mut all, path)?;
    for name in names {
        let name = copied(alloc, name.items())?;
        all.push(name)?;
    }
    Ok(all)
}

/// Adds the names of a path.
fn add_path(alloc: Global, names: &mut List<Name>, path: &[&Identifier]) -> Mem<()>
    ensures { OnOk result (names.new ≡ names.old ++ map (λ name. name.now) path.now) }
{
    for name in path {
        let name = copied(alloc, name.text())?;
        names.push(name)?;
    }
    Ok(())
}

/// One name.
fn one_name(alloc: Global, text: &[u8]) -> Mem<List<Name>>
    ensures { IfOk result (λ names. names ≡ text.now ∷ []) }
{
    let mut names = List::new(alloc);
    let name = copied(alloc, text)?;
    names.push(name)?;
    Ok(names)
}
