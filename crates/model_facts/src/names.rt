ghost use Rattle.std.specs.Prelude.{◌≡◌, ◌∷◌, ◌++◌, [], codes, flat_map, map, slice_get, option_copied, IfOk, OnOk};
ghost use Rattle.std.specs.Option.{option_map_or};
ghost use Rattle.propagation_points.specs.States.{all_variants};
ghost use Rattle.model_facts.specs.Assembly.{model_at};
ghost use Rattle.model_facts.specs.Names.{at_point, bare_name, event_key, event_name, in_braces, variant_text, fact_name, own_event_name, own_fact_name, path_at, path_text, point_name, source_name, type_name, type_text};

use crate::assembly::Assembly;
use crate::keys::{EventKey, EventKind, FactKey, FactKind};
use aadl_syntax::Identifier;
use error_flows::FlowMeaning;
use error_types::TypeTable;
use plain_values::{List, Mem, Name, copied};
use propagation_points::{Point, Variant};
use std::alloc::Global;

/// The name of a fact: that of its component, a slash, and `state:s`, `in:p{lib::t}` or `out:p{lib::t}`.
pub fn fact_name(alloc: Global, assembly: &Assembly, fact: FactKey) -> Mem<Name>
    ensures { IfOk result (λ name. name ≡ fact_name assembly.now fact) }
{
    let mut text = Vec::new(alloc);
    push_owner(&mut text, assembly, fact.owner)?;
    push_fact(&mut text, assembly, fact)?;
    List::of(text)
}

/// The name of an event: that of its component, a slash, and `e`, `source:f` or `in:p{lib::t}`.
pub fn event_name(alloc: Global, assembly: &Assembly, event: EventKey) -> Mem<Name>
    ensures { IfOk result (λ name. name ≡ event_name assembly.now event) }
{
    let mut text = Vec::new(alloc);
    push_owner(&mut text, assembly, event.owner)?;
    push_event(&mut text, assembly, event)?;
    List::of(text)
}

/// By what rates of an event are found: its name, that of its flow, or its point and the bare name of its type.
pub fn event_key(alloc: Global, assembly: &Assembly, event: EventKey) -> Mem<List<Name>>
    ensures { IfOk result (λ key. key ≡ event_key assembly.now event) }
{
    let owner = event.owner;
    match event.kind {
        EventKind::Declared(number) => one_name(
            alloc,
            bare_name(event_variant(assembly, owner, number)),
        ),
        EventKind::Source(number) => one_name(alloc, source_name(assembly, owner, number)),
        EventKind::Arrival(point, number) => two_names(
            alloc,
            point_name(assembly, owner, point),
            type_name(assembly.types(), number),
        ),
    }
}

/// Adds the name of a component, and a slash.
fn push_owner(text: &mut Vec<u8>, assembly: &Assembly, owner: u32) -> Mem<()>
    ensures { OnOk result (text.new.items ≡ text.old.items ++ (path_text (path_at assembly.now owner) ++ codes "/")) }
{
    text.extend_from_slice(b"root")?;
    push_path(text, assembly, owner)?;
    text.extend_from_slice(b"/")?;
    Ok(())
}

/// Adds the names of the path of a component, each behind a dot.
fn push_path(text: &mut Vec<u8>, assembly: &Assembly, owner: u32) -> Mem<()>
    ensures { OnOk result (text.new.items ≡ text.old.items ++ flat_map (λ name. codes "." ++ name) (path_at assembly.now owner)) }
{
    match assembly.instance().components().get(owner as usize) {
        Some(component) => push_names(text, component.path.names()),
        None => Ok(()),
    }
}

fn push_names(text: &mut Vec<u8>, names: &[&Identifier]) -> Mem<()>
    ensures { OnOk result (text.new.items ≡ text.old.items ++ flat_map (λ name. codes "." ++ name) (map (λ name. name.now) names.now)) }
{
    for name in names {
        push_two(text, b".", name.text())?;
    }
    Ok(())
}

/// Adds two texts.
fn push_two(text: &mut Vec<u8>, first: &[u8], second: &[u8]) -> Mem<()>
    ensures { OnOk result (text.new.items ≡ text.old.items ++ (first.now ++ second.now)) }
{
    text.extend_from_slice(first)?;
    text.extend_from_slice(second)?;
    Ok(())
}

/// Adds what a fact is called in its component.
fn push_fact(text: &mut Vec<u8>, assembly: &Assembly, fact: FactKey) -> Mem<()>
    ensures { OnOk result (text.new.items ≡ text.old.items ++ own_fact_name assembly.now.types (model_at assembly.now fact.owner) fact.kind) }
{
    let owner = fact.owner;
    match fact.kind {
        FactKind::State(state) => {
            let variant = state_variant(assembly, owner, state);
            push_variant(text, b"state:", assembly.types(), variant)
        }
        FactKind::Enters(point, number) => {
            push_at_point(text, b"in:", assembly, owner, point, number)
        }
        FactKind::Exits(point, number) => {
            push_at_point(text, b"out:", assembly, owner, point, number)
        }
    }
}

/// Adds what an event is called in its component.
fn push_event(text: &mut Vec<u8>, assembly: &Assembly, event: EventKey) -> Mem<()>
    ensures { OnOk result (text.new.items ≡ text.old.items ++ own_event_name assembly.now.types (model_at assembly.now event.owner) event.kind) }
{
    let owner = event.owner;
    match event.kind {
        EventKind::Declared(number) => {
            let variant = event_variant(assembly, owner, number);
            push_variant(text, b"", assembly.types(), variant)
        }
        EventKind::Source(number) => {
            push_two(text, b"source:", source_name(assembly, owner, number))
        }
        EventKind::Arrival(point, number) => {
            push_at_point(text, b"in:", assembly, owner, point, number)
        }
    }
}

/// Adds a word, and a type at a point behind it.
fn push_at_point(
    text: &mut Vec<u8>,
    word: &[u8],
    assembly: &Assembly,
    owner: u32,
    point: u32,
    number: u32,
) -> Mem<()>
    ensures { OnOk result (text.new.items ≡ text.old.items ++ (word.now ++ at_point assembly.now.types (model_at assembly.now owner) point number)) }
{
    push_two(text, word, point_name(assembly, owner, point))?;
    push_in_braces(text, assembly.types(), number)
}

/// Adds the name of a type as it prints.
fn push_type(text: &mut Vec<u8>, types: &TypeTable, number: u32) -> Mem<()>
    ensures { OnOk result (text.new.items ≡ text.old.items ++ type_text types.now number) }
{
    match types.name(number) {
        Some(name) => name.print(text),
        None => Ok(()),
    }
}

/// Adds a type in braces.
fn push_in_braces(text: &mut Vec<u8>, types: &TypeTable, number: u32) -> Mem<()>
    ensures { OnOk result (text.new.items ≡ text.old.items ++ in_braces types.now number) }
{
    text.extend_from_slice(b"{")?;
    push_type(text, types, number)?;
    text.extend_from_slice(b"}")?;
    Ok(())
}

/// Adds a word, and the name of a variant behind it, if there is one.
fn push_variant(
    text: &mut Vec<u8>,
    word: &[u8],
    types: &TypeTable,
    variant: Option<&Variant>,
) -> Mem<()>
    ensures { OnOk result (text.new.items ≡ text.old.items ++ (word.now ++ option_map_or (variant_text types.now) (option_copied variant.entry) [])) }
{
    push_two(text, word, bare_name(variant))?;
    match variant {
        Some(variant) => match variant.number() {
            Some(number) => push_in_braces(text, types, number),
            None => Ok(()),
        },
        None => Ok(()),
    }
}

/// The name of the state or the event of a variant, if there is one.
fn bare_name<'m>(variant: Option<&Variant<'m>>) -> &'m [u8]
    ensures { result.now ≡ option_map_or (λ variant. variant.name) (option_copied variant.entry) [] }
{
    match variant {
        Some(variant) => variant.name().text(),
        None => &[],
    }
}

/// The name of a state of a component, without its type.
pub fn state_name<'m>(assembly: &Assembly<'m>, owner: u32, number: u32) -> &'m [u8]
    ensures { result.now ≡ bare_name (model_at assembly.now owner).states.sorts number }
{
    bare_name(state_variant(assembly, owner, number))
}

/// The variant of a state of a component.
fn state_variant<'m>(assembly: &Assembly<'m>, owner: u32, number: u32) -> Option<&'m Variant<'m>>
    ensures { option_copied result ≡ slice_get (all_variants (model_at assembly.now owner).states.sorts) number }
{
    match assembly.model(owner) {
        Some(model) => model.states.sorts.variants().get(number as usize),
        None => None,
    }
}

/// The variant of an error event of a component.
fn event_variant<'m>(assembly: &Assembly<'m>, owner: u32, number: u32) -> Option<&'m Variant<'m>>
    ensures { option_copied result ≡ slice_get (all_variants (model_at assembly.now owner).behavior.events) number }
{
    match assembly.model(owner) {
        Some(model) => model.behavior.events.variants().get(number as usize),
        None => None,
    }
}

/// The name of a source of a component that names no state, or nothing.
fn source_name<'m>(assembly: &Assembly<'m>, owner: u32, number: u32) -> &'m [u8]
    ensures { result.now ≡ source_name (slice_get (model_at assembly.now owner).flows number) }
{
    match assembly.model(owner) {
        Some(model) => flow_name(model.flows.items(), number),
        None => &[],
    }
}

/// The name of a point of a component, or nothing.
pub fn point_name<'m>(assembly: &Assembly<'m>, owner: u32, number: u32) -> &'m [u8]
    ensures { result.now ≡ point_name (model_at assembly.now owner) number }
{
    match assembly.model(owner) {
        Some(model) => name_of_point(model.points.list(), number),
        None => &[],
    }
}

fn name_of_point<'m>(points: &'m [Point], number: u32) -> &'m [u8]
    ensures { result.now ≡ option_map_or (λ point. point.name) (slice_get points.now number) [] }
{
    match points.get(number as usize) {
        Some(point) => point.name().text(),
        None => &[],
    }
}

/// The name of a type alone, or nothing.
fn type_name<'a>(types: &TypeTable<'_, 'a>, number: u32) -> &'a [u8]
    ensures { result.now ≡ type_name types.now number }
{
    match types.name(number) {
        Some(name) => name.name().text(),
        None => &[],
    }
}

/// The name of a flow, where it is a source that names no state.
fn flow_name(flows: &[FlowMeaning], number: u32) -> &[u8]
    ensures { result.now ≡ source_name (slice_get flows.now number) }
{
    match flows.get(number as usize) {
        Some(FlowMeaning::Event(name, _)) => name.text(),
        _ => &[],
    }
}

fn one_name(alloc: Global, first: &[u8]) -> Mem<List<Name>>
    ensures { IfOk result (λ names. names ≡ first.now ∷ []) }
{
    let mut names = List::new(alloc);
    names.push(copied(alloc, first)?)?;
    Ok(names)
}

fn two_names(alloc: Global, first: &[u8], second: &[u8]) -> Mem<List<Name>>
    ensures { IfOk result (λ names. names ≡ first.now ∷ second.now ∷ []) }
{
    let mut names = one_name(alloc, first)?;
    names.push(copied(alloc, second)?)?;
    Ok(names)
}
