//! The fields of a line, put into a record.

ghost use Rattle.std.specs.Prelude.{◌≡◌, ◌++◌, ◌∷◌, ◌==◌, [], IfOk, OnOk, false, filter, option_copied, slice_index_or, unwrap_or};
ghost use Rattle.csv.specs.Records.{fields_of, partial_of};
ghost use Rattle.fmea_rows.specs.Text.{component_of, rate_of};
ghost use Rattle.fmea_sheet.specs.Cells.{effect_fields, end_text, event_fields, event_owner, given_fields, is_of, kind_word, local_facts, names_text, next_facts, no_part, part_with, rate_fields};
ghost use Rattle.fmea_sheet.specs.Text.{fields_with, header};

use crate::cells::{facts_in, facts_of, put_end, put_names};
use crate::entries::Entry;
use csv::ByteRecord;
use fault_system::FaultSystem;
use plain_values::{List, Mem};
use property_reader::{Rate, RateKind};
use sheet_model::{Part, SheetModel};
use std::alloc::Global;

/// Puts the names of the columns into a record.
pub(crate) fn put_header(line: &mut ByteRecord) -> Mem<()>
    ensures { OnOk result (fields_of line.new ≡ header) }
{
    line.clear();
    push_two(line, b"component", b"category")?;
    push_two(line, b"classifier", b"event")?;
    push_two(line, b"rate_kind", b"rate_value")?;
    push_two(line, b"local_effect", b"next_effect")?;
    push_two(line, b"end_effect", b"place")
}

/// Adds two fields.
fn push_two(line: &mut ByteRecord, one: &[u8], other: &[u8]) -> Mem<()>
    requires { partial_of line.old ≡ [] }
    ensures fields { OnOk result (fields_of line.new ≡ fields_of line.old ++ one.now ∷ other.now ∷ []) }
    ensures partial { OnOk result (partial_of line.new ≡ []) }
{
    line.push_field(one)?;
    line.push_field(other)?;
    Ok(())
}

/// Puts the fields of a line into a record.
pub(crate) fn put_fields(
    alloc: Global,
    line: &mut ByteRecord,
    text: &mut Vec<u8>,
    model: &SheetModel,
    entry: &Entry,
) -> Mem<()>
    ensures { OnOk result (fields_of line.new ≡ fields_with model.now entry.now.event entry.now.reached entry.now.place) }
{
    line.clear();
    push_event(line, model, entry.event)?;
    push_rate(line, model, entry.event)?;
    push_effects(alloc, line, text, model, entry)?;
    line.push_field(entry.place.items())?;
    Ok(())
}

/// Adds the fields on what an event is.
fn push_event(line: &mut ByteRecord, model: &SheetModel, event: u32) -> Mem<()>
    requires { partial_of line.old ≡ [] }
    ensures fields { OnOk result (fields_of line.new ≡ fields_of line.old ++ event_fields model.now event) }
    ensures partial { OnOk result (partial_of line.new ≡ []) }
{
    let name = model.events.flat.system.event_name(event);
    let (category, classifier) = words_of(part_with(model, event));
    push_two(line, component_of(name), category)?;
    push_two(line, classifier, name)
}

/// What the component of an event is, if it is there.
fn part_with(model: &SheetModel, event: u32) -> Option<&Part>
    ensures { unwrap_or (option_copied result) no_part ≡ part_with model.now event }
{
    let owner = event_owner(&model.events.flat.system, event);
    model.parts.items().get(owner as usize)
}

/// The category and the classifier of a component; empty where it is not there.
fn words_of(part: Option<&Part>) -> (&[u8], &[u8])
    ensures category { result.0.now ≡ (unwrap_or (option_copied part.entry) no_part).category }
    ensures classifier { result.1.now ≡ (unwrap_or (option_copied part.entry) no_part).classifier }
{
    match part {
        Some(part) => (part.category.items(), part.classifier.items()),
        None => (&[], &[]),
    }
}

/// Where what goes wrong in a component is felt next; nowhere where it is not there.
fn next_of(part: Option<&Part>) -> &[u32]
    ensures { result.now ≡ (unwrap_or (option_copied part.entry) no_part).next }
{
    match part {
        Some(part) => part.next.items(),
        None => &[],
    }
}

/// The number of the component that has an event.
fn event_owner(system: &FaultSystem, event: u32) -> u32
    ensures { result ≡ event_owner system.now event }
{
    match system.event(event) {
        Some(info) => info.owner,
        None => 0,
    }
}

// What stands before the first `/` of a name.
fn component_of(name: &[u8]) -> &[u8]
    ensures { result.now ≡ component_of name.now }
{
    for (i, byte) in name.iter().enumerate() {
        if *byte == b'/' {
            return &name[..i];
        }
    }
    name
}

/// Adds the fields on the rate of an event.
fn push_rate(line: &mut ByteRecord, model: &SheetModel, event: u32) -> Mem<()>
    requires { partial_of line.old ≡ [] }
    ensures fields { OnOk result (fields_of line.new ≡ fields_of line.old ++ rate_fields model.now event) }
    ensures partial { OnOk result (partial_of line.new ≡ []) }
{
    if !is_rated(model.rated.items(), event) {
        return push_two(line, b"none", b"");
    }
    push_given(line, model.events.flat.rates.items(), event)
}

/// Whether a rate is given to an event.
fn is_rated(rated: &[bool], event: u32) -> bool
    ensures { result ≡ slice_index_or rated.now event false }
{
    match rated.get(event as usize) {
        Some(is_rated) => *is_rated,
        None => false,
    }
}

/// Adds the fields of the rate of an event; one that has none has the conservative one.
fn push_given(line: &mut ByteRecord, rates: &[Rate], event: u32) -> Mem<()>
    requires { partial_of line.old ≡ [] }
    ensures fields { OnOk result (fields_of line.new ≡ fields_of line.old ++ given_fields (rate_of rates.now event)) }
    ensures partial { OnOk result (partial_of line.new ≡ []) }
{
    match rates.get(event as usize) {
        Some(rate) => push_two(line, kind_word(rate.kind), rate.text.items()),
        None => push_two(line, b"prob", b"1"),
    }
}

/// The word of what the number of a rate is.
fn kind_word(kind: RateKind) -> &'static [u8]
    ensures { result.now ≡ kind_word kind }
{
    match kind {
        RateKind::Prob => b"prob",
        RateKind::Lambda => b"lambda",
    }
}

/// Adds the fields on what an event makes hold.
fn push_effects(
    alloc: Global,
    line: &mut ByteRecord,
    text: &mut Vec<u8>,
    model: &SheetModel,
    entry: &Entry,
) -> Mem<()>
    requires { partial_of line.old ≡ [] }
    ensures fields { OnOk result (fields_of line.new ≡ fields_of line.old ++ effect_fields model.now entry.now.event entry.now.reached) }
    ensures partial { OnOk result (partial_of line.new ≡ []) }
{
    let reached = entry.reached.items();
    push_near(alloc, line, text, model, entry.event, reached)?;
    push_root(alloc, line, text, &model.events.flat.system, reached)?;
    Ok(())
}

/// Adds the fields on what it makes hold in its own component, and in those in which it is felt next.
fn push_near(
    alloc: Global,
    line: &mut ByteRecord,
    text: &mut Vec<u8>,
    model: &SheetModel,
    event: u32,
    reached: &[u32],
) -> Mem<()>
    requires { partial_of line.old ≡ [] }
    ensures fields { OnOk result (fields_of line.new ≡ fields_of line.old ++ names_text model.now.events.flat.system (local_facts model.now event reached.now) ∷ names_text model.now.events.flat.system (next_facts model.now event reached.now) ∷ []) }
    ensures partial { OnOk result (partial_of line.new ≡ []) }
{
    let own = local_facts(alloc, model, event, reached)?;
    push_names(line, text, &model.events.flat.system, own.items())?;
    let next = next_facts(alloc, model, event, reached)?;
    push_names(line, text, &model.events.flat.system, next.items())?;
    Ok(())
}

/// Adds the field on what it makes hold in the root.
fn push_root(
    alloc: Global,
    line: &mut ByteRecord,
    text: &mut Vec<u8>,
    system: &FaultSystem,
    reached: &[u32],
) -> Mem<()>
    requires { partial_of line.old ≡ [] }
    ensures fields { OnOk result (fields_of line.new ≡ fields_of line.old ++ end_text system.now (filter (is_of (λ owner. owner == 0) system.now) reached.now) ∷ []) }
    ensures partial { OnOk result (partial_of line.new ≡ []) }
{
    let end = facts_of(alloc, system, reached, 0)?;
    push_end(line, text, system, end.items())?;
    Ok(())
}

/// The facts among some that are of the component of an event.
fn local_facts(alloc: Global, model: &SheetModel, event: u32, facts: &[u32]) -> Mem<List<u32>>
    ensures { IfOk result (λ found. found ≡ local_facts model.now event facts.now) }
{
    let system = &model.events.flat.system;
    facts_of(alloc, system, facts, event_owner(system, event))
}

/// Those that are of a component in which what goes wrong in that of the event is felt next.
fn next_facts(alloc: Global, model: &SheetModel, event: u32, facts: &[u32]) -> Mem<List<u32>>
    ensures { IfOk result (λ found. found ≡ next_facts model.now event facts.now) }
{
    let next = next_of(part_with(model, event));
    let count = model.parts.len_u32();
    facts_in(alloc, &model.events.flat.system, facts, next, count)
}

/// Adds a field with the names of facts.
fn push_names(
    line: &mut ByteRecord,
    text: &mut Vec<u8>,
    system: &FaultSystem,
    facts: &[u32],
) -> Mem<()>
    requires { partial_of line.old ≡ [] }
    ensures fields { OnOk result (fields_of line.new ≡ fields_of line.old ++ names_text system.now facts.now ∷ []) }
    ensures partial { OnOk result (partial_of line.new ≡ []) }
{
    put_names(text, system, facts)?;
    line.push_field(text.as_slice())?;
    Ok(())
}

/// Adds a field with the names of facts, or the words for none.
fn push_end(
    line: &mut ByteRecord,
    text: &mut Vec<u8>,
    system: &FaultSystem,
    facts: &[u32],
) -> Mem<()>
    requires { partial_of line.old ≡ [] }
    ensures fields { OnOk result (fields_of line.new ≡ fields_of line.old ++ end_text system.now facts.now ∷ []) }
    ensures partial { OnOk result (partial_of line.new ≡ []) }
{
    put_end(text, system, facts)?;
    line.push_field(text.as_slice())?;
    Ok(())
}
