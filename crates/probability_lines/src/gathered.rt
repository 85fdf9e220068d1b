//! Which lines tell of a probability.

ghost use Rattle.std.specs.Prelude.{◌≡◌, ◌++◌, IfOk, OnOk, option_copied, slice_index_or};
ghost use Rattle.std.specs.List.{flat_map};
ghost use Rattle.fault_system.specs.Systems.{event_name};
ghost use Rattle.event_probabilities.specs.declared.finding.Found.TheVariants.{Rated};
ghost use Rattle.probability_lines.specs.Gathered.{bounds_lines, event_lines, hours_lines, lines_of, order_lines, unrated_at, unrated_lines};

use crate::line::{EventImportance, Line};
use event_probabilities::Found;
use fault_system::FaultSystem;
use plain_values::{List, Mem, Name};
use probabilities::Bounds;
use std::alloc::Global;

/// A text, as a list of its own.
fn name_of(alloc: Global, text: &[u8]) -> Mem<Name>
    ensures { IfOk result (λ name. name ≡ text.now) }
{
    List::of(Vec::from_slice(alloc, text)?)
}

/// Adds the line of the hours, if they are given.
fn add_hours(alloc: Global, lines: &mut List<Line>, hours: Option<&[u8]>) -> Mem<()>
    ensures { OnOk result (lines.new ≡ lines.old ++ hours_lines (option_copied hours.entry)) }
{
    match hours {
        Some(hours) => {
            let text = name_of(alloc, hours)?;
            lines.push(Line::Hours(text))
        }
        None => Ok(()),
    }
}

/// What is found of an event by its number.
fn found_at(found: &[Found], number: u32) -> Found
    ensures { result ≡ slice_index_or found.now number Rated }
{
    match found.get(number as usize) {
        Some(found) => *found,
        None => Found::Rated,
    }
}

/// Adds the line of an event that has no probability.
fn add_unrated(
    alloc: Global,
    lines: &mut List<Line>,
    system: &FaultSystem,
    number: u32,
    found: Found,
) -> Mem<()>
    ensures { OnOk result (lines.new ≡ lines.old ++ unrated_lines system.now number found) }
{
    match found {
        Found::Rated => Ok(()),
        _ => {
            let name = name_of(alloc, system.event_name(number))?;
            lines.push(Line::Unrated(name, found))
        }
    }
}

/// Adds the lines of those of some events that have no probability.
fn add_all_unrated(
    alloc: Global,
    lines: &mut List<Line>,
    system: &FaultSystem,
    events: &[u32],
    found: &[Found],
) -> Mem<()>
    ensures { OnOk result (lines.new ≡ lines.old ++ flat_map (unrated_at system.now found.now) events.now) }
{
    for number in events {
        add_unrated(alloc, lines, system, *number, found_at(found, *number))?;
    }
    Ok(())
}

/// Adds the line of the greatest number of events of a set, if it is given.
fn add_order(lines: &mut List<Line>, most: Option<u32>) -> Mem<()>
    ensures { OnOk result (lines.new ≡ lines.old ++ order_lines most) }
{
    match most {
        Some(most) => lines.push(Line::ByOrder(most)),
        None => Ok(()),
    }
}

/// Adds the lines of the two bounds; where none are found, they are 0 and 1.
fn add_bounds(lines: &mut List<Line>, bounds: Option<Bounds>) -> Mem<()>
    ensures { OnOk result (lines.new ≡ lines.old ++ bounds_lines bounds) }
{
    match bounds {
        None => lines.push(Line::Large),
        Some(bounds) => {
            lines.push(Line::AtLeast(bounds.lower))?;
            lines.push(Line::AtMost(bounds.upper))
        }
    }
}

/// Adds the line of an event's importance.
fn add_event(
    alloc: Global,
    lines: &mut List<Line>,
    system: &FaultSystem,
    its: &EventImportance,
) -> Mem<()>
    ensures { OnOk result (lines.new ≡ lines.old ++ event_lines system.now its.now) }
{
    let name = name_of(alloc, system.event_name(its.event))?;
    lines.push(Line::Event(name, its.both.never, its.both.always))
}

/// Adds the lines of the importance of events.
fn add_events(
    alloc: Global,
    lines: &mut List<Line>,
    system: &FaultSystem,
    importances: &[EventImportance],
) -> Mem<()>
    ensures { OnOk result (lines.new ≡ lines.old ++ flat_map (event_lines system.now) importances.now) }
{
    for its in importances {
        add_event(alloc, lines, system, its)?;
    }
    Ok(())
}

/// The lines of a probability: the hours, if they are given, those of these events that have none, the greatest number of events
/// of a set, if the bounds are by such sets, the bounds, which are 0 and 1 where none are found, the importance of events, which may be left
/// out, and the end.
pub fn lines_of(
    alloc: Global,
    system: &FaultSystem,
    hours: Option<&[u8]>,
    events: &[u32],
    found: &[Found],
    most: Option<u32>,
    bounds: Option<Bounds>,
    importances: &[EventImportance],
) -> Mem<List<Line>>
    ensures { IfOk result (λ lines. lines ≡ lines_of system.now (option_copied hours.entry) events.now found.now most bounds importances.now) }
{
    let mut lines = List::new(alloc);
    add_hours(alloc, &mut lines, hours)?;
    add_all_unrated(alloc, &mut lines, system, events, found)?;
    add_order(&mut lines, most)?;
    add_bounds(&mut lines, bounds)?;
    add_events(alloc, &mut lines, system, importances)?;
    lines.push(Line::End)?;
    Ok(lines)
}
