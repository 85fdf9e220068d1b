//! Loops of facts, and events without effect.

ghost use Rattle.std.specs.Prelude.{◌≡◌, ◌++◌, IfOk, OnOk, filter, length, map};
ghost use Rattle.plain_values.specs.Rising.{RisesWithin};
ghost use Rattle.fact_formulas.specs.Flat.{is_of_root};
ghost use Rattle.model_review.specs.Seen.{is_error_event, root_effects};
ghost use Rattle.model_review.specs.Told.{AddsTold, effect_findings, is_event_of, unreached_of, unreached_told};
ghost use Rattle.model_review.specs.declared.finding.Finding.TheVariants.{InLoop, NoSingle, UnusedEvent};

use crate::finding::{Finding, tell_unless};
use crate::view::View;
use fact_formulas::is_of_root;
use fault_system::FaultSystem;
use plain_values::{List, Mem};
use std::alloc::Global;
use system_review::{Loop, loops, no_single_events, unreached_events, unused_events};

/// Adds the loops of a model, its error events that occur in no formula, those of its events that alone make no fact hold, and what its
/// root tells: that it has no effect, or the events on which none depends.
pub(crate) fn add_told(alloc: Global, found: &mut List<Finding>, view: &View) -> Mem<()>
    requires { RisesWithin 0 (length view.now.system.facts) view.now.effects }
    ensures { OnOk result (AddsTold view.now found.old found.new) }
{
    let system = view.system();
    let effects = view.effects();
    let loops = loops(alloc, system)?;
    let unused = unused_events(alloc, system)?;
    let no_single = no_single_events(alloc, system)?;
    let root = root_effects(alloc, system, effects)?;
    let unreached = unreached_events(alloc, system, root.items())?;
    add_loops(found, loops.items())?;
    add_unused(found, view, unused.items())?;
    add_no_single(found, no_single.items())?;
    add_unreached(alloc, found, view, root.items(), unreached.items())?;
    Ok(())
}

/// Those of some effects that are facts of the root.
fn root_effects(alloc: Global, system: &FaultSystem, effects: &[u32]) -> Mem<List<u32>>
    requires rise { RisesWithin 0 (length system.now.facts) effects.now }
    ensures effects { IfOk result (λ found. found ≡ filter (is_of_root system.now) effects.now) }
    ensures rise { IfOk result (λ found. RisesWithin 0 (length system.now.facts) found) }
{
    let mut found = List::new(alloc);
    for effect in effects {
        found.push_if(*effect, is_of_root(system, *effect))?;
    }
    Ok(found)
}

fn add_loops(found: &mut List<Finding>, loops: &[Loop]) -> Mem<()>
    ensures { OnOk result (found.new ≡ found.old ++ map InLoop loops.now) }
{
    for one in loops {
        found.push(Finding::InLoop(*one))?;
    }
    Ok(())
}

fn add_unused(found: &mut List<Finding>, view: &View, unused: &[u32]) -> Mem<()>
    ensures { OnOk result (found.new ≡ found.old ++ map UnusedEvent (filter (is_error_event view.now) unused.now)) }
{
    for event in unused {
        found.push_if(Finding::UnusedEvent(*event), view.is_error_event(*event))?;
    }
    Ok(())
}

fn add_no_single(found: &mut List<Finding>, events: &[u32]) -> Mem<()>
    ensures { OnOk result (found.new ≡ found.old ++ map NoSingle events.now) }
{
    for event in events {
        found.push(Finding::NoSingle(*event))?;
    }
    Ok(())
}

/// Adds that the root has no effect, or of each component the events on which none of its effects depends.
fn add_unreached(
    alloc: Global,
    found: &mut List<Finding>,
    view: &View,
    effects: &[u32],
    unreached: &[u32],
) -> Mem<()>
    ensures { OnOk result (found.new ≡ found.old ++ effect_findings view.now effects.now unreached.now) }
{
    if effects.is_empty() {
        found.push(Finding::NoEffect)?;
        return Ok(());
    }
    add_unreached_events(alloc, found, view, unreached)
}

fn add_unreached_events(
    alloc: Global,
    found: &mut List<Finding>,
    view: &View,
    unreached: &[u32],
) -> Mem<()>
    ensures { OnOk result (found.new ≡ found.old ++ unreached_told view.now unreached.now) }
{
    let system = view.system();
    for owner in 0..view.instance().components().len() {
        add_unreached_of(alloc, found, system, unreached, owner as u32)?;
    }
    Ok(())
}

fn add_unreached_of(
    alloc: Global,
    found: &mut List<Finding>,
    system: &FaultSystem,
    events: &[u32],
    owner: u32,
) -> Mem<()>
    ensures { OnOk result (found.new ≡ found.old ++ unreached_of system.now events.now owner) }
{
    let own = events_of(alloc, system, events, owner)?;
    let is_none = own.items().is_empty();
    tell_unless(found, is_none, Finding::UnreachedEvents(own))
}

/// Those of some events that are of a component.
fn events_of(alloc: Global, system: &FaultSystem, events: &[u32], owner: u32) -> Mem<List<u32>>
    ensures { IfOk result (λ own. own ≡ filter (is_event_of system.now owner) events.now) }
{
    let mut own = List::new(alloc);
    for event in events {
        own.push_if(*event, is_event_of(system, owner, *event))?;
    }
    Ok(own)
}

/// Whether an event is one of a component.
fn is_event_of(system: &FaultSystem, owner: u32, event: u32) -> bool
    ensures { result ≡ is_event_of system.now owner event }
{
    match system.event(event) {
        Some(info) => info.owner == owner,
        None => false,
    }
}
