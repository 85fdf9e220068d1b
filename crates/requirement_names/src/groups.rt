//! The events of groups.

ghost use Rattle.std.specs.Prelude.{◌≡◌, IfOk, filter, length, map};
ghost use Rattle.std.specs.List.{list_any};
ghost use Rattle.plain_values.specs.Numbered.{numbers_below};
ghost use Rattle.requirements.specs.declared.reading.GroupKind.TheVariants.{Parts};
ghost use Rattle.requirement_names.specs.Names.{is_below};
ghost use Rattle.requirement_names.specs.Groups.{belongs_to, group_events, is_in_group, is_of_model};

use crate::model::{ModelNames, is_below};
use crate::names::folded_names;
use fault_system::{EventInfo, FaultSystem};
use plain_values::{List, Mem, Name, is_same};
use requirements::{Group, GroupKind};
use std::alloc::Global;

/// The events of each of some groups.
pub(crate) fn all_group_events(
    alloc: Global,
    system: &FaultSystem,
    groups: &[Group],
) -> Mem<List<List<u32>>>
    ensures { IfOk result (λ sets. sets ≡ map (group_events system.now) groups.now) }
{
    let mut sets = List::new(alloc);
    for group in groups {
        sets.push(group_events(alloc, system, group)?)?;
    }
    Ok(sets)
}

/// The events of a group, in rising order.
fn group_events(alloc: Global, system: &FaultSystem, group: &Group) -> Mem<List<u32>>
    ensures { IfOk result (λ events. events ≡ group_events system.now group.now) }
{
    let members = folded_names(alloc, group.members.items())?;
    events_below(alloc, system, group.kind, members.items())
}

/// The events that belong to one of these members, in rising order.
fn events_below(
    alloc: Global,
    system: &FaultSystem,
    kind: GroupKind,
    members: &[Name],
) -> Mem<List<u32>>
    ensures { IfOk result (λ events. events ≡ filter (is_in_group system.now kind members.now) (numbers_below (length system.now.events))) }
{
    let mut events = List::new(alloc);
    for number in 0..system.events() {
        events.push_if(number, is_in_group(system, kind, members, number))?;
    }
    Ok(events)
}

/// Whether the event of a number belongs to one of these members.
fn is_in_group(system: &FaultSystem, kind: GroupKind, members: &[Name], number: u32) -> bool
    ensures { result ≡ is_in_group system.now kind members.now number }
{
    let name = system.event_name(number);
    members
        .iter()
        .any(|member| belongs_to(kind, member.items(), name))
}

/// Whether an event belongs to a member of a group.
fn belongs_to(kind: GroupKind, member: &[u8], name: &[u8]) -> bool
    ensures { result ≡ belongs_to kind member.now name.now }
{
    match kind {
        GroupKind::Parts => is_below(member, name),
        GroupKind::Events => is_same(name, member),
    }
}

/// Whether a member of a group has an event of the model.
pub(crate) fn is_of_model(model: &ModelNames<'_>, kind: GroupKind, member: &[u8]) -> bool
    ensures { result ≡ is_of_model model.now kind member.now }
{
    match kind {
        GroupKind::Parts => has_below(model.system(), member),
        GroupKind::Events => model.event(member).is_some(),
    }
}

/// Whether an event lies below a component.
fn has_below(system: &FaultSystem, member: &[u8]) -> bool
    ensures { result ≡ is_of_model system.now Parts member.now }
{
    is_event_below(system.event_infos(), member)
}

/// The same, of one of these events.
fn is_event_below(events: &[EventInfo], member: &[u8]) -> bool
    ensures { result ≡ list_any (λ event. is_below member.now event.name) events.now }
{
    events
        .iter()
        .any(|event| is_below(member, event.name.items()))
}
