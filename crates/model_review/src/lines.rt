//! Findings as lines.

ghost use Rattle.std.specs.Prelude.{◌≡◌, ◌++◌, ◌==◌, ◌-◌, [], IfOk, None, OnOk, Some, codes, cond, decimal, flat_map, map, option_copied, slice_get};
ghost use Rattle.std.specs.Option.{option_map_or};
ghost use Rattle.fault_system.specs.Systems.{event_name, fact_name};
ghost use Rattle.instantiator.specs.Whole.{effective_in};
ghost use Rattle.model_facts.specs.Assembly.{model_at};
ghost use Rattle.model_facts.specs.Facts.{fact_in};
ghost use Rattle.model_facts.specs.Names.{behind, fact_name as its_fact_name, path_at, path_text, point_name, type_text};
ghost use Rattle.model_facts.specs.declared.keys.FactKind.TheVariants.{State};
ghost use Rattle.model_review.specs.Lines.{connection_name, direction, dotted, event_names, finding_text, flow_at, flow_text, further_names, further_types, is_no_sink, part_text, side_text, type_list, types_text, unlinked_name, unlinked_text, user_path_name};

use crate::finding::{Finding, TypesAt};
use crate::view::View;
use aadl_syntax::{Flow, FlowKind, Identifier};
use component_extension::{Effective, InClause};
use error_types::TypeTable;
use event_rates::UnusedRate;
use fault_system::FaultSystem;
use itoa::Buffer;
use model_facts::{Assembly, FactKey, FactKind, fact_name};
use plain_values::{List, Mem, Name};
use propagation_links::{Link, PointAt, Unlinked};
use propagation_points::Point;
use std::alloc::Global;
use stray_bindings::StrayBinding;
use system_review::Loop;
use uneven_parts::{QuietState, UnlikeState};
use unread_parts::Part;

/// The lines of these findings of a model.
pub(crate) fn lines_of(alloc: Global, view: &View, findings: &[Finding]) -> Mem<List<Name>>
    ensures { IfOk result (λ lines. lines ≡ map (finding_text view.now) findings.now) }
{
    let mut lines = List::new(alloc);
    for finding in findings {
        lines.push(line_of(alloc, view, finding)?)?;
    }
    Ok(lines)
}

/// The line of a finding.
fn line_of(alloc: Global, view: &View, finding: &Finding) -> Mem<Name>
    ensures { IfOk result (λ line. line ≡ finding_text view.now finding.now) }
{
    let mut text = Vec::new(alloc);
    push_text(alloc, &mut text, view, finding)?;
    List::of(text)
}

fn push_text(alloc: Global, text: &mut Vec<u8>, view: &View, finding: &Finding) -> Mem<()>
    ensures { OnOk result (text.new.items ≡ text.old.items ++ finding_text view.now finding.now) }
{
    let assembly = view.assembly();
    match finding {
        Finding::HiddenSource(owner, flow, at) => {
            push_flow_at(text, b"hidden-source ", assembly, *owner, *flow, at)
        }
        Finding::HiddenPath(owner, flow, at) => {
            push_flow_at(text, b"hidden-path ", assembly, *owner, *flow, at)
        }
        Finding::HiddenLink(from, at) => push_link(text, assembly, *from, at),
        Finding::HiddenTransitions(owner, count) => push_count(text, assembly, *owner, *count),
        Finding::NotDeclared(at, to) => push_other(text, assembly, at, *to),
        Finding::StopsHere(at) => push_at(text, b"stops-here ", assembly, at),
        Finding::SinkLeaves(at) => push_at(text, b"sink-leaves ", assembly, at),
        Finding::GoesNowhere(at) => push_at(text, b"goes-nowhere ", assembly, at),
        Finding::NoLink(one) => push_unlinked(text, assembly, *one),
        Finding::TwoWays(link) => push_ways(text, assembly, *link),
        Finding::Open(at) => push_at(text, b"open ", assembly, at),
        Finding::Dry(at) => push_at(text, b"dry ", assembly, at),
        Finding::NoSource(side) => push_side_at(text, b"no-source ", assembly, *side),
        Finding::Never(at) => push_at(text, b"never ", assembly, at),
        Finding::NeverState(state) => push_state(alloc, text, b"never ", assembly, 0, *state),
        Finding::Always(at) => push_at(text, b"always ", assembly, at),
        Finding::AlwaysState(owner, state) => {
            push_state(alloc, text, b"always ", assembly, *owner, *state)
        }
        Finding::UnusedState(owner, state) => {
            push_state(alloc, text, b"unused-state ", assembly, *owner, *state)
        }
        Finding::Unlike(one) => push_unlike(text, view.system(), *one),
        Finding::Quiet(one) => push_quiet(text, view.system(), assembly, *one),
        Finding::InModes(part) => push_in_modes(text, assembly, part),
        Finding::UnreadBinding(part) => push_unread(text, assembly, part),
        Finding::StrayPath(stray) => push_stray(text, assembly, stray),
        Finding::StrayRate(rate) => push_rate(text, assembly, rate),
        Finding::CoreRate(part) => push_core_rate(text, assembly, part),
        Finding::TypeRoot(one) => push_two(text, b"type-root root ", one.name.items()),
        Finding::InLoop(one) => push_loop(text, view.system(), *one),
        Finding::UnusedEvent(event) => push_event(text, b"unused-event ", view.system(), *event),
        Finding::NoSingle(event) => push_event(text, b"no-single ", view.system(), *event),
        Finding::NoEffect => push_two(text, b"no-effect ", b"root"),
        Finding::UnreachedEvents(events) => {
            push_events(text, b"unreached-event", view.system(), events.items())
        }
    }
}

/// Adds that what comes along a link has no effect.
fn push_link(text: &mut Vec<u8>, assembly: &Assembly, from: PointAt, at: &TypesAt) -> Mem<()>
    ensures { OnOk result (text.new.items ≡ text.old.items ++ (codes "hidden-link " ++ (side_text assembly.now from ++ (codes " -> " ++ types_text assembly.now at.now)))) }
{
    push_side_at(text, b"hidden-link ", assembly, from)?;
    push_at(text, b" -> ", assembly, at)
}

/// Adds that what comes along a link is not declared where it leads.
fn push_other(text: &mut Vec<u8>, assembly: &Assembly, at: &TypesAt, to: PointAt) -> Mem<()>
    ensures { OnOk result (text.new.items ≡ text.old.items ++ (codes "not-declared " ++ (types_text assembly.now at.now ++ (codes " -> " ++ side_text assembly.now to)))) }
{
    push_at(text, b"not-declared ", assembly, at)?;
    push_side_at(text, b" -> ", assembly, to)
}

/// Adds that a side leads to a further side of a component.
fn push_ways(text: &mut Vec<u8>, assembly: &Assembly, link: Link) -> Mem<()>
    ensures { OnOk result (text.new.items ≡ text.old.items ++ (codes "two-ways " ++ (side_text assembly.now link.from ++ (codes " -> " ++ side_text assembly.now link.to)))) }
{
    push_side_at(text, b"two-ways ", assembly, link.from)?;
    push_side_at(text, b" -> ", assembly, link.to)
}

/// Adds a state, and the fact in whose formula it does not occur.
fn push_unlike(text: &mut Vec<u8>, system: &FaultSystem, one: UnlikeState) -> Mem<()>
    ensures { OnOk result (text.new.items ≡ text.old.items ++ (codes "unlike " ++ (fact_name system.now one.state ++ (codes " in " ++ fact_name system.now one.fact)))) }
{
    push_two(text, b"unlike ", system.fact_name(one.state))?;
    push_two(text, b" in ", system.fact_name(one.fact))
}

/// Adds a state, and the side at which it gives nothing.
fn push_quiet(
    text: &mut Vec<u8>,
    system: &FaultSystem,
    assembly: &Assembly,
    one: QuietState,
) -> Mem<()>
    ensures { OnOk result (text.new.items ≡ text.old.items ++ (codes "quiet " ++ (fact_name system.now one.state ++ (codes " at " ++ side_text assembly.now one.side)))) }
{
    push_two(text, b"quiet ", system.fact_name(one.state))?;
    push_side_at(text, b" at ", assembly, one.side)
}

/// Adds how many facts depend on one another, and the first of them.
fn push_loop(text: &mut Vec<u8>, system: &FaultSystem, one: Loop) -> Mem<()>
    ensures { OnOk result (text.new.items ≡ text.old.items ++ (codes "loop " ++ (decimal one.size ++ (codes " " ++ fact_name system.now one.first)))) }
{
    let mut buffer = Buffer::new();
    push_two(text, b"loop ", buffer.format(one.size).as_bytes())?;
    push_two(text, b" ", system.fact_name(one.first))
}

/// Adds a word and the name of an event.
fn push_event(text: &mut Vec<u8>, word: &[u8], system: &FaultSystem, event: u32) -> Mem<()>
    ensures { OnOk result (text.new.items ≡ text.old.items ++ (word.now ++ event_name system.now event)) }
{
    push_two(text, word, system.event_name(event))
}

/// Adds a word, and the names of events.
fn push_events(text: &mut Vec<u8>, word: &[u8], system: &FaultSystem, events: &[u32]) -> Mem<()>
    ensures { OnOk result (text.new.items ≡ text.old.items ++ (word.now ++ event_names system.now events.now)) }
{
    text.extend_from_slice(word)?;
    push_event_names(text, system, events)
}

/// Adds the names of events, each behind a blank.
fn push_event_names(text: &mut Vec<u8>, system: &FaultSystem, events: &[u32]) -> Mem<()>
    ensures { OnOk result (text.new.items ≡ text.old.items ++ event_names system.now events.now) }
{
    for event in events {
        push_event(text, b" ", system, *event)?;
    }
    Ok(())
}

/// Adds a word, and that a component is in a state.
fn push_state(
    alloc: Global,
    text: &mut Vec<u8>,
    word: &[u8],
    assembly: &Assembly,
    owner: u32,
    state: u32,
) -> Mem<()>
    ensures { OnOk result (text.new.items ≡ text.old.items ++ (word.now ++ its_fact_name assembly.now (fact_in owner (State state)))) }
{
    let fact = FactKey {
        owner,
        kind: FactKind::State(state),
    };
    let name = fact_name(alloc, assembly, fact)?;
    push_two(text, word, name.items())
}

/// Adds how many transitions of a component are hidden.
fn push_count(text: &mut Vec<u8>, assembly: &Assembly, owner: u32, count: u32) -> Mem<()>
    ensures { OnOk result (text.new.items ≡ text.old.items ++ (codes "hidden-transitions " ++ (path_text (path_at assembly.now owner) ++ (codes " " ++ decimal count)))) }
{
    let mut buffer = Buffer::new();
    text.extend_from_slice(b"hidden-transitions ")?;
    push_path(text, assembly, owner)?;
    push_two(text, b" ", buffer.format(count).as_bytes())
}

/// Adds the name of a component.
fn push_path(text: &mut Vec<u8>, assembly: &Assembly, owner: u32) -> Mem<()>
    ensures { OnOk result (text.new.items ≡ text.old.items ++ path_text (path_at assembly.now owner)) }
{
    text.extend_from_slice(b"root")?;
    match assembly.instance().components().get(owner as usize) {
        Some(component) => push_names(text, component.path.names()),
        None => Ok(()),
    }
}

fn push_names(text: &mut Vec<u8>, names: &[&Identifier]) -> Mem<()>
    ensures { OnOk result (text.new.items ≡ text.old.items ++ flat_map (λ name. codes "." ++ name) (map (λ name. name.now) names.now)) }
{
    for name in names {
        push_two(text, b".", name.text())?;
    }
    Ok(())
}

/// Adds two texts.
fn push_two(text: &mut Vec<u8>, first: &[u8], second: &[u8]) -> Mem<()>
    ensures { OnOk result (text.new.items ≡ text.old.items ++ (first.now ++ second.now)) }
{
    text.extend_from_slice(first)?;
    text.extend_from_slice(second)?;
    Ok(())
}

/// Adds the name of a component, and a slash.
fn push_owner(text: &mut Vec<u8>, assembly: &Assembly, owner: u32) -> Mem<()>
    ensures { OnOk result (text.new.items ≡ text.old.items ++ (path_text (path_at assembly.now owner) ++ codes "/")) }
{
    push_path(text, assembly, owner)?;
    text.extend_from_slice(b"/")?;
    Ok(())
}

// ---- sides

/// Adds a word and a side.
fn push_side_at(text: &mut Vec<u8>, word: &[u8], assembly: &Assembly, side: PointAt) -> Mem<()>
    ensures { OnOk result (text.new.items ≡ text.old.items ++ (word.now ++ side_text assembly.now side)) }
{
    text.extend_from_slice(word)?;
    push_owner(text, assembly, side.component)?;
    push_two(text, direction(side.outward), point_name(assembly, side))
}

fn direction(outward: bool) -> &'static [u8]
    ensures { result.now ≡ direction outward }
{
    if outward { b"out:" } else { b"in:" }
}

/// The name of a point of a component, or nothing.
fn point_name<'m>(assembly: &Assembly<'m>, side: PointAt) -> &'m [u8]
    ensures { result.now ≡ point_name (model_at assembly.now side.component) side.point }
{
    match assembly.model(side.component) {
        Some(model) => name_of_point(model.points.list(), side.point),
        None => &[],
    }
}

fn name_of_point<'m>(points: &'m [Point], number: u32) -> &'m [u8]
    ensures { result.now ≡ option_map_or (λ point. point.name) (slice_get points.now number) [] }
{
    match points.get(number as usize) {
        Some(point) => point.name().text(),
        None => &[],
    }
}

/// Adds a word, and types at a side.
fn push_at(text: &mut Vec<u8>, word: &[u8], assembly: &Assembly, at: &TypesAt) -> Mem<()>
    ensures { OnOk result (text.new.items ≡ text.old.items ++ (word.now ++ types_text assembly.now at.now)) }
{
    push_side_at(text, word, assembly, at.side)?;
    text.extend_from_slice(b"{")?;
    push_types(text, assembly.types(), at.types.items())?;
    text.extend_from_slice(b"}")?;
    Ok(())
}

fn push_types(text: &mut Vec<u8>, types: &TypeTable, numbers: &[u32]) -> Mem<()>
    ensures { OnOk result (text.new.items ≡ text.old.items ++ type_list types.now numbers.now) }
{
    match numbers.split_first() {
        Some((first, rest)) => {
            push_type(text, types, *first)?;
            push_further(text, types, rest)
        }
        None => Ok(()),
    }
}

/// Adds further types, each behind a comma.
fn push_further(text: &mut Vec<u8>, types: &TypeTable, numbers: &[u32]) -> Mem<()>
    ensures { OnOk result (text.new.items ≡ text.old.items ++ further_types types.now numbers.now) }
{
    for number in numbers {
        push_next(text, types, *number)?;
    }
    Ok(())
}

fn push_next(text: &mut Vec<u8>, types: &TypeTable, number: u32) -> Mem<()>
    ensures { OnOk result (text.new.items ≡ text.old.items ++ (codes "," ++ type_text types.now number)) }
{
    text.extend_from_slice(b",")?;
    push_type(text, types, number)
}

/// Adds the name of a type as it prints.
fn push_type(text: &mut Vec<u8>, types: &TypeTable, number: u32) -> Mem<()>
    ensures { OnOk result (text.new.items ≡ text.old.items ++ type_text types.now number) }
{
    match types.name(number) {
        Some(name) => name.print(text),
        None => Ok(()),
    }
}

// ---- flows

/// Adds a word, the name of a source or a path of a component, and types at a side.
fn push_flow_at(
    text: &mut Vec<u8>,
    word: &[u8],
    assembly: &Assembly,
    owner: u32,
    number: u32,
    at: &TypesAt,
) -> Mem<()>
    ensures { OnOk result (text.new.items ≡ text.old.items ++ (word.now ++ (flow_text assembly.now owner number ++ (codes " at " ++ types_text assembly.now at.now)))) }
{
    text.extend_from_slice(word)?;
    push_flow(text, assembly, owner, number)?;
    push_at(text, b" at ", assembly, at)
}

/// Adds the name of a source or a path.
fn push_flow(text: &mut Vec<u8>, assembly: &Assembly, owner: u32, number: u32) -> Mem<()>
    ensures { OnOk result (text.new.items ≡ text.old.items ++ flow_text assembly.now owner number) }
{
    match flow_of(assembly, owner, number) {
        Some(flow) => push_own(text, assembly, owner, flow.name.text()),
        None => Ok(()),
    }
}

/// Adds a name of a component's own, behind the component's name.
fn push_own(text: &mut Vec<u8>, assembly: &Assembly, owner: u32, name: &[u8]) -> Mem<()>
    ensures { OnOk result (text.new.items ≡ text.old.items ++ behind assembly.now owner name.now) }
{
    push_owner(text, assembly, owner)?;
    text.extend_from_slice(name)?;
    Ok(())
}

/// The source or path of a place among those of a component.
pub fn flow_of<'m>(assembly: &Assembly<'m>, owner: u32, number: u32) -> Option<&'m Flow>
    ensures { option_copied result ≡ flow_at number (effective_in assembly.now.instance owner).propagations.flows }
{
    match assembly.instance().effective(owner) {
        Some(effective) => flow_at(effective.propagations.flows.items(), number),
        None => None,
    }
}

/// The source or path of a place, among which sinks do not count.
fn flow_at<'a>(flows: &[InClause<'a, Flow>], number: u32) -> Option<&'a Flow>
    ensures { option_copied result ≡ flow_at number flows.now }
{
    let mut left = number;
    for flow in flows {
        match left_after(&flow.item().kind, left) {
            Some(less) => left = less,
            None => return Some(flow.item()),
        }
    }
    None
}

/// How many flows are left behind one, of which so many are left before; none where it is the last.
fn left_after(kind: &FlowKind, left: u32) -> Option<u32>
    ensures { result ≡ cond (is_no_sink kind.now) (cond (left == 0) None (Some (left - 1))) (Some left) }
{
    if !is_no_sink(kind) {
        return Some(left);
    }
    if left == 0 {
        return None;
    }
    Some(left - 1)
}

fn is_no_sink(kind: &FlowKind) -> bool
    ensures { result ≡ is_no_sink kind.now }
{
    match kind {
        FlowKind::Source(_, _, _) => true,
        FlowKind::Sink(_, _) => false,
        FlowKind::Path(_, _, _, _, _) => true,
    }
}

// ---- text that is not looked at

/// Adds that a part of a component stands in modes.
fn push_in_modes(text: &mut Vec<u8>, assembly: &Assembly, part: &Part) -> Mem<()>
    ensures { OnOk result (text.new.items ≡ text.old.items ++ (codes "in-modes " ++ part_text assembly.now part.now)) }
{
    text.extend_from_slice(b"in-modes ")?;
    push_own(text, assembly, part.component, part.name.items())
}

/// Adds that a binding of a component is not read.
fn push_unread(text: &mut Vec<u8>, assembly: &Assembly, part: &Part) -> Mem<()>
    ensures { OnOk result (text.new.items ≡ text.old.items ++ (codes "unread-binding " ++ (path_text (path_at assembly.now part.now.component) ++ (codes " " ++ part.now.name)))) }
{
    text.extend_from_slice(b"unread-binding ")?;
    push_path(text, assembly, part.component)?;
    push_two(text, b" ", part.name.items())
}

/// Adds that a rate is said of no event.
fn push_rate(text: &mut Vec<u8>, assembly: &Assembly, rate: &UnusedRate) -> Mem<()>
    ensures { OnOk result (text.new.items ≡ text.old.items ++ (codes "unused-rate " ++ (path_text (path_at assembly.now rate.now.component) ++ (codes " " ++ dotted rate.now.target)))) }
{
    text.extend_from_slice(b"unused-rate ")?;
    push_path(text, assembly, rate.component)?;
    push_target(text, rate.target.items())
}

/// Adds that a rate stands in core text.
fn push_core_rate(text: &mut Vec<u8>, assembly: &Assembly, part: &Part) -> Mem<()>
    ensures { OnOk result (text.new.items ≡ text.old.items ++ (codes "unused-rate " ++ (path_text (path_at assembly.now part.now.component) ++ (codes " core:" ++ part.now.name)))) }
{
    text.extend_from_slice(b"unused-rate ")?;
    push_path(text, assembly, part.component)?;
    push_two(text, b" core:", part.name.items())
}

/// Adds that a path in a binding leads to nothing.
fn push_stray(text: &mut Vec<u8>, assembly: &Assembly, stray: &StrayBinding) -> Mem<()>
    ensures { OnOk result (text.new.items ≡ text.old.items ++ (codes "stray-binding " ++ (path_text (path_at assembly.now stray.now.component) ++ (codes " " ++ dotted stray.now.path)))) }
{
    text.extend_from_slice(b"stray-binding ")?;
    push_path(text, assembly, stray.component)?;
    push_target(text, stray.path.items())
}

/// Adds a blank, and names with a dot between each two.
fn push_target(text: &mut Vec<u8>, names: &[Name]) -> Mem<()>
    ensures { OnOk result (text.new.items ≡ text.old.items ++ (codes " " ++ dotted names.now)) }
{
    text.extend_from_slice(b" ")?;
    push_dotted(text, names)
}

fn push_dotted(text: &mut Vec<u8>, names: &[Name]) -> Mem<()>
    ensures { OnOk result (text.new.items ≡ text.old.items ++ dotted names.now) }
{
    match names.split_first() {
        Some((first, others)) => {
            text.extend_from_slice(first.items())?;
            push_further_names(text, others)
        }
        None => Ok(()),
    }
}

/// Adds names, each behind a dot.
fn push_further_names(text: &mut Vec<u8>, names: &[Name]) -> Mem<()>
    ensures { OnOk result (text.new.items ≡ text.old.items ++ further_names names.now) }
{
    for name in names {
        push_two(text, b".", name.items())?;
    }
    Ok(())
}

// ---- connections and user paths

/// Adds that a connection or a user path gives no link.
fn push_unlinked(text: &mut Vec<u8>, assembly: &Assembly, one: Unlinked) -> Mem<()>
    ensures { OnOk result (text.new.items ≡ text.old.items ++ (codes "no-link " ++ unlinked_text assembly.now one)) }
{
    text.extend_from_slice(b"no-link ")?;
    push_own(
        text,
        assembly,
        one.component,
        name_of_unlinked(assembly, one),
    )
}

/// The name of a connection or a user path that gives no link, or nothing.
fn name_of_unlinked<'m>(assembly: &Assembly<'m>, one: Unlinked) -> &'m [u8]
    ensures { result.now ≡ unlinked_name (effective_in assembly.now.instance one.component) one }
{
    match assembly.instance().effective(one.component) {
        Some(effective) => unlinked_name(effective, one),
        None => &[],
    }
}

fn unlinked_name<'m>(effective: &Effective<'m>, one: Unlinked) -> &'m [u8]
    ensures { result.now ≡ unlinked_name effective.now one }
{
    if one.is_path {
        user_path_name(effective, one.number)
    } else {
        connection_name(effective, one.number)
    }
}

fn user_path_name<'m>(effective: &Effective<'m>, number: u32) -> &'m [u8]
    ensures { result.now ≡ user_path_name effective.now number }
{
    match effective
        .propagations
        .user_paths
        .items()
        .get(number as usize)
    {
        Some(path) => path.item().name.text(),
        None => &[],
    }
}

fn connection_name<'m>(effective: &Effective<'m>, number: u32) -> &'m [u8]
    ensures { result.now ≡ connection_name effective.now number }
{
    match effective.members.connections.items().get(number as usize) {
        Some(connection) => connection.nearest().item().name.text(),
        None => &[],
    }
}
