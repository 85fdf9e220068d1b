//! What is told of a model, in order.

ghost use Rattle.std.specs.Prelude.{◌≡◌, ◌++◌, IfOk, OnOk, false, flat_map, length, map, true};
ghost use Rattle.plain_values.specs.Rising.{RisesWithin};
ghost use Rattle.model_facts.specs.Assembly.{model_at};
ghost use Rattle.model_review.specs.Findings.{always_told, bindings_told, dry_sides, hidden_flows, hidden_link, leaves_of, model_findings, never_out, no_links, no_sources, nowhere_out, of_components, open_ends, rates_told, states_told, stops_of, stops_told, text_findings, uneven_told, ways_told};
ghost use Rattle.event_rates.specs.Unused.{unused_rates};
ghost use Rattle.stray_bindings.specs.Stray.{stray_bindings};
ghost use Rattle.uneven_parts.specs.Quiet.{quiet_states};
ghost use Rattle.uneven_parts.specs.TwoWays.{two_ways};
ghost use Rattle.uneven_parts.specs.Unlike.{unlike_states};
ghost use Rattle.unread_parts.specs.Root.{root_implementations};
ghost use Rattle.unread_parts.specs.Unread.{unread_parts};
ghost use Rattle.unread_parts.specs.declared.unread.What.TheVariants as what;
ghost use Rattle.model_review.specs.Told.{AreFindings};
ghost use Rattle.model_review.specs.declared.finding.Finding.TheVariants.{CoreRate, InModes, NoLink, Quiet, StrayPath, StrayRate, TwoWays, TypeRoot, Unlike, UnreadBinding};

use crate::ends::{DrySides, Linked, NoSources, OpenEnds};
use crate::finding::Finding;
use crate::flows::HiddenFlows;
use crate::links::{HiddenLinks, NotDeclaredThere};
use crate::sides::{AlwaysOut, Leaves, NeverOut, NowhereOut, Stops};
use crate::states::{AlwaysInState, HiddenTransitions, NeverInState, UnusedStates};
use crate::told::add_told;
use crate::view::View;
use crate::walks::{AtPoints, AtStates, add_of_component, add_of_components, add_of_links};
use event_rates::{UnusedRate, unused_rates};
use model_facts::points_of_models;
use plain_values::{List, Mem, Name, copied};
use propagation_links::{Link, Unlinked, find_unlinked};
use std::alloc::Global;
use stray_bindings::{StrayBinding, stray_bindings};
use uneven_parts::{QuietState, UnlikeState, quiet_states, two_ways, unlike_states};
use unread_parts::{Implementation, Part, What, root_implementations, unread_parts};

/// What is told of a model, in order.
pub(crate) fn findings(alloc: Global, view: &View) -> Mem<List<Finding>>
    requires { RisesWithin 0 (length view.now.system.facts) view.now.effects }
    ensures { IfOk result (AreFindings view.now) }
{
    let mut found = model_findings(alloc, view)?;
    add_told(alloc, &mut found, view)?;
    Ok(found)
}

/// What is told of a model but for its loops and its events: what is hidden, where errors stop, and what never comes about.
fn model_findings(alloc: Global, view: &View) -> Mem<List<Finding>>
    ensures { IfOk result (λ found. found ≡ model_findings view.now) }
{
    let mut found = List::new(alloc);
    add_hidden(alloc, &mut found, view)?;
    add_of_components(alloc, &mut found, view, &HiddenTransitions)?;
    add_of_links(alloc, &mut found, view, &NotDeclaredThere)?;
    add_ends(alloc, &mut found, view)?;
    Ok(found)
}

/// Adds the sources, the paths and the links without effect.
fn add_hidden(alloc: Global, found: &mut List<Finding>, view: &View) -> Mem<()>
    ensures { OnOk result (found.new ≡ found.old
        ++ (of_components view.now (hidden_flows false view.now)
        ++ (of_components view.now (hidden_flows true view.now)
        ++ flat_map (hidden_link view.now) view.now.numbered.assembly.links))) }
{
    add_of_components(alloc, found, view, &HiddenFlows { paths: false })?;
    add_of_components(alloc, found, view, &HiddenFlows { paths: true })?;
    add_of_links(alloc, found, view, &HiddenLinks)
}

/// Adds where errors stop, where they lead nowhere, where they come from outside, what never comes about, and states and text that nothing
/// looks at.
fn add_ends(alloc: Global, found: &mut List<Finding>, view: &View) -> Mem<()>
    ensures { OnOk result (found.new ≡ found.old
        ++ (stops_told view.now
        ++ (of_components view.now (nowhere_out view.now)
        ++ (ways_told view.now
        ++ (of_components view.now (open_ends view.now)
        ++ (of_components view.now (dry_sides view.now)
        ++ (of_components view.now (no_sources view.now)
        ++ (of_components view.now (never_out view.now)
        ++ (states_told view.now
        ++ text_findings view.now))))))))) }
{
    add_stops(alloc, found, view)?;
    add_of_components(alloc, found, view, &AtPoints(NowhereOut))?;
    add_ways(alloc, found, view)?;
    add_inward(alloc, found, view)?;
    add_of_components(alloc, found, view, &AtPoints(NeverOut))?;
    add_states(alloc, found, view)?;
    add_text(alloc, found, view)?;
    Ok(())
}

/// Adds the sides at which errors stop: at points without a sink, and at those with one, what no sink takes.
fn add_stops(alloc: Global, found: &mut List<Finding>, view: &View) -> Mem<()>
    ensures { OnOk result (found.new ≡ found.old ++ stops_told view.now) }
{
    add_of_components(alloc, found, view, &AtPoints(Stops))?;
    add_of_components(alloc, found, view, &AtPoints(Leaves))
}

/// Adds the sides that errors enter from outside, those to which none comes, and those without a source.
fn add_inward(alloc: Global, found: &mut List<Finding>, view: &View) -> Mem<()>
    ensures { OnOk result (found.new ≡ found.old
        ++ (of_components view.now (open_ends view.now)
        ++ (of_components view.now (dry_sides view.now)
        ++ of_components view.now (no_sources view.now)))) }
{
    let linked = Linked::of(alloc, view.links())?;
    add_of_components(alloc, found, view, &AtPoints(OpenEnds(&linked)))?;
    add_of_components(alloc, found, view, &AtPoints(DrySides(&linked)))?;
    let sources = NoSources::of(alloc, view, &linked)?;
    add_of_components(alloc, found, view, &AtPoints(sources))
}

/// Adds the states of the root in which it never is, what always holds, the states of its parts at which nothing looks, and those that are used
/// otherwise than others.
fn add_states(alloc: Global, found: &mut List<Finding>, view: &View) -> Mem<()>
    ensures { OnOk result (found.new ≡ found.old ++ states_told view.now) }
{
    add_of_component(alloc, found, view, &AtStates(NeverInState), 0)?;
    add_always(alloc, found, view)?;
    add_of_components(alloc, found, view, &AtStates(UnusedStates))?;
    add_uneven(alloc, found, view)
}

/// Adds the types that come out where no event occurs, and the states that are not initial in which a component is then.
fn add_always(alloc: Global, found: &mut List<Finding>, view: &View) -> Mem<()>
    ensures { OnOk result (found.new ≡ found.old ++ always_told view.now) }
{
    add_of_components(alloc, found, view, &AtPoints(AlwaysOut))?;
    add_of_components(alloc, found, view, &AtStates(AlwaysInState))
}

/// Adds the states of parts unlike others, and those that give nothing at one side of their component and something at another one.
fn add_uneven(alloc: Global, found: &mut List<Finding>, view: &View) -> Mem<()>
    ensures { OnOk result (found.new ≡ found.old ++ uneven_told view.now) }
{
    add_unlike(alloc, found, view)?;
    add_quiet(alloc, found, view)
}

fn add_quiet(alloc: Global, found: &mut List<Finding>, view: &View) -> Mem<()>
    ensures { OnOk result (found.new ≡ found.old ++ map Quiet (quiet_states view.now.numbered.assembly view.now.system view.now.numbered.facts)) }
{
    let states = quiet_states(alloc, view.assembly(), view.system(), view.facts())?;
    add_states_quiet(found, states.items())
}

fn add_states_quiet(found: &mut List<Finding>, states: &[QuietState]) -> Mem<()>
    ensures { OnOk result (found.new ≡ found.old ++ map Quiet states.now) }
{
    for state in states {
        found.push(Finding::Quiet(*state))?;
    }
    Ok(())
}

fn add_unlike(alloc: Global, found: &mut List<Finding>, view: &View) -> Mem<()>
    ensures { OnOk result (found.new ≡ found.old ++ map Unlike (unlike_states view.now.numbered.assembly.instance view.now.system view.now.numbered.facts)) }
{
    let states = unlike_states(alloc, view.instance(), view.system(), view.facts().list())?;
    add_states_unlike(found, states.items())
}

fn add_states_unlike(found: &mut List<Finding>, states: &[UnlikeState]) -> Mem<()>
    ensures { OnOk result (found.new ≡ found.old ++ map Unlike states.now) }
{
    for state in states {
        found.push(Finding::Unlike(*state))?;
    }
    Ok(())
}

/// Adds the connections and user paths without a link, and the links by which a side leads to a further side of one component.
fn add_ways(alloc: Global, found: &mut List<Finding>, view: &View) -> Mem<()>
    ensures { OnOk result (found.new ≡ found.old ++ ways_told view.now) }
{
    add_no_links(alloc, found, view)?;
    add_two_ways(alloc, found, view)
}

fn add_two_ways(alloc: Global, found: &mut List<Finding>, view: &View) -> Mem<()>
    ensures { OnOk result (found.new ≡ found.old ++ map TwoWays (two_ways view.now.numbered.assembly.links)) }
{
    let links = two_ways(alloc, view.links())?;
    add_links(found, links.items())
}

fn add_links(found: &mut List<Finding>, links: &[Link]) -> Mem<()>
    ensures { OnOk result (found.new ≡ found.old ++ map TwoWays links.now) }
{
    for link in links {
        found.push(Finding::TwoWays(*link))?;
    }
    Ok(())
}

fn add_no_links(alloc: Global, found: &mut List<Finding>, view: &View) -> Mem<()>
    ensures { OnOk result (found.new ≡ found.old ++ no_links view.now) }
{
    let assembly = view.assembly();
    let points = points_of_models(alloc, assembly.models())?;
    let unlinked = find_unlinked(alloc, assembly.instance(), points.items())?;
    add_unlinked(found, unlinked.items())
}

fn add_unlinked(found: &mut List<Finding>, unlinked: &[Unlinked]) -> Mem<()>
    ensures { OnOk result (found.new ≡ found.old ++ map NoLink unlinked.now) }
{
    for one in unlinked {
        found.push(Finding::NoLink(*one))?;
    }
    Ok(())
}

/// Adds what stands in modes, the bindings that are not read, the rates that count for no event, and the implementations of a root that is a
/// component type.
fn add_text(alloc: Global, found: &mut List<Finding>, view: &View) -> Mem<()>
    ensures { OnOk result (found.new ≡ found.old ++ text_findings view.now) }
{
    add_in_modes(alloc, found, view)?;
    add_bindings(alloc, found, view)?;
    add_all_rates(alloc, found, view)?;
    add_of_type_root(alloc, found, view)
}

fn add_in_modes(alloc: Global, found: &mut List<Finding>, view: &View) -> Mem<()>
    ensures { OnOk result (found.new ≡ found.old ++ map InModes (unread_parts what.InModes view.now.numbered.assembly.instance)) }
{
    let parts = unread_parts(alloc, What::InModes, view.instance())?;
    add_modal(alloc, found, parts.items())
}

/// Adds the bindings that are not read, and the paths in those that are which lead to nothing.
fn add_bindings(alloc: Global, found: &mut List<Finding>, view: &View) -> Mem<()>
    ensures { OnOk result (found.new ≡ found.old ++ bindings_told view.now) }
{
    add_unread_bindings(alloc, found, view)?;
    add_stray_bindings(alloc, found, view)
}

fn add_stray_bindings(alloc: Global, found: &mut List<Finding>, view: &View) -> Mem<()>
    ensures { OnOk result (found.new ≡ found.old ++ map StrayPath (stray_bindings view.now.numbered.assembly.types.profile view.now.numbered.assembly.instance)) }
{
    let profile = view.assembly().types().profile();
    let strays = stray_bindings(alloc, profile, view.instance())?;
    add_strays(alloc, found, strays.items())
}

fn add_strays(alloc: Global, found: &mut List<Finding>, strays: &[StrayBinding]) -> Mem<()>
    ensures { OnOk result (found.new ≡ found.old ++ map StrayPath strays.now) }
{
    for stray in strays {
        found.push(Finding::StrayPath(stray.again(alloc)?))?;
    }
    Ok(())
}

fn add_unread_bindings(alloc: Global, found: &mut List<Finding>, view: &View) -> Mem<()>
    ensures { OnOk result (found.new ≡ found.old ++ map UnreadBinding (unread_parts (what.Unread view.now.numbered.assembly.types.profile) view.now.numbered.assembly.instance)) }
{
    let what = What::Unread(view.assembly().types().profile());
    let parts = unread_parts(alloc, what, view.instance())?;
    add_unread(alloc, found, parts.items())
}

/// Adds the rates that are said of no event, and those in core text.
fn add_all_rates(alloc: Global, found: &mut List<Finding>, view: &View) -> Mem<()>
    ensures { OnOk result (found.new ≡ found.old ++ rates_told view.now) }
{
    add_unused_rates(alloc, found, view)?;
    add_core_rates(alloc, found, view)
}

fn add_core_rates(alloc: Global, found: &mut List<Finding>, view: &View) -> Mem<()>
    ensures { OnOk result (found.new ≡ found.old ++ map CoreRate (unread_parts what.Rates view.now.numbered.assembly.instance)) }
{
    let parts = unread_parts(alloc, What::Rates, view.instance())?;
    add_core(alloc, found, parts.items())
}

fn add_unused_rates(alloc: Global, found: &mut List<Finding>, view: &View) -> Mem<()>
    ensures { OnOk result (found.new ≡ found.old ++ map StrayRate (unused_rates view.now.numbered.assembly.types.profile view.now.numbered.assembly.instance view.now.system.events)) }
{
    let profile = view.assembly().types().profile();
    let rates = unused_rates(alloc, profile, view.instance(), view.system().event_infos())?;
    add_rates(alloc, found, rates.items())
}

fn add_of_type_root(alloc: Global, found: &mut List<Finding>, view: &View) -> Mem<()>
    ensures { OnOk result (found.new ≡ found.old ++ map TypeRoot (root_implementations view.now.numbered.assembly.instance)) }
{
    let all = root_implementations(alloc, view.instance())?;
    add_implementations(alloc, found, all.items())
}

fn add_modal(alloc: Global, found: &mut List<Finding>, parts: &[Part]) -> Mem<()>
    ensures { OnOk result (found.new ≡ found.old ++ map InModes parts.now) }
{
    for part in parts {
        found.push(Finding::InModes(part.again(alloc)?))?;
    }
    Ok(())
}

fn add_unread(alloc: Global, found: &mut List<Finding>, parts: &[Part]) -> Mem<()>
    ensures { OnOk result (found.new ≡ found.old ++ map UnreadBinding parts.now) }
{
    for part in parts {
        found.push(Finding::UnreadBinding(part.again(alloc)?))?;
    }
    Ok(())
}

fn add_rates(alloc: Global, found: &mut List<Finding>, rates: &[UnusedRate]) -> Mem<()>
    ensures { OnOk result (found.new ≡ found.old ++ map StrayRate rates.now) }
{
    for rate in rates {
        found.push(Finding::StrayRate(rate.again(alloc)?))?;
    }
    Ok(())
}

fn add_core(alloc: Global, found: &mut List<Finding>, parts: &[Part]) -> Mem<()>
    ensures { OnOk result (found.new ≡ found.old ++ map CoreRate parts.now) }
{
    for part in parts {
        found.push(Finding::CoreRate(part.again(alloc)?))?;
    }
    Ok(())
}

fn add_implementations(alloc: Global, found: &mut List<Finding>, all: &[Implementation]) -> Mem<()>
    ensures { OnOk result (found.new ≡ found.old ++ map TypeRoot all.now) }
{
    for one in all {
        found.push(Finding::TypeRoot(one.again(alloc)?))?;
    }
    Ok(())
}
