//! Sides from which links lead to two sides of one component.

ghost use Rattle.std.specs.Prelude.{◌≡◌, IfOk, filter, not, take};
ghost use Rattle.std.specs.HashSet.{contains};
ghost use Rattle.uneven_parts.specs.TwoWays.{further_ways, inward_links, is_further_way, two_ways};
ghost use Rattle.uneven_parts.specs.inner.Tables.{KnowsLinks, KnowsWays, link_key, same_link_key, same_way_key, way_key};

use plain_values::{List, Mem};
use propagation_links::Link;
use std::alloc::Global;
use std::collections::HashSet;

/// A side, as a key: its component, its point, and whether it is outward.
type SideKey = (u32, u32, bool);

/// Of the links that lead to inward sides those by which a side leads to a second side of one component, or to a third: one before them leads
/// from the same side to that component, and none to the same side of it.
pub fn two_ways(alloc: Global, links: &[Link]) -> Mem<List<Link>>
    ensures { IfOk result (λ ways. ways ≡ two_ways links.now) }
{
    let inward = inward_links(alloc, links)?;
    further_ways(alloc, inward.items())
}

/// The links that lead to inward sides.
fn inward_links(alloc: Global, links: &[Link]) -> Mem<List<Link>>
    ensures { IfOk result (λ inward. inward ≡ inward_links links.now) }
{
    let mut inward = List::new(alloc);
    for link in links {
        inward.push_if(*link, !link.to.outward)?;
    }
    Ok(inward)
}

/// The links among these that are further ways.
fn further_ways(alloc: Global, links: &[Link]) -> Mem<List<Link>>
    ensures { IfOk result (λ further. further ≡ further_ways links.now) }
{
    let mut further = List::new(alloc);
    let mut ways = HashSet::new(alloc);
    let mut known = HashSet::new(alloc);
    for (place, link) in links.iter().enumerate() {
        further.push_if(*link, is_further_way(links, place, &ways, &known, *link))?;
        ways.insert(way_key(*link))?;
        known.insert(link_key(*link))?;
    }
    Ok(further)
}

/// Whether a link is a further way, where these are the ways and the links before a place.
fn is_further_way(
    links: &[Link],
    place: usize,
    ways: &HashSet<(SideKey, u32)>,
    known: &HashSet<(SideKey, SideKey)>,
    link: Link,
) -> bool
    requires ways { KnowsWays (take place links.now) (contains same_way_key ways.now) }
    requires known { KnowsLinks (take place links.now) (contains same_link_key known.now) }
    ensures { result ≡ is_further_way (take place links.now) link }
{
    let _ = links;
    let _ = place;
    ways.contains(&way_key(link)) && !known.contains(&link_key(link))
}

fn way_key(link: Link) -> (SideKey, u32)
    ensures { result ≡ way_key link }
{
    let from = link.from;
    (
        (from.component, from.point, from.outward),
        link.to.component,
    )
}

fn link_key(link: Link) -> (SideKey, SideKey)
    ensures { result ≡ link_key link }
{
    let from = link.from;
    let to = link.to;
    (
        (from.component, from.point, from.outward),
        (to.component, to.point, to.outward),
    )
}
