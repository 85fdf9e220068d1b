//! Inward sides that errors enter from outside, to which none comes, or that have no source.

ghost use Rattle.std.specs.Prelude.{◌≡◌, ◌++◌, IfOk, OnOk, false, true};
ghost use Rattle.std.specs.HashSet.{contains};
ghost use Rattle.std.specs.List.{list_any};
ghost use Rattle.model_facts.specs.Facts.{inward_of, is_linked};
ghost use Rattle.model_facts.specs.inner.Tables.{KnowsSides, same_side_key};
ghost use Rattle.model_review.specs.Findings.{dry_with, has_types, if_any, is_asked, is_free, is_used_side, leads_to, turned, turned_links, types_at};
ghost use Rattle.model_review.specs.Seen.{is_used, may_come, number_at};
ghost use Rattle.model_review.specs.declared.finding.Finding.TheVariants.{Dry, Open};

use crate::finding::{Finding, TypesAt, tell_unless};
use crate::flows::inward_of;
use crate::view::{View, declared_for};
use crate::walks::{PointFinding, PointPlace};
use plain_values::{List, Mem};
use propagation_links::{Link, PointAt};
use propagation_points::{Point, Side};
use std::alloc::Global;
use std::collections::HashSet;

/// The sides into which some links lead.
#[derive(Drop)]
pub(crate) struct Linked {
    sides: HashSet<(u32, u32, bool)>,
}

impl Linked {
    /// Where these are the links.
    pub(crate) fn of(alloc: Global, links: &[Link]) -> Mem<Linked>
        ensures { IfOk result (λ linked. KnowsSides links.now (contains same_side_key linked.sides)) }
    {
        let mut sides = HashSet::new(alloc);
        for link in links {
            let to = link.to;
            sides.insert((to.component, to.point, to.outward))?;
        }
        Ok(Linked { sides })
    }

    /// Whether a link leads into the inward side of a point.
    fn has(&self, owner: u32, number: u32) -> bool
        ensures { result ≡ contains same_side_key self.now.sides (owner, number, false) }
    {
        self.sides.contains(&(owner, number, false))
    }
}

// ---- open ends

/// The types that are declared for the inward side of a point, if there are any, and no link leads there.
#[derive(Drop)]
pub(crate) struct OpenEnds<'l>(pub &'l Linked);

impl<'l> PointFinding for OpenEnds<'l> {
    ghost use Rattle.std.specs.HashSet.{contains};
    ghost use Rattle.model_facts.specs.inner.Tables.{KnowsSides, same_side_key};
    ghost use Rattle.model_review.specs.Findings.{open_at};

    ghost fits = { λ told seen. KnowsSides seen.numbered.assembly.links (contains same_side_key told.0.now.sides) };

    ghost finding = { λ _. open_at };

    fn tell(
        &self,
        alloc: Global,
        found: &mut List<Finding>,
        view: &View,
        at: PointPlace,
        point: &Point,
    ) -> Mem<()> {
        if is_linked(view, self.0, at) {
            return Ok(());
        }
        match declared_for(point.side(false)) {
            Some(types) => add_arrivals(alloc, found, inward_of(at.owner, at.number), types),
            None => Ok(()),
        }
    }
}

/// Whether a link leads into the inward side of a point.
fn is_linked(view: &View, linked: &Linked, at: PointPlace) -> bool
    requires { KnowsSides view.now.numbered.assembly.links (contains same_side_key linked.now.sides) }
    ensures { result ≡ is_linked view.now.numbered.assembly.links (inward_of at.owner at.number) }
{
    let _ = view;
    linked.has(at.owner, at.number)
}

fn add_arrivals(
    alloc: Global,
    found: &mut List<Finding>,
    side: PointAt,
    declared: &[u32],
) -> Mem<()>
    ensures { OnOk result (found.new ≡ found.old ++ if_any (λ types. Open (types_at side types)) declared.now) }
{
    let types = List::of(Vec::from_slice(alloc, declared)?)?;
    let at = TypesAt { side, types };
    tell_unless(found, at.is_empty(), Finding::Open(at))
}

// ---- sides to which nothing comes

/// The types that are declared for the inward side of a point, if there are any, a link leads there, and none of them may come.
#[derive(Drop)]
pub(crate) struct DrySides<'l>(pub &'l Linked);

impl<'l> PointFinding for DrySides<'l> {
    ghost use Rattle.std.specs.HashSet.{contains};
    ghost use Rattle.model_facts.specs.inner.Tables.{KnowsSides, same_side_key};
    ghost use Rattle.model_review.specs.Findings.{dry_at};

    ghost fits = { λ told seen. KnowsSides seen.numbered.assembly.links (contains same_side_key told.0.now.sides) };

    ghost finding = { λ _. dry_at };

    fn tell(
        &self,
        alloc: Global,
        found: &mut List<Finding>,
        view: &View,
        at: PointPlace,
        point: &Point,
    ) -> Mem<()> {
        if !is_linked(view, self.0, at) {
            return Ok(());
        }
        match declared_for(point.side(false)) {
            Some(types) => add_dry(alloc, found, view, inward_of(at.owner, at.number), types),
            None => Ok(()),
        }
    }
}

/// Adds these types at a side, unless one of them may come there.
fn add_dry(
    alloc: Global,
    found: &mut List<Finding>,
    view: &View,
    side: PointAt,
    declared: &[u32],
) -> Mem<()>
    ensures { OnOk result (found.new ≡ found.old ++ dry_with view.now side declared.now) }
{
    if some_come(view, side, declared) {
        return Ok(());
    }
    let types = List::of(Vec::from_slice(alloc, declared)?)?;
    let at = TypesAt { side, types };
    tell_unless(found, at.is_empty(), Finding::Dry(at))
}

/// Whether one of these types may come at a side.
fn some_come(view: &View, side: PointAt, types: &[u32]) -> bool
    ensures { result ≡ list_any (λ type. may_come view.now (number_at view.now side type)) types.now }
{
    types.iter().any(|kind| comes_at(view, side, *kind))
}

/// Whether a type may come at a side.
fn comes_at(view: &View, side: PointAt, kind: u32) -> bool
    ensures { result ≡ may_come view.now (number_at view.now side kind) }
{
    view.may_come(view.fact_at(side, kind))
}

// ---- sides without a source

/// The inward side of a point without declared types, if no link leads there and something looks at it. It has the sides into which links lead,
/// and those from which they lead to sides with and without declared types.
#[derive(Drop)]
pub(crate) struct NoSources<'l> {
    linked: &'l Linked,
    to_declared: Linked,
    to_free: Linked,
}

impl<'l> NoSources<'l> {
    /// Where these are the sides into which the links of a model lead.
    pub(crate) fn of(alloc: Global, view: &View, linked: &'l Linked) -> Mem<NoSources<'l>>
        ensures linked { IfOk result (λ told. told.linked.now ≡ linked.now) }
        ensures declared { IfOk result (λ told. KnowsSides (turned_links view.now true) (contains same_side_key told.to_declared.sides)) }
        ensures free { IfOk result (λ told. KnowsSides (turned_links view.now false) (contains same_side_key told.to_free.sides)) }
    {
        let to_declared = sources_of(alloc, view, true)?;
        let to_free = sources_of(alloc, view, false)?;
        Ok(NoSources {
            linked,
            to_declared,
            to_free,
        })
    }
}

/// The sides from which links lead to sides with declared types, or to those without.
fn sources_of(alloc: Global, view: &View, declared: bool) -> Mem<Linked>
    ensures { IfOk result (λ linked. KnowsSides (turned_links view.now declared) (contains same_side_key linked.sides)) }
{
    let links = turned_links(alloc, view, declared)?;
    Linked::of(alloc, links.items())
}

/// The links that lead to sides with declared types, or those that lead to sides without, turned round.
fn turned_links(alloc: Global, view: &View, declared: bool) -> Mem<List<Link>>
    ensures { IfOk result (λ links. links ≡ turned_links view.now declared) }
{
    let mut links = List::new(alloc);
    for link in view.links() {
        let is_so = has_types(view, link.to) == declared;
        links.push_if(turned(*link), is_so)?;
    }
    Ok(links)
}

fn turned(link: Link) -> Link
    ensures { result ≡ turned link }
{
    Link {
        from: link.to,
        to: link.from,
    }
}

/// Whether types are declared for a side.
fn has_types(view: &View, side: PointAt) -> bool
    ensures { result ≡ has_types view.now side }
{
    match view.declared(side) {
        Some(_) => true,
        None => false,
    }
}

impl<'l> PointFinding for NoSources<'l> {
    ghost use Rattle.std.specs.Prelude.{true, false};
    ghost use Rattle.std.specs.HashSet.{contains};
    ghost use Rattle.model_facts.specs.inner.Tables.{KnowsSides, same_side_key};
    ghost use Rattle.model_review.specs.Findings.{no_source_at, turned_links};

    ghost fits = { λ told seen. KnowsSides seen.numbered.assembly.links (contains same_side_key told.linked.now.sides)
        × KnowsSides (turned_links seen true) (contains same_side_key told.to_declared.sides)
        × KnowsSides (turned_links seen false) (contains same_side_key told.to_free.sides) };

    ghost finding = { λ _. no_source_at };

    fn tell(
        &self,
        alloc: Global,
        found: &mut List<Finding>,
        view: &View,
        at: PointPlace,
        point: &Point,
    ) -> Mem<()> {
        let _ = alloc;
        let is_told = is_free(point.side(false))
            && !is_linked(view, self.linked, at)
            && is_asked(view, &self.to_declared, &self.to_free, at);
        found.push_if(Finding::NoSource(inward_of(at.owner, at.number)), is_told)?;
        Ok(())
    }
}

/// Whether a side is one for which no types are declared.
fn is_free(side: &Side) -> bool
    ensures { result ≡ is_free side.now }
{
    match side {
        Side::Free => true,
        Side::Absent | Side::Declared(_) => false,
    }
}

/// Whether something looks at the inward side of a point.
fn is_asked(view: &View, to_declared: &Linked, to_free: &Linked, at: PointPlace) -> bool
    requires declared { KnowsSides (turned_links view.now true) (contains same_side_key to_declared.now.sides) }
    requires free { KnowsSides (turned_links view.now false) (contains same_side_key to_free.now.sides) }
    ensures { result ≡ is_asked view.now (inward_of at.owner at.number) }
{
    leads_to(view, true, to_declared, at)
        || (!leads_to(view, false, to_free, at)
            && is_used_side(view, inward_of(at.owner, at.number)))
}

/// Whether a link leads from the inward side of a point to one with declared types, or to one without.
fn leads_to(view: &View, declared: bool, sides: &Linked, at: PointPlace) -> bool
    requires { KnowsSides (turned_links view.now declared) (contains same_side_key sides.now.sides) }
    ensures { result ≡ leads_to view.now declared (inward_of at.owner at.number) }
{
    let _ = view;
    let _ = declared;
    sides.has(at.owner, at.number)
}

/// Whether a type that may be at a side occurs there in a formula.
fn is_used_side(view: &View, side: PointAt) -> bool
    ensures { result ≡ is_used_side view.now side }
{
    some_used(view, side, view.types(side))
}

/// Whether one of these types occurs at a side in a formula.
fn some_used(view: &View, side: PointAt, types: &[u32]) -> bool
    ensures { result ≡ list_any (λ type. is_used view.now (number_at view.now side type)) types.now }
{
    types.iter().any(|kind| is_used_at(view, side, *kind))
}

/// Whether a type occurs at a side in a formula.
fn is_used_at(view: &View, side: PointAt, kind: u32) -> bool
    ensures { result ≡ is_used view.now (number_at view.now side kind) }
{
    view.uses(view.fact_at(side, kind))
}
