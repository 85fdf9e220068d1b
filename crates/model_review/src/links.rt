//! Links along which something comes that has no effect.

ghost use Rattle.std.specs.Prelude.{◌≡◌, ◌++◌, IfOk, OnOk};
ghost use Rattle.model_review.specs.Findings.{hidden_along, if_any, is_hidden_link, others_along, types_at};
ghost use Rattle.model_review.specs.declared.finding.Finding.TheVariants.{NotDeclared};

use crate::finding::{Finding, TypesAt, tell_unless};
use crate::flows::has_number;
use crate::view::View;
use crate::walks::LinkFinding;
use plain_values::{List, Mem};
use propagation_links::Link;
use std::alloc::Global;

/// The types of a link that are hidden, if there are any.
#[derive(Clone, Copy)]
pub(crate) struct HiddenLinks;

impl LinkFinding for HiddenLinks {
    ghost use Rattle.model_review.specs.Findings.{hidden_link};

    ghost finding = { λ _. hidden_link };

    fn tell(&self, alloc: Global, found: &mut List<Finding>, view: &View, link: Link) -> Mem<()> {
        if !link.to.outward {
            return Ok(());
        }
        let states = view.states(alloc, link.to.component)?;
        let types = hidden_along(alloc, view, states.items(), link)?;
        let at = TypesAt {
            side: link.to,
            types,
        };
        tell_unless(found, at.is_empty(), Finding::HiddenLink(link.from, at))
    }
}

fn hidden_along(alloc: Global, view: &View, among: &[u32], link: Link) -> Mem<List<u32>>
    ensures { IfOk result (λ types. types ≡ hidden_along view.now among.now link) }
{
    let mut types = List::new(alloc);
    for kind in view.types(link.to) {
        let is_hidden = is_hidden_link(alloc, view, among, link, *kind)?;
        types.push_if(*kind, is_hidden)?;
    }
    Ok(types)
}

fn is_hidden_link(alloc: Global, view: &View, among: &[u32], link: Link, kind: u32) -> Mem<bool>
    ensures { IfOk result (λ hidden. hidden ≡ is_hidden_link view.now among.now link kind) }
{
    match view.fact_at(link.to, kind) {
        Some(target) => view.is_lost_fact(alloc, among, target, view.fact_at(link.from, kind)),
        None => Ok(false),
    }
}

/// The types that may come along a link to a side for which they are not declared, if there are any.
#[derive(Clone, Copy)]
pub(crate) struct NotDeclaredThere;

impl LinkFinding for NotDeclaredThere {
    ghost use Rattle.model_review.specs.Findings.{not_declared};

    ghost finding = { λ _. not_declared };

    fn tell(&self, alloc: Global, found: &mut List<Finding>, view: &View, link: Link) -> Mem<()> {
        match view.declared(link.to) {
            Some(declared) => add_others(alloc, found, view, link, declared),
            None => Ok(()),
        }
    }
}

fn add_others(
    alloc: Global,
    found: &mut List<Finding>,
    view: &View,
    link: Link,
    declared: &[u32],
) -> Mem<()>
    ensures { OnOk result (found.new ≡ found.old ++ if_any (λ types. NotDeclared (types_at link.from types) link.to) (others_along view.now link declared.now)) }
{
    let mut types = List::new(alloc);
    for kind in view.types(link.from) {
        let may_come = view.may_come(view.fact_at(link.from, *kind));
        types.push_if(*kind, may_come && !has_number(declared, *kind))?;
    }
    let at = TypesAt {
        side: link.from,
        types,
    };
    tell_unless(found, at.is_empty(), Finding::NotDeclared(at, link.to))
}
