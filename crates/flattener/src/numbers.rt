ghost use Rattle.std.specs.Prelude.{◌≡◌, ◌++◌, ◌∷◌, [], IfOk, OnOk};
ghost use Rattle.std.specs.HashMap.{get};
ghost use Rattle.model_facts.specs.Facts.{event_number, fact_number};
ghost use Rattle.fact_formulas.specs.Facts.{fact_at, linked_formula, linked_from, perhaps_at};
ghost use Rattle.fact_formulas.specs.Numbered.{event_formula, fact_formula, site_of};
ghost use Rattle.flattener.specs.inner.Tables.{AreLinks, SideKey as Key, row_at, same_key, side_of_key};

use crate::kinds::Kinds;
use crate::rows::{add, at};
use crate::site::Site;
use fact_formulas::fact_at;
use fault_system::Formula;
use instantiator::Instance;
use model_facts::{Assembly, EventKey, EventTable, FactKey, FactTable};
use plain_values::{List, Mem};
use propagation_links::{Link, PointAt};
use std::alloc::Global;
use std::collections::HashMap;
use std::marker::Model;

/// By what the links into a side go: its component, its point, and whether it is outward.
pub(crate) type SideKey = (u32, u32, bool);

/// A model whose facts and events are numbered, with the sides from which links lead into each side.
#[derive(Drop)]
pub(crate) struct Numbers<'n> {
    assembly: &'n Assembly<'n>,
    universe: &'n [u32],
    facts: &'n FactTable,
    events: &'n EventTable,
    kinds: &'n Kinds<'n>,
    links: HashMap<SideKey, List<PointAt>>,
}

impl<'n> Model for Numbers<'n> {
    ghost use Rattle.std.specs.Coded.{codes};
    ghost use Rattle.aadl_syntax.specs.contracts.error_model.Condition as condition;
    ghost use Rattle.propagation_points.specs.contracts.side.Side as side;
    ghost use Rattle.error_conditions.specs.contracts.cause.Cause as cause;
    ghost use Rattle.fact_formulas.specs.Numbered.{Numbered};

    ghost Value = { Numbered };

    ghost coded = { Prim.hlevel (codes, condition.the_row.coded, side.the_row.coded, cause.the_row.coded) };

    ghost use Rattle.std.specs.Prelude.{◌≡◌};
    ghost use Rattle.std.specs.HashMap.{get};
    ghost use Rattle.flattener.specs.inner.Tables.{AreLinks, same_key};

    ghost view = { λ n. record { assembly = n.assembly.now; universe = n.universe.now; facts = n.facts.now; events = n.events.now } };

    ghost invariant = { λ n. (n.kinds.now ≡ n.assembly.now.models) × AreLinks n.assembly.now.links (get same_key n.links) };
}

impl<'n> Numbers<'n> {
    /// A model with this universe, and these facts, events and kinds.
    pub(crate) fn new(
        alloc: Global,
        assembly: &'n Assembly<'n>,
        universe: &'n [u32],
        facts: &'n FactTable,
        events: &'n EventTable,
        kinds: &'n Kinds<'n>,
    ) -> Mem<Numbers<'n>>
        requires { kinds.now ≡ assembly.now.models }
        ensures { IfOk result (λ numbers. numbers ≡ record { assembly = assembly.now; universe = universe.now; facts = facts.now; events = events.now }) }
    {
        let links = links_of(alloc, assembly.links())?;
        Ok(Numbers {
            assembly,
            universe,
            facts,
            events,
            kinds,
            links,
        })
    }

    /// The model.
    pub(crate) fn assembly(&self) -> &'n Assembly<'n>
        ensures { result.now ≡ self.now.assembly }
    {
        self.assembly
    }

    /// The instance.
    pub(crate) fn instance(&self) -> &'n Instance<'n, 'n>
        ensures { result.now ≡ self.now.assembly.instance }
    {
        self.assembly.instance()
    }

    /// The types that may be at a free side, rising.
    pub(crate) fn universe(&self) -> &'n [u32]
        ensures { result.now ≡ self.now.universe }
    {
        self.universe
    }

    /// The facts, in order.
    pub(crate) fn facts(&self) -> &'n [FactKey]
        ensures { result.now ≡ self.now.facts }
    {
        self.facts.list()
    }

    /// The events, in order.
    pub(crate) fn events(&self) -> &'n [EventKey]
        ensures { result.now ≡ self.now.events }
    {
        self.events.list()
    }

    /// The number of an event, if it is one.
    pub(crate) fn event_number(&self, event: EventKey) -> Option<u32>
        ensures { result ≡ event_number self.now.events event }
    {
        self.events.number(event)
    }

    /// The component of a number.
    pub(crate) fn site(&self, owner: u32) -> Site<'_, 'n>
        ensures { result ≡ site_of self.now owner }
    {
        let kind = self.kinds.kind(self.instance().kind(owner));
        Site::new(self, owner, kind)
    }

    /// That a fact holds.
    pub(crate) fn fact(&self, alloc: Global, fact: FactKey) -> Formula
        ensures { result ≡ fact_formula self.now fact }
    {
        match self.facts.number(fact) {
            Some(number) => Formula::Fact(number),
            None => Formula::Or(List::new(alloc)),
        }
    }

    /// That an event occurs.
    pub(crate) fn event(&self, alloc: Global, event: EventKey) -> Formula
        ensures { result ≡ event_formula self.now event }
    {
        match self.events.number(event) {
            Some(number) => Formula::Event(number),
            None => Formula::Or(List::new(alloc)),
        }
    }

    /// That a type is at a side from which a link leads into this one.
    pub(crate) fn linked(&self, alloc: Global, number: u32, side: PointAt) -> Mem<Formula>
        ensures { IfOk result (λ formula. formula ≡ linked_formula self.now number side) }
    {
        let mut parts = List::new(alloc);
        for from in self.linked_from(side) {
            self.add_at(&mut parts, number, *from)?;
        }
        Ok(Formula::Or(parts))
    }

    /// Adds that a type is at a side, if it may be there.
    fn add_at(&self, parts: &mut List<Formula>, number: u32, side: PointAt) -> Mem<()>
        ensures { OnOk result (parts.new ≡ parts.old ++ perhaps_at self.now number side) }
    {
        if let Some(fact) = self.number_at(number, side) {
            parts.push(Formula::Fact(fact))?;
        }
        Ok(())
    }

    /// The number of the fact that a type is at a side, if it may be there.
    pub(crate) fn number_at(&self, number: u32, side: PointAt) -> Option<u32>
        ensures { result ≡ fact_number self.now.facts (fact_at number side) }
    {
        self.facts.number(fact_at(number, side))
    }

    /// The sides from which links lead into a side, in the order of the links.
    pub(crate) fn linked_from(&self, side: PointAt) -> &[PointAt]
        ensures { result.now ≡ linked_from side self.now.assembly.links }
    {
        at(&self.links, (side.component, side.point, side.outward))
    }
}

fn links_of(alloc: Global, links: &[Link]) -> Mem<HashMap<SideKey, List<PointAt>>>
    ensures { IfOk result (λ rows. AreLinks links.now (get same_key rows)) }
{
    let mut rows = HashMap::new(alloc);
    for link in links {
        add_link(alloc, &mut rows, *link)?;
    }
    Ok(rows)
}

/// Adds the side from which a link leads to the row of the side into which it leads.
fn add_link(alloc: Global, rows: &mut HashMap<SideKey, List<PointAt>>, link: Link) -> Mem<()>
    ensures { OnOk result ((key : Key) → row_at (get same_key rows.new key) ≡ row_at (get same_key rows.old key) ++ linked_from (side_of_key key) (link ∷ [])) }
{
    let key = (link.to.component, link.to.point, link.to.outward);
    add(alloc, rows, key, link.from)
}
