ghost use Rattle.std.specs.Prelude.{◌≡◌, ◌<◌, ◌^◌, None, false, length, slice_index_or, IfErr, IfOk, OnOk};
ghost use Rattle.std.specs.HashMap.{get};
ghost use Rattle.plain_values.specs.Rising.{RisesWithin};
ghost use Rattle.plain_values.specs.inner.Stops.{StopsAt};
ghost use Rattle.package_index.specs.inner.Tables.{Knows};
ghost use Rattle.model_facts.specs.Assembly.{model_at};
ghost use Rattle.model_facts.specs.Effects.{effects_among, is_effect};
ghost use Rattle.model_facts.specs.Facts.{fact_number, facts_of, same_fact};
ghost use Rattle.model_facts.specs.Limits.{many_facts};

use crate::assembly::Assembly;
use crate::fact_list::facts_of;
use crate::keys::{FactKey, FactKind};
use package_index::add;
use plain_values::{Answer, List, Mem};
use std::alloc::Global;
use std::collections::HashMap;
use std::marker::Model;

/// The facts of a model, in order. Contracts see them as a list; a fact is numbered by its place in it, from 0.
#[derive(Drop)]
pub struct FactTable {
    list: List<FactKey>,
    numbers: HashMap<FactKey, u32>,
}

impl Model for FactTable {
    ghost use Rattle.std.specs.Prelude.{List};
    ghost use Rattle.std.specs.HashMap.{get};
    ghost use Rattle.package_index.specs.inner.Tables.{Knows};
    ghost use Rattle.model_facts.specs.Facts.{same_fact};
    ghost use Rattle.model_facts.specs.declared.keys.FactKey.{FactKey as Key};

    ghost Value = { List Key };

    ghost view = { λ t. t.list };

    ghost invariant = { λ t. Knows same_fact t.list (get same_fact t.numbers) };
}

impl FactTable {
    /// The facts of a model with this universe.
    ///
    /// M6 where there are more than 262,144.
    pub fn of(alloc: Global, assembly: &Assembly, universe: &[u32]) -> Answer<FactTable>
        ensures facts { IfOk result (λ facts. facts ≡ facts_of assembly.now universe.now) }
        ensures accepted { OnOk result (many_facts (facts_of assembly.now universe.now) ≡ None) }
        ensures refused { IfErr result (StopsAt (many_facts (facts_of assembly.now universe.now))) }
    {
        let list = facts_of(alloc, assembly, universe)?;
        let numbers = numbers_of(alloc, list.items())?;
        Ok(FactTable { list, numbers })
    }

    /// The facts, in order.
    pub fn list(&self) -> &[FactKey]
        ensures { result.now ≡ self.now }
    {
        self.list.items()
    }

    /// The number of a fact, if it is one of these.
    pub fn number(&self, fact: FactKey) -> Option<u32>
        ensures { result ≡ fact_number self.now fact }
    {
        self.numbers.get(&fact).copied()
    }

    /// The numbers of those that are effects of failures, rising: that a component is in a state which is not an initial one, and
    /// that an error exits at a point.
    pub fn effects(&self, alloc: Global, assembly: &Assembly) -> Mem<List<u32>>
        ensures effects { IfOk result (λ effects. effects ≡ effects_among assembly.now self.now) }
        ensures rise { IfOk result (λ effects. RisesWithin 0 (length self.now) effects) }
    {
        effects_among(alloc, assembly, self.list.items())
    }
}

fn effects_among(alloc: Global, assembly: &Assembly, facts: &[FactKey]) -> Mem<List<u32>>
    requires { length facts.now < 2 ^ 32 }
    ensures effects { IfOk result (λ effects. effects ≡ effects_among assembly.now facts.now) }
    ensures rise { IfOk result (λ effects. RisesWithin 0 (length facts.now) effects) }
{
    let mut effects = List::new(alloc);
    for (number, fact) in facts.iter().enumerate() {
        effects.push_if(number as u32, is_effect(assembly, *fact))?;
    }
    Ok(effects)
}

/// Whether a fact is an effect of failures.
fn is_effect(assembly: &Assembly, fact: FactKey) -> bool
    ensures { result ≡ is_effect assembly.now fact }
{
    match fact.kind {
        FactKind::State(state) => !is_initial(assembly, fact.owner, state),
        FactKind::Enters(_, _) => false,
        FactKind::Exits(_, _) => true,
    }
}

/// Whether a state of a component is an initial one.
fn is_initial(assembly: &Assembly, owner: u32, state: u32) -> bool
    ensures { result ≡ slice_index_or (model_at assembly.now owner).states.always state false }
{
    match assembly.model(owner) {
        Some(model) => is_marked(model.states.always.items(), state),
        None => false,
    }
}

fn is_marked(marks: &[bool], number: u32) -> bool
    ensures { result ≡ slice_index_or marks.now number false }
{
    match marks.get(number as usize) {
        Some(mark) => *mark,
        None => false,
    }
}

/// The number of each fact.
fn numbers_of(alloc: Global, facts: &[FactKey]) -> Mem<HashMap<FactKey, u32>>
    requires { length facts.now < 2 ^ 32 }
    ensures { IfOk result (λ numbers. Knows same_fact facts.now (get same_fact numbers)) }
{
    let mut numbers = HashMap::new(alloc);
    for (number, fact) in facts.iter().enumerate() {
        add(&mut numbers, *fact, number as u32)?;
    }
    Ok(numbers)
}
