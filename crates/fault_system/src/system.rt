ghost use Rattle.std.specs.Prelude.{◌≡◌, ◌↔◌, ◌<◌, ◌^◌, ℕ, length, false, not, IfOk, OnOk, IsTrue, option_copied, slice_get};
ghost use Rattle.std.specs.List.{list_all};
ghost use Rattle.fault_system.specs.Truth.{Has, member, set_of};

use crate::bits::Bits;
use crate::formula::{EventInfo, FactInfo};
use crate::rounds::timed;
use plain_values::{List, Mem};
use std::alloc::Global;
use std::marker::Model;

/// The facts and the events of a model. A fact is named by its place, from 0, and so is an event.
#[derive(Drop)]
pub struct FaultSystem {
    facts: List<FactInfo>,
    events: List<EventInfo>,
}

impl Model for FaultSystem {
    ghost use Rattle.std.specs.Coded.{codes};
    ghost use Rattle.fault_system.specs.contracts.formula.Formula as formula;
    ghost use Rattle.fault_system.specs.Systems.{System, IsSystem};

    ghost Value = { System };

    ghost coded = { Prim.hlevel (codes, formula.the_row.coded) };

    ghost view = { λ s. record { facts = s.facts; events = s.events } };

    ghost invariant = { λ s. IsSystem (record { facts = s.facts; events = s.events }) };
}

impl FaultSystem {
    ghost use Rattle.fault_system.specs.Systems.{IsSystem, Holds, event_name, fact_name, holds_of};
    ghost use Rattle.fault_system.specs.CutSets.{IsEventSet, IsMinimalCutSet, makes_hold};
    ghost use Rattle.fault_system.specs.inner.CutSets.{is_minimal, without};

    /// The system of these facts and events.
    pub fn new(facts: List<FactInfo>, events: List<EventInfo>) -> FaultSystem
        requires { IsSystem (record { facts = facts; events = events }) }
        ensures { result ≡ record { facts = facts; events = events } }
    {
        FaultSystem { facts, events }
    }

    /// How many facts there are.
    pub fn facts(&self) -> u32
        ensures count { result ≡ length self.now.facts }
        ensures system { IsSystem self.now }
    {
        self.facts.items().len() as u32
    }

    /// How many events there are.
    pub fn events(&self) -> u32
        ensures count { result ≡ length self.now.events }
        ensures system { IsSystem self.now }
    {
        self.events.items().len() as u32
    }

    /// The facts, in their order.
    pub fn fact_infos(&self) -> &[FactInfo]
        ensures facts { result.now ≡ self.now.facts }
        ensures few { length self.now.facts < 2 ^ 32 }
    {
        self.facts.items()
    }

    /// The events, in their order.
    pub fn event_infos(&self) -> &[EventInfo]
        ensures events { result.now ≡ self.now.events }
        ensures few { length self.now.events < 2 ^ 32 }
    {
        self.events.items()
    }

    /// The name of a fact; empty where the number is none of a fact.
    pub fn fact_name(&self, number: u32) -> &[u8]
        ensures { result.now ≡ fact_name self.now number }
    {
        match self.fact(number) {
            Some(fact) => fact.name.items(),
            None => &[],
        }
    }

    /// The name of an event; empty where the number is none of an event.
    pub fn event_name(&self, number: u32) -> &[u8]
        ensures { result.now ≡ event_name self.now number }
    {
        match self.event(number) {
            Some(event) => event.name.items(),
            None => &[],
        }
    }

    /// The fact of a number; none where the number is none of a fact.
    pub fn fact(&self, number: u32) -> Option<&FactInfo>
        ensures { option_copied result ≡ slice_get self.now.facts number }
    {
        self.facts.items().get(number as usize)
    }

    /// The event of a number; none where the number is none of an event.
    pub fn event(&self, number: u32) -> Option<&EventInfo>
        ensures { option_copied result ≡ slice_get self.now.events number }
    {
        self.events.items().get(number as usize)
    }

    /// The facts that hold under a set of events: those that are in every set of facts which has each fact whose
    /// formula is true under the events and that set. A loop of facts without an event makes none of them hold.
    pub fn holds(&self, alloc: Global, events: &Bits) -> Mem<Bits>
        ensures size { IfOk result (λ facts. length facts ≡ length self.now.facts) }
        ensures exact { IfOk result
            (λ facts. (n : ℕ) → Has (member facts) n ↔ Holds self.now (member events.now) n) }
        ensures computed { IfOk result (λ facts. facts ≡ holds_of self.now (member events.now)) }
    {
        let rounds = self.rounds(alloc, events)?;
        Ok(timed(alloc, &rounds)?)
    }

    /// Whether a set of events, given by their rising numbers, is a minimal cut set of a target: the target holds
    /// under these events, and under no proper subset of them.
    pub fn is_minimal_cut_set(&self, alloc: Global, target: u32, set: &[u32]) -> Mem<bool>
        requires { IsEventSet self.now set.now }
        ensures exact { IfOk result (λ answer. IsTrue answer ↔ IsMinimalCutSet self.now target set.now) }
        ensures computed { IfOk result (λ answer. answer ≡ is_minimal self.now target set.now) }
    {
        let mut events = Bits::of(alloc, self.events(), set)?;
        let is_cut_set = self.makes_hold(alloc, target, &events)?;
        let is_minimal = is_cut_set && self.needs_each(alloc, target, set, &mut events)?;
        Ok(is_minimal)
    }

    /// Whether a target holds under a set of events.
    pub fn makes_hold(&self, alloc: Global, target: u32, events: &Bits) -> Mem<bool>
        ensures { IfOk result (λ answer. answer ≡ makes_hold self.now target (member events.now)) }
    {
        let facts = self.holds(alloc, events)?;
        Ok(facts.has(target))
    }

    // Whether the target does not hold without any one of these events.
    fn needs_each(&self, alloc: Global, target: u32, set: &[u32], events: &mut Bits) -> Mem<bool>
        requires { (n : ℕ) → member events.old n ≡ set_of set.now n }
        ensures { IfOk result (λ answer. answer
            ≡ list_all (λ n. not (makes_hold self.now target (without (set_of set.now) n))) set.now) }
    {
        for event in set {
            if self.holds_without(alloc, target, *event, events)? {
                return Ok(false);
            }
        }
        Ok(true)
    }

    // Whether the target holds without one of the events, which are as before afterwards.
    fn holds_without(&self, alloc: Global, target: u32, event: u32, events: &mut Bits) -> Mem<bool>
        requires { Has (member events.old) event }
        ensures answer { IfOk result
            (λ answer. answer ≡ makes_hold self.now target (without (member events.old) event)) }
        ensures same { OnOk result ((n : ℕ) → member events.new n ≡ member events.old n) }
    {
        events.take(event);
        let answer = self.makes_hold(alloc, target, events)?;
        events.put(event);
        Ok(answer)
    }
}
