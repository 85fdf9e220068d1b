ghost use Rattle.std.specs.Prelude.{◌≡◌, ℕ, ◌&&◌, ◌++◌, IfOk, OnOk, false, length, not, option_copied, option_map, option_to_list, slice_get, unwrap_or};
ghost use Rattle.std.specs.Option.{option_map_or};
ghost use Rattle.fault_system.specs.Truth.{member};
ghost use Rattle.propagation_points.specs.States.{all_variants};
ghost use Rattle.model_facts.specs.Assembly.{model_at, no_model};
ghost use Rattle.model_facts.specs.Assembly.{side_at};
ghost use Rattle.fact_formulas.specs.Facts.{fact_at};
ghost use Rattle.propagation_points.specs.Uses.{side_types};
ghost use Rattle.model_review.specs.Seen.{declared_for, is_always, is_error, is_error_event, is_lost_event, is_lost_fact, is_used, may_come, number_at, side_in, source_number, state_number, states_of, stops, types_in};
ghost use Rattle.system_review.specs.Alone.{made_by_fact};
ghost use Rattle.system_review.specs.Occurring.{used_in};
ghost use Rattle.system_review.specs.Possible.{always_in, possible_in};

use error_models::ErrorModel;
use fact_formulas::{NumberedModel, fact_at};
use fault_system::{Bits, FaultSystem};
use instantiator::Instance;
use model_facts::{Assembly, EventKey, EventKind, FactKey, FactKind, FactTable};
use plain_values::{List, Mem};
use propagation_links::{Link, PointAt};
use propagation_points::Side;
use std::alloc::{AllocError, Global};
use std::marker::Model;
use system_review::{made_by_event, made_by_fact};

/// A model whose facts and events are numbered, with its system: what a review looks at.
#[derive(Drop)]
pub(crate) struct View<'v> {
    assembly: &'v Assembly<'v>,
    model: &'v NumberedModel,
    possible: &'v Bits,
    always: &'v Bits,
    used: &'v Bits,
}

impl<'v> Model for View<'v> {
    ghost use Rattle.std.specs.Prelude.{◌≡◌, ℕ};
    ghost use Rattle.std.specs.Coded.{codes};
    ghost use Rattle.aadl_syntax.specs.contracts.error_model.Condition as condition;
    ghost use Rattle.propagation_points.specs.contracts.side.Side as side;
    ghost use Rattle.error_conditions.specs.contracts.cause.Cause as cause;
    ghost use Rattle.fault_system.specs.contracts.formula.Formula as formula;
    ghost use Rattle.fault_system.specs.Truth.{member};
    ghost use Rattle.system_review.specs.Occurring.{used_in};
    ghost use Rattle.system_review.specs.Possible.{always_in, possible_in};
    ghost use Rattle.model_review.specs.Seen.{Seen};

    ghost Value = { Seen };

    ghost coded = { Prim.hlevel (codes, condition.the_row.coded, side.the_row.coded, cause.the_row.coded, formula.the_row.coded) };

    ghost view = { λ v. record {
      numbered = record { assembly = v.assembly.now; universe = v.model.now.universe; facts = v.model.now.facts; events = v.model.now.events };
      system = v.model.now.system;
      effects = v.model.now.effects;
    } };

    ghost invariant = { λ v. ((n : ℕ) → member v.possible.now n ≡ possible_in v.model.now.system n)
        × ((n : ℕ) → member v.always.now n ≡ always_in v.model.now.system n)
        × ((n : ℕ) → member v.used.now n ≡ used_in v.model.now.system n) };
}

impl<'v> View<'v> {
    /// A model with its facts and events, in whose system these facts may come about, these always hold, and these occur in formulas.
    pub(crate) fn new(
        assembly: &'v Assembly<'v>,
        model: &'v NumberedModel,
        possible: &'v Bits,
        always: &'v Bits,
        used: &'v Bits,
    ) -> View<'v>
        requires possible { (n : ℕ) → member possible.now n ≡ possible_in model.now.system n }
        requires always { (n : ℕ) → member always.now n ≡ always_in model.now.system n }
        requires used { (n : ℕ) → member used.now n ≡ used_in model.now.system n }
        ensures { result ≡ record {
          numbered = record { assembly = assembly.now; universe = model.now.universe; facts = model.now.facts; events = model.now.events };
          system = model.now.system;
          effects = model.now.effects;
        } }
    {
        View {
            assembly,
            model,
            possible,
            always,
            used,
        }
    }

    /// The model.
    pub(crate) fn assembly(&self) -> &'v Assembly<'v>
        ensures { result.now ≡ self.now.numbered.assembly }
    {
        self.assembly
    }

    /// Its system.
    pub(crate) fn system(&self) -> &'v FaultSystem
        ensures { result.now ≡ self.now.system }
    {
        &self.model.system
    }

    /// The facts.
    pub(crate) fn facts(&self) -> &'v FactTable
        ensures { result.now ≡ self.now.numbered.facts }
    {
        &self.model.facts
    }

    /// The facts that are effects.
    pub(crate) fn effects(&self) -> &'v [u32]
        ensures { result.now ≡ self.now.effects }
    {
        self.model.effects.items()
    }

    /// Whether the event of a number is an error event.
    pub(crate) fn is_error_event(&self, number: u32) -> bool
        ensures { result ≡ is_error_event self.now number }
    {
        is_error_at(self.model.events.list(), number)
    }

    /// The instance.
    pub(crate) fn instance(&self) -> &'v Instance<'v, 'v>
        ensures { result.now ≡ self.now.numbered.assembly.instance }
    {
        self.assembly.instance()
    }

    /// The links.
    pub(crate) fn links(&self) -> &'v [Link]
        ensures { result.now ≡ self.now.numbered.assembly.links }
    {
        self.assembly.links()
    }

    /// The error model of a component; none where it has no classifier, and so nothing in it.
    pub(crate) fn model(&self, owner: u32) -> Option<&'v ErrorModel<'v>>
        ensures { unwrap_or (option_copied result) no_model ≡ model_at self.now.numbered.assembly owner }
    {
        self.assembly.model(owner)
    }

    /// A side of a point, if there is the point.
    pub(crate) fn side(&self, at: PointAt) -> Option<&'v Side>
        ensures { option_copied result ≡ side_at self.now.numbered.assembly at }
    {
        let model = self.assembly.model(at.component)?;
        let point = model.points.list().get(at.point as usize)?;
        Some(point.side(at.outward))
    }

    /// The types that may be at a side.
    pub(crate) fn types(&self, at: PointAt) -> &'v [u32]
        ensures { result.now ≡ types_in self.now at }
    {
        match self.side(at) {
            Some(side) => side_types(self.model.universe.items(), side),
            None => &[],
        }
    }

    /// The types that are declared for a side, if any are.
    pub(crate) fn declared(&self, at: PointAt) -> Option<&'v [u32]>
        ensures { option_map (λ types. types.now) result ≡ declared_for (side_in self.now at) }
    {
        match self.side(at) {
            Some(side) => declared_for(side),
            None => None,
        }
    }

    /// The number of the fact that a type is at a side, if it may be there.
    pub(crate) fn fact_at(&self, at: PointAt, number: u32) -> Option<u32>
        ensures { result ≡ number_at self.now at number }
    {
        self.model.facts.number(fact_at(number, at))
    }

    /// The number of the fact that a component is in a state.
    pub(crate) fn state(&self, owner: u32, state: u32) -> Option<u32>
        ensures { result ≡ state_number self.now owner state }
    {
        self.model.facts.number(FactKey {
            owner,
            kind: FactKind::State(state),
        })
    }

    /// The number of the event of a source.
    pub(crate) fn source(&self, owner: u32, flow: u32) -> Option<u32>
        ensures { result ≡ source_number self.now owner flow }
    {
        self.model.events.number(EventKey {
            owner,
            kind: EventKind::Source(flow),
        })
    }

    /// Whether a fact may come about.
    fn is_possible(&self, fact: u32) -> bool
        ensures { result ≡ possible_in self.now.system fact }
    {
        self.possible.has(fact)
    }

    /// Whether a fact occurs in a formula.
    fn is_used(&self, fact: u32) -> bool
        ensures { result ≡ used_in self.now.system fact }
    {
        self.used.has(fact)
    }

    /// Whether a fact is there, and may come about.
    pub(crate) fn may_come(&self, fact: Option<u32>) -> bool
        ensures { result ≡ may_come self.now fact }
    {
        match fact {
            Some(fact) => self.is_possible(fact),
            None => false,
        }
    }

    /// Whether a fact holds where no event occurs.
    fn always_holds(&self, fact: u32) -> bool
        ensures { result ≡ always_in self.now.system fact }
    {
        self.always.has(fact)
    }

    /// Whether a fact is there, and holds where no event occurs.
    pub(crate) fn is_always(&self, fact: Option<u32>) -> bool
        ensures { result ≡ is_always self.now fact }
    {
        match fact {
            Some(fact) => self.always_holds(fact),
            None => false,
        }
    }

    /// Whether a fact is there, may come about, and occurs in no formula.
    pub(crate) fn stops(&self, fact: Option<u32>) -> bool
        ensures { result ≡ stops self.now fact }
    {
        match fact {
            Some(fact) => self.is_possible(fact) && !self.is_used(fact),
            None => false,
        }
    }

    /// Whether a fact is there, and occurs in a formula.
    pub(crate) fn uses(&self, fact: Option<u32>) -> bool
        ensures { result ≡ is_used self.now fact }
    {
        match fact {
            Some(fact) => self.is_used(fact),
            None => false,
        }
    }

    /// The facts that a component is in its states.
    pub(crate) fn states(&self, alloc: Global, owner: u32) -> Mem<List<u32>>
        ensures { IfOk result (λ states. states ≡ states_of self.now owner) }
    {
        let mut states = List::new(alloc);
        for state in 0..self.count_states(owner) {
            self.add_state(&mut states, owner, state)?;
        }
        Ok(states)
    }

    fn count_states(&self, owner: u32) -> usize
        ensures { result ≡ length (all_variants (model_at self.now.numbered.assembly owner).states.sorts) }
    {
        match self.model(owner) {
            Some(model) => model.states.sorts.variants().len(),
            None => 0,
        }
    }

    fn add_state(&self, states: &mut List<u32>, owner: u32, state: usize) -> Mem<()>
        ensures { OnOk result (states.new ≡ states.old ++ option_to_list (state_number self.now owner state)) }
    {
        if state > 4_294_967_295 {
            return Err(AllocError);
        }
        states.push_some(self.state(owner, state as u32))?;
        Ok(())
    }

    /// Whether a fact may come about, and does not make another one hold by itself, by way of these alone.
    pub(crate) fn is_lost_fact(
        &self,
        alloc: Global,
        among: &[u32],
        target: u32,
        cause: Option<u32>,
    ) -> Mem<bool>
        ensures { IfOk result (λ lost. lost ≡ is_lost_fact self.now among.now target cause) }
    {
        match cause {
            Some(cause) => self.is_lost(alloc, among, target, cause),
            None => Ok(false),
        }
    }

    fn is_lost(&self, alloc: Global, among: &[u32], target: u32, cause: u32) -> Mem<bool>
        ensures { IfOk result (λ lost. lost ≡ (possible_in self.now.system cause && not (made_by_fact self.now.system among.now target cause))) }
    {
        if !self.is_possible(cause) {
            return Ok(false);
        }
        let made = made_by_fact(alloc, &self.model.system, among, target, cause)?;
        Ok(!made)
    }

    /// Whether an event does not make a fact hold by itself.
    pub(crate) fn is_lost_event(&self, target: u32, cause: Option<u32>) -> bool
        ensures { result ≡ is_lost_event self.now target cause }
    {
        match cause {
            Some(cause) => !made_by_event(&self.model.system, target, cause),
            None => false,
        }
    }
}

/// The types that may be at a side, where those of the universe may be at one without a set.
fn side_types<'v>(universe: &'v [u32], side: &'v Side) -> &'v [u32]
    ensures { result.now ≡ side_types universe.now side.now }
{
    match side {
        Side::Absent => &[],
        Side::Free => universe,
        Side::Declared(types) => types.items(),
    }
}

/// The types that are declared for a side, if any are.
pub(crate) fn declared_for(side: &Side) -> Option<&[u32]>
    ensures { option_map (λ types. types.now) result ≡ declared_for side.now }
{
    match side {
        Side::Absent | Side::Free => None,
        Side::Declared(types) => Some(types.items()),
    }
}

fn is_error_at(events: &[EventKey], number: u32) -> bool
    ensures { result ≡ option_map_or (λ event. is_error event.kind) (slice_get events.now number) false }
{
    match events.get(number as usize) {
        Some(event) => is_error(event.kind),
        None => false,
    }
}

/// Whether an event is an error event.
fn is_error(kind: EventKind) -> bool
    ensures { result ≡ is_error kind }
{
    match kind {
        EventKind::Declared(_) => true,
        EventKind::Source(_) | EventKind::Arrival(_, _) => false,
    }
}
