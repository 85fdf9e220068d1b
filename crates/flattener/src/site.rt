ghost use Rattle.std.specs.Prelude.{◌≡◌, ◌++◌, ◌∷◌, [], IfOk, OnOk, filter, map};
ghost use Rattle.error_libraries.specs.Search.{is_number_in};
ghost use Rattle.propagation_points.specs.Uses.{covers, side_types};
ghost use Rattle.fact_formulas.specs.Formulas.{below_in_state, held_formula, in_variant, is_reached, origin_formula};
ghost use Rattle.fact_formulas.specs.Numbered.{entering, inward_types, own_event, own_fact, some_entering};

use crate::kind::Kind;
use crate::numbers::Numbers;
use aadl_syntax::Identifier;
use error_behavior::Origin;
use fault_system::Formula;
use model_facts::{EventKey, EventKind, FactKey, FactKind};
use plain_values::{List, Mem};
use propagation_points::{Held, ReachedPoint, Side};
use std::alloc::Global;
use std::marker::Model;

/// A component of a model: its number, and its kind.
#[derive(Drop)]
pub(crate) struct Site<'s, 'n> {
    numbers: &'s Numbers<'n>,
    owner: u32,
    kind: &'s Kind<'n>,
}

impl<'s, 'n> Model for Site<'s, 'n> {
    ghost use Rattle.std.specs.Coded.{codes};
    ghost use Rattle.aadl_syntax.specs.contracts.error_model.Condition as condition;
    ghost use Rattle.propagation_points.specs.contracts.side.Side as side;
    ghost use Rattle.error_conditions.specs.contracts.cause.Cause as cause;
    ghost use Rattle.fact_formulas.specs.Numbered.{Site as Seen};

    ghost Value = { Seen };

    ghost coded = { Prim.hlevel (codes, condition.the_row.coded, side.the_row.coded, cause.the_row.coded) };

    ghost view = { λ s. record { numbered = s.numbers.now; owner = s.owner; model = s.kind.now } };
}

impl<'s, 'n> Site<'s, 'n> {
    /// The component of a number, of this kind.
    pub(crate) fn new(numbers: &'s Numbers<'n>, owner: u32, kind: &'s Kind<'n>) -> Site<'s, 'n>
        ensures { result ≡ record { numbered = numbers.now; owner = owner; model = kind.now } }
    {
        Site {
            numbers,
            owner,
            kind,
        }
    }

    /// The model in which it is.
    pub(crate) fn numbers(&self) -> &'s Numbers<'n>
        ensures { result.now ≡ self.now.numbered }
    {
        self.numbers
    }

    /// Its number.
    pub(crate) fn owner(&self) -> u32
        ensures { result ≡ self.now.owner }
    {
        self.owner
    }

    /// Its kind.
    pub(crate) fn kind(&self) -> &'s Kind<'n>
        ensures { result.now ≡ self.now.model }
    {
        self.kind
    }

    /// That a fact of it holds.
    pub(crate) fn fact(&self, alloc: Global, kind: FactKind) -> Formula
        ensures { result ≡ own_fact self.now kind }
    {
        self.numbers.fact(
            alloc,
            FactKey {
                owner: self.owner,
                kind,
            },
        )
    }

    /// That an event of it occurs.
    pub(crate) fn event(&self, alloc: Global, kind: EventKind) -> Formula
        ensures { result ≡ own_event self.now kind }
    {
        self.numbers.event(
            alloc,
            EventKey {
                owner: self.owner,
                kind,
            },
        )
    }

    /// That it is where a transition starts.
    pub(crate) fn origin(&self, alloc: Global, origin: &Origin) -> Mem<Formula>
        ensures { IfOk result (λ formula. formula ≡ origin_formula self.now origin.now) }
    {
        match origin {
            Origin::Always => Ok(Formula::True),
            Origin::From(held) => self.held(alloc, held),
        }
    }

    /// That it is in what is selected of a state.
    pub(crate) fn held(&self, alloc: Global, held: &Held) -> Mem<Formula>
        ensures { IfOk result (λ formula. formula ≡ held_formula self.now held.now) }
    {
        match held {
            Held::One(state) => Ok(self.fact(alloc, FactKind::State(*state))),
            Held::Any(states) => Ok(Formula::Or(self.variants(alloc, states.items())?)),
        }
    }

    fn variants(&self, alloc: Global, states: &[u32]) -> Mem<List<Formula>>
        ensures { IfOk result (λ parts. parts ≡ map (in_variant self.now) states.now) }
    {
        let mut parts = List::new(alloc);
        for state in states {
            parts.push(self.fact(alloc, FactKind::State(*state)))?;
        }
        Ok(parts)
    }

    /// That the component below to which names lead is in the state of a number.
    pub(crate) fn below(&self, alloc: Global, path: &[Identifier], state: u32) -> Formula
        ensures { result ≡ below_in_state self.now path.now state }
    {
        match self.numbers.instance().find_below(self.owner, path) {
            Some(owner) => self.numbers.fact(
                alloc,
                FactKey {
                    owner,
                    kind: FactKind::State(state),
                },
            ),
            None => Formula::Or(List::new(alloc)),
        }
    }

    /// The types that may be at the inward side of a point.
    pub(crate) fn inward_types(&self, point: u32) -> &[u32]
        ensures { result.now ≡ inward_types self.now point }
    {
        match self.kind.model().points.list().get(point as usize) {
            Some(point) => side_types(self.numbers.universe(), point.side(false)),
            None => &[],
        }
    }

    /// That a type enters at a point.
    pub(crate) fn entering(&self, alloc: Global, point: u32, number: u32) -> Formula
        ensures { result ≡ entering self.now point number }
    {
        self.fact(alloc, FactKind::Enters(point, number))
    }

    /// That one of the types that are reached at the inward side of a point enters there.
    pub(crate) fn some_entering(&self, alloc: Global, reached: &ReachedPoint) -> Mem<Formula>
        ensures { IfOk result (λ formula. formula ≡ some_entering self.now reached.now) }
    {
        let mut parts = List::new(alloc);
        for number in self.inward_types(reached.point) {
            self.add_entering(alloc, &mut parts, reached, *number)?;
        }
        Ok(Formula::Or(parts))
    }

    /// Adds that a type enters at a point, if it is reached.
    fn add_entering(
        &self,
        alloc: Global,
        parts: &mut List<Formula>,
        reached: &ReachedPoint,
        number: u32,
    ) -> Mem<()>
        ensures { OnOk result (parts.new ≡ parts.old ++ map (entering self.now reached.now.point) (filter (covers reached.now.types) (number ∷ []))) }
    {
        if reached.types.covers(number) {
            parts.push(self.entering(alloc, reached.point, number))?;
        }
        Ok(())
    }

    /// Whether a type may be at the inward side of a point, and is reached there.
    pub(crate) fn is_reached(&self, reached: &ReachedPoint, number: u32) -> bool
        ensures { result ≡ is_reached self.now reached.now number }
    {
        has_number(self.inward_types(reached.point), number) && reached.types.covers(number)
    }
}

/// The types that may be at a side, where those of the universe may be at a free one.
fn side_types<'x>(universe: &'x [u32], side: &'x Side) -> &'x [u32]
    ensures { result.now ≡ side_types universe.now side.now }
{
    match side {
        Side::Absent => &[],
        Side::Free => universe,
        Side::Declared(types) => types.items(),
    }
}

/// Whether a number is one of these.
pub(crate) fn has_number(numbers: &[u32], number: u32) -> bool
    ensures { result ≡ is_number_in numbers.now number }
{
    numbers.iter().any(|other| *other == number)
}
