ghost use Rattle.std.specs.Prelude.{◌≡◌, [], IfOk, OnOk, Some, option_copied, slice_get, unwrap_or};
ghost use Rattle.noted_refusals.specs.inner.Noted.{noting};
ghost use Rattle.propagation_points.specs.States.{held_by, place_of_sort, sort_refusals};

use crate::held::{Held, selected};
use crate::points::Points;
use crate::states::{Sort, Sorts};
use crate::uses::{PointUse, ReachedPoint, reach_within, reached};
use aadl_syntax::{StateRef, TypeSet};
use error_libraries::Scope;
use error_types::Reading;
use plain_values::{Code, Mem};
use std::alloc::Global;
use std::marker::Model;

/// Where items stand that name points and states: the points and the states of the component, and the text in which an item
/// is read.
#[derive(Drop)]
pub struct Setting<'s, 'a> {
    points: &'s Points<'a>,
    states: &'s Sorts<'a>,
    scope: Option<&'s Scope>,
}

impl<'s, 'a> Model for Setting<'s, 'a> {
    ghost use Rattle.std.specs.Prelude.{option_copied};
    ghost use Rattle.std.specs.Coded.{codes};
    ghost use Rattle.propagation_points.specs.contracts.side.Side as side;
    ghost use Rattle.propagation_points.specs.Settings.{Setting as Place};

    ghost Value = { Place };

    ghost coded = { Prim.hlevel (codes, side.the_row.coded) };

    ghost view = { λ s. record { points = s.points.now; states = s.states.now; scope = option_copied s.scope } };
}

impl<'s, 'a> Setting<'s, 'a> {
    ghost use Rattle.propagation_points.specs.Settings.{clause_setting, refusals_in, held_in, reached_in, state_refusals_in};

    /// The setting of items that are read in this text, if there is one.
    pub fn new(
        points: &'s Points<'a>,
        states: &'s Sorts<'a>,
        scope: Option<&'s Scope>,
    ) -> Setting<'s, 'a>
        ensures { result ≡ record { points = points.now; states = states.now; scope = option_copied scope.entry } }
    {
        Setting {
            points,
            states,
            scope,
        }
    }

    /// The text in which its items are read, if there is one.
    pub fn scope(&self) -> Option<&'s Scope>
        ensures { option_copied result ≡ self.now.scope }
    {
        self.scope
    }

    /// The setting of the items of a clause, which has this number among the texts.
    pub fn of_clause(
        points: &'s Points<'a>,
        states: &'s Sorts<'a>,
        scopes: &'s [Scope],
        number: usize,
    ) -> Setting<'s, 'a>
        ensures { result ≡ clause_setting points.now states.now scopes.now number }
    {
        Setting {
            points,
            states,
            scope: scope_at(scopes, number),
        }
    }

    /// What a use of a point reaches. Its refusals are noted.
    pub fn reached<'t>(
        &self,
        alloc: Global,
        reading: &mut Reading<'_, 't>,
        used: &PointUse<'t>,
    ) -> Mem<Option<ReachedPoint>>
        ensures kept { reading.new.types ≡ reading.old.types }
        ensures reached { IfOk result (λ found. found ≡ reached_in reading.old.types self.now used.now) }
        ensures noted { OnOk result (reading.new.refusals ≡ noting reading.old.refusals (refusals_in reading.old.types self.now used.now)) }
    {
        reached(alloc, self.points, reading, self.scope, used)
    }

    /// What a name of a state or an event with this set behind it selects. N10 is noted.
    pub fn held<'t>(
        &self,
        alloc: Global,
        reading: &mut Reading<'_, 't>,
        sort: &Sort,
        set: &'t Option<TypeSet>,
    ) -> Mem<Held>
        ensures kept { reading.new.types ≡ reading.old.types }
        ensures held { IfOk result (λ held. held ≡ held_by reading.old.types self.now.scope sort.now set.now) }
        ensures noted { OnOk result (reading.new.refusals ≡ noting reading.old.refusals (sort_refusals reading.old.types self.now.scope (Some sort.now) set.now)) }
    {
        let reach = reach_within(alloc, reading, self.scope, Some(types_of(sort)), set)?;
        selected(alloc, sort.first(), sort.types(), &reach)
    }

    /// The place of the state of a reference, if there is one.
    pub fn place(&self, state: &StateRef) -> Option<u32>
        ensures { result ≡ place_of_sort self.now.states state.now.name }
    {
        self.states.place(state.name.text())
    }

    /// What a reference to a state selects. N11 and N10 are noted.
    #[tactic(auto, using(noted_refusals::proofs::Noting::noted_more))]
    pub fn refer<'t>(
        &self,
        alloc: Global,
        reading: &mut Reading<'_, 't>,
        state: &'t StateRef,
    ) -> Mem<Option<Held>>
        ensures kept { reading.new.types ≡ reading.old.types }
        ensures held { IfOk result (λ held. held ≡ held_in reading.old.types self.now state.now) }
        ensures noted { OnOk result (reading.new.refusals ≡ noting reading.old.refusals (state_refusals_in reading.old.types self.now state.now)) }
    {
        match self.states.find(state.name.text()) {
            Some(sort) => Ok(Some(self.held(alloc, reading, sort, &state.set)?)),
            None => {
                reading
                    .refusals
                    .note_if(true, Code::UnknownState, state.spot);
                Ok(None)
            }
        }
    }
}

/// The types that are declared with a state or an event.
fn types_of<'s>(sort: &'s Sort) -> &'s [u32]
    ensures { result.now ≡ unwrap_or sort.now.types [] }
{
    match sort.types() {
        Some(types) => types.items(),
        None => &[],
    }
}

fn scope_at(scopes: &[Scope], number: usize) -> Option<&Scope>
    ensures { option_copied result ≡ slice_get scopes.now number }
{
    scopes.get(number)
}
