ghost use Rattle.std.specs.Prelude.{◌≡◌, ◌∷◌, [], ◌++◌, OnOk, map, option_to_list};
ghost use Rattle.used_sets.specs.Sets.{perhaps_state_sets};

use aadl_syntax::{StateRef, TypeSet};
use plain_values::{List, Mem};
use std::alloc::Global;
use std::marker::Model;

/// Written sets of a text, in order.
#[derive(Drop)]
pub(crate) struct WrittenSets<'a> {
    sets: List<&'a TypeSet>,
}

impl<'a> Model for WrittenSets<'a> {
    ghost use Rattle.std.specs.Prelude.{List, map};
    ghost use Rattle.std.specs.Coded.{codes};
    ghost use Rattle.aadl_syntax.specs.contracts.error_model.Condition as condition;
    ghost use Rattle.aadl_syntax.specs.declared.error_model.TypeSet.{TypeSet};

    ghost Value = { List TypeSet };

    ghost coded = { Prim.hlevel (codes, condition.the_row.coded) };

    ghost view = { λ w. map (λ set. set.now) w.sets };
}

impl<'a> WrittenSets<'a> {
    /// No sets.
    pub(crate) fn new(alloc: Global) -> WrittenSets<'a>
        ensures { result ≡ [] }
    {
        WrittenSets {
            sets: List::new(alloc),
        }
    }

    /// The sets.
    pub(crate) fn sets(&self) -> &[&'a TypeSet]
        ensures { map (λ set. set.now) result.now ≡ self.now }
    {
        self.sets.items()
    }

    /// Adds a set.
    pub(crate) fn push(&mut self, set: &'a TypeSet) -> Mem<()>
        ensures { OnOk result (self.new ≡ self.old ++ set.now ∷ []) }
    {
        self.sets.push(set)
    }

    /// Adds a set, if there is one.
    pub(crate) fn add(&mut self, set: &'a Option<TypeSet>) -> Mem<()>
        ensures { OnOk result (self.new ≡ self.old ++ option_to_list set.now) }
    {
        if let Some(set) = set {
            self.push(set)?;
        }
        Ok(())
    }

    /// Adds the set behind a state, if a state is named.
    pub(crate) fn add_state(&mut self, state: &'a Option<StateRef>) -> Mem<()>
        ensures { OnOk result (self.new ≡ self.old ++ perhaps_state_sets state.now) }
    {
        if let Some(state) = state {
            self.add(&state.set)?;
        }
        Ok(())
    }
}
