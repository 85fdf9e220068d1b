//! Transitions that are hidden, states that never come about or always hold, and states that nothing looks at.

ghost use Rattle.std.specs.Prelude.{◌≡◌, false, slice_index_or};
ghost use Rattle.model_review.specs.Findings.{count_steps, is_always_state, is_never, is_unused_state, leads_on};

use crate::finding::Finding;
use crate::view::View;
use crate::walks::{ComponentFinding, StateFinding};
use error_behavior::Step;
use error_models::ErrorModel;
use plain_values::{List, Mem};
use std::alloc::Global;

/// The transitions of a component that its composite states hide, if there are any.
#[derive(Clone, Copy)]
pub(crate) struct HiddenTransitions;

impl ComponentFinding for HiddenTransitions {
    ghost use Rattle.std.specs.Prelude.{refl};
    ghost use Rattle.model_review.specs.Findings.{hidden_transitions};

    ghost finding = { λ _ _. hidden_transitions };

    fn tell(
        &self,
        alloc: Global,
        found: &mut List<Finding>,
        view: &View,
        owner: u32,
        model: &ErrorModel,
    ) -> Mem<()> {
        let _ = alloc;
        let _ = view;
        let count = count_steps(model);
        let is_hidden = model.is_composite && count != 0;
        found.push_if(Finding::HiddenTransitions(owner, count), is_hidden)?;
        Ok(())
    }

    ghost nothing = { λ told seen owner. refl };
}

/// How many transitions lead to states that are not initial.
fn count_steps(model: &ErrorModel) -> u32
    ensures { result ≡ count_steps model.now }
{
    let mut count: u32 = 0;
    let _few = model.behavior.steps.len_u32();
    for step in model.behavior.steps.items() {
        if leads_on(model, step) {
            count += 1;
        }
    }
    count
}

/// Whether a transition leads to a state that is not initial.
fn leads_on(model: &ErrorModel, step: &Step) -> bool
    ensures { result ≡ leads_on model.now step.now }
{
    for target in step.targets.items() {
        if !is_marked(model.states.always.items(), *target) {
            return true;
        }
    }
    false
}

fn is_marked(marks: &[bool], number: u32) -> bool
    ensures { result ≡ slice_index_or marks.now number false }
{
    match marks.get(number as usize) {
        Some(mark) => *mark,
        None => false,
    }
}

/// A state of the root, if it is not initial, and the root is never in it.
#[derive(Clone, Copy)]
pub(crate) struct NeverInState;

impl StateFinding for NeverInState {
    ghost use Rattle.model_review.specs.Findings.{never_state};

    ghost finding = { λ _ seen _. never_state seen };

    fn tell(
        &self,
        found: &mut List<Finding>,
        view: &View,
        owner: u32,
        model: &ErrorModel,
        state: u32,
    ) -> Mem<()> {
        let _ = owner;
        let is_never = is_never(view, model, state);
        found.push_if(Finding::NeverState(state), is_never)?;
        Ok(())
    }
}

/// Whether a state of the root is not initial, and it is never in it.
fn is_never(view: &View, model: &ErrorModel, state: u32) -> bool
    ensures { result ≡ is_never view.now model.now state }
{
    !is_marked(model.states.always.items(), state) && !view.may_come(view.state(0, state))
}

/// A state of a component, if it is not initial, and the component is in it where no event occurs.
#[derive(Clone, Copy)]
pub(crate) struct AlwaysInState;

impl StateFinding for AlwaysInState {
    ghost use Rattle.model_review.specs.Findings.{always_state};

    ghost finding = { λ _. always_state };

    fn tell(
        &self,
        found: &mut List<Finding>,
        view: &View,
        owner: u32,
        model: &ErrorModel,
        state: u32,
    ) -> Mem<()> {
        let is_always = is_always_state(view, owner, model, state);
        found.push_if(Finding::AlwaysState(owner, state), is_always)?;
        Ok(())
    }
}

/// Whether a state of a component is not initial, and the component is in it where no event occurs.
fn is_always_state(view: &View, owner: u32, model: &ErrorModel, state: u32) -> bool
    ensures { result ≡ is_always_state view.now owner model.now state }
{
    !is_marked(model.states.always.items(), state) && view.is_always(view.state(owner, state))
}

/// A state of a component other than the root in which it may be, and at which nothing looks.
#[derive(Clone, Copy)]
pub(crate) struct UnusedStates;

impl StateFinding for UnusedStates {
    ghost use Rattle.model_review.specs.Findings.{unused_state};

    ghost finding = { λ _. unused_state };

    fn tell(
        &self,
        found: &mut List<Finding>,
        view: &View,
        owner: u32,
        model: &ErrorModel,
        state: u32,
    ) -> Mem<()> {
        let is_unused = is_unused_state(view, owner, model, state);
        found.push_if(Finding::UnusedState(owner, state), is_unused)?;
        Ok(())
    }
}

/// Whether a component that is not the root may be in a state that is not initial, and nothing looks at it.
fn is_unused_state(view: &View, owner: u32, model: &ErrorModel, state: u32) -> bool
    ensures { result ≡ is_unused_state view.now owner model.now state }
{
    let is_asked = owner != 0 && !is_marked(model.states.always.items(), state);
    is_asked && view.stops(view.state(owner, state))
}
