ghost use Rattle.std.specs.Prelude.{◌≡◌, [], ◌∷◌, codes};
ghost use Rattle.grammar_rules.specs.inner.Reader.{Gives, given};
ghost use Rattle.grammar_rules.specs.Tokens.{is_sign, is_one_of};
ghost use Rattle.emv2_parts.specs.Words.{is_name, begins_source, machine_words};
ghost use Rattle.emv2_parser.specs.Machines.{error_event, recovery_kind, recovery_event, event_words, event, events_after, initial};
ghost use Rattle.emv2_parser.specs.Machines.{state_kind, state, states_after, source, target_state_after, chance, branch_after};
ghost use Rattle.emv2_parser.specs.Machines.{further_branch, further_branches, branches, transition_targets, transition_condition};
ghost use Rattle.emv2_parser.specs.Machines.{transition_effect, transition, transitions_after, use_transformations, first_place};
ghost use Rattle.emv2_parser.specs.Machines.{machine_uses, machine_transforms, machine_events, machine_states, machine_transitions};
ghost use Rattle.emv2_parser.specs.Machines.{machine_properties, machine_use, machine_other, machine_block, machine_blocks};
ghost use Rattle.emv2_parser.specs.Machines.{machine_extends, machine_head, machine};
ghost use Rattle.emv2_parser.specs.inner.Takes.{event-takes, state-takes, transition-takes, further_branch-takes, machine_block-takes};

use aadl_syntax::{
    Condition, EventDecl, EventKind, MachineDecl, Source, StateDecl, StateRef, TokenKind,
    Transition, TypeSet,
};
use emv2_parts::{
    block_end, condition_close, condition_open, error_name, label, machine_block_at, name_at,
    names, optional_set, properties_after, source_at, state_reference, use_types_after,
    whole_condition,
};
use grammar_rules::{Gathered, Parts, ReadError, Reader, spot, tail_end_inside};
use plain_values::{List, Spot};

/// What follows the name of an event.
#[derive(Drop)]
pub(crate) struct EventWords {
    pub(crate) kind: EventKind,
    pub(crate) set: Option<TypeSet>,
}

/// What follows the name of a state.
#[derive(Drop)]
pub(crate) struct StateKind {
    pub(crate) initial: bool,
    pub(crate) set: Option<TypeSet>,
}

/// What follows the source of a transition.
#[derive(Drop)]
pub(crate) struct TransitionEffect {
    pub(crate) condition: Condition,
    pub(crate) targets: List<StateRef>,
}

#[tactic(auto, unfolding(crate::specs::Machines::error_event))]
fn error_event(reader: &mut Reader) -> Result<EventWords, ReadError>
    ensures { Gives result error_event reader.old reader.new }
{
    reader.word(b"error")?;
    reader.word(b"event")?;
    let set = optional_set(reader)?;
    tail_end_inside(reader)?;
    Ok(EventWords {
        kind: EventKind::Error,
        set,
    })
}

#[tactic(auto, unfolding(crate::specs::Machines::recovery_kind))]
fn recovery_kind(reader: &mut Reader) -> Result<EventKind, ReadError>
    ensures { Gives result recovery_kind reader.old reader.new }
{
    if reader.word_at(0, b"recover") {
        reader.word(b"recover")?;
        return Ok(EventKind::Recover);
    }
    reader.word(b"repair")?;
    Ok(EventKind::Repair)
}

#[tactic(auto, unfolding(crate::specs::Machines::recovery_event))]
fn recovery_event(reader: &mut Reader) -> Result<EventWords, ReadError>
    ensures { Gives result recovery_event reader.old reader.new }
{
    let kind = recovery_kind(reader)?;
    reader.word(b"event")?;
    tail_end_inside(reader)?;
    Ok(EventWords { kind, set: None })
}

#[tactic(auto, unfolding(crate::specs::Machines::event_words))]
fn event_words(reader: &mut Reader) -> Result<EventWords, ReadError>
    ensures { Gives result event_words reader.old reader.new }
{
    if reader.word_at(0, b"error") {
        return error_event(reader);
    }
    recovery_event(reader)
}

#[tactic(auto, unfolding(crate::specs::Machines::event))]
fn event(reader: &mut Reader) -> Result<EventDecl, ReadError>
    ensures { Gives result event reader.old reader.new }
{
    let spot = spot(reader)?;
    let name = error_name(reader)?;
    reader.sign(b":")?;
    let words = event_words(reader)?;
    Ok(EventDecl {
        name,
        spot,
        kind: words.kind,
        set: words.set,
    })
}

/// Reads a block of events, and gives them after others.
#[tactic(auto, unfolding(crate::specs::Machines::events_after))]
pub(crate) fn events_after(
    reader: &mut Reader,
    events: &mut List<EventDecl>,
) -> Result<(), ReadError>
    ensures { Gives (given result events.new) (events_after events.old) reader.old reader.new }
{
    reader.word(b"events")?;
    reader.more_parts::<Events>(events)
}

#[tactic(auto, unfolding(crate::specs::Machines::initial))]
fn initial(reader: &mut Reader) -> Result<bool, ReadError>
    ensures { Gives result initial reader.old reader.new }
{
    if reader.word_at(0, b"initial") {
        reader.word(b"initial")?;
        return Ok(true);
    }
    Ok(false)
}

#[tactic(auto, unfolding(crate::specs::Machines::state_kind))]
fn state_kind(reader: &mut Reader) -> Result<StateKind, ReadError>
    ensures { Gives result state_kind reader.old reader.new }
{
    let initial = initial(reader)?;
    reader.word(b"state")?;
    let set = optional_set(reader)?;
    reader.sign(b";")?;
    Ok(StateKind { initial, set })
}

#[tactic(auto, unfolding(crate::specs::Machines::state))]
fn state(reader: &mut Reader) -> Result<StateDecl, ReadError>
    ensures { Gives result state reader.old reader.new }
{
    let spot = spot(reader)?;
    let name = error_name(reader)?;
    reader.sign(b":")?;
    let kind = state_kind(reader)?;
    Ok(StateDecl {
        name,
        spot,
        initial: kind.initial,
        set: kind.set,
    })
}

#[tactic(auto, unfolding(crate::specs::Machines::states_after))]
fn states_after(reader: &mut Reader, states: &mut List<StateDecl>) -> Result<(), ReadError>
    ensures { Gives (given result states.new) (states_after states.old) reader.old reader.new }
{
    reader.word(b"states")?;
    reader.more_parts::<States>(states)
}

/// Reads the source of a transition or of an outgoing condition.
#[tactic(auto, unfolding(crate::specs::Machines::source))]
pub(crate) fn source(reader: &mut Reader) -> Result<Source, ReadError>
    ensures { Gives result source reader.old reader.new }
{
    let spot = spot(reader)?;
    if reader.word_at(0, b"all") {
        reader.word(b"all")?;
        return Ok(Source { state: None, spot });
    }
    let state = Some(state_reference(reader)?);
    Ok(Source { state, spot })
}

#[tactic(auto, unfolding(crate::specs::Machines::target_state_after))]
fn target_state_after(reader: &mut Reader, targets: &mut List<StateRef>) -> Result<(), ReadError>
    ensures { Gives (given result targets.new) (target_state_after targets.old) reader.old reader.new }
{
    if reader.word_at(0, b"same") {
        reader.word(b"same")?;
        reader.word(b"state")?;
        return Ok(());
    }
    let state = state_reference(reader)?;
    targets.push(state)?;
    Ok(())
}

#[tactic(auto, unfolding(crate::specs::Machines::chance))]
fn chance(reader: &mut Reader) -> Result<(), ReadError>
    ensures { Gives result chance reader.old reader.new }
{
    if reader.kind_at(0, TokenKind::Number) {
        return reader.kind(TokenKind::Number);
    }
    if reader.word_at(0, b"others") {
        return reader.word(b"others");
    }
    names(reader)?;
    Ok(())
}

#[tactic(auto, unfolding(crate::specs::Machines::branch_after))]
fn branch_after(reader: &mut Reader, targets: &mut List<StateRef>) -> Result<(), ReadError>
    ensures { Gives (given result targets.new) (branch_after targets.old) reader.old reader.new }
{
    target_state_after(reader, targets)?;
    reader.word(b"with")?;
    chance(reader)?;
    Ok(())
}

#[tactic(auto, unfolding(crate::specs::Machines::further_branch))]
fn further_branch(reader: &mut Reader, targets: &mut List<StateRef>) -> Result<(), ReadError>
    ensures { Gives (given result targets.new) (further_branch targets.old) reader.old reader.new }
{
    reader.sign(b",")?;
    branch_after(reader, targets)
}

#[tactic(auto, unfolding(crate::specs::Machines::further_branches))]
fn further_branches(reader: &mut Reader, targets: &mut List<StateRef>) -> Result<(), ReadError>
    ensures { Gives (given result targets.new) (further_branches targets.old) reader.old reader.new }
{
    reader.gather::<FurtherBranches>(targets)
}

#[tactic(auto, unfolding(crate::specs::Machines::branches))]
fn branches(reader: &mut Reader) -> Result<List<StateRef>, ReadError>
    ensures { Gives result branches reader.old reader.new }
{
    let mut targets = List::new(reader.alloc());
    reader.sign(b"(")?;
    branch_after(reader, &mut targets)?;
    further_branches(reader, &mut targets)?;
    reader.sign(b")")?;
    Ok(targets)
}

#[tactic(auto, unfolding(crate::specs::Machines::transition_targets))]
fn transition_targets(reader: &mut Reader) -> Result<List<StateRef>, ReadError>
    ensures { Gives result transition_targets reader.old reader.new }
{
    if reader.sign_at(0, b"(") {
        return branches(reader);
    }
    let mut targets = List::new(reader.alloc());
    target_state_after(reader, &mut targets)?;
    Ok(targets)
}

#[tactic(auto, unfolding(crate::specs::Machines::transition_condition))]
fn transition_condition(reader: &mut Reader) -> Result<Condition, ReadError>
    ensures { Gives result transition_condition reader.old reader.new }
{
    condition_open(reader)?;
    let condition = whole_condition(reader)?;
    condition_close(reader)?;
    Ok(condition)
}

#[tactic(auto, unfolding(crate::specs::Machines::transition_effect))]
fn transition_effect(reader: &mut Reader) -> Result<TransitionEffect, ReadError>
    ensures { Gives result transition_effect reader.old reader.new }
{
    let condition = transition_condition(reader)?;
    let targets = transition_targets(reader)?;
    reader.sign(b";")?;
    Ok(TransitionEffect { condition, targets })
}

#[tactic(auto, unfolding(crate::specs::Machines::transition))]
fn transition(reader: &mut Reader) -> Result<Transition, ReadError>
    ensures { Gives result transition reader.old reader.new }
{
    let spot = spot(reader)?;
    let name = label(reader)?;
    let source = source(reader)?;
    let effect = transition_effect(reader)?;
    Ok(Transition {
        name,
        spot,
        source,
        condition: effect.condition,
        targets: effect.targets,
    })
}

/// Reads a block of transitions, and gives them after others.
#[tactic(auto, unfolding(crate::specs::Machines::transitions_after))]
pub(crate) fn transitions_after(
    reader: &mut Reader,
    transitions: &mut List<Transition>,
) -> Result<(), ReadError>
    ensures { Gives (given result transitions.new) (transitions_after transitions.old) reader.old reader.new }
{
    reader.word(b"transitions")?;
    reader.more_parts::<Transitions>(transitions)
}

/// Reads a `use transformations`, and gives the place of its first word.
#[tactic(auto, unfolding(crate::specs::Machines::use_transformations))]
pub(crate) fn use_transformations(reader: &mut Reader) -> Result<Spot, ReadError>
    ensures { Gives result use_transformations reader.old reader.new }
{
    let spot = spot(reader)?;
    reader.word(b"use")?;
    reader.word(b"transformations")?;
    names(reader)?;
    reader.sign(b";")?;
    Ok(spot)
}

fn first_place(earlier: Option<Spot>, spot: Spot) -> Option<Spot>
    ensures { result ≡ first_place earlier spot }
{
    match earlier {
        Some(place) => Some(place),
        None => Some(spot),
    }
}

#[tactic(auto, unfolding(crate::specs::Machines::machine_uses))]
fn machine_uses(reader: &mut Reader, machine: &mut MachineDecl) -> Result<(), ReadError>
    ensures { Gives (given result machine.new) (machine_uses machine.old) reader.old reader.new }
{
    use_types_after(reader, &mut machine.uses)?;
    Ok(())
}

#[tactic(auto, unfolding(crate::specs::Machines::machine_transforms))]
fn machine_transforms(reader: &mut Reader, machine: &mut MachineDecl) -> Result<(), ReadError>
    ensures { Gives (given result machine.new) (machine_transforms machine.old) reader.old reader.new }
{
    let spot = use_transformations(reader)?;
    machine.transforms = first_place(machine.transforms, spot);
    Ok(())
}

#[tactic(auto, unfolding(crate::specs::Machines::machine_events))]
fn machine_events(reader: &mut Reader, machine: &mut MachineDecl) -> Result<(), ReadError>
    ensures { Gives (given result machine.new) (machine_events machine.old) reader.old reader.new }
{
    events_after(reader, &mut machine.events)?;
    Ok(())
}

#[tactic(auto, unfolding(crate::specs::Machines::machine_states))]
fn machine_states(reader: &mut Reader, machine: &mut MachineDecl) -> Result<(), ReadError>
    ensures { Gives (given result machine.new) (machine_states machine.old) reader.old reader.new }
{
    states_after(reader, &mut machine.states)?;
    Ok(())
}

#[tactic(auto, unfolding(crate::specs::Machines::machine_transitions))]
fn machine_transitions(reader: &mut Reader, machine: &mut MachineDecl) -> Result<(), ReadError>
    ensures { Gives (given result machine.new) (machine_transitions machine.old) reader.old reader.new }
{
    transitions_after(reader, &mut machine.transitions)?;
    Ok(())
}

#[tactic(auto, unfolding(crate::specs::Machines::machine_properties))]
fn machine_properties(reader: &mut Reader, machine: &mut MachineDecl) -> Result<(), ReadError>
    ensures { Gives (given result machine.new) (machine_properties machine.old) reader.old reader.new }
{
    properties_after(reader, &mut machine.associations)?;
    Ok(())
}

#[tactic(auto, unfolding(crate::specs::Machines::machine_use))]
fn machine_use(reader: &mut Reader, machine: &mut MachineDecl) -> Result<(), ReadError>
    ensures { Gives (given result machine.new) (machine_use machine.old) reader.old reader.new }
{
    if reader.word_at(0, b"use") && reader.word_at(1, b"types") {
        return machine_uses(reader, machine);
    }
    machine_transforms(reader, machine)
}

#[tactic(auto, unfolding(crate::specs::Machines::machine_other))]
fn machine_other(reader: &mut Reader, machine: &mut MachineDecl) -> Result<(), ReadError>
    ensures { Gives (given result machine.new) (machine_other machine.old) reader.old reader.new }
{
    if reader.word_at(0, b"states") {
        return machine_states(reader, machine);
    }
    if reader.word_at(0, b"transitions") {
        return machine_transitions(reader, machine);
    }
    machine_properties(reader, machine)
}

#[tactic(auto, unfolding(crate::specs::Machines::machine_block))]
fn machine_block(reader: &mut Reader, machine: &mut MachineDecl) -> Result<(), ReadError>
    ensures { Gives (given result machine.new) (machine_block machine.old) reader.old reader.new }
{
    if reader.word_at(0, b"use") {
        return machine_use(reader, machine);
    }
    if reader.word_at(0, b"events") {
        return machine_events(reader, machine);
    }
    machine_other(reader, machine)
}

#[tactic(auto, unfolding(crate::specs::Machines::machine_blocks))]
fn machine_blocks(reader: &mut Reader, machine: &mut MachineDecl) -> Result<(), ReadError>
    ensures { Gives (given result machine.new) (machine_blocks machine.old) reader.old reader.new }
{
    reader.gather::<MachineBlocks>(machine)
}

#[tactic(auto, unfolding(crate::specs::Machines::machine_extends))]
fn machine_extends(reader: &mut Reader) -> Result<Option<Spot>, ReadError>
    ensures { Gives result machine_extends reader.old reader.new }
{
    if !reader.word_at(0, b"extends") {
        return Ok(None);
    }
    let spot = spot(reader)?;
    reader.word(b"extends")?;
    names(reader)?;
    Ok(Some(spot))
}

#[tactic(auto, unfolding(crate::specs::Machines::machine_head))]
fn machine_head(reader: &mut Reader) -> Result<MachineDecl, ReadError>
    ensures { Gives result machine_head reader.old reader.new }
{
    let spot = spot(reader)?;
    let name = error_name(reader)?;
    let extends = machine_extends(reader)?;
    let alloc = reader.alloc();
    Ok(MachineDecl {
        name,
        spot,
        extends,
        uses: List::new(alloc),
        transforms: None,
        events: List::new(alloc),
        states: List::new(alloc),
        transitions: List::new(alloc),
        associations: List::new(alloc),
    })
}

/// Reads an error behavior state machine.
#[tactic(auto, unfolding(crate::specs::Machines::machine))]
pub(crate) fn machine(reader: &mut Reader) -> Result<MachineDecl, ReadError>
    ensures { Gives result machine reader.old reader.new }
{
    reader.word(b"error")?;
    reader.word(b"behavior")?;
    let mut machine = machine_head(reader)?;
    machine_blocks(reader, &mut machine)?;
    block_end(reader, b"behavior")?;
    Ok(machine)
}

// The events of a block.
pub(crate) struct Events;

impl Parts for Events {
    type Part = EventDecl;

    ghost tests = { is_name ∷ [] };

    ghost rule = { event };

    fn begins(reader: &mut Reader) -> bool {
        name_at(reader, 0)
    }

    fn part(reader: &mut Reader) -> Result<EventDecl, ReadError> {
        event(reader)
    }

    ghost takes_tokens = { event-takes };
}

// The states of a block.
pub(crate) struct States;

impl Parts for States {
    type Part = StateDecl;

    ghost tests = { is_name ∷ [] };

    ghost rule = { state };

    fn begins(reader: &mut Reader) -> bool {
        name_at(reader, 0)
    }

    fn part(reader: &mut Reader) -> Result<StateDecl, ReadError> {
        state(reader)
    }

    ghost takes_tokens = { state-takes };
}

// The transitions of a block.
pub(crate) struct Transitions;

impl Parts for Transitions {
    type Part = Transition;

    ghost tests = { begins_source ∷ [] };

    ghost rule = { transition };

    fn begins(reader: &mut Reader) -> bool {
        source_at(reader)
    }

    fn part(reader: &mut Reader) -> Result<Transition, ReadError> {
        transition(reader)
    }

    ghost takes_tokens = { transition-takes };
}

// Branches after the first.
pub(crate) struct FurtherBranches;

impl Gathered for FurtherBranches {
    type Whole = List<StateRef>;

    ghost tests = { is_sign (codes ",") ∷ [] };

    ghost rule = { further_branch };

    fn begins(reader: &mut Reader) -> bool {
        reader.sign_at(0, b",")
    }

    fn part(reader: &mut Reader, whole: &mut List<StateRef>) -> Result<(), ReadError> {
        further_branch(reader, whole)
    }

    ghost takes_tokens = { further_branch-takes };
}

// The blocks of a machine.
pub(crate) struct MachineBlocks;

impl Gathered for MachineBlocks {
    type Whole = MachineDecl;

    ghost tests = { is_one_of machine_words ∷ [] };

    ghost rule = { machine_block };

    fn begins(reader: &mut Reader) -> bool {
        machine_block_at(reader)
    }

    fn part(reader: &mut Reader, whole: &mut MachineDecl) -> Result<(), ReadError> {
        machine_block(reader, whole)
    }

    ghost takes_tokens = { machine_block-takes };
}
