ghost use Rattle.std.specs.Prelude.{[], ◌∷◌};
ghost use Rattle.grammar_rules.specs.inner.Reader.{Gives, given};
ghost use Rattle.grammar_rules.specs.Rules.{chooses};
ghost use Rattle.grammar_rules.specs.Tokens.{is_one_of};
ghost use Rattle.emv2_parts.specs.Words.{is_name, point_words, begins_source, begins_composite, component_words};
ghost use Rattle.emv2_parts.specs.Names.{point_word};
ghost use Rattle.emv2_parser.specs.Behavior.{some_condition, optional_condition, outgoing_condition, outgoing_effect, outgoing};
ghost use Rattle.emv2_parser.specs.Behavior.{component_transforms, component_events, component_transitions, further_outgoing};
ghost use Rattle.emv2_parser.specs.Behavior.{outgoing_after, component_outgoing, detections, mode_mappings, component_other};
ghost use Rattle.emv2_parser.specs.Behavior.{component_block, component_blocks, component_head, clause_component, others_or_condition};
ghost use Rattle.emv2_parser.specs.Behavior.{composite_condition, composite_rule, composite, states_word, composite_head};
ghost use Rattle.emv2_parser.specs.Behavior.{clause_composites, connection_errors, clause_connection, last_word, end_names, path_end};
ghost use Rattle.emv2_parser.specs.Behavior.{user_point, path_ends, user_path, clause_user_point, clause_user_path, user_item, user_items};
ghost use Rattle.emv2_parser.specs.Behavior.{paths_head, clause_paths};
ghost use Rattle.emv2_parser.specs.inner.Takes.{outgoing-takes, composite-takes, component_block-takes, user_item-takes};

use crate::machines::{events_after, source, transitions_after, use_transformations};
use aadl_syntax::{
    Composite, Condition, Emv2Clause, End, Identifier, Outgoing, PointRef, StateRef, TypeSet,
    UserPath, UserPoint,
};
use emv2_parts::{
    block_end, component_block_at, composite_at, condition_close, condition_open, dotted_names,
    error_name, flow_end, label, name_at, point_name, point_word, point_word_at, propagations_at,
    source_at, state_reference, transitions_at, whole_condition,
};
use grammar_rules::{Gathered, Parts, ReadError, Reader, ToEnd, spot, tail_end_inside};
use plain_values::{List, Spot};

/// What follows the source of an outgoing condition.
#[derive(Drop)]
pub(crate) struct OutgoingEffect {
    pub(crate) condition: Option<Condition>,
    pub(crate) point: PointRef,
    pub(crate) set: Option<TypeSet>,
}

/// What follows the name of a composite state.
#[derive(Drop)]
pub(crate) struct CompositeRule {
    pub(crate) condition: Option<Condition>,
    pub(crate) target: StateRef,
}

/// Both ends of a path.
#[derive(Drop)]
pub(crate) struct PathEnds {
    pub(crate) from: End,
    pub(crate) to: End,
}

#[tactic(auto, unfolding(crate::specs::Behavior::some_condition))]
fn some_condition(reader: &mut Reader) -> Result<Option<Condition>, ReadError>
    ensures { Gives result some_condition reader.old reader.new }
{
    Ok(Some(whole_condition(reader)?))
}

#[tactic(auto, unfolding(crate::specs::Behavior::optional_condition))]
fn optional_condition(reader: &mut Reader) -> Result<Option<Condition>, ReadError>
    ensures { Gives result optional_condition reader.old reader.new }
{
    if reader.sign_at(0, b"]") {
        return Ok(None);
    }
    some_condition(reader)
}

#[tactic(auto, unfolding(crate::specs::Behavior::outgoing_condition))]
fn outgoing_condition(reader: &mut Reader) -> Result<Option<Condition>, ReadError>
    ensures { Gives result outgoing_condition reader.old reader.new }
{
    condition_open(reader)?;
    let condition = optional_condition(reader)?;
    condition_close(reader)?;
    Ok(condition)
}

#[tactic(auto, unfolding(crate::specs::Behavior::outgoing_effect))]
fn outgoing_effect(reader: &mut Reader) -> Result<OutgoingEffect, ReadError>
    ensures { Gives result outgoing_effect reader.old reader.new }
{
    let condition = outgoing_condition(reader)?;
    let end = flow_end(reader)?;
    tail_end_inside(reader)?;
    Ok(OutgoingEffect {
        condition,
        point: end.point,
        set: end.set,
    })
}

#[tactic(auto, unfolding(crate::specs::Behavior::outgoing))]
fn outgoing(reader: &mut Reader) -> Result<Outgoing, ReadError>
    ensures { Gives result outgoing reader.old reader.new }
{
    let spot = spot(reader)?;
    let name = label(reader)?;
    let source = source(reader)?;
    let effect = outgoing_effect(reader)?;
    Ok(Outgoing {
        name,
        spot,
        source,
        condition: effect.condition,
        point: effect.point,
        set: effect.set,
    })
}

#[tactic(auto, unfolding(crate::specs::Behavior::component_transforms))]
fn component_transforms(reader: &mut Reader, clause: &mut Emv2Clause) -> Result<(), ReadError>
    ensures { Gives (given result clause.new) (component_transforms clause.old) reader.old reader.new }
{
    let spot = use_transformations(reader)?;
    clause.mappings.push(spot)?;
    Ok(())
}

#[tactic(auto, unfolding(crate::specs::Behavior::component_events))]
fn component_events(reader: &mut Reader, clause: &mut Emv2Clause) -> Result<(), ReadError>
    ensures { Gives (given result clause.new) (component_events clause.old) reader.old reader.new }
{
    events_after(reader, &mut clause.events)?;
    Ok(())
}

#[tactic(auto, unfolding(crate::specs::Behavior::component_transitions))]
fn component_transitions(reader: &mut Reader, clause: &mut Emv2Clause) -> Result<(), ReadError>
    ensures { Gives (given result clause.new) (component_transitions clause.old) reader.old reader.new }
{
    transitions_after(reader, &mut clause.transitions)?;
    Ok(())
}

#[tactic(auto, unfolding(crate::specs::Behavior::further_outgoing))]
fn further_outgoing(reader: &mut Reader, conditions: &mut List<Outgoing>) -> Result<(), ReadError>
    ensures { Gives (given result conditions.new) (further_outgoing conditions.old) reader.old reader.new }
{
    reader.more_parts::<OutgoingConditions>(conditions)
}

#[tactic(auto, unfolding(crate::specs::Behavior::outgoing_after))]
fn outgoing_after(reader: &mut Reader, conditions: &mut List<Outgoing>) -> Result<(), ReadError>
    ensures { Gives (given result conditions.new) (outgoing_after conditions.old) reader.old reader.new }
{
    reader.word(b"propagations")?;
    further_outgoing(reader, conditions)
}

#[tactic(auto, unfolding(crate::specs::Behavior::component_outgoing))]
fn component_outgoing(reader: &mut Reader, clause: &mut Emv2Clause) -> Result<(), ReadError>
    ensures { Gives (given result clause.new) (component_outgoing clause.old) reader.old reader.new }
{
    outgoing_after(reader, &mut clause.outgoing)?;
    Ok(())
}

#[tactic(auto, unfolding(crate::specs::Behavior::detections))]
fn detections(reader: &mut Reader, clause: &mut Emv2Clause) -> Result<(), ReadError>
    ensures { Gives (given result clause.new) (detections clause.old) reader.old reader.new }
{
    reader.word(b"detections")?;
    reader.until_inside::<ToEnd>()?;
    Ok(())
}

#[tactic(auto, unfolding(crate::specs::Behavior::mode_mappings))]
fn mode_mappings(reader: &mut Reader, clause: &mut Emv2Clause) -> Result<(), ReadError>
    ensures { Gives (given result clause.new) (mode_mappings clause.old) reader.old reader.new }
{
    reader.word(b"mode")?;
    reader.word(b"mappings")?;
    reader.until_inside::<ToEnd>()?;
    Ok(())
}

#[tactic(auto, unfolding(crate::specs::Behavior::component_other))]
fn component_other(reader: &mut Reader, clause: &mut Emv2Clause) -> Result<(), ReadError>
    ensures { Gives (given result clause.new) (component_other clause.old) reader.old reader.new }
{
    if propagations_at(reader) {
        return component_outgoing(reader, clause);
    }
    if reader.word_at(0, b"detections") {
        return detections(reader, clause);
    }
    mode_mappings(reader, clause)
}

#[tactic(auto, unfolding(crate::specs::Behavior::component_block))]
fn component_block(reader: &mut Reader, clause: &mut Emv2Clause) -> Result<(), ReadError>
    ensures { Gives (given result clause.new) (component_block clause.old) reader.old reader.new }
{
    if reader.word_at(0, b"use") {
        return component_transforms(reader, clause);
    }
    if reader.word_at(0, b"events") {
        return component_events(reader, clause);
    }
    if transitions_at(reader) {
        return component_transitions(reader, clause);
    }
    component_other(reader, clause)
}

#[tactic(auto, unfolding(crate::specs::Behavior::component_blocks))]
fn component_blocks(reader: &mut Reader, clause: &mut Emv2Clause) -> Result<(), ReadError>
    ensures { Gives (given result clause.new) (component_blocks clause.old) reader.old reader.new }
{
    reader.gather::<ComponentBlocks>(clause)
}

#[tactic(auto, unfolding(crate::specs::Behavior::component_head))]
fn component_head(reader: &mut Reader) -> Result<(), ReadError>
    ensures { Gives result component_head reader.old reader.new }
{
    reader.word(b"component")?;
    reader.word(b"error")?;
    reader.word(b"behavior")
}

/// Reads the error behavior of a component, as a part of its clause.
#[tactic(auto, unfolding(crate::specs::Behavior::clause_component))]
pub(crate) fn clause_component(
    reader: &mut Reader,
    clause: &mut Emv2Clause,
) -> Result<(), ReadError>
    ensures { Gives (given result clause.new) (clause_component clause.old) reader.old reader.new }
{
    component_head(reader)?;
    component_blocks(reader, clause)?;
    block_end(reader, b"component")?;
    Ok(())
}

#[tactic(auto, unfolding(crate::specs::Behavior::others_or_condition))]
fn others_or_condition(reader: &mut Reader) -> Result<Option<Condition>, ReadError>
    ensures { Gives result others_or_condition reader.old reader.new }
{
    if reader.word_at(0, b"others") {
        reader.word(b"others")?;
        return Ok(None);
    }
    some_condition(reader)
}

#[tactic(auto, unfolding(crate::specs::Behavior::composite_condition))]
fn composite_condition(reader: &mut Reader) -> Result<Option<Condition>, ReadError>
    ensures { Gives result composite_condition reader.old reader.new }
{
    reader.sign(b"[")?;
    let condition = others_or_condition(reader)?;
    condition_close(reader)?;
    Ok(condition)
}

#[tactic(auto, unfolding(crate::specs::Behavior::composite_rule))]
fn composite_rule(reader: &mut Reader) -> Result<CompositeRule, ReadError>
    ensures { Gives result composite_rule reader.old reader.new }
{
    let condition = composite_condition(reader)?;
    let target = state_reference(reader)?;
    reader.sign(b";")?;
    Ok(CompositeRule { condition, target })
}

#[tactic(auto, unfolding(crate::specs::Behavior::composite))]
fn composite(reader: &mut Reader) -> Result<Composite, ReadError>
    ensures { Gives result composite reader.old reader.new }
{
    let spot = spot(reader)?;
    let name = label(reader)?;
    let rule = composite_rule(reader)?;
    Ok(Composite {
        name,
        spot,
        condition: rule.condition,
        target: rule.target,
    })
}

#[tactic(auto, unfolding(crate::specs::Behavior::states_word))]
fn states_word(reader: &mut Reader) -> Result<(), ReadError>
    ensures { Gives result states_word reader.old reader.new }
{
    if reader.word_at(0, b"states") {
        return reader.word(b"states");
    }
    Ok(())
}

#[tactic(auto, unfolding(crate::specs::Behavior::composite_head))]
fn composite_head(reader: &mut Reader) -> Result<(), ReadError>
    ensures { Gives result composite_head reader.old reader.new }
{
    reader.word(b"composite")?;
    reader.word(b"error")?;
    reader.word(b"behavior")?;
    states_word(reader)
}

/// Reads the composite error behavior of a component, as a part of its clause.
#[tactic(auto, unfolding(crate::specs::Behavior::clause_composites))]
pub(crate) fn clause_composites(
    reader: &mut Reader,
    clause: &mut Emv2Clause,
) -> Result<(), ReadError>
    ensures { Gives (given result clause.new) (clause_composites clause.old) reader.old reader.new }
{
    composite_head(reader)?;
    reader.more_parts::<Composites>(&mut clause.composites)?;
    block_end(reader, b"composite")?;
    Ok(())
}

#[tactic(auto, unfolding(crate::specs::Behavior::connection_errors))]
fn connection_errors(reader: &mut Reader) -> Result<Spot, ReadError>
    ensures { Gives result connection_errors reader.old reader.new }
{
    let spot = spot(reader)?;
    reader.word(b"connection")?;
    reader.word(b"error")?;
    reader.until_inside::<ToEnd>()?;
    block_end(reader, b"connection")?;
    Ok(spot)
}

/// Reads the error behavior of connections, as a part of a clause, which keeps its place.
#[tactic(auto, unfolding(crate::specs::Behavior::clause_connection))]
pub(crate) fn clause_connection(
    reader: &mut Reader,
    clause: &mut Emv2Clause,
) -> Result<(), ReadError>
    ensures { Gives (given result clause.new) (clause_connection clause.old) reader.old reader.new }
{
    let spot = connection_errors(reader)?;
    clause.connection_errors.push(spot)?;
    Ok(())
}

#[tactic(auto, unfolding(crate::specs::Behavior::last_word))]
fn last_word(reader: &mut Reader, names: &mut List<Identifier>) -> Result<(), ReadError>
    ensures { Gives (given result names.new) (last_word names.old) reader.old reader.new }
{
    if reader.sign_at(0, b".") && point_word_at(reader, 1) {
        reader.sign(b".")?;
        let name = point_name(reader)?;
        names.push(name)?;
    }
    Ok(())
}

#[tactic(auto, unfolding(crate::specs::Behavior::end_names))]
fn end_names(reader: &mut Reader) -> Result<List<Identifier>, ReadError>
    ensures { Gives result end_names reader.old reader.new }
{
    let mut names = dotted_names(reader)?;
    last_word(reader, &mut names)?;
    Ok(names)
}

// The names of an end.
fn any_end_names(reader: &mut Reader) -> Result<List<Identifier>, ReadError>
    ensures { Gives result (chooses (is_one_of point_words ∷ []) point_word end_names) reader.old reader.new }
{
    if point_word_at(reader, 0) {
        return point_word(reader);
    }
    end_names(reader)
}

#[tactic(auto, unfolding(crate::specs::Behavior::path_end))]
fn path_end(reader: &mut Reader) -> Result<End, ReadError>
    ensures { Gives result path_end reader.old reader.new }
{
    let spot = spot(reader)?;
    let names = any_end_names(reader)?;
    Ok(End { names, spot })
}

#[tactic(auto, unfolding(crate::specs::Behavior::user_point))]
fn user_point(reader: &mut Reader, name: Identifier, spot: Spot) -> Result<UserPoint, ReadError>
    ensures { Gives result (user_point name spot) reader.old reader.new }
{
    reader.word(b"propagation")?;
    reader.word(b"point")?;
    reader.sign(b";")?;
    Ok(UserPoint { name, spot })
}

#[tactic(auto, unfolding(crate::specs::Behavior::path_ends))]
fn path_ends(reader: &mut Reader) -> Result<PathEnds, ReadError>
    ensures { Gives result path_ends reader.old reader.new }
{
    let from = path_end(reader)?;
    reader.sign(b"->")?;
    let to = path_end(reader)?;
    reader.sign(b";")?;
    Ok(PathEnds { from, to })
}

#[tactic(auto, unfolding(crate::specs::Behavior::user_path))]
fn user_path(reader: &mut Reader, name: Identifier, spot: Spot) -> Result<UserPath, ReadError>
    ensures { Gives result (user_path name spot) reader.old reader.new }
{
    let ends = path_ends(reader)?;
    Ok(UserPath {
        name,
        spot,
        from: ends.from,
        to: ends.to,
    })
}

#[tactic(auto, unfolding(crate::specs::Behavior::clause_user_point))]
fn clause_user_point(
    reader: &mut Reader,
    clause: &mut Emv2Clause,
    name: Identifier,
    spot: Spot,
) -> Result<(), ReadError>
    ensures { Gives (given result clause.new) (clause_user_point clause.old name spot) reader.old reader.new }
{
    let item = user_point(reader, name, spot)?;
    clause.user_points.push(item)?;
    Ok(())
}

#[tactic(auto, unfolding(crate::specs::Behavior::clause_user_path))]
fn clause_user_path(
    reader: &mut Reader,
    clause: &mut Emv2Clause,
    name: Identifier,
    spot: Spot,
) -> Result<(), ReadError>
    ensures { Gives (given result clause.new) (clause_user_path clause.old name spot) reader.old reader.new }
{
    let item = user_path(reader, name, spot)?;
    clause.user_paths.push(item)?;
    Ok(())
}

#[tactic(auto, unfolding(crate::specs::Behavior::user_item))]
fn user_item(reader: &mut Reader, clause: &mut Emv2Clause) -> Result<(), ReadError>
    ensures { Gives (given result clause.new) (user_item clause.old) reader.old reader.new }
{
    let spot = spot(reader)?;
    let name = error_name(reader)?;
    reader.sign(b":")?;
    if reader.word_at(0, b"propagation") {
        return clause_user_point(reader, clause, name, spot);
    }
    clause_user_path(reader, clause, name, spot)
}

#[tactic(auto, unfolding(crate::specs::Behavior::user_items))]
fn user_items(reader: &mut Reader, clause: &mut Emv2Clause) -> Result<(), ReadError>
    ensures { Gives (given result clause.new) (user_items clause.old) reader.old reader.new }
{
    reader.gather::<UserItems>(clause)
}

#[tactic(auto, unfolding(crate::specs::Behavior::paths_head))]
fn paths_head(reader: &mut Reader) -> Result<(), ReadError>
    ensures { Gives result paths_head reader.old reader.new }
{
    reader.word(b"propagation")?;
    reader.word(b"paths")
}

/// Reads the propagation points and paths of the user's, as a part of a clause.
#[tactic(auto, unfolding(crate::specs::Behavior::clause_paths))]
pub(crate) fn clause_paths(reader: &mut Reader, clause: &mut Emv2Clause) -> Result<(), ReadError>
    ensures { Gives (given result clause.new) (clause_paths clause.old) reader.old reader.new }
{
    paths_head(reader)?;
    user_items(reader, clause)?;
    block_end(reader, b"paths")?;
    Ok(())
}

// The outgoing conditions of a block.
pub(crate) struct OutgoingConditions;

impl Parts for OutgoingConditions {
    type Part = Outgoing;

    ghost tests = { begins_source ∷ [] };

    ghost rule = { outgoing };

    fn begins(reader: &mut Reader) -> bool {
        source_at(reader)
    }

    fn part(reader: &mut Reader) -> Result<Outgoing, ReadError> {
        outgoing(reader)
    }

    ghost takes_tokens = { outgoing-takes };
}

// The composite states of a block.
pub(crate) struct Composites;

impl Parts for Composites {
    type Part = Composite;

    ghost tests = { begins_composite ∷ [] };

    ghost rule = { composite };

    fn begins(reader: &mut Reader) -> bool {
        composite_at(reader)
    }

    fn part(reader: &mut Reader) -> Result<Composite, ReadError> {
        composite(reader)
    }

    ghost takes_tokens = { composite-takes };
}

// The blocks of a component's error behavior.
pub(crate) struct ComponentBlocks;

impl Gathered for ComponentBlocks {
    type Whole = Emv2Clause;

    ghost tests = { is_one_of component_words ∷ [] };

    ghost rule = { component_block };

    fn begins(reader: &mut Reader) -> bool {
        component_block_at(reader)
    }

    fn part(reader: &mut Reader, whole: &mut Emv2Clause) -> Result<(), ReadError> {
        component_block(reader, whole)
    }

    ghost takes_tokens = { component_block-takes };
}

// The points and paths of the user's.
pub(crate) struct UserItems;

impl Gathered for UserItems {
    type Whole = Emv2Clause;

    ghost tests = { is_name ∷ [] };

    ghost rule = { user_item };

    fn begins(reader: &mut Reader) -> bool {
        name_at(reader, 0)
    }

    fn part(reader: &mut Reader, whole: &mut Emv2Clause) -> Result<(), ReadError> {
        user_item(reader, whole)
    }

    ghost takes_tokens = { user_item-takes };
}
