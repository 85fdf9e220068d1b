ghost use Rattle.std.specs.Prelude.{[], ◌∷◌};
ghost use Rattle.grammar_rules.specs.inner.Reader.{Gives, given};
ghost use Rattle.emv2_parts.specs.Words.{is_name, begins_point};
ghost use Rattle.emv2_parser.specs.Propagations.{negation, outward, direction, propagation_words, point_item, when_part, source_state, source_flow, sink_flow, flow_mappings, path_target, path_flow, flow_kind, flow_words, flow, flows_after, points_after, propagations_head, clause_propagations};
ghost use Rattle.emv2_parser.specs.inner.Takes.{point_item-takes, flow-takes};

use aadl_syntax::{Emv2Clause, Flow, FlowKind, PointItem, StateRef, TokenKind, TypeSet};
use emv2_parts::{
    FlowEnd, block_end, error_name, flow_end, name_at, names, point, point_at, state_reference,
    type_set,
};
use grammar_rules::{Parts, ReadError, Reader, spot, tail_end_inside};
use plain_values::{List, Spot};

/// What follows the point of a propagation.
#[derive(Drop)]
pub(crate) struct PropagationWords {
    pub(crate) negative: bool,
    pub(crate) outward: bool,
    pub(crate) set: TypeSet,
}

/// What follows the first end of a path.
#[derive(Drop)]
pub(crate) struct PathTarget {
    pub(crate) to: FlowEnd,
    pub(crate) mappings: Option<Spot>,
}

#[tactic(auto, unfolding(crate::specs::Propagations::negation))]
fn negation(reader: &mut Reader) -> Result<bool, ReadError>
    ensures { Gives result negation reader.old reader.new }
{
    if reader.word_at(0, b"not") {
        reader.word(b"not")?;
        return Ok(true);
    }
    Ok(false)
}

#[tactic(auto, unfolding(crate::specs::Propagations::outward))]
fn outward(reader: &mut Reader) -> Result<bool, ReadError>
    ensures { Gives result outward reader.old reader.new }
{
    if reader.word_at(0, b"in") {
        reader.word(b"in")?;
        return Ok(false);
    }
    reader.word(b"out")?;
    Ok(true)
}

#[tactic(auto, unfolding(crate::specs::Propagations::direction))]
fn direction(reader: &mut Reader) -> Result<bool, ReadError>
    ensures { Gives result direction reader.old reader.new }
{
    let outward = outward(reader)?;
    reader.word(b"propagation")?;
    Ok(outward)
}

#[tactic(auto, unfolding(crate::specs::Propagations::propagation_words))]
fn propagation_words(reader: &mut Reader) -> Result<PropagationWords, ReadError>
    ensures { Gives result propagation_words reader.old reader.new }
{
    let negative = negation(reader)?;
    let outward = direction(reader)?;
    let set = type_set(reader)?;
    tail_end_inside(reader)?;
    Ok(PropagationWords {
        negative,
        outward,
        set,
    })
}

#[tactic(auto, unfolding(crate::specs::Propagations::point_item))]
fn point_item(reader: &mut Reader) -> Result<PointItem, ReadError>
    ensures { Gives result point_item reader.old reader.new }
{
    let point = point(reader)?;
    reader.sign(b":")?;
    let propagation_words = propagation_words(reader)?;
    Ok(PointItem {
        point,
        negative: propagation_words.negative,
        outward: propagation_words.outward,
        set: propagation_words.set,
    })
}

#[tactic(auto, unfolding(crate::specs::Propagations::when_part))]
fn when_part(reader: &mut Reader) -> Result<Option<StateRef>, ReadError>
    ensures { Gives result when_part reader.old reader.new }
{
    if reader.sign_at(0, b"{") {
        type_set(reader)?;
        return Ok(None);
    }
    if reader.kind_at(0, TokenKind::Text) {
        reader.kind(TokenKind::Text)?;
        return Ok(None);
    }
    Ok(Some(state_reference(reader)?))
}

#[tactic(auto, unfolding(crate::specs::Propagations::source_state))]
fn source_state(reader: &mut Reader) -> Result<Option<StateRef>, ReadError>
    ensures { Gives result source_state reader.old reader.new }
{
    if reader.word_at(0, b"when") {
        reader.word(b"when")?;
        return when_part(reader);
    }
    Ok(None)
}

#[tactic(auto, unfolding(crate::specs::Propagations::source_flow))]
fn source_flow(reader: &mut Reader) -> Result<FlowKind, ReadError>
    ensures { Gives result source_flow reader.old reader.new }
{
    reader.word(b"source")?;
    let end = flow_end(reader)?;
    let state = source_state(reader)?;
    Ok(FlowKind::Source(end.point, end.set, state))
}

#[tactic(auto, unfolding(crate::specs::Propagations::sink_flow))]
fn sink_flow(reader: &mut Reader) -> Result<FlowKind, ReadError>
    ensures { Gives result sink_flow reader.old reader.new }
{
    reader.word(b"sink")?;
    let end = flow_end(reader)?;
    Ok(FlowKind::Sink(end.point, end.set))
}

#[tactic(auto, unfolding(crate::specs::Propagations::flow_mappings))]
fn flow_mappings(reader: &mut Reader) -> Result<Option<Spot>, ReadError>
    ensures { Gives result flow_mappings reader.old reader.new }
{
    if !reader.word_at(0, b"use") {
        return Ok(None);
    }
    let spot = spot(reader)?;
    reader.word(b"use")?;
    reader.word(b"mappings")?;
    names(reader)?;
    Ok(Some(spot))
}

#[tactic(auto, unfolding(crate::specs::Propagations::path_target))]
fn path_target(reader: &mut Reader) -> Result<PathTarget, ReadError>
    ensures { Gives result path_target reader.old reader.new }
{
    reader.sign(b"->")?;
    let to = flow_end(reader)?;
    let mappings = flow_mappings(reader)?;
    Ok(PathTarget { to, mappings })
}

#[tactic(auto, unfolding(crate::specs::Propagations::path_flow))]
fn path_flow(reader: &mut Reader) -> Result<FlowKind, ReadError>
    ensures { Gives result path_flow reader.old reader.new }
{
    reader.word(b"path")?;
    let from = flow_end(reader)?;
    let target = path_target(reader)?;
    let to = target.to;
    Ok(FlowKind::Path(from.point, from.set, to.point, to.set, target.mappings))
}

#[tactic(auto, unfolding(crate::specs::Propagations::flow_kind))]
fn flow_kind(reader: &mut Reader) -> Result<FlowKind, ReadError>
    ensures { Gives result flow_kind reader.old reader.new }
{
    if reader.word_at(0, b"source") {
        return source_flow(reader);
    }
    if reader.word_at(0, b"sink") {
        return sink_flow(reader);
    }
    path_flow(reader)
}

#[tactic(auto, unfolding(crate::specs::Propagations::flow_words))]
fn flow_words(reader: &mut Reader) -> Result<FlowKind, ReadError>
    ensures { Gives result flow_words reader.old reader.new }
{
    reader.word(b"error")?;
    let kind = flow_kind(reader)?;
    tail_end_inside(reader)?;
    Ok(kind)
}

#[tactic(auto, unfolding(crate::specs::Propagations::flow))]
fn flow(reader: &mut Reader) -> Result<Flow, ReadError>
    ensures { Gives result flow reader.old reader.new }
{
    let spot = spot(reader)?;
    let name = error_name(reader)?;
    reader.sign(b":")?;
    let kind = flow_words(reader)?;
    Ok(Flow { name, spot, kind })
}

#[tactic(auto, unfolding(crate::specs::Propagations::flows_after))]
fn flows_after(reader: &mut Reader, flows: &mut List<Flow>) -> Result<(), ReadError>
    ensures { Gives (given result flows.new) (flows_after flows.old) reader.old reader.new }
{
    if !reader.word_at(0, b"flows") {
        return Ok(());
    }
    reader.word(b"flows")?;
    reader.more_parts::<Flows>(flows)
}

#[tactic(auto, unfolding(crate::specs::Propagations::points_after))]
fn points_after(reader: &mut Reader, points: &mut List<PointItem>) -> Result<(), ReadError>
    ensures { Gives (given result points.new) (points_after points.old) reader.old reader.new }
{
    reader.more_parts::<PointItems>(points)
}

#[tactic(auto, unfolding(crate::specs::Propagations::propagations_head))]
fn propagations_head(reader: &mut Reader) -> Result<(), ReadError>
    ensures { Gives result propagations_head reader.old reader.new }
{
    reader.word(b"error")?;
    reader.word(b"propagations")
}

/// Reads the propagations and flows of a clause, as a part of it.
#[tactic(auto, unfolding(crate::specs::Propagations::clause_propagations))]
pub(crate) fn clause_propagations(
    reader: &mut Reader,
    clause: &mut Emv2Clause,
) -> Result<(), ReadError>
    ensures { Gives (given result clause.new) (clause_propagations clause.old) reader.old reader.new }
{
    propagations_head(reader)?;
    points_after(reader, &mut clause.points)?;
    flows_after(reader, &mut clause.flows)?;
    block_end(reader, b"propagations")?;
    Ok(())
}

// The propagations of a block.
pub(crate) struct PointItems;

impl Parts for PointItems {
    type Part = PointItem;

    ghost tests = { begins_point ∷ [] };

    ghost rule = { point_item };

    fn begins(reader: &mut Reader) -> bool {
        point_at(reader)
    }

    fn part(reader: &mut Reader) -> Result<PointItem, ReadError> {
        point_item(reader)
    }

    ghost takes_tokens = { point_item-takes };
}

// The flows of a block.
pub(crate) struct Flows;

impl Parts for Flows {
    type Part = Flow;

    ghost tests = { is_name ∷ [] };

    ghost rule = { flow };

    fn begins(reader: &mut Reader) -> bool {
        name_at(reader, 0)
    }

    fn part(reader: &mut Reader) -> Result<Flow, ReadError> {
        flow(reader)
    }

    ghost takes_tokens = { flow-takes };
}
