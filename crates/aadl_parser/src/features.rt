ghost use Rattle.std.specs.Prelude.{[], ◌∷◌};
ghost use Rattle.grammar_rules.specs.inner.Reader.{Gives, given};
ghost use Rattle.aadl_parser.specs.Words.{is_name};
ghost use Rattle.aadl_parser.specs.Features.{refinement, inward, direction, event_port, port, plain_feature, directed, accessed, access, feature_kind, feature, features_after};
ghost use Rattle.aadl_parser.specs.inner.Takes.{feature-takes};

use crate::runs::array_tail;
use crate::words::{core_name, direction_at, either_word, name_at, optional_word};
use aadl_syntax::{Feature, FeatureKind};
use grammar_rules::{Parts, ReadError, Reader, spot};
use plain_values::List;

/// Reads `refined to`, where it stands, and says whether it does.
#[tactic(auto, unfolding(crate::specs::Features::refinement))]
pub(crate) fn refinement(reader: &mut Reader) -> Result<bool, ReadError>
    ensures { Gives result refinement reader.old reader.new }
{
    if reader.word_at(0, b"refined") {
        reader.word(b"refined")?;
        reader.word(b"to")?;
        return Ok(true);
    }
    Ok(false)
}

#[tactic(auto, unfolding(crate::specs::Features::inward))]
fn inward(reader: &mut Reader) -> Result<FeatureKind, ReadError>
    ensures { Gives result inward reader.old reader.new }
{
    reader.word(b"in")?;
    if reader.word_at(0, b"out") {
        reader.word(b"out")?;
        return Ok(FeatureKind::Both);
    }
    Ok(FeatureKind::Inward)
}

#[tactic(auto, unfolding(crate::specs::Features::direction))]
fn direction(reader: &mut Reader) -> Result<FeatureKind, ReadError>
    ensures { Gives result direction reader.old reader.new }
{
    if reader.word_at(0, b"in") {
        return inward(reader);
    }
    reader.word(b"out")?;
    Ok(FeatureKind::Outward)
}

#[tactic(auto, unfolding(crate::specs::Features::event_port))]
fn event_port(reader: &mut Reader) -> Result<(), ReadError>
    ensures { Gives result event_port reader.old reader.new }
{
    reader.word(b"event")?;
    optional_word(reader, b"data")?;
    reader.word(b"port")
}

#[tactic(auto, unfolding(crate::specs::Features::port))]
fn port(reader: &mut Reader) -> Result<(), ReadError>
    ensures { Gives result port reader.old reader.new }
{
    if reader.word_at(0, b"data") {
        reader.word(b"data")?;
        return reader.word(b"port");
    }
    if reader.word_at(0, b"event") {
        return event_port(reader);
    }
    reader.word(b"parameter")
}

#[tactic(auto, unfolding(crate::specs::Features::plain_feature))]
fn plain_feature(reader: &mut Reader, direction: FeatureKind) -> Result<FeatureKind, ReadError>
    ensures { Gives result (plain_feature direction) reader.old reader.new }
{
    reader.word(b"feature")?;
    if reader.word_at(0, b"group") {
        reader.word(b"group")?;
        return Ok(FeatureKind::Group);
    }
    Ok(direction)
}

#[tactic(auto, unfolding(crate::specs::Features::directed))]
fn directed(reader: &mut Reader) -> Result<FeatureKind, ReadError>
    ensures { Gives result directed reader.old reader.new }
{
    let direction = direction(reader)?;
    if reader.word_at(0, b"feature") {
        return plain_feature(reader, direction);
    }
    port(reader)?;
    Ok(direction)
}

/// Reads what an access is to.
#[tactic(auto, unfolding(crate::specs::Features::accessed))]
pub(crate) fn accessed(reader: &mut Reader) -> Result<(), ReadError>
    ensures { Gives result accessed reader.old reader.new }
{
    if reader.word_at(0, b"virtual") {
        reader.word(b"virtual")?;
        return reader.word(b"bus");
    }
    if reader.word_at(0, b"subprogram") {
        reader.word(b"subprogram")?;
        return optional_word(reader, b"group");
    }
    either_word(reader, b"bus", b"data")
}

#[tactic(auto, unfolding(crate::specs::Features::access))]
fn access(reader: &mut Reader) -> Result<FeatureKind, ReadError>
    ensures { Gives result access reader.old reader.new }
{
    either_word(reader, b"provides", b"requires")?;
    accessed(reader)?;
    reader.word(b"access")?;
    Ok(FeatureKind::Access)
}

#[tactic(auto, unfolding(crate::specs::Features::feature_kind))]
fn feature_kind(reader: &mut Reader) -> Result<FeatureKind, ReadError>
    ensures { Gives result feature_kind reader.old reader.new }
{
    if direction_at(reader) {
        return directed(reader);
    }
    if reader.word_at(0, b"feature") {
        return plain_feature(reader, FeatureKind::Both);
    }
    access(reader)
}

#[tactic(auto, unfolding(crate::specs::Features::feature))]
fn feature(reader: &mut Reader) -> Result<Feature, ReadError>
    ensures { Gives result feature reader.old reader.new }
{
    let spot = spot(reader)?;
    let name = core_name(reader)?;
    reader.sign(b":")?;
    let refined = refinement(reader)?;
    let kind = feature_kind(reader)?;
    let array = array_tail(reader)?;
    Ok(Feature {
        name,
        spot,
        refined,
        kind,
        array,
    })
}

/// Reads a section of features, and adds them to others.
#[tactic(auto, unfolding(crate::specs::Features::features_after))]
pub(crate) fn features_after(
    reader: &mut Reader,
    features: &mut List<Feature>,
) -> Result<(), ReadError>
    ensures { Gives (given result features.new) (features_after features.old) reader.old reader.new }
{
    reader.word(b"features")?;
    if reader.word_at(0, b"none") {
        reader.word(b"none")?;
        return reader.sign(b";");
    }
    reader.more_parts::<Features>(features)
}

// The features of a section.
pub(crate) struct Features;

impl Parts for Features {
    type Part = Feature;

    ghost tests = { is_name ∷ [] };

    ghost rule = { feature };

    fn begins(reader: &mut Reader) -> bool {
        name_at(reader, 0)
    }

    fn part(reader: &mut Reader) -> Result<Feature, ReadError> {
        feature(reader)
    }

    ghost takes_tokens = { feature-takes };
}
