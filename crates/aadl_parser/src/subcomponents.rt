ghost use Rattle.std.specs.Prelude.{[], ◌∷◌};
ghost use Rattle.grammar_rules.specs.inner.Reader.{Gives, given};
ghost use Rattle.aadl_parser.specs.Words.{is_name};
ghost use Rattle.aadl_parser.specs.Subcomponents.{optional_classifier, subcomponent_of, subcomponent, subcomponents_after};
ghost use Rattle.aadl_parser.specs.inner.Takes.{subcomponent-takes};

use crate::features::refinement;
use crate::names::{Classifier, category, reference};
use crate::runs::{bindings_place, tail_front, tail_rest};
use crate::words::{core_name, name_at};
use aadl_syntax::{Identifier, Subcomponent};
use grammar_rules::{Parts, ReadError, Reader, spot};
use plain_values::{List, Spot};

#[tactic(auto, unfolding(crate::specs::Subcomponents::optional_classifier))]
fn optional_classifier(reader: &mut Reader) -> Result<Classifier, ReadError>
    ensures { Gives result optional_classifier reader.old reader.new }
{
    if name_at(reader, 0) {
        let reference = reference(reader)?;
        let binds = bindings_place(reader)?;
        return Ok(Classifier {
            reference: Some(reference),
            binds,
        });
    }
    Ok(Classifier {
        reference: None,
        binds: None,
    })
}

#[tactic(auto, unfolding(crate::specs::Subcomponents::subcomponent_of))]
fn subcomponent_of(
    reader: &mut Reader,
    name: Identifier,
    spot: Spot,
    refined: bool,
) -> Result<Subcomponent, ReadError>
    ensures { Gives result (subcomponent_of name spot refined) reader.old reader.new }
{
    category(reader)?;
    let classifier = optional_classifier(reader)?;
    let tail = tail_front(reader)?;
    let array = tail_rest(reader)?;
    Ok(Subcomponent {
        name,
        spot,
        refined,
        classifier: classifier.reference,
        array,
        binds: classifier.binds,
        tail,
    })
}

#[tactic(auto, unfolding(crate::specs::Subcomponents::subcomponent))]
fn subcomponent(reader: &mut Reader) -> Result<Subcomponent, ReadError>
    ensures { Gives result subcomponent reader.old reader.new }
{
    let spot = spot(reader)?;
    let name = core_name(reader)?;
    reader.sign(b":")?;
    let refined = refinement(reader)?;
    subcomponent_of(reader, name, spot, refined)
}

/// Reads a section of subcomponents, and adds them to others.
#[tactic(auto, unfolding(crate::specs::Subcomponents::subcomponents_after))]
pub(crate) fn subcomponents_after(
    reader: &mut Reader,
    subcomponents: &mut List<Subcomponent>,
) -> Result<(), ReadError>
    ensures { Gives (given result subcomponents.new) (subcomponents_after subcomponents.old) reader.old reader.new }
{
    reader.word(b"subcomponents")?;
    if reader.word_at(0, b"none") {
        reader.word(b"none")?;
        return reader.sign(b";");
    }
    reader.more_parts::<Subcomponents>(subcomponents)
}

// The subcomponents of a section.
pub(crate) struct Subcomponents;

impl Parts for Subcomponents {
    type Part = Subcomponent;

    ghost tests = { is_name ∷ [] };

    ghost rule = { subcomponent };

    fn begins(reader: &mut Reader) -> bool {
        name_at(reader, 0)
    }

    fn part(reader: &mut Reader) -> Result<Subcomponent, ReadError> {
        subcomponent(reader)
    }

    ghost takes_tokens = { subcomponent-takes };
}
