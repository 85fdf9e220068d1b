ghost use Rattle.std.specs.Prelude.{◌≡◌, [], ◌∷◌, Some, None};
ghost use Rattle.grammar_rules.specs.inner.Reader.{Gives, given};
ghost use Rattle.grammar_rules.specs.Tokens.{is_one_of};
ghost use Rattle.aadl_parser.specs.Words.{section_words};
ghost use Rattle.aadl_parser.specs.Classifiers.{features_section, subcomponents_section, connections_section, annex_section, prototypes_at};
ghost use Rattle.aadl_parser.specs.Classifiers.{prototypes, first_place, prototypes_section, properties_section, required_modes};
ghost use Rattle.aadl_parser.specs.Classifiers.{inner_features, skipped, skipped_part, skipped_section, other_section, section, sections};
ghost use Rattle.aadl_parser.specs.Classifiers.{extension, optional_extension, bare_decl, decl_of, type_end, type_body, component_type};
ghost use Rattle.aadl_parser.specs.Classifiers.{implementation_end, implementation_body, implementation, classifier, group_type};
ghost use Rattle.aadl_parser.specs.inner.Takes.{section-takes};

use crate::annexes::clause_annex;
use crate::connections::connections_after;
use crate::features::features_after;
use crate::names::{Classifier, category, dotted_name, reference};
use crate::runs::{bindings, past, section_tokens};
use crate::subcomponents::subcomponents_after;
use crate::words::{core_name, ending_at, inner_at, inner_word, section_at, skipped_word};
use aadl_syntax::{Category, Decl, Identifier};
use grammar_rules::{Gathered, ReadError, Reader, ToEnd, spot};
use plain_values::{List, Spot};
use std::alloc::Global;

#[tactic(auto, unfolding(crate::specs::Classifiers::features_section))]
fn features_section(reader: &mut Reader, decl: &mut Decl) -> Result<(), ReadError>
    ensures { Gives (given result decl.new) (features_section decl.old) reader.old reader.new }
{
    features_after(reader, &mut decl.features)
}

#[tactic(auto, unfolding(crate::specs::Classifiers::subcomponents_section))]
fn subcomponents_section(reader: &mut Reader, decl: &mut Decl) -> Result<(), ReadError>
    ensures { Gives (given result decl.new) (subcomponents_section decl.old) reader.old reader.new }
{
    subcomponents_after(reader, &mut decl.subcomponents)
}

#[tactic(auto, unfolding(crate::specs::Classifiers::connections_section))]
fn connections_section(reader: &mut Reader, decl: &mut Decl) -> Result<(), ReadError>
    ensures { Gives (given result decl.new) (connections_section decl.old) reader.old reader.new }
{
    connections_after(reader, &mut decl.connections)
}

#[tactic(auto, unfolding(crate::specs::Classifiers::annex_section))]
fn annex_section(reader: &mut Reader, decl: &mut Decl) -> Result<(), ReadError>
    ensures { Gives (given result decl.new) (annex_section decl.old) reader.old reader.new }
{
    clause_annex(reader, &mut decl.clauses)
}

#[tactic(auto, unfolding(crate::specs::Classifiers::prototypes_at))]
fn prototypes_at(reader: &mut Reader, spot: Spot) -> Result<Option<Spot>, ReadError>
    ensures { Gives result (prototypes_at spot) reader.old reader.new }
{
    if reader.word_at(0, b"none") && reader.sign_at(1, b";") && ending_at(reader, 2) {
        past(reader)?;
        return Ok(None);
    }
    past(reader)?;
    Ok(Some(spot))
}

#[tactic(auto, unfolding(crate::specs::Classifiers::prototypes))]
fn prototypes(reader: &mut Reader) -> Result<Option<Spot>, ReadError>
    ensures { Gives result prototypes reader.old reader.new }
{
    let spot = spot(reader)?;
    reader.word(b"prototypes")?;
    prototypes_at(reader, spot)
}

fn first_place(first: Option<Spot>, later: Option<Spot>) -> Option<Spot>
    ensures { result ≡ first_place first later }
{
    match first {
        Some(spot) => Some(spot),
        None => later,
    }
}

#[tactic(auto, unfolding(crate::specs::Classifiers::prototypes_section))]
fn prototypes_section(reader: &mut Reader, decl: &mut Decl) -> Result<(), ReadError>
    ensures { Gives (given result decl.new) (prototypes_section decl.old) reader.old reader.new }
{
    let place = prototypes(reader)?;
    decl.prototypes = first_place(decl.prototypes, place);
    Ok(())
}

#[tactic(auto, unfolding(crate::specs::Classifiers::required_modes))]
fn required_modes(reader: &mut Reader) -> Result<(), ReadError>
    ensures { Gives result required_modes reader.old reader.new }
{
    reader.word(b"requires")?;
    reader.word(b"modes")?;
    past(reader)
}

#[tactic(auto, unfolding(crate::specs::Classifiers::inner_features))]
fn inner_features(reader: &mut Reader) -> Result<(), ReadError>
    ensures { Gives result inner_features reader.old reader.new }
{
    inner_word(reader)?;
    reader.word(b"features")?;
    past(reader)
}

#[tactic(auto, unfolding(crate::specs::Classifiers::skipped))]
fn skipped(reader: &mut Reader) -> Result<(), ReadError>
    ensures { Gives result skipped reader.old reader.new }
{
    skipped_word(reader)?;
    past(reader)
}

#[tactic(auto, unfolding(crate::specs::Classifiers::skipped_part))]
fn skipped_part(reader: &mut Reader) -> Result<(), ReadError>
    ensures { Gives result skipped_part reader.old reader.new }
{
    if reader.word_at(0, b"requires") {
        return required_modes(reader);
    }
    if inner_at(reader) {
        return inner_features(reader);
    }
    skipped(reader)
}

#[tactic(auto, unfolding(crate::specs::Classifiers::properties_section))]
fn properties_section(reader: &mut Reader, decl: &mut Decl) -> Result<(), ReadError>
    ensures { Gives (given result decl.new) (properties_section decl.old) reader.old reader.new }
{
    reader.word(b"properties")?;
    let tokens = section_tokens(reader)?;
    decl.properties.push(tokens)?;
    Ok(())
}

#[tactic(auto, unfolding(crate::specs::Classifiers::other_section, crate::specs::Classifiers::skipped_section))]
fn other_section(reader: &mut Reader, decl: &mut Decl) -> Result<(), ReadError>
    ensures { Gives (given result decl.new) (other_section decl.old) reader.old reader.new }
{
    if reader.word_at(0, b"annex") {
        return annex_section(reader, decl);
    }
    if reader.word_at(0, b"prototypes") {
        return prototypes_section(reader, decl);
    }
    if reader.word_at(0, b"properties") {
        return properties_section(reader, decl);
    }
    skipped_part(reader)
}

#[tactic(auto, unfolding(crate::specs::Classifiers::section))]
fn section(reader: &mut Reader, decl: &mut Decl) -> Result<(), ReadError>
    ensures { Gives (given result decl.new) (section decl.old) reader.old reader.new }
{
    if reader.word_at(0, b"features") {
        return features_section(reader, decl);
    }
    if reader.word_at(0, b"subcomponents") {
        return subcomponents_section(reader, decl);
    }
    if reader.word_at(0, b"connections") {
        return connections_section(reader, decl);
    }
    other_section(reader, decl)
}

#[tactic(auto, unfolding(crate::specs::Classifiers::sections))]
fn sections(reader: &mut Reader, decl: &mut Decl) -> Result<(), ReadError>
    ensures { Gives (given result decl.new) (sections decl.old) reader.old reader.new }
{
    reader.gather::<ClassifierSections>(decl)
}

#[tactic(auto, unfolding(crate::specs::Classifiers::extension))]
fn extension(reader: &mut Reader) -> Result<Classifier, ReadError>
    ensures { Gives result extension reader.old reader.new }
{
    reader.word(b"extends")?;
    let reference = reference(reader)?;
    let binds = bindings(reader)?;
    Ok(Classifier {
        reference: Some(reference),
        binds,
    })
}

#[tactic(auto, unfolding(crate::specs::Classifiers::optional_extension))]
fn optional_extension(reader: &mut Reader) -> Result<Classifier, ReadError>
    ensures { Gives result optional_extension reader.old reader.new }
{
    if reader.word_at(0, b"extends") {
        return extension(reader);
    }
    Ok(Classifier {
        reference: None,
        binds: None,
    })
}

fn bare_decl(
    alloc: Global,
    category: Category,
    name: Identifier,
    item: Option<Identifier>,
    spot: Spot,
    extended: Classifier,
) -> Decl
    ensures { result ≡ bare_decl category name item spot extended }
{
    Decl {
        category,
        name,
        item,
        spot,
        extends: extended.reference,
        binds: extended.binds,
        prototypes: None,
        features: List::new(alloc),
        subcomponents: List::new(alloc),
        connections: List::new(alloc),
        clauses: List::new(alloc),
        properties: List::new(alloc),
    }
}

#[tactic(auto, unfolding(crate::specs::Classifiers::decl_of))]
fn decl_of(
    reader: &mut Reader,
    category: Category,
    name: Identifier,
    item: Option<Identifier>,
    spot: Spot,
) -> Result<Decl, ReadError>
    ensures { Gives result (decl_of category name item spot) reader.old reader.new }
{
    let extended = optional_extension(reader)?;
    let mut decl = bare_decl(reader.alloc(), category, name, item, spot, extended);
    sections(reader, &mut decl)?;
    Ok(decl)
}

/// Reads the end of what has one name.
#[tactic(auto, unfolding(crate::specs::Classifiers::type_end))]
pub(crate) fn type_end(reader: &mut Reader) -> Result<(), ReadError>
    ensures { Gives result type_end reader.old reader.new }
{
    reader.word(b"end")?;
    core_name(reader)?;
    reader.sign(b";")
}

#[tactic(auto, unfolding(crate::specs::Classifiers::type_body))]
fn type_body(
    reader: &mut Reader,
    category: Category,
    name: Identifier,
    spot: Spot,
) -> Result<Decl, ReadError>
    ensures { Gives result (type_body category name spot) reader.old reader.new }
{
    let decl = decl_of(reader, category, name, None, spot)?;
    match type_end(reader) {
        Ok(()) => Ok(decl),
        Err(error) => Err(error),
    }
}

#[tactic(auto, unfolding(crate::specs::Classifiers::component_type))]
fn component_type(reader: &mut Reader, category: Category) -> Result<Decl, ReadError>
    ensures { Gives result (component_type category) reader.old reader.new }
{
    let spot = spot(reader)?;
    let name = core_name(reader)?;
    type_body(reader, category, name, spot)
}

#[tactic(auto, unfolding(crate::specs::Classifiers::implementation_end))]
fn implementation_end(reader: &mut Reader) -> Result<(), ReadError>
    ensures { Gives result implementation_end reader.old reader.new }
{
    reader.word(b"end")?;
    core_name(reader)?;
    dotted_name(reader)?;
    reader.sign(b";")
}

#[tactic(auto, unfolding(crate::specs::Classifiers::implementation_body))]
fn implementation_body(
    reader: &mut Reader,
    category: Category,
    name: Identifier,
    item: Identifier,
    spot: Spot,
) -> Result<Decl, ReadError>
    ensures { Gives result (implementation_body category name item spot) reader.old reader.new }
{
    let decl = decl_of(reader, category, name, Some(item), spot)?;
    match implementation_end(reader) {
        Ok(()) => Ok(decl),
        Err(error) => Err(error),
    }
}

#[tactic(auto, unfolding(crate::specs::Classifiers::implementation))]
fn implementation(reader: &mut Reader, category: Category) -> Result<Decl, ReadError>
    ensures { Gives result (implementation category) reader.old reader.new }
{
    reader.word(b"implementation")?;
    let spot = spot(reader)?;
    let name = core_name(reader)?;
    let item = dotted_name(reader)?;
    implementation_body(reader, category, name, item, spot)
}

/// Reads a component type or an implementation.
#[tactic(auto, unfolding(crate::specs::Classifiers::classifier))]
pub(crate) fn classifier(reader: &mut Reader) -> Result<Decl, ReadError>
    ensures { Gives result classifier reader.old reader.new }
{
    let category = category(reader)?;
    if reader.word_at(0, b"implementation") {
        return implementation(reader, category);
    }
    component_type(reader, category)
}

/// Goes past a feature group type.
#[tactic(auto, unfolding(crate::specs::Classifiers::group_type))]
pub(crate) fn group_type(reader: &mut Reader) -> Result<(), ReadError>
    ensures { Gives result group_type reader.old reader.new }
{
    reader.word(b"feature")?;
    reader.word(b"group")?;
    core_name(reader)?;
    reader.until::<ToEnd>()?;
    type_end(reader)
}

// The sections of a classifier.
pub(crate) struct ClassifierSections;

impl Gathered for ClassifierSections {
    type Whole = Decl;

    ghost tests = { is_one_of section_words ∷ [] };

    ghost rule = { section };

    fn begins(reader: &mut Reader) -> bool {
        section_at(reader)
    }

    fn part(reader: &mut Reader, whole: &mut Decl) -> Result<(), ReadError> {
        section(reader, whole)
    }

    ghost takes_tokens = { section-takes };
}
