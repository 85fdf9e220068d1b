//! Requirements whose names are numbers.

ghost use Rattle.std.specs.Prelude.{◌≡◌, [], IfErr, IfOk, None, OnOk, map, unwrap_or};
ghost use Rattle.plain_values.specs.Name.{folded};
ghost use Rattle.requirement_names.specs.Names.{event_named};
ghost use Rattle.requirement_names.specs.Groups.{events_named, group_names};
ghost use Rattle.requirement_names.specs.Wrong.{again_behind, all_wrong, first_wrong, noting, wrong_of};
ghost use Rattle.requirement_names.specs.inner.Wrong.{IsFault};
ghost use Rattle.requirement_names.specs.Named.{named_requirement, named_requirements, named_sentence, set_of_word};
ghost use Rattle.requirement_names.specs.inner.Named.{AreNamed};
ghost use Rattle.requirement_names.specs.declared.named.NamedSentence.TheVariants.{OfSets, Probability as ProbabilityOf};
ghost use Rattle.requirement_names.specs.declared.named.SetSentence.TheVariants as said;

use crate::first::FirstWrong;
use crate::groups::all_group_events;
use crate::mistake::NameFault;
use crate::model::ModelNames;
use crate::named::{NamedRequirement, NamedSentence, SetSentence};
use crate::names::{NameTable, folded_names};
use crate::sets::set_named;
use crate::wrong::{note_groups, note_requirements};
use fault_system::FaultSystem;
use plain_values::{List, Mem, Name, copied, fold};
use requirements::{Group, PlacedWord, Requirement, Requirements, Sentence};
use std::alloc::Global;

/// The requirements of a text over a system, in their order, with numbers in place of names: of the fact that is the target, and of the
/// events of groups, exceptions and single events.
///
/// It is refused with the first word, by its place, that is wrong: a name of a group or of a requirement that one before it has, a member of
/// a group that has no event of the model, a target, a group, an event or a set that is not there. Where no word is wrong and there is no
/// requirement, it is refused with that. Names are compared with letters in lower case.
pub fn resolved(
    alloc: Global,
    system: &FaultSystem,
    all: &Requirements,
) -> Result<List<NamedRequirement>, NameFault>
    ensures named { IfOk result (AreNamed system.now all.now) }
    ensures fault { IfErr result (IsFault system.now all.now) }
{
    let model = ModelNames::of(alloc, system)?;
    resolved_over(alloc, &model, all)
}

/// The same, over the names of the system.
fn resolved_over(
    alloc: Global,
    model: &ModelNames<'_>,
    all: &Requirements,
) -> Result<List<NamedRequirement>, NameFault>
    ensures named { IfOk result (AreNamed model.now all.now) }
    ensures fault { IfErr result (IsFault model.now all.now) }
{
    let names = folded_names(alloc, all.groups.items())?;
    let mut first = FirstWrong::new();
    let groups = note_all(alloc, model, names.items(), all, &mut first)?;
    match first.noted() {
        Some(word) => Err(NameFault::Wrong(word)),
        None => named_or_none(alloc, model, &groups, all),
    }
}

/// The same, where no word is wrong and the groups have these names.
fn named_or_none(
    alloc: Global,
    model: &ModelNames<'_>,
    groups: &NameTable<'_>,
    all: &Requirements,
) -> Result<List<NamedRequirement>, NameFault>
    requires groups { groups.now ≡ group_names all.now.groups }
    requires none { first_wrong model.now all.now ≡ None }
    ensures named { IfOk result (AreNamed model.now all.now) }
    ensures fault { IfErr result (IsFault model.now all.now) }
{
    if all.requirements.items().is_empty() {
        return Err(NameFault::NoRequirement);
    }
    let named = all_named(alloc, model, groups, all)?;
    Ok(named)
}

/// Notes all words that are wrong, and makes the table of the groups, which have these names.
fn note_all<'a>(
    alloc: Global,
    model: &ModelNames<'_>,
    names: &'a [Name],
    all: &Requirements,
    first: &mut FirstWrong,
) -> Mem<NameTable<'a>>
    requires { names.now ≡ group_names all.now.groups }
    ensures table { IfOk result (λ table. table ≡ names.now) }
    ensures noted { OnOk result (first.new ≡ noting first.old (all_wrong model.now all.now)) }
{
    note_parts(
        alloc,
        model,
        names,
        all.groups.items(),
        all.requirements.items(),
        first,
    )
}

/// The same, of groups and of requirements.
fn note_parts<'a>(
    alloc: Global,
    model: &ModelNames<'_>,
    names: &'a [Name],
    groups: &[Group],
    requirements: &[Requirement],
    first: &mut FirstWrong,
) -> Mem<NameTable<'a>>
    requires { names.now ≡ group_names groups.now }
    ensures table { IfOk result (λ table. table ≡ names.now) }
    ensures noted { OnOk result (first.new ≡ noting first.old (wrong_of model.now groups.now requirements.now)) }
{
    let table = NameTable::of(alloc, names, groups, first)?;
    note_groups(alloc, model, groups, first)?;
    note_again(alloc, requirements, first)?;
    note_requirements(alloc, model, &table, requirements, first)?;
    Ok(table)
}

/// Notes the requirements whose name an earlier one has.
fn note_again(alloc: Global, requirements: &[Requirement], first: &mut FirstWrong) -> Mem<()>
    ensures { OnOk result (first.new ≡ noting first.old (again_behind (λ requirement. requirement.name) [] requirements.now)) }
{
    let names = folded_names(alloc, requirements)?;
    let _table = NameTable::of(alloc, names.items(), requirements, first)?;
    Ok(())
}

/// All requirements with numbers in place of names.
fn all_named(
    alloc: Global,
    model: &ModelNames<'_>,
    groups: &NameTable<'_>,
    all: &Requirements,
) -> Mem<List<NamedRequirement>>
    requires { groups.now ≡ group_names all.now.groups }
    ensures { IfOk result (λ named. named ≡ named_requirements model.now all.now) }
{
    let sets = all_group_events(alloc, model.system(), all.groups.items())?;
    named_requirements(alloc, model, groups, sets.items(), all.requirements.items())
}

/// These requirements with numbers in place of names, where the groups have these names and these events.
fn named_requirements(
    alloc: Global,
    model: &ModelNames<'_>,
    groups: &NameTable<'_>,
    sets: &[List<u32>],
    requirements: &[Requirement],
) -> Mem<List<NamedRequirement>>
    ensures { IfOk result (λ named. named ≡ map (named_requirement model.now groups.now sets.now) requirements.now) }
{
    let mut named = List::new(alloc);
    for requirement in requirements {
        named.push(named_requirement(alloc, model, groups, sets, requirement)?)?;
    }
    Ok(named)
}

fn named_requirement(
    alloc: Global,
    model: &ModelNames<'_>,
    groups: &NameTable<'_>,
    sets: &[List<u32>],
    requirement: &Requirement,
) -> Mem<NamedRequirement>
    ensures { IfOk result (λ named. named ≡ named_requirement model.now groups.now sets.now requirement.now) }
{
    let target = fold(alloc, requirement.target.text.items())?;
    let number = model.fact(target.items()).unwrap_or(0);
    Ok(NamedRequirement {
        name: word_again(alloc, &requirement.name)?,
        target: number,
        sentence: named_sentence(alloc, model, groups, sets, &requirement.sentence)?,
    })
}

/// A sentence with numbers in place of names.
fn named_sentence(
    alloc: Global,
    model: &ModelNames<'_>,
    groups: &NameTable<'_>,
    sets: &[List<u32>],
    sentence: &Sentence,
) -> Mem<NamedSentence>
    ensures { IfOk result (λ named. named ≡ named_sentence model.now groups.now sets.now sentence.now) }
{
    match sentence {
        Sentence::Order(least, tokens) => order_named(alloc, model, *least, tokens.items()),
        Sentence::Mixed(group, most) => mixed_named(alloc, groups, sets, group, *most),
        Sentence::Without(event) => without_named(alloc, model, event),
        Sentence::Possible => Ok(NamedSentence::OfSets(SetSentence::Possible)),
        Sentence::Never => Ok(NamedSentence::OfSets(SetSentence::Never)),
        Sentence::Probability(most, hours) => probability_again(alloc, most, hours),
    }
}

fn order_named(
    alloc: Global,
    model: &ModelNames<'_>,
    least: u32,
    tokens: &[PlacedWord],
) -> Mem<NamedSentence>
    ensures { IfOk result (λ named. named ≡ OfSets (said.Order least (map (set_of_word model.now) tokens.now))) }
{
    let sets = sets_of_words(alloc, model, tokens)?;
    Ok(NamedSentence::OfSets(SetSentence::Order(least, sets)))
}

fn mixed_named(
    alloc: Global,
    groups: &NameTable<'_>,
    sets: &[List<u32>],
    group: &PlacedWord,
    most: Option<u32>,
) -> Mem<NamedSentence>
    ensures { IfOk result (λ named. named ≡ OfSets (said.Mixed (events_named groups.now sets.now (folded group.now.text)) most)) }
{
    let name = fold(alloc, group.text.items())?;
    let events = events_named(alloc, groups, sets, name.items())?;
    Ok(NamedSentence::OfSets(SetSentence::Mixed(events, most)))
}

fn without_named(alloc: Global, model: &ModelNames<'_>, event: &PlacedWord) -> Mem<NamedSentence>
    ensures { IfOk result (λ named. named ≡ OfSets (said.Without (unwrap_or (event_named model.now (folded event.now.text)) 0))) }
{
    let name = fold(alloc, event.text.items())?;
    let number = model.event(name.items()).unwrap_or(0);
    Ok(NamedSentence::OfSets(SetSentence::Without(number)))
}

fn probability_again(alloc: Global, most: &PlacedWord, hours: &PlacedWord) -> Mem<NamedSentence>
    ensures { IfOk result (λ named. named ≡ ProbabilityOf most.now hours.now) }
{
    Ok(NamedSentence::Probability(word_again(alloc, most)?, word_again(alloc, hours)?))
}

/// The sets of events that these words name.
fn sets_of_words(
    alloc: Global,
    model: &ModelNames<'_>,
    tokens: &[PlacedWord],
) -> Mem<List<List<u32>>>
    ensures { IfOk result (λ sets. sets ≡ map (set_of_word model.now) tokens.now) }
{
    let mut sets = List::new(alloc);
    for token in tokens {
        sets.push(set_of_word(alloc, model, token)?)?;
    }
    Ok(sets)
}

/// The set of events that a word names; the empty set where it names none.
fn set_of_word(alloc: Global, model: &ModelNames<'_>, token: &PlacedWord) -> Mem<List<u32>>
    ensures { IfOk result (λ set. set ≡ set_of_word model.now token.now) }
{
    let text = fold(alloc, token.text.items())?;
    match set_named(alloc, model, text.items())? {
        Some(set) => Ok(set),
        None => Ok(List::new(alloc)),
    }
}

/// The events of the group of a name; none where there is no such group.
fn events_named(
    alloc: Global,
    groups: &NameTable<'_>,
    sets: &[List<u32>],
    name: &[u8],
) -> Mem<List<u32>>
    ensures { IfOk result (λ events. events ≡ events_named groups.now sets.now name.now) }
{
    let Some(number) = groups.place(name) else {
        return Ok(List::new(alloc));
    };
    match sets.get(number as usize) {
        Some(set) => numbers_again(alloc, set.items()),
        None => Ok(List::new(alloc)),
    }
}

fn numbers_again(alloc: Global, numbers: &[u32]) -> Mem<List<u32>>
    ensures { IfOk result (λ again. again ≡ numbers.now) }
{
    List::of(Vec::from_slice(alloc, numbers)?)
}

/// The word again.
fn word_again(alloc: Global, word: &PlacedWord) -> Mem<PlacedWord>
    ensures { IfOk result (λ again. again ≡ word.now) }
{
    Ok(PlacedWord {
        text: copied(alloc, word.text.items())?,
        at: word.at,
    })
}
