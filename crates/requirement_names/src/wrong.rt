//! The words that name nothing.

ghost use Rattle.std.specs.Prelude.{◌≡◌, ◌++◌, OnOk, is_some, not};
ghost use Rattle.std.specs.List.{flat_map};
ghost use Rattle.plain_values.specs.Name.{folded};
ghost use Rattle.requirement_names.specs.Names.{event_named, fact_named, place_of};
ghost use Rattle.requirement_names.specs.Sets.{set_named};
ghost use Rattle.requirement_names.specs.Wrong.{noting, wrong_event, wrong_group, wrong_in, wrong_member, wrong_members, wrong_target, wrong_token, wrong_words};

use crate::first::FirstWrong;
use crate::groups::is_of_model;
use crate::mistake::Mistake;
use crate::model::ModelNames;
use crate::names::NameTable;
use crate::sets::set_named;
use plain_values::{Mem, fold};
use requirements::{Group, GroupKind, PlacedWord, Requirement, Sentence};
use std::alloc::Global;

/// Notes the members of groups that have no event of the model.
pub(crate) fn note_groups(
    alloc: Global,
    model: &ModelNames<'_>,
    groups: &[Group],
    first: &mut FirstWrong,
) -> Mem<()>
    ensures { OnOk result (first.new ≡ noting first.old (flat_map (wrong_members model.now) groups.now)) }
{
    for group in groups {
        note_members(alloc, model, group.kind, group.members.items(), first)?;
    }
    Ok(())
}

/// Notes the members of a group that have no event of the model.
fn note_members(
    alloc: Global,
    model: &ModelNames<'_>,
    kind: GroupKind,
    members: &[PlacedWord],
    first: &mut FirstWrong,
) -> Mem<()>
    ensures { OnOk result (first.new ≡ noting first.old (flat_map (wrong_member model.now kind) members.now)) }
{
    for member in members {
        note_member(alloc, model, kind, member, first)?;
    }
    Ok(())
}

fn note_member(
    alloc: Global,
    model: &ModelNames<'_>,
    kind: GroupKind,
    member: &PlacedWord,
    first: &mut FirstWrong,
) -> Mem<()>
    ensures { OnOk result (first.new ≡ noting first.old (wrong_member model.now kind member.now)) }
{
    let name = fold(alloc, member.text.items())?;
    let is_there = is_of_model(model, kind, name.items());
    first.note_if(!is_there, Mistake::EmptyGroup, member);
    Ok(())
}

/// Notes what requirements name and is not there, where these are the names of all groups.
pub(crate) fn note_requirements(
    alloc: Global,
    model: &ModelNames<'_>,
    groups: &NameTable<'_>,
    requirements: &[Requirement],
    first: &mut FirstWrong,
) -> Mem<()>
    ensures { OnOk result (first.new ≡ noting first.old (flat_map (wrong_words model.now groups.now) requirements.now)) }
{
    for requirement in requirements {
        note_requirement(alloc, model, groups, requirement, first)?;
    }
    Ok(())
}

fn note_requirement(
    alloc: Global,
    model: &ModelNames<'_>,
    groups: &NameTable<'_>,
    requirement: &Requirement,
    first: &mut FirstWrong,
) -> Mem<()>
    ensures { OnOk result (first.new ≡ noting first.old (wrong_words model.now groups.now requirement.now)) }
{
    note_target(alloc, model, &requirement.target, first)?;
    note_sentence(alloc, model, groups, &requirement.sentence, first)
}

/// Notes a target that is the name of no fact.
fn note_target(
    alloc: Global,
    model: &ModelNames<'_>,
    target: &PlacedWord,
    first: &mut FirstWrong,
) -> Mem<()>
    ensures { OnOk result (first.new ≡ noting first.old (wrong_target model.now target.now)) }
{
    let name = fold(alloc, target.text.items())?;
    let is_there = model.fact(name.items()).is_some();
    first.note_if(!is_there, Mistake::UnknownTarget, target);
    Ok(())
}

/// Notes what is wrong in a sentence.
fn note_sentence(
    alloc: Global,
    model: &ModelNames<'_>,
    groups: &NameTable<'_>,
    sentence: &Sentence,
    first: &mut FirstWrong,
) -> Mem<()>
    ensures { OnOk result (first.new ≡ noting first.old (wrong_in model.now groups.now sentence.now)) }
{
    match sentence {
        Sentence::Order(_, tokens) => note_tokens(alloc, model, tokens.items(), first),
        Sentence::Mixed(group, _) => note_group(alloc, groups, group, first),
        Sentence::Without(event) => note_event(alloc, model, event, first),
        Sentence::Possible | Sentence::Never | Sentence::Probability(_, _) => Ok(()),
    }
}

/// Notes the texts that name no set of events.
fn note_tokens(
    alloc: Global,
    model: &ModelNames<'_>,
    tokens: &[PlacedWord],
    first: &mut FirstWrong,
) -> Mem<()>
    ensures { OnOk result (first.new ≡ noting first.old (flat_map (wrong_token model.now) tokens.now)) }
{
    for token in tokens {
        note_token(alloc, model, token, first)?;
    }
    Ok(())
}

fn note_token(
    alloc: Global,
    model: &ModelNames<'_>,
    token: &PlacedWord,
    first: &mut FirstWrong,
) -> Mem<()>
    ensures { OnOk result (first.new ≡ noting first.old (wrong_token model.now token.now)) }
{
    let text = fold(alloc, token.text.items())?;
    let is_set = set_named(alloc, model, text.items())?.is_some();
    first.note_if(!is_set, Mistake::BadToken, token);
    Ok(())
}

/// Notes a word that names no group.
fn note_group(
    alloc: Global,
    groups: &NameTable<'_>,
    group: &PlacedWord,
    first: &mut FirstWrong,
) -> Mem<()>
    ensures { OnOk result (first.new ≡ noting first.old (wrong_group groups.now group.now)) }
{
    let name = fold(alloc, group.text.items())?;
    let is_there = groups.place(name.items()).is_some();
    first.note_if(!is_there, Mistake::UnknownGroup, group);
    Ok(())
}

/// Notes a word that names no event.
fn note_event(
    alloc: Global,
    model: &ModelNames<'_>,
    event: &PlacedWord,
    first: &mut FirstWrong,
) -> Mem<()>
    ensures { OnOk result (first.new ≡ noting first.old (wrong_event model.now event.now)) }
{
    let name = fold(alloc, event.text.items())?;
    let is_there = model.event(name.items()).is_some();
    first.note_if(!is_there, Mistake::BadToken, event);
    Ok(())
}
