//! The lines that tell verdicts.

ghost use Rattle.std.specs.Prelude.{◌≡◌, ◌++◌, IfOk, OnOk, codes, decimal, filter, length};
ghost use Rattle.std.specs.List.{flat_map};
ghost use Rattle.cutset_lister.specs.SetText.{set_text};
ghost use Rattle.requirement_lines.specs.Rulings.{are_met, is_broken, is_met, is_vacuous};
ghost use Rattle.requirement_lines.specs.Lines.{count_of, end_line, plain_text, reason_text, unrated_text, verdict_bound, verdict_line, verdict_set, verdict_word, verdicts_text};

use crate::judgement::Judgement;
use crate::ruling::{Mark, Ruling, is_broken, is_met, is_vacuous, mark_of};
use crate::tap::push_tap;
use crate::told::LineForm;
use cutset_lister::write_token;
use fault_system::FaultSystem;
use itoa::Buffer;
use plain_values::Mem;
use probability_verdicts::ProbabilityVerdict;
use requirement_verdicts::Verdict;
use std::alloc::Global;

/// The text that tells verdicts: a line for each requirement, in their order, and a last line with how many are met, broken and vacuous; or
/// the same as TAP 13.
pub fn verdicts_text(
    alloc: Global,
    system: &FaultSystem,
    judgements: &[Judgement],
    form: LineForm,
) -> Mem<Vec<u8>>
    ensures { IfOk result (λ text. text.items ≡ verdicts_text form system.now judgements.now) }
{
    let mut text = Vec::new(alloc);
    match form {
        LineForm::Plain => push_plain(&mut text, system, judgements)?,
        LineForm::Tap => push_tap(alloc, &mut text, system, judgements)?,
    }
    Ok(text)
}

/// Adds the lines and the last one.
fn push_plain(text: &mut Vec<u8>, system: &FaultSystem, judgements: &[Judgement]) -> Mem<()>
    ensures { OnOk result (text.new.items ≡ text.old.items ++ plain_text system.now judgements.now) }
{
    push_lines(text, system, judgements)?;
    push_end(text, judgements)
}

/// Adds the lines of requirements.
fn push_lines(text: &mut Vec<u8>, system: &FaultSystem, judgements: &[Judgement]) -> Mem<()>
    ensures { OnOk result (text.new.items ≡ text.old.items ++ flat_map (verdict_line system.now) judgements.now) }
{
    for judgement in judgements {
        push_line(text, system, judgement)?;
    }
    Ok(())
}

/// Adds the line of a requirement.
fn push_line(text: &mut Vec<u8>, system: &FaultSystem, judgement: &Judgement) -> Mem<()>
    ensures { OnOk result (text.new.items ≡ text.old.items ++ verdict_line system.now judgement.now) }
{
    text.extend_from_slice(verdict_word(mark_of(&judgement.ruling)))?;
    text.extend_from_slice(judgement.name.items())?;
    push_reason(text, system, &judgement.ruling)?;
    text.push(b'\n')?;
    Ok(())
}

/// The word with which the line of a requirement begins.
fn verdict_word(mark: Mark) -> &'static [u8]
    ensures { result.now ≡ verdict_word mark }
{
    match mark {
        Mark::Met => b"met ",
        Mark::Broken => b"broken ",
        Mark::Vacuous => b"vacuous ",
    }
}

/// Adds what breaks a requirement.
pub(crate) fn push_reason(text: &mut Vec<u8>, system: &FaultSystem, ruling: &Ruling) -> Mem<()>
    ensures { OnOk result (text.new.items ≡ text.old.items ++ reason_text system.now ruling.now) }
{
    match ruling {
        Ruling::OfSets(verdict) => push_set(text, system, verdict),
        Ruling::OfProbability(verdict) => push_bound(text, system, verdict),
    }
}

/// Adds the set that breaks a requirement, or its exception that is stale.
fn push_set(text: &mut Vec<u8>, system: &FaultSystem, verdict: &Verdict) -> Mem<()>
    ensures { OnOk result (text.new.items ≡ text.old.items ++ verdict_set system.now verdict.now) }
{
    match verdict {
        Verdict::Met => Ok(()),
        Verdict::Vacuous => Ok(()),
        Verdict::Broken(set) => push_token(text, b" ", system, set.items()),
        Verdict::Stale(set) => push_token(text, b" except ", system, set.items()),
    }
}

/// Adds the upper bound of a probability that is not as small, or that there is none.
fn push_bound(text: &mut Vec<u8>, system: &FaultSystem, verdict: &ProbabilityVerdict) -> Mem<()>
    ensures { OnOk result (text.new.items ≡ text.old.items ++ verdict_bound system.now verdict.now) }
{
    match verdict {
        ProbabilityVerdict::Met => Ok(()),
        ProbabilityVerdict::Vacuous => Ok(()),
        ProbabilityVerdict::Anyway => push_word(text, b" none"),
        ProbabilityVerdict::Above(bound, event) => push_above(text, system, bound.items(), *event),
        ProbabilityVerdict::Large => push_word(text, b" large"),
    }
}

/// Adds the upper bound of a probability, and an event without one, if there is one.
fn push_above(text: &mut Vec<u8>, system: &FaultSystem, bound: &[u8], event: Option<u32>) -> Mem<()>
    ensures { OnOk result (text.new.items ≡ text.old.items ++ (codes " at-most " ++ (bound.now ++ unrated_text system.now event))) }
{
    push_name(text, b" at-most ", bound)?;
    push_unrated(text, system, event)
}

/// Adds an event without a probability, if there is one.
fn push_unrated(text: &mut Vec<u8>, system: &FaultSystem, event: Option<u32>) -> Mem<()>
    ensures { OnOk result (text.new.items ≡ text.old.items ++ unrated_text system.now event) }
{
    match event {
        None => Ok(()),
        Some(event) => push_name(text, b" unrated ", system.event_name(event)),
    }
}

/// Adds a word and a name.
fn push_name(text: &mut Vec<u8>, word: &[u8], name: &[u8]) -> Mem<()>
    ensures { OnOk result (text.new.items ≡ text.old.items ++ (word.now ++ name.now)) }
{
    text.extend_from_slice(word)?;
    push_word(text, name)
}

/// Adds a word.
fn push_word(text: &mut Vec<u8>, word: &[u8]) -> Mem<()>
    ensures { OnOk result (text.new.items ≡ text.old.items ++ word.now) }
{
    text.extend_from_slice(word)?;
    Ok(())
}

/// Adds a word and the text of a set.
fn push_token(text: &mut Vec<u8>, word: &[u8], system: &FaultSystem, set: &[u32]) -> Mem<()>
    ensures { OnOk result (text.new.items ≡ text.old.items ++ (word.now ++ set_text system.now set.now)) }
{
    text.extend_from_slice(word)?;
    write_token(system, set, text)
}

/// Adds the last line.
fn push_end(text: &mut Vec<u8>, judgements: &[Judgement]) -> Mem<()>
    ensures { OnOk result (text.new.items ≡ text.old.items ++ end_line judgements.now) }
{
    push_count(text, b"end met ", count_met(judgements))?;
    push_count(text, b" broken ", count_broken(judgements))?;
    push_count(text, b" vacuous ", count_vacuous(judgements))?;
    text.push(b'\n')?;
    Ok(())
}

/// Adds a word and a number.
pub(crate) fn push_count(text: &mut Vec<u8>, word: &[u8], count: usize) -> Mem<()>
    ensures { OnOk result (text.new.items ≡ text.old.items ++ (word.now ++ decimal count)) }
{
    let mut buffer = Buffer::new();
    text.extend_from_slice(word)?;
    text.extend_from_slice(buffer.format(count).as_bytes())?;
    Ok(())
}

fn count_met(judgements: &[Judgement]) -> usize
    ensures { result ≡ count_of is_met judgements.now }
{
    judgements
        .iter()
        .filter(|judgement| is_met(mark_of(&judgement.ruling)))
        .count()
}

fn count_broken(judgements: &[Judgement]) -> usize
    ensures { result ≡ count_of is_broken judgements.now }
{
    judgements
        .iter()
        .filter(|judgement| is_broken(mark_of(&judgement.ruling)))
        .count()
}

fn count_vacuous(judgements: &[Judgement]) -> usize
    ensures { result ≡ count_of is_vacuous judgements.now }
{
    judgements
        .iter()
        .filter(|judgement| is_vacuous(mark_of(&judgement.ruling)))
        .count()
}

/// Whether each requirement is met.
pub(crate) fn are_met(judgements: &[Judgement]) -> bool
    ensures { result ≡ are_met judgements.now }
{
    judgements
        .iter()
        .all(|judgement| is_met(mark_of(&judgement.ruling)))
}
