//! The lines of a review with their places.

ghost use Rattle.std.specs.Prelude.{◌≡◌, [], IfOk, map, slice_index_or};
ghost use Rattle.fact_formulas.specs.Flat.{system_of};
ghost use Rattle.fact_formulas.specs.Numbered.{numbered_of};
ghost use Rattle.fact_formulas.specs.inner.Models.{IsSystemOf};
ghost use Rattle.finding_places.specs.Lines.{AreLinesOf, review_line};
ghost use Rattle.finding_places.specs.Spots.{finding_spot};
ghost use Rattle.finding_places.specs.inner.Lines.{HasNoHiddenText};
ghost use Rattle.model_review.specs.Lines.{finding_text};
ghost use Rattle.model_review.specs.Seen.{Seen};
ghost use Rattle.model_review.specs.inner.Joined.{joined_by};
ghost use Rattle.system_review.specs.inner.Alone.{HoldTheSame};

use crate::line::ReviewLine;
use crate::spots::finding_spot;
use event_origins::ModelPlaces;
use fact_formulas::NumberedModel;
use model_facts::Assembly;
use model_review::{Finding, Reviewed, review};
use plain_values::{List, Mem, Name, copied};
use std::alloc::Global;

/// The lines of the review of a model that is put together, with its facts and events and its system, in the order of
/// docs/REVIEW_FINDINGS.md. Where none is on what is hidden, nothing is lost to the order of conditions, flows and links.
pub fn review_lines(
    alloc: Global,
    assembly: &Assembly,
    model: &NumberedModel,
) -> Mem<List<ReviewLine>>
    requires { IsSystemOf assembly.now model.now }
    ensures exact { IfOk result (AreLinesOf assembly.now) }
    ensures nothing_lost { IfOk result (λ lines. HasNoHiddenText lines → HoldTheSame (system_of assembly.now) (joined_by (numbered_of assembly.now))) }
{
    let reviewed = review(alloc, assembly, model)?;
    let places = ModelPlaces::of(alloc, assembly)?;
    placed(alloc, &places, model, &reviewed)
}

/// The lines of a review with their places.
fn placed(
    alloc: Global,
    places: &ModelPlaces,
    model: &NumberedModel,
    reviewed: &Reviewed,
) -> Mem<List<ReviewLine>>
    ensures { (seen : Seen) → seen.numbered ≡ record { assembly = places.now; universe = model.now.universe; facts = model.now.facts; events = model.now.events }
        → reviewed.now.lines ≡ map (finding_text seen) reviewed.now.findings → IfOk result (λ lines. lines ≡ map (review_line seen) reviewed.now.findings) }
{
    let texts = reviewed.lines.items();
    let findings = reviewed.findings.items();
    let mut lines = List::new(alloc);
    for (number, finding) in findings.iter().enumerate() {
        let line = line_of(alloc, places, model, finding, text_at(texts, number))?;
        lines.push(line)?;
    }
    Ok(lines)
}

/// The line of a finding, which has this text, with its place.
fn line_of(
    alloc: Global,
    places: &ModelPlaces,
    model: &NumberedModel,
    finding: &Finding,
    text: &[u8],
) -> Mem<ReviewLine>
    ensures { IfOk result (λ line. line ≡ record { text = text.now; spot = finding_spot (record { assembly = places.now; universe = model.now.universe; facts = model.now.facts; events = model.now.events }) finding.now }) }
{
    let spot = finding_spot(alloc, places, model, finding)?;
    let text = copied(alloc, text)?;
    Ok(ReviewLine { text, spot })
}

/// The text of a number, if there is one.
fn text_at(texts: &[Name], number: usize) -> &[u8]
    ensures { result.now ≡ slice_index_or texts.now number [] }
{
    match texts.get(number) {
        Some(text) => text.items(),
        None => &[],
    }
}
