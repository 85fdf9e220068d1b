//! The review of a model.

ghost use Rattle.std.specs.Prelude.{IfOk, length};
ghost use Rattle.plain_values.specs.Rising.{RisesWithin};
ghost use Rattle.fact_formulas.specs.Flat.{system_of};
ghost use Rattle.fact_formulas.specs.Numbered.{numbered_of};
ghost use Rattle.fact_formulas.specs.inner.Models.{IsSystemOf};
ghost use Rattle.model_review.specs.inner.Review.{IsReview, Reviews};
ghost use Rattle.model_review.specs.inner.Joined.{HasNoHiddenLine, joined_by};
ghost use Rattle.system_review.specs.inner.Alone.{HoldTheSame};

use crate::finding::Finding;
use crate::lines::lines_of;
use crate::list::findings;
use crate::view::View;
use fact_formulas::NumberedModel;
use model_facts::Assembly;
use plain_values::{List, Mem, Name};
use std::alloc::Global;
use system_review::{always_facts, possible_facts, used_facts};

/// What a review tells of a model, in the order of docs/REVIEW_FINDINGS.md, and the line of each, without its end.
#[derive(Drop)]
pub struct Reviewed {
    pub findings: List<Finding>,
    pub lines: List<Name>,
}

/// The review of a model that is put together, with its facts and events and its system. Where it has no line on what is hidden, nothing is
/// lost to the order of conditions, flows and links.
pub fn review(alloc: Global, assembly: &Assembly, model: &NumberedModel) -> Mem<Reviewed>
    requires { IsSystemOf assembly.now model.now }
    ensures exact { IfOk result (IsReview assembly.now) }
    ensures nothing_lost { IfOk result (λ reviewed. HasNoHiddenLine reviewed.lines → HoldTheSame (system_of assembly.now) (joined_by (numbered_of assembly.now))) }
{
    let possible = possible_facts(alloc, &model.system)?;
    let always = always_facts(alloc, &model.system)?;
    let used = used_facts(alloc, &model.system)?;
    let view = View::new(assembly, model, &possible, &always, &used);
    review_seen(alloc, &view)
}

fn review_seen(alloc: Global, view: &View) -> Mem<Reviewed>
    requires { RisesWithin 0 (length view.now.system.facts) view.now.effects }
    ensures { IfOk result (Reviews view.now) }
{
    let findings = findings(alloc, view)?;
    let lines = lines_of(alloc, view, findings.items())?;
    Ok(Reviewed { findings, lines })
}
