//! The answer on a request.

ghost use Rattle.std.specs.Prelude.{◌≡◌, ◌≤◌, Err, IfOk, MatchResult, Ok, codes, length, true, vec_len};
ghost use Rattle.phases.specs.Phases.{yields};
ghost use Rattle.phases.specs.inner.Meets.{IsMemory, Meets, MeetsBut};
ghost use Rattle.plain_values.specs.Rising.{RisesWithin};
ghost use Rattle.cut_reports.specs.Feeding.{IsKept, RoseAt};
ghost use Rattle.cut_reports.specs.Places.{AtChosen};
ghost use Rattle.fta_words.specs.inner.Shown.{request_shown};
ghost use Rattle.help_texts.specs.Texts.{explain_text, help_text};
ghost use Rattle.model_phases.specs.Named.{IsPlainModel};
ghost use Rattle.sheet_model.specs.Phase.{sheet_phase};
ghost use Rattle.system_answers.specs.inner.Ends.{EndsReports};
ghost use Rattle.system_answers.specs.Voices.{voices_of};
ghost use Rattle.fta_run.specs.Answers.{is_by_lines};
ghost use Rattle.fta_run.specs.Due.{check_in, compared_in, cuts_in, events_in, first_name, first_text, fmea_in, galileo_in, is_require, made_of_texts, manifest_in, model_of_texts, output_for, paths_in, place_in, probability_in, refusals_in, report_in, required_in, review_in, sets_of_tree, sheet_in, table_in, targets_in, text_by, told_of_tree, tree_in, why_in};
ghost use Rattle.fta_run.specs.inner.Texts.{text_for};
ghost use Rattle.fta_run.specs.Forms.{drawn_words, is_drawn, picture_legend};
ghost use Rattle.fta_run.specs.inner.Ready.{IsByLines, answer_output, held_text, ready_text};
ghost use Rattle.fta_words.specs.Words.{is_set};
ghost use Rattle.system_answers.specs.Texts.{drawn_text, galileo_probability_text};

use crate::compared::compared;
use crate::confirmed::confirmation;
use crate::fmea::table_of;
use crate::forms::{
    drawn_legend, is_drawn, is_exchanged, is_merging, is_wide, profile_of, tree_form,
};
use crate::input::Texts;
use crate::made::make;
use crate::manifest::manifest_text;
use crate::model::model_of_texts;
use crate::ready::{Answer, Held, Ready, ready_of};
use crate::refused::refusals_text;
use crate::required::required;
use crate::sets::set_asked;
use crate::targets::orders_of;
use crate::text::numbers_of;
use cutset_writer::ListingPage;
use event_lines::events_text;
use finding_lines::review_text;
use fmea_sheet::SheetLines;
use fta_outside::Report;
use fta_words::{Form, Kind, Options, Paging, Request};
use help_texts::{explain_text, help_text, version_text};
use model_phases::{EventModel, FlatModel, FromAssembly, ReviewedModel};
use page_tokens::asked_digest;
use phases::Status;
use plain_values::{Name, Root, Word};
use profiles::Profile;
use sheet_model::SheetModel;
use std::alloc::Global;
use system_answers::{ProbabilityForm, draw, tree_probability};
use text_places::place_text;

/// The answer on a request whose files have these texts.
pub fn answer_in(
    alloc: Global,
    asked: &Request,
    texts: Texts,
    reports: &mut Vec<Box<dyn Report>>,
) -> Result<Answer, Status>
    requires chosen { RisesWithin 0 (vec_len reports.old) asked.now.options.chosen }
    ensures text { let voices = voices_of label text reports.old.items in MeetsBut (EndsReports asked.now.options.chosen (λ place. RoseAt report_faults place reports.old.items reports.new.items) (text_for asked.now.kind voices (request_shown asked.now) texts)) answer_output (output_for asked.now.kind voices (request_shown asked.now) texts) result }
    ensures by_lines { IfOk result (λ answer. IsByLines answer.ready → is_by_lines (request_shown asked.now) ≡ true) }
    ensures reports { AtChosen asked.now.options.chosen (IsKept text label report_faults) reports.old.items reports.new.items }
{
    let profile = profile_of(&asked.options.form);
    if is_require(asked.kind) {
        return required_answer(alloc, profile, asked, texts);
    }
    with_all_met(answer_by(alloc, profile, asked, texts, reports))
}

/// Whether a command tells of requirements.
fn is_require(kind: Kind) -> bool
    ensures { result ≡ is_require kind }
{
    matches!(kind, Kind::Require)
}

/// An answer that tells of no requirement.
fn with_all_met(answer: Result<Ready, Status>) -> Result<Answer, Status>
    ensures { MatchResult answer (λ ready. result ≡ Ok (record { ready = ready; met = true })) (λ status. result ≡ Err status) }
{
    match answer {
        Ok(ready) => Ok(Answer { ready, met: true }),
        Err(status) => Err(status),
    }
}

/// What is told of the requirements in the first text.
fn required_answer(
    alloc: Global,
    profile: Profile,
    asked: &Request,
    texts: Texts,
) -> Result<Answer, Status>
    ensures text { MeetsBut IsMemory answer_output (required_in profile asked.now.root (is_set (request_shown asked.now).options (codes "tap")) texts) result }
    ensures by_lines { IfOk result (λ answer. IsByLines answer.ready → ⊥) }
{
    let tap = asked.options.is_set(b"tap");
    let told = required(alloc, profile, &asked.root, tap, texts)?;
    Ok(Answer {
        ready: Ready::Held(Held::Text(told.text)),
        met: told.all_met,
    })
}

/// The answer on a request whose files have these texts, read by a profile.
fn answer_by(
    alloc: Global,
    profile: Profile,
    asked: &Request,
    texts: Texts,
    reports: &mut Vec<Box<dyn Report>>,
) -> Result<Ready, Status>
    requires chosen { RisesWithin 0 (vec_len reports.old) asked.now.options.chosen }
    ensures text { let phase = text_by profile asked.now.kind (voices_of label text reports.old.items) (request_shown asked.now) texts in MeetsBut (EndsReports asked.now.options.chosen (λ place. RoseAt report_faults place reports.old.items reports.new.items) phase) ready_text phase result }
    ensures by_lines { IfOk result (λ ready. IsByLines ready → is_by_lines (request_shown asked.now) ≡ true) }
    ensures reports { AtChosen asked.now.options.chosen (IsKept text label report_faults) reports.old.items reports.new.items }
{
    let (root, target, options) = (&asked.root, &asked.target, &asked.options);
    let max_order = options.paging.max_order;
    let names = asked.files.items();
    match asked.kind {
        Kind::Check => ready_of(check(alloc, profile, root, texts)),
        Kind::Cuts => ready_of(cuts(
            alloc,
            profile,
            root,
            target,
            &options.paging,
            options.is_set(b"tokens"),
            texts,
        )),
        Kind::Tree => tree(alloc, profile, root, target, &options.form, names, texts),
        Kind::Fmea => fmea(alloc, profile, root, options, names, texts),
        Kind::Report => ready_of(report(
            alloc,
            profile,
            root,
            target,
            options.chosen.items(),
            max_order,
            texts,
            reports,
        )),
        Kind::Make => ready_of(make(alloc, asked.number, options.is_set(b"text"))),
        Kind::Galileo => galileo(alloc, options, names, texts),
        Kind::Paths => ready_of(paths(alloc, profile, root, target, &options.paging, texts)),
        Kind::Why => ready_of(why(alloc, profile, root, target, &options.set, texts)),
        Kind::Confirm => ready_of(confirmation(alloc, profile, root, target, &options.set, texts)),
        Kind::Targets => ready_of(targets(alloc, profile, root, options.is_set(b"all"), texts)),
        Kind::Events => ready_of(events(alloc, profile, root, names, texts)),
        Kind::Review => ready_of(review(alloc, profile, root, names, texts)),
        Kind::Place => ready_of(place(alloc, names, asked.number, texts)),
        Kind::Manifest => ready_of(manifest(alloc, profile, root, names, texts)),
        Kind::Refusals => ready_of(refusals(alloc, profile, root, names, texts)),
        Kind::Probability => {
            let form = ProbabilityForm {
                hours: &options.hours,
                events: options.is_set(b"events"),
                max_order,
            };
            ready_of(probability(alloc, profile, root, target, form, texts))
        }
        // It is answered before.
        Kind::Require => Err(Status::Memory),
        Kind::Compare => ready_of(compare(
            alloc,
            profile,
            root,
            target,
            asked.number,
            max_order,
            texts,
        )),
        Kind::Explain => Ok(Ready::Held(explain(target))),
        Kind::Help => ready_of(help(alloc, asked.of)),
        Kind::Version => Ok(Ready::Held(Held::Fixed(version_text()))),
    }
}

/// What is made of the model of a root in files of these texts, which are held no longer.
fn model_in<M: FromAssembly>(
    alloc: Global,
    profile: Profile,
    root: &Root,
    texts: Texts,
) -> Result<M, Status>
    ensures { Meets (made_of_texts M.phase profile root.now texts) result }
{
    model_of_texts(alloc, profile, root, texts.items())
}

/// The model of a root in files of these texts, which are held no longer, as a system.
fn flat_model(
    alloc: Global,
    profile: Profile,
    root: &Root,
    texts: Texts,
) -> Result<FlatModel, Status>
    ensures meets { Meets (model_of_texts profile root.now texts) result }
    ensures plain { IfOk result IsPlainModel }
{
    model_in(alloc, profile, root, texts)
}

/// The numbers of the model of a root.
fn check(alloc: Global, profile: Profile, root: &Root, texts: Texts) -> Result<Held, Status>
    ensures { MeetsBut IsMemory held_text (check_in profile root.now texts) result }
{
    let model = flat_model(alloc, profile, root, texts)?;
    let text = numbers_of(alloc, model.components, &model.system)?;
    Ok(Held::Text(text))
}

/// A page of the listing of a target in the model of a root, perhaps with a token in the last line.
fn cuts(
    alloc: Global,
    profile: Profile,
    root: &Root,
    target: &Name,
    paging: &Paging,
    tokens: bool,
    texts: Texts,
) -> Result<Held, Status>
    ensures { MeetsBut IsMemory held_text (cuts_in profile root.now target.now paging.now tokens texts) result }
{
    let (after, most) = (&paging.after, paging.max_order);
    let key = asked_digest(tokens, after, profile, root, target, most, texts.items());
    let model = flat_model(alloc, profile, root, texts)?;
    let page = system_answers::cuts(alloc, model.system, target, paging, tokens, &key)?;
    Ok(Held::Page(page))
}

/// The tree of a target in the model of a root, in the form for which the words ask, of files of these names.
fn tree(
    alloc: Global,
    profile: Profile,
    root: &Root,
    target: &Name,
    form: &Form,
    names: &[Word],
    texts: Texts,
) -> Result<Ready, Status>
    ensures { MeetsBut IsMemory ready_text (tree_in profile root.now target.now form.now names.now texts) result }
{
    let form = tree_form(alloc, form, profile, root, target, names, &texts)?;
    let model = flat_model(alloc, profile, root, texts)?;
    let text = system_answers::tree(alloc, model.system, model.rates, target, form)?;
    Ok(Ready::Tree(text))
}

/// The FMEA sheet of the model of a root in files of these names, where it is asked for, or else its FMEA table.
fn fmea(
    alloc: Global,
    profile: Profile,
    root: &Root,
    options: &Options,
    names: &[Word],
    texts: Texts,
) -> Result<Ready, Status>
    ensures { MeetsBut IsMemory ready_text (fmea_in (is_set options.now (codes "sheet")) profile root.now (is_set options.now (codes "all")) names.now texts) result }
{
    if options.is_set(b"sheet") {
        return sheet(alloc, profile, root, names, texts);
    }
    table(alloc, profile, root, options.is_set(b"all"), texts)
}

/// The FMEA sheet of the model of a root in files of these names.
fn sheet(
    alloc: Global,
    profile: Profile,
    root: &Root,
    names: &[Word],
    texts: Texts,
) -> Result<Ready, Status>
    ensures { MeetsBut IsMemory ready_text (sheet_in profile root.now names.now texts) result }
{
    let model = sheet_model(alloc, profile, root, &texts)?;
    let lines = SheetLines::new(alloc, names, texts.items(), model)?;
    Ok(Ready::Sheet(lines))
}

/// The model of a root in files of these texts, which are held on, with what a sheet tells of it.
fn sheet_model(
    alloc: Global,
    profile: Profile,
    root: &Root,
    texts: &Texts,
) -> Result<SheetModel, Status>
    ensures meets { Meets (made_of_texts sheet_phase profile root.now texts.now) result }
    ensures plain { IfOk result (λ model. IsPlainModel model.events.flat) }
{
    made_at(alloc, profile, root, texts)
}

/// The FMEA table of the model of a root.
fn table(
    alloc: Global,
    profile: Profile,
    root: &Root,
    all: bool,
    texts: Texts,
) -> Result<Ready, Status>
    ensures { MeetsBut IsMemory ready_text (table_in profile root.now all texts) result }
{
    let model = flat_model(alloc, profile, root, texts)?;
    let lines = table_of(alloc, model, all)?;
    Ok(Ready::Table(lines))
}

/// What the chosen reports say of the listing of a target in the model of a root.
fn report(
    alloc: Global,
    profile: Profile,
    root: &Root,
    target: &Name,
    chosen: &[u32],
    max_order: Option<u32>,
    texts: Texts,
    reports: &mut Vec<Box<dyn Report>>,
) -> Result<Held, Status>
    requires { RisesWithin 0 (vec_len reports.old) chosen.now }
    ensures text { let phase = report_in profile root.now target.now chosen.now max_order (voices_of label text reports.old.items) texts in MeetsBut (EndsReports chosen.now (λ place. RoseAt report_faults place reports.old.items reports.new.items) phase) held_text phase result }
    ensures reports { AtChosen chosen.now (IsKept text label report_faults) reports.old.items reports.new.items }
{
    let model = flat_model(alloc, profile, root, texts)?;
    let system = &model.system;
    let text = system_answers::report(alloc, system, target, chosen, max_order, reports)?;
    Ok(Held::Text(text))
}

/// The tree in the first text in a format, or what else is told of it.
fn galileo(alloc: Global, options: &Options, names: &[Word], texts: Texts) -> Result<Ready, Status>
    ensures text { MeetsBut IsMemory ready_text (galileo_in (is_drawn options.now.form) options.now names.now texts) result }
    ensures by_lines { IfOk result (λ ready. IsByLines ready → is_drawn options.now.form ≡ true) }
{
    if is_drawn(&options.form) {
        let wide = is_wide(&options.form);
        let exchanged = is_exchanged(&options.form);
        let merged = is_merging(&options.form);
        return picture(alloc, wide, exchanged, merged, names, texts);
    }
    ready_of(told_of_tree(alloc, options, texts))
}

/// How probable the top of the tree in the first text is, or a page of its sets.
fn told_of_tree(alloc: Global, options: &Options, texts: Texts) -> Result<Held, Status>
    ensures { MeetsBut IsMemory held_text (told_of_tree (is_set options.now (codes "probability")) options.now (first_text texts)) result }
{
    let wide = is_wide(&options.form);
    if options.is_set(b"probability") {
        let form = ProbabilityForm {
            hours: &options.hours,
            events: options.is_set(b"events"),
            max_order: options.paging.max_order,
        };
        return probability_of_tree(alloc, wide, form, texts);
    }
    let paging = &options.paging;
    let paths = options.is_set(b"paths");
    sets_of_tree(alloc, texts, wide, paging.limit, paging.max_order, paths)
}

/// How probable the top of the tree in the first text is, in so many hours, if they are given; with the importance of each event, where
/// it is asked for.
fn probability_of_tree(
    alloc: Global,
    wide: bool,
    form: ProbabilityForm<'_>,
    texts: Texts,
) -> Result<Held, Status>
    ensures { MeetsBut IsMemory held_text (galileo_probability_text wide form.entry.hours.now form.entry.events form.entry.max_order (first_text texts)) result }
{
    let text = tree_probability(alloc, texts.first(), wide, form)?;
    Ok(Held::Text(text))
}

/// A picture of the tree in the first text, or its text in the Open-PSA Model Exchange Format.
fn picture(
    alloc: Global,
    wide: bool,
    exchanged: bool,
    merged: bool,
    names: &[Word],
    texts: Texts,
) -> Result<Ready, Status>
    ensures { MeetsBut IsMemory ready_text (drawn_text wide exchanged merged (picture_legend (drawn_words merged) names.now texts) (first_text texts)) result }
{
    let legend = drawn_legend(alloc, merged, names, &texts)?;
    let text = draw(alloc, texts.first(), wide, exchanged, merged, legend)?;
    Ok(Ready::Tree(text))
}

/// A page of the minimal path sets of the tree in the first text, or of its minimal cut sets.
fn sets_of_tree(
    alloc: Global,
    texts: Texts,
    wide: bool,
    limit: Option<u32>,
    max_order: Option<u32>,
    paths: bool,
) -> Result<Held, Status>
    ensures { MeetsBut IsMemory held_text (sets_of_tree paths wide limit max_order (first_text texts)) result }
{
    let page = tree_page(alloc, texts.first(), wide, limit, max_order, paths)?;
    Ok(Held::Page(page))
}

/// A page of the minimal path sets of the tree in a Galileo text, or of its minimal cut sets.
fn tree_page(
    alloc: Global,
    text: &[u8],
    wide: bool,
    limit: Option<u32>,
    max_order: Option<u32>,
    paths: bool,
) -> Result<ListingPage, Status>
    requires { length text.now ≤ 4194304 }
    ensures { Meets (sets_of_tree paths wide limit max_order text.now) result }
{
    if paths {
        return system_answers::tree_paths(alloc, text, wide, limit, max_order);
    }
    system_answers::tree_sets(alloc, text, wide, limit, max_order)
}

/// A page of the minimal path sets of a target in the model of a root.
fn paths(
    alloc: Global,
    profile: Profile,
    root: &Root,
    target: &Name,
    paging: &Paging,
    texts: Texts,
) -> Result<Held, Status>
    ensures { MeetsBut IsMemory held_text (paths_in profile root.now target.now paging.now texts) result }
{
    let model = flat_model(alloc, profile, root, texts)?;
    let page = system_answers::paths(alloc, model.system, target, paging)?;
    Ok(Held::Page(page))
}

/// Why a target holds under a set of events in the model of a root.
fn why(
    alloc: Global,
    profile: Profile,
    root: &Root,
    target: &Name,
    set: &Name,
    texts: Texts,
) -> Result<Held, Status>
    ensures { MeetsBut IsMemory held_text (why_in profile root.now target.now set.now texts) result }
{
    let model = flat_model(alloc, profile, root, texts)?;
    let set = set_asked(alloc, profile, set, &model.system)?;
    let text = system_answers::why(alloc, &model.system, target, &set)?;
    Ok(Held::Text(text))
}

/// What changed from the model of the root in the older files, of which there are so many, to that in the newer ones.
fn compare(
    alloc: Global,
    profile: Profile,
    root: &Root,
    target: &Name,
    count: u32,
    max_order: Option<u32>,
    texts: Texts,
) -> Result<Held, Status>
    ensures { MeetsBut IsMemory held_text (compared_in profile root.now target.now count max_order texts) result }
{
    let text = compared(alloc, profile, root, target, count, max_order, texts)?;
    Ok(Held::Text(text))
}

/// What it takes to make each target of the model of a root hold: each effect of the root, or each fact.
fn targets(
    alloc: Global,
    profile: Profile,
    root: &Root,
    all: bool,
    texts: Texts,
) -> Result<Held, Status>
    ensures { MeetsBut IsMemory held_text (targets_in profile root.now all texts) result }
{
    let model = flat_model(alloc, profile, root, texts)?;
    let text = orders_of(alloc, &model, all)?;
    Ok(Held::Text(text))
}

/// Each event of the model of a root in files of these names, with its kind, its rate, and where it is declared.
fn events(
    alloc: Global,
    profile: Profile,
    root: &Root,
    names: &[Word],
    texts: Texts,
) -> Result<Held, Status>
    ensures { MeetsBut IsMemory held_text (events_in profile root.now names.now texts) result }
{
    let model: EventModel = model_in(alloc, profile, root, texts)?;
    let text = events_text(alloc, names, &model)?;
    Ok(Held::Text(text))
}

/// What the model of a root in files of these names leaves without effect, and where its errors stop, each with its place.
fn review(
    alloc: Global,
    profile: Profile,
    root: &Root,
    names: &[Word],
    texts: Texts,
) -> Result<Held, Status>
    ensures { MeetsBut IsMemory held_text (review_in profile root.now names.now texts) result }
{
    let reviewed: ReviewedModel = made_at(alloc, profile, root, &texts)?;
    let text = review_text(alloc, names, texts.items(), &reviewed.lines)?;
    Ok(Held::Text(text))
}

/// Of which program and of which files of these names a result on the model of a root is.
fn manifest(
    alloc: Global,
    profile: Profile,
    root: &Root,
    names: &[Word],
    texts: Texts,
) -> Result<Held, Status>
    ensures { MeetsBut IsMemory held_text (manifest_in profile root.now names.now texts) result }
{
    let model = model_at(alloc, profile, root, &texts)?;
    let text = manifest_text(alloc, profile, root, names, texts.items(), &model)?;
    Ok(Held::Text(text))
}

/// What is refused of the model of a root.
fn refusals(
    alloc: Global,
    profile: Profile,
    root: &Root,
    names: &[Word],
    texts: Texts,
) -> Result<Held, Status>
    ensures { MeetsBut IsMemory held_text (refusals_in profile root.now names.now texts) result }
{
    let text = refusals_text(alloc, profile, root, names, texts.items())?;
    Ok(Held::Text(text))
}

/// How probable a target is at least and at most in the model of a root, in so many hours, if they are given; with the importance of
/// each event, where it is asked for.
fn probability(
    alloc: Global,
    profile: Profile,
    root: &Root,
    target: &Name,
    form: ProbabilityForm<'_>,
    texts: Texts,
) -> Result<Held, Status>
    ensures { MeetsBut IsMemory held_text (probability_in profile root.now target.now form.entry.hours.now form.entry.events form.entry.max_order texts) result }
{
    let model = flat_model(alloc, profile, root, texts)?;
    let (system, rates) = (&model.system, model.rates.items());
    let text = system_answers::probability(alloc, system, rates, target, form)?;
    Ok(Held::Text(text))
}

/// What is made of the model of a root in files of these texts, which are held on.
fn made_at<M: FromAssembly>(
    alloc: Global,
    profile: Profile,
    root: &Root,
    texts: &Texts,
) -> Result<M, Status>
    ensures { Meets (made_of_texts M.phase profile root.now texts.now) result }
{
    model_of_texts(alloc, profile, root, texts.items())
}

/// The model of a root in files of these texts, which are held on, as a system.
fn model_at(
    alloc: Global,
    profile: Profile,
    root: &Root,
    texts: &Texts,
) -> Result<FlatModel, Status>
    ensures { Meets (model_of_texts profile root.now texts.now) result }
{
    model_of_texts(alloc, profile, root, texts.items())
}

/// Where a byte stands in the text of the first file.
fn place(alloc: Global, names: &[Word], byte: u32, texts: Texts) -> Result<Held, Status>
    ensures { MeetsBut IsMemory held_text (place_in names.now byte texts) result }
{
    let text = place_text(alloc, first_name(names), texts.first(), byte)?;
    Ok(Held::Text(text))
}

/// The first name of files.
fn first_name(names: &[Word]) -> &[u8]
    ensures { result.now ≡ first_name names.now }
{
    match names.first() {
        Some(name) => name.items(),
        None => &[],
    }
}

/// What is said of the refusal whose code has this name.
fn explain(code: &Name) -> Held
    ensures { held_text result ≡ explain_text code.now }
{
    Held::Fixed(explain_text(code.items()))
}

/// What the tool does, or a command of it.
fn help(alloc: Global, of: Option<Kind>) -> Result<Held, Status>
    ensures { MeetsBut IsMemory held_text (yields (help_text of)) result }
{
    let text = help_text(alloc, of)?;
    Ok(Held::Text(text))
}
