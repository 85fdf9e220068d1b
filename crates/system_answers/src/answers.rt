//! The texts of answers on a system.

ghost use Rattle.std.specs.Prelude.{vec_len};
ghost use Rattle.phases.specs.inner.Meets.{IsMemory, Meets, MeetsBut};
ghost use Rattle.plain_values.specs.Rising.{RisesWithin};
ghost use Rattle.cutset_lister.specs.inner.SetText.{HasTokenNames};
ghost use Rattle.galileo_writer.specs.inner.TreeText.{AreRates, HasTextNames};
ghost use Rattle.cut_reports.specs.Feeding.{IsKept, RoseAt};
ghost use Rattle.cut_reports.specs.Places.{AtChosen};
ghost use Rattle.system_answers.specs.inner.Ends.{EndsReports};
ghost use Rattle.system_answers.specs.inner.Forms.{tree_bytes};
ghost use Rattle.system_answers.specs.Texts.{cuts_text, paths_text, report_text, tree_text};
ghost use Rattle.system_answers.specs.Voices.{voices_of};

use crate::cut_sets::{find_begin, find_slice, find_start, named_key, page};
use crate::form::{TreeForm, TreeText};
use crate::path_pages::path_page;
use crate::reports::text_of_reports;
use crate::target::find_target;
use crate::trees::formed;
use cutset_writer::ListingPage;
use fault_system::FaultSystem;
use fta_outside::Report;
use fta_words::Paging;
use phases::Status;
use plain_values::{List, Name};
use property_reader::Rate;
use std::alloc::Global;

/// A page of the listing of a target in a system, perhaps with a token in the last line, where these are the digits of the key of what
/// it is asked of.
pub fn cuts(
    alloc: Global,
    system: FaultSystem,
    target: &Name,
    paging: &Paging,
    tokens: bool,
    key: &[u8; 64],
) -> Result<ListingPage, Status>
    requires { HasTokenNames system }
    ensures { Meets (cuts_text target.now paging.now tokens key.now system) result }
{
    let number = find_target(&system, target)?;
    let start = find_begin(alloc, &system, paging, key)?;
    let part = find_slice(alloc, &system, number)?;
    let digits = named_key(tokens, key);
    Ok(page(alloc, system, &part, start, paging, digits)?)
}

/// A page of the minimal path sets of a target in a system.
pub fn paths(
    alloc: Global,
    system: FaultSystem,
    target: &Name,
    paging: &Paging,
) -> Result<ListingPage, Status>
    requires tokens { HasTokenNames system }
    requires names { HasTextNames system }
    ensures { Meets (paths_text target.now paging.now system) result }
{
    let number = find_target(&system, target)?;
    let start = find_start(alloc, &system, paging)?;
    let part = find_slice(alloc, &system, number)?;
    path_page(alloc, system, &part, start, paging)
}

/// The tree of a target in a system, in which the events have these rates, in a form.
pub fn tree(
    alloc: Global,
    system: FaultSystem,
    rates: List<Rate>,
    target: &Name,
    form: TreeForm,
) -> Result<TreeText, Status>
    requires names { HasTextNames system }
    requires rates { AreRates system rates }
    ensures { MeetsBut IsMemory tree_bytes (tree_text target.now form system rates) result }
{
    let number = find_target(&system, target)?;
    let part = find_slice(alloc, &system, number)?;
    formed(alloc, system, rates, &part, form)
}

/// What the chosen reports say of the listing of a target in a system.
pub fn report(
    alloc: Global,
    system: &FaultSystem,
    target: &Name,
    chosen: &[u32],
    max_order: Option<u32>,
    reports: &mut Vec<Box<dyn Report>>,
) -> Result<Vec<u8>, Status>
    requires { RisesWithin 0 (vec_len reports.old) chosen.now }
    ensures text { let phase = report_text target.now chosen.now max_order (voices_of label text reports.old.items) system.now in MeetsBut (EndsReports chosen.now (λ place. RoseAt report_faults place reports.old.items reports.new.items) phase) (λ made. made.items) phase result }
    ensures reports { AtChosen chosen.now (IsKept text label report_faults) reports.old.items reports.new.items }
{
    let number = find_target(system, target)?;
    let part = find_slice(alloc, system, number)?;
    text_of_reports(alloc, system, &part, chosen, max_order, reports)
}
