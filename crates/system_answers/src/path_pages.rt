//! A page of the minimal path sets of a target.

ghost use Rattle.std.specs.Prelude.{◌<◌, IfErr, IfOk, OnOk, length};
ghost use Rattle.phases.specs.inner.Meets.{IsMemory, Meets, StopsBut};
ghost use Rattle.phases.specs.Phases.{tests};
ghost use Rattle.plain_values.specs.Order.{IsClear};
ghost use Rattle.backward_slice.specs.Slices.{IsServed, IsSlice};
ghost use Rattle.backward_slice.specs.declared.parts.Slice.{Slice as Part};
ghost use Rattle.cutset_lister.specs.inner.Walks.{all_sets};
ghost use Rattle.cutset_writer.specs.inner.Pages.{IsReady};
ghost use Rattle.galileo_writer.specs.inner.TreeText.{HasTextNames};
ghost use Rattle.path_sets.specs.Duals.{dual_of};
ghost use Rattle.path_sets.specs.inner.Duals.{IsWithoutFeedback};
ghost use Rattle.path_sets.specs.PathSets.{HasLargePaths, IsPathListing};
ghost use Rattle.system_answers.specs.Texts.{dual_page, path_page, slice_of};

use backward_slice::Slice;
use cutset_writer::{ListingPage, PageWriter, SetForm};
use fault_system::FaultSystem;
use fta_words::Paging;
use path_sets::{paths, target_paths};
use phases::Status;
use plain_values::List;
use std::alloc::Global;
use zdd_store::Store;

/// The page of the minimal path sets of the target of a slice.
pub fn path_page(
    alloc: Global,
    system: FaultSystem,
    part: &Slice,
    start: Option<List<u32>>,
    paging: &Paging,
) -> Result<ListingPage, Status>
    requires slice { IsSlice system part.now.target part.now }
    requires names { HasTextNames system }
    ensures { Meets (path_page part.now.target start paging.now system) result }
{
    let mut store = Store::new(alloc);
    let writer = path_writer(alloc, &system, part, paging.max_order, &mut store)?;
    Ok(ListingPage::new(system, store, writer, SetForm::Token, start, paging.limit))
}

/// The listing of the minimal path sets of the target of a slice, about to be written.
fn path_writer(
    alloc: Global,
    system: &FaultSystem,
    part: &Slice,
    max_order: Option<u32>,
    store: &mut Store,
) -> Result<PageWriter, Status>
    requires slice { IsSlice system.now part.now.target part.now }
    requires names { HasTextNames system.now }
    ensures ready { IfOk result (IsReady system.now store.new) }
    ensures listing { IfOk result (λ writer. IsPathListing system.now part.now.target max_order (all_sets store.new writer.listing)) }
    ensures clear { OnOk result (IsClear (HasLargePaths system.now part.now.target)) }
    ensures refused { IfErr result (StopsBut IsMemory (tests (HasLargePaths system.now part.now.target))) }
{
    let _facts = system.facts();
    let found = target_paths(alloc, system, part, max_order, store)?;
    let writer = PageWriter::start(alloc, system, store, found.family, found.events.items())?;
    Ok(writer)
}

/// The page of the minimal path sets of a target, in quotes, in a system in which no fact reaches itself.
pub fn dual_page(
    alloc: Global,
    system: FaultSystem,
    target: u32,
    limit: Option<u32>,
    max_order: Option<u32>,
) -> Result<ListingPage, Status>
    requires target { target < length system.facts }
    requires free { IsWithoutFeedback system }
    ensures { Meets (dual_page target limit max_order system) result }
{
    let mut store = Store::new(alloc);
    let writer = dual_writer(alloc, &system, target, max_order, &mut store)?;
    Ok(ListingPage::new(system, store, writer, SetForm::Quoted, None, limit))
}

/// The listing of the minimal path sets of a target in a system in which no fact reaches itself, about to be written.
fn dual_writer(
    alloc: Global,
    system: &FaultSystem,
    target: u32,
    max_order: Option<u32>,
    store: &mut Store,
) -> Result<PageWriter, Status>
    requires target { target < length system.now.facts }
    requires free { IsWithoutFeedback system.now }
    ensures ready { IfOk result (IsReady system.now store.new) }
    ensures listing { IfOk result (λ writer. IsPathListing system.now target max_order (all_sets store.new writer.listing)) }
    ensures served { OnOk result ((part : Part) × IsServed (dual_of system.now) target part) }
    ensures refused { IfErr result (StopsBut IsMemory (slice_of target (dual_of system.now))) }
{
    let found = paths(alloc, system, target, max_order, store)?;
    let writer = PageWriter::start(alloc, system, store, found.family, found.events.items())?;
    Ok(writer)
}
