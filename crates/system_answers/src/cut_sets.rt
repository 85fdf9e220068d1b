//! A page of the minimal cut sets of a target.

ghost use Rattle.std.specs.Prelude.{◌≡◌, ◌<◌, ℕ, List as Items, Contains, IfOk, IfSome, IsTrue, Some, length, option_map};
ghost use Rattle.phases.specs.Phases.{Passes};
ghost use Rattle.phases.specs.inner.Meets.{Meets};
ghost use Rattle.fault_system.specs.CutSets.{IsEventSet};
ghost use Rattle.fault_system.specs.Listings.{IsListing};
ghost use Rattle.backward_slice.specs.Slices.{IsSlice};
ghost use Rattle.zdd_store.specs.inner.Family.{is_within};
ghost use Rattle.zdd_store.specs.inner.Store.{IsIn, family_of};
ghost use Rattle.cutset_engine.specs.inner.Families.{HasMinimalCutSets};
ghost use Rattle.cutset_lister.specs.inner.Walks.{all_sets};
ghost use Rattle.cutset_writer.specs.inner.Pages.{IsReady};
ghost use Rattle.cutset_lister.specs.inner.SetText.{HasTokenNames};
ghost use Rattle.system_answers.specs.inner.Fronts.{GivesPage};
ghost use Rattle.system_answers.specs.Texts.{begin_of, named_key, page_in, page_of, slice_of, start_of};

use crate::fronts::page_family;
use backward_slice::{Slice, slice};
use cutset_engine::{Asked, family, in_slice};
use cutset_lister::read_token;
use cutset_writer::{Bookmark, ListingPage, PageWriter, SetForm};
use dependency_blocks::blocks;
use fault_system::FaultSystem;
use fta_words::Paging;
use page_tokens::read_page_token;
use phases::Status;
use plain_values::{List, Mem};
use std::alloc::Global;
use zdd_store::{Id, Store};

/// The set after which a page begins, where a text of it is given.
pub fn find_start(
    alloc: Global,
    system: &FaultSystem,
    paging: &Paging,
) -> Result<Option<List<u32>>, Status>
    requires { HasTokenNames system.now }
    ensures { Meets (start_of paging.now.after system.now) result }
{
    match &paging.after {
        Some(text) => Ok(Some(read_token(alloc, system, text.items())?)),
        None => Ok(None),
    }
}

/// The set behind which a page begins by a token, where one is given; none where it begins before all sets. These are the digits of
/// the key of what it is asked of.
pub fn find_begin(
    alloc: Global,
    system: &FaultSystem,
    paging: &Paging,
    key: &[u8; 64],
) -> Result<Option<List<u32>>, Status>
    requires { HasTokenNames system.now }
    ensures { Meets (begin_of key.now paging.now.after system.now) result }
{
    match &paging.after {
        Some(text) => read_page_token(alloc, system, key, text.items()),
        None => Ok(None),
    }
}

/// The slice of a target; it is refused where it has too many facts or events.
pub fn find_slice(alloc: Global, system: &FaultSystem, target: u32) -> Result<Slice, Status>
    requires { target < length system.now.facts }
    ensures { Meets (slice_of target system.now) result }
{
    let part = slice(alloc, system, target)?;
    Ok(part)
}

/// The digits that the last line of a page names, where it is to have a token.
pub fn named_key(tokens: bool, key: &[u8; 64]) -> Option<&[u8; 64]>
    ensures { option_map (λ digits. digits.now) result ≡ named_key tokens key.now }
{
    if tokens { Some(key) } else { None }
}

/// The page of the listing of the target of a slice; where the digits of a key are given, with a token in the last line.
pub fn page(
    alloc: Global,
    system: FaultSystem,
    part: &Slice,
    start: Option<List<u32>>,
    paging: &Paging,
    key: Option<&[u8; 64]>,
) -> Mem<ListingPage>
    requires slice { IsSlice system part.now.target part.now }
    requires start { IfSome start (IsEventSet system) }
    ensures { IfOk result (Passes (page_of part.now.target start paging.now (option_map (λ digits. digits.now) key.entry) system)) }
{
    match key {
        Some(digits) => marked_page(alloc, system, part, start, paging, digits),
        None => page_in(alloc, system, part, SetForm::Token, start, paging),
    }
}

/// The page of the listing of the target of a slice, with a token in the last line.
fn marked_page(
    alloc: Global,
    system: FaultSystem,
    part: &Slice,
    start: Option<List<u32>>,
    paging: &Paging,
    key: &[u8; 64],
) -> Mem<ListingPage>
    requires slice { IsSlice system part.now.target part.now }
    requires start { IfSome start (IsEventSet system) }
    ensures { IfOk result (Passes (page_of part.now.target start paging.now (Some key.now) system)) }
{
    let mut store = Store::new(alloc);
    let writer = limited_writer(alloc, &system, part, &start, paging, &mut store)?;
    let bookmark = Bookmark::new(alloc, &system, key)?;
    Ok(ListingPage::marked(system, store, writer, bookmark, start, paging.limit))
}

/// A page of the listing of the target of a slice, whose sets stand in this form.
pub fn page_in(
    alloc: Global,
    system: FaultSystem,
    part: &Slice,
    form: SetForm,
    start: Option<List<u32>>,
    paging: &Paging,
) -> Mem<ListingPage>
    requires { IsSlice system part.now.target part.now }
    ensures { IfOk result (Passes (page_in form part.now.target start paging.now.limit paging.now.max_order system)) }
{
    let mut store = Store::new(alloc);
    let writer = limited_writer(alloc, &system, part, &start, paging, &mut store)?;
    Ok(ListingPage::new(system, store, writer, form, start, paging.limit))
}

/// A listing whose page is that of the listing of the target of a slice, about to be written: where a limit is given, it may have the
/// first sets alone.
fn limited_writer(
    alloc: Global,
    system: &FaultSystem,
    part: &Slice,
    start: &Option<List<u32>>,
    paging: &Paging,
    store: &mut Store,
) -> Mem<PageWriter>
    requires { IsSlice system.now part.now.target part.now }
    ensures ready { IfOk result (IsReady system.now store.new) }
    ensures page { IfOk result (λ writer. GivesPage system.now part.now.target paging.now.max_order start.now paging.now.limit (all_sets store.new writer.listing)) }
{
    in_slice();
    let found = blocks(alloc, system, part)?;
    let asked = Asked {
        system,
        slice: part,
        blocks: &found,
        most: paging.max_order,
    };
    let sets = page_family(alloc, &asked, start, paging.limit, store)?;
    PageWriter::start(alloc, system, store, sets, part.events.items())
}

/// The minimal cut sets of the target of a slice, as a family.
pub fn cut_family(
    alloc: Global,
    system: &FaultSystem,
    part: &Slice,
    max_order: Option<u32>,
    store: &mut Store,
) -> Mem<Id>
    requires { IsSlice system.now part.now.target part.now }
    ensures found { IfOk result (IsIn store.new) }
    ensures exact { IfOk result (λ id. HasMinimalCutSets system.now part.now.target max_order (family_of store.new id)) }
    ensures among { IfOk result (λ id. (set : Items ℕ) → Contains (family_of store.new id) set → IsTrue (is_within set part.now.events)) }
{
    in_slice();
    let found = blocks(alloc, system, part)?;
    let asked = Asked {
        system,
        slice: part,
        blocks: &found,
        most: max_order,
    };
    family(alloc, &asked, store)
}

/// The listing of the target of a slice, about to be written.
pub fn page_writer(
    alloc: Global,
    system: &FaultSystem,
    part: &Slice,
    max_order: Option<u32>,
    store: &mut Store,
) -> Mem<PageWriter>
    requires { IsSlice system.now part.now.target part.now }
    ensures ready { IfOk result (IsReady system.now store.new) }
    ensures listing { IfOk result (λ writer. IsListing system.now part.now.target max_order (all_sets store.new writer.listing)) }
{
    let sets = cut_family(alloc, system, part, max_order, store)?;
    PageWriter::start(alloc, system, store, sets, part.events.items())
}
