ghost use Rattle.std.specs.Prelude.{◌≡◌, ◌<◌, ◌≤◌, ℕ, List as Items, Contains, IfOk, IsTrue, Option as Maybe, Some, option_map, vec_capacity};
ghost use Rattle.fault_system.specs.CutSets.{IsEventSet};
ghost use Rattle.zdd_store.specs.inner.Family.{is_within};
ghost use Rattle.zdd_store.specs.inner.Store.{IsIn, Keeps, family_of};
ghost use Rattle.cutset_lister.specs.inner.Walks.{IsSameListing, IsStarted, all_sets, sets_left};
ghost use Rattle.cutset_writer.specs.inner.Lengths.{most_line};
ghost use Rattle.cutset_writer.specs.inner.Pages.{HasRoom, IsOpenMark, IsReady, Lists, goes_on, has_room, key_of, later, more_text, next_line, next_more, one_less};
ghost use Rattle.cutset_writer.specs.Text.{marked_page, marked_text, more_line};
ghost use Rattle.fta_outside.specs.inner.Outside.{Writes};

use crate::bookmark::{Bookmark, keep_place, write_more};
use crate::form::SetForm;
use crate::lines::{longest_line, put_line};
use cutset_lister::Listing;
use fault_system::FaultSystem;
use fta_outside::{Sink, SinkFailed, Steps, write_all};
use plain_values::Mem;
use std::alloc::{AllocError, Global};
use std::sync::ledger::{Blank, Ledger};
use zdd_store::{Id, Store};

/// A listing that is about to be written, with all the memory that this needs.
#[derive(Drop)]
pub struct PageWriter {
    pub(crate) listing: Listing,
    pub(crate) line: Vec<u8>,
}

impl PageWriter {
    /// Makes ready to write sets of a family. They are sets of events of the system, and among these events.
    pub fn start(
        alloc: Global,
        system: &FaultSystem,
        store: &mut Store,
        family: Id,
        events: &[u32],
    ) -> Mem<PageWriter>
        requires found { IsIn store.old family }
        requires sets { (set : Items ℕ) → Contains (family_of store.old family) set → IsEventSet system.now set }
        requires among { (set : Items ℕ) → Contains (family_of store.old family) set → IsTrue (is_within set events.now) }
        ensures ready { IfOk result (IsReady system.now store.new) }
        ensures lists { IfOk result (λ writer. Lists (family_of store.old family) (all_sets store.new writer.listing)) }
        ensures kept { Keeps store.old store.new }
    {
        let _events = system.events();
        let Some(room) = longest_line(system) else {
            return Err(AllocError);
        };
        let listing = Listing::start(alloc, store, family, events)?;
        let line = Vec::with_capacity(alloc, room)?;
        Ok(PageWriter { listing, line })
    }
}

/// What a page is written from.
#[derive(Clone, Copy)]
pub(crate) struct Source<'a> {
    /// The system whose events the sets have.
    pub(crate) system: &'a FaultSystem,
    /// The store that has the sets.
    pub(crate) store: &'a Store,
    /// How the events of a set stand in its line.
    pub(crate) form: SetForm,
    /// How many sets may stand on the page.
    pub(crate) limit: Option<u32>,
}

/// Writes a page, and counts its steps on a ledger of its own.
pub(crate) fn write_on_ledger<S: Sink, L: Ledger>(
    source: &Source<'_>,
    after: Option<&[u32]>,
    writer: &mut PageWriter,
    mark: &mut Option<Bookmark>,
    sink: &mut S,
    blank: Blank,
) -> Result<(), SinkFailed>
    requires name { blank.name ≡ L.name }
    requires parts { blank.parts ≡ L.parts }
    requires some { 0 < L.parts }
    requires ready { IsReady source.now.system.now source.now.store.now writer.old }
    requires open { IsOpenMark source.now.system.now mark.old }
    requires named { more_text mark.old ≡ more_line (key_of mark.old) source.now.system.now (option_map (λ set. set.now) after) }
    ensures { Writes (marked_page source.now.form source.now.system.now (key_of mark.old) (option_map (λ set. set.now) after.entry) source.now.limit (all_sets source.now.store.now writer.old.listing)) result (S.seen sink.old) (S.seen sink.new) }
{
    let mut steps = Steps::<L>::new(blank);
    if let Some(set) = after {
        writer.listing.seek(source.store, set, &mut steps);
    }
    write_sets(source, writer, mark, sink, &mut steps)
}

/// Writes the sets that are left, as many as the limit lets, and the last line.
fn write_sets<S: Sink, L: Ledger>(
    source: &Source<'_>,
    writer: &mut PageWriter,
    mark: &mut Option<Bookmark>,
    sink: &mut S,
    steps: &mut Steps<L>,
) -> Result<(), SinkFailed>
    requires started { IsStarted source.now.store.now writer.old.listing }
    requires room { HasRoom source.now.system.now (most_line source.now.system.now) (sets_left source.now.store.now writer.old.listing) }
    requires wide { most_line source.now.system.now ≤ vec_capacity writer.old.line }
    requires open { IsOpenMark source.now.system.now mark.old }
    ensures { (last : Maybe (Items ℕ)) → more_text mark.old ≡ more_line (key_of mark.old) source.now.system.now last
        → Writes (marked_text source.now.form source.now.system.now (key_of mark.old) last source.now.limit (sets_left source.now.store.now writer.old.listing)) result (S.seen sink.old) (S.seen sink.new) }
{
    let mut room = source.limit;
    while write_next(source, room, writer, mark, sink, steps)? {
        room = one_less(room);
    }
    Ok(())
}

fn one_less(limit: Option<u32>) -> Option<u32>
    ensures { result ≡ one_less limit }
{
    match limit {
        Some(limit) => Some(limit.saturating_sub(1)),
        None => None,
    }
}

fn has_room(limit: Option<u32>) -> bool
    ensures { result ≡ has_room limit }
{
    match limit {
        Some(limit) => limit != 0,
        None => true,
    }
}

/// Writes the line of the next set if the room that is left lets it stand, and else the last line; whether the page goes on.
fn write_next<S: Sink, L: Ledger>(
    source: &Source<'_>,
    room: Option<u32>,
    writer: &mut PageWriter,
    mark: &mut Option<Bookmark>,
    sink: &mut S,
    steps: &mut Steps<L>,
) -> Result<bool, SinkFailed>
    requires started { IsStarted source.now.store.now writer.old.listing }
    requires fits { HasRoom source.now.system.now (most_line source.now.system.now) (sets_left source.now.store.now writer.old.listing) }
    requires wide { most_line source.now.system.now ≤ vec_capacity writer.old.line }
    requires open { IsOpenMark source.now.system.now mark.old }
    ensures wrote { Writes (next_line source.now.form source.now.system.now (more_text mark.old) room (sets_left source.now.store.now writer.old.listing)) result (S.seen sink.old) (S.seen sink.new) }
    ensures goes { IfOk result (λ on. on ≡ goes_on room (sets_left source.now.store.now writer.old.listing)) }
    ensures same { IsSameListing source.now.store.now writer.old.listing writer.new.listing }
    ensures left { sets_left source.now.store.now writer.new.listing ≡ later (sets_left source.now.store.now writer.old.listing) }
    ensures wide { vec_capacity writer.old.line ≤ vec_capacity writer.new.line }
    ensures named { IfOk result (λ on. IsTrue on → more_text mark.new ≡ next_more (key_of mark.old) source.now.system.now (sets_left source.now.store.now writer.old.listing)) }
    ensures key { key_of mark.new ≡ key_of mark.old }
    ensures open { IsOpenMark source.now.system.now mark.new }
{
    let Some(set) = writer.listing.next(source.store, steps) else {
        write_all(sink, b"end\n")?;
        return Ok(false);
    };
    if !has_room(room) {
        write_more(mark, sink)?;
        return Ok(false);
    }
    put_line(source.form, source.system, set, &mut writer.line);
    keep_place(mark, source.system, Some(set));
    write_all(sink, writer.line.as_slice())?;
    Ok(true)
}
