//! A page with all that it is written from.

ghost use Rattle.std.specs.Prelude.{◌≡◌, IfSome, Some, option_map};
ghost use Rattle.fault_system.specs.CutSets.{IsEventSet};
ghost use Rattle.cutset_lister.specs.inner.Walks.{all_sets};
ghost use Rattle.cutset_writer.specs.inner.Pages.{IsOpen, IsReady};
ghost use Rattle.cutset_writer.specs.Text.{listing_page, marked_page};
ghost use Rattle.cutset_writer.specs.declared.form.SetForm.TheVariants.{Token};
ghost use Rattle.fta_outside.specs.inner.Outside.{Writes};

use crate::bookmark::{Bookmark, keep_place};
use crate::form::SetForm;
use crate::page::{PageWriter, Source, write_on_ledger};
use fault_system::FaultSystem;
use fta_outside::{Sink, SinkFailed};
use plain_values::List;
use std::marker::{Brand, Model};
use std::sync::ledger::Blank;
use zdd_store::Store;

/// A page of a listing, with all that it is written from, and all the memory that this needs. Its value is its text: the sets that
/// stand later than a set, as many as a limit lets, and then a last line, `more` where a further set follows, else `end`.
#[derive(Drop)]
pub struct ListingPage {
    system: FaultSystem,
    store: Store,
    writer: PageWriter,
    form: SetForm,
    mark: Option<Bookmark>,
    after: Option<List<u32>>,
    limit: Option<u32>,
}

impl Model for ListingPage {
    ghost use Rattle.std.specs.Prelude.{List as Items, ℕ};
    ghost use Rattle.cutset_lister.specs.inner.Walks.{all_sets};
    ghost use Rattle.cutset_writer.specs.Text.{marked_page};
    ghost use Rattle.cutset_writer.specs.inner.Pages.{IsMarked, IsReady, key_of};

    ghost Value = { Items ℕ };

    ghost view = { λ p. marked_page p.form p.system (key_of p.mark) p.after p.limit (all_sets p.store p.writer.listing) };

    ghost invariant = { λ p. IsReady p.system p.store p.writer × IsMarked p.system p.mark p.after };
}

impl ListingPage {
    /// A page of a listing, whose sets stand in this form.
    pub fn new(
        system: FaultSystem,
        store: Store,
        writer: PageWriter,
        form: SetForm,
        after: Option<List<u32>>,
        limit: Option<u32>,
    ) -> ListingPage
        requires { IsReady system store writer }
        ensures { result ≡ listing_page form system after limit (all_sets store writer.listing) }
    {
        ListingPage {
            system,
            store,
            writer,
            form,
            mark: None,
            after,
            limit,
        }
    }

    /// The same page, but a last line `more` has the token of the last set of the page, or else of `after`, or else of the beginning.
    pub fn marked(
        system: FaultSystem,
        store: Store,
        writer: PageWriter,
        bookmark: Bookmark,
        after: Option<List<u32>>,
        limit: Option<u32>,
    ) -> ListingPage
        requires ready { IsReady system store writer }
        requires open { IsOpen system bookmark }
        requires after { IfSome after (IsEventSet system) }
        ensures { result ≡ marked_page Token system (Some bookmark.key) after limit (all_sets store writer.listing) }
    {
        let mut mark = Some(bookmark);
        keep_place(&mut mark, &system, numbers_of(&after));
        ListingPage {
            system,
            store,
            writer,
            form: SetForm::Token,
            mark,
            after,
            limit,
        }
    }

    /// Writes the page, each line at once. It takes no memory.
    pub fn write<S: Sink>(self, sink: &mut S) -> Result<(), SinkFailed>
        ensures { Writes self result (S.seen sink.old) (S.seen sink.new) }
    {
        let ListingPage {
            system,
            store,
            mut writer,
            form,
            mut mark,
            after,
            limit,
        } = self;
        let source = Source {
            system: &system,
            store: &store,
            form,
            limit,
        };
        write_on_ledger::<S, Brand>(
            &source,
            numbers_of(&after),
            &mut writer,
            &mut mark,
            sink,
            Blank::new(1),
        )
    }
}

fn numbers_of(set: &Option<List<u32>>) -> Option<&[u32]>
    ensures { option_map (λ numbers. numbers.now) result ≡ set.now }
{
    match set {
        Some(numbers) => Some(numbers.items()),
        None => None,
    }
}
