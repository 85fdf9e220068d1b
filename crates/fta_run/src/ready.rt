//! Answers that are ready to be written, and the one place that writes them.

ghost use Rattle.std.specs.Prelude.{◌≡◌, ◌++◌, Err, IfErr, MatchResult, Ok};
ghost use Rattle.fta_outside.specs.inner.Outside.{LacksMemory, Writes, WritesBut};
ghost use Rattle.fta_run.specs.inner.Ready.{IsByLines, held_text, ready_text};
ghost use Rattle.fta_run.specs.declared.ready.Ready.TheVariants as made;
ghost use Rattle.system_answers.specs.inner.Forms.{tree_bytes};

use cutset_writer::ListingPage;
use fmea_rows::TableLines;
use fmea_sheet::SheetLines;
use fta_outside::{Sink, SinkFailed, WriteError, write_all, write_lines};
use phases::Status;
use plain_values::Name;
use std::alloc::Global;
use system_answers::TreeText;

/// An answer with all the memory that it is written from.
#[derive(Drop)]
pub enum Held {
    /// A text that is always the same.
    Fixed(&'static [u8]),
    /// A text.
    Text(Vec<u8>),
    /// A text, as a list.
    Bytes(Name),
    /// A page of a listing.
    Page(ListingPage),
    /// The lines of numbers, and then a page of a listing.
    Sized(Vec<u8>, ListingPage),
}

/// An answer that is ready to be written.
#[derive(Drop)]
pub enum Ready {
    /// Writing it takes no memory.
    Held(Held),
    /// The text of a tree, of which each part is made as it is written.
    Tree(TreeText),
    /// A table, of which each line is made as it is written.
    Table(TableLines),
    /// A sheet, of which each line is made as it is written.
    Sheet(SheetLines),
}

/// What is answered to a request.
#[derive(Drop)]
pub struct Answer {
    /// What is written.
    pub ready: Ready,
    /// Whether it tells of no requirement that is not met.
    pub met: bool,
}

/// An answer that is held is ready.
pub fn ready_of(answer: Result<Held, Status>) -> Result<Ready, Status>
    ensures { MatchResult answer (λ text. result ≡ Ok (made.Held text)) (λ status. result ≡ Err status) }
{
    match answer {
        Ok(text) => Ok(Ready::Held(text)),
        Err(status) => Err(status),
    }
}

/// Writes an answer. Memory is wanting only for a line of a tree, of a table or of a sheet.
pub fn write<S: Sink>(alloc: Global, ready: Ready, out: &mut S) -> Result<(), WriteError>
    ensures wrote { WritesBut LacksMemory (ready_text ready) result (S.seen out.old) (S.seen out.new) }
    ensures wanting { IfErr result (λ error. LacksMemory error → IsByLines ready) }
{
    match ready {
        Ready::Held(text) => {
            write_held(text, out)?;
            Ok(())
        }
        Ready::Tree(text) => write_tree(alloc, text, out),
        Ready::Table(mut lines) => write_lines(alloc, &mut lines, out),
        Ready::Sheet(mut lines) => write_lines(alloc, &mut lines, out),
    }
}

/// Writes the text of a tree.
fn write_tree<S: Sink>(alloc: Global, text: TreeText, out: &mut S) -> Result<(), WriteError>
    ensures { WritesBut LacksMemory (tree_bytes text) result (S.seen out.old) (S.seen out.new) }
{
    match text {
        TreeText::Galileo(mut lines) => write_lines(alloc, &mut lines, out),
        TreeText::Mef(mut lines) => write_lines(alloc, &mut lines, out),
        TreeText::Dot(mut lines) => write_lines(alloc, &mut lines, out),
    }
}

/// Writes an answer that is held. It takes no memory.
fn write_held<S: Sink>(held: Held, out: &mut S) -> Result<(), SinkFailed>
    ensures { Writes (held_text held) result (S.seen out.old) (S.seen out.new) }
{
    match held {
        Held::Fixed(text) => write_all(out, text),
        Held::Text(text) => write_all(out, text.as_slice()),
        Held::Bytes(text) => write_all(out, text.items()),
        Held::Page(page) => page.write(out),
        Held::Sized(numbers, page) => write_sized(numbers.as_slice(), page, out),
    }
}

/// Writes a text, and then a page.
fn write_sized<S: Sink>(numbers: &[u8], page: ListingPage, out: &mut S) -> Result<(), SinkFailed>
    ensures { Writes (numbers.now ++ page) result (S.seen out.old) (S.seen out.new) }
{
    write_all(out, numbers)?;
    page.write(out)
}
