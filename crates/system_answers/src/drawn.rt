//! A tree in Galileo text as a picture, or in the Open-PSA Model Exchange Format.

ghost use Rattle.std.specs.Prelude.{◌≡◌, ◌≤◌, IfOk, length, map, true};
ghost use Rattle.phases.specs.inner.Meets.{IsMemory, MeetsBut};
ghost use Rattle.galileo_reader.specs.TreeSystems.{system_of};
ghost use Rattle.galileo_reader.specs.inner.Rates.{HasNumbers};
ghost use Rattle.galileo_reader.specs.inner.Trees.{IsNamedTree};
ghost use Rattle.system_answers.specs.Texts.{drawn_format, drawn_rates, drawn_text, drawn_tree, rates_of};
ghost use Rattle.system_answers.specs.inner.Forms.{IsWritable, tree_bytes};

use crate::cut_sets::find_slice;
use crate::form::{TreeForm, TreeFormat, TreeText};
use crate::galileo::tree_in;
use crate::trees::formed;
use galileo_reader::{NamedEvent, NamedTree, to_system};
use phases::Status;
use plain_values::{List, Mem, Name, copied};
use property_reader::Rate;
use std::alloc::Global;

/// The picture of the tree in a Galileo text of at most 4,194,304 bytes, in the first reading or in the wide one, or its text in the Open-PSA Model Exchange Format, with its
/// gates as they are written, or merged, and these lines in the legend of a picture. Places of refusals are those of the file of the number 0.
pub fn draw(
    alloc: Global,
    text: &[u8],
    wide: bool,
    exchanged: bool,
    merged: bool,
    legend: List<Name>,
) -> Result<TreeText, Status>
    requires { length text.now ≤ 4194304 }
    ensures { MeetsBut IsMemory tree_bytes (drawn_text wide exchanged merged legend text.now) result }
{
    let tree = tree_in(alloc, text, wide)?;
    picture_of(alloc, &tree, exchanged, merged, legend)
}

/// The picture of a tree, or its text in the Open-PSA Model Exchange Format.
fn picture_of(
    alloc: Global,
    tree: &NamedTree,
    exchanged: bool,
    merged: bool,
    legend: List<Name>,
) -> Result<TreeText, Status>
    requires named { IsNamedTree tree.now }
    requires numbers { HasNumbers true tree.now }
    ensures { MeetsBut IsMemory tree_bytes (drawn_tree exchanged merged legend tree.now) result }
{
    let (system, target) = to_system(alloc, tree)?;
    let part = find_slice(alloc, &system, target)?;
    let rates = drawn_rates(alloc, tree, exchanged)?;
    let format = drawn_format(exchanged);
    let form = TreeForm {
        format,
        merged,
        rated: false,
        legend,
    };
    formed(alloc, system, rates, &part, form)
}

/// The format in which a tree is written: the Open-PSA Model Exchange Format, or a picture.
fn drawn_format(exchanged: bool) -> TreeFormat
    ensures { result ≡ drawn_format exchanged }
{
    if exchanged {
        TreeFormat::Mef
    } else {
        TreeFormat::Dot
    }
}

/// The rates that are written with a tree: in the Open-PSA Model Exchange Format with numbers as AADL writes them.
fn drawn_rates(alloc: Global, tree: &NamedTree, exchanged: bool) -> Mem<List<Rate>>
    requires { HasNumbers true tree.now }
    ensures rates { IfOk result (λ rates. rates ≡ drawn_rates exchanged tree.now) }
    ensures writable { IfOk result (IsWritable (drawn_format exchanged) (system_of tree.now)) }
{
    if exchanged {
        return rate_numerals::rates_of(alloc, tree);
    }
    rates_of(alloc, tree)
}

/// The rates of the events of a tree.
fn rates_of(alloc: Global, tree: &NamedTree) -> Mem<List<Rate>>
    ensures { IfOk result (λ rates. rates ≡ rates_of tree.now) }
{
    rates_in(alloc, tree.events.items())
}

/// The rates of some events.
fn rates_in(alloc: Global, events: &[NamedEvent]) -> Mem<List<Rate>>
    ensures { IfOk result (λ rates. rates ≡ map (λ event. event.rate) events.now) }
{
    let mut rates = List::new(alloc);
    for event in events {
        let rate = rate_again(alloc, &event.rate)?;
        rates.push(rate)?;
    }
    Ok(rates)
}

/// A rate of its own like another.
fn rate_again(alloc: Global, rate: &Rate) -> Mem<Rate>
    ensures { IfOk result (λ made. made ≡ rate.now) }
{
    let text = copied(alloc, rate.text.items())?;
    Ok(Rate {
        kind: rate.kind,
        text,
    })
}
