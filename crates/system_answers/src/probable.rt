//! The probability of the top of a tree in Galileo text.

ghost use Rattle.std.specs.Prelude.{◌≤◌, length, true};
ghost use Rattle.phases.specs.inner.Meets.{IsMemory, MeetsBut};
ghost use Rattle.galileo_reader.specs.inner.Rates.{HasNumbers};
ghost use Rattle.galileo_reader.specs.inner.Trees.{IsNamedTree};
ghost use Rattle.system_answers.specs.Texts.{galileo_probability_text, probable_tree};

use crate::chances::{ProbabilityForm, text_for};
use crate::cut_sets::find_slice;
use crate::galileo::tree_in;
use galileo_reader::{NamedTree, to_system};
use phases::Status;
use rate_numerals::rates_of;
use std::alloc::Global;

/// The text of the probability of the top of the tree in a Galileo text of at most 4,194,304 bytes, in the first reading or in the wide one, with the names
/// of events in quotes. Places of refusals are those of the file of the number 0.
pub fn tree_probability(
    alloc: Global,
    text: &[u8],
    wide: bool,
    form: ProbabilityForm<'_>,
) -> Result<Vec<u8>, Status>
    requires { length text.now ≤ 4194304 }
    ensures { MeetsBut IsMemory (λ text. text.items) (galileo_probability_text wide form.entry.hours.now form.entry.events form.entry.max_order text.now) result }
{
    let tree = tree_in(alloc, text, wide)?;
    probability_of(alloc, &tree, form)
}

/// The text of the probability of the top of a tree.
fn probability_of(
    alloc: Global,
    tree: &NamedTree,
    form: ProbabilityForm<'_>,
) -> Result<Vec<u8>, Status>
    requires named { IsNamedTree tree.now }
    requires numbers { HasNumbers true tree.now }
    ensures { MeetsBut IsMemory (λ text. text.items) (probable_tree form.entry.hours.now form.entry.events form.entry.max_order tree.now) result }
{
    let (system, target) = to_system(alloc, tree)?;
    let part = find_slice(alloc, &system, target)?;
    let rates = rates_of(alloc, tree)?;
    let text = text_for(alloc, &system, rates.items(), &part, form, true)?;
    Ok(text)
}
