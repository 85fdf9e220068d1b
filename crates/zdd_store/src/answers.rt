//! The table of the answers that a store remembers. A question has one place, where a later one takes that of an earlier.

ghost use Rattle.std.specs.Prelude.{◌≡◌, IfSome, slice_get};
ghost use Rattle.zdd_store.specs.inner.Answers.{AreRight, IsAnswer};
ghost use Rattle.zdd_store.specs.inner.Store.{Families, IsSound};

use crate::id::Id;
use crate::question::{Known, Operation, Question};
use plain_values::Mem;

/// The most places of a table.
const MOST_PLACES: usize = 2_097_152;

/// How many places a table begins with.
const FIRST_PLACES: usize = 256;

/// That EMPTY has no minimal sets: what stands at a place before an answer does.
const NONE_OF_EMPTY: Known = Known {
    question: Question {
        operation: Operation::Minimal,
        first: Id::EMPTY,
        second: 0,
        most: 0,
    },
    answer: 0,
};

fn entry_at(table: &[Known], place: usize) -> Option<Known>
    ensures { result ≡ slice_get table.now place }
{
    table.get(place).copied()
}

/// The answer to a question, if it stands in a table.
pub(crate) fn answer_in(table: &[Known], question: Question) -> Option<u32>
    ensures { (store : Families) → AreRight store table.now → IfSome result (IsAnswer store question) }
{
    let Some(known) = entry_at(table, question.place(table.len())) else {
        return None;
    };
    if known.question == question {
        return Some(known.answer);
    }
    None
}

/// Puts an answer into a table.
pub(crate) fn put(table: &mut [Known], known: Known)
    ensures { (store : Families) → AreRight store table.old → IsAnswer store known.question known.answer → AreRight store table.new }
{
    let place = known.question.place(table.len());
    if place >= table.len() {
        return;
    }
    table[place] = known;
}

/// Makes room for the first answers.
fn begin(table: &mut Vec<Known>) -> Mem<()>
    ensures { (store : Families) → IsSound store → AreRight store table.old.items → AreRight store table.new.items }
{
    for filled in 0..FIRST_PLACES {
        table.push(NONE_OF_EMPTY)?;
    }
    Ok(())
}

/// Puts a copy of a table behind it: then each question stands at its place in a table of twice as many.
fn double(table: &mut Vec<Known>) -> Mem<()>
    ensures { (store : Families) → AreRight store table.old.items → AreRight store table.new.items }
{
    let places = table.as_slice().len();
    for place in 0..places {
        let known = table.as_slice()[place];
        table.push(known)?;
    }
    Ok(())
}

/// Makes a table larger that has not twice as many places as there are nodes, up to its most.
pub(crate) fn make_room(table: &mut Vec<Known>, nodes: usize) -> Mem<()>
    ensures { (store : Families) → IsSound store → AreRight store table.old.items → AreRight store table.new.items }
{
    let places = table.as_slice().len();
    if places == 0 {
        return begin(table);
    }
    if places >= MOST_PLACES || places / 2 >= nodes {
        return Ok(());
    }
    double(table)
}
