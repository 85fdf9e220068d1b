//! The minimal cut sets and the minimal path sets of a tree in Galileo text.

ghost use Rattle.std.specs.Prelude.{◌≡◌, ◌≤◌, IfOk, length, true};
ghost use Rattle.phases.specs.inner.Meets.{Meets};
ghost use Rattle.galileo_reader.specs.TreeSystems.{system_of};
ghost use Rattle.galileo_reader.specs.inner.Rates.{HasNumbers};
ghost use Rattle.galileo_reader.specs.inner.Trees.{IsNamedTree};
ghost use Rattle.path_sets.specs.inner.Duals.{IsWithoutFeedback};
ghost use Rattle.system_answers.specs.Galileo.{flaw_refusal};
ghost use Rattle.system_answers.specs.Texts.{galileo_paths_text, galileo_text, named_tree, tree_paths, tree_sets};

use crate::cut_sets::{find_slice, page_in};
use crate::path_pages::dual_page;
use cutset_writer::{ListingPage, SetForm};
use fta_words::Paging;
use galileo_reader::{Flaw, GalileoFault, NamedTree, no_feedback, read, to_system};
use phases::Status;
use plain_values::{Code, Place, Refusal};
use std::alloc::Global;

/// The page of the minimal cut sets of the tree in a Galileo text of at most 4,194,304 bytes, in the first reading or in the wide one:
/// as many as the limit lets, of so many events at most. Places of refusals are those of the file of the number 0.
pub fn tree_sets(
    alloc: Global,
    text: &[u8],
    wide: bool,
    limit: Option<u32>,
    max_order: Option<u32>,
) -> Result<ListingPage, Status>
    requires { length text.now ≤ 4194304 }
    ensures { Meets (galileo_text wide limit max_order text.now) result }
{
    let tree = tree_in(alloc, text, wide)?;
    sets_of(alloc, &tree, limit, max_order)
}

/// The page of the minimal path sets of the tree in a Galileo text of at most 4,194,304 bytes, in the first reading or in the wide
/// one: as many as the limit lets, of so many events at most. Places of refusals are those of the file of the number 0.
///
/// They are the smallest sets of basic events whose absence keeps the top from being true. A top that is true under no events has
/// the empty set alone, and one that is true under all has none.
pub fn tree_paths(
    alloc: Global,
    text: &[u8],
    wide: bool,
    limit: Option<u32>,
    max_order: Option<u32>,
) -> Result<ListingPage, Status>
    requires { length text.now ≤ 4194304 }
    ensures { Meets (galileo_paths_text wide limit max_order text.now) result }
{
    let tree = tree_in(alloc, text, wide)?;
    paths_of(alloc, &tree, limit, max_order)
}

/// The tree of a text, in whose system no fact reaches itself.
pub(crate) fn tree_in(alloc: Global, text: &[u8], wide: bool) -> Result<NamedTree, Status>
    requires { length text.now ≤ 4194304 }
    ensures tree { Meets (named_tree wide text.now) result }
    ensures named { IfOk result IsNamedTree }
    ensures numbers { IfOk result (HasNumbers true) }
    ensures free { IfOk result (λ tree. IsWithoutFeedback (system_of tree)) }
{
    no_feedback();
    match read(alloc, text, wide) {
        Ok(tree) => Ok(tree),
        Err(GalileoFault::Refused(flaw)) => Err(Status::Refused(refusal_of(flaw))),
        Err(GalileoFault::Memory) => Err(Status::Memory),
    }
}

/// What is wrong with a text, as a refusal.
fn refusal_of(flaw: Flaw) -> Refusal
    ensures { result ≡ flaw_refusal flaw }
{
    match flaw {
        Flaw::BadLine(at) => Refusal::new(Code::BadLine, Place::At { file: 0, at }),
        Flaw::DynamicGate(at) => Refusal::new(Code::DynamicGate, Place::At { file: 0, at }),
        Flaw::BadCount(at) => Refusal::new(Code::BadCount, Place::At { file: 0, at }),
        Flaw::DuplicateNode(at) => Refusal::new(Code::DuplicateNode, Place::At { file: 0, at }),
        Flaw::NoTop => Refusal::new(Code::NoTop, Place::Whole(0)),
        Flaw::UnknownNode(at) => Refusal::new(Code::UnknownNode, Place::At { file: 0, at }),
        Flaw::Cyclic(at) => Refusal::new(Code::Cyclic, Place::At { file: 0, at }),
    }
}

/// The page of the minimal cut sets of a tree.
fn sets_of(
    alloc: Global,
    tree: &NamedTree,
    limit: Option<u32>,
    max_order: Option<u32>,
) -> Result<ListingPage, Status>
    requires { IsNamedTree tree.now }
    ensures { Meets (tree_sets limit max_order tree.now) result }
{
    let (system, target) = to_system(alloc, tree)?;
    let part = find_slice(alloc, &system, target)?;
    let paging = Paging {
        limit,
        after: None,
        max_order,
    };
    Ok(page_in(alloc, system, &part, SetForm::Quoted, None, &paging)?)
}

/// The page of the minimal path sets of a tree in which no gate reaches itself.
fn paths_of(
    alloc: Global,
    tree: &NamedTree,
    limit: Option<u32>,
    max_order: Option<u32>,
) -> Result<ListingPage, Status>
    requires named { IsNamedTree tree.now }
    requires free { IsWithoutFeedback (system_of tree.now) }
    ensures { Meets (tree_paths limit max_order tree.now) result }
{
    let (system, target) = to_system(alloc, tree)?;
    let _part = find_slice(alloc, &system, target)?;
    dual_page(alloc, system, target, limit, max_order)
}
