//! A text as a tree.

ghost use Rattle.std.specs.Prelude.{◌≡◌, ◌↔◌, List, ◌≤◌, ◌<◌, ◌^◌, None, IfOk, MatchResult, length, slice_index_or};
ghost use Rattle.galileo_writer.specs.Truth.{NameSet, Tells};
ghost use Rattle.galileo_reader.specs.Nodes.{bad_count, second_line};
ghost use Rattle.galileo_reader.specs.Statements.{AreLines, IsBadAt};
ghost use Rattle.galileo_reader.specs.declared.statement.Statement.{Statement};
ghost use Rattle.galileo_reader.specs.Trees.{IsAcyclic, IsRead, IsTreeOf};
ghost use Rattle.galileo_reader.specs.inner.Rates.{HasNumbers};
ghost use Rattle.galileo_reader.specs.inner.Trees.{HasNoTree, HaveNoTree, IsCyclicIn, IsNamedTree};
ghost use Rattle.galileo_reader.specs.inner.Truth.{StaticTrue, tree_galileo};

use crate::building::{gate_places, tree_of};
use crate::checks::{bad_count, top_of, unknown_node};
use crate::cycles::first_cyclic;
use crate::dynamic::line_flaw;
use crate::nodes::Nodes;
use crate::reading::read_lines;
use crate::statement::Statement;
use crate::tree::{Flaw, GalileoFault, NamedTree};
use plain_values::List;
use std::alloc::Global;

/// A text with a place where no line stands, as it is refused.
fn refused(text: &[u8], at: u32, wide: bool) -> GalileoFault
    requires few { length text.now ≤ 4194304 }
    requires within { at ≤ length text.now }
    requires bad { (lines : List Statement) × IsBadAt wide text.now 0 lines at }
    ensures { HasNoTree wide text.now result }
{
    GalileoFault::Refused(line_flaw(text, at, wide))
}

/// The lines of a text; refused where one has no reading.
fn lines_of(alloc: Global, text: &[u8], wide: bool) -> Result<List<Statement>, GalileoFault>
    requires { length text.now ≤ 4194304 }
    ensures { MatchResult result (AreLines wide text.now 0) (HasNoTree wide text.now) }
{
    let read = read_lines(alloc, text, wide)?;
    match read {
        Ok(lines) => Ok(lines),
        Err(at) => Err(refused(text, at, wide)),
    }
}

fn number_at(numbers: &[u32], n: u32) -> u32
    ensures { result ≡ slice_index_or numbers.now n 0 }
{
    match numbers.get(n as usize) {
        Some(number) => *number,
        None => 0,
    }
}

/// Refuses a tree of lines in which a gate reaches itself, at the line of the first such gate.
fn refuse_cycle(alloc: Global, lines: &[Statement], tree: &NamedTree) -> Result<(), GalileoFault>
    requires { IsNamedTree tree.now }
    ensures { MatchResult result (λ _. IsAcyclic tree.now.gates) (IsCyclicIn lines.now tree.now) }
{
    match first_cyclic(alloc, tree)? {
        Some(gate) => {
            let places = gate_places(alloc, lines)?;
            let at = number_at(places.items(), gate);
            Err(GalileoFault::Refused(Flaw::Cyclic(at)))
        }
        None => Ok(()),
    }
}

/// The tree of lines of which each tells of something new.
fn named_tree(alloc: Global, nodes: &Nodes<'_>) -> Result<NamedTree, GalileoFault>
    requires counts { bad_count nodes.now ≡ None }
    requires once { second_line nodes.now ≡ None }
    ensures { MatchResult result (IsTreeOf nodes.now) (HaveNoTree nodes.now) }
{
    let Some(top) = top_of(nodes.lines()) else {
        return Err(GalileoFault::Refused(Flaw::NoTop));
    };
    if let Some(at) = unknown_node(nodes) {
        return Err(GalileoFault::Refused(Flaw::UnknownNode(at)));
    }
    let tree = tree_of(alloc, nodes, top)?;
    refuse_cycle(alloc, nodes.lines(), &tree)?;
    Ok(tree)
}

/// The tree of lines.
fn tree_of_lines(alloc: Global, lines: &[Statement]) -> Result<NamedTree, GalileoFault>
    requires { length lines.now < 2 ^ 32 }
    ensures { MatchResult result (IsTreeOf lines.now) (HaveNoTree lines.now) }
{
    if let Some(at) = bad_count(lines) {
        return Err(GalileoFault::Refused(Flaw::BadCount(at)));
    }
    let nodes = Nodes::of(alloc, lines)?;
    named_tree(alloc, &nodes)
}

/// Reads a static fault tree in Galileo text, of at most 4,194,304 bytes.
///
/// The first reading takes the text as this tool writes it. The wide one also takes it as other tools do: with comments, names
/// without quotes, keywords in any case, and attributes that do not change the sets, which are read past; what the first one
/// reads it reads as the same tree.
///
/// The text is refused with the first [`Flaw`], in the order of its variants, that it has, at the least place; so two readings
/// of one text in one way answer the same, but for want of memory. The answered tree is true, as a text, for a set of names of basic
/// events exactly where the text is. The rate of each of its events has a number as AADL writes it; in the wide reading one also as other
/// tools do, without digits before or behind its point.
pub fn read(alloc: Global, text: &[u8], wide: bool) -> Result<NamedTree, GalileoFault>
    requires { length text.now ≤ 4194304 }
    ensures answer { MatchResult result (IsRead wide text.now) (HasNoTree wide text.now) }
    ensures tree { IfOk result IsNamedTree }
    ensures rates { IfOk result (HasNumbers wide) }
    ensures truth { IfOk result (λ tree. (given : NameSet) → StaticTrue wide text.now given ↔ Tells (tree_galileo tree) given) }
{
    let lines = lines_of(alloc, text, wide)?;
    tree_of_lines(alloc, lines.items())
}
