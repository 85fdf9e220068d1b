//! What lines may lack: right counts of inputs, a top, and lines for the names that they ask for.

ghost use Rattle.std.specs.Prelude.{◌≡◌, option_copied};
ghost use Rattle.galileo_reader.specs.Nodes.{asked, bad_count, first_some, top_of, unknown_name, unknown_node, wrong_count};

use crate::nodes::Nodes;
use crate::statement::{PlacedName, Statement};

/// The place of a line that says that its gate has another number of inputs than it names.
fn wrong_count(line: &Statement) -> Option<u32>
    ensures { result ≡ wrong_count line.now }
{
    match line {
        Statement::Gate(name, _, Some(count), inputs) => {
            if *count == inputs.len_u32() {
                return None;
            }
            Some(name.at)
        }
        _ => None,
    }
}

/// The place of the first such line.
pub(crate) fn bad_count(lines: &[Statement]) -> Option<u32>
    ensures { result ≡ bad_count lines.now }
{
    for line in lines {
        if let Some(at) = wrong_count(line) {
            return Some(at);
        }
    }
    None
}

/// The name of the top.
pub(crate) fn top_of(lines: &[Statement]) -> Option<&PlacedName>
    ensures { option_copied result ≡ top_of lines.now }
{
    for line in lines {
        if let Statement::Top(_, name) = line {
            return Some(name);
        }
    }
    None
}

/// The place of a name that no line has.
fn unknown_name(nodes: &Nodes<'_>, name: &PlacedName) -> Option<u32>
    ensures { result ≡ unknown_name nodes.now name.now }
{
    match nodes.node(name.name.items()) {
        Some(_) => None,
        None => Some(name.at),
    }
}

/// The place of the first of these names that no line has.
fn unknown_input(nodes: &Nodes<'_>, names: &[PlacedName]) -> Option<u32>
    ensures { result ≡ first_some (unknown_name nodes.now) names.now }
{
    for name in names {
        if let Some(at) = unknown_name(nodes, name) {
            return Some(at);
        }
    }
    None
}

/// The place of the first name that a line asks for, and that no line has.
fn unknown_asked(nodes: &Nodes<'_>, line: &Statement) -> Option<u32>
    ensures { result ≡ first_some (unknown_name nodes.now) (asked line.now) }
{
    match line {
        Statement::Top(_, name) => unknown_name(nodes, name),
        Statement::Gate(_, _, _, inputs) => unknown_input(nodes, inputs.items()),
        Statement::Event(_, _) => None,
    }
}

/// The place of the first name that the lines ask for, and that none of them has.
pub(crate) fn unknown_node(nodes: &Nodes<'_>) -> Option<u32>
    ensures { result ≡ unknown_node nodes.now }
{
    for line in nodes.lines() {
        if let Some(at) = unknown_asked(nodes, line) {
            return Some(at);
        }
    }
    None
}
