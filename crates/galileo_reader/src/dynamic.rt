//! What is wrong where no line stands.

ghost use Rattle.std.specs.Prelude.{◌≡◌, ◌≤◌, ◌+◌, Some, true, length};
ghost use Rattle.galileo_reader.specs.Marks.{mark_from};
ghost use Rattle.galileo_reader.specs.Statements.{is_dynamic, is_dynamic_at, is_mark, names_dynamic};
ghost use Rattle.galileo_reader.specs.Trees.{line_flaw};

use crate::front::mark_from;
use crate::saying::is_name;
use crate::token::{Mark, Token};
use crate::tree::Flaw;

fn is_dynamic(token: Token) -> bool
    ensures { result ≡ is_dynamic token }
{
    match token {
        Token::Dynamic => true,
        _ => false,
    }
}

/// Whether the next token from a place on is the word of a dynamic gate.
fn is_dynamic_mark(text: &[u8], at: usize) -> bool
    requires within { at ≤ length text.now }
    requires few { length text.now ≤ 4194304 }
    ensures { result ≡ is_mark is_dynamic (mark_from true text.now at) }
{
    match mark_from(text, at, true) {
        Some(mark) => is_dynamic(mark.token),
        None => false,
    }
}

/// Whether a token is a name, and behind it stands the word of a dynamic gate.
fn names_dynamic(text: &[u8], name: Mark) -> bool
    requires within { name.at + name.len ≤ length text.now }
    requires few { length text.now ≤ 4194304 }
    ensures { result ≡ names_dynamic text.now (Some name) }
{
    if !is_name(name.token) {
        return false;
    }
    is_dynamic_mark(text, name.at as usize + name.len as usize)
}

/// Whether from a place on stands a name, and behind it the word of a dynamic gate, which the wide reading alone knows.
fn is_dynamic_at(text: &[u8], at: usize, wide: bool) -> bool
    requires within { at ≤ length text.now }
    requires few { length text.now ≤ 4194304 }
    ensures { result ≡ is_dynamic_at wide text.now at }
{
    if !wide {
        return false;
    }
    match mark_from(text, at, true) {
        Some(name) => names_dynamic(text, name),
        None => false,
    }
}

/// What is wrong where no line stands: a dynamic gate, or else that it has no reading.
pub(crate) fn line_flaw(text: &[u8], at: u32, wide: bool) -> Flaw
    requires within { at ≤ length text.now }
    requires few { length text.now ≤ 4194304 }
    ensures { result ≡ line_flaw wide text.now at }
{
    if is_dynamic_at(text, at as usize, wide) {
        return Flaw::DynamicGate(at);
    }
    Flaw::BadLine(at)
}
