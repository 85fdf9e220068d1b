//! The tokens of a line.

ghost use Rattle.std.specs.Prelude.{◌≡◌, ◌≤◌, ◌<◌, ℕ, List, [], length, IfOk, IfSome, IfNone};
ghost use Rattle.galileo_reader.specs.Marks.{LineMarks, is_end};
ghost use Rattle.galileo_reader.specs.declared.token.Mark.{Mark};

use crate::front::mark_from;
use crate::token::{Mark, Token};
use plain_values::Mem;

fn is_end(token: Token) -> bool
    ensures { result ≡ is_end token }
{
    match token {
        Token::End => true,
        _ => false,
    }
}

/// Adds the tokens of the line that stands from a place on, without its `;`, and answers the place behind the `;`; none where
/// no line of tokens stands there.
pub(crate) fn line_marks(
    text: &[u8],
    at: usize,
    wide: bool,
    marks: &mut Vec<Mark>,
) -> Mem<Option<usize>>
    requires within { at ≤ length text.now }
    requires few { length text.now ≤ 4194304 }
    requires none { marks.old.items ≡ [] }
    ensures found { IfOk result (λ next. IfSome next (λ next. (at < next) × (next ≤ length text.now) × LineMarks wide text.now at marks.new.items next)) }
    ensures stuck { IfOk result (λ next. IfNone next ((line : List Mark) (next : ℕ) → LineMarks wide text.now at line next → ⊥)) }
{
    let mut place = at;
    while let Some(mark) = mark_from(text, place, wide) {
        place = mark.at as usize + mark.len as usize;
        if is_end(mark.token) {
            return Ok(Some(place));
        }
        marks.push(mark)?;
    }
    Ok(None)
}
