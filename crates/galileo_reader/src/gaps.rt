//! What stands between the tokens of a text as other tools write it.

ghost use Rattle.std.specs.Prelude.{◌≡◌, ◌≤◌, ◌==◌, not, length};
ghost use Rattle.std.specs.List.{prefix_len};
ghost use Rattle.aadl_syntax.specs.Form.{is_blank};
ghost use Rattle.galileo_reader.specs.WideTokens.{begins_in, block_comment_len, clause_len, closes, closing_len, line_comment_len, parameter_len, piece_len, spells, wide_gap_len};

use crate::bytes::{behind, front};
use crate::front::blanks_len;
use aadl_lexer::is_blank;

/// Whether a word is this one, which is written in lower case, in any letter case.
pub(crate) fn spells(word: &[u8], key: &[u8]) -> bool
    ensures { result ≡ spells word.now key.now }
{
    word.eq_ignore_ascii_case(key)
}

/// How long the comment is that begins with `//`: to the end of its line.
fn line_comment_len(text: &[u8]) -> usize
    ensures within { result ≤ length text.now }
    ensures value { result ≡ line_comment_len text.now }
{
    if !text.starts_with(b"//") {
        return 0;
    }
    line_len(text)
}

/// How many bytes stand before the end of the line.
fn line_len(text: &[u8]) -> usize
    ensures within { result ≤ length text.now }
    ensures value { result ≡ prefix_len (λ b. not (b == 10)) text.now }
{
    text.iter().take_while(|b| !(**b == b'\n')).count()
}

/// Whether `*/` begins a text.
fn closes(text: &[u8]) -> bool
    ensures { result ≡ closes text.now }
{
    text.starts_with(b"*/")
}

/// How many bytes of a text end with its first `*/`; 0 where it has none.
fn closing_len(text: &[u8]) -> usize
    ensures within { result ≤ length text.now }
    ensures value { result ≡ closing_len text.now }
{
    for at in 0..text.len() {
        if closes(behind(text, at)) {
            return at + 2;
        }
    }
    0
}

/// How long the comment is that begins with `/*`: to the first `*/` behind it; 0 where none follows.
#[tactic(auto, unfolding(crate::specs::WideTokens::block_comment_len))]
fn block_comment_len(text: &[u8]) -> usize
    ensures within { result ≤ length text.now }
    ensures value { result ≡ block_comment_len text.now }
{
    if !text.starts_with(b"/*") {
        return 0;
    }
    let len = closing_len(&text[2..]);
    if len == 0 { 0 } else { 2 + len }
}

/// How many bytes stand before a `;` or the end of the line.
fn clause_len(text: &[u8]) -> usize
    ensures within { result ≤ length text.now }
    ensures value { result ≡ clause_len text.now }
{
    text.iter()
        .take_while(|b| !(**b == b';' || **b == b'\n'))
        .count()
}

fn begins_blank(text: &[u8]) -> bool
    ensures { result ≡ begins_in is_blank text.now }
{
    match text {
        [first, ..] => is_blank(*first),
        [] => false,
    }
}

/// How long the statement is that begins with `param` and a blank: to the `;` of its line; 0 where the line has none.
#[tactic(auto, unfolding(crate::specs::WideTokens::parameter_len))]
fn parameter_len(text: &[u8]) -> usize
    ensures within { result ≤ length text.now }
    ensures value { result ≡ parameter_len text.now }
{
    if !spells(front(text, 5), b"param") {
        return 0;
    }
    if !begins_blank(behind(text, 5)) {
        return 0;
    }
    let len = clause_len(text);
    match &text[len..] {
        [b';', ..] => len + 1,
        _ => 0,
    }
}

/// How long the blanks, the comment or the statement of a parameter are that begin a text; 0 where none does.
#[tactic(auto, unfolding(crate::specs::WideTokens::piece_len))]
fn piece_len(text: &[u8]) -> usize
    ensures within { result ≤ length text.now }
    ensures value { result ≡ piece_len text.now }
{
    let blanks = blanks_len(text);
    if blanks > 0 {
        return blanks;
    }
    let line = line_comment_len(text);
    if line > 0 {
        return line;
    }
    let block = block_comment_len(text);
    if block > 0 {
        return block;
    }
    parameter_len(text)
}

/// How long all of these are that begin a text.
pub(crate) fn wide_gap_len(text: &[u8]) -> usize
    ensures within { result ≤ length text.now }
    ensures value { result ≡ wide_gap_len text.now }
{
    let mut at = 0;
    for _ in 0..text.len() {
        let len = piece_len(behind(text, at));
        if len == 0 {
            return at;
        }
        at += len;
    }
    at
}
