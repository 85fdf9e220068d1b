//! The words of a call that is to be explained.

ghost use Rattle.std.specs.Prelude.{◌≡◌, IfOk};
ghost use Rattle.fta_words.specs.inner.Explained.{explained_call, is_no_call};

use crate::table::{CODES, is_among};
use plain_values::{Mem, Word, fold, is_same};
use std::alloc::Global;

/// The words of a call that is to be explained: those behind `explain`, where they are more than the name of a code, and are not `--help`
/// alone. Of all other words there are none.
pub fn explained_call(alloc: Global, words: &[Word]) -> Mem<&[Word]>
    ensures { IfOk result (λ call. call.now ≡ explained_call words.now) }
{
    let Some((name, call)) = words.split_first() else {
        return Ok(&[]);
    };
    if !is_same(name.items(), b"explain") || is_no_call(alloc, call)? {
        return Ok(&[]);
    }
    Ok(call)
}

/// Whether words are the name of a code alone, or `--help`.
fn is_no_call(alloc: Global, words: &[Word]) -> Mem<bool>
    ensures { IfOk result (λ is. is ≡ is_no_call words.now) }
{
    let [word] = words else {
        return Ok(false);
    };
    let name = fold(alloc, word.items())?;
    Ok(is_among(&CODES, name.items()) || is_same(word.items(), b"--help"))
}
