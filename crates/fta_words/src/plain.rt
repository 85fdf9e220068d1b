ghost use Rattle.std.specs.Prelude.{◌≡◌, ◌↔◌, IfOk, IsTrue, IsUtf8, MatchOption, map};
ghost use Rattle.std.specs.List.{AllByRecursion};
ghost use Rattle.fta_words.specs.Words.{IsPlainWord};

use plain_values::{Mem, Word};
use std::alloc::Global;

/// Whether all words stand for themselves.
pub(crate) fn are_plain(words: &[Word]) -> bool
    ensures { IsTrue result ↔ AllByRecursion IsPlainWord words.now }
{
    for word in words {
        if !is_plain(word.items()) {
            return false;
        }
    }
    true
}

/// Whether a word is UTF-8 text, not empty, that does not begin with `-`.
pub(crate) fn is_plain(word: &[u8]) -> bool
    ensures { IsTrue result ↔ IsPlainWord word.now }
{
    match word {
        [] => false,
        [first, ..] => *first != b'-' && std::str::from_utf8(word).is_ok(),
    }
}

/// The words as texts, if all are UTF-8.
pub(crate) fn texts_of<'a>(alloc: Global, words: &'a [Word]) -> Mem<Option<Vec<&'a str>>>
    ensures { IfOk result (λ answer. MatchOption answer (AllByRecursion IsUtf8 words.now → ⊥) (λ texts. map (λ text. text.now) texts.items ≡ words.now)) }
{
    let mut texts = Vec::new(alloc);
    for word in words {
        let Ok(text) = std::str::from_utf8(word.items()) else {
            return Ok(None);
        };
        texts.push(text)?;
    }
    Ok(Some(texts))
}
