//! Short forms: words that stand for `help` or `version`.

ghost use Rattle.std.specs.Prelude.{◌≡◌, [], MatchOption, false};
ghost use Rattle.fta_words.specs.Table.{kind_named, name_of};
ghost use Rattle.fta_words.specs.Words.{in_full, is_help_of, word_in_full};
ghost use Rattle.fta_words.specs.inner.Reading.{IsShort};

use crate::kind::Kind;
use crate::table::{is_among, kind_named};
use plain_values::{Word, is_same};

/// What a short form stands for: a command, and the plain words behind its name.
#[derive(Drop)]
pub(crate) struct Short<'w> {
    pub(crate) kind: Kind,
    pub(crate) plain: &'w [Word],
}

/// What the words stand for, where they are a short form.
pub(crate) fn short_form<'w>(words: &'w [Word]) -> Option<Short<'w>>
    ensures { MatchOption result (in_full words.now ≡ words.now) (λ short. IsShort words.now short.kind short.plain.now) }
{
    match words {
        [word] => {
            let kind = kind_alone(word.items())?;
            Some(Short { kind, plain: &[] })
        }
        [name, last] => {
            if !is_help_of(name.items(), last.items()) {
                return None;
            }
            Some(Short {
                kind: Kind::Help,
                plain: &words[..1],
            })
        }
        _ => None,
    }
}

/// The command for which a word stands that is alone and is none of its name.
fn kind_alone(word: &[u8]) -> Option<Kind>
    ensures { MatchOption result (word_in_full word.now ≡ word.now) (λ kind. word_in_full word.now ≡ name_of kind) }
{
    if is_among(&[b"--help", b"-h"], word) {
        return Some(Kind::Help);
    }
    if is_among(&[b"--version", b"-V"], word) {
        return Some(Kind::Version);
    }
    None
}

/// Whether two words are the name of a command and `--help`.
fn is_help_of(name: &[u8], last: &[u8]) -> bool
    ensures { result ≡ is_help_of name.now last.now }
{
    match kind_named(name) {
        Some(_) => is_same(last, b"--help"),
        None => false,
    }
}
