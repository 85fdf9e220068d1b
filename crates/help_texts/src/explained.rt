//! What `explain` writes.

ghost use Rattle.std.specs.Prelude.{◌≡◌, length, map};
ghost use Rattle.fta_words.specs.Table.{all_codes};
ghost use Rattle.help_texts.specs.Texts.{all_explanations, explain_text, explained};

use crate::explanations::EXPLANATIONS;
use fta_words::CODES;
use plain_values::is_same;

/// What is said of the refusal of a code, by its name in lower case; nothing of another name.
pub fn explain_text(name: &[u8]) -> &'static [u8]
    ensures { result.now ≡ explain_text name.now }
{
    explained(&CODES, &EXPLANATIONS, name)
}

/// The text on the first of these codes that has a name.
fn explained<'t>(codes: &[&[u8]], texts: &[&'t [u8]], name: &[u8]) -> &'t [u8]
    ensures { result.now ≡ explained (map (λ code. code.now) codes.now) (map (λ text. text.now) texts.now) name.now }
{
    let Some((code, codes)) = codes.split_first() else {
        return &[];
    };
    let Some((text, texts)) = texts.split_first() else {
        return &[];
    };
    if is_same(code, name) {
        return text;
    }
    explained(codes, texts, name)
}

/// There is a text for each code.
pub fn codes_are_explained()
    ensures { length all_explanations ≡ length all_codes }
{}
