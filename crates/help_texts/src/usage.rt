//! What `explain` writes of words that give no request.

ghost use Rattle.std.specs.Prelude.{◌≡◌, ◌++◌, [], None, Some, IfOk, OnOk, codes, map};
ghost use Rattle.std.specs.List.{flat_map};
ghost use Rattle.near_names.specs.inner.Near.{near_text};
ghost use Rattle.fta_words.specs.Table.{name_of, optional_of, usage_of};
ghost use Rattle.help_texts.specs.inner.Usage.{before_sign, behind_dash, call_text, name_in, option_text, options_of, usage_text};

use fta_words::{
    KINDS, Kind, flags_of, is_among, is_option, kind_named, name_of, optional_of, usage_of,
    valued_of,
};
use near_names::push_near;
use plain_values::{Mem, Word};
use std::alloc::Global;

/// Adds what is said of words that give no request: that the first is no command, and the nearest ones; or which of the others are no
/// options of it, with the nearest ones, and how its words are.
pub fn push_usage(alloc: Global, text: &mut Vec<u8>, words: &[Word]) -> Mem<()>
    ensures { OnOk result (text.new.items ≡ text.old.items ++ usage_text words.now) }
{
    let Some((name, words)) = words.split_first() else {
        return Ok(());
    };
    let name = name.items();
    match kind_named(name) {
        None => push_no_command(alloc, text, name),
        Some(kind) => push_call(alloc, text, kind, words),
    }
}

/// Adds that a word is no command, and the nearest ones.
fn push_no_command(alloc: Global, text: &mut Vec<u8>, name: &[u8]) -> Mem<()>
    ensures { OnOk result (text.new.items ≡ text.old.items ++ call_text None name.now []) }
{
    push_none_of(alloc, text, name, &KINDS)
}

/// Adds that a word is none of these commands, and the nearest ones.
fn push_none_of(alloc: Global, text: &mut Vec<u8>, name: &[u8], kinds: &[Kind]) -> Mem<()>
    ensures { OnOk result (text.new.items ≡ text.old.items ++ (codes "no command " ++ (name.now ++ (codes "\n" ++ near_text [] name.now (map name_of kinds.now))))) }
{
    text.extend_from_slice(b"no command ")?;
    text.extend_from_slice(name)?;
    text.push(b'\n')?;
    let names = names_of(alloc, kinds)?;
    push_near(alloc, text, b"", name, names.as_slice())
}

/// The names of commands.
fn names_of(alloc: Global, kinds: &[Kind]) -> Mem<Vec<&'static [u8]>>
    ensures { IfOk result (λ names. map (λ name. name.now) names.items ≡ map name_of kinds.now) }
{
    let mut names = Vec::new(alloc);
    for kind in kinds {
        names.push(name_of(*kind))?;
    }
    Ok(names)
}

/// Adds which words behind the name of a command are no options of it, and how its words are.
fn push_call(alloc: Global, text: &mut Vec<u8>, kind: Kind, words: &[Word]) -> Mem<()>
    ensures { OnOk result (text.new.items ≡ text.old.items ++ call_text (Some kind) [] words.now) }
{
    push_options(alloc, text, kind, words)?;
    push_words(text, kind)
}

/// Adds how the words of a command are.
fn push_words(text: &mut Vec<u8>, kind: Kind) -> Mem<()>
    ensures { OnOk result (text.new.items ≡ text.old.items ++ (codes "usage aadl_fta " ++ (usage_of kind ++ (optional_of kind ++ codes "\n")))) }
{
    text.extend_from_slice(b"usage aadl_fta ")?;
    push_all_words(text, kind)
}

/// Adds the words of a command and its options.
fn push_all_words(text: &mut Vec<u8>, kind: Kind) -> Mem<()>
    ensures { OnOk result (text.new.items ≡ text.old.items ++ (usage_of kind ++ (optional_of kind ++ codes "\n"))) }
{
    text.extend_from_slice(usage_of(kind))?;
    text.extend_from_slice(optional_of(kind))?;
    text.push(b'\n')?;
    Ok(())
}

/// Adds which of some words are no options of a command.
fn push_options(alloc: Global, text: &mut Vec<u8>, kind: Kind, words: &[Word]) -> Mem<()>
    ensures { OnOk result (text.new.items ≡ text.old.items ++ flat_map (option_text kind) words.now) }
{
    for word in words {
        push_option(alloc, text, kind, word.items())?;
    }
    Ok(())
}

/// Adds that a word is no option of a command, where it begins with `-` and is none, and the nearest ones.
fn push_option(alloc: Global, text: &mut Vec<u8>, kind: Kind, word: &[u8]) -> Mem<()>
    ensures { OnOk result (text.new.items ≡ text.old.items ++ option_text kind word.now) }
{
    let options = options_of(alloc, kind)?;
    if !is_option(word) || is_among(options.as_slice(), name_in(word)) {
        return Ok(());
    }
    text.extend_from_slice(b"no option ")?;
    text.extend_from_slice(word)?;
    text.push(b'\n')?;
    push_near(alloc, text, b"--", name_in(word), options.as_slice())
}

/// The names of all options of a command.
fn options_of(alloc: Global, kind: Kind) -> Mem<Vec<&'static [u8]>>
    ensures { IfOk result (λ names. map (λ name. name.now) names.items ≡ options_of kind) }
{
    let mut names = Vec::from_slice(alloc, flags_of(kind))?;
    names.extend_from_slice(valued_of(kind))?;
    Ok(names)
}

/// The name that a word has which begins with `-`.
pub fn name_in(word: &[u8]) -> &[u8]
    ensures { result.now ≡ name_in word.now }
{
    before_sign(b'=', behind_dash(behind_dash(word)))
}

/// A text without a first `-`.
fn behind_dash(text: &[u8]) -> &[u8]
    ensures { result.now ≡ behind_dash text.now }
{
    match text.split_first() {
        Some((byte, rest)) if *byte == b'-' => rest,
        _ => text,
    }
}

/// A text up to the first byte that is this sign.
pub fn before_sign(sign: u8, text: &[u8]) -> &[u8]
    ensures { result.now ≡ before_sign sign text.now }
{
    for (number, byte) in text.iter().enumerate() {
        if *byte == sign {
            return &text[..number];
        }
    }
    text
}
