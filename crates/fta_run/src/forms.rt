//! In which form a tree is written, by the words.

ghost use Rattle.std.specs.Prelude.{◌≡◌, ◌∷◌, ◌++◌, IfOk, OnOk};
ghost use Rattle.fta_run.specs.Forms.{drawn_words, format_named, gates_words, is_drawn, is_exchanged, is_merging, is_rated, is_second, is_wide, legend_in, picture_legend, profile_of, profile_words, tree_form, tree_words};

use crate::input::Texts;
use crate::manifest::push_root;
use file_digests::add_digests;
use fta_words::Form;
use help_texts::program_text;
use plain_values::{List, Mem, Name, Root, Word, copied, is_same};
use profiles::Profile;
use std::alloc::Global;
use system_answers::{TreeForm, TreeFormat};

/// The form in which the tree of a target of a root is written, for which the words ask, of files of these names with these texts.
pub fn tree_form(
    alloc: Global,
    form: &Form,
    profile: Profile,
    root: &Root,
    target: &Name,
    names: &[Word],
    texts: &Texts,
) -> Mem<TreeForm>
    ensures { IfOk result (λ made. made ≡ tree_form form.now (tree_words profile root.now target.now) names.now texts.now) }
{
    let words = tree_words(alloc, profile, root, target)?;
    form_of(alloc, form, words, names, texts)
}

/// The form of a tree, for which these words ask, of files of these names with these texts.
pub fn form_of(
    alloc: Global,
    form: &Form,
    asked: Vec<u8>,
    names: &[Word],
    texts: &Texts,
) -> Mem<TreeForm>
    ensures { IfOk result (λ made. made ≡ tree_form form.now asked.items names.now texts.now) }
{
    let format = format_named(form.format.items());
    let merged = is_merging(form);
    let legend = legend_of(alloc, format, asked, merged, names, texts)?;
    Ok(TreeForm {
        format,
        merged,
        rated: is_rated(form),
        legend,
    })
}

/// The format of a name; Galileo text where none is given.
fn format_named(name: &[u8]) -> TreeFormat
    ensures { result ≡ format_named name.now }
{
    if is_same(name, b"mef") {
        return TreeFormat::Mef;
    }
    if is_same(name, b"dot") {
        return TreeFormat::Dot;
    }
    TreeFormat::Galileo
}

/// Whether the second profile is asked for.
fn is_second(form: &Form) -> bool
    ensures { result ≡ is_second form.now }
{
    is_same(form.profile.items(), b"2")
}

/// The profile by which a model is read: the first, where no other is asked for.
pub fn profile_of(form: &Form) -> Profile
    ensures { result ≡ profile_of form.now }
{
    if is_second(form) {
        Profile::Second
    } else {
        Profile::First
    }
}

/// Whether the text of a tree is read as other tools write it, too.
pub fn is_wide(form: &Form) -> bool
    ensures { result ≡ is_wide form.now }
{
    is_second(form)
}

/// Whether merged gates are asked for.
pub fn is_merging(form: &Form) -> bool
    ensures { result ≡ is_merging form.now }
{
    is_same(form.gates.items(), b"merged")
}

/// Whether each event must have a rate.
fn is_rated(form: &Form) -> bool
    ensures { result ≡ is_rated form.now }
{
    is_same(form.unrated.items(), b"refuse")
}

/// Whether a tree that is read from a file is to be written in the Open-PSA Model Exchange Format.
pub fn is_exchanged(form: &Form) -> bool
    ensures { result ≡ is_exchanged form.now }
{
    is_same(form.format.items(), b"mef")
}

/// Whether a tree that is read from a file is to be written in a format, or drawn.
pub fn is_drawn(form: &Form) -> bool
    ensures { result ≡ is_drawn form.now }
{
    is_same(form.format.items(), b"dot") || is_exchanged(form)
}

/// The legend of the picture of a tree that is read from a file, of files of these names with these texts.
pub fn drawn_legend(alloc: Global, merged: bool, names: &[Word], texts: &Texts) -> Mem<List<Name>>
    ensures { IfOk result (λ legend. legend ≡ picture_legend (drawn_words merged) names.now texts.now) }
{
    let words = Vec::from_slice(alloc, b"galileo")?;
    picture_legend(alloc, words_with(words, merged)?, names, texts)
}

/// The words of what is asked of a target.
fn tree_words(alloc: Global, profile: Profile, root: &Root, target: &Name) -> Mem<Vec<u8>>
    ensures { IfOk result (λ words. words.items ≡ tree_words profile root.now target.now) }
{
    let mut words = Vec::from_slice(alloc, b"tree ")?;
    push_root(&mut words, root)?;
    push_target(&mut words, profile, target)?;
    Ok(words)
}

/// Adds a target behind a blank, and the words of a profile.
fn push_target(words: &mut Vec<u8>, profile: Profile, target: &Name) -> Mem<()>
    ensures { OnOk result (words.new.items ≡ words.old.items ++ (32 ∷ (target.now ++ profile_words profile))) }
{
    words.push(b' ')?;
    words.extend_from_slice(target.items())?;
    push_profile(words, profile)
}

/// Adds the words of a profile that is not the first.
fn push_profile(words: &mut Vec<u8>, profile: Profile) -> Mem<()>
    ensures { OnOk result (words.new.items ≡ words.old.items ++ profile_words profile) }
{
    match profile {
        Profile::First => {}
        Profile::Second => words.extend_from_slice(b" --profile 2")?,
    }
    Ok(())
}

/// The legend of a picture, for which these words ask; nothing else has one.
fn legend_of(
    alloc: Global,
    format: TreeFormat,
    asked: Vec<u8>,
    merged: bool,
    names: &[Word],
    texts: &Texts,
) -> Mem<List<Name>>
    ensures { IfOk result (λ legend. legend ≡ legend_in format (asked.items ++ gates_words merged) names.now texts.now) }
{
    match format {
        TreeFormat::Galileo => Ok(List::new(alloc)),
        TreeFormat::Mef => Ok(List::new(alloc)),
        TreeFormat::Dot => picture_legend(alloc, words_with(asked, merged)?, names, texts),
    }
}

/// The words with those of the gates that are asked for.
fn words_with(asked: Vec<u8>, merged: bool) -> Mem<Name>
    ensures { IfOk result (λ words. words ≡ asked.items ++ gates_words merged) }
{
    let mut words = asked;
    if merged {
        words.extend_from_slice(b" --gates merged")?;
    }
    List::of(words)
}

/// The legend of a picture: the program, what is asked for, and the digest of each file.
fn picture_legend(alloc: Global, asked: Name, names: &[Word], texts: &Texts) -> Mem<List<Name>>
    ensures { IfOk result (λ legend. legend ≡ picture_legend asked names.now texts.now) }
{
    let mut lines = List::new(alloc);
    lines.push(copied(alloc, program_text())?)?;
    lines.push(asked)?;
    add_digests(alloc, &mut lines, names, texts.items())?;
    Ok(lines)
}
