//! The text of `manifest`.

ghost use Rattle.std.specs.Prelude.{◌≡◌, ◌++◌, ◌∷◌, IfOk, OnOk};
ghost use Rattle.std.specs.List.{flat_map};
ghost use Rattle.page_tokens.specs.Keys.{dotted, joined, root_text};
ghost use Rattle.file_digests.specs.Digests.{digest_lines};
ghost use Rattle.fta_run.specs.Due.{manifest_text, profile_line, root_line};

use crate::text::numbers_of;
use file_digests::push_digests;
use help_texts::version_text;
use model_phases::FlatModel;
use plain_values::{Mem, Name, Root, Word};
use profiles::Profile;
use std::alloc::Global;

/// Of which program and of which files, of these names and with these texts, a result on the model of a root is: the version of the
/// program, the root, the profile where it is not the first, the numbers of components, facts and events, and the digest of each file.
pub fn manifest_text(
    alloc: Global,
    profile: Profile,
    root: &Root,
    names: &[Word],
    texts: &[Name],
    model: &FlatModel,
) -> Mem<Vec<u8>>
    ensures { IfOk result (λ text. text.items ≡ manifest_text profile root.now names.now texts.now model.now) }
{
    let numbers = numbers_of(alloc, model.components, &model.system)?;
    let mut text = Vec::from_slice(alloc, version_text())?;
    push_model(&mut text, profile, root, numbers.as_slice(), names, texts)?;
    Ok(text)
}

/// Adds the line of a root and that of a profile, the lines of numbers, and the digest of each file.
fn push_model(
    text: &mut Vec<u8>,
    profile: Profile,
    root: &Root,
    numbers: &[u8],
    names: &[Word],
    texts: &[Name],
) -> Mem<()>
    ensures { OnOk result (text.new.items ≡ text.old.items ++ (root_line root.now ++ (profile_line profile ++ (numbers.now ++ digest_lines names.now texts.now)))) }
{
    push_root_line(text, root)?;
    push_numbers(text, profile, numbers, names, texts)
}

/// Adds the line of a profile, the lines of numbers, and the digest of each file.
fn push_numbers(
    text: &mut Vec<u8>,
    profile: Profile,
    numbers: &[u8],
    names: &[Word],
    texts: &[Name],
) -> Mem<()>
    ensures { OnOk result (text.new.items ≡ text.old.items ++ (profile_line profile ++ (numbers.now ++ digest_lines names.now texts.now))) }
{
    push_profile_line(text, profile)?;
    push_files(text, numbers, names, texts)
}

/// Adds the line of a profile that is not the first.
fn push_profile_line(text: &mut Vec<u8>, profile: Profile) -> Mem<()>
    ensures { OnOk result (text.new.items ≡ text.old.items ++ profile_line profile) }
{
    match profile {
        Profile::First => {}
        Profile::Second => text.extend_from_slice(b"by profile 2\n")?,
    }
    Ok(())
}

/// Adds the lines of numbers, and the digest of each file.
fn push_files(text: &mut Vec<u8>, numbers: &[u8], names: &[Word], texts: &[Name]) -> Mem<()>
    ensures { OnOk result (text.new.items ≡ text.old.items ++ (numbers.now ++ digest_lines names.now texts.now)) }
{
    text.extend_from_slice(numbers)?;
    push_digests(text, names, texts)
}

/// Adds the line of a root.
fn push_root_line(text: &mut Vec<u8>, root: &Root) -> Mem<()>
    ensures { OnOk result (text.new.items ≡ text.old.items ++ root_line root.now) }
{
    text.extend_from_slice(b"root ")?;
    push_root(text, root)?;
    text.push(b'\n')?;
    Ok(())
}

/// Adds a root: its names with `::` between them, and its item behind a dot.
pub(crate) fn push_root(text: &mut Vec<u8>, root: &Root) -> Mem<()>
    ensures { OnOk result (text.new.items ≡ text.old.items ++ root_text root.now) }
{
    push_names(text, root.names.items())?;
    push_item(text, &root.item)
}

/// Adds names with `::` between them.
fn push_names(text: &mut Vec<u8>, names: &[Name]) -> Mem<()>
    ensures { OnOk result (text.new.items ≡ text.old.items ++ joined names.now) }
{
    let Some((name, others)) = names.split_first() else {
        return Ok(());
    };
    text.extend_from_slice(name.items())?;
    push_others(text, others)
}

/// Adds names, each behind `::`.
fn push_others(text: &mut Vec<u8>, names: &[Name]) -> Mem<()>
    ensures { OnOk result (text.new.items ≡ text.old.items ++ flat_map (λ other. 58 ∷ 58 ∷ other) names.now) }
{
    for name in names {
        push_other(text, name.items())?;
    }
    Ok(())
}

/// Adds a name behind `::`.
fn push_other(text: &mut Vec<u8>, name: &[u8]) -> Mem<()>
    ensures { OnOk result (text.new.items ≡ text.old.items ++ (58 ∷ 58 ∷ name.now)) }
{
    text.extend_from_slice(b"::")?;
    text.extend_from_slice(name)?;
    Ok(())
}

/// Adds an item behind a dot, where there is one.
fn push_item(text: &mut Vec<u8>, item: &Option<Name>) -> Mem<()>
    ensures { OnOk result (text.new.items ≡ text.old.items ++ dotted item.now) }
{
    if let Some(item) = item {
        text.push(b'.')?;
        text.extend_from_slice(item.items())?;
    }
    Ok(())
}
