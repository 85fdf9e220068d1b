//! The digests of files: what a manifest keeps of them.
#![tactic(auto)]

ghost use Rattle.std.specs.Prelude.{◌≡◌, ◌++◌, IfOk, OnOk};
ghost use Rattle.hex.specs.Hex.{encode_lower};
ghost use Rattle.sha2.specs.Sha256.{sha256};
ghost use Rattle.file_digests.specs.Digests.{digest_line, digest_lines, digest_text, digest_texts};

use plain_values::{List, Mem, Name, Word};
use sha2::{Digest, Sha256};
use std::alloc::Global;

/// Adds a line for each of some files, of these names and with these texts: the SHA-256 of the text in 64 lower-case hexadecimal digits,
/// two blanks, and the name. So `sha256sum -c` reads it.
pub fn push_digests(text: &mut Vec<u8>, names: &[Word], texts: &[Name]) -> Mem<()>
    ensures { OnOk result (text.new.items ≡ text.old.items ++ digest_lines names.now texts.now) }
{
    let Some((name, names)) = names.split_first() else {
        return Ok(());
    };
    let Some((file, texts)) = texts.split_first() else {
        return Ok(());
    };
    push_digest(text, name.items(), file.items())?;
    push_digests(text, names, texts)
}

/// Adds the digests of some files, of these names and with these texts, each as a line of its own, without what ends a line.
pub fn add_digests(alloc: Global, lines: &mut List<Name>, names: &[Word], texts: &[Name]) -> Mem<()>
    ensures { OnOk result (lines.new ≡ lines.old ++ digest_texts names.now texts.now) }
{
    let Some((name, names)) = names.split_first() else {
        return Ok(());
    };
    let Some((file, texts)) = texts.split_first() else {
        return Ok(());
    };
    let line = digest_of(alloc, name.items(), file.items())?;
    lines.push(line)?;
    add_digests(alloc, lines, names, texts)
}

/// The digest of a file.
fn digest_of(alloc: Global, name: &[u8], file: &[u8]) -> Mem<Name>
    ensures { IfOk result (λ text. text ≡ digest_text name.now file.now) }
{
    let mut text = Vec::new(alloc);
    push_digest_text(&mut text, name, file)?;
    List::of(text)
}

/// Adds the line of a file.
fn push_digest(text: &mut Vec<u8>, name: &[u8], file: &[u8]) -> Mem<()>
    ensures { OnOk result (text.new.items ≡ text.old.items ++ digest_line name.now file.now) }
{
    push_digest_text(text, name, file)?;
    text.push(b'\n')?;
    Ok(())
}

/// Adds the digest of a file.
fn push_digest_text(text: &mut Vec<u8>, name: &[u8], file: &[u8]) -> Mem<()>
    ensures { OnOk result (text.new.items ≡ text.old.items ++ digest_text name.now file.now) }
{
    text.extend_from_slice(&digits_of(file))?;
    text.extend_from_slice(b"  ")?;
    text.extend_from_slice(name)?;
    Ok(())
}

/// The SHA-256 of a text, in lower-case hexadecimal digits.
fn digits_of(text: &[u8]) -> [u8; 64]
    ensures { result ≡ encode_lower (sha256 text.now) }
{
    let mut digits = [0u8; 64];
    hex::encode_to_slice(Sha256::digest(text).as_slice(), &mut digits).unwrap();
    digits
}
