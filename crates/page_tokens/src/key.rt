//! The key of what a page is asked of.

ghost use Rattle.std.specs.Prelude.{◌≡◌, ◌++◌, ◌∷◌, List, ℕ, decimal};
ghost use Rattle.std.specs.List.{flat_map};
ghost use Rattle.hex.specs.Hex.{encode_lower};
ghost use Rattle.page_tokens.specs.Keys.{asked_digits, asks_digits, dotted, file_text, files_text, joined, key_digits, line, order_text, profile_text, root_text};

use crate::token::begins_new;
use itoa::Buffer;
use plain_values::{Name, Root};
use profiles::Profile;
use sha2::{Digest, Sha256};

/// The digits of the key of what a page is asked of: the SHA-256 of the profile where it is not the first, of the folded root and target,
/// of the greatest number of events of a set, and of the bytes of the files in their order, in 64 lower-case hexadecimal digits. It
/// takes no memory.
pub fn page_digest(
    profile: Profile,
    root: &Root,
    target: &Name,
    max_order: Option<u32>,
    files: &[Name],
) -> [u8; 64]
    ensures { result ≡ key_digits profile root.now target.now max_order files.now }
{
    let mut hasher = Sha256::new();
    feed_profile(&mut hasher, profile);
    feed_root(&mut hasher, root);
    feed_line(&mut hasher, target.items());
    feed_order(&mut hasher, max_order);
    feed_files(&mut hasher, files);
    digits_of(&hasher.finalize())
}

/// The digits of the key where they are asked for, for the last line of a page or by a token of the second version, and else zeros.
pub fn asked_digest(
    tokens: bool,
    after: &Option<Name>,
    profile: Profile,
    root: &Root,
    target: &Name,
    max_order: Option<u32>,
    files: &[Name],
) -> [u8; 64]
    ensures { result ≡ asked_digits tokens after.now profile root.now target.now max_order files.now }
{
    if asks_digits(tokens, after) {
        page_digest(profile, root, target, max_order, files)
    } else {
        [b'0'; 64]
    }
}

fn asks_digits(tokens: bool, after: &Option<Name>) -> bool
    ensures { result ≡ asks_digits tokens after.now }
{
    match after {
        None => tokens,
        Some(text) => tokens || begins_new(text.items()),
    }
}

/// Some bytes in lower-case hexadecimal digits.
fn digits_of(bytes: &[u8; 32]) -> [u8; 64]
    ensures { result ≡ encode_lower bytes.now }
{
    let mut digits = [0u8; 64];
    hex::encode_to_slice(bytes.as_slice(), &mut digits).unwrap();
    digits
}

fn feed<D: Digest>(hasher: &mut D, text: &[u8])
    ensures { (m : List ℕ) → D.holds hasher.old m → D.holds hasher.new (m ++ text.now) }
{
    hasher.update(text);
}

fn feed_line<D: Digest>(hasher: &mut D, text: &[u8])
    ensures { (m : List ℕ) → D.holds hasher.old m → D.holds hasher.new (m ++ line text.now) }
{
    feed(hasher, text);
    feed(hasher, b"\n");
}

fn feed_profile<D: Digest>(hasher: &mut D, profile: Profile)
    ensures { (m : List ℕ) → D.holds hasher.old m → D.holds hasher.new (m ++ profile_text profile) }
{
    match profile {
        Profile::First => feed(hasher, b""),
        Profile::Second => feed_line(hasher, b"profile 2"),
    }
}

fn feed_root<D: Digest>(hasher: &mut D, root: &Root)
    ensures { (m : List ℕ) → D.holds hasher.old m → D.holds hasher.new (m ++ line (root_text root.now)) }
{
    feed_names(hasher, root.names.items());
    feed_item(hasher, &root.item);
    feed(hasher, b"\n");
}

fn feed_names<D: Digest>(hasher: &mut D, names: &[Name])
    ensures { (m : List ℕ) → D.holds hasher.old m → D.holds hasher.new (m ++ joined names.now) }
{
    match names.split_first() {
        None => feed(hasher, b""),
        Some((name, others)) => {
            feed(hasher, name.items());
            feed_others(hasher, others);
        }
    }
}

fn feed_others<D: Digest>(hasher: &mut D, names: &[Name])
    ensures { (m : List ℕ) → D.holds hasher.old m → D.holds hasher.new (m ++ flat_map (λ other. 58 ∷ 58 ∷ other) names.now) }
{
    for name in names {
        feed_other(hasher, name.items());
    }
}

fn feed_other<D: Digest>(hasher: &mut D, name: &[u8])
    ensures { (m : List ℕ) → D.holds hasher.old m → D.holds hasher.new (m ++ (58 ∷ 58 ∷ name.now)) }
{
    feed(hasher, b"::");
    feed(hasher, name);
}

fn feed_item<D: Digest>(hasher: &mut D, item: &Option<Name>)
    ensures { (m : List ℕ) → D.holds hasher.old m → D.holds hasher.new (m ++ dotted item.now) }
{
    match item {
        None => feed(hasher, b""),
        Some(item) => {
            feed(hasher, b".");
            feed(hasher, item.items());
        }
    }
}

fn feed_order<D: Digest>(hasher: &mut D, max_order: Option<u32>)
    ensures { (m : List ℕ) → D.holds hasher.old m → D.holds hasher.new (m ++ line (order_text max_order)) }
{
    match max_order {
        None => feed_line(hasher, b"-"),
        Some(most) => feed_number(hasher, most as usize),
    }
}

fn feed_number<D: Digest>(hasher: &mut D, number: usize)
    ensures { (m : List ℕ) → D.holds hasher.old m → D.holds hasher.new (m ++ line (decimal number)) }
{
    let mut digits = Buffer::new();
    feed_line(hasher, digits.format(number).as_bytes());
}

fn feed_files<D: Digest>(hasher: &mut D, files: &[Name])
    ensures { (m : List ℕ) → D.holds hasher.old m → D.holds hasher.new (m ++ files_text files.now) }
{
    feed_number(hasher, files.len());
    feed_each(hasher, files);
}

fn feed_each<D: Digest>(hasher: &mut D, files: &[Name])
    ensures { (m : List ℕ) → D.holds hasher.old m → D.holds hasher.new (m ++ flat_map file_text files.now) }
{
    for file in files {
        feed_file(hasher, file.items());
    }
}

fn feed_file<D: Digest>(hasher: &mut D, file: &[u8])
    ensures { (m : List ℕ) → D.holds hasher.old m → D.holds hasher.new (m ++ file_text file.now) }
{
    feed_number(hasher, file.len());
    feed(hasher, file);
}
