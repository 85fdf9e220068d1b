//! The texts as a whole.

ghost use Rattle.std.specs.Prelude.{◌≡◌, ◌++◌, None, Some, IfOk, OnOk};
ghost use Rattle.std.specs.List.{flat_map};
ghost use Rattle.help_texts.specs.Texts.{help_text, line_of, lines_of, program_text, version_text};

use crate::commands as texts;
use fta_words::{KINDS, Kind, about_of, optional_of, usage_of};
use std::alloc::{AllocError, Global};

/// What `help` writes: the words of a command, what it writes, its options and an example; or a line for each command, and the exit
/// statuses.
pub fn help_text(alloc: Global, of: Option<Kind>) -> Result<Vec<u8>, AllocError>
    ensures { IfOk result (λ text. text.items ≡ help_text of) }
{
    match of {
        None => text_of_all(alloc),
        Some(kind) => text_of_one(alloc, kind),
    }
}

/// The program and its version, in one line, without what ends it.
pub fn program_text() -> &'static [u8]
    ensures { result.now ≡ program_text }
{
    texts::PROGRAM
}

/// What `version` writes: the version of the program, and its profiles.
pub fn version_text() -> &'static [u8]
    ensures { result.now ≡ version_text }
{
    texts::VERSIONS
}

/// A line for each command, and the exit statuses.
fn text_of_all(alloc: Global) -> Result<Vec<u8>, AllocError>
    ensures { IfOk result (λ text. text.items ≡ help_text None) }
{
    let mut text = lines_of_all(alloc, &KINDS)?;
    text.extend_from_slice(texts::STATUSES)?;
    Ok(text)
}

/// A line for each of these commands.
fn lines_of_all(alloc: Global, kinds: &[Kind]) -> Result<Vec<u8>, AllocError>
    ensures { IfOk result (λ text. text.items ≡ flat_map line_of kinds.now) }
{
    let mut text = Vec::new(alloc);
    for kind in kinds {
        put_line(&mut text, *kind)?;
    }
    Ok(text)
}

/// Adds the line of a command.
fn put_line(text: &mut Vec<u8>, kind: Kind) -> Result<(), AllocError>
    ensures { OnOk result (text.new.items ≡ text.old.items ++ line_of kind) }
{
    text.extend_from_slice(usage_of(kind))?;
    text.extend_from_slice(b": ")?;
    text.extend_from_slice(about_of(kind))?;
    text.push(b'\n')?;
    Ok(())
}

/// The words of a command, what it writes, its options and an example.
fn text_of_one(alloc: Global, kind: Kind) -> Result<Vec<u8>, AllocError>
    ensures { IfOk result (λ text. text.items ≡ help_text (Some kind)) }
{
    let mut text = Vec::from_slice(alloc, b"aadl_fta ")?;
    text.extend_from_slice(usage_of(kind))?;
    text.extend_from_slice(optional_of(kind))?;
    text.extend_from_slice(b"\n\n")?;
    text.extend_from_slice(lines_of(kind))?;
    Ok(text)
}

/// What a command writes, its options, and an example.
fn lines_of(kind: Kind) -> &'static [u8]
    ensures { result.now ≡ lines_of kind }
{
    match kind {
        Kind::Check => texts::CHECK,
        Kind::Cuts => texts::CUTS,
        Kind::Tree => texts::TREE,
        Kind::Fmea => texts::FMEA,
        Kind::Report => texts::REPORT,
        Kind::Make => texts::MAKE,
        Kind::Galileo => texts::GALILEO,
        Kind::Paths => texts::PATHS,
        Kind::Why => texts::WHY,
        Kind::Confirm => texts::CONFIRM,
        Kind::Targets => texts::TARGETS,
        Kind::Events => texts::EVENTS,
        Kind::Review => texts::REVIEW,
        Kind::Place => texts::PLACE,
        Kind::Manifest => texts::MANIFEST,
        Kind::Refusals => texts::REFUSALS,
        Kind::Probability => texts::PROBABILITY,
        Kind::Require => texts::REQUIRE,
        Kind::Compare => texts::COMPARE,
        Kind::Explain => texts::EXPLAIN,
        Kind::Help => texts::HELP,
        Kind::Version => texts::VERSION,
    }
}
