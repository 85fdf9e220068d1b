//! The text of `refusals`.

ghost use Rattle.std.specs.Prelude.{◌≤◌, All, IfOk, length};
ghost use Rattle.fta_run.specs.Due.{model_of_texts, units_of};
ghost use Rattle.fta_run.specs.Files.{most_bytes, most_files};
ghost use Rattle.fta_run.specs.Groups.{TellsRefusals};

use crate::model::told_model;
use model_phases::FlatModel;
use noted_refusals::Refusals;
use phases::Status;
use plain_values::{Mem, Name, Root, Word};
use profiles::Profile;
use refusal_lines::{MOST_REFUSALS, group_text};
use std::alloc::{AllocError, Global};

/// What is refused of the model of a root in files of these names and texts: the refusals of the group of which the first is the verdict.
pub(crate) fn refusals_text(
    alloc: Global,
    profile: Profile,
    root: &Root,
    files: &[Word],
    texts: &[Name],
) -> Mem<Vec<u8>>
    requires few { length texts.now ≤ most_files }
    requires short { All (λ text. length text ≤ most_bytes) texts.now }
    ensures { IfOk result (λ text. TellsRefusals (model_of_texts profile root.now texts.now) (units_of texts.now) profile root.now files.now texts.now text.items) }
{
    let mut refusals = Refusals::with_room(alloc, MOST_REFUSALS)?;
    let tested: Result<FlatModel, Status> = told_model(alloc, profile, root, texts, &mut refusals);
    match tested {
        Ok(_) => Vec::from_slice(alloc, b"end\n"),
        Err(Status::Refused(refusal)) => group_text(alloc, files, texts, &refusal, &refusals),
        Err(_) => Err(AllocError),
    }
}
