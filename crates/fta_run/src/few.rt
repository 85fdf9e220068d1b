//! What is made of texts that were read, and may be too many or too long.

ghost use Rattle.std.specs.Prelude.{◌≤◌, All, IfOk, length};
ghost use Rattle.phases.specs.inner.Meets.{IsMemory, Meets, MeetsBut};
ghost use Rattle.fta_run.specs.Due.{within_limits};
ghost use Rattle.fta_run.specs.Files.{most_bytes, most_files};
ghost use Rattle.fta_run.specs.Forms.{profile_of};
ghost use Rattle.fta_run.specs.inner.Read.{few_texts, model_read, units_read};

use crate::forms::profile_of;
use crate::input::{MOST_FILES, check_each, check_total, units_of_texts};
use crate::model::model_of_texts;
use aadl_syntax::Unit;
use fta_words::Form;
use model_phases::FlatModel;
use phases::Status;
use plain_values::{Code, List, Name, Refusal, Root};
use std::alloc::Global;

/// The units of the files of these texts, which may be too many or too long.
pub fn units_read(alloc: Global, texts: &[Name]) -> Result<List<List<Unit>>, Status>
    ensures { Meets (units_read texts.now) result }
{
    check_few(texts)?;
    units_of_texts(alloc, texts)
}

/// The model of a root in the files of these texts, which may be too many or too long, read by the profile that options say, as a system.
pub fn model_read(
    alloc: Global,
    form: &Form,
    root: &Root,
    texts: &[Name],
) -> Result<FlatModel, Status>
    ensures { Meets (model_read (profile_of form.now) root.now texts.now) result }
{
    check_few(texts)?;
    model_of_texts(alloc, profile_of(form), root, texts)
}

/// Refuses texts that are too many, or too long.
fn check_few(texts: &[Name]) -> Result<(), Status>
    ensures tested { MeetsBut IsMemory (λ _. texts.now) (few_texts texts.now) result }
    ensures few { IfOk result (λ _. length texts.now ≤ most_files) }
    ensures short { IfOk result (λ _. All (λ text. length text ≤ most_bytes) texts.now) }
{
    if texts.len() > MOST_FILES {
        return Err(Status::Refused(Refusal::of_words(Code::TooManyFiles)));
    }
    check_limits(texts)
}

/// Refuses texts of which one is too long, or which are too long together.
fn check_limits(texts: &[Name]) -> Result<(), Status>
    requires { length texts.now ≤ most_files }
    ensures tested { MeetsBut IsMemory (λ _. texts.now) (within_limits texts.now) result }
    ensures short { IfOk result (λ _. All (λ text. length text ≤ most_bytes) texts.now) }
{
    check_each(texts)?;
    check_total(texts)?;
    Ok(())
}
