//! What is told of the requirements that stand in a file before those of the model.

ghost use Rattle.std.specs.Prelude.{◌≡◌, min};
ghost use Rattle.plain_values.specs.Refusal.{refusal};
ghost use Rattle.phases.specs.inner.Meets.{IsMemory, MeetsBut};
ghost use Rattle.fta_run.specs.Due.{required_in};
ghost use Rattle.fta_run.specs.Required.{byte_place, line_form, mistake_code, placed_at, required_text};
ghost use Rattle.fta_run.specs.inner.Required.{status_of_fault, output_of};

use crate::confirmed::later_model;
use crate::input::Texts;
use model_phases::FlatModel;
use phases::Status;
use plain_values::{Code, Place, Refusal, Root};
use profiles::Profile;
use requirement_lines::{LineForm, RequirementFault, Told, require};
use requirement_names::Mistake;
use std::alloc::Global;

/// What is told of the requirements in the first text, over the model of the root in files of the other texts: as lines, or as TAP.
pub fn required(
    alloc: Global,
    profile: Profile,
    root: &Root,
    tap: bool,
    texts: Texts,
) -> Result<Told, Status>
    ensures { MeetsBut IsMemory output_of (required_in profile root.now tap texts) result }
{
    let model = later_model(alloc, profile, root, 1, texts.others())?;
    let told = told_over(alloc, &model, texts.first(), tap)?;
    Ok(told)
}

/// What is told of the requirements of a text over a model.
fn told_over(alloc: Global, model: &FlatModel, text: &[u8], tap: bool) -> Result<Told, Status>
    ensures { MeetsBut IsMemory output_of (required_text tap text.now model.now.system model.now.rates) result }
{
    match require(
        alloc,
        &model.system,
        model.rates.items(),
        text,
        line_form(tap),
    ) {
        Ok(told) => Ok(told),
        Err(fault) => Err(status_of(fault)),
    }
}

/// Lines, or TAP where that is asked for.
fn line_form(tap: bool) -> LineForm
    ensures { result ≡ line_form tap }
{
    if tap { LineForm::Tap } else { LineForm::Plain }
}

/// The status of a fault of requirements.
fn status_of(fault: RequirementFault) -> Status
    ensures { result ≡ status_of_fault fault }
{
    match fault {
        RequirementFault::Memory => Status::Memory,
        RequirementFault::Unread(at) => refused_at(Code::BadRequirement, at),
        RequirementFault::Unnamed(word) => refused_at(mistake_code(word.mistake), word.at),
        RequirementFault::NoRequirement => {
            Status::Refused(Refusal::new(Code::NoRequirement, Place::Whole(0)))
        }
        RequirementFault::TooLarge(refusal, at) => Status::Refused(placed_at(at, refusal)),
    }
}

/// The status of a refusal at a byte of the file of requirements.
fn refused_at(code: Code, at: usize) -> Status
    ensures { result ≡ Status.Refused (refusal code (byte_place at)) }
{
    Status::Refused(Refusal::new(code, byte_place(at)))
}

/// A refusal, at a byte of the file of requirements.
fn placed_at(at: usize, refusal: Refusal) -> Refusal
    ensures { result ≡ placed_at at refusal }
{
    Refusal {
        code: refusal.code,
        place: byte_place(at),
        limit: refusal.limit,
    }
}

/// A byte of the file of requirements, up to the greatest number of 32 bits.
fn byte_place(at: usize) -> Place
    ensures { result ≡ byte_place at }
{
    Place::At {
        file: 0,
        at: small_number(at),
    }
}

/// A number, up to the greatest of 32 bits.
fn small_number(number: usize) -> u32
    ensures { result ≡ min number 4294967295 }
{
    match u32::try_from(number) {
        Ok(number) => number,
        Err(_) => 4_294_967_295,
    }
}

/// The code of what is wrong with a name.
fn mistake_code(mistake: Mistake) -> Code
    ensures { result ≡ mistake_code mistake }
{
    match mistake {
        Mistake::DuplicateName => Code::DuplicateRequirement,
        Mistake::UnknownTarget => Code::UnknownRequirementTarget,
        Mistake::UnknownGroup => Code::UnknownGroup,
        Mistake::EmptyGroup => Code::EmptyGroup,
        Mistake::BadToken => Code::BadException,
    }
}
