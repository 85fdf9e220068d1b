//! The answer on a derivation that stands in a file before those of the model.

ghost use Rattle.std.specs.Prelude.{◌≡◌, ◌≤◌, All, IfOk, length};
ghost use Rattle.phases.specs.inner.Meets.{IsMemory, Meets, MeetsBut};
ghost use Rattle.model_phases.specs.Named.{IsPlainModel};
ghost use Rattle.fta_run.specs.Due.{confirmed_in, model_of_texts};
ghost use Rattle.fta_run.specs.Files.{most_bytes, most_files};
ghost use Rattle.fta_run.specs.Later.{in_later_files, later_file, later_place, later_refusal};
ghost use Rattle.fta_run.specs.inner.Ready.{held_text};

use crate::input::Texts;
use crate::model::model_of_texts;
use crate::ready::Held;
use crate::sets::set_asked;
use model_phases::FlatModel;
use phases::Status;
use plain_values::{Name, Place, Refusal, Root};
use profiles::Profile;
use std::alloc::Global;
use system_answers::confirmed;

/// That the first text is a derivation of a target under the set of events that has this text, in the model of the root in files of the
/// other texts.
///
/// It stands apart in the program: the test of steps keeps its marks on the stack, and no other command is to pay for that.
#[inline(never)]
pub fn confirmation(
    alloc: Global,
    profile: Profile,
    root: &Root,
    target: &Name,
    set: &Name,
    texts: Texts,
) -> Result<Held, Status>
    ensures { MeetsBut IsMemory held_text (confirmed_in profile root.now target.now set.now texts) result }
{
    let model = later_model(alloc, profile, root, 1, texts.others())?;
    let set = set_asked(alloc, profile, set, &model.system)?;
    let text = confirmed(alloc, &model.system, target, &set, texts.first())?;
    Ok(Held::Text(text))
}

/// The model of the root in files of these texts, which stand behind so many others.
pub(crate) fn later_model(
    alloc: Global,
    profile: Profile,
    root: &Root,
    count: u32,
    texts: &[Name],
) -> Result<FlatModel, Status>
    requires few { length texts.now ≤ most_files }
    requires short { All (λ text. length text ≤ most_bytes) texts.now }
    ensures meets { Meets (in_later_files count (model_of_texts profile root.now texts.now)) result }
    ensures plain { IfOk result IsPlainModel }
{
    match model_of_texts(alloc, profile, root, texts) {
        Ok(model) => Ok(model),
        Err(Status::Refused(refusal)) => Err(Status::Refused(later_refusal(count, refusal))),
        // Beside refusals it ends for want of memory alone.
        Err(_) => Err(Status::Memory),
    }
}

/// The same refusal, in the file behind so many.
fn later_refusal(count: u32, refusal: Refusal) -> Refusal
    ensures { result ≡ later_refusal count refusal }
{
    Refusal {
        code: refusal.code,
        place: later_place(count, refusal.place),
        limit: refusal.limit,
    }
}

/// The same place, in the file behind so many.
fn later_place(count: u32, place: Place) -> Place
    ensures { result ≡ later_place count place }
{
    match place {
        Place::Words => Place::Words,
        Place::Whole(file) => Place::Whole(later_file(count, file)),
        Place::At { file, at } => Place::At {
            file: later_file(count, file),
            at,
        },
    }
}

/// The number of the file behind so many.
fn later_file(count: u32, file: u32) -> u32
    ensures { result ≡ later_file count file }
{
    file.saturating_add(count)
}
