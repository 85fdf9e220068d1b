//! What changed between the minimal cut sets of a target in an older and in a newer model.

ghost use Rattle.std.specs.Prelude.{drop, take};
ghost use Rattle.phases.specs.inner.Meets.{IsMemory, Meets, MeetsBut};
ghost use Rattle.fta_run.specs.Compared.{compared_text};
ghost use Rattle.fta_run.specs.Due.{compared_in, model_of_texts};
ghost use Rattle.fta_run.specs.Later.{in_later_files};

use crate::confirmed::later_model;
use crate::input::Texts;
use crate::model::model_of_texts;
use fault_system::FaultSystem;
use listing_changes::{Side, changes};
use model_phases::FlatModel;
use phases::Status;
use plain_values::{Name, Root};
use profiles::Profile;
use std::alloc::Global;
use system_answers::{find_slice, find_target};

/// What changed from the model of the root in files of the first texts, of which there are so many, to that in files of the others: the
/// minimal cut sets of a target that are gone, and those that are new.
pub fn compared(
    alloc: Global,
    profile: Profile,
    root: &Root,
    target: &Name,
    count: u32,
    max_order: Option<u32>,
    texts: Texts,
) -> Result<Vec<u8>, Status>
    ensures { MeetsBut IsMemory (λ text. text.items) (compared_in profile root.now target.now count max_order texts) result }
{
    let older = older_model(alloc, profile, root, count, &texts)?;
    let newer = newer_model(alloc, profile, root, count, &texts)?;
    changes_between(alloc, &older.system, &newer.system, target, max_order)
}

/// The model of the root in files of the first texts.
fn older_model(
    alloc: Global,
    profile: Profile,
    root: &Root,
    count: u32,
    texts: &Texts,
) -> Result<FlatModel, Status>
    ensures { Meets (model_of_texts profile root.now (take count texts.now)) result }
{
    model_of_texts(alloc, profile, root, texts.before(count))
}

/// The model of the root in files of the other texts.
fn newer_model(
    alloc: Global,
    profile: Profile,
    root: &Root,
    count: u32,
    texts: &Texts,
) -> Result<FlatModel, Status>
    ensures { Meets (in_later_files count (model_of_texts profile root.now (drop count texts.now))) result }
{
    later_model(alloc, profile, root, count, texts.behind(count))
}

/// What changed between the minimal cut sets of a target in two systems.
fn changes_between(
    alloc: Global,
    older: &FaultSystem,
    newer: &FaultSystem,
    target: &Name,
    max_order: Option<u32>,
) -> Result<Vec<u8>, Status>
    ensures { MeetsBut IsMemory (λ text. text.items) (compared_text target.now max_order older.now newer.now) result }
{
    let before = find_target(older, target)?;
    let after = find_target(newer, target)?;
    let older_part = find_slice(alloc, older, before)?;
    let newer_part = find_slice(alloc, newer, after)?;
    let older_side = Side {
        system: older,
        part: &older_part,
    };
    let newer_side = Side {
        system: newer,
        part: &newer_part,
    };
    Ok(changes(alloc, &older_side, &newer_side, max_order)?)
}
