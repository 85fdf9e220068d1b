//! The model of the root.

ghost use Rattle.std.specs.Prelude.{◌≡◌, ◌≤◌, [], All, Err, IfErr, MatchResult, None, Ok, length};
ghost use Rattle.plain_values.specs.declared.refusal.Place.TheVariants.{Words as InWords};
ghost use Rattle.plain_values.specs.declared.refusal.Refusal.{Refusal};
ghost use Rattle.phases.specs.declared.status.Status.TheVariants.{Refused};
ghost use Rattle.phases.specs.inner.Meets.{Meets};
ghost use Rattle.package_index.specs.Lookup.{look_classifier, refused_at};
ghost use Rattle.model_phases.specs.inner.Told.{OnRefusal, ToldOf};
ghost use Rattle.fta_run.specs.Due.{made_of_texts, made_of_units, units_of};
ghost use Rattle.fta_run.specs.Files.{most_bytes, most_files};
ghost use Rattle.fta_run.specs.Groups.{units_group};
ghost use Rattle.fta_run.specs.inner.Told.{ListsFiles};

use crate::input::units_of_texts;
use aadl_syntax::Unit;
use model_phases::{FromAssembly, assembled, noted_alone};
use noted_refusals::Refusals;
use package_index::{ClassifierId, Index};
use phases::Status;
use plain_values::{List, Name, Root};
use profiles::Profile;
use std::alloc::Global;

/// What is made of the model of the root in files of these texts, read by a profile.
pub fn model_of_texts<M: FromAssembly>(
    alloc: Global,
    profile: Profile,
    root: &Root,
    texts: &[Name],
) -> Result<M, Status>
    requires few { length texts.now ≤ most_files }
    requires short { All (λ text. length text ≤ most_bytes) texts.now }
    ensures { Meets (made_of_texts M.phase profile root.now texts.now) result }
{
    let mut refusals = Refusals::new(alloc);
    told_model(alloc, profile, root, texts, &mut refusals)
}

/// The same; the refusals of the group that refuses are noted, in place of what was noted before.
pub(crate) fn told_model<M: FromAssembly>(
    alloc: Global,
    profile: Profile,
    root: &Root,
    texts: &[Name],
    refusals: &mut Refusals,
) -> Result<M, Status>
    requires few { length texts.now ≤ most_files }
    requires short { All (λ text. length text ≤ most_bytes) texts.now }
    ensures made { Meets (made_of_texts M.phase profile root.now texts.now) result }
    ensures told { IfErr result (OnRefusal (ListsFiles (units_of texts.now) profile root.now refusals.new)) }
{
    let files = told_units(alloc, texts, refusals)?;
    model_of_units(alloc, profile, root, &files, refusals)
}

/// The units of each text. A refusal is noted, in place of what was noted before.
fn told_units(
    alloc: Global,
    texts: &[Name],
    refusals: &mut Refusals,
) -> Result<List<List<Unit>>, Status>
    requires few { length texts.now ≤ most_files }
    requires short { All (λ text. length text ≤ most_bytes) texts.now }
    ensures units { Meets (units_of texts.now) result }
    ensures told { IfErr result (ToldOf [] refusals.new) }
{
    match units_of_texts(alloc, texts) {
        Ok(files) => Ok(files),
        Err(status) => Err(noted_alone(status, refusals)),
    }
}

/// What is made of the model of the root in these files, read by a profile, in which nothing is declared again.
fn model_of_units<M: FromAssembly>(
    alloc: Global,
    profile: Profile,
    root: &Root,
    files: &List<List<Unit>>,
    refusals: &mut Refusals,
) -> Result<M, Status>
    ensures made { Meets (made_of_units M.phase profile root.now files.now) result }
    ensures told { IfErr result (ToldOf (units_group profile root.now files.now) refusals.new) }
{
    let index = Index::new(alloc, files.items(), refusals)?;
    let id = told_root(&index, root, refusals)?;
    assembled(alloc, profile, &index, id, refusals)
}

/// The classifier that a root names. Its refusal is noted, in place of what was noted before.
fn told_root(index: &Index, root: &Root, refusals: &mut Refusals) -> Result<ClassifierId, Status>
    ensures found { MatchResult result (λ id. refused_at InWords (look_classifier index.now None root.now.names root.now.item) ≡ Ok id) (λ status. (refusal : Refusal) × (refused_at InWords (look_classifier index.now None root.now.names root.now.item) ≡ Err refusal) × (status ≡ Refused refusal)) }
    ensures told { IfErr result (ToldOf [] refusals.new) }
{
    match index.root(root) {
        Ok(id) => Ok(id),
        Err(refusal) => Err(noted_alone(Status::Refused(refusal), refusals)),
    }
}
