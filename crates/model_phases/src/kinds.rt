ghost use Rattle.std.specs.Prelude.{◌≡◌, [], IfErr, IfOk, map, option_to_list};
ghost use Rattle.phases.specs.Phases.{tests};
ghost use Rattle.error_libraries.specs.Libraries.{HasTooManyTypes, table_of};
ghost use Rattle.error_models.specs.Below.{kind_machine};
ghost use Rattle.error_models.specs.Models.{model_of};
ghost use Rattle.error_models.specs.Refused.{all_set_refusals, machines_refusal, models_group};
ghost use Rattle.noted_refusals.specs.Groups.{or_group};
ghost use Rattle.model_phases.specs.Groups.{kinds_group};
ghost use Rattle.model_phases.specs.inner.Told.{ToldFirst, ToldOf};
ghost use Rattle.model_phases.specs.Phases.{content_tests, kind_tests};
ghost use Rattle.model_phases.specs.Tests.{IsIt};
ghost use Rattle.model_phases.specs.inner.Tests.{MeetsTests};

use error_machines::UsedMachine;
use error_models::{ErrorModel, machines_of, models_of, test_sets};
use error_types::{Reading, TypeTable};
use instantiator::Instance;
use noted_refusals::Refusals;
use phases::Status;
use plain_values::List;
use profiles::Profile;
use std::alloc::Global;

/// The error types of the packages of an instance, and the error model of each of its kinds, in order.
#[derive(Drop)]
pub(crate) struct Kinds<'i, 'a> {
    pub types: TypeTable<'i, 'a>,
    pub models: List<ErrorModel<'a>>,
}

/// The error models of the kinds of an instance, read by this profile.
pub(crate) fn kinds_of<'i, 'a>(
    alloc: Global,
    profile: Profile,
    instance: &Instance<'i, 'a>,
    refusals: &mut Refusals,
) -> Result<Kinds<'i, 'a>, Status>
    ensures tested { MeetsTests (kind_tests profile instance.now) result }
    ensures told { IfErr result (ToldFirst (kinds_group profile instance.now) refusals.new) }
    ensures types { IfOk result (λ kinds. kinds.types ≡ table_of profile instance.now.packages) }
    ensures models { IfOk result (λ kinds. kinds.models ≡ map (model_of (table_of profile instance.now.packages) instance.now.kinds) instance.now.kinds) }
{
    let machines = machines_in(alloc, instance, refusals)?;
    let mut reading = reading_of(alloc, profile, instance, refusals)?;
    let models = noted_models(alloc, instance, &machines, &mut reading, refusals)?;
    Ok(Kinds {
        types: reading.types,
        models,
    })
}

/// The machines of the kinds of an instance, in order; a kind may use none.
fn machines_in<'a>(
    alloc: Global,
    instance: &Instance<'_, 'a>,
    refusals: &mut Refusals,
) -> Result<List<Option<UsedMachine<'a>>>, Status>
    ensures tested { MeetsTests (tests (IsIt (machines_refusal instance.now.packages instance.now.kinds))) result }
    ensures told { IfErr result (ToldFirst (option_to_list (machines_refusal instance.now.packages instance.now.kinds)) refusals.new) }
    ensures machines { IfOk result (λ machines. machines ≡ map (kind_machine instance.now.packages) instance.now.kinds) }
{
    Ok(machines_of(alloc, instance, refusals)?)
}

/// A reading with the error types of the packages of an instance, which takes over what is noted.
fn reading_of<'i, 'a>(
    alloc: Global,
    profile: Profile,
    instance: &Instance<'i, 'a>,
    refusals: &mut Refusals,
) -> Result<Reading<'i, 'a>, Status>
    ensures tested { MeetsTests (tests (HasTooManyTypes instance.now.packages)) result }
    ensures told { IfErr result (ToldOf [] refusals.new) }
    ensures types { IfOk result (λ reading. reading.types ≡ table_of profile instance.now.packages) }
{
    let types = types_of(alloc, profile, instance, refusals)?;
    let noted = std::mem::replace(refusals, Refusals::new(alloc));
    Ok(Reading::new(types, noted))
}

/// The error types of the packages of an instance. Their refusal is noted.
fn types_of<'i, 'a>(
    alloc: Global,
    profile: Profile,
    instance: &Instance<'i, 'a>,
    refusals: &mut Refusals,
) -> Result<TypeTable<'i, 'a>, Status>
    ensures tested { MeetsTests (tests (HasTooManyTypes instance.now.packages)) result }
    ensures told { IfErr result (ToldOf [] refusals.new) }
    ensures types { IfOk result (λ types. types ≡ table_of profile instance.now.packages) }
{
    match TypeTable::new(alloc, profile, instance.index()) {
        Ok(types) => Ok(types),
        Err(stop) => Err(Status::from(refusals.only(stop))),
    }
}

/// The error models of the kinds of an instance, which have these machines. What is noted in the reading is handed back.
fn noted_models<'a>(
    alloc: Global,
    instance: &Instance<'_, 'a>,
    machines: &List<Option<UsedMachine<'a>>>,
    reading: &mut Reading<'_, 'a>,
    refusals: &mut Refusals,
) -> Result<List<ErrorModel<'a>>, Status>
    requires machines { machines.now ≡ map (kind_machine instance.now.packages) instance.now.kinds }
    requires table { reading.old.types ≡ table_of reading.old.types.profile instance.now.packages }
    ensures tested { MeetsTests (content_tests reading.old.types instance.now.kinds) result }
    ensures told { IfErr result (ToldFirst (or_group (all_set_refusals reading.old.types instance.now.kinds) (models_group reading.old.types instance.now.kinds)) refusals.new) }
    ensures kept { reading.new.types ≡ reading.old.types }
    ensures models { IfOk result (λ models. models ≡ map (model_of reading.old.types instance.now.kinds) instance.now.kinds) }
{
    let read = models_with(alloc, instance, machines, reading);
    std::mem::swap(refusals, &mut reading.refusals);
    read
}

/// The error models of the kinds of an instance, which have these machines, once the written sets that they use are tested.
fn models_with<'a>(
    alloc: Global,
    instance: &Instance<'_, 'a>,
    machines: &List<Option<UsedMachine<'a>>>,
    reading: &mut Reading<'_, 'a>,
) -> Result<List<ErrorModel<'a>>, Status>
    requires machines { machines.now ≡ map (kind_machine instance.now.packages) instance.now.kinds }
    requires table { reading.old.types ≡ table_of reading.old.types.profile instance.now.packages }
    ensures tested { MeetsTests (content_tests reading.old.types instance.now.kinds) result }
    ensures told { IfErr result (ToldFirst (or_group (all_set_refusals reading.old.types instance.now.kinds) (models_group reading.old.types instance.now.kinds)) reading.new.refusals) }
    ensures kept { reading.new.types ≡ reading.old.types }
    ensures models { IfOk result (λ models. models ≡ map (model_of reading.old.types instance.now.kinds) instance.now.kinds) }
{
    test_sets(alloc, instance, machines.items(), reading)?;
    Ok(models_of(alloc, instance, machines.items(), reading)?)
}
