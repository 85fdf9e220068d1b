ghost use Rattle.std.specs.Prelude.{◌≡◌, [], IfErr, IfOk};
ghost use Rattle.phases.specs.inner.Meets.{Meets};
ghost use Rattle.phases.specs.Phases.{tests};
ghost use Rattle.instantiator.specs.Refused.{instance_group, instance_refusal};
ghost use Rattle.instantiator.specs.Whole.{instance_of};
ghost use Rattle.propagation_links.specs.Links.{links_of};
ghost use Rattle.propagation_links.specs.Refused.{links_group, links_refusal};
ghost use Rattle.model_facts.specs.Assembly.{points_in};
ghost use Rattle.model_phases.specs.Phases.{assembled, sized};
ghost use Rattle.model_phases.specs.Tests.{IsIt};
ghost use Rattle.model_phases.specs.Groups.{root_group};
ghost use Rattle.model_phases.specs.inner.Told.{ToldFirst, ToldOf};
ghost use Rattle.model_phases.specs.inner.Tests.{MeetsTests};

use crate::kinds::{Kinds, kinds_of};
use crate::system::numbered_model;
use event_rates::rates_of;
use fact_formulas::NumberedModel;
use fault_system::FaultSystem;
use instantiator::Instance;
use model_facts::{Assembly, points_of_models};
use noted_refusals::Refusals;
use package_index::{ClassifierId, Index};
use phases::Status;
use plain_values::{List, Stop};
use profiles::Profile;
use propagation_links::{Link, links_of};
use property_reader::Rate;
use std::alloc::Global;

/// A model as a system.
#[derive(Drop)]
pub struct FlatModel {
    /// How many components it has.
    pub components: u32,
    /// Its facts and its events.
    pub system: FaultSystem,
    /// The numbers of its facts that are effects of failures, rising: that a component is in a state which is not an initial one,
    /// and that an error exits at a point.
    pub effects: List<u32>,
    /// The rate of each event.
    pub rates: List<Rate>,
}

/// What is made of a model that is put together.
pub trait FromAssembly: Sized {
    ghost use Rattle.phases.specs.inner.Meets.{Meets};
    ghost use Rattle.phases.specs.Phases.{Phase};
    ghost use Rattle.model_facts.specs.Assembly.{Assembly as Seen};
    ghost use Rattle.model_phases.specs.inner.Numbered.{IsNumbered};

    /// What is due of a model that is put together.
    ghost phase: { Seen → Phase Self };

    /// Makes it of a model, of which this is what was made so far.
    fn of(alloc: Global, assembly: &Assembly, model: NumberedModel) -> Result<Self, Status>
        requires { IsNumbered assembly.now model }
        ensures { Meets (phase assembly.now) result };
}

impl FromAssembly for FlatModel {
    ghost use Rattle.model_phases.specs.Phases.{flat_phase};

    ghost phase = { flat_phase };

    fn of(alloc: Global, assembly: &Assembly, model: NumberedModel) -> Result<FlatModel, Status> {
        let profile = assembly.types().profile();
        let events = model.system.event_infos();
        let rates = rates_of(alloc, profile, assembly.instance(), events)?;
        Ok(FlatModel {
            components: assembly.instance().components().len() as u32,
            system: model.system,
            effects: model.effects,
            rates,
        })
    }
}

/// The model of a root in the packages of an index, read by this profile and put together, and what is made of it.
///
/// It is tested phase by phase, and the first that refuses decides: its components (M4, M5, N2 to N6, P1 to P3), their machines
/// (N2, N15), the error types (M8), the written sets that are used (N2, N7, N8, P4), the error models (N9 to N13, P3, P5
/// to P8, P11, P12), the links (M14, N14, P3, P9), and then the size (M6, M7, M9). Rates are not tested: a value that
/// is none gives the conservative rate. The refusals of the group that refuses are noted, in place of what was noted before.
pub fn assembled<M: FromAssembly>(
    alloc: Global,
    profile: Profile,
    index: &Index,
    root: ClassifierId,
    refusals: &mut Refusals,
) -> Result<M, Status>
    ensures made { Meets (assembled M.phase profile index.now root) result }
    ensures told { IfErr result (ToldOf (root_group profile index.now root) refusals.new) }
{
    let instance = instance_at(alloc, index, root, refusals)?;
    let kinds = kinds_of(alloc, profile, &instance, refusals)?;
    let links = links_between(alloc, profile, &instance, &kinds, refusals)?;
    noted_made(alloc, &instance, &kinds, &links, refusals)
}

/// The instance of a root.
fn instance_at<'i, 'a>(
    alloc: Global,
    index: &'i Index<'a>,
    root: ClassifierId,
    refusals: &mut Refusals,
) -> Result<Instance<'i, 'a>, Status>
    ensures tested { MeetsTests (tests (IsIt (instance_refusal index.now root))) result }
    ensures told { IfErr result (ToldFirst (instance_group index.now root) refusals.new) }
    ensures instance { IfOk result (λ instance. instance ≡ instance_of index.now root) }
{
    Ok(Instance::of(alloc, index, root, refusals)?)
}

/// The links of an instance whose kinds have these error models, under a profile.
fn links_between<'a>(
    alloc: Global,
    profile: Profile,
    instance: &Instance<'_, 'a>,
    kinds: &Kinds<'_, 'a>,
    refusals: &mut Refusals,
) -> Result<List<Link>, Status>
    ensures tested { MeetsTests (tests (IsIt (links_refusal profile instance.now (points_in kinds.now.models)))) result }
    ensures told { IfErr result (ToldFirst (links_group profile instance.now (points_in kinds.now.models)) refusals.new) }
    ensures links { IfOk result (λ links. links ≡ links_of profile instance.now (points_in kinds.now.models)) }
{
    let points = points_of_models(alloc, kinds.models.items())?;
    Ok(links_of(alloc, profile, instance, points.items(), refusals)?)
}

/// What is made of an instance whose kinds have these error models, and which has these links. A refusal is noted, in place of what was
/// noted before.
fn noted_made<'m, 'i, 'a, M: FromAssembly>(
    alloc: Global,
    instance: &'m Instance<'i, 'a>,
    kinds: &'m Kinds<'i, 'a>,
    links: &'m List<Link>,
    refusals: &mut Refusals,
) -> Result<M, Status>
    ensures made { Meets (sized M.phase (record { instance = instance.now; types = kinds.now.types; models = kinds.now.models; links = links.now })) result }
    ensures told { IfErr result (ToldOf [] refusals.new) }
{
    match made_of(alloc, instance, kinds, links) {
        Ok(made) => Ok(made),
        Err(status) => Err(noted_alone(status, refusals)),
    }
}

/// Notes the refusal with which a call ends, if it ends with one, in place of what was noted before. Hands back how it ends.
pub fn noted_alone(status: Status, refusals: &mut Refusals) -> Status
    ensures status { result ≡ status }
    ensures told { ToldOf [] refusals.new status }
{
    if let Status::Refused(refusal) = &status {
        refusals.only(Stop::Refused(*refusal));
    }
    status
}

/// What is made of an instance whose kinds have these error models, and which has these links.
fn made_of<'m, 'i, 'a, M: FromAssembly>(
    alloc: Global,
    instance: &'m Instance<'i, 'a>,
    kinds: &'m Kinds<'i, 'a>,
    links: &'m List<Link>,
) -> Result<M, Status>
    ensures { Meets (sized M.phase (record { instance = instance.now; types = kinds.now.types; models = kinds.now.models; links = links.now })) result }
{
    let assembly = Assembly::new(instance, &kinds.types, kinds.models.items(), links.items());
    sized(alloc, &assembly)
}

/// What is made of a model that is put together, and is not too large.
fn sized<M: FromAssembly>(alloc: Global, assembly: &Assembly) -> Result<M, Status>
    ensures { Meets (sized M.phase assembly.now) result }
{
    let model = numbered_model(alloc, assembly)?;
    M::of(alloc, assembly, model)
}
