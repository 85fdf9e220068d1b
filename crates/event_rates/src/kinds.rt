ghost use Rattle.std.specs.Prelude.{◌≡◌, IfOk, map, option_and_then, option_copied, option_map};
ghost use Rattle.aadl_syntax.specs.declared.error_model.MachineDecl.{MachineDecl as AnyMachine};
ghost use Rattle.error_machines.specs.Machines.{find_machine, machine_at};
ghost use Rattle.error_models.specs.Below.{machine_of};
ghost use Rattle.instantiator.specs.Whole.{classifier_at, effective_in};
ghost use Rattle.event_rates.specs.Associations.{clause_associations, further_keys, keys_at, last_fitting, machine_associations, machine_decl};
ghost use Rattle.event_rates.specs.inner.Listed.{associations_in, listed};
ghost use Rattle.event_rates.specs.inner.Rated.{rated};
ghost use Rattle.event_rates.specs.inner.Tables.{all_associations, effective_rates, fitting_in, id_found, kind_rates, machine_table};

use crate::table::AssociationTable;
use aadl_syntax::{Association, MachineDecl};
use component_extension::{Effective, InClause};
use error_machines::{MachineId, find_machine, machine_at};
use instantiator::Instance;
use package_index::{Index, Package};
use plain_values::{List, Mem, Name};
use profiles::Profile;
use rate_keys::{RateKey, rate_keys};
use std::alloc::Global;
use std::marker::Model;

/// What is known of components of a kind: the associations of their clauses, the machine that they use, and the further keys of
/// their events.
#[derive(Drop)]
pub(crate) struct KindRates<'r> {
    pub(crate) clauses: AssociationTable<'r>,
    pub(crate) machine: Option<MachineId>,
    pub(crate) keys: List<RateKey>,
}

/// An instance, with the associations of each of its kinds and of each machine of its packages, read by a profile. Contracts see the profile and the
/// instance.
#[derive(Drop)]
pub(crate) struct Tables<'r> {
    profile: Profile,
    instance: &'r Instance<'r, 'r>,
    kinds: List<KindRates<'r>>,
    machines: List<List<AssociationTable<'r>>>,
}

impl<'r> Model for Tables<'r> {
    ghost use Rattle.std.specs.Coded.{codes};
    ghost use Rattle.aadl_syntax.specs.contracts.error_model.Condition as condition;
    ghost use Rattle.event_rates.specs.inner.Rated.{Rated, rated};

    ghost Value = { Rated };

    ghost coded = { Prim.hlevel (codes, condition.the_row.coded) };

    ghost use Rattle.std.specs.Prelude.{◌≡◌, map};
    ghost use Rattle.event_rates.specs.inner.Tables.{all_associations, kind_rates};

    ghost view = { λ t. rated t.profile t.instance.now };

    ghost invariant = { λ t. (t.kinds ≡ map (kind_rates t.profile t.instance.now.packages) t.instance.now.kinds) × (t.machines ≡ all_associations t.profile t.instance.now.packages) };
}

impl<'r> Tables<'r> {
    /// The associations of an instance, read by a profile.
    pub(crate) fn of(
        alloc: Global,
        profile: Profile,
        instance: &'r Instance<'r, 'r>,
    ) -> Mem<Tables<'r>>
        ensures { IfOk result (λ tables. tables ≡ rated profile instance.now) }
    {
        let kinds = kinds_of(alloc, profile, instance)?;
        let machines = machines_of(alloc, profile, instance.index().packages())?;
        Ok(Tables {
            profile,
            instance,
            kinds,
            machines,
        })
    }

    /// The profile.
    pub(crate) fn profile(&self) -> Profile
        ensures { result ≡ self.now.profile }
    {
        self.profile
    }

    /// The instance.
    pub(crate) fn instance(&self) -> &'r Instance<'r, 'r>
        ensures { result.now ≡ self.now.instance }
    {
        self.instance
    }

    /// The associations of the clauses of a component, if it has a classifier.
    pub(crate) fn clauses_of(&self, component: u32) -> Option<&AssociationTable<'r>>
        ensures { associations_in (option_copied result) ≡ clause_associations (effective_in self.now.instance component) }
    {
        let kind = self.kind(component)?;
        Some(&kind.clauses)
    }

    /// The last association of the clauses of a component that fits these names.
    pub(crate) fn of_clauses(&self, component: u32, names: &[Name]) -> Option<&'r Association>
        ensures { option_copied result ≡ last_fitting self.now.profile names.now (clause_associations (effective_in self.now.instance component)) }
    {
        self.kind(component)?.clauses.last_fitting(names)
    }

    /// The further keys of the events of a component.
    pub(crate) fn keys_at(&self, component: u32) -> &[RateKey]
        ensures { result.now ≡ keys_at self.now.profile self.now.instance component }
    {
        match self.kind(component) {
            Some(kind) => kind.keys.items(),
            None => &[],
        }
    }

    /// The last association of the machine of a component that fits these names.
    pub(crate) fn of_machine(&self, component: u32, names: &[Name]) -> Option<&'r Association>
        ensures { option_copied result ≡ last_fitting self.now.profile names.now (machine_associations (machine_of self.now.instance.packages (effective_in self.now.instance component))) }
    {
        fitting_in(self.machine_table(component), names)
    }

    /// The associations of the machine of a component, if it has one.
    pub(crate) fn machine_of(&self, component: u32) -> Option<&AssociationTable<'r>>
        ensures { associations_in (option_copied result) ≡ machine_associations (machine_of self.now.instance.packages (effective_in self.now.instance component)) }
    {
        self.machine_table(component)
    }

    /// The same, with the profile.
    fn machine_table(&self, component: u32) -> Option<&AssociationTable<'r>>
        ensures { option_copied result ≡ machine_table self.now.profile (machine_of self.now.instance.packages (effective_in self.now.instance component)) }
    {
        let id = self.machine_id(component)?;
        self.machine(id)
    }

    /// The machine of a component, if it has one.
    fn machine_id(&self, component: u32) -> Option<MachineId>
        ensures { option_and_then (machine_at self.now.instance.packages) result ≡ machine_of self.now.instance.packages (effective_in self.now.instance component) }
    {
        self.kind(component)?.machine
    }

    /// What is known of the kind of a component, if it has one.
    fn kind(&self, component: u32) -> Option<&KindRates<'r>>
        ensures { option_copied result ≡ option_map (kind_rates self.now.profile self.now.instance.packages) (classifier_at self.now.instance component) }
    {
        self.kinds.items().get(self.instance.kind(component)?)
    }

    /// The associations of a machine.
    fn machine(&self, id: MachineId) -> Option<&AssociationTable<'r>>
        ensures { option_copied result ≡ machine_table self.now.profile (machine_at self.now.instance.packages id) }
    {
        self.machines
            .items()
            .get(id.package as usize)?
            .items()
            .get(id.machine)
    }
}

/// The last association of a table, if there is one, that fits these names.
fn fitting_in<'r>(table: Option<&AssociationTable<'r>>, names: &[Name]) -> Option<&'r Association>
    ensures { option_copied result ≡ fitting_in names.now (option_copied table.entry) }
{
    table?.last_fitting(names)
}

/// What is known of the kinds of an instance, in order.
fn kinds_of<'r>(
    alloc: Global,
    profile: Profile,
    instance: &'r Instance<'r, 'r>,
) -> Mem<List<KindRates<'r>>>
    ensures { IfOk result (λ kinds. kinds ≡ map (kind_rates profile instance.now.packages) instance.now.kinds) }
{
    let mut kinds = List::new(alloc);
    for kind in instance.kinds() {
        let row = effective_rates(alloc, profile, instance.index(), &kind.effective)?;
        kinds.push(row)?;
    }
    Ok(kinds)
}

/// What is known of components with this effective classifier.
fn effective_rates<'r>(
    alloc: Global,
    profile: Profile,
    index: &Index<'r>,
    effective: &Effective<'r>,
) -> Mem<KindRates<'r>>
    ensures { IfOk result (λ kind. kind ≡ effective_rates profile index.now effective.now) }
{
    let clauses = clauses_of(alloc, profile, effective.others.associations.items())?;
    let machine = machine_found(index, effective);
    let keys = further_keys(alloc, profile, index, effective)?;
    Ok(KindRates {
        clauses,
        machine,
        keys,
    })
}

/// The further keys of the events of components with this effective classifier: by the first profile there are none.
fn further_keys<'r>(
    alloc: Global,
    profile: Profile,
    index: &Index<'r>,
    effective: &Effective<'r>,
) -> Mem<List<RateKey>>
    ensures { IfOk result (λ keys. keys ≡ further_keys profile index.now effective.now) }
{
    match profile {
        Profile::First => Ok(List::new(alloc)),
        Profile::Second => rate_keys(alloc, machine_decl(index, effective), effective),
    }
}

/// The declaration of the machine of a component with this effective classifier, if it uses one that is found.
fn machine_decl<'r>(index: &Index<'r>, effective: &Effective<'r>) -> Option<&'r MachineDecl>
    ensures { option_copied result ≡ machine_decl index.now effective.now }
{
    let id = machine_found(index, effective)?;
    let machine = machine_at(index, id)?;
    Some(machine.decl())
}

/// The machine of a component with this effective classifier, if one is found.
fn machine_found(index: &Index<'_>, effective: &Effective<'_>) -> Option<MachineId>
    ensures { result ≡ id_found (find_machine index.now effective.now) }
{
    match find_machine(index, effective) {
        Ok(id) => id,
        Err(_) => None,
    }
}

/// The associations of clauses.
fn clauses_of<'r>(
    alloc: Global,
    profile: Profile,
    associations: &[InClause<'r, Association>],
) -> Mem<AssociationTable<'r>>
    ensures { IfOk result (λ table. table ≡ listed profile (map (λ scoped. scoped.item) associations.now)) }
{
    let mut list = List::new(alloc);
    for association in associations {
        list.push(association.item())?;
    }
    AssociationTable::of(alloc, profile, list)
}

/// The associations of the machines of each package, in order.
fn machines_of<'r>(
    alloc: Global,
    profile: Profile,
    packages: &[Package<'r>],
) -> Mem<List<List<AssociationTable<'r>>>>
    ensures { IfOk result (λ machines. machines ≡ all_associations profile packages.now) }
{
    let mut machines = List::new(alloc);
    for package in packages {
        let rows = in_package(alloc, profile, package.unit().library.machines.items())?;
        machines.push(rows)?;
    }
    Ok(machines)
}

/// The associations of the machines of a package, in order.
fn in_package<'r>(
    alloc: Global,
    profile: Profile,
    decls: &'r [MachineDecl],
) -> Mem<List<AssociationTable<'r>>>
    ensures { IfOk result (λ machines. machines ≡ map (λ (machine : AnyMachine). listed profile machine.associations) decls.now) }
{
    let mut machines = List::new(alloc);
    for decl in decls {
        let table = of_decl(alloc, profile, decl.associations.items())?;
        machines.push(table)?;
    }
    Ok(machines)
}

/// The associations of a text.
fn of_decl<'r>(
    alloc: Global,
    profile: Profile,
    associations: &'r [Association],
) -> Mem<AssociationTable<'r>>
    ensures { IfOk result (λ table. table ≡ listed profile associations.now) }
{
    let mut list = List::new(alloc);
    for association in associations {
        list.push(association)?;
    }
    AssociationTable::of(alloc, profile, list)
}
