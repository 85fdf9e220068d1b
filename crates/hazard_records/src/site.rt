//! A component of a model, and what is said of it.

ghost use Rattle.std.specs.Prelude.{◌≡◌, IfOk, map};
ghost use Rattle.error_models.specs.Below.{machine_of};
ghost use Rattle.instantiator.specs.Whole.{effective_in};
ghost use Rattle.hazard_records.specs.Hazards.{clause_associations, machine_associations, said_in, site_of};

use crate::whole::Whole;
use aadl_syntax::Association;
use component_extension::{Effective, InClause};
use error_machines::{UsedMachine, find_machine, machine_at};
use instantiator::Instance;
use package_index::Index;
use plain_values::{List, Mem};
use std::alloc::Global;
use std::marker::Model;

/// The associations that are said of a component: those of its clauses, and those of its machine.
#[derive(Drop)]
pub(crate) struct Said<'r> {
    pub(crate) clauses: List<&'r Association>,
    pub(crate) machine: List<&'r Association>,
}

impl<'r> Model for Said<'r> {
    ghost use Rattle.std.specs.Prelude.{map};
    ghost use Rattle.hazard_records.specs.Hazards.{Said as Seen};

    ghost Value = { Seen };

    ghost view = { λ s. record { clauses = map (λ association. association.now) s.clauses; machine = map (λ association. association.now) s.machine } };
}

impl<'r> Said<'r> {
    /// Those of the clauses.
    pub(crate) fn clauses(&self) -> &[&'r Association]
        ensures { map (λ association. association.now) result.now ≡ self.now.clauses }
    {
        self.clauses.items()
    }

    /// Those of the machine.
    pub(crate) fn machine(&self) -> &[&'r Association]
        ensures { map (λ association. association.now) result.now ≡ self.now.machine }
    {
        self.machine.items()
    }
}

/// A component of a model, by its number, and what is said of it.
#[derive(Drop)]
pub(crate) struct Site<'s, 'r> {
    model: &'s Whole<'r>,
    number: u32,
    said: Said<'r>,
}

impl<'s, 'r> Model for Site<'s, 'r> {
    ghost use Rattle.std.specs.Coded.{codes};
    ghost use Rattle.aadl_syntax.specs.contracts.error_model.Condition as condition;
    ghost use Rattle.fault_system.specs.contracts.formula.Formula as formula;
    ghost use Rattle.hazard_records.specs.Hazards.{Site as Seen};

    ghost Value = { Seen };

    ghost coded = { Prim.hlevel (codes, condition.the_row.coded, formula.the_row.coded) };

    ghost view = { λ s. record { model = s.model.now; number = s.number; said = s.said } };
}

impl<'s, 'r> Site<'s, 'r> {
    /// The component of a number.
    pub(crate) fn of(alloc: Global, model: &'s Whole<'r>, number: u32) -> Mem<Site<'s, 'r>>
        ensures { IfOk result (λ site. site ≡ site_of model.now number) }
    {
        let said = said_in(alloc, model.instance(), number)?;
        Ok(Site {
            model,
            number,
            said,
        })
    }

    /// The model.
    pub(crate) fn model(&self) -> &'s Whole<'r>
        ensures { result.now ≡ self.now.model }
    {
        self.model
    }

    /// The number.
    pub(crate) fn number(&self) -> u32
        ensures { result ≡ self.now.number }
    {
        self.number
    }

    /// What is said of it.
    pub(crate) fn said(&self) -> &Said<'r>
        ensures { result.now ≡ self.now.said }
    {
        &self.said
    }
}

/// The associations that are said of the component of a number.
fn said_in<'r>(alloc: Global, instance: &'r Instance<'r, 'r>, number: u32) -> Mem<Said<'r>>
    ensures { IfOk result (λ said. said ≡ said_in instance.now number) }
{
    let clauses = clauses_in(alloc, instance, number)?;
    let machine = machine_in(alloc, instance, number)?;
    Ok(Said { clauses, machine })
}

/// The associations of the clauses of the component of a number.
fn clauses_in<'r>(
    alloc: Global,
    instance: &'r Instance<'r, 'r>,
    number: u32,
) -> Mem<List<&'r Association>>
    ensures { IfOk result (λ list. map (λ association. association.now) list ≡ clause_associations (effective_in instance.now number)) }
{
    match instance.effective(number) {
        Some(effective) => clause_list(alloc, effective.others.associations.items()),
        None => Ok(List::new(alloc)),
    }
}

/// The associations of clauses.
fn clause_list<'r>(
    alloc: Global,
    associations: &[InClause<'r, Association>],
) -> Mem<List<&'r Association>>
    ensures { IfOk result (λ list. map (λ association. association.now) list ≡ map (λ scoped. scoped.item) associations.now) }
{
    let mut list = List::new(alloc);
    for association in associations {
        list.push(association.item())?;
    }
    Ok(list)
}

/// The associations of the machine of the component of a number.
fn machine_in<'r>(
    alloc: Global,
    instance: &'r Instance<'r, 'r>,
    number: u32,
) -> Mem<List<&'r Association>>
    ensures { IfOk result (λ list. map (λ association. association.now) list ≡ machine_associations (machine_of instance.now.packages (effective_in instance.now number))) }
{
    match instance.effective(number) {
        Some(effective) => of_machine(alloc, machine_of(instance.index(), effective)),
        None => Ok(List::new(alloc)),
    }
}

/// The machine of a component with this effective classifier, if it uses one that is found.
fn machine_of<'a>(index: &Index<'a>, effective: &Effective<'a>) -> Option<UsedMachine<'a>>
    ensures { result ≡ machine_of index.now effective.now }
{
    match find_machine(index, effective) {
        Ok(Some(id)) => machine_at(index, id),
        Ok(None) => None,
        Err(_) => None,
    }
}

/// The associations of a machine, if there is one.
fn of_machine<'r>(alloc: Global, machine: Option<UsedMachine<'r>>) -> Mem<List<&'r Association>>
    ensures { IfOk result (λ list. map (λ association. association.now) list ≡ machine_associations machine.entry) }
{
    match machine {
        Some(machine) => decl_list(alloc, machine.decl().associations.items()),
        None => Ok(List::new(alloc)),
    }
}

/// The associations of a text.
fn decl_list<'r>(alloc: Global, associations: &'r [Association]) -> Mem<List<&'r Association>>
    ensures { IfOk result (λ list. map (λ association. association.now) list ≡ associations.now) }
{
    let mut list = List::new(alloc);
    for association in associations {
        list.push(association)?;
    }
    Ok(list)
}
