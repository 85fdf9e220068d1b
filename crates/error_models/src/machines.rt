ghost use Rattle.std.specs.Prelude.{◌≡◌, None, Some, IfErr, IfOk, MatchResult, OnOk, map, option_to_list};
ghost use Rattle.error_machines.specs.Machines.{find_machine};
ghost use Rattle.plain_values.specs.inner.Stops.{StopsAt};
ghost use Rattle.noted_refusals.specs.inner.Noted.{TellsFirst, alone};
ghost use Rattle.error_models.specs.Below.{kind_machine, machine_of};
ghost use Rattle.error_models.specs.Refused.{fault_of, machines_refusal};

use component_extension::Effective;
use error_machines::{UsedMachine, find_machine, machine_at};
use instantiator::Instance;
use noted_refusals::Refusals;
use package_index::Index;
use plain_values::{Answer, List, Refusal, Stop};
use std::alloc::Global;

/// The machines of the kinds of an instance, in order; a kind may use none.
///
/// N2 and N15 of the first component whose machine is not found, as `find_machine` has them: this refusal is noted, in place of what was
/// noted before.
pub fn machines_of<'a>(
    alloc: Global,
    instance: &Instance<'_, 'a>,
    refusals: &mut Refusals,
) -> Answer<List<Option<UsedMachine<'a>>>>
    ensures machines { IfOk result (λ machines. machines ≡ map (kind_machine instance.now.packages) instance.now.kinds) }
    ensures accepted { OnOk result (machines_refusal instance.now.packages instance.now.kinds ≡ None) }
    ensures refused { IfErr result (StopsAt (machines_refusal instance.now.packages instance.now.kinds)) }
    ensures told { IfErr result (TellsFirst (option_to_list (machines_refusal instance.now.packages instance.now.kinds)) refusals.new) }
{
    let mut machines = List::new(alloc);
    for kind in instance.kinds() {
        let machine = machine_in(instance.index(), &kind.effective, refusals)?;
        machines.push(machine)?;
    }
    Ok(machines)
}

/// The machine of a component with this effective classifier, if it uses one, or its refusal.
fn machine_in<'a>(
    index: &Index<'a>,
    effective: &Effective<'a>,
    refusals: &mut Refusals,
) -> Answer<Option<UsedMachine<'a>>>
    ensures machine { MatchResult result (λ machine. (machine ≡ machine_of index.now effective.now) × (fault_of (find_machine index.now effective.now) ≡ None)) (StopsAt (fault_of (find_machine index.now effective.now))) }
    ensures told { IfErr result (λ stop. TellsFirst (alone stop) refusals.new stop) }
{
    match machine_of(index, effective) {
        Ok(machine) => Ok(machine),
        Err(refusal) => Err(refusals.only(Stop::Refused(refusal))),
    }
}

/// The machine of a component with this effective classifier, if it uses one.
fn machine_of<'a>(
    index: &Index<'a>,
    effective: &Effective<'a>,
) -> Result<Option<UsedMachine<'a>>, Refusal>
    ensures { MatchResult result (λ machine. (machine ≡ machine_of index.now effective.now) × (fault_of (find_machine index.now effective.now) ≡ None)) (λ refusal. fault_of (find_machine index.now effective.now) ≡ Some refusal) }
{
    match find_machine(index, effective)? {
        Some(id) => Ok(machine_at(index, id)),
        None => Ok(None),
    }
}
