ghost use Rattle.std.specs.Prelude.{◌≡◌, ◌++◌, OnOk, flat_map};
ghost use Rattle.used_sets.specs.Sets.{condition_sets, perhaps_condition_sets, state_sets};

use crate::sets::WrittenSets;
use aadl_syntax::{Condition, StateRef};
use plain_values::Mem;

/// Adds the sets of a condition.
#[cycle(condition)]
pub(crate) fn add_condition<'a>(sets: &mut WrittenSets<'a>, condition: &'a Condition) -> Mem<()>
    ensures { OnOk result (sets.new ≡ sets.old ++ condition_sets condition.now) }
{
    match condition {
        Condition::Atom(atom) => sets.add(&atom.set),
        Condition::All(parts) => add_conditions(sets, parts.items()),
        Condition::Any(parts) => add_conditions(sets, parts.items()),
        Condition::AtLeast(_, parts) => add_conditions(sets, parts.items()),
        Condition::AtMost(_, parts, _) => add_conditions(sets, parts.items()),
    }
}

#[cycle(condition)]
fn add_conditions<'a>(sets: &mut WrittenSets<'a>, parts: &'a [Condition]) -> Mem<()>
    ensures { OnOk result (sets.new ≡ sets.old ++ flat_map condition_sets parts.now) }
{
    for part in parts {
        add_condition(sets, part)?;
    }
    Ok(())
}

/// Adds the sets of a condition, if there is one.
pub(crate) fn add_perhaps<'a>(
    sets: &mut WrittenSets<'a>,
    condition: &'a Option<Condition>,
) -> Mem<()>
    ensures { OnOk result (sets.new ≡ sets.old ++ perhaps_condition_sets condition.now) }
{
    if let Some(condition) = condition {
        add_condition(sets, condition)?;
    }
    Ok(())
}

/// Adds the sets behind states.
pub(crate) fn add_states<'a>(sets: &mut WrittenSets<'a>, states: &'a [StateRef]) -> Mem<()>
    ensures { OnOk result (sets.new ≡ sets.old ++ flat_map state_sets states.now) }
{
    for state in states {
        sets.add(&state.set)?;
    }
    Ok(())
}
