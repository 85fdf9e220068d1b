//! The facts in formulas: all of them, and those that are of parts of a component.

ghost use Rattle.std.specs.Prelude.{◌≡◌, ◌++◌, IfOk, OnOk, flat_map, map};
ghost use Rattle.uneven_parts.specs.Places.{facts_in};
ghost use Rattle.uneven_parts.specs.Unlike.{is_of_part, parts_in};

use crate::parts::Parts;
use fault_system::{FaultSystem, Formula};
use plain_values::{List, Mem};
use std::alloc::Global;

/// The facts in a formula of a component that are of its parts, one for each place.
pub(crate) fn parts_in(
    alloc: Global,
    parts: &Parts,
    system: &FaultSystem,
    owner: u32,
    formula: &Formula,
) -> Mem<List<u32>>
    ensures { IfOk result (λ places. places ≡ parts_in parts.now system.now owner formula.now) }
{
    let places = facts_in(alloc, formula)?;
    let mut found = List::new(alloc);
    for number in places.items() {
        found.push_if(*number, is_of_part(parts, system, owner, *number))?;
    }
    Ok(found)
}

/// The facts in a formula, one for each place.
pub(crate) fn facts_in(alloc: Global, formula: &Formula) -> Mem<List<u32>>
    ensures { IfOk result (λ places. places ≡ facts_in formula.now) }
{
    let mut places = List::new(alloc);
    add_of(&mut places, formula)?;
    Ok(places)
}

/// Adds those of a formula.
#[cycle(adding)]
fn add_of(places: &mut List<u32>, formula: &Formula) -> Mem<()>
    ensures { OnOk result (places.new ≡ places.old ++ facts_in formula.now) }
{
    match formula {
        Formula::True | Formula::Event(_) => Ok(()),
        Formula::Fact(number) => {
            places.push(*number)?;
            Ok(())
        }
        Formula::And(operands) | Formula::Or(operands) | Formula::AtLeast(_, operands) => {
            add_each(places, operands.items())
        }
    }
}

#[cycle(adding)]
fn add_each(places: &mut List<u32>, operands: &[Formula]) -> Mem<()>
    ensures { OnOk result (places.new ≡ places.old ++ flat_map (λ facts. facts) (map facts_in operands.now)) }
{
    for operand in operands {
        add_of(places, operand)?;
    }
    Ok(())
}

/// Whether a fact is of a part of a component.
fn is_of_part(parts: &Parts, system: &FaultSystem, owner: u32, number: u32) -> bool
    ensures { result ≡ is_of_part parts.now system.now owner number }
{
    match system.fact(number) {
        Some(fact) => parts.stands_in(fact.owner, owner),
        None => false,
    }
}
