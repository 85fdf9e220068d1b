//! What follows from a fact by way of some others, round by round.

ghost use Rattle.std.specs.Prelude.{◌≡◌, ◌++◌, IfOk, OnOk, false, filter, length};
ghost use Rattle.fault_system.specs.Truth.{set_of};
ghost use Rattle.system_review.specs.Alone.{and_next, following};
ghost use Rattle.system_review.specs.inner.Steps.{is_next};

use crate::alone::is_true_at;
use fault_system::{FaultSystem, Numbers};
use plain_values::{List, Mem};
use std::alloc::Global;

/// The set of these numbers.
#[derive(Clone, Copy)]
pub(crate) struct Listed<'a> {
    pub numbers: &'a [u32],
}

impl<'a> Numbers for Listed<'a> {
    ghost use Rattle.fault_system.specs.Truth.{set_of};

    ghost set = { λ set. set_of set.numbers.now };

    fn is_in(&self, number: u32) -> bool {
        has_number(self.numbers, number)
    }
}

/// What follows from a fact by way of some others.
pub(crate) fn following(
    alloc: Global,
    system: &FaultSystem,
    among: &[u32],
    cause: u32,
) -> Mem<List<u32>>
    ensures { IfOk result (λ found. set_of found ≡ following system.now among.now cause (length among.now)) }
{
    let mut found = List::new(alloc);
    found.push(cause)?;
    for round in 0..among.len() {
        let _ = round;
        if !add_next(alloc, system, among, &mut found)? {
            return Ok(found);
        }
    }
    Ok(found)
}

// Adds those among some facts whose formulas are true where the others hold and no event occurs; whether there are any.
fn add_next(alloc: Global, system: &FaultSystem, among: &[u32], found: &mut List<u32>) -> Mem<bool>
    ensures next { OnOk result (set_of found.new ≡ and_next system.now among.now (set_of found.old)) }
    ensures none { IfOk result (λ more. more ≡ false → set_of found.new ≡ set_of found.old) }
{
    let more = next(alloc, system, among, found.items())?;
    if more.len_u32() == 0 {
        return Ok(false);
    }
    append(found, more.items())?;
    Ok(true)
}

// Those among some facts whose formulas are true where these hold and no event occurs, but for these.
fn next(alloc: Global, system: &FaultSystem, among: &[u32], facts: &[u32]) -> Mem<List<u32>>
    ensures { IfOk result (λ more. more ≡ filter (is_next system.now facts.now) among.now) }
{
    let mut more = List::new(alloc);
    for number in among {
        more.push_if(*number, is_next(system, facts, *number))?;
    }
    Ok(more)
}

fn is_next(system: &FaultSystem, facts: &[u32], number: u32) -> bool
    ensures { result ≡ is_next system.now facts.now number }
{
    !has_number(facts, number) && is_true_at(system, &Listed { numbers: facts }, number)
}

fn append(found: &mut List<u32>, more: &[u32]) -> Mem<()>
    ensures { OnOk result (found.new ≡ found.old ++ more.now) }
{
    for number in more {
        found.push(*number)?;
    }
    Ok(())
}

fn has_number(numbers: &[u32], number: u32) -> bool
    ensures { result ≡ set_of numbers.now number }
{
    numbers.iter().any(|other| *other == number)
}
