//! What those of some facts depend on that are asked of and not known, if that is small.

ghost use Rattle.std.specs.Prelude.{◌<◌, All, IfOk, IfSome, length};
ghost use Rattle.target_orders.specs.inner.Sizes.{AreSmall};

use crate::sizes::Sizes;
use backward_slice::small_reach;
use fault_system::{Bits, FaultSystem};
use plain_values::Mem;
use std::alloc::Global;

/// Whether a fact is asked of, and it is not known whether it is large.
pub(crate) fn is_open(asked: &Bits, sizes: &Sizes, fact: u32) -> bool {
    asked.has(fact) && !sizes.large.has(fact) && !sizes.small.has(fact)
}

/// The facts on which those of some facts depend that are asked of and not known, if they and their events together are small.
pub(crate) fn small_part(
    alloc: Global,
    system: &FaultSystem,
    asked: &Bits,
    sizes: &Sizes,
    facts: &[u32],
) -> Mem<Option<Bits>>
    ensures { IfOk result (λ found. IfSome found (AreSmall system.now)) }
{
    let unsettled = open_facts(alloc, system, asked, sizes, facts)?;
    let found = small_reach(alloc, system, unsettled.as_slice())?;
    match found {
        Some(found) => Ok(Some(found.facts)),
        None => Ok(None),
    }
}

fn open_facts(
    alloc: Global,
    system: &FaultSystem,
    asked: &Bits,
    sizes: &Sizes,
    facts: &[u32],
) -> Mem<Vec<u32>>
    ensures { IfOk result (λ found. All (λ n. n < length system.now.facts) found.items) }
{
    let mut found = Vec::new(alloc);
    for fact in facts {
        if *fact < system.facts() && is_open(asked, sizes, *fact) {
            found.push(*fact)?;
        }
    }
    Ok(found)
}
