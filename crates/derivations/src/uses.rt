//! The facts that a fact uses, and those that are reached from a target by use.
ghost use Rattle.std.specs.Prelude.{◌≡◌, ◌<◌, ℕ, IfOk, length};
ghost use Rattle.fault_system.specs.Truth.{set_of};
ghost use Rattle.fault_system.specs.Systems.{IsSystem};
ghost use Rattle.fault_system.specs.Rounds.{time_of};
ghost use Rattle.derivations.specs.Derived.{uses_fact};
ghost use Rattle.derivations.specs.inner.Reaching.{AreReached};

use crate::gathering::{gather_facts, is_before_round, round_of};
use backward_slice::{Ways, reach_by};
use fault_system::{Bits, FaultSystem};
use plain_values::Mem;
use std::alloc::Global;

/// From a fact it is gone to those of earlier rounds.
#[derive(Clone, Copy)]
struct ByRounds<'a> {
    rounds: &'a [u32],
}

impl<'a> Ways for ByRounds<'a> {
    ghost use Rattle.derivations.specs.inner.Reaching.{earlier};

    ghost ways = { λ ways. earlier ways.rounds.now };

    fn leads(&self, from: u32, to: u32) -> bool {
        is_before_round(self.rounds, round_of(self.rounds, from), to)
    }
}

/// Exactly the facts that are reached from a target by use.
pub(crate) fn reached(alloc: Global, system: &FaultSystem, rounds: &[u32], target: u32) -> Mem<Bits>
    requires rounds { length rounds.now ≡ length system.now.facts }
    requires target { 0 < time_of rounds.now target }
    ensures system { IsSystem system.now }
    ensures reached { IfOk result (AreReached system.now rounds.now target) }
{
    let _facts = system.facts();
    let found = reach_by(alloc, system, &ByRounds { rounds }, &[target])?;
    Ok(found.facts)
}

/// The facts that a fact uses.
pub(crate) fn used_by(
    alloc: Global,
    system: &FaultSystem,
    rounds: &[u32],
    fact: u32,
) -> Mem<Vec<u32>>
    ensures { IfOk result
        (λ used. (n : ℕ) → set_of used.items n ≡ uses_fact system.now rounds.now fact n) }
{
    let mut used = Vec::new(alloc);
    if let Some(info) = system.fact(fact) {
        gather_facts(&info.formula, rounds, round_of(rounds, fact), &mut used)?;
    }
    Ok(used)
}
