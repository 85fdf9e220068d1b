//! Exceptions that are stale.

ghost use Rattle.std.specs.Prelude.{◌↔◌, ◌≡◌, IfOk, IsTrue, MatchOption};
ghost use Rattle.std.specs.List.{AllByRecursion};
ghost use Rattle.fault_system.specs.CutSets.{IsEventSet};
ghost use Rattle.requirement_verdicts.specs.Meanings.{IsFresh};
ghost use Rattle.requirement_verdicts.specs.Verdicts.{IsFirstStale};

use fault_system::FaultSystem;
use plain_values::{List, Mem};
use std::alloc::Global;

/// The first of some exceptions that is no minimal cut set of fewer events than so many.
pub(crate) fn first_stale(
    alloc: Global,
    system: &FaultSystem,
    target: u32,
    least: u32,
    except: &[List<u32>],
) -> Mem<Option<List<u32>>>
    requires { AllByRecursion (IsEventSet system.now) except.now }
    ensures { IfOk result (λ found. MatchOption found
        (AllByRecursion (IsFresh system.now target least) except.now)
        (IsFirstStale system.now target least except.now)) }
{
    for set in except {
        if !is_fresh(alloc, system, target, least, set.items())? {
            return Ok(Some(numbers_again(alloc, set.items())?));
        }
    }
    Ok(None)
}

/// Whether a set is a minimal cut set of fewer events than so many.
fn is_fresh(alloc: Global, system: &FaultSystem, target: u32, least: u32, set: &[u32]) -> Mem<bool>
    requires { IsEventSet system.now set.now }
    ensures { IfOk result (λ answer. IsTrue answer ↔ IsFresh system.now target least set.now) }
{
    if set.len() >= least as usize {
        return Ok(false);
    }
    let answer = system.is_minimal_cut_set(alloc, target, set)?;
    Ok(answer)
}

fn numbers_again(alloc: Global, numbers: &[u32]) -> Mem<List<u32>>
    ensures { IfOk result (λ again. again ≡ numbers.now) }
{
    List::of(Vec::from_slice(alloc, numbers)?)
}
