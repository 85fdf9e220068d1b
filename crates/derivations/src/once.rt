//! Numbers, each once and rising.
ghost use Rattle.std.specs.Prelude.{◌≡◌, ℕ, IfOk};
ghost use Rattle.std.specs.List.Sorted.{IsStrictlyIncreasing};
ghost use Rattle.fault_system.specs.Truth.{set_of};

use plain_values::{List, Mem};

/// These numbers, each once and rising.
pub(crate) fn once_each(numbers: Vec<u32>) -> Mem<List<u32>>
    ensures rising { IfOk result IsStrictlyIncreasing }
    ensures same { IfOk result (λ list. (n : ℕ) → set_of list n ≡ set_of numbers.items n) }
{
    let mut numbers = numbers;
    numbers.sort()?;
    numbers.dedup();
    Ok(List::of(numbers)?)
}
