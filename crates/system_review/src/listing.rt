//! The numbers that are in one set and not in another, as a list.

ghost use Rattle.std.specs.Prelude.{◌≡◌, ◌<◌, ◌&&◌, IfOk, false, not};
ghost use Rattle.fault_system.specs.Truth.{Has, member};
ghost use Rattle.system_review.specs.Listed.{AreAll};

use fault_system::{Bits, Numbers};
use plain_values::{List, Mem};
use std::alloc::Global;

/// The set of all numbers.
#[derive(Clone, Copy)]
pub(crate) struct Everything;

impl Numbers for Everything {
    ghost use Rattle.std.specs.Prelude.{true};

    ghost set = { λ _ number. true };

    fn is_in(&self, number: u32) -> bool {
        let _ = number;
        true
    }
}

/// The numbers below a bound that are in one set and not in another, rising.
pub(crate) fn missing<S: Numbers>(
    alloc: Global,
    bound: u32,
    wanted: &S,
    found: &Bits,
) -> Mem<List<u32>>
    ensures { IfOk result (AreAll (λ n. (n < bound) × Has (S.set wanted.now) n × (member found.now n ≡ false)) bound) }
{
    let mut list = List::new(alloc);
    for number in 0..bound {
        list.push_if(number, is_missing(wanted, found, number))?;
    }
    Ok(list)
}

// Whether a number is in the one set and not in the other.
fn is_missing<S: Numbers>(wanted: &S, found: &Bits, number: u32) -> bool
    ensures { result ≡ (S.set wanted.now number && not (member found.now number)) }
{
    wanted.is_in(number) && !found.has(number)
}
