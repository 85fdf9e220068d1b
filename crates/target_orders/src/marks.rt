//! Sets of numbers that grow.

ghost use Rattle.std.specs.Prelude.{◌≡◌, ◌≢◌, ◌⊎◌, ℕ, true};
ghost use Rattle.fault_system.specs.Truth.{Has, member, set_of};

use fault_system::Bits;
use plain_values::Mem;
use std::alloc::Global;

/// Puts a number into a set, if it is below its size.
pub(crate) fn put(marks: &mut Bits, number: u32)
    ensures { (n : ℕ) → Has (member marks.new) n → Has (member marks.old) n ⊎ (number ≡ n) }
{
    if number < marks.size() {
        marks.put(number);
    }
}

/// Takes a number out of a set.
pub(crate) fn take(marks: &mut Bits, number: u32)
    ensures { (n : ℕ) → Has (member marks.new) n → Has (member marks.old) n × (n ≢ number) }
{
    if number < marks.size() {
        marks.take(number);
    }
}

/// Puts the numbers of a list into a set.
pub(crate) fn put_list(marks: &mut Bits, numbers: &[u32])
    ensures { (n : ℕ) → Has (member marks.new) n → Has (member marks.old) n ⊎ Has (set_of numbers.now) n }
{
    for number in numbers {
        put(marks, *number);
    }
}

/// Takes the numbers of a list out of a set.
pub(crate) fn take_list(marks: &mut Bits, numbers: &[u32])
    ensures { (n : ℕ) → Has (member marks.new) n → Has (member marks.old) n × (Has (set_of numbers.now) n → ⊥) }
{
    for number in numbers {
        take(marks, *number);
    }
}

/// Puts the numbers of one set into another.
pub(crate) fn put_all(marks: &mut Bits, more: &Bits)
    ensures { (n : ℕ) → Has (member marks.new) n → Has (member marks.old) n ⊎ Has (member more.now) n }
{
    for number in 0..more.size() {
        put_if(marks, number, more.has(number));
    }
}

fn put_if(marks: &mut Bits, number: u32, is_new: bool)
    ensures { (n : ℕ) → Has (member marks.new) n → Has (member marks.old) n ⊎ ((number ≡ n) × (is_new ≡ true)) }
{
    if is_new {
        put(marks, number);
    }
}

/// The set of all numbers below a size.
pub(crate) fn full(alloc: Global, size: u32) -> Mem<Bits> {
    let mut marks = Bits::new(alloc, size)?;
    fill(&mut marks, size);
    Ok(marks)
}

fn fill(marks: &mut Bits, size: u32) {
    for number in 0..size {
        put(marks, number);
    }
}
