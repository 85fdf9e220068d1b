//! The events that are inputs of gates.

ghost use Rattle.std.specs.Prelude.{◌≡◌, ◌<◌, ◌||◌, ℕ, IfOk, length, filter};
ghost use Rattle.std.specs.List.{list_any, range_with_len};
ghost use Rattle.fault_system.specs.Truth.{member};
ghost use Rattle.round_gates.specs.Trees.{events_in, is_event};

use fault_system::Bits;
use plain_values::{List, Mem};
use round_gates::{Gate, Input};
use std::alloc::Global;

fn mark_event(marks: &mut Bits, input: Input)
    ensures size { length marks.new ≡ length marks.old }
    ensures marks { (n : ℕ) → n < length marks.old → member marks.new n ≡ member marks.old n || is_event n input }
{
    if let Input::Event(event) = input {
        if event < marks.size() {
            marks.put(event);
        }
    }
}

fn mark_events(marks: &mut Bits, inputs: &[Input])
    ensures size { length marks.new ≡ length marks.old }
    ensures marks { (n : ℕ) → n < length marks.old → member marks.new n ≡ member marks.old n || list_any (is_event n) inputs.now }
{
    for input in inputs {
        mark_event(marks, *input);
    }
}

fn mark_all(marks: &mut Bits, gates: &[Gate])
    ensures size { length marks.new ≡ length marks.old }
    ensures marks { (n : ℕ) → n < length marks.old → member marks.new n
        ≡ member marks.old n || list_any (λ gate. list_any (is_event n) gate.inputs) gates.now }
{
    for gate in gates {
        mark_events(marks, gate.inputs.items());
    }
}

/// The numbers of a set, rising.
pub(crate) fn numbers_of(alloc: Global, marks: &Bits) -> Mem<List<u32>>
    ensures { IfOk result (λ numbers. numbers ≡ filter (member marks.now) (range_with_len 0 (length marks.now))) }
{
    let mut numbers = List::new(alloc);
    for number in 0..marks.size() {
        numbers.push_if(number, marks.has(number))?;
    }
    Ok(numbers)
}

/// The numbers of the events that are inputs of some gates, of so many events.
pub(crate) fn events_in(alloc: Global, events: u32, gates: &[Gate]) -> Mem<List<u32>>
    ensures { IfOk result (λ numbers. numbers ≡ events_in events gates.now) }
{
    let mut marks = Bits::new(alloc, events)?;
    mark_all(&mut marks, gates);
    numbers_of(alloc, &marks)
}
