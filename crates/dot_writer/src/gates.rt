//! Gates and their inputs by position.

ghost use Rattle.std.specs.Prelude.{◌≡◌, ◌+◌, ◌<◌, ◌^◌, IfOk, IfSome, length, option_copied, slice_get};
ghost use Rattle.galileo_writer.specs.TreeText.{name_at};
ghost use Rattle.dot_writer.specs.TreePicture.{inputs_at};

use fault_system::FaultSystem;
use galileo_writer::gate_name;
use plain_values::{List, Mem, Name};
use round_gates::{Gate, Input};
use std::alloc::Global;

/// The gate at a position.
pub(crate) fn gate_at(gates: &[Gate], position: u32) -> Option<&Gate>
    ensures { option_copied result ≡ slice_get gates.now position }
{
    gates.get(position as usize)
}

/// The inputs of the gate at a position; none where there is no gate.
pub(crate) fn inputs_at(gates: &[Gate], position: u32) -> &[Input]
    ensures inputs { result.now ≡ inputs_at gates.now position }
    ensures few { length result.now < 2 ^ 32 }
{
    match gate_at(gates, position) {
        Some(gate) => gate.inputs.items(),
        None => &[],
    }
}

/// The input at a place of the gate at a position.
pub(crate) fn input_at(gates: &[Gate], position: u32, place: u32) -> Option<&Input>
    ensures input { option_copied result ≡ slice_get (inputs_at gates.now position) place }
    ensures few { IfSome result (λ _. place + 1 < 2 ^ 32) }
{
    inputs_at(gates, position).get(place as usize)
}

/// The gate at a position of a list.
pub(crate) fn gate_in(gates: &List<Gate>, position: u32) -> Option<&Gate>
    ensures gate { option_copied result ≡ slice_get gates.now position }
    ensures few { IfSome result (λ _. position + 1 < 2 ^ 32) }
{
    gates.items().get(position as usize)
}

/// The name of the gate at a position; empty where there is none.
pub(crate) fn name_at(alloc: Global, system: &FaultSystem, gates: &[Gate], number: u32) -> Mem<Name>
    ensures { IfOk result (λ name. name ≡ name_at system.now gates.now number) }
{
    match gate_at(gates, number) {
        Some(gate) => gate_name(alloc, system, gate),
        None => Ok(List::new(alloc)),
    }
}
