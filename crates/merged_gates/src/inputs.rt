//! Lists of inputs: in order, and each once.

ghost use Rattle.std.specs.Prelude.{◌≡◌, ◌∷◌, [], IfOk, IsTrue, None};
ghost use Rattle.std.specs.List.Sorted.{IsPermutation};
ghost use Rattle.merged_gates.specs.Merged.{comes_before, same_input};
ghost use Rattle.merged_gates.specs.inner.Solutions.{HasSameInputs, is_same, once_from};
ghost use Rattle.merged_gates.specs.inner.Tests.{rises_from};

use plain_values::{List, Mem};
use round_gates::Input;
use std::alloc::Global;

/// Whether two inputs are the same.
pub(crate) fn same_input(a: Input, b: Input) -> bool
    ensures { result ≡ same_input a b }
{
    match (a, b) {
        (Input::Event(m), Input::Event(n)) => m == n,
        (Input::Gate(m), Input::Gate(n)) => m == n,
        _ => false,
    }
}

/// Whether two lists of inputs are the same.
pub(crate) fn same_inputs(a: &[Input], b: &[Input]) -> bool
    ensures { IsTrue result → a.now ≡ b.now }
{
    if a.len() != b.len() {
        return false;
    }
    for i in 0..a.len() {
        if !same_input(a[i], b[i]) {
            return false;
        }
    }
    true
}

/// Whether one input comes before another.
fn comes_before(a: Input, b: Input) -> bool
    ensures { result ≡ comes_before a b }
{
    match (a, b) {
        (Input::Event(m), Input::Event(n)) => m < n,
        (Input::Event(_), Input::Gate(_)) => true,
        (Input::Gate(_), Input::Event(_)) => false,
        (Input::Gate(m), Input::Gate(n)) => m < n,
    }
}

fn is_behind(last: Option<Input>, input: Input) -> bool
    ensures { result ≡ rises_from last (input ∷ []) }
{
    match last {
        Some(last) => comes_before(last, input),
        None => true,
    }
}

/// Whether each input comes before the next.
pub(crate) fn rise(inputs: &[Input]) -> bool
    ensures { result ≡ rises_from None inputs.now }
{
    let mut last = None;
    for input in inputs {
        if !is_behind(last, *input) {
            return false;
        }
        last = Some(*input);
    }
    true
}

/// By which an input is sorted: an event before a gate, else by number.
pub(crate) fn key_of(input: Input) -> (bool, u32) {
    match input {
        Input::Event(n) => (false, n),
        Input::Gate(n) => (true, n),
    }
}

/// The inputs in order.
pub(crate) fn sorted(inputs: Vec<Input>) -> Mem<Vec<Input>>
    ensures { IfOk result (λ list. IsPermutation inputs.items list.items) }
{
    let mut list = inputs;
    list.sort_by_key(|input| key_of(*input))?;
    Ok(list)
}

fn is_same(last: Option<Input>, input: Input) -> bool
    ensures { result ≡ is_same last input }
{
    match last {
        Some(last) => same_input(last, input),
        None => false,
    }
}

/// The inputs without each that is the same as the one before it.
fn once(alloc: Global, inputs: &[Input]) -> Mem<List<Input>>
    ensures { IfOk result (λ list. list ≡ once_from None inputs.now) }
{
    let mut list = List::new(alloc);
    let mut last = None;
    for input in inputs {
        list.push_if(*input, !is_same(last, *input))?;
        last = Some(*input);
    }
    Ok(list)
}

/// The inputs in order, each once.
pub(crate) fn sorted_once(alloc: Global, inputs: Vec<Input>) -> Mem<List<Input>>
    ensures { IfOk result (λ list. HasSameInputs inputs.items list) }
{
    let list = sorted(inputs)?;
    once(alloc, list.as_slice())
}
