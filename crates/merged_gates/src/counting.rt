//! Gates that count: an input that comes once more after the pass is counted by a gate of one input beside it.

ghost use Rattle.std.specs.Prelude.{◌≡◌, ◌∷◌, [], ℕ, IfOk, IsTrue, OnOk, map};
ghost use Rattle.std.specs.List.Sorted.{IsPermutation};
ghost use Rattle.fault_system.specs.Truth.{NumberSet};
ghost use Rattle.round_gates.specs.Truths.{kind_true};
ghost use Rattle.round_gates.specs.declared.node.GateKind.TheVariants.{AtLeast};
ghost use Rattle.round_gates.specs.inner.Trees.{input_true};
ghost use Rattle.round_gates.specs.declared.tree.Input.TheVariants as inputs;
ghost use Rattle.merged_gates.specs.Merged.{same_input};
ghost use Rattle.merged_gates.specs.inner.Solutions.{IsSolution, Keeps, Solves, stand_of};

use crate::gates::{put, stand_of, stands_for};
use crate::inputs::{key_of, same_input, same_inputs, sorted};
use fault_system::Bits;
use plain_values::{List, Mem};
use round_gates::{Gate, GateKind, Input};
use std::alloc::Global;
use std::collections::HashMap;

/// The gates of one input that count it once more, by the input.
#[derive(Drop)]
pub(crate) struct Copies {
    over: HashMap<(bool, u32), u32>,
    taken: Bits,
}

impl Copies {
    /// None, for gates in an order.
    pub(crate) fn new(alloc: Global, count: u32) -> Mem<Copies> {
        Ok(Copies {
            over: HashMap::new(alloc),
            taken: Bits::new(alloc, count)?,
        })
    }

    /// Whether an input is a gate that may become one that counts another input once more.
    fn is_free(&self, input: Input) -> Option<u32> {
        match input {
            Input::Gate(n) if n < self.taken.size() && !self.taken.has(n) => Some(n),
            _ => None,
        }
    }
}

/// What a gate that counts gets as inputs, and the gates that are to have one input from now on.
#[derive(Drop)]
struct Spread {
    inputs: Vec<Input>,
    made: Vec<(u32, Input)>,
}

/// The inputs of a gate, those for which one input stands side by side.
fn by_stand(stands: &[Input], inputs: Vec<Input>) -> Mem<Vec<Input>>
    ensures { IfOk result (λ list. IsPermutation inputs.items list.items) }
{
    let mut list = inputs;
    list.sort_by_key(|input| (key_of(stand_of(stands, *input)), key_of(*input)))?;
    Ok(list)
}

// The first gate from a place on that has this stand, and may count it once more.
fn free_from(
    stands: &[Input],
    copies: &Copies,
    inputs: &[Input],
    from: usize,
    stand: Input,
) -> Option<(usize, u32)> {
    for place in from..inputs.len() {
        let input = inputs[place];
        if !same_input(stand_of(stands, input), stand) {
            return None;
        }
        if !same_input(input, stand) {
            if let Some(n) = copies.is_free(input) {
                return Some((place, n));
            }
        }
    }
    None
}

// What counts a stand once more: the gate that does so already, or one of the inputs from a place on, and that place.
fn once_more(
    stands: &[Input],
    copies: &mut Copies,
    inputs: &[Input],
    from: usize,
    last: Input,
    made: &mut Vec<(u32, Input)>,
) -> Mem<Option<(usize, u32)>> {
    if let Some(n) = copies.over.get(&key_of(last)) {
        return Ok(Some((from, *n)));
    }
    let stand = stand_of(stands, last);
    match free_from(stands, copies, inputs, from, stand) {
        Some((place, n)) => {
            copies.over.insert(key_of(last), n)?;
            if n < copies.taken.size() {
                copies.taken.put(n);
            }
            made.push((n, last))?;
            Ok(Some((place.saturating_add(1), n)))
        }
        None => Ok(None),
    }
}

/// What inputs, those of one stand side by side, become: the stand itself, and then gates that count it once more.
fn spread_over(
    alloc: Global,
    stands: &[Input],
    copies: &mut Copies,
    inputs: &[Input],
) -> Mem<Spread> {
    let mut list = Vec::with_capacity(alloc, inputs.len())?;
    let mut made = Vec::new(alloc);
    let mut last = None;
    let mut from = 0;
    for (place, input) in inputs.iter().enumerate() {
        let stand = stand_of(stands, *input);
        let mut next = stand;
        match last {
            Some(last) if same_input(stand_of(stands, last), stand) => {
                if let Some((behind, n)) = once_more(
                    stands, copies, inputs, from, last, &mut made,
                )? {
                    from = behind;
                    next = Input::Gate(n);
                }
            }
            _ => from = place,
        }
        list.push(next)?;
        last = Some(next);
    }
    Ok(Spread { inputs: list, made })
}

/// Whether the same stands for inputs, one by one.
fn are_alike(alloc: Global, stands: &[Input], a: &[Input], b: &[Input]) -> Mem<bool>
    ensures { IfOk result (λ alike. IsTrue alike → map (stand_of stands.now) a.now ≡ map (stand_of stands.now) b.now) }
{
    let first = stands_for(alloc, stands, a)?;
    let second = stands_for(alloc, stands, b)?;
    Ok(same_inputs(first.as_slice(), second.as_slice()))
}

/// Whether the same stands for a gate and for an input.
fn is_alike(stands: &[Input], n: u32, input: Input) -> bool
    ensures { result ≡ same_input (stand_of stands.now (inputs.Gate n)) (stand_of stands.now input) }
{
    same_input(stand_of(stands, Input::Gate(n)), stand_of(stands, input))
}

/// A list of one input.
fn one_input(alloc: Global, input: Input) -> Mem<List<Input>>
    ensures { IfOk result (λ list. list ≡ input ∷ []) }
{
    let mut list = List::new(alloc);
    list.push(input)?;
    Ok(list)
}

/// Makes a gate an `or` of one input, if the same stands for both.
fn wrap(alloc: Global, gates: &mut [Gate], stands: &[Input], n: u32, input: Input) -> Mem<()>
    ensures { OnOk result (Keeps gates.old stands.now gates.new stands.now) }
{
    if !is_alike(stands, n, input) {
        return Ok(());
    }
    let inputs = one_input(alloc, input)?;
    put(gates, n, GateKind::Or, inputs);
    Ok(())
}

fn wrap_all(alloc: Global, gates: &mut [Gate], stands: &[Input], made: &[(u32, Input)]) -> Mem<()>
    ensures { OnOk result (Keeps gates.old stands.now gates.new stands.now) }
{
    for (n, input) in made {
        wrap(alloc, gates, stands, *n, *input)?;
    }
    Ok(())
}

/// Gives a gate these inputs in order.
fn put_ordered(gates: &mut [Gate], n: u32, least: u32, list: Vec<Input>) -> Mem<()>
    ensures { OnOk result ((events set : NumberSet) → IsSolution events set gates.old
        → kind_true (AtLeast least) (map (input_true events set) list.items) ≡ set n → IsSolution events set gates.new) }
{
    let ordered = sorted(list)?;
    let inputs = List::of(ordered)?;
    put(gates, n, GateKind::AtLeast(least), inputs);
    Ok(())
}

/// Gives a gate these inputs in order, if the same stands for them as for its own.
fn put_alike(
    alloc: Global,
    gates: &mut [Gate],
    stands: &[Input],
    n: u32,
    least: u32,
    inputs: &[Input],
    list: Vec<Input>,
) -> Mem<()>
    ensures { OnOk result ((events set : NumberSet) → Solves events set gates.old stands.now
        → kind_true (AtLeast least) (map (input_true events set) inputs.now) ≡ set n → Solves events set gates.new stands.now) }
{
    let alike = are_alike(alloc, stands, list.as_slice(), inputs)?;
    if alike {
        put_ordered(gates, n, least, list)?;
        return Ok(());
    }
    Ok(())
}

/// Gives a gate that counts what stands for its inputs; where one stands for two, a gate counts it once more.
pub(crate) fn fold_counting(
    alloc: Global,
    gates: &mut [Gate],
    stands: &[Input],
    copies: &mut Copies,
    n: u32,
    least: u32,
    inputs: Vec<Input>,
) -> Mem<()>
    ensures { OnOk result ((events set : NumberSet) → Solves events set gates.old stands.now
        → kind_true (AtLeast least) (map (input_true events set) inputs.items) ≡ set n → Solves events set gates.new stands.now) }
{
    let list = by_stand(stands, inputs)?;
    let ordered = list.as_slice();
    let spread = spread_over(alloc, stands, copies, ordered)?;
    wrap_all(alloc, gates, stands, spread.made.as_slice())?;
    put_alike(alloc, gates, stands, n, least, ordered, spread.inputs)?;
    Ok(())
}
