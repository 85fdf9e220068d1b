//! Marks of numbers, set for one step and taken away after it.
ghost use Rattle.std.specs.Prelude.{◌≡◌, ◌<◌, ◌==◌, ℕ, cond, length, slice_get};
ghost use Rattle.fault_system.specs.Truth.{member, set_of};
ghost use Rattle.derivations.specs.Steps.{facts_of, is_of};
ghost use Rattle.derivations.specs.inner.Marked.{IsBlank, IsMarked};

use crate::derivation::Firing;

// Marks numbers, as far as there are marks for them.
pub(crate) fn mark(marks: &mut [bool], numbers: &[u32])
    requires { IsBlank marks.old }
    ensures { IsMarked marks.new (set_of numbers.now) }
{
    for number in numbers {
        set(marks, *number, true);
    }
}

// Takes the marks of numbers away.
pub(crate) fn unmark(marks: &mut [bool], numbers: &[u32])
    requires { IsMarked marks.old (set_of numbers.now) }
    ensures { IsBlank marks.new }
{
    for number in numbers {
        set(marks, *number, false);
    }
}

// Marks the facts of the steps of these numbers, as far as there are marks for them.
pub(crate) fn mark_facts(marks: &mut [bool], steps: &[Firing], numbers: &[u32])
    requires { IsBlank marks.old }
    ensures { IsMarked marks.new (facts_of steps.now numbers.now) }
{
    for number in numbers {
        set_fact(marks, steps, *number, true);
    }
}

// Takes the marks of the facts of the steps of these numbers away.
pub(crate) fn unmark_facts(marks: &mut [bool], steps: &[Firing], numbers: &[u32])
    requires { IsMarked marks.old (facts_of steps.now numbers.now) }
    ensures { IsBlank marks.new }
{
    for number in numbers {
        set_fact(marks, steps, *number, false);
    }
}

// Sets the mark of the fact of a step, where there are both.
fn set_fact(marks: &mut [bool], steps: &[Firing], number: u32, value: bool)
    ensures { (n : ℕ) → n < length marks.old → member marks.new n
        ≡ cond (is_of n (slice_get steps.now number)) value (member marks.old n) }
{
    if let Some(step) = steps.get(number as usize) {
        set(marks, step.fact, value);
    }
}

// Sets the mark of a number, where there is one.
fn set(marks: &mut [bool], number: u32, value: bool)
    ensures { (n : ℕ) → n < length marks.old
        → member marks.new n ≡ cond (number == n) value (member marks.old n) }
{
    if (number as usize) < marks.len() {
        marks[number as usize] = value;
    }
}
