ghost use Rattle.std.specs.Prelude.{◌≡◌, ◌<◌, ◌↔◌, ◌^◌, ℕ, if◌then◌else◌, length, nat_lt, slice_get};
ghost use Rattle.std.specs.List.{list_all};
ghost use Rattle.fault_system.specs.Truth.{member, set_of};
ghost use Rattle.fault_system.specs.Systems.{Holds};
ghost use Rattle.derivations.specs.Steps.{HasWrongEnd, IsFirstWrong, IsGood, ends_with, facts_of, is_made_true, is_right_step};
ghost use Rattle.derivations.specs.inner.Steps.{HasFirstWrong, IsFinding};
ghost use Rattle.derivations.specs.inner.Marked.{IsBlank};

use crate::derivation::{Derivation, Finding, Firing};
use crate::given::{Given, is_true};
use crate::marks::{mark, mark_facts, unmark, unmark_facts};
use fault_system::{Bits, FaultSystem};

/// What is checked: the steps of a derivation, of a system under a set of events.
#[derive(Clone, Copy)]
struct Checked<'a> {
    /// The system.
    system: &'a FaultSystem,
    /// The set of events.
    events: &'a Bits,
    /// The steps, each with a fact that it derives.
    steps: &'a [Firing],
}

/// Checks a derivation of a target under a set of events, whoever made it. It takes no memory, and any system, target,
/// set and derivation will do. If it finds `Good`, the target holds under the set.
///
/// The time goes with the places of the formulas of the steps' facts and with the events and the uses of the steps, where
/// the system has at most 262,144 facts and 4,096 events. A fact of several steps counts for each of them.
pub fn check_derivation(
    system: &FaultSystem,
    target: u32,
    events: &Bits,
    derivation: &Derivation,
) -> Finding
    ensures finding { IsFinding system.now target (member events.now) derivation.now.steps result }
    ensures good { result ≡ Finding.Good
        ↔ IsGood system.now target (member events.now) derivation.now.steps }
    ensures wrong { (number : ℕ) → result ≡ Finding.Wrong number
        ↔ IsFirstWrong system.now (member events.now) derivation.now.steps number }
    ensures wrong_end { result ≡ Finding.WrongEnd
        ↔ HasWrongEnd system.now target (member events.now) derivation.now.steps }
    ensures sound { result ≡ Finding.Good → Holds system.now (member events.now) target }
{
    let steps = derivation.steps.items();
    let checked = Checked {
        system,
        events,
        steps,
    };
    match first_wrong_marked(&checked) {
        Some(number) => Finding::Wrong(number),
        None => end_of(steps, target),
    }
}

// The first step that is not right.
fn first_wrong_marked(checked: &Checked<'_>) -> Option<u32>
    requires { length checked.now.steps.now < 2 ^ 32 }
    ensures { HasFirstWrong checked.now result }
{
    let mut fact_marks = [false; 262_144];
    let mut event_marks = [false; 4_096];
    let fact_marks = &mut fact_marks[..];
    let event_marks = &mut event_marks[..];
    first_wrong(checked, fact_marks, event_marks)
}

// The first step that is not right. The marks are for its use alone.
fn first_wrong(
    checked: &Checked<'_>,
    fact_marks: &mut [bool],
    event_marks: &mut [bool],
) -> Option<u32>
    requires steps { length checked.now.steps.now < 2 ^ 32 }
    requires fact_marks { IsBlank fact_marks.old }
    requires event_marks { IsBlank event_marks.old }
    ensures { HasFirstWrong checked.now result }
{
    for (number, step) in checked.steps.iter().enumerate() {
        if !is_right(checked, number as u32, step, fact_marks, event_marks) {
            return Some(number as u32);
        }
    }
    None
}

// Whether a step is right.
fn is_right(
    checked: &Checked<'_>,
    number: u32,
    step: &Firing,
    fact_marks: &mut [bool],
    event_marks: &mut [bool],
) -> bool
    requires fact_marks { IsBlank fact_marks.old }
    requires event_marks { IsBlank event_marks.old }
    ensures right { result
        ≡ is_right_step checked.now.system.now (member checked.now.events.now) checked.now.steps.now number step.now }
    ensures fact_marks { IsBlank fact_marks.new }
    ensures event_marks { IsBlank event_marks.new }
{
    if !are_events(checked.events, step.events.items()) {
        return false;
    }
    if !are_earlier(step.uses.items(), number) {
        return false;
    }
    makes_true(checked.system, checked.steps, step, fact_marks, event_marks)
}

// Whether the events of a step and the facts of the steps that it uses make the formula of its fact true.
fn makes_true(
    system: &FaultSystem,
    steps: &[Firing],
    step: &Firing,
    fact_marks: &mut [bool],
    event_marks: &mut [bool],
) -> bool
    requires fact_marks { IsBlank fact_marks.old }
    requires event_marks { IsBlank event_marks.old }
    ensures answer { result ≡ is_made_true (slice_get system.now.facts step.now.fact)
        (set_of step.now.events) (facts_of steps.now step.now.uses) }
    ensures fact_marks { IsBlank fact_marks.new }
    ensures event_marks { IsBlank event_marks.new }
{
    let Some(fact) = system.fact(step.fact) else {
        return false;
    };
    mark_facts(fact_marks, steps, step.uses.items());
    mark(event_marks, step.events.items());
    let answer = is_true(
        &fact.formula,
        &Given {
            steps,
            step,
            facts: fact_marks,
            events: event_marks,
        },
    );
    unmark_facts(fact_marks, steps, step.uses.items());
    unmark(event_marks, step.events.items());
    answer
}

// Whether each of these numbers is one of an event of the set.
fn are_events(events: &Bits, numbers: &[u32]) -> bool
    ensures { result ≡ list_all (member events.now) numbers.now }
{
    for number in numbers {
        if !events.has(*number) {
            return false;
        }
    }
    true
}

// Whether each of these numbers is one of a step before this one.
fn are_earlier(numbers: &[u32], step: u32) -> bool
    ensures { result ≡ list_all (λ number. nat_lt number step) numbers.now }
{
    for number in numbers {
        if *number >= step {
            return false;
        }
    }
    true
}

// What is found where each step is right.
fn end_of(steps: &[Firing], target: u32) -> Finding
    ensures { result ≡ (if ends_with steps.now target then Finding.Good else Finding.WrongEnd) }
{
    match steps.last() {
        Some(step) => {
            if step.fact == target {
                Finding::Good
            } else {
                Finding::WrongEnd
            }
        }
        None => Finding::WrongEnd,
    }
}
