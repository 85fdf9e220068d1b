//! Why a set of events makes a target hold, as text, and the answer on such a text.

ghost use Rattle.std.specs.Prelude.{◌≡◌, ◌<◌, ◌≤◌, ◌^◌, IfOk, length};
ghost use Rattle.phases.specs.inner.Meets.{IsMemory, Meets, MeetsBut};
ghost use Rattle.plain_values.specs.declared.refusal.Place.TheVariants.{At as Byte};
ghost use Rattle.plain_values.specs.Refusal.{refusal};
ghost use Rattle.fault_system.specs.CutSets.{IsEventSet};
ghost use Rattle.fault_system.specs.Truth.{member, set_of};
ghost use Rattle.cutset_lister.specs.inner.SetText.{HasTokenNames};
ghost use Rattle.derivations.specs.Text.{IsTextOf, event_names, fact_names};
ghost use Rattle.derivations.specs.inner.Text.{AreLineNames};
ghost use Rattle.system_answers.specs.Derivations.{accepted_text, answer_confirmed, confirm_text, derivation_of, good_steps, lines_why, set_of_text, steps_of, why_text};

use crate::target::find_target;
use cutset_lister::read_token;
use derivations::{
    Derivation, Finding, check_derivation, derive, read_steps, step_place, write_derivation,
};
use fault_system::{Bits, FaultSystem};
use itoa::Buffer;
use phases::Status;
use plain_values::{Code, List, Mem, Name, Place, Refusal};
use std::alloc::Global;

/// The derivation of a target under the set of events that has this text, as text.
pub fn why(
    alloc: Global,
    system: &FaultSystem,
    target: &Name,
    set: &Name,
) -> Result<Vec<u8>, Status>
    requires { HasTokenNames system.now }
    ensures { MeetsBut IsMemory (λ text. text.items) (why_text target.now set.now system.now) result }
{
    let number = find_target(system, target)?;
    let chosen = find_set(alloc, system, set)?;
    let events = events_of(alloc, system, chosen.items())?;
    lines_why(alloc, system, number, &events)
}

/// That a text is a derivation of a target under the set of events that has this text, and of how many steps. The text is that of the
/// file of the number 0, and of at most 4,194,304 bytes.
pub fn confirmed(
    alloc: Global,
    system: &FaultSystem,
    target: &Name,
    set: &Name,
    bytes: &[u8],
) -> Result<Vec<u8>, Status>
    requires tokens { HasTokenNames system.now }
    requires facts { AreLineNames (fact_names system.now) }
    requires events { AreLineNames (event_names system.now) }
    requires short { length bytes.now ≤ 4194304 }
    ensures { MeetsBut IsMemory (λ text. text.items) (confirm_text target.now set.now bytes.now system.now) result }
{
    let number = find_target(system, target)?;
    let chosen = find_set(alloc, system, set)?;
    let events = events_of(alloc, system, chosen.items())?;
    answer_confirmed(alloc, system, number, &events, bytes)
}

/// The set of events that has this text.
fn find_set(alloc: Global, system: &FaultSystem, text: &Name) -> Result<List<u32>, Status>
    requires { HasTokenNames system.now }
    ensures set { Meets (set_of_text text.now system.now) result }
    ensures events { IfOk result (IsEventSet system.now) }
{
    let set = read_token(alloc, system, text.items())?;
    Ok(set)
}

/// The set of these events.
fn events_of(alloc: Global, system: &FaultSystem, set: &[u32]) -> Mem<Bits>
    requires { IsEventSet system.now set.now }
    ensures { IfOk result (λ events. member events ≡ set_of set.now) }
{
    let events = Bits::of(alloc, system.events(), set)?;
    Ok(events)
}

/// The lines of the derivation of a target under a set of events.
fn lines_why(
    alloc: Global,
    system: &FaultSystem,
    number: u32,
    events: &Bits,
) -> Result<Vec<u8>, Status>
    ensures { MeetsBut IsMemory (λ text. text.items) (lines_why number (member events.now) system.now) result }
{
    let derivation = find_derivation(alloc, system, number, events)?;
    let mut text = Vec::new(alloc);
    write_derivation(system, &derivation, &mut text)?;
    Ok(text)
}

/// The derivation of a target under a set of events.
fn find_derivation(
    alloc: Global,
    system: &FaultSystem,
    number: u32,
    events: &Bits,
) -> Result<Derivation, Status>
    ensures { MeetsBut IsMemory (λ derivation. derivation.steps) (derivation_of number (member events.now) system.now) result }
{
    match derive(alloc, system, number, events)? {
        Some(derivation) => Ok(derivation),
        None => Err(Status::Refused(Refusal::of_words(Code::NotCutSet))),
    }
}

/// What is written of a text whose steps are a good derivation of a target under a set of events.
fn answer_confirmed(
    alloc: Global,
    system: &FaultSystem,
    number: u32,
    events: &Bits,
    bytes: &[u8],
) -> Result<Vec<u8>, Status>
    requires facts { AreLineNames (fact_names system.now) }
    requires events { AreLineNames (event_names system.now) }
    requires short { length bytes.now ≤ 4194304 }
    ensures { MeetsBut IsMemory (λ text. text.items) (answer_confirmed number (member events.now) bytes.now system.now) result }
{
    let derivation = find_steps(alloc, system, events, bytes)?;
    check_steps(system, number, events, bytes, &derivation)?;
    let text = accepted(alloc, derivation.steps.len_u32())?;
    Ok(text)
}

/// The steps of a text, whose events are of a set.
fn find_steps(
    alloc: Global,
    system: &FaultSystem,
    events: &Bits,
    bytes: &[u8],
) -> Result<Derivation, Status>
    requires facts { AreLineNames (fact_names system.now) }
    requires events { AreLineNames (event_names system.now) }
    requires short { length bytes.now ≤ 4194304 }
    ensures { MeetsBut IsMemory (λ derivation. derivation.steps) (steps_of (member events.now) bytes.now system.now) result }
{
    match read_steps(alloc, system, events, bytes)? {
        Ok(derivation) => Ok(derivation),
        Err(at) => Err(Status::Refused(refused_at(Code::BadStepLine, at))),
    }
}

/// Whether the steps of a text are a good derivation of a target under a set of events.
fn check_steps(
    system: &FaultSystem,
    number: u32,
    events: &Bits,
    bytes: &[u8],
    derivation: &Derivation,
) -> Result<(), Status>
    requires facts { AreLineNames (fact_names system.now) }
    requires events { AreLineNames (event_names system.now) }
    requires short { length bytes.now ≤ 4194304 }
    requires text { IsTextOf (fact_names system.now) (event_names system.now) (member events.now) bytes.now derivation.now.steps }
    ensures { MeetsBut IsMemory (λ _. tt) (good_steps number (member events.now) derivation.now.steps system.now) result }
{
    match check_derivation(system, number, events, derivation) {
        Finding::Good => Ok(()),
        Finding::Wrong(step) => Err(Status::Refused(refused_at(
            Code::WrongStep,
            step_place(bytes, step),
        ))),
        Finding::WrongEnd => Err(Status::Refused(Refusal::new(Code::WrongEnd, Place::Whole(0)))),
    }
}

/// A refusal at a byte of the file of the number 0.
fn refused_at(code: Code, at: usize) -> Refusal
    requires { at < 2 ^ 32 }
    ensures { result ≡ refusal code (Byte 0 at) }
{
    Refusal::new(
        code,
        Place::At {
            file: 0,
            at: at as u32,
        },
    )
}

/// What is written where a derivation of so many steps is good.
fn accepted(alloc: Global, count: u32) -> Mem<Vec<u8>>
    ensures { IfOk result (λ text. text.items ≡ accepted_text count) }
{
    let mut text = Vec::new(alloc);
    text.extend_from_slice(b"accepted ")?;
    let mut digits = Buffer::new();
    text.extend_from_slice(digits.format(count as u64).as_bytes())?;
    text.push(b'\n')?;
    Ok(text)
}
