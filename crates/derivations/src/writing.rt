//! Writing the lines of a derivation.
ghost use Rattle.std.specs.Prelude.{◌≡◌, ◌+◌, ◌++◌, ◌∷◌, ◌<◌, ◌^◌, [], OnOk, decimal, length, map};
ghost use Rattle.fault_system.specs.Truth.{NumberSet};
ghost use Rattle.derivations.specs.Text.{HaveLines, IsTextOf, behind_blanks, event_names, fact_names, line_of, lines_of, name_at, use_text};

use crate::derivation::{Derivation, Firing};
use fault_system::FaultSystem;
use itoa::Buffer;
use plain_values::Mem;

/// Adds the line of a step, where the number of a step is its place from 0: that number plus one, the name of its fact, the
/// names of its events, for each use `#` and that step's number plus one, with one blank between, and a line feed. A name
/// is empty where a number is none of the system.
pub fn write_step(system: &FaultSystem, number: u32, step: &Firing, to: &mut Vec<u8>) -> Mem<()>
    ensures { OnOk result (to.new.items ≡ to.old.items
        ++ (line_of (fact_names system.now) (event_names system.now) number step.now ++ 10 ∷ [])) }
{
    write_number(number, to)?;
    write_word(fact_name(system, step.fact), to)?;
    write_events(system, step.events.items(), to)?;
    write_uses(step.uses.items(), to)?;
    to.push(b'\n')?;
    Ok(())
}

/// Adds the lines of the steps of a derivation, in their order.
///
/// Where each step has a line, this is a text that `read_steps` reads as the same steps.
pub fn write_derivation(system: &FaultSystem, derivation: &Derivation, to: &mut Vec<u8>) -> Mem<()>
    ensures written { OnOk result (to.new.items ≡ to.old.items
        ++ lines_of (fact_names system.now) (event_names system.now) 0 derivation.now.steps) }
    ensures text { (events : NumberSet) → to.old.items ≡ []
        → HaveLines (fact_names system.now) (event_names system.now) events 0 derivation.now.steps
        → OnOk result (IsTextOf (fact_names system.now) (event_names system.now) events
        to.new.items derivation.now.steps) }
{
    Ok(write_steps(system, derivation.steps.items(), to)?)
}

// Adds the lines of steps, numbered by their places.
fn write_steps(system: &FaultSystem, steps: &[Firing], to: &mut Vec<u8>) -> Mem<()>
    requires { length steps.now < 2 ^ 32 }
    ensures { OnOk result (to.new.items ≡ to.old.items
        ++ lines_of (fact_names system.now) (event_names system.now) 0 steps.now) }
{
    for (number, step) in steps.iter().enumerate() {
        write_step(system, number as u32, step, to)?;
    }
    Ok(())
}

fn fact_name(system: &FaultSystem, number: u32) -> &[u8]
    ensures { result.now ≡ name_at (fact_names system.now) number }
{
    system.fact_name(number)
}

fn event_name(system: &FaultSystem, number: u32) -> &[u8]
    ensures { result.now ≡ name_at (event_names system.now) number }
{
    system.event_name(number)
}

// Adds the digits of a number plus one.
fn write_number(number: u32, to: &mut Vec<u8>) -> Mem<()>
    ensures { OnOk result (to.new.items ≡ to.old.items ++ decimal (number + 1)) }
{
    let mut digits = Buffer::new();
    to.extend_from_slice(digits.format(number as u64 + 1).as_bytes())?;
    Ok(())
}

// Adds a word behind a blank.
fn write_word(word: &[u8], to: &mut Vec<u8>) -> Mem<()>
    ensures { OnOk result (to.new.items ≡ to.old.items ++ (32 ∷ word.now)) }
{
    to.push(b' ')?;
    to.extend_from_slice(word)?;
    Ok(())
}

// Adds the names of events, each behind a blank.
#[tactic(auto, unfolding(crate::specs::Text::behind_blanks))]
fn write_events(system: &FaultSystem, events: &[u32], to: &mut Vec<u8>) -> Mem<()>
    ensures { OnOk result (to.new.items
        ≡ to.old.items ++ behind_blanks (map (name_at (event_names system.now)) events.now)) }
{
    for event in events {
        write_word(event_name(system, *event), to)?;
    }
    Ok(())
}

// Adds the uses of steps, each behind a blank.
#[tactic(auto, unfolding(crate::specs::Text::behind_blanks))]
fn write_uses(uses: &[u32], to: &mut Vec<u8>) -> Mem<()>
    ensures { OnOk result (to.new.items ≡ to.old.items ++ behind_blanks (map use_text uses.now)) }
{
    for number in uses {
        write_use(*number, to)?;
    }
    Ok(())
}

// Adds the use of a step behind a blank.
fn write_use(number: u32, to: &mut Vec<u8>) -> Mem<()>
    ensures { OnOk result (to.new.items ≡ to.old.items ++ (32 ∷ use_text number)) }
{
    to.extend_from_slice(b" #")?;
    write_number(number, to)
}
