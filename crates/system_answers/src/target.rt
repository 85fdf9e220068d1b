//! The fact that the target names.

ghost use Rattle.std.specs.Prelude.{◌↔◌, IsTrue};
ghost use Rattle.phases.specs.inner.Meets.{Meets};
ghost use Rattle.system_answers.specs.Targets.{HasName};
ghost use Rattle.system_answers.specs.Texts.{target_of};

use fault_system::FaultSystem;
use phases::Status;
use plain_values::{Code, Name, Refusal, is_same};

/// The number of the fact of a name.
pub fn find_target(system: &FaultSystem, name: &Name) -> Result<u32, Status>
    ensures { Meets (target_of name.now system.now) result }
{
    for number in 0..system.facts() {
        if has_name(system, number, name) {
            return Ok(number);
        }
    }
    Err(Status::Refused(Refusal::of_words(Code::UnknownTarget)))
}

fn has_name(system: &FaultSystem, number: u32, name: &Name) -> bool
    ensures { IsTrue result ↔ HasName system.now name.now number }
{
    match system.fact(number) {
        Some(fact) => is_same(fact.name.items(), name.items()),
        None => false,
    }
}
