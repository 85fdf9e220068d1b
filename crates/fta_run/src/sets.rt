//! The set of events for which the words ask.

ghost use Rattle.std.specs.Prelude.{◌≡◌, IfOk};
ghost use Rattle.std.specs.Option.{option_map_or};
ghost use Rattle.cutset_lister.specs.SetText.{set_text};
ghost use Rattle.requirement_names.specs.Sets.{set_named};
ghost use Rattle.fta_run.specs.Sets.{set_asked};

use cutset_lister::write_token;
use fault_system::FaultSystem;
use plain_values::{List, Mem, Name, copied};
use profiles::Profile;
use requirement_names::{ModelNames, set_named};
use std::alloc::Global;

/// The text of the set for which a word asks, as a listing has it.
pub(crate) fn set_asked(
    alloc: Global,
    profile: Profile,
    word: &Name,
    system: &FaultSystem,
) -> Mem<Name>
    ensures { IfOk result (λ text. text ≡ set_asked profile word.now system.now) }
{
    match profile {
        Profile::First => copied(alloc, word.items()),
        Profile::Second => in_order(alloc, word, system),
    }
}

/// The text of the set whose events a word names in any order, as a listing has it; the word itself where it names none.
fn in_order(alloc: Global, word: &Name, system: &FaultSystem) -> Mem<Name>
    ensures { IfOk result (λ text. text ≡ option_map_or (set_text system.now) (set_named system.now word.now) word.now) }
{
    let model = ModelNames::of(alloc, system)?;
    match set_named(alloc, &model, word.items())? {
        Some(set) => text_of(alloc, system, set.items()),
        None => copied(alloc, word.items()),
    }
}

/// The text of a set of events.
fn text_of(alloc: Global, system: &FaultSystem, set: &[u32]) -> Mem<Name>
    ensures { IfOk result (λ text. text ≡ set_text system.now set.now) }
{
    let mut text = Vec::new(alloc);
    write_token(system, set, &mut text)?;
    List::of(text)
}
