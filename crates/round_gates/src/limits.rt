//! How many places all stages of a slice have.

ghost use Rattle.std.specs.Prelude.{◌≡◌, ◌+◌, ◌*◌, ◌<◌, ◌≤◌, ◌↔◌, All, MatchOption, IsTrue, map};
ghost use Rattle.dependency_blocks.specs.Blocks.{number_of, size_of};
ghost use Rattle.round_gates.specs.Walks.{places, total};
ghost use Rattle.round_gates.specs.Staged.{stage_places, all_places, most_places};

use dependency_blocks::Blocks;
use fault_system::{FaultSystem, Formula};

/// The greatest number of places of all stages of a slice.
const MOST_PLACES: u64 = 16_000_000;

/// What is left of a number after the places of a formula are taken; none where they are more.
#[cycle(places)]
fn take_places(formula: &Formula, left: u64) -> Option<u64>
    ensures { MatchOption result (left < places formula.now) (λ rest. rest + places formula.now ≡ left) }
{
    let rest = left.checked_sub(1)?;
    match formula {
        Formula::True | Formula::Event(_) | Formula::Fact(_) => Some(rest),
        Formula::And(parts) | Formula::Or(parts) | Formula::AtLeast(_, parts) => {
            take_all_places(parts.items(), rest)
        }
    }
}

#[cycle(places)]
fn take_all_places(parts: &[Formula], left: u64) -> Option<u64>
    ensures { MatchOption result (left < total (map places parts.now)) (λ rest. rest + total (map places parts.now) ≡ left) }
{
    let mut rest = left;
    for part in parts {
        rest = take_places(part, rest)?;
    }
    Some(rest)
}

/// How many facts are in the block of a fact.
pub(crate) fn block_size(blocks: &Blocks, fact: u32) -> u32
    requires { number_of blocks.now fact < 4294967295 }
    ensures { result ≡ size_of blocks.now (number_of blocks.now fact) }
{
    match blocks.block_of(fact) {
        Some(block) => blocks.size(block).unwrap_or(0),
        None => 0,
    }
}

/// What is left of a number after the places of all stages of a fact are taken; none where they are more.
fn take_stages(system: &FaultSystem, blocks: &Blocks, fact: u32, left: u64) -> Option<u64>
    requires few { left ≤ most_places }
    requires inside { number_of blocks.now fact < 4294967295 }
    ensures { MatchOption result (left < stage_places system.now blocks.now fact)
        (λ rest. rest + stage_places system.now blocks.now fact ≡ left) }
{
    let size = block_size(blocks, fact);
    match system.fact(fact) {
        Some(info) if size > 0 => take_times(&info.formula, size, left),
        _ => Some(left),
    }
}

/// What is left of a number after the places of a formula are taken so many times; none where they are more.
fn take_times(formula: &Formula, times: u32, left: u64) -> Option<u64>
    requires few { left ≤ most_places }
    requires some { 0 < times }
    ensures { MatchOption result (left < times * places formula.now) (λ rest. rest + times * places formula.now ≡ left) }
{
    let rest = take_places(formula, left)?;
    left.checked_sub(u64::from(times) * (left - rest))
}

/// Whether all stages of some facts have at most 16,000,000 places together.
pub(crate) fn are_few(system: &FaultSystem, blocks: &Blocks, facts: &[u32]) -> bool
    requires { All (λ fact. number_of blocks.now fact < 4294967295) facts.now }
    ensures { IsTrue result ↔ (all_places system.now blocks.now facts.now ≤ most_places) }
{
    let mut left = MOST_PLACES;
    for fact in facts {
        match take_stages(system, blocks, *fact, left) {
            Some(rest) => left = rest,
            None => return false,
        }
    }
    true
}
