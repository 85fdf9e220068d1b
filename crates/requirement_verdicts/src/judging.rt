//! The verdict on a requirement.

ghost use Rattle.std.specs.Prelude.{◌≡◌, ◌↔◌, ℕ, IfOk, IsTrue, MatchOption};
ghost use Rattle.std.specs.List.{AllByRecursion};
ghost use Rattle.fault_system.specs.Systems.{System};
ghost use Rattle.fault_system.specs.CutSets.{IsEventSet};
ghost use Rattle.requirement_names.specs.declared.named.SetSentence.TheVariants.{Order};
ghost use Rattle.requirement_verdicts.specs.Meanings.{HoldsAnyway, IsKept, MayHold};
ghost use Rattle.requirement_verdicts.specs.Verdicts.{IsVerdict};
ghost use Rattle.requirement_verdicts.specs.inner.Verdicts.{ForbidsNone, HasEventSets, IsFirstForbidden};

use crate::stale::first_stale;
use crate::verdict::Verdict;
use fault_system::FaultSystem;
use plain_values::{List, Mem};
use requirement_names::SetSentence;
use std::alloc::Global;

/// The verdict on what a sentence says of a target, where no set need be sought: this never holds, or it holds without any event. It is
/// known whether it does.
pub fn early_verdict(
    alloc: Global,
    always: bool,
    perhaps: bool,
    sentence: &SetSentence,
) -> Option<Verdict>
    ensures { (system : System) (target : ℕ) → (IsTrue always ↔ HoldsAnyway system target) → (IsTrue perhaps ↔ MayHold system target)
        → MatchOption result (MayHold system target × (HoldsAnyway system target → ⊥)) (IsVerdict system target sentence.now) }
{
    if !perhaps {
        return Some(never_holding(sentence));
    }
    if always {
        return Some(Verdict::Broken(List::new(alloc)));
    }
    None
}

/// The verdict where the target never holds.
fn never_holding(sentence: &SetSentence) -> Verdict
    ensures { (system : System) (target : ℕ) → (MayHold system target → ⊥) → IsVerdict system target sentence.now result }
{
    match sentence {
        SetSentence::Never => Verdict::Met,
        SetSentence::Order(_, _) => Verdict::Vacuous,
        SetSentence::Mixed(_, _) => Verdict::Vacuous,
        SetSentence::Without(_) => Verdict::Vacuous,
        SetSentence::Possible => Verdict::Vacuous,
    }
}

/// The verdict on what a sentence says of a target that may hold, and not without any event. It is known which is the first minimal cut set,
/// in listing order, that the sentence forbids, if it forbids any.
pub fn late_verdict(
    alloc: Global,
    system: &FaultSystem,
    target: u32,
    sentence: &SetSentence,
    first: Option<List<u32>>,
) -> Mem<Verdict>
    requires sets { HasEventSets system.now sentence.now }
    requires perhaps { MayHold system.now target }
    requires some { HoldsAnyway system.now target → ⊥ }
    requires first { MatchOption first (ForbidsNone system.now target sentence.now) (IsFirstForbidden system.now target sentence.now) }
    ensures { IfOk result (IsVerdict system.now target sentence.now) }
{
    match first {
        Some(set) => Ok(Verdict::Broken(set)),
        None => unbroken(alloc, system, target, sentence),
    }
}

/// The verdict where the sentence forbids no minimal cut set.
fn unbroken(
    alloc: Global,
    system: &FaultSystem,
    target: u32,
    sentence: &SetSentence,
) -> Mem<Verdict>
    requires sets { HasEventSets system.now sentence.now }
    requires perhaps { MayHold system.now target }
    requires some { HoldsAnyway system.now target → ⊥ }
    requires kept { IsKept system.now target sentence.now }
    ensures { IfOk result (IsVerdict system.now target sentence.now) }
{
    match sentence {
        SetSentence::Order(least, except) => {
            fresh_or_stale(alloc, system, target, *least, except.items())
        }
        SetSentence::Mixed(_, _) => Ok(Verdict::Met),
        SetSentence::Without(_) => Ok(Verdict::Met),
        SetSentence::Possible => Ok(Verdict::Met),
        SetSentence::Never => Ok(Verdict::Met),
    }
}

/// Met, or stale by the first exception that is.
fn fresh_or_stale(
    alloc: Global,
    system: &FaultSystem,
    target: u32,
    least: u32,
    except: &[List<u32>],
) -> Mem<Verdict>
    requires sets { AllByRecursion (IsEventSet system.now) except.now }
    requires perhaps { MayHold system.now target }
    requires some { HoldsAnyway system.now target → ⊥ }
    requires kept { IsKept system.now target (Order least except.now) }
    ensures { IfOk result (IsVerdict system.now target (Order least except.now)) }
{
    match first_stale(alloc, system, target, least, except)? {
        Some(set) => Ok(Verdict::Stale(set)),
        None => Ok(Verdict::Met),
    }
}
