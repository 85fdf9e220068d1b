//! The dual of a system in which no fact reaches itself.

ghost use Rattle.std.specs.Prelude.{◌≡◌, ◌↔◌, ◌<◌, ℕ, IfOk, map, length};
ghost use Rattle.fault_system.specs.Truth.{NumberSet};
ghost use Rattle.fault_system.specs.Systems.{Holds};
ghost use Rattle.path_sets.specs.Duals.{dual_count, dual_fact, dual_formula, dual_of};
ghost use Rattle.path_sets.specs.inner.Duals.{IsWithoutFeedback, outside};

use fault_system::{FactInfo, FaultSystem, Formula, copied_events};
use plain_values::{List, Mem, copied};
use std::alloc::Global;

/// The dual of a system in which no fact reaches itself: a fact holds in it under some events exactly where it does not hold in
/// the system under all other events.
///
/// `And` and `Or` are exchanged, and what always holds never does. At least `k` of `n` become at least `n + 1 - k`. The names,
/// the owners and the events are those of the system.
pub fn dual(alloc: Global, system: &FaultSystem) -> Mem<FaultSystem>
    requires { IsWithoutFeedback system.now }
    ensures made { IfOk result (λ made. made ≡ dual_of system.now) }
    ensures opposite { IfOk result (λ made. (events : NumberSet) (n : ℕ) → n < length system.now.facts
        → Holds made events n ↔ (Holds system.now (outside events) n → ⊥)) }
{
    let _facts = system.facts();
    let duals = dual_facts(alloc, system.fact_infos())?;
    let events = copied_events(alloc, system.event_infos())?;
    Ok(FaultSystem::new(duals, events))
}

/// The duals of some facts.
fn dual_facts(alloc: Global, facts: &[FactInfo]) -> Mem<List<FactInfo>>
    ensures { IfOk result (λ made. made ≡ map dual_fact facts.now) }
{
    let mut made = List::new(alloc);
    for fact in facts {
        made.push(dual_fact(alloc, fact)?)?;
    }
    Ok(made)
}

/// The dual of a fact.
fn dual_fact(alloc: Global, fact: &FactInfo) -> Mem<FactInfo>
    ensures { IfOk result (λ made. made ≡ dual_fact fact.now) }
{
    Ok(FactInfo {
        name: copied(alloc, fact.name.items())?,
        owner: fact.owner,
        formula: dual_formula(alloc, &fact.formula)?,
    })
}

/// The dual of a formula.
#[cycle(dual)]
fn dual_formula(alloc: Global, formula: &Formula) -> Mem<Formula>
    ensures { IfOk result (λ made. made ≡ dual_formula formula.now) }
{
    match formula {
        Formula::True => Ok(Formula::Or(List::new(alloc))),
        Formula::Event(number) => Ok(Formula::Event(*number)),
        Formula::Fact(number) => Ok(Formula::Fact(*number)),
        Formula::And(parts) => Ok(Formula::Or(duals(alloc, parts.items())?)),
        Formula::Or(parts) => Ok(Formula::And(duals(alloc, parts.items())?)),
        Formula::AtLeast(least, parts) => {
            let made = duals(alloc, parts.items())?;
            Ok(dual_count(alloc, *least, made))
        }
    }
}

/// The duals of some formulas.
#[cycle(dual)]
fn duals(alloc: Global, parts: &[Formula]) -> Mem<List<Formula>>
    ensures { IfOk result (λ made. made ≡ map dual_formula parts.now) }
{
    let mut made = List::new(alloc);
    for part in parts {
        made.push(dual_formula(alloc, part)?)?;
    }
    Ok(made)
}

/// What becomes of `at least` over the duals of its parts.
fn dual_count(alloc: Global, least: u32, duals: List<Formula>) -> Formula
    ensures { result ≡ dual_count least duals }
{
    if least == 0 {
        return Formula::Or(List::new(alloc));
    }
    let left = (duals.items().len() + 1).saturating_sub(least as usize);
    Formula::AtLeast(left as u32, duals)
}
