//! A system with less in it: some events never occur, and one fact never makes another one hold.

ghost use Rattle.std.specs.Prelude.{◌≡◌, IfOk, map};
ghost use Rattle.cutset_engine.specs.inner.ThinSystems.{thin_event, thin_fact, thin_formula, thin_of, thin_reference};

use fault_system::{Bits, FactInfo, FaultSystem, Formula, copied_events};
use plain_values::{List, Mem, copied};
use std::alloc::Global;

/// The system in whose formulas some events and one fact are never true. The names, the owners and the events are those of
/// the system.
pub(crate) fn thinned(
    alloc: Global,
    system: &FaultSystem,
    dropped: &Bits,
    but: u32,
) -> Mem<FaultSystem>
    ensures { IfOk result (λ made. made ≡ thin_of dropped.now but system.now) }
{
    let _facts = system.facts();
    let thin = thin_facts(alloc, dropped, but, system.fact_infos())?;
    let events = copied_events(alloc, system.event_infos())?;
    Ok(FaultSystem::new(thin, events))
}

/// Facts with the formulas that are left of theirs.
fn thin_facts(alloc: Global, dropped: &Bits, but: u32, facts: &[FactInfo]) -> Mem<List<FactInfo>>
    ensures { IfOk result (λ made. made ≡ map (thin_fact dropped.now but) facts.now) }
{
    let mut made = List::new(alloc);
    for fact in facts {
        made.push(thin_fact(alloc, dropped, but, fact)?)?;
    }
    Ok(made)
}

/// A fact with the formula that is left of its own.
fn thin_fact(alloc: Global, dropped: &Bits, but: u32, fact: &FactInfo) -> Mem<FactInfo>
    ensures { IfOk result (λ made. made ≡ thin_fact dropped.now but fact.now) }
{
    Ok(FactInfo {
        name: copied(alloc, fact.name.items())?,
        owner: fact.owner,
        formula: thin_formula(alloc, dropped, but, &fact.formula)?,
    })
}

/// What is left of a formula.
#[cycle(thin)]
fn thin_formula(alloc: Global, dropped: &Bits, but: u32, formula: &Formula) -> Mem<Formula>
    ensures { IfOk result (λ made. made ≡ thin_formula dropped.now but formula.now) }
{
    match formula {
        Formula::True => Ok(Formula::True),
        Formula::Event(number) => Ok(thin_event(alloc, dropped, *number)),
        Formula::Fact(number) => Ok(thin_reference(alloc, but, *number)),
        Formula::And(parts) => Ok(Formula::And(thin_parts(alloc, dropped, but, parts.items())?)),
        Formula::Or(parts) => Ok(Formula::Or(thin_parts(alloc, dropped, but, parts.items())?)),
        Formula::AtLeast(least, parts) => Ok(Formula::AtLeast(
            *least,
            thin_parts(alloc, dropped, but, parts.items())?,
        )),
    }
}

/// What is left of some formulas.
#[cycle(thin)]
fn thin_parts(alloc: Global, dropped: &Bits, but: u32, parts: &[Formula]) -> Mem<List<Formula>>
    ensures { IfOk result (λ made. made ≡ map (thin_formula dropped.now but) parts.now) }
{
    let mut made = List::new(alloc);
    for part in parts {
        made.push(thin_formula(alloc, dropped, but, part)?)?;
    }
    Ok(made)
}

/// An event, or what is never true where it is one that is dropped.
fn thin_event(alloc: Global, dropped: &Bits, number: u32) -> Formula
    ensures { result ≡ thin_event dropped.now number }
{
    if dropped.has(number) {
        return Formula::Or(List::new(alloc));
    }
    Formula::Event(number)
}

/// A fact, or what is never true where it is the one that is left out.
fn thin_reference(alloc: Global, but: u32, number: u32) -> Formula
    ensures { result ≡ thin_reference but number }
{
    if number == but {
        return Formula::Or(List::new(alloc));
    }
    Formula::Fact(number)
}
