//! What occurs in the formulas of a system.

ghost use Rattle.std.specs.Prelude.{◌≡◌, ◌↔◌, ◌<◌, ◌||◌, ◌==◌, ◌⊎◌, ℕ, IfOk, length, map, true};
ghost use Rattle.std.specs.List.{list_any};
ghost use Rattle.fault_system.specs.Truth.{Has, member, occurs};
ghost use Rattle.fault_system.specs.Systems.{IsFact};
ghost use Rattle.fault_system.specs.declared.formula.FactInfo.{FactInfo};
ghost use Rattle.system_review.specs.Occurring.{IsUsedEvent, used_in};
ghost use Rattle.system_review.specs.inner.Occurring.{IsUsedFact};

use backward_slice::reach;
use dependency_blocks::all_facts;
use fault_system::{Bits, FaultSystem, Formula};
use plain_values::Mem;
use std::alloc::Global;

/// The facts that occur in formulas.
pub fn used_facts(alloc: Global, system: &FaultSystem) -> Mem<Bits>
    ensures size { IfOk result (λ facts. length facts ≡ length system.now.facts) }
    ensures exact { IfOk result (λ facts. (n : ℕ) → Has (member facts) n ↔ IsUsedFact system.now n) }
    ensures computed { IfOk result (λ facts. (n : ℕ) → member facts n ≡ used_in system.now n) }
{
    let mut facts = Bits::new(alloc, system.facts())?;
    mark_used(system, &mut facts);
    Ok(facts)
}

fn mark_used(system: &FaultSystem, marks: &mut Bits)
    ensures size { length marks.new ≡ length marks.old }
    ensures kept { (m : ℕ) → Has (member marks.old) m → Has (member marks.new) m }
    ensures right { (m : ℕ) → Has (member marks.new) m → Has (member marks.old) m ⊎ IsUsedFact system.now m }
    ensures done { (n m : ℕ) (fact : FactInfo) → IsFact system.now n fact → m < length marks.old
        → occurs m fact.formula ≡ true → Has (member marks.new) m }
{
    for number in 0..system.facts() {
        mark_used_by(system, marks, number);
    }
}

// Marks the facts in the formula of a fact.
fn mark_used_by(system: &FaultSystem, marks: &mut Bits, number: u32)
    ensures size { length marks.new ≡ length marks.old }
    ensures kept { (m : ℕ) → Has (member marks.old) m → Has (member marks.new) m }
    ensures right { (m : ℕ) → Has (member marks.new) m → Has (member marks.old) m ⊎ IsUsedFact system.now m }
    ensures done { (m : ℕ) (fact : FactInfo) → IsFact system.now number fact → m < length marks.old
        → occurs m fact.formula ≡ true → Has (member marks.new) m }
{
    match system.fact(number) {
        Some(fact) => mark_facts(marks, &fact.formula),
        None => {}
    }
}

/// The events that occur in formulas: those on which some fact depends.
pub(crate) fn used_events(alloc: Global, system: &FaultSystem) -> Mem<Bits>
    ensures { IfOk result (λ events. (e : ℕ) → Has (member events) e ↔ IsUsedEvent system.now e) }
{
    let facts = all_facts(alloc, system.facts())?;
    let found = reach(alloc, system, facts.items())?;
    Ok(found.events)
}

// Marks the facts in a formula.
#[cycle(facts)]
fn mark_facts(marks: &mut Bits, formula: &Formula)
    ensures size { length marks.new ≡ length marks.old }
    ensures marks { (m : ℕ) → m < length marks.old → member marks.new m ≡ member marks.old m || occurs m formula.now }
{
    match formula {
        Formula::True | Formula::Event(_) => {}
        Formula::Fact(number) => mark(marks, *number),
        Formula::And(parts) | Formula::Or(parts) | Formula::AtLeast(_, parts) => {
            mark_facts_of(marks, parts.items())
        }
    }
}

#[cycle(facts)]
fn mark_facts_of(marks: &mut Bits, parts: &[Formula])
    ensures size { length marks.new ≡ length marks.old }
    ensures marks { (m : ℕ) → m < length marks.old
        → member marks.new m ≡ member marks.old m || list_any (λ part. part) (map (occurs m) parts.now) }
{
    for part in parts {
        mark_facts(marks, part);
    }
}

/// Marks a number, if it is in range.
pub(crate) fn mark(marks: &mut Bits, number: u32)
    ensures size { length marks.new ≡ length marks.old }
    ensures marks { (m : ℕ) → m < length marks.old → member marks.new m ≡ member marks.old m || number == m }
{
    if number < marks.size() {
        marks.put(number);
    }
}
