//! The gates of a tree as a system in which no fact reaches itself.

ghost use Rattle.std.specs.Prelude.{◌≡◌, ◌↔◌, ◌<◌, ℕ, IfOk, length, map};
ghost use Rattle.fault_system.specs.Truth.{NumberSet};
ghost use Rattle.fault_system.specs.Systems.{Holds};
ghost use Rattle.round_gates.specs.inner.Targets.{IsWellMade};
ghost use Rattle.round_gates.specs.inner.Trees.{TreeHolds};
ghost use Rattle.galileo_writer.specs.inner.TreeText.{HasTextNames};
ghost use Rattle.path_sets.specs.inner.Duals.{IsWithoutFeedback};
ghost use Rattle.path_sets.specs.GateSystems.{gate_fact, gate_system_of};
ghost use Rattle.path_sets.specs.inner.GateSystems.{GateHolds};

use fault_system::{FactInfo, FaultSystem, copied_events};
use galileo_writer::{gate_name, gates_differ};
use plain_values::{List, Mem};
use round_gates::{Gate, Tree, gate_formula};
use std::alloc::Global;

/// The gates of a tree as facts, in order, with the system's events. No fact reaches itself, and a fact holds under a set of
/// events exactly where its gate is true: the top where the tree is.
///
/// A fact is named as its gate is in a Galileo text, `FACT@STAGE.PLACE`, so that no two have one name.
pub fn gate_system(alloc: Global, system: &FaultSystem, tree: &Tree) -> Mem<FaultSystem>
    requires made { IsWellMade system.now tree.now }
    requires names { HasTextNames system.now }
    ensures gates { IfOk result (λ gates. gates ≡ gate_system_of system.now tree.now) }
    ensures top { IfOk result (λ gates. tree.now.top < length gates.facts) }
    ensures free { IfOk result IsWithoutFeedback }
    ensures truth { IfOk result (λ gates. (events : NumberSet) (n : ℕ) → Holds gates events n ↔ GateHolds tree.now events n) }
    ensures tree { IfOk result (λ gates. (events : NumberSet) → Holds gates events tree.now.top ↔ TreeHolds tree.now events) }
{
    gates_differ();
    let _facts = system.facts();
    let gates = gate_facts(alloc, system, tree.gates.items())?;
    let events = copied_events(alloc, system.event_infos())?;
    Ok(FaultSystem::new(gates, events))
}

/// Gates as facts.
fn gate_facts(alloc: Global, system: &FaultSystem, gates: &[Gate]) -> Mem<List<FactInfo>>
    ensures { IfOk result (λ facts. facts ≡ map (gate_fact system.now) gates.now) }
{
    let mut facts = List::new(alloc);
    for gate in gates {
        facts.push(gate_fact(alloc, system, gate)?)?;
    }
    Ok(facts)
}

/// A gate as a fact.
fn gate_fact(alloc: Global, system: &FaultSystem, gate: &Gate) -> Mem<FactInfo>
    ensures { IfOk result (λ fact. fact ≡ gate_fact system.now gate.now) }
{
    Ok(FactInfo {
        name: gate_name(alloc, system, gate)?,
        owner: 0,
        formula: gate_formula(alloc, gate)?,
    })
}
