//! Laws of the definitions alone: the contract of each function is the law, and its body is empty.

ghost use Rattle.std.specs.Prelude.{◌≡◌, ◌↔◌, ℕ, List, map};
ghost use Rattle.fault_system.specs.Truth.{NumberSet};
ghost use Rattle.fault_system.specs.Systems.{System, IsSystem, Holds, NamesDiffer};
ghost use Rattle.property_reader.specs.declared.rate.Rate.{Rate};
ghost use Rattle.round_gates.specs.declared.tree.Tree.{Tree};
ghost use Rattle.round_gates.specs.Targets.{IsTreeFor};
ghost use Rattle.round_gates.specs.inner.Targets.{IsWellMade};
ghost use Rattle.galileo_writer.specs.Galileo.{Galileo, IsTextOf};
ghost use Rattle.galileo_writer.specs.Truth.{TextTrue};
ghost use Rattle.galileo_writer.specs.TreeText.{gate_name, names_of, tree_text};
ghost use Rattle.galileo_writer.specs.inner.TreeText.{AreRates, HasTextNames};

/// Bytes are one text at most.
pub fn one_text()
    ensures { (bytes : List ℕ) (a b : Galileo) → IsTextOf bytes a → IsTextOf bytes b → a ≡ b }
{}

/// The text of a tree of a target is one, and it is true for the names of a set of events exactly where the target holds under
/// the set, whatever facts feed each other.
pub fn text_truth()
    ensures { (system : System) (target : ℕ) (tree : Tree) (rates : List Rate) (events : NumberSet)
        → IsSystem system → HasTextNames system → AreRates system rates → IsTreeFor system target tree
        → TextTrue (tree_text system tree rates) (names_of system events) ↔ Holds system events target }
{}

/// The gates of a well-made tree have different names.
pub fn gates_differ()
    ensures { (system : System) (tree : Tree) → IsSystem system → HasTextNames system → IsWellMade system tree
        → NamesDiffer (map (gate_name system) tree.gates) }
{}
