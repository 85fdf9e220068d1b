//! Laws of the definitions alone: the contract of each function is the law, and its body is empty.

ghost use Rattle.std.specs.Prelude.{◌≡◌, ◌↔◌, ◌<◌, ◌≤◌, ℕ, Bool, true, false, List, Option, length, map};
ghost use Rattle.backward_slice.specs.Slices.{DependsOn};
ghost use Rattle.fault_system.specs.Listings.{IsListing};
ghost use Rattle.fault_system.specs.Systems.{Holds, IsFact, IsSystem, System, event_name};
ghost use Rattle.fault_system.specs.Truth.{NumberSet, occurs};
ghost use Rattle.fault_system.specs.declared.formula.FactInfo.{FactInfo};
ghost use Rattle.galileo_writer.specs.TreeText.{names_of, tree_text};
ghost use Rattle.galileo_writer.specs.inner.TreeText.{AreRates, HasTextNames};
ghost use Rattle.property_reader.specs.declared.rate.Rate.{Rate};
ghost use Rattle.round_gates.specs.Targets.{IsTreeFor};
ghost use Rattle.round_gates.specs.inner.Targets.{IsWellMade};
ghost use Rattle.round_gates.specs.declared.tree.Tree.{Tree};
ghost use Rattle.galileo_reader.specs.Statements.{AreLines, IsBadAt, IsLine};
ghost use Rattle.galileo_reader.specs.TreeSystems.{system_of};
ghost use Rattle.galileo_reader.specs.Trees.{IsFlawed, IsRead};
ghost use Rattle.galileo_reader.specs.inner.Truth.{StaticTrue};
ghost use Rattle.galileo_reader.specs.inner.Written.{event_at, events_at, named_tree};
ghost use Rattle.galileo_reader.specs.declared.statement.Statement.{Statement};
ghost use Rattle.galileo_reader.specs.declared.tree.Flaw.{Flaw};
ghost use Rattle.galileo_reader.specs.declared.tree.NamedTree.{NamedTree};

/// At a place one line stands at most.
pub fn one_line()
    ensures { (wide : Bool) (text : List ℕ) (at : ℕ) (a b : Statement) (m n : ℕ) → IsLine wide text at a m → IsLine wide text at b n → (a ≡ b) × (m ≡ n) }
{}

/// A text has one reading at most, and none where it is bad; the place where it is bad is one.
pub fn one_text()
    ensures reading { (wide : Bool) (text : List ℕ) (at : ℕ) (a b : List Statement) → AreLines wide text at a → AreLines wide text at b → a ≡ b }
    ensures apart { (wide : Bool) (text : List ℕ) (at : ℕ) (a b : List Statement) (bad : ℕ) → AreLines wide text at a → IsBadAt wide text at b bad → ⊥ }
    ensures place { (wide : Bool) (text : List ℕ) (at : ℕ) (a b : List Statement) (m n : ℕ) → IsBadAt wide text at a m → IsBadAt wide text at b n → m ≡ n }
{}

/// A text is that of one tree at most, and of none where something is wrong with it; of what is wrong with it one comes first.
pub fn one_answer()
    ensures tree { (wide : Bool) (text : List ℕ) (a b : NamedTree) → IsRead wide text a → IsRead wide text b → a ≡ b }
    ensures apart { (wide : Bool) (text : List ℕ) (tree : NamedTree) (flaw : Flaw) → IsRead wide text tree → IsFlawed wide text flaw → ⊥ }
    ensures flaw { (wide : Bool) (text : List ℕ) (a b : Flaw) → IsFlawed wide text a → IsFlawed wide text b → a ≡ b }
{}

/// What the first reading reads as lines, or as a tree, the wide one reads as the same.
pub fn read_as_before()
    ensures lines { (text : List ℕ) (at : ℕ) (lines : List Statement) → AreLines false text at lines → AreLines true text at lines }
    ensures tree { (text : List ℕ) (tree : NamedTree) → IsRead false text tree → IsRead true text tree }
{}

/// The text of a tree, which may have at most 4,194,304 bytes, reads as the tree: its gates, their kinds and their inputs in
/// order, its top, its events and their rates, under the names that are written.
pub fn round_trip()
    ensures { (system : System) (tree : Tree) (rates : List Rate) → IsSystem system → HasTextNames system → AreRates system rates → IsWellMade system tree
        → length (tree_text system tree rates) ≤ 4194304 → IsRead false (tree_text system tree rates) (named_tree system tree rates) }
{}

/// A tree that is read has no feedback: no fact of its system depends on a fact in whose formula it occurs.
pub fn no_feedback()
    ensures { (wide : Bool) (text : List ℕ) (tree : NamedTree) → IsRead wide text tree → (n m : ℕ) (fact : FactInfo)
        → IsFact (system_of tree) n fact → occurs m fact.formula ≡ true → DependsOn (system_of tree) m n → ⊥ }
{}

/// The text of a target's tree, which may have at most 4,194,304 bytes, is true for the names of a set of events exactly where the
/// target holds under the set. The tree that is read of it has the target's listing: the same sets in the same order, each as the
/// places of its events among those of the tree, where they have their names.
pub fn written_tree()
    ensures truth { (system : System) (target : ℕ) (tree : Tree) (rates : List Rate) (events : NumberSet)
        → IsSystem system → HasTextNames system → AreRates system rates → IsTreeFor system target tree → length (tree_text system tree rates) ≤ 4194304
        → StaticTrue false (tree_text system tree rates) (names_of system events) ↔ Holds system events target }
    ensures listing { (system : System) (target : ℕ) (tree : Tree) (rates : List Rate) (most : Option ℕ) (sets : List (List ℕ))
        → IsSystem system → HasTextNames system → IsTreeFor system target tree
        → IsListing (system_of (named_tree system tree rates)) tree.top most sets → IsListing system target most (map (events_at tree.events) sets) }
    ensures names { (system : System) (target : ℕ) (tree : Tree) (rates : List Rate) (place : ℕ)
        → IsSystem system → HasTextNames system → IsTreeFor system target tree → place < length tree.events
        → event_name (system_of (named_tree system tree rates)) place ≡ event_name system (event_at tree.events place) }
{}
