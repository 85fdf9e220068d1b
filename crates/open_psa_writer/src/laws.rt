//! Laws of the definitions alone: the contract of each function is the law, and its body is empty.

ghost use Rattle.std.specs.Prelude.{◌≡◌, ◌↔◌, ◌<◌, ◌^◌, ℕ, List, codes, filter, length};
ghost use Rattle.std.specs.Str.Parse.{digits_value};
ghost use Rattle.aadl_syntax.specs.Form.{is_hexadecimal};
ghost use Rattle.fault_system.specs.Truth.{NumberSet};
ghost use Rattle.fault_system.specs.Systems.{System, IsSystem, Holds};
ghost use Rattle.property_reader.specs.declared.rate.Rate.{Rate};
ghost use Rattle.round_gates.specs.declared.tree.Tree.{Tree};
ghost use Rattle.round_gates.specs.Targets.{IsTreeFor};
ghost use Rattle.round_gates.specs.inner.Targets.{IsWellMade};
ghost use Rattle.galileo_writer.specs.TreeText.{names_of};
ghost use Rattle.galileo_writer.specs.inner.TreeText.{AreRates};
ghost use Rattle.open_psa_writer.specs.Mef.{Figures, Mef, IsMefOf};
ghost use Rattle.open_psa_writer.specs.Numbers.{digits_behind};
ghost use Rattle.open_psa_writer.specs.inner.Worth.{number_worth, worth_behind};
ghost use Rattle.open_psa_writer.specs.Truth.{MefTrue};
ghost use Rattle.open_psa_writer.specs.inner.TreeMef.{IsMefTree, numbered_gates};
ghost use Rattle.open_psa_writer.specs.TreeMef.{mef_text, tree_mef};

/// Bytes are one text at most.
pub fn one_mef()
    ensures { (bytes : List ℕ) (a b : Mef) → IsMefOf bytes a → IsMefOf bytes b → a ≡ b }
{}

/// The text of a tree of a target is true for the names of a set of events exactly where the target holds under the set, whatever
/// facts feed each other.
pub fn mef_truth()
    ensures { (system : System) (target : ℕ) (tree : Tree) (rates : List Rate) (events : NumberSet)
        → IsSystem system → length system.events < 2 ^ 32 → length tree.gates < 2 ^ 32 → AreRates system rates → IsTreeFor system target tree
        → MefTrue (mef_text system tree rates) (names_of system events) ↔ Holds system events target }
{}

/// The text determines what is written of its tree, and so the gates of the tree, their kinds, inputs and names, those that are written by
/// auxiliary gates too, and the names and rates of its events.
pub fn mef_reads_back()
    ensures text { (system : System) (a b : Tree) (first second : List Rate)
        → length system.events < 2 ^ 32 → length a.gates < 2 ^ 32 → length b.gates < 2 ^ 32
        → IsMefTree system a → IsMefTree system b → AreRates system first → AreRates system second
        → mef_text system a first ≡ mef_text system b second → tree_mef system a first ≡ tree_mef system b second }
    ensures gates { (system : System) (a b : Tree) (first second : List Rate)
        → IsMefTree system b → tree_mef system a first ≡ tree_mef system b second → numbered_gates system a ≡ numbered_gates system b }
{}

/// Each tree that is well made may be written.
pub fn may_be_written()
    ensures { (system : System) (tree : Tree) → IsWellMade system tree → IsMefTree system tree }
{}

/// A number to a base is worth in the text what it is worth in AADL: each digit adds to the base times what stands before it.
pub fn based_worth()
    ensures { (base text : List ℕ)
        → number_worth (digits_behind base (Figures (codes "0")) (filter is_hexadecimal text)) ≡ worth_behind (digits_value 10 base) 0 (filter is_hexadecimal text) }
{}
