//! Laws of the texts of derivations and of their check: the contract of each function is the law, and its body is empty.

ghost use Rattle.std.specs.Prelude.{ℕ, List};
ghost use Rattle.phases.specs.Phases.{Passes};
ghost use Rattle.fault_system.specs.Truth.{set_of};
ghost use Rattle.fault_system.specs.Systems.{System, Holds, IsSystem};
ghost use Rattle.cutset_lister.specs.SetText.{IsSetOfText};
ghost use Rattle.system_answers.specs.Derivations.{accepted_text, confirm_text, why_text};
ghost use Rattle.system_answers.specs.Targets.{IsFactNamed};

/// What is written of a target and a set is accepted of the same.
pub fn accepts_why()
    ensures { (system : System) (target text lines : List ℕ) → IsSystem system → Passes (why_text target text system) lines
        → (count : ℕ) × Passes (confirm_text target text lines system) (accepted_text count) }
{}

/// Where a text is accepted of a target and a set, the target holds under the set.
pub fn holds_where_accepted()
    ensures { (system : System) (target text bytes answer : List ℕ) → Passes (confirm_text target text bytes system) answer
        → (number : ℕ) × (set : List ℕ) × IsFactNamed system target number × IsSetOfText system text set × Holds system (set_of set) number }
{}
