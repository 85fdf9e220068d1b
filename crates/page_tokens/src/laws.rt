ghost use Rattle.std.specs.Prelude.{◌≡◌, ℕ, false, List as Items, Option as Maybe, Some, IfSome};
ghost use Rattle.fault_system.specs.CutSets.{IsEventSet};
ghost use Rattle.fault_system.specs.Systems.{System};
ghost use Rattle.phases.specs.Phases.{Passes, Stops};
ghost use Rattle.phases.specs.declared.status.Status.{Status as AnyStatus};
ghost use Rattle.cutset_lister.specs.SetText.{set_text};
ghost use Rattle.page_tokens.specs.Forms.{AreDigits, begins_new, token_text};
ghost use Rattle.page_tokens.specs.Starts.{page_start, start_text};
ghost use Rattle.page_tokens.specs.inner.Starts.{HasPageNames};

/// What is written is read back: a token of the second version, where its digits are those of the key; and the text of a set, which
/// is a token of the first version.
pub fn reads_back()
    ensures second { (system : System) (key : Items ℕ) (start : Maybe (Items ℕ)) → HasPageNames system → AreDigits key → IfSome start (IsEventSet system)
        → Passes (page_start key (token_text key (start_text system start)) system) start }
    ensures first { (system : System) (key set : Items ℕ) → HasPageNames system → IsEventSet system set → Passes (page_start key (set_text system set) system) (Some set) }
{}

/// Of a text of the first version the key decides nothing.
pub fn first_version_has_no_key()
    ensures starts { (key other text : Items ℕ) (system : System) (start : Maybe (Items ℕ)) → begins_new text ≡ false
        → Passes (page_start key text system) start → Passes (page_start other text system) start }
    ensures stops { (key other text : Items ℕ) (system : System) (status : AnyStatus) → begins_new text ≡ false
        → Stops (page_start key text system) status → Stops (page_start other text system) status }
{}
