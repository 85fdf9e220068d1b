//! Laws of the definitions alone: the contract of each function is the law, and its body is empty.

ghost use Rattle.std.specs.Prelude.{◌≡◌, ◌∷◌, ℕ, List, Option, Result};
ghost use Rattle.fault_system.specs.Truth.{set_of};
ghost use Rattle.fault_system.specs.Systems.{Holds};
ghost use Rattle.cutset_lister.specs.SetText.{IsSetOfText};
ghost use Rattle.phases.specs.Phases.{IsDue, Passes};
ghost use Rattle.phases.specs.inner.Phases.{IsSameEnd};
ghost use Rattle.phases.specs.declared.status.Status.{Status as AnyStatus};
ghost use Rattle.fta_run.specs.Answers.{AllTold, IsOutput, IsSameStatus};
ghost use Rattle.fta_run.specs.Due.{due, model_of_texts, other_texts, texts_of};
ghost use Rattle.fta_run.specs.inner.Texts.{request_text};
ghost use Rattle.fta_run.specs.Forms.{profile_of};
ghost use Rattle.fta_run.specs.Required.{Output};
ghost use Rattle.fta_run.specs.Sets.{set_asked};
ghost use Rattle.fta_run.specs.inner.Files.{StandsBefore, ask};
ghost use Rattle.fta_run.specs.inner.OneEnd.{AskForOneText, IsLikeEnd};
ghost use Rattle.fta_words.specs.declared.kind.Kind.TheVariants.{Confirm, Why};
ghost use Rattle.fta_run.specs.Words.{Request};
ghost use Rattle.model_phases.specs.declared.flat.FlatModel.{FlatModel};
ghost use Rattle.system_answers.specs.Derivations.{accepted_text};
ghost use Rattle.system_answers.specs.Targets.{IsFactNamed};
ghost use Rattle.system_answers.specs.Voices.{Voice};

/// The words, the contents of the files, where these are told, and the reports give one output at most, unless they ask for a tree with
/// merged gates, of which more than one may be made, or for a requirement on a probability, on which more than one verdict may be right.
pub fn one_output()
    ensures { (words : List (List ℕ)) (contents : List ℕ → Option (List ℕ)) (voices : List Voice) → AllTold words contents voices → AskForOneText words contents voices → (a b : Output) → IsOutput words contents voices a → IsOutput words contents voices b → a ≡ b }
{}

/// One end at most is due for the words, the contents of the files, where these are told, and the reports, but for the place of a
/// syntax error: a text, or a status, as that there is no command, or a refusal. Of a tree with merged gates more than one text may be
/// due, and then no status is.
pub fn one_due()
    ensures one { (words : List (List ℕ)) (contents : List ℕ → Option (List ℕ)) (voices : List Voice) → AllTold words contents voices → AskForOneText words contents voices
        → (a b : Result Output AnyStatus) → IsDue (due words contents voices) a → IsDue (due words contents voices) b → IsSameEnd IsSameStatus a b }
    ensures alike { (words : List (List ℕ)) (contents : List ℕ → Option (List ℕ)) (voices : List Voice) → AllTold words contents voices
        → (a b : Result Output AnyStatus) → IsDue (due words contents voices) a → IsDue (due words contents voices) b → IsLikeEnd IsSameStatus a b }
{}

/// What `why` writes is accepted by `confirm`, where it stands in a file before those of the model.
pub fn confirms_why()
    ensures { (contents : List ℕ → Option (List ℕ)) (voices : List Voice) (asked : Request) (files : List (List ℕ)) (file lines : List ℕ)
        → Passes (request_text contents voices (ask Why files asked)) lines → StandsBefore contents files file lines
        → (count : ℕ) × Passes (request_text contents voices (ask Confirm (file ∷ files) asked)) (accepted_text count) }
{}

/// Where `confirm` accepts a text, the target holds under the set in the model of the root in the other files.
pub fn holds_where_confirmed()
    ensures { (contents : List ℕ → Option (List ℕ)) (voices : List Voice) (asked : Request) (files : List (List ℕ)) (answer : List ℕ)
        → Passes (request_text contents voices (ask Confirm files asked)) answer
        → (texts : List (List ℕ)) × (model : FlatModel) × Passes (texts_of contents files) texts × Passes (model_of_texts (profile_of asked.options.form) asked.root (other_texts texts)) model
        × ((number : ℕ) × (events : List ℕ) × IsFactNamed model.system asked.target number × IsSetOfText model.system (set_asked (profile_of asked.options.form) asked.options.set model.system) events × Holds model.system (set_of events) number) }
{}
