ghost use Rattle.std.specs.Prelude.{◌≡◌, ℕ, List as Items};
ghost use Rattle.fault_system.specs.Systems.{System, IsSystem};
ghost use Rattle.zdd_store.specs.inner.Store.{Families, Keeps};
ghost use Rattle.cutset_lister.specs.SetText.{IsSetOfText};
ghost use Rattle.cutset_lister.specs.inner.SetText.{HasTokenNames};
ghost use Rattle.cutset_lister.specs.inner.Walks.{Walk, IsStarted, StaysStarted};

/// A started listing keeps its sets while its store grows.
pub fn stays_started()
    ensures { (before after : Families) (walk : Walk) → Keeps before after → IsStarted before walk → StaysStarted before after walk }
{}

/// A text is that of one set of events at most, where no event is called `none` and no name of one holds a `+`.
pub fn one_set()
    ensures { (system : System) (text a b : Items ℕ) → IsSystem system → HasTokenNames system → IsSetOfText system text a → IsSetOfText system text b → a ≡ b }
{}
