//! A law of the text of a tree and of what is listed of it: the contract of the function is the law, and its body is empty.

ghost use Rattle.std.specs.Prelude.{◌≡◌, ◌≤◌, ℕ, false, List, None, Option, length};
ghost use Rattle.backward_slice.specs.Slices.{HasLargeSlice};
ghost use Rattle.cutset_writer.specs.Text.{listing_page};
ghost use Rattle.cutset_writer.specs.declared.form.SetForm.TheVariants.{Quoted};
ghost use Rattle.fault_system.specs.Listings.{IsListing};
ghost use Rattle.fault_system.specs.Systems.{IsSystem, System};
ghost use Rattle.galileo_reader.specs.TreeSystems.{system_of};
ghost use Rattle.galileo_reader.specs.inner.Written.{named_tree};
ghost use Rattle.galileo_writer.specs.inner.TreeText.{AreRates, HasTextNames};
ghost use Rattle.phases.specs.Phases.{IsRefusal, Passes, Stops};
ghost use Rattle.phases.specs.declared.status.Status.{Status};
ghost use Rattle.property_reader.specs.declared.rate.Rate.{Rate};
ghost use Rattle.round_gates.specs.Targets.{IsTreeFor};
ghost use Rattle.round_gates.specs.declared.tree.Tree.{Tree};
ghost use Rattle.system_answers.specs.Texts.{galileo_text};
ghost use Rattle.system_answers.specs.Trees.{IsTreeText};

/// What is listed of the text of a target's tree is the page of the target's own listing, with the names in quotes; a text of at most
/// 4,194,304 bytes is refused only where the tree has too large a slice.
pub fn lists_the_written_tree()
    ensures page { (system : System) (rates : List Rate) (target : ℕ) (tree : Tree) (text page : List ℕ) (limit max_order : Option ℕ) (sets : List (List ℕ))
        → IsSystem system → HasTextNames system → AreRates system rates → IsTreeFor system target tree → IsTreeText system rates target tree text → length text ≤ 4194304
        → IsListing system target max_order sets → Passes (galileo_text false limit max_order text) page → page ≡ listing_page Quoted system None limit sets }
    ensures refused { (system : System) (rates : List Rate) (target : ℕ) (tree : Tree) (text : List ℕ) (limit max_order : Option ℕ) (status : Status)
        → IsSystem system → HasTextNames system → AreRates system rates → IsTreeFor system target tree → IsTreeText system rates target tree text → length text ≤ 4194304
        → Stops (galileo_text false limit max_order text) status → IsRefusal (HasLargeSlice (system_of (named_tree system tree rates)) tree.top) status }
{}
