//! Laws of the definitions alone: the contract of each function is the law, and its body is empty.

ghost use Rattle.std.specs.Prelude.{◌≡◌, List};
ghost use Rattle.fault_system.specs.Systems.{System};
ghost use Rattle.property_reader.specs.declared.rate.Rate.{Rate};
ghost use Rattle.round_gates.specs.declared.tree.Tree.{Tree};
ghost use Rattle.dot_writer.specs.declared.sheet.Title.{Title};
ghost use Rattle.dot_writer.specs.TreePicture.{dot_text};
ghost use Rattle.dot_writer.specs.inner.ReadBack.{IsTellable, tree_told};

/// A text tells of one tree at most: trees with the same text have the same gates in the same order, with their names, their kinds
/// and their inputs in order, and the same events with their rates.
pub fn one_tree()
    ensures { (one other : System) (first second : Tree) (rates more : List Rate) (title heading : Title)
        → IsTellable one first rates → IsTellable other second more
        → dot_text one first rates title ≡ dot_text other second more heading
        → tree_told one first rates ≡ tree_told other second more }
{}
