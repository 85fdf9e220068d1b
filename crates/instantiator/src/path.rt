ghost use Rattle.std.specs.Prelude.{◌≡◌, ◌∷◌, ◌++◌, [], length, map, IfOk};

use aadl_syntax::Identifier;
use package_index::ClassifierId;
use plain_values::{List, Mem};
use std::alloc::Global;
use std::marker::Model;

/// The path of a component: the names after `root`, which are borrowed from the text. Contracts see them as a list.
#[derive(Drop)]
pub struct Path<'a> {
    names: List<&'a Identifier>,
}

impl<'a> Model for Path<'a> {
    ghost use Rattle.std.specs.Prelude.{List, ℕ, map};

    ghost Value = { List (List ℕ) };

    ghost view = { λ p. map (λ name. name.now) p.names };
}

impl<'a> Path<'a> {
    /// The path of the root.
    pub(crate) fn root(alloc: Global) -> Path<'a>
        ensures { result ≡ [] }
    {
        Path {
            names: List::new(alloc),
        }
    }

    /// The path of a subcomponent of this name.
    pub(crate) fn with(&self, alloc: Global, name: &'a Identifier) -> Mem<Path<'a>>
        ensures { IfOk result (λ path. path ≡ self.now ++ name.now ∷ []) }
    {
        let mut names = Vec::from_slice(alloc, self.names.items())?;
        names.push(name)?;
        Ok(Path {
            names: List::of(names)?,
        })
    }

    /// The same path.
    pub(crate) fn again(&self, alloc: Global) -> Mem<Path<'a>>
        ensures { IfOk result (λ path. path ≡ self.now) }
    {
        let names = Vec::from_slice(alloc, self.names.items())?;
        Ok(Path {
            names: List::of(names)?,
        })
    }

    /// The names.
    pub fn names(&self) -> &[&'a Identifier]
        ensures { map (λ name. name.now) result.now ≡ self.now }
    {
        self.names.items()
    }

    /// How many names there are.
    pub fn len(&self) -> usize
        ensures { result ≡ length self.now }
    {
        self.names.items().len()
    }
}

/// A component of an instance: its path, and its classifier if it has one.
#[derive(Drop)]
pub struct Component<'a> {
    pub path: Path<'a>,
    pub classifier: Option<ClassifierId>,
}
