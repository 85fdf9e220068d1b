//! Names as they are compared, and tables of them.

ghost use Rattle.std.specs.Prelude.{◌≡◌, ◌<◌, ◌^◌, IfOk, OnOk, [], length, map};
ghost use Rattle.std.specs.HashMap.{get};
ghost use Rattle.requirement_names.specs.Names.{called, place_of};
ghost use Rattle.requirement_names.specs.inner.Tables.{Added};
ghost use Rattle.requirement_names.specs.Wrong.{again_behind, noting};

use crate::first::FirstWrong;
use crate::mistake::Mistake;
use plain_values::{List, Mem, Name, fold};
use requirements::{Group, PlacedWord, Requirement};
use std::alloc::{AllocError, Global};
use std::collections::HashMap;
use std::hash::Hash;
use std::marker::Model;

/// What a word names.
pub(crate) trait Called {
    ghost use Rattle.std.specs.Prelude.{◌≡◌};
    ghost use Rattle.requirements.specs.declared.words.PlacedWord.{PlacedWord};

    ghost word_of: { Self → PlacedWord };

    /// The word.
    fn word(&self) -> &PlacedWord
        ensures { result.now ≡ word_of self.now };
}

impl Called for PlacedWord {
    ghost word_of = { λ word. word };

    fn word(&self) -> &PlacedWord {
        self
    }
}

impl Called for Group {
    ghost word_of = { λ group. group.name };

    fn word(&self) -> &PlacedWord {
        &self.name
    }
}

impl Called for Requirement {
    ghost word_of = { λ requirement. requirement.name };

    fn word(&self) -> &PlacedWord {
        &self.name
    }
}

/// The names of these as they are compared, with each letter in lower case.
pub(crate) fn folded_names<T: Called>(alloc: Global, items: &[T]) -> Mem<List<Name>>
    ensures { IfOk result (λ names. names ≡ map (called T.word_of) items.now) }
{
    let mut names = List::new(alloc);
    for item in items {
        names.push(fold(alloc, item.word().text.items())?)?;
    }
    Ok(names)
}

/// Names in their order, of which the first that is a text is found at once. Contracts see them as a list.
#[derive(Drop)]
pub(crate) struct NameTable<'a> {
    names: &'a [Name],
    places: HashMap<&'a [u8], u32>,
}

impl<'a> Model for NameTable<'a> {
    ghost use Rattle.std.specs.Prelude.{ℕ, List};
    ghost use Rattle.std.specs.HashMap.{get};
    ghost use Rattle.requirement_names.specs.inner.Tables.{Knows, has_text, same_text};

    ghost Value = { List (List ℕ) };

    ghost view = { λ t. t.names.now };

    ghost invariant = { λ t. Knows has_text t.names.now (get same_text t.places) };
}

impl<'a> NameTable<'a> {
    /// The table of the names of these. Those whose name an earlier one has are noted.
    pub(crate) fn of<T: Called>(
        alloc: Global,
        names: &'a [Name],
        items: &[T],
        first: &mut FirstWrong,
    ) -> Mem<NameTable<'a>>
        requires { names.now ≡ map (called T.word_of) items.now }
        ensures names { IfOk result (λ table. table ≡ names.now) }
        ensures noted { OnOk result (first.new ≡ noting first.old (again_behind T.word_of [] items.now)) }
    {
        let mut places = HashMap::new(alloc);
        for (number, item) in items.iter().enumerate() {
            if number > 4_294_967_295 {
                return Err(AllocError);
            }
            let is_new = add(&mut places, names[number].items(), number as u32)?;
            first.note_if(!is_new, Mistake::DuplicateName, item.word());
        }
        Ok(NameTable { names, places })
    }

    /// The place of the first that is this name.
    pub(crate) fn place(&self, name: &[u8]) -> Option<u32>
        ensures { result ≡ place_of self.now name.now }
    {
        self.places.get(&name).copied()
    }
}

/// Gives a key a number, where it has none yet, and says whether it had none.
fn add<K: Eq + Hash + Drop>(table: &mut HashMap<K, u32>, key: K, number: u32) -> Mem<bool>
    ensures { IfOk result (Added K.eq (get K.eq table.old) (get K.eq table.new) key number) }
{
    if table.contains_key(&key) {
        return Ok(false);
    }
    table.insert(key, number)?;
    Ok(true)
}
