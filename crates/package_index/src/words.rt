ghost use Rattle.std.specs.Prelude.{◌≡◌, ◌<◌, ◌-◌, length, get_or, take, option_copied, [], Some, None};
ghost use Rattle.std.specs.Cmp as Cmp;
ghost use Rattle.std.specs.Cmp.{on_equiv, on_per};
ghost use Rattle.std.specs.Cmp.Lexicographic.{lists_equiv, nat_list_eq_equiv};
ghost use Rattle.std.specs.Hash as fed;
ghost use Rattle.std.specs.Hash.{on_Alike, items_Alike, same_Alike};
ghost use Rattle.std.proofs.lemmas.Bool.Decides.{Decides-eqb};
ghost use Rattle.package_index.specs.Names.{front, is_same_name, last, only};
ghost use Rattle.package_index.specs.inner.Names.{names_of};

use aadl_syntax::Identifier;
use plain_values::{Name, is_same};
use std::hash::{Hash, Hasher};

/// Names with `::` between them, as they stand in a text or in the words of a command.
#[derive(Clone, Copy)]
pub enum Words<'a> {
    Identifiers(&'a [Identifier]),
    Names(&'a [Name]),
}

impl<'a> Words<'a> {
    /// How many names there are.
    pub fn len(&self) -> usize
        ensures { result ≡ length (names_of self.now) }
    {
        match self {
            Words::Identifiers(identifiers) => identifiers.len(),
            Words::Names(names) => names.len(),
        }
    }

    /// The name at a place.
    pub fn name(&self, place: usize) -> &'a [u8]
        requires { place < length (names_of self.now) }
        ensures { result.now ≡ get_or (names_of self.now) place [] }
    {
        match self {
            Words::Identifiers(identifiers) => text_at(identifiers, place),
            Words::Names(names) => bytes_at(names, place),
        }
    }

    /// The names before the last.
    pub fn front(&self) -> Words<'a>
        ensures { names_of result ≡ front (names_of self.now) }
    {
        match self {
            Words::Identifiers(identifiers) => Words::Identifiers(all_but_last(identifiers)),
            Words::Names(names) => Words::Names(all_but_last(names)),
        }
    }

    /// The last name.
    pub fn last(&self) -> Option<&'a [u8]>
        ensures { option_copied result ≡ last (names_of self.now) }
    {
        let count = self.len();
        if count == 0 {
            return None;
        }
        Some(self.name(count - 1))
    }

    /// The name, where it is one identifier.
    pub fn one(&self) -> Option<&'a [u8]>
        ensures { option_copied result ≡ only (names_of self.now) }
    {
        if self.len() != 1 {
            return None;
        }
        Some(self.name(0))
    }
}

/// The text of an identifier that may be left out.
pub(crate) fn text_of(item: &Option<Identifier>) -> Option<&[u8]>
    ensures { option_copied result ≡ item.now }
{
    match item {
        Some(item) => Some(item.text()),
        None => None,
    }
}

fn all_but_last<T>(items: &[T]) -> &[T]
    ensures { result.now ≡ take (length items.now - 1) items.now }
{
    match items.len() {
        0 => items,
        count => &items[..count - 1],
    }
}

fn text_at(identifiers: &[Identifier], place: usize) -> &[u8]
    requires { place < length identifiers.now }
    ensures { result.now ≡ get_or identifiers.now place [] }
{
    identifiers[place].text()
}

fn bytes_at(names: &[Name], place: usize) -> &[u8]
    requires { place < length names.now }
    ensures { result.now ≡ get_or names.now place [] }
{
    names[place].items()
}

impl<'a> PartialEq for Words<'a> {
    ghost eq = { λ x y. is_same_name (names_of x) (names_of y) };

    ghost laws = { on_per names_of (Cmp.partial_equiv_from_equiv (lists_equiv nat_list_eq_equiv)) };

    fn eq(&self, other: &Words<'a>) -> bool {
        are_same(self, other)
    }
}

impl<'a> Eq for Words<'a> {
    ghost laws = { on_equiv names_of (lists_equiv nat_list_eq_equiv) };
}

fn are_same(a: &Words, b: &Words) -> bool
    ensures { result ≡ is_same_name (names_of a.now) (names_of b.now) }
{
    if a.len() != b.len() {
        return false;
    }
    for place in 0..a.len() {
        if !is_same(a.name(place), b.name(place)) {
            return false;
        }
    }
    true
}

impl<'a> Hash for Words<'a> {
    ghost hash_input = { λ words. fed.slice (fed.slice fed.u8) (names_of words) };

    ghost respects_eq = { (on_Alike names_of (items_Alike (items_Alike (same_Alike fed.u8 Decides-eqb)))).fed };

    fn hash<H: Hasher>(&self, state: &mut H) {
        state.write_usize(self.len());
        for place in 0..self.len() {
            self.name(place).hash(state);
        }
    }
}
