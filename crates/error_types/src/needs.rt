ghost use Rattle.std.specs.Prelude.{◌≡◌};
ghost use Rattle.error_types.specs.inner.Needs.{Gives, Names, of_one};
ghost use Rattle.error_types.specs.Walk.{needs_of};

use aadl_syntax::{Ref, Term, TypeKind};
use std::marker::Model;

/// A name that an item states, and whether it must be that of a type. Contracts see the name.
#[derive(Drop)]
pub(crate) struct Need<'a> {
    of_type: bool,
    reference: &'a Ref,
}

impl<'a> Model for Need<'a> {
    ghost use Rattle.error_types.specs.Walk.{Need as Name};

    ghost Value = { Name };

    ghost view = { λ n. record { of_type = n.of_type; reference = n.reference.now } };
}

impl<'a> Need<'a> {
    /// Whether it must be the name of a type.
    pub(crate) fn of_type(&self) -> bool
        ensures { result ≡ self.now.of_type }
    {
        self.of_type
    }

    /// The name.
    pub(crate) fn reference(&self) -> &'a Ref
        ensures { result.now ≡ self.now.reference }
    {
        self.reference
    }
}

/// The names that an item states, in order: one, and then those of terms. Contracts see the list of them.
#[derive(Drop)]
pub(crate) struct Needs<'a> {
    one: Option<&'a Ref>,
    of_type: bool,
    terms: &'a [Term],
}

impl<'a> Model for Needs<'a> {
    ghost use Rattle.std.specs.Prelude.{List, ◌++◌, flat_map};
    ghost use Rattle.error_types.specs.inner.Needs.{of_one};
    ghost use Rattle.error_types.specs.Walk.{Need as Name, need_of_term};

    ghost Value = { List Name };

    ghost view = { λ n. of_one n.of_type n.one ++ flat_map need_of_term n.terms.now };
}

/// What comes next of the names of an item.
#[derive(Drop)]
pub(crate) enum NextName<'a> {
    Name(Need<'a>),
    /// What is passed states no name.
    Passed,
    End,
}

impl<'a> Needs<'a> {
    /// The names of an item of a kind; those of the types that types extend may be left out.
    pub(crate) fn of(through: bool, kind: &'a TypeKind) -> Needs<'a>
        ensures { result ≡ needs_of through kind.now }
    {
        match kind {
            TypeKind::Plain(Some(base)) if through => Needs::one(true, Some(base)),
            TypeKind::Plain(_) => Needs::one(true, None),
            TypeKind::Alias(target) => Needs::one(true, Some(target)),
            TypeKind::Set(set) => Needs {
                one: None,
                of_type: false,
                terms: set.terms.items(),
            },
            TypeKind::SetAlias(target) => Needs::one(false, Some(target)),
        }
    }

    /// None or one name.
    pub(crate) fn one(of_type: bool, one: Option<&'a Ref>) -> Needs<'a>
        ensures { result ≡ of_one of_type one.entry }
    {
        Needs {
            one,
            of_type,
            terms: &[],
        }
    }

    /// Takes the next name.
    pub(crate) fn next(&mut self) -> NextName<'a>
        ensures { Gives self.old result self.new }
    {
        if let Some(reference) = self.one {
            self.one = None;
            return NextName::Name(Need {
                of_type: self.of_type,
                reference,
            });
        }
        match self.terms.split_first() {
            Some((term, rest)) => {
                self.terms = rest;
                name_of(term)
            }
            None => NextName::End,
        }
    }
}

/// The name of a term.
fn name_of(term: &Term) -> NextName<'_>
    ensures { Names term.now result }
{
    match term {
        Term::One(reference) => NextName::Name(Need {
            of_type: false,
            reference,
        }),
        _ => NextName::Passed,
    }
}
