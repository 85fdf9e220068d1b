//! Severities and likelihoods that stand alone, and whether a record is said of a target.

ghost use Rattle.std.specs.Prelude.{◌≡◌, IfOk, None, Some, cond, filter, map, option_copied};
ghost use Rattle.std.specs.List.{last_or, list_any};
ghost use Rattle.hazard_records.specs.Hazards.{has_record, has_some, is_recorded, last_said, own_or_said, value_said};
ghost use Rattle.hazard_records.specs.Targets.{says_of};

use crate::site::Site;
use crate::target::says_of;
use aadl_syntax::Association;
use hazard_values::{HazardRecord, records_of, text_of};
use plain_values::{List, Mem, Name, copied};
use profiles::Profile;
use std::alloc::Global;

impl<'s, 'r> Site<'s, 'r> {
    /// What a record has, or else what is said of its target by the property of this word, or else nothing.
    pub(crate) fn own_or_said(
        &self,
        alloc: Global,
        word: &[u8],
        text: &[u8],
        own: &Option<Name>,
    ) -> Mem<Name>
        ensures { IfOk result (λ all. all ≡ own_or_said word.now self.now text.now own.now) }
    {
        match own {
            Some(own) => copied(alloc, own.items()),
            None => self.said_or_nothing(alloc, word, text),
        }
    }

    /// What is said of a target by the property of this word, or else nothing.
    fn said_or_nothing(&self, alloc: Global, word: &[u8], text: &[u8]) -> Mem<Name>
        ensures { IfOk result (λ all. all ≡ own_or_said word.now self.now text.now None) }
    {
        match self.value_said(alloc, word, text)? {
            Some(value) => Ok(value),
            None => Ok(List::new(alloc)),
        }
    }

    /// The value of the property of this word that is said of a target: the last of the clauses, or else the last of the machine.
    fn value_said(&self, alloc: Global, word: &[u8], text: &[u8]) -> Mem<Option<Name>>
        ensures { IfOk result (λ value. value ≡ value_said word.now self.now text.now) }
    {
        let profile = self.model().profile();
        match last_said(alloc, profile, word, text, self.said().clauses())? {
            Some(value) => Ok(Some(value)),
            None => last_said(alloc, profile, word, text, self.said().machine()),
        }
    }

    /// Whether some record is said of a target of this text.
    pub(crate) fn is_recorded(&self, alloc: Global, text: &[u8]) -> Mem<bool>
        ensures { IfOk result (λ is. is ≡ is_recorded self.now text.now) }
    {
        let profile = self.model().profile();
        if are_recorded(alloc, profile, text, self.said().clauses())? {
            return Ok(true);
        }
        are_recorded(alloc, profile, text, self.said().machine())
    }
}

/// The last of the values of the property of this word that is said of a target.
fn last_said(
    alloc: Global,
    profile: Profile,
    word: &[u8],
    text: &[u8],
    associations: &[&Association],
) -> Mem<Option<Name>>
    ensures { IfOk result (λ value. value ≡ last_said profile word.now text.now (map (λ association. association.now) associations.now)) }
{
    match last_of(alloc, profile, word, text, associations)? {
        Some(association) => Ok(Some(text_of(alloc, &association.value)?)),
        None => Ok(None),
    }
}

/// The last association of the property of this word that is said of a target.
fn last_of<'r>(
    alloc: Global,
    profile: Profile,
    word: &[u8],
    text: &[u8],
    associations: &[&'r Association],
) -> Mem<Option<&'r Association>>
    ensures { IfOk result (λ found. option_copied found ≡ last_or None (filter (says_of profile word.now text.now) (map (λ association. association.now) associations.now))) }
{
    let mut found = None;
    for association in associations {
        let is_so = says_of(alloc, profile, word, text, *association)?;
        found = later(found, *association, is_so);
    }
    Ok(found)
}

/// The later association, if it is so, and else the one that was found before.
fn later<'r>(
    found: Option<&'r Association>,
    association: &'r Association,
    is_so: bool,
) -> Option<&'r Association>
    ensures { option_copied result ≡ cond is_so (Some association.now) (option_copied found.entry) }
{
    if is_so { Some(association) } else { found }
}

/// Whether one of these associations has a record that is said of a target of this text.
fn are_recorded(
    alloc: Global,
    profile: Profile,
    text: &[u8],
    associations: &[&Association],
) -> Mem<bool>
    ensures { IfOk result (λ are. are ≡ list_any (has_record profile text.now) (map (λ association. association.now) associations.now)) }
{
    for association in associations {
        if has_record(alloc, profile, text, *association)? {
            return Ok(true);
        }
    }
    Ok(false)
}

/// Whether an association has a record that is said of a target of this text.
fn has_record(alloc: Global, profile: Profile, text: &[u8], association: &Association) -> Mem<bool>
    ensures { IfOk result (λ has. has ≡ has_record profile text.now association.now) }
{
    if !says_of(alloc, profile, b"hazards", text, association)? {
        return Ok(false);
    }
    let records = records_of(alloc, &association.value)?;
    Ok(has_some(records.items()))
}

/// Whether there are records.
fn has_some(records: &[HazardRecord]) -> bool
    ensures { result ≡ has_some records.now }
{
    !records.is_empty()
}
