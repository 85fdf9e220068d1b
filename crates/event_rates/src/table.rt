ghost use Rattle.std.specs.Prelude.{◌≡◌, ◌∷◌, [], IfOk, OnOk, flat_map, map, option_copied};
ghost use Rattle.profiles.specs.declared.profile.Profile.TheVariants.{Second};
ghost use Rattle.std.specs.HashMap.{get};
ghost use Rattle.package_index.specs.inner.Tables.{same_words};
ghost use Rattle.event_rates.specs.Associations.{is_distribution, is_distribution_behind, is_of_emv2, last_fitting, other_names, targets_of};
ghost use Rattle.event_rates.specs.inner.Fitting.{AddsAssociation, KnowsFitting, PutsAt, PutsAtEach};
ghost use Rattle.event_rates.specs.inner.Listed.{listed};

use aadl_syntax::{Association, Identifier, OtherTarget};
use package_index::Words;
use plain_values::{List, Mem, Name, is_same};
use profiles::Profile;
use std::alloc::Global;
use std::collections::HashMap;
use std::marker::Model;

/// By each target the last association of rates that has it.
type Fitting<'a> = HashMap<Words<'a>, &'a Association>;

/// Associations of a text in their order, read by a profile, of which the last that fits is found at once. Contracts see the profile and the list.
#[derive(Drop)]
pub(crate) struct AssociationTable<'a> {
    profile: Profile,
    list: List<&'a Association>,
    fitting: Fitting<'a>,
}

impl<'a> Model for AssociationTable<'a> {
    ghost use Rattle.std.specs.Prelude.{map};
    ghost use Rattle.std.specs.HashMap.{get};
    ghost use Rattle.package_index.specs.inner.Tables.{same_words};
    ghost use Rattle.event_rates.specs.inner.Fitting.{KnowsFitting};
    ghost use Rattle.event_rates.specs.inner.Listed.{Listed, listed};

    ghost Value = { Listed };

    ghost view = { λ t. listed t.profile (map (λ association. association.now) t.list) };

    ghost invariant = { λ t. KnowsFitting t.profile (map (λ association. association.now) t.list) (get same_words t.fitting) };
}

impl<'a> AssociationTable<'a> {
    /// The table of these associations, read by a profile.
    pub(crate) fn of(
        alloc: Global,
        profile: Profile,
        list: List<&'a Association>,
    ) -> Mem<AssociationTable<'a>>
        ensures { IfOk result (λ table. table ≡ listed profile (map (λ association. association.now) list.entry)) }
    {
        let fitting = fitting_of(alloc, profile, list.items())?;
        Ok(AssociationTable {
            profile,
            list,
            fitting,
        })
    }

    /// The associations.
    pub(crate) fn list(&self) -> &[&'a Association]
        ensures { map (λ association. association.now) result.now ≡ self.now.list }
    {
        self.list.items()
    }

    /// The last of the associations that fits these names.
    pub(crate) fn last_fitting(&self, names: &[Name]) -> Option<&'a Association>
        ensures { option_copied result ≡ last_fitting self.now.profile names.now self.now.list }
    {
        self.fitting.get(&Words::Names(names)).copied()
    }
}

fn fitting_of<'a>(alloc: Global, profile: Profile, list: &[&'a Association]) -> Mem<Fitting<'a>>
    ensures { IfOk result (λ fitting. KnowsFitting profile (map (λ association. association.now) list.now) (get same_words fitting)) }
{
    let mut fitting = HashMap::new(alloc);
    for association in list {
        add_association(&mut fitting, profile, *association)?;
    }
    Ok(fitting)
}

/// Puts an association at each of its targets, if it gives rates.
fn add_association<'a>(
    fitting: &mut Fitting<'a>,
    profile: Profile,
    association: &'a Association,
) -> Mem<()>
    ensures { OnOk result (AddsAssociation profile (get same_words fitting.old) (get same_words fitting.new) association.now) }
{
    if !is_distribution(association.name.items()) {
        return Ok(());
    }
    put_at_targets(fitting, profile, association)
}

/// Puts an association at each target that it has by a profile.
fn put_at_targets<'a>(
    fitting: &mut Fitting<'a>,
    profile: Profile,
    association: &'a Association,
) -> Mem<()>
    ensures { OnOk result (PutsAtEach (get same_words fitting.old) (get same_words fitting.new) (targets_of profile association.now) association.now) }
{
    match profile {
        Profile::First => put_all(fitting, association.targets.items(), association),
        Profile::Second => put_at_both(fitting, association),
    }
}

/// Puts an association at its plain targets, and at the names of its other paths.
fn put_at_both<'a>(fitting: &mut Fitting<'a>, association: &'a Association) -> Mem<()>
    ensures { OnOk result (PutsAtEach (get same_words fitting.old) (get same_words fitting.new) (targets_of Second association.now) association.now) }
{
    put_all(fitting, association.targets.items(), association)?;
    put_others(fitting, association.others.items(), association)
}

/// Puts an association at each of these targets.
fn put_all<'a>(
    fitting: &mut Fitting<'a>,
    targets: &'a [List<Identifier>],
    association: &'a Association,
) -> Mem<()>
    ensures { OnOk result (PutsAtEach (get same_words fitting.old) (get same_words fitting.new) targets.now association.now) }
{
    for target in targets {
        put(fitting, target.items(), association)?;
    }
    Ok(())
}

/// Puts an association at the names of each of these paths that has names.
fn put_others<'a>(
    fitting: &mut Fitting<'a>,
    others: &'a [OtherTarget],
    association: &'a Association,
) -> Mem<()>
    ensures { OnOk result (PutsAtEach (get same_words fitting.old) (get same_words fitting.new) (flat_map other_names others.now) association.now) }
{
    for other in others {
        put_other(fitting, other, association)?;
    }
    Ok(())
}

/// Puts an association at the names of a path, if it has names.
fn put_other<'a>(
    fitting: &mut Fitting<'a>,
    other: &'a OtherTarget,
    association: &'a Association,
) -> Mem<()>
    ensures { OnOk result (PutsAtEach (get same_words fitting.old) (get same_words fitting.new) (other_names other.now) association.now) }
{
    match &other.names {
        Some(names) => put_one(fitting, names, association),
        None => Ok(()),
    }
}

/// Puts an association at names.
fn put_one<'a>(
    fitting: &mut Fitting<'a>,
    names: &'a List<Identifier>,
    association: &'a Association,
) -> Mem<()>
    ensures { OnOk result (PutsAtEach (get same_words fitting.old) (get same_words fitting.new) (names.now ∷ []) association.now) }
{
    put(fitting, names.items(), association)
}

/// Puts an association at a target.
fn put<'a>(
    fitting: &mut Fitting<'a>,
    target: &'a [Identifier],
    association: &'a Association,
) -> Mem<()>
    ensures { OnOk result (PutsAt (get same_words fitting.old) (get same_words fitting.new) target.now association.now) }
{
    fitting.insert(Words::Identifiers(target), association)?;
    Ok(())
}

/// Whether a property is that of rates: `OccurrenceDistribution`, bare or of EMV2.
pub(crate) fn is_distribution(name: &[Identifier]) -> bool
    ensures { result ≡ is_distribution name.now }
{
    match name.split_first() {
        Some((first, rest)) => is_distribution_behind(first, rest),
        None => false,
    }
}

fn is_distribution_behind(first: &Identifier, rest: &[Identifier]) -> bool
    ensures { result ≡ is_distribution_behind first.now rest.now }
{
    match rest.split_first() {
        Some((second, further)) => further.is_empty() && is_of_emv2(first, second),
        None => is_same(first.text(), b"occurrencedistribution"),
    }
}

fn is_of_emv2(first: &Identifier, second: &Identifier) -> bool
    ensures { result ≡ is_of_emv2 first.now second.now }
{
    is_same(first.text(), b"emv2") && is_same(second.text(), b"occurrencedistribution")
}
