//! The rates that are said of no event.

ghost use Rattle.std.specs.Prelude.{◌≡◌, ◌++◌, ◌∷◌, [], IfOk, OnOk, cond, filter, map, option_copied};
ghost use Rattle.plain_values.specs.Numbered.{numbered_from};
ghost use Rattle.profiles.specs.declared.profile.Profile.TheVariants.{Second};
ghost use Rattle.event_rates.specs.Associations.{is_of_event};
ghost use Rattle.event_rates.specs.Unused.{event_names, is_of_none, is_one_of, names_none, no_target, other_targets, other_text, rates_at, said_of_none, unused_among, unused_at, unused_in, unused_rates, unused_targets, whole_names};
ghost use Rattle.event_rates.specs.inner.Listed.{associations_in};

use crate::kinds::Tables;
use crate::rates::{is_of_event, names_of};
use crate::table::{AssociationTable, is_distribution};
use aadl_syntax::{Association, Identifier, OtherTarget};
use fault_system::EventInfo;
use instantiator::Instance;
use package_index::Words;
use plain_values::{List, Mem, Name, Spot, copied};
use profiles::Profile;
use rate_keys::RateKey;
use std::alloc::Global;
use std::collections::HashSet;
use std::marker::Model;

/// A target of an association of rates that names no event: the component whose clauses or whose machine has it, and its names, a path from
/// the component and the key of an event; or the text of a path that is more than names with single dots between them, as `^lane1@fault`, as one
/// name. The spot is that of the association.
#[derive(Drop)]
pub struct UnusedRate {
    pub component: u32,
    pub target: List<Name>,
    pub spot: Spot,
}

impl UnusedRate {
    /// The same once more.
    pub fn again(&self, alloc: Global) -> Mem<UnusedRate>
        ensures { IfOk result (λ rate. rate ≡ self.now) }
    {
        Ok(UnusedRate {
            component: self.component,
            target: names_again(alloc, self.target.items())?,
            spot: self.spot,
        })
    }
}

/// The whole names of events. Contracts see them in order.
#[derive(Drop)]
struct EventNames<'n> {
    all: &'n [List<Name>],
    names: HashSet<Words<'n>>,
}

impl<'n> Model for EventNames<'n> {
    ghost use Rattle.std.specs.Prelude.{ℕ, List};
    ghost use Rattle.std.specs.HashSet.{contains};
    ghost use Rattle.package_index.specs.inner.Tables.{same_words};
    ghost use Rattle.event_rates.specs.inner.Known.{KnowsNames};

    ghost Value = { List (List (List ℕ)) };

    ghost view = { λ n. n.all.now };

    ghost invariant = { λ n. KnowsNames n.all.now (contains same_words n.names) };
}

impl<'n> EventNames<'n> {
    /// Of these names.
    fn of(alloc: Global, all: &'n [List<Name>]) -> Mem<EventNames<'n>>
        ensures { IfOk result (λ names. names ≡ all.now) }
    {
        let mut names = HashSet::new(alloc);
        for name in all {
            names.insert(Words::Names(name.items()))?;
        }
        Ok(EventNames { all, names })
    }

    /// Whether a name is among them.
    fn has(&self, name: &[Name]) -> bool
        ensures { result ≡ is_one_of self.now name.now }
    {
        self.names.contains(&Words::Names(name))
    }
}

/// The targets of associations of rates that name no event of a model, one component after the other: of its clauses, and then of its
/// machine. By the first profile a path that is more than names with single dots between them names none; by the second `^lane1@fault` names what
/// `lane1.fault` names.
pub fn unused_rates(
    alloc: Global,
    profile: Profile,
    instance: &Instance<'_, '_>,
    events: &[EventInfo],
) -> Mem<List<UnusedRate>>
    ensures { IfOk result (λ rates. rates ≡ unused_rates profile instance.now events.now) }
{
    let tables = Tables::of(alloc, profile, instance)?;
    let all = whole_names(alloc, &tables, events)?;
    let names = EventNames::of(alloc, all.items())?;
    all_unused(alloc, &tables, &names)
}

/// The whole names of events, each by all of its keys.
fn whole_names(alloc: Global, tables: &Tables, events: &[EventInfo]) -> Mem<List<List<Name>>>
    ensures { IfOk result (λ names. names ≡ whole_names tables.now.profile tables.now.instance events.now) }
{
    let mut names = List::new(alloc);
    for event in events {
        add_event(&mut names, alloc, tables, event)?;
    }
    Ok(names)
}

/// Adds the whole names of an event.
fn add_event(
    names: &mut List<List<Name>>,
    alloc: Global,
    tables: &Tables,
    event: &EventInfo,
) -> Mem<()>
    ensures { OnOk result (names.new ≡ names.old ++ event_names tables.now.profile tables.now.instance event.now) }
{
    let path = tables.path(event.owner);
    let own = event.key.items();
    let name = names_of(alloc, path, own)?;
    names.push(name)?;
    add_further(names, alloc, path, own, tables.keys_at(event.owner))
}

/// Adds the whole names of an event of this key by the further keys that are its own.
fn add_further(
    names: &mut List<List<Name>>,
    alloc: Global,
    path: &[&Identifier],
    own: &[Name],
    keys: &[RateKey],
) -> Mem<()>
    ensures { OnOk result (names.new ≡ names.old ++ map (λ key. map (λ name. name.now) path.now ++ key.names) (filter (is_of_event own.now) keys.now)) }
{
    for key in keys {
        let name = names_of(alloc, path, key.names.items())?;
        names.push_if(name, is_of_event(own, key))?;
    }
    Ok(())
}

/// Those of all components.
fn all_unused(alloc: Global, tables: &Tables, names: &EventNames) -> Mem<List<UnusedRate>>
    ensures { IfOk result (λ rates. rates ≡ numbered_from (unused_at tables.now.profile names.now tables.now.instance) 0 tables.now.instance.components) }
{
    let mut rates = List::new(alloc);
    for number in 0..tables.instance().components().len() {
        add_component(&mut rates, alloc, tables, names, number as u32)?;
    }
    Ok(rates)
}

/// Adds those of the component of a number: the targets of its clauses, and of its machine, that name no event.
fn add_component(
    rates: &mut List<UnusedRate>,
    alloc: Global,
    tables: &Tables,
    names: &EventNames,
    number: u32,
) -> Mem<()>
    ensures { OnOk result (rates.new ≡ rates.old ++ unused_in tables.now.profile names.now tables.now.instance number) }
{
    let (profile, path) = (tables.profile(), tables.path(number));
    let (clauses, machine) = (tables.clauses_of(number), tables.machine_of(number));
    add_of(rates, alloc, profile, names, number, path, clauses)?;
    add_of(rates, alloc, profile, names, number, path, machine)
}

/// Adds those of a table, if there is one.
fn add_of(
    rates: &mut List<UnusedRate>,
    alloc: Global,
    profile: Profile,
    names: &EventNames,
    number: u32,
    path: &[&Identifier],
    table: Option<&AssociationTable>,
) -> Mem<()>
    ensures { OnOk result (rates.new ≡ rates.old ++ unused_among profile names.now number (map (λ name. name.now) path.now) (associations_in (option_copied table.entry))) }
{
    match table {
        Some(table) => add_among(rates, alloc, profile, names, number, path, table.list()),
        None => Ok(()),
    }
}

/// Adds the targets of some associations that name no event, from the component of this path on.
fn add_among(
    rates: &mut List<UnusedRate>,
    alloc: Global,
    profile: Profile,
    names: &EventNames,
    number: u32,
    path: &[&Identifier],
    associations: &[&Association],
) -> Mem<()>
    ensures { OnOk result (rates.new ≡ rates.old ++ unused_among profile names.now number (map (λ name. name.now) path.now) (map (λ association. association.now) associations.now)) }
{
    for association in associations {
        let targets = unused_targets(alloc, profile, names, path, *association)?;
        add_rates(rates, alloc, number, association.spot, targets.items())?;
    }
    Ok(())
}

/// Adds targets of an association that stands at this place.
fn add_rates(
    rates: &mut List<UnusedRate>,
    alloc: Global,
    number: u32,
    spot: Spot,
    targets: &[List<Name>],
) -> Mem<()>
    ensures { OnOk result (rates.new ≡ rates.old ++ rates_at number spot targets.now) }
{
    for target in targets {
        let target = names_again(alloc, target.items())?;
        rates.push(UnusedRate {
            component: number,
            target,
            spot,
        })?;
    }
    Ok(())
}

/// Those of an association, if it gives rates.
fn unused_targets(
    alloc: Global,
    profile: Profile,
    names: &EventNames,
    path: &[&Identifier],
    association: &Association,
) -> Mem<List<List<Name>>>
    ensures { IfOk result (λ targets. targets ≡ unused_targets profile names.now (map (λ name. name.now) path.now) association.now) }
{
    let mut targets = List::new(alloc);
    if is_distribution(association.name.items()) {
        add_said(&mut targets, alloc, profile, names, path, association)?;
    }
    Ok(targets)
}

/// Adds the targets of an association that name no event, its other paths that are said of none, and a dash where it has neither.
fn add_said(
    targets: &mut List<List<Name>>,
    alloc: Global,
    profile: Profile,
    names: &EventNames,
    path: &[&Identifier],
    association: &Association,
) -> Mem<()>
    ensures { OnOk result (targets.new ≡ targets.old ++ said_of_none profile names.now (map (λ name. name.now) path.now) association.now) }
{
    add_all(targets, alloc, names, path, association.targets.items())?;
    add_others(
        targets,
        alloc,
        profile,
        names,
        path,
        association.others.items(),
    )?;
    add_none(targets, alloc, association)
}

/// Adds the texts of other paths that are said of no event.
fn add_others(
    targets: &mut List<List<Name>>,
    alloc: Global,
    profile: Profile,
    names: &EventNames,
    path: &[&Identifier],
    others: &[OtherTarget],
) -> Mem<()>
    ensures { OnOk result (targets.new ≡ targets.old ++ other_targets profile names.now (map (λ name. name.now) path.now) others.now) }
{
    for other in others {
        add_other(targets, alloc, profile, names, path, other)?;
    }
    Ok(())
}

/// Adds the text of such a path, if it is said of no event.
fn add_other(
    targets: &mut List<List<Name>>,
    alloc: Global,
    profile: Profile,
    names: &EventNames,
    path: &[&Identifier],
    other: &OtherTarget,
) -> Mem<()>
    ensures { OnOk result (targets.new ≡ targets.old ++ other_text profile names.now (map (λ name. name.now) path.now) other.now) }
{
    let is_told = is_of_none(alloc, profile, names, path, other)?;
    let target = one_name(alloc, other.text.items())?;
    targets.push_if(target, is_told)?;
    Ok(())
}

/// Whether such a path is said of no event.
fn is_of_none(
    alloc: Global,
    profile: Profile,
    names: &EventNames,
    path: &[&Identifier],
    other: &OtherTarget,
) -> Mem<bool>
    ensures { IfOk result (λ is_told. is_told ≡ is_of_none profile names.now (map (λ name. name.now) path.now) other.now) }
{
    match profile {
        Profile::First => Ok(true),
        Profile::Second => has_no_event(alloc, names, path, other),
    }
}

/// The same by the second profile.
fn has_no_event(
    alloc: Global,
    names: &EventNames,
    path: &[&Identifier],
    other: &OtherTarget,
) -> Mem<bool>
    ensures { IfOk result (λ is_told. is_told ≡ is_of_none Second names.now (map (λ name. name.now) path.now) other.now) }
{
    match &other.names {
        Some(own) => names_none(alloc, names, path, own),
        None => Ok(true),
    }
}

/// Whether names name no event, from the component of this path on.
fn names_none(
    alloc: Global,
    names: &EventNames,
    path: &[&Identifier],
    target: &List<Identifier>,
) -> Mem<bool>
    ensures { IfOk result (λ is_told. is_told ≡ names_none names.now (map (λ name. name.now) path.now) target.now) }
{
    let own = names_in(alloc, target.items())?;
    let whole = names_of(alloc, path, own.items())?;
    Ok(!names.has(whole.items()))
}

/// Adds a dash, if an association applies to nothing.
fn add_none(targets: &mut List<List<Name>>, alloc: Global, association: &Association) -> Mem<()>
    ensures { OnOk result (targets.new ≡ targets.old ++ no_target association.now) }
{
    let is_none = association.targets.items().is_empty() && association.others.items().is_empty();
    let target = one_name(alloc, b"-")?;
    targets.push_if(target, is_none)?;
    Ok(())
}

/// One name.
fn one_name(alloc: Global, text: &[u8]) -> Mem<List<Name>>
    ensures { IfOk result (λ names. names ≡ text.now ∷ []) }
{
    let mut names = List::new(alloc);
    let name = copied(alloc, text)?;
    names.push(name)?;
    Ok(names)
}

fn add_all(
    targets: &mut List<List<Name>>,
    alloc: Global,
    names: &EventNames,
    path: &[&Identifier],
    all: &[List<Identifier>],
) -> Mem<()>
    ensures { OnOk result (targets.new ≡ targets.old ++ filter (names_none names.now (map (λ name. name.now) path.now)) all.now) }
{
    for target in all {
        add_target(targets, alloc, names, path, target.items())?;
    }
    Ok(())
}

/// Adds a target, if it names no event.
fn add_target(
    targets: &mut List<List<Name>>,
    alloc: Global,
    names: &EventNames,
    path: &[&Identifier],
    target: &[Identifier],
) -> Mem<()>
    ensures { OnOk result (targets.new ≡ targets.old ++ cond (names_none names.now (map (λ name. name.now) path.now) target.now) (target.now ∷ []) []) }
{
    let own = names_in(alloc, target)?;
    let whole = names_of(alloc, path, own.items())?;
    targets.push_if(own, !names.has(whole.items()))?;
    Ok(())
}

/// The names of a target.
fn names_in(alloc: Global, target: &[Identifier]) -> Mem<List<Name>>
    ensures { IfOk result (λ names. names ≡ target.now) }
{
    let mut names = List::new(alloc);
    for name in target {
        let name = copied(alloc, name.text())?;
        names.push(name)?;
    }
    Ok(names)
}

/// Names once more.
fn names_again(alloc: Global, names: &[Name]) -> Mem<List<Name>>
    ensures { IfOk result (λ again. again ≡ names.now) }
{
    let mut again = List::new(alloc);
    for name in names {
        let name = copied(alloc, name.items())?;
        again.push(name)?;
    }
    Ok(again)
}
