//! The hazards of a model.

ghost use Rattle.std.specs.Prelude.{◌≡◌, ◌++◌, IfOk, OnOk, codes, flat_map, map};
ghost use Rattle.hazard_records.specs.Hazards.{alone_hazard, association_hazards, events_at, facts_at, hazard_of, hazards_of, no_record, own_or_said, record_hazards, recorded_hazards, records_hazards, severity_hazards, site_hazards, site_of, unrecorded_hazards, whole_of};
ghost use Rattle.hazard_records.specs.Meaning.{events_meant, facts_meant, path_in};

use crate::hazard::Hazard;
use crate::keys::{event_keys, fact_keys, names_of, path_in};
use crate::site::Site;
use crate::target::{Target, is_named, targets_of};
use crate::whole::{Keys, Whole};
use aadl_syntax::Association;
use fault_system::{EventInfo, FactInfo};
use hazard_values::{HazardRecord, records_of};
use instantiator::Instance;
use plain_values::{List, Mem, Name, Spot, copied};
use profiles::Profile;
use std::alloc::Global;

/// The hazards of a model with these facts and events, read by a profile, one component after the other: those of the records of `Hazards` of its clauses, and
/// of its machine, one for each record and each of its targets; and then those of `Severity` whose targets have no record.
///
/// A record that has no severity or no likelihood has that which is said of its target alone: the last of the clauses, or else the last of the machine.
pub fn hazards_of(
    alloc: Global,
    profile: Profile,
    instance: &Instance<'_, '_>,
    facts: &[FactInfo],
    events: &[EventInfo],
) -> Mem<List<Hazard>>
    ensures { IfOk result (λ hazards. hazards ≡ hazards_of (whole_of profile instance.now facts.now events.now)) }
{
    let fact_keys = fact_keys(alloc, facts)?;
    let event_keys = event_keys(alloc, instance, events)?;
    let keys = Keys {
        facts: fact_keys,
        events: event_keys,
    };
    let model = Whole::of(alloc, profile, instance, facts, events, &keys)?;
    all_hazards(alloc, &model)
}

/// Those of all components.
fn all_hazards(alloc: Global, model: &Whole) -> Mem<List<Hazard>>
    ensures { IfOk result (λ hazards. hazards ≡ hazards_of model.now) }
{
    let mut hazards = List::new(alloc);
    for number in 0..model.instance().components().len() {
        add_component(&mut hazards, alloc, model, number as u32)?;
    }
    Ok(hazards)
}

/// Adds those of the component of a number.
fn add_component(hazards: &mut List<Hazard>, alloc: Global, model: &Whole, number: u32) -> Mem<()>
    ensures { OnOk result (hazards.new ≡ hazards.old ++ site_hazards (site_of model.now number)) }
{
    let site = Site::of(alloc, model, number)?;
    add_site(hazards, alloc, &site)
}

/// Adds those of a component.
fn add_site(hazards: &mut List<Hazard>, alloc: Global, site: &Site) -> Mem<()>
    ensures { OnOk result (hazards.new ≡ hazards.old ++ site_hazards site.now) }
{
    add_all_recorded(hazards, alloc, site)?;
    add_all_unrecorded(hazards, alloc, site)
}

/// Adds those of the records of its clauses, and of its machine.
fn add_all_recorded(hazards: &mut List<Hazard>, alloc: Global, site: &Site) -> Mem<()>
    ensures { OnOk result (hazards.new ≡ hazards.old ++ recorded_hazards site.now) }
{
    add_recorded(hazards, alloc, site, site.said().clauses())?;
    add_recorded(hazards, alloc, site, site.said().machine())
}

/// Adds those of the severities of its clauses, and of its machine, whose targets have no record.
fn add_all_unrecorded(hazards: &mut List<Hazard>, alloc: Global, site: &Site) -> Mem<()>
    ensures { OnOk result (hazards.new ≡ hazards.old ++ unrecorded_hazards site.now) }
{
    add_severities(hazards, alloc, site, site.said().clauses())?;
    add_severities(hazards, alloc, site, site.said().machine())
}

/// Adds those of the records of associations.
fn add_recorded(
    hazards: &mut List<Hazard>,
    alloc: Global,
    site: &Site,
    associations: &[&Association],
) -> Mem<()>
    ensures { OnOk result (hazards.new ≡ hazards.old ++ flat_map (association_hazards site.now) (map (λ association. association.now) associations.now)) }
{
    for association in associations {
        add_association(hazards, alloc, site, *association)?;
    }
    Ok(())
}

/// Adds those of an association, if it is one of `Hazards`.
fn add_association(
    hazards: &mut List<Hazard>,
    alloc: Global,
    site: &Site,
    association: &Association,
) -> Mem<()>
    ensures { OnOk result (hazards.new ≡ hazards.old ++ association_hazards site.now association.now) }
{
    if !is_named(b"hazards", association.name.items()) {
        return Ok(());
    }
    add_records(hazards, alloc, site, association)
}

/// Adds those of the records of an association.
fn add_records(
    hazards: &mut List<Hazard>,
    alloc: Global,
    site: &Site,
    association: &Association,
) -> Mem<()>
    ensures { OnOk result (hazards.new ≡ hazards.old ++ records_hazards site.now association.now) }
{
    let targets = targets_of(alloc, site.model().profile(), association)?;
    let records = records_of(alloc, &association.value)?;
    add_each(
        hazards,
        alloc,
        site,
        association.spot,
        targets.items(),
        records.items(),
    )
}

/// Adds those of records, which stand at a place and are said of these targets.
fn add_each(
    hazards: &mut List<Hazard>,
    alloc: Global,
    site: &Site,
    spot: Spot,
    targets: &[Target],
    records: &[HazardRecord],
) -> Mem<()>
    ensures { OnOk result (hazards.new ≡ hazards.old ++ flat_map (record_hazards site.now spot targets.now) records.now) }
{
    for record in records {
        add_record(hazards, alloc, site, spot, targets, record)?;
    }
    Ok(())
}

/// Adds those of a record, one for each target.
fn add_record(
    hazards: &mut List<Hazard>,
    alloc: Global,
    site: &Site,
    spot: Spot,
    targets: &[Target],
    its: &HazardRecord,
) -> Mem<()>
    ensures { OnOk result (hazards.new ≡ hazards.old ++ record_hazards site.now spot targets.now its.now) }
{
    for target in targets {
        let hazard = hazard_of(alloc, site, spot, its, target)?;
        hazards.push(hazard)?;
    }
    Ok(())
}

/// Adds those of the severities among associations whose targets have no record.
fn add_severities(
    hazards: &mut List<Hazard>,
    alloc: Global,
    site: &Site,
    associations: &[&Association],
) -> Mem<()>
    ensures { OnOk result (hazards.new ≡ hazards.old ++ flat_map (severity_hazards site.now) (map (λ association. association.now) associations.now)) }
{
    for association in associations {
        add_severity(hazards, alloc, site, *association)?;
    }
    Ok(())
}

/// Adds those of an association, if it is one of `Severity`.
fn add_severity(
    hazards: &mut List<Hazard>,
    alloc: Global,
    site: &Site,
    association: &Association,
) -> Mem<()>
    ensures { OnOk result (hazards.new ≡ hazards.old ++ severity_hazards site.now association.now) }
{
    if !is_named(b"severity", association.name.items()) {
        return Ok(());
    }
    let targets = targets_of(alloc, site.model().profile(), association)?;
    add_alone(hazards, alloc, site, association.spot, targets.items())
}

/// Adds those of targets that have a severity and no record.
fn add_alone(
    hazards: &mut List<Hazard>,
    alloc: Global,
    site: &Site,
    spot: Spot,
    targets: &[Target],
) -> Mem<()>
    ensures { OnOk result (hazards.new ≡ hazards.old ++ flat_map (alone_hazard site.now spot) targets.now) }
{
    for target in targets {
        add_alone_hazard(hazards, alloc, site, spot, target)?;
    }
    Ok(())
}

/// Adds that of a target, if no record is said of it.
fn add_alone_hazard(
    hazards: &mut List<Hazard>,
    alloc: Global,
    site: &Site,
    spot: Spot,
    target: &Target,
) -> Mem<()>
    ensures { OnOk result (hazards.new ≡ hazards.old ++ alone_hazard site.now spot target.now) }
{
    if site.is_recorded(alloc, target.text.items())? {
        return Ok(());
    }
    let hazard = unrecorded(alloc, site, spot, target)?;
    hazards.push(hazard)
}

/// The hazard of a target of which no record is said.
fn unrecorded(alloc: Global, site: &Site, spot: Spot, target: &Target) -> Mem<Hazard>
    ensures { IfOk result (λ hazard. hazard ≡ hazard_of site.now spot no_record target.now) }
{
    let record = no_record(alloc);
    hazard_of(alloc, site, spot, &record, target)
}

/// The record that says nothing.
fn no_record(alloc: Global) -> HazardRecord
    ensures { result ≡ no_record }
{
    HazardRecord {
        failure: List::new(alloc),
        severity: None,
        likelihood: None,
        phases: List::new(alloc),
        cross_reference: List::new(alloc),
        description: List::new(alloc),
    }
}

/// The hazard that a record says of a target.
fn hazard_of(
    alloc: Global,
    site: &Site,
    spot: Spot,
    its: &HazardRecord,
    target: &Target,
) -> Mem<Hazard>
    ensures { IfOk result (λ hazard. hazard ≡ hazard_of site.now spot its.now target.now) }
{
    let meant = meant_by(alloc, site, target)?;
    let ranks = ranks_of(alloc, site, its, target.text.items())?;
    let told = told_by(alloc, its)?;
    Ok(joined(site.number(), spot, meant, ranks, told))
}

/// What a target of a hazard means: its text, and the facts and the events.
#[derive(Drop)]
struct Meant {
    text: Name,
    facts: List<u32>,
    events: List<u32>,
}

/// How severe and how likely a hazard is.
#[derive(Drop)]
struct Ranks {
    severity: Name,
    likelihood: Name,
}

/// What else a record tells.
#[derive(Drop)]
struct Told {
    failure: Name,
    phases: Name,
    cross_reference: Name,
    description: Name,
}

/// The hazard of these parts.
fn joined(component: u32, spot: Spot, meant: Meant, ranks: Ranks, told: Told) -> Hazard
    ensures { result ≡ record {
      component = component;
      target = meant.text;
      facts = meant.facts;
      events = meant.events;
      failure = told.failure;
      severity = ranks.severity;
      likelihood = ranks.likelihood;
      phases = told.phases;
      cross_reference = told.cross_reference;
      description = told.description;
      spot = spot;
    } }
{
    Hazard {
        component,
        target: meant.text,
        facts: meant.facts,
        events: meant.events,
        failure: told.failure,
        severity: ranks.severity,
        likelihood: ranks.likelihood,
        phases: told.phases,
        cross_reference: told.cross_reference,
        description: told.description,
        spot,
    }
}

/// What a target means, from a component on.
fn meant_by(alloc: Global, site: &Site, target: &Target) -> Mem<Meant>
    ensures { IfOk result (λ meant. meant ≡ record { text = target.now.text; facts = facts_at site.now target.now; events = events_at site.now target.now }) }
{
    let text = copied(alloc, target.text.items())?;
    let facts = facts_at(alloc, site, target)?;
    let events = events_at(alloc, site, target)?;
    Ok(Meant {
        text,
        facts,
        events,
    })
}

/// How severe and how likely a hazard is: what its record has, or else what is said of the target of this text.
fn ranks_of(alloc: Global, site: &Site, its: &HazardRecord, text: &[u8]) -> Mem<Ranks>
    ensures { IfOk result (λ ranks. ranks ≡ record {
      severity = own_or_said (codes "severity") site.now text.now its.now.severity;
      likelihood = own_or_said (codes "likelihood") site.now text.now its.now.likelihood;
    }) }
{
    let severity = site.own_or_said(alloc, b"severity", text, &its.severity)?;
    let likelihood = site.own_or_said(alloc, b"likelihood", text, &its.likelihood)?;
    Ok(Ranks {
        severity,
        likelihood,
    })
}

/// What else a record tells.
fn told_by(alloc: Global, its: &HazardRecord) -> Mem<Told>
    ensures { IfOk result (λ told. told ≡ record {
      failure = its.now.failure;
      phases = its.now.phases;
      cross_reference = its.now.cross_reference;
      description = its.now.description;
    }) }
{
    let failure = copied(alloc, its.failure.items())?;
    let phases = copied(alloc, its.phases.items())?;
    let cross_reference = copied(alloc, its.cross_reference.items())?;
    let description = copied(alloc, its.description.items())?;
    Ok(Told {
        failure,
        phases,
        cross_reference,
        description,
    })
}

/// The facts that a target means, from a component on.
fn facts_at(alloc: Global, site: &Site, target: &Target) -> Mem<List<u32>>
    ensures { IfOk result (λ facts. facts ≡ facts_at site.now target.now) }
{
    match &target.names {
        Some(names) => facts_from(alloc, site, names.items()),
        None => Ok(List::new(alloc)),
    }
}

/// The facts that names mean, from a component on.
fn facts_from(alloc: Global, site: &Site, names: &[Name]) -> Mem<List<u32>>
    ensures { IfOk result (λ facts. facts ≡ facts_meant site.now.model.facts (path_in site.now.model.instance site.now.number ++ names.now)) }
{
    let path = path_in(site.model().instance(), site.number());
    let whole = names_of(alloc, path, names)?;
    site.model().facts_meant(alloc, whole.items())
}

/// The events that a target means, from a component on.
fn events_at(alloc: Global, site: &Site, target: &Target) -> Mem<List<u32>>
    ensures { IfOk result (λ events. events ≡ events_at site.now target.now) }
{
    match &target.names {
        Some(names) => events_from(alloc, site, names.items()),
        None => Ok(List::new(alloc)),
    }
}

/// The events that names mean, from a component on.
fn events_from(alloc: Global, site: &Site, names: &[Name]) -> Mem<List<u32>>
    ensures { IfOk result (λ events. events ≡ events_meant site.now.model.instance site.now.model.events (path_in site.now.model.instance site.now.number ++ names.now)) }
{
    let path = path_in(site.model().instance(), site.number());
    let whole = names_of(alloc, path, names)?;
    Ok(List::of(Vec::from_slice(alloc, site.model().events_meant(whole.items()))?)?)
}
