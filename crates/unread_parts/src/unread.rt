//! What is told of an instance.

ghost use Rattle.std.specs.Prelude.{◌≡◌, ◌++◌, IfOk, OnOk, flat_map};
ghost use Rattle.instantiator.specs.Whole.{effective_in};
ghost use Rattle.unread_parts.specs.Unread.{has_modes, modal_connection, modal_subcomponent, part_at, told_behind, told_braces, told_connections, told_members, told_parts, told_properties, told_section, told_subcomponents, unread_parts};

use crate::modes::has_modes;
use crate::pieces::{add_braces, add_section};
use aadl_syntax::{Connection, Decl, Subcomponent, TokenList};
use component_extension::{Classifier, Effective, Inherited, classifiers_of};
use instantiator::Instance;
use package_index::Index;
use plain_values::{List, Mem, Name, Spot, copied};
use profiles::Profile;
use std::alloc::Global;

/// A part of a component that is told, by its name: a subcomponent, a connection, or the property of a binding; or what a rate is said of. Its
/// spot is that of the member, or that at which the property begins.
#[derive(Drop)]
pub struct Part {
    pub component: u32,
    pub name: Name,
    pub spot: Spot,
}

impl Part {
    /// The same once more.
    pub fn again(&self, alloc: Global) -> Mem<Part>
        ensures { IfOk result (λ part. part ≡ self.now) }
    {
        Ok(Part {
            component: self.component,
            name: copied(alloc, self.name.items())?,
            spot: self.spot,
        })
    }
}

/// What is told: what stands in modes, the bindings that a profile does not read, or what the rates in core text are said of.
#[derive(Clone, Copy)]
pub enum What {
    InModes,
    Unread(Profile),
    Rates,
}

/// What is told of an instance, one component after the other: the subcomponents, connections and bindings that stand in modes, the
/// bindings that a profile does not read, or what the rates in its core text are said of.
pub fn unread_parts(alloc: Global, what: What, instance: &Instance) -> Mem<List<Part>>
    ensures { IfOk result (λ parts. parts ≡ unread_parts what instance.now) }
{
    let mut parts = List::new(alloc);
    for number in 0..instance.components().len() {
        add_component(&mut parts, alloc, what, instance, number as u32)?;
    }
    Ok(parts)
}

/// Adds what is told of the component of a number.
fn add_component(
    parts: &mut List<Part>,
    alloc: Global,
    what: What,
    instance: &Instance,
    number: u32,
) -> Mem<()>
    ensures { OnOk result (parts.new ≡ parts.old ++ told_parts what instance.now.packages number (effective_in instance.now number)) }
{
    match instance.effective(number) {
        Some(effective) => add_told(parts, alloc, what, instance.index(), number, effective),
        None => Ok(()),
    }
}

/// Adds what is told of the component of a number with this effective classifier: its members, and then its properties.
fn add_told<'a>(
    parts: &mut List<Part>,
    alloc: Global,
    what: What,
    index: &Index<'a>,
    number: u32,
    effective: &Effective<'a>,
) -> Mem<()>
    ensures { OnOk result (parts.new ≡ parts.old ++ told_parts what index.now number effective.now) }
{
    add_members(parts, alloc, what, number, effective)?;
    let classifiers = classifiers_of(alloc, index, effective.chain.items())?;
    add_classifiers(parts, alloc, what, number, classifiers.items())
}

fn add_classifiers(
    parts: &mut List<Part>,
    alloc: Global,
    what: What,
    number: u32,
    classifiers: &[Classifier<'_>],
) -> Mem<()>
    ensures { OnOk result (parts.new ≡ parts.old ++ flat_map (told_properties what number) classifiers.now) }
{
    for classifier in classifiers {
        add_properties(parts, alloc, what, number, classifier)?;
    }
    Ok(())
}

/// Adds the members that are told.
fn add_members(
    parts: &mut List<Part>,
    alloc: Global,
    what: What,
    number: u32,
    effective: &Effective,
) -> Mem<()>
    ensures { OnOk result (parts.new ≡ parts.old ++ told_members what number effective.now) }
{
    match what {
        What::InModes => {
            add_subcomponents(
                parts,
                alloc,
                number,
                effective.members.subcomponents.items(),
            )?;
            add_connections(parts, alloc, number, effective.members.connections.items())
        }
        What::Unread(_) | What::Rates => Ok(()),
    }
}

fn add_subcomponents(
    parts: &mut List<Part>,
    alloc: Global,
    number: u32,
    members: &[Inherited<'_, Subcomponent>],
) -> Mem<()>
    ensures { OnOk result (parts.new ≡ parts.old ++ flat_map (modal_subcomponent number) members.now) }
{
    for member in members {
        let item = member.nearest().item();
        if has_modes(alloc, &item.tail)? {
            parts.push(part_at(alloc, number, item.spot, item.name.text())?)?;
        }
    }
    Ok(())
}

fn add_connections(
    parts: &mut List<Part>,
    alloc: Global,
    number: u32,
    members: &[Inherited<'_, Connection>],
) -> Mem<()>
    ensures { OnOk result (parts.new ≡ parts.old ++ flat_map (modal_connection number) members.now) }
{
    for member in members {
        let item = member.nearest().item();
        if has_modes(alloc, &item.tail)? {
            parts.push(part_at(alloc, number, item.spot, item.name.text())?)?;
        }
    }
    Ok(())
}

/// A part of the component of a number, which stands at this place.
fn part_at(alloc: Global, number: u32, spot: Spot, name: &[u8]) -> Mem<Part>
    ensures { IfOk result (λ part. part ≡ part_at number spot name.now) }
{
    let name = copied(alloc, name)?;
    Ok(Part {
        component: number,
        name,
        spot,
    })
}

/// Adds what is told of the properties of a classifier.
fn add_properties(
    parts: &mut List<Part>,
    alloc: Global,
    what: What,
    number: u32,
    classifier: &Classifier<'_>,
) -> Mem<()>
    ensures { OnOk result (parts.new ≡ parts.old ++ told_properties what number classifier.now) }
{
    let decl = classifier.item();
    add_sections(
        parts,
        alloc,
        what,
        number,
        decl.spot.file,
        decl.properties.items(),
    )?;
    add_behind(parts, alloc, what, number, decl)
}

/// Adds what is told of the braces behind the subcomponents of a classifier, and then behind its connections.
fn add_behind(
    parts: &mut List<Part>,
    alloc: Global,
    what: What,
    number: u32,
    decl: &Decl,
) -> Mem<()>
    ensures { OnOk result (parts.new ≡ parts.old ++ told_behind what number decl.now) }
{
    add_behind_subcomponents(parts, alloc, what, number, decl.subcomponents.items())?;
    add_behind_connections(parts, alloc, what, number, decl.connections.items())
}

fn add_sections(
    parts: &mut List<Part>,
    alloc: Global,
    what: What,
    number: u32,
    file: u32,
    sections: &[TokenList],
) -> Mem<()>
    ensures { OnOk result (parts.new ≡ parts.old ++ flat_map (told_section what number file) sections.now) }
{
    for section in sections {
        add_section(parts, alloc, what, number, file, section)?;
    }
    Ok(())
}

#[tactic(auto, unfolding(crate::specs::Unread::told_subcomponents))]
fn add_behind_subcomponents(
    parts: &mut List<Part>,
    alloc: Global,
    what: What,
    number: u32,
    subcomponents: &[Subcomponent],
) -> Mem<()>
    ensures { OnOk result (parts.new ≡ parts.old ++ told_subcomponents what number subcomponents.now) }
{
    for subcomponent in subcomponents {
        let (file, name) = (subcomponent.spot.file, subcomponent.name.text());
        add_braces(parts, alloc, what, number, file, name, &subcomponent.tail)?;
    }
    Ok(())
}

#[tactic(auto, unfolding(crate::specs::Unread::told_connections))]
fn add_behind_connections(
    parts: &mut List<Part>,
    alloc: Global,
    what: What,
    number: u32,
    connections: &[Connection],
) -> Mem<()>
    ensures { OnOk result (parts.new ≡ parts.old ++ told_connections what number connections.now) }
{
    for connection in connections {
        let (file, name) = (connection.spot.file, connection.name.text());
        add_braces(parts, alloc, what, number, file, name, &connection.tail)?;
    }
    Ok(())
}
