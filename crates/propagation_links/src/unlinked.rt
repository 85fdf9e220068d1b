//! The connections and user paths that give no link, though types are declared for a point that they name.

ghost use Rattle.std.specs.Prelude.{◌≡◌, ◌++◌, IfOk, OnOk, map, option_copied};
ghost use Rattle.plain_values.specs.Numbered.{numbered_from};
ghost use Rattle.instantiator.specs.Whole.{effective_in};
ghost use Rattle.propagation_links.specs.Unlinked.{all_unlinked, declares, declares_between, is_declared_at, is_unlinked, is_unlinked_path, told_connection, told_path, told_user_path, unlinked_in, unlinked_of};

use crate::ends::FoundEnd;
use crate::links::{add_connection, add_path, ends_of, is_access};
use crate::pointed::Pointed;
use aadl_syntax::{Connection, Ends, UserPath};
use component_extension::{Effective, InClause, Inherited};
use instantiator::Instance;
use plain_values::{List, Mem};
use propagation_points::Points;
use std::alloc::{AllocError, Global};

/// A connection or a user path of a component that gives no link: the number of the component, whether it is a user path, and its place
/// among the effective connections, or among the user paths. All numbers begin at 0.
#[derive(Clone, Copy, PartialEq, Eq)]
pub struct Unlinked {
    pub component: u32,
    pub is_path: bool,
    pub number: u32,
}

/// The connections and user paths of an instance that give no link, though types are declared for a point that they name, where
/// `points` has the points of each of its kinds, in order. For each component in order stand its connections and then its user paths.
pub fn find_unlinked<'a>(
    alloc: Global,
    instance: &Instance<'_, 'a>,
    points: &[&Points<'a>],
) -> Mem<List<Unlinked>>
    ensures { IfOk result (λ found. found ≡ unlinked_of instance.now (map (λ points. points.now) points.now)) }
{
    let pointed = Pointed::new(instance, points);
    all_unlinked(alloc, &pointed)
}

/// Those of all components.
fn all_unlinked(alloc: Global, pointed: &Pointed) -> Mem<List<Unlinked>>
    ensures { IfOk result (λ found. found ≡ all_unlinked pointed.now) }
{
    let mut found = List::new(alloc);
    for number in 0..pointed.instance().components().len() {
        add_component(&mut found, alloc, pointed, number as u32)?;
    }
    Ok(found)
}

/// Adds those of the component of a number.
fn add_component(
    found: &mut List<Unlinked>,
    alloc: Global,
    pointed: &Pointed,
    number: u32,
) -> Mem<()>
    ensures { OnOk result (found.new ≡ found.old ++ unlinked_in pointed.now number (effective_in pointed.now.instance number)) }
{
    match pointed.instance().effective(number) {
        Some(effective) => add_effective(found, alloc, pointed, number, effective),
        None => Ok(()),
    }
}

fn add_effective<'a>(
    found: &mut List<Unlinked>,
    alloc: Global,
    pointed: &Pointed<'_, '_, 'a>,
    number: u32,
    effective: &Effective<'a>,
) -> Mem<()>
    ensures { OnOk result (found.new ≡ found.old ++ unlinked_in pointed.now number effective.now) }
{
    let connections = effective.members.connections.items();
    add_connections(found, alloc, pointed, number, connections)?;
    let paths = effective.propagations.user_paths.items();
    add_paths(found, alloc, pointed, number, paths)
}

fn add_connections<'a>(
    found: &mut List<Unlinked>,
    alloc: Global,
    pointed: &Pointed<'_, '_, 'a>,
    number: u32,
    connections: &[Inherited<'a, Connection>],
) -> Mem<()>
    ensures { OnOk result (found.new ≡ found.old ++ numbered_from (told_connection pointed.now number) 0 connections.now) }
{
    for (place, connection) in connections.iter().enumerate() {
        add_unlinked(found, alloc, pointed, number, place, connection)?;
    }
    Ok(())
}

/// Adds a connection of this place, if it is one.
fn add_unlinked<'a>(
    found: &mut List<Unlinked>,
    alloc: Global,
    pointed: &Pointed<'_, '_, 'a>,
    number: u32,
    place: usize,
    connection: &Inherited<'a, Connection>,
) -> Mem<()>
    ensures { OnOk result (found.new ≡ found.old ++ told_connection pointed.now number place connection.now) }
{
    if place > 4_294_967_295 {
        return Err(AllocError);
    }
    if is_unlinked(alloc, pointed, number, connection)? {
        found.push(Unlinked {
            component: number,
            is_path: false,
            number: place as u32,
        })?;
    }
    Ok(())
}

/// Whether a connection gives no link, though types are declared for a point that it names.
fn is_unlinked<'a>(
    alloc: Global,
    pointed: &Pointed<'_, '_, 'a>,
    number: u32,
    connection: &Inherited<'a, Connection>,
) -> Mem<bool>
    ensures { IfOk result (λ answer. answer ≡ is_unlinked pointed.now number connection.now) }
{
    let mut links = List::new(alloc);
    add_connection(&mut links, pointed, number, connection)?;
    let access = is_access(connection.nearest().item().kind);
    Ok(links.items().is_empty() && declares(pointed, number, access, ends_of(connection)))
}

/// Whether types are declared for a point at one of the ends of a connection.
fn declares(pointed: &Pointed, number: u32, access: bool, ends: Option<&Ends>) -> bool
    ensures { result ≡ declares pointed.now number access (option_copied ends.entry) }
{
    match ends {
        Some(ends) => {
            let from = pointed.connection_end(number, access, ends.from.names.items());
            let to = pointed.connection_end(number, access, ends.to.names.items());
            declares_between(pointed, from, to)
        }
        None => false,
    }
}

fn add_paths<'a>(
    found: &mut List<Unlinked>,
    alloc: Global,
    pointed: &Pointed<'_, '_, 'a>,
    number: u32,
    paths: &[InClause<'a, UserPath>],
) -> Mem<()>
    ensures { OnOk result (found.new ≡ found.old ++ numbered_from (told_path pointed.now number) 0 paths.now) }
{
    for (place, path) in paths.iter().enumerate() {
        add_unlinked_path(found, alloc, pointed, number, place, path.item())?;
    }
    Ok(())
}

/// Adds a user path of this place, if it is one.
fn add_unlinked_path(
    found: &mut List<Unlinked>,
    alloc: Global,
    pointed: &Pointed,
    number: u32,
    place: usize,
    path: &UserPath,
) -> Mem<()>
    ensures { OnOk result (found.new ≡ found.old ++ told_user_path pointed.now number place path.now) }
{
    if place > 4_294_967_295 {
        return Err(AllocError);
    }
    if is_unlinked_path(alloc, pointed, number, path)? {
        found.push(Unlinked {
            component: number,
            is_path: true,
            number: place as u32,
        })?;
    }
    Ok(())
}

/// Whether a user path gives no link, though types are declared for a point that it names.
fn is_unlinked_path(alloc: Global, pointed: &Pointed, number: u32, path: &UserPath) -> Mem<bool>
    ensures { IfOk result (λ answer. answer ≡ is_unlinked_path pointed.now number path.now) }
{
    let mut links = List::new(alloc);
    add_path(&mut links, pointed, number, path)?;
    let from = pointed.path_end(number, path.from.names.items());
    let to = pointed.path_end(number, path.to.names.items());
    Ok(links.items().is_empty() && declares_between(pointed, from, to))
}

/// Whether types are declared for a point at one of two ends.
fn declares_between(pointed: &Pointed, from: Option<FoundEnd>, to: Option<FoundEnd>) -> bool
    ensures { result ≡ declares_between pointed.now from to }
{
    is_declared_at(pointed, from) || is_declared_at(pointed, to)
}

/// Whether types are declared for the point at an end, if one is found.
fn is_declared_at(pointed: &Pointed, end: Option<FoundEnd>) -> bool
    ensures { result ≡ is_declared_at pointed.now end }
{
    match end {
        Some(end) => pointed.has_types(end.component, end.point),
        None => false,
    }
}
